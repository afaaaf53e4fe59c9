//! Generated families, read.
#![tactic(auto)]

ghost use Rattle.std.specs.Prelude.{◌≡◌, ◌≤◌, ℤ, List, [], length, IfOk};
ghost use Rattle.std.specs.List.{All};
ghost use Rattle.linear_atoms.specs.Atoms.{AreAtoms};
ghost use Rattle.cpp_conditions.specs.Distinct.{HaveFewAtoms};
ghost use Rattle.cpp_conditions.specs.Naming.{AreFeatures};
ghost use Rattle.cpp_conditions.specs.Propositions.{IsBelow};
ghost use Rattle.cpp_conditions.specs.Validity.{plain, IsValid, AreFit};
ghost use Rattle.cpp_conditions.specs.View.{formula};
ghost use Rattle.c_tree.specs.Project.{IsConditioned};
ghost use Rattle.c_tree.specs.View.{whole};
ghost use Rattle.c_tree.specs.Whole.{IsProgram};
ghost use Rattle.c_parser.specs.FamilyReading.{IsFamilyOf};
ghost use Rattle.family_generator.specs.Features.{generated_dialect, generated_features};
ghost use Rattle.family_generator.specs.Texts.{generated_text};

use crate::laws::generated_families_are_accepted;
use crate::models::generated_model;
use crate::texts::generated_text;
use c_parser::{Family, read_family};
use cpp_conditions::Model;
use fam_outer::{Dialect, FileRefusal, Includes, NoMemory, Text, Unknown};
use std::alloc::Global;

/// A generated family: its model, its text, and the family that the text is read as; and how names and includes were read, as
/// those of any file without the options for it.
#[derive(Drop)]
pub struct GeneratedFamily {
    pub dialect: Dialect,
    pub model: Model,
    pub text: Text,
    pub family: Family,
}

/// The family that a generated text is read as over the generated model.
fn family_of(
    alloc: Global,
    dialect: Dialect,
    model: &Model,
    text: &Text,
    number: u32,
) -> Result<Family, NoMemory>
    requires dialect { dialect ≡ generated_dialect }
    requires number { number ≤ 2000 }
    requires features_are { model.now.features ≡ generated_features }
    requires constraints_are { model.now.constraints ≡ [] }
    requires text_is { text.now ≡ generated_text number }
    requires features { AreFeatures model.now.features }
    requires fit { AreFit (length model.now.features) model.now.constraints }
    requires few { HaveFewAtoms 64 (plain model.now).constraints }
    ensures spelled { IfOk result (λ f. IsFamilyOf dialect model.now text.now f) }
    ensures program { IfOk result (λ f. IsProgram (whole f.code)) }
    ensures conditioned { IfOk result (λ f. IsConditioned (length f.conditions) (whole f.code)) }
    ensures few { IfOk result (λ f. length f.atoms ≤ 320) }
    ensures atoms { IfOk result (λ f. AreAtoms (length model.now.features) f.atoms) }
    ensures below { IfOk result (λ f. All (λ c. IsBelow (length f.atoms) (formula c)) f.conditions) }
{
    generated_families_are_accepted();
    match read_family(alloc, dialect, model, text.bytes()) {
        Ok(family) => Ok(family),
        Err(FileRefusal::NoMemory) => Err(NoMemory),
        Err(FileRefusal::Fault { code: _, place: _ }) => unreachable!(),
    }
}

/// The generated family of `number` blocks, at most 2000, over the generated model, with its text. The only refusal
/// is want of memory, since such a text is accepted.
pub fn generated_family(alloc: Global, number: u32) -> Result<GeneratedFamily, NoMemory>
    requires { number ≤ 2000 }
    ensures dialect_is { IfOk result (λ made. made.dialect ≡ generated_dialect) }
    ensures features_are { IfOk result (λ made. made.model.features ≡ generated_features) }
    ensures constraints_are { IfOk result (λ made. made.model.constraints ≡ []) }
    ensures text_is { IfOk result (λ made. made.text ≡ generated_text number) }
    ensures spelled { IfOk result (λ made. IsFamilyOf made.dialect made.model made.text made.family) }
    ensures features { IfOk result (λ made. AreFeatures made.model.features) }
    ensures fit { IfOk result (λ made. AreFit (length made.model.features) made.model.constraints) }
    ensures few_constraints { IfOk result (λ made. HaveFewAtoms 64 (plain made.model).constraints) }
    ensures valid { IfOk result (λ made. (values : List ℤ) × IsValid (plain made.model) values) }
    ensures program { IfOk result (λ made. IsProgram (whole made.family.code)) }
    ensures conditioned { IfOk result (λ made.
        IsConditioned (length made.family.conditions) (whole made.family.code)) }
    ensures few { IfOk result (λ made. length made.family.atoms ≤ 320) }
    ensures atoms { IfOk result (λ made. AreAtoms (length made.model.features) made.family.atoms) }
    ensures below { IfOk result (λ made. All
        (λ c. IsBelow (length made.family.atoms) (formula c)) made.family.conditions) }
{
    let model = generated_model(alloc)?;
    let text = generated_text(alloc, number)?;
    let dialect = Dialect {
        unknown: Unknown::Zero,
        includes: Includes::Assert,
    };
    let family = family_of(alloc, dialect, &model, &text, number)?;
    Ok(GeneratedFamily {
        dialect,
        model,
        text,
        family,
    })
}

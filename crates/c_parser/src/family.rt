//! The program of a file with groups.
#![tactic(auto)]

ghost use Rattle.std.specs.Prelude.{◌≡◌, ◌+◌, ◌<◌, ◌≤◌, ◌^◌, length, IfOk};
ghost use Rattle.std.specs.List.{All};
ghost use Rattle.linear_atoms.specs.Atoms.{AreAtoms};
ghost use Rattle.cpp_conditions.specs.Distinct.{HaveFewAtoms};
ghost use Rattle.cpp_conditions.specs.Naming.{AreFeatures};
ghost use Rattle.cpp_conditions.specs.Propositions.{IsBelow};
ghost use Rattle.cpp_conditions.specs.Validity.{plain, AreFit};
ghost use Rattle.cpp_conditions.specs.View.{formula};
ghost use Rattle.c_tree.specs.Project.{IsConditioned};
ghost use Rattle.c_tree.specs.View.{whole};
ghost use Rattle.c_tree.specs.Whole.{IsProgram};
ghost use Rattle.c_grammar.specs.Laws.{AtMostOne};
ghost use Rattle.feature_values.specs.Declarators as values;
ghost use Rattle.feature_values.specs.Moved.{AddsTests};
ghost use Rattle.feature_values.specs.Values.{test_count};
ghost use Rattle.c_parser.specs.FamilyReading.{IsFamilyRead, uses_in};
ghost use Rattle.c_parser.specs.FamilyStages.{AreFileConditions};

use crate::family_items::{Conditions, list_family};
use crate::laws::family_names_occur;
use crate::numbering::Numbered;
use crate::phases::{FileKind, read_file};
use atom_solver::Prepared;
use c_grammar::Item;
use c_grammar::laws::{files_are_programs, spells_at_most_one, within_the_limits_is_a_file};
use c_tree::{Names, Program};
use cpp_conditions::Model;
use cpp_lines::{Atoms, Formulas};
use fam_outer::{Dialect, FileCode, FileRefusal, MOST_TESTS, MOST_VALUE_TESTS, NoMemory, Place};
use family_names::{NameContext, first_name_fault};
use feature_values::laws::{uses_stand, values_keep_programs};
use feature_values::{add_tests, add_values, uses};
use for_blocks::laws::names_stay;
use for_blocks::unfolded;
use std::alloc::Global;

/// A family: the program of a file with groups, the conditions of its group directives in their order with the tests of the
/// features that it uses as values behind them, and the atoms of the model and of these, which rise strictly. A formula has
/// the numbers of its condition's atoms.
#[derive(Debug, Drop)]
pub struct Family {
    pub code: Program,
    pub conditions: Formulas,
    pub atoms: Atoms,
}

/// Files with groups over a model.
#[derive(Drop)]
struct FamilyFiles<'a> {
    dialect: Dialect,
    model: &'a Model,
}

impl FileKind for FamilyFiles<'_> {
    ghost use Rattle.std.specs.Prelude.{◌≤◌, length};
    ghost use Rattle.cpp_conditions.specs.Distinct.{HaveFewAtoms};
    ghost use Rattle.cpp_conditions.specs.Naming.{AreFeatures};
    ghost use Rattle.cpp_conditions.specs.Validity.{plain, AreFit};
    ghost use Rattle.c_parser.specs.FamilyReading.{families_over};
    ghost use Rattle.c_parser.specs.FamilyStages.{AreProperConditions};

    type Known = Conditions;

    ghost meaning = { λ files. families_over files.dialect files.model.now };

    ghost is_ready = { λ files. AreFeatures files.model.now.features
        × AreFit (length files.model.now.features) files.model.now.constraints
        × HaveFewAtoms 64 (plain files.model.now).constraints };

    ghost has = { λ files l known. AreProperConditions (length files.model.now.features) l known };

    fn list(&self, alloc: Global, bytes: &[u8]) -> Result<(Numbered, Conditions), FileRefusal> {
        list_family(alloc, self.dialect, self.model, bytes)
    }

    fn name_fault(
        &self,
        alloc: Global,
        names: &Names,
        items: &[Item],
        known: &Conditions,
    ) -> Result<Option<(FileCode, Place)>, NoMemory> {
        let prepared = Prepared::new(alloc, self.model)?;
        let context = NameContext {
            model: &prepared,
            atoms: known.atoms.items(),
            conditions: known.formulas.items(),
            names: names.items(),
            functions: known.functions.items(),
        };
        let blocks = unfolded(alloc, items)?;
        first_name_fault(alloc, &context, blocks.as_slice())
    }
}

/// The family of a program and of its conditions: the tests of the features that it names stand behind these.
fn with_values(
    alloc: Global,
    model: &Model,
    code: Program,
    known: &Conditions,
) -> Result<Family, NoMemory>
    requires features { AreFeatures model.now.features }
    requires names { length (whole code).names < 2 ^ 32 }
    requires proper { AreFileConditions (length model.now.features) known.now }
    requires few { test_count model.now.features (uses_in model.now (whole code)) ≤ MOST_VALUE_TESTS }
    ensures code { IfOk result (λ f. whole f.code ≡ values.with_values (length known.now.formulas)
        model.now.features (uses_in model.now (whole code)) (whole code)) }
    ensures tests { IfOk result (λ f. AddsTests model.now.features (uses_in model.now (whole code))
        known.now.atoms known.now.formulas f.atoms f.conditions) }
    ensures count { IfOk result (λ f. length f.conditions
        ≡ length known.now.formulas + test_count model.now.features (uses_in model.now (whole code))) }
    ensures few { IfOk result (λ f. length f.atoms ≤ MOST_TESTS) }
    ensures atoms { IfOk result (λ f. AreAtoms (length model.now.features) f.atoms) }
    ensures below { IfOk result (λ f. All (λ c. IsBelow (length f.atoms) (formula c)) f.conditions) }
{
    uses_stand();
    let features = model.features.items();
    let formulas = known.formulas.items();
    let used = uses(alloc, features, code.names.items())?;
    let (atoms, conditions) = add_tests(alloc, features, &used, known.atoms.items(), formulas)?;
    Ok(Family {
        code: add_values(alloc, formulas.len() as u32, features, &used, code)?,
        conditions: Formulas::from_vec(conditions),
        atoms: Atoms::from_vec(atoms),
    })
}

/// The family that a file spells over a model. Over one list of names, a list of items spells at most one program.
///
/// The file is one as `read_plain` reads it, in which groups of `#if`, `#ifdef`, `#ifndef`, `#elif`, `#else` and `#endif`
/// may stand around whole declarations and whole statements, and behind `main` around nothing (ISO/IEC 9899:2011, 6.10.1):
/// so no group begins or ends in a declaration, before `main` or in it. In the program a group in a list of statements is a
/// `Cond`, with the number of its condition; an `#elif` opens one in the `no` side of the one before. Each declarator before
/// `main` stands with the guards of the groups around it; a declaration in `main` is read as a statement at each of its names,
/// as `read_plain` reads it, and so it may stand in a `Cond`. Each name is one that the file declares, before `main` or in it,
/// or that of an integer feature which it uses as a value: at most 16 variables before `main`, then at most 16 that `main`
/// declares, then the constants before `main`, and then the features, these two at most 16 together. The first declaration of
/// a name decides where it stands. A feature that is used has its value from tests of the feature, at most 256 in all, which
/// stand behind the conditions of the file: by a declarator for each value, with the guard of its test. So there are at most
/// 320 atoms. A file without group directives that names no feature gives a plain program.
///
/// The earliest of these phases that has a fault decides, and in a phase the first place: `TooLong`, `OpenComment`, `Splice`
/// and `CommentAtDirective` as `cpp_lines::blanked_file` has them; `Directive` to `TooManyTests` as
/// `cpp_lines::read_sections` has them; `StrayByte` and `Literal` as `c_tokens::tokens` has them, for the lines that are no
/// directives; at the first token or group directive, or the end, at which no file goes on, `GroupInsideStatement` where it
/// is a group directive, or an `else` directly behind one, and else `Syntax`; `TooDeep` at the first at which some file goes
/// on, but none within the limits (`read_plain` has them; a group and each `#elif` count as well); and then the first
/// fault of a name as `family_names::first_name_fault` has it, with the least valid configuration as its example, where a
/// `for` that declares variables stands as a block, since the scope of these ends with its statement (6.8.5p5). So a name that
/// `main` declares is `Undeclared` up to the end of its declarator and behind its block, unless each valid configuration that
/// keeps the use has another declaration of it in scope; it is `Twice` where one has another in scope at the declaration; and
/// the 17th that `main` declares is one of `TooManyVariables`. `NoMemory` is want of memory.
pub fn read_family(
    alloc: Global,
    dialect: Dialect,
    model: &Model,
    bytes: &[u8],
) -> Result<Family, FileRefusal>
    requires features { AreFeatures model.now.features }
    requires fit { AreFit (length model.now.features) model.now.constraints }
    requires few { HaveFewAtoms 64 (plain model.now).constraints }
    ensures reads { IsFamilyRead dialect model.now bytes.now result }
    ensures once { AtMostOne }
    ensures program { IfOk result (λ f. IsProgram (whole f.code)) }
    ensures conditioned { IfOk result (λ f. IsConditioned (length f.conditions) (whole f.code)) }
    ensures few { IfOk result (λ f. length f.atoms ≤ MOST_TESTS) }
    ensures atoms { IfOk result (λ f. AreAtoms (length model.now.features) f.atoms) }
    ensures below { IfOk result (λ f. All (λ c. IsBelow (length f.atoms) (formula c)) f.conditions) }
{
    spells_at_most_one();
    within_the_limits_is_a_file();
    files_are_programs();
    family_names_occur();
    names_stay();
    uses_stand();
    values_keep_programs();
    let (code, known) = read_file(alloc, &FamilyFiles { dialect, model }, bytes)?;
    Ok(with_values(alloc, model, code, &known)?)
}

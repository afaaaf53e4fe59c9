//! `features MODEL`: what a model leaves open of each feature.
#![tactic(auto)]

ghost use Rattle.std.specs.Prelude.{◌≡◌, [], ◌∷◌, Some, IfOk, IsOk};
ghost use Rattle.fam_outer.specs.Loading.{AreGiven, only};
ghost use Rattle.famlint_families.specs.FamilyAnswers.{AnswersFeatures, PromisedFeatures};
ghost use Rattle.famlint_families.specs.FeatureUses.{AreUsesDone};
ghost use Rattle.famlint_loads.specs.Loads.{IsReadOf, IsRight, IsUsable, model_source};

use command_words::Word;
use configuration_advice::{uses, uses_text};
use cpp_conditions::Model;
use fam_outer::{Files, NoMemory, Unknown};
use famlint_loads::{Done, Failure, load_model};
use std::alloc::Global;

/// What a model leaves open of each feature, as a text.
fn uses_done(alloc: Global, model: &Model) -> Result<Done, NoMemory>
    requires { IsUsable model.now }
    ensures { IfOk result (λ done. AreUsesDone model.now done) }
{
    let uses = uses(alloc, model)?;
    Ok(Done {
        text: uses_text(alloc, model.features.items(), &uses)?,
        status: 0,
    })
}

/// The work of `features`.
pub fn features<F: Files>(
    alloc: Global,
    model: &Word,
    unknown: Unknown,
    files: &mut F,
) -> Result<Done, Failure>
    ensures given { AreGiven F.loads (F.content files.old) files.old files.new (model_source model.now ∷ [])
        only (IsOk result) (λ bytes. IsRight (AnswersFeatures unknown bytes) PromisedFeatures
        (λ failed. failed ≡ Some model.now) (F.failed files.new) result) }
    ensures status { IfOk result (λ done. done.status ≡ 0) }
    ensures kept { F.content files.new ≡ F.content files.old }
    ensures read { IsReadOf (model.now ∷ []) (F.faults files.old) (F.faults files.new)
        (F.failed files.new) result }
{
    let model = load_model(alloc, unknown, model.as_str(), files)?;
    Ok(uses_done(alloc, &model)?)
}

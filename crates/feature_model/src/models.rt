//! Feature models read from JSON.
#![tactic(auto)]

ghost use Rattle.std.specs.Prelude.{◌≡◌, ◌≤◌, ℤ, List, length, IfOk};
ghost use Rattle.cpp_conditions.specs.Naming.{AreFeatures};
ghost use Rattle.cpp_conditions.specs.Distinct.{HaveFewAtoms};
ghost use Rattle.cpp_conditions.specs.Validity.{plain, IsValid, AreFit, AreOpen};
ghost use Rattle.serde_json.specs.View.{view};
ghost use Rattle.feature_model.specs.declared.faults.ModelFault.TheVariants as faults;
ghost use Rattle.feature_model.specs.Features.{AreDistinct, AreNamed, HaveSwitches};
ghost use Rattle.feature_model.specs.Models.{IsModelRead, Judges};
ghost use Rattle.feature_model.specs.Shapes.{outline};
ghost use Rattle.feature_model.specs.Stages.{Gives, or_fault, value_of, outlined, told_from, told_of};

use crate::constraints::{add_constraints, have_few_atoms};
use crate::faults::{ModelFault, ModelRefusal};
use crate::features::{fault_of, features as features_of};
use crate::shapes::{Outline, outline_of};
use atom_solver::least;
use cpp_conditions::{Conditions, Features, Model};
use fam_outer::{MODEL_BYTES, MOST_CONSTRAINTS, MOST_FEATURES, Text, Unknown};
use linear_atoms::Feature;
use serde_json::Value;
use std::alloc::Global;

/// The JSON value of the bytes.
fn value_of(alloc: Global, bytes: &[u8]) -> Result<Value, ModelRefusal>
    ensures { Gives view result (or_fault faults.Json (value_of bytes.now)) }
{
    match Value::from_slice(alloc, bytes) {
        Ok(value) => Ok(value),
        Err(error) => {
            if error.is_memory() {
                Err(ModelRefusal::NoMemory)
            } else {
                Err(ModelRefusal::Fault(ModelFault::Json))
            }
        }
    }
}

/// What the bytes say of features and constraints.
fn outlined(alloc: Global, bytes: &[u8]) -> Result<Outline, ModelRefusal>
    ensures { Gives outline result (outlined bytes.now) }
{
    if bytes.len() > MODEL_BYTES {
        return Err(ModelRefusal::Fault(ModelFault::TooLong));
    }
    let value = value_of(alloc, bytes)?;
    match outline_of(alloc, &value)? {
        Some(outline) => Ok(outline),
        None => Err(ModelRefusal::Fault(ModelFault::Shape)),
    }
}

/// The features of an outline.
fn told(alloc: Global, made: &Outline) -> Result<Vec<Feature>, ModelRefusal>
    ensures told { Gives (λ v. record { features = v.items; texts = made.now.texts.items }) result
        (told_from (outline made.now)) }
    ensures features { IfOk result (λ v. AreFeatures v.items) }
    ensures distinct { IfOk result (λ v. AreDistinct v.items) }
    ensures named { IfOk result (λ v. AreNamed v.items) }
    ensures switches { IfOk result (λ v. HaveSwitches v.items) }
    ensures few { IfOk result (λ _. length made.now.texts.items ≤ 256) }
{
    if made.entries.len() > MOST_FEATURES || made.texts.len() > MOST_CONSTRAINTS {
        return Err(ModelRefusal::Fault(ModelFault::TooMany));
    }
    match fault_of(&made.entries) {
        Some(fault) => Err(ModelRefusal::Fault(fault)),
        None => Ok(features_of(alloc, &made.entries)?),
    }
}

/// What the bytes say up to the constraints: the features, and the texts of the constraints.
fn told_of(alloc: Global, bytes: &[u8]) -> Result<(Vec<Feature>, Vec<Text>), ModelRefusal>
    ensures told { Gives (λ x. record { features = x.0.items; texts = x.1.items }) result
        (told_of bytes.now) }
    ensures features { IfOk result (λ x. AreFeatures x.0.items) }
    ensures distinct { IfOk result (λ x. AreDistinct x.0.items) }
    ensures named { IfOk result (λ x. AreNamed x.0.items) }
    ensures switches { IfOk result (λ x. HaveSwitches x.0.items) }
    ensures few { IfOk result (λ x. length x.1.items ≤ 256) }
{
    let outline = outlined(alloc, bytes)?;
    let features = told(alloc, &outline)?;
    let Outline { texts, .. } = outline;
    Ok((features, texts))
}

/// The model, if its constraints have few atoms and it has a valid configuration.
fn judged(alloc: Global, model: Model) -> Result<Model, ModelRefusal>
    requires features { AreFeatures model.features }
    requires constraints { AreFit (length model.features) model.constraints }
    ensures judged { Judges model result }
    ensures same { IfOk result (λ made. made ≡ model) }
{
    let are_few = have_few_atoms(alloc, model.constraints.items())?;
    if !are_few {
        return Err(ModelRefusal::Fault(ModelFault::TooManyTests));
    }
    let found = least(alloc, &model, &[])?;
    match found {
        Some(_) => Ok(model),
        None => Err(ModelRefusal::Fault(ModelFault::Void)),
    }
}

/// The model that the bytes say, with its features and its constraints in their order.
///
/// They are the text of one JSON object with the member `features`, an array, and perhaps `constraints`, an array of
/// texts. A feature is an object with `name`, a text, and either both or none of `min` and `max`, whole numbers of 64
/// bits. A feature without them is Boolean. The value is the one that `serde_json` reads: of equal members the last
/// counts.
///
/// Its refusals, in their order:
/// - `TooLong`, where there are more than 65,536 bytes;
/// - `Json`, where they are no JSON, or nested too deep;
/// - `Shape`, where the value has not the shape above, or another member;
/// - `TooMany`, where there are more than 32 features or more than 256 constraints;
/// - `Name`, at the first feature whose name is no identifier, begins with two underscores or is reserved;
/// - `Twice`, at the first feature whose name an earlier one has;
/// - `Range`, at the first feature whose range is empty or has an end of more than 2^20 in size;
/// - `Constraint`, at the first constraint that `read_condition` refuses;
/// - `TooManyTests`, where the constraints together have more than 64 distinct atoms;
/// - `Void`, where no configuration is valid.
///
/// The atoms of its constraints are well formed over its features, and the ranges decide none of them. It answers
/// `NoMemory` for want of memory.
pub fn read_model(alloc: Global, unknown: Unknown, bytes: &[u8]) -> Result<Model, ModelRefusal>
    ensures read { IsModelRead unknown bytes.now result }
    ensures features { IfOk result (λ made. AreFeatures made.features) }
    ensures distinct { IfOk result (λ made. AreDistinct made.features) }
    ensures named { IfOk result (λ made. AreNamed made.features) }
    ensures switches { IfOk result (λ made. HaveSwitches made.features) }
    ensures fit { IfOk result (λ made. AreFit (length made.features) made.constraints) }
    ensures undecided { IfOk result (λ made. AreOpen made.features made.constraints) }
    ensures atoms { IfOk result (λ made. HaveFewAtoms 64 (plain made).constraints) }
    ensures valid { IfOk result (λ made. (values : List ℤ) × IsValid (plain made) values) }
{
    let (features, texts) = told_of(alloc, bytes)?;
    let mut constraints = Vec::new(alloc);
    add_constraints(alloc, unknown, &features, &texts, 1, &mut constraints)?;
    judged(
        alloc,
        Model {
            features: Features::from_vec(features),
            constraints: Conditions::from_vec(constraints),
        },
    )
}

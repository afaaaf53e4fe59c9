//! Constraints, read one after another, and their distinct atoms.
#![tactic(auto)]

ghost use Rattle.std.specs.Prelude.{◌≡◌, ◌+◌, ◌<◌, ◌^◌, map, length, true, false, IfOk};
ghost use Rattle.cpp_conditions.specs.Distinct.{HaveFewAtoms, HaveMoreAtoms};
ghost use Rattle.cpp_conditions.specs.Naming.{AreFeatures};
ghost use Rattle.cpp_conditions.specs.Validity.{AreFit, AreOpen};
ghost use Rattle.cpp_conditions.specs.View.{proposition};
ghost use Rattle.feature_model.specs.Constraints as constraints;

use crate::faults::{ModelFault, ModelRefusal};
use cpp_conditions::{Condition, ConditionRefusal, distinct_atoms, no_macros, read_condition};
use fam_outer::{MOST_ATOMS, NoMemory, Text, Unknown};
use linear_atoms::Feature;
use linear_atoms::slices::cut;
use std::alloc::Global;

/// The refusal of the constraint of this number.
fn numbered(number: u32, refusal: ConditionRefusal) -> ModelRefusal
    ensures { result ≡ constraints.numbered number refusal }
{
    match refusal {
        ConditionRefusal::NoMemory => ModelRefusal::NoMemory,
        ConditionRefusal::Fault(fault) => {
            ModelRefusal::Fault(ModelFault::Constraint(number, fault))
        }
    }
}

/// Puts the constraints that the texts spell behind others. The number is that of the first text.
pub(crate) fn add_constraints(
    alloc: Global,
    unknown: Unknown,
    features: &[Feature],
    texts: &[Text],
    number: u32,
    made: &mut Vec<Condition>,
) -> Result<(), ModelRefusal>
    requires features { AreFeatures features.now }
    requires few { number + length texts.now < 2 ^ 32 }
    ensures read { constraints.Adds unknown features.now number texts.now made.old.items made.new.items result }
    ensures fit { AreFit (length features.now) made.old.items → AreFit (length features.now) made.new.items }
    ensures undecided { AreOpen features.now made.old.items → AreOpen features.now made.new.items }
{
    let Some((text, behind)) = cut(texts) else {
        return Ok(());
    };
    match read_condition(alloc, no_macros(unknown), features, text.bytes()) {
        Ok(condition) => made.push(condition)?,
        Err(refusal) => return Err(numbered(number, refusal)),
    }
    add_constraints(alloc, unknown, features, behind, number + 1, made)
}

/// Whether at most 64 different atoms stand in the conditions.
pub(crate) fn have_few_atoms(alloc: Global, conditions: &[Condition]) -> Result<bool, NoMemory>
    ensures few { IfOk result (λ few. few ≡ true → HaveFewAtoms 64 (map proposition conditions.now)) }
    ensures more { IfOk result (λ few. few ≡ false → HaveMoreAtoms 64 (map proposition conditions.now)) }
{
    match distinct_atoms(alloc, conditions, MOST_ATOMS)? {
        Some(_) => Ok(true),
        None => Ok(false),
    }
}

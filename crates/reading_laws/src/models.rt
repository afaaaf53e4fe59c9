//! Laws of models: each function does nothing, and its contract is the law.
#![tactic(auto)]

ghost use Rattle.reading_laws.specs.Models.{AtomsAreFewOrMore, ConditionsHaveAtoms, ModelsAreReadOrRefused, ModelsAreValidOrVoid, ModelsHaveAnswers};

use cpp_conditions::laws::bytes_have_a_reading;

/// All bytes are a model or have a refusal, by the relation of `read_model`'s contract: the rules leave no bytes open. For all
/// bytes there is an answer of `read_model` that keeps each clause of its contract and is not want of memory; where it is a fault
/// of a feature or a constraint, it has the number of one, from 1 to 32 or to 256. That there is only one answer is
/// `bytes_say_one_model` of `feature_model`.
pub fn bytes_say_some_model()
    ensures some { ModelsAreReadOrRefused }
    ensures answer { ModelsHaveAnswers }
{
    bytes_have_a_reading();
}

/// Conditions have a list of their distinct atoms, and so at most so many of them or more.
pub fn conditions_have_lists_of_atoms()
    ensures list { ConditionsHaveAtoms }
    ensures count { AtomsAreFewOrMore }
{}

/// A model has a valid configuration, or it has none.
pub fn models_are_valid_or_void()
    ensures { ModelsAreValidOrVoid }
{}

//! Laws of what is answered once: each function does nothing, and its contract is the law.
#![tactic(auto)]

ghost use Rattle.advice_laws.specs.Once.{AdviceIsOne, UsesAreOne};

/// What a model leaves open of its features is one answer, over models with the same features and the same constraints.
pub fn uses_are_one()
    ensures { UsesAreOne }
{}

/// The nearest configuration without alarms is one, or there is none, over such models and trees of alarms that are true at
/// the same valid configurations.
pub fn advice_is_one()
    ensures { AdviceIsOne }
{}

//! Conditions over atoms.
#![tactic(auto)]

ghost use Rattle.std.specs.Prelude.{◌≡◌, length, IfOk};
ghost use Rattle.linear_atoms.specs.Atoms.{AreValues};
ghost use Rattle.cpp_conditions.specs.Propositions.{Not, And, Or, IsFit, true_at};
ghost use Rattle.cpp_conditions.specs.View.{proposition};

use fam_outer::NoMemory;
use linear_atoms::{Atom, Config};
use std::alloc::Global;

/// A condition over atoms.
#[derive(Debug, Drop)]
pub enum Condition {
    Const(bool),
    Test(Atom),
    Not(Box<Condition>),
    And(Box<Condition>, Box<Condition>),
    Or(Box<Condition>, Box<Condition>),
}

impl Condition {
    /// Whether the condition is true at a configuration, which has each feature that it names.
    pub fn at(&self, config: &Config) -> bool
        requires fit { IsFit (length config.now.values) (proposition self.now) }
        requires values { AreValues config.now.values }
        ensures { result ≡ true_at config.now.values (proposition self.now) }
    {
        match self {
            Condition::Const(truth) => *truth,
            Condition::Test(atom) => atom.truth(config),
            Condition::Not(inner) => !inner.at(config),
            Condition::And(left, right) => left.at(config) && right.at(config),
            Condition::Or(left, right) => left.at(config) || right.at(config),
        }
    }
}

/// The negation of a condition. It answers an error only for want of memory.
pub fn negation(alloc: Global, condition: Condition) -> Result<Condition, NoMemory>
    ensures { IfOk result (λ made. proposition made ≡ Not (proposition condition)) }
{
    Ok(Condition::Not(Box::new(alloc, condition)?))
}

/// Both conditions. It answers an error only for want of memory.
pub fn both(alloc: Global, left: Condition, right: Condition) -> Result<Condition, NoMemory>
    ensures { IfOk result (λ made. proposition made ≡ And (proposition left) (proposition right)) }
{
    Ok(Condition::And(Box::new(alloc, left)?, Box::new(alloc, right)?))
}

/// One of the conditions or both. It answers an error only for want of memory.
pub fn either(alloc: Global, left: Condition, right: Condition) -> Result<Condition, NoMemory>
    ensures { IfOk result (λ made. proposition made ≡ Or (proposition left) (proposition right)) }
{
    Ok(Condition::Or(Box::new(alloc, left)?, Box::new(alloc, right)?))
}

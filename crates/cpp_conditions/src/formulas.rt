//! Formulas: conditions with the numbers of their atoms.
#![tactic(auto)]

ghost use Rattle.std.specs.Prelude.{◌≡◌, ℤ, ◌<◌, ◌≤◌, ◌^◌, List, length, slice_get, Some, IfOk};
ghost use Rattle.cpp_conditions.specs.Numbering.{IsAmong, AreAmong, IsNumbered, vector_at};
ghost use Rattle.cpp_conditions.specs.Propositions.{Not, And, Or, IsBelow, true_at, true_on};
ghost use Rattle.cpp_conditions.specs.View.{proposition, formula};

use crate::conditions::Condition;
use crate::expected::expected_place;
use fam_outer::NoMemory;
use linear_atoms::Atom;
use linear_atoms::slices::cut;
use std::alloc::Global;

/// A condition whose tests are numbers of atoms.
#[derive(Debug, Drop)]
pub enum Formula {
    Const(bool),
    Test(u32),
    Not(Box<Formula>),
    And(Box<Formula>, Box<Formula>),
    Or(Box<Formula>, Box<Formula>),
}

impl Formula {
    /// Whether the formula is true where its tests have these truths; each of its numbers is below the length.
    pub fn on(&self, vector: &[bool]) -> bool
        requires { IsBelow (length vector.now) (formula self.now) }
        ensures { result ≡ true_on vector.now (formula self.now) }
    {
        match self {
            Formula::Const(truth) => *truth,
            Formula::Test(number) => vector[*number as usize],
            Formula::Not(inner) => !inner.on(vector),
            Formula::And(left, right) => left.on(vector) && right.on(vector),
            Formula::Or(left, right) => left.on(vector) || right.on(vector),
        }
    }

    /// A copy of the formula.
    pub fn copy(&self, alloc: Global) -> Result<Formula, NoMemory>
        ensures { IfOk result (λ made. formula made ≡ formula self.now) }
    {
        match self {
            Formula::Const(truth) => Ok(Formula::Const(*truth)),
            Formula::Test(number) => Ok(Formula::Test(*number)),
            Formula::Not(inner) => {
                let inner = inner.copy(alloc)?;
                negation(alloc, inner)
            }
            Formula::And(left, right) => {
                let left = left.copy(alloc)?;
                let right = right.copy(alloc)?;
                both(alloc, left, right)
            }
            Formula::Or(left, right) => {
                let left = left.copy(alloc)?;
                let right = right.copy(alloc)?;
                either(alloc, left, right)
            }
        }
    }
}

/// The negation of a formula. It answers an error only for want of memory.
pub fn negation(alloc: Global, inner: Formula) -> Result<Formula, NoMemory>
    ensures { IfOk result (λ made. formula made ≡ Not (formula inner)) }
{
    Ok(Formula::Not(Box::new(alloc, inner)?))
}

/// Both formulas. It answers an error only for want of memory.
pub fn both(alloc: Global, left: Formula, right: Formula) -> Result<Formula, NoMemory>
    ensures { IfOk result (λ made. formula made ≡ And (formula left) (formula right)) }
{
    Ok(Formula::And(Box::new(alloc, left)?, Box::new(alloc, right)?))
}

/// One of the formulas or both. It answers an error only for want of memory.
pub fn either(alloc: Global, left: Formula, right: Formula) -> Result<Formula, NoMemory>
    ensures { IfOk result (λ made. formula made ≡ Or (formula left) (formula right)) }
{
    Ok(Formula::Or(Box::new(alloc, left)?, Box::new(alloc, right)?))
}

/// The first place of an atom in a list that has it.
fn place(atoms: &[Atom], atom: &Atom) -> u32
    requires { length atoms.now < 2 ^ 32 }
    ensures place { IsAmong atom.now atoms.now → slice_get atoms.now result ≡ Some atom.now }
    ensures bound { result ≤ length atoms.now }
{
    match cut(atoms) {
        None => 0,
        Some((first, behind)) => {
            if first == atom {
                0
            } else {
                1 + place(behind, atom)
            }
        }
    }
}

/// The number of an atom in a list that has it.
fn number_of(atoms: &[Atom], atom: &Atom) -> u32
    requires { length atoms.now < 2 ^ 32 }
    ensures { IsAmong atom.now atoms.now → slice_get atoms.now result ≡ Some atom.now }
{
    match expected_place(atoms, atom) {
        Some(number) => number as u32,
        None => place(atoms, atom),
    }
}

/// The condition with the numbers of its atoms in the list.
fn numbered(alloc: Global, condition: &Condition, atoms: &[Atom]) -> Result<Formula, NoMemory>
    requires among { AreAmong atoms.now (proposition condition.now) }
    requires few { length atoms.now < 2 ^ 32 }
    ensures { IfOk result (λ made. IsNumbered atoms.now (proposition condition.now) (formula made)) }
{
    match condition {
        Condition::Const(truth) => Ok(Formula::Const(*truth)),
        Condition::Test(atom) => Ok(Formula::Test(number_of(atoms, atom))),
        Condition::Not(inner) => {
            let inner = numbered(alloc, inner, atoms)?;
            negation(alloc, inner)
        }
        Condition::And(left, right) => {
            let left = numbered(alloc, left, atoms)?;
            let right = numbered(alloc, right, atoms)?;
            both(alloc, left, right)
        }
        Condition::Or(left, right) => {
            let left = numbered(alloc, left, atoms)?;
            let right = numbered(alloc, right, atoms)?;
            either(alloc, left, right)
        }
    }
}

#[tactic(auto, using(crate::proofs::Numbers::numbered_below, crate::proofs::Numbers::numbered_truth))]
/// The condition with the numbers of its atoms in the list, which has them all. It has the same truth at every
/// configuration, and each number is below the list's length. It answers an error only for want of memory.
pub fn number(alloc: Global, condition: &Condition, atoms: &[Atom]) -> Result<Formula, NoMemory>
    requires among { AreAmong atoms.now (proposition condition.now) }
    requires few { length atoms.now < 2 ^ 32 }
    ensures numbered { IfOk result (λ made. IsNumbered atoms.now (proposition condition.now) (formula made)) }
    ensures below { IfOk result (λ made. IsBelow (length atoms.now) (formula made)) }
    ensures truth { IfOk result (λ made. (values : List ℤ)
        → true_on (vector_at atoms.now values) (formula made) ≡ true_at values (proposition condition.now)) }
{
    let made = numbered(alloc, condition, atoms)?;
    Ok(made)
}

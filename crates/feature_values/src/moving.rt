//! Atoms with new numbers, and formulas over them.
#![tactic(auto)]

ghost use Rattle.std.specs.Prelude.{◌≡◌, ◌<◌, ◌^◌, length, slice_get, slice_index_or, Some, IfOk};
ghost use Rattle.cpp_conditions.specs.Numbering.{IsAmong};
ghost use Rattle.linear_atoms.specs.declared.atoms.Atom.{Atom};
ghost use Rattle.cpp_conditions.specs.View.{formula};
ghost use Rattle.feature_values.specs.Moved as specs;

use cpp_conditions::formulas::{both, either, negation};
use cpp_conditions::{Condition, Formula, number};
use fam_outer::NoMemory;
use linear_atoms::Atom;
use std::alloc::Global;

/// The number of the atom that a formula tests, or 0 where it is no test.
fn test_number(test: &Formula) -> u32
    ensures { result ≡ specs.test_number (formula test.now) }
{
    match test {
        Formula::Test(number) => *number,
        Formula::Const(_) => 0,
        Formula::Not(_) => 0,
        Formula::And(..) => 0,
        Formula::Or(..) => 0,
    }
}

/// The number of an atom in a list that has it.
fn number_in(alloc: Global, atoms: &[Atom], atom: &Atom) -> Result<u32, NoMemory>
    requires among { IsAmong atom.now atoms.now }
    requires few { length atoms.now < 2 ^ 32 }
    ensures { IfOk result (λ made. slice_get atoms.now made ≡ Some atom.now) }
{
    let test = Condition::Test(atom.copy(alloc)?);
    let made = number(alloc, &test, atoms)?;
    Ok(test_number(&made))
}

/// The numbers of atoms in a list that has them all.
pub(crate) fn new_numbers(alloc: Global, old: &[Atom], new: &[Atom]) -> Result<Vec<u32>, NoMemory>
    requires kept { (a : Atom) → IsAmong a old.now → IsAmong a new.now }
    requires few { length new.now < 2 ^ 32 }
    ensures numbers { IfOk result (λ made. specs.AreNewNumbers old.now new.now made.items) }
    ensures length { IfOk result (λ made. length made.items ≡ length old.now) }
{
    let mut made = Vec::new(alloc);
    for atom in old {
        made.push(number_in(alloc, new, atom)?)?;
    }
    Ok(made)
}

/// The new number of an atom.
fn new_number(numbers: &[u32], old: u32) -> u32
    ensures { result ≡ slice_index_or numbers.now old 0 }
{
    match numbers.get(old as usize) {
        None => 0,
        Some(new) => *new,
    }
}

/// A formula with the new number of each atom.
pub(crate) fn moved(alloc: Global, old: &Formula, numbers: &[u32]) -> Result<Formula, NoMemory>
    ensures { IfOk result (λ made. formula made ≡ specs.moved numbers.now (formula old.now)) }
{
    match old {
        Formula::Const(truth) => Ok(Formula::Const(*truth)),
        Formula::Test(number) => Ok(Formula::Test(new_number(numbers, *number))),
        Formula::Not(inner) => {
            let inner = moved(alloc, inner, numbers)?;
            negation(alloc, inner)
        }
        Formula::And(left, right) => {
            let left = moved(alloc, left, numbers)?;
            let right = moved(alloc, right, numbers)?;
            both(alloc, left, right)
        }
        Formula::Or(left, right) => {
            let left = moved(alloc, left, numbers)?;
            let right = moved(alloc, right, numbers)?;
            either(alloc, left, right)
        }
    }
}

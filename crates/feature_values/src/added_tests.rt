//! The tests of the values of features, beside the atoms and the conditions of a family.
#![tactic(auto)]

ghost use Rattle.std.specs.Prelude.{◌≡◌, ◌+◌, ◌≤◌, ◌<◌, ◌^◌, unsigned_abs, ◌++◌, length, map, OnOk, IfOk};
ghost use Rattle.std.specs.List.{All};
ghost use Rattle.linear_atoms.specs.Atoms.{AreAtoms, AreRanges};
ghost use Rattle.linear_atoms.specs.Rising.{AreRising};
ghost use Rattle.cpp_conditions.specs.Numbering.{AreAllAmong};
ghost use Rattle.cpp_conditions.specs.Propositions.{IsBelow};
ghost use Rattle.cpp_conditions.specs.View.{proposition, formula};
ghost use Rattle.cpp_lines.specs.Sections.{AreNumbered};
ghost use Rattle.feature_values.specs.Moved.{AddsTests, AreAdded, moved as moved_by};
ghost use Rattle.feature_values.specs.Values.{AreUses, tests_above, tests_of, test_count};

use crate::feature_uses::{Use, width};
use crate::moving::{moved, new_numbers};
use cpp_conditions::{Condition, Formula, add_atoms, number};
use fam_outer::NoMemory;
use linear_atoms::slices::cut;
use linear_atoms::{Atom, Feature, Terms};
use std::alloc::Global;

/// Adds the tests that a feature is at least each of so many numbers above this one.
fn add_tests_above(
    alloc: Global,
    made: &mut Vec<Condition>,
    feature: u32,
    low: i64,
    count: u32,
) -> Result<(), NoMemory>
    requires low { unsigned_abs low ≤ 1048576 }
    ensures { OnOk result (map proposition made.new.items ≡ map proposition made.old.items ++ tests_above feature low count) }
{
    let mut bound = low;
    let mut left = count;
    'above: while left > 0 {
        let terms = Terms::single(alloc, feature, 1)?;
        bound += 1;
        made.push(Condition::Test(Atom { terms, bound }))?;
        left -= 1;
    }
    Ok(())
}

/// The tests that tell the values of features that are used.
fn tests(alloc: Global, features: &[Feature], uses: &[Use]) -> Result<Vec<Condition>, NoMemory>
    requires ranges { AreRanges features.now }
    requires uses { AreUses features.now uses.now }
    ensures { IfOk result (λ made. map proposition made.items ≡ tests_of features.now uses.now) }
{
    let mut made = Vec::new(alloc);
    let mut rest = uses;
    'uses: while let Some((used, behind)) = cut(rest) {
        let feature = &features[used.feature as usize];
        add_tests_above(alloc, &mut made, used.feature, feature.low, width(feature))?;
        rest = behind;
    }
    Ok(made)
}

/// A copy of atoms.
fn atom_copies(alloc: Global, atoms: &[Atom]) -> Result<Vec<Atom>, NoMemory>
    ensures { IfOk result (λ made. made.items ≡ atoms.now) }
{
    let mut made = Vec::new(alloc);
    for atom in atoms {
        made.push(atom.copy(alloc)?)?;
    }
    Ok(made)
}

/// Puts the atoms of conditions at their places in a list that rises.
fn add_all(alloc: Global, atoms: &mut Vec<Atom>, conditions: &[Condition]) -> Result<(), NoMemory>
    ensures { OnOk result (AreAdded (map proposition conditions.now) atoms.old.items atoms.new.items) }
{
    for condition in conditions {
        add_atoms(alloc, atoms, condition)?;
    }
    Ok(())
}

/// The formulas with the new number of each atom.
fn all_moved(alloc: Global, formulas: &[Formula], numbers: &[u32]) -> Result<Vec<Formula>, NoMemory>
    ensures { IfOk result (λ made. map formula made.items ≡ map (λ f. moved_by numbers.now (formula f)) formulas.now) }
{
    let mut made = Vec::new(alloc);
    for old in formulas {
        made.push(moved(alloc, old, numbers)?)?;
    }
    Ok(made)
}

/// The formulas of conditions over a list that has their atoms.
fn formulas_of(
    alloc: Global,
    conditions: &[Condition],
    atoms: &[Atom],
) -> Result<Vec<Formula>, NoMemory>
    requires among { AreAllAmong atoms.now (map proposition conditions.now) }
    requires few { length atoms.now < 2 ^ 32 }
    ensures numbered { IfOk result (λ made. AreNumbered atoms.now
        (map proposition conditions.now) made.items) }
{
    let mut made = Vec::new(alloc);
    for condition in conditions {
        made.push(number(alloc, condition, atoms)?)?;
    }
    Ok(made)
}

/// The atoms with those of the tests that tell the values of features that are used, and the formulas over them, with
/// one for each test behind them.
///
/// Where the atoms are the distinct ones of a model's constraints and of conditions, in their order, and the formulas
/// have the numbers of the conditions' atoms, the same holds of what it answers, for the conditions with the tests behind
/// them. It answers an error only for want of memory.
pub fn add_tests(
    alloc: Global,
    features: &[Feature],
    uses: &[Use],
    atoms: &[Atom],
    formulas: &[Formula],
) -> Result<(Vec<Atom>, Vec<Formula>), NoMemory>
    requires ranges { AreRanges features.now }
    requires uses { AreUses features.now uses.now }
    requires rising { AreRising atoms.now }
    requires fit { AreAtoms (length features.now) atoms.now }
    requires below { All (λ f. IsBelow (length atoms.now) (formula f)) formulas.now }
    requires few { length atoms.now + test_count features.now uses.now < 2 ^ 32 }
    ensures tests { IfOk result (λ made. AddsTests features.now uses.now atoms.now formulas.now made.0.items made.1.items) }
    ensures atoms { IfOk result (λ made. AreAtoms (length features.now) made.0.items) }
    ensures rising { IfOk result (λ made. AreRising made.0.items) }
    ensures few { IfOk result (λ made. length made.0.items ≤ length atoms.now + test_count features.now uses.now) }
    ensures below { IfOk result (λ made. All (λ f. IsBelow (length made.0.items) (formula f)) made.1.items) }
    ensures count { IfOk result (λ made. length made.1.items ≡ length formulas.now + test_count features.now uses.now) }
{
    let tests = tests(alloc, features, uses)?;
    let mut new = atom_copies(alloc, atoms)?;
    add_all(alloc, &mut new, &tests)?;
    let numbers = new_numbers(alloc, atoms, &new)?;
    let mut made = all_moved(alloc, formulas, &numbers)?;
    let mut behind = formulas_of(alloc, &tests, &new)?;
    made.append(&mut behind)?;
    Ok((new, made))
}

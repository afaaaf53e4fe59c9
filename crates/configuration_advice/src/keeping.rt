//! That features keep their given values, as formulas over tests.
#![tactic(auto)]

ghost use Rattle.std.specs.Prelude.{◌≡◌, ◌+◌, ◌*◌, ◌<◌, ◌≤◌, ◌^◌, ◌++◌, [], ◌∷◌, pos, ◌+ℤ◌, ℕ, ℤ, List, Some, map, drop, length, slice_get, unsigned_abs, IfOk, IfSome};
ghost use Rattle.std.specs.List.{All};
ghost use Rattle.linear_atoms.specs.declared.atoms.Feature.{Feature};
ghost use Rattle.cpp_conditions.specs.declared.formulas.Formula.{Formula};
ghost use Rattle.linear_atoms.specs.Atoms.{AreAtoms, AreValues, IsAtom, IsWithin};
ghost use Rattle.cpp_conditions.specs.Numbering.{vector_at};
ghost use Rattle.cpp_conditions.specs.Propositions.{IsBelow};
ghost use Rattle.cpp_conditions.specs.View.{formula};
ghost use Rattle.configuration_advice.specs.Changes.{Extends, SaysKept, unkept};
ghost use Rattle.configuration_advice.specs.Nearest.{differing};
ghost use Rattle.configuration_advice.specs.Tests.{at_least};

use crate::asking::at_least;
use cpp_conditions::Formula;
use cpp_conditions::formulas::{both, negation};
use fam_outer::{MOST_VALUE, NoMemory};
use linear_atoms::slices::cut;
use linear_atoms::{Atom, Feature};
use std::alloc::Global;

/// Copies of atoms.
pub(crate) fn copies(alloc: Global, atoms: &[Atom]) -> Result<Vec<Atom>, NoMemory>
    ensures { IfOk result (λ made. made.items ≡ atoms.now) }
{
    let mut list = Vec::new(alloc);
    for atom in atoms {
        list.push(atom.copy(alloc)?)?;
    }
    Ok(list)
}

/// Adds the two tests of a feature: that it has at least the value, and that it has more.
pub(crate) fn push_pair(
    alloc: Global,
    list: &mut Vec<Atom>,
    number: u32,
    value: i64,
) -> Result<(), NoMemory>
    requires { unsigned_abs value ≤ MOST_VALUE }
    ensures { IfOk result (λ _. list.new.items
        ≡ list.old.items ++ (at_least number value ∷ at_least number (value +ℤ pos 1) ∷ [])) }
{
    list.push(at_least(alloc, number, value)?)?;
    list.push(at_least(alloc, number, value + 1)?)?;
    Ok(())
}

/// The number of an atom in a list, if it stands there.
fn place_of(atoms: &[Atom], atom: &Atom) -> Option<usize>
    ensures there { IfSome result (λ place. slice_get atoms.now place ≡ Some atom.now) }
    ensures bound { IfSome result (λ place. place < length atoms.now) }
{
    let (first, behind) = cut(atoms)?;
    if first == atom {
        return Some(0);
    }
    let place = place_of(behind, atom)?;
    Some(place + 1)
}

/// The number of an atom in a list, behind which it is put where it does not stand there.
fn test_of(atoms: &mut Vec<Atom>, atom: Atom) -> Result<u32, NoMemory>
    requires few { length atoms.old.items < 2 ^ 32 }
    ensures there { IfOk result (λ test. slice_get atoms.new.items test ≡ Some atom) }
    ensures extends { IfOk result (λ _. Extends atoms.old.items atoms.new.items) }
    ensures fits { IfOk result (λ _. (count : ℕ) → AreAtoms count atoms.old.items → IsAtom count atom → AreAtoms count atoms.new.items) }
    ensures length { IfOk result (λ _. length atoms.new.items ≤ length atoms.old.items + 1) }
{
    if let Some(place) = place_of(atoms, &atom) {
        return Ok(place as u32);
    }
    let test = atoms.len() as u32;
    atoms.push(atom)?;
    Ok(test)
}

/// The formula that a feature has the least value of its range.
fn kept_low(
    alloc: Global,
    atoms: &mut Vec<Atom>,
    number: u32,
    value: i64,
) -> Result<Formula, NoMemory>
    requires few { length atoms.old.items < 2 ^ 32 }
    requires value { unsigned_abs value ≤ MOST_VALUE }
    ensures says { IfOk result (λ made. (feature : Feature) → feature.low ≡ value
        → SaysKept atoms.new.items feature number value (formula made)) }
    ensures below { IfOk result (λ made. IsBelow (length atoms.new.items) (formula made)) }
    ensures extends { IfOk result (λ _. Extends atoms.old.items atoms.new.items) }
    ensures fits { IfOk result (λ _. (count : ℕ) → AreAtoms count atoms.old.items → number < count → AreAtoms count atoms.new.items) }
    ensures length { IfOk result (λ _. length atoms.new.items ≤ length atoms.old.items + 2) }
{
    let test = test_of(atoms, at_least(alloc, number, value + 1)?)?;
    let made = negation(alloc, Formula::Test(test))?;
    Ok(made)
}

/// The formula that a feature has the greatest value of its range.
fn kept_high(
    alloc: Global,
    atoms: &mut Vec<Atom>,
    number: u32,
    value: i64,
) -> Result<Formula, NoMemory>
    requires few { length atoms.old.items < 2 ^ 32 }
    requires value { unsigned_abs value ≤ MOST_VALUE }
    ensures says { IfOk result (λ made. (feature : Feature) → feature.high ≡ value
        → SaysKept atoms.new.items feature number value (formula made)) }
    ensures below { IfOk result (λ made. IsBelow (length atoms.new.items) (formula made)) }
    ensures extends { IfOk result (λ _. Extends atoms.old.items atoms.new.items) }
    ensures fits { IfOk result (λ _. (count : ℕ) → AreAtoms count atoms.old.items → number < count → AreAtoms count atoms.new.items) }
    ensures length { IfOk result (λ _. length atoms.new.items ≤ length atoms.old.items + 2) }
{
    let test = test_of(atoms, at_least(alloc, number, value)?)?;
    Ok(Formula::Test(test))
}

/// The formula that a feature has a value between the ends of its range: by two tests of its own, which stand side by side, so
/// that a tree of many such formulas stays small.
fn kept_between(
    alloc: Global,
    atoms: &mut Vec<Atom>,
    number: u32,
    value: i64,
) -> Result<Formula, NoMemory>
    requires few { length atoms.old.items + 2 < 2 ^ 32 }
    requires value { unsigned_abs value ≤ MOST_VALUE }
    ensures says { IfOk result (λ made. (feature : Feature)
        → SaysKept atoms.new.items feature number value (formula made)) }
    ensures below { IfOk result (λ made. IsBelow (length atoms.new.items) (formula made)) }
    ensures extends { IfOk result (λ _. Extends atoms.old.items atoms.new.items) }
    ensures fits { IfOk result (λ _. (count : ℕ) → AreAtoms count atoms.old.items → number < count → AreAtoms count atoms.new.items) }
    ensures length { IfOk result (λ _. length atoms.new.items ≤ length atoms.old.items + 2) }
{
    let first = atoms.len() as u32;
    push_pair(alloc, atoms, number, value)?;
    let above = negation(alloc, Formula::Test(first + 1))?;
    let made = both(alloc, Formula::Test(first), above)?;
    Ok(made)
}

/// The formula that a feature has a value of its range. Where that is an end of the range one test tells it, and one of the
/// atoms if that is there.
fn kept(
    alloc: Global,
    atoms: &mut Vec<Atom>,
    feature: &Feature,
    number: u32,
    value: i64,
) -> Result<Formula, NoMemory>
    requires few { length atoms.old.items + 2 < 2 ^ 32 }
    requires value { unsigned_abs value ≤ MOST_VALUE }
    ensures says { IfOk result (λ made. SaysKept atoms.new.items feature.now number value (formula made)) }
    ensures below { IfOk result (λ made. IsBelow (length atoms.new.items) (formula made)) }
    ensures extends { IfOk result (λ _. Extends atoms.old.items atoms.new.items) }
    ensures fits { IfOk result (λ _. (count : ℕ) → AreAtoms count atoms.old.items → number < count → AreAtoms count atoms.new.items) }
    ensures length { IfOk result (λ _. length atoms.new.items ≤ length atoms.old.items + 2) }
{
    if value == feature.low {
        kept_low(alloc, atoms, number, value)
    } else if value == feature.high {
        kept_high(alloc, atoms, number, value)
    } else {
        kept_between(alloc, atoms, number, value)
    }
}

/// For each feature from this number on the formula that it keeps its given value, the last feature's first; the tests that it
/// takes are put behind the atoms, where they are not among them.
pub(crate) fn all_kept(
    alloc: Global,
    atoms: &mut Vec<Atom>,
    features: &[Feature],
    given: &[i64],
    number: u32,
) -> Result<Vec<Formula>, NoMemory>
    requires few { length atoms.old.items + 2 * length given.now < 2 ^ 32 }
    requires numbers { number + length given.now < 2 ^ 32 }
    requires values { AreValues given.now }
    ensures changes { IfOk result (λ made. (values : List ℤ) → IsWithin features.now (drop number values)
        → unkept (map formula made.items) (vector_at atoms.new.items values) ≡ differing given.now (drop number values)) }
    ensures below { IfOk result (λ made. All (λ (f : Formula). IsBelow (length atoms.new.items) (formula f)) made.items) }
    ensures count { IfOk result (λ made. length made.items ≤ length given.now) }
    ensures extends { IfOk result (λ _. Extends atoms.old.items atoms.new.items) }
    ensures fits { IfOk result (λ _. (count : ℕ) → AreAtoms count atoms.old.items
        → number + length given.now ≤ count → AreAtoms count atoms.new.items) }
{
    let (Some((feature, behind)), Some((value, others))) = (cut(features), cut(given)) else {
        return Ok(Vec::new(alloc));
    };
    let one = kept(alloc, atoms, feature, number, *value)?;
    let mut all = all_kept(alloc, atoms, behind, others, number + 1)?;
    all.push(one)?;
    Ok(all)
}

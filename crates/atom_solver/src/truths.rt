//! What is known of the truths of numbered tests, and what follows from them.
#![tactic(auto)]

ghost use Rattle.std.specs.Prelude.{◌≡◌, ◌&&◌, ◌||◌, ℤ, List, Bool, Option, None, true, false, not, slice_index_or, IfOk, MatchOption};
ghost use Rattle.cpp_conditions.specs.Numbering.{vector_at};
ghost use Rattle.cpp_conditions.specs.Propositions.{Const, true_on};
ghost use Rattle.cpp_conditions.specs.View.{formula};
ghost use Rattle.atom_solver.specs.Truths.{Knows, Keeps};

use crate::clashing::test_denies;
use cpp_conditions::Formula;
use cpp_conditions::formulas::{both, either, negation};
use fam_outer::NoMemory;
use linear_atoms::Atom;
use std::alloc::Global;

/// What is known of a test.
fn truth_of(known: &[Option<bool>], number: u32) -> Option<bool>
    ensures { result ≡ slice_index_or known.now number None }
{
    match known.get(number as usize) {
        None => None,
        Some(truth) => *truth,
    }
}

/// Adds the truth of a test, if there is none.
#[tactic(auto, using(crate::proofs::Learned::learned))]
pub(crate) fn learn(known: &mut [Option<bool>], number: u32, truth: bool)
    ensures { (v : List Bool) → Knows known.old v → slice_index_or v number false ≡ truth
        → Knows known.new v }
{
    let place = number as usize;
    if place < known.len() && known[place].is_none() {
        known[place] = Some(truth);
    }
}

/// The truth of a formula that is a constant.
fn constant(part: &Formula) -> Option<bool>
    ensures { MatchOption result (Unit {0}) (λ truth. formula part.now ≡ Const truth) }
{
    match part {
        Formula::Const(truth) => Some(*truth),
        _ => None,
    }
}

/// The negation of what is left of a formula.
fn negation_of(alloc: Global, part: Formula) -> Result<Formula, NoMemory>
    ensures { IfOk result (λ made. (v : List Bool)
        → true_on v (formula made) ≡ not (true_on v (formula part))) }
{
    match constant(&part) {
        Some(truth) => Ok(Formula::Const(!truth)),
        None => negation(alloc, part),
    }
}

/// What is left of two formulas together.
#[tactic(auto, using(crate::proofs::Learned::and_left, crate::proofs::Learned::and_right))]
fn both_of(alloc: Global, left: Formula, right: Formula) -> Result<Formula, NoMemory>
    ensures { IfOk result (λ made. (v : List Bool)
        → true_on v (formula made) ≡ (true_on v (formula left) && true_on v (formula right))) }
{
    match constant(&left) {
        Some(truth) => {
            if truth {
                Ok(right)
            } else {
                Ok(Formula::Const(false))
            }
        }
        None => match constant(&right) {
            Some(truth) => {
                if truth {
                    Ok(left)
                } else {
                    Ok(Formula::Const(false))
                }
            }
            None => both(alloc, left, right),
        },
    }
}

/// What is left of one of two formulas.
#[tactic(auto, using(crate::proofs::Learned::or_left, crate::proofs::Learned::or_right))]
fn either_of(alloc: Global, left: Formula, right: Formula) -> Result<Formula, NoMemory>
    ensures { IfOk result (λ made. (v : List Bool)
        → true_on v (formula made) ≡ (true_on v (formula left) || true_on v (formula right))) }
{
    match constant(&left) {
        Some(truth) => {
            if truth {
                Ok(Formula::Const(true))
            } else {
                Ok(right)
            }
        }
        None => match constant(&right) {
            Some(truth) => {
                if truth {
                    Ok(Formula::Const(true))
                } else {
                    Ok(left)
                }
            }
            None => either(alloc, left, right),
        },
    }
}

/// What is left to decide of a formula: no constant stands in it, unless it is one.
pub(crate) fn residual(
    alloc: Global,
    part: &Formula,
    known: &[Option<bool>],
) -> Result<Formula, NoMemory>
    ensures { IfOk result (λ made. (v : List Bool) → Knows known.now v
        → true_on v (formula made) ≡ true_on v (formula part.now)) }
{
    match part {
        Formula::Const(truth) => Ok(Formula::Const(*truth)),
        Formula::Test(number) => match truth_of(known, *number) {
            None => Ok(Formula::Test(*number)),
            Some(truth) => Ok(Formula::Const(truth)),
        },
        Formula::Not(inner) => {
            let inner = residual(alloc, inner, known)?;
            negation_of(alloc, inner)
        }
        Formula::And(left, right) => {
            let left = residual(alloc, left, known)?;
            let right = residual(alloc, right, known)?;
            both_of(alloc, left, right)
        }
        Formula::Or(left, right) => {
            let left = residual(alloc, left, known)?;
            let right = residual(alloc, right, known)?;
            either_of(alloc, left, right)
        }
    }
}

/// Whether a formula is known to have a truth. It looks no further than it must, and first at the second part: a chain of
/// `||` has its single tests there.
#[tactic(auto, using(crate::proofs::Known::right_false, crate::proofs::Known::right_true))]
pub(crate) fn has_truth(part: &Formula, truth: bool, known: &[Option<bool>]) -> bool
    ensures { result ≡ true → (v : List Bool) → Knows known.now v → true_on v (formula part.now) ≡ truth }
{
    match part {
        Formula::Const(value) => *value == truth,
        Formula::Test(number) => match truth_of(known, *number) {
            None => false,
            Some(value) => value == truth,
        },
        Formula::Not(inner) => has_truth(inner, !truth, known),
        Formula::And(left, right) => {
            if truth {
                has_truth(right, true, known) && has_truth(left, true, known)
            } else {
                has_truth(left, false, known) || has_truth(right, false, known)
            }
        }
        Formula::Or(left, right) => {
            if truth {
                has_truth(right, true, known) || has_truth(left, true, known)
            } else {
                has_truth(right, false, known) && has_truth(left, false, known)
            }
        }
    }
}

/// Adds the truths that tests must have where the formula has one: of two formulas of which one must be true, where the
/// other is known to be false. The second comes first here too.
#[tactic(auto, using(crate::proofs::Learned::and_first, crate::proofs::Learned::and_second, crate::proofs::Learned::or_first, crate::proofs::Learned::or_second))]
pub(crate) fn force(part: &Formula, truth: bool, known: &mut [Option<bool>])
    ensures { (v : List Bool) → Knows known.old v → true_on v (formula part.now) ≡ truth → Knows known.new v }
{
    match part {
        Formula::Const(_value) => {}
        Formula::Test(number) => learn(known, *number, truth),
        Formula::Not(inner) => force(inner, !truth, known),
        Formula::And(left, right) => {
            if truth {
                force(left, true, known);
                force(right, true, known);
            } else if has_truth(right, true, known) {
                force(left, false, known);
            } else if has_truth(left, true, known) {
                force(right, false, known);
            }
        }
        Formula::Or(left, right) => {
            if !truth {
                force(left, false, known);
                force(right, false, known);
            } else if has_truth(right, false, known) {
                force(left, true, known);
            } else if has_truth(left, false, known) {
                force(right, true, known);
            }
        }
    }
}

/// Adds the truth of an atom that follows from that of another of equal terms.
#[tactic(auto, using(crate::proofs::Learned::denied))]
fn follow(atoms: &[Atom], from: u32, to: u32, known: &mut [Option<bool>])
    ensures { (values : List ℤ) → Knows known.old (vector_at atoms.now values)
        → Knows known.new (vector_at atoms.now values) }
{
    if from as usize >= atoms.len() || to as usize >= atoms.len() {
        return;
    }
    match truth_of(known, from) {
        None => {}
        Some(truth) => {
            if test_denies(&atoms[from as usize], truth, &atoms[to as usize], !truth) {
                learn(known, to, truth);
            }
        }
    }
}

/// The number at a place of an order.
fn number_at(order: &[u32], place: usize) -> u32 {
    match order.get(place) {
        None => u32::MAX,
        Some(number) => *number,
    }
}

/// The same down an order in which atoms of equal terms stand together, by rising bounds.
fn follow_down(atoms: &[Atom], order: &[u32], place: usize, known: &mut [Option<bool>])
    ensures { (values : List ℤ) → Knows known.old (vector_at atoms.now values)
        → Knows known.new (vector_at atoms.now values) }
{
    if place == 0 {
        return;
    }
    follow(
        atoms,
        number_at(order, place),
        number_at(order, place - 1),
        known,
    );
    follow_down(atoms, order, place - 1, known);
}

/// The same up an order, this many steps.
fn follow_up(atoms: &[Atom], order: &[u32], place: usize, steps: usize, known: &mut [Option<bool>])
    ensures { (values : List ℤ) → Knows known.old (vector_at atoms.now values)
        → Knows known.new (vector_at atoms.now values) }
{
    if steps == 0 || place == usize::MAX {
        return;
    }
    follow(
        atoms,
        number_at(order, place),
        number_at(order, place + 1),
        known,
    );
    follow_up(atoms, order, place + 1, steps - 1, known);
}

/// Adds the truths that follow from those of atoms of equal terms.
pub(crate) fn follow_all(atoms: &[Atom], order: &[u32], known: &mut [Option<bool>])
    ensures { (values : List ℤ) → Knows known.old (vector_at atoms.now values)
        → Knows known.new (vector_at atoms.now values) }
{
    follow_down(atoms, order, order.len(), known);
    follow_up(atoms, order, 0, order.len(), known);
}

/// How many truths are known.
fn count_of(known: &[Option<bool>]) -> usize {
    let mut count: usize = 0;
    for truth in known {
        if truth.is_some() {
            count = count.saturating_add(1);
        }
    }
    count
}

/// Adds the truths that the tests of a formula must have where it is true, and those that follow from these.
#[tactic(auto, using(crate::proofs::Learned::kept_step))]
fn round(atoms: &[Atom], order: &[u32], part: &Formula, known: &mut [Option<bool>])
    ensures { Keeps atoms.now known.old (formula part.now) known.new (formula part.now) }
{
    force(part, true, known);
    follow_all(atoms, order, known);
}

/// Adds the truths that follow where a formula is true, in as many rounds as add any, or as are allowed: unit propagation.
#[tactic(auto, using(crate::proofs::Learned::kept_more))]
pub(crate) fn propagate(
    atoms: &[Atom],
    order: &[u32],
    part: &Formula,
    known: &mut [Option<bool>],
    rounds: usize,
)
    ensures { Keeps atoms.now known.old (formula part.now) known.new (formula part.now) }
{
    let before = count_of(known);
    round(atoms, order, part, known);
    if rounds == 0 || count_of(known) == before {
        return;
    }
    propagate(atoms, order, part, known, rounds - 1);
}

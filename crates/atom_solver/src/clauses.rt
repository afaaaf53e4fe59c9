//! Formulas that must all be true, and what follows of their tests: a formula is looked at again where a test of it has a new
//! truth.
#![tactic(auto)]

ghost use Rattle.std.specs.Prelude.{◌≡◌, List, Bool, true, IfOk};
ghost use Rattle.cpp_conditions.specs.View.{formula};
ghost use Rattle.atom_solver.specs.Truths.{Knows};
ghost use Rattle.atom_solver.specs.Clauses.{AddsClauses, AreTrue, IsDenied, IsDeniedWhere, KeepsAll};

use crate::truths::{follow_all, force, has_truth, residual};
use cpp_conditions::Formula;
use fam_outer::NoMemory;
use linear_atoms::Atom;
use std::alloc::Global;

/// Whether a formula is the constant true.
fn is_true(part: &Formula) -> bool {
    match part {
        Formula::Const(truth) => *truth,
        _ => false,
    }
}

/// Adds what is left to decide of a formula that must be true, unless it is known to be.
#[tactic(auto, using(crate::proofs::Claused::adds_same, crate::proofs::Claused::adds_clause))]
fn add_clause(
    alloc: Global,
    part: &Formula,
    known: &[Option<bool>],
    clauses: &mut Vec<Formula>,
) -> Result<(), NoMemory>
    ensures { IfOk result (λ _. AddsClauses known.now (formula part.now) clauses.old.items clauses.new.items) }
{
    let left = residual(alloc, part, known)?;
    if is_true(&left) {
        Ok(())
    } else {
        clauses.push(left)?;
        Ok(())
    }
}

/// Adds what is left to decide of the formulas that must be true where one is.
#[tactic(auto, using(crate::proofs::Claused::adds_both))]
pub(crate) fn add_clauses(
    alloc: Global,
    part: &Formula,
    known: &[Option<bool>],
    clauses: &mut Vec<Formula>,
) -> Result<(), NoMemory>
    ensures { IfOk result (λ _. AddsClauses known.now (formula part.now) clauses.old.items clauses.new.items) }
{
    match part {
        Formula::And(left, right) => {
            add_clauses(alloc, left, known, clauses)?;
            add_clauses(alloc, right, known, clauses)?;
            Ok(())
        }
        _ => add_clause(alloc, part, known, clauses),
    }
}

/// Where the places of the formulas stand that a test does not help to be true where it has a truth.
fn slot(number: usize, truth: bool) -> usize {
    let first = number.saturating_mul(2);
    if truth {
        first.saturating_add(1)
    } else {
        first
    }
}

/// Adds the place of a formula that is to have a truth to those of each of its tests, with the truth that does not help.
fn add_place(
    part: &Formula,
    truth: bool,
    place: usize,
    naming: &mut [Vec<usize>],
) -> Result<(), NoMemory> {
    match part {
        Formula::Const(_truth) => Ok(()),
        Formula::Test(number) => {
            let slot = slot(*number as usize, !truth);
            if slot < naming.len() {
                naming[slot].push(place)?;
            }
            Ok(())
        }
        Formula::Not(inner) => add_place(inner, !truth, place, naming),
        Formula::And(left, right) => {
            add_place(left, truth, place, naming)?;
            add_place(right, truth, place, naming)
        }
        Formula::Or(left, right) => {
            add_place(left, truth, place, naming)?;
            add_place(right, truth, place, naming)
        }
    }
}

/// For each of so many tests, and for each truth of it, the places of the formulas that it does not help to be true.
pub(crate) fn places_of(
    alloc: Global,
    count: usize,
    clauses: &[Formula],
) -> Result<Vec<Vec<usize>>, NoMemory> {
    let mut naming = Vec::new(alloc);
    for _slot in 0..count.saturating_mul(2) {
        naming.push(Vec::new(alloc))?;
    }
    let mut place: usize = 0;
    for clause in clauses {
        add_place(clause, true, place, &mut naming)?;
        place = place.saturating_add(1);
    }
    Ok(naming)
}

/// So many places.
pub(crate) fn all_places(alloc: Global, count: usize) -> Result<Vec<usize>, NoMemory> {
    let mut made = Vec::with_capacity(alloc, count)?;
    for place in 0..count {
        made.push(place)?;
    }
    Ok(made)
}

/// The places of the formulas that a test does not help to be true where it has a truth.
pub(crate) fn places_at(naming: &[Vec<usize>], number: usize, truth: bool) -> &[usize] {
    match naming.get(slot(number, truth)) {
        None => &[],
        Some(places) => places.as_slice(),
    }
}

/// The places of the formulas that a test does not help to be true whose truth was not known before.
fn places_anew(
    alloc: Global,
    naming: &[Vec<usize>],
    before: &[Option<bool>],
    known: &[Option<bool>],
) -> Result<Vec<usize>, NoMemory> {
    let mut made = Vec::new(alloc);
    let mut number: usize = 0;
    for truth in known {
        if let (Some(None), Some(truth)) = (before.get(number), truth) {
            made.extend_from_slice(places_at(naming, number, *truth))?;
        }
        number = number.saturating_add(1);
    }
    Ok(made)
}

/// Adds the truths that tests must have where the formula at a place is true. It answers whether that is known to be false.
#[tactic(auto, using(crate::proofs::Claused::true_at_place))]
fn force_at(clauses: &[Formula], place: usize, known: &mut [Option<bool>]) -> bool
    ensures knows { (v : List Bool) → Knows known.old v → AreTrue v clauses.now → Knows known.new v }
    ensures out { result ≡ true → IsDenied known.old clauses.now }
{
    if place >= clauses.len() {
        return false;
    }
    if has_truth(&clauses[place], false, known) {
        return true;
    }
    force(&clauses[place], true, known);
    false
}

/// The same of the formulas at some places: whether one is known to be false.
fn force_all(clauses: &[Formula], places: &[usize], known: &mut [Option<bool>]) -> bool
    ensures knows { (v : List Bool) → Knows known.old v → AreTrue v clauses.now → Knows known.new v }
    ensures out { result ≡ true → IsDenied known.old clauses.now }
{
    for place in places {
        if force_at(clauses, *place, known) {
            return true;
        }
    }
    false
}

/// Adds the truths that tests must have where the formulas at some places are true, and those that follow from these. It answers
/// whether a formula is known to be false.
#[tactic(auto, using(crate::proofs::Claused::kept_forced, crate::proofs::Claused::kept_followed))]
fn round_from(
    atoms: &[Atom],
    order: &[u32],
    clauses: &[Formula],
    places: &[usize],
    known: &mut [Option<bool>],
) -> bool
    ensures knows { KeepsAll atoms.now known.old clauses.now known.new }
    ensures out { result ≡ true → IsDenied known.old clauses.now }
{
    if force_all(clauses, places, known) {
        return true;
    }
    follow_all(atoms, order, known);
    false
}

/// Adds the truths that follow where all formulas are true, beginning with the formulas at some places, in as many rounds as
/// add any, or as are allowed: unit propagation. It answers whether a formula is known to be false.
#[tactic(auto, using(crate::proofs::Claused::denied_where, crate::proofs::Claused::kept_again))]
pub(crate) fn propagate_from(
    alloc: Global,
    atoms: &[Atom],
    order: &[u32],
    clauses: &[Formula],
    naming: &[Vec<usize>],
    places: &[usize],
    known: &mut [Option<bool>],
    rounds: usize,
) -> Result<bool, NoMemory>
    ensures knows { KeepsAll atoms.now known.old clauses.now known.new }
    ensures out { IfOk result (λ is_out. is_out ≡ true → IsDeniedWhere atoms.now known.old clauses.now) }
{
    let before = Vec::from_slice(alloc, known)?;
    if round_from(atoms, order, clauses, places, known) {
        return Ok(true);
    }
    let again = places_anew(alloc, naming, &before, known)?;
    if rounds == 0 || again.is_empty() {
        return Ok(false);
    }
    propagate_from(
        alloc,
        atoms,
        order,
        clauses,
        naming,
        &again,
        known,
        rounds - 1,
    )
}

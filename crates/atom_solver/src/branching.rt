//! Truths of tests tried both ways: a question that no truths answer is refuted.
#![tactic(auto)]

ghost use Rattle.std.specs.Prelude.{◌≡◌, ℤ, List, Bool, true, false, length, slice_index_or, IfOk};
ghost use Rattle.linear_atoms.specs.Atoms.{AreRanges, AreAtoms, IsWithin};
ghost use Rattle.cpp_conditions.specs.Numbering.{vector_at};
ghost use Rattle.cpp_conditions.specs.Propositions.{true_on};
ghost use Rattle.cpp_conditions.specs.View.{formula};
ghost use Rattle.atom_solver.specs.Facts.{AreRising};
ghost use Rattle.atom_solver.specs.Spans.{ranges};
ghost use Rattle.atom_solver.specs.Clauses.{IsVoid, KeepsAll};
ghost use Rattle.atom_solver.specs.Truths.{Knows};

use crate::cases::{Case, Start};
use crate::choosing::choice;
use crate::clauses::{add_clauses, all_places, places_at, places_of, propagate_from};
use crate::cycles::Lowered;
use crate::edges::{Edges, values_at_lows};
use crate::end_forms::ends_of;
use crate::guesses::{Guesses, tests_anew};
use crate::refuting::is_clash;
use crate::truths::{has_truth, learn, propagate};
use cpp_conditions::Formula;
use fam_outer::NoMemory;
use linear_atoms::{Atom, Span};
use std::alloc::Global;

/// How many choices are made at most for a box.
pub(crate) const MOST_TURNS: u32 = 8_000;

/// How few choices are made for a box at least.
pub(crate) const FEWEST_TURNS: u32 = 16;

/// The truths that are known, and one more.
fn with_truth(
    alloc: Global,
    known: &[Option<bool>],
    number: u32,
    truth: bool,
) -> Result<Vec<Option<bool>>, NoMemory>
    ensures { IfOk result (λ made. (v : List Bool) → Knows known.now v → slice_index_or v number false ≡ truth
        → Knows made.items v) }
{
    let mut made = Vec::from_slice(alloc, known)?;
    learn(&mut made, number, truth);
    Ok(made)
}

/// Whether the truths that are known, and those that follow, make a formula false or clash.
#[tactic(auto, using(crate::proofs::Claused::void_denied, crate::proofs::Claused::void_clash))]
fn is_void(
    alloc: Global,
    case: &Case<'_>,
    from: &Start<'_>,
    lowered: &mut Lowered,
    known: &mut [Option<bool>],
) -> Result<bool, NoMemory>
    requires { AreRising case.now.ends.now }
    ensures knows { KeepsAll case.now.atoms.now known.old case.now.clauses.now known.new }
    ensures out { IfOk result (λ answer. answer ≡ true
        → IsVoid case.now.ends.now case.now.atoms.now known.old case.now.clauses.now) }
{
    let (atoms, rounds) = (case.atoms, case.atoms.len());
    if propagate_from(
        alloc,
        atoms,
        case.order,
        case.clauses,
        case.naming,
        from.places,
        known,
        rounds,
    )? {
        return Ok(true);
    }
    let tests = tests_anew(alloc, from.known, known)?;
    if is_clash(alloc, case.ends, atoms, case.edges, &tests, known, lowered)? {
        return Ok(true);
    }
    Ok(false)
}

/// Whether no truths, with those that are known, make all formulas true where further forms are at least 0. A false answer
/// says nothing, and then the truths are kept that nothing refutes. It answers too how many choices are left.
fn is_refuted(
    alloc: Global,
    case: &Case<'_>,
    from: &Start<'_>,
    known: &mut [Option<bool>],
    turns: u32,
    guesses: &mut Guesses,
) -> Result<(bool, u32), NoMemory>
    requires { AreRising case.now.ends.now }
    ensures { IfOk result (λ answer. answer.0 ≡ true
        → IsVoid case.now.ends.now case.now.atoms.now known.old case.now.clauses.now) }
{
    let mut lowered = Lowered::from_values(alloc, from.values)?;
    if is_void(alloc, case, from, &mut lowered, known)? {
        return Ok((true, turns));
    }
    let next = choice(alloc, case, from, lowered.values(), known, guesses)?;
    let Some(number) = next.test else {
        return Ok((false, turns));
    };
    if turns == 0 {
        return Ok((false, 0));
    }
    let first = guesses.preferred(number as usize);
    let from = Start {
        places: places_at(case.naming, number as usize, first),
        known,
        untrue: &next.untrue,
        values: lowered.values(),
    };
    let mut one = with_truth(alloc, known, number, first)?;
    let (is_out, rest) = is_refuted(alloc, case, &from, &mut one, turns - 1, guesses)?;
    if !is_out {
        return Ok((false, rest));
    }
    let from = Start {
        places: places_at(case.naming, number as usize, !first),
        ..from
    };
    let mut other = with_truth(alloc, known, number, !first)?;
    is_refuted(alloc, case, &from, &mut other, rest.min(turns - 1), guesses)
}

/// Adds the truths that atoms have at each configuration of a box, from a place on.
#[tactic(auto, using(crate::proofs::Learned::decided_at))]
fn learn_within(atoms: &[Atom], spans: &[Span], place: u32, known: &mut [Option<bool>])
    requires atoms { AreAtoms (length spans.now) atoms.now }
    requires ranges { AreRanges (ranges spans.now) }
    ensures { (values : List ℤ) → IsWithin (ranges spans.now) values
        → Knows known.old (vector_at atoms.now values) → Knows known.new (vector_at atoms.now values) }
{
    if place as usize >= atoms.len() || place == u32::MAX {
        return;
    }
    if let Some(truth) = atoms[place as usize].decided_within(spans) {
        learn(known, place, truth);
    }
    learn_within(atoms, spans, place + 1, known);
}

/// Nothing known of so many tests.
fn unknown(alloc: Global, count: usize) -> Result<Vec<Option<bool>>, NoMemory>
    ensures { IfOk result (λ made. (v : List Bool) → Knows made.items v) }
{
    Ok(vec![in alloc; None; count]?)
}

/// What a box says of the truths of atoms.
fn known_within(
    alloc: Global,
    spans: &[Span],
    atoms: &[Atom],
) -> Result<Vec<Option<bool>>, NoMemory>
    requires atoms { AreAtoms (length spans.now) atoms.now }
    requires ranges { AreRanges (ranges spans.now) }
    ensures { IfOk result (λ made. (values : List ℤ) → IsWithin (ranges spans.now) values
        → Knows made.items (vector_at atoms.now values)) }
{
    let mut known = unknown(alloc, atoms.len())?;
    learn_within(atoms, spans, 0, &mut known);
    Ok(known)
}

/// Whether the atoms at two places of an order have equal terms.
fn share_terms(atoms: &[Atom], order: &[u32], place: usize, other: usize) -> bool {
    match (order.get(place), order.get(other)) {
        (Some(first), Some(second)) => {
            match (atoms.get(*first as usize), atoms.get(*second as usize)) {
                (Some(atom), Some(beside)) => atom.terms == beside.terms,
                _ => false,
            }
        }
        _ => false,
    }
}

/// Of an order the numbers whose atoms have equal terms with one beside them: truths follow from one another only there.
fn sharing(alloc: Global, atoms: &[Atom], order: &[u32]) -> Result<Vec<u32>, NoMemory> {
    let mut made = Vec::new(alloc);
    let mut place: usize = 0;
    for number in order {
        if share_terms(atoms, order, place, place.saturating_add(1))
            || share_terms(atoms, order, place.wrapping_sub(1), place)
        {
            made.push(*number)?;
        }
        place = place.saturating_add(1);
    }
    Ok(made)
}

/// Whether no configuration of the box that gives the atoms the truths that are known makes the formula true, and how many
/// choices are left.
#[tactic(auto, using(crate::proofs::Learned::untrue_by, crate::proofs::Claused::untrue_clauses))]
fn is_untrue_where(
    alloc: Global,
    spans: &[Span],
    atoms: &[Atom],
    order: &[u32],
    asked: &Formula,
    known: &mut [Option<bool>],
    turns: u32,
    guesses: &mut Guesses,
) -> Result<(bool, u32), NoMemory>
    requires { AreRanges (ranges spans.now) }
    ensures { IfOk result (λ answer. answer.0 ≡ true → (values : List ℤ) → IsWithin (ranges spans.now) values
        → Knows known.old (vector_at atoms.now values)
        → true_on (vector_at atoms.now values) (formula asked.now) ≡ true → ⊥) }
{
    let ends = ends_of(alloc, spans, atoms)?;
    let edges = Edges::new(alloc, spans.len(), &ends, atoms)?;
    let lows = values_at_lows(alloc, spans)?;
    if guesses.serve(alloc, asked, &edges, known, &lows)? {
        return Ok((false, turns));
    }
    propagate(atoms, order, asked, known, atoms.len());
    if has_truth(asked, false, known) {
        return Ok((true, turns));
    }
    let mut clauses = Vec::new(alloc);
    add_clauses(alloc, asked, known, &mut clauses)?;
    let order = sharing(alloc, atoms, order)?;
    let naming = places_of(alloc, atoms.len(), &clauses)?;
    let untrue = all_places(alloc, clauses.len())?;
    let case = Case {
        ends: &ends,
        atoms,
        clauses: &clauses,
        order: &order,
        naming: &naming,
        edges: &edges,
    };
    let from = Start {
        places: &[],
        known: &[],
        untrue: &untrue,
        values: &lows,
    };
    let answer = is_refuted(alloc, &case, &from, known, turns, guesses)?;
    Ok(answer)
}

/// Whether no configuration of the box makes the formula true, with so many choices at most, and how many of them are left. A
/// false answer says nothing, but truths that nothing refutes are kept, and tried first the next time.
pub(crate) fn is_untrue(
    alloc: Global,
    spans: &[Span],
    atoms: &[Atom],
    order: &[u32],
    asked: &Formula,
    turns: u32,
    guesses: &mut Guesses,
) -> Result<(bool, u32), NoMemory>
    requires atoms { AreAtoms (length spans.now) atoms.now }
    requires ranges { AreRanges (ranges spans.now) }
    ensures { IfOk result (λ answer. answer.0 ≡ true → (values : List ℤ) → IsWithin (ranges spans.now) values
        → true_on (vector_at atoms.now values) (formula asked.now) ≡ true → ⊥) }
{
    let mut known = known_within(alloc, spans, atoms)?;
    let answer = is_untrue_where(
        alloc, spans, atoms, order, asked, &mut known, turns, guesses,
    )?;
    Ok(answer)
}

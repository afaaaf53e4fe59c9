//! Which test is tried both ways next. It is advice alone.
#![tactic(auto)]

use crate::cases::{Case, Start};
use crate::clauses::{all_places, places_at};
use crate::guesses::{Guesses, tests_anew};
use crate::labels::is_marked;
use crate::truths::has_truth;
use crate::undecided::mark_all;
use cpp_conditions::Formula;
use fam_outer::NoMemory;
use std::alloc::Global;

/// What truths leave to decide of a formula: nothing, or so many tests, and one of these.
#[derive(Clone, Copy)]
enum Left {
    Decided(bool),
    Open { test: u32, count: usize },
}

/// Whether nothing is left but this truth.
fn is_decided(left: Left, truth: bool) -> bool {
    match left {
        Left::Decided(value) => value == truth,
        Left::Open { test: _, count: _ } => false,
    }
}

/// What is left of two formulas of which a certain truth of one would decide, where the second has not that truth.
fn joined(first: Left, second: Left, deciding: bool) -> Left {
    match (first, second) {
        (Left::Decided(truth), other) => { if truth == deciding { first } else { other } }
        (open, Left::Decided(_truth)) => open,
        (Left::Open { test: _, count }, Left::Open { test, count: more }) => Left::Open {
            test,
            count: count.saturating_add(more),
        },
    }
}

/// What is left of a formula.
fn left_of(part: &Formula, known: &[Option<bool>]) -> Left {
    match part {
        Formula::Const(truth) => Left::Decided(*truth),
        Formula::Test(number) => match known.get(*number as usize) {
            Some(Some(truth)) => Left::Decided(*truth),
            _ => Left::Open {
                test: *number,
                count: 1,
            },
        },
        Formula::Not(inner) => match left_of(inner, known) {
            Left::Decided(truth) => Left::Decided(!truth),
            open => open,
        },
        Formula::And(left, right) => {
            let second = left_of(right, known);
            if is_decided(second, false) {
                second
            } else {
                joined(left_of(left, known), second, false)
            }
        }
        Formula::Or(left, right) => {
            let second = left_of(right, known);
            if is_decided(second, true) {
                second
            } else {
                joined(left_of(left, known), second, true)
            }
        }
    }
}

/// Of formulas at some places a test that is not decided, of one with the fewest of these.
fn narrowest(clauses: &[Formula], places: &[usize], known: &[Option<bool>]) -> Option<u32> {
    let mut found = None;
    let mut fewest = usize::MAX;
    for place in places {
        if let Some(clause) = clauses.get(*place) {
            if let Left::Open { test, count } = left_of(clause, known) {
                if count < fewest {
                    found = Some(test);
                    fewest = count;
                }
                if count <= 2 {
                    return found;
                }
            }
        }
    }
    found
}

/// Marks the formulas that tests don't help to be true, of tests whose truths, which are known, are not those that were guessed.
fn mark_changed(
    naming: &[Vec<usize>],
    tests: &[usize],
    known: &[Option<bool>],
    guesses: &Guesses,
    marks: &mut [bool],
) {
    for test in tests {
        if let Some(Some(truth)) = known.get(*test) {
            if guesses.preferred(*test) != *truth {
                mark_all(places_at(naming, *test, *truth), marks);
            }
        }
    }
}

/// The places that are marked, of formulas that some truths don't make true.
fn untrue_places(
    alloc: Global,
    clauses: &[Formula],
    marks: &[bool],
    truths: &[Option<bool>],
) -> Result<Vec<usize>, NoMemory> {
    let mut made = Vec::new(alloc);
    let mut place: usize = 0;
    for clause in clauses {
        if is_marked(marks, place) && !has_truth(clause, true, truths) {
            made.push(place)?;
        }
        place = place.saturating_add(1);
    }
    Ok(made)
}

/// What is tried next: a test, if there is one, and the places of the formulas that the guessed truths don't make true.
#[derive(Drop)]
pub(crate) struct Next {
    pub(crate) test: Option<u32>,
    pub(crate) untrue: Vec<usize>,
}

/// The test to try next: of a formula that the guessed truths don't make true, if there is one. Where they make all true and no cycle
/// refutes them there is none, and they are kept; nor where those that are known make all true.
pub(crate) fn choice(
    alloc: Global,
    case: &Case<'_>,
    from: &Start<'_>,
    values: &[i64],
    known: &[Option<bool>],
    guesses: &mut Guesses,
) -> Result<Next, NoMemory> {
    let truths = guesses.with_known(alloc, known)?;
    let mut marks = vec![in alloc; false; case.clauses.len()]?;
    mark_all(from.untrue, &mut marks);
    let tests = tests_anew(alloc, from.known, known)?;
    mark_changed(case.naming, &tests, known, guesses, &mut marks);
    let untrue = untrue_places(alloc, case.clauses, &marks, &truths)?;
    let test = narrowest(case.clauses, &untrue, known);
    if test.is_some() {
        return Ok(Next { test, untrue });
    }
    let tests = tests_anew(alloc, known, &truths)?;
    let places = guesses.keep_unless_cycle(alloc, case.edges, &tests, &truths, values)?;
    if places.is_empty() {
        return Ok(Next { test: None, untrue });
    }
    let all = all_places(alloc, case.clauses.len())?;
    let test = narrowest(case.clauses, &all, known);
    if test.is_none() {
        guesses.keep(known);
    }
    Ok(Next { test, untrue })
}

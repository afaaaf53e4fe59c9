//! Parts of a model that share no feature: each is solved alone, and its features keep the values that are found.
#![tactic(auto)]

ghost use Rattle.std.specs.Prelude.{◌≡◌, ◌∷◌, ◌++◌, List, Some, true, false, if◌then◌else◌, IfOk, MatchOption};
ghost use Rattle.linear_atoms.specs.Atoms.{AreRanges};
ghost use Rattle.cpp_conditions.specs.Propositions.{Const};
ghost use Rattle.cpp_conditions.specs.View.{proposition};
ghost use Rattle.atom_solver.specs.Free.{Serves};
ghost use Rattle.atom_solver.specs.Parts.{IsSumOf, IsTruthOf, IsPart, fixed};
ghost use Rattle.atom_solver.specs.Spans.{ranges, meets, FindsIn};

use crate::labels::is_marked;
use cpp_conditions::Condition;
use cpp_conditions::conditions::{both, either, negation};
use fam_outer::NoMemory;
use linear_atoms::slices::cut;
use linear_atoms::{Config, Span};
use std::alloc::Global;

/// Whether the terms name only features that are marked, or only others.
#[tactic(auto, using(crate::proofs::Apart::sum_none, crate::proofs::Apart::sum_more))]
fn terms_are(terms: &[(u32, i64)], marks: &[bool], inside: bool) -> bool
    ensures { result ≡ true → IsSumOf inside marks.now terms.now }
{
    match cut(terms) {
        None => true,
        Some((term, behind)) => {
            if is_marked(marks, term.0 as usize) == inside {
                terms_are(behind, marks, inside)
            } else {
                false
            }
        }
    }
}

/// Whether the tests of a condition name only features that are marked, or only others.
pub(crate) fn reads(condition: &Condition, marks: &[bool], inside: bool) -> bool
    ensures { result ≡ true → IsTruthOf inside marks.now (proposition condition.now) }
{
    match condition {
        Condition::Const(_truth) => true,
        Condition::Test(atom) => terms_are(atom.terms.items(), marks, inside),
        Condition::Not(inner) => reads(inner, marks, inside),
        Condition::And(left, right) => reads(left, marks, inside) && reads(right, marks, inside),
        Condition::Or(left, right) => reads(left, marks, inside) && reads(right, marks, inside),
    }
}

/// A condition once more.
fn copy_of(alloc: Global, condition: &Condition) -> Result<Condition, NoMemory>
    ensures { IfOk result (λ made. proposition made ≡ proposition condition.now) }
{
    match condition {
        Condition::Const(truth) => Ok(Condition::Const(*truth)),
        Condition::Test(atom) => Ok(Condition::Test(atom.copy(alloc)?)),
        Condition::Not(inner) => {
            let inner = copy_of(alloc, inner)?;
            negation(alloc, inner)
        }
        Condition::And(left, right) => {
            let left = copy_of(alloc, left)?;
            let right = copy_of(alloc, right)?;
            both(alloc, left, right)
        }
        Condition::Or(left, right) => {
            let left = copy_of(alloc, left)?;
            let right = copy_of(alloc, right)?;
            either(alloc, left, right)
        }
    }
}

/// One more condition before those of a part: it is left out where it names no feature that is marked, and the answer is
/// None where it names both kinds.
#[tactic(auto, using(crate::proofs::Apart::skipped, crate::proofs::Apart::taken))]
fn with_more(
    alloc: Global,
    first: &Condition,
    marks: &[bool],
    part: Vec<Condition>,
) -> Result<Option<Vec<Condition>>, NoMemory>
    ensures { IfOk result (λ made. MatchOption made (Unit {0})
        (λ more. (behind : List Condition) → IsPart marks.now behind part.items
        → IsPart marks.now (first.now ∷ behind) more.items)) }
{
    if reads(first, marks, false) {
        return Ok(Some(part));
    }
    if !reads(first, marks, true) {
        return Ok(None);
    }
    let copy = copy_of(alloc, first)?;
    let mut more = part;
    more.push(copy)?;
    Ok(Some(more))
}

/// The conditions that name only features that are marked; None where another one names any of these.
#[tactic(auto, using(crate::proofs::Apart::part_none, crate::proofs::Apart::part_more))]
pub(crate) fn part_of(
    alloc: Global,
    conditions: &[Condition],
    marks: &[bool],
) -> Result<Option<Vec<Condition>>, NoMemory>
    ensures { IfOk result (λ made. MatchOption made (Unit {0})
        (λ part. IsPart marks.now conditions.now part.items)) }
{
    match cut(conditions) {
        None => Ok(Some(Vec::new(alloc))),
        Some((first, behind)) => match part_of(alloc, behind, marks)? {
            None => Ok(None),
            Some(part) => match with_more(alloc, first, marks, part)? {
                None => Ok(None),
                Some(more) => Ok(Some(more)),
            },
        },
    }
}

/// Whether each condition names only features that are marked, or only others.
#[tactic(auto, using(crate::proofs::Apart::all_none, crate::proofs::Apart::all_inside, crate::proofs::Apart::all_outside))]
fn are_apart(conditions: &[Condition], marks: &[bool]) -> bool
    ensures { result ≡ true → IsPart marks.now conditions.now conditions.now }
{
    match cut(conditions) {
        None => true,
        Some((first, behind)) => {
            if reads(first, marks, false) {
                are_apart(behind, marks)
            } else if reads(first, marks, true) {
                are_apart(behind, marks)
            } else {
                false
            }
        }
    }
}

/// The value alone of a feature that is marked, and the range of another.
fn range_of(mark: bool, value: i64, span: Span) -> Span
    ensures { result ≡ (if mark then record { low = value; high = value } else span) }
{
    if mark {
        Span {
            low: value,
            high: value,
        }
    } else {
        span
    }
}

/// Adds the ranges of a box, with the values alone of the features that are marked.
fn add_fixed(
    marks: &[bool],
    values: &[i64],
    spans: &[Span],
    made: &mut Vec<Span>,
) -> Result<(), NoMemory>
    ensures { IfOk result (λ _. made.new.items ≡ made.old.items ++ fixed marks.now values.now spans.now) }
{
    match cut(marks) {
        None => {
            made.extend_from_slice(spans)?;
            Ok(())
        }
        Some((mark, others)) => match cut(values) {
            None => {
                made.extend_from_slice(spans)?;
                Ok(())
            }
            Some((value, later)) => match fam_outer::cut(spans) {
                None => Ok(()),
                Some((span, behind)) => {
                    made.push(range_of(*mark, *value, span))?;
                    add_fixed(others, later, behind, made)
                }
            },
        },
    }
}

/// The box with the values alone of the features that are marked.
pub(crate) fn with_values(
    alloc: Global,
    marks: &[bool],
    values: &[i64],
    spans: &[Span],
) -> Result<Vec<Span>, NoMemory>
    ensures { IfOk result (λ made. made.items ≡ fixed marks.now values.now spans.now) }
{
    let mut made = Vec::new(alloc);
    add_fixed(marks, values, spans, &mut made)?;
    Ok(made)
}

/// The box for a question: the features that are marked keep the values of the least configuration of all, if no
/// condition links them to others and what is wanted does not name them.
#[tactic(auto, using(crate::proofs::Freed::serves_same, crate::proofs::Apart::box_with))]
pub(crate) fn box_apart(
    alloc: Global,
    spans: &[Span],
    constraints: &[Condition],
    wanted: &Condition,
    least: &Config,
    marks: &[bool],
) -> Result<Vec<Span>, NoMemory>
    requires ranges { AreRanges (ranges spans.now) }
    requires least { FindsIn (ranges spans.now) (meets constraints.now (Const true)) (Some least.now) }
    ensures { IfOk result (λ made. Serves
        (meets constraints.now (proposition wanted.now)) spans.now made.items) }
{
    if !reads(wanted, marks, false) {
        let same = Vec::from_slice(alloc, spans)?;
        return Ok(same);
    }
    if !are_apart(constraints, marks) {
        let same = Vec::from_slice(alloc, spans)?;
        return Ok(same);
    }
    let inner = with_values(alloc, marks, least.values.items(), spans)?;
    Ok(inner)
}

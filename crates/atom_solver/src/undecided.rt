//! What a box leaves undecided: constraints, and the features that their undecided tests name. In the parts of the box nothing else
//! is looked at. It is advice alone.
#![tactic(auto)]

ghost use Rattle.std.specs.Prelude.{length};
ghost use Rattle.linear_atoms.specs.Atoms.{AreRanges};
ghost use Rattle.cpp_conditions.specs.Propositions.{IsFit};
ghost use Rattle.cpp_conditions.specs.Validity.{AreFit};
ghost use Rattle.cpp_conditions.specs.View.{proposition};
ghost use Rattle.atom_solver.specs.Spans.{ranges};

use crate::deciding::{both, either, negation};
use crate::labels::{is_marked, mark};
use cpp_conditions::Condition;
use fam_outer::NoMemory;
use linear_atoms::Span;
use linear_atoms::slices::cut;
use std::alloc::Global;

/// For each feature the places of the undecided constraints that name it, and which features undecided tests name.
#[derive(Drop)]
pub(crate) struct Undecided {
    pub(crate) naming: Vec<Vec<usize>>,
    pub(crate) named: Vec<bool>,
}

/// Adds the features of terms.
fn add_features(terms: &[(u32, i64)], features: &mut Vec<usize>) -> Result<(), NoMemory> {
    for (number, _coefficient) in terms {
        features.push(*number as usize)?;
    }
    Ok(())
}

/// Drops what was added behind a length, where the condition that added it is decided.
fn keep_undecided(truth: Option<bool>, length: usize, features: &mut Vec<usize>) -> Option<bool> {
    if truth.is_some() {
        features.truncate(length);
    }
    truth
}

/// The truth of a condition on the whole box, if it has one. Else the features of its undecided tests are added, but for those
/// of its parts that are decided.
fn add_undecided(
    condition: &Condition,
    spans: &[Span],
    features: &mut Vec<usize>,
) -> Result<Option<bool>, NoMemory>
    requires fit { IsFit (length spans.now) (proposition condition.now) }
    requires ranges { AreRanges (ranges spans.now) }
{
    let length = features.len();
    match condition {
        Condition::Const(truth) => Ok(Some(*truth)),
        Condition::Test(atom) => {
            let truth = atom.decided_within(spans);
            if truth.is_none() {
                add_features(atom.terms.items(), features)?;
            }
            Ok(truth)
        }
        Condition::Not(inner) => Ok(negation(add_undecided(inner, spans, features)?)),
        Condition::And(left, right) => {
            let right = add_undecided(right, spans, features)?;
            if right == Some(false) {
                return Ok(right);
            }
            let left = add_undecided(left, spans, features)?;
            Ok(keep_undecided(both(left, right), length, features))
        }
        Condition::Or(left, right) => {
            let right = add_undecided(right, spans, features)?;
            if right == Some(true) {
                return Ok(right);
            }
            let left = add_undecided(left, spans, features)?;
            Ok(keep_undecided(either(left, right), length, features))
        }
    }
}

/// Marks places.
pub(crate) fn mark_all(places: &[usize], marks: &mut [bool]) {
    for place in places {
        mark(marks, *place);
    }
}

/// For each of so many constraints whether one of the lists has its place.
pub(crate) fn marked(
    alloc: Global,
    count: usize,
    naming: &[Vec<usize>],
) -> Result<Vec<bool>, NoMemory> {
    let mut marks = vec![in alloc; false; count]?;
    for places in naming {
        mark_all(places, &mut marks);
    }
    Ok(marks)
}

/// Leaves out a mark.
fn unmark(marks: &mut [bool], place: usize) {
    if place < marks.len() {
        marks[place] = false;
    }
}

/// Of constraints from a place on leaves out the marks of those that are decided, and marks the features that undecided tests of
/// the others name.
fn unmark_decided(
    constraints: &[Condition],
    spans: &[Span],
    place: usize,
    marks: &mut [bool],
    named: &mut [bool],
    features: &mut Vec<usize>,
) -> Result<(), NoMemory>
    requires constraints { AreFit (length spans.now) constraints.now }
    requires ranges { AreRanges (ranges spans.now) }
{
    let Some((constraint, behind)) = cut(constraints) else {
        return Ok(());
    };
    if is_marked(marks, place) {
        features.clear();
        if add_undecided(constraint, spans, features)?.is_some() {
            unmark(marks, place);
        }
        mark_all(features, named);
    }
    unmark_decided(
        behind,
        spans,
        place.saturating_add(1),
        marks,
        named,
        features,
    )
}

/// The places that are marked.
fn kept(alloc: Global, places: &[usize], marks: &[bool]) -> Result<Vec<usize>, NoMemory> {
    let mut made = Vec::new(alloc);
    for place in places {
        if is_marked(marks, *place) {
            made.push(*place)?;
        }
    }
    Ok(made)
}

/// The places that are marked, of each list.
fn all_kept(
    alloc: Global,
    naming: &[Vec<usize>],
    marks: &[bool],
) -> Result<Vec<Vec<usize>>, NoMemory> {
    let mut made = Vec::new(alloc);
    for places in naming {
        made.push(kept(alloc, places, marks)?)?;
    }
    Ok(made)
}

/// What a box leaves undecided of the constraints that stand in lists, one for each feature, and of what is wanted.
pub(crate) fn undecided_within(
    alloc: Global,
    spans: &[Span],
    constraints: &[Condition],
    naming: &[Vec<usize>],
    wanted: &Condition,
) -> Result<Undecided, NoMemory>
    requires constraints { AreFit (length spans.now) constraints.now }
    requires wanted { IsFit (length spans.now) (proposition wanted.now) }
    requires ranges { AreRanges (ranges spans.now) }
{
    let mut marks = marked(alloc, constraints.len(), naming)?;
    let mut named = vec![in alloc; false; spans.len()]?;
    let mut features = Vec::new(alloc);
    unmark_decided(constraints, spans, 0, &mut marks, &mut named, &mut features)?;
    features.clear();
    let _truth = add_undecided(wanted, spans, &mut features)?;
    mark_all(&features, &mut named);
    let naming = all_kept(alloc, naming, &marks)?;
    Ok(Undecided { naming, named })
}

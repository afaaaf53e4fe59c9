//! Which features can alone make a constraint false on a box: another range of a feature is asked of these constraints only. It is
//! advice alone.
#![tactic(auto)]

ghost use Rattle.std.specs.Prelude.{length};
ghost use Rattle.linear_atoms.specs.Atoms.{AreRanges};
ghost use Rattle.cpp_conditions.specs.Propositions.{IsFit};
ghost use Rattle.cpp_conditions.specs.Validity.{AreFit};
ghost use Rattle.cpp_conditions.specs.View.{proposition};
ghost use Rattle.atom_solver.specs.Spans.{ranges};

use crate::labels::is_marked;
use crate::undecided::marked;
use cpp_conditions::Condition;
use fam_outer::NoMemory;
use linear_atoms::Span;
use linear_atoms::slices::cut;
use std::alloc::Global;

/// The bit of a feature in a set. Features whose numbers differ by 64 have the same.
fn bit(feature: usize) -> u64 {
    1u64 << (feature % 64)
}

/// The features of terms, as a set.
fn features_of(terms: &[(u32, i64)]) -> u64 {
    let mut set: u64 = 0;
    for (number, _coefficient) in terms {
        set |= bit(*number as usize);
    }
    set
}

/// Of a set of features those of which another range can alone give a condition a truth: all of them where it has that truth.
fn turning(condition: &Condition, truth: bool, spans: &[Span], among: u64) -> u64
    requires fit { IsFit (length spans.now) (proposition condition.now) }
    requires ranges { AreRanges (ranges spans.now) }
{
    match condition {
        Condition::Const(value) => { if *value == truth { among } else { 0 } }
        Condition::Test(atom) => match atom.decided_within(spans) {
            None => among & features_of(atom.terms.items()),
            Some(value) => { if value == truth { among } else { 0 } }
        },
        Condition::Not(inner) => turning(inner, !truth, spans, among),
        Condition::And(left, right) => {
            let second = turning(right, truth, spans, among);
            if !truth {
                second | turning(left, truth, spans, among)
            } else if second == 0 {
                0
            } else {
                turning(left, truth, spans, second)
            }
        }
        Condition::Or(left, right) => {
            let second = turning(right, truth, spans, among);
            if truth {
                second | turning(left, truth, spans, among)
            } else if second == 0 {
                0
            } else {
                turning(left, truth, spans, second)
            }
        }
    }
}

/// Puts a set at a place, if there is one.
fn put(sets: &mut [u64], place: usize, set: u64) {
    if place < sets.len() {
        sets[place] = set;
    }
}

/// Finds for each constraint from a place on that is marked the features that can alone make it false.
fn find_sets(
    constraints: &[Condition],
    spans: &[Span],
    place: usize,
    marks: &[bool],
    sets: &mut [u64],
)
    requires constraints { AreFit (length spans.now) constraints.now }
    requires ranges { AreRanges (ranges spans.now) }
{
    let Some((constraint, behind)) = cut(constraints) else {
        return;
    };
    if is_marked(marks, place) {
        put(sets, place, turning(constraint, false, spans, u64::MAX));
    }
    find_sets(behind, spans, place.saturating_add(1), marks, sets);
}

/// Of places of constraints those that a feature can make false.
fn turned(
    alloc: Global,
    places: &[usize],
    sets: &[u64],
    feature: usize,
) -> Result<Vec<usize>, NoMemory> {
    let bit = bit(feature);
    let mut made = Vec::new(alloc);
    for place in places {
        if let Some(set) = sets.get(*place) {
            if *set & bit != 0 {
                made.push(*place)?;
            }
        }
    }
    Ok(made)
}

/// Of the places of constraints in lists, one for each feature, those of the constraints that it can alone make false.
pub(crate) fn turned_by(
    alloc: Global,
    spans: &[Span],
    constraints: &[Condition],
    naming: &[Vec<usize>],
) -> Result<Vec<Vec<usize>>, NoMemory>
    requires constraints { AreFit (length spans.now) constraints.now }
    requires ranges { AreRanges (ranges spans.now) }
{
    let marks = marked(alloc, constraints.len(), naming)?;
    let mut sets = vec![in alloc; 0; constraints.len()]?;
    find_sets(constraints, spans, 0, &marks, &mut sets);
    let mut made = Vec::new(alloc);
    let mut feature: usize = 0;
    for places in naming {
        made.push(turned(alloc, places, &sets, feature)?)?;
        feature = feature.saturating_add(1);
    }
    Ok(made)
}

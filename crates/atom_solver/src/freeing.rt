//! Features that nothing undecided on a box names: their least value serves.
#![tactic(auto)]

ghost use Rattle.std.specs.Prelude.{◌≡◌, ◌<◌, ℤ, List, Some, None, true, length, IfOk};
ghost use Rattle.linear_atoms.specs.Atoms.{AreRanges};
ghost use Rattle.cpp_conditions.specs.Propositions.{IsFit, true_at};
ghost use Rattle.cpp_conditions.specs.Validity.{AreFit};
ghost use Rattle.cpp_conditions.specs.View.{proposition};
ghost use Rattle.atom_solver.specs.Free.{put, IsUnread, IsSame, Serves};
ghost use Rattle.atom_solver.specs.Spans.{ranges, meets, IsKnown};

use crate::deciding::{both, either, negation};
use crate::labels::is_marked;
use crate::narrowing::narrowed;
use crate::range_ends::range_at;
use crate::undecided::undecided_within;
use cpp_conditions::Condition;
use fam_outer::NoMemory;
use linear_atoms::Span;
use linear_atoms::slices::cut;
use std::alloc::Global;

/// Whether no term names a feature.
#[tactic(auto, using(crate::proofs::Freed::unread_none, crate::proofs::Freed::unread_more))]
fn is_unread(terms: &[(u32, i64)], place: usize) -> bool
    ensures { result ≡ true → IsUnread place terms.now }
{
    match cut(terms) {
        None => true,
        Some((term, behind)) => {
            if term.0 as usize == place {
                false
            } else {
                is_unread(behind, place)
            }
        }
    }
}

/// Whether no test of a condition names a feature.
fn is_unnamed(condition: &Condition, place: usize) -> bool
    ensures { result ≡ true → (values : List ℤ) (x : ℤ)
        → true_at (put place x values) (proposition condition.now)
        ≡ true_at values (proposition condition.now) }
{
    match condition {
        Condition::Const(_truth) => true,
        Condition::Test(atom) => is_unread(atom.terms.items(), place),
        Condition::Not(inner) => is_unnamed(inner, place),
        Condition::And(left, right) => is_unnamed(left, place) && is_unnamed(right, place),
        Condition::Or(left, right) => is_unnamed(left, place) && is_unnamed(right, place),
    }
}

/// What a box says of a condition: a truth that it has at each configuration, if there is one, and whether it has the same
/// truth at each whatever the value of a feature.
#[derive(Clone, Copy)]
struct Seen {
    truth: Option<bool>,
    is_free: bool,
}

impl Seen {
    /// A truth that a condition has at each configuration: it hangs on no feature.
    fn decided(truth: bool) -> Seen
        ensures truth { result.truth ≡ Some truth }
    {
        Seen {
            truth: Some(truth),
            is_free: true,
        }
    }

    /// No truth is known.
    fn undecided(is_free: bool) -> Seen
        ensures truth { result.truth ≡ None }
        ensures free { result.is_free ≡ is_free }
    {
        Seen {
            truth: None,
            is_free,
        }
    }
}

/// What a box says of a condition, each part of it looked at once. What is decided hangs on no feature.
#[tactic(auto, using(crate::proofs::Freed::known_same))]
fn look(condition: &Condition, spans: &[Span], place: usize) -> Seen
    requires fit { IsFit (length spans.now) (proposition condition.now) }
    requires ranges { AreRanges (ranges spans.now) }
    ensures known { IsKnown (ranges spans.now) (proposition condition.now) result.truth }
    ensures free { result.is_free ≡ true → IsSame (ranges spans.now) place
        (λ (values : List ℤ). true_at values (proposition condition.now)) }
{
    match condition {
        Condition::Const(truth) => Seen::decided(*truth),
        Condition::Test(atom) => match atom.decided_within(spans) {
            Some(truth) => Seen::decided(truth),
            None => Seen::undecided(is_unread(atom.terms.items(), place)),
        },
        Condition::Not(inner) => {
            let inner = look(inner, spans, place);
            Seen {
                truth: negation(inner.truth),
                is_free: inner.is_free,
            }
        }
        Condition::And(left, right) => {
            let left = look(left, spans, place);
            let right = look(right, spans, place);
            match both(left.truth, right.truth) {
                Some(truth) => Seen::decided(truth),
                None => Seen::undecided(left.is_free && right.is_free),
            }
        }
        Condition::Or(left, right) => {
            let left = look(left, spans, place);
            let right = look(right, spans, place);
            match either(left.truth, right.truth) {
                Some(truth) => Seen::decided(truth),
                None => Seen::undecided(left.is_free && right.is_free),
            }
        }
    }
}

/// Whether a condition has the same truth at each configuration of the box, whatever the value of a feature: it does not
/// name the feature, or each part of it that does is decided.
fn is_free(condition: &Condition, spans: &[Span], place: usize) -> bool
    requires fit { IsFit (length spans.now) (proposition condition.now) }
    requires ranges { AreRanges (ranges spans.now) }
    ensures { result ≡ true → IsSame (ranges spans.now) place
        (λ (values : List ℤ). true_at values (proposition condition.now)) }
{
    is_unnamed(condition, place) || look(condition, spans, place).is_free
}

/// Whether all conditions are so.
fn are_free(spans: &[Span], place: usize, constraints: &[Condition], wanted: &Condition) -> bool
    requires constraints { AreFit (length spans.now) constraints.now }
    requires wanted { IsFit (length spans.now) (proposition wanted.now) }
    requires ranges { AreRanges (ranges spans.now) }
    ensures { result ≡ true → IsSame (ranges spans.now) place
        (meets constraints.now (proposition wanted.now)) }
{
    match cut(constraints) {
        None => is_free(wanted, spans, place),
        Some((first, behind)) => {
            if is_free(first, spans, place) {
                are_free(spans, place, behind, wanted)
            } else {
                false
            }
        }
    }
}

/// The least value of a range alone.
fn low_alone(span: Span) -> Span
    ensures low { result.low ≡ span.low }
    ensures high { result.high ≡ span.low }
{
    Span {
        low: span.low,
        high: span.low,
    }
}

/// Leaves a feature only its least value where no condition that is undecided names it. Of features that are marked this is not
/// asked.
fn pin(
    spans: &mut [Span],
    place: usize,
    constraints: &[Condition],
    wanted: &Condition,
    named: &[bool],
)
    requires place { place < length spans.old }
    requires constraints { AreFit (length spans.old) constraints.now }
    requires wanted { IsFit (length spans.old) (proposition wanted.now) }
    requires ranges { AreRanges (ranges spans.old) }
    ensures { Serves (meets constraints.now (proposition wanted.now)) spans.old spans.new }
{
    let span = range_at(spans, place);
    if span.low >= span.high || is_marked(named, place) {
        return;
    }
    if are_free(spans, place, constraints, wanted) {
        spans[place] = low_alone(span);
    }
}

/// The same for each feature from a place on.
fn pin_from(
    spans: &mut [Span],
    place: usize,
    constraints: &[Condition],
    wanted: &Condition,
    named: &[bool],
)
    requires constraints { AreFit (length spans.old) constraints.now }
    requires wanted { IsFit (length spans.old) (proposition wanted.now) }
    requires ranges { AreRanges (ranges spans.old) }
    ensures { Serves (meets constraints.now (proposition wanted.now)) spans.old spans.new }
{
    if place >= spans.len() {
        return;
    }
    pin(spans, place, constraints, wanted, named);
    pin_from(spans, place + 1, constraints, wanted, named);
}

/// A box, and for each feature the places of the constraints that name it, but for those that are decided on the box; None where they
/// are as before.
#[derive(Drop)]
pub(crate) struct SmallerBox {
    pub(crate) spans: Vec<Span>,
    pub(crate) naming: Option<Vec<Vec<usize>>>,
}

impl SmallerBox {
    /// The places of the constraints that name each feature.
    pub(crate) fn naming_or<'a>(&'a self, before: &'a [Vec<usize>]) -> &'a [Vec<usize>] {
        match &self.naming {
            None => before,
            Some(naming) => naming.as_slice(),
        }
    }
}

/// The box narrowed by bounds, with the least value alone of each feature that nothing undecided names. It is advised which
/// constraints name each feature and are undecided.
pub(crate) fn reduced(
    alloc: Global,
    spans: &[Span],
    constraints: &[Condition],
    naming: &[Vec<usize>],
    wanted: &Condition,
) -> Result<SmallerBox, NoMemory>
    requires constraints { AreFit (length spans.now) constraints.now }
    requires wanted { IsFit (length spans.now) (proposition wanted.now) }
    requires ranges { AreRanges (ranges spans.now) }
    ensures { IfOk result (λ made. Serves
        (meets constraints.now (proposition wanted.now)) spans.now made.spans.items) }
{
    let mut inner = narrowed(alloc, spans, constraints, naming, wanted)?;
    let undecided = undecided_within(alloc, &inner, constraints, naming, wanted)?;
    pin_from(&mut inner, 0, constraints, wanted, &undecided.named);
    Ok(SmallerBox {
        spans: inner,
        naming: Some(undecided.naming),
    })
}

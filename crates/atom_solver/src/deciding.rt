//! What conditions say over a box, by logic of three values.
#![tactic(auto)]

ghost use Rattle.std.specs.Prelude.{◌≡◌, ℤ, List, Bool, true, false, not, ◌&&◌, ◌||◌, length};
ghost use Rattle.linear_atoms.specs.declared.atoms.Atom.{Atom};
ghost use Rattle.linear_atoms.specs.Atoms.{AreRanges, IsWithin};
ghost use Rattle.cpp_conditions.specs.Propositions.{Proposition, IsFit, true_at};
ghost use Rattle.cpp_conditions.specs.Validity.{AreFit};
ghost use Rattle.cpp_conditions.specs.View.{proposition};
ghost use Rattle.atom_solver.specs.Spans.{ranges, Agrees, meets};

use cpp_conditions::Condition;
use linear_atoms::Span;
use linear_atoms::slices::cut;

/// What is known of a negation.
pub(crate) fn negation(inner: Option<bool>) -> Option<bool>
    ensures { (p : Bool) → Agrees inner p → Agrees result (not p) }
{
    match inner {
        None => None,
        Some(truth) => Some(!truth),
    }
}

/// What is known of a conjunction.
pub(crate) fn both(left: Option<bool>, right: Option<bool>) -> Option<bool>
    ensures { (p q : Bool) → Agrees left p → Agrees right q → Agrees result (p && q) }
{
    match (left, right) {
        (Some(false), _) => Some(false),
        (_, Some(false)) => Some(false),
        (Some(true), Some(true)) => Some(true),
        _ => None,
    }
}

/// What is known of a disjunction.
pub(crate) fn either(left: Option<bool>, right: Option<bool>) -> Option<bool>
    ensures { (p q : Bool) → Agrees left p → Agrees right q → Agrees result (p || q) }
{
    match (left, right) {
        (Some(true), _) => Some(true),
        (_, Some(true)) => Some(true),
        (Some(false), Some(false)) => Some(false),
        _ => None,
    }
}

/// Whether a condition is known to have this truth on the whole box. It looks no further than it must, and first at the
/// second part: a chain of `||` has its single tests there.
#[tactic(auto, using(crate::proofs::Known::right_false, crate::proofs::Known::right_true))]
fn has_truth(condition: &Condition, truth: bool, spans: &[Span]) -> bool
    requires fit { IsFit (length spans.now) (proposition condition.now) }
    requires ranges { AreRanges (ranges spans.now) }
    ensures { result ≡ true → (values : List ℤ) → IsWithin (ranges spans.now) values
        → true_at values (proposition condition.now) ≡ truth }
{
    match condition {
        Condition::Const(value) => *value == truth,
        Condition::Test(atom) => match atom.decided_within(spans) {
            None => false,
            Some(value) => value == truth,
        },
        Condition::Not(inner) => has_truth(inner, !truth, spans),
        Condition::And(left, right) => {
            if truth {
                has_truth(right, true, spans) && has_truth(left, true, spans)
            } else {
                has_truth(left, false, spans) || has_truth(right, false, spans)
            }
        }
        Condition::Or(left, right) => {
            if truth {
                has_truth(left, true, spans) || has_truth(right, true, spans)
            } else {
                has_truth(right, false, spans) && has_truth(left, false, spans)
            }
        }
    }
}

/// Whether a constraint or what is wanted is known to be false on the whole box.
pub(crate) fn is_ruled_out(spans: &[Span], constraints: &[Condition], wanted: &Condition) -> bool
    requires constraints { AreFit (length spans.now) constraints.now }
    requires wanted { IsFit (length spans.now) (proposition wanted.now) }
    requires ranges { AreRanges (ranges spans.now) }
    ensures { result ≡ true → (values : List ℤ) → IsWithin (ranges spans.now) values
        → meets constraints.now (proposition wanted.now) values ≡ false }
{
    match cut(constraints) {
        None => has_truth(wanted, false, spans),
        Some((first, behind)) => {
            if has_truth(first, false, spans) {
                true
            } else {
                is_ruled_out(spans, behind, wanted)
            }
        }
    }
}

/// Whether the constraint at a place is known to be false on the whole box.
#[tactic(auto, using(crate::proofs::Known::fit_at, crate::proofs::Known::false_at))]
fn is_false_at(spans: &[Span], constraints: &[Condition], place: usize) -> bool
    requires constraints { AreFit (length spans.now) constraints.now }
    requires ranges { AreRanges (ranges spans.now) }
    ensures { result ≡ true → (wanted : Proposition Atom) (values : List ℤ) → IsWithin (ranges spans.now) values
        → meets constraints.now wanted values ≡ false }
{
    if place >= constraints.len() {
        return false;
    }
    has_truth(&constraints[place], false, spans)
}

/// Whether a constraint at one of some places, or what is wanted, is known to be false on the whole box.
#[tactic(auto, using(crate::proofs::Known::wanted_false))]
pub(crate) fn is_ruled_out_by(
    spans: &[Span],
    constraints: &[Condition],
    places: &[usize],
    wanted: &Condition,
) -> bool
    requires constraints { AreFit (length spans.now) constraints.now }
    requires wanted { IsFit (length spans.now) (proposition wanted.now) }
    requires ranges { AreRanges (ranges spans.now) }
    ensures { result ≡ true → (values : List ℤ) → IsWithin (ranges spans.now) values
        → meets constraints.now (proposition wanted.now) values ≡ false }
{
    match cut(places) {
        None => has_truth(wanted, false, spans),
        Some((place, behind)) => {
            if is_false_at(spans, constraints, *place) {
                true
            } else {
                is_ruled_out_by(spans, constraints, behind, wanted)
            }
        }
    }
}

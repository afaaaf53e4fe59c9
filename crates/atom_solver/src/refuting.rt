//! Sums of linear forms that are at least 0: where one is a number below 0, the forms clash.
#![tactic(auto)]

ghost use Rattle.std.specs.Prelude.{◌≡◌, ℤ, pos, ◌≤ℤ◌, ◌<ℤ◌, List, [], true, false, IfOk, MatchOption};
ghost use Rattle.linear_atoms.specs.Atoms.{AreRanges, IsWithin};
ghost use Rattle.linear_atoms.specs.Forms.{IsRising, form_at};
ghost use Rattle.cpp_conditions.specs.View.{proposition};
ghost use Rattle.atom_solver.specs.Spans.{meets, ranges};
ghost use Rattle.cpp_conditions.specs.Numbering.{vector_at};
ghost use Rattle.atom_solver.specs.Facts.{AreMet, AreRising, IsMixed};
ghost use Rattle.atom_solver.specs.Truths.{Knows, IsMoreWhere};

use crate::cycles::Lowered;
use crate::edges::Edges;
use crate::end_forms::{add_ends, copies};
use crate::facts::{gather_all, known_form, number, sum, times};
use cpp_conditions::Condition;
use fam_outer::NoMemory;
use linear_atoms::slices::cut;
use linear_atoms::{Atom, Linear, Span};
use std::alloc::Global;

/// Whether the form is a number below 0.
#[tactic(auto, using(crate::proofs::Refuted::negative))]
fn is_negative(form: &Linear) -> bool
    ensures { result ≡ true → (values : List ℤ) → form_at form.now values <ℤ pos 0 }
{
    match form.terms.items() {
        [] => form.constant < 0,
        _ => false,
    }
}

/// Whether a form has the opposite of another's first term.
fn cancels(terms: &[(u32, i64)], form: &[(u32, i64)]) -> bool {
    match terms {
        [] => false,
        [(number, coefficient), ..] => {
            for (other, by) in form {
                if *other == *number && coefficient.checked_add(*by) == Some(0) {
                    return true;
                }
            }
            false
        }
    }
}

/// The first term.
fn first_term(terms: &[(u32, i64)]) -> Option<(u32, i64)> {
    match terms {
        [] => None,
        [(number, coefficient), ..] => Some((*number, *coefficient)),
    }
}

/// Whether two forms have first terms of one feature and of opposite signs.
fn are_opposite(terms: &[(u32, i64)], form: &[(u32, i64)]) -> bool {
    match first_term(terms) {
        None => false,
        Some((number, coefficient)) => match first_term(form) {
            None => false,
            Some((other, by)) => number == other && (coefficient < 0) != (by < 0),
        },
    }
}

/// How forms are chosen that are added to a sum.
#[derive(Clone, Copy)]
enum Choice {
    /// One that has the opposite of the sum's first term.
    Opposite,
    /// One whose first term is of the same feature and of the other sign: both are multiplied.
    Leading,
}

/// Whether a form is to be added to a sum.
fn is_chosen(sum: &[(u32, i64)], form: &[(u32, i64)], choice: Choice) -> bool {
    match choice {
        Choice::Opposite => cancels(sum, form),
        Choice::Leading => are_opposite(sum, form),
    }
}

/// One of the forms, which is to be added to a sum.
#[tactic(auto, using(crate::proofs::Refuted::first_met, crate::proofs::Refuted::later_met))]
fn partner<'a>(sum: &Linear, forms: &'a [Linear], choice: Choice) -> Option<&'a Linear>
    requires { AreRising forms.now }
    ensures rising { MatchOption result (Unit {0}) (λ f. IsRising f.now.terms) }
    ensures met { MatchOption result (Unit {0})
        (λ f. (values : List ℤ) → AreMet values forms.now → pos 0 ≤ℤ form_at f.now values) }
{
    match cut(forms) {
        None => None,
        Some((first, behind)) => {
            if is_chosen(sum.terms.items(), first.terms.items(), choice) {
                Some(first)
            } else {
                partner(sum, behind, choice)
            }
        }
    }
}

/// The size of a number, or 0 where it is too large.
fn size(n: i64) -> i64
    ensures { pos 0 ≤ℤ result }
{
    if n >= 0 {
        n
    } else if n > -1000000000000 {
        -n
    } else {
        0
    }
}

/// By what a form is multiplied that is added to a multiple of another, so that their first terms cancel if they are of
/// one feature.
fn multiplier(terms: &[(u32, i64)], others: &[(u32, i64)]) -> i64
    ensures { pos 0 ≤ℤ result }
{
    match first_term(terms) {
        None => 1,
        Some((number, a)) => match first_term(others) {
            None => 1,
            Some((other, b)) => {
                if number == other && size(a) != size(b) {
                    size(b)
                } else {
                    1
                }
            }
        },
    }
}

/// The sum of multiples of two forms by numbers of at least 0; None where a number becomes too large.
fn mixed(
    alloc: Global,
    left: &Linear,
    by: i64,
    right: &Linear,
    with: i64,
) -> Result<Option<Linear>, NoMemory>
    requires left { IsRising left.now.terms }
    requires right { IsRising right.now.terms }
    requires by { pos 0 ≤ℤ by }
    requires with { pos 0 ≤ℤ with }
    ensures { IfOk result (λ made. MatchOption made (Unit {0}) (λ f. IsMixed left.now right.now f)) }
{
    match times(alloc, left, by)? {
        None => Ok(None),
        Some(first) => match times(alloc, right, with)? {
            None => Ok(None),
            Some(second) => match sum(alloc, &first, &second)? {
                None => Ok(None),
                Some(made) => Ok(Some(made)),
            },
        },
    }
}

/// The sum of multiples of two forms in which their first terms cancel, if they are of one feature.
fn joined(alloc: Global, left: &Linear, right: &Linear) -> Result<Option<Linear>, NoMemory>
    requires left { IsRising left.now.terms }
    requires right { IsRising right.now.terms }
    ensures { IfOk result (λ made. MatchOption made (Unit {0}) (λ f. IsMixed left.now right.now f)) }
{
    let by = multiplier(left.terms.items(), right.terms.items());
    let with = multiplier(right.terms.items(), left.terms.items());
    mixed(alloc, left, by, right, with)
}

/// Whether a form, with others of a list added to it, becomes a number below 0: then they clash.
fn clashes_with(
    alloc: Global,
    start: &Linear,
    forms: &[Linear],
    choice: Choice,
    fuel: usize,
) -> Result<bool, NoMemory>
    requires start { IsRising start.now.terms }
    requires rising { AreRising forms.now }
    ensures { IfOk result (λ answer. answer ≡ true → (values : List ℤ) → AreMet values forms.now
        → pos 0 ≤ℤ form_at start.now values → ⊥) }
{
    if is_negative(start) {
        return Ok(true);
    }
    if fuel == 0 {
        return Ok(false);
    }
    match partner(start, forms, choice) {
        None => Ok(false),
        Some(other) => match joined(alloc, start, other)? {
            None => Ok(false),
            Some(more) => clashes_with(alloc, &more, forms, choice, fuel - 1),
        },
    }
}

/// Whether one of some forms, with others of a list added to it, becomes a number below 0.
#[tactic(auto, using(crate::proofs::Refuted::first_met, crate::proofs::Refuted::later_met))]
fn any_clashes(
    alloc: Global,
    starts: &[Linear],
    forms: &[Linear],
    choice: Choice,
) -> Result<bool, NoMemory>
    requires starts { AreRising starts.now }
    requires rising { AreRising forms.now }
    ensures { IfOk result (λ answer. answer ≡ true → (values : List ℤ) → AreMet values starts.now
        → AreMet values forms.now → ⊥) }
{
    match cut(starts) {
        None => Ok(false),
        Some((first, behind)) => {
            if clashes_with(alloc, first, forms, choice, forms.len())? {
                Ok(true)
            } else {
                any_clashes(alloc, behind, forms, choice)
            }
        }
    }
}

/// Whether one of some forms clashes with those of a list, by sums that are found in one way or the other.
fn clash(alloc: Global, starts: &[Linear], forms: &[Linear]) -> Result<bool, NoMemory>
    requires starts { AreRising starts.now }
    requires rising { AreRising forms.now }
    ensures { IfOk result (λ answer. answer ≡ true → (values : List ℤ) → AreMet values starts.now
        → AreMet values forms.now → ⊥) }
{
    if any_clashes(alloc, starts, forms, Choice::Opposite)? {
        Ok(true)
    } else {
        any_clashes(alloc, starts, forms, Choice::Leading)
    }
}

/// Whether a sum of tests that must hold or fail, and of ends of ranges, shows that the constraints and what is wanted
/// are never true together in a box.
pub(crate) fn are_opposed(
    alloc: Global,
    spans: &[Span],
    constraints: &[Condition],
    wanted: &Condition,
) -> Result<bool, NoMemory>
    requires { AreRanges (ranges spans.now) }
    ensures { IfOk result (λ answer. answer ≡ true → (values : List ℤ) → IsWithin (ranges spans.now) values
        → meets constraints.now (proposition wanted.now) values ≡ false) }
{
    let mut facts = Vec::new(alloc);
    gather_all(alloc, constraints, wanted, &mut facts)?;
    let mut forms = copies(alloc, &facts)?;
    add_ends(alloc, spans, 0, &mut forms)?;
    clash(alloc, &facts, &forms)
}

/// The form at a place.
#[tactic(auto, using(crate::proofs::Refuted::first_met, crate::proofs::Refuted::later_met))]
fn form_of(forms: &[Linear], place: usize) -> Option<&Linear>
    requires { AreRising forms.now }
    ensures rising { MatchOption result (Unit {0}) (λ f. IsRising f.now.terms) }
    ensures met { MatchOption result (Unit {0})
        (λ f. (values : List ℤ) → AreMet values forms.now → pos 0 ≤ℤ form_at f.now values) }
{
    match cut(forms) {
        None => None,
        Some((first, behind)) => {
            if place == 0 {
                Some(first)
            } else {
                form_of(behind, place - 1)
            }
        }
    }
}

/// The sum of a form and of that at a place: of further forms, or behind them of atoms with the truths that are known.
#[tactic(auto, using(crate::proofs::Refuted::more_end, crate::proofs::Refuted::more_fact))]
fn with_place(
    alloc: Global,
    start: &Linear,
    ends: &[Linear],
    atoms: &[Atom],
    known: &[Option<bool>],
    place: usize,
) -> Result<Option<Linear>, NoMemory>
    requires start { IsRising start.now.terms }
    requires rising { AreRising ends.now }
    ensures { IfOk result (λ made. MatchOption made (Unit {0})
        (λ f. IsMoreWhere ends.now atoms.now known.now start.now f)) }
{
    match form_of(ends, place) {
        Some(form) => match sum(alloc, start, form)? {
            None => Ok(None),
            Some(made) => Ok(Some(made)),
        },
        None => match known_form(alloc, atoms, known, place.wrapping_sub(ends.len()))? {
            None => Ok(None),
            Some(form) => match sum(alloc, start, &form)? {
                None => Ok(None),
                Some(made) => Ok(Some(made)),
            },
        },
    }
}

/// Whether a form, with those at some places added to it, becomes a number below 0.
fn adds_up(
    alloc: Global,
    start: &Linear,
    ends: &[Linear],
    atoms: &[Atom],
    known: &[Option<bool>],
    places: &[usize],
) -> Result<bool, NoMemory>
    requires start { IsRising start.now.terms }
    requires rising { AreRising ends.now }
    ensures { IfOk result (λ answer. answer ≡ true → (values : List ℤ) → AreMet values ends.now
        → Knows known.now (vector_at atoms.now values) → pos 0 ≤ℤ form_at start.now values → ⊥) }
{
    match cut(places) {
        None => Ok(is_negative(start)),
        Some((place, behind)) => match with_place(alloc, start, ends, atoms, known, *place)? {
            None => Ok(false),
            Some(more) => adds_up(alloc, &more, ends, atoms, known, behind),
        },
    }
}

/// Whether no values give the atoms the truths that are known where further forms are at least 0, by the sum of a cycle of
/// their forms. It is advised at which values of the edges' nodes to begin: all edges but those of some tests allow them.
#[tactic(auto, using(crate::proofs::Refuted::from_zero))]
pub(crate) fn is_clash(
    alloc: Global,
    ends: &[Linear],
    atoms: &[Atom],
    edges: &Edges,
    tests: &[usize],
    known: &[Option<bool>],
    lowered: &mut Lowered,
) -> Result<bool, NoMemory>
    requires { AreRising ends.now }
    ensures { IfOk result (λ answer. answer ≡ true → (values : List ℤ) → AreMet values ends.now
        → Knows known.now (vector_at atoms.now values) → ⊥) }
{
    let places = lowered.cycle(alloc, edges, tests, known)?;
    match number(alloc, 0)? {
        None => Ok(false),
        Some(zero) => adds_up(alloc, &zero, ends, atoms, known, &places),
    }
}

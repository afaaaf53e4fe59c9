//! Linear forms that are at least 0 where conditions are true.
#![tactic(auto)]

ghost use Rattle.std.specs.Int.{w64};
ghost use Rattle.std.specs.Prelude.{◌≡◌, FitsSigned, pos, neg_ℤ, ◌-ℤ◌, true, false, [], ◌∷◌, IfOk, MatchOption, Option, None, slice_index_or};
ghost use Rattle.linear_atoms.specs.Forms.{IsRising};
ghost use Rattle.cpp_conditions.specs.Propositions.{Test};
ghost use Rattle.cpp_conditions.specs.View.{proposition};
ghost use Rattle.atom_solver.specs.Facts.{IsTimes, IsNumber, IsTerm, IsMore, IsFact, IsSum, Adds, AddsAll};
ghost use Rattle.atom_solver.specs.Truths.{IsKnownFact};

use cpp_conditions::Condition;
use fam_outer::NoMemory;
use linear_atoms::slices::cut;
use linear_atoms::{Atom, Linear, LinearFault};
use std::alloc::Global;

/// The first term and those behind it.
fn cut_term(terms: &[(u32, i64)]) -> Option<(u32, i64, &[(u32, i64)])>
    ensures parts { MatchOption result (terms.now ≡ []) (λ x. terms.now ≡ (x.0, x.1) ∷ x.2.now) }
    ensures fits { MatchOption result (Unit {0}) (λ x. FitsSigned w64 x.1) }
{
    match terms {
        [] => None,
        [(number, coefficient), behind @ ..] => Some((*number, *coefficient, behind)),
    }
}

/// The sum of two forms; None where a number becomes too large.
#[tactic(auto, using(crate::proofs::Refuted::sum_is))]
pub(crate) fn sum(alloc: Global, left: &Linear, right: &Linear) -> Result<Option<Linear>, NoMemory>
    requires left { IsRising left.now.terms }
    requires right { IsRising right.now.terms }
    ensures { IfOk result (λ made. MatchOption made (Unit {0}) (λ f. IsSum left.now right.now f)) }
{
    match left.add(alloc, right) {
        Ok(made) => Ok(Some(made)),
        Err(LinearFault::TooLarge) => Ok(None),
        Err(LinearFault::NoMemory) => Err(NoMemory),
    }
}

/// A form times a number; None where a number becomes too large.
#[tactic(auto, using(crate::proofs::Stated::times_is))]
pub(crate) fn times(alloc: Global, form: &Linear, by: i64) -> Result<Option<Linear>, NoMemory>
    requires { IsRising form.now.terms }
    ensures { IfOk result (λ made. MatchOption made (Unit {0}) (λ f. IsTimes form.now by f)) }
{
    match form.scale(alloc, by) {
        Ok(made) => Ok(Some(made)),
        Err(LinearFault::TooLarge) => Ok(None),
        Err(LinearFault::NoMemory) => Err(NoMemory),
    }
}

/// A number as a form; None where it is too large.
#[tactic(auto, using(crate::proofs::Stated::number_is))]
pub(crate) fn number(alloc: Global, n: i64) -> Result<Option<Linear>, NoMemory>
    ensures { IfOk result (λ made. MatchOption made (Unit {0}) (λ f. IsNumber n f)) }
{
    match Linear::constant(alloc, n) {
        Ok(made) => Ok(Some(made)),
        Err(LinearFault::TooLarge) => Ok(None),
        Err(LinearFault::NoMemory) => Err(NoMemory),
    }
}

/// A feature times a number.
#[tactic(auto, using(crate::proofs::Stated::term_is))]
pub(crate) fn term(alloc: Global, number: u32, by: i64) -> Result<Option<Linear>, NoMemory>
    ensures { IfOk result (λ made. MatchOption made (Unit {0}) (λ f. IsTerm number by f)) }
{
    let form = Linear::feature(alloc, number)?;
    times(alloc, &form, by)
}

/// A form and terms.
#[tactic(auto, using(crate::proofs::Stated::more_none, crate::proofs::Stated::more_term))]
fn with_terms(
    alloc: Global,
    start: Linear,
    terms: &[(u32, i64)],
) -> Result<Option<Linear>, NoMemory>
    requires { IsRising start.terms }
    ensures { IfOk result (λ made. MatchOption made (Unit {0}) (λ f. IsMore terms.now start f)) }
{
    match cut_term(terms) {
        None => Ok(Some(start)),
        Some((name, by, behind)) => match term(alloc, name, by)? {
            None => Ok(None),
            Some(form) => match sum(alloc, &start, &form)? {
                None => Ok(None),
                Some(more) => with_terms(alloc, more, behind),
            },
        },
    }
}

/// The negative of a number, and that of a number less by one.
fn opposites(n: i64) -> Option<(i64, i64)>
    ensures { MatchOption result (Unit {0}) (λ x. (x.0 ≡ neg_ℤ n) × (x.1 ≡ pos 1 -ℤ n)) }
{
    if -1000000000000 < n && n < 1000000000000 {
        Some((-n, 1 - n))
    } else {
        None
    }
}

/// The form that is at least 0 where an atom holds.
#[tactic(auto, using(crate::proofs::Stated::fact_above))]
fn above(alloc: Global, atom: &Atom, least: i64) -> Result<Option<Linear>, NoMemory>
    requires { least ≡ neg_ℤ atom.now.bound }
    ensures { IfOk result (λ made. MatchOption made (Unit {0}) (λ f. IsFact atom.now true f)) }
{
    match number(alloc, least)? {
        None => Ok(None),
        Some(start) => match with_terms(alloc, start, atom.terms.items())? {
            None => Ok(None),
            Some(form) => Ok(Some(form)),
        },
    }
}

/// The form that is at least 0 where an atom does not hold.
#[tactic(auto, using(crate::proofs::Stated::fact_below))]
fn below(alloc: Global, atom: &Atom, least: i64) -> Result<Option<Linear>, NoMemory>
    requires { least ≡ pos 1 -ℤ atom.now.bound }
    ensures { IfOk result (λ made. MatchOption made (Unit {0}) (λ f. IsFact atom.now false f)) }
{
    match number(alloc, least)? {
        None => Ok(None),
        Some(start) => match with_terms(alloc, start, atom.terms.items())? {
            None => Ok(None),
            Some(form) => match times(alloc, &form, -1)? {
                None => Ok(None),
                Some(turned) => Ok(Some(turned)),
            },
        },
    }
}

/// The form that is at least 0 where an atom has a truth.
fn of_atom(alloc: Global, atom: &Atom, positive: bool) -> Result<Option<Linear>, NoMemory>
    ensures { IfOk result (λ made. MatchOption made (Unit {0}) (λ f. IsFact atom.now positive f)) }
{
    match opposites(atom.bound) {
        None => Ok(None),
        Some((first, second)) => {
            if positive {
                above(alloc, atom, first)
            } else {
                below(alloc, atom, second)
            }
        }
    }
}

/// Whether one of the forms has the same terms and no greater constant, so that this one tells nothing more.
fn is_known(facts: &[Linear], form: &Linear) -> bool {
    for fact in facts {
        if fact.terms == form.terms && fact.constant <= form.constant {
            return true;
        }
    }
    false
}

/// Adds the form of an atom with a truth, if there is one that tells more.
#[tactic(auto, using(crate::proofs::Gathered::adds_none, crate::proofs::Gathered::adds_fact))]
fn note(alloc: Global, atom: &Atom, truth: bool, facts: &mut Vec<Linear>) -> Result<(), NoMemory>
    ensures { IfOk result (λ _. Adds (Test atom.now) truth facts.old.items facts.new.items) }
{
    match of_atom(alloc, atom, truth)? {
        None => Ok(()),
        Some(form) => {
            if is_known(facts.as_slice(), &form) {
                Ok(())
            } else {
                facts.push(form)?;
                Ok(())
            }
        }
    }
}

/// Adds the forms of the atoms that must have a truth where the condition has one.
#[tactic(auto, using(crate::proofs::Gathered::adds_none, crate::proofs::Gathered::adds_not, crate::proofs::Gathered::adds_and, crate::proofs::Gathered::adds_or))]
fn gather(
    alloc: Global,
    condition: &Condition,
    truth: bool,
    facts: &mut Vec<Linear>,
) -> Result<(), NoMemory>
    ensures { IfOk result (λ _. Adds (proposition condition.now) truth facts.old.items facts.new.items) }
{
    match condition {
        Condition::Const(_value) => Ok(()),
        Condition::Test(atom) => note(alloc, atom, truth, facts),
        Condition::Not(inner) => gather(alloc, inner, !truth, facts),
        Condition::And(left, right) => {
            if truth {
                gather(alloc, left, true, facts)?;
                gather(alloc, right, true, facts)
            } else {
                Ok(())
            }
        }
        Condition::Or(left, right) => {
            if truth {
                Ok(())
            } else {
                gather(alloc, left, false, facts)?;
                gather(alloc, right, false, facts)
            }
        }
    }
}

/// Adds the forms of the atoms that must have a truth where all conditions are true.
#[tactic(auto, using(crate::proofs::Gathered::all_none, crate::proofs::Gathered::all_more))]
pub(crate) fn gather_all(
    alloc: Global,
    constraints: &[Condition],
    wanted: &Condition,
    facts: &mut Vec<Linear>,
) -> Result<(), NoMemory>
    ensures { IfOk result (λ _. AddsAll constraints.now
        (proposition wanted.now) facts.old.items facts.new.items) }
{
    match cut(constraints) {
        None => gather(alloc, wanted, true, facts),
        Some((first, behind)) => {
            gather(alloc, first, true, facts)?;
            gather_all(alloc, behind, wanted, facts)
        }
    }
}

/// What is known of the atom of a number.
fn truth_at(known: &[Option<bool>], number: usize) -> Option<bool>
    ensures { result ≡ slice_index_or known.now number None }
{
    match known.get(number) {
        None => None,
        Some(truth) => *truth,
    }
}

/// The form that is at least 0 where the atom of a number has the truth that is known.
#[tactic(auto, using(crate::proofs::Learned::known_fact))]
pub(crate) fn known_form(
    alloc: Global,
    atoms: &[Atom],
    known: &[Option<bool>],
    number: usize,
) -> Result<Option<Linear>, NoMemory>
    ensures { IfOk result (λ made. MatchOption made (Unit {0})
        (λ f. IsKnownFact atoms.now known.now f)) }
{
    if number >= atoms.len() {
        return Ok(None);
    }
    match truth_at(known, number) {
        None => Ok(None),
        Some(truth) => match of_atom(alloc, &atoms[number], truth)? {
            None => Ok(None),
            Some(form) => Ok(Some(form)),
        },
    }
}

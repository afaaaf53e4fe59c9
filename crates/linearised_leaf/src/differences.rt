//! What an assignment of a form that has the variable itself says of the variable and each other term.
#![tactic(auto)]

ghost use Rattle.std.specs.Prelude.{◌≡◌, ◌≢◌, ◌<◌, [], ◌∷◌, negsuc, IfOk, IfSome, Some};
ghost use Rattle.leaf_domain.specs.Forms.{IsForm, IsFormNumber, AreTerms, multiple_form};
ghost use Rattle.linearised_leaf.specs.Sizes.{IsSumSize};
ghost use Rattle.linearised_leaf.specs.Differences.{met_in_order, difference_met, differences_met, form_met, negated_met, set_met};

use crate::forms::{is_other_unit, kept, negated};
use crate::least::{least_term, least_value, left_for_rest};
use crate::sides::met_pair;
use fam_outer::NoMemory;
use leaf_domain::{Form, Leaf};
use linear_terms::first_term;
use std::alloc::Global;

/// The leaf met with two terms of different variables and a constant, where there is one, being at most 0.
#[tactic(auto, using(crate::proofs::DifferenceLaws::in_order_has, crate::proofs::DifferenceLaws::other_order))]
fn met_in_order<L: Leaf>(
    alloc: Global,
    leaf: L,
    constant: Option<i64>,
    first: (u32, i64),
    second: (u32, i64),
) -> Result<L, NoMemory>
    requires first { AreTerms 0 (L.value leaf).variables (first ∷ []) }
    requires second { AreTerms 0 (L.value leaf).variables (second ∷ []) }
    requires other { first.0 ≢ second.0 }
    requires constant { IfSome constant IsFormNumber }
    ensures value { IfOk result
        (λ met. L.value met ≡ met_in_order L.meaning (L.value leaf) constant first second) }
    ensures same { IfOk result (λ met. (L.value met).variables ≡ (L.value leaf).variables) }
{
    if first.0 < second.0 {
        met_pair(alloc, leaf, constant, first, second)
    } else {
        met_pair(alloc, leaf, constant, second, first)
    }
}

/// The leaf met with what is left for a term of a form, where it is another variable than `own` with 1 or -1. `leaf` is the leaf before, and
/// `least` the form's least value there.
fn difference_met<L: Leaf>(
    alloc: Global,
    leaf: &L,
    least: i128,
    own: (u32, i64),
    term: (u32, i64),
    met: L,
) -> Result<L, NoMemory>
    requires same { (L.value met).variables ≡ (L.value leaf.now).variables }
    requires least { IsSumSize least }
    requires own { AreTerms 0 (L.value leaf.now).variables (own ∷ []) }
    requires term { AreTerms 0 (L.value leaf.now).variables (term ∷ []) }
    ensures value { IfOk result
        (λ kept. L.value kept ≡ difference_met L.meaning (L.value leaf.now) least own term (L.value met)) }
    ensures same { IfOk result (λ kept. (L.value kept).variables ≡ (L.value leaf.now).variables) }
{
    if !is_other_unit(own.0, term.0, term.1) {
        return Ok(met);
    }
    let left = left_for_rest(least, least_term(leaf, term.0, term.1));
    met_in_order(alloc, met, kept(left), own, term)
}

/// The leaf met with what is left for each of the terms.
fn differences_met<L: Leaf>(
    alloc: Global,
    leaf: &L,
    least: i128,
    own: (u32, i64),
    terms: &[(u32, i64)],
    met: L,
) -> Result<L, NoMemory>
    requires same { (L.value met).variables ≡ (L.value leaf.now).variables }
    requires least { IsSumSize least }
    requires own { AreTerms 0 (L.value leaf.now).variables (own ∷ []) }
    requires terms { AreTerms 0 (L.value leaf.now).variables terms.now }
    ensures value { IfOk result
        (λ kept. L.value kept ≡ differences_met L.meaning (L.value leaf.now) least own terms.now (L.value met)) }
    ensures same { IfOk result (λ kept. (L.value kept).variables ≡ (L.value leaf.now).variables) }
{
    let mut kept = met;
    let mut rest = terms;
    'terms: while let Some((x, factor, behind)) = first_term(rest) {
        kept = difference_met(alloc, leaf, least, own, (x, factor), kept)?;
        rest = behind;
    }
    Ok(kept)
}

/// The leaf met with what is left for each term of a form, which is the negation of `own` once that is set.
fn form_met<L: Leaf>(
    alloc: Global,
    leaf: &L,
    own: (u32, i64),
    f: &Form,
    met: L,
) -> Result<L, NoMemory>
    requires same { (L.value met).variables ≡ (L.value leaf.now).variables }
    requires own { AreTerms 0 (L.value leaf.now).variables (own ∷ []) }
    requires form { IsForm (L.value leaf.now).variables f.now }
    ensures value { IfOk result
        (λ kept. L.value kept ≡ form_met L.meaning (L.value leaf.now) own f.now (L.value met)) }
    ensures same { IfOk result (λ kept. (L.value kept).variables ≡ (L.value leaf.now).variables) }
{
    let least = least_value(leaf, f, 0);
    differences_met(alloc, leaf, least, own, f.terms.items(), met)
}

/// The leaf met with what is left for each term of the negated form.
fn negated_met<L: Leaf>(alloc: Global, leaf: &L, x: u32, f: &Form, met: L) -> Result<L, NoMemory>
    requires same { (L.value met).variables ≡ (L.value leaf.now).variables }
    requires x { x < (L.value leaf.now).variables }
    requires form { IsForm (L.value leaf.now).variables f.now }
    ensures { IfOk result
        (λ kept. L.value kept ≡ negated_met L.meaning (L.value leaf.now) x (multiple_form (negsuc 0) (Some f.now)) (L.value met)) }
{
    match negated(alloc, f)? {
        None => Ok(met),
        Some(g) => form_met(alloc, leaf, (x, 1), &g, met),
    }
}

/// The leaf met with what the form to which a variable was set says of it and each other term with 1 or -1: the variable less the term lies
/// in the range that the rest of the form has in `leaf`, the leaf before. These are at most two meets for each term, each only where it is
/// tighter than what the leaf knows.
pub(crate) fn set_met<L: Leaf>(
    alloc: Global,
    leaf: &L,
    x: u32,
    f: &Form,
    set: L,
) -> Result<L, NoMemory>
    requires same { (L.value set).variables ≡ (L.value leaf.now).variables }
    requires x { x < (L.value leaf.now).variables }
    requires form { IsForm (L.value leaf.now).variables f.now }
    ensures { IfOk result
        (λ met. L.value met ≡ set_met L.meaning (L.value leaf.now) x f.now (L.value set)) }
{
    if set.is_nothing() {
        return Ok(set);
    }
    let met = form_met(alloc, leaf, (x, -1), f, set)?;
    negated_met(alloc, leaf, x, f, met)
}

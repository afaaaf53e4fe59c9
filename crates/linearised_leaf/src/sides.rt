//! What a form that is at most 0 says of each two of its terms, and of each one.
#![tactic(auto)]

ghost use Rattle.std.specs.Prelude.{◌≡◌, ◌≢◌, ◌<◌, [], ◌∷◌, pos, IfOk, IfSome};
ghost use Rattle.leaf_domain.specs.Forms.{IsForm, IsFormNumber, AreTerms};
ghost use Rattle.linearised_leaf.specs.Sizes.{IsSumSize};
ghost use Rattle.linearised_leaf.specs.Sides.{two_terms, is_never_above, met_at_most, met_pair, pair_met, pairs_met, all_pairs_met, term_met, terms_met, side_met};

use crate::forms::{are_units, kept, two_terms};
use crate::least::{least_term, least_value, left_for_one, left_for_two, multiples_below};
use fam_outer::NoMemory;
use leaf_domain::{Compare, Form, Leaf, Range, leaf_is_valid};
use linear_terms::first_term;
use paired_leaf::limited_at;
use std::alloc::Global;

/// Whether no number of a range, where there is one, is above 0.
fn is_never_above(range: Option<Range>) -> bool
    ensures { result ≡ is_never_above range }
{
    match range {
        None => false,
        Some(range) => range.high <= 0,
    }
}

/// The leaf met with a form being at most 0, where its range does not say so already.
fn met_at_most<L: Leaf>(alloc: Global, leaf: L, f: &Form) -> Result<L, NoMemory>
    requires { IsForm (L.value leaf).variables f.now }
    ensures value { IfOk result (λ met. L.value met ≡ met_at_most L.meaning (L.value leaf) f.now) }
    ensures same { IfOk result (λ met. (L.value met).variables ≡ (L.value leaf).variables) }
{
    leaf_is_valid(&leaf);
    if is_never_above(leaf.form_range(f)) {
        Ok(leaf)
    } else {
        leaf.meet_form(alloc, f, Compare::Le)
    }
}

/// The leaf met with two terms and a constant, where there is one, being at most 0.
pub(crate) fn met_pair<L: Leaf>(
    alloc: Global,
    leaf: L,
    constant: Option<i64>,
    first: (u32, i64),
    second: (u32, i64),
) -> Result<L, NoMemory>
    requires { IfSome constant (λ n. IsForm (L.value leaf).variables (two_terms first second n)) }
    ensures value { IfOk result (λ met. L.value met ≡ met_pair L.meaning (L.value leaf) constant first second) }
    ensures same { IfOk result (λ met. (L.value met).variables ≡ (L.value leaf).variables) }
{
    match constant {
        None => Ok(leaf),
        Some(constant) => met_at_most(alloc, leaf, &two_terms(alloc, first, second, constant)?),
    }
}

/// The leaf met with what is left for two terms, both with 1 or -1. `leaf` has the ranges, and `least` is the form's least value.
fn pair_met<L: Leaf>(
    alloc: Global,
    leaf: &L,
    least: i128,
    first: (u32, i64),
    second: (u32, i64),
    met: L,
) -> Result<L, NoMemory>
    requires same { (L.value met).variables ≡ (L.value leaf.now).variables }
    requires least { IsSumSize least }
    requires terms { AreTerms 0 (L.value leaf.now).variables (first ∷ second ∷ []) }
    ensures value { IfOk result
        (λ kept. L.value kept ≡ pair_met L.meaning (L.value leaf.now) least first second (L.value met)) }
    ensures same { IfOk result (λ kept. (L.value kept).variables ≡ (L.value leaf.now).variables) }
{
    if !are_units(first.1, second.1) {
        return Ok(met);
    }
    let left = left_for_two(
        least,
        least_term(leaf, first.0, first.1),
        least_term(leaf, second.0, second.1),
    );
    met_pair(alloc, met, kept(left), first, second)
}

/// The leaf met with what is left for a term and each of others, two by two.
fn pairs_met<L: Leaf>(
    alloc: Global,
    leaf: &L,
    least: i128,
    first: (u32, i64),
    others: &[(u32, i64)],
    met: L,
) -> Result<L, NoMemory>
    requires same { (L.value met).variables ≡ (L.value leaf.now).variables }
    requires least { IsSumSize least }
    requires terms { AreTerms 0 (L.value leaf.now).variables (first ∷ others.now) }
    ensures value { IfOk result
        (λ kept. L.value kept ≡ pairs_met L.meaning (L.value leaf.now) least first others.now (L.value met)) }
    ensures same { IfOk result (λ kept. (L.value kept).variables ≡ (L.value leaf.now).variables) }
{
    let mut kept = met;
    let mut rest = others;
    'others: while let Some((x, factor, behind)) = first_term(rest) {
        kept = pair_met(alloc, leaf, least, first, (x, factor), kept)?;
        rest = behind;
    }
    Ok(kept)
}

/// The leaf met with what is left for each two of the terms.
fn all_pairs_met<L: Leaf>(
    alloc: Global,
    leaf: &L,
    least: i128,
    terms: &[(u32, i64)],
    met: L,
) -> Result<L, NoMemory>
    requires same { (L.value met).variables ≡ (L.value leaf.now).variables }
    requires least { IsSumSize least }
    requires terms { AreTerms 0 (L.value leaf.now).variables terms.now }
    ensures value { IfOk result
        (λ kept. L.value kept ≡ all_pairs_met L.meaning (L.value leaf.now) least terms.now (L.value met)) }
    ensures same { IfOk result (λ kept. (L.value kept).variables ≡ (L.value leaf.now).variables) }
{
    let mut kept = met;
    let mut rest = terms;
    'terms: while let Some((x, factor, behind)) = first_term(rest) {
        kept = pairs_met(alloc, leaf, least, (x, factor), behind, kept)?;
        rest = behind;
    }
    Ok(kept)
}

/// The leaf met with what is left for one term.
fn term_met<L: Leaf>(
    alloc: Global,
    leaf: &L,
    least: i128,
    x: u32,
    factor: i64,
    met: L,
) -> Result<L, NoMemory>
    requires same { (L.value met).variables ≡ (L.value leaf.now).variables }
    requires least { IsSumSize least }
    requires x { x < (L.value leaf.now).variables }
    requires factor { IsFormNumber factor }
    requires other { factor ≢ pos 0 }
    ensures value { IfOk result
        (λ kept. L.value kept ≡ term_met L.meaning (L.value leaf.now) least (x, factor) (L.value met)) }
    ensures same { IfOk result (λ kept. (L.value kept).variables ≡ (L.value leaf.now).variables) }
{
    let left = left_for_one(least, least_term(leaf, x, factor));
    limited_at(alloc, met, x, multiples_below(factor, left))
}

/// The leaf met with what is left for each of the terms.
fn terms_met<L: Leaf>(
    alloc: Global,
    leaf: &L,
    least: i128,
    terms: &[(u32, i64)],
    met: L,
) -> Result<L, NoMemory>
    requires same { (L.value met).variables ≡ (L.value leaf.now).variables }
    requires least { IsSumSize least }
    requires terms { AreTerms 0 (L.value leaf.now).variables terms.now }
    ensures value { IfOk result
        (λ kept. L.value kept ≡ terms_met L.meaning (L.value leaf.now) least terms.now (L.value met)) }
    ensures same { IfOk result (λ kept. (L.value kept).variables ≡ (L.value leaf.now).variables) }
{
    let mut kept = met;
    let mut rest = terms;
    'terms: while let Some((x, factor, behind)) = first_term(rest) {
        kept = term_met(alloc, leaf, least, x, factor, kept)?;
        rest = behind;
    }
    Ok(kept)
}

/// The leaf met with what a form plus a number being at most 0 says of each two of its terms with 1 or -1, and of each term, where the
/// others have their least values. Of n terms, m of them with 1 or -1, these are at most m(m-1)/2 + n meets, each only where it is tighter
/// than what the leaf knows.
pub(crate) fn side_met<L: Leaf>(alloc: Global, leaf: &L, f: &Form, more: i64) -> Result<L, NoMemory>
    requires form { IsForm (L.value leaf.now).variables f.now }
    requires more { IsFormNumber more }
    ensures value { IfOk result
        (λ met. L.value met ≡ side_met L.meaning (L.value leaf.now) f.now more) }
    ensures same { IfOk result (λ met. (L.value met).variables ≡ (L.value leaf.now).variables) }
{
    let least = least_value(leaf, f, more);
    let terms = f.terms.items();
    let met = all_pairs_met(alloc, leaf, least, terms, leaf.copy(alloc)?)?;
    terms_met(alloc, leaf, least, terms, met)
}

//! The least values of forms by the ranges of a leaf, and what a multiple leaves of a variable.
#![tactic(auto)]

ghost use Rattle.std.specs.Prelude.{◌≡◌, ◌≢◌, ◌<◌, ◌^◌, pos, neg_ℤ, ◌-ℤ◌, ◌≤ℤ◌};
ghost use Rattle.std.specs.Int.{int_min, int_max};
ghost use Rattle.c_tree.specs.Value.{least, greatest};
ghost use Rattle.leaf_domain.specs.Ranges.{IsInInt, range_of_ends};
ghost use Rattle.leaf_domain.specs.Forms.{IsForm, IsFormNumber};
ghost use Rattle.linearised_leaf.specs.LeastValues.{least_multiple, least_term, least_value, multiples_below};
ghost use Rattle.linearised_leaf.specs.Sizes.{IsTermSize, IsSumSize};

use leaf_domain::{Form, Leaf, Range, leaf_is_valid};
use linear_terms::{first_term, product};

/// The least multiple of a number of a range.
fn least_multiple(factor: i64, range: Range) -> i128
    requires factor { IsFormNumber factor }
    requires range { IsInInt range }
    ensures value { result ≡ least_multiple factor range }
    ensures size { IsTermSize result }
{
    if factor < 0 {
        product(factor, range.high)
    } else {
        product(factor, range.low)
    }
}

/// The least value of a term, by the leaf's range of its variable.
pub(crate) fn least_term<L: Leaf>(leaf: &L, x: u32, factor: i64) -> i128
    requires x { x < (L.value leaf.now).variables }
    requires factor { IsFormNumber factor }
    ensures value { result ≡ least_term L.meaning (L.value leaf.now) (x, factor) }
    ensures size { IsTermSize result }
{
    leaf_is_valid(leaf);
    least_multiple(factor, leaf.bounds_of(x))
}

/// The least value of a form plus a number, where each variable lies in its range.
pub(crate) fn least_value<L: Leaf>(leaf: &L, f: &Form, more: i64) -> i128
    requires form { IsForm (L.value leaf.now).variables f.now }
    requires more { IsFormNumber more }
    ensures value { result ≡ least_value L.meaning (L.value leaf.now) f.now more }
    ensures size { IsSumSize result }
{
    leaf_is_valid(leaf);
    let mut sum = f.constant as i128 + more as i128;
    let mut rest = f.terms.items();
    'terms: while let Some((x, factor, behind)) = first_term(rest) {
        sum += least_term(leaf, x, factor);
        rest = behind;
    }
    sum
}

/// What the least values of a form and of one of its terms leave for that term: its least value less the form's.
pub(crate) fn left_for_one(least: i128, term: i128) -> i128
    requires least { IsSumSize least }
    requires term { IsTermSize term }
    ensures value { result ≡ term -ℤ least }
    ensures size { neg_ℤ (pos (2 ^ 100)) ≤ℤ result }
{
    term - least
}

/// The least value of a form less that of one of its terms.
pub(crate) fn left_for_rest(least: i128, term: i128) -> i128
    requires least { IsSumSize least }
    requires term { IsTermSize term }
    ensures { result ≡ least -ℤ term }
{
    least - term
}

/// The least value of a form less those of two of its terms.
pub(crate) fn left_for_two(least: i128, first: i128, second: i128) -> i128
    requires least { IsSumSize least }
    requires first { IsTermSize first }
    requires second { IsTermSize second }
    ensures { result ≡ (least -ℤ first) -ℤ second }
{
    let left = least - first;
    left - second
}

/// The numbers of `int` up to a number.
fn up_to(high: i128) -> Range
    ensures { result ≡ range_of_ends least (int_min high greatest) }
{
    if high < Range::INT.low as i128 {
        return Range::EMPTY;
    }
    Range {
        low: Range::INT.low,
        high: high.min(Range::INT.high as i128) as i64,
    }
}

/// The numbers of `int` from a number on.
fn from(low: i128) -> Range
    ensures { result ≡ range_of_ends (int_max least low) greatest }
{
    if (Range::INT.high as i128) < low {
        return Range::EMPTY;
    }
    Range {
        low: low.max(Range::INT.low as i128) as i64,
        high: Range::INT.high,
    }
}

/// The numbers of `int` whose multiple by the factor is at most a number.
pub(crate) fn multiples_below(factor: i64, n: i128) -> Range
    requires factor { factor ≢ pos 0 }
    requires size { neg_ℤ (pos (2 ^ 100)) ≤ℤ n }
    ensures value { result ≡ multiples_below factor n }
    ensures int { IsInInt result }
{
    let quotient = n.div_euclid(factor as i128);
    if factor < 0 {
        from(quotient)
    } else {
        up_to(quotient)
    }
}

//! Ranges of whole numbers.
#![tactic(auto)]

ghost use Rattle.std.specs.Prelude.{◌≡◌, ◌≢◌, ◌&&◌, pos, negsuc, ◌≤ℤ◌, IsTrue, ◌*ℤ◌};
ghost use Rattle.leaf_domain.specs.Ranges.{meet_of, clip_of, fold_of, shifted_of, upward_of, is_empty_range, hull_of, cover_of, between_of, range_of_ends, spread_of, quotients_of, remainders_of, greatest_size_of, least_divisor_of, is_zero_range, is_single, remainder_of_singles, is_smaller_of, low_left_of, high_left_of, bounded_remainders, ArithmeticHolds, FoldHolds, sums_of, differences_of, products_of, all_quotients_of, arithmetic_range, is_arithmetic, IsInInt, HasOneSign};
ghost use Rattle.leaf_domain.specs.declared.range.Range as range;
ghost use Rattle.c_tree.specs.Value.{IsInt, wrapped};

use c_tree::Op;

const LOW: i64 = -2147483648;

const HIGH: i64 = 2147483647;

/// Whole numbers from `low` to `high`. The empty range is 1 to 0.
#[derive(Clone, Copy, Debug, PartialEq, Eq, Hash)]
pub struct Range {
    pub low: i64,
    pub high: i64,
}

impl Range {
    pub const EMPTY: Range = Range { low: 1, high: 0 };

    pub const INT: Range = Range {
        low: LOW,
        high: HIGH,
    };

    /// The range from `low` to `high`.
    pub fn new(low: i64, high: i64) -> Range
        ensures { result ≡ range_of_ends low high }
    {
        if high < low {
            Range::EMPTY
        } else {
            Range { low, high }
        }
    }

    pub fn is_empty(self) -> bool
        ensures { result ≡ is_empty_range self }
    {
        self.high < self.low
    }

    /// What lies in both.
    pub fn meet(self, other: Range) -> Range
        ensures { result ≡ meet_of self other }
    {
        Range::new(self.low.max(other.low), self.high.min(other.high))
    }

    /// What is within `int`.
    pub fn clip(self) -> Range
        ensures { result ≡ clip_of self }
    {
        self.meet(Range::INT)
    }

    /// The range of the wrapped numbers: it is shifted by the multiple of 2^32 that brings it within
    /// `int`, where there is one, and else is all of `int`. The empty range stays.
    pub fn fold(self) -> Range
        ensures { result ≡ fold_of self }
    {
        if self.is_empty() {
            Range::EMPTY
        } else {
            shifted(self.low, self.high)
        }
    }

    /// From the lesser low to the greater high.
    pub fn cover(self, other: Range) -> Range
        ensures { result ≡ cover_of self other }
    {
        Range {
            low: self.low.min(other.low),
            high: self.high.max(other.high),
        }
    }

    /// The least range that has both.
    pub fn hull(self, other: Range) -> Range
        ensures { result ≡ hull_of self other }
    {
        if self.is_empty() {
            other
        } else if other.is_empty() {
            self
        } else {
            self.cover(other)
        }
    }
}

/// The number of `int` that differs by a multiple of 2^32.
fn wrap(n: i64) -> i64
    ensures value { result ≡ wrapped n }
    ensures int { IsInt result }
{
    let rest = n.rem_euclid(4294967296);
    if rest <= 2147483647 {
        rest
    } else {
        rest - 4294967296
    }
}

/// The range from `low` so much upward, where that is within `int`.
fn upward(low: i64, width: i64) -> Range
    requires low { IsInt low }
    requires width { pos 0 ≤ℤ width }
    ensures { result ≡ upward_of low width }
{
    if width <= 2147483647 - low {
        Range {
            low,
            high: low + width,
        }
    } else {
        Range::INT
    }
}

/// The range from `low` to `high` brought within `int`.
fn shifted(low: i64, high: i64) -> Range
    requires { low ≤ℤ high }
    ensures { result ≡ shifted_of low high }
{
    match high.checked_sub(low) {
        Some(width) => upward(wrap(low), width),
        None => Range::INT,
    }
}

/// From the lesser to the greater.
fn between(p: i64, q: i64) -> Range
    ensures { result ≡ between_of p q }
{
    Range {
        low: p.min(q),
        high: p.max(q),
    }
}

/// From the least to the greatest of four numbers.
fn spread(p: i64, q: i64, r: i64, s: i64) -> Range
    ensures { result ≡ spread_of p q r s }
{
    between(p, q).cover(between(r, s))
}

/// The quotients by the divisors from `low` to `high`, which have one sign.
fn quotients(a: Range, low: i64, high: i64) -> Range
    requires int { IsInInt a }
    requires sign { HasOneSign low high }
    ensures { result ≡ quotients_of a low high }
{
    if high < low {
        Range::EMPTY
    } else {
        spread(a.low / low, a.low / high, a.high / low, a.high / high)
    }
}

/// Only 0.
fn is_zero(b: Range) -> bool
    ensures { result ≡ is_zero_range b }
{
    b.low == 0 && b.high == 0
}

/// One number and no other, each.
fn are_singles(a: Range, b: Range) -> bool
    ensures { result ≡ (is_single a && is_single b) }
{
    a.low == a.high && b.low == b.high
}

/// The remainder of two numbers, where it has one.
fn remainder(n: i64, m: i64) -> Range
    requires nonzero { m ≢ pos 0 }
    requires n { IsInt n }
    requires m { IsInt m }
    ensures { result ≡ remainder_of_singles n m }
{
    if n == LOW && m == -1 {
        Range::EMPTY
    } else {
        let left = n % m;
        Range {
            low: left,
            high: left,
        }
    }
}

/// The greatest size of a number of the range.
fn greatest_size(a: Range) -> i64
    requires { IsInInt a }
    ensures value { result ≡ greatest_size_of a }
    ensures bound { result ≤ℤ pos 2147483648 }
{
    a.low.abs().max(a.high.abs())
}

/// The least size of a divisor, 0 left out.
fn least_divisor(b: Range) -> i64
    requires { IsInInt b }
    ensures { result ≡ least_divisor_of b }
{
    if 0 < b.low {
        b.low
    } else if b.high < 0 {
        -b.high
    } else {
        1
    }
}

fn is_smaller_than_divisors(a: Range, b: Range) -> bool
    requires a { IsInInt a }
    requires b { IsInInt b }
    ensures { result ≡ is_smaller_of a b }
{
    greatest_size(a) < least_divisor(b)
}

fn low_left(low: i64, most: i64) -> i64
    requires { (negsuc 0 ≤ℤ most) × (most ≤ℤ pos 2147483648) }
    ensures { result ≡ low_left_of low most }
{
    if 0 <= low { 0 } else { low.max(-most) }
}

fn high_left(high: i64, most: i64) -> i64
    ensures { result ≡ high_left_of high most }
{
    if high <= 0 { 0 } else { high.min(most) }
}

fn bounded(a: Range, b: Range) -> Range
    requires { IsInInt b }
    ensures { result ≡ bounded_remainders a b }
{
    let most = greatest_size(b) - 1;
    Range {
        low: low_left(a.low, most),
        high: high_left(a.high, most),
    }
}

/// What may be left of a division.
fn remainders(a: Range, b: Range) -> Range
    requires a_int { IsInInt a }
    requires b_int { IsInInt b }
    requires some { b.low ≤ℤ b.high }
    ensures { result ≡ remainders_of a b }
{
    if is_zero(b) {
        Range::EMPTY
    } else if are_singles(a, b) {
        remainder(a.low, b.low)
    } else if is_smaller_than_divisors(a, b) {
        a
    } else {
        bounded(a, b)
    }
}

fn sums(a: Range, b: Range) -> Range
    requires a { IsInInt a }
    requires b { IsInInt b }
    ensures { result ≡ sums_of a b }
{
    Range {
        low: a.low + b.low,
        high: a.high + b.high,
    }
}

fn differences(a: Range, b: Range) -> Range
    requires a { IsInInt a }
    requires b { IsInInt b }
    ensures { result ≡ differences_of a b }
{
    Range {
        low: a.low - b.high,
        high: a.high - b.low,
    }
}

fn product(n: i64, m: i64) -> i64
    requires n { IsInt n }
    requires m { IsInt m }
    ensures { result ≡ n *ℤ m }
{
    n * m
}

fn products(a: Range, b: Range) -> Range
    requires a { IsInInt a }
    requires b { IsInInt b }
    ensures { result ≡ products_of a b }
{
    spread(
        product(a.low, b.low),
        product(a.low, b.high),
        product(a.high, b.low),
        product(a.high, b.high),
    )
}

fn all_quotients(a: Range, b: Range) -> Range
    requires a { IsInInt a }
    requires b { IsInInt b }
    ensures { result ≡ all_quotients_of a b }
{
    quotients(a, b.low.max(1), b.high).hull(quotients(a, b.low, b.high.min(-1)))
}

/// `a op b` for ranges, before clipping.
pub fn arithmetic(op: Op, a: Range, b: Range) -> Range
    requires op { IsTrue (is_arithmetic op) }
    requires a { IsInInt a }
    requires b { IsInInt b }
    ensures { result ≡ arithmetic_range op a b }
{
    if a.is_empty() || b.is_empty() {
        return Range::EMPTY;
    }
    match op {
        Op::Add => sums(a, b),
        Op::Sub => differences(a, b),
        Op::Mul => products(a, b),
        Op::Div => all_quotients(a, b),
        Op::Rem => remainders(a, b),
        _ => Range::EMPTY,
    }
}

/// The law of `arithmetic`: each result of two numbers is in the range of their ranges.
pub fn arithmetic_is_sound()
    ensures { ArithmeticHolds }
{}

/// The law of `fold`: the folded range is the range shifted by the multiple of 2^32 that brings it
/// within `int`, or all of `int` where no multiple does, and it has each wrapped number of the range.
pub fn fold_is_sound()
    ensures { (a : range.Range) → FoldHolds a }
{}

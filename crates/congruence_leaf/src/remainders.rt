//! The remainders of the numbers of a stride.
#![tactic(auto)]

ghost use Rattle.std.specs.Prelude.{◌≡◌, ◌≢◌, ◌≤◌, ◌-ℤ◌, pos, int_div, int_rem, unsigned_abs, FitsSigned};
ghost use Rattle.c_tree.specs.Value.{IsInt};
ghost use Rattle.std.specs.Int.{w64};
ghost use Rattle.std.specs.Ordering.{int_eq};
ghost use Rattle.leaf_domain.specs.Ranges.{IsInInt, range_at};
ghost use Rattle.strides.specs.Strides.{stride_of};
ghost use Rattle.strides.specs.Strided.{strided_in, range_of, best_part, IsOwn};
ghost use Rattle.congruence_leaf.specs.Remainders.{stride_less, stride_modulo, strided_less, strided_remainders, leaves_neighbours, cut_stride, strided_cut};

use c_tree::Op;
use leaf_domain::{Compare, Range, arithmetic, cut};
use linear_terms::greatest_common_divisor;
use product_leaf::parts::best_part;
use strides::{Stride, Strided, WideStride};

/// The numbers of the range that have the stride.
pub(crate) fn strided_in(range: Range, stride: Stride) -> Strided
    ensures { result ≡ strided_in range stride }
{
    Strided {
        low: range.low,
        high: range.high,
        stride,
    }
}

/// The stride of the numbers of a stride with so much taken from each.
pub(crate) fn stride_less(stride: Stride, k: i64) -> Stride
    requires modulus { stride.modulus ≤ 4294967295 }
    requires residue { unsigned_abs stride.residue ≤ 4294967296 }
    requires k { unsigned_abs k ≤ 1099511627776 }
    ensures { result ≡ stride_less k stride }
{
    let residue = stride.residue as i128 - k as i128;
    WideStride::of(stride.modulus as u128, residue).narrow()
}

/// The stride of all numbers that differ from one of the stride by a multiple of `m`.
pub(crate) fn stride_modulo(stride: Stride, m: i64) -> Stride
    requires int { IsInt m }
    requires some { m ≢ pos 0 }
    ensures value { result ≡ stride_modulo m stride }
    ensures modulus { result.modulus ≤ 4294967295 }
    ensures residue { unsigned_abs result.residue ≤ 4294967296 }
{
    let modulus = greatest_common_divisor(stride.modulus as u128, m.unsigned_abs() as u128);
    WideStride::of(modulus, stride.residue as i128).narrow()
}

/// The quotient, rounded toward 0.
fn quotient(n: i64, m: i64) -> i64
    requires n { IsInt n }
    requires m { IsInt m }
    requires some { m ≢ pos 0 }
    ensures value { result ≡ int_div n m }
    ensures fits { FitsSigned w64 result }
{
    n / m
}

/// Whether two numbers are the same.
fn is_same(a: i64, b: i64) -> bool
    ensures { result ≡ int_eq a b }
{
    a == b
}

/// Whether the quotients of all numbers by `m` are the same.
fn has_one_quotient(d: Strided, m: i64) -> bool
    requires own { IsOwn d }
    requires int { IsInt m }
    requires some { m ≢ pos 0 }
    ensures { result ≡ int_eq (int_div d.low m) (int_div d.high m) }
{
    let low = quotient(d.low, m);
    let high = quotient(d.high, m);
    is_same(low, high)
}

/// The multiple of `m` by which the low is greater than its remainder.
fn low_multiple(d: Strided, m: i64) -> i64
    requires own { IsOwn d }
    requires int { IsInt m }
    requires some { m ≢ pos 0 }
    ensures value { result ≡ d.low -ℤ int_rem d.low m }
    ensures size { unsigned_abs result ≤ 4294967296 }
{
    d.low - d.low % m
}

/// The numbers with so much taken from each.
fn less(d: Strided, k: i64) -> Strided
    requires own { IsOwn d }
    requires k { unsigned_abs k ≤ 4294967296 }
    ensures { result ≡ strided_less k d }
{
    Strided {
        low: d.low - k,
        high: d.high - k,
        stride: stride_less(d.stride, k),
    }
}

/// One number alone.
pub(crate) fn only(m: i64) -> Range
    ensures { result ≡ range_at m m }
{
    Range { low: m, high: m }
}

/// The remainders of the numbers by `m`. Where all have one quotient, they are the numbers less the same multiple of `m`. Else
/// they lie in the range that those of the interval have, and differ from numbers of the stride by multiples of `m`.
pub(crate) fn remainders(d: Strided, m: i64) -> Strided
    requires own { IsOwn d }
    requires int { IsInt m }
    requires some { m ≢ pos 0 }
    ensures { result ≡ strided_remainders d m }
{
    if has_one_quotient(d, m) {
        less(d, low_multiple(d, m))
    } else {
        let range = arithmetic(Op::Rem, d.range(), only(m));
        strided_in(range, stride_modulo(d.stride, m))
    }
}

/// Whether a number is left out, and there are only its two neighbours beside it.
fn leaves_neighbours(op: Compare, a: Range, r: Range) -> bool
    requires a { IsInInt a }
    ensures { result ≡ leaves_neighbours op a r }
{
    match op {
        Compare::Ne => r.low == r.high && (a.low + 1 == r.low && a.high - 1 == r.low),
        _ => false,
    }
}

/// The stride of a number's two neighbours, of which this is the lesser.
fn neighbours(low: i64) -> Stride
    ensures { result ≡ stride_of 2 low }
{
    Stride {
        modulus: 2,
        residue: low.rem_euclid(2),
    }
}

/// The stride of what is left where the comparison with some number of the range holds.
fn cut_stride(op: Compare, b: Strided, r: Range) -> Stride
    requires { IsInInt (range_of b) }
    ensures { result ≡ cut_stride op b r }
{
    if leaves_neighbours(op, b.range(), r) {
        neighbours(b.low)
    } else {
        b.stride
    }
}

/// The numbers for which the comparison with some number of the range holds, by their best bounds; none where there is none. The
/// neighbours of one number that is left out have stride 2.
pub(crate) fn cut_numbers(op: Compare, b: Strided, r: Range) -> Option<Strided>
    requires b { IsInInt (range_of b) }
    requires r { IsInInt r }
    ensures { result ≡ best_part (strided_cut op b r) }
{
    best_part(strided_in(cut(op, b.range(), r), cut_stride(op, b, r)))
}

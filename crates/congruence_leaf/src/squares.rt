//! The squares of the numbers of a stride.
#![tactic(auto)]

ghost use Rattle.std.specs.Prelude.{◌≡◌, ◌≤◌, pos, ◌*ℤ◌, ◌≤ℤ◌};
ghost use Rattle.c_tree.specs.Value.{IsInt};
ghost use Rattle.leaf_domain.specs.Ranges.{IsInInt};
ghost use Rattle.strides.specs.Strided.{IsOwn};
ghost use Rattle.congruence_leaf.specs.Squares.{least_square, squares_range, square_stride, strided_squares};

use crate::remainders::strided_in;
use leaf_domain::Range;
use linear_terms::greatest_common_divisor;
use strides::{Stride, Strided, WideStride};

/// The square of a number of `int`, which may pass `int`.
fn square(n: i64) -> i64
    requires { IsInt n }
    ensures value { result ≡ n *ℤ n }
    ensures low { pos 0 ≤ℤ result }
    ensures high { result ≤ℤ pos 4611686018427387904 }
{
    n * n
}

/// The least square of the numbers from a low to a high.
fn least_square(low: i64, high: i64) -> i64
    requires low { IsInt low }
    requires high { IsInt high }
    ensures value { result ≡ least_square low high }
    ensures low { pos 0 ≤ℤ result }
    ensures high { result ≤ℤ pos 4611686018427387904 }
{
    if low <= 0 && 0 <= high {
        0
    } else {
        square(low).min(square(high))
    }
}

/// From the least square of a range to the greatest.
fn squares_range(range: Range) -> Range
    requires { IsInInt range }
    ensures { result ≡ squares_range range }
{
    Range {
        low: least_square(range.low, range.high),
        high: square(range.low).max(square(range.high)),
    }
}

/// The stride of the squares of all numbers that differ from one by multiples of a modulus.
fn square_stride(number: i64, modulus: u64) -> Stride
    requires number { IsInt number }
    requires modulus { modulus ≤ 4294967295 }
    ensures { result ≡ square_stride number modulus }
{
    let modulus = modulus as u128;
    let twice = 2 * (number.unsigned_abs() as u128 * modulus);
    let stride = WideStride::of(
        greatest_common_divisor(twice, modulus * modulus),
        square(number) as i128,
    );
    Stride {
        modulus: stride.modulus as u64,
        residue: stride.residue as i64,
    }
}

/// The squares of numbers of which the low is one.
pub(crate) fn squares(d: Strided) -> Strided
    requires { IsOwn d }
    ensures { result ≡ strided_squares d }
{
    strided_in(
        squares_range(d.range()),
        square_stride(d.low, d.stride.modulus),
    )
}

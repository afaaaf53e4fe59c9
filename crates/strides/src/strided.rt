//! The numbers from a low to a high that have a stride.
#![tactic(auto)]

ghost use Rattle.std.specs.Prelude.{◌≡◌, ◌≤ℤ◌};
ghost use Rattle.strides.specs.Strides.{stride_at, IsReduced, IsWide};
ghost use Rattle.strides.specs.Strided.{least, greatest, strided_at, is_bare, reduced, best_part, point_at, IsOwn, joined, lies_in, range_of, widened, narrowed};

use crate::stride::{Stride, WideStride};
use leaf_domain::{Range, Thresholds};

/// The numbers from a low to a high that have a stride.
#[derive(Clone, Copy, Debug, PartialEq, Eq, Hash)]
pub struct Strided {
    pub low: i64,
    pub high: i64,
    pub stride: Stride,
}

/// The same number in 64 bits.
fn narrow(n: i128) -> i64
    requires low { least ≤ℤ n }
    requires high { n ≤ℤ greatest }
    ensures { result ≡ n }
{
    n as i64
}

impl Strided {
    /// One number alone.
    pub fn point(n: i64) -> Strided
        ensures { result ≡ point_at n }
    {
        Strided {
            low: n,
            high: n,
            stride: Stride {
                modulus: 0,
                residue: n,
            },
        }
    }

    /// The numbers from a low to a high that have a stride, by their best bounds: the first as the low, the
    /// last as the high, and modulus 0 where they are the same. None where there is no number.
    pub fn best(low: i64, high: i64, stride: WideStride) -> Option<Strided>
        requires low { least ≤ℤ low }
        requires high { high ≤ℤ greatest }
        requires wide { IsWide (stride_at stride.modulus stride.residue) }
        requires residue { IsReduced (stride_at stride.modulus stride.residue) }
        ensures { result ≡ best_part (strided_at low high (stride_at stride.modulus stride.residue)) }
    {
        let first = stride.first_from(low);
        let last = stride.last_to(high);
        if last < first {
            return None;
        }
        if first == last {
            return Some(Strided::point(narrow(first)));
        }
        Some(Strided {
            low: narrow(first),
            high: narrow(last),
            stride: stride.narrow(),
        })
    }

    /// Whether there is no number.
    pub fn is_bare(self) -> bool
        ensures { result ≡ is_bare self }
    {
        let stride = self.stride.wide();
        let first = stride.first_from(self.low);
        stride.last_to(self.high) < first
    }

    /// The same numbers by their best bounds. Where there is no number, it stays as it is.
    pub fn reduced(self) -> Strided
        ensures { result ≡ reduced self }
    {
        let stride = self.stride.wide();
        let first = stride.first_from(self.low);
        let last = stride.last_to(self.high);
        if last < first {
            return self;
        }
        if first == last {
            return Strided::point(first as i64);
        }
        Strided {
            low: first as i64,
            high: last as i64,
            stride: self.stride,
        }
    }

    /// Whether each of the low, the high and the stride lies in that of the other.
    pub fn lies_in(self, other: Strided) -> bool
        ensures { result ≡ lies_in self other }
    {
        other.low <= self.low && self.high <= other.high && self.stride.lies_in(other.stride)
    }

    /// The lesser low, the greater high, and the stride that has the numbers of both.
    pub fn joined(self, other: Strided) -> Strided
        requires first { IsOwn self }
        requires second { IsOwn other }
        ensures { result ≡ joined self other }
    {
        Strided {
            low: self.low.min(other.low),
            high: self.high.max(other.high),
            stride: self.stride.joined(other.stride),
        }
    }

    /// The range from the low to the high.
    pub fn range(self) -> Range
        ensures { result ≡ range_of self }
    {
        Range {
            low: self.low,
            high: self.high,
        }
    }

    /// Each bound that the other moves put as the nearest threshold that covers the other's, or as that of `int`, and the
    /// stride that has the numbers of both.
    pub fn widened(self, other: Strided, thresholds: &Thresholds) -> Strided
        requires first { IsOwn self }
        requires second { IsOwn other }
        ensures { result ≡ widened thresholds.now self other }
    {
        let ends = self.range().widened(other.range(), thresholds);
        Strided {
            low: ends.low,
            high: ends.high,
            stride: self.stride.joined(other.stride),
        }
    }

    /// Each bound that is that of `int` or of a threshold, and a stride of all numbers, put as the other's.
    pub fn narrowed(self, other: Strided, thresholds: &Thresholds) -> Strided
        requires { IsOwn self }
        ensures { result ≡ narrowed thresholds.now self other }
    {
        let ends = self.range().narrowed(other.range(), thresholds);
        Strided {
            low: ends.low,
            high: ends.high,
            stride: if self.stride.modulus == 1 {
                other.stride
            } else {
                self.stride
            },
        }
    }
}

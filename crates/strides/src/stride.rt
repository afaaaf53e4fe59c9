//! A residue, and the numbers that differ from it by multiples of a modulus.
#![tactic(auto)]

ghost use Rattle.std.specs.Prelude.{◌≡◌, ◌≤◌, ◌^◌, pos, negsuc, ◌≤ℤ◌, unsigned_abs};
ghost use Rattle.strides.specs.Divisors.{divides};
ghost use Rattle.strides.specs.Strides.{stride_at, stride_of, first_from, last_to, joined_stride, lies_in_stride, IsWide};

use linear_terms::greatest_common_divisor;

/// The numbers that differ from the residue by multiples of the modulus. Where that is 0, it is the
/// residue alone; else the residue is from 0 to the modulus minus 1, and modulus 1 means all numbers.
#[derive(Clone, Copy, Debug, PartialEq, Eq, Hash)]
pub struct Stride {
    pub modulus: u64,
    pub residue: i64,
}

/// A stride whose numbers need 128 bits, as those of sums of products.
#[derive(Clone, Copy, Debug, PartialEq, Eq)]
pub struct WideStride {
    pub modulus: u128,
    pub residue: i128,
}

/// Whether `n` divides `k`; 0 divides 0 alone.
#[tactic(auto, unfolding(crate::specs::Divisors::divides))]
fn divides(n: u128, k: u128) -> bool
    ensures { result ≡ divides n k }
{
    if n == 0 { k == 0 } else { k % n == 0 }
}

impl Stride {
    /// All whole numbers.
    pub const ALL: Stride = Stride {
        modulus: 1,
        residue: 0,
    };

    /// The same in 128 bits.
    pub fn wide(self) -> WideStride
        ensures { stride_at result.modulus result.residue ≡ self }
    {
        WideStride {
            modulus: self.modulus as u128,
            residue: self.residue as i128,
        }
    }

    /// Whether each number of this stride is one of the other.
    pub fn lies_in(self, other: Stride) -> bool
        ensures { result ≡ lies_in_stride self other }
    {
        let distance = (self.residue as i128 - other.residue as i128).unsigned_abs();
        let modulus = other.modulus as u128;
        divides(modulus, self.modulus as u128) && divides(modulus, distance)
    }

    /// The stride of the greatest modulus that has the numbers of both, where that modulus has 32 bits.
    pub fn joined(self, other: Stride) -> Stride
        requires { (joined_stride self other).modulus ≤ 4294967295 }
        ensures { result ≡ joined_stride self other }
    {
        let distance = (self.residue as i128 - other.residue as i128).unsigned_abs();
        let of_both = greatest_common_divisor(self.modulus as u128, other.modulus as u128);
        let modulus = greatest_common_divisor(of_both, distance);
        WideStride::of(modulus, self.residue as i128).narrow()
    }
}

impl WideStride {
    /// The stride of this modulus that has the number.
    pub fn of(modulus: u128, number: i128) -> WideStride
        requires { modulus ≤ 2 ^ 100 }
        ensures { stride_at result.modulus result.residue ≡ stride_of modulus number }
    {
        let residue = if modulus == 0 {
            number
        } else {
            number.rem_euclid(modulus as i128)
        };
        WideStride { modulus, residue }
    }

    /// The same in 64 bits.
    pub fn narrow(self) -> Stride
        requires modulus { self.modulus ≤ 4294967295 }
        requires low { negsuc 9223372036854775807 ≤ℤ self.residue }
        requires high { self.residue ≤ℤ pos 9223372036854775807 }
        ensures { result ≡ stride_at self.modulus self.residue }
    {
        Stride {
            modulus: self.modulus as u64,
            residue: self.residue as i64,
        }
    }

    /// The first number from the low on that has the stride. With modulus 0 it is the greater of the low
    /// and the residue.
    pub fn first_from(self, low: i64) -> i128
        requires { IsWide (stride_at self.modulus self.residue) }
        ensures { result ≡ first_from low (stride_at self.modulus self.residue) }
    {
        let low = low as i128;
        if self.modulus == 0 {
            low.max(self.residue)
        } else {
            low + (self.residue - low).rem_euclid(self.modulus as i128)
        }
    }

    /// The last number up to the high that has the stride. With modulus 0 it is the lesser of the high and
    /// the residue.
    pub fn last_to(self, high: i64) -> i128
        requires { IsWide (stride_at self.modulus self.residue) }
        ensures { result ≡ last_to high (stride_at self.modulus self.residue) }
    {
        let high = high as i128;
        if self.modulus == 0 {
            high.min(self.residue)
        } else {
            high - (high - self.residue).rem_euclid(self.modulus as i128)
        }
    }
}

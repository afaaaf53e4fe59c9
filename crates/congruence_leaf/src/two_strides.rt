//! Numbers that have two strides: they have one stride of their own, of the least common multiple of both moduli (the Chinese remainder
//! theorem).
#![tactic(auto)]

ghost use Rattle.std.specs.Prelude.{◌≡◌, ◌≤◌, ◌<◌, ◌*◌, ◌^◌, ◌+ℤ◌, ◌-ℤ◌, ◌≤ℤ◌, ℤ, pos, neg_ℤ, IfSome};
ghost use Rattle.strides.specs.Divisors.{IsMultiple};
ghost use Rattle.strides.specs.Strided.{best_part, IsOwn};
ghost use Rattle.congruence_leaf.specs.TwoStrides.{common_multiple, is_of, common_number, stride_through, part_by, strided_met, HasFewBits, IsSolution};

use linear_terms::greatest_common_divisor;
use product_leaf::parts::best_part;
use strides::{Stride, Strided, WideStride};

/// A number below `m` that times `a` leaves what `b` leaves when it is divided by `m`, if there is any (Euclid's algorithm: `a * x - b` is a
/// multiple `m * y` where `m * y + b` is a multiple of `a`).
fn solution(a: u64, b: u64, m: u64) -> u64
    requires a { a ≤ 4294967295 }
    requires b { b < m }
    requires m { m ≤ 4294967295 }
    ensures below { result < m }
    ensures value { (x : ℤ) → IsSolution a b m x → IsSolution a b m (pos result) }
{
    if a == 0 {
        return 0;
    }
    let times = solution(m % a, (a - b % a) % a, a);
    (m * times + b) / a
}

/// What the difference of the residues leaves when it is divided by the modulus of the second.
fn apart(s: Stride, t: Stride) -> u64
    requires first { HasFewBits s }
    requires second { HasFewBits t }
    requires some { 0 < t.modulus }
    ensures below { result < t.modulus }
    ensures value { IsMultiple t.modulus ((t.residue -ℤ s.residue) -ℤ pos result) }
{
    let difference = t.residue as i128 - s.residue as i128;
    difference.rem_euclid(t.modulus as i128) as u64
}

/// Whether a number has the stride.
fn is_of(s: Stride, n: i128) -> bool
    requires some { 0 < s.modulus }
    requires low { neg_ℤ (pos (2 ^ 80)) ≤ℤ n }
    requires high { n ≤ℤ pos (2 ^ 80) }
    ensures { result ≡ is_of s n }
{
    let distance = (n - s.residue as i128).unsigned_abs();
    distance % s.modulus as u128 == 0
}

/// The number that is so many steps from the residue.
fn stepped(s: Stride, times: u64) -> i128
    requires small { HasFewBits s }
    requires times { times ≤ 4294967295 }
    ensures { result ≡ s.residue +ℤ pos (times * s.modulus) }
{
    s.residue as i128 + (times * s.modulus) as i128
}

/// A number that has both strides, if there is any. All such numbers have the same stride of the least common multiple of both moduli.
fn common_number(s: Stride, t: Stride) -> Option<i128>
    requires first { HasFewBits s }
    requires second { HasFewBits t }
    requires some { 0 < t.modulus }
    ensures value { stride_through s t result ≡ stride_through s t (common_number s t) }
    ensures low { IfSome result (λ n. neg_ℤ (pos (2 ^ 80)) ≤ℤ n) }
    ensures high { IfSome result (λ n. n ≤ℤ pos (2 ^ 80)) }
{
    let n = stepped(s, solution(s.modulus, apart(s, t), t.modulus));
    if is_of(t, n) { Some(n) } else { None }
}

/// The least common multiple.
fn common_multiple(m: u64, n: u64) -> u64
    requires m { m ≤ 4294967295 }
    requires n { n ≤ 4294967295 }
    requires some { 0 < n }
    ensures { result ≡ common_multiple m n }
{
    let divisor = greatest_common_divisor(m as u128, n as u128) as u64;
    m * (n / divisor)
}

/// The numbers of the part that have the stride too, by their best bounds, where neither stride lies in the other.
fn met_apart(part: Strided, stride: Stride) -> Option<Strided>
    requires own { IsOwn part }
    requires small { HasFewBits stride }
    ensures { result ≡ best_part (part_by part
        (stride_through part.stride stride (common_number part.stride stride))) }
{
    if stride.modulus == 0 {
        return None;
    }
    let n = common_number(part.stride, stride)?;
    let modulus = common_multiple(part.stride.modulus, stride.modulus);
    Strided::best(part.low, part.high, WideStride::of(modulus as u128, n))
}

/// The numbers of the part that have the stride too, by their best bounds; none where there is none.
pub(crate) fn met(part: Strided, stride: Stride) -> Option<Strided>
    requires own { IsOwn part }
    requires small { HasFewBits stride }
    ensures { result ≡ best_part (strided_met part stride) }
{
    if part.stride.lies_in(stride) {
        best_part(part)
    } else if stride.lies_in(part.stride) {
        best_part(Strided {
            low: part.low,
            high: part.high,
            stride,
        })
    } else {
        met_apart(part, stride)
    }
}

//! Sums and multiples of lists of terms, in numbers wide enough that nothing wraps.
#![tactic(auto)]

ghost use Rattle.std.specs.Prelude.{◌≡◌, ◌+◌, ◌<◌, ℤ, ◌+ℤ◌, ◌*ℤ◌, List, [], ◌∷◌, ◌++◌, length, MatchOption, IfOk, FitsSigned};
ghost use Rattle.std.specs.Int.{w64};
ghost use Rattle.linear_terms.specs.Terms.{IsRising, sum_at, one, terms_sum, terms_by, number_within, terms_within};

use crate::terms::{INLINE_TERMS, Terms};
use fam_outer::NoMemory;
use smallvec::SmallVec;
use std::alloc::Global;
use std::cmp::Ordering;

/// The number, where it does not pass the limit in size.
pub fn within(n: i128, limit: u64) -> Option<i64>
    requires { limit < 9223372036854775808 }
    ensures { result ≡ number_within limit n }
{
    if n.unsigned_abs() <= limit as u128 {
        Some(n as i64)
    } else {
        None
    }
}

/// The product of two numbers of 64 bits.
#[tactic(auto, using(crate::proofs::Products::product_back, crate::proofs::Products::product_wide))]
pub fn product(a: i64, b: i64) -> i128
    ensures { result ≡ a *ℤ b }
{
    a as i128 * b as i128
}

/// The first term, and those behind it.
pub fn first_term(terms: &[(u32, i64)]) -> Option<(u32, i64, &[(u32, i64)])>
    ensures parts { MatchOption result (terms.now ≡ []) (λ x. terms.now ≡ (x.0, x.1) ∷ x.2.now) }
    ensures fits { MatchOption result (Unit {0}) (λ x. FitsSigned w64 x.1) }
{
    match terms {
        [] => None,
        [(number, coefficient), behind @ ..] => Some((*number, *coefficient, behind)),
    }
}

/// Puts a term behind others, where its coefficient is not 0.
fn put(
    list: &mut SmallVec<(u32, i64), INLINE_TERMS>,
    number: u32,
    coefficient: i64,
) -> Result<(), NoMemory>
    ensures { IfOk result (λ _. list.new.items ≡ list.old.items ++ one number coefficient) }
{
    if coefficient != 0 {
        list.push((number, coefficient))?;
    }
    Ok(())
}

/// The first variable of two lists with the sum of its coefficients, and what is behind it in both.
fn next<'a>(
    left: &'a [(u32, i64)],
    right: &'a [(u32, i64)],
) -> Option<(u32, i128, &'a [(u32, i64)], &'a [(u32, i64)])>
    requires left { IsRising left.now }
    requires right { IsRising right.now }
    ensures first { MatchOption result (terms_sum left.now right.now ≡ [])
        (λ x. terms_sum left.now right.now ≡ one x.0 x.1 ++ terms_sum x.2.now x.3.now) }
    ensures left { MatchOption result (Unit {0}) (λ x. IsRising x.2.now) }
    ensures right { MatchOption result (Unit {0}) (λ x. IsRising x.3.now) }
    ensures shorter { MatchOption result (Unit {0})
        (λ x. length x.2.now + length x.3.now < length left.now + length right.now) }
{
    match (first_term(left), first_term(right)) {
        (None, None) => None,
        (Some((number, a, behind)), None) => Some((number, a as i128, behind, right)),
        (None, Some((number, a, behind))) => Some((number, a as i128, left, behind)),
        (Some((m, a, ms)), Some((n, b, ns))) => match m.cmp(&n) {
            Ordering::Less => Some((m, a as i128, ms, right)),
            Ordering::Equal => Some((m, a as i128 + b as i128, ms, ns)),
            Ordering::Greater => Some((n, b as i128, left, ns)),
        },
    }
}

/// The sum of two lists of terms, where none of its coefficients passes the limit in size.
fn merged(
    alloc: Global,
    left: &[(u32, i64)],
    right: &[(u32, i64)],
    limit: u64,
) -> Result<Option<Terms>, NoMemory>
    requires left { IsRising left.now }
    requires right { IsRising right.now }
    requires limit { limit < 9223372036854775808 }
    ensures { IfOk result (λ made. made ≡ terms_within limit (terms_sum left.now right.now)) }
{
    let mut list = SmallVec::new(alloc);
    let (mut ms, mut ns) = (left, right);
    'terms: while let Some((number, sum, after_ms, after_ns)) = next(ms, ns) {
        let Some(coefficient) = within(sum, limit) else {
            return Ok(None);
        };
        put(&mut list, number, coefficient)?;
        ms = after_ms;
        ns = after_ns;
    }
    Ok(Some(Terms::from_vec(list)))
}

/// The terms times a number, where no coefficient of that passes the limit in size.
fn multiplied(
    alloc: Global,
    terms: &[(u32, i64)],
    by: i64,
    limit: u64,
) -> Result<Option<Terms>, NoMemory>
    requires { limit < 9223372036854775808 }
    ensures { IfOk result (λ made. made ≡ terms_within limit (terms_by by terms.now)) }
{
    let mut list = SmallVec::new(alloc);
    let mut rest = terms;
    'terms: while let Some((number, factor, behind)) = first_term(rest) {
        let Some(coefficient) = within(product(factor, by), limit) else {
            return Ok(None);
        };
        put(&mut list, number, coefficient)?;
        rest = behind;
    }
    Ok(Some(Terms::from_vec(list)))
}

impl Terms {
    #[tactic(auto, using(crate::proofs::Values::terms_sum_at, crate::proofs::Sums::terms_sum_rises))]
    /// The sum of two lists of terms. There is none exactly where a coefficient of it passes the limit in size. It
    /// answers an error only for want of memory.
    pub fn add(&self, alloc: Global, other: &Terms, limit: u64) -> Result<Option<Terms>, NoMemory>
        requires left { IsRising self.now }
        requires right { IsRising other.now }
        requires limit { limit < 9223372036854775808 }
        ensures exact { IfOk result (λ made. made ≡ terms_within limit (terms_sum self.now other.now)) }
        ensures rising { IsRising (terms_sum self.now other.now) }
        ensures value { (values : List ℤ)
            → sum_at (terms_sum self.now other.now) values
            ≡ sum_at self.now values +ℤ sum_at other.now values }
    {
        merged(alloc, self.items(), other.items(), limit)
    }

    #[tactic(auto, using(crate::proofs::Values::terms_by_at, crate::proofs::Sums::terms_by_rises))]
    /// The terms times a number. There is no such list exactly where a coefficient of it passes the limit in size. It
    /// answers an error only for want of memory.
    pub fn scale(&self, alloc: Global, by: i64, limit: u64) -> Result<Option<Terms>, NoMemory>
        requires { limit < 9223372036854775808 }
        ensures exact { IfOk result (λ made. made ≡ terms_within limit (terms_by by self.now)) }
        ensures rising { IsRising self.now → IsRising (terms_by by self.now) }
        ensures value { (values : List ℤ)
            → sum_at (terms_by by self.now) values ≡ sum_at self.now values *ℤ by }
    {
        multiplied(alloc, self.items(), by, limit)
    }
}

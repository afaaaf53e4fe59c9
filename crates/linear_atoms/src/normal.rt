//! The normal form of "this is at least 0".
#![tactic(auto)]

ghost use Rattle.std.specs.Prelude.{◌≡◌, ◌≢◌, ℕ, ◌<◌, ◌≤◌, ◌∷◌, ℤ, pos, negsuc, int_le, ◌≤ℤ◌, ◌<ℤ◌, List, true, IfOk};
ghost use Rattle.linear_atoms.specs.Atoms.{AreBelow};
ghost use Rattle.linear_atoms.specs.Divisors.{common_divisor};
ghost use Rattle.linear_atoms.specs.Forms.{IsRising, form_at, is_small, are_small};
ghost use Rattle.linear_atoms.specs.Normal.{divided, rounded_up, literal_by, normal_of, normal_holds, NormalWithin, IsNormal};

use crate::atoms::{Atom, Literal};
use crate::forms::Linear;
use crate::limits::is_small;
use crate::linear_fault::LinearFault;
use fam_outer::NoMemory;
use linear_terms::{Terms, first_term, greatest_common_divisor};
use smallvec::SmallVec;
use std::alloc::Global;

/// The normal form of "this form is at least 0": a truth where there is no term, else a literal.
#[derive(Debug, Drop)]
pub enum Normal {
    Const(bool),
    Literal(Literal),
}

/// The greatest common divisor of the coefficients.
fn common_divisor(terms: &[(u32, i64)]) -> u128
    requires { IsRising terms.now }
    ensures value { result ≡ common_divisor terms.now }
    ensures positive { (n : ℕ) (a : ℤ) (rest : List (ℕ × ℤ)) → terms.now ≡ (n, a) ∷ rest → 0 < result }
    ensures small { are_small terms.now ≡ true → result ≤ 2147483648 }
{
    let mut divisor = 0;
    let mut rest = terms;
    'terms: while let Some((_, coefficient, behind)) = first_term(rest) {
        divisor = greatest_common_divisor(divisor, coefficient.unsigned_abs() as u128);
        rest = behind;
    }
    divisor
}

/// Whether no coefficient passes 2^31 in size.
fn are_small(terms: &[(u32, i64)]) -> bool
    ensures { result ≡ are_small terms.now }
{
    let mut rest = terms;
    'terms: while let Some((_, coefficient, behind)) = first_term(rest) {
        if !is_small(coefficient) {
            return false;
        }
        rest = behind;
    }
    true
}

/// The terms with each coefficient divided.
fn divided(alloc: Global, terms: &[(u32, i64)], divisor: i64) -> Result<Terms, NoMemory>
    requires small { are_small terms.now ≡ true }
    requires nonzero { divisor ≢ pos 0 }
    ensures { IfOk result (λ made. made ≡ divided divisor terms.now) }
{
    let mut list = SmallVec::new(alloc);
    let mut rest = terms;
    'terms: while let Some((number, coefficient, behind)) = first_term(rest) {
        list.push((number, coefficient / divisor))?;
        rest = behind;
    }
    Ok(Terms::from_vec(list))
}

/// `-k/g` rounded up.
#[tactic(auto, using(crate::proofs::Truths::quotient_ends))]
fn rounded_up(constant: i64, divisor: i64) -> i64
    requires constant { is_small constant ≡ true }
    requires positive { pos 0 <ℤ divisor }
    ensures value { result ≡ rounded_up constant divisor }
    ensures low { negsuc 2147483647 ≤ℤ result }
    ensures high { result ≤ℤ pos 2147483648 }
{
    -constant.div_euclid(divisor)
}

/// The literal of terms with this first coefficient, for the greatest common divisor and the constant.
fn literal(
    alloc: Global,
    first: i64,
    terms: &[(u32, i64)],
    divisor: i64,
    constant: i64,
) -> Result<Literal, NoMemory>
    requires small { are_small terms.now ≡ true }
    requires constant { is_small constant ≡ true }
    requires positive { pos 0 <ℤ divisor }
    requires divisor { is_small divisor ≡ true }
    ensures { IfOk result (λ made. made ≡ literal_by first terms.now divisor constant) }
{
    let rounded = rounded_up(constant, divisor);
    if 0 < first {
        let terms = divided(alloc, terms, divisor)?;
        Ok(Literal {
            atom: Atom {
                terms,
                bound: rounded,
            },
            positive: true,
        })
    } else {
        let terms = divided(alloc, terms, -divisor)?;
        Ok(Literal {
            atom: Atom {
                terms,
                bound: 1 - rounded,
            },
            positive: false,
        })
    }
}

impl Linear {
    #[tactic(auto, using(crate::proofs::Truths::truth_kept, crate::proofs::Coprimes::normal_kept))]
    /// The normal form of "this is at least 0".
    ///
    /// Let `g` be the greatest common divisor of the coefficients and `k` the constant. Where the first
    /// coefficient is positive, it is the literal "terms `a/g` at least `-k/g` rounded up". Where it is
    /// negative, it is the negation of "terms `-a/g` at least `1 - r`", with `r` equal to `-k/g` rounded up.
    /// It is true at a configuration exactly where the form is at least 0. The literal's atom is well formed over
    /// each number of features that has those of the form.
    ///
    /// It answers `TooLarge` exactly where a coefficient or the constant passes 2^31 in size, and `NoMemory`
    /// for want of memory.
    pub fn normal(&self, alloc: Global) -> Result<Normal, LinearFault>
        requires { IsRising self.now.terms }
        ensures exact { NormalWithin result self.now }
        ensures atom { (count : ℕ) → AreBelow count self.now.terms
            → IfOk result (λ made. IsNormal count made) }
        ensures truth { (values : List ℤ)
            → normal_holds (normal_of self.now) values ≡ int_le (pos 0) (form_at self.now values) }
    {
        let terms = self.terms.items();
        if !are_small(terms) || !is_small(self.constant) {
            return Err(LinearFault::TooLarge);
        }
        match first_term(terms) {
            None => Ok(Normal::Const(0 <= self.constant)),
            Some((_, first, _)) => {
                let divisor = common_divisor(terms);
                let made = literal(alloc, first, terms, divisor as i64, self.constant)?;
                Ok(Normal::Literal(made))
            }
        }
    }
}

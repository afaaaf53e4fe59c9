//! Linear forms over features.
#![tactic(auto)]

ghost use Rattle.std.specs.Prelude.{◌≡◌, ℤ, List, pos, ◌+ℤ◌, ◌*ℤ◌, IfOk, slice_index_or};
ghost use Rattle.linear_atoms.specs.Forms.{IsRising, form_at, constant_form, feature_form, form_sum, form_by, FormsWithin};

use crate::limits::{LARGEST, narrow};
use crate::linear_fault::LinearFault;
use fam_outer::NoMemory;
use linear_terms::{Terms, product};
use std::alloc::Global;

/// A sum of features times their coefficients, and of a constant: terms by rising feature number, no
/// coefficient 0.
#[derive(Debug, Drop)]
pub struct Linear {
    pub terms: Terms,
    pub constant: i64,
}

impl Linear {
    /// The feature of this number, with coefficient 1. It answers an error only for want of memory.
    pub fn feature(alloc: Global, number: u32) -> Result<Linear, NoMemory>
        ensures exact { IfOk result (λ made. made ≡ feature_form number) }
        ensures rising { IfOk result (λ made. IsRising made.terms) }
        ensures value { (values : List ℤ)
            → form_at (feature_form number) values ≡ slice_index_or values number (pos 0) }
    {
        Ok(Linear {
            terms: Terms::single(alloc, number, 1)?,
            constant: 0,
        })
    }

    /// The constant form of this number. It answers `TooLarge` exactly where the number passes 2^31 in size, and
    /// `NoMemory` for want of memory.
    pub fn constant(alloc: Global, n: i64) -> Result<Linear, LinearFault>
        ensures exact { FormsWithin result (constant_form n) }
        ensures rising { IfOk result (λ made. IsRising made.terms) }
        ensures value { (values : List ℤ) → form_at (constant_form n) values ≡ n }
    {
        let constant = narrow(n as i128)?;
        Ok(Linear {
            terms: Terms::none(alloc),
            constant,
        })
    }

    #[tactic(auto, using(crate::proofs::Values::form_sum_at))]
    /// The sum of two forms. It answers `TooLarge` exactly where a coefficient or the constant of the sum passes
    /// 2^31 in size, and `NoMemory` for want of memory.
    pub fn add(&self, alloc: Global, other: &Linear) -> Result<Linear, LinearFault>
        requires left { IsRising self.now.terms }
        requires right { IsRising other.now.terms }
        ensures exact { FormsWithin result (form_sum self.now other.now) }
        ensures rising { IfOk result (λ made. IsRising made.terms) }
        ensures value { (values : List ℤ)
            → form_at (form_sum self.now other.now) values
            ≡ form_at self.now values +ℤ form_at other.now values }
    {
        let Some(terms) = self.terms.add(alloc, &other.terms, LARGEST)? else {
            return Err(LinearFault::TooLarge);
        };
        let constant = narrow(self.constant as i128 + other.constant as i128)?;
        Ok(Linear { terms, constant })
    }

    #[tactic(auto, using(crate::proofs::Values::form_by_at))]
    /// The form times a number. It answers `TooLarge` exactly where a coefficient or the constant of the product
    /// passes 2^31 in size, and `NoMemory` for want of memory.
    pub fn scale(&self, alloc: Global, by: i64) -> Result<Linear, LinearFault>
        requires { IsRising self.now.terms }
        ensures exact { FormsWithin result (form_by by self.now) }
        ensures rising { IfOk result (λ made. IsRising made.terms) }
        ensures value { (values : List ℤ)
            → form_at (form_by by self.now) values ≡ form_at self.now values *ℤ by }
    {
        let Some(terms) = self.terms.scale(alloc, by, LARGEST)? else {
            return Err(LinearFault::TooLarge);
        };
        let constant = narrow(product(self.constant, by))?;
        Ok(Linear { terms, constant })
    }
}

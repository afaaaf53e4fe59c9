//! The stride of a linear form.
#![tactic(auto)]

ghost use Rattle.std.specs.Prelude.{◌≡◌, ◌≤◌, ◌*◌, length, unsigned_abs};
ghost use Rattle.leaf_domain.specs.Forms.{IsForm};
ghost use Rattle.strides.specs.Strides.{stride_at, IsWide};
ghost use Rattle.product_leaf.specs.StrideLeaves.{AllOwn, form_stride};

use leaf_domain::Form;
use linear_terms::{first_term, greatest_common_divisor, product};
use strides::{Strided, WideStride};

/// The product of a coefficient and a modulus.
fn times(coefficient: i64, modulus: u64) -> u128
    requires coefficient { unsigned_abs coefficient ≤ 1099511627776 }
    requires modulus { modulus ≤ 4294967295 }
    ensures { result ≡ unsigned_abs coefficient * modulus }
{
    coefficient.unsigned_abs() as u128 * modulus as u128
}

/// The stride of the value of a form, where the variables have these parts: its modulus is the greatest
/// common divisor of each coefficient times its variable's modulus.
pub fn form_stride(parts: &[Strided], f: &Form) -> WideStride
    requires few { length parts.now ≤ 48 }
    requires own { AllOwn parts.now }
    requires form { IsForm (length parts.now) f.now }
    ensures value { stride_at result.modulus result.residue ≡ form_stride parts.now f.now }
    ensures wide { IsWide (stride_at result.modulus result.residue) }
{
    let mut modulus = 0;
    let mut value = f.constant as i128;
    let mut rest = f.terms.items();
    'terms: while let Some((x, coefficient, behind)) = first_term(rest) {
        let stride = parts[x as usize].stride;
        modulus = greatest_common_divisor(modulus, times(coefficient, stride.modulus));
        value = value + product(coefficient, stride.residue);
        rest = behind;
    }
    WideStride::of(modulus, value)
}

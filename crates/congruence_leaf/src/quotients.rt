//! The quotients of the numbers of a stride by a constant.
#![tactic(auto)]

ghost use Rattle.std.specs.Prelude.{◌≡◌, ◌≢◌, ◌≤◌, pos, unsigned_abs};
ghost use Rattle.c_tree.specs.Value.{IsInt};
ghost use Rattle.strides.specs.Strided.{IsOwn};
ghost use Rattle.congruence_leaf.specs.Quotients.{quotient_stride, strided_quotients};

use crate::remainders::{only, strided_in};
use c_tree::Op;
use leaf_domain::arithmetic;
use strides::{Stride, Strided, WideStride};

/// The stride of the quotients by `m`.
fn quotient_stride(stride: Stride, m: i64) -> Stride
    requires modulus { stride.modulus ≤ 4294967295 }
    requires residue { unsigned_abs stride.residue ≤ 4294967296 }
    requires int { IsInt m }
    requires some { m ≢ pos 0 }
    ensures { result ≡ quotient_stride m stride }
{
    let size = m.unsigned_abs();
    let multiples = Stride {
        modulus: size,
        residue: 0,
    };
    if stride.lies_in(multiples) {
        WideStride::of(
            (stride.modulus / size) as u128,
            (stride.residue / m) as i128,
        )
        .narrow()
    } else {
        Stride::ALL
    }
}

/// The quotients of the numbers by `m`, rounded toward 0. Where `m` divides all numbers of the stride, they are as far apart as
/// the numbers, divided by `m`.
pub(crate) fn quotients(d: Strided, m: i64) -> Strided
    requires own { IsOwn d }
    requires int { IsInt m }
    requires some { m ≢ pos 0 }
    ensures { result ≡ strided_quotients d m }
{
    let range = arithmetic(Op::Div, d.range(), only(m));
    strided_in(range, quotient_stride(d.stride, m))
}

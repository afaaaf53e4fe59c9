//! The limit of the numbers of a form.
#![tactic(auto)]

ghost use Rattle.std.specs.Prelude.{◌≡◌};
ghost use Rattle.linear_atoms.specs.Forms.{NumberWithin, is_small};

use crate::linear_fault::LinearFault;
use linear_terms::within;

/// The greatest size of a coefficient or constant.
pub(crate) const LARGEST: u64 = 2147483648;

/// The number, where it does not pass 2^31 in size.
pub(crate) fn narrow(n: i128) -> Result<i64, LinearFault>
    ensures { NumberWithin result n }
{
    match within(n, LARGEST) {
        Some(n) => Ok(n),
        None => Err(LinearFault::TooLarge),
    }
}

/// Whether the number does not pass 2^31 in size.
pub(crate) fn is_small(n: i64) -> bool
    ensures { result ≡ is_small n }
{
    n.unsigned_abs() <= LARGEST
}

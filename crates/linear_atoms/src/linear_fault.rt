//! Why there is no linear form.
#![tactic(auto)]

use fam_outer::NoMemory;
use std::alloc::{AllocError, AllocFailed};

/// Why there is no form: want of memory, or a number that passes 2^31 in size.
#[derive(Clone, Copy, Debug, PartialEq, Eq)]
pub enum LinearFault {
    NoMemory,
    TooLarge,
}

impl From<NoMemory> for LinearFault {
    ghost use Rattle.std.specs.Prelude.{◌≡◌};
    ghost use Rattle.linear_atoms.specs.declared.linear_fault.LinearFault.TheVariants as faults;

    ghost from_gives = { λ _ given. given ≡ faults.NoMemory };

    fn from(_error: NoMemory) -> LinearFault {
        LinearFault::NoMemory
    }
}

impl From<AllocError> for LinearFault {
    ghost use Rattle.std.specs.Prelude.{◌≡◌};
    ghost use Rattle.linear_atoms.specs.declared.linear_fault.LinearFault.TheVariants as faults;

    ghost from_gives = { λ _ given. given ≡ faults.NoMemory };

    fn from(_error: AllocError) -> LinearFault {
        LinearFault::NoMemory
    }
}

impl<T: Drop> From<AllocFailed<T>> for LinearFault {
    ghost use Rattle.std.specs.Prelude.{◌≡◌};
    ghost use Rattle.linear_atoms.specs.declared.linear_fault.LinearFault.TheVariants as faults;

    ghost from_gives = { λ _ given. given ≡ faults.NoMemory };

    fn from(_error: AllocFailed<T>) -> LinearFault {
        LinearFault::NoMemory
    }
}

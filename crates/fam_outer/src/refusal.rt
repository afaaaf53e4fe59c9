//! Want of memory, or a fault.
#![tactic(auto)]

use crate::text::NoMemory;
use std::alloc::{AllocError, AllocFailed};

/// Why a call that reads answers nothing: want of memory, or a fault of what was read.
#[derive(Clone, Copy, Debug, PartialEq, Eq)]
pub enum Refusal<F> {
    NoMemory,
    Fault(F),
}

impl<F> From<NoMemory> for Refusal<F> {
    ghost use Rattle.std.specs.Prelude.{◌≡◌};
    ghost use Rattle.fam_outer.specs.declared.refusal.Refusal.TheVariants as refusal;

    ghost from_gives = { λ _ given. given ≡ refusal.NoMemory };

    fn from(_error: NoMemory) -> Refusal<F> {
        Refusal::NoMemory
    }
}

impl<F> From<AllocError> for Refusal<F> {
    ghost use Rattle.std.specs.Prelude.{◌≡◌};
    ghost use Rattle.fam_outer.specs.declared.refusal.Refusal.TheVariants as refusal;

    ghost from_gives = { λ _ given. given ≡ refusal.NoMemory };

    fn from(_error: AllocError) -> Refusal<F> {
        Refusal::NoMemory
    }
}

impl<F, T: Drop> From<AllocFailed<T>> for Refusal<F> {
    ghost use Rattle.std.specs.Prelude.{◌≡◌};
    ghost use Rattle.fam_outer.specs.declared.refusal.Refusal.TheVariants as refusal;

    ghost from_gives = { λ _ given. given ≡ refusal.NoMemory };

    fn from(_error: AllocFailed<T>) -> Refusal<F> {
        Refusal::NoMemory
    }
}

//! Why bytes are read as no condition.
#![tactic(auto)]

use std::alloc::{AllocError, AllocFailed};

/// Want of memory, or bytes or tokens that are no condition.
#[derive(Clone, Copy, Debug, PartialEq, Eq)]
pub(crate) enum ExpressionRefusal {
    NoMemory,
    Wrong,
}

impl From<AllocError> for ExpressionRefusal {
    ghost use Rattle.std.specs.Prelude.{◌≡◌};
    ghost use Rattle.cpp_conditions.specs.declared.expression_refusal.ExpressionRefusal.TheVariants as stops;

    ghost from_gives = { λ _ given. given ≡ stops.NoMemory };

    fn from(_error: AllocError) -> ExpressionRefusal {
        ExpressionRefusal::NoMemory
    }
}

impl<T: Drop> From<AllocFailed<T>> for ExpressionRefusal {
    ghost use Rattle.std.specs.Prelude.{◌≡◌};
    ghost use Rattle.cpp_conditions.specs.declared.expression_refusal.ExpressionRefusal.TheVariants as stops;

    ghost from_gives = { λ _ given. given ≡ stops.NoMemory };

    fn from(_error: AllocFailed<T>) -> ExpressionRefusal {
        ExpressionRefusal::NoMemory
    }
}

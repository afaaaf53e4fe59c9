//! The operations of formulas, on truths.
ghost use Rattle.std.specs.Prelude.{◌≡◌, ◌&&◌, ◌||◌};

use crate::operation::Operation;
use fam_outer::NoMemory;

/// Whether both truths hold.
#[derive(Drop)]
pub struct Both;

impl Operation<bool, bool, bool> for Both {
    ghost takes = { λ _ _ _. Unit {0} };

    ghost gives = { λ _ a b c. c ≡ (a && b) };

    fn apply(&self, first: &bool, second: &bool) -> Result<bool, NoMemory> {
        Ok(*first && *second)
    }
}

/// Whether one of the truths holds.
#[derive(Drop)]
pub struct Either;

impl Operation<bool, bool, bool> for Either {
    ghost takes = { λ _ _ _. Unit {0} };

    ghost gives = { λ _ a b c. c ≡ (a || b) };

    fn apply(&self, first: &bool, second: &bool) -> Result<bool, NoMemory> {
        Ok(*first || *second)
    }
}

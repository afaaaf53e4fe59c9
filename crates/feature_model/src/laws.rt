//! What holds of the definitions alone.
#![tactic(auto)]

ghost use Rattle.std.specs.Prelude.{◌≡◌, ℕ, List, Result};
ghost use Rattle.fam_outer.specs.declared.dialect.Unknown.{Unknown};
ghost use Rattle.feature_model.specs.declared.faults.ModelFault.{ModelFault};
ghost use Rattle.cpp_conditions.specs.Validity.{Plain};
ghost use Rattle.feature_model.specs.Models.{IsReadAs};

use cpp_conditions::laws::{bytes_have_one_reading, few_atoms_are_not_more};

/// Bytes are read in one way: as a model, or with one fault.
pub fn bytes_say_one_model()
    ensures { (unknown : Unknown) (bytes : List ℕ) (r s : Result Plain ModelFault)
        → IsReadAs unknown bytes r → IsReadAs unknown bytes s → r ≡ s }
{
    bytes_have_one_reading();
    few_atoms_are_not_more();
}

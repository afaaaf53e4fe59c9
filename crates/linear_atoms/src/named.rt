//! What has a name.
#![tactic(auto)]

ghost use Rattle.std.specs.Prelude.{◌≡◌, List, ℕ};

use crate::atoms::Feature;
use fam_outer::Text;

/// Something with a name, to which a value may be set: a feature of a model, or a variable of a program, which is its
/// name alone.
pub trait Named {
    /// The bytes of the name.
    ghost name_of: { Self → List ℕ };

    /// The bytes of the name.
    fn name(&self) -> &[u8]
        ensures { result.now ≡ name_of self.now };
}

impl Named for Feature {
    ghost name_of = { λ feature. feature.name };

    fn name(&self) -> &[u8] {
        self.name.bytes()
    }
}

impl Named for Text {
    ghost name_of = { λ text. text };

    fn name(&self) -> &[u8] {
        self.bytes()
    }
}

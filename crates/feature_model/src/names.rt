//! Names of features, and the words that are none.
#![tactic(auto)]

ghost use Rattle.std.specs.Prelude.{◌≡◌};
ghost use Rattle.feature_model.specs.Names as names;

use c_words::{begins_with_two_underscores, is_identifier, is_reserved};

/// Whether the bytes are no identifier, begin with two underscores or are a word with a meaning of its own.
pub(crate) fn is_misnamed(bytes: &[u8]) -> bool
    ensures { result ≡ names.is_misnamed bytes.now }
{
    !is_identifier(bytes) || (begins_with_two_underscores(bytes) || is_reserved(bytes))
}

//! Identifiers.
#![tactic(auto)]

ghost use Rattle.std.specs.Prelude.{◌≡◌};
ghost use Rattle.std.specs.List.{list_all};
ghost use Rattle.c_words.specs.Bytes as kinds;
ghost use Rattle.c_words.specs.Identifiers as shapes;

use crate::bytes::{is_nondigit, is_word_byte};

/// Whether all bytes are letters, digits or underscores.
fn are_word_bytes(bytes: &[u8]) -> bool
    ensures { result ≡ list_all kinds.is_word_byte bytes.now }
{
    bytes.iter().all(|b| is_word_byte(*b))
}

/// An identifier (ISO/IEC 9899:2011, 6.4.2.1): a letter or an underscore, and letters, digits and underscores behind it. It
/// may be a keyword.
pub fn is_identifier(bytes: &[u8]) -> bool
    ensures { result ≡ shapes.is_identifier bytes.now }
{
    match bytes {
        [] => false,
        [first, behind @ ..] => is_nondigit(*first) && are_word_bytes(behind),
    }
}

/// Whether two underscores come first.
pub fn begins_with_two_underscores(bytes: &[u8]) -> bool
    ensures { result ≡ shapes.begins_with_two_underscores bytes.now }
{
    match bytes {
        [first, second, ..] => *first == b'_' && *second == b'_',
        _ => false,
    }
}

//! Character constants.
#![tactic(auto)]

ghost use Rattle.std.specs.Prelude.{◌≡◌};
ghost use Rattle.c_tokens.specs.Characters as characters;

use c_words::{is_digit_in, numeral};
use fam_outer::cut;

/// The greatest byte of ASCII.
const MOST: u32 = 127;

/// A byte that stands for itself: from a space to `~`, but no quote and no backslash.
fn is_plain(b: u8) -> bool
    ensures { result ≡ characters.is_plain b }
{
    matches!(b, 32..=126) && b != b'\'' && b != b'\\'
}

/// The byte that a simple escape stands for, by the byte behind its backslash.
fn simple_escape(b: u8) -> Option<u32>
    ensures { result ≡ characters.simple_escape b }
{
    match b {
        b'\'' | b'"' | b'?' | b'\\' => Some(b as u32),
        b'a' => Some(7),
        b'b' => Some(8),
        b'f' => Some(12),
        b'n' => Some(10),
        b'r' => Some(13),
        b't' => Some(9),
        b'v' => Some(11),
        _ => None,
    }
}

/// The byte that one to three octal digits name.
fn octal_escape(digits: &[u8]) -> Option<u32>
    ensures { result ≡ characters.octal_escape digits.now }
{
    if digits.len() <= 3 {
        numeral(8, digits, MOST)
    } else {
        None
    }
}

/// The byte that an escape stands for, by what stands behind its backslash.
fn escape(bytes: &[u8]) -> Option<u32>
    ensures { result ≡ characters.escape_of bytes.now }
{
    let (b, behind) = cut(bytes)?;
    if b == b'x' {
        numeral(16, behind, MOST)
    } else if is_digit_in(8, b) {
        octal_escape(bytes)
    } else if behind.is_empty() {
        simple_escape(b)
    } else {
        None
    }
}

/// The byte that a character constant stands for, by what stands between its quotes.
fn between(bytes: &[u8]) -> Option<u32>
    ensures { result ≡ characters.character_of bytes.now }
{
    let (b, behind) = cut(bytes)?;
    if b == b'\\' {
        escape(behind)
    } else if is_plain(b) && behind.is_empty() {
        Some(b as u32)
    } else {
        None
    }
}

/// The number that a character constant writes (ISO/IEC 9899:2011, 6.4.4.4): that of one byte in ASCII, from a space to
/// `~`, or of an escape up to 127.
pub(crate) fn character(lexeme: &[u8]) -> Option<u32>
    ensures { result ≡ characters.character_of (characters.inner lexeme.now) }
{
    if lexeme.len() < 2 {
        return None;
    }
    between(&lexeme[1..lexeme.len() - 1])
}

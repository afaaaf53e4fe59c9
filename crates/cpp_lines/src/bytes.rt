//! Bytes at the front of a text, and the place behind one.
#![tactic(auto)]

ghost use Rattle.std.specs.Prelude.{◌≡◌, ◌≤◌, [], length, take, drop};
ghost use Rattle.std.specs.List.{prefix_len};
ghost use Rattle.std.specs.Str.{bytes_eq};
ghost use Rattle.c_words.specs.Bytes as words;
ghost use Rattle.cpp_lines.specs.Bytes as kinds;

use c_words::{is_gap, is_word_byte};

/// Whether the first two bytes are these.
pub(crate) fn begins_with(first: u8, second: u8, bytes: &[u8]) -> bool
    ensures { result ≡ kinds.begins_with first second bytes.now }
{
    match bytes {
        [] => false,
        [_] => false,
        [b, c, ..] => *b == first && *c == second,
    }
}

/// Whether the first byte is this.
pub(crate) fn has_first(first: u8, bytes: &[u8]) -> bool
    ensures { result ≡ kinds.has_first first bytes.now }
{
    match bytes {
        [] => false,
        [b, ..] => *b == first,
    }
}

/// How many bytes stand before the newline, or the end.
pub(crate) fn line_len(bytes: &[u8]) -> usize
    ensures value { result ≡ prefix_len kinds.is_line_byte bytes.now }
    ensures within { result ≤ length bytes.now }
{
    bytes.iter().take_while(|b| **b != b'\n').count()
}

/// How many bytes of white space but newlines stand at the front.
pub(crate) fn gap_len(bytes: &[u8]) -> usize
    ensures value { result ≡ prefix_len words.is_gap bytes.now }
    ensures within { result ≤ length bytes.now }
{
    bytes.iter().take_while(|b| is_gap(**b)).count()
}

/// What stands behind them.
pub(crate) fn behind_gap(bytes: &[u8]) -> &[u8]
    ensures { result.now ≡ kinds.behind_gap bytes.now }
{
    bytes.split_at(gap_len(bytes)).1
}

/// How many letters, digits and underscores stand at the front.
fn word_len(bytes: &[u8]) -> usize
    ensures value { result ≡ prefix_len words.is_word_byte bytes.now }
    ensures within { result ≤ length bytes.now }
{
    bytes.iter().take_while(|b| is_word_byte(**b)).count()
}

/// The letters, digits and underscores at the front, and what stands behind them.
pub(crate) fn split_word(bytes: &[u8]) -> (&[u8], &[u8])
    ensures word { result.0.now ≡ take (prefix_len words.is_word_byte bytes.now) bytes.now }
    ensures behind { result.1.now ≡ drop (prefix_len words.is_word_byte bytes.now) bytes.now }
{
    bytes.split_at(word_len(bytes))
}

/// Nothing but white space.
pub(crate) fn is_gap_only(bytes: &[u8]) -> bool
    ensures { result ≡ kinds.is_gap_only bytes.now }
{
    bytes.iter().all(|b| is_gap(*b))
}

/// Whether white space stands at the front.
pub(crate) fn begins_with_gap(bytes: &[u8]) -> bool
    ensures { result ≡ kinds.begins_with_gap bytes.now }
{
    match bytes {
        [] => false,
        [b, ..] => is_gap(*b),
    }
}

/// Whether the bytes are this text.
pub(crate) fn is(bytes: &[u8], text: &str) -> bool
    ensures { result ≡ bytes_eq bytes.now text.now }
{
    bytes == text.as_bytes()
}

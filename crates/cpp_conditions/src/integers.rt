//! Integer constants of conditions.
#![tactic(auto)]

ghost use Rattle.std.specs.Prelude.{◌≡◌, ◌≤◌, length};
ghost use Rattle.std.specs.List.{prefix_len};
ghost use Rattle.c_words.specs.Numbers as numbers;
ghost use Rattle.cpp_conditions.specs.Integers as specs;

use c_words::{constant_value, is_constant};

/// Whether a byte is neither `L` nor `l`.
fn is_short(b: u8) -> bool
    ensures { result ≡ specs.is_short b }
{
    b != b'L' && b != b'l'
}

/// How many bytes stand before the first `L` or `l`.
fn short_len(word: &[u8]) -> usize
    ensures value { result ≡ prefix_len specs.is_short word.now }
    ensures fits { result ≤ length word.now }
{
    word.iter().take_while(|b| is_short(**b)).count()
}

/// Nothing, `L`, `l`, `LL` or `ll`.
fn is_suffix(bytes: &[u8]) -> bool
    ensures { result ≡ specs.is_suffix bytes.now }
{
    match bytes {
        [] => true,
        [b] => !is_short(*b),
        [b, c] => !is_short(*b) && *c == *b,
        _ => false,
    }
}

/// An integer constant with no suffix, or one that says long (ISO/IEC 9899:2011, 6.4.4.1).
pub(crate) fn is_integer(word: &[u8]) -> bool
    ensures { result ≡ specs.is_integer word.now }
{
    let (constant, suffix) = word.split_at(short_len(word));
    is_constant(constant) && is_suffix(suffix)
}

/// The number of an integer constant, up to a bound; none where it is greater.
pub(crate) fn integer_value(word: &[u8], most: u32) -> Option<u32>
    ensures { result ≡ numbers.up_to most (specs.integer_value word.now) }
{
    let (constant, _) = word.split_at(short_len(word));
    constant_value(constant, most)
}

/// Whether a sign goes on with the preprocessing number that these letters and digits begin (ISO/IEC 9899:2011, 6.4.8).
pub(crate) fn goes_on_behind(word: &[u8], rest: &[u8]) -> bool
    ensures { result ≡ specs.goes_on_behind word.now rest.now }
{
    ends_in_exponent(word) && begins_with_sign(rest)
}

/// `e`, `E`, `p` or `P`.
fn is_exponent(b: u8) -> bool
    ensures { result ≡ numbers.is_exponent b }
{
    matches!(b, b'e' | b'E' | b'p' | b'P')
}

/// Whether the last byte is `e`, `E`, `p` or `P`.
fn ends_in_exponent(word: &[u8]) -> bool
    ensures { result ≡ specs.ends_in_exponent word.now }
{
    match word.last() {
        Some(b) => is_exponent(*b),
        None => false,
    }
}

/// Whether a sign comes first.
fn begins_with_sign(bytes: &[u8]) -> bool
    ensures { result ≡ specs.begins_with_sign bytes.now }
{
    matches!(bytes.first(), Some(b'+' | b'-'))
}

//! Numbers as C writes them.
#![tactic(auto)]

ghost use Rattle.std.specs.Prelude.{◌≡◌, ◌≤◌, ◌<◌, nat_lt, length};
ghost use Rattle.std.specs.List.{list_all};
ghost use Rattle.std.specs.Char as characters;
ghost use Rattle.c_words.specs.Numbers as specs;

use crate::bytes::is_word_byte;

/// The value of a digit or a letter; 36 for any other byte.
fn digit_value(b: u8) -> u32
    ensures { result ≡ characters.digit_value b }
{
    match (b as char).to_digit(36) {
        Some(value) => value,
        None => 36,
    }
}

/// A digit in a base: from base 11 on also a letter, of either case.
pub fn is_digit_in(base: u32, b: u8) -> bool
    ensures { result ≡ specs.is_digit_in base b }
{
    digit_value(b) < base
}

/// Whether all bytes are digits in a base.
fn are_digits(base: u32, bytes: &[u8]) -> bool
    ensures { result ≡ list_all (specs.is_digit_in base) bytes.now }
{
    bytes.iter().all(|b| is_digit_in(base, *b))
}

/// One digit or more of a base, and nothing else.
fn is_numeral(base: u32, bytes: &[u8]) -> bool
    ensures { result ≡ specs.is_numeral base bytes.now }
{
    !bytes.is_empty() && are_digits(base, bytes)
}

/// The number that digits in a base write, up to a bound; none where it is greater.
fn value_in(base: u32, digits: &[u8], most: u32) -> Option<u32>
    requires some { 0 < base }
    requires few { base ≤ 36 }
    ensures { result ≡ specs.up_to most (specs.value_in base digits.now) }
{
    let mut value: u32 = 0;
    for digit in digits {
        let next = value as u64 * base as u64 + digit_value(*digit) as u64;
        if next > most as u64 {
            return None;
        }
        value = next as u32;
    }
    Some(value)
}

/// The number of a digit or more of a base, up to a bound; none where it is greater, or the bytes are nothing such.
pub fn numeral(base: u32, digits: &[u8], most: u32) -> Option<u32>
    requires some { 0 < base }
    requires few { base ≤ 36 }
    ensures { result ≡ specs.numeral_up_to most base digits.now }
{
    if is_numeral(base, digits) {
        value_in(base, digits, most)
    } else {
        None
    }
}

/// Whether `0` comes first.
pub fn begins_with_zero(bytes: &[u8]) -> bool
    ensures { result ≡ specs.begins_with_zero bytes.now }
{
    matches!(bytes, [b'0', ..])
}

/// The number of decimal digits, up to a bound; none where it is greater, where `0` comes first and is not all, or where
/// the bytes are nothing such.
pub fn decimal(digits: &[u8], most: u32) -> Option<u32>
    ensures { result ≡ specs.decimal_up_to most digits.now }
{
    if begins_with_zero(digits) && digits.len() > 1 {
        None
    } else {
        numeral(10, digits, most)
    }
}

/// The base of an integer constant, and its digits.
fn parts(word: &[u8]) -> (u32, &[u8])
    ensures base { result.0 ≡ specs.base_of word.now }
    ensures digits { result.1.now ≡ specs.digits_of word.now }
{
    match word {
        [b'0', b'x' | b'X', digits @ ..] => (16, digits),
        [b'0', ..] => (8, word),
        _ => (10, word),
    }
}

/// An integer constant without a suffix (ISO/IEC 9899:2011, 6.4.4.1): decimal digits that do not begin with `0`, octal
/// ones that do, or `0x` or `0X` and hexadecimal ones.
pub fn is_constant(word: &[u8]) -> bool
    ensures { result ≡ specs.is_constant word.now }
{
    let (base, digits) = parts(word);
    is_numeral(base, digits)
}

/// The number of an integer constant without a suffix, up to a bound; none where it is greater.
pub fn constant_value(word: &[u8], most: u32) -> Option<u32>
    ensures { result ≡ specs.up_to most (specs.constant_value word.now) }
{
    let (base, digits) = parts(word);
    value_in(base, digits, most)
}

/// Whether a byte goes on with a preprocessing number behind another of its bytes (ISO/IEC 9899:2011, 6.4.8): a letter, a
/// digit, an underscore, or a sign directly behind `e`, `E`, `p` or `P`.
pub fn goes_on(last: u8, b: u8) -> bool
    ensures { result ≡ specs.goes_on last b }
{
    is_word_byte(b) || (matches!(last, b'e' | b'E' | b'p' | b'P') && matches!(b, b'+' | b'-'))
}

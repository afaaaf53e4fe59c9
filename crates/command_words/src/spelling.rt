//! How numbers are spelled.
#![tactic(auto)]

ghost use Rattle.std.specs.Prelude.{◌≡◌};
ghost use Rattle.std.specs.List.{list_all};
ghost use Rattle.c_words.specs.Bytes.{is_digit as digit};
ghost use Rattle.command_words.specs.Spelling.{is_positive as positive, is_number as number, number_up_to as read_number, is_input as input, without_minus};

use c_words::is_digit;

/// The bytes are digits.
fn are_digits(bytes: &[u8]) -> bool
    ensures { result ≡ list_all digit bytes.now }
{
    bytes.iter().all(|byte| is_digit(*byte))
}

/// The bytes are digits, one or more, the first of them not `0`.
fn is_positive(bytes: &[u8]) -> bool
    ensures { result ≡ positive bytes.now }
{
    match bytes {
        [] => false,
        [first, ..] => *first != b'0' && are_digits(bytes),
    }
}

/// The text is `0`, or digits without a leading zero.
pub fn is_number(text: &str) -> bool
    ensures { result ≡ number text.now }
{
    text == "0" || is_positive(text.as_bytes())
}

/// The number from 0 to `most` that the text spells.
pub fn number_up_to(most: u32, text: &str) -> Option<u32>
    ensures { result ≡ read_number most text.now }
{
    if !is_number(text) {
        return None;
    }
    match text.parse::<u32>() {
        Ok(number) => if number <= most { Some(number) } else { None },
        Err(_) => None,
    }
}

/// The bytes after a `-` at their front, or all bytes.
fn after_minus(bytes: &[u8]) -> &[u8]
    ensures { result.now ≡ without_minus bytes.now }
{
    match bytes {
        [b'-', rest @ ..] => rest,
        _ => bytes,
    }
}

/// The text is `0`, or digits that do not begin with 0, with or without a `-` before them.
pub fn is_input(text: &str) -> bool
    ensures { result ≡ input text.now }
{
    text == "0" || is_positive(after_minus(text.as_bytes()))
}

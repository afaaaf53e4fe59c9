//! Kinds of bytes.
#![tactic(auto)]

ghost use Rattle.std.specs.Prelude.{◌≡◌};
ghost use Rattle.c_words.specs.Bytes as kinds;

/// Space, tab, newline, vertical tab, form feed or carriage return (ISO/IEC 9899:2011, 6.4, and carriage return).
pub fn is_space(b: u8) -> bool
    ensures { result ≡ kinds.is_space b }
{
    matches!(b, b' ' | 9..=13)
}

/// White space but a newline.
pub fn is_gap(b: u8) -> bool
    ensures { result ≡ kinds.is_gap b }
{
    matches!(b, b' ' | b'\t' | 11..=13)
}

/// A digit (ISO/IEC 9899:2011, 6.4.2.1).
pub fn is_digit(b: u8) -> bool
    ensures { result ≡ kinds.is_digit b }
{
    matches!(b, b'0'..=b'9')
}

/// A letter or a digit.
pub fn is_alphanumeric(b: u8) -> bool
    ensures { result ≡ kinds.is_alphanumeric b }
{
    matches!(b, b'a'..=b'z' | b'A'..=b'Z' | b'0'..=b'9')
}

/// A letter or an underscore (ISO/IEC 9899:2011, 6.4.2.1: a nondigit).
pub fn is_nondigit(b: u8) -> bool
    ensures { result ≡ kinds.is_nondigit b }
{
    matches!(b, b'_' | b'a'..=b'z' | b'A'..=b'Z')
}

/// A letter, a digit or an underscore.
pub fn is_word_byte(b: u8) -> bool
    ensures { result ≡ kinds.is_word_byte b }
{
    matches!(b, b'_' | b'a'..=b'z' | b'A'..=b'Z' | b'0'..=b'9')
}

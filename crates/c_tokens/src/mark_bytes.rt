//! The bytes of marks.
#![tactic(auto)]

ghost use Rattle.std.specs.Prelude.{◌≡◌};
ghost use Rattle.c_tokens.specs.Lexemes as marks;

/// The mark with which a definition begins: it stands for the `#` of a `#define`, and for no byte of a file.
pub const DEFINITION_BYTE: u8 = 1;

/// A mark of one byte.
pub(crate) fn is_single(b: u8) -> bool
    ensures { result ≡ marks.is_single b }
{
    matches!(
        b,
        DEFINITION_BYTE
            | b'('
            | b')'
            | b'{'
            | b'}'
            | b';'
            | b','
            | b'='
            | b'<'
            | b'>'
            | b'+'
            | b'-'
            | b'*'
            | b'/'
            | b'%'
            | b'!'
    )
}

/// A mark of two bytes.
pub(crate) fn is_pair(b: u8, c: u8) -> bool
    ensures { result ≡ marks.is_pair b c }
{
    match b {
        b'=' | b'!' | b'<' | b'>' | b'*' | b'/' | b'%' => c == b'=',
        b'+' | b'-' => c == b'=' || c == b,
        b'&' | b'|' => c == b,
        _ => false,
    }
}

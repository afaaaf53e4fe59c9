//! Definitions of constants (ISO/IEC 9899:2011, 6.10.3): what may stand behind `#define`.
#![tactic(auto)]

ghost use Rattle.std.specs.Prelude.{◌≡◌, option_map};
ghost use Rattle.cpp_lines.specs.Definitions as specs;

use crate::bytes::{begins_with_gap, behind_gap, has_first, is, is_gap_only, split_word};
use c_tokens::{TokenKind, front};
use c_words::{begins_with_two_underscores, is_identifier, is_reserved};

/// An identifier that is no reserved word of code, and does not begin with two underscores: of such names C keeps those
/// that it predefines (ISO/IEC 9899:2011, 6.10.8).
fn is_definable(name: &[u8]) -> bool
    ensures { result ≡ specs.is_definable name.now }
{
    is_identifier(name)
        && !begins_with_two_underscores(name)
        && (!is_reserved(name) && !is(name, "int32_t"))
}

/// What stands behind this mark and the white space before it; none, where it does not stand there.
fn behind_mark(mark: u8, bytes: &[u8]) -> Option<&[u8]>
    ensures { option_map (λ rest. rest.now) result ≡ specs.behind_mark mark bytes.now }
{
    let at = behind_gap(bytes);
    if has_first(mark, at) {
        Some(at.split_at(1).1)
    } else {
        None
    }
}

/// What stands behind a number; none for another token.
fn behind_kind(kind: TokenKind, rest: &[u8]) -> Option<&[u8]>
    ensures { option_map (λ rest. rest.now) result ≡ specs.behind_kind kind rest.now }
{
    match kind {
        TokenKind::Number(_) => Some(rest),
        TokenKind::Word => None,
        TokenKind::Mark => None,
    }
}

/// What stands behind a number, as code has it, and the white space before it.
fn behind_number(bytes: &[u8]) -> Option<&[u8]>
    ensures { option_map (λ rest. rest.now) result ≡ specs.behind_number bytes.now }
{
    let at = behind_gap(bytes);
    match front(at) {
        Ok((kind, len)) => behind_kind(kind, at.split_at(len).1),
        Err(_) => None,
    }
}

/// What stands behind a number, or behind `-` and a number.
fn behind_signed(bytes: &[u8]) -> Option<&[u8]>
    ensures { option_map (λ rest. rest.now) result ≡ specs.behind_signed bytes.now }
{
    match behind_mark(b'-', bytes) {
        None => behind_number(bytes),
        Some(rest) => behind_number(rest),
    }
}

/// What stands behind a constant: a number, `-` and a number, or one of these in parentheses.
fn behind_constant(bytes: &[u8]) -> Option<&[u8]>
    ensures { option_map (λ rest. rest.now) result ≡ specs.behind_constant bytes.now }
{
    match behind_mark(b'(', bytes) {
        None => behind_signed(bytes),
        Some(inner) => match behind_signed(inner) {
            None => None,
            Some(rest) => behind_mark(b')', rest),
        },
    }
}

/// Whether this is a constant with nothing but white space behind it.
fn is_constant_text(bytes: &[u8]) -> bool
    ensures { result ≡ specs.is_constant_text bytes.now }
{
    match behind_constant(bytes) {
        None => false,
        Some(rest) => is_gap_only(rest),
    }
}

/// Whether this is a name, white space and a constant.
pub(crate) fn is_definition_text(bytes: &[u8]) -> bool
    ensures { result ≡ specs.is_definition_text bytes.now }
{
    let (name, rest) = split_word(behind_gap(bytes));
    is_definable(name) && (begins_with_gap(rest) && is_constant_text(rest))
}

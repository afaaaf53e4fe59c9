//! The longest lexeme at the front of a list of bytes, and its kind.
#![tactic(auto)]

ghost use Rattle.std.specs.Prelude.{◌≡◌, ◌∷◌, length, false, Option, Some, None, unwrap_or, Result, Ok, Err, IfOk, ◌<◌, ◌≤◌};
ghost use Rattle.c_tokens.specs.Lexemes.{IsLongest, is_mark, is_quoted, lexeme_of, literal_of};
ghost use Rattle.std.specs.List.{prefix_len};
ghost use Rattle.c_words.specs.Bytes.{is_word_byte as is_word};
ghost use Rattle.c_tokens.specs.Lexemes as lexemes;
ghost use Rattle.c_tokens.specs.Reading.{front_of};

use crate::characters::character;
use crate::mark_bytes::{is_pair, is_single};
use crate::token::TokenKind;
use c_words::{constant_value, goes_on, is_constant, is_digit, is_word_byte};
use fam_outer::{FileCode, cut};

/// The greatest `int`.
const MAX: u32 = 2_147_483_647;

/// How many bytes at the front are letters, digits and underscores.
fn word_len(bytes: &[u8]) -> usize
    ensures { result ≡ prefix_len is_word bytes.now }
{
    bytes.iter().take_while(|b| is_word_byte(**b)).count()
}

/// How many bytes at the front go on with a number, the first of them behind the given byte.
fn number_len(first: u8, behind: &[u8]) -> usize
    ensures value { result ≡ lexemes.number_len first behind.now }
    ensures fits { result ≤ length behind.now }
{
    let mut last = first;
    let mut len: usize = 0;
    let mut rest = behind;
    'bytes: while let Some((b, behind)) = cut(rest) {
        if !goes_on(last, b) {
            return len;
        }
        last = b;
        len += 1;
        rest = behind;
    }
    len
}

/// How many bytes there are up to the quote that closes a character constant; none where none does in this line.
fn close_len(bytes: &[u8]) -> Option<usize>
    ensures value { result ≡ lexemes.close_len false bytes.now }
    ensures fits { unwrap_or result 0 ≤ length bytes.now }
{
    let mut escaped = false;
    let mut len: usize = 0;
    let mut rest = bytes;
    'bytes: while let Some((b, behind)) = cut(rest) {
        len += 1;
        if b == b'\n' {
            return None;
        }
        if !escaped && b == b'\'' {
            return Some(len);
        }
        escaped = !escaped && b == b'\\';
        rest = behind;
    }
    None
}

/// The length of the longest mark at the front; 0 where there is none.
fn mark_len(bytes: &[u8]) -> usize
    ensures { IsLongest is_mark result bytes.now }
{
    match bytes {
        [] => 0,
        [b] => { if is_single(*b) { 1 } else { 0 } }
        [b, c, ..] => {
            if is_pair(*b, *c) {
                2
            } else if is_single(*b) {
                1
            } else {
                0
            }
        }
    }
}

/// The length of the longest lexeme at the front; 0 where there is none.
fn lexeme_len(bytes: &[u8]) -> usize
    ensures { result ≡ lexeme_of bytes.now }
{
    let Some((first, behind)) = cut(bytes) else {
        return 0;
    };
    if is_digit(first) {
        1 + number_len(first, behind)
    } else if is_word_byte(first) {
        word_len(bytes)
    } else if first == b'\'' {
        1 + close_len(behind).unwrap_or(0)
    } else {
        mark_len(bytes)
    }
}

/// The number that a literal writes, up to the greatest `int`: an integer constant without a suffix
/// (ISO/IEC 9899:2011, 6.4.4.1).
fn literal(word: &[u8]) -> Option<u32>
    ensures { result ≡ literal_of word.now }
{
    if is_constant(word) {
        constant_value(word, MAX)
    } else {
        None
    }
}

/// A number, or no kind.
fn number_kind(number: Option<u32>) -> Option<TokenKind>
    ensures { result ≡ lexemes.number_kind number }
{
    match number {
        Some(value) => Some(TokenKind::Number(value as i64)),
        None => None,
    }
}

/// The kind of a lexeme; none where it begins with a digit or a quote and is no literal and no character constant.
fn kind_of(lexeme: &[u8]) -> Option<TokenKind>
    ensures { result ≡ lexemes.kind_of lexeme.now }
{
    let b = *lexeme.first()?;
    if is_digit(b) {
        return number_kind(literal(lexeme));
    }
    if b == b'\'' {
        return number_kind(character(lexeme));
    }
    if is_word_byte(b) {
        return Some(TokenKind::Word);
    }
    Some(TokenKind::Mark)
}

/// The kind and the length of the longest lexeme at the front, or why no token stands there.
pub fn front(bytes: &[u8]) -> Result<(TokenKind, usize), FileCode>
    ensures value { result ≡ front_of bytes.now }
    ensures len { IfOk result (λ found. (0 < found.1) × (found.1 ≤ length bytes.now)) }
{
    let len = lexeme_len(bytes);
    if len == 0 {
        return Err(FileCode::StrayByte);
    }
    let (lexeme, _) = bytes.split_at(len);
    match kind_of(lexeme) {
        None => Err(FileCode::Literal),
        Some(kind) => Ok((kind, len)),
    }
}

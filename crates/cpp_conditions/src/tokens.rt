//! The tokens of conditions.
#![tactic(auto)]

ghost use Rattle.std.specs.Prelude.{◌≡◌, ◌≤◌, [], ◌∷◌, length, option_map};
ghost use Rattle.std.specs.List.{prefix_len};
ghost use Rattle.c_words.specs.Bytes as classes;
ghost use Rattle.cpp_conditions.specs.Tokens as kinds;
ghost use Rattle.cpp_conditions.specs.Scanning as scanning;
ghost use Rattle.cpp_conditions.specs.Scanning.{token, number_at, word_at, mark_at, lexeme_at, plainly, Scans};

use crate::expression_refusal::ExpressionRefusal;
use crate::integers::{goes_on_behind, is_integer};
use crate::operators::Operator;
use c_words::{is_alphanumeric, is_digit, is_gap, is_nondigit, is_word_byte};
use fam_outer::cut;
use std::alloc::Global;

/// A token: a number or a name with its bytes, `defined`, a parenthesis, `!`, another operator, or `++` or `--`.
#[derive(Clone, Copy, Debug)]
pub(crate) enum Token<'a> {
    Digits(&'a [u8]),
    Word(&'a [u8]),
    Defined,
    Open,
    Close,
    Bang,
    Oper(Operator),
    Twice,
}

/// A mark of two bytes.
fn pair<'a>(first: u8, second: u8) -> Option<Token<'a>>
    ensures { option_map token result ≡ kinds.pair_of first second }
{
    match (first, second) {
        (b'&', b'&') => Some(Token::Oper(Operator::Both)),
        (b'|', b'|') => Some(Token::Oper(Operator::Either)),
        (b'=', b'=') => Some(Token::Oper(Operator::Equal)),
        (b'!', b'=') => Some(Token::Oper(Operator::Differs)),
        (b'<', b'=') => Some(Token::Oper(Operator::AtMost)),
        (b'>', b'=') => Some(Token::Oper(Operator::AtLeast)),
        (b'+', b'+') | (b'-', b'-') => Some(Token::Twice),
        _ => None,
    }
}

/// A mark of one byte.
fn single<'a>(byte: u8) -> Option<Token<'a>>
    ensures { option_map token result ≡ kinds.single_of byte }
{
    match byte {
        b'(' => Some(Token::Open),
        b')' => Some(Token::Close),
        b'!' => Some(Token::Bang),
        b'<' => Some(Token::Oper(Operator::Less)),
        b'>' => Some(Token::Oper(Operator::Greater)),
        b'+' => Some(Token::Oper(Operator::Plus)),
        b'-' => Some(Token::Oper(Operator::Minus)),
        b'*' => Some(Token::Oper(Operator::Times)),
        _ => None,
    }
}

/// How many bytes at the front are letters and digits.
fn alphanumeric_len(bytes: &[u8]) -> usize
    ensures value { result ≡ prefix_len classes.is_alphanumeric bytes.now }
    ensures fits { result ≤ length bytes.now }
{
    bytes.iter().take_while(|b| is_alphanumeric(**b)).count()
}

/// How many bytes at the front are letters, underscores and digits.
fn word_len(bytes: &[u8]) -> usize
    ensures value { result ≡ prefix_len classes.is_word_byte bytes.now }
    ensures fits { result ≤ length bytes.now }
{
    bytes.iter().take_while(|b| is_word_byte(**b)).count()
}

/// Whether these letters and digits are an integer constant with which no sign behind them goes on.
fn is_whole(word: &[u8], rest: &[u8]) -> bool
    ensures { result ≡ scanning.is_whole word.now rest.now }
{
    is_integer(word) && !goes_on_behind(word, rest)
}

/// The number of all digits and letters at the front, and what is behind it; none where they are no integer constant, or
/// a sign goes on with them.
fn number(bytes: &[u8]) -> Option<(Token<'_>, &[u8])>
    ensures { plainly result ≡ number_at bytes.now }
{
    let (digits, behind) = bytes.split_at(alphanumeric_len(bytes));
    if is_whole(digits, behind) {
        Some((Token::Digits(digits), behind))
    } else {
        None
    }
}

/// A name, or `defined`.
fn word_token(name: &[u8]) -> Token<'_>
    ensures { token result ≡ kinds.word_token name.now }
{
    if name == b"defined".as_slice() {
        Token::Defined
    } else {
        Token::Word(name)
    }
}

/// The word at the front, and what is behind it.
fn word(bytes: &[u8]) -> Option<(Token<'_>, &[u8])>
    ensures { plainly result ≡ word_at bytes.now }
{
    let (name, behind) = bytes.split_at(word_len(bytes));
    Some((word_token(name), behind))
}

/// The longest mark of a byte and those behind it, and what is behind the mark.
fn mark(first: u8, behind: &[u8]) -> Option<(Token<'_>, &[u8])>
    ensures { plainly result ≡ mark_at first behind.now }
{
    if let Some((second, after)) = cut(behind) {
        if let Some(token) = pair(first, second) {
            return Some((token, after));
        }
    }
    match single(first) {
        Some(token) => Some((token, behind)),
        None => None,
    }
}

/// The token that begins with the first of these bytes, which has the others behind it, and what is behind the token.
fn lexeme<'a>(bytes: &'a [u8], first: u8, behind: &'a [u8]) -> Option<(Token<'a>, &'a [u8])>
    requires { bytes.now ≡ first ∷ behind.now }
    ensures { plainly result ≡ lexeme_at first behind.now }
{
    if is_digit(first) {
        number(bytes)
    } else if is_nondigit(first) {
        word(bytes)
    } else {
        mark(first, behind)
    }
}

/// The tokens of the bytes. It answers `Wrong` where a byte begins no token, or a run of digits and letters is no
/// integer constant.
pub(crate) fn scan(alloc: Global, bytes: &[u8]) -> Result<Vec<Token<'_>>, ExpressionRefusal>
    ensures { Scans result bytes.now }
{
    let mut list = Vec::new(alloc);
    let mut rest = bytes;
    'scan: while let Some((first, behind)) = cut(rest) {
        if is_gap(first) {
            rest = behind;
            continue;
        }
        let Some((token, after)) = lexeme(rest, first, behind) else {
            return Err(ExpressionRefusal::Wrong);
        };
        list.push(token)?;
        rest = after;
    }
    Ok(list)
}

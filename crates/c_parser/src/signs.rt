//! The signs of words and marks.
#![tactic(auto)]

ghost use Rattle.std.specs.Prelude.{◌≡◌, map};
ghost use Rattle.std.specs.Str.{bytes_eq};
ghost use Rattle.c_parser.specs.Signs as tables;

use c_grammar::Sign;
use c_tree::Op;
use c_words::is_keyword;

/// The keywords that the subset uses, and the words that it reserves besides.
const USED_WORDS: [(&str, Sign); 19] = [
    ("static", Sign::Static),
    ("const", Sign::Const),
    ("int", Sign::Int),
    ("int32_t", Sign::Int32),
    ("signed", Sign::Signed),
    ("extern", Sign::Extern),
    ("input", Sign::Input),
    ("void", Sign::Void),
    ("main", Sign::Main),
    ("return", Sign::Return),
    ("assert", Sign::Assert),
    ("if", Sign::If),
    ("else", Sign::Else),
    ("while", Sign::While),
    ("for", Sign::For),
    ("do", Sign::Do),
    ("break", Sign::Break),
    ("continue", Sign::Continue),
    ("enum", Sign::Enum),
];

/// The marks. The byte 1 stands for `#define`.
const MARKS: [(&str, Sign); 29] = [
    ("(", Sign::Open),
    (")", Sign::Close),
    ("{", Sign::LeftBrace),
    ("}", Sign::RightBrace),
    (";", Sign::Semicolon),
    (",", Sign::Comma),
    ("=", Sign::Equals),
    ("!", Sign::Bang),
    ("+", Sign::Oper(Op::Add)),
    ("-", Sign::Oper(Op::Sub)),
    ("*", Sign::Oper(Op::Mul)),
    ("/", Sign::Oper(Op::Div)),
    ("%", Sign::Oper(Op::Rem)),
    ("<", Sign::Oper(Op::Lt)),
    (">", Sign::Oper(Op::Gt)),
    ("<=", Sign::Oper(Op::Le)),
    (">=", Sign::Oper(Op::Ge)),
    ("==", Sign::Oper(Op::Eq)),
    ("!=", Sign::Oper(Op::Ne)),
    ("&&", Sign::Oper(Op::And)),
    ("||", Sign::Oper(Op::Or)),
    ("++", Sign::PlusPlus),
    ("--", Sign::MinusMinus),
    ("+=", Sign::PlusEquals),
    ("-=", Sign::MinusEquals),
    ("*=", Sign::StarEquals),
    ("/=", Sign::SlashEquals),
    ("%=", Sign::PercentEquals),
    ("\u{1}", Sign::Define),
];

/// Whether the lexeme is this text.
fn is(lexeme: &[u8], text: &str) -> bool
    ensures { result ≡ bytes_eq lexeme.now text.now }
{
    lexeme == text.as_bytes()
}

/// The sign that a table gives a lexeme.
fn sign_in(table: &[(&str, Sign)], lexeme: &[u8]) -> Option<Sign>
    ensures { result ≡ tables.sign_in (map (λ entry. (entry.0.now, entry.1)) table.now) lexeme.now }
{
    for (text, sign) in table {
        if is(lexeme, *text) {
            return Some(*sign);
        }
    }
    None
}

/// The sign of a reserved word; none for an identifier.
pub(crate) fn keyword(word: &[u8]) -> Option<Sign>
    ensures { result ≡ tables.keyword_of word.now }
{
    match sign_in(&USED_WORDS, word) {
        Some(sign) => Some(sign),
        None => is_keyword(word).then_some(Sign::Reserved),
    }
}

/// The sign of a mark; `Reserved` where it is none.
pub(crate) fn mark(lexeme: &[u8]) -> Sign
    ensures { result ≡ tables.mark_of lexeme.now }
{
    match sign_in(&MARKS, lexeme) {
        Some(sign) => sign,
        None => Sign::Reserved,
    }
}

//! Tokens, and lists of them.
#![tactic(auto)]

ghost use Rattle.std.specs.Prelude.{◌≡◌};

use fam_outer::Place;
use std::marker::Model;

/// The kind of a token: an identifier or keyword, a number, or a mark.
#[derive(Clone, Copy, Debug, PartialEq, Eq)]
pub enum TokenKind {
    Word,
    Number(i64),
    Mark,
}

/// A token. Its text is the slice of the source from `start` to before `end`, and `place` is that of its first byte.
#[derive(Clone, Copy, Debug, PartialEq, Eq)]
pub struct Token {
    pub kind: TokenKind,
    pub place: Place,
    pub start: u32,
    pub end: u32,
}

/// A list of tokens.
#[derive(Debug, Drop)]
pub struct Tokens {
    list: Vec<Token>,
}

impl Model for Tokens {
    ghost use Rattle.std.specs.Prelude.{List};
    ghost use Rattle.c_tokens.specs.declared.token.Token.{Token};

    ghost Value = { List Token };

    ghost view = { λ tokens. tokens.list.items };
}

impl Tokens {
    /// These tokens.
    pub fn from_vec(list: Vec<Token>) -> Tokens
        ensures { result ≡ list.items }
    {
        Tokens { list }
    }

    /// The tokens.
    pub fn items(&self) -> &[Token]
        ensures { result.now ≡ self.now }
    {
        self.list.as_slice()
    }
}

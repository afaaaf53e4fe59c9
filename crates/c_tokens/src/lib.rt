//! Tokens of code by longest match (ISO/IEC 9899:2011, 6.4, paragraph 4).
#![tactic(auto)]

mod characters;
pub mod laws;
pub mod lexemes;
pub mod mark_bytes;
#[cfg(test)]
mod number_tests;
pub mod scanner;
pub mod token;

pub use lexemes::front;
pub use mark_bytes::DEFINITION_BYTE;
pub use scanner::tokens;
pub use token::{Token, TokenKind, Tokens};

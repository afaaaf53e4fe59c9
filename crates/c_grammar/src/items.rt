//! Items: what the grammar of C files sees of a token or a group directive.
#![tactic(auto)]

use c_tree::Op;
use fam_outer::Place;

/// What the grammar sees of an item: a number, the number of a name in a list of names, the number of a function outside in a
/// list of functions, a word that the grammar uses (`Int32` is `int32_t`), another reserved word, a mark that is no binary
/// operator, a binary operator, what begins a definition (`#define`), or a group directive with the number of its condition.
/// `#ifdef` and `#ifndef` are `GroupIf`. A reserved word stands nowhere in a file.
#[derive(Clone, Copy, Debug, PartialEq, Eq)]
pub enum Sign {
    Number(i64),
    Name(u32),
    Function(u32),
    Static,
    Const,
    Enum,
    Int,
    Int32,
    Signed,
    Extern,
    Input,
    Void,
    Main,
    Return,
    Break,
    Continue,
    Assert,
    If,
    Else,
    While,
    For,
    Do,
    Reserved,
    Open,
    Close,
    LeftBrace,
    RightBrace,
    Semicolon,
    Comma,
    Equals,
    Bang,
    PlusPlus,
    MinusMinus,
    PlusEquals,
    MinusEquals,
    StarEquals,
    SlashEquals,
    PercentEquals,
    Oper(Op),
    Define,
    GroupIf(u32),
    GroupElif(u32),
    GroupElse,
    GroupEnd,
}

/// A sign and its place.
#[derive(Clone, Copy, Debug, PartialEq, Eq)]
pub struct Item {
    pub place: Place,
    pub sign: Sign,
}

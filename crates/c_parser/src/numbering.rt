//! The items of tokens, with the functions numbered in a list of them and the names by their first occurrence.
#![tactic(auto)]

ghost use Rattle.std.specs.Prelude.{◌≡◌, ◌+◌, ◌≤◌, ◌<◌, ◌^◌, length, IfOk};
ghost use Rattle.c_parser.specs.Items as specs;
ghost use Rattle.c_parser.specs.Signing.{HasSign, HasName, AreWithin, AreListed, IsListed};

use crate::order::has_name;
use crate::signs::{keyword, mark};
use c_grammar::{Item, Sign};
use c_tokens::{Token, TokenKind};
use c_tree::Names;
use fam_outer::{NoMemory, Text, cut};
use indexmap::IndexSet;
use std::alloc::Global;

/// The names in the order of their first occurrence, and the items.
#[derive(Drop)]
pub(crate) struct Numbered {
    pub names: Names,
    pub items: Vec<Item>,
}

/// The number of a function; their count where there is none of this name.
fn function_number(functions: &[Text], name: &Text) -> usize
    ensures value { result ≡ specs.number_in functions.now name.now }
    ensures within { result ≤ length functions.now }
{
    functions
        .iter()
        .take_while(|function| !(*name == **function))
        .count()
}

/// The sign of an identifier: the number of a function, or that of a name, which is added to the names where it is new.
fn identifier(
    alloc: Global,
    functions: &[Text],
    names: &mut IndexSet<Text>,
    name: &[u8],
) -> Result<Sign, NoMemory>
    requires few { length names.old.keys < 2 ^ 31 }
    requires functions { length functions.now < 2 ^ 31 }
    ensures { IfOk result (λ sign. HasName functions.now names.old.keys name.now names.new.keys sign) }
{
    let text = Text::from_bytes(alloc, name)?;
    if has_name(functions, &text) {
        return Ok(Sign::Function(function_number(functions, &text) as u32));
    }
    let (number, _) = names.insert_full(text)?;
    Ok(Sign::Name(number as u32))
}

/// The sign of a token with this kind and text.
fn sign(
    alloc: Global,
    functions: &[Text],
    names: &mut IndexSet<Text>,
    kind: TokenKind,
    lexeme: &[u8],
) -> Result<Sign, NoMemory>
    requires few { length names.old.keys < 2 ^ 31 }
    requires functions { length functions.now < 2 ^ 31 }
    ensures { IfOk result (λ sign. HasSign functions.now names.old.keys kind lexeme.now names.new.keys sign) }
{
    match kind {
        TokenKind::Number(n) => Ok(Sign::Number(n)),
        TokenKind::Mark => Ok(mark(lexeme)),
        TokenKind::Word => match keyword(lexeme) {
            Some(sign) => Ok(sign),
            None => identifier(alloc, functions, names, lexeme),
        },
    }
}

/// The items of the tokens of a text, behind these names, which grow by those of the tokens.
fn items(
    alloc: Global,
    functions: &[Text],
    names: &mut IndexSet<Text>,
    bytes: &[u8],
    tokens: &[Token],
) -> Result<Vec<Item>, NoMemory>
    requires within { AreWithin (length bytes.now) tokens.now }
    requires few { length names.old.keys + length tokens.now < 2 ^ 31 }
    requires functions { length functions.now < 2 ^ 31 }
    ensures { IfOk result (λ list. AreListed functions.now names.old.keys bytes.now tokens.now names.new.keys list.items) }
{
    let mut items = Vec::new(alloc);
    let mut rest = tokens;
    'scan: while let Some((token, behind)) = cut(rest) {
        let lexeme = &bytes[token.start as usize..token.end as usize];
        let sign = sign(alloc, functions, names, token.kind, lexeme)?;
        items.push(Item {
            place: token.place,
            sign,
        })?;
        rest = behind;
    }
    Ok(items)
}

/// A set of these names, which are distinct.
fn set_of(alloc: Global, given: &[Text]) -> Result<IndexSet<Text>, NoMemory>
    requires { specs.AreDistinct given.now }
    ensures { IfOk result (λ set. set.keys ≡ given.now) }
{
    let mut names = IndexSet::new(alloc);
    for name in given {
        let _new = names.insert(name.copy(alloc)?)?;
    }
    Ok(names)
}

/// The names of a set.
pub(crate) fn names_of(alloc: Global, set: &IndexSet<Text>) -> Result<Names, NoMemory>
    ensures { IfOk result (λ names. names ≡ set.now.keys) }
{
    let mut list = Vec::new(alloc);
    for name in set.as_slice() {
        list.push(name.copy(alloc)?)?;
    }
    Ok(Names::from_vec(list))
}

/// The names and the items of the tokens of a text over these functions, behind given names.
pub(crate) fn number(
    alloc: Global,
    functions: &[Text],
    given: &[Text],
    bytes: &[u8],
    tokens: &[Token],
) -> Result<Numbered, NoMemory>
    requires distinct { specs.AreDistinct given.now }
    requires within { AreWithin (length bytes.now) tokens.now }
    requires few { length given.now + length tokens.now < 2 ^ 31 }
    requires functions { length functions.now < 2 ^ 31 }
    ensures { IfOk result (λ made. IsListed (specs.listed functions.now given.now bytes.now tokens.now) made) }
{
    let mut names = set_of(alloc, given)?;
    let items = items(alloc, functions, &mut names, bytes, tokens)?;
    Ok(Numbered {
        names: names_of(alloc, &names)?,
        items,
    })
}

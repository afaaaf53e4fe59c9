//! The functions outside that the tokens of a text declare.
#![tactic(auto)]

ghost use Rattle.std.specs.Prelude.{◌≡◌, ◌≤◌, length, IfOk, OnOk};
ghost use Rattle.c_parser.specs.Functions as specs;
ghost use Rattle.c_parser.specs.Items.{lexeme_in};
ghost use Rattle.c_parser.specs.Signing.{AreWithin, IsWithin};

use crate::numbering::names_of;
use crate::signs::{keyword, mark};
use c_grammar::Sign;
use c_tokens::laws::{literals_are_numbers, reads_longest_lexemes};
use c_tokens::{Token, TokenKind, tokens};
use c_tree::Names;
use cpp_lines::laws::places_stay;
use cpp_lines::{blanked_file, code_text};
use fam_outer::{FILE_BYTES, FileRefusal, NoMemory, Text, cut, places_rise};
use indexmap::IndexSet;
use std::alloc::Global;

/// Whether the keyword begins or ends the type of a function.
fn is_type(keyword: Option<Sign>) -> bool
    ensures { result ≡ specs.is_type keyword }
{
    match keyword {
        Some(Sign::Int) => true,
        Some(Sign::Int32) => true,
        Some(Sign::Signed) => true,
        Some(Sign::Void) => true,
        _ => false,
    }
}

/// Whether the token is the word of a type.
fn is_type_token(kind: TokenKind, lexeme: &[u8]) -> bool
    ensures { result ≡ specs.is_type_token kind lexeme.now }
{
    match kind {
        TokenKind::Word => is_type(keyword(lexeme)),
        TokenKind::Number(_) => false,
        TokenKind::Mark => false,
    }
}

/// Whether the token is a word that is no keyword.
fn is_name_token(kind: TokenKind, lexeme: &[u8]) -> bool
    ensures { result ≡ specs.is_name_token kind lexeme.now }
{
    match kind {
        TokenKind::Word => keyword(lexeme).is_none(),
        TokenKind::Number(_) => false,
        TokenKind::Mark => false,
    }
}

/// Whether the token is the mark `(`.
fn is_opening_token(kind: TokenKind, lexeme: &[u8]) -> bool
    ensures { result ≡ specs.is_opening_token kind lexeme.now }
{
    match kind {
        TokenKind::Mark => matches!(mark(lexeme), Sign::Open),
        TokenKind::Number(_) => false,
        TokenKind::Word => false,
    }
}

/// The bytes of a token.
fn lexeme(bytes: &[u8], token: Token) -> &[u8]
    requires { IsWithin (length bytes.now) token }
    ensures { result.now ≡ lexeme_in bytes.now token }
{
    &bytes[token.start as usize..token.end as usize]
}

/// Whether the tokens begin with the mark `(`.
fn do_open(bytes: &[u8], tokens: &[Token]) -> bool
    requires { AreWithin (length bytes.now) tokens.now }
    ensures { result ≡ specs.do_open bytes.now tokens.now }
{
    match cut(tokens) {
        Some((token, _behind)) => is_opening_token(token.kind, lexeme(bytes, token)),
        None => false,
    }
}

/// Adds the name that the tokens begin with, if it is a function's behind the word of a type.
fn add_named(
    alloc: Global,
    functions: &mut IndexSet<Text>,
    bytes: &[u8],
    tokens: &[Token],
) -> Result<(), NoMemory>
    requires { AreWithin (length bytes.now) tokens.now }
    ensures { OnOk result (functions.new.keys ≡ specs.with_named bytes.now functions.old.keys tokens.now) }
{
    match cut(tokens) {
        Some((token, behind)) => {
            let name = lexeme(bytes, token);
            if is_name_token(token.kind, name) && do_open(bytes, behind) {
                let _new = functions.insert(Text::from_bytes(alloc, name)?)?;
            }
            Ok(())
        }
        None => Ok(()),
    }
}

/// Adds the function that the token and those behind it declare, if they do.
fn add_function(
    alloc: Global,
    functions: &mut IndexSet<Text>,
    bytes: &[u8],
    token: Token,
    behind: &[Token],
) -> Result<(), NoMemory>
    requires token { IsWithin (length bytes.now) token }
    requires behind { AreWithin (length bytes.now) behind.now }
    ensures { OnOk result (functions.new.keys
        ≡ specs.with_function bytes.now functions.old.keys token behind.now) }
{
    if is_type_token(token.kind, lexeme(bytes, token)) {
        add_named(alloc, functions, bytes, behind)?;
    }
    Ok(())
}

/// The functions that tokens declare, in the order of their first declaration.
fn functions_in(alloc: Global, bytes: &[u8], tokens: &[Token]) -> Result<Names, NoMemory>
    requires { AreWithin (length bytes.now) tokens.now }
    ensures { IfOk result (λ names. names ≡ specs.functions_in bytes.now tokens.now) }
{
    let mut functions: IndexSet<Text> = IndexSet::new(alloc);
    let mut rest = tokens;
    'scan: while let Some((token, behind)) = cut(rest) {
        add_function(alloc, &mut functions, bytes, token, behind)?;
        rest = behind;
    }
    names_of(alloc, &functions)
}

/// The functions over which code is read as a file's own: those that it declares, or none where a token has a fault.
#[tactic(auto, unfolding(crate::specs::Functions::functions_of_code))]
pub(crate) fn own_functions(alloc: Global, code: &[u8]) -> Result<Names, NoMemory>
    requires { length code.now ≤ FILE_BYTES }
    ensures functions { IfOk result (λ names. names ≡ specs.own_functions code.now) }
    ensures few { IfOk result (λ names. length names ≤ FILE_BYTES) }
{
    reads_longest_lexemes();
    literals_are_numbers();
    places_rise();
    match tokens(alloc, code) {
        Ok(list) => functions_in(alloc, code, list.items()),
        Err(FileRefusal::Fault { .. }) => Ok(Names::from_vec(Vec::new(alloc))),
        Err(FileRefusal::NoMemory) => Err(NoMemory),
    }
}

/// The functions outside that a file declares, over which the texts of its variants are read; none where its length or a
/// comment has a fault.
pub fn functions_of(alloc: Global, bytes: &[u8]) -> Result<Names, NoMemory>
    ensures functions { IfOk result (λ names. names ≡ specs.functions_of_bytes bytes.now) }
    ensures few { IfOk result (λ names. length names ≤ FILE_BYTES) }
{
    places_stay();
    match blanked_file(alloc, bytes) {
        Ok(blanked) => {
            let code = code_text(alloc, blanked.bytes())?;
            own_functions(alloc, code.bytes())
        }
        Err(FileRefusal::Fault { .. }) => Ok(Names::from_vec(Vec::new(alloc))),
        Err(FileRefusal::NoMemory) => Err(NoMemory),
    }
}

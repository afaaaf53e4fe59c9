//! Where a statement ends: what stands behind it.
#![tactic(auto, unfolding(crate::specs::Blocks::behind_closing, crate::specs::Blocks::behind_semicolon, crate::specs::Blocks::behind_statement))]

ghost use Rattle.std.specs.Prelude.{◌≡◌, ◌<◌, MatchOption, List};
ghost use Rattle.c_grammar.specs.declared.items.Item.{Item};
ghost use Rattle.c_grammar.specs.Scopes.{inner_behind};
ghost use Rattle.for_blocks.specs.Blocks as blocks;

use c_grammar::{Item, Sign};
use fam_outer::slices::cut;

/// How many parentheses are open in an outer one behind a sign, where so many are before it; none where the outer one is closed.
fn parentheses_behind(depth: usize, sign: Sign) -> Option<usize>
    requires { depth < usize.MAX }
    ensures { result ≡ blocks.parentheses_behind depth sign }
{
    match sign {
        Sign::Open => Some(depth + 1),
        Sign::Close => depth.checked_sub(1),
        _ => Some(depth),
    }
}

/// How many braces are open in an outer one behind a sign, where so many are before it; none where the outer one is closed.
fn braces_behind(depth: usize, sign: Sign) -> Option<usize>
    requires { depth < usize.MAX }
    ensures { result ≡ inner_behind depth sign }
{
    match sign {
        Sign::LeftBrace => Some(depth + 1),
        Sign::RightBrace => depth.checked_sub(1),
        _ => Some(depth),
    }
}

/// What stands behind the parenthesis that closes an outer one.
fn behind_closing_parenthesis(items: &[Item]) -> &[Item]
    ensures { result.now ≡ blocks.behind_closing blocks.parentheses_behind 0 items.now }
{
    let mut depth = 0;
    let mut rest = items;
    'items: while let Some((item, behind)) = cut(rest) {
        rest = behind;
        match parentheses_behind(depth, item.sign) {
            None => return rest,
            Some(inner) => depth = inner,
        }
    }
    rest
}

/// What stands behind the brace that closes an outer one.
fn behind_closing_brace(items: &[Item]) -> &[Item]
    ensures { result.now ≡ blocks.behind_closing inner_behind 0 items.now }
{
    let mut depth = 0;
    let mut rest = items;
    'items: while let Some((item, behind)) = cut(rest) {
        rest = behind;
        match braces_behind(depth, item.sign) {
            None => return rest,
            Some(inner) => depth = inner,
        }
    }
    rest
}

/// What stands behind the parentheses that come next.
fn behind_parentheses(items: &[Item]) -> &[Item]
    ensures { result.now ≡ blocks.behind_parentheses items.now }
{
    match cut(items) {
        None => items,
        Some((_first, rest)) => behind_closing_parenthesis(rest),
    }
}

/// Whether the sign is a semicolon.
pub(crate) fn is_semicolon(sign: Sign) -> bool
    ensures { result ≡ blocks.is_semicolon sign }
{
    matches!(sign, Sign::Semicolon)
}

/// What stands behind the next semicolon.
fn behind_semicolon(items: &[Item]) -> &[Item]
    ensures { result.now ≡ blocks.behind_semicolon items.now }
{
    let mut rest = items;
    'items: while let Some((item, behind)) = cut(rest) {
        rest = behind;
        if is_semicolon(item.sign) {
            return rest;
        }
    }
    rest
}

/// Whether the sign is `else`.
fn is_else(sign: Sign) -> bool
    ensures { result ≡ blocks.is_else sign }
{
    matches!(sign, Sign::Else)
}

/// What stands behind an `else` that comes next.
fn behind_else(items: &[Item]) -> Option<&[Item]>
    ensures { MatchOption result ((go : List Item → List Item) → blocks.behind_else go items.now ≡ items.now)
        (λ rest. (go : List Item → List Item) → blocks.behind_else go items.now ≡ go rest.now) }
{
    match cut(items) {
        Some((first, rest)) if is_else(first.sign) => Some(rest),
        _ => None,
    }
}

/// What stands behind the statement that these items begin with, in which less than so many stand in one another.
pub(crate) fn behind_statement(room: u32, items: &[Item]) -> &[Item]
    ensures { result.now ≡ blocks.behind_statement room items.now }
{
    if room == 0 {
        return items;
    }
    let Some((first, rest)) = cut(items) else {
        return items;
    };
    match first.sign {
        Sign::If => {
            let behind = behind_statement(room - 1, behind_parentheses(rest));
            match behind_else(behind) {
                None => behind,
                Some(other) => behind_statement(room - 1, other),
            }
        }
        Sign::While | Sign::For => behind_statement(room - 1, behind_parentheses(rest)),
        Sign::Do => behind_semicolon(behind_statement(room - 1, rest)),
        Sign::LeftBrace => behind_closing_brace(rest),
        Sign::Semicolon => rest,
        _ => behind_semicolon(rest),
    }
}

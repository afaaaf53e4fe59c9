//! The items of a file, with a block for each `for` that declares variables.
#![tactic(auto)]

ghost use Rattle.std.specs.Prelude.{◌≡◌, ◌∷◌, ◌++◌, [], reverse, slice_get, IfOk, OnOk};
ghost use Rattle.c_grammar.specs.declared.items.Sign.TheVariants as signs;
ghost use Rattle.c_grammar.specs.Items.{at};
ghost use Rattle.for_blocks.specs.Blocks as blocks;

use crate::statement_ends::{behind_statement, is_semicolon};
use c_grammar::{Item, Sign};
use fam_outer::slices::cut;
use fam_outer::{NoMemory, Place};
use std::alloc::Global;

/// Where an item stands: before the parenthesis, or in the declaration, of a `for` at this place that declares variables; or in neither.
#[derive(Clone, Copy, Debug, PartialEq, Eq)]
enum Part {
    Elsewhere,
    AtParenthesis(Place),
    InDeclaration(Place),
}

/// The end of a block: how many items are left behind its statement, and its place.
#[derive(Clone, Copy, Debug, PartialEq, Eq)]
struct End {
    left: usize,
    place: Place,
}

/// More than stand in one another: the constructs of a file do so at most 64 deep.
const ROOM: u32 = 65;

/// Whether the sign is the first word of a declaration in a `for`.
fn begins_type(sign: Sign) -> bool
    ensures { result ≡ blocks.begins_type sign }
{
    matches!(sign, Sign::Const | Sign::Int | Sign::Int32 | Sign::Signed)
}

/// Whether the sign begins a `for`.
fn is_for(sign: Sign) -> bool
    ensures { result ≡ blocks.is_for sign }
{
    matches!(sign, Sign::For)
}

/// Whether the sign is an opening parenthesis.
fn is_opening(sign: Sign) -> bool
    ensures { result ≡ blocks.is_opening sign }
{
    matches!(sign, Sign::Open)
}

/// Whether an item with what follows it begins a `for` that declares variables.
fn declares(item: Item, rest: &[Item]) -> bool
    ensures { result ≡ blocks.declares item rest.now }
{
    let Some((second, behind)) = cut(rest) else {
        return false;
    };
    match cut(behind) {
        None => false,
        Some((third, _rest)) => {
            is_for(item.sign) && is_opening(second.sign) && begins_type(third.sign)
        }
    }
}

/// Adds the beginning of the loop that stands in a block behind its declaration.
fn add_loop(made: &mut Vec<Item>, place: Place) -> Result<(), NoMemory>
    ensures { OnOk result (made.new.items ≡ made.old.items ++ at place signs.For ∷ at place signs.Open ∷ at place signs.Semicolon ∷ []) }
{
    made.push(Item {
        place,
        sign: Sign::For,
    })?;
    made.push(Item {
        place,
        sign: Sign::Open,
    })?;
    made.push(Item {
        place,
        sign: Sign::Semicolon,
    })?;
    Ok(())
}

/// Adds what an item becomes, where these follow it.
fn add_in_block(made: &mut Vec<Item>, part: Part, item: Item, rest: &[Item]) -> Result<(), NoMemory>
    ensures { OnOk result (made.new.items ≡ made.old.items ++ blocks.in_block part item rest.now) }
{
    match part {
        Part::Elsewhere => {
            let begins_block = declares(item, rest);
            let sign = if begins_block {
                Sign::LeftBrace
            } else {
                item.sign
            };
            made.push(Item { sign, ..item })?;
        }
        Part::AtParenthesis(_place) => {}
        Part::InDeclaration(place) => {
            made.push(item)?;
            if is_semicolon(item.sign) {
                add_loop(made, place)?;
            }
        }
    }
    Ok(())
}

/// Where the next item stands.
fn part_behind(part: Part, item: Item, rest: &[Item]) -> Part
    ensures { result ≡ blocks.part_behind part item rest.now }
{
    match part {
        Part::Elsewhere if declares(item, rest) => Part::AtParenthesis(item.place),
        Part::Elsewhere => Part::Elsewhere,
        Part::AtParenthesis(place) => Part::InDeclaration(place),
        Part::InDeclaration(_place) if is_semicolon(item.sign) => Part::Elsewhere,
        Part::InDeclaration(place) => Part::InDeclaration(place),
    }
}

/// The end of the innermost block that is open.
fn innermost(ends: &[End]) -> Option<End>
    ensures { result ≡ slice_get (reverse ends.now) 0 }
{
    ends.last().copied()
}

/// Adds the end of the block that begins with these items, where one begins there.
fn add_end(
    ends: &mut Vec<End>,
    part: Part,
    items: &[Item],
    item: Item,
    rest: &[Item],
) -> Result<(), NoMemory>
    requires { items.now ≡ item ∷ rest.now }
    ensures { OnOk result (reverse ends.new.items ≡ blocks.ends_behind part (reverse ends.old.items) item rest.now) }
{
    match part {
        Part::Elsewhere if declares(item, rest) => {
            let left = behind_statement(ROOM, items).len();
            ends.push(End {
                left,
                place: item.place,
            })?;
        }
        _ => {}
    }
    Ok(())
}

/// Closes the blocks that end where so many items are left, the innermost first.
fn close_blocks(made: &mut Vec<Item>, ends: &mut Vec<End>, left: usize) -> Result<(), NoMemory>
    ensures made { OnOk result (made.new.items ≡ made.old.items ++ blocks.closing left (reverse ends.old.items)) }
    ensures ends { OnOk result (reverse ends.new.items ≡ blocks.still_open left (reverse ends.old.items)) }
{
    'ends: while let Some(end) = innermost(ends) {
        if end.left != left {
            return Ok(());
        }
        ends.pop();
        made.push(Item {
            place: end.place,
            sign: Sign::RightBrace,
        })?;
    }
    Ok(())
}

/// The items, with a block for each `for` that declares variables. It answers an error only for want of memory.
pub fn unfolded(alloc: Global, items: &[Item]) -> Result<Vec<Item>, NoMemory>
    ensures { IfOk result (λ made. made.items ≡ blocks.unfolded items.now) }
{
    let mut made = Vec::new(alloc);
    let mut ends = Vec::new(alloc);
    let mut part = Part::Elsewhere;
    let mut rest = items;
    'items: while let Some((item, behind)) = cut(rest) {
        close_blocks(&mut made, &mut ends, rest.len())?;
        add_end(&mut ends, part, rest, item, behind)?;
        add_in_block(&mut made, part, item, behind)?;
        part = part_behind(part, item, behind);
        rest = behind;
    }
    Ok(made)
}

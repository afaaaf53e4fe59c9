//! The program that the items of a file spell, with or without groups.
#![tactic(auto)]

ghost use Rattle.std.specs.Prelude.{◌≡◌, ◌≤◌, length, slice_get, IfOk};
ghost use Rattle.fam_outer.specs.Places as outer;
ghost use Rattle.fam_outer.specs.declared.faults.FileRefusal.TheVariants as refusals;
ghost use Rattle.c_tree.specs.View.{whole};
ghost use Rattle.c_tree.specs.Whole.{IsProgram};
ghost use Rattle.c_grammar.specs.Facts.{AreFit, AreRising};
ghost use Rattle.c_parser.specs.Phases as phases;
ghost use Rattle.c_parser.specs.Stages.{IsSpelledAs};

use c_grammar::{Item, Sign};
use c_tree::{Names, Program};
use cpp_lines::end_place;
use fam_outer::{FILE_BYTES, FileCode, FileRefusal, Place};
use item_reader::{Unread, UnreadRefusal, read_items};
use std::alloc::Global;

/// A fault at a place.
pub(crate) fn refused(code: FileCode, place: Place) -> FileRefusal
    ensures { result ≡ refusals.Fault code place }
{
    FileRefusal::Fault { code, place }
}

/// The place of the item at a position, or the end of the text.
fn place_with(items: &[Item], position: usize, bytes: &[u8]) -> Place
    requires { length bytes.now ≤ FILE_BYTES }
    ensures { result ≡ phases.place_with items.now position (outer.end_place bytes.now) }
{
    match items.get(position) {
        Some(item) => item.place,
        None => end_place(bytes),
    }
}

/// Whether the item at a position is a group directive.
fn is_group_at(items: &[Item], position: usize) -> bool
    ensures { result ≡ phases.is_group_item (slice_get items.now position) }
{
    match items.get(position) {
        None => false,
        Some(item) => matches!(
            item.sign,
            Sign::GroupIf(_) | Sign::GroupElif(_) | Sign::GroupElse | Sign::GroupEnd
        ),
    }
}

/// Whether the item at a position is `else`.
fn is_else_at(items: &[Item], position: usize) -> bool
    ensures { result ≡ phases.is_else_item (slice_get items.now position) }
{
    match items.get(position) {
        None => false,
        Some(item) => matches!(item.sign, Sign::Else),
    }
}

/// The code of the first wrong item.
fn wrong_code(items: &[Item], position: usize) -> FileCode
    ensures { result ≡ phases.wrong_code items.now position }
{
    let is_behind_group = position > 0 && is_group_at(items, position - 1);
    if is_group_at(items, position) || is_else_at(items, position) && is_behind_group {
        FileCode::GroupInsideStatement
    } else {
        FileCode::Syntax
    }
}

/// The program of a file whose names may have a fault.
pub(crate) fn spelled(
    alloc: Global,
    names: Names,
    items: &[Item],
    bytes: &[u8],
) -> Result<Program, FileRefusal>
    requires short { length bytes.now ≤ FILE_BYTES }
    requires fit { AreFit (length names) items.now }
    requires rising { AreRising items.now }
    ensures spelled { IsSpelledAs names items.now (outer.end_place bytes.now) result }
    ensures program { length names ≤ 48 → IfOk result (λ p. IsProgram (whole p)) }
{
    match read_items(alloc, names, items) {
        Ok(program) => Ok(program),
        Err(UnreadRefusal::NoMemory) => Err(FileRefusal::NoMemory),
        Err(UnreadRefusal::Fault(Unread::Wrong(position))) => Err(refused(
            wrong_code(items, position),
            place_with(items, position, bytes),
        )),
        Err(UnreadRefusal::Fault(Unread::Deep(position))) => {
            Err(refused(FileCode::TooDeep, place_with(items, position, bytes)))
        }
    }
}

//! The program that a list of items spells.
#![tactic(auto)]

ghost use Rattle.std.specs.Prelude.{◌≡◌, ◌≤◌, length, false, IfOk};
ghost use Rattle.c_tree.specs.View.{whole};
ghost use Rattle.c_tree.specs.Whole.{IsProgram, IsPlainProgram};
ghost use Rattle.c_grammar.specs.Facts.{AreFit, AreRising};
ghost use Rattle.c_grammar.specs.Grammar.{has_groups};
ghost use Rattle.c_grammar.specs.Within.{SpellsWithin};
ghost use Rattle.item_reader.specs.Reading.{IsDeepAt, IsWrongAt, OnDeep, OnWrong};

use crate::files::read_file;
use crate::programs::program_of;
use crate::unread::UnreadRefusal;
use c_grammar::Item;
use c_grammar::laws::{files_are_programs, reads_within_the_limits, within_the_limits_is_a_file};
use c_tree::{Names, Program};
use std::alloc::Global;

/// The program that a list of items spells within the limits, over these names.
///
/// An item is a token or a group directive (`#if`, `#elif`, `#else`, `#endif`) of a C file, and the grammar is that of
/// `c_grammar`: declarations of `int` variables and of functions outside, which may stand in groups, and then `main`
/// (ISO/IEC 9899:2011, 6.5 to 6.10.1). A static declarator in `main` stands behind those outside, and leaves no statement.
/// Without groups the program is plain, and a variable starts with the value of the last of these declarators that is its
/// own, else with 0. With groups each group of statements is a `Cond`, and each of these declarators is kept with the guards
/// of the groups around it. Any other declarator in `main` is a statement: it assigns its initialiser, and without one any
/// value, as that of an input is.
/// A `for` is what it does before its first test, if anything, and then a loop with its test and its step; the loop has the
/// place of the test, and a test that is left out is 1, at the semicolon. Where it declares variables, each with an
/// initialiser, it is a block at its place around both. A `do` does its body before its first test. `break` and `continue`
/// stand in a loop, and `return`, with an expression, where any statement may.
///
/// The conditions are that the items name these names alone, that the numbers are from 0 to 2147483647, and that the
/// places rise. With at most 48 names the program is well formed.
///
/// The reading goes from item to item, and the first item that it can't take decides.
///
/// - `Wrong(n)`: no file goes on with item `n`, whichever names it has, though some file goes on with the items before
///   it. Where `n` is the number of the items, some file goes on with all of them, but none ends behind them.
/// - `Deep(n)`: some file goes on with item `n`, but none within the limits: it opens an `if`, a `while`, a `for`, a
///   `do`, a block, a group or the next part of a group inside 64 of these, or it is the 65th operator or opening parenthesis
///   of an expression. The brace of `main` is no block, and each `#elif` counts as one more around what follows in its
///   section.
/// - `NoMemory`: want of memory, and nothing else.
pub fn read_items(alloc: Global, names: Names, items: &[Item]) -> Result<Program, UnreadRefusal>
    requires fit { AreFit (length names) items.now }
    requires rising { AreRising items.now }
    ensures spells { IfOk result (λ p. SpellsWithin names (whole p) items.now) }
    ensures program { length names ≤ 48 → IfOk result (λ p. IsProgram (whole p)) }
    ensures plain { IfOk result (λ p. has_groups items.now ≡ false → IsPlainProgram (whole p)) }
    ensures wrong { OnWrong result (IsWrongAt items.now) }
    ensures deep { OnDeep result (IsDeepAt items.now) }
{
    reads_within_the_limits();
    within_the_limits_is_a_file();
    files_are_programs();
    let file = read_file(alloc, items)?;
    let program = program_of(alloc, names, items, file)?;
    Ok(program)
}

//! The file that a list of items spells.
#![tactic(auto)]

ghost use Rattle.std.specs.Prelude.{◌≤◌};
ghost use Rattle.reading_states.specs.Signs.{IsUnsigned, AreUnsigned};
ghost use Rattle.item_reader.specs.Taking.{AreItemsRead, Takes};
ghost use Rattle.reading_states.specs.Views.{as_state};

use crate::endings::finish;
use crate::limits::{counted, is_deep};
use crate::steps::step;
use crate::unread::{Unread, UnreadRefusal};
use c_grammar::Item;
use reading_states::states::{File, ReadingState, Sections};
use std::alloc::Global;

/// What the item at a position leads to, and how many operators its expression has so far.
#[tactic(auto, using(crate::proofs::Taking::shallow_few))]
fn take(
    alloc: Global,
    state: ReadingState,
    count: u32,
    item: Item,
    position: usize,
) -> Result<(ReadingState, u32), UnreadRefusal>
    requires unsigned { IsUnsigned item.sign }
    requires few { count ≤ 64 }
    ensures { Takes (as_state state) count item position result }
{
    let deep = is_deep(&state, item.sign, count);
    let operators = counted(&state, item.sign, count);
    match step(alloc, state, item.place, item.sign)? {
        None => Err(UnreadRefusal::Fault(Unread::Wrong(position))),
        Some(next) if deep => {
            drop(next);
            Err(UnreadRefusal::Fault(Unread::Deep(position)))
        }
        Some(next) => Ok((next, operators)),
    }
}

/// The file that the items spell.
pub(crate) fn read_file(alloc: Global, items: &[Item]) -> Result<File, UnreadRefusal>
    requires { AreUnsigned items.now }
    ensures { AreItemsRead items.now result }
{
    let mut state = ReadingState::Outside {
        sections: Sections::Outermost,
        declared: Vec::new(alloc),
    };
    let mut count = 0;
    for (position, item) in items.iter().enumerate() {
        let (next, operators) = take(alloc, state, count, *item, position)?;
        state = next;
        count = operators;
    }
    match finish(state) {
        Some(file) => Ok(file),
        None => Err(UnreadRefusal::Fault(Unread::Wrong(items.len()))),
    }
}

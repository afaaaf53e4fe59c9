//! The constants that a file without groups declares, and the names that it changes.
#![tactic(auto)]

ghost use Rattle.std.specs.Prelude.{◌≡◌, [], ◌∷◌, ◌++◌, List, OnOk};
ghost use Rattle.fam_outer.specs.declared.faults.Place as places;
ghost use Rattle.c_grammar.specs.declared.items.Item as items;
ghost use Rattle.c_grammar.specs.Constants.{of_constants};
ghost use Rattle.c_grammar.specs.Grammar.{at};
ghost use Rattle.c_parser.specs.declared.names.Limits.{Limits};
ghost use Rattle.c_parser.specs.Judging as judging;
ghost use Rattle.c_parser.specs.Names as specs;

use crate::names::{Known, contains, follow_blocks, uses_next};
use c_grammar::{Item, Scoped, Sign, Track};
use fam_outer::{FileCode, NoMemory, Place};
use std::alloc::Global;

/// What is known of constants behind some items: what they tell of the next one, and the names of constants whose block is
/// open.
#[derive(Drop)]
pub(crate) struct Constants {
    pub(crate) track: Track,
    names: Scoped<u32>,
}

/// The fault of a name that is changed.
fn constant_fault(constants: &[u32], change: Option<(u32, Place)>) -> Option<(FileCode, Place)>
    ensures { result ≡ specs.constant_fault constants.now change }
{
    let (name, place) = change?;
    if contains(constants, name) {
        Some((FileCode::ChangedConstant, place))
    } else {
        None
    }
}

/// The fault of what an item changes, together with the one before it.
pub(crate) fn change_fault(
    known: &Known,
    constants: &Constants,
    item: Item,
) -> Option<(FileCode, Place)>
    ensures { (before : List items.Item) → judging.IsKnown before known.now
        → judging.AreHeld before constants.now
        → (limits : Limits) → result ≡ specs.change_fault (judging.counted limits) before item }
{
    if !known.in_main {
        return None;
    }
    constant_fault(constants.names.items(), constants.track.change(item))
}

/// Goes on behind a sign, in `main` or before it: a name that is declared as a constant comes into scope.
fn follow_constants(
    names: &mut Scoped<u32>,
    is_declared: bool,
    in_main: bool,
    sign: Sign,
) -> Result<(), NoMemory>
    ensures { (before : List items.Item) → judging.AreInScope (of_constants before) names.old
        → in_main ≡ specs.has_main before → is_declared ≡ judging.declares_constant before
        → OnOk result ((p : places.Place) → judging.AreInScope (of_constants (before ++ at p sign ∷ [])) names.new) }
{
    match sign {
        Sign::Name(number) => {
            if is_declared {
                names.push(number)
            } else {
                Ok(())
            }
        }
        _ => follow_blocks(names, in_main, sign),
    }
}

impl Constants {
    /// No constant. It takes no memory.
    pub(crate) fn new(alloc: Global) -> Constants
        ensures { judging.AreHeld [] result }
    {
        Constants {
            track: Track::new(),
            names: Scoped::new(alloc),
        }
    }

    /// Goes on behind an item, behind others of which this is known: a name that is declared, with `const` or `enum`, or by
    /// `#define`, is a constant's, up to the end of its block.
    pub(crate) fn follow(&mut self, known: &Known, item: Item) -> Result<(), NoMemory>
        ensures { (before : List items.Item) → judging.IsKnown before known.now
            → judging.AreHeld before self.old
            → OnOk result (judging.AreHeld (before ++ item ∷ []) self.new) }
    {
        let is_used = uses_next(known.in_main, &self.track);
        let is_declared = self.track.is_constant() && !is_used;
        follow_constants(&mut self.names, is_declared, known.in_main, item.sign)?;
        self.track.follow(item);
        Ok(())
    }
}

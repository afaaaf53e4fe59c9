//! The functions outside that the items of a file without groups declare and call.
#![tactic(auto)]

ghost use Rattle.std.specs.Prelude.{◌≡◌, [], ◌++◌, if◌then◌else◌, List, IfOk};
ghost use Rattle.c_grammar.specs.declared.items.Item as items;
ghost use Rattle.c_grammar.specs.Changes.{IsTrack};
ghost use Rattle.c_parser.specs.Judging as judging;
ghost use Rattle.c_parser.specs.Names as specs;

use crate::names::contains;
use c_grammar::Track;
use fam_outer::{FileCode, NoMemory};
use std::alloc::Global;

/// The functions that some items declare before `main`: those with a value, and those with `void`.
#[derive(Drop)]
pub(crate) struct Prototypes {
    valued: Vec<u32>,
    void: Vec<u32>,
}

/// The fault of a declaration, behind those like it and others; without one the function is declared.
fn declare_alike(
    alike: &mut Vec<u32>,
    others: &[u32],
    number: u32,
) -> Result<Option<FileCode>, NoMemory>
    ensures { IfOk result (λ fault. judging.DeclaresAlike alike.old.items others.now number alike.new.items fault) }
{
    if contains(others, number) {
        return Ok(Some(FileCode::Twice(None)));
    }
    alike.push(number)?;
    Ok(None)
}

impl Prototypes {
    /// No function. It takes no memory.
    pub(crate) fn new(alloc: Global) -> Prototypes
        ensures { judging.ArePrototypes [] result }
    {
        Prototypes {
            valued: Vec::new(alloc),
            void: Vec::new(alloc),
        }
    }

    /// The fault of a call: where a value is wanted, only a function with one may be called.
    fn call_fault(&self, wants_value: bool, number: u32) -> Option<FileCode>
        ensures { result ≡ specs.uncallable_fault (if wants_value then self.now.valued.items else self.now.valued.items ++ self.now.void.items) number }
    {
        if contains(&self.valued, number) {
            return None;
        }
        if !wants_value && contains(&self.void, number) {
            return None;
        }
        Some(FileCode::Undeclared(None))
    }

    /// The fault of a function behind items that this tells of; without one it is declared, or called behind `main`.
    pub(crate) fn judge(
        &mut self,
        in_main: bool,
        track: &Track,
        number: u32,
    ) -> Result<Option<FileCode>, NoMemory>
        ensures { (before : List items.Item) → in_main ≡ specs.has_main before → judging.ArePrototypes before self.old
            → IsTrack before track.now
            → IfOk result (λ fault. judging.JudgesFunction before number self.new fault) }
    {
        if in_main {
            return Ok(self.call_fault(track.is_behind_equals(), number));
        }
        if track.is_behind_void() {
            declare_alike(&mut self.void, &self.valued, number)
        } else {
            declare_alike(&mut self.valued, &self.void, number)
        }
    }
}

//! The names that `main` declares, in whatever block: a static variable is the only one of its name there (ISO/IEC 9899:2011,
//! 6.2.4p3).
#![tactic(auto)]

ghost use Rattle.std.specs.Prelude.{◌≡◌, [], not, OnOk};
ghost use Rattle.family_names.specs.Blocks.{with_shown};
ghost use Rattle.family_names.specs.Judging as judging;

use crate::declarations::Declaration;
use crate::groups::Groups;
use fam_outer::NoMemory;
use std::alloc::Global;

/// The declarations of names in `main` behind some items, whether their block is open or left: all of them, and the static
/// ones.
#[derive(Drop)]
pub(crate) struct Locals {
    all: Vec<Declaration>,
    statics: Vec<Declaration>,
}

/// Adds a declaration of the name in these groups, if it is one of these.
fn add_one(
    alloc: Global,
    declarations: &mut Vec<Declaration>,
    is_one: bool,
    groups: &Groups,
    name: u32,
) -> Result<(), NoMemory>
    ensures { OnOk result (declarations.new.items
        ≡ with_shown is_one declarations.old.items (record { name = name; groups = groups.now })) }
{
    if !is_one {
        return Ok(());
    }
    let groups = groups.copy(alloc)?;
    declarations.push(Declaration { name, groups })?;
    Ok(())
}

impl Locals {
    /// No declaration. It takes no memory.
    pub(crate) fn new(alloc: Global) -> Locals
        ensures { judging.AreLocals [] result }
    {
        Locals {
            all: Vec::new(alloc),
            statics: Vec::new(alloc),
        }
    }

    /// The declarations that the next one may not repeat, whatever block they stand in: all of them where it is static, and else
    /// the static ones.
    pub(crate) fn barring(&self, is_static: bool) -> &[Declaration]
        ensures { result.now ≡ judging.locals_in (not is_static) self.now }
    {
        if is_static {
            self.all.as_slice()
        } else {
            self.statics.as_slice()
        }
    }

    /// Adds a declaration in these groups, as static or not, if it stands in `main`.
    pub(crate) fn add(
        &mut self,
        alloc: Global,
        groups: &Groups,
        in_main: bool,
        is_static: bool,
        name: u32,
    ) -> Result<(), NoMemory>
        ensures { OnOk result (judging.AddsLocal self.old groups.now in_main is_static name self.new) }
    {
        add_one(alloc, &mut self.all, in_main, groups, name)?;
        add_one(alloc, &mut self.statics, in_main && is_static, groups, name)
    }
}

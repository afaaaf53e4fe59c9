//! The names that `main` declares in a file without groups, whatever block they are in.
#![tactic(auto)]

ghost use Rattle.std.specs.Prelude.{◌≡◌, false, [], List, OnOk};
ghost use Rattle.c_grammar.specs.declared.items.Item as items;
ghost use Rattle.c_grammar.specs.declared.items.Sign.TheVariants as signs;
ghost use Rattle.c_grammar.specs.Scopes.{barred, is_static_behind};
ghost use Rattle.c_parser.specs.Judging as judging;
ghost use Rattle.c_parser.specs.Names as specs;

use fam_outer::NoMemory;
use std::alloc::Global;

/// The names that `main` declares among some items, and the static ones among them: a static one is the only one of its name in
/// `main` (ISO/IEC 9899:2011, 6.2.4p3).
#[derive(Drop)]
pub(crate) struct Locals {
    all: Vec<u32>,
    statics: Vec<u32>,
}

impl Locals {
    /// No name. It takes no memory.
    pub(crate) fn new(alloc: Global) -> Locals
        ensures { judging.AreLocals [] result }
    {
        Locals {
            all: Vec::new(alloc),
            statics: Vec::new(alloc),
        }
    }

    /// Those that the next declaration, as static or not, may not repeat: all of them where it is static, and else the static ones.
    pub(crate) fn barring(&self, is_static: bool) -> &[u32]
        ensures { (before : List items.Item) → judging.AreLocals before self.now → is_static ≡ is_static_behind before
            → result.now ≡ specs.names_of (barred before) }
    {
        if is_static {
            self.all.as_slice()
        } else {
            self.statics.as_slice()
        }
    }

    /// Goes on behind a name that is declared, in `main` or before it, and in a static declaration or not.
    pub(crate) fn add(
        &mut self,
        in_main: bool,
        is_static: bool,
        number: u32,
    ) -> Result<(), NoMemory>
        ensures { (before : List items.Item) → judging.AreLocals before self.old → in_main ≡ specs.has_main before
            → is_static ≡ is_static_behind before → specs.is_used_behind before ≡ false
            → OnOk result (judging.AreLocalsBehind before (signs.Name number) self.new) }
    {
        if !in_main {
            return Ok(());
        }
        self.all.push(number)?;
        if is_static {
            self.statics.push(number)?;
        }
        Ok(())
    }
}

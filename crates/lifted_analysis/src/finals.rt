//! What an analysis of a family remembers of loops, so that a loop in a loop is gone through once for each tree with which it is
//! entered.
#![tactic(auto)]

ghost use Rattle.std.specs.Prelude.{◌≡◌, OnOk};
ghost use Rattle.std.specs.Option.{option_copied};
ghost use Rattle.std.specs.Map.{lookup};
ghost use Rattle.indexmap.specs.IndexMap.{insert_entry};
ghost use Rattle.lifted_analysis.specs.Finals.{same_entered};

use decision_tree::Tree;
use fam_outer::{NoMemory, Place};
use indexmap::IndexMap;

/// A loop by its place, and a tree with which it was entered by its number.
#[derive(Clone, Copy, PartialEq, Eq, Hash)]
pub(crate) struct Entered {
    pub(crate) place: Place,
    pub(crate) number: u64,
}

/// The final trees of loops, each for the tree with which its loop was entered.
#[derive(Drop)]
pub(crate) struct Finals<L> {
    pub(crate) entries: IndexMap<Entered, Tree<L>>,
}

/// The final tree that is remembered for a loop and a tree.
pub(crate) fn find<'a, L>(
    entries: &'a IndexMap<Entered, Tree<L>>,
    key: &Entered,
) -> Option<&'a Tree<L>>
    ensures { option_copied result ≡ lookup (same_entered key.now) entries.now.entries }
{
    entries.get(key)
}

/// Remembers the final tree of a loop for a tree.
pub(crate) fn remember<L: Drop>(
    entries: &mut IndexMap<Entered, Tree<L>>,
    key: Entered,
    last: Tree<L>,
) -> Result<(), NoMemory>
    ensures { OnOk result (entries.new.entries ≡ insert_entry same_entered entries.old.entries key last) }
{
    entries.insert(key, last)?;
    Ok(())
}

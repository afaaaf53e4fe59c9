//! What an analysis remembers of loops, so that a loop in a loop is gone through once for each leaf with which it is entered.
#![tactic(auto)]

ghost use Rattle.std.specs.Prelude.{◌≡◌, OnOk};
ghost use Rattle.std.specs.Option.{option_copied};
ghost use Rattle.std.specs.Map.{lookup};
ghost use Rattle.indexmap.specs.IndexMap.{insert_entry};
ghost use Rattle.plain_analysis.specs.Finals.{same_entered};

use fam_outer::{NoMemory, Place};
use indexmap::IndexMap;
use std::hash::Hash;

/// A loop by its place, and a leaf with which it was entered.
#[derive(PartialEq, Eq, Hash, Drop)]
pub(crate) struct Entered<L> {
    pub(crate) place: Place,
    pub(crate) leaf: L,
}

/// The final leaves of loops, each for the leaf with which its loop was entered.
#[derive(Drop)]
pub(crate) struct Finals<L: Eq + Hash> {
    pub(crate) entries: IndexMap<Entered<L>, L>,
}

/// The final leaf that is remembered for a loop and a leaf.
pub(crate) fn find<'a, L: Eq + Hash>(
    entries: &'a IndexMap<Entered<L>, L>,
    key: &Entered<L>,
) -> Option<&'a L>
    ensures { option_copied result ≡ lookup (same_entered L.eq key.now) entries.now.entries }
{
    entries.get(key)
}

/// Remembers the final leaf of a loop for a leaf.
pub(crate) fn remember<L: Eq + Hash + Drop>(
    entries: &mut IndexMap<Entered<L>, L>,
    key: Entered<L>,
    last: L,
) -> Result<(), NoMemory>
    ensures { OnOk result (entries.new.entries
        ≡ insert_entry (same_entered L.eq) entries.old.entries key last) }
{
    entries.insert(key, last)?;
    Ok(())
}

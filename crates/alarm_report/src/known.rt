//! Regions that are found once, though several trees have their paths.
#![tactic(auto)]

ghost use Rattle.std.specs.Prelude.{◌≡◌, ◌<◌, [], length, IfOk, OnOk};
ghost use Rattle.std.specs.List.{All};
ghost use Rattle.std.specs.Map.{lookup};
ghost use Rattle.std.specs.Option.{option_copied};
ghost use Rattle.indexmap.specs.IndexMap.{insert_entry};
ghost use Rattle.linear_atoms.specs.Atoms.{AreAtoms};
ghost use Rattle.alarm_report.specs.Known.{AreKnown, has_turns, same_turns};
ghost use Rattle.alarm_report.specs.Regions.{IsRegionOf};

use crate::path_region::region_of;
use crate::region::Region;
use atom_solver::Prepared;
use fam_outer::NoMemory;
use indexmap::IndexMap;
use linear_atoms::Atom;
use std::alloc::Global;

/// What was found of paths, by their turns: the region, or that no valid configuration meets the path.
#[derive(Drop)]
pub struct Known {
    pub entries: IndexMap<Vec<(u32, bool)>, Option<Region>>,
}

impl Known {
    /// Nothing is known yet.
    pub fn new(alloc: Global) -> Known
        ensures { result.entries.entries ≡ [] }
    {
        Known {
            entries: IndexMap::new(alloc),
        }
    }
}

/// What is known of a path.
fn find<'a>(
    entries: &'a IndexMap<Vec<(u32, bool)>, Option<Region>>,
    turns: &[(u32, bool)],
) -> Option<&'a Option<Region>>
    ensures { option_copied result ≡ lookup (has_turns turns.now) entries.now.entries }
{
    entries.get(turns)
}

/// Notes what was found of a path.
fn remember(
    entries: &mut IndexMap<Vec<(u32, bool)>, Option<Region>>,
    turns: Vec<(u32, bool)>,
    found: Option<Region>,
) -> Result<(), NoMemory>
    ensures { OnOk result (entries.new.entries ≡ insert_entry same_turns entries.old.entries turns found) }
{
    entries.insert(turns, found)?;
    Ok(())
}

/// A copy of what was found.
fn copied(alloc: Global, found: &Option<Region>) -> Result<Option<Region>, NoMemory>
    ensures { IfOk result (λ made. made ≡ found.now) }
{
    match found {
        None => Ok(None),
        Some(region) => Ok(Some(region.copy(alloc)?)),
    }
}

/// The region of a path, as `region_of` has it: a copy of what is known, or found and then known.
pub fn region_known(
    alloc: Global,
    known: &mut Known,
    prepared: &Prepared,
    atoms: &[Atom],
    turns: &[(u32, bool)],
) -> Result<Option<Region>, NoMemory>
    requires atoms { AreAtoms (length prepared.now.features) atoms.now }
    requires tests { All (λ turn. turn.0 < length atoms.now) turns.now }
    requires known { AreKnown prepared.now atoms.now known.old }
    ensures region { IfOk result (λ region. IsRegionOf prepared.now atoms.now turns.now region) }
    ensures known { OnOk result (AreKnown prepared.now atoms.now known.new) }
{
    if let Some(found) = find(&known.entries, turns) {
        return copied(alloc, found);
    }
    let found = region_of(alloc, prepared, atoms, turns)?;
    let kept = copied(alloc, &found)?;
    let path = Vec::from_slice(alloc, turns)?;
    remember(&mut known.entries, path, kept)?;
    Ok(found)
}

//! The lines of the loops of a family, found by their places.
#![tactic(auto)]

ghost use Rattle.std.specs.Prelude.{◌≡◌, ◌++◌, ◌∷◌, [], IfOk, OnOk, if◌then◌else◌};
ghost use Rattle.fam_outer.specs.declared.faults.Place.{Place};
ghost use Rattle.plain_analysis.specs.Places.{is_same_place};
ghost use Rattle.lifted_analysis.specs.LineIndex.{IsIndexOf, positions_in};

use crate::lines::LoopLine;
use fam_outer::{NoMemory, Place};
use indexmap::IndexMap;
use std::alloc::Global;

/// For each place the positions of its lines, in order.
#[derive(Drop)]
pub(crate) struct LineIndex {
    by_place: IndexMap<Place, Vec<usize>>,
}

/// Adds a position behind those of its place.
fn add(
    alloc: Global,
    by_place: &mut IndexMap<Place, Vec<usize>>,
    place: Place,
    position: usize,
) -> Result<(), NoMemory>
    ensures { OnOk result ((q : Place) → positions_in by_place.new.entries q
        ≡ (if is_same_place place q
        then positions_in by_place.old.entries q ++ position ∷ []
        else positions_in by_place.old.entries q)) }
{
    let mut positions = by_place.swap_remove(&place).unwrap_or(Vec::new(alloc));
    positions.push(position)?;
    by_place.insert(place, positions)?;
    Ok(())
}

impl LineIndex {
    /// The index of these lines.
    pub(crate) fn new(alloc: Global, lines: &[LoopLine]) -> Result<LineIndex, NoMemory>
        ensures { IfOk result (IsIndexOf lines.now) }
    {
        let mut by_place = IndexMap::new(alloc);
        for (k, line) in lines.iter().enumerate() {
            add(alloc, &mut by_place, line.place, k)?;
        }
        Ok(LineIndex { by_place })
    }

    /// The positions of the lines at a place, in order.
    pub(crate) fn at(&self, place: Place) -> &[usize]
        ensures { result.now ≡ positions_in self.now.by_place.entries place }
    {
        match self.by_place.get(&place) {
            Some(positions) => positions.as_slice(),
            None => &[],
        }
    }
}

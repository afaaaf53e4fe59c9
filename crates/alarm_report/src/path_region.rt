//! The region of a path.
#![tactic(auto)]

ghost use Rattle.std.specs.Prelude.{◌<◌, length, IfOk};
ghost use Rattle.std.specs.List.{All};
ghost use Rattle.linear_atoms.specs.Atoms.{AreAtoms};
ghost use Rattle.alarm_report.specs.Regions.{IsRegionOf};

use crate::dropping::standing;
use crate::literals::literals_of;
use crate::region::{Literals, Region};
use atom_solver::Prepared;
use fam_outer::NoMemory;
use linear_atoms::Atom;
use std::alloc::Global;

/// The region of a path: its literals without those that the others still standing imply, from the first to the last, and the
/// least valid configuration that meets them. None where no valid configuration meets the path. The only refusal is want of
/// memory.
///
/// The atoms are well formed over the features of the model, and the numbers of the turns' tests are below their count.
pub fn region_of(
    alloc: Global,
    prepared: &Prepared,
    atoms: &[Atom],
    turns: &[(u32, bool)],
) -> Result<Option<Region>, NoMemory>
    requires atoms { AreAtoms (length prepared.now.features) atoms.now }
    requires tests { All (λ turn. turn.0 < length atoms.now) turns.now }
    ensures { IfOk result (λ region. IsRegionOf prepared.now atoms.now turns.now region) }
{
    let literals = literals_of(alloc, atoms, turns)?;
    match prepared.least(alloc, &literals)? {
        None => Ok(None),
        Some(example) => {
            let left = standing(alloc, prepared, literals)?;
            Ok(Some(Region {
                literals: Literals::from_vec(left),
                example,
            }))
        }
    }
}

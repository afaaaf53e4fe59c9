//! The regions of a tree.
#![tactic(auto)]

ghost use Rattle.std.specs.Prelude.{◌<◌, length, IfOk, OnOk};
ghost use Rattle.std.specs.List.{All};
ghost use Rattle.linear_atoms.specs.Atoms.{AreAtoms, AreRanges};
ghost use Rattle.cpp_conditions.specs.Validity.{AreFit};
ghost use Rattle.decision_tree.specs.Plain.{TestsBelow};
ghost use Rattle.decision_tree.specs.View.{plain};
ghost use Rattle.alarm_report.specs.Regions.{AreRegions, Covers};
ghost use Rattle.alarm_report.specs.Adding.{Adds};
ghost use Rattle.alarm_report.specs.Known.{AreKnown};

use crate::known::{Known, region_known};
use crate::region::{Region, Regions};
use atom_solver::Prepared;
use cpp_conditions::Model;
use decision_tree::laws::vectors_take_one_path;
use decision_tree::{Path, Tree};
use fam_outer::NoMemory;
use linear_atoms::Atom;
use std::alloc::Global;

/// Adds the region of a path to true, if some valid configuration meets it.
fn push_region(
    alloc: Global,
    known: &mut Known,
    prepared: &Prepared,
    atoms: &[Atom],
    path: &Path<bool>,
    list: &mut Vec<Region>,
) -> Result<(), NoMemory>
    requires atoms { AreAtoms (length prepared.now.features) atoms.now }
    requires tests { All (λ turn. turn.0 < length atoms.now) path.now.turns }
    requires known { AreKnown prepared.now atoms.now known.old }
    ensures added { IfOk result (λ _. Adds prepared.now atoms.now
        (path.now.turns, path.now.leaf.value.value) list.old.items list.new.items) }
    ensures known { OnOk result (AreKnown prepared.now atoms.now known.new) }
{
    if !path.leaf.value {
        return Ok(());
    }
    match region_known(alloc, known, prepared, atoms, path.turns.items())? {
        None => Ok(()),
        Some(region) => {
            list.push(region)?;
            Ok(())
        }
    }
}

/// The regions of a tree, as `regions` has them, where some are known.
pub(crate) fn regions_known(
    alloc: Global,
    known: &mut Known,
    prepared: &Prepared,
    atoms: &[Atom],
    tree: &Tree<bool>,
) -> Result<Regions, NoMemory>
    requires atoms { AreAtoms (length prepared.now.features) atoms.now }
    requires tests { TestsBelow (length atoms.now) (plain tree.now) }
    requires known { AreKnown prepared.now atoms.now known.old }
    ensures regions { IfOk result (λ made. AreRegions prepared.now atoms.now (plain tree.now) made) }
    ensures cover { IfOk result (λ made. Covers prepared.now atoms.now (plain tree.now) made) }
    ensures known { OnOk result (AreKnown prepared.now atoms.now known.new) }
{
    vectors_take_one_path::<bool>();
    let paths = tree.paths(alloc)?;
    let mut list = Vec::new(alloc);
    'paths: for path in &paths {
        push_region(alloc, known, prepared, atoms, path, &mut list)?;
    }
    Ok(Regions::from_vec(list))
}

/// The regions of a tree over a prepared model, as `regions` has them.
pub fn regions_over(
    alloc: Global,
    prepared: &Prepared,
    atoms: &[Atom],
    tree: &Tree<bool>,
) -> Result<Regions, NoMemory>
    requires atoms { AreAtoms (length prepared.now.features) atoms.now }
    requires tests { TestsBelow (length atoms.now) (plain tree.now) }
    ensures regions { IfOk result (λ made. AreRegions prepared.now atoms.now (plain tree.now) made) }
    ensures cover { IfOk result (λ made. Covers prepared.now atoms.now (plain tree.now) made) }
{
    let mut known = Known::new(alloc);
    regions_known(alloc, &mut known, prepared, atoms, tree)
}

/// The regions of a tree, whose tests are numbers of the atoms: for each path to true, the side of false first, that some valid
/// configuration meets, its literals, without those that the others still standing imply, and the least valid configuration
/// that meets them.
///
/// A valid configuration at which the tree is true meets exactly one region, and any other meets none. The only refusal is want
/// of memory. The conditions are those of `Prepared::new`, and that the atoms are well formed over the features.
pub fn regions(
    alloc: Global,
    model: &Model,
    atoms: &[Atom],
    tree: &Tree<bool>,
) -> Result<Regions, NoMemory>
    requires constraints { AreFit (length model.now.features) model.now.constraints }
    requires ranges { AreRanges model.now.features }
    requires atoms { AreAtoms (length model.now.features) atoms.now }
    requires tests { TestsBelow (length atoms.now) (plain tree.now) }
    ensures regions { IfOk result (λ made. AreRegions model.now atoms.now (plain tree.now) made) }
    ensures cover { IfOk result (λ made. Covers model.now atoms.now (plain tree.now) made) }
{
    let prepared = Prepared::new(alloc, model)?;
    regions_over(alloc, &prepared, atoms, tree)
}

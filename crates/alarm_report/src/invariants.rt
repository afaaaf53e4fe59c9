//! The invariants of a family, with their regions.
#![tactic(auto)]

ghost use Rattle.std.specs.Prelude.{◌<◌, length, map, IfOk, OnOk};
ghost use Rattle.std.specs.List.{All};
ghost use Rattle.linear_atoms.specs.Atoms.{AreAtoms, AreLiterals};
ghost use Rattle.decision_tree.specs.Paths.{paths_of};
ghost use Rattle.decision_tree.specs.Plain.{TestsBelow};
ghost use Rattle.decision_tree.specs.View.{plain};
ghost use Rattle.lifted_analysis.specs.declared.findings.PlaceTree.{PlaceTree};
ghost use Rattle.alarm_report.specs.declared.invariants.FamilyInvariant.{FamilyInvariant};
ghost use Rattle.alarm_report.specs.Adding.{AddsPath, AddsLeafTree};
ghost use Rattle.alarm_report.specs.Known.{AreKnown};
ghost use Rattle.alarm_report.specs.Invariants.{AreOfPaths, AreInvariants, ArePlaced, CoversPlaces, leaf_tree, invariant};

use crate::known::{Known, region_known};
use crate::region::Region;
use atom_solver::Prepared;
use decision_tree::{Kept, Path};
use fam_outer::{NoMemory, Place};
use leaf_domain::Leaf;
use lifted_analysis::PlaceTree;
use linear_atoms::Atom;
use std::alloc::Global;
use std::rc::Rc;

/// What is known at a place of the variants of a family: in all valid configurations of the region, the statement there is entered
/// with this leaf.
#[derive(Drop)]
pub struct FamilyInvariant<L> {
    pub place: Place,
    pub region: Region,
    pub leaf: Rc<Kept<L>>,
}

/// Adds the invariant of a path, if some valid configuration meets it.
fn push_invariant<L: Leaf>(
    alloc: Global,
    known: &mut Known,
    prepared: &Prepared,
    atoms: &[Atom],
    place: Place,
    path: &Path<L>,
    list: &mut Vec<FamilyInvariant<L>>,
) -> Result<(), NoMemory>
    requires atoms { AreAtoms (length prepared.now.features) atoms.now }
    requires tests { All (λ turn. turn.0 < length atoms.now) path.now.turns }
    requires known { AreKnown prepared.now atoms.now known.old }
    ensures added { IfOk result (λ _. AddsPath prepared.now atoms.now place
        (path.now.turns, L.value path.now.leaf.value.value) (map (invariant L.value) list.old.items)
        (map (invariant L.value) list.new.items)) }
    ensures known { OnOk result (AreKnown prepared.now atoms.now known.new) }
{
    match region_known(alloc, known, prepared, atoms, path.turns.items())? {
        None => Ok(()),
        Some(region) => {
            let leaf = path.leaf.clone()?;
            list.push(FamilyInvariant {
                place,
                region,
                leaf,
            })?;
            Ok(())
        }
    }
}

/// The invariants of a tree.
fn invariants_at<L: Leaf>(
    alloc: Global,
    known: &mut Known,
    prepared: &Prepared,
    atoms: &[Atom],
    tree: &PlaceTree<L>,
) -> Result<Vec<FamilyInvariant<L>>, NoMemory>
    requires atoms { AreAtoms (length prepared.now.features) atoms.now }
    requires tests { TestsBelow (length atoms.now) (plain tree.now.tree) }
    requires known { AreKnown prepared.now atoms.now known.old }
    ensures made { IfOk result (λ made. AreOfPaths prepared.now atoms.now tree.now.place
        (paths_of (leaf_tree L.value tree.now).tree) (map (invariant L.value) made.items)) }
    ensures known { OnOk result (AreKnown prepared.now atoms.now known.new) }
{
    let place = tree.place;
    let paths = tree.tree.paths(alloc)?;
    let mut list = Vec::new(alloc);
    'paths: for path in &paths {
        push_invariant(alloc, known, prepared, atoms, place, path, &mut list)?;
    }
    Ok(list)
}

/// Adds the invariants of a tree.
fn push_invariants<L: Leaf>(
    alloc: Global,
    known: &mut Known,
    prepared: &Prepared,
    atoms: &[Atom],
    tree: &PlaceTree<L>,
    list: &mut Vec<FamilyInvariant<L>>,
) -> Result<(), NoMemory>
    requires atoms { AreAtoms (length prepared.now.features) atoms.now }
    requires tests { TestsBelow (length atoms.now) (plain tree.now.tree) }
    requires known { AreKnown prepared.now atoms.now known.old }
    ensures added { IfOk result (λ _. AddsLeafTree prepared.now atoms.now (leaf_tree L.value tree.now)
        (map (invariant L.value) list.old.items) (map (invariant L.value) list.new.items)) }
    ensures known { OnOk result (AreKnown prepared.now atoms.now known.new) }
{
    let mut own = invariants_at(alloc, known, prepared, atoms, tree)?;
    list.append(&mut own)?;
    Ok(())
}

/// The invariants of trees of leaves, whose tests are numbers of the atoms: of each tree, in their order, and of each of its paths,
/// the side of false first, that some valid configuration meets, its region, as `region_of` has it, and its leaf.
///
/// Where no two trees have one place, a valid configuration meets the region of exactly one invariant of a tree's place, and its
/// leaf is the tree's there. The only refusal is want of memory.
pub fn invariants_of<L: Leaf>(
    alloc: Global,
    prepared: &Prepared,
    atoms: &[Atom],
    trees: &[PlaceTree<L>],
) -> Result<Vec<FamilyInvariant<L>>, NoMemory>
    requires atoms { AreAtoms (length prepared.now.features) atoms.now }
    requires tests { All (λ (t : PlaceTree L). TestsBelow (length atoms.now) (plain t.tree)) trees.now }
    ensures invariants { IfOk result
        (λ made. AreInvariants prepared.now atoms.now (map (leaf_tree L.value) trees.now)
        (map (invariant L.value) made.items)) }
    ensures cover { IfOk result (λ made. ArePlaced (map (leaf_tree L.value) trees.now)
        → CoversPlaces prepared.now atoms.now (map (leaf_tree L.value) trees.now)
        (map (invariant L.value) made.items)) }
    ensures fit { IfOk result (λ made. All
        (λ (i : FamilyInvariant L). AreLiterals
        (length prepared.now.features) i.region.literals) made.items) }
{
    let mut known = Known::new(alloc);
    let mut list = Vec::new(alloc);
    'trees: for tree in trees {
        push_invariants(alloc, &mut known, prepared, atoms, tree, &mut list)?;
    }
    Ok(list)
}

//! The loops of a family, and their trees.
#![tactic(auto)]

ghost use Rattle.std.specs.Prelude.{◌≡◌, ◌++◌, ◌∷◌, ℕ, List, map, IfOk, OnOk};
ghost use Rattle.std.specs.List.{All};
ghost use Rattle.c_tree.specs.Tree.{Done};
ghost use Rattle.c_tree.specs.View.{front, code, whole};
ghost use Rattle.decision_tree.specs.Plain.{TestsBelow};
ghost use Rattle.decision_tree.specs.View.{plain};
ghost use Rattle.alarm_report.specs.Invariants.{LeafTree, leaf_tree};
ghost use Rattle.lifted_analysis.specs.declared.findings.PlaceTree.{PlaceTree};
ghost use Rattle.lifted_analysis.specs.Turns.{loop_places as places_of};
ghost use Rattle.certificate_format.specs.Loops.{trees_at};

use c_tree::{Program, Stmt};
use fam_outer::{NoMemory, Place};
use leaf_domain::Leaf;
use lifted_analysis::PlaceTree;
use linear_atoms::slices::cut;
use std::alloc::Global;

/// The places of all loops of a family, in the order of the text. The only refusal is want of memory.
pub fn loop_places(alloc: Global, code: &Program) -> Result<Vec<Place>, NoMemory>
    ensures { IfOk result (λ made. made.items ≡ places_of (whole code.now).body) }
{
    let mut out = Vec::new(alloc);
    push_loops(&code.body, &mut out)?;
    Ok(out)
}

/// Adds the places of the loops of a list.
#[cycle(loops)]
#[tactic(auto, using(crate::proofs::Listed::loop_lists))]
fn push_loops(list: &[Stmt], out: &mut Vec<Place>) -> Result<(), NoMemory>
    ensures { OnOk result (out.new.items ≡ out.old.items ++ places_of (code list.now)) }
{
    for s in list {
        push_loops_of(s, out)?;
    }
    Ok(())
}

/// Adds the places of the loops of a statement.
#[cycle(loops)]
fn push_loops_of(s: &Stmt, out: &mut Vec<Place>) -> Result<(), NoMemory>
    ensures { OnOk result (out.new.items ≡ out.old.items ++ places_of (front s.now Done)) }
{
    match s {
        Stmt::Assign { .. }
        | Stmt::Input { .. }
        | Stmt::Assert { .. }
        | Stmt::Leave { .. }
        | Stmt::Skip { .. } => Ok(()),
        Stmt::If { yes, no, .. } | Stmt::Cond { yes, no, .. } => {
            push_loops(yes, out)?;
            push_loops(no, out)
        }
        Stmt::While {
            place,
            step,
            body,
            ..
        } => {
            out.push(*place)?;
            push_loops(step, out)?;
            push_loops(body, out)
        }
        Stmt::Do { place, body, .. } => {
            out.push(*place)?;
            push_loops(body, out)
        }
        Stmt::Block { body, .. } => push_loops(body, out),
    }
}

/// Takes the tree, with one more owner, if it stands at the first of these places, and answers the places that are left.
fn take_tree<'a, L: Leaf>(
    made: &mut Vec<PlaceTree<L>>,
    loops: &'a [Place],
    tree: &PlaceTree<L>,
) -> Result<&'a [Place], NoMemory>
    ensures trees { IfOk result (λ left. (ts : List LeafTree)
        → map (leaf_tree L.value) made.new.items ++ trees_at left.now ts
        ≡ map (leaf_tree L.value) made.old.items ++ trees_at loops.now (leaf_tree L.value tree.now ∷ ts)) }
    ensures tests { IfOk result (λ _. (count : ℕ) → TestsBelow count (plain tree.now.tree)
        → All (λ (p : PlaceTree L). TestsBelow count (plain p.tree)) made.old.items
        → All (λ (p : PlaceTree L). TestsBelow count (plain p.tree)) made.new.items) }
{
    let place = tree.place;
    match cut(loops) {
        Some((next, behind)) if place.line == next.line && place.column == next.column => {
            let tree = tree.tree.share()?;
            made.push(PlaceTree { place, tree })?;
            Ok(behind)
        }
        _ => Ok(loops),
    }
}

/// The trees of the loops of a family, each with one more owner, among those of all places; both stand in the order of the text.
/// The only refusal is want of memory.
pub fn loop_trees<L: Leaf>(
    alloc: Global,
    loops: &[Place],
    places: &[PlaceTree<L>],
) -> Result<Vec<PlaceTree<L>>, NoMemory>
    ensures trees { IfOk result (λ made. map (leaf_tree L.value) made.items
        ≡ trees_at loops.now (map (leaf_tree L.value) places.now)) }
    ensures tests { IfOk result (λ made. (count : ℕ)
        → All (λ (p : PlaceTree L). TestsBelow count (plain p.tree)) places.now
        → All (λ (p : PlaceTree L). TestsBelow count (plain p.tree)) made.items) }
{
    let mut made = Vec::new(alloc);
    let mut left = loops;
    'places: for tree in places {
        left = take_tree(&mut made, left, tree)?;
    }
    Ok(made)
}

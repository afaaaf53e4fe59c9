//! All trees of an analysis, restricted to what is plausible.
#![tactic(auto)]

ghost use Rattle.std.specs.Prelude.{◌≡◌, ◌<◌, ℕ, List, Bool, map, IfOk};
ghost use Rattle.std.specs.List.{All};
ghost use Rattle.fam_outer.specs.declared.faults.Place.{Place};
ghost use Rattle.c_tree.specs.declared.tree.Kind.{Kind};
ghost use Rattle.cpp_conditions.specs.Propositions.{IsBelow};
ghost use Rattle.cpp_conditions.specs.View.{formula};
ghost use Rattle.decision_tree.specs.Listed.{IsNumberedTree, IsTreeIn, Keeps};
ghost use Rattle.decision_tree.specs.View.{numbered, plain};
ghost use Rattle.leaf_domain.specs.Leaves.{LeafValue};
ghost use Rattle.lifted_analysis.specs.declared.findings.AlarmTree.{AlarmTree};
ghost use Rattle.lifted_analysis.specs.declared.findings.PlaceTree.{PlaceTree};
ghost use Rattle.lifted_analysis.specs.Canon.{IsTreeOf};
ghost use Rattle.lifted_analysis.specs.Promises.{valued};
ghost use Rattle.merged_findings.specs.Merged.{IsMergedTree};
ghost use Rattle.merged_findings.specs.Pairs.{ArePairs, AreMerged, IsMergedAlarm, IsMergedPlace};

use crate::merging::{Tables, merged_leaves, merged_truths};
use cpp_conditions::Formula;
use decision_tree::Tree;
use fam_outer::NoMemory;
use leaf_domain::{Leaf, equality_is_exact};
use lifted_analysis::{AlarmTree, FamilyFindings, PlaceTree};
use std::alloc::Global;
use std::marker::Brand;
use std::sync::ledger::{Blank, Ledger};
use tree_unify::test_tree_in;

/// The trees of places, each restricted to where the care is true.
fn merged_places<L: Leaf, K: Ledger>(
    tables: &mut Tables<L, K>,
    care: &Tree<bool>,
    places: &[PlaceTree<L>],
) -> Result<Vec<PlaceTree<L>>, NoMemory>
    requires care { IsTreeIn 0 320 tables.old.cares (numbered care.now) }
    requires trees { All (λ p. IsNumberedTree 0 320 (numbered p.tree)) places.now }
    ensures merged { IfOk result (λ made. ArePairs (IsMergedPlace (plain care.now)) places.now made.items) }
    ensures cares { Keeps tables.old.cares tables.new.cares }
{
    let mut made = Vec::new(tables.alloc);
    for place in places {
        let tree = merged_leaves(tables, care, &place.tree)?;
        made.push(PlaceTree {
            place: place.place,
            tree,
        })?;
    }
    Ok(made)
}

/// The trees of stops, each restricted to where the care is true.
fn merged_alarms<L: Leaf, K: Ledger>(
    tables: &mut Tables<L, K>,
    care: &Tree<bool>,
    alarms: &[AlarmTree],
) -> Result<Vec<AlarmTree>, NoMemory>
    requires care { IsTreeIn 0 320 tables.old.cares (numbered care.now) }
    requires trees { All (λ (a : AlarmTree). IsNumberedTree 0 320 (numbered a.tree)) alarms.now }
    ensures merged { IfOk result (λ made. ArePairs (IsMergedAlarm (plain care.now)) alarms.now made.items) }
    ensures cares { Keeps tables.old.cares tables.new.cares }
{
    let mut made = Vec::new(tables.alloc);
    for alarm in alarms {
        let tree = merged_truths(tables, care, &alarm.tree)?;
        made.push(AlarmTree {
            place: alarm.place,
            kind: alarm.kind,
            tree,
        })?;
    }
    Ok(made)
}

/// All trees, over these tables.
fn merged_in<L: Leaf, K: Ledger>(
    tables: &mut Tables<L, K>,
    findings: &FamilyFindings<L>,
    plausible: &Formula,
) -> Result<FamilyFindings<L>, NoMemory>
    requires below { IsBelow 320 (formula plausible.now) }
    requires places { All (λ p. IsNumberedTree 0 320 (numbered p.tree)) findings.now.places.items }
    requires alarms { All (λ (a : AlarmTree). IsNumberedTree 0 320 (numbered a.tree)) findings.now.alarms.items }
    ensures { IfOk result (λ made. AreMerged (formula plausible.now) findings.now made) }
{
    let alloc = tables.alloc;
    let care = test_tree_in(alloc, &mut tables.cares, plausible, &mut tables.steps)?;
    let places = merged_places(tables, &care, findings.places.as_slice())?;
    let alarms = merged_alarms(tables, &care, findings.alarms.as_slice())?;
    Ok(FamilyFindings { places, alarms })
}

/// All trees, with a counter of the steps.
fn merged_counted<L: Leaf, K: Ledger>(
    alloc: Global,
    findings: &FamilyFindings<L>,
    plausible: &Formula,
    blank: Blank,
) -> Result<FamilyFindings<L>, NoMemory>
    requires name { blank.name ≡ K.name }
    requires parts { blank.parts ≡ K.parts }
    requires some { 0 < K.parts }
    requires below { IsBelow 320 (formula plausible.now) }
    requires places { All (λ p. IsNumberedTree 0 320 (numbered p.tree)) findings.now.places.items }
    requires alarms { All (λ (a : AlarmTree). IsNumberedTree 0 320 (numbered a.tree)) findings.now.alarms.items }
    ensures { IfOk result (λ made. AreMerged (formula plausible.now) findings.now made) }
{
    let mut tables = Tables::<L, K>::new(alloc, blank);
    merged_in(&mut tables, findings, plausible)
}

/// The findings of an analysis with each tree restricted to the vectors at which `plausible` is true (the operator restrict of
/// O. Coudert and J. C. Madre, "A unified framework for the formal verification of sequential circuits", ICCAD 1990).
///
/// Each tree of a place and each alarm tree stays where it is in its list, and each of its tests and leaves is one that it had. At each
/// vector that is plausible it leads where it did; at others it may lead to any leaf that it had. The trees must have numbers, as those
/// of `analyse_family` have, and the numbers of `plausible` be below 320. Only the pairs of a tree's nodes and of the trees that sides
/// and unions of `plausible` come to are looked at, each once. The only refusal is want of memory.
pub fn merged_findings<L: Leaf>(
    alloc: Global,
    findings: &FamilyFindings<L>,
    plausible: &Formula,
) -> Result<FamilyFindings<L>, NoMemory>
    requires below { IsBelow 320 (formula plausible.now) }
    requires places { All (λ p. IsNumberedTree 0 320 (numbered p.tree)) findings.now.places.items }
    requires alarms { All (λ (a : AlarmTree). IsNumberedTree 0 320 (numbered a.tree)) findings.now.alarms.items }
    ensures place_keys { IfOk result (λ made. map (λ p. p.place) made.places.items
        ≡ map (λ p. p.place) findings.now.places.items) }
    ensures alarm_keys { IfOk result (λ made. map {B = Place × Kind} (λ (a : AlarmTree). (a.place, a.kind)) made.alarms.items
        ≡ map {B = Place × Kind} (λ (a : AlarmTree). (a.place, a.kind)) findings.now.alarms.items) }
    ensures trees { IfOk result (λ made. (m : ℕ) (f : Place → List Bool → LeafValue) → IsBelow m (formula plausible.now)
        → All (λ p. IsTreeOf m (f p.place) (valued L.value (plain p.tree))) findings.now.places.items
        → All (λ p. IsMergedTree m (f p.place) (formula plausible.now) (valued L.value (plain p.tree))) made.places.items) }
    ensures alarm_trees { IfOk result (λ made. (m : ℕ) (f : Place × Kind → List Bool → Bool) → IsBelow m (formula plausible.now)
        → All (λ (a : AlarmTree). IsTreeOf m (f (a.place, a.kind)) (plain a.tree)) findings.now.alarms.items
        → All (λ (a : AlarmTree). IsMergedTree m (f (a.place, a.kind)) (formula plausible.now) (plain a.tree)) made.alarms.items) }
{
    equality_is_exact::<L>();
    merged_counted::<L, Brand>(alloc, findings, plausible, Blank::new(1))
}

//! The alarms of a family, with their regions.
#![tactic(auto)]

ghost use Rattle.std.specs.Prelude.{◌≡◌, length, map, IfOk, OnOk};
ghost use Rattle.std.specs.List.{All};
ghost use Rattle.linear_atoms.specs.Atoms.{AreAtoms, AreLiterals};
ghost use Rattle.decision_tree.specs.Plain.{TestsBelow};
ghost use Rattle.decision_tree.specs.View.{plain};
ghost use Rattle.lifted_analysis.specs.declared.findings.AlarmTree.{AlarmTree};
ghost use Rattle.alarm_report.specs.declared.alarms.FamilyAlarm.{FamilyAlarm};
ghost use Rattle.alarm_report.specs.Adding.{AddsTree};
ghost use Rattle.alarm_report.specs.Known.{AreKnown};
ghost use Rattle.alarm_report.specs.Alarms.{AreAlarms, AreKeyed, CoversStops, plain_alarm_tree, alarm_in};

use crate::finding::regions_known;
use crate::known::Known;
use crate::region::Region;
use atom_solver::Prepared;
use c_tree::Kind;
use fam_outer::{NoMemory, Place};
use lifted_analysis::AlarmTree;
use linear_atoms::Atom;
use std::alloc::Global;
use std::marker::Model;

/// A stop that some variants of a family may meet: the place of the statement, the kind, and a region, whose valid configurations
/// are such variants.
#[derive(Debug, Drop)]
pub struct FamilyAlarm {
    pub place: Place,
    pub kind: Kind,
    pub region: Region,
}

/// A list of alarms of a family.
#[derive(Debug, Drop)]
pub struct FamilyAlarms {
    list: Vec<FamilyAlarm>,
}

impl Model for FamilyAlarms {
    ghost use Rattle.std.specs.Prelude.{List};
    ghost use Rattle.alarm_report.specs.declared.alarms.FamilyAlarm.{FamilyAlarm};

    ghost Value = { List FamilyAlarm };

    ghost view = { λ alarms. alarms.list.items };
}

impl FamilyAlarms {
    /// These alarms.
    pub fn from_vec(list: Vec<FamilyAlarm>) -> FamilyAlarms
        ensures { result ≡ list.items }
    {
        FamilyAlarms { list }
    }

    /// The alarms.
    pub fn items(&self) -> &[FamilyAlarm]
        ensures { result.now ≡ self.now }
    {
        self.list.as_slice()
    }
}

/// Regions, each with this place and kind.
fn placed(
    alloc: Global,
    place: Place,
    kind: Kind,
    regions: Vec<Region>,
) -> Result<Vec<FamilyAlarm>, NoMemory>
    ensures { IfOk result (λ made. made.items ≡ map (alarm_in place kind) regions.items) }
{
    let mut list = Vec::new(alloc);
    'regions: for region in regions {
        list.push(FamilyAlarm {
            place,
            kind,
            region,
        })?;
    }
    Ok(list)
}

/// Adds the alarms of a tree.
fn push_alarms(
    alloc: Global,
    known: &mut Known,
    prepared: &Prepared,
    atoms: &[Atom],
    tree: &AlarmTree,
    list: &mut Vec<FamilyAlarm>,
) -> Result<(), NoMemory>
    requires atoms { AreAtoms (length prepared.now.features) atoms.now }
    requires tests { TestsBelow (length atoms.now) (plain tree.now.tree) }
    requires known { AreKnown prepared.now atoms.now known.old }
    ensures added { IfOk result (λ _. AddsTree prepared.now atoms.now
        (plain_alarm_tree tree.now) list.old.items list.new.items) }
    ensures known { OnOk result (AreKnown prepared.now atoms.now known.new) }
{
    let regions = regions_known(alloc, known, prepared, atoms, &tree.tree)?;
    let mut alarms = placed(alloc, tree.place, tree.kind, regions.into_vec())?;
    list.append(&mut alarms)?;
    Ok(())
}

/// The alarms of trees of stops, whose tests are numbers of the atoms: of each tree, in their order, the regions of its paths to
/// true, as `regions_over` has them, each with the tree's place and kind.
///
/// Where no two trees have one place and kind, a valid configuration meets the region of exactly one alarm of a tree's place and
/// kind if the tree is true there, and else of none. The only refusal is want of memory.
pub fn alarms_of(
    alloc: Global,
    prepared: &Prepared,
    atoms: &[Atom],
    trees: &[AlarmTree],
) -> Result<FamilyAlarms, NoMemory>
    requires atoms { AreAtoms (length prepared.now.features) atoms.now }
    requires tests { All (λ (t : AlarmTree). TestsBelow (length atoms.now) (plain t.tree)) trees.now }
    ensures alarms { IfOk result (λ made. AreAlarms prepared.now atoms.now (map plain_alarm_tree trees.now) made) }
    ensures cover { IfOk result (λ made. AreKeyed (map plain_alarm_tree trees.now)
        → CoversStops prepared.now atoms.now (map plain_alarm_tree trees.now) made) }
    ensures fit { IfOk result (λ made. All
        (λ (a : FamilyAlarm). AreLiterals (length prepared.now.features) a.region.literals) made) }
{
    let mut known = Known::new(alloc);
    let mut list = Vec::new(alloc);
    'trees: for tree in trees {
        push_alarms(alloc, &mut known, prepared, atoms, tree, &mut list)?;
    }
    Ok(FamilyAlarms::from_vec(list))
}

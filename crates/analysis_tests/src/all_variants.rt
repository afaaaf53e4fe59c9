//! The trees of a family at every vector, against the analysis of its program alone.

ghost use Rattle.c_tree.specs.View.{whole};
ghost use Rattle.c_tree.specs.Whole.{IsProgram};
ghost use Rattle.c_tree.specs.Project.{IsConditioned};

use crate::families::{family, unsteady_family};
use c_tree::{Mode, Program, project};
use cpp_conditions::Formula;
use decision_tree::Tree;
use fam_outer::NoMemory;
use interval_leaf::IntervalLeaf;
use leaf_domain::{Leaf, Thresholds};
use lifted_analysis::{AlarmTree, FamilyFindings, PlaceTree, analyse_family};
use loop_thresholds::thresholds_of;
use plain_analysis::{Alarm, Findings, Options, PlaceLeaf, analyse_one};
use std::alloc::Global;
use std::test::Fail;

/// The path that a vector takes has this leaf.
fn leads<L: Drop + PartialEq>(
    alloc: Global,
    tree: &Tree<L>,
    vector: &[bool],
    leaf: &L,
) -> Result<bool, NoMemory> {
    let paths = tree.paths(alloc)?;
    Ok(
        paths.iter().any(|path| {
            path.turns
                .items()
                .iter()
                .all(|(test, value)| vector.get(*test as usize) == Some(value))
                && path.leaf.value == *leaf
        }),
    )
}

/// Whether the tree of a place has, at a vector, the leaf of the analysis of its program, or Nothing where that has no such
/// place.
fn has_leaf(
    alloc: Global,
    place: &PlaceTree<IntervalLeaf>,
    one: &[PlaceLeaf<IntervalLeaf>],
    vector: &[bool],
) -> Result<bool, NoMemory> {
    match one.iter().find(|leaf| leaf.place == place.place) {
        Some(at) => leads(alloc, &place.tree, vector, &at.leaf),
        None => {
            let nothing = IntervalLeaf::nothing(alloc, 2)?;
            leads(alloc, &place.tree, vector, &nothing)
        }
    }
}

/// Whether an alarm tree is true at a vector exactly where the analysis of its program has the alarm.
fn has_stop(
    alloc: Global,
    alarm: &AlarmTree,
    one: &[Alarm],
    vector: &[bool],
) -> Result<bool, NoMemory> {
    let is_found = one
        .iter()
        .any(|a| a.place == alarm.place && a.kind == alarm.kind);
    leads(alloc, &alarm.tree, vector, &is_found)
}

/// Whether all trees have, at a vector, what the analysis of its program has.
fn are_same(
    alloc: Global,
    family: &FamilyFindings<IntervalLeaf>,
    one: &Findings<IntervalLeaf>,
    vector: &[bool],
) -> Result<bool, NoMemory> {
    for place in family.places.as_slice() {
        if !has_leaf(alloc, place, one.places.items(), vector)? {
            return Ok(false);
        }
    }
    for alarm in family.alarms.as_slice() {
        if !has_stop(alloc, alarm, one.alarms.items(), vector)? {
            return Ok(false);
        }
    }
    Ok(true)
}

/// The analysis of the program of a vector, from the leaf of its start values, or from Nothing.
fn analyse_variant(
    alloc: Global,
    family: &Program,
    vector: &[bool; 3],
    is_plausible: bool,
    options: &Options,
) -> Result<Findings<IntervalLeaf>, NoMemory>
    requires program { IsProgram (whole family.now) }
    requires conditions { IsConditioned 3 (whole family.now) }
{
    let program = project(alloc, family, vector)?;
    let start = if is_plausible {
        IntervalLeaf::start(alloc, program.start.items())?
    } else {
        IntervalLeaf::nothing(alloc, program.names.items().len() as u32)?
    };
    analyse_one(alloc, &program, &start, options)
}

/// Whether the trees of a family of so many places are right at all vectors.
fn is_right(
    alloc: Global,
    code: &Program,
    places: usize,
    options: &Options,
) -> Result<bool, NoMemory>
    requires program { IsProgram (whole code.now) }
    requires conditions { IsConditioned 3 (whole code.now) }
{
    let conditions = [Formula::Test(0), Formula::Test(1), Formula::Test(2)];
    let first = Box::new(alloc, Formula::Test(0))?;
    let third = Box::new(alloc, Formula::Test(2))?;
    let plausible = Formula::Or(first, third);
    let found = analyse_family::<IntervalLeaf>(alloc, code, &conditions, &plausible, options)?;
    let mut is_right = found.places.len() == places
        && found.alarms.len() == places.saturating_mul(3);
    for number in 0..8u32 {
        let vector = [number & 1 == 1, number & 2 == 2, number & 4 == 4];
        let is_plausible = vector[0] || vector[2];
        let one = analyse_variant(alloc, code, &vector, is_plausible, options)?;
        is_right = is_right && are_same(alloc, &found, &one, &vector)?;
    }
    Ok(is_right)
}

#[test]
fn trees_are_those_of_the_variants(rt: HostRuntime) -> Result<(), Fail> {
    let cases = [
        (0, 0, false, Mode::Stop),
        (0, 3, false, Mode::Stop),
        (0, 3, true, Mode::Wrap),
        (1, 2, false, Mode::Wrap),
        (0, 1, true, Mode::Stop),
        (12, 1, false, Mode::Stop),
    ];
    let mixed = family(rt.alloc())?;
    let unsteady = unsteady_family(rt.alloc())?;
    for (delay, narrow, has_thresholds, mode) in cases {
        let thresholds = if has_thresholds {
            thresholds_of(rt.alloc(), &mixed)?
        } else {
            Thresholds::none(rt.alloc())
        };
        let options = Options {
            delay,
            narrow,
            thresholds,
            mode,
        };
        assert!(rt; is_right(rt.alloc(), &mixed, 11, &options)?);
        assert!(rt; is_right(rt.alloc(), &unsteady, 8, &options)?);
    }
    Ok(())
}

//! The trees of families of one condition, compared with bounds and alarms found by hand.

ghost use Rattle.c_tree.specs.View.{whole};
ghost use Rattle.c_tree.specs.Whole.{IsProgram};
ghost use Rattle.c_tree.specs.Project.{IsConditioned};

use crate::families::{declared_family, restarted_family, spread_family};
use c_tree::{Kind, Mode, Program};
use cpp_conditions::Formula;
use decision_tree::Tree;
use fam_outer::NoMemory;
use interval_leaf::IntervalLeaf;
use leaf_domain::{Leaf, Thresholds};
use lifted_analysis::{AlarmTree, PlaceTree, analyse_family};
use plain_analysis::Options;
use std::alloc::Global;
use std::test::Fail;

const ANY: (i64, i64) = (-2147483648, 2147483647);

/// The bounds of `a` and of `b`, or None of Nothing.
type Bounds = Option<((i64, i64), (i64, i64))>;

/// A line, and the bounds there where condition 0 is false and where it is true.
type Row = (u32, Bounds, Bounds);

fn bounds(leaf: &IntervalLeaf) -> Bounds {
    if leaf.is_nothing() || leaf.variables() != 2 {
        return None;
    }
    let a = leaf.bounds_of(0);
    let b = leaf.bounds_of(1);
    Some(((a.low, a.high), (b.low, b.high)))
}

/// The leaves of a tree where condition 0 is false and where it is true; None if it has another test.
fn sides<L>(tree: &Tree<L>) -> Option<(&L, &L)> {
    match tree {
        Tree::Leaf(leaf) => Some((&leaf.value, &leaf.value)),
        Tree::Node(node) => match (&node.no, &node.yes) {
            (Tree::Leaf(no), Tree::Leaf(yes)) if node.test == 0 => Some((&no.value, &yes.value)),
            _ => None,
        },
    }
}

/// Whether the tree of a place is that of a row, and one leaf where both bounds are the same.
fn has_bounds(place: &PlaceTree<IntervalLeaf>, row: Row) -> bool {
    let (line, when_false, when_true) = row;
    let is_one = matches!(&place.tree, Tree::Leaf(_));
    match sides(&place.tree) {
        Some((no, yes)) => {
            place.place.line == line
                && bounds(no) == when_false
                && bounds(yes) == when_true
                && is_one == (when_false == when_true)
        }
        None => false,
    }
}

/// Whether an alarm tree is true where condition 0 is false and the alarm is one of these, and nowhere else.
fn has_alarm(alarm: &AlarmTree, alarms: &[(u32, Kind)]) -> bool {
    let is_there = alarms.iter().any(|(line, kind)| alarm.place.line == *line
        && alarm.kind == *kind);
    match sides(&alarm.tree) {
        Some((no, yes)) => *no == is_there && !*yes,
        None => false,
    }
}

/// Whether the trees of a family have the bounds of the rows, and these alarms where condition 0 is false.
fn is_right(
    alloc: Global,
    code: &Program,
    mode: Mode,
    rows: &[Row],
    alarms: &[(u32, Kind)],
) -> Result<bool, NoMemory>
    requires program { IsProgram (whole code.now) }
    requires conditions { IsConditioned 1 (whole code.now) }
{
    let options = Options {
        delay: 0,
        narrow: 2,
        thresholds: Thresholds::none(alloc),
        mode,
    };
    let conditions = [Formula::Test(0)];
    let always = Formula::Const(true);
    let found = analyse_family::<IntervalLeaf>(alloc, code, &conditions, &always, &options)?;
    Ok(
        found.places.len() == rows.len()
            && found
                .places
                .iter()
                .zip(rows)
                .all(|(place, row)| has_bounds(place, *row))
            && found.alarms.iter().all(|alarm| has_alarm(alarm, alarms)),
    )
}

/// The bounds in the family of one loop, where these are the bounds of `a` at its head in the variant in which `a` grows.
fn loop_rows(a: (i64, i64)) -> [Row; 6] {
    let end = Some(((0, 0), (10, 10)));
    [
        (4, Some((a, (0, 10))), Some(((0, 0), (0, 10)))),
        (5, Some((a, (0, 9))), Some(((0, 0), (0, 9)))),
        (7, None, Some(((0, 0), (1, 10)))),
        (9, Some((a, (1, 10))), None),
        (12, Some((a, (10, 10))), end),
        (13, end, end),
    ]
}

/// A bound that only one variant widens stays as it is in the other, and the sides of a group are entered apart.
#[test]
fn one_variant_widens(rt: HostRuntime) -> Result<(), Fail> {
    let code = spread_family(rt.alloc())?;
    let rises = loop_rows((0, ANY.1));
    let stops = [(9, Kind::Overflow), (12, Kind::Assertion)];
    assert!(rt; is_right(rt.alloc(), &code, Mode::Stop, &rises, &stops)?);
    let wraps = loop_rows(ANY);
    let claims = [(12, Kind::Assertion)];
    assert!(rt; is_right(rt.alloc(), &code, Mode::Wrap, &wraps, &claims)?);
    Ok(())
}

/// A variable starts with the value of the declarator that its variant keeps.
#[test]
fn start_values_are_those_of_a_variant(rt: HostRuntime) -> Result<(), Fail> {
    let code = declared_family(rt.alloc())?;
    let one = Some(((1, 1), (0, 0)));
    let rows = [(7, Some(((0, 0), (0, 0))), one), (8, None, one)];
    let claims = [(7, Kind::Assertion)];
    assert!(rt; is_right(rt.alloc(), &code, Mode::Stop, &rows, &claims)?);
    Ok(())
}

/// A loop is gone through once for each tree with which it is entered: anew in each round of 24 loops it would not end.
#[test]
fn loops_in_loops_end(rt: HostRuntime) -> Result<(), Fail> {
    let code = restarted_family(rt.alloc())?;
    let options = Options {
        delay: 0,
        narrow: 2,
        thresholds: Thresholds::none(rt.alloc()),
        mode: Mode::Stop,
    };
    let conditions = [Formula::Test(0)];
    let always = Formula::Const(true);
    let found = analyse_family::<IntervalLeaf>(rt.alloc(), &code, &conditions, &always, &options)?;
    let row = (49, Some(((0, 0), (0, 0))), Some(((10, ANY.1), (0, 0))));
    assert!(rt;
        found
            .places
            .last()
            .is_some_and(|place| has_bounds(place, row))
    );
    Ok(())
}

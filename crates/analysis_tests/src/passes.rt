//! A pass over a family with given heads of its loop, compared with bounds, alarms and answers found by hand.

ghost use Rattle.std.specs.Prelude.{◌≡◌, IfOk};
ghost use Rattle.c_tree.specs.Value.{IsInt};
ghost use Rattle.lifted_analysis.specs.Lines.{AreVariableBounds};

use crate::families::held_family;
use c_tree::{Kind, Mode};
use cpp_conditions::Formula;
use decision_tree::Tree;
use fam_outer::{NoMemory, Place};
use interval_leaf::IntervalLeaf;
use leaf_domain::{Leaf, Range};
use lifted_analysis::{LoopLine, PassFindings, Ranges, pass_family};
use std::alloc::Global;
use std::test::Fail;

/// The bounds of `a` and of `b`, or None of Nothing.
type Bounds = Option<((i64, i64), (i64, i64))>;

/// A vector of the condition and of the tests 1 and 2 of regions; the bounds at the loop, at its body, at the assertion and at
/// the end; whether the assertion has an alarm, and whether the loop is inductive.
type Row = ([bool; 3], [Bounds; 4], bool, bool);

/// A line of a place with bounds of both variables.
fn bounded(
    alloc: Global,
    line: u32,
    region: Formula,
    a: (i64, i64),
    b: (i64, i64),
) -> Result<LoopLine, NoMemory>
    requires a_low { IsInt a.0 }
    requires a_high { IsInt a.1 }
    requires b_low { IsInt b.0 }
    requires b_high { IsInt b.1 }
    ensures region { IfOk result (λ made. made.region ≡ region) }
    ensures bounds { IfOk result (λ made. AreVariableBounds 2 made.bounds) }
{
    let mut list = Vec::new(alloc);
    list.push(Range {
        low: a.0,
        high: a.1,
    })?;
    list.push(Range {
        low: b.0,
        high: b.1,
    })?;
    Ok(LoopLine {
        place: Place { line, column: 1 },
        region,
        bounds: Some(Ranges::from_vec(list)),
    })
}

fn bounds(leaf: &IntervalLeaf) -> Bounds {
    if leaf.is_nothing() || leaf.variables() != 2 {
        return None;
    }
    let a = leaf.bounds_of(0);
    let b = leaf.bounds_of(1);
    Some(((a.low, a.high), (b.low, b.high)))
}

/// The bounds of the leaf to which a vector leads.
fn bounds_at(
    alloc: Global,
    tree: &Tree<IntervalLeaf>,
    vector: &[bool; 3],
) -> Result<Bounds, NoMemory> {
    let paths = tree.paths(alloc)?;
    let path = paths.iter().find(|path| {
        path.turns
            .items()
            .iter()
            .all(|(test, value)| vector.get(*test as usize) == Some(value))
    });
    Ok(match path {
        Some(path) => bounds(&path.leaf.value),
        None => None,
    })
}

/// The truth to which a vector leads.
fn truth_at(alloc: Global, tree: &Tree<bool>, vector: &[bool; 3]) -> Result<bool, NoMemory> {
    let paths = tree.paths(alloc)?;
    Ok(
        paths.iter().any(|path| {
            path.turns
                .items()
                .iter()
                .all(|(test, value)| vector.get(*test as usize) == Some(value))
                && path.leaf.value
        }),
    )
}

/// Whether a pass finds what a row says.
fn is_as(alloc: Global, found: &PassFindings<IntervalLeaf>, row: &Row) -> Result<bool, NoMemory> {
    let (vector, leaves, claims, inductive) = row;
    let lines = [4, 5, 8, 9];
    let mut is_as = found.places.len() == 4 && found.alarms.len() == 12 && found.loops.len() == 1;
    for ((place, line), expected) in found.places.iter().zip(&lines).zip(leaves) {
        is_as = is_as
            && place.place.line == *line
            && bounds_at(alloc, &place.tree, vector)? == *expected;
    }
    for alarm in found.alarms.as_slice() {
        let is_claim = alarm.place.line == 8 && alarm.kind == Kind::Assertion;
        is_as = is_as && truth_at(alloc, &alarm.tree, vector)? == (is_claim && *claims);
    }
    for one in found.loops.as_slice() {
        is_as = is_as && one.place.line == 4 && truth_at(alloc, &one.tree, vector)? == *inductive;
    }
    Ok(is_as)
}

/// The first line at a loop whose region holds gives its head: Nothing, a head that the body leaves, one that stays, and one
/// that is not entered and too wide for the assertion. A line at the body says nothing.
#[test]
fn loops_have_what_lines_say(rt: HostRuntime) -> Result<(), Fail> {
    let alloc = rt.alloc();
    let code = held_family(alloc)?;
    let both = Formula::And(
        Box::new(alloc, Formula::Test(1))?,
        Box::new(alloc, Formula::Test(2))?,
    );
    let unreached = LoopLine {
        place: Place { line: 4, column: 1 },
        region: both,
        bounds: None,
    };
    let always = Formula::Const(true);
    let lines = [
        bounded(alloc, 5, Formula::Const(true), (7, 7), (7, 7))?,
        unreached,
        bounded(alloc, 4, Formula::Test(2), (0, 0), (0, 9))?,
        bounded(alloc, 4, Formula::Test(1), (0, 0), (0, 10))?,
        bounded(alloc, 4, Formula::Const(true), (0, 5), (1, 10))?,
    ];
    let conditions = [Formula::Test(0)];
    let found = pass_family::<IntervalLeaf>(
        alloc,
        &code,
        &conditions,
        &always,
        Mode::Stop,
        &lines,
    )?;
    let zero = Some(((0, 0), (0, 0)));
    let ten = Some(((0, 0), (10, 10)));
    let rows = [
        ([false, false, false], [None, None, zero, zero], false, true),
        ([false, true, true], [None, None, zero, zero], false, true),
        ([true, true, true], [None, None, None, None], false, false),
        (
            [true, false, true],
            [Some(((0, 0), (0, 9))), Some(((0, 0), (0, 9))), None, None],
            false,
            false,
        ),
        (
            [true, true, false],
            [Some(((0, 0), (0, 10))), Some(((0, 0), (0, 9))), ten, ten],
            false,
            true,
        ),
        (
            [true, false, false],
            [
                Some(((0, 5), (1, 10))),
                Some(((0, 5), (1, 9))),
                Some(((0, 5), (10, 10))),
                ten,
            ],
            true,
            false,
        ),
    ];
    for row in &rows {
        assert!(rt; is_as(alloc, &found, row)?);
    }
    Ok(())
}

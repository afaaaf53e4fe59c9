//! The steps of a loop on two leaves, compared with bounds found by hand.

ghost use Rattle.std.specs.Prelude.{◌≡◌, IfOk};
ghost use Rattle.c_tree.specs.Value.{IsInt};

use fam_outer::NoMemory;
use interval_leaf::IntervalLeaf;
use leaf_domain::{Leaf, Range, Thresholds};
use plain_analysis::{joined, moved, narrowed_by, round};
use std::alloc::Global;
use std::test::Fail;

const LEAST: i64 = -2147483648;

const GREATEST: i64 = 2147483647;

/// The leaf in which the only variable has these bounds.
fn leaf(alloc: Global, low: i64, high: i64) -> Result<IntervalLeaf, NoMemory>
    requires low { IsInt low }
    requires high { IsInt high }
    ensures { IfOk result (λ made. made.variables ≡ 1) }
{
    let start = IntervalLeaf::start(alloc, &[7])?;
    start.set_range(alloc, 0, Range::new(low, high))
}

/// The bounds of the only variable.
fn bounds(leaf: &IntervalLeaf) -> Option<(i64, i64)> {
    if leaf.variables() != 1 {
        return None;
    }
    let r = leaf.bounds_of(0);
    Some((r.low, r.high))
}

/// The thresholds of the rows that have some.
fn some_thresholds(alloc: Global) -> Result<Thresholds, NoMemory> {
    Ok(Thresholds::from_vec(Vec::from_slice(alloc, &[-4, 6, 10])?))
}

/// Bounds at the head, those of what comes in, whether the round is an early one, and the bounds that they are joined to,
/// narrowed to and moved to.
type Row = (
    (i64, i64),
    (i64, i64),
    bool,
    (i64, i64),
    (i64, i64),
    Option<(i64, i64)>,
);

/// Whether all steps to these thresholds give the bounds of a row.
fn is_right(alloc: Global, row: Row, thresholds: &Thresholds) -> Result<bool, NoMemory>
    requires at_low { IsInt row.0.0 }
    requires at_high { IsInt row.0.1 }
    requires next_low { IsInt row.1.0 }
    requires next_high { IsInt row.1.1 }
{
    let (head, next, is_early, join, narrow, moves) = row;
    let at = leaf(alloc, head.0, head.1)?;
    let next = leaf(alloc, next.0, next.1)?;
    let after = match moved(alloc, &at, &next, is_early, thresholds)? {
        Some(made) => bounds(&made),
        None => None,
    };
    let stays = if moves.is_some() { moves } else { Some(head) };
    Ok(
        bounds(&joined(alloc, &at, &next)?) == Some(join)
            && bounds(&narrowed_by(alloc, &at, &next, thresholds)?) == Some(narrow)
            && after == moves
            && bounds(&round(alloc, &at, &next, is_early, thresholds)?) == stays,
    )
}

#[test]
fn steps_are_those_found_by_hand(rt: HostRuntime) -> Result<(), Fail> {
    let rows = [
        ((0, 5), (0, 7), true, (0, 7), (0, 5), Some((0, 7))),
        ((0, 5), (0, 7), false, (0, 7), (0, 5), Some((0, GREATEST))),
        (
            (3, 5),
            (2, 9),
            false,
            (2, 9),
            (3, 5),
            Some((LEAST, GREATEST)),
        ),
        ((0, GREATEST), (0, 7), false, (0, GREATEST), (0, 7), None),
        (
            (LEAST, 5),
            (3, 9),
            true,
            (LEAST, 9),
            (3, 5),
            Some((LEAST, 9)),
        ),
        ((3, 5), (4, 5), true, (3, 5), (3, 5), None),
    ];
    let none = Thresholds::none(rt.alloc());
    for row in rows {
        assert!(rt; is_right(rt.alloc(), row, &none)?);
    }
    Ok(())
}

/// Each bound that what comes in moves steps to the nearest threshold that covers that of what comes in; one that stands at a
/// threshold or at that of the type narrows.
#[test]
fn steps_to_thresholds_are_those_found_by_hand(rt: HostRuntime) -> Result<(), Fail> {
    let rows = [
        ((0, 5), (0, 6), false, (0, 6), (0, 5), Some((0, 6))),
        ((0, 6), (0, 7), false, (0, 7), (0, 7), Some((0, 10))),
        (
            (0, 10),
            (0, 11),
            false,
            (0, 11),
            (0, 11),
            Some((0, GREATEST)),
        ),
        ((0, 5), (-1, 9), false, (-1, 9), (0, 5), Some((-4, 10))),
        ((-4, 5), (-5, 5), false, (-5, 5), (-5, 5), Some((LEAST, 5))),
        ((-4, 10), (1, 8), false, (-4, 10), (1, 8), None),
        ((0, 5), (0, 7), true, (0, 7), (0, 5), Some((0, 7))),
        ((0, GREATEST), (0, 7), false, (0, GREATEST), (0, 7), None),
    ];
    let some = some_thresholds(rt.alloc())?;
    for row in rows {
        assert!(rt; is_right(rt.alloc(), row, &some)?);
    }
    Ok(())
}

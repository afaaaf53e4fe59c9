//! Leaves of two variables, compared with ranges found by hand.

ghost use Rattle.std.specs.Prelude.{◌≡◌, IfOk};
ghost use Rattle.c_tree.specs.Value.{IsInt};

use fam_outer::NoMemory;
use interval_leaf::IntervalLeaf;
use leaf_domain::{Leaf, Range, Thresholds};
use std::alloc::Global;
use std::test::Fail;

pub(crate) const LEAST: i64 = -2147483648;

pub(crate) const GREATEST: i64 = 2147483647;

/// The leaf in which the first variable has these bounds, and the second is 7.
pub(crate) fn leaf(alloc: Global, low: i64, high: i64) -> Result<IntervalLeaf, NoMemory>
    requires low { IsInt low }
    requires high { IsInt high }
    ensures { IfOk result (λ made. made.variables ≡ 2) }
{
    let start = IntervalLeaf::start(alloc, &[0, 7])?;
    start.set_range(alloc, 0, Range::new(low, high))
}

/// The bounds of the first of two variables.
fn bounds(leaf: &IntervalLeaf) -> Option<(i64, i64)> {
    if leaf.variables() != 2 {
        return None;
    }
    let r = leaf.bounds_of(0);
    Some((r.low, r.high))
}

#[test]
fn leaves_join_widen_and_narrow(rt: HostRuntime) -> Result<(), Fail> {
    let small = leaf(rt.alloc(), 0, 3)?;
    let great = leaf(rt.alloc(), -1, 2)?;
    let none = Thresholds::none(rt.alloc());
    assert_eq!(rt; bounds(&small.join(rt.alloc(), &great)?), Some((-1, 3)));
    assert_eq!(rt;
        bounds(&small.widen(rt.alloc(), &great, &none)?),
        Some((LEAST, 3))
    );
    let wide = small.widen(rt.alloc(), &leaf(rt.alloc(), 0, 4)?, &none)?;
    assert_eq!(rt; bounds(&wide), Some((0, GREATEST)));
    let less = leaf(rt.alloc(), 1, 9)?;
    assert_eq!(rt; wide.variables(), less.variables());
    assert_eq!(rt;
        bounds(&wide.narrow(rt.alloc(), &less, &none)?),
        Some((0, 9))
    );
    assert!(rt; leaf(rt.alloc(), 1, 2)?.leq(&small));
    assert!(rt; !great.leq(&small));
    Ok(())
}

/// The numbers -100, 10 and 50.
pub(crate) fn thresholds(alloc: Global) -> Result<Thresholds, NoMemory> {
    Ok(Thresholds::from_vec(vec![in alloc; -100i64, 10i64, 50i64]?))
}

/// The bounds of a variable, those that come in at a loop's head, and what widening makes of both.
const WIDENED: [((i64, i64), (i64, i64), (i64, i64)); 10] = [
    // neither bound is moved
    ((0, 3), (1, 3), (0, 3)),
    // the high steps through two thresholds, and then past the last
    ((0, 3), (0, 7), (0, 10)),
    ((0, 10), (0, 11), (0, 50)),
    ((0, 50), (0, 51), (0, GREATEST)),
    // a high that is a threshold already
    ((0, 3), (0, 10), (0, 10)),
    // the low steps to the greatest threshold that is not above it
    ((0, 3), (-5, 3), (-100, 3)),
    ((-100, 3), (-101, 3), (LEAST, 3)),
    ((60, 70), (55, 70), (50, 70)),
    // a high below 0
    ((-300, -200), (-300, -150), (-300, -100)),
    // both
    ((0, 3), (-1, 4), (-100, 10)),
];

#[test]
fn bounds_step_to_thresholds(rt: HostRuntime) -> Result<(), Fail> {
    let thresholds = thresholds(rt.alloc())?;
    for ((low, high), (other_low, other_high), want) in WIDENED {
        let own = leaf(rt.alloc(), low, high)?;
        let other = leaf(rt.alloc(), other_low, other_high)?;
        let wide = own.widen(rt.alloc(), &other, &thresholds)?;
        assert_eq!(rt; bounds(&wide), Some(want), "{low} {high}");
    }
    Ok(())
}

/// The bounds of a variable, those that come in at a loop's head, and what narrowing makes of both.
const NARROWED: [((i64, i64), (i64, i64), (i64, i64)); 5] = [
    // bounds that are thresholds, whichever of the two they are
    ((-100, 10), (-1, 4), (-1, 4)),
    ((10, 50), (11, 12), (11, 12)),
    // bounds of the type
    ((LEAST, GREATEST), (0, 9), (0, 9)),
    // bounds that no step gives
    ((0, 11), (1, 4), (0, 11)),
    ((-99, 49), (0, 0), (-99, 49)),
];

#[test]
fn steps_are_taken_back(rt: HostRuntime) -> Result<(), Fail> {
    let thresholds = thresholds(rt.alloc())?;
    for ((low, high), (other_low, other_high), want) in NARROWED {
        let own = leaf(rt.alloc(), low, high)?;
        let other = leaf(rt.alloc(), other_low, other_high)?;
        let narrow = own.narrow(rt.alloc(), &other, &thresholds)?;
        assert_eq!(rt; bounds(&narrow), Some(want), "{low} {high}");
    }
    Ok(())
}

#[test]
fn nothing_is_the_unit(rt: HostRuntime) -> Result<(), Fail> {
    let small = leaf(rt.alloc(), 0, 3)?;
    let nothing = small.meet_range(rt.alloc(), 0, Range::new(4, 9))?;
    assert!(rt; nothing.is_nothing());
    assert!(rt; nothing == IntervalLeaf::nothing(rt.alloc(), 2)?);
    assert!(rt; nothing.join(rt.alloc(), &small)? == small);
    assert!(rt; small.join(rt.alloc(), &nothing)? == small.copy(rt.alloc())?);
    assert!(rt; nothing.leq(&small));
    assert!(rt; !small.leq(&nothing));
    assert!(rt; small.best(rt.alloc())? == small);
    assert_eq!(rt; IntervalLeaf::bound_count(2), 4);
    Ok(())
}

//! Leaves of two variables, compared with bounds found by hand.

ghost use Rattle.std.specs.Prelude.{◌≡◌, ◌<◌, IfOk};
ghost use Rattle.leaf_domain.specs.Ranges.{IsInInt};
ghost use Rattle.c_tree.specs.Value.{IsInt};

use fam_outer::NoMemory;
use leaf_domain::{Leaf, Range, Thresholds, leaf_is_valid};
use octagon_leaf::OctagonLeaf;
use std::alloc::Global;
use std::test::Fail;

const LEAST: i64 = -2147483648;

const GREATEST: i64 = 2147483647;

/// The leaf with the first variable put as any number of the range.
fn ranging<L: Leaf>(alloc: Global, start: &L, r: Range) -> Result<L, NoMemory>
    requires some { 0 < (L.value start.now).variables }
    requires int { IsInInt r }
    ensures { IfOk result (λ made. (L.value made).variables ≡ (L.value start.now).variables) }
{
    leaf_is_valid(start);
    start.set_range(alloc, 0, r)
}

/// The leaf in which the first variable has these bounds, and the second is 7.
fn leaf(alloc: Global, low: i64, high: i64) -> Result<OctagonLeaf, NoMemory>
    requires low { IsInt low }
    requires high { IsInt high }
    ensures { IfOk result (λ made. made.variables ≡ 2) }
{
    let start = OctagonLeaf::start(alloc, &[0, 7])?;
    ranging(alloc, &start, Range::new(low, high))
}

/// The leaf of one variable with these bounds.
fn alone(alloc: Global, low: i64, high: i64) -> Result<OctagonLeaf, NoMemory>
    requires low { IsInt low }
    requires high { IsInt high }
    ensures { IfOk result (λ made. made.variables ≡ 1) }
{
    let start = OctagonLeaf::start(alloc, &[0])?;
    ranging(alloc, &start, Range::new(low, high))
}

/// The bounds of a variable.
fn bounds(leaf: &OctagonLeaf, x: u32) -> Option<(i64, i64)> {
    if x >= leaf.variables() {
        return None;
    }
    let r = leaf.bounds_of(x);
    Some((r.low, r.high))
}

#[test]
fn leaves_join_widen_and_narrow(rt: HostRuntime) -> Result<(), Fail> {
    let small = leaf(rt.alloc(), 0, 3)?;
    let great = leaf(rt.alloc(), -1, 2)?;
    let none = Thresholds::none(rt.alloc());
    assert_eq!(rt; bounds(&small.join(rt.alloc(), &great)?, 0), Some((-1, 3)));
    assert_eq!(rt;
        bounds(&small.widen(rt.alloc(), &great, &none)?, 0),
        Some((LEAST, 3))
    );
    let wide = small.widen(rt.alloc(), &leaf(rt.alloc(), 0, 4)?, &none)?;
    assert_eq!(rt; bounds(&wide, 0), Some((0, GREATEST)));
    assert_eq!(rt; bounds(&wide, 1), Some((7, 7)));
    let less = leaf(rt.alloc(), 1, 9)?;
    assert_eq!(rt; wide.variables(), less.variables());
    assert_eq!(rt;
        bounds(&wide.narrow(rt.alloc(), &less, &none)?, 0),
        Some((0, 9))
    );
    assert!(rt; leaf(rt.alloc(), 1, 2)?.leq(&small));
    assert!(rt; !great.leq(&small));
    Ok(())
}

/// The numbers 10, -5 and 64.
fn thresholds(alloc: Global) -> Result<Thresholds, NoMemory> {
    Ok(Thresholds::from_vec(vec![in alloc; 10i64, -5i64, 64i64]?))
}

/// The range of one variable from 0 to 3, widened by another.
const STEPS: [((i64, i64), (i64, i64)); 7] = [
    // 2x is at most 8, and so 20, which is twice 10
    ((0, 4), (0, 10)),
    ((0, 10), (0, 10)),
    ((0, 11), (0, 64)),
    // past the last
    ((0, 65), (0, GREATEST)),
    // -2x is at most 2, and so 10, which is twice -5 negated
    ((-1, 3), (-5, 3)),
    ((-6, 3), (LEAST, 3)),
    ((-5, 64), (-5, 64)),
];

#[test]
fn bounds_of_one_variable_step(rt: HostRuntime) -> Result<(), Fail> {
    let thresholds = thresholds(rt.alloc())?;
    for ((low, high), expected) in STEPS {
        let small = alone(rt.alloc(), 0, 3)?;
        let wide = small.widen(rt.alloc(), &alone(rt.alloc(), low, high)?, &thresholds)?;
        assert_eq!(rt; bounds(&wide, 0), Some(expected));
    }
    Ok(())
}

/// The second variable is 7, so a bound of the sum or difference of both is one of the first.
const STEPS_OF_TWO: [((i64, i64), (i64, i64)); 4] = [
    // x is past the last, but x - y is at most 63, and so 64
    ((0, 70), (0, 71)),
    // x - y is at most 65, past the last
    ((0, 72), (0, GREATEST)),
    // x is at least -5 and y - x at most 10, but -x - y is at most -6, and so -5
    ((-1, 3), (-2, 3)),
    // -x - y is at most -4, and so 10, but y - x is at most 10, which is a threshold
    ((-3, 3), (-3, 3)),
];

#[test]
fn bounds_of_two_variables_step(rt: HostRuntime) -> Result<(), Fail> {
    let thresholds = thresholds(rt.alloc())?;
    for ((low, high), expected) in STEPS_OF_TWO {
        let small = leaf(rt.alloc(), 0, 3)?;
        let wide = small.widen(rt.alloc(), &leaf(rt.alloc(), low, high)?, &thresholds)?;
        assert_eq!(rt; bounds(&wide, 0), Some(expected));
        assert_eq!(rt; bounds(&wide, 1), Some((7, 7)));
    }
    Ok(())
}

#[test]
fn bounds_that_stepped_are_narrowed(rt: HostRuntime) -> Result<(), Fail> {
    let thresholds = thresholds(rt.alloc())?;
    let none = Thresholds::none(rt.alloc());
    let wide = alone(rt.alloc(), -5, 10)?;
    let less = alone(rt.alloc(), 1, 9)?;
    assert_eq!(rt;
        bounds(&wide.narrow(rt.alloc(), &less, &thresholds)?, 0),
        Some((1, 9))
    );
    assert_eq!(rt;
        bounds(&wide.narrow(rt.alloc(), &less, &none)?, 0),
        Some((-5, 10))
    );
    let other = alone(rt.alloc(), -4, 11)?;
    assert_eq!(rt;
        bounds(&other.narrow(rt.alloc(), &less, &thresholds)?, 0),
        Some((-4, 11))
    );
    Ok(())
}

#[test]
fn nothing_is_the_unit(rt: HostRuntime) -> Result<(), Fail> {
    let small = leaf(rt.alloc(), 0, 3)?;
    let nothing = small.meet_range(rt.alloc(), 0, Range::new(4, 9))?;
    assert!(rt; nothing.is_nothing());
    assert!(rt; nothing == OctagonLeaf::nothing(rt.alloc(), 2)?);
    assert!(rt; nothing.join(rt.alloc(), &small)? == small);
    assert!(rt; small.join(rt.alloc(), &nothing)? == small.copy(rt.alloc())?);
    assert!(rt; nothing.leq(&small));
    assert!(rt; !small.leq(&nothing));
    assert!(rt; small.best(rt.alloc())? == small);
    assert_eq!(rt; OctagonLeaf::bound_count(2), 16);
    Ok(())
}

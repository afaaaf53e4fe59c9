//! Leaves of two variables in which the first has a stride, compared with bounds found by hand.

ghost use Rattle.std.specs.Prelude.{◌≡◌, IfOk};
ghost use Rattle.c_tree.specs.Value.{IsInt};

use crate::intervals::{GREATEST, thresholds};
use crate::stores::{Store, holds};
use fam_outer::NoMemory;
use leaf_domain::Leaf;
use product_leaf::StrideLeaf;
use std::alloc::Global;
use std::test::Fail;

/// The leaf of two numbers of the first variable, and 7 of the second: the first has the stride of their distance.
fn leaf(alloc: Global, first: i64, last: i64) -> Result<StrideLeaf, NoMemory>
    requires first { IsInt first }
    requires last { IsInt last }
    ensures { IfOk result (λ made. made.variables ≡ 2) }
{
    let one = StrideLeaf::start(alloc, &[first, 7])?;
    let other = StrideLeaf::start(alloc, &[last, 7])?;
    one.join(alloc, &other)
}

/// The best bounds of the first of two variables.
fn bounds(leaf: &StrideLeaf) -> Option<(i64, i64)> {
    if leaf.variables() != 2 {
        return None;
    }
    let r = leaf.bounds_of(0);
    Some((r.low, r.high))
}

/// The two numbers of a leaf, those of the leaf that comes in at a loop's head, and the best bounds of what widening makes
/// of both: the first and the last number of the common stride within the bounds to which they step.
const WIDENED: [((i64, i64), (i64, i64), (i64, i64)); 6] = [
    // a stride of 4: the high steps to 10, whose last is 8, then to 50, whose last is 48, and then past the last threshold
    ((0, 4), (0, 8), (0, 8)),
    ((0, 8), (0, 12), (0, 48)),
    ((0, 48), (0, 52), (0, GREATEST - 3)),
    // 4 and 6 have the stride 2, which has 10
    ((0, 4), (0, 6), (0, 10)),
    // a stride of 7: the low steps to -100, whose first is -98
    ((0, 7), (-7, 7), (-98, 7)),
    // numbers that are 1 more than a multiple of 3, from -100 on: the first is 1 more than -99
    ((1, 4), (-2, 4), (-98, 4)),
];

#[test]
fn bounds_of_strides_step(rt: HostRuntime) -> Result<(), Fail> {
    let thresholds = thresholds(rt.alloc())?;
    for ((first, last), (other_first, other_last), want) in WIDENED {
        let own = leaf(rt.alloc(), first, last)?;
        let other = leaf(rt.alloc(), other_first, other_last)?;
        let wide = own.widen(rt.alloc(), &other, &thresholds)?;
        assert_eq!(rt; bounds(&wide), Some(want), "{first} {last}");
    }
    Ok(())
}

/// Whether the leaf holds the store of this number and 7.
fn has(alloc: Global, leaf: &StrideLeaf, x: i64) -> Result<bool, NoMemory> {
    holds(alloc, leaf, Store { x, y: 7 })
}

#[test]
fn steps_of_strides_are_taken_back(rt: HostRuntime) -> Result<(), Fail> {
    let thresholds = thresholds(rt.alloc())?;
    let six = leaf(rt.alloc(), 0, 6)?;
    // even numbers up to 10, and then up to 6
    let wide = leaf(rt.alloc(), 0, 4)?.widen(rt.alloc(), &six, &thresholds)?;
    assert!(rt; has(rt.alloc(), &wide, 10)?);
    assert_eq!(rt; wide.variables(), six.variables());
    let narrow = wide.narrow(rt.alloc(), &six, &thresholds)?;
    assert_eq!(rt; bounds(&narrow), Some((0, 6)));
    assert!(rt; has(rt.alloc(), &narrow, 2)? && !has(rt.alloc(), &narrow, 3)?);
    // all numbers up to 10, and then those of the other's stride
    let five = leaf(rt.alloc(), 0, 5)?;
    let wide = leaf(rt.alloc(), 0, 2)?.widen(rt.alloc(), &five, &thresholds)?;
    assert!(rt; has(rt.alloc(), &wide, 9)?);
    assert_eq!(rt; wide.variables(), five.variables());
    let narrow = wide.narrow(rt.alloc(), &five, &thresholds)?;
    assert_eq!(rt; bounds(&narrow), Some((0, 5)));
    assert!(rt; has(rt.alloc(), &narrow, 5)? && !has(rt.alloc(), &narrow, 4)?);
    Ok(())
}

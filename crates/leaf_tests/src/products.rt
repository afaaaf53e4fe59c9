//! Products of `x` and `y` in leaves in which `y` has one value, compared with numbers found by hand: where a comparison of one holds, and where `y` is
//! set to one.

ghost use Rattle.std.specs.Prelude.{IfOk};
ghost use Rattle.leaf_domain.specs.Operations.{IsOperation};

use crate::small::{Sum, form_of, join_of};
use crate::stores::{Store, between, holds};
use c_tree::Op;
use fam_outer::NoMemory;
use leaf_domain::{Compare, Leaf, Operation};
use sharp_leaf::SharpLeaf;
use std::alloc::Global;
use std::test::Fail;

/// The leaf in which `x` is from 1 to 4 and `y` is the number.
fn with_factor(alloc: Global, y: i64) -> Result<SharpLeaf, NoMemory> {
    join_of(
        alloc,
        &[Store { x: 1, y }, Store { x: 2, y }, Store { x: 4, y }],
    )
}

/// `x * y`.
fn product(alloc: Global) -> Result<Operation, NoMemory>
    ensures { IfOk result (IsOperation 2) }
{
    let left = form_of(
        alloc,
        Sum {
            x: 1,
            y: 0,
            constant: 0,
        },
    )?;
    let right = form_of(
        alloc,
        Sum {
            x: 0,
            y: 1,
            constant: 0,
        },
    )?;
    Ok(Operation {
        op: Op::Mul,
        left,
        right,
    })
}

/// The number of `y`, a comparison of `x * y` with a number, and the least and the greatest `x` where it holds.
const CUTS: [(i64, Compare, i64, i64, i64); 6] = [
    (2, Compare::Lt, 5, 1, 2),
    (2, Compare::Ge, 5, 3, 4),
    (2, Compare::Eq, 6, 3, 3),
    (-1, Compare::Le, -2, 2, 4),
    (1, Compare::Ne, 4, 1, 3),
    (3, Compare::Gt, 8, 3, 4),
];

/// Whether `x` has these bounds where the comparison holds.
fn cut_is(
    alloc: Global,
    y: i64,
    op: Compare,
    n: i64,
    low: i64,
    high: i64,
) -> Result<bool, NoMemory> {
    let leaf = with_factor(alloc, y)?;
    if leaf.variables() != 2 {
        return Ok(false);
    }
    let cut = leaf.meet_operation(alloc, &product(alloc)?, op, between(n, n))?;
    if cut.variables() != 2 {
        return Ok(false);
    }
    let bounds = cut.bounds_of(0);
    Ok(bounds.low == low && bounds.high == high)
}

#[test]
fn comparisons_of_products(rt: HostRuntime) -> Result<(), Fail> {
    for (y, op, n, low, high) in CUTS {
        let is_so = cut_is(rt.alloc(), y, op, n, low, high)?;
        assert!(rt; is_so, "{y} {op:?} {n}");
    }
    Ok(())
}

/// The number of `y`, and a store that is not held behind `y = x * y`, although `x` and `y` are in their ranges.
const LOST: [(i64, Store); 2] = [(1, Store { x: 2, y: 3 }), (-1, Store { x: 2, y: -1 })];

#[test]
fn assignments_of_products(rt: HostRuntime) -> Result<(), Fail> {
    for (y, lost) in LOST {
        let leaf = with_factor(rt.alloc(), y)?;
        let operation = product(rt.alloc())?;
        if leaf.variables() == 2 {
            let set = leaf.set_operation(rt.alloc(), 1, &operation, between(-8, 8))?;
            let kept = Store {
                x: 2,
                y: 2_i64.saturating_mul(y),
            };
            let is_kept = holds(rt.alloc(), &set, kept)?;
            let is_lost = !holds(rt.alloc(), &set, lost)?;
            assert!(rt; is_kept && is_lost, "{y}");
        }
    }
    Ok(())
}

//! Remainders of `x` by a constant in leaves of two variables, compared with numbers found by hand: what they may be, and which numbers `x` has
//! where a comparison of one holds.

ghost use Rattle.std.specs.Prelude.{IfOk};
ghost use Rattle.leaf_domain.specs.Operations.{IsOperation};

use crate::small::{Sum, form_of, join_of};
use crate::stores::{Store, between, holds};
use c_tree::Op;
use congruence_leaf::CongruenceLeaf;
use fam_outer::NoMemory;
use leaf_domain::{Compare, Leaf, Operation};
use sharp_leaf::SharpLeaf;
use std::alloc::Global;
use std::test::Fail;

/// The numbers from a first to a last, by so much at a time; none where the last is below the first.
type Steps = (i64, i64, i64);

/// `x` plus a constant, by another.
type Remainder = (i8, i8);

/// Whether the number is one of the steps.
fn is_step(n: i64, steps: Steps) -> bool {
    let (first, last, step) = steps;
    first <= n && n <= last && n.abs_diff(first).checked_rem(step.unsigned_abs()) == Some(0)
}

/// The leaf in which `x` is one of these numbers and `y` is 0: the join of the first, the second and the last.
fn stepping<L: Leaf>(alloc: Global, steps: Steps) -> Result<L, NoMemory> {
    let (first, last, step) = steps;
    let second = first.saturating_add(step);
    join_of(
        alloc,
        &[
            Store { x: first, y: 0 },
            Store { x: second, y: 0 },
            Store { x: last, y: 0 },
        ],
    )
}

/// Whether `x` is just one of these numbers in a leaf in which `y` is 0, of all from -9 to 9; and where there are any, its bounds are the first and
/// the last.
fn has_steps<L: Leaf>(alloc: Global, leaf: &L, steps: Steps) -> Result<bool, NoMemory> {
    for n in -9..10i64 {
        if holds(alloc, leaf, Store { x: n, y: 0 })? != is_step(n, steps) {
            return Ok(false);
        }
    }
    let (first, last, _step) = steps;
    if last < first || leaf.variables() != 2 {
        return Ok(leaf.is_nothing());
    }
    let bounds = leaf.bounds_of(0);
    Ok(bounds.low == first && bounds.high == last)
}

/// `(x + constant) % m`.
fn remainder(alloc: Global, of: Remainder) -> Result<Operation, NoMemory>
    ensures { IfOk result (IsOperation 2) }
{
    let (constant, m) = of;
    let left = form_of(
        alloc,
        Sum {
            x: 1,
            y: 0,
            constant,
        },
    )?;
    let right = form_of(
        alloc,
        Sum {
            x: 0,
            y: 0,
            constant: m,
        },
    )?;
    Ok(Operation {
        op: Op::Rem,
        left,
        right,
    })
}

/// The numbers of `x`, a remainder, a comparison of it with a number, and the numbers of `x` where that holds.
const CUTS: [(Steps, Remainder, Compare, i64, Steps); 19] = [
    ((0, 9, 1), (0, 2), Compare::Eq, 0, (0, 8, 2)),
    ((0, 9, 1), (0, 2), Compare::Eq, 1, (1, 9, 2)),
    // the remainders of numbers from 0 on are 0 and 1
    ((0, 9, 1), (0, 2), Compare::Ne, 0, (1, 9, 2)),
    // the remainders are -1, 0 and 1, and those beside 0 are odd
    ((-5, 5, 1), (0, 2), Compare::Ne, 0, (-5, 5, 2)),
    ((-5, 5, 1), (0, 2), Compare::Eq, 0, (-4, 4, 2)),
    ((0, 9, 1), (0, 3), Compare::Eq, 1, (1, 7, 3)),
    ((0, 9, 1), (0, 3), Compare::Ge, 2, (2, 8, 3)),
    ((0, 9, 1), (0, 3), Compare::Lt, 1, (0, 9, 3)),
    // 0 and 2 are left, which have no common stride by 3
    ((0, 9, 1), (0, 3), Compare::Ne, 1, (0, 9, 1)),
    // the remainders of even numbers by 4 are 0 and 2
    ((0, 8, 2), (0, 4), Compare::Ne, 0, (2, 6, 4)),
    ((0, 8, 2), (0, 4), Compare::Eq, 2, (2, 6, 4)),
    ((0, 8, 2), (0, 4), Compare::Eq, 1, (1, 0, 1)),
    // no remainder by 2 is 5
    ((0, 9, 1), (0, 2), Compare::Eq, 5, (1, 0, 1)),
    // a divisor below 0 leaves the same remainders
    ((0, 9, 1), (0, -3), Compare::Eq, 0, (0, 9, 3)),
    // where x + 1 is even, x is odd
    ((0, 9, 1), (1, 2), Compare::Eq, 0, (1, 9, 2)),
    // even multiples of 3 are multiples of 6
    ((0, 8, 2), (0, 3), Compare::Eq, 0, (0, 6, 6)),
    // an odd number that leaves 2 by 3 leaves 5 by 6
    ((1, 9, 2), (0, 3), Compare::Eq, 2, (5, 5, 1)),
    // a multiple of 3 that leaves 4 by 5 leaves 9 by 15, so that up to 6 there is none
    ((0, 9, 3), (0, 5), Compare::Eq, 4, (9, 9, 1)),
    ((0, 6, 3), (0, 5), Compare::Eq, 4, (1, 0, 1)),
];

/// Whether the numbers of `x` where the comparison holds are these.
fn cut_is<L: Leaf>(
    alloc: Global,
    steps: Steps,
    of: Remainder,
    op: Compare,
    n: i64,
    left: Steps,
) -> Result<bool, NoMemory> {
    let leaf: L = stepping(alloc, steps)?;
    let operation = remainder(alloc, of)?;
    if leaf.variables() != 2 {
        return Ok(false);
    }
    let cut = leaf.meet_operation(alloc, &operation, op, between(n, n))?;
    has_steps(alloc, &cut, left)
}

#[test]
fn comparisons_of_remainders(rt: HostRuntime) -> Result<(), Fail> {
    for (steps, of, op, n, left) in CUTS {
        let is_so = cut_is::<CongruenceLeaf>(rt.alloc(), steps, of, op, n, left)?;
        let is_so_with_octagons = cut_is::<SharpLeaf>(rt.alloc(), steps, of, op, n, left)?;
        assert!(rt; is_so && is_so_with_octagons, "{op:?} {n} {}", of.1);
    }
    Ok(())
}

/// The numbers of `x`, a remainder, and the numbers that it may be.
const RESULTS: [(Steps, Remainder, Steps); 10] = [
    ((0, 9, 1), (0, 2), (0, 1, 1)),
    ((-9, 9, 1), (0, 4), (-3, 3, 1)),
    // even numbers leave even remainders by 4, and all remainders by 3
    ((0, 8, 2), (0, 4), (0, 2, 2)),
    ((-8, 8, 2), (0, 4), (-2, 2, 2)),
    ((0, 8, 2), (0, 3), (0, 2, 1)),
    // multiples of 6 leave even remainders by 4
    ((0, 6, 6), (0, 4), (0, 2, 2)),
    // 1 more than a multiple of 4
    ((1, 9, 4), (0, 4), (1, 1, 1)),
    // 5 and 7 go into 4 once: 1 and 3 are left
    ((5, 7, 2), (0, 4), (1, 3, 2)),
    // x + 1 is odd
    ((0, 8, 2), (1, 4), (1, 3, 2)),
    ((0, 9, 3), (0, -3), (0, 0, 1)),
];

/// Whether the remainder may be just these numbers: they are its range, and those of `x` once it is set to the remainder.
fn result_is<L: Leaf>(
    alloc: Global,
    steps: Steps,
    of: Remainder,
    found: Steps,
) -> Result<bool, NoMemory> {
    let leaf: L = stepping(alloc, steps)?;
    let operation = remainder(alloc, of)?;
    if leaf.variables() != 2 {
        return Ok(false);
    }
    let (first, last, _step) = found;
    let is_range = match leaf.operation_range(&operation) {
        None => false,
        Some(range) => range.low == first && range.high == last,
    };
    let set = leaf.set_operation(alloc, 0, &operation, between(-100, 100))?;
    Ok(is_range && has_steps(alloc, &set, found)?)
}

#[test]
fn results_of_remainders(rt: HostRuntime) -> Result<(), Fail> {
    for (steps, of, found) in RESULTS {
        let is_so = result_is::<CongruenceLeaf>(rt.alloc(), steps, of, found)?;
        let is_so_with_octagons = result_is::<SharpLeaf>(rt.alloc(), steps, of, found)?;
        assert!(rt; is_so && is_so_with_octagons, "{}", of.1);
    }
    Ok(())
}

//! All operations of a kind of leaf over all small leaves.

use crate::models::Template;
use crate::operations::{
    Small, bounds_are_reached, form_range_holds, is_same_by_best, meet_form_holds,
    meet_range_is_exact, set_form_holds, set_range_is_exact, values_of,
};
use crate::pairs::{both_are_held, common_are_kept, order_is_seen};
use crate::small::{Sum, small_leaves};
use crate::stores::{between, held_by};
use congruence_leaf::CongruenceLeaf;
use fam_outer::NoMemory;
use interval_leaf::IntervalLeaf;
use leaf_domain::{Compare, Leaf, Thresholds};
use octagon_leaf::OctagonLeaf;
use product_leaf::StrideLeaf;
use sharp_leaf::SharpLeaf;
use std::alloc::Global;
use std::test::Fail;

/// Sums of both variables and of a constant.
const SUMS: [(i8, i8, i8); 9] = [
    (0, 0, 3),
    (1, 0, 0),
    (0, -1, 2),
    (1, -1, 0),
    (1, 1, -1),
    (-1, -1, 3),
    (-1, 1, -2),
    (2, 1, 0),
    (3, -2, 1),
];

const COMPARES: [Compare; 6] = [
    Compare::Lt,
    Compare::Le,
    Compare::Gt,
    Compare::Ge,
    Compare::Eq,
    Compare::Ne,
];

const RANGES: [(i64, i64); 4] = [(-4, 4), (0, 2), (-1, -1), (3, 2)];

/// A variable is put as a sum: where the sum may have any value, where just its values are given, and where only some of them are.
fn sets_pass<L: Leaf>(alloc: Global, small: &Small<L>, x: u32, sum: Sum) -> Result<bool, NoMemory> {
    let is_exact = small.template.has_pairs() && small.template.sets_sum(sum);
    let values = values_of(small.held, sum);
    let values = between(values.low, values.high);
    Ok(
        set_form_holds(alloc, small, x, sum, between(-100, 100), is_exact)?
            && set_form_holds(alloc, small, x, sum, values, small.template.sets_sum(sum))?
            && set_form_holds(alloc, small, x, sum, between(-1, 2), is_exact)?,
    )
}

/// The operations that take a sum.
fn sums_pass<L: Leaf>(alloc: Global, small: &Small<L>) -> Result<bool, NoMemory> {
    for (x, y, constant) in SUMS {
        let sum = Sum { x, y, constant };
        if !(form_range_holds(alloc, small, sum, small.template.has_sum(sum))?
            && sets_pass(alloc, small, 0, sum)?
            && sets_pass(alloc, small, 1, sum)?)
        {
            return Ok(false);
        }
        for op in COMPARES {
            if !meet_form_holds(alloc, small, sum, op)? {
                return Ok(false);
            }
        }
    }
    Ok(true)
}

/// The operations that take a range.
fn ranges_pass<L: Leaf>(alloc: Global, small: &Small<L>) -> Result<bool, NoMemory> {
    for (low, high) in RANGES {
        for x in [0, 1] {
            if !(meet_range_is_exact(alloc, small, x, low, high)?
                && set_range_is_exact(alloc, small, x, low, high)?)
            {
                return Ok(false);
            }
        }
    }
    Ok(true)
}

/// The operations on one leaf.
fn single_passes<L: Leaf>(alloc: Global, leaf: &L, template: Template) -> Result<bool, NoMemory> {
    let held = held_by(alloc, leaf)?;
    let small = Small {
        template,
        leaf,
        held: &held,
    };
    Ok(
        is_same_by_best(alloc, &small)?
            && bounds_are_reached(alloc, &small, 0)?
            && bounds_are_reached(alloc, &small, 1)?
            && ranges_pass(alloc, &small)?
            && sums_pass(alloc, &small)?,
    )
}

/// The operations on two leaves, without thresholds and with some.
fn pair_passes<L: Leaf>(alloc: Global, template: Template, a: &L, b: &L) -> Result<bool, NoMemory> {
    let held = held_by(alloc, a)?;
    let other = held_by(alloc, b)?;
    let a = Small {
        template,
        leaf: a,
        held: &held,
    };
    let b = Small {
        template,
        leaf: b,
        held: &other,
    };
    let none = Thresholds::none(alloc);
    let some = Thresholds::from_vec(vec![in alloc; -3i64, 2i64]?);
    Ok(
        order_is_seen(&a, &b)
            && both_are_held(alloc, &a, &b, &none)?
            && both_are_held(alloc, &a, &b, &some)?
            && common_are_kept(alloc, &a, &b, &none)?
            && common_are_kept(alloc, &a, &b, &some)?,
    )
}

/// The operations on one leaf, over all small leaves of a kind.
fn singles_pass<L: Leaf>(alloc: Global, template: Template) -> Result<bool, NoMemory> {
    let leaves: Vec<L> = small_leaves(alloc)?;
    for leaf in &leaves {
        if !single_passes(alloc, leaf, template)? {
            return Ok(false);
        }
    }
    Ok(leaves.len() == 35)
}

/// The operations on two leaves, over all pairs of small leaves of a kind.
fn pairs_pass<L: Leaf>(alloc: Global, template: Template) -> Result<bool, NoMemory> {
    let leaves: Vec<L> = small_leaves(alloc)?;
    for a in &leaves {
        for b in &leaves {
            if !pair_passes(alloc, template, a, b)? {
                return Ok(false);
            }
        }
    }
    Ok(leaves.len() == 35)
}

/// Everything, over all small leaves of a kind.
fn all_pass<L: Leaf>(alloc: Global, template: Template) -> Result<bool, NoMemory> {
    Ok(singles_pass::<L>(alloc, template)? && pairs_pass::<L>(alloc, template)?)
}

#[test]
fn intervals_hold_what_they_must(rt: HostRuntime) -> Result<(), Fail> {
    assert!(rt; all_pass::<IntervalLeaf>(rt.alloc(), Template::Intervals)?);
    Ok(())
}

#[test]
fn strides_hold_what_they_must(rt: HostRuntime) -> Result<(), Fail> {
    assert!(rt; all_pass::<StrideLeaf>(rt.alloc(), Template::Strides)?);
    Ok(())
}

#[test]
fn strides_that_follow_remainders_hold_what_they_must(rt: HostRuntime) -> Result<(), Fail> {
    assert!(rt; all_pass::<CongruenceLeaf>(rt.alloc(), Template::Strides)?);
    Ok(())
}

#[test]
fn octagons_hold_what_they_must(rt: HostRuntime) -> Result<(), Fail> {
    assert!(rt; all_pass::<OctagonLeaf>(rt.alloc(), Template::Octagons)?);
    Ok(())
}

// two tests, since each has a limit of time
#[test]
fn octagons_with_strides_hold_what_they_must(rt: HostRuntime) -> Result<(), Fail> {
    assert!(rt; singles_pass::<SharpLeaf>(rt.alloc(), Template::Sharp)?);
    Ok(())
}

#[test]
fn pairs_of_octagons_with_strides_hold_what_they_must(rt: HostRuntime) -> Result<(), Fail> {
    assert!(rt; pairs_pass::<SharpLeaf>(rt.alloc(), Template::Sharp)?);
    Ok(())
}

//! The operations on two leaves, each as a test of them: whether the answer holds every store that it must.

use crate::operations::Small;
use crate::stores::{are_among, common, holds_all};
use fam_outer::NoMemory;
use leaf_domain::{Leaf, Thresholds};
use std::alloc::Global;

/// The join holds the stores of both, and the widening too.
pub(crate) fn both_are_held<L: Leaf>(
    alloc: Global,
    a: &Small<L>,
    b: &Small<L>,
    thresholds: &Thresholds,
) -> Result<bool, NoMemory> {
    if a.leaf.variables() != b.leaf.variables() {
        return Ok(false);
    }
    let joined = a.leaf.join(alloc, b.leaf)?;
    let widened = a.leaf.widen(alloc, b.leaf, thresholds)?;
    Ok(
        holds_all(alloc, &joined, a.held)?
            && holds_all(alloc, &joined, b.held)?
            && holds_all(alloc, &widened, a.held)?
            && holds_all(alloc, &widened, b.held)?,
    )
}

/// Narrowing keeps the stores of both.
pub(crate) fn common_are_kept<L: Leaf>(
    alloc: Global,
    a: &Small<L>,
    b: &Small<L>,
    thresholds: &Thresholds,
) -> Result<bool, NoMemory> {
    if a.leaf.variables() != b.leaf.variables() {
        return Ok(false);
    }
    let narrowed = a.leaf.narrow(alloc, b.leaf, thresholds)?;
    holds_all(alloc, &narrowed, &common(alloc, a.held, b.held)?)
}

/// Where a leaf is seen to be below an other, the other has its stores; equal leaves have the same.
pub(crate) fn order_is_seen<L: Leaf>(a: &Small<L>, b: &Small<L>) -> bool {
    if a.leaf.variables() != b.leaf.variables() {
        return false;
    }
    let is_below = a.leaf.leq(b.leaf);
    let is_same = *a.leaf == *b.leaf;
    (!is_below || are_among(a.held, b.held)) && (!is_same || a.held == b.held)
}

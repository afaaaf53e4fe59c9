//! The stores that a leaf of two variables holds, asked one by one.

ghost use Rattle.leaf_domain.specs.Ranges.{IsInInt};

use fam_outer::NoMemory;
use leaf_domain::{Leaf, Range};
use std::alloc::Global;

/// The numbers of both variables.
#[derive(Clone, Copy, PartialEq, Eq)]
pub(crate) struct Store {
    pub x: i64,
    pub y: i64,
}

/// The numbers of a small store.
pub(crate) const NUMBERS: [i64; 9] = [-4, -3, -2, -1, 0, 1, 2, 3, 4];

/// The numbers from `low` to `high`; none where one of the two is not of `int`.
pub(crate) fn between(low: i64, high: i64) -> Range
    ensures { IsInInt result }
{
    if low < -2147483648 || high > 2147483647 || high < low {
        Range { low: 1, high: 0 }
    } else {
        Range { low, high }
    }
}

/// All small stores.
pub(crate) fn small_stores(alloc: Global) -> Result<Vec<Store>, NoMemory> {
    let mut stores = Vec::new(alloc);
    for x in NUMBERS {
        for y in NUMBERS {
            stores.push(Store { x, y })?;
        }
    }
    Ok(stores)
}

/// The leaf where a variable lies in the range.
pub(crate) fn met<L: Leaf>(alloc: Global, leaf: &L, x: u32, r: Range) -> Result<L, NoMemory>
    requires r { IsInInt r }
{
    if x < leaf.variables() {
        leaf.meet_range(alloc, x, r)
    } else {
        L::nothing(alloc, 2)
    }
}

/// The leaf with a variable replaced by any number of the range.
pub(crate) fn replaced<L: Leaf>(alloc: Global, leaf: &L, x: u32, r: Range) -> Result<L, NoMemory>
    requires r { IsInInt r }
{
    if x < leaf.variables() {
        leaf.set_range(alloc, x, r)
    } else {
        L::nothing(alloc, 2)
    }
}

/// Whether the leaf holds the store.
pub(crate) fn holds<L: Leaf>(alloc: Global, leaf: &L, store: Store) -> Result<bool, NoMemory> {
    let at_x = met(alloc, leaf, 0, between(store.x, store.x))?;
    let at_both = met(alloc, &at_x, 1, between(store.y, store.y))?;
    Ok(!at_both.is_nothing())
}

/// The small stores that the leaf holds.
pub(crate) fn held_by<L: Leaf>(alloc: Global, leaf: &L) -> Result<Vec<Store>, NoMemory> {
    let mut held = Vec::new(alloc);
    for store in small_stores(alloc)? {
        if holds(alloc, leaf, store)? {
            held.push(store)?;
        }
    }
    Ok(held)
}

/// Whether the leaf holds all these stores.
pub(crate) fn holds_all<L: Leaf>(
    alloc: Global,
    leaf: &L,
    stores: &[Store],
) -> Result<bool, NoMemory> {
    for store in stores {
        if !holds(alloc, leaf, *store)? {
            return Ok(false);
        }
    }
    Ok(true)
}

/// Whether each of these stores is one of those.
pub(crate) fn are_among(stores: &[Store], others: &[Store]) -> bool {
    stores.iter().all(|store| others.contains(store))
}

/// The stores that are also among the others.
pub(crate) fn common(
    alloc: Global,
    stores: &[Store],
    others: &[Store],
) -> Result<Vec<Store>, NoMemory> {
    let mut both = Vec::new(alloc);
    for store in stores {
        if others.contains(store) {
            both.push(*store)?;
        }
    }
    Ok(both)
}

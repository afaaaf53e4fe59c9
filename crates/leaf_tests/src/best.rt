//! Whether a leaf of two variables is the best of its kind over some stores.

use crate::models::{Model, Template, sum_of};
use crate::small::{Sum, form_of};
use crate::stores::{Store, holds};
use fam_outer::NoMemory;
use leaf_domain::{Leaf, Range};
use std::alloc::Global;

/// The range of a sum that a leaf has.
fn range_of<L: Leaf>(alloc: Global, leaf: &L, sum: Sum) -> Result<Option<Range>, NoMemory> {
    let form = form_of(alloc, sum)?;
    if leaf.variables() != 2 {
        return Ok(None);
    }
    Ok(leaf.form_range(&form))
}

/// The greatest value of a sum of so many times each variable, by the bounds of a leaf.
fn greatest<L: Leaf>(alloc: Global, leaf: &L, times: (i8, i8)) -> Result<Option<i64>, NoMemory> {
    if times.0 != 0 && times.1 != 0 {
        let range = range_of(alloc, leaf, sum_of(times))?;
        return Ok(range.map(|r| r.high));
    }
    if leaf.variables() != 2 {
        return Ok(None);
    }
    let (range, times) = if times.1 == 0 {
        (leaf.bounds_of(0), times.0)
    } else {
        (leaf.bounds_of(1), times.1)
    };
    let end = if times < 0 { range.low } else { range.high };
    Ok(end.checked_mul(i64::from(times)))
}

/// Whether the leaf holds, of the stores on the two lines through the first, just those of the model.
fn are_strides<L: Leaf>(
    alloc: Global,
    leaf: &L,
    model: &Model,
    first: Store,
) -> Result<bool, NoMemory> {
    for n in -25..26i64 {
        let on_x = Store { x: n, y: first.y };
        let on_y = Store { x: first.x, y: n };
        if holds(alloc, leaf, on_x)? != model.has(on_x)
            || holds(alloc, leaf, on_y)? != model.has(on_y)
        {
            return Ok(false);
        }
    }
    Ok(true)
}

/// Whether a leaf is the best of its kind over these stores: its bounds, where the kind finds the best ones, are those of the model,
/// and its strides. The numbers of the stores are at most 25 in size.
pub(crate) fn is_best_over<L: Leaf>(
    alloc: Global,
    template: Template,
    leaf: &L,
    stores: &[Store],
) -> Result<bool, NoMemory> {
    let (Some(model), Some(first)) = (Model::best(alloc, template, stores)?, stores.first()) else {
        return Ok(leaf.is_nothing());
    };
    for (times, bound) in template.sums().iter().zip(model.bounds.as_slice()) {
        if template.is_best_of(*times) && greatest(alloc, leaf, *times)? != Some(*bound) {
            return Ok(false);
        }
    }
    Ok(!template.has_strides() || are_strides(alloc, leaf, &model, *first)?)
}

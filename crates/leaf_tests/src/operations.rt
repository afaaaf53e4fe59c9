//! The operations on one leaf, each as a test of it: whether the answer holds every store that it must.

ghost use Rattle.leaf_domain.specs.Ranges.{IsInInt};

use crate::best::is_best_over;
use crate::models::Template;
use crate::small::{Sum, form_of, value};
use crate::stores::{NUMBERS, Store, are_among, between, held_by, holds_all, met, replaced};
use fam_outer::NoMemory;
use leaf_domain::{Compare, Leaf, Range};
use std::alloc::Global;

/// A leaf of a kind, and the small stores that it holds.
#[derive(Drop)]
pub(crate) struct Small<'a, L> {
    pub template: Template,
    pub leaf: &'a L,
    pub held: &'a [Store],
}

/// The number of a variable.
fn number_of(store: Store, x: u32) -> i64 {
    if x == 0 { store.x } else { store.y }
}

/// The store with the number of a variable replaced.
fn with_number(store: Store, x: u32, n: i64) -> Store {
    if x == 0 {
        Store { x: n, y: store.y }
    } else {
        Store { x: store.x, y: n }
    }
}

/// A copy is equal, and the best bounds hold the same stores.
pub(crate) fn is_same_by_best<L: Leaf>(alloc: Global, small: &Small<L>) -> Result<bool, NoMemory> {
    let copy = small.leaf.copy(alloc)?;
    let best = held_by(alloc, &small.leaf.best(alloc)?)?;
    Ok(copy == *small.leaf && best.as_slice() == small.held)
}

/// The least range of a variable's numbers.
fn span(held: &[Store], x: u32) -> Range {
    let mut range = Range::EMPTY;
    for store in held {
        let n = number_of(*store, x);
        range = range.hull(Range { low: n, high: n });
    }
    range
}

/// The best bounds of a variable are reached by stores of the leaf.
pub(crate) fn bounds_are_reached<L: Leaf>(
    alloc: Global,
    small: &Small<L>,
    x: u32,
) -> Result<bool, NoMemory> {
    let best = small.leaf.best(alloc)?;
    if x >= best.variables() {
        return Ok(false);
    }
    Ok(best.bounds_of(x) == span(small.held, x))
}

/// The range of a form, where there is one, has its value at each store, and its ends are reached where that is asked.
pub(crate) fn form_range_holds<L: Leaf>(
    alloc: Global,
    small: &Small<L>,
    sum: Sum,
    is_reached: bool,
) -> Result<bool, NoMemory> {
    let form = form_of(alloc, sum)?;
    let best = small.leaf.best(alloc)?;
    if best.variables() != 2 {
        return Ok(false);
    }
    let Some(range) = best.form_range(&form) else {
        return Ok(!is_reached);
    };
    let values = values_of(small.held, sum);
    Ok(if is_reached {
        range == values
    } else {
        range.hull(values) == range
    })
}

/// What a comparison with 0 says of a number.
fn is_so(op: Compare, n: i64) -> bool {
    match op {
        Compare::Lt => n < 0,
        Compare::Le => n <= 0,
        Compare::Gt => n > 0,
        Compare::Ge => n >= 0,
        Compare::Eq => n == 0,
        Compare::Ne => n != 0,
    }
}

/// The stores at which the comparison of a sum with 0 holds are held behind its meet, and none but the leaf's own. Where the kind
/// meets the sum exactly, the meet is the best leaf over these stores, and holds no other.
pub(crate) fn meet_form_holds<L: Leaf>(
    alloc: Global,
    small: &Small<L>,
    sum: Sum,
    op: Compare,
) -> Result<bool, NoMemory> {
    let form = form_of(alloc, sum)?;
    if small.leaf.variables() != 2 {
        return Ok(false);
    }
    let met = small.leaf.meet_form(alloc, &form, op)?;
    let mut wanted = Vec::new(alloc);
    for store in small.held {
        if is_so(op, value(sum, *store)) {
            wanted.push(*store)?;
        }
    }
    let kept = held_by(alloc, &met)?;
    if small.template.has_sum(sum) && op != Compare::Ne {
        return Ok(
            kept.as_slice() == wanted.as_slice()
                && is_best_over(alloc, small.template, &met, &wanted)?,
        );
    }
    Ok(are_among(&wanted, &kept) && are_among(&kept, small.held))
}

/// The stores at which a variable lies in a range are exactly those behind its meet, which is the best leaf over them.
pub(crate) fn meet_range_is_exact<L: Leaf>(
    alloc: Global,
    small: &Small<L>,
    x: u32,
    low: i64,
    high: i64,
) -> Result<bool, NoMemory> {
    let met = met(alloc, small.leaf, x, between(low, high))?;
    let mut wanted = Vec::new(alloc);
    for store in small.held {
        let n = number_of(*store, x);
        if low <= n && n <= high {
            wanted.push(*store)?;
        }
    }
    let kept = held_by(alloc, &met)?;
    Ok(kept.as_slice() == wanted.as_slice() && is_best_over(alloc, small.template, &met, &wanted)?)
}

/// The stores with a variable's number replaced by any small number of a range are exactly those behind the replacement, which is
/// the best leaf over them.
pub(crate) fn set_range_is_exact<L: Leaf>(
    alloc: Global,
    small: &Small<L>,
    x: u32,
    low: i64,
    high: i64,
) -> Result<bool, NoMemory> {
    let set = replaced(alloc, small.leaf, x, between(low, high))?;
    let mut wanted = Vec::new(alloc);
    for store in small.held {
        for n in NUMBERS {
            if low <= n && n <= high {
                wanted.push(with_number(*store, x, n))?;
            }
        }
    }
    let kept = held_by(alloc, &set)?;
    Ok(
        are_among(&wanted, &kept)
            && are_among(&kept, &wanted)
            && is_best_over(alloc, small.template, &set, &wanted)?,
    )
}

/// Each store at which a sum lies in a range, with a variable's number replaced by the value of the sum, is held behind the
/// assignment. Where that is asked, the assignment is the best leaf over these stores; a kind with sums of both variables then holds no other.
pub(crate) fn set_form_holds<L: Leaf>(
    alloc: Global,
    small: &Small<L>,
    x: u32,
    sum: Sum,
    r: Range,
    is_best: bool,
) -> Result<bool, NoMemory>
    requires { IsInInt r }
{
    let form = form_of(alloc, sum)?;
    if x >= 2 || small.leaf.variables() != 2 {
        return Ok(false);
    }
    let set = small.leaf.set_form(alloc, x, &form, r)?;
    let mut wanted = Vec::new(alloc);
    for store in small.held {
        let n = value(sum, *store);
        if r.low <= n && n <= r.high {
            wanted.push(with_number(*store, x, n))?;
        }
    }
    if !is_best {
        return holds_all(alloc, &set, &wanted);
    }
    let is_exact = small.template.has_pairs();
    Ok(
        holds_all(alloc, &set, &wanted)?
            && (!is_exact || are_among(&held_by(alloc, &set)?, &wanted))
            && is_best_over(alloc, small.template, &set, &wanted)?,
    )
}

/// The least range of a sum's values.
pub(crate) fn values_of(held: &[Store], sum: Sum) -> Range {
    let mut values = Range::EMPTY;
    for store in held {
        let n = value(sum, *store);
        values = values.hull(Range { low: n, high: n });
    }
    values
}

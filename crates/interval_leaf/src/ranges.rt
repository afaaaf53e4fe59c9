//! Lists of ranges, one for each variable.
#![tactic(auto)]

ghost use Rattle.std.specs.Prelude.{◌≡◌, IfOk, length, map};
ghost use Rattle.std.specs.List.{list_any};
ghost use Rattle.leaf_domain.specs.Ranges.{is_empty_range};
ghost use Rattle.leaf_domain.specs.Leaves.{same_numbers};
ghost use Rattle.interval_leaf.specs.Intervals.{numbers_of, AllOwn, covers, all_lie_in, widened_all, narrowed_all, lies_in, point_of};

use leaf_domain::{Range, Thresholds};
use std::alloc::{AllocError, Global};

/// The ranges of single numbers.
pub(crate) fn points(alloc: Global, values: &[i64]) -> Result<Vec<Range>, AllocError>
    ensures { IfOk result (λ v. v.items ≡ map point_of values.now) }
{
    values
        .iter()
        .map(|n| Range { low: *n, high: *n })
        .collect(alloc)
}

/// The least ranges that have both, one by one.
pub(crate) fn covered(alloc: Global, a: &[Range], b: &[Range]) -> Result<Vec<Range>, AllocError>
    ensures { IfOk result (λ v. v.items ≡ covers a.now b.now) }
{
    a.iter().zip(b).map(|(p, q)| p.cover(*q)).collect(alloc)
}

/// Whether the first lies in the second.
fn is_inside(a: Range, b: Range) -> bool
    ensures { result ≡ lies_in a b }
{
    b.low <= a.low && a.high <= b.high
}

/// Whether each lies in its own of the others.
pub(crate) fn are_inside(a: &[Range], b: &[Range]) -> bool
    ensures { result ≡ all_lie_in a.now b.now }
{
    a.iter().zip(b).all(|(p, q)| is_inside(*p, *q))
}

/// The ranges widened one by one.
pub(crate) fn widened_ranges(
    alloc: Global,
    x: &[Range],
    g: &[Range],
    thresholds: &Thresholds,
) -> Result<Vec<Range>, AllocError>
    requires same { length x.now ≡ length g.now }
    requires own { AllOwn g.now }
    ensures { IfOk result (λ v. v.items ≡ widened_all thresholds.now x.now g.now) }
{
    let mut made = Vec::new(alloc);
    for i in 0..x.len() {
        made.push(x[i].widened(g[i], thresholds))?;
    }
    Ok(made)
}

/// The ranges narrowed one by one.
pub(crate) fn narrowed_ranges(
    alloc: Global,
    x: &[Range],
    g: &[Range],
    thresholds: &Thresholds,
) -> Result<Vec<Range>, AllocError>
    requires same { length x.now ≡ length g.now }
    requires own { AllOwn x.now }
    ensures { IfOk result (λ v. v.items ≡ narrowed_all thresholds.now x.now g.now) }
{
    let mut made = Vec::new(alloc);
    for i in 0..x.len() {
        made.push(x[i].narrowed(g[i], thresholds))?;
    }
    Ok(made)
}

/// Whether one of the ranges is empty.
pub(crate) fn has_empty(a: &[Range]) -> bool
    ensures { result ≡ list_any is_empty_range a.now }
{
    a.iter().any(|r| r.is_empty())
}

/// Whether the ranges are the same.
pub(crate) fn are_same(a: &[Range], b: &[Range]) -> bool
    ensures { result ≡ same_numbers (numbers_of a.now) (numbers_of b.now) }
{
    a == b
}

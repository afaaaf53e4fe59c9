//! Lists of parts, one for each variable.
#![tactic(auto)]

ghost use Rattle.std.specs.Prelude.{◌≡◌, IfOk, length, map};
ghost use Rattle.std.specs.List.{list_any};
ghost use Rattle.leaf_domain.specs.Leaves.{same_numbers};
ghost use Rattle.strides.specs.Strided.{is_bare, reduced, best_part, point_at};
ghost use Rattle.product_leaf.specs.StrideLeaves.{numbers_of, AllOwn, joined_all, all_lie_in, widened_all, narrowed_all, met_part, same_part, all_same_parts};

use leaf_domain::{Range, Thresholds};
use std::alloc::{AllocError, Global};
use strides::Strided;

/// The parts of single numbers.
pub(crate) fn points(alloc: Global, values: &[i64]) -> Result<Vec<Strided>, AllocError>
    ensures { IfOk result (λ v. v.items ≡ map point_at values.now) }
{
    values.iter().map(|n| Strided::point(*n)).collect(alloc)
}

/// The least parts that have the numbers of both, one by one.
pub(crate) fn joined(
    alloc: Global,
    a: &[Strided],
    b: &[Strided],
) -> Result<Vec<Strided>, AllocError>
    requires same { length a.now ≡ length b.now }
    requires first { AllOwn a.now }
    requires second { AllOwn b.now }
    ensures { IfOk result (λ v. v.items ≡ joined_all a.now b.now) }
{
    let mut made = Vec::new(alloc);
    for i in 0..a.len() {
        made.push(a[i].joined(b[i]))?;
    }
    Ok(made)
}

/// The parts widened one by one.
pub(crate) fn widened(
    alloc: Global,
    x: &[Strided],
    g: &[Strided],
    thresholds: &Thresholds,
) -> Result<Vec<Strided>, AllocError>
    requires same { length x.now ≡ length g.now }
    requires first { AllOwn x.now }
    requires second { AllOwn g.now }
    ensures { IfOk result (λ v. v.items ≡ widened_all thresholds.now x.now g.now) }
{
    let mut made = Vec::new(alloc);
    for i in 0..x.len() {
        made.push(x[i].widened(g[i], thresholds))?;
    }
    Ok(made)
}

/// The parts narrowed one by one.
pub(crate) fn narrowed(
    alloc: Global,
    x: &[Strided],
    g: &[Strided],
    thresholds: &Thresholds,
) -> Result<Vec<Strided>, AllocError>
    requires same { length x.now ≡ length g.now }
    requires own { AllOwn x.now }
    ensures { IfOk result (λ v. v.items ≡ narrowed_all thresholds.now x.now g.now) }
{
    let mut made = Vec::new(alloc);
    for i in 0..x.len() {
        made.push(x[i].narrowed(g[i], thresholds))?;
    }
    Ok(made)
}

/// Whether each lies in its own of the others.
pub(crate) fn are_inside(a: &[Strided], b: &[Strided]) -> bool
    ensures { result ≡ all_lie_in a.now b.now }
{
    a.iter().zip(b).all(|(p, q)| p.lies_in(*q))
}

/// Whether one of the parts has no number.
pub(crate) fn has_bare(parts: &[Strided]) -> bool
    ensures { result ≡ list_any is_bare parts.now }
{
    parts.iter().any(|b| b.is_bare())
}

/// The parts by their best bounds.
pub(crate) fn reduced(alloc: Global, parts: &[Strided]) -> Result<Vec<Strided>, AllocError>
    ensures { IfOk result (λ v. v.items ≡ map reduced parts.now) }
{
    parts.iter().map(|b| b.reduced()).collect(alloc)
}

/// The part by its best bounds, where it has a number.
pub fn best_part(part: Strided) -> Option<Strided>
    ensures { result ≡ best_part part }
{
    if part.is_bare() {
        None
    } else {
        Some(part.reduced())
    }
}

/// The same parts.
pub(crate) fn copied(alloc: Global, parts: &[Strided]) -> Result<Vec<Strided>, AllocError>
    ensures { IfOk result (λ v. v.items ≡ parts.now) }
{
    parts.to_vec(alloc)
}

/// The part with its bounds met by the range.
pub fn met_part(part: Strided, r: Range) -> Strided
    ensures { result ≡ met_part part r }
{
    Strided {
        low: part.low.max(r.low),
        high: part.high.min(r.high),
        stride: part.stride,
    }
}

/// Whether the four numbers of two parts are the same.
fn is_same(a: Strided, b: Strided) -> bool
    ensures { result ≡ same_part a b }
{
    a.low == b.low
        && (a.high == b.high
            && (a.stride.modulus == b.stride.modulus && a.stride.residue == b.stride.residue))
}

/// Whether each part is the same as its own of the others.
fn all_same(a: &[Strided], b: &[Strided]) -> bool
    ensures { result ≡ all_same_parts a.now b.now }
{
    a.iter().zip(b).all(|(p, q)| is_same(*p, *q))
}

/// Whether the parts are the same.
pub(crate) fn are_same(a: &[Strided], b: &[Strided]) -> bool
    ensures { result ≡ same_numbers (numbers_of a.now) (numbers_of b.now) }
{
    if a.len() == b.len() {
        all_same(a, b)
    } else {
        false
    }
}

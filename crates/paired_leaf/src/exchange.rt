//! Two leaves that refine each other by their ranges.
#![tactic(auto)]

ghost use Rattle.std.specs.Prelude.{◌≡◌, ◌<◌, IfOk};
ghost use Rattle.leaf_domain.specs.Ranges.{IsInInt};
ghost use Rattle.paired_leaf.specs.Pairs.{pair_of, AreParts};
ghost use Rattle.paired_leaf.specs.Exchange.{is_tighter, limited_at, limited, exchanged};

use crate::parts::{Parts, has_nothing, nothing, settled};
use fam_outer::NoMemory;
use leaf_domain::{Leaf, Range, leaf_is_valid};
use std::alloc::Global;

/// Whether a range ends before another.
fn is_tighter(range: Range, known: Range) -> bool
    ensures { result ≡ is_tighter range known }
{
    known.low < range.low || range.high < known.high
}

/// The leaf with the range of a variable met, where it is tighter than the leaf's own: a meet of an octagon closes it.
pub fn limited_at<L: Leaf>(alloc: Global, leaf: L, x: u32, range: Range) -> Result<L, NoMemory>
    requires x { x < (L.value leaf).variables }
    requires range { IsInInt range }
    ensures value { IfOk result (λ met. L.value met ≡ limited_at L.meaning (L.value leaf) x range) }
    ensures same { IfOk result (λ met. (L.value met).variables ≡ (L.value leaf).variables) }
{
    leaf_is_valid(&leaf);
    if is_tighter(range, leaf.bounds_of(x)) {
        leaf.meet_range(alloc, x, range)
    } else {
        Ok(leaf)
    }
}

/// The leaf with the ranges that another leaf has.
fn limited<K: Leaf, L: Leaf>(alloc: Global, leaf: K, other: &L) -> Result<K, NoMemory>
    requires { (K.value leaf).variables ≡ (L.value other.now).variables }
    ensures value { IfOk result
        (λ met. K.value met ≡ limited K.meaning L.meaning (K.value leaf) (L.value other.now)) }
    ensures same { IfOk result (λ met. (K.value met).variables ≡ (K.value leaf).variables) }
{
    leaf_is_valid(other);
    let variables = leaf.variables();
    let mut met = leaf;
    for x in 0..variables {
        met = limited_at(alloc, met, x, other.bounds_of(x))?;
    }
    Ok(met)
}

/// The parts of the pair of two leaves once each has the ranges of the other.
pub fn exchanged<A: Leaf, B: Leaf>(
    alloc: Global,
    first: A,
    second: B,
) -> Result<Parts<A, B>, NoMemory>
    requires { (A.value first).variables ≡ (B.value second).variables }
    ensures value { IfOk result
        (λ made. pair_of (A.value made.first) (B.value made.second)
        ≡ exchanged A.meaning B.meaning (A.value first) (B.value second)) }
    ensures parts { IfOk result
        (λ made. AreParts A.meaning B.meaning (A.value made.first) (B.value made.second)) }
{
    leaf_is_valid(&first);
    if has_nothing(&first, &second) {
        return nothing(alloc, first.variables());
    }
    let second = limited(alloc, second, &first)?;
    let first = limited(alloc, first, &second)?;
    let second = limited(alloc, second, &first)?;
    settled(alloc, first, second)
}

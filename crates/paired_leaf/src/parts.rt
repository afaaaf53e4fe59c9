//! The two leaves of a pair.
#![tactic(auto)]

ghost use Rattle.std.specs.Prelude.{◌≡◌, ◌≤◌, ◌||◌, IfOk};
ghost use Rattle.leaf_domain.specs.Leaves.{nothing_of, is_nothing_of};
ghost use Rattle.paired_leaf.specs.Pairs.{pair_of, AreParts};
ghost use Rattle.paired_leaf.specs.PairedLeaves.{widened_to};

use fam_outer::NoMemory;
use leaf_domain::{Leaf, Thresholds, leaf_is_valid};
use std::alloc::Global;

/// A leaf of each kind.
#[derive(Drop)]
pub struct Parts<A, B> {
    pub first: A,
    pub second: B,
}

/// The parts of a pair that holds no store.
pub(crate) fn nothing<A: Leaf, B: Leaf>(
    alloc: Global,
    variables: u32,
) -> Result<Parts<A, B>, NoMemory>
    requires { variables ≤ 48 }
    ensures value { IfOk result
        (λ made. pair_of (A.value made.first) (B.value made.second) ≡ nothing_of variables) }
    ensures parts { IfOk result
        (λ made. AreParts A.meaning B.meaning (A.value made.first) (B.value made.second)) }
{
    Ok(Parts {
        first: A::nothing(alloc, variables)?,
        second: B::nothing(alloc, variables)?,
    })
}

/// Whether one of two leaves holds no store.
pub(crate) fn has_nothing<A: Leaf, B: Leaf>(first: &A, second: &B) -> bool
    ensures { result ≡ (is_nothing_of (A.value first.now) || is_nothing_of (B.value second.now)) }
{
    first.is_nothing() || second.is_nothing()
}

/// The parts of the pair of two leaves: both are Nothing where one is.
pub fn settled<A: Leaf, B: Leaf>(
    alloc: Global,
    first: A,
    second: B,
) -> Result<Parts<A, B>, NoMemory>
    requires { (A.value first).variables ≡ (B.value second).variables }
    ensures value { IfOk result
        (λ made. pair_of (A.value made.first) (B.value made.second)
        ≡ pair_of (A.value first) (B.value second)) }
    ensures parts { IfOk result
        (λ made. AreParts A.meaning B.meaning (A.value made.first) (B.value made.second)) }
{
    leaf_is_valid(&first);
    leaf_is_valid(&second);
    if has_nothing(&first, &second) {
        nothing(alloc, first.variables())
    } else {
        Ok(Parts { first, second })
    }
}

/// The leaf as it is where it is above the other, and else widened.
pub fn widened_to<L: Leaf>(
    alloc: Global,
    leaf: &L,
    other: &L,
    thresholds: &Thresholds,
) -> Result<L, NoMemory>
    requires { (L.value leaf.now).variables ≡ (L.value other.now).variables }
    ensures { IfOk result
        (λ made. L.value made ≡ widened_to L.meaning thresholds.now (L.value leaf.now) (L.value other.now)) }
{
    if other.leq(leaf) {
        leaf.copy(alloc)
    } else {
        leaf.widen(alloc, other, thresholds)
    }
}

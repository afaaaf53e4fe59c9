//! A law of the texts of leaves: the function does nothing, and its contract is the law.
#![tactic(auto)]

ghost use Rattle.report_laws.specs.Stores.{LeafTextsTellStores};

use leaf_domain::Leaf;

/// What is printed of a leaf is so of each store that the leaf holds: each variable lies in its range, and the difference
/// `x-y` and the sum `x+y` of two in theirs; `unreachable` is printed of no leaf that holds a store.
pub fn leaf_texts_tell_stores<L: Leaf>()
    ensures { LeafTextsTellStores L.meaning }
{}

//! What an analysis of a family shares and counts.
#![tactic(auto)]

ghost use Rattle.std.specs.Prelude.{◌≡◌, ◌<◌, []};

use decision_tree::Forest;
use leaf_domain::Leaf;
use std::alloc::Global;
use std::sync::ledger::{Blank, Ledger};
use tree_unify::Steps;

/// The forests of leaves and of truths, and the count of the steps.
#[derive(Drop)]
pub(crate) struct Tables<L: Leaf, K: Ledger> {
    pub(crate) alloc: Global,
    pub(crate) leaves: Forest<L>,
    pub(crate) truths: Forest<bool>,
    pub(crate) steps: Steps<K>,
}

impl<L: Leaf, K: Ledger> Tables<L, K> {
    /// Empty forests, and a count at 0.
    pub(crate) fn new(alloc: Global, blank: Blank) -> Tables<L, K>
        requires name { blank.name ≡ K.name }
        requires parts { blank.parts ≡ K.parts }
        requires some { 0 < K.parts }
        ensures leaves { result.leaves ≡ [] }
        ensures truths { result.truths ≡ [] }
    {
        Tables {
            alloc,
            leaves: Forest::new(alloc),
            truths: Forest::new(alloc),
            steps: Steps::<K>::new(blank),
        }
    }
}

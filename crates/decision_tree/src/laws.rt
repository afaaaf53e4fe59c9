//! Laws of trees, for the crates above: each function does nothing, and its contract is the law.
#![tactic(auto)]

ghost use Rattle.std.specs.Prelude.{◌≡◌, ℕ, Bool, List, length};
ghost use Rattle.decision_tree.specs.Paths.{paths_of, TakesOne};
ghost use Rattle.decision_tree.specs.Plain.{Plain, leaf_of, AgreeAtAll, HasLeaf, IsReduced, TestsBelow};

/// Reduced trees are the same where they lead each vector to the same leaf (after Bryant). Their tests are below the number of
/// truths.
#[tactic(auto, using(crate::proofs::Canon::same_from_agreeing))]
pub fn agreeing_trees_are_the_same<L>()
    ensures { (m : ℕ) (t u : Plain L) → IsReduced t → IsReduced u
        → TestsBelow m t → TestsBelow m u → AgreeAtAll m t u → t ≡ u }
{}

/// Each leaf of a reduced tree is reached by some vector, of any length that all tests are below.
#[tactic(auto, using(crate::proofs::Reached::reached))]
pub fn leaves_are_reached<L>()
    ensures { (m : ℕ) (t : Plain L) (x : L) → IsReduced t → TestsBelow m t → HasLeaf x t
        → (v : List Bool) × (length v ≡ m) × (leaf_of t v ≡ x) }
{}

/// Each vector takes exactly one of the paths of a tree, and that path leads to the leaf that the vector reaches.
#[tactic(auto, using(crate::proofs::OnePath::takes_one))]
pub fn vectors_take_one_path<L>()
    ensures { (t : Plain L) (v : List Bool) → TakesOne v (leaf_of t v) (paths_of t) }
{}

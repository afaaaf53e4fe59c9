//! Trees of truths that others are restricted to.
ghost use Rattle.std.specs.Prelude.{◌≡◌, ℕ, ◌+◌, ◌≤◌, Bool, List, IfOk};
ghost use Rattle.decision_tree.specs.Plain.{Plain};
ghost use Rattle.decision_tree.specs.Listed.{IsTreeIn, Keeps};
ghost use Rattle.decision_tree.specs.View.{numbered, plain};
ghost use Rattle.tree_unify.specs.Sides.{side_of};
ghost use Rattle.tree_restrict.specs.Reached.{IsUnionOf};
ghost use Rattle.tree_restrict.specs.Restricted as words;

use decision_tree::{Forest, Tree};
use fam_outer::NoMemory;
use std::alloc::Global;
use std::sync::ledger::Ledger;
use tree_unify::{Either, Steps, unify_in};

/// Whether the tree is the leaf false.
pub fn is_false(care: &Tree<bool>) -> bool
    ensures { result ≡ words.is_false (plain care.now) }
{
    match care {
        Tree::Leaf(leaf) => !leaf.value,
        Tree::Node(_) => false,
    }
}

/// Where the tree goes on once the test has the value: at a child if the root tests it, and else at the root.
pub fn side(care: &Tree<bool>, test: u32, value: bool) -> &Tree<bool>
    ensures side { plain result.now ≡ side_of test value (plain care.now) }
    ensures tree { (forest : List (Plain Bool))
        → IsTreeIn 0 320 forest (numbered care.now) → IsTreeIn 0 320 forest (numbered result.now) }
{
    match care {
        Tree::Node(node) if node.test == test => { if value { &node.yes } else { &node.no } }
        _ => care,
    }
}

/// The tree that is true where one of two trees of the forest is: four calls of the operation at most.
#[tactic(auto, using(decision_tree::proofs::Numbers::numbered_tree))]
pub fn union<K: Ledger>(
    alloc: Global,
    cares: &mut Forest<bool>,
    no: &Tree<bool>,
    yes: &Tree<bool>,
    steps: &mut Steps<K>,
) -> Result<Tree<bool>, NoMemory>
    requires no { IsTreeIn 0 320 cares.old (numbered no.now) }
    requires yes { IsTreeIn 0 320 cares.old (numbered yes.now) }
    ensures means { IfOk result (λ u. IsUnionOf (plain no.now) (plain yes.now) (plain u)) }
    ensures tree { (first : ℕ) → IsTreeIn first 320 cares.old (numbered no.now)
        → IsTreeIn first 320 cares.old (numbered yes.now)
        → IfOk result (λ u. IsTreeIn first 320 cares.new (numbered u)) }
    ensures keeps { Keeps cares.old cares.new }
    ensures steps { steps.new ≤ steps.old + 4 }
{
    unify_in(alloc, cares, &Either, no, yes, steps)
}

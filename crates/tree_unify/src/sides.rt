//! The sides of a tree at a test that is not above its first one.
ghost use Rattle.std.specs.Prelude.{◌≡◌};
ghost use Rattle.decision_tree.specs.Numbered.{Numbered, IsWithin};
ghost use Rattle.decision_tree.specs.View.{numbered, plain};
ghost use Rattle.tree_unify.specs.Sides.{first_of, side_of};

use decision_tree::{Kept, Tree};

/// The value of a leaf.
pub fn value_of<L>(leaf: &Kept<L>) -> &L
    ensures { result.now ≡ leaf.now.value }
{
    &leaf.value
}

/// The test at the root, or 320 at a leaf.
pub fn first<L>(t: &Tree<L>) -> u32
    ensures { result ≡ first_of (plain t.now) }
{
    match t {
        Tree::Leaf(_) => 320,
        Tree::Node(node) => node.test,
    }
}

/// Where the tree goes on once the test has the value: at a child if the root tests it, and else at the root.
#[tactic(auto, using(crate::proofs::Within::within_low, crate::proofs::Within::within_high))]
pub fn side<L>(t: &Tree<L>, test: u32, value: bool) -> &Tree<L>
    ensures side { plain result.now ≡ side_of test value (plain t.now) }
    ensures within { (whole : Numbered L) → IsWithin (numbered t.now) whole
        → IsWithin (numbered result.now) whole }
{
    match t {
        Tree::Node(node) if node.test == test => { if value { &node.yes } else { &node.no } }
        _ => t,
    }
}

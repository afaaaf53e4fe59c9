//! What linearising keeps.
#![tactic(auto)]

ghost use Rattle.leaf_domain.specs.Leaves.{LeafLaws};
ghost use Rattle.linearised_leaf.specs.Linearised.{linearised};

use leaf_domain::Leaf;

/// A kind of leaf that keeps the laws of leaves keeps them linearised.
pub fn linearised_keeps_the_laws<L: Leaf>()
    ensures { LeafLaws (linearised L.meaning) }
{}

//! Laws of the trees that an analysis of a family answers.
#![tactic(auto)]

ghost use Rattle.std.specs.Prelude.{◌≡◌, ◌↔◌, ℕ, Bool, List};
ghost use Rattle.decision_tree.specs.Plain.{Plain};
ghost use Rattle.leaf_domain.specs.Leaves.{LeafValue};
ghost use Rattle.lifted_analysis.specs.Canon.{IsTreeOf, IsCanon};

/// A tree of leaf values is that of a function of vectors exactly where it is made by going through all vectors, from the last
/// test to the first; and there is exactly one such tree.
#[tactic(auto, using(crate::proofs::CanonLaws::leaf_trees, crate::proofs::CanonLaws::one_leaf_tree, crate::proofs::CanonLaws::some_leaf_tree))]
pub fn leaf_trees_are_canonical()
    ensures exact { (m : ℕ) (f : List Bool → LeafValue) (t : Plain LeafValue)
        → IsTreeOf m f t ↔ IsCanon m f t }
    ensures unique { (m : ℕ) (f : List Bool → LeafValue) (t u : Plain LeafValue) → IsCanon m f t
        → IsCanon m f u → t ≡ u }
    ensures there { (m : ℕ) (f : List Bool → LeafValue) → (t : Plain LeafValue) × IsCanon m f t }
{}

/// The same of trees of truths.
#[tactic(auto, using(crate::proofs::CanonLaws::truth_trees, crate::proofs::CanonLaws::one_truth_tree, crate::proofs::CanonLaws::some_truth_tree))]
pub fn truth_trees_are_canonical()
    ensures exact { (m : ℕ) (f : List Bool → Bool) (t : Plain Bool) → IsTreeOf m f t ↔ IsCanon m f t }
    ensures unique { (m : ℕ) (f : List Bool → Bool) (t u : Plain Bool) → IsCanon m f t → IsCanon m f u
        → t ≡ u }
    ensures there { (m : ℕ) (f : List Bool → Bool) → (t : Plain Bool) × IsCanon m f t }
{}

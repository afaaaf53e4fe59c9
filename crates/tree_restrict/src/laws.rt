//! Laws of restricted trees, for the crates above: each function does nothing, and its contract is the law.
ghost use Rattle.std.specs.Prelude.{◌≡◌, ◌||◌, ℕ, ◌<◌, ◌≤◌, Bool, true, false, List};
ghost use Rattle.decision_tree.specs.Plain.{Plain, leaf, node, leaf_of, HasTest, TestsBelow, IsExact, IsReduced, IsReducedFrom};
ghost use Rattle.tree_unify.specs.Leafwise.{IsUnified};
ghost use Rattle.tree_unify.specs.Sides.{side_of};
ghost use Rattle.tree_restrict.specs.Mapped.{ReplacesLeaves, AgreeThrough};
ghost use Rattle.tree_restrict.specs.Restricted.{is_false, restricted, sides_left};

/// Where the care is true, the restricted tree leads where the tree does; it is as reduced as the tree, has no other
/// tests, and so none above a bound of the tree's tests.
#[tactic(auto, using(crate::proofs::Restricting::leads_of, crate::proofs::Restricting::reduced_of, crate::proofs::Restricting::tests_of, crate::proofs::Mapping::below_of))]
pub fn restricted_agrees<L>()
    ensures leads { (eq : L → L → Bool) (t : Plain L) (c : Plain Bool) (v : List Bool)
        → IsExact eq → leaf_of c v ≡ true → leaf_of (restricted eq t c) v ≡ leaf_of t v }
    ensures reduced { (eq : L → L → Bool) (t : Plain L) (c : Plain Bool) (m : ℕ)
        → ((x : L) → eq x x ≡ true) → IsReducedFrom m t → IsReducedFrom m (restricted eq t c) }
    ensures tests { (eq : L → L → Bool) (t : Plain L) (c : Plain Bool) (k : ℕ)
        → HasTest k (restricted eq t c) → HasTest k t }
    ensures below { (eq : L → L → Bool) (t : Plain L) (c : Plain Bool) (m : ℕ)
        → TestsBelow m t → TestsBelow m (restricted eq t c) }
{}

/// To replace the leaves of a restricted tree is to restrict the tree with its leaves replaced, where equal leaves are
/// replaced by equal ones alone, and different ones by different ones.
#[tactic(auto, using(crate::proofs::Mapping::mapped_of))]
pub fn restricted_maps<A, B>()
    ensures { (eq : A → A → Bool) (other : B → B → Bool) (f : A → B) (g : Plain A → Plain B)
        → AgreeThrough f eq other → ReplacesLeaves f g
        → (t : Plain A) (c : Plain Bool) → g (restricted eq t c) ≡ restricted other (g t) c }
{}

/// The equations by which Coudert and Madre state it, for reduced trees. A tree is its own restriction where it is a leaf
/// or the care is one. Where the care's test comes first, its union, which is true where one of its sides is, takes its
/// place. Else each side is restricted to the care's side, and a side whose care is false is left out.
#[tactic(auto, using(crate::proofs::Equations::leaves_stay, crate::proofs::Equations::all_stays, crate::proofs::Equations::union_instead, crate::proofs::Equations::by_sides))]
pub fn restricted_steps<L>()
    ensures leaves { (eq : L → L → Bool) (x : L) (c : Plain Bool)
        → restricted eq (leaf x) c ≡ leaf x }
    ensures all { (eq : L → L → Bool) (t : Plain L) (b : Bool)
        → IsExact eq → IsReduced t → restricted eq t (leaf b) ≡ t }
    ensures union { (eq : L → L → Bool) (k j : ℕ) (low high : Plain L) (p q u : Plain Bool)
        → j < k → IsReduced (node j p q) → IsReduced u
        → TestsBelow 320 p → TestsBelow 320 q → TestsBelow 320 u
        → IsUnified (λ a b c. c ≡ (a || b)) p q u
        → restricted eq (node k low high) (node j p q) ≡ restricted eq (node k low high) u }
    ensures sides { (eq : L → L → Bool) (k j : ℕ) (low high : Plain L) (p q : Plain Bool)
        → k ≤ j → IsReduced (node j p q)
        → restricted eq (node k low high) (node j p q) ≡ sides_left eq k
        (is_false (side_of k false (node j p q))) (is_false (side_of k true (node j p q)))
        (restricted eq low (side_of k false (node j p q)))
        (restricted eq high (side_of k true (node j p q))) }
{}

//! What leaves of intervals with strides keep that follow squares, quotients and remainders.
#![tactic(auto)]

ghost use Rattle.std.specs.Prelude.{◌↔◌, ℤ};
ghost use Rattle.leaf_domain.specs.Leaves.{LeafLaws};
ghost use Rattle.leaf_domain.specs.Exactness.{LeafExactness};
ghost use Rattle.strides.specs.declared.stride.Stride.{Stride};
ghost use Rattle.strides.specs.declared.strided.Strided.{Strided};
ghost use Rattle.strides.specs.Strides.{HasStride};
ghost use Rattle.strides.specs.Strided.{Has};
ghost use Rattle.congruence_leaf.specs.Congruences.{congruences};
ghost use Rattle.congruence_leaf.specs.TwoStrides.{strided_met};

/// Strides with what they say of squares, and of quotients and remainders by a constant, keep every law of leaves.
pub fn congruences_keep_the_laws()
    ensures { LeafLaws congruences }
{}

/// Behind a meet, a replaced variable or a narrowing, such a leaf holds no store but those that it must.
pub fn congruences_are_exact()
    ensures { LeafExactness congruences }
{}

/// The numbers that a part keeps where it is to have a stride too are just those of the part that have that stride.
pub fn parts_keep_the_numbers_of_both_strides()
    ensures { (b : Strided) (t : Stride) (n : ℤ) → Has (strided_met b t) n ↔ (Has b n × HasStride t n) }
{}

//! How exact leaves of intervals with strides are.
#![tactic(auto)]

ghost use Rattle.leaf_domain.specs.Exactness.{LeafExactness};
ghost use Rattle.product_leaf.specs.StrideLeaves.{strides};
ghost use Rattle.product_leaf.specs.Exact.{StridesAreOrderedByStores, StrideJoinIsLeast};

/// Behind a meet, a replaced variable or a narrowing, a leaf of intervals with strides holds no store but those that it must.
pub fn strides_are_exact()
    ensures { LeafExactness strides }
{}

/// A leaf of intervals with strides is below another exactly where each of its stores is one of the other's.
pub fn strides_are_ordered_by_stores()
    ensures { StridesAreOrderedByStores }
{}

/// The join of two leaves of intervals with strides is the least leaf above both.
pub fn stride_join_is_least()
    ensures { StrideJoinIsLeast }
{}

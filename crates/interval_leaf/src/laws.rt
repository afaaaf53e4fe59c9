//! How exact leaves of intervals are.
#![tactic(auto)]

ghost use Rattle.leaf_domain.specs.Exactness.{LeafExactness};
ghost use Rattle.interval_leaf.specs.Intervals.{intervals};
ghost use Rattle.interval_leaf.specs.Exact.{IntervalsAreOrderedByStores, IntervalJoinIsLeast};

/// Behind a meet, a replaced variable or a narrowing, a leaf of intervals holds no store but those that it must.
pub fn intervals_are_exact()
    ensures { LeafExactness intervals }
{}

/// A leaf of intervals is below another exactly where each of its stores is one of the other's.
pub fn intervals_are_ordered_by_stores()
    ensures { IntervalsAreOrderedByStores }
{}

/// The join of two leaves of intervals is the least leaf above both.
pub fn interval_join_is_least()
    ensures { IntervalJoinIsLeast }
{}

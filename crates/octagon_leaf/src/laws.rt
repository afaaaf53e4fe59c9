//! What octagons keep beyond the laws of every kind of leaf.
#![tactic(auto)]

ghost use Rattle.leaf_domain.specs.Exactness.{LeafExactness};
ghost use Rattle.octagon_leaf.specs.Octagons.{octagons};
ghost use Rattle.octagon_leaf.specs.Exact.{LeqIsInclusion, JoinIsLeast, MeetFormIsExact, SetFormIsExact, BoundsAreReached, FormRangesAreReached};

/// How exact octagons are, over all leaves of the kind. `meet_range` and `set_range` hold just the stores that they must, and
/// `meet_form` and `narrow` add none. `leq` is inclusion of the stores, and `join` the least octagon above both. For a form of one
/// or two variables, each once with or without a minus, `meet_form` holds just the stores at which the comparison holds, for each
/// but `!=`; and for one of a single such variable or none, `set_form` holds just the stores with its value. Each end of the
/// range of a variable, and of a form that has one, is the value at a store of the leaf.
pub fn octagons_are_exact()
    ensures leaf { LeafExactness octagons }
    ensures order { LeqIsInclusion }
    ensures least { JoinIsLeast }
    ensures meets { MeetFormIsExact }
    ensures sets { SetFormIsExact }
    ensures bounds { BoundsAreReached }
    ensures ranges { FormRangesAreReached }
{}

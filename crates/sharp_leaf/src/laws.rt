//! That no operation of this kind of leaf knows less than that of one of its two parts, nor, from leaves that know no less, than that of
//! intervals.
#![tactic(auto)]

ghost use Rattle.octagon_leaf.specs.Octagons.{octagons};
ghost use Rattle.congruence_leaf.specs.Congruences.{congruences as strides};
ghost use Rattle.product_leaf.specs.StrideLeaves.{strides as plain_strides};
ghost use Rattle.paired_leaf.specs.Pairs.{second_of};
ghost use Rattle.paired_leaf.specs.Below.{IsBelowParts};
ghost use Rattle.sharp_leaf.specs.SharpLeaves.{sharp};
ghost use Rattle.sharp_leaf.specs.BelowIntervals.{IsBelowIntervals};

/// The answer of each operation holds no store that the octagons' or the strides' answer lacks for its part of the leaf, nor
/// has its range a number that the range of one of both lacks.
pub fn sharp_is_below_its_parts()
    ensures { IsBelowParts octagons strides sharp }
{}

/// The same of strides alone ([`product_leaf`]), which follow no remainders: neither an assignment nor a comparison of a remainder holds a store
/// that theirs lacks, and of the other operations the strides' answers are theirs.
pub fn sharp_is_below_strides()
    ensures { IsBelowParts octagons plain_strides sharp }
{}

/// Where the strides of the leaves that an operation takes hold no store that leaves of intervals lack, its answer holds none that the answer
/// of intervals lacks, and the bounds of a variable have no number that theirs lack. So it is of each operation, one after the other; of
/// widening and narrowing where the lows and highs of the leaf that is widened or narrowed are the ranges of that of intervals.
///
/// With other lows and highs neither is so, for intervals themselves as little: where a loop brings `[1, 9]` to the low of `[2, 9]`, it steps to
/// the type's low, and that of `[0, 9]` stays. And `[1, 9]`, of which no bound came of a step, stays when narrowed to `[5, 9]`, while `[0, 9]`
/// with the threshold 0 becomes `[5, 9]`.
pub fn sharp_is_below_intervals()
    ensures { IsBelowIntervals sharp second_of }
{}

/// The same of the strides alone, which follow remainders.
pub fn strides_are_below_intervals()
    ensures { IsBelowIntervals strides (λ v. v) }
{}

//! The laws of how exact ranges are: each function does nothing, and its contract is the law.
#![tactic(auto)]

ghost use Rattle.range_laws.specs.Arithmetic.{EndsAreResults, ArithmeticIsLeast, SumsAreExact};
ghost use Rattle.range_laws.specs.Cuts.{CutIsExact, EndsAreMet, CutIsLeast};
ghost use Rattle.range_laws.specs.Clips.{ClippedSumsAreExact, ClippedQuotientsAreResults, HighIsNoQuotient, EndsAreNoProducts};
ghost use Rattle.range_laws.specs.Folds.{FoldEndsAreWrapped, FoldIsLeast, FoldIsExact};
ghost use Rattle.range_laws.specs.Joins.{HullIsLeast, CoverIsLeast, MeetIsExact};
ghost use Rattle.range_laws.specs.Nearest.{NearestIsLeast, NearestIsOne};
ghost use Rattle.range_laws.specs.Remainders.{RemainderEndsAreResults, SingleRemaindersAreResults, RemaindersAreLeast, SomeRemaindersAreNotLeast};

/// How exact `arithmetic` is, before clipping. Each end of a range of sums, differences, products or quotients is the result of
/// numbers of the operands, so that no range with all results has fewer numbers; there is none where an operand is empty or the
/// divisor is only 0. Each number of a range of sums or differences is a result.
pub fn arithmetic_is_least()
    ensures ends { EndsAreResults }
    ensures least { ArithmeticIsLeast }
    ensures sums { SumsAreExact }
{}

/// How exact `arithmetic` is by `%`, before clipping. Each end that is a number of the left operand is a remainder, and so are both
/// ends where each operand is a single number. So where the left operand has 0, no range with all remainders has fewer numbers. Else
/// one may: the remainders of 4 and 5 by 3 are 1 and 2, and their range is 0 to 2.
pub fn remainders_are_least_from_zero()
    ensures ends { RemainderEndsAreResults }
    ensures single { SingleRemaindersAreResults }
    ensures least { RemaindersAreLeast }
    ensures more { SomeRemaindersAreNotLeast }
{}

/// How exact `clip` is on ranges of results. Each number of a clipped range of sums or differences is a result. The low of a clipped
/// range of quotients of numbers of `int` is a quotient, and so is the high unless the least `int` may be divided by -1. That quotient
/// is not within `int`, and then the high need be none: of the least `int` by -2 and by -1 only 1073741824 is within `int`, and the
/// range is clipped to 1073741824 to 2147483647. Neither end of a clipped range of products need be one: that of 3 times any `int` is
/// clipped to all of `int`.
pub fn clipped_ends_are_results()
    ensures sums { ClippedSumsAreExact }
    ensures quotients { ClippedQuotientsAreResults }
    ensures high { HighIsNoQuotient }
    ensures products { EndsAreNoProducts }
{}

/// How exact `fold` is: each end is a wrapped number of the range, so that no range with all wrapped numbers has fewer; and each
/// number is one, where a multiple of 2^32 brings the range within `int`.
pub fn fold_is_least()
    ensures ends { FoldEndsAreWrapped }
    ensures least { FoldIsLeast }
    ensures numbers { FoldIsExact }
{}

/// How exact `cut` is. For each number that remains of the left operand the comparison holds with a number of the right one. Only for
/// `!=` the number of a right operand of one number may remain, though never at an end. So each end is a number for which the
/// comparison holds, and no range with all of these has fewer.
pub fn cut_is_exact()
    ensures numbers { CutIsExact }
    ensures ends { EndsAreMet }
    ensures least { CutIsLeast }
{}

/// The nearest of some numbers to a bound within the limit covers the bound, is at most the limit, is the limit or one of the
/// numbers, and is at most each number that covers the bound. No other number is that.
pub fn nearest_is_least()
    ensures least { NearestIsLeast }
    ensures one { NearestIsOne }
{}

/// The `hull` of two ranges has both, and each range that has both has the hull. The same holds of `cover` where neither is empty.
pub fn hull_is_least()
    ensures hull { HullIsLeast }
    ensures cover { CoverIsLeast }
{}

/// `meet` has just the numbers that both ranges have.
pub fn meet_is_exact()
    ensures { MeetIsExact }
{}

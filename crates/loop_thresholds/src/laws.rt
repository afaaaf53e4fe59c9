//! Laws of the thresholds, for the crates above: each function does nothing, and its contract is the law.
#![tactic(auto)]

ghost use Rattle.loop_thresholds.specs.Laws.{ThresholdsAreNear, ThresholdsAreLeast};

/// Each threshold is a number of the program, or differs from one by 1.
pub fn thresholds_are_near_numbers()
    ensures { ThresholdsAreNear }
{}

/// There are at most 64 thresholds, in rising order, each a number of `int`; a candidate that is none of them is farther from zero
/// than each of them, and then there are 64.
pub fn thresholds_are_least()
    ensures { ThresholdsAreLeast }
{}

//! The ends of a range, as widening moves them to thresholds and narrowing takes them back.
#![tactic(auto)]

ghost use Rattle.std.specs.Prelude.{◌≡◌, ◌≤ℤ◌};
ghost use Rattle.c_tree.specs.Value.{least};
ghost use Rattle.leaf_domain.specs.Ends.{low_step, high_step, is_low_step, is_high_step, widened_range, narrowed_range};

use crate::range::Range;
use crate::thresholds::{Multiple, Thresholds};

/// The low to which a low steps that has to cover this one.
fn low_step(thresholds: &Thresholds, low: i64) -> i64
    requires { least ≤ℤ low }
    ensures { result ≡ low_step thresholds.now low }
{
    -thresholds.nearest(Multiple::MinusOne, -Range::INT.low, -low)
}

/// The high to which a high steps that has to cover this one.
fn high_step(thresholds: &Thresholds, high: i64) -> i64
    ensures { result ≡ high_step thresholds.now high }
{
    thresholds.nearest(Multiple::One, Range::INT.high, high)
}

/// Whether a low may come of a step.
fn is_low_step(thresholds: &Thresholds, low: i64) -> bool
    requires { least ≤ℤ low }
    ensures { result ≡ is_low_step thresholds.now low }
{
    thresholds.is_step(Multiple::MinusOne, -Range::INT.low, -low)
}

/// Whether a high may come of a step.
fn is_high_step(thresholds: &Thresholds, high: i64) -> bool
    ensures { result ≡ is_high_step thresholds.now high }
{
    thresholds.is_step(Multiple::One, Range::INT.high, high)
}

impl Range {
    /// The range with each end that the other moves put as the nearest threshold that covers the other's, and as that of
    /// `int` where none does.
    pub fn widened(self, other: Range, thresholds: &Thresholds) -> Range
        requires { least ≤ℤ other.low }
        ensures { result ≡ widened_range thresholds.now self other }
    {
        Range {
            low: if other.low < self.low {
                low_step(thresholds, other.low)
            } else {
                self.low
            },
            high: if self.high < other.high {
                high_step(thresholds, other.high)
            } else {
                self.high
            },
        }
    }

    /// The range with each end that is that of `int` or of a threshold put as the other's.
    pub fn narrowed(self, other: Range, thresholds: &Thresholds) -> Range
        requires { least ≤ℤ self.low }
        ensures { result ≡ narrowed_range thresholds.now self other }
    {
        Range {
            low: if is_low_step(thresholds, self.low) {
                other.low
            } else {
                self.low
            },
            high: if is_high_step(thresholds, self.high) {
                other.high
            } else {
                self.high
            },
        }
    }
}

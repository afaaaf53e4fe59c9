//! Leaves of intervals (after Cousot and Cousot): Nothing, or a low and a high bound for each
//! variable.
#![tactic(auto)]

pub mod laws;
mod leaf;
mod ranges;

pub use laws::{interval_join_is_least, intervals_are_exact, intervals_are_ordered_by_stores};
pub use leaf::IntervalLeaf;

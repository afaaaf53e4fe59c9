//! Thresholds for the bounds of loops: the numbers of a program, and those beside them, that are nearest to zero.
#![tactic(auto)]

mod insertion;
mod keeping;
pub mod laws;
pub mod program;

pub use laws::{thresholds_are_least, thresholds_are_near_numbers};
pub use program::thresholds_of;

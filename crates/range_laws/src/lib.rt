//! How exact the ranges of `leaf_domain` are.
#![tactic(auto)]

pub mod laws;

pub use laws::{
    arithmetic_is_least, clipped_ends_are_results, cut_is_exact, fold_is_least, hull_is_least,
    meet_is_exact, nearest_is_least, remainders_are_least_from_zero,
};

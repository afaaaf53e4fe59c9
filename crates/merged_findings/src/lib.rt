//! The findings of an analysis of all variants, with each tree restricted to the vectors that are plausible, so that their regions are told
//! without what no configuration tells apart.
#![tactic(auto)]

pub mod findings;
pub mod laws;
mod merging;

pub use findings::merged_findings;
pub use laws::{merged_trees_lead, one_trees_lead};

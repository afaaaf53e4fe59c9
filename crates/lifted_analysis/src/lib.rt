//! The analysis of all variants of a family at once, generic over the kind of leaf: over shared decision trees it goes the way of
//! the analysis of one variant, and at every vector each tree has the leaf that that analysis has there.
#![tactic(auto)]

mod after;
pub mod analysis;
mod conditions;
mod entries;
mod family_context;
mod finals;
pub mod findings;
pub mod laws;
mod line_index;
pub mod lines;
mod noted;
mod operations;
pub mod pass;
mod rule;
mod start;
mod states;
mod tables;
mod testing;
mod ways;

pub use analysis::analyse_family;
pub use findings::{AlarmTree, FamilyFindings, LoopTree, PassFindings, PlaceTree};
pub use laws::{leaf_trees_are_canonical, truth_trees_are_canonical};
pub use lines::{LoopLine, Ranges};
pub use pass::pass_family;

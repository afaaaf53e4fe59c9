//! Shared reduced decision trees, and forests that make each tree once.
#![tactic(auto)]

pub mod forest;
pub mod laws;
pub mod paths;
pub mod tree;

pub use forest::Forest;
pub use paths::{Path, Turns};
pub use tree::{Kept, Node, Tree};

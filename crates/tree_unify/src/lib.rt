//! Operations on reduced trees, leaf by leaf.
#![tactic(auto)]

mod formulas;
mod mapped;
mod memo;
mod numbered;
pub mod operation;
mod sides;
pub mod steps;
mod tree_formulas;
pub mod truths;

pub use formulas::test_tree_in;
pub use mapped::{map_counted, map_in};
pub use numbered::{unify_counted, unify_in};
pub use operation::Operation;
pub use steps::Steps;
pub use tree_formulas::untrue;
pub use truths::{Both, Either};

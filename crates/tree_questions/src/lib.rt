//! Questions asked along decision trees: the least valid configuration at which a tree is false.
#![tactic(auto)]

mod choosing;
pub mod comparing;
pub mod evaluating;
mod restricting;
pub mod searching;

pub use comparing::is_before;
pub use evaluating::leaf_at;
pub use searching::{least_untrue, least_untrue_where};

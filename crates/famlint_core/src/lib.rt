//! The program: words, loads, work and answers.
#![tactic(auto)]

mod ending;
pub mod laws;
mod program;
mod steady;
mod work;

pub use program::famlint;
pub use steady::famlint_over_steady;

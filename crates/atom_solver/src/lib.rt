//! Least configurations of feature models, and what the linear tests of a model and a file can say together.
#![tactic(auto)]

mod branching;
mod cases;
mod choosing;
mod clashing;
mod clauses;
mod cycles;
mod deciding;
mod edges;
mod end_forms;
mod facts;
mod freeing;
mod guesses;
mod labels;
mod narrowing;
mod numbering;
mod parting;
mod parts;
pub mod plausibility;
mod points;
pub mod prepared;
mod range_ends;
mod refuting;
mod searching;
pub mod solving;
mod spans;
mod truths;
mod turning;
mod undecided;
mod wanted;
mod witnesses;

pub use plausibility::plausible;
pub use prepared::Prepared;
pub use solving::{implied, least, least_where};

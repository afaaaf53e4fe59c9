//! The faults of names and of functions outside in a file with groups (ISO/IEC 9899:2011, 6.5 and 6.7).
#![tactic(auto)]

mod constants;
mod declarations;
mod faults;
mod functions;
mod groups;
pub mod judging;
pub mod laws;
mod locals;
pub mod name_context;
mod questions;
mod seen;
mod values;

pub use judging::first_name_fault;
pub use name_context::NameContext;

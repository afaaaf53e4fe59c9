//! What is answered once: what a model leaves open, and the nearest configuration without alarms.
#![tactic(auto)]

pub mod once;

pub use once::{advice_is_one, uses_are_one};

//! The families of one shape and of any size that measures are taken on: their model, their texts, and what they are read as.
#![tactic(auto)]

pub mod generated;
pub mod laws;
pub mod models;
pub mod texts;

pub use generated::{GeneratedFamily, generated_family};
pub use models::generated_model;
pub use texts::generated_text;

//! The text of one variant of a file with groups (ISO/IEC 9899:2011, 6.10.1).
#![tactic(auto)]

pub mod truths;
pub mod variant;

pub use truths::{truths_of, vector_of};
pub use variant::variant_text;

//! Features of a model that the code of a file uses as values (ISO/IEC 9899:2011, 6.5.1).
//!
//! The name of a feature is a variable of code whose start value is the configured value. Tests of each value above the
//! feature's low tell it to decision trees, and declarators with these tests as guards give it to programs.
#![tactic(auto)]

mod added_tests;
mod declaring;
pub mod feature_uses;
pub mod laws;
mod moving;

pub use added_tests::add_tests;
pub use declaring::add_values;
pub use feature_uses::{Use, uses, width};

//! The grammar of C files with groups: which lists of items spell a file, and the laws of reading them item by item.
#![tactic(auto)]

pub mod constants;
pub mod items;
pub mod laws;
pub mod scoped;

pub use constants::{NameClass, Track};
pub use items::{Item, Sign};
pub use scoped::Scoped;

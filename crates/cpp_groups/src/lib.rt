//! Which groups of conditional sections are kept (ISO/IEC 9899:2011, 6.10.1).
#![tactic(auto)]

pub mod directive;
pub mod open;
pub mod section;

pub use directive::GroupDirective;
pub use open::OpenSections;
pub use section::{Section, next_group};

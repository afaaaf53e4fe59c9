//! Linear tests of features: forms, their normal form, and what a test says over ranges.
#![tactic(auto)]

pub mod atoms;
pub mod forms;
pub mod laws;
mod limits;
pub mod linear_fault;
pub mod named;
pub mod normal;
pub mod ranges;
pub mod regions;
pub mod setting_texts;
pub mod slices;
pub mod texts;

pub use atoms::{Atom, Config, Feature, Literal};
pub use forms::Linear;
pub use linear_fault::LinearFault;
pub use linear_terms::Terms;
pub use named::Named;
pub use normal::Normal;
pub use ranges::Span;
pub use regions::Regions;
pub use setting_texts::{config_text, push_settings};

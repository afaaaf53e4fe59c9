//! Advice on configurations: what a feature model leaves open, and the nearest configuration without alarms.
#![tactic(auto)]

mod asking;
mod cheapest;
mod choices;
pub mod comparing;
mod costs;
mod ends;
pub mod feature_uses;
mod keeping;
pub mod nearness;
mod question;
mod quietness;
mod searching;
pub mod texts;

pub use comparing::Advice;
pub use feature_uses::{FeatureUse, uses};
pub use nearness::nearest;
pub use texts::{advice_text, uses_text};

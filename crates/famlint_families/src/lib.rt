//! What the commands on all variants of a family come to: `analyse`, `invariants`, `certify`, `page`, `generate`, `advise` and `features`.
#![tactic(auto)]

pub mod advice;
mod certify;
pub mod family;
pub mod features;
pub mod generate;
pub mod page;

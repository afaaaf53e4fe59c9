//! The page of a report: one HTML text that holds the alarms, the invariants, MODEL and FILE, and needs nothing else.
#![tactic(auto)]

pub mod escapes;
pub mod laws;
pub mod page;
pub mod part;
pub mod parts;
#[cfg(test)]
mod tests;

pub use page::page_text;

//! Loops that declare variables, as the blocks that they are.
#![tactic(auto)]

pub mod blocks;
pub mod laws;
mod statement_ends;

pub use blocks::unfolded;

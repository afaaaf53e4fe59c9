//! What was read so far, between two items: words, expressions, statements and groups that are open, and what ends them.
#![tactic(auto)]

pub mod changes;
pub mod frames;
pub mod groups;
pub mod lists;
pub mod marks;
pub mod scopes;
pub mod stacks;
pub mod states;
pub mod unfinished;
pub mod words;

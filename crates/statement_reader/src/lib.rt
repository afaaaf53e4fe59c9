//! A reader of statements: what each item makes of a state in `main`.
#![tactic(auto)]

pub mod expressions;
pub mod for_headers;
pub mod jumps;
pub mod locals;
pub mod purposes;
pub mod statements;
pub mod statics;

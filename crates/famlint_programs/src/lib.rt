//! What the commands on one program come to: `plain`, `project`, `variant` and `run`.
#![tactic(auto)]

pub mod domain;
pub mod options;
pub mod plain;
mod report;
pub mod variant;

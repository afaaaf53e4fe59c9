//! A reader of declarations: what each item makes of a state before `main`.
#![tactic(auto)]

pub mod declarations;
pub mod definitions;
pub mod heads;
pub mod parameters;
pub mod sections;
pub mod static_variables;

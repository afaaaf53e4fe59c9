//! What `check` comes to: whether a certificate holds of all variants of a family.
#![tactic(auto)]

pub mod check;

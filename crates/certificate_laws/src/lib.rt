//! The laws of certificates: what is written of an analysis is read back, and is accepted.
#![tactic(auto)]

pub mod laws;

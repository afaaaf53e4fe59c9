//! What tests of several storeys are given: small models, made by hand.
#![tactic(auto)]

pub mod models;

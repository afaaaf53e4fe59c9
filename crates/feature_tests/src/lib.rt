//! Tests of the crates below the files: the outside, linear forms, conditions, the solver and the model, over their contracts.
#![tactic(auto)]

#[cfg(test)]
mod atoms;
#[cfg(test)]
mod conditions;
#[cfg(test)]
mod models;
#[cfg(test)]
mod outside;
#[cfg(test)]
mod setting_texts;
#[cfg(test)]
mod solver;
#[cfg(test)]
mod terms;
#[cfg(test)]
mod void_questions;

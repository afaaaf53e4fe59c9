//! What tests of the program share: commands run over files in memory, the models and files that they are run on, and how what they
//! come to is compared with what is wanted.
#![tactic(auto)]

pub mod cases;
pub mod comparing;
pub mod running;

//! Texts that tell of the commands, the options, and the codes of refusals.
#![tactic(auto)]

pub mod code;
pub mod code_texts;
pub mod command_texts;
pub mod option_texts;

pub use code::Code;

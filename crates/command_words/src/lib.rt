//! The words of a command line: options with their values, and positional words.
#![tactic(auto)]

pub mod command;
pub mod inputs;
pub mod laws;
pub mod named;
pub mod options;
pub mod reading;
pub mod refusal;
pub mod settings;
pub mod sorting;
pub mod spelling;
pub mod word;

pub use laws::{spellings_agree, words_after_dashes, words_with_no_option};
pub use reading::{Arguments, read_words};
pub use refusal::{Usage, WordsRefusal};
pub use settings::{
    Chosen, Domain, Given, OptionSettings, Widening, includes_name, mode_name, regions_name,
    unknown_name,
};
pub use spelling::number_up_to;
pub use word::{Word, Words};

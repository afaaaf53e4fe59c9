//! The refusal of words.
#![tactic(auto)]

use fam_outer::Refusal;

/// The words break a rule.
#[derive(Clone, Copy, Debug, PartialEq, Eq)]
pub struct Usage;

/// Why words are not read: want of memory, or words that break a rule.
pub type WordsRefusal = Refusal<Usage>;

//! The words from left to right.
#![tactic(auto)]

ghost use Rattle.std.specs.Prelude.{◌≡◌};
ghost use Rattle.command_words.specs.Sorting.{start, keep, StepsTo, give, option_step, free_step, step, sorted, begins_with_dash, Splits};
ghost use Rattle.command_words.specs.Arguments.{texts_of, AnswersWords};

use crate::named::{OptionName, OptionValues};
use crate::refusal::{Usage, WordsRefusal};
use crate::word::{Word, Words};
use std::alloc::Global;

/// Where the reading of words stands.
#[derive(Debug, Drop)]
pub struct SortingState {
    pub positional: Words,
    pub values: OptionValues,
    pub waiting: Option<OptionName>,
    pub is_trailing: bool,
}

/// The word begins with `-`.
fn has_dash(word: &str) -> bool
    ensures { result ≡ begins_with_dash word.now }
{
    match word.as_bytes() {
        [] => false,
        [first, ..] => *first == b'-',
    }
}

/// The name and the value, if there is one, of an option word.
fn name_and_value(word: &str) -> Option<(&str, Option<&str>)>
    ensures { Splits word.now result }
{
    let text = word.strip_prefix("--")?;
    match text.split_once('=') {
        Some((name, value)) => Some((name, Some(value))),
        None => Some((text, None)),
    }
}

impl SortingState {
    /// Nothing read.
    pub fn start(alloc: Global) -> SortingState
        ensures { result ≡ start }
    {
        SortingState {
            positional: Words::new(alloc),
            values: OptionValues {
                domain: None,
                delay: None,
                narrow: None,
                widening: None,
                overflow: None,
                regions: None,
                unknown: None,
                includes: None,
                steps: None,
                inputs: None,
            },
            waiting: None,
            is_trailing: false,
        }
    }

    /// A positional word.
    fn keep(&mut self, alloc: Global, word: &str) -> Result<(), WordsRefusal>
        ensures { StepsTo (keep self.old word.now) self.new result }
    {
        self.positional.push(Word::from_str(alloc, word)?)?;
        Ok(())
    }

    /// The value of an option.
    fn give(&mut self, alloc: Global, name: OptionName, value: &str) -> Result<(), WordsRefusal>
        ensures { StepsTo (give self.old name value.now) self.new result }
    {
        if self.values.has(name) {
            return Err(WordsRefusal::Fault(Usage));
        }
        self.values.set(name, Word::from_str(alloc, value)?);
        self.waiting = None;
        Ok(())
    }

    /// An option word.
    fn take_option(&mut self, alloc: Global, word: &str) -> Result<(), WordsRefusal>
        ensures { StepsTo (option_step self.old word.now) self.new result }
    {
        match name_and_value(word) {
            None => Err(WordsRefusal::Fault(Usage)),
            Some((name, value)) => match OptionName::of(name) {
                None => Err(WordsRefusal::Fault(Usage)),
                Some(name) => match value {
                    Some(value) => self.give(alloc, name, value),
                    None => {
                        self.waiting = Some(name);
                        Ok(())
                    }
                },
            },
        }
    }

    /// A word where no value is awaited, before the first `--`.
    fn take_free(&mut self, alloc: Global, word: &str) -> Result<(), WordsRefusal>
        ensures { StepsTo (free_step self.old word.now) self.new result }
    {
        if word == "--" {
            self.is_trailing = true;
            Ok(())
        } else if has_dash(word) && word != "-" {
            self.take_option(alloc, word)
        } else {
            self.keep(alloc, word)
        }
    }

    /// The next word.
    #[tactic(auto, unfolding(crate::specs::Sorting::step))]
    fn take(&mut self, alloc: Global, word: &str) -> Result<(), WordsRefusal>
        ensures { StepsTo (step self.old word.now) self.new result }
    {
        if self.is_trailing {
            return self.keep(alloc, word);
        }
        match self.waiting {
            Some(_) if has_dash(word) => Err(WordsRefusal::Fault(Usage)),
            Some(name) => self.give(alloc, name, word),
            None => self.take_free(alloc, word),
        }
    }
}

/// Sorts the words into options and positional words.
pub fn sort_words(alloc: Global, words: &[String]) -> Result<SortingState, WordsRefusal>
    ensures { AnswersWords (sorted (texts_of words.now)) result }
{
    let mut state = SortingState::start(alloc);
    for word in words {
        state.take(alloc, word.as_str())?;
    }
    match state.waiting {
        Some(_) => Err(WordsRefusal::Fault(Usage)),
        None => Ok(state),
    }
}

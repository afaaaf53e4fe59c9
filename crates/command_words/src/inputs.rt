//! The value of `--inputs`.
#![tactic(auto)]

ghost use Rattle.std.specs.Prelude.{◌≡◌, ◌==◌, [], IfOk, map};
ghost use Rattle.std.specs.List.{slice_split};
ghost use Rattle.command_words.specs.Arguments.{inputs_set, AnswersWords};
ghost use Rattle.command_words.specs.Spelling.{input_of as read_input, inputs_after, inputs_of as read_inputs};

use crate::named::OptionValues;
use crate::refusal::{Usage, WordsRefusal};
use crate::spelling::is_input;
use fam_outer::{NoMemory, Values};
use std::alloc::Global;

/// The number of `int` that the text spells.
fn input_of(text: &str) -> Option<i64>
    ensures { result ≡ read_input text.now }
{
    if !is_input(text) {
        return None;
    }
    match text.parse::<i32>() {
        Ok(number) => Some(i64::from(number)),
        Err(_) => None,
    }
}

/// The parts of a text between its commas.
fn parts_of(alloc: Global, text: &str) -> Result<Vec<&str>, NoMemory>
    ensures { IfOk result (λ parts. map (λ part. part.now) parts.items
        ≡ slice_split (λ c. c == 44) text.now) }
{
    Ok(text.split(',').collect(alloc)?)
}

/// The numbers that the texts spell.
fn inputs_in(alloc: Global, texts: &[&str]) -> Result<Values, WordsRefusal>
    ensures { AnswersWords (inputs_after [] (map (λ text. text.now) texts.now)) result }
{
    let mut numbers = Vec::new(alloc);
    for text in texts {
        match input_of(text) {
            Some(number) => numbers.push(number)?,
            None => return Err(WordsRefusal::Fault(Usage)),
        }
    }
    Ok(Values::from_vec(numbers))
}

/// The numbers, joined by commas, that the text spells.
pub fn inputs_of(alloc: Global, text: &str) -> Result<Values, WordsRefusal>
    ensures { AnswersWords (read_inputs text.now) result }
{
    let parts = parts_of(alloc, text)?;
    inputs_in(alloc, parts.as_slice())
}

/// What `--inputs` sets.
#[tactic(auto, unfolding(crate::specs::Arguments::inputs_set))]
pub fn inputs_given(alloc: Global, values: &OptionValues) -> Result<Values, WordsRefusal>
    ensures { AnswersWords (inputs_set values.now) result }
{
    match &values.inputs {
        Some(text) => inputs_of(alloc, text.as_str()),
        None => Ok(Values::from_vec(Vec::new(alloc))),
    }
}

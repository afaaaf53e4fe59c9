//! The words as a whole.
#![tactic(auto)]

ghost use Rattle.std.specs.Prelude.{IfOk};
ghost use Rattle.command_words.specs.Arguments.{arguments_of, settings_of, texts_of, AreInRange, AnswersWords};

use crate::inputs::inputs_given;
use crate::named::OptionValues;
use crate::options::read_options;
use crate::refusal::WordsRefusal;
use crate::settings::{Given, OptionSettings};
use crate::sorting::sort_words;
use crate::word::Words;
use std::alloc::Global;

/// What the words say.
#[derive(Debug, Drop)]
pub struct Arguments {
    pub positional: Words,
    pub given: Given,
    pub settings: OptionSettings,
}

/// What all options set.
#[tactic(auto, unfolding(crate::specs::Arguments::settings_of))]
fn read_settings(alloc: Global, values: &OptionValues) -> Result<OptionSettings, WordsRefusal>
    ensures answer { AnswersWords (settings_of values.now) result }
    ensures ranges { IfOk result (λ settings. AreInRange settings) }
{
    let chosen = read_options(alloc, values)?;
    let inputs = inputs_given(alloc, values)?;
    Ok(OptionSettings { chosen, inputs })
}

/// What the words say. They are refused where one is no option of these ten, an option is given twice
/// or without its value, or a value is not spelled as the option wants or is out of its range.
pub fn read_words(alloc: Global, words: &[String]) -> Result<Arguments, WordsRefusal>
    ensures answer { AnswersWords (arguments_of (texts_of words.now)) result }
    ensures ranges { IfOk result (λ found. AreInRange found.settings) }
{
    let state = sort_words(alloc, words)?;
    let settings = read_settings(alloc, &state.values)?;
    Ok(Arguments {
        given: state.values.given(),
        positional: state.positional,
        settings,
    })
}

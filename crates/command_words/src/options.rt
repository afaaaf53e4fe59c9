//! The values of the options other than `--inputs`.
#![tactic(auto)]

ghost use Rattle.std.specs.Prelude.{◌≡◌, ◌++◌, IfOk, OnOk, codes, is_some, string_bytes};
ghost use Rattle.command_words.specs.Arguments.{texts_of, AnswersWords, chosen_of};
ghost use Rattle.command_words.specs.Options.{option_word, words_of, passes, are_spelled as spelled};
ghost use Rattle.command_words.specs.Spelling.{is_number as number_spelled, domain_by, includes_by, overflow_by, regions_by, unknown_by, widening_by};

use crate::command::read_spelled;
use crate::named::OptionValues;
use crate::refusal::{Usage, WordsRefusal};
use crate::settings::{Chosen, Domain, Widening, includes_of, mode_of, regions_of, unknown_of};
use crate::spelling::is_number;
use crate::word::Word;
use fam_outer::NoMemory;
use std::alloc::Global;

/// The value, if there is one, is spelled as a number.
fn is_number_or_none(value: &Option<Word>) -> bool
    ensures { result ≡ passes number_spelled value.now }
{
    match value {
        Some(text) => is_number(text.as_str()),
        None => true,
    }
}

/// The value, if there is one, is a domain's name.
fn is_domain_or_none(value: &Option<Word>) -> bool
    ensures { result ≡ passes (λ text. is_some (domain_by text)) value.now }
{
    match value {
        Some(text) => Domain::of(text.as_str()).is_some(),
        None => true,
    }
}

/// The value, if there is one, is a widening's name.
fn is_widening_or_none(value: &Option<Word>) -> bool
    ensures { result ≡ passes (λ text. is_some (widening_by text)) value.now }
{
    match value {
        Some(text) => Widening::of(text.as_str()).is_some(),
        None => true,
    }
}

/// The value, if there is one, is an overflow's name.
fn is_overflow_or_none(value: &Option<Word>) -> bool
    ensures { result ≡ passes (λ text. is_some (overflow_by text)) value.now }
{
    match value {
        Some(text) => mode_of(text.as_str()).is_some(),
        None => true,
    }
}

/// The value, if there is one, is a name of how regions are told.
fn is_regions_or_none(value: &Option<Word>) -> bool
    ensures { result ≡ passes (λ text. is_some (regions_by text)) value.now }
{
    match value {
        Some(text) => regions_of(text.as_str()).is_some(),
        None => true,
    }
}

/// The value, if there is one, is a name of what unknown names are.
fn is_unknown_or_none(value: &Option<Word>) -> bool
    ensures { result ≡ passes (λ text. is_some (unknown_by text)) value.now }
{
    match value {
        Some(text) => unknown_of(text.as_str()).is_some(),
        None => true,
    }
}

/// The value, if there is one, is a name of which includes there may be.
fn is_includes_or_none(value: &Option<Word>) -> bool
    ensures { result ≡ passes (λ text. is_some (includes_by text)) value.now }
{
    match value {
        Some(text) => includes_of(text.as_str()).is_some(),
        None => true,
    }
}

/// Each value is spelled as its option wants.
fn are_spelled(values: &OptionValues) -> bool
    ensures { result ≡ spelled values.now }
{
    is_domain_or_none(&values.domain)
        && is_number_or_none(&values.delay)
        && is_number_or_none(&values.narrow)
        && is_widening_or_none(&values.widening)
        && is_overflow_or_none(&values.overflow)
        && is_regions_or_none(&values.regions)
        && is_unknown_or_none(&values.unknown)
        && is_includes_or_none(&values.includes)
        && is_number_or_none(&values.steps)
}

/// The word for an option with the value.
fn option_word_of(alloc: Global, name: &str, value: &str) -> Result<String, NoMemory>
    ensures { IfOk result (λ word. string_bytes word ≡ codes "--" ++ name.now ++ codes "=" ++ value.now) }
{
    Ok(format!(in alloc; "--{name}={value}")?)
}

/// Adds the word for an option that is given.
#[tactic(auto, using(crate::proofs::Numbers::texts_after))]
fn add_word(
    alloc: Global,
    words: &mut Vec<String>,
    name: &str,
    value: &Option<Word>,
) -> Result<(), NoMemory>
    ensures { OnOk result (texts_of words.new.items
        ≡ texts_of words.old.items ++ option_word name.now value.now) }
{
    match value {
        Some(text) => {
            words.push(option_word_of(alloc, name, text.as_str())?)?;
            Ok(())
        }
        None => Ok(()),
    }
}

/// The words for the values that are given.
fn option_words(alloc: Global, values: &OptionValues) -> Result<Vec<String>, NoMemory>
    ensures { IfOk result (λ words. texts_of words.items ≡ words_of values.now) }
{
    let mut words = Vec::new(alloc);
    add_word(alloc, &mut words, "domain", &values.domain)?;
    add_word(alloc, &mut words, "delay", &values.delay)?;
    add_word(alloc, &mut words, "narrow", &values.narrow)?;
    add_word(alloc, &mut words, "widening", &values.widening)?;
    add_word(alloc, &mut words, "overflow", &values.overflow)?;
    add_word(alloc, &mut words, "regions", &values.regions)?;
    add_word(alloc, &mut words, "unknown", &values.unknown)?;
    add_word(alloc, &mut words, "includes", &values.includes)?;
    add_word(alloc, &mut words, "steps", &values.steps)?;
    Ok(words)
}

/// What the options other than `--inputs` set.
pub fn read_options(alloc: Global, values: &OptionValues) -> Result<Chosen, WordsRefusal>
    ensures { AnswersWords (chosen_of values.now) result }
{
    if !are_spelled(values) {
        return Err(WordsRefusal::Fault(Usage));
    }
    let words = option_words(alloc, values)?;
    read_spelled(alloc, words.as_slice())
}

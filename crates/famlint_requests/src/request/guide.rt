//! Words that ask for a text about the program, and these texts.
#![tactic(auto)]

ghost use Rattle.std.specs.Prelude.{◌≡◌, ◌++◌, IfOk, OnOk};
ghost use Rattle.command_words.specs.Arguments.{texts_of};
ghost use Rattle.famlint_requests.specs.Guides as specs;

use crate::request::options::{Command, all_options, is_any};
use command_words::Given;
use fam_outer::{NoMemory, Text};
use guide_texts::{Code, command_texts as commands, option_texts as options};
use std::alloc::Global;

/// A text about the program.
#[derive(Debug, Drop)]
pub enum Guide {
    /// All commands and options.
    Commands,
    /// The kit by which the program was proved.
    Version,
    /// What a command does, and its options.
    Command(Command),
    /// What a code means, and what to do.
    Code(Code),
}

/// The text that one word asks for.
fn guide_alone(word: &str) -> Option<Guide>
    ensures { result ≡ specs.guide_alone word.now }
{
    match word {
        "--help" | "-h" | "help" => Some(Guide::Commands),
        "--version" | "-V" => Some(Guide::Version),
        _ => None,
    }
}

/// The text that two words ask for.
fn guide_about(first: &str, second: &str) -> Option<Guide>
    ensures { result ≡ specs.guide_about first.now second.now }
{
    match first {
        "help" => Some(Guide::Command(Command::of(second)?)),
        "explain" => Some(Guide::Code(Code::of(second)?)),
        _ => None,
    }
}

/// The text that the words ask for, or none where they ask for something else.
pub fn guide_of(words: &[String]) -> Option<Guide>
    ensures { result ≡ specs.guide_of (texts_of words.now) }
{
    match words {
        [word] => guide_alone(word.as_str()),
        [first, second] => guide_about(first.as_str(), second.as_str()),
        _ => None,
    }
}

/// What a command does.
fn about(command: Command) -> &'static str
    ensures { result.now ≡ specs.about command }
{
    match command {
        Command::Plain => commands::PLAIN,
        Command::Project => commands::PROJECT,
        Command::Variant => commands::VARIANT,
        Command::Run => commands::RUN,
        Command::Analyse => commands::ANALYSE,
        Command::Invariants => commands::INVARIANTS,
        Command::Page => commands::PAGE,
        Command::Generate => commands::GENERATE,
        Command::Certify => commands::CERTIFY,
        Command::Check => commands::CHECK,
        Command::Advise => commands::ADVISE,
        Command::Features => commands::FEATURES,
    }
}

/// Adds a text where it is wanted.
fn add(text: &mut Vec<u8>, is_wanted: bool, more: &str) -> Result<(), NoMemory>
    ensures { OnOk result (text.new.items ≡ text.old.items ++ specs.when is_wanted more.now) }
{
    if is_wanted {
        text.extend_from_slice(more.as_bytes())?;
    }
    Ok(())
}

/// Adds what the options set that are taken, of those that say how much an analysis finds.
fn add_precision(text: &mut Vec<u8>, taken: Given) -> Result<(), NoMemory>
    ensures { OnOk result (text.new.items ≡ text.old.items ++ specs.precision_text taken) }
{
    add(text, taken.domain, options::DOMAIN)?;
    add(text, taken.delay, options::DELAY)?;
    add(text, taken.narrow, options::NARROW)?;
    add(text, taken.widening, options::WIDENING)
}

/// Adds the same of those that say how files and models are read.
fn add_reading(text: &mut Vec<u8>, taken: Given) -> Result<(), NoMemory>
    ensures { OnOk result (text.new.items ≡ text.old.items ++ specs.reading_text taken) }
{
    add(text, taken.unknown, options::UNKNOWN)?;
    add(text, taken.includes, options::INCLUDES)
}

/// Adds the same of the others.
fn add_others(text: &mut Vec<u8>, taken: Given) -> Result<(), NoMemory>
    ensures { OnOk result (text.new.items ≡ text.old.items ++ specs.other_text taken) }
{
    add(text, taken.overflow, options::OVERFLOW)?;
    add(text, taken.regions, options::REGIONS)?;
    add(text, taken.steps, options::STEPS)?;
    add(text, taken.inputs, options::INPUTS)
}

/// A text, and behind it what the options set that are taken.
#[tactic(auto, unfolding(crate::specs::Guides::options_text))]
fn with_options(alloc: Global, text: &str, taken: Given) -> Result<Text, NoMemory>
    ensures { IfOk result (λ made. made ≡ text.now ++ specs.options_text taken) }
{
    let mut bytes = Vec::from_slice(alloc, text.as_bytes())?;
    add(&mut bytes, is_any(taken), commands::OPTIONS)?;
    add_precision(&mut bytes, taken)?;
    add_reading(&mut bytes, taken)?;
    add_others(&mut bytes, taken)?;
    Ok(Text::from_vec(bytes))
}

impl Guide {
    /// The text.
    pub fn text(&self, alloc: Global) -> Result<Text, NoMemory>
        ensures { IfOk result (λ text. text ≡ specs.guide_text self.now) }
    {
        match self {
            Guide::Commands => with_options(alloc, commands::COMMANDS, all_options()),
            Guide::Version => Text::from_bytes(alloc, commands::VERSION.as_bytes()),
            Guide::Command(command) => with_options(alloc, about(*command), command.options()),
            Guide::Code(code) => Text::from_bytes(alloc, code.text().as_bytes()),
        }
    }
}

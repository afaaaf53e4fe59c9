//! What the words ask for.
#![tactic(auto)]

ghost use Rattle.std.specs.Prelude.{◌≡◌, ◌≤◌, IfOk, IfSome};
ghost use Rattle.std.specs.List.{All};
ghost use Rattle.c_tree.specs.Value.{IsInt};
ghost use Rattle.command_words.specs.Arguments.{texts_of, AnswersWords};
ghost use Rattle.famlint_requests.specs.Requests as specs;
ghost use Rattle.famlint_requests.specs.Requests.{reading, IsWithinRanges, HaveInts};

use crate::request::guide::guide_of;
use crate::request::options::{Command, analysis_of, dialect_of, interval_analysis, suits};
use crate::request::{Analysis, FamilyTask, Request, SettingWords, VariantTask};
use command_words::{
    Arguments, OptionSettings, Usage, Word, WordsRefusal, number_up_to, read_words,
};
use fam_outer::{Dialect, Includes, NoMemory, Unknown};
use linear_atoms::Regions;
use std::alloc::Global;

/// What `plain` asks for with these words.
fn plain_request(
    alloc: Global,
    includes: Includes,
    analysis: Analysis,
    words: &[Word],
) -> Result<Request, WordsRefusal>
    ensures answer { AnswersWords (specs.plain_request includes analysis words.now) result }
    ensures ranges { IfOk result (λ request. IsWithinRanges request) }
{
    match words {
        [file] => Ok(Request::Plain {
            file: Word::from_str(alloc, file.as_str())?,
            includes,
            analysis,
        }),
        _ => Err(WordsRefusal::Fault(Usage)),
    }
}

/// What is asked of a variant with these words.
fn variant_request(
    alloc: Global,
    dialect: Dialect,
    task: VariantTask,
    words: &[Word],
) -> Result<Request, WordsRefusal>
    requires { HaveInts task }
    ensures answer { AnswersWords (specs.variant_request dialect task words.now) result }
    ensures ranges { IfOk result (λ request. IsWithinRanges request) }
{
    match words {
        [model, file, rest @ ..] => Ok(Request::Variant {
            model: Word::from_str(alloc, model.as_str())?,
            file: Word::from_str(alloc, file.as_str())?,
            dialect,
            settings: SettingWords::from_words(alloc, rest)?,
            task,
        }),
        _ => Err(WordsRefusal::Fault(Usage)),
    }
}

/// What is asked of all variants with these words.
fn family_request(
    alloc: Global,
    dialect: Dialect,
    analysis: Analysis,
    regions: Regions,
    task: FamilyTask,
    words: &[Word],
) -> Result<Request, WordsRefusal>
    ensures answer { AnswersWords (specs.family_request dialect analysis regions task words.now) result }
    ensures ranges { IfOk result (λ request. IsWithinRanges request) }
{
    match words {
        [model, file] => Ok(Request::Family {
            model: Word::from_str(alloc, model.as_str())?,
            file: Word::from_str(alloc, file.as_str())?,
            dialect,
            analysis,
            regions,
            task,
        }),
        _ => Err(WordsRefusal::Fault(Usage)),
    }
}

/// What `page` asks for with these words.
fn page_request(
    alloc: Global,
    dialect: Dialect,
    analysis: Analysis,
    regions: Regions,
    words: &[Word],
) -> Result<Request, WordsRefusal>
    ensures answer { AnswersWords (specs.page_request dialect analysis regions words.now) result }
    ensures ranges { IfOk result (λ request. IsWithinRanges request) }
{
    match words {
        [model, file] => Ok(Request::Page {
            model: Word::from_str(alloc, model.as_str())?,
            file: Word::from_str(alloc, file.as_str())?,
            dialect,
            analysis,
            regions,
        }),
        _ => Err(WordsRefusal::Fault(Usage)),
    }
}

/// The number of blocks that the text spells, from 1 to 2000.
fn blocks_of(text: &str) -> Option<u32>
    ensures value { result ≡ specs.blocks_of text.now }
    ensures range { IfSome result (λ number. number ≤ 2000) }
{
    if text == "0" {
        None
    } else {
        number_up_to(2000, text)
    }
}

/// What `generate` asks for with these words.
fn generate_request(
    analysis: Analysis,
    regions: Regions,
    words: &[Word],
) -> Result<Request, WordsRefusal>
    ensures answer { AnswersWords (specs.generate_request analysis regions words.now) result }
    ensures ranges { IfOk result (λ request. IsWithinRanges request) }
{
    match words {
        [word] => match blocks_of(word.as_str()) {
            Some(number) => Ok(Request::Generate {
                number,
                analysis,
                regions,
            }),
            None => Err(WordsRefusal::Fault(Usage)),
        },
        _ => Err(WordsRefusal::Fault(Usage)),
    }
}

/// What `check` asks for with these words.
fn check_request(alloc: Global, dialect: Dialect, words: &[Word]) -> Result<Request, WordsRefusal>
    ensures answer { AnswersWords (specs.check_request dialect words.now) result }
    ensures ranges { IfOk result (λ request. IsWithinRanges request) }
{
    match words {
        [model, file, certificate] => Ok(Request::Check {
            model: Word::from_str(alloc, model.as_str())?,
            file: Word::from_str(alloc, file.as_str())?,
            certificate: Word::from_str(alloc, certificate.as_str())?,
            dialect,
        }),
        _ => Err(WordsRefusal::Fault(Usage)),
    }
}

/// What `advise` asks for with these words.
fn advice_request(
    alloc: Global,
    dialect: Dialect,
    analysis: Analysis,
    words: &[Word],
) -> Result<Request, WordsRefusal>
    ensures answer { AnswersWords (specs.advice_request dialect analysis words.now) result }
    ensures ranges { IfOk result (λ request. IsWithinRanges request) }
{
    match words {
        [model, file, rest @ ..] => Ok(Request::Advice {
            model: Word::from_str(alloc, model.as_str())?,
            file: Word::from_str(alloc, file.as_str())?,
            dialect,
            settings: SettingWords::from_words(alloc, rest)?,
            analysis,
        }),
        _ => Err(WordsRefusal::Fault(Usage)),
    }
}

/// What `features` asks for with these words.
fn features_request(
    alloc: Global,
    unknown: Unknown,
    words: &[Word],
) -> Result<Request, WordsRefusal>
    ensures answer { AnswersWords (specs.features_request unknown words.now) result }
    ensures ranges { IfOk result (λ request. IsWithinRanges request) }
{
    match words {
        [model] => Ok(Request::Features {
            model: Word::from_str(alloc, model.as_str())?,
            unknown,
        }),
        _ => Err(WordsRefusal::Fault(Usage)),
    }
}

/// The run that the options ask for.
fn run_task(alloc: Global, settings: &OptionSettings) -> Result<VariantTask, NoMemory>
    requires { All IsInt settings.now.inputs }
    ensures value { IfOk result (λ task. task ≡ specs.run_task settings.now) }
    ensures ints { IfOk result (λ task. HaveInts task) }
{
    Ok(VariantTask::Run {
        steps: settings.chosen.steps,
        inputs: settings.inputs.copy(alloc)?,
        mode: settings.chosen.overflow,
    })
}

/// What a command asks for with these words.
fn request_for(
    alloc: Global,
    command: Command,
    settings: &OptionSettings,
    words: &[Word],
) -> Result<Request, WordsRefusal>
    requires { All IsInt settings.now.inputs }
    ensures answer { AnswersWords (specs.request_for command settings.now words.now) result }
    ensures ranges { IfOk result (λ request. IsWithinRanges request) }
{
    let dialect = dialect_of(settings.chosen);
    let analysis = analysis_of(settings.chosen);
    let regions = settings.chosen.regions;
    match command {
        Command::Plain => plain_request(alloc, dialect.includes, analysis, words),
        Command::Project => variant_request(alloc, dialect, VariantTask::Project, words),
        Command::Variant => variant_request(alloc, dialect, VariantTask::Variant(analysis), words),
        Command::Run => {
            let task = run_task(alloc, settings)?;
            variant_request(alloc, dialect, task, words)
        }
        Command::Analyse => family_request(
            alloc,
            dialect,
            analysis,
            regions,
            FamilyTask::Analyse,
            words,
        ),
        Command::Invariants => family_request(
            alloc,
            dialect,
            analysis,
            regions,
            FamilyTask::Invariants,
            words,
        ),
        Command::Page => page_request(alloc, dialect, analysis, regions, words),
        Command::Generate => generate_request(analysis, regions, words),
        Command::Certify => {
            let analysis = interval_analysis(settings.chosen);
            family_request(
                alloc,
                dialect,
                analysis,
                regions,
                FamilyTask::Certify,
                words,
            )
        }
        Command::Check => check_request(alloc, dialect, words),
        Command::Advise => advice_request(alloc, dialect, analysis, words),
        Command::Features => features_request(alloc, dialect.unknown, words),
    }
}

/// What a command asks for, where the options suit it.
fn suited(
    alloc: Global,
    command: Command,
    arguments: &Arguments,
    words: &[Word],
) -> Result<Request, WordsRefusal>
    requires { All IsInt arguments.now.settings.inputs }
    ensures answer { AnswersWords (specs.suited command arguments.now words.now) result }
    ensures ranges { IfOk result (λ request. IsWithinRanges request) }
{
    if suits(command, arguments) {
        request_for(alloc, command, &arguments.settings, words)
    } else {
        Err(WordsRefusal::Fault(Usage))
    }
}

/// What the positional words ask for.
fn request_of(alloc: Global, arguments: &Arguments) -> Result<Request, WordsRefusal>
    requires { All IsInt arguments.now.settings.inputs }
    ensures answer { AnswersWords (specs.request_of arguments.now) result }
    ensures ranges { IfOk result (λ request. IsWithinRanges request) }
{
    match arguments.positional.items() {
        [] => Err(WordsRefusal::Fault(Usage)),
        [first, rest @ ..] => match Command::of(first.as_str()) {
            Some(command) => suited(alloc, command, arguments, rest),
            None => Err(WordsRefusal::Fault(Usage)),
        },
    }
}

/// What the words ask for.
pub fn read_request(alloc: Global, words: &[String]) -> Result<Request, WordsRefusal>
    ensures answer { AnswersWords (reading (texts_of words.now)) result }
    ensures ranges { IfOk result (λ request. IsWithinRanges request) }
{
    match guide_of(words) {
        Some(guide) => Ok(Request::Guide(guide)),
        None => {
            let arguments = read_words(alloc, words)?;
            request_of(alloc, &arguments)
        }
    }
}

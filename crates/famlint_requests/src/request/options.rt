//! Which options a command takes, and what they set.
#![tactic(auto)]

ghost use Rattle.std.specs.Prelude.{◌≡◌};
ghost use Rattle.command_words.specs.Arguments.{nothing_given};
ghost use Rattle.famlint_requests.specs.Commands as commands;
ghost use Rattle.famlint_requests.specs.Requests as specs;

use crate::request::Analysis;
use command_words::{Arguments, Chosen, Domain, Given};
use fam_outer::Dialect;

/// The commands.
#[derive(Clone, Copy, Debug, PartialEq, Eq)]
pub enum Command {
    Plain,
    Project,
    Variant,
    Run,
    Analyse,
    Invariants,
    Page,
    Generate,
    Certify,
    Check,
    Advise,
    Features,
}

impl Command {
    /// The command with the name.
    pub fn of(name: &str) -> Option<Command>
        ensures { result ≡ commands.command_of name.now }
    {
        match name {
            "plain" => Some(Command::Plain),
            "project" => Some(Command::Project),
            "variant" => Some(Command::Variant),
            "run" => Some(Command::Run),
            "analyse" => Some(Command::Analyse),
            "invariants" => Some(Command::Invariants),
            "page" => Some(Command::Page),
            "generate" => Some(Command::Generate),
            "certify" => Some(Command::Certify),
            "check" => Some(Command::Check),
            "advise" => Some(Command::Advise),
            "features" => Some(Command::Features),
            _ => None,
        }
    }

    /// The options that it takes.
    pub fn options(self) -> Given
        ensures { result ≡ commands.taken_by self }
    {
        match self {
            Command::Plain => plain_options(),
            Command::Variant | Command::Advise => analysis_options(),
            Command::Analyse | Command::Invariants | Command::Page => family_options(),
            Command::Generate => generated_options(),
            Command::Certify => interval_options(),
            Command::Project | Command::Check => dialect_options(),
            Command::Run => run_options(),
            Command::Features => model_options(),
        }
    }
}

/// No option.
fn no_options() -> Given
    ensures { result ≡ nothing_given }
{
    Given {
        domain: false,
        delay: false,
        narrow: false,
        widening: false,
        overflow: false,
        regions: false,
        unknown: false,
        includes: false,
        steps: false,
        inputs: false,
    }
}

/// Those of how FILE is read over MODEL.
fn dialect_options() -> Given
    ensures { result ≡ commands.dialect_options }
{
    Given {
        unknown: true,
        includes: true,
        ..no_options()
    }
}

/// Those of a model alone.
fn model_options() -> Given
    ensures { result ≡ commands.model_options }
{
    Given {
        unknown: true,
        ..no_options()
    }
}

/// Those of a run.
fn run_options() -> Given
    ensures { result ≡ commands.run_options }
{
    Given {
        overflow: true,
        steps: true,
        inputs: true,
        ..dialect_options()
    }
}

/// Those of an analysis of a file without a model.
fn plain_options() -> Given
    ensures { result ≡ commands.plain_options }
{
    Given {
        domain: true,
        delay: true,
        narrow: true,
        widening: true,
        overflow: true,
        includes: true,
        ..no_options()
    }
}

/// Those of an analysis.
fn analysis_options() -> Given
    ensures { result ≡ commands.analysis_options }
{
    Given {
        unknown: true,
        ..plain_options()
    }
}

/// Those of an analysis whose report has regions.
fn family_options() -> Given
    ensures { result ≡ commands.family_options }
{
    Given {
        regions: true,
        ..analysis_options()
    }
}

/// The same, by intervals.
fn interval_options() -> Given
    ensures { result ≡ commands.interval_options }
{
    Given {
        domain: false,
        ..family_options()
    }
}

/// The same, of a family that is made and has no model to load.
fn generated_options() -> Given
    ensures { result ≡ commands.generated_options }
{
    Given {
        unknown: false,
        includes: false,
        ..family_options()
    }
}

/// Whether each option of an analysis that is given is taken.
fn are_analysis_taken(given: Given, taken: Given) -> bool
    ensures { result ≡ commands.are_analysis_taken given taken }
{
    (!given.domain || taken.domain)
        && (!given.delay || taken.delay)
        && (!given.narrow || taken.narrow)
        && (!given.widening || taken.widening)
        && (!given.overflow || taken.overflow)
}

/// Whether each other option that is given is taken.
fn are_others_taken(given: Given, taken: Given) -> bool
    ensures { result ≡ commands.are_others_taken given taken }
{
    (!given.regions || taken.regions)
        && (!given.unknown || taken.unknown)
        && (!given.includes || taken.includes)
        && (!given.steps || taken.steps)
        && (!given.inputs || taken.inputs)
}

/// Whether each option that is given is taken.
fn are_taken(given: Given, taken: Given) -> bool
    ensures { result ≡ commands.are_taken given taken }
{
    are_analysis_taken(given, taken) && are_others_taken(given, taken)
}

/// All options.
pub fn all_options() -> Given
    ensures { result ≡ commands.all_options }
{
    Given {
        domain: true,
        delay: true,
        narrow: true,
        widening: true,
        overflow: true,
        regions: true,
        unknown: true,
        includes: true,
        steps: true,
        inputs: true,
    }
}

/// Whether there is an option among them.
pub fn is_any(given: Given) -> bool
    ensures { result ≡ commands.is_any given }
{
    given.domain
        || given.delay
        || given.narrow
        || given.widening
        || given.overflow
        || given.regions
        || given.unknown
        || given.includes
        || given.steps
        || given.inputs
}

/// Whether the options suit a command.
pub fn suits(command: Command, arguments: &Arguments) -> bool
    ensures { result ≡ specs.suits command arguments.now }
{
    are_taken(arguments.given, command.options())
}

/// How names and includes are read.
pub fn dialect_of(chosen: Chosen) -> Dialect
    ensures { result ≡ specs.dialect_of chosen }
{
    Dialect {
        unknown: chosen.unknown,
        includes: chosen.includes,
    }
}

/// How programs are analysed.
pub fn analysis_of(chosen: Chosen) -> Analysis
    ensures { result ≡ specs.analysis_of chosen }
{
    Analysis {
        domain: chosen.domain,
        delay: chosen.delay,
        narrow: chosen.narrow,
        widening: chosen.widening,
        mode: chosen.overflow,
    }
}

/// How programs are analysed by intervals.
pub fn interval_analysis(chosen: Chosen) -> Analysis
    ensures { result ≡ specs.interval_analysis chosen }
{
    Analysis {
        domain: Domain::Interval,
        delay: chosen.delay,
        narrow: chosen.narrow,
        widening: chosen.widening,
        mode: chosen.overflow,
    }
}

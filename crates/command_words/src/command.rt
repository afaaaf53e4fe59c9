//! The command of clap that reads the options other than `--inputs`.
#![tactic(auto)]

ghost use Rattle.std.specs.Prelude.{◌≡◌, ◌^◌, IfOk, codes, Some, List, ℕ, true, false, option_map};
ghost use Rattle.std.specs.Str.Parse.{digits_value};
ghost use Rattle.clap.specs.Words.{FailsBy, fault_of, found_of, matches_of, rows_of, rule_of, app_of, with_rule, is_broken, one_of, first_of};
ghost use Rattle.clap.specs.declared.builder.value_parser.ValueParser.TheVariants as vp;
ghost use Rattle.command_words.specs.Arguments.{texts_of, AnswersWords, chosen_of, chosen_by};
ghost use Rattle.command_words.specs.Options.{analysis_app, bare_app, options_app, option_rule, words_of, are_spelled, HasTexts, IsNumberBelow};
ghost use Rattle.command_words.specs.Spelling.{domain_by, includes_by, overflow_by, regions_by, unknown_by, widening_by};
ghost use Rattle.command_words.specs.declared.named.OptionValues.{OptionValues};

use crate::refusal::{Usage, WordsRefusal};
use crate::settings::{Chosen, Domain, Widening, includes_of, mode_of, regions_of, unknown_of};
use c_tree::Mode;
use clap::builder::ValueParser;
use clap::error::ErrorKind;
use clap::{Arg, ArgMatches, Command, Error};
use fam_outer::{Includes, Unknown};
use linear_atoms::Regions;
use std::alloc::{AllocError, Global};

/// An option with a parser and a default.
fn option<'a>(alloc: Global, name: &'a str, default: &'a str, parser: ValueParser<'a>) -> Arg<'a>
    ensures rule { rule_of result ≡ option_rule name.entry.now default.entry.now parser.entry }
    ensures local { result.global ≡ false }
{
    Arg::new(alloc, name)
        .long(name)
        .default_value(default)
        .value_parser(parser)
}

/// Any text.
fn any_text() -> ValueParser<'static>
    ensures { result ≡ vp.String }
{
    ValueParser::String
}

/// Numbers up to 16.
fn up_to_16() -> ValueParser<'static>
    ensures { result ≡ vp.Unsigned 0 16 }
{
    clap::value_parser!(u64).range(0..=16)
}

/// Numbers up to 8.
fn up_to_8() -> ValueParser<'static>
    ensures { result ≡ vp.Unsigned 0 8 }
{
    clap::value_parser!(u64).range(0..=8)
}

/// Numbers up to 1000000.
fn up_to_a_million() -> ValueParser<'static>
    ensures { result ≡ vp.Unsigned 0 1000000 }
{
    clap::value_parser!(u64).range(0..=1000000)
}

/// A command with no argument and no flag of its own.
fn bare_command<'a>(alloc: Global) -> Command<'a>
    ensures app { app_of result ≡ bare_app }
    ensures whole { is_broken result ≡ false }
{
    Command::new(alloc, "options")
        .no_binary_name(true)
        .disable_help_flag(true)
        .disable_version_flag(true)
}

/// The command with one more option.
fn with_option<'a>(
    alloc: Global,
    command: Command<'a>,
    name: &'a str,
    default: &'a str,
    parser: ValueParser<'a>,
) -> Result<Command<'a>, AllocError>
    ensures { IfOk result (λ made. app_of made
        ≡ with_rule (app_of command.entry) (option_rule name.entry.now default.entry.now parser.entry)) }
{
    command.arg(option(alloc, name, default, parser))
}

/// The command of the options of an analysis.
fn analysis_command<'a>(alloc: Global) -> Result<Command<'a>, AllocError>
    ensures { IfOk result (λ command. app_of command ≡ analysis_app) }
{
    let command = bare_command(alloc);
    let command = with_option(alloc, command, "domain", "interval", any_text())?;
    let command = with_option(alloc, command, "delay", "0", up_to_16())?;
    let command = with_option(alloc, command, "narrow", "1", up_to_8())?;
    let command = with_option(alloc, command, "widening", "type", any_text())?;
    with_option(alloc, command, "overflow", "stop", any_text())
}

/// The command of the options other than `--inputs`.
fn options_command<'a>(alloc: Global) -> Result<Command<'a>, AllocError>
    ensures { IfOk result (λ command. app_of command ≡ options_app) }
{
    let command = analysis_command(alloc)?;
    let command = with_option(alloc, command, "regions", "paths", any_text())?;
    let command = with_option(alloc, command, "unknown", "zero", any_text())?;
    let command = with_option(alloc, command, "includes", "assert", any_text())?;
    with_option(alloc, command, "steps", "1000", up_to_a_million())
}

/// Parses the words `--NAME=VALUE`.
#[tactic(auto, using(crate::proofs::Faults::app_simple_and_free, crate::proofs::Faults::app_simple))]
fn parse_options<'a>(alloc: Global, words: &'a [String]) -> Result<ArgMatches<'a>, Error>
    ensures ok { IfOk result (λ m. rows_of (found_of m) ≡ matches_of options_app (texts_of words.entry.now)) }
    ensures fails { FailsBy (fault_of options_app (texts_of words.entry.now)) result }
{
    let command = options_command(alloc)?;
    command.try_get_matches_from(words)
}

/// The text of an option.
fn text_in<'a>(matches: &ArgMatches<'a>, id: &str) -> Option<&'a str>
    ensures { option_map (λ text. text.now) result ≡ first_of id.now (rows_of (found_of matches.now)) }
{
    matches.get_str(id)
}

/// The number of an option, whose text is known.
fn number_in(matches: &ArgMatches<'_>, id: &str) -> Option<u64>
    ensures { (text : List ℕ) → one_of id.now (rows_of (found_of matches.now)) ≡ Some text
        → IsNumberBelow (2 ^ 64) text
        → result ≡ Some (digits_value 10 text) }
{
    matches.get_one::<u64>(id)
}

/// The small number of an option, whose text is known.
fn small_number_in(matches: &ArgMatches<'_>, id: &str) -> Option<u32>
    ensures { (text : List ℕ) → one_of id.now (rows_of (found_of matches.now)) ≡ Some text
        → IsNumberBelow 17 text
        → result ≡ Some (digits_value 10 text) }
{
    u32::try_from(number_in(matches, id)?).ok()
}

/// The domain.
fn domain_in(matches: &ArgMatches<'_>) -> Option<Domain>
    ensures { (text : List ℕ) → first_of (codes "domain") (rows_of (found_of matches.now)) ≡ Some text
        → result ≡ domain_by text }
{
    Domain::of(text_in(matches, "domain")?)
}

/// What a bound that grows becomes.
fn widening_in(matches: &ArgMatches<'_>) -> Option<Widening>
    ensures { (text : List ℕ) → first_of (codes "widening") (rows_of (found_of matches.now)) ≡ Some text
        → result ≡ widening_by text }
{
    Widening::of(text_in(matches, "widening")?)
}

/// What comes of an overflow.
fn overflow_in(matches: &ArgMatches<'_>) -> Option<Mode>
    ensures { (text : List ℕ) → first_of (codes "overflow") (rows_of (found_of matches.now)) ≡ Some text
        → result ≡ overflow_by text }
{
    mode_of(text_in(matches, "overflow")?)
}

/// How regions are told.
fn regions_in(matches: &ArgMatches<'_>) -> Option<Regions>
    ensures { (text : List ℕ) → first_of (codes "regions") (rows_of (found_of matches.now)) ≡ Some text
        → result ≡ regions_by text }
{
    regions_of(text_in(matches, "regions")?)
}

/// What a name is that no model has.
fn unknown_in(matches: &ArgMatches<'_>) -> Option<Unknown>
    ensures { (text : List ℕ) → first_of (codes "unknown") (rows_of (found_of matches.now)) ≡ Some text
        → result ≡ unknown_by text }
{
    unknown_of(text_in(matches, "unknown")?)
}

/// Which includes a file may have.
fn includes_in(matches: &ArgMatches<'_>) -> Option<Includes>
    ensures { (text : List ℕ) → first_of (codes "includes") (rows_of (found_of matches.now)) ≡ Some text
        → result ≡ includes_by text }
{
    includes_of(text_in(matches, "includes")?)
}

/// What the options set, whose texts are known.
fn chosen_in(matches: &ArgMatches<'_>) -> Option<Chosen>
    ensures { (domain delay narrow widening overflow regions unknown includes steps : List ℕ)
        → HasTexts (rows_of (found_of matches.now)) domain delay narrow widening overflow regions unknown includes steps
        → IsNumberBelow 17 delay → IsNumberBelow 17 narrow → IsNumberBelow (2 ^ 64) steps
        → result ≡ chosen_by (domain_by domain) (Some (digits_value 10 delay)) (Some (digits_value 10 narrow)) (widening_by widening) (overflow_by overflow) (regions_by regions) (unknown_by unknown) (includes_by includes) (Some (digits_value 10 steps)) }
{
    Some(Chosen {
        domain: domain_in(matches)?,
        delay: small_number_in(matches, "delay")?,
        narrow: small_number_in(matches, "narrow")?,
        widening: widening_in(matches)?,
        overflow: overflow_in(matches)?,
        regions: regions_in(matches)?,
        unknown: unknown_in(matches)?,
        includes: includes_in(matches)?,
        steps: number_in(matches, "steps")?,
    })
}

/// What the words for values that are spelled right set.
pub fn read_spelled(alloc: Global, words: &[String]) -> Result<Chosen, WordsRefusal>
    ensures { (values : OptionValues) → texts_of words.now ≡ words_of values → are_spelled values ≡ true
        → AnswersWords (chosen_of values) result }
{
    let matches = match parse_options(alloc, words) {
        Ok(matches) => matches,
        Err(error) if error.kind() == ErrorKind::OutOfMemory => return Err(WordsRefusal::NoMemory),
        Err(_) => return Err(WordsRefusal::Fault(Usage)),
    };
    chosen_in(&matches).ok_or(WordsRefusal::Fault(Usage))
}

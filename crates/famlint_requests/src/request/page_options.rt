//! By what a page was made, as it stands at its foot.
#![tactic(auto)]

ghost use Rattle.std.specs.Fmt.{decimal};
ghost use Rattle.std.specs.Prelude.{◌≡◌, ◌++◌, IfOk, OnOk};
ghost use Rattle.famlint_requests.specs.MadeBy as specs;

use crate::request::Analysis;
use command_words::{includes_name, mode_name, regions_name, unknown_name};
use fam_outer::{Dialect, NoMemory, Text};
use guide_texts::command_texts::VERSION;
use linear_atoms::Regions;
use std::alloc::Global;

/// Adds an option with its value, as words of a command.
fn push_option(text: &mut Vec<u8>, option: &str, value: &str) -> Result<(), NoMemory>
    ensures { OnOk result (text.new.items ≡ text.old.items ++ specs.with_value option.now value.now) }
{
    text.extend_from_slice(option.as_bytes())?;
    text.extend_from_slice(value.as_bytes())?;
    Ok(())
}

/// Adds an option with its number.
fn push_number(alloc: Global, text: &mut Vec<u8>, option: &str, number: u32) -> Result<(), NoMemory>
    ensures { OnOk result (text.new.items ≡ text.old.items ++ specs.with_value option.now (decimal number)) }
{
    let value = format!(in alloc; "{number}")?;
    push_option(text, option, value.as_str())
}

/// Adds the options of an analysis that say how much it finds, each with its value.
fn push_precision(alloc: Global, text: &mut Vec<u8>, analysis: &Analysis) -> Result<(), NoMemory>
    ensures { OnOk result (text.new.items ≡ text.old.items ++ specs.precision_words analysis.now) }
{
    push_option(text, "--domain=", analysis.domain.name())?;
    push_number(alloc, text, " --delay=", analysis.delay)?;
    push_number(alloc, text, " --narrow=", analysis.narrow)?;
    push_option(text, " --widening=", analysis.widening.name())?;
    Ok(())
}

/// Adds the other options, each with its value.
fn push_others(
    text: &mut Vec<u8>,
    dialect: Dialect,
    analysis: &Analysis,
    regions: Regions,
) -> Result<(), NoMemory>
    ensures { OnOk result (text.new.items ≡ text.old.items ++ specs.other_words dialect analysis.now regions) }
{
    push_option(text, " --overflow=", mode_name(analysis.mode))?;
    push_option(text, " --regions=", regions_name(regions))?;
    push_option(text, " --unknown=", unknown_name(dialect.unknown))?;
    push_option(text, " --includes=", includes_name(dialect.includes))?;
    text.extend_from_slice(b"\n")?;
    Ok(())
}

/// The version, and behind it a line of all options that a page has, each with its value, as words of a command.
pub fn made_by(
    alloc: Global,
    dialect: Dialect,
    analysis: &Analysis,
    regions: Regions,
) -> Result<Text, NoMemory>
    ensures { IfOk result (λ text. text ≡ specs.made_by dialect analysis.now regions) }
{
    let mut text = Vec::from_slice(alloc, VERSION.as_bytes())?;
    text.extend_from_slice(b"options: ")?;
    push_precision(alloc, &mut text, analysis)?;
    push_others(&mut text, dialect, analysis, regions)?;
    Ok(Text::from_vec(text))
}

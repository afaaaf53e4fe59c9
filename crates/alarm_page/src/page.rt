//! The text of a page.
#![tactic(auto)]

ghost use Rattle.std.specs.Prelude.{◌≡◌, ◌++◌, IfOk, OnOk};
ghost use Rattle.alarm_page.specs.Laws.{AreBytes};
ghost use Rattle.alarm_page.specs.Pages as specs;
ghost use Rattle.alarm_page.specs.Parts.{text_of};
ghost use Rattle.alarm_page.specs.declared.part.Part.TheVariants as part;

use crate::escapes::push_escaped;
use crate::part::{Part, part_text};
use fam_outer::{NoMemory, Text};
use sha2::{Digest, Sha256};
use std::alloc::Global;

/// What a page tells. Each is a text of bytes, whatever they are.
#[derive(Drop)]
pub struct Told<'a> {
    /// The lines of the alarms, and how many there are.
    pub alarms: &'a [u8],
    /// The whole report: what is known at each place, and then the same alarms.
    pub report: &'a [u8],
    pub model: &'a [u8],
    pub file: &'a [u8],
    /// The version and the options, lines of their own.
    pub made_by: &'a [u8],
}

/// The SHA-256 digest of these bytes, in hexadecimal digits.
#[tactic(auto, unfolding(crate::specs::Pages::sum_text))]
fn sum_text(alloc: Global, bytes: &[u8]) -> Result<Text, NoMemory>
    ensures { IfOk result (λ text. text ≡ specs.sum_text bytes.now) }
{
    let digest = Sha256::digest(bytes);
    let digits = hex::encode(alloc, digest.as_slice())?;
    Ok(Text::from_vec(digits.into_bytes()))
}

/// Adds a line with this number.
fn push_number(alloc: Global, text: &mut Vec<u8>, number: usize) -> Result<(), NoMemory>
    ensures { OnOk result (text.new.items ≡ text.old.items ++ specs.number_line number) }
{
    let line = format!(in alloc; "{number}\n")?;
    text.extend_from_slice(line.as_bytes())?;
    Ok(())
}

/// Adds the numbers from 1 to this one, each on a line.
#[tactic(auto, using(crate::proofs::Numbers::numbers_further))]
fn push_numbers(alloc: Global, text: &mut Vec<u8>, count: usize) -> Result<(), NoMemory>
    ensures { OnOk result (text.new.items ≡ text.old.items ++ specs.numbers_up_to count) }
{
    for before in 0..count {
        push_number(alloc, text, before + 1)?;
    }
    Ok(())
}

/// The number of each line of a text.
fn line_numbers(alloc: Global, file: &[u8]) -> Result<Text, NoMemory>
    ensures { IfOk result (λ text. text ≡ specs.line_numbers file.now) }
{
    let newlines = file.iter().filter(|byte| **byte == b'\n').count();
    let mut text = Vec::new(alloc);
    push_numbers(alloc, &mut text, newlines + 1)?;
    Ok(Text::from_vec(text))
}

/// By what a page was made, and the sums of both files.
fn about(alloc: Global, told: &Told) -> Result<Text, NoMemory>
    ensures { IfOk result (λ text. text ≡ specs.about (specs.texts_of told.now)) }
{
    let mut text = Vec::from_slice(alloc, told.made_by)?;
    text.extend_from_slice(b"SHA-256 of MODEL: ")?;
    text.extend_from_slice(sum_text(alloc, told.model)?.bytes())?;
    text.extend_from_slice(b"\nSHA-256 of FILE: ")?;
    text.extend_from_slice(sum_text(alloc, told.file)?.bytes())?;
    text.push(b'\n')?;
    Ok(Text::from_vec(text))
}

/// Adds a fixed part, and a text behind it.
fn push_section(text: &mut Vec<u8>, front: Part, section: &[u8]) -> Result<(), NoMemory>
    ensures written { OnOk result (text.new.items ≡ text.old.items ++ specs.written (specs.section (text_of front) section.now)) }
    ensures bytes { OnOk result (AreBytes section.now) }
{
    text.extend_from_slice(part_text(front).as_bytes())?;
    push_escaped(text, section)
}

/// Adds what stands before the first text, and that text.
fn push_opening(text: &mut Vec<u8>, alarms: &[u8]) -> Result<(), NoMemory>
    ensures written { OnOk result (text.new.items ≡ text.old.items ++ specs.written (specs.section specs.opening alarms.now)) }
    ensures bytes { OnOk result (AreBytes alarms.now) }
{
    text.extend_from_slice(part_text(Part::Head).as_bytes())?;
    text.extend_from_slice(part_text(Part::Style).as_bytes())?;
    push_section(text, Part::BeforeAlarms, alarms)
}

/// Adds the file with the numbers of its lines.
fn push_file(alloc: Global, text: &mut Vec<u8>, file: &[u8]) -> Result<(), NoMemory>
    ensures written { OnOk result (text.new.items ≡ text.old.items
        ++ (specs.written (specs.section (text_of part.BeforeNumbers) (specs.line_numbers file.now))
        ++ specs.written (specs.section (text_of part.BeforeFile) file.now))) }
    ensures bytes { OnOk result (AreBytes (specs.line_numbers file.now) × AreBytes file.now) }
{
    let numbers = line_numbers(alloc, file)?;
    push_section(text, Part::BeforeNumbers, numbers.bytes())?;
    push_section(text, Part::BeforeFile, file)
}

/// Adds the texts behind the file.
fn push_others(
    text: &mut Vec<u8>,
    report: &[u8],
    model: &[u8],
    about: &[u8],
) -> Result<(), NoMemory>
    ensures written { OnOk result (text.new.items ≡ text.old.items
        ++ (specs.written (specs.section (text_of part.BeforeReport) report.now)
        ++ (specs.written (specs.section (text_of part.BeforeModel) model.now)
        ++ specs.written (specs.section (text_of part.BeforeAbout) about.now)))) }
    ensures bytes { OnOk result (AreBytes report.now × AreBytes model.now × AreBytes about.now) }
{
    push_section(text, Part::BeforeReport, report)?;
    push_section(text, Part::BeforeModel, model)?;
    push_section(text, Part::BeforeAbout, about)
}

/// Adds what stands behind the last text.
fn push_closing(text: &mut Vec<u8>) -> Result<(), NoMemory>
    ensures { OnOk result (text.new.items ≡ text.old.items ++ specs.closing) }
{
    text.extend_from_slice(part_text(Part::BeforeScript).as_bytes())?;
    text.extend_from_slice(part_text(Part::Script).as_bytes())?;
    text.extend_from_slice(part_text(Part::End).as_bytes())?;
    Ok(())
}

/// The page that tells this, in HTML: its texts, each escaped, behind fixed parts of their own. It names no other file and no address.
/// The only refusal is want of memory.
#[tactic(auto, using(crate::proofs::Joined::joined))]
pub fn page_text(alloc: Global, told: &Told) -> Result<Text, NoMemory>
    ensures page { IfOk result (λ page. page ≡ specs.page_of (specs.texts_of told.now)) }
    ensures told { IfOk result (λ page. specs.told_by page ≡ specs.texts_told (specs.texts_of told.now)) }
{
    let about = about(alloc, told)?;
    let mut text = Vec::new(alloc);
    push_opening(&mut text, told.alarms)?;
    push_file(alloc, &mut text, told.file)?;
    push_others(&mut text, told.report, told.model, about.bytes())?;
    push_closing(&mut text)?;
    Ok(Text::from_vec(text))
}

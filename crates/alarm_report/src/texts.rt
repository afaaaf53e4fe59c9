//! The texts of reports.
#![tactic(auto)]

ghost use Rattle.std.specs.Prelude.{◌≡◌, ◌++◌, length, IfOk};
ghost use Rattle.std.specs.List.{All};
ghost use Rattle.linear_atoms.specs.Atoms.{AreLiterals};
ghost use Rattle.alarm_report.specs.declared.alarms.FamilyAlarm.{FamilyAlarm};
ghost use Rattle.alarm_report.specs.Texts.{place_text, kind_text as text_of_kind, alarm_line, count_line, variant_text, IsWordPlace, HaveWordPlaces, region_text, stop_text, family_line, alarm_text};

use crate::alarms::FamilyAlarm;
use crate::joining::joined;
use crate::pieces::piece_texts;
use c_tree::Kind;
use fam_outer::{NoMemory, Place, Text};
use linear_atoms::slices::cut;
use linear_atoms::{Feature, Literal, Regions, config_text};
use plain_analysis::Alarm;
use std::alloc::Global;

/// The name of a kind of stop.
pub fn kind_text(kind: Kind) -> &'static str
    ensures { result.now ≡ text_of_kind kind }
{
    match kind {
        Kind::Overflow => "overflow",
        Kind::ZeroDivisor => "zero-divisor",
        Kind::Assertion => "assertion",
    }
}

/// Adds `LINE:COLUMN`.
pub fn push_place(alloc: Global, text: &mut Vec<u8>, place: Place) -> Result<(), NoMemory>
    ensures text { IfOk result (λ _. text.new.items ≡ text.old.items ++ place_text place) }
    ensures word { IsWordPlace place }
{
    let Place { line, column } = place;
    let place = format!(in alloc; "{line}:{column}")?;
    text.extend_from_slice(place.as_bytes())?;
    Ok(())
}

/// Adds the line that tells how many alarms there are.
fn push_count(alloc: Global, text: &mut Vec<u8>, count: usize) -> Result<(), NoMemory>
    ensures { IfOk result (λ _. text.new.items ≡ text.old.items ++ count_line count) }
{
    let line = format!(in alloc; "alarms: {count}\n")?;
    text.extend_from_slice(line.as_bytes())?;
    Ok(())
}

/// Adds the line of an alarm of one program.
fn push_alarm(alloc: Global, text: &mut Vec<u8>, alarm: &Alarm) -> Result<(), NoMemory>
    ensures text { IfOk result (λ _. text.new.items ≡ text.old.items ++ alarm_line alarm.now) }
    ensures word { IsWordPlace alarm.now.place }
{
    push_place(alloc, text, alarm.place)?;
    let kind = kind_text(alarm.kind);
    let behind = format!(in alloc; ": {kind}\n")?;
    text.extend_from_slice(behind.as_bytes())?;
    Ok(())
}

/// The report on one program: for each alarm a line `LINE:COLUMN: KIND`, then `alarms: N` with their number. The only refusal is
/// want of memory.
pub fn variant_report(alloc: Global, alarms: &[Alarm]) -> Result<Text, NoMemory>
    ensures text { IfOk result (λ text. text ≡ variant_text alarms.now) }
    ensures words { IfOk result (λ _. HaveWordPlaces alarms.now) }
{
    let mut text = Vec::new(alloc);
    for alarm in alarms {
        push_alarm(alloc, &mut text, alarm)?;
    }
    push_count(alloc, &mut text, alarms.len())?;
    Ok(Text::from_vec(text))
}

/// Adds the text of a region.
pub fn push_region(
    alloc: Global,
    regions: Regions,
    text: &mut Vec<u8>,
    features: &[Feature],
    literals: &[Literal],
) -> Result<(), NoMemory>
    requires { AreLiterals (length features.now) literals.now }
    ensures { IfOk result (λ _. text.new.items ≡ text.old.items ++ region_text regions features.now literals.now) }
{
    match cut(literals) {
        None => {
            text.push(b'1')?;
            Ok(())
        }
        Some((_first, _behind)) => {
            let texts = piece_texts(alloc, regions, features, literals)?;
            let whole = joined(alloc, " && ", &texts)?;
            text.extend_from_slice(whole.bytes())?;
            Ok(())
        }
    }
}

/// Adds `LINE:COLUMN: KIND if REGION`.
pub fn push_stop(
    alloc: Global,
    regions: Regions,
    text: &mut Vec<u8>,
    features: &[Feature],
    alarm: &FamilyAlarm,
) -> Result<(), NoMemory>
    requires { AreLiterals (length features.now) alarm.now.region.literals }
    ensures { IfOk result (λ _. text.new.items ≡ text.old.items ++ stop_text regions features.now alarm.now) }
{
    push_place(alloc, text, alarm.place)?;
    let kind = kind_text(alarm.kind);
    let behind = format!(in alloc; ": {kind} if ")?;
    text.extend_from_slice(behind.as_bytes())?;
    push_region(
        alloc,
        regions,
        text,
        features,
        alarm.region.literals.items(),
    )
}

/// Adds the line of an alarm of a family.
fn push_line(
    alloc: Global,
    regions: Regions,
    text: &mut Vec<u8>,
    features: &[Feature],
    alarm: &FamilyAlarm,
) -> Result<(), NoMemory>
    requires { AreLiterals (length features.now) alarm.now.region.literals }
    ensures { IfOk result (λ _. text.new.items ≡ text.old.items ++ family_line regions features.now alarm.now) }
{
    push_stop(alloc, regions, text, features, alarm)?;
    text.extend_from_slice("; example ".as_bytes())?;
    let example = config_text(alloc, features, alarm.region.example.values.items())?;
    text.extend_from_slice(example.bytes())?;
    text.push(b'\n')?;
    Ok(())
}

/// The report on a family: for each alarm a line `LINE:COLUMN: KIND if REGION; example CONFIGURATION`, then `alarms: N` with their
/// number. REGION has the texts of the region's literals joined by ` && `, or is `1` where there is none. Where regions are merged,
/// `T >= k` and `T <= k` of one region are written as `T == k`, at the place of the first. The only refusal is want of memory.
///
/// The atoms of all literals are well formed over the features.
pub fn alarm_text(
    alloc: Global,
    regions: Regions,
    features: &[Feature],
    alarms: &[FamilyAlarm],
) -> Result<Text, NoMemory>
    requires { All (λ (a : FamilyAlarm). AreLiterals (length features.now) a.region.literals) alarms.now }
    ensures { IfOk result (λ text. text ≡ alarm_text regions features.now alarms.now) }
{
    let mut text = Vec::new(alloc);
    'alarms: for alarm in alarms {
        push_line(alloc, regions, &mut text, features, alarm)?;
    }
    push_count(alloc, &mut text, alarms.len())?;
    Ok(Text::from_vec(text))
}

//! The text of a certificate.
#![tactic(auto)]

ghost use Rattle.std.specs.Prelude.{◌≡◌, ◌++◌, length, map, flat_map, IfOk};
ghost use Rattle.std.specs.List.{All};
ghost use Rattle.linear_atoms.specs.Atoms.{AreLiterals};
ghost use Rattle.alarm_report.specs.declared.alarms.FamilyAlarm.{FamilyAlarm};
ghost use Rattle.alarm_report.specs.declared.invariants.FamilyInvariant.{FamilyInvariant};
ghost use Rattle.alarm_report.specs.Invariants.{invariant};
ghost use Rattle.certificate_format.specs.Certificates.{header as header_of};
ghost use Rattle.certificate_format.specs.Texts.{loop_line, alarm_line, certificate_text as text_of};

use alarm_report::leaf_texts::push_known;
use alarm_report::texts::{push_place, push_stop};
use alarm_report::{FamilyAlarm, FamilyInvariant};
use c_tree::Mode;
use fam_outer::{NoMemory, Text};
use leaf_domain::Leaf;
use linear_atoms::{Feature, Regions};
use std::alloc::Global;

/// The first line of a certificate.
fn header(mode: Mode) -> &'static [u8]
    ensures { result.now ≡ header_of mode }
{
    match mode {
        Mode::Stop => b"famlint certificate 1 stop\n",
        Mode::Wrap => b"famlint certificate 1 wrap\n",
    }
}

/// Adds the line of a loop.
fn push_loop<L: Leaf>(
    alloc: Global,
    regions: Regions,
    text: &mut Vec<u8>,
    features: &[Feature],
    names: &[Text],
    one: &FamilyInvariant<L>,
) -> Result<(), NoMemory>
    requires { AreLiterals (length features.now) one.now.region.literals }
    ensures { IfOk result (λ _. text.new.items
        ≡ text.old.items ++ loop_line regions L.meaning features.now names.now (invariant L.value one.now)) }
{
    text.extend_from_slice(b"loop ")?;
    push_place(alloc, text, one.place)?;
    text.extend_from_slice(b" if ")?;
    push_known(alloc, regions, text, features, names, one)
}

/// Adds the line of an alarm.
fn push_alarm(
    alloc: Global,
    regions: Regions,
    text: &mut Vec<u8>,
    features: &[Feature],
    alarm: &FamilyAlarm,
) -> Result<(), NoMemory>
    requires { AreLiterals (length features.now) alarm.now.region.literals }
    ensures { IfOk result (λ _. text.new.items ≡ text.old.items ++ alarm_line regions features.now alarm.now) }
{
    text.extend_from_slice(b"alarm ")?;
    push_stop(alloc, regions, text, features, alarm)?;
    text.push(b'\n')?;
    Ok(())
}

/// Adds the lines of loops.
fn push_loops<L: Leaf>(
    alloc: Global,
    regions: Regions,
    text: &mut Vec<u8>,
    features: &[Feature],
    names: &[Text],
    loops: &[FamilyInvariant<L>],
) -> Result<(), NoMemory>
    requires { All (λ (i : FamilyInvariant L). AreLiterals
        (length features.now) i.region.literals) loops.now }
    ensures { IfOk result (λ _. text.new.items
        ≡ text.old.items ++ flat_map (loop_line regions L.meaning features.now names.now)
        (map (invariant L.value) loops.now)) }
{
    'loops: for one in loops {
        push_loop(alloc, regions, text, features, names, one)?;
    }
    Ok(())
}

/// Adds the lines of alarms.
fn push_alarms(
    alloc: Global,
    regions: Regions,
    text: &mut Vec<u8>,
    features: &[Feature],
    alarms: &[FamilyAlarm],
) -> Result<(), NoMemory>
    requires { All (λ (a : FamilyAlarm). AreLiterals
        (length features.now) a.region.literals) alarms.now }
    ensures { IfOk result (λ _. text.new.items
        ≡ text.old.items ++ flat_map (alarm_line regions features.now) alarms.now) }
{
    'alarms: for alarm in alarms {
        push_alarm(alloc, regions, text, features, alarm)?;
    }
    Ok(())
}

/// The text of a certificate: a first line that names the mode, a line `loop LINE:COLUMN if REGION: LEAF` for each invariant of a
/// loop, and a line `alarm LINE:COLUMN: KIND if REGION` for each alarm, regions and leaves as in the report on all variants. The
/// only refusal is want of memory.
///
/// The atoms of all literals are well formed over the features.
pub fn certificate_text<L: Leaf>(
    alloc: Global,
    regions: Regions,
    features: &[Feature],
    names: &[Text],
    mode: Mode,
    loops: &[FamilyInvariant<L>],
    alarms: &[FamilyAlarm],
) -> Result<Text, NoMemory>
    requires loops { All (λ (i : FamilyInvariant L). AreLiterals
        (length features.now) i.region.literals) loops.now }
    requires alarms { All (λ (a : FamilyAlarm). AreLiterals
        (length features.now) a.region.literals) alarms.now }
    ensures { IfOk result (λ text. text
        ≡ text_of regions L.meaning features.now names.now mode (map (invariant L.value) loops.now) alarms.now) }
{
    let mut text = Vec::from_slice(alloc, header(mode))?;
    push_loops(alloc, regions, &mut text, features, names, loops)?;
    push_alarms(alloc, regions, &mut text, features, alarms)?;
    Ok(Text::from_vec(text))
}

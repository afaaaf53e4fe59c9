//! Certificates, read from bytes.
#![tactic(auto)]

ghost use Rattle.std.specs.Prelude.{◌≡◌, ◌≢◌, ◌≤◌, ◌+◌, ℕ, List, [], ◌∷◌, ◌++◌, length, IfOk, MatchOption};
ghost use Rattle.std.specs.List.{All};
ghost use Rattle.c_tree.specs.declared.tree.Mode.{Mode};
ghost use Rattle.linear_atoms.specs.Atoms.{AreAtoms};
ghost use Rattle.cpp_conditions.specs.Propositions.{IsBelow};
ghost use Rattle.cpp_conditions.specs.View.{formula};
ghost use Rattle.lifted_analysis.specs.declared.lines.LoopLine.{LoopLine};
ghost use Rattle.certificate_format.specs.declared.certificates.AlarmLine.{AlarmLine};
ghost use Rattle.certificate_format.specs.Bounds.{AreIntBounds};
ghost use Rattle.fam_outer.specs.Limits.{certificate_bytes};
ghost use Rattle.certificate_format.specs.Certificates.{IsCertificateRead, IsLineRead, header, loops_of, alarms_of};
ghost use Rattle.certificate_format.specs.Lines.{IsLoopText, IsAlarmLine};
ghost use Rattle.certificate_format.specs.Regions.{piece_of};
ghost use Rattle.certificate_format.specs.Rows.{row_of};

use crate::certificates::{AlarmLine, Certificate, CertificateFault, Entry};
use crate::cutting::{behind, cut_at};
use crate::forms::{alarm_of, loop_parts};
use crate::leaves::bounds_of;
use crate::literals::{Row, rows_of};
use crate::regions::formula_of;
use c_tree::{Kind, Mode};
use fam_outer::{CERTIFICATE_BYTES, NoMemory, Place, Refusal, Text};
use lifted_analysis::LoopLine;
use linear_atoms::{Atom, Feature};
use std::alloc::Global;

/// The mode of the first line, and what stands behind it.
fn mode_before(bytes: &[u8]) -> Option<(Mode, &[u8])>
    ensures { MatchOption result ((mode : Mode) (rest : List ℕ) → bytes.now ≢ header mode ++ rest)
        (λ x. bytes.now ≡ header x.0 ++ x.1.now) }
{
    if let Some(rest) = behind(bytes, b"famlint certificate 1 stop\n") {
        return Some((Mode::Stop, rest));
    }
    let Some(rest) = behind(bytes, b"famlint certificate 1 wrap\n") else {
        return None;
    };
    Some((Mode::Wrap, rest))
}

/// What a loop's line of this number and these parts says.
fn loop_entry(
    alloc: Global,
    rows: &[Row],
    names: &[Text],
    number: u32,
    parts: (Place, &[u8], &[u8]),
) -> Result<Entry, Refusal<CertificateFault>>
    ensures { (line : List ℕ) → IsLoopText line parts.entry.0 parts.entry.1.now parts.entry.2.now
        → IsLineRead (row_of rows.now) names.now line number result }
{
    let (place, region, leaf) = parts;
    let Some(bounds) = bounds_of(alloc, names, leaf)? else {
        return Err(Refusal::Fault(CertificateFault::Line(number)));
    };
    let Some(region) = formula_of(alloc, rows, region)? else {
        return Err(Refusal::Fault(CertificateFault::Test(number)));
    };
    Ok(Entry::Loop(LoopLine {
        place,
        region,
        bounds,
    }))
}

/// What an alarm's line of this number and these parts says.
fn alarm_entry(
    alloc: Global,
    rows: &[Row],
    number: u32,
    parts: (Place, Kind, &[u8]),
) -> Result<Entry, Refusal<CertificateFault>>
    ensures { (names : List (List ℕ)) (line : List ℕ)
        → IsAlarmLine line parts.entry.0 parts.entry.1 parts.entry.2.now
        → IsLineRead (row_of rows.now) names line number result }
{
    let (place, kind, region) = parts;
    let Some(region) = formula_of(alloc, rows, region)? else {
        return Err(Refusal::Fault(CertificateFault::Test(number)));
    };
    Ok(Entry::Alarm(AlarmLine {
        place,
        kind,
        region,
    }))
}

/// What the line of this number says.
fn entry_of(
    alloc: Global,
    rows: &[Row],
    names: &[Text],
    number: u32,
    line: &[u8],
) -> Result<Entry, Refusal<CertificateFault>>
    ensures { IsLineRead (row_of rows.now) names.now line.now number result }
{
    if let Some(parts) = loop_parts(line) {
        return loop_entry(alloc, rows, names, number, parts);
    }
    match alarm_of(line) {
        Some(parts) => alarm_entry(alloc, rows, number, parts),
        None => Err(Refusal::Fault(CertificateFault::Line(number))),
    }
}

/// Adds what a line says.
fn add_entry(certificate: &mut Certificate, entry: Entry) -> Result<(), NoMemory>
    ensures mode { IfOk result (λ _. certificate.new.mode ≡ certificate.old.mode) }
    ensures loops { IfOk result (λ _. certificate.new.loops.items
        ≡ certificate.old.loops.items ++ loops_of (entry ∷ [])) }
    ensures alarms { IfOk result (λ _. certificate.new.alarms.items
        ≡ certificate.old.alarms.items ++ alarms_of (entry ∷ [])) }
{
    match entry {
        Entry::Loop(line) => certificate.loops.push(line)?,
        Entry::Alarm(line) => certificate.alarms.push(line)?,
    }
    Ok(())
}

/// The certificate of the lines behind the first.
fn read_lines(
    alloc: Global,
    rows: &[Row],
    names: &[Text],
    mode: Mode,
    text: &[u8],
) -> Result<Certificate, Refusal<CertificateFault>>
    requires { length text.now ≤ certificate_bytes }
    ensures { (bytes : List ℕ) → length bytes ≤ certificate_bytes → bytes ≡ header mode ++ text.now
        → IsCertificateRead (row_of rows.now) names.now bytes result }
{
    let mut certificate = Certificate {
        mode,
        loops: Vec::new(alloc),
        alarms: Vec::new(alloc),
    };
    let mut number: u32 = 2;
    let mut rest = text;
    'lines: while let Some((line, behind)) = cut_at(rest, b"\n") {
        let entry = entry_of(alloc, rows, names, number, line)?;
        add_entry(&mut certificate, entry)?;
        rest = behind;
        number += 1;
    }
    if rest.is_empty() {
        Ok(certificate)
    } else {
        Err(Refusal::Fault(CertificateFault::Line(number)))
    }
}

/// The certificate that the bytes spell.
///
/// The first line is `famlint certificate 1 stop` or `famlint certificate 1 wrap`. Then come, in any order and number, lines
/// `loop LINE:COLUMN if REGION: LEAF` and `alarm LINE:COLUMN: KIND if REGION`. Each line ends with a newline. The numbers of a
/// place are from 1 to 4294967295. LEAF is `unreachable`, or has an item `x in [l,h]` of each name in order, joined by `, `, or
/// is `reachable` where there is no name; the ends of an item are numbers of `int`, the low not above the high. The region of a
/// loop's line ends before the first `: ` behind ` if `, that of an alarm's before the newline. REGION is `1`, which is true, or
/// has pieces, joined by ` && `: its formula is that all of their literals hold, each taken once, in the order of their first
/// places. A piece is the text of a literal of the atoms, of literals with one text the first, in the order of the atoms, an atom
/// before its negation; or it is `T == k`, where `T >= k` and `T <= k` are both literals of the atoms, and then stands for both, in
/// this order.
///
/// Its refusals, in this order:
/// - `TooLong`, at more than 16,777,216 bytes;
/// - `Header`, where the bytes do not begin with one of the two first lines and its newline;
/// - `Line`, where of the lines behind the first the first that has a fault has neither form, or no newline;
/// - `Test`, where that line has a form, but a region that is not `1`, of which a piece is the text of no literal and of no such value.
///
/// The numbers of lines count the whole text's from 1. It answers `NoMemory` for want of memory.
pub fn read_certificate(
    alloc: Global,
    features: &[Feature],
    atoms: &[Atom],
    names: &[Text],
    bytes: &[u8],
) -> Result<Certificate, Refusal<CertificateFault>>
    requires atoms { AreAtoms (length features.now) atoms.now }
    requires few { length atoms.now ≤ 320 }
    ensures answers { IsCertificateRead (piece_of features.now atoms.now) names.now bytes.now result }
    ensures loops { IfOk result (λ c. All (λ (l : LoopLine). IsBelow
        (length atoms.now) (formula l.region)) c.loops.items) }
    ensures alarms { IfOk result (λ c. All (λ (a : AlarmLine). IsBelow
        (length atoms.now) (formula a.region)) c.alarms.items) }
    ensures bounds { IfOk result (λ c. All (λ (l : LoopLine). AreIntBounds names.now l.bounds) c.loops.items) }
{
    if bytes.len() > CERTIFICATE_BYTES {
        return Err(Refusal::Fault(CertificateFault::TooLong));
    }
    let Some((mode, text)) = mode_before(bytes) else {
        return Err(Refusal::Fault(CertificateFault::Header));
    };
    let rows = rows_of(alloc, features, atoms)?;
    read_lines(alloc, &rows, names, mode, text)
}

//! The lines, conditions and atoms of a blanked text with groups (ISO/IEC 9899:2011, 6.10.1).
#![tactic(auto)]

ghost use Rattle.std.specs.Prelude.{◌≡◌, ℤ, ◌≤◌, ◌+◌, List, length, map, IfOk};
ghost use Rattle.linear_atoms.specs.Atoms.{AreAtoms};
ghost use Rattle.std.specs.List.{All};
ghost use Rattle.cpp_conditions.specs.Distinct.{HaveFewAtoms};
ghost use Rattle.cpp_conditions.specs.Naming.{AreFeatures};
ghost use Rattle.cpp_conditions.specs.Numbering.{AreAllAmong};
ghost use Rattle.cpp_conditions.specs.Propositions.{IsBelow};
ghost use Rattle.cpp_conditions.specs.Validity.{plain, AreFit};
ghost use Rattle.cpp_conditions.specs.View.{proposition, formula};
ghost use Rattle.cpp_lines.specs.Lines as lists;
ghost use Rattle.cpp_lines.specs.Sections as sections;
ghost use Rattle.cpp_lines.specs.Taking as taking;

use crate::defined::{add_name, names_of};
use crate::directives::{Directive, begins_directive, behind_hash, directive_of};
use crate::group_conditions::{ConditionText, condition_in, read_text};
use crate::line::{Line, LineKind, Lines};
use crate::lines::{cut_line, line_place};
use crate::lists::{Atoms, Formulas};
use crate::nesting::ends_of;
use crate::open_sections::Opens;
use cpp_conditions::{Condition, ConditionRefusal, Formula, Macros, Model, add_atoms, number};
use fam_outer::{Dialect, FILE_BYTES, FileCode, FileRefusal, MOST_ATOMS, NoMemory, Place, Refusal};
use linear_atoms::Atom;
use std::alloc::Global;

/// The lines of a text, the conditions of its group directives in their order, and the atoms of the model and of all
/// conditions, which rise strictly. A formula has the numbers of its condition's atoms.
#[derive(Debug, Drop)]
pub struct Sections {
    pub lines: Lines,
    pub conditions: Formulas,
    pub atoms: Atoms,
}

/// What is read so far: with the names that the file defines, and those that the lines so far define.
#[derive(Drop)]
struct Reading<'a> {
    defined: Vec<&'a [u8]>,
    above: Vec<&'a [u8]>,
    lines: Vec<Line>,
    conditions: Vec<Condition>,
    atoms: Vec<Atom>,
    opens: Opens,
}

/// The code of a refused condition.
fn condition_refusal(refusal: ConditionRefusal) -> Refusal<FileCode>
    ensures { result ≡ taking.condition_refusal refusal }
{
    match refusal {
        ConditionRefusal::NoMemory => Refusal::NoMemory,
        ConditionRefusal::Fault(fault) => Refusal::Fault(FileCode::Condition(fault)),
    }
}

/// Adds the condition that a text spells, and its atoms.
fn add_condition(
    alloc: Global,
    dialect: Dialect,
    model: &Model,
    reading: &mut Reading<'_>,
    text: &ConditionText,
) -> Result<(), Refusal<FileCode>>
    requires features { AreFeatures model.now.features }
    requires kept { taking.IsKept (plain model.now) reading.old }
    ensures adds { taking.Adds dialect (plain model.now) text.now reading.old reading.new result }
    ensures lines { reading.new.lines ≡ reading.old.lines }
    ensures opens { reading.new.opens ≡ reading.old.opens }
    ensures above { reading.new.above ≡ reading.old.above }
    ensures defined { reading.new.defined ≡ reading.old.defined }
{
    let macros = Macros {
        unknown: dialect.unknown,
        above: reading.above.as_slice(),
        file: reading.defined.as_slice(),
    };
    let condition = match read_text(alloc, macros, model.features.items(), text) {
        Ok(condition) => condition,
        Err(refusal) => return Err(condition_refusal(refusal)),
    };
    add_atoms(alloc, &mut reading.atoms, &condition)?;
    if reading.atoms.len() > MOST_ATOMS {
        return Err(Refusal::Fault(FileCode::TooManyTests));
    }
    reading.conditions.push(condition)?;
    Ok(())
}

/// The kind of a line with this directive, where so many conditions stand before it.
fn kind_of(number: u32, directive: Option<Directive>) -> LineKind
    ensures { result ≡ sections.kind_of number directive }
{
    match directive {
        None => LineKind::Code,
        Some(Directive::Include) => LineKind::Include,
        Some(Directive::OtherInclude) => LineKind::Include,
        Some(Directive::If) => LineKind::If(number),
        Some(Directive::Ifdef) => LineKind::If(number),
        Some(Directive::Ifndef) => LineKind::If(number),
        Some(Directive::Elif) => LineKind::Elif(number),
        Some(Directive::Else) => LineKind::Else,
        Some(Directive::Endif) => LineKind::Endif,
        Some(Directive::Define) => LineKind::Define,
    }
}

/// The line at an offset and place, where so many conditions stand before it.
fn line_at(number: u32, start: u32, first: Place, line: &[u8]) -> Line
    requires short { start + length line.now ≤ FILE_BYTES }
    requires column { first.column ≤ 1 }
    ensures { result ≡ sections.line_at number start first line.now }
{
    let kind = if begins_directive(line) {
        kind_of(number, directive_of(behind_hash(line)))
    } else {
        LineKind::Code
    };
    Line {
        kind,
        start,
        end: start + line.len() as u32,
        place: line_place(first, line),
    }
}

/// Adds the condition of a line, where it has one. Of the line's faults it answers all but that of a section that nothing
/// ends.
fn judge_line(
    alloc: Global,
    dialect: Dialect,
    model: &Model,
    reading: &mut Reading<'_>,
    line: &[u8],
) -> Result<(), Refusal<FileCode>>
    requires features { AreFeatures model.now.features }
    requires kept { taking.IsKept (plain model.now) reading.old }
    ensures judges { taking.Judges dialect (plain model.now) line.now reading.old reading.new result }
    ensures lines { reading.new.lines ≡ reading.old.lines }
    ensures opens { reading.new.opens ≡ reading.old.opens }
    ensures above { reading.new.above ≡ reading.old.above }
    ensures defined { reading.new.defined ≡ reading.old.defined }
{
    if let Some(code) = reading.opens.line_fault(dialect.includes, line) {
        return Err(Refusal::Fault(code));
    }
    match condition_in(alloc, line)? {
        None => Ok(()),
        Some(text) => add_condition(alloc, dialect, model, reading, &text),
    }
}

/// The refusal of a file with this fault at a place.
fn at_place(refusal: Refusal<FileCode>, place: Place) -> FileRefusal
    ensures { result ≡ taking.at_place refusal place }
{
    match refusal {
        Refusal::NoMemory => FileRefusal::NoMemory,
        Refusal::Fault(code) => FileRefusal::Fault { code, place },
    }
}

/// Adds a line, whose first byte stands at this offset and place, and goes on behind it. Of the line's faults it answers
/// all but that of a section that nothing ends.
fn take_line<'a>(
    alloc: Global,
    dialect: Dialect,
    model: &Model,
    reading: &mut Reading<'a>,
    start: u32,
    first: Place,
    line: &'a [u8],
) -> Result<(), FileRefusal>
    requires features { AreFeatures model.now.features }
    requires kept { taking.IsKept (plain model.now) reading.old }
    requires short { start + length line.now ≤ FILE_BYTES }
    requires column { first.column ≤ 1 }
    requires few { length reading.old.conditions.items ≤ start }
    ensures { taking.Takes dialect (plain model.now) start first line.now reading.old reading.new result }
{
    let place = line_place(first, line);
    let made = line_at(reading.conditions.len() as u32, start, first, line);
    let judged = judge_line(alloc, dialect, model, reading, line);
    reading.opens.follow(line, place)?;
    if let Err(refusal) = judged {
        return Err(at_place(refusal, place));
    }
    reading.lines.push(made)?;
    add_name(&mut reading.above, line)?;
    Ok(())
}

/// Nothing is read of a file yet: there are the atoms of the model, and the names that the file defines.
fn begin<'a>(alloc: Global, model: &Model, defined: Vec<&'a [u8]>) -> Result<Reading<'a>, NoMemory>
    requires few { HaveFewAtoms 64 (plain model.now).constraints }
    ensures kept { IfOk result (λ reading. taking.IsKept (plain model.now) reading) }
    ensures nothing { IfOk result (λ reading. taking.IsBegun reading) }
    ensures defined { IfOk result (λ reading. reading.defined ≡ defined.entry) }
{
    let mut atoms = Vec::new(alloc);
    for constraint in model.constraints.items() {
        add_atoms(alloc, &mut atoms, constraint)?;
    }
    Ok(Reading {
        defined,
        above: Vec::new(alloc),
        lines: Vec::new(alloc),
        conditions: Vec::new(alloc),
        atoms,
        opens: Opens::new(alloc),
    })
}

/// The earlier of two faults: that of the outermost open section, where the lines behind end fewer sections than are open,
/// and else the given one.
fn earlier(refusal: FileRefusal, opens: &Opens, ends: usize) -> FileRefusal
    ensures { result ≡ taking.earlier refusal (taking.is_short ends opens.now) opens.now.first }
{
    match refusal {
        FileRefusal::NoMemory => FileRefusal::NoMemory,
        FileRefusal::Fault { code, place } => {
            if ends < opens.depth() {
                FileRefusal::Fault {
                    code: FileCode::NoEndif,
                    place: opens.first,
                }
            } else {
                FileRefusal::Fault { code, place }
            }
        }
    }
}

/// The lines of a text and their conditions.
fn read_lines<'a>(
    alloc: Global,
    dialect: Dialect,
    model: &Model,
    blanked: &'a [u8],
) -> Result<Reading<'a>, FileRefusal>
    requires short { length blanked.now ≤ FILE_BYTES }
    requires features { AreFeatures model.now.features }
    requires few { HaveFewAtoms 64 (plain model.now).constraints }
    ensures read { taking.ReadsLines dialect (plain model.now) blanked.now result }
    ensures kept { IfOk result (λ reading. taking.IsKept (plain model.now) reading) }
{
    let defined = names_of(alloc, blanked)?;
    let mut reading = begin(alloc, model, defined)?;
    let mut first = Place { line: 1, column: 1 };
    let mut start: u32 = 0;
    let mut rest = blanked;
    'lines: while let Some((line, behind)) = cut_line(rest) {
        if let Err(refusal) = take_line(alloc, dialect, model, &mut reading, start, first, line) {
            return Err(earlier(refusal, &reading.opens, ends_of(behind)));
        }
        first.line += 1;
        start += line.len() as u32 + 1;
        rest = behind;
    }
    if let Err(refusal) = take_line(alloc, dialect, model, &mut reading, start, first, rest) {
        return Err(earlier(refusal, &reading.opens, 0));
    }
    if reading.opens.depth() > 0 {
        return Err(FileRefusal::Fault {
            code: FileCode::NoEndif,
            place: reading.opens.first,
        });
    }
    Ok(reading)
}

/// The formulas of conditions over a list that has their atoms.
fn formulas_of(
    alloc: Global,
    conditions: &[Condition],
    atoms: &[Atom],
) -> Result<Vec<Formula>, NoMemory>
    requires among { AreAllAmong atoms.now (map proposition conditions.now) }
    requires few { length atoms.now ≤ 64 }
    ensures numbered { IfOk result (λ made. sections.AreNumbered atoms.now
        (map proposition conditions.now) made.items) }
    ensures truths { IfOk result (λ made. (values : List ℤ)
        → sections.truths_on atoms.now values made.items
        ≡ sections.truths_at values (map proposition conditions.now)) }
    ensures below { IfOk result (λ made. All (λ f. IsBelow (length atoms.now) (formula f)) made.items) }
{
    let mut made = Vec::new(alloc);
    for condition in conditions {
        made.push(number(alloc, condition, atoms)?)?;
    }
    Ok(made)
}

/// The lines, conditions and atoms of a blanked text with groups, over a model.
///
/// Its lines are the pieces between its newlines, so there is one more than there are newlines. `#ifdef X` means
/// `#if defined X`, and `#ifndef X` means `#if !defined X`. The conditions are numbered as they stand. The atoms are the
/// distinct ones of the model's constraints and of all conditions, at most 64, in their order; at each configuration the
/// formulas have, at the vector of the atoms' truths, the truths of the conditions.
///
/// Its faults, each at the `#` of its line; the first line with one decides, and in a line the lowest code:
/// - `Directive`, where the directive is none of the six group directives `if`, `ifdef`, `ifndef`, `elif`, `else` and
///   `endif`, nor `include` with exactly `<assert.h>` (where includes are skipped, with anything), nor `define` with a
///   name and a constant, and at `else` or `endif` with text behind it. Sections are matched by the names of directives
///   alone, so such a line still ends its section, or is its `#else`;
/// - `NoIf`, at `#elif`, `#else` or `#endif` outside every section;
/// - `NoEndif`, at the directive that opens a section without its end;
/// - `SecondElse`, at `#elif` or `#else` after the section's `#else`;
/// - `Condition`, where the condition has a fault, among them a name that a line above defines; `#ifdef` and `#ifndef` without exactly one identifier, or with
///   `defined`, have the fault `Syntax`;
/// - `TooManyTests`, at the condition with which the atoms of the model and of the conditions so far pass 64.
///
/// It answers `NoMemory` for want of memory.
pub fn read_sections(
    alloc: Global,
    dialect: Dialect,
    model: &Model,
    blanked: &[u8],
) -> Result<Sections, FileRefusal>
    requires short { length blanked.now ≤ FILE_BYTES }
    requires features { AreFeatures model.now.features }
    requires fit { AreFit (length model.now.features) model.now.constraints }
    requires few { HaveFewAtoms 64 (plain model.now).constraints }
    ensures read { sections.ReadsSections dialect (plain model.now) blanked.now result }
    ensures lines { IfOk result (λ made. lists.AreLinesOf blanked.now made.lines) }
    ensures numbers { IfOk result (λ made. lists.AreCounted 1 made.lines) }
    ensures few { IfOk result (λ made. length made.atoms ≤ 64) }
    ensures atoms { IfOk result (λ made. AreAtoms (length model.now.features) made.atoms) }
    ensures below { IfOk result (λ made. All (λ f. IsBelow (length made.atoms) (formula f)) made.conditions) }
    ensures numbered { IfOk result (λ made. sections.AreNumberedBelow (length made.conditions) made.lines) }
{
    let reading = read_lines(alloc, dialect, model, blanked)?;
    let conditions = formulas_of(alloc, &reading.conditions, &reading.atoms)?;
    Ok(Sections {
        lines: Lines::from_vec(reading.lines),
        conditions: Formulas::from_vec(conditions),
        atoms: Atoms::from_vec(reading.atoms),
    })
}

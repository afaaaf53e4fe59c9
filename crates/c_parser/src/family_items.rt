//! The items of a file with groups.
#![tactic(auto)]

ghost use Rattle.std.specs.Prelude.{◌≡◌, ◌≤◌, ◌++◌, length, IfOk, OnOk};
ghost use Rattle.std.specs.List.{prefix_len};
ghost use Rattle.cpp_conditions.specs.Distinct.{HaveFewAtoms};
ghost use Rattle.cpp_conditions.specs.Naming.{AreFeatures};
ghost use Rattle.cpp_conditions.specs.Validity as validity;
ghost use Rattle.c_grammar.specs.Facts.{AreFit, AreRising};
ghost use Rattle.cpp_lines.specs.Lines.{AreCounted};
ghost use Rattle.c_parser.specs.FamilyItems as specs;
ghost use Rattle.c_parser.specs.FamilyReading.{families_over};
ghost use Rattle.c_parser.specs.FamilyStages.{AreProperConditions};
ghost use Rattle.c_parser.specs.Stages.{IsListedAs, listed_in};

use crate::functions::own_functions;
use crate::numbering::Numbered;
use crate::order::arrange;
use crate::plain::number_code;
use c_grammar::{Item, Sign};
use c_tree::Names;
use cpp_conditions::Model;
use cpp_lines::laws::places_stay;
use cpp_lines::{Atoms, Formulas, Line, LineKind, blanked_file, code_text, read_sections};
use fam_outer::{Dialect, FILE_BYTES, FileRefusal, NoMemory};
use std::alloc::Global;

/// The sign of a line's group directive.
fn group_sign(kind: LineKind) -> Option<Sign>
    ensures { result ≡ specs.group_sign kind }
{
    match kind {
        LineKind::Code => None,
        LineKind::Include => None,
        LineKind::Define => None,
        LineKind::If(number) => Some(Sign::GroupIf(number)),
        LineKind::Elif(number) => Some(Sign::GroupElif(number)),
        LineKind::Else => Some(Sign::GroupElse),
        LineKind::Endif => Some(Sign::GroupEnd),
    }
}

/// How many items at the front stand above the line of this number.
fn count_above(items: &[Item], line: u32) -> usize
    ensures value { result ≡ prefix_len (specs.stands_above line) items.now }
    ensures within { result ≤ length items.now }
{
    items.iter().take_while(|x| x.place.line < line).count()
}

/// How many items at the front stand in the line of this number.
fn count_in(items: &[Item], line: u32) -> usize
    ensures value { result ≡ prefix_len (specs.stands_in line) items.now }
    ensures within { result ≤ length items.now }
{
    items.iter().take_while(|x| x.place.line == line).count()
}

/// Adds a line's group directive, or the items that stand in it.
fn add_line(out: &mut Vec<Item>, line: &Line, here: &[Item]) -> Result<(), NoMemory>
    ensures { OnOk result (out.new.items
        ≡ out.old.items ++ specs.or_directive (specs.group_sign line.now.kind) line.now.place here.now) }
{
    match group_sign(line.kind) {
        Some(sign) => out.push(Item {
            place: line.place,
            sign,
        })?,
        None => out.extend_from_slice(here)?,
    }
    Ok(())
}

/// The items of a file with groups: line by line, the group directive at its `#`, or the tokens that stand there. Both the
/// lines and the tokens stand in the order of the text.
pub(crate) fn by_line(alloc: Global, lines: &[Line], tokens: &[Item]) -> Result<Vec<Item>, NoMemory>
    requires lines { AreCounted 1 lines.now }
    requires tokens { AreRising tokens.now }
    ensures { IfOk result (λ items. items.items ≡ specs.by_line lines.now tokens.now) }
{
    let mut items = Vec::new(alloc);
    let mut rest = tokens;
    for line in lines {
        let number = line.place.line;
        let (_, below) = rest.split_at(count_above(rest, number));
        let (here, behind) = below.split_at(count_in(below, number));
        add_line(&mut items, line, here)?;
        rest = behind;
    }
    Ok(items)
}

/// What is known of a file with groups besides its items: its conditions in their order, the atoms of the model and of these
/// conditions, and its functions.
#[derive(Drop)]
pub(crate) struct Conditions {
    pub formulas: Formulas,
    pub atoms: Atoms,
    pub functions: Names,
}

/// The names and items of a file with groups, and its conditions.
pub(crate) fn list_family(
    alloc: Global,
    dialect: Dialect,
    model: &Model,
    bytes: &[u8],
) -> Result<(Numbered, Conditions), FileRefusal>
    requires features { AreFeatures model.now.features }
    requires fit { validity.AreFit (length model.now.features) model.now.constraints }
    requires few { HaveFewAtoms 64 (validity.plain model.now).constraints }
    ensures listed { IsListedAs (families_over dialect model.now) bytes.now result }
    ensures fit { IfOk result (λ made. AreFit (length made.0.names) made.0.items.items) }
    ensures rising { IfOk result (λ made. AreRising made.0.items.items) }
    ensures proper { IfOk result (λ made.
        AreProperConditions (length model.now.features) (listed_in made.0) made.1) }
    ensures limited { IfOk result (λ _. length bytes.now ≤ FILE_BYTES) }
{
    places_stay();
    let blanked = blanked_file(alloc, bytes)?;
    let sections = read_sections(alloc, dialect, model, blanked.bytes())?;
    let code = code_text(alloc, blanked.bytes())?;
    let functions = own_functions(alloc, code.bytes())?;
    let first = number_code(alloc, functions.items(), &[], code.bytes())?;
    let arranged = arrange(
        alloc,
        model.features.items(),
        first.names.items(),
        first.items.as_slice(),
    )?;
    let listed = number_code(
        alloc,
        functions.items(),
        arranged.names.items(),
        code.bytes(),
    )?;
    let Numbered { names, items } = listed;
    let items = by_line(alloc, sections.lines.items(), items.as_slice())?;
    let conditions = Conditions {
        formulas: sections.conditions,
        atoms: sections.atoms,
        functions,
    };
    Ok((Numbered { names, items }, conditions))
}

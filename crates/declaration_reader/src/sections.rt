//! The groups around declarations, and what may stand outside every function.
#![tactic(auto)]

ghost use Rattle.std.specs.Prelude.{◌≡◌, IfOk, option_map};
ghost use Rattle.c_grammar.specs.Grammar as grammar;
ghost use Rattle.c_grammar.specs.Groups as groups;
ghost use Rattle.c_grammar.specs.Machine as machine;
ghost use Rattle.c_grammar.specs.declared.items.Sign.TheVariants as signs;
ghost use Rattle.reading_states.specs.Views.{as_sections, as_state, Moves};

use crate::heads::first_word;
use c_grammar::Sign;
use c_tree::{Declared, Guard};
use fam_outer::NoMemory;
use reading_states::states::{ReadingState, Sections};
use reading_states::words::Leading;
use std::alloc::Global;

/// These guards, and that a condition is true.
fn with_true(alloc: Global, guards: &[Guard], number: u32) -> Result<Vec<Guard>, NoMemory>
    ensures { IfOk result (λ made. made.items ≡ grammar.with_true guards.now number) }
{
    let mut made = Vec::from_slice(alloc, guards)?;
    made.push(Guard {
        number,
        positive: true,
    })?;
    Ok(made)
}

/// These guards, and that a condition is false.
fn with_false(guards: Vec<Guard>, number: u32) -> Result<Vec<Guard>, NoMemory>
    ensures { IfOk result (λ made. made.items ≡ grammar.with_false guards.items number) }
{
    let mut guards = guards;
    guards.push(Guard {
        number,
        positive: false,
    })?;
    Ok(guards)
}

/// The guards of a declarator that stands here.
pub fn guards_of(alloc: Global, sections: &Sections) -> Result<Vec<Guard>, NoMemory>
    ensures { IfOk result (λ made. made.items ≡ machine.guards_of (as_sections sections.now)) }
{
    match sections {
        Sections::Outermost => Ok(Vec::new(alloc)),
        Sections::InPart { guards, number, .. } => with_true(alloc, guards, *number),
        Sections::InLast { guards, .. } => Ok(Vec::from_slice(alloc, guards)?),
    }
}

/// The first part of a group that opens.
fn in_group(alloc: Global, number: u32, sections: Sections) -> Result<Sections, NoMemory>
    ensures { IfOk result (λ made. as_sections made
        ≡ machine.InPart (machine.guards_of (as_sections sections)) number (as_sections sections)) }
{
    let guards = guards_of(alloc, &sections)?;
    let outer = Box::new(alloc, sections)?;
    Ok(Sections::InPart {
        guards,
        number,
        outer,
    })
}

/// The part behind one with these guards and this condition, with a condition of its own.
fn in_part_behind(
    guards: Vec<Guard>,
    number: u32,
    outer: Box<Sections>,
    next: u32,
) -> Result<Sections, NoMemory>
    ensures { IfOk result (λ made. as_sections made
        ≡ machine.InPart (grammar.with_false guards.items number) next (as_sections outer.value)) }
{
    let guards = with_false(guards, number)?;
    Ok(Sections::InPart {
        guards,
        number: next,
        outer,
    })
}

/// The last part, behind one with these guards and this condition.
fn in_last_behind(
    guards: Vec<Guard>,
    number: u32,
    outer: Box<Sections>,
) -> Result<Sections, NoMemory>
    ensures { IfOk result (λ made. as_sections made
        ≡ machine.InLast (grammar.with_false guards.items number) (as_sections outer.value)) }
{
    let guards = with_false(guards, number)?;
    Ok(Sections::InLast { guards, outer })
}

/// The next part of the innermost group, where another part may come.
fn in_next_part(next: u32, sections: Sections) -> Result<Sections, NoMemory>
    ensures { IfOk result (λ made. as_sections made ≡ groups.in_next_part next (as_sections sections)) }
{
    match sections {
        Sections::InPart {
            guards,
            number,
            outer,
        } => in_part_behind(guards, number, outer, next),
        other => Ok(other),
    }
}

/// Its last part.
fn in_last_part(sections: Sections) -> Result<Sections, NoMemory>
    ensures { IfOk result (λ made. as_sections made ≡ groups.in_last_part (as_sections sections)) }
{
    match sections {
        Sections::InPart {
            guards,
            number,
            outer,
        } => in_last_behind(guards, number, outer),
        other => Ok(other),
    }
}

/// What is around it.
fn left_group(sections: Sections) -> Sections
    ensures { as_sections result ≡ groups.left_group (as_sections sections) }
{
    let outer = match sections {
        Sections::Outermost => return Sections::Outermost,
        Sections::InPart {
            guards: _guards,
            number: _number,
            outer,
        } => outer,
        Sections::InLast {
            guards: _guards,
            outer,
        } => outer,
    };
    Box::into_inner(outer)
}

/// The groups around what comes behind a sign.
pub fn groups_behind(alloc: Global, sections: Sections, sign: Sign) -> Result<Sections, NoMemory>
    ensures { IfOk result (λ made. as_sections made ≡ groups.groups_behind (as_sections sections) sign) }
{
    match sign {
        Sign::GroupIf(number) => in_group(alloc, number, sections),
        Sign::GroupElif(number) => in_next_part(number, sections),
        Sign::GroupElse => in_last_part(sections),
        Sign::GroupEnd => Ok(left_group(sections)),
        _ => Ok(sections),
    }
}

/// A section opens.
fn section_start(
    alloc: Global,
    number: u32,
    sections: Sections,
    declared: Vec<Declared>,
) -> Result<Option<ReadingState>, NoMemory>
    ensures { Moves result (machine.outside (as_sections sections) declared.items (signs.GroupIf number)) }
{
    let sections = in_group(alloc, number, sections)?;
    Ok(Some(ReadingState::Outside { sections, declared }))
}

/// The next part of a section, where another may come.
fn next_condition(
    next: u32,
    sections: Sections,
    declared: Vec<Declared>,
) -> Result<Option<ReadingState>, NoMemory>
    ensures { Moves result (machine.next_condition next (as_sections sections) declared.items) }
{
    match sections {
        Sections::InPart {
            guards,
            number,
            outer,
        } => {
            let sections = in_part_behind(guards, number, outer, next)?;
            Ok(Some(ReadingState::Outside { sections, declared }))
        }
        _other => Ok(None),
    }
}

/// The last part of a section, where another may come.
fn last_section(
    sections: Sections,
    declared: Vec<Declared>,
) -> Result<Option<ReadingState>, NoMemory>
    ensures { Moves result (machine.last_section (as_sections sections) declared.items) }
{
    match sections {
        Sections::InPart {
            guards,
            number,
            outer,
        } => {
            let sections = in_last_behind(guards, number, outer)?;
            Ok(Some(ReadingState::Outside { sections, declared }))
        }
        _other => Ok(None),
    }
}

/// The end of a section, where one is open.
fn section_end(sections: Sections, declared: Vec<Declared>) -> Option<ReadingState>
    ensures { option_map as_state result ≡ machine.section_end (as_sections sections) declared.items }
{
    match sections {
        Sections::Outermost => None,
        inner => {
            let sections = left_group(inner);
            Some(ReadingState::Outside { sections, declared })
        }
    }
}

/// Where a declaration may begin.
pub fn outside(
    alloc: Global,
    sections: Sections,
    declared: Vec<Declared>,
    sign: Sign,
) -> Result<Option<ReadingState>, NoMemory>
    ensures { Moves result (machine.outside (as_sections sections) declared.items sign) }
{
    match sign {
        Sign::Static => Ok(Some(ReadingState::AfterStatic { sections, declared })),
        Sign::Extern => Ok(Some(ReadingState::AfterExtern { sections, declared })),
        Sign::Const => Ok(Some(ReadingState::AfterConst { sections, declared })),
        Sign::Enum => Ok(Some(ReadingState::AfterEnum { sections, declared })),
        Sign::Define => Ok(Some(ReadingState::AfterDefine { sections, declared })),
        Sign::Void => Ok(Some(ReadingState::AfterVoidType { sections, declared })),
        Sign::GroupIf(number) => section_start(alloc, number, sections, declared),
        Sign::GroupElif(number) => next_condition(number, sections, declared),
        Sign::GroupElse => last_section(sections, declared),
        Sign::GroupEnd => Ok(section_end(sections, declared)),
        other => Ok(first_word(Leading::NoWord, sections, declared, other)),
    }
}

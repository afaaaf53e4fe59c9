//! Declarators behind their names.
#![tactic(auto)]

ghost use Rattle.std.specs.Prelude.{◌≡◌, IfOk, option_map};
ghost use Rattle.c_grammar.specs.Machine as machine;
ghost use Rattle.reading_states.specs.Signs.{IsUnsigned};
ghost use Rattle.reading_states.specs.Views.{as_qualifier, as_sections, as_state, Moves};

use crate::heads::declaring;
use crate::sections::guards_of;
use c_grammar::Sign;
use c_tree::{Declared, Guards, Op};
use fam_outer::NoMemory;
use reading_states::states::{ReadingState, Sections};
use reading_states::words::Qualifier;
use std::alloc::Global;

/// The greatest `int`.
const GREATEST: i64 = 2147483647;

/// The declarators with one more, under the guards of the groups around it.
pub fn with_declared(
    alloc: Global,
    sections: &Sections,
    declared: Vec<Declared>,
    name: u32,
    value: i64,
) -> Result<Vec<Declared>, NoMemory>
    ensures { IfOk result (λ made. made.items
        ≡ machine.with_declared (as_sections sections.now) declared.items name value) }
{
    let mut declared = declared;
    let guards = guards_of(alloc, sections)?;
    declared.push(Declared {
        target: name,
        value,
        guards: Guards::from_vec(guards),
    })?;
    Ok(declared)
}

/// Behind a comma, where the declarator before it has this value.
fn listed(kind: Qualifier, value: i64, sections: Sections, declared: Vec<Declared>) -> ReadingState
    ensures { as_state result ≡ machine.listed (as_qualifier kind) value (as_sections sections) declared.items }
{
    match kind {
        Qualifier::Unqualified | Qualifier::Constant => ReadingState::Declaring {
            kind,
            sections,
            declared,
        },
        Qualifier::Counted(_last) => ReadingState::Listing {
            last: value,
            sections,
            declared,
        },
    }
}

/// At the semicolon of variables or constants.
fn declaration_end(
    kind: Qualifier,
    sections: Sections,
    declared: Vec<Declared>,
) -> Option<ReadingState>
    ensures { option_map as_state result
        ≡ machine.declaration_end (as_qualifier kind) (as_sections sections) declared.items }
{
    match kind {
        Qualifier::Unqualified | Qualifier::Constant => {
            Some(ReadingState::Outside { sections, declared })
        }
        Qualifier::Counted(_last) => None,
    }
}

/// At the brace of an `enum`.
fn enumeration_end(
    kind: Qualifier,
    sections: Sections,
    declared: Vec<Declared>,
) -> Option<ReadingState>
    ensures { option_map as_state result
        ≡ machine.enumeration_end (as_qualifier kind) (as_sections sections) declared.items }
{
    match kind {
        Qualifier::Unqualified | Qualifier::Constant => None,
        Qualifier::Counted(_last) => Some(ReadingState::Enumerated { sections, declared }),
    }
}

/// Behind a declarator.
pub fn started(
    alloc: Global,
    kind: Qualifier,
    name: u32,
    value: i64,
    sections: Sections,
    declared: Vec<Declared>,
    sign: Sign,
) -> Result<Option<ReadingState>, NoMemory>
    ensures { Moves result (machine.started (as_qualifier kind) name value (as_sections sections) declared.items sign) }
{
    match sign {
        Sign::Comma => {
            let declared = with_declared(alloc, &sections, declared, name, value)?;
            Ok(Some(listed(kind, value, sections, declared)))
        }
        Sign::Semicolon => {
            let declared = with_declared(alloc, &sections, declared, name, value)?;
            Ok(declaration_end(kind, sections, declared))
        }
        Sign::RightBrace => {
            let declared = with_declared(alloc, &sections, declared, name, value)?;
            Ok(enumeration_end(kind, sections, declared))
        }
        _ => Ok(None),
    }
}

/// Behind a comma of an `enum`: another name, or its brace.
pub fn listing(
    last: i64,
    sections: Sections,
    declared: Vec<Declared>,
    sign: Sign,
) -> Option<ReadingState>
    ensures { option_map as_state result ≡ machine.listing last (as_sections sections) declared.items sign }
{
    match sign {
        Sign::RightBrace => Some(ReadingState::Enumerated { sections, declared }),
        other => declaring(Qualifier::Counted(last), sections, declared, other),
    }
}

/// Behind the name of a constant that is counted: it is one more than the last, and an `int`.
fn counts_on(
    alloc: Global,
    last: i64,
    name: u32,
    sections: Sections,
    declared: Vec<Declared>,
    sign: Sign,
) -> Result<Option<ReadingState>, NoMemory>
    ensures { Moves result (machine.counts_on last name (as_sections sections) declared.items sign) }
{
    if last < GREATEST {
        let kind = Qualifier::Counted(last);
        started(alloc, kind, name, last + 1, sections, declared, sign)
    } else {
        Ok(None)
    }
}

/// Behind a declared name without a value: a variable starts at 0, and a constant has one or is counted.
fn without_value(
    alloc: Global,
    kind: Qualifier,
    name: u32,
    sections: Sections,
    declared: Vec<Declared>,
    sign: Sign,
) -> Result<Option<ReadingState>, NoMemory>
    ensures { Moves result (machine.without_value (as_qualifier kind) name (as_sections sections) declared.items sign) }
{
    match kind {
        Qualifier::Unqualified => started(alloc, kind, name, 0, sections, declared, sign),
        Qualifier::Constant => Ok(None),
        Qualifier::Counted(last) => counts_on(alloc, last, name, sections, declared, sign),
    }
}

/// Behind a declared name.
pub fn is_bare(
    alloc: Global,
    kind: Qualifier,
    name: u32,
    sections: Sections,
    declared: Vec<Declared>,
    sign: Sign,
) -> Result<Option<ReadingState>, NoMemory>
    ensures { Moves result (machine.is_bare (as_qualifier kind) name (as_sections sections) declared.items sign) }
{
    match sign {
        Sign::Equals => Ok(Some(ReadingState::Starting {
            kind,
            name,
            sections,
            declared,
        })),
        _ => without_value(alloc, kind, name, sections, declared, sign),
    }
}

/// Behind the `=` of a declarator.
pub fn starting(
    kind: Qualifier,
    name: u32,
    sections: Sections,
    declared: Vec<Declared>,
    sign: Sign,
) -> Option<ReadingState>
    ensures { option_map as_state result
        ≡ machine.starting (as_qualifier kind) name (as_sections sections) declared.items sign }
{
    match sign {
        Sign::Number(value) => Some(ReadingState::Started {
            kind,
            name,
            value,
            sections,
            declared,
        }),
        Sign::Oper(Op::Sub) => Some(ReadingState::Negating {
            kind,
            name,
            sections,
            declared,
        }),
        _ => None,
    }
}

/// Behind the `-` of a start value.
pub fn negating(
    kind: Qualifier,
    name: u32,
    sections: Sections,
    declared: Vec<Declared>,
    sign: Sign,
) -> Option<ReadingState>
    requires { IsUnsigned sign }
    ensures { option_map as_state result
        ≡ machine.negating (as_qualifier kind) name (as_sections sections) declared.items sign }
{
    match sign {
        Sign::Number(value) => Some(ReadingState::Started {
            kind,
            name,
            value: -value,
            sections,
            declared,
        }),
        _ => None,
    }
}

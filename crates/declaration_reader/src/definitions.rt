//! Definitions of constants: a name, and a number that may be negative and may stand in parentheses.
#![tactic(auto)]

ghost use Rattle.std.specs.Prelude.{◌≡◌, Some, option_map};
ghost use Rattle.c_grammar.specs.Machine as machine;
ghost use Rattle.reading_states.specs.Signs.{IsUnsigned};
ghost use Rattle.reading_states.specs.Views.{as_sections, as_state, Moves};

use crate::declarations::with_declared;
use c_grammar::Sign;
use c_tree::{Declared, Op};
use fam_outer::NoMemory;
use reading_states::states::{ReadingState, Sections};
use std::alloc::Global;

/// Behind `#define`: its name.
pub fn after_define(sections: Sections, declared: Vec<Declared>, sign: Sign) -> Option<ReadingState>
    ensures { option_map as_state result ≡ machine.after_define (as_sections sections) declared.items sign }
{
    match sign {
        Sign::Name(name) => Some(ReadingState::Defining {
            name,
            sections,
            declared,
        }),
        _ => None,
    }
}

/// Behind a definition with this value.
fn defined_as(
    alloc: Global,
    name: u32,
    value: i64,
    sections: Sections,
    declared: Vec<Declared>,
) -> Result<Option<ReadingState>, NoMemory>
    ensures { Moves result (Some (machine.defined_as name value (as_sections sections) declared.items)) }
{
    let declared = with_declared(alloc, &sections, declared, name, value)?;
    Ok(Some(ReadingState::Outside { sections, declared }))
}

/// Behind the name of a definition.
pub fn defining(
    alloc: Global,
    name: u32,
    sections: Sections,
    declared: Vec<Declared>,
    sign: Sign,
) -> Result<Option<ReadingState>, NoMemory>
    ensures { Moves result (machine.defining name (as_sections sections) declared.items sign) }
{
    match sign {
        Sign::Number(value) => defined_as(alloc, name, value, sections, declared),
        Sign::Oper(Op::Sub) => Ok(Some(ReadingState::NegativeDefining {
            name,
            sections,
            declared,
        })),
        Sign::Open => Ok(Some(ReadingState::Enclosing {
            name,
            sections,
            declared,
        })),
        _ => Ok(None),
    }
}

/// Behind the `-` of a definition.
pub fn negative_defining(
    alloc: Global,
    name: u32,
    sections: Sections,
    declared: Vec<Declared>,
    sign: Sign,
) -> Result<Option<ReadingState>, NoMemory>
    requires { IsUnsigned sign }
    ensures { Moves result (machine.negative_defining name (as_sections sections) declared.items sign) }
{
    match sign {
        Sign::Number(value) => defined_as(alloc, name, -value, sections, declared),
        _ => Ok(None),
    }
}

/// Behind the opening parenthesis of a definition.
pub fn enclosing(
    name: u32,
    sections: Sections,
    declared: Vec<Declared>,
    sign: Sign,
) -> Option<ReadingState>
    ensures { option_map as_state result ≡ machine.enclosing name (as_sections sections) declared.items sign }
{
    match sign {
        Sign::Number(value) => Some(ReadingState::Enclosed {
            name,
            value,
            sections,
            declared,
        }),
        Sign::Oper(Op::Sub) => Some(ReadingState::NegativeEnclosing {
            name,
            sections,
            declared,
        }),
        _ => None,
    }
}

/// Behind a `-` in the parentheses of a definition.
pub fn negative_enclosing(
    name: u32,
    sections: Sections,
    declared: Vec<Declared>,
    sign: Sign,
) -> Option<ReadingState>
    requires { IsUnsigned sign }
    ensures { option_map as_state result
        ≡ machine.negative_enclosing name (as_sections sections) declared.items sign }
{
    match sign {
        Sign::Number(value) => Some(ReadingState::Enclosed {
            name,
            value: -value,
            sections,
            declared,
        }),
        _ => None,
    }
}

/// Behind the number in the parentheses of a definition.
pub fn enclosed(
    alloc: Global,
    name: u32,
    value: i64,
    sections: Sections,
    declared: Vec<Declared>,
    sign: Sign,
) -> Result<Option<ReadingState>, NoMemory>
    ensures { Moves result
        (machine.at_close (machine.defined_as name value (as_sections sections) declared.items) sign) }
{
    match sign {
        Sign::Close => defined_as(alloc, name, value, sections, declared),
        _ => Ok(None),
    }
}

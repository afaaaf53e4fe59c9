//! Static declarations in `main`.
#![tactic(auto)]

ghost use Rattle.std.specs.Prelude.{◌≡◌, option_map};
ghost use Rattle.c_grammar.specs.Grammar as grammar;
ghost use Rattle.c_grammar.specs.Machine as machine;
ghost use Rattle.reading_states.specs.Views.{as_qualifier, as_stack, as_state, as_static_part, as_words};

use crate::locals::in_list;
use c_grammar::Sign;
use c_tree::Op;
use reading_states::states::ReadingState;
use reading_states::unfinished::Stack;
use reading_states::words::{Qualifier, StaticPart, TypeWords, is_second_word};

/// `static`, where a statement may begin.
pub fn static_in(outer: Stack) -> Option<ReadingState>
    ensures { option_map as_state result
        ≡ machine.in_list (as_stack outer) (machine.InStatic machine.BehindStatic (as_stack outer)) }
{
    let outer = in_list(outer)?;
    Some(ReadingState::InStatic {
        part: StaticPart::BehindStatic,
        outer,
    })
}

/// The first word of the type.
fn static_word(kind: Qualifier, outer: Stack, sign: Sign) -> Option<ReadingState>
    ensures { option_map as_state result ≡ machine.static_word (as_qualifier kind) (as_stack outer) sign }
{
    let words = match sign {
        Sign::Int => TypeWords::OneInt,
        Sign::Int32 => TypeWords::WholeType,
        Sign::Signed => TypeWords::OneSigned,
        _ => return None,
    };
    Some(ReadingState::InStatic {
        part: StaticPart::BehindStaticType { kind, words },
        outer,
    })
}

/// Behind `static`: `const`, or the first word of the type.
fn behind_static_word(outer: Stack, sign: Sign) -> Option<ReadingState>
    ensures { option_map as_state result ≡ machine.behind_static_word (as_stack outer) sign }
{
    match sign {
        Sign::Const => Some(ReadingState::InStatic {
            part: StaticPart::BehindStaticConst,
            outer,
        }),
        _ => static_word(Qualifier::Unqualified, outer, sign),
    }
}

/// Where a declarator comes: its name.
fn static_name(kind: Qualifier, outer: Stack, sign: Sign) -> Option<ReadingState>
    ensures { option_map as_state result ≡ machine.static_name (as_qualifier kind) (as_stack outer) sign }
{
    match sign {
        Sign::Name(_) => Some(ReadingState::InStatic {
            part: StaticPart::BehindStaticName(kind),
            outer,
        }),
        _ => None,
    }
}

/// Behind a type without `const`: this word, or a name.
fn qualifying_static(outer: Stack, sign: Sign) -> Option<ReadingState>
    ensures { option_map as_state result
        ≡ machine.behind_static_type grammar.Unqualified (as_stack outer) sign }
{
    match sign {
        Sign::Const => Some(ReadingState::InStatic {
            part: StaticPart::BeforeStaticName(Qualifier::Constant),
            outer,
        }),
        other => static_name(Qualifier::Unqualified, outer, other),
    }
}

/// What follows the type.
fn behind_static_type(kind: Qualifier, outer: Stack, sign: Sign) -> Option<ReadingState>
    ensures { option_map as_state result
        ≡ machine.behind_static_type (as_qualifier kind) (as_stack outer) sign }
{
    match kind {
        Qualifier::Unqualified => qualifying_static(outer, sign),
        Qualifier::Constant | Qualifier::Counted(_) => static_name(kind, outer, sign),
    }
}

/// Another word of the type, or what follows it.
#[tactic(auto, using(crate::proofs::MoreWords::second_static_word, crate::proofs::MoreWords::no_second_static_word))]
fn static_type(kind: Qualifier, outer: Stack, sign: Sign, words: TypeWords) -> Option<ReadingState>
    ensures { option_map as_state result
        ≡ machine.static_type (as_qualifier kind) (as_stack outer) sign (as_words words) }
{
    if is_second_word(sign, words) {
        Some(ReadingState::InStatic {
            part: StaticPart::BehindStaticType {
                kind,
                words: TypeWords::WholeType,
            },
            outer,
        })
    } else {
        behind_static_type(kind, outer, sign)
    }
}

/// The end of a declarator.
fn static_end(kind: Qualifier, outer: Stack, sign: Sign) -> Option<ReadingState>
    ensures { option_map as_state result ≡ machine.static_end (as_qualifier kind) (as_stack outer) sign }
{
    match sign {
        Sign::Semicolon => Some(ReadingState::Ready { outer }),
        Sign::Comma => Some(ReadingState::InStatic {
            part: StaticPart::BeforeStaticName(kind),
            outer,
        }),
        _ => None,
    }
}

/// Behind a declared name without an initialiser: a variable starts at 0, and a constant has one.
fn static_bare(kind: Qualifier, outer: Stack, sign: Sign) -> Option<ReadingState>
    ensures { option_map as_state result ≡ machine.static_bare (as_qualifier kind) (as_stack outer) sign }
{
    match kind {
        Qualifier::Unqualified => static_end(kind, outer, sign),
        Qualifier::Constant | Qualifier::Counted(_) => None,
    }
}

/// Behind a declared name.
fn static_named(kind: Qualifier, outer: Stack, sign: Sign) -> Option<ReadingState>
    ensures { option_map as_state result ≡ machine.static_named (as_qualifier kind) (as_stack outer) sign }
{
    match sign {
        Sign::Equals => Some(ReadingState::InStatic {
            part: StaticPart::BehindStaticEquals(kind),
            outer,
        }),
        other => static_bare(kind, outer, other),
    }
}

/// Behind `=`: a number, or `-` before one.
fn static_value(kind: Qualifier, outer: Stack, sign: Sign) -> Option<ReadingState>
    ensures { option_map as_state result ≡ machine.static_value (as_qualifier kind) (as_stack outer) sign }
{
    let part = match sign {
        Sign::Number(_) => StaticPart::BehindStaticNumber(kind),
        Sign::Oper(Op::Sub) => StaticPart::BehindStaticMinus(kind),
        _ => return None,
    };
    Some(ReadingState::InStatic { part, outer })
}

/// Behind the `-` of a value: its number.
fn static_negative(kind: Qualifier, outer: Stack, sign: Sign) -> Option<ReadingState>
    ensures { option_map as_state result ≡ machine.static_negative (as_qualifier kind) (as_stack outer) sign }
{
    match sign {
        Sign::Number(_) => Some(ReadingState::InStatic {
            part: StaticPart::BehindStaticNumber(kind),
            outer,
        }),
        _ => None,
    }
}

/// What a sign leads to in a static declaration.
pub fn static_step(part: StaticPart, outer: Stack, sign: Sign) -> Option<ReadingState>
    ensures { option_map as_state result ≡ machine.static_step (as_static_part part) (as_stack outer) sign }
{
    match part {
        StaticPart::BehindStatic => behind_static_word(outer, sign),
        StaticPart::BehindStaticConst => static_word(Qualifier::Constant, outer, sign),
        StaticPart::BehindStaticType { kind, words } => static_type(kind, outer, sign, words),
        StaticPart::BeforeStaticName(kind) => static_name(kind, outer, sign),
        StaticPart::BehindStaticName(kind) => static_named(kind, outer, sign),
        StaticPart::BehindStaticEquals(kind) => static_value(kind, outer, sign),
        StaticPart::BehindStaticMinus(kind) => static_negative(kind, outer, sign),
        StaticPart::BehindStaticNumber(kind) => static_end(kind, outer, sign),
    }
}

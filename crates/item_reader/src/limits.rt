//! How much is open around an item, and whether that is too much.
#![tactic(auto)]

ghost use Rattle.std.specs.Prelude.{◌≡◌, ◌≤◌, [], ◌∷◌};
ghost use Rattle.c_tree.specs.Tree.{Code};
ghost use Rattle.c_grammar.specs.Machine as machine;
ghost use Rattle.c_grammar.specs.Deep as limits;
ghost use Rattle.item_reader.specs.Limits.{capped};
ghost use Rattle.reading_states.specs.Views.{as_parts, as_sections, as_stack, as_state, as_tailing};

use c_grammar::Sign;
use fam_outer::{MOST_NESTED, MOST_OPERATORS};
use reading_states::states::{ReadingState, Sections, Tailing};
use reading_states::unfinished::Stack;

/// How many statements and groups are around what comes.
#[tactic(auto, using(crate::proofs::Depths::links_length))]
fn depth(outer: &Stack) -> usize
    ensures { result ≡ capped (limits.depth (as_stack outer.now)) }
{
    match outer {
        Stack::Top { .. } => 0,
        Stack::Braces { outer, .. }
        | Stack::ThenOf { outer, .. }
        | Stack::ElseOf { outer, .. }
        | Stack::LoopOf { outer, .. }
        | Stack::DoOf { outer, .. } => depth(outer).saturating_add(1),
        Stack::Yes { links, outer, .. } | Stack::No { links, outer, .. } => depth(outer)
            .saturating_add(links.len())
            .saturating_add(1),
    }
}

/// How many are around what comes behind a statement that has ended: nothing is opened before the test of a `do`.
fn depth_behind(outer: &Stack) -> usize
    ensures { (statement : Code) → result
        ≡ capped (limits.onward_depth (machine.placed (as_stack outer.now) statement)) }
{
    match outer {
        Stack::ThenOf { outer, .. } | Stack::ElseOf { outer, .. } | Stack::LoopOf { outer, .. } => {
            depth_behind(outer)
        }
        Stack::DoOf { .. } => 0,
        _ => depth(outer),
    }
}

/// How many groups are around a declaration, where each condition so far counts.
fn section_depth(sections: &Sections) -> usize
    ensures { result ≡ capped (limits.section_depth (as_sections sections.now)) }
{
    match sections {
        Sections::Outermost => 0,
        Sections::InPart { guards, .. } => guards.len().saturating_add(1),
        Sections::InLast { guards, .. } => guards.len(),
    }
}

/// How many conditions a group behind `main` has so far.
fn conditions(part: &Tailing) -> usize
    ensures { limits.tail_depth (as_tailing part.now ∷ []) ≡ result }
{
    match part {
        Tailing::Another(numbers) | Tailing::Final(numbers) => numbers.len(),
    }
}

/// How many groups are around what comes behind `main`, where each condition so far counts.
fn tail_depth(parts: &[Tailing]) -> usize
    ensures { result ≡ capped (limits.tail_depth (as_parts parts.now)) }
{
    let mut total = 0usize;
    for part in parts {
        total = total.saturating_add(conditions(part));
    }
    total
}

/// How many statements and groups are around what comes.
fn around(state: &ReadingState) -> usize
    ensures { result ≡ capped (limits.around (as_state state.now)) }
{
    match state {
        ReadingState::Outside { sections, .. } => section_depth(sections),
        ReadingState::Ready { outer } => depth(outer),
        ReadingState::Ended { outer, .. } => depth_behind(outer),
        ReadingState::Over { parts, .. } => tail_depth(parts),
        _ => 0,
    }
}

/// Whether a sign opens a statement that holds others, or a part of a group.
fn opens_more(sign: Sign) -> bool
    ensures { result ≡ limits.opens_more sign }
{
    matches!(
        sign,
        Sign::If
            | Sign::While
            | Sign::For
            | Sign::Do
            | Sign::LeftBrace
            | Sign::GroupIf(_)
            | Sign::GroupElif(_)
    )
}

/// Whether a sign is an operator or an opening parenthesis.
fn is_operator(sign: Sign) -> bool
    ensures { result ≡ limits.is_operator sign }
{
    matches!(sign, Sign::Oper(_) | Sign::Bang | Sign::Open)
}

/// Whether what comes belongs to an expression. Behind the start of a `for` it may be the first of one, and the test of a `do`
/// begins with it.
fn in_expression(state: &ReadingState) -> bool
    ensures { result ≡ limits.in_expression (as_state state.now) }
{
    matches!(
        state,
        ReadingState::Wants { .. }
            | ReadingState::Has { .. }
            | ReadingState::TestComes { .. }
            | ReadingState::RedoComes { .. }
    )
}

/// How many operators and opening parentheses the expression has so far. The test of a `for` or of a `do` is one of its own.
fn so_far(state: &ReadingState, count: u32) -> u32
    ensures { result ≡ limits.so_far (as_state state.now) count }
{
    match state {
        ReadingState::TestComes { .. } | ReadingState::RedoComes { .. } => 0,
        _ => count,
    }
}

/// How many operators and opening parentheses the expression has with this sign.
pub(crate) fn counted(state: &ReadingState, sign: Sign, count: u32) -> u32
    requires { count ≤ 64 }
    ensures { result ≡ limits.counted (as_state state.now) sign count }
{
    if !in_expression(state) {
        0
    } else if is_operator(sign) {
        so_far(state, count) + 1
    } else {
        so_far(state, count)
    }
}

/// Whether too much is open at a sign that the state can take.
#[tactic(auto, using(crate::proofs::Depths::at_least))]
pub(crate) fn is_deep(state: &ReadingState, sign: Sign, count: u32) -> bool
    requires { count ≤ 64 }
    ensures { result ≡ limits.is_deep (as_state state.now) sign count }
{
    let is_nested = opens_more(sign) && around(state) >= MOST_NESTED;
    is_nested || counted(state, sign, count) > MOST_OPERATORS as u32
}

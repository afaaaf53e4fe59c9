//! Statements and groups that are open.
#![tactic(auto)]

ghost use Rattle.std.specs.Prelude.{◌≡◌, IfOk};
ghost use Rattle.c_tree.specs.Tree.{Done, While};
ghost use Rattle.c_tree.specs.View.{code, front, term};
ghost use Rattle.c_grammar.specs.Machine as machine;
ghost use Rattle.reading_states.specs.Views.{Moves, as_onward, as_stack, as_start, as_state};

use crate::lists::{block, if_else, if_then, loop_behind, only, with_statements};
use crate::states::ReadingState;
use crate::unfinished::{Onward, Stack, Start};
use c_tree::{Expr, Stmt};
use fam_outer::{NoMemory, Place};
use std::alloc::Global;

/// The statements are put into the list that is open.
fn folded_list(stack: Stack, statements: Vec<Stmt>) -> Result<Stack, NoMemory>
    ensures { IfOk result (λ made. as_stack made
        ≡ machine.folded (as_stack stack) (code statements.items)) }
{
    match stack {
        Stack::Top { declared, made } => {
            let made = with_statements(made, statements)?;
            Ok(Stack::Top { declared, made })
        }
        Stack::Braces { place, made, outer } => {
            let made = with_statements(made, statements)?;
            Ok(Stack::Braces { place, made, outer })
        }
        Stack::Yes {
            links,
            number,
            made,
            outer,
        } => {
            let made = with_statements(made, statements)?;
            Ok(Stack::Yes {
                links,
                number,
                made,
                outer,
            })
        }
        Stack::No {
            links,
            number,
            first,
            made,
            outer,
        } => {
            let made = with_statements(made, statements)?;
            Ok(Stack::No {
                links,
                number,
                first,
                made,
                outer,
            })
        }
        other => Ok(other),
    }
}

/// The statement of a declarator is put into the list that is open.
pub fn folded(alloc: Global, stack: Stack, statement: Stmt) -> Result<Stack, NoMemory>
    ensures { IfOk result (λ made. as_stack made ≡ machine.folded (as_stack stack) (front statement Done)) }
{
    let statements = only(alloc, statement)?;
    folded_list(stack, statements)
}

/// A loop, behind what stands before its first test.
fn started_by(
    alloc: Global,
    start: Start,
    place: Place,
    test: Expr,
    step: Vec<Stmt>,
    body: Vec<Stmt>,
) -> Result<Vec<Stmt>, NoMemory>
    ensures { IfOk result (λ made. code made.items ≡ machine.started_by (as_start start)
        (While place (term test) (code step.items) (code body.items) Done)) }
{
    match start {
        Start::ChangeStart { made } => loop_behind(made, place, test, step, body),
        Start::DeclaredStart { place: first, made } => {
            let statements = loop_behind(made, place, test, step, body)?;
            only(alloc, block(first, statements))
        }
    }
}

/// The statements are put where they belong, and no `else` comes.
fn placed_list(alloc: Global, stack: Stack, statements: Vec<Stmt>) -> Result<Onward, NoMemory>
    ensures { IfOk result (λ made. as_onward made
        ≡ machine.placed (as_stack stack) (code statements.items)) }
{
    match stack {
        Stack::ThenOf { place, test, outer } => {
            let statements = if_then(alloc, place, test, statements)?;
            placed_list(alloc, Box::into_inner(outer), statements)
        }
        Stack::ElseOf {
            place,
            test,
            first,
            outer,
        } => {
            let statements = if_else(alloc, place, test, first, statements)?;
            placed_list(alloc, Box::into_inner(outer), statements)
        }
        Stack::LoopOf {
            start,
            place,
            test,
            advance,
            outer,
        } => {
            let statements = started_by(alloc, start, place, test, advance, statements)?;
            placed_list(alloc, Box::into_inner(outer), statements)
        }
        Stack::DoOf { place, outer } => Ok(Onward::AtTest {
            place,
            body: statements,
            outer: Box::into_inner(outer),
        }),
        list => {
            let outer = folded_list(list, statements)?;
            Ok(Onward::InList { outer })
        }
    }
}

/// The statement is put where it belongs, and no `else` comes.
pub fn placed(alloc: Global, stack: Stack, statement: Stmt) -> Result<Onward, NoMemory>
    ensures { IfOk result (λ made. as_onward made ≡ machine.placed (as_stack stack) (front statement Done)) }
{
    let statements = only(alloc, statement)?;
    placed_list(alloc, stack, statements)
}

/// The side of an `if` behind `else` comes.
fn other_side(place: Place, test: Expr, first: Vec<Stmt>, outer: Box<Stack>) -> ReadingState
    ensures { as_state result ≡ machine.Ready
        (machine.ElseOf place (term test) (code first.items) (as_stack outer.value)) }
{
    ReadingState::Ready {
        outer: Stack::ElseOf {
            place,
            test,
            first,
            outer,
        },
    }
}

/// The nearest `if` that an `else` may belong to goes on with its other side, behind these statements.
fn else_of_list(
    alloc: Global,
    stack: Stack,
    statements: Vec<Stmt>,
) -> Result<Option<ReadingState>, NoMemory>
    ensures { Moves result (machine.else_of (as_stack stack) (code statements.items)) }
{
    match stack {
        Stack::Top { .. }
        | Stack::Braces { .. }
        | Stack::Yes { .. }
        | Stack::No { .. }
        | Stack::DoOf { .. } => Ok(None),
        Stack::ThenOf { place, test, outer } => {
            Ok(Some(other_side(place, test, statements, outer)))
        }
        Stack::ElseOf {
            place,
            test,
            first,
            outer,
        } => {
            let statements = if_else(alloc, place, test, first, statements)?;
            else_of_list(alloc, Box::into_inner(outer), statements)
        }
        Stack::LoopOf {
            start,
            place,
            test,
            advance,
            outer,
        } => {
            let statements = started_by(alloc, start, place, test, advance, statements)?;
            else_of_list(alloc, Box::into_inner(outer), statements)
        }
    }
}

/// The nearest `if` that an `else` may belong to goes on with its other side.
pub fn else_of(
    alloc: Global,
    stack: Stack,
    statement: Stmt,
) -> Result<Option<ReadingState>, NoMemory>
    ensures { Moves result (machine.else_of (as_stack stack) (front statement Done)) }
{
    let statements = only(alloc, statement)?;
    else_of_list(alloc, stack, statements)
}

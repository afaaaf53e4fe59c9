//! What an expression is for, once it is whole.
#![tactic(auto)]

ghost use Rattle.std.specs.Prelude.{◌≡◌, [], Some, option_map, IfOk};
ghost use Rattle.c_tree.specs.Tree.{Assert, Assign, Done};
ghost use Rattle.c_tree.specs.View.{term};
ghost use Rattle.c_grammar.specs.Machine as machine;
ghost use Rattle.reading_states.specs.Views.{Moves, as_purpose, as_scope, as_stack, as_state};

use crate::jumps::{redone, returned};
use c_tree::{Expr, Stmt};
use fam_outer::{NoMemory, Place};
use reading_states::changes::{assignment, closed_change, ended_change, updated};
use reading_states::scopes::{behind_declaration, with_declarator};
use reading_states::states::ReadingState;
use reading_states::unfinished::{Pending, Purpose, Scope, Site, Stack, Start};
use std::alloc::Global;

/// The name of a function, whose call is the whole expression.
#[tactic(auto, using(reading_states::proofs::Holding::holding))]
pub fn input_for(purpose: Purpose) -> Option<ReadingState>
    ensures { option_map as_state result ≡ machine.input_of [] (as_purpose purpose) }
{
    let pending = match purpose {
        Purpose::ToAssign {
            place,
            target,
            site,
        } => Pending::OfStatement {
            site,
            statement: Stmt::Input { place, target },
        },
        Purpose::ToInitialise {
            kind,
            place,
            target,
            scope,
        } => Pending::OfLocal {
            kind,
            scope,
            statement: Stmt::Input { place, target },
        },
        refused => {
            drop(refused);
            return None;
        }
    };
    Some(ReadingState::CallOpens { pending })
}

/// An assertion, whose semicolon comes.
fn asserted(place: Place, test: Expr, outer: Stack) -> ReadingState
    ensures { as_state result ≡ machine.Finishing (machine.OfStatement (machine.AsStatement (as_stack outer))
        (Assert place (term test) Done)) }
{
    let pending = Pending::OfStatement {
        site: Site::AsStatement { outer },
        statement: Stmt::Assert { place, test },
    };
    ReadingState::Finishing { pending }
}

/// The first side of an `if` with this test begins.
fn chosen(
    alloc: Global,
    place: Place,
    test: Expr,
    outer: Stack,
) -> Result<Option<ReadingState>, NoMemory>
    ensures { Moves result (Some (machine.Ready (machine.ThenOf place (term test) (as_stack outer)))) }
{
    let outer = Stack::ThenOf {
        place,
        test,
        outer: Box::new(alloc, outer)?,
    };
    Ok(Some(ReadingState::Ready { outer }))
}

/// The loop with this test and without a step begins.
fn looped(
    alloc: Global,
    place: Place,
    test: Expr,
    outer: Stack,
) -> Result<Option<ReadingState>, NoMemory>
    ensures { Moves result (Some (machine.Ready
        (machine.LoopOf (machine.ChangeStart Done) place (term test) Done (as_stack outer)))) }
{
    let made = Vec::new(alloc);
    let outer = Stack::LoopOf {
        start: Start::ChangeStart { made },
        place,
        test,
        advance: Vec::new(alloc),
        outer: Box::new(alloc, outer)?,
    };
    Ok(Some(ReadingState::Ready { outer }))
}

/// The expression before a closing parenthesis is whole.
pub fn tested(alloc: Global, purpose: Purpose, test: Expr) -> Result<Option<ReadingState>, NoMemory>
    ensures { Moves result (machine.tested (as_purpose purpose) (term test)) }
{
    match purpose {
        Purpose::ToAssign {
            place,
            target,
            site,
        } => closed_change(alloc, site, assignment(place, target, test)),
        Purpose::ToUpdate {
            place,
            target,
            update,
            site,
        } => match updated(alloc, place, target, update, test) {
            Ok(statement) => closed_change(alloc, site, statement),
            Err(memory) => {
                drop(site);
                Err(memory)
            }
        },
        Purpose::ToAssert { place, outer } => Ok(Some(asserted(place, test, outer))),
        Purpose::ToChoose { place, outer } => chosen(alloc, place, test, outer),
        Purpose::ToLoop { place, outer } => looped(alloc, place, test, outer),
        Purpose::ToRedo {
            place,
            body,
            test_place,
            outer,
        } => Ok(Some(redone(place, body, test_place, test, outer))),
        refused => {
            drop(refused);
            Ok(None)
        }
    }
}

/// What a declaration stands in, with a variable that is declared with this value.
fn with_local(
    alloc: Global,
    place: Place,
    target: u32,
    value: Expr,
    scope: Scope,
) -> Result<Scope, NoMemory>
    ensures { IfOk result (λ made. as_scope made
        ≡ machine.with_declarator (as_scope scope) (Assign place target (term value) Done)) }
{
    with_declarator(alloc, scope, assignment(place, target, value))
}

/// The expression before a semicolon is whole.
pub fn assigned(
    alloc: Global,
    purpose: Purpose,
    value: Expr,
) -> Result<Option<ReadingState>, NoMemory>
    ensures { Moves result (machine.assigned (as_purpose purpose) (term value)) }
{
    match purpose {
        Purpose::ToAssign {
            place,
            target,
            site,
        } => ended_change(alloc, site, assignment(place, target, value)),
        Purpose::ToInitialise {
            kind: _kind,
            place,
            target,
            scope,
        } => {
            let scope = with_local(alloc, place, target, value, scope)?;
            Ok(Some(behind_declaration(scope)))
        }
        Purpose::ToUpdate {
            place,
            target,
            update,
            site,
        } => match updated(alloc, place, target, update, value) {
            Ok(statement) => ended_change(alloc, site, statement),
            Err(memory) => {
                drop(site);
                Err(memory)
            }
        },
        Purpose::ToRepeat {
            start,
            place,
            outer,
        } => Ok(Some(ReadingState::StepComes {
            start,
            place,
            test: value,
            outer,
        })),
        Purpose::ToReturn { place, outer } => Ok(Some(returned(place, value, outer))),
        refused => {
            drop(refused);
            Ok(None)
        }
    }
}

/// The initialiser of a variable is whole, and another declarator comes.
pub fn initialised(
    alloc: Global,
    purpose: Purpose,
    value: Expr,
) -> Result<Option<ReadingState>, NoMemory>
    ensures { Moves result (machine.initialised (as_purpose purpose) (term value)) }
{
    match purpose {
        Purpose::ToInitialise {
            kind,
            place,
            target,
            scope,
        } => {
            let scope = with_local(alloc, place, target, value, scope)?;
            Ok(Some(ReadingState::NextLocal { kind, scope }))
        }
        refused => {
            drop(refused);
            Ok(None)
        }
    }
}

//! `do`, and the statements that leave a loop or `main`.
#![tactic(auto)]

ghost use Rattle.std.specs.Prelude.{◌≡◌, [], Some, option_map};
ghost use Rattle.c_tree.specs.Tree as tree;
ghost use Rattle.c_tree.specs.View.{code, jump_of, term};
ghost use Rattle.c_grammar.specs.Machine as machine;
ghost use Rattle.reading_states.specs.Views.{Moves, as_stack, as_state};

use crate::expressions::{expected, want};
use c_grammar::Sign;
use c_tree::{Expr, Jump, Stmt};
use fam_outer::{NoMemory, Place};
use reading_states::frames::no_frames;
use reading_states::lists::{do_while, leave};
use reading_states::states::ReadingState;
use reading_states::unfinished::{Pending, Purpose, Site, Stack};
use std::alloc::Global;

/// The body of a `do` comes.
pub fn do_in(alloc: Global, outer: Stack, place: Place) -> Result<Option<ReadingState>, NoMemory>
    ensures { Moves result (Some (machine.Ready (machine.DoOf place (as_stack outer)))) }
{
    let outer = Stack::DoOf {
        place,
        outer: Box::new(alloc, outer)?,
    };
    Ok(Some(ReadingState::Ready { outer }))
}

/// The test of a `do` comes: the sign is its first one, and its place is that of the test.
pub fn redo_comes(
    alloc: Global,
    place: Place,
    body: Vec<Stmt>,
    outer: Stack,
    test_place: Place,
    sign: Sign,
) -> Result<Option<ReadingState>, NoMemory>
    ensures { Moves result (machine.redo_comes place (code body.items) (as_stack outer) test_place sign) }
{
    let purpose = Purpose::ToRedo {
        place,
        body,
        test_place,
        outer,
    };
    want(no_frames(alloc), purpose, sign)
}

/// Behind the test of a `do`: its semicolon comes.
pub fn redone(
    place: Place,
    body: Vec<Stmt>,
    test_place: Place,
    test: Expr,
    outer: Stack,
) -> ReadingState
    ensures { as_state result ≡ machine.Finishing (machine.OfStatement (machine.AsStatement (as_stack outer))
        (tree.Do place (code body.items) test_place (term test) tree.Done)) }
{
    let pending = Pending::OfStatement {
        site: Site::AsStatement { outer },
        statement: do_while(place, body, test_place, test),
    };
    ReadingState::Finishing { pending }
}

/// Whether what comes stands in the body of a loop.
fn is_in_loop(outer: &Stack) -> bool
    ensures { result ≡ machine.is_in_loop (as_stack outer.now) }
{
    match outer {
        Stack::Top { .. } => false,
        Stack::Braces { outer, .. }
        | Stack::Yes { outer, .. }
        | Stack::No { outer, .. }
        | Stack::ThenOf { outer, .. }
        | Stack::ElseOf { outer, .. } => is_in_loop(outer),
        Stack::LoopOf { .. } | Stack::DoOf { .. } => true,
    }
}

/// A jump, whose semicolon comes. One out of the body of a loop stands in a loop.
pub fn leaving(outer: Stack, place: Place, jump: Jump) -> Option<ReadingState>
    ensures { option_map as_state result ≡ machine.leaving (machine.is_in_loop (as_stack outer)) (as_stack outer)
        (tree.Leave place (jump_of jump) tree.Done) }
{
    if is_in_loop(&outer) {
        let pending = Pending::OfStatement {
            site: Site::AsStatement { outer },
            statement: leave(place, jump),
        };
        Some(ReadingState::Finishing { pending })
    } else {
        None
    }
}

/// `return`: an expression comes.
pub fn return_in(alloc: Global, outer: Stack, place: Place) -> ReadingState
    ensures { as_state result ≡ machine.Wants [] (machine.ToReturn place (as_stack outer)) }
{
    expected(alloc, Purpose::ToReturn { place, outer })
}

/// Behind the semicolon of `return`.
pub fn returned(place: Place, value: Expr, outer: Stack) -> ReadingState
    ensures { as_state result ≡ machine.Ended (as_stack outer)
        (tree.Leave place (tree.Return (term value)) tree.Done) }
{
    ReadingState::Ended {
        outer,
        statement: leave(place, Jump::Return(value)),
    }
}

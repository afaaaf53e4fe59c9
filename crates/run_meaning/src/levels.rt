//! The loops that a run has entered.
#![tactic(auto)]

ghost use Rattle.std.specs.Prelude.{◌≡◌, ◌<◌, List, [], ◌∷◌, OnOk, OnErr, MatchOption, IfSome, vec_len};
ghost use Rattle.c_tree.specs.Tree.{Done, If, Break, Continue, followed};
ghost use Rattle.c_tree.specs.View.{term, code};
ghost use Rattle.c_tree.specs.Run as run;
ghost use Rattle.run_meaning.specs.View.{pile, below, nest, level_of, alone, standing};

use crate::heads::wrap_head;
use crate::machine::State;
use c_tree::{Expr, Stmt};
use fam_outer::{NoMemory, Place};
use std::alloc::Global;
use std::mem;

/// A loop that is entered: what is done when its body is over or goes on, with the last one first,
/// and how many statements of that, its step's and the loop itself, stand in front of what comes
/// behind the loop. A state has one for each loop around what is to do.
#[derive(Drop)]
pub(crate) struct Level {
    again: Vec<Stmt>,
    skipped: usize,
}

/// Goes up where the body of a loop is over, to the list that is done then. It takes no memory, and
/// at most as many turns as there are loops around.
pub(crate) fn settle(state: &mut State)
    ensures { standing state.new ≡ run.settled (standing state.old) }
{
    'over: while state.todo.is_empty() {
        let Some(level) = leave_level(&mut state.levels) else {
            return;
        };
        state.todo = level.again;
    }
}

/// Begins a round of a loop with its test first: the loop stays on the list, its step comes in
/// front of it, and the body is to do. The memory is taken first.
pub(crate) fn begin_round(
    state: &mut State,
    mut step: Vec<Stmt>,
    mut body: Vec<Stmt>,
) -> Result<(), NoMemory>
    ensures ok { OnOk result (standing state.new ≡ run.standing (code body.items)
        (record { again = followed (code step.items) (pile state.old.todo.items); out = below state.old.todo.items }
        ∷ nest state.old.levels.items) state.old.store.items state.old.taken) }
    ensures err { OnErr result (standing state.new ≡ standing state.old) }
{
    let skipped = step.len() + 1;
    state.levels.reserve(1)?;
    step.reverse();
    state.todo.append(&mut step)?;
    body.reverse();
    let again = mem::replace(&mut state.todo, body);
    state.levels.push(Level { again, skipped }).unwrap();
    Ok(())
}

/// Begins a round of a loop with its test last: the loop is wrapped in its test, without copying
/// it, and the body is to do. The memory is taken first.
pub(crate) fn begin_do_round(
    alloc: Global,
    state: &mut State,
    mut body: Vec<Stmt>,
    place: Place,
    test: Expr,
) -> Result<(), NoMemory>
    ensures ok { OnOk result (standing state.new ≡ run.standing (code body.items)
        (record {
          again = If place (term test) (alone (pile state.old.todo.items)) Done (below state.old.todo.items);
          out = below state.old.todo.items;
        } ∷ nest state.old.levels.items) state.old.store.items state.old.taken) }
    ensures err { OnErr result (standing state.new ≡ standing state.old) }
{
    state.levels.reserve(1)?;
    wrap_head(alloc, &mut state.todo, place, test)?;
    body.reverse();
    let again = mem::replace(&mut state.todo, body);
    state.levels.push(Level { again, skipped: 1 }).unwrap();
    Ok(())
}

/// What `break` does: the innermost loop is left, and what comes behind it is to do.
pub(crate) fn break_loop(state: &mut State)
    ensures { standing state.new ≡ run.left_by Break (standing state.old).levels state.old.store.items state.old.taken }
{
    match leave_level(&mut state.levels) {
        None => state.todo.clear(),
        Some(Level { mut again, skipped }) => {
            again.truncate(again.len().saturating_sub(skipped));
            state.todo = again;
        }
    }
}

/// What `continue` does: the innermost loop goes on.
pub(crate) fn continue_loop(state: &mut State)
    ensures { standing state.new ≡ run.left_by Continue (standing state.old).levels state.old.store.items state.old.taken }
{
    match leave_level(&mut state.levels) {
        None => state.todo.clear(),
        Some(Level { again, skipped: _ }) => state.todo = again,
    }
}

/// What `return` does once its value is computed: nothing is left to do.
pub(crate) fn finish(state: &mut State)
    ensures { standing state.new ≡ run.standing Done [] state.old.store.items state.old.taken }
{
    state.todo.clear();
    state.levels.clear();
}

/// The innermost loop, which is left.
fn leave_level(levels: &mut Vec<Level>) -> Option<Level>
    ensures level { MatchOption result ((nest levels.old.items ≡ []) × (nest levels.new.items ≡ []))
        (λ level. nest levels.old.items ≡ level_of level ∷ nest levels.new.items) }
    ensures fewer { IfSome result (λ _. vec_len levels.new < vec_len levels.old) }
{
    levels.pop()
}

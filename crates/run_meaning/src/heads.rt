//! Lists of statements that are done from their end.
#![tactic(auto)]

ghost use Rattle.std.specs.Prelude.{◌≡◌, ◌-◌, List, length, take, IfOk, OnOk, OnErr, MatchOption, vec_capacity};
ghost use Rattle.c_tree.specs.Tree.{Done, If};
ghost use Rattle.c_tree.specs.View.{term, front, code};
ghost use Rattle.run_meaning.specs.View.{pile, below, opened, alone, list_of};

use c_tree::{Expr, Stmt};
use fam_outer::{NoMemory, Place};
use std::alloc::Global;

/// The statement that comes first.
#[tactic(auto, using(crate::proofs::Stacks::head_is))]
pub(crate) fn head_of(todo: &Vec<Stmt>) -> Option<&Stmt>
    ensures { MatchOption result (pile todo.now.items ≡ Done)
        (λ s. pile todo.now.items ≡ front s.now (below todo.now.items)) }
{
    todo.last()
}

#[tactic(auto, unfolding(crate::specs::View::pile, crate::specs::View::below))]
pub(crate) fn drop_head(todo: &mut Vec<Stmt>)
    ensures { pile todo.new.items ≡ below todo.old.items }
{
    let _head = todo.pop();
}

/// Puts a list of the first statement in its place, without copying it: of an `if` its first side,
/// where its test holds, or the other, and of a block its body. The memory is taken first.
#[tactic(auto, unfolding(crate::specs::View::pile, crate::specs::View::below))]
pub(crate) fn open_head(alloc: Global, todo: &mut Vec<Stmt>, first: bool) -> Result<(), NoMemory>
    ensures ok { OnOk result (pile todo.new.items ≡ opened first (pile todo.old.items)) }
    ensures err { OnErr result (pile todo.new.items ≡ pile todo.old.items) }
{
    let room = match todo.last() {
        Some(head) => list_of(head, first).len(),
        None => 0,
    };
    todo.reserve(room)?;
    if let Some(head) = todo.pop() {
        let mut list = into_list(alloc, head, first);
        list.reverse();
        todo.append(&mut list).unwrap();
    }
    Ok(())
}

/// Puts the first statement into an `if`, without copying it. The memory is taken first.
pub(crate) fn wrap_head(
    alloc: Global,
    todo: &mut Vec<Stmt>,
    place: Place,
    test: Expr,
) -> Result<(), NoMemory>
    ensures ok { OnOk result (pile todo.new.items
        ≡ If place (term test) (alone (pile todo.old.items)) Done (below todo.old.items)) }
    ensures below { OnOk result (below todo.new.items ≡ below todo.old.items) }
    ensures err { OnErr result (pile todo.new.items ≡ pile todo.old.items) }
{
    todo.reserve(1)?;
    let yes = take_head(alloc, todo)?;
    todo.push(Stmt::If {
        place,
        test,
        yes,
        no: Vec::new(alloc),
    })
    .unwrap();
    Ok(())
}

/// The first statement, as a list of its own.
fn take_head(alloc: Global, todo: &mut Vec<Stmt>) -> Result<Vec<Stmt>, NoMemory>
    ensures head { IfOk result (λ head. code head.items ≡ alone (pile todo.old.items)) }
    ensures rest { OnOk result (todo.new.items ≡ take (length todo.old.items - 1) todo.old.items) }
    ensures err { OnErr result (todo.new.items ≡ todo.old.items) }
    ensures room { vec_capacity todo.new ≡ vec_capacity todo.old }
{
    let mut list = Vec::with_capacity(alloc, 1)?;
    if let Some(head) = todo.pop() {
        list.push(head).unwrap();
        return Ok(list);
    }
    Ok(list)
}

fn list_of(head: &Stmt, first: bool) -> &[Stmt]
    ensures { result.now ≡ list_of first head.now }
{
    match head {
        Stmt::If {
            place: _,
            test: _,
            yes,
            no,
        } => { if first { yes } else { no } }
        Stmt::Block { place: _, body } => body,
        Stmt::Assign { .. }
        | Stmt::Input { .. }
        | Stmt::Assert { .. }
        | Stmt::While { .. }
        | Stmt::Do { .. }
        | Stmt::Leave { .. }
        | Stmt::Skip { .. }
        | Stmt::Cond { .. } => &[],
    }
}

fn into_list(alloc: Global, head: Stmt, first: bool) -> Vec<Stmt>
    ensures { result.items ≡ list_of first head }
{
    match head {
        Stmt::If {
            place: _,
            test: _,
            yes,
            no,
        } => { if first { yes } else { no } }
        Stmt::Block { place: _, body } => body,
        Stmt::Assign { .. }
        | Stmt::Input { .. }
        | Stmt::Assert { .. }
        | Stmt::While { .. }
        | Stmt::Do { .. }
        | Stmt::Leave { .. }
        | Stmt::Skip { .. }
        | Stmt::Cond { .. } => Vec::new(alloc),
    }
}

//! Lists of statements, and the statements that are made of them.
#![tactic(auto, using(crate::proofs::Holding::holding))]

ghost use Rattle.std.specs.Prelude.{◌≡◌, IfOk};
ghost use Rattle.c_tree.specs.Tree.{Block, Cond, Do, Done, If, Leave, While, followed};
ghost use Rattle.c_tree.specs.View.{code, front, jump_of, term};

use c_tree::{Expr, Jump, Stmt};
use fam_outer::{NoMemory, Place};
use std::alloc::Global;

/// The list of one statement.
pub fn only(alloc: Global, statement: Stmt) -> Result<Vec<Stmt>, NoMemory>
    ensures { IfOk result (λ made. code made.items ≡ front statement Done) }
{
    let mut list = Vec::new(alloc);
    list.push(statement)?;
    Ok(list)
}

/// A list with more statements.
pub fn with_statements(mut list: Vec<Stmt>, mut more: Vec<Stmt>) -> Result<Vec<Stmt>, NoMemory>
    ensures { IfOk result (λ made. code made.items ≡ followed (code list.items) (code more.items)) }
{
    list.append(&mut more)?;
    Ok(list)
}

/// An `if` without `else`.
pub fn if_then(
    alloc: Global,
    place: Place,
    test: Expr,
    yes: Vec<Stmt>,
) -> Result<Vec<Stmt>, NoMemory>
    ensures { IfOk result (λ made. code made.items ≡ If place (term test) (code yes.items) Done Done) }
{
    if_else(alloc, place, test, yes, Vec::new(alloc))
}

/// An `if` with its `else`.
pub fn if_else(
    alloc: Global,
    place: Place,
    test: Expr,
    yes: Vec<Stmt>,
    no: Vec<Stmt>,
) -> Result<Vec<Stmt>, NoMemory>
    ensures { IfOk result (λ made. code made.items
        ≡ If place (term test) (code yes.items) (code no.items) Done) }
{
    let statement = Stmt::If {
        place,
        test,
        yes,
        no,
    };
    only(alloc, statement)
}

/// A loop, behind what stands before its first test.
pub fn loop_behind(
    mut start: Vec<Stmt>,
    place: Place,
    test: Expr,
    step: Vec<Stmt>,
    body: Vec<Stmt>,
) -> Result<Vec<Stmt>, NoMemory>
    ensures { IfOk result (λ made. code made.items ≡ followed (code start.items)
        (While place (term test) (code step.items) (code body.items) Done)) }
{
    start.push(Stmt::While {
        place,
        test,
        step,
        body,
    })?;
    Ok(start)
}

/// A loop that does its body before its first test.
pub fn do_while(place: Place, body: Vec<Stmt>, test_place: Place, test: Expr) -> Stmt
    ensures { front result Done ≡ Do place (code body.items) test_place (term test) Done }
{
    Stmt::Do {
        place,
        body,
        test_place,
        test,
    }
}

/// A jump.
pub fn leave(place: Place, jump: Jump) -> Stmt
    ensures { front result Done ≡ Leave place (jump_of jump) Done }
{
    Stmt::Leave { place, jump }
}

/// A block.
pub fn block(place: Place, body: Vec<Stmt>) -> Stmt
    ensures { front result Done ≡ Block place (code body.items) Done }
{
    Stmt::Block { place, body }
}

/// A section of groups.
pub fn choice(number: u32, yes: Vec<Stmt>, no: Vec<Stmt>) -> Stmt
    ensures { front result Done ≡ Cond number (code yes.items) (code no.items) Done }
{
    Stmt::Cond { number, yes, no }
}

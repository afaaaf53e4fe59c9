//! Changes of variables: the statements that they are, and what comes behind them.
#![tactic(auto)]

ghost use Rattle.std.specs.Prelude.{◌≡◌, IfOk};
ghost use Rattle.c_tree.specs.Tree.{Assign, Done};
ghost use Rattle.c_tree.specs.View.{front, term};
ghost use Rattle.c_grammar.specs.Grammar as grammar;
ghost use Rattle.c_grammar.specs.Machine as machine;
ghost use Rattle.reading_states.specs.Views.{Moves, as_count, as_site, as_update};

use crate::frames::binary;
use crate::lists::only;
use crate::states::ReadingState;
use crate::unfinished::{Site, Stack, Start};
use crate::words::{Count, Update};
use c_grammar::Sign;
use c_tree::{Expr, Op, Stmt};
use fam_outer::{NoMemory, Place};
use std::alloc::Global;

/// The statement that gives a variable the value of an expression.
pub fn assignment(place: Place, target: u32, value: Expr) -> Stmt
    ensures { front result Done ≡ Assign place target (term value) Done }
{
    Stmt::Assign {
        place,
        target,
        value,
    }
}

/// The statement that changes a variable by an expression.
pub fn updated(
    alloc: Global,
    place: Place,
    target: u32,
    update: Update,
    by: Expr,
) -> Result<Stmt, NoMemory>
    ensures { IfOk result (λ made. front made Done
        ≡ grammar.updated place target (as_update update) (term by)) }
{
    let op = match update {
        Update::Sum => Op::Add,
        Update::Difference => Op::Sub,
        Update::Product => Op::Mul,
        Update::Quotient => Op::Div,
        Update::Remainder => Op::Rem,
    };
    let value = binary(alloc, op, Expr::Var(target), by)?;
    Ok(Stmt::Assign {
        place,
        target,
        value,
    })
}

/// The step by one of `++` or `--`.
fn by_one(count: Count) -> Update
    ensures { as_update result ≡ grammar.by_one (as_count count) }
{
    match count {
        Count::Raise => Update::Sum,
        Count::Lower => Update::Difference,
    }
}

/// The statement that `++` or `--` is, behind or before a name.
pub fn changed_by_one(
    alloc: Global,
    place: Place,
    target: u32,
    count: Count,
) -> Result<Stmt, NoMemory>
    ensures { IfOk result (λ made. front made Done
        ≡ grammar.changed_by_one place target (as_count count)) }
{
    updated(alloc, place, target, by_one(count), Expr::Number(1))
}

/// Behind the semicolon of a change.
pub fn ended_change(
    alloc: Global,
    site: Site,
    statement: Stmt,
) -> Result<Option<ReadingState>, NoMemory>
    ensures { Moves result (machine.ended_change (as_site site) (front statement Done)) }
{
    match site {
        Site::AsStatement { outer } => Ok(Some(ReadingState::Ended { outer, statement })),
        Site::AsStart { outer } => {
            let made = only(alloc, statement)?;
            Ok(Some(ReadingState::TestComes {
                start: Start::ChangeStart { made },
                outer,
            }))
        }
        Site::AsStep { .. } => Ok(None),
    }
}

/// Behind a closing parenthesis at the end of a change: the body of a `for` comes.
pub fn closed_change(
    alloc: Global,
    site: Site,
    statement: Stmt,
) -> Result<Option<ReadingState>, NoMemory>
    ensures { Moves result (machine.closed_change (as_site site) (front statement Done)) }
{
    match site {
        Site::AsStep {
            start,
            place,
            test,
            outer,
        } => {
            let outer = Stack::LoopOf {
                start,
                place,
                test,
                advance: only(alloc, statement)?,
                outer: Box::new(alloc, outer)?,
            };
            Ok(Some(ReadingState::Ready { outer }))
        }
        Site::AsStatement { .. } | Site::AsStart { .. } => Ok(None),
    }
}

/// What a sign leads to behind a change.
pub fn finished_change(
    alloc: Global,
    site: Site,
    statement: Stmt,
    sign: Sign,
) -> Result<Option<ReadingState>, NoMemory>
    ensures { Moves result (machine.finishing (machine.OfStatement (as_site site) (front statement Done)) sign) }
{
    match sign {
        Sign::Semicolon => ended_change(alloc, site, statement),
        Sign::Close => closed_change(alloc, site, statement),
        _ => Ok(None),
    }
}

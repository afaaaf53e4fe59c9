//! The walk over a program that keeps the candidates nearest to zero.
#![tactic(auto)]

ghost use Rattle.std.specs.Prelude.{◌≡◌, [], ◌∷◌, OnOk};
ghost use Rattle.std.specs.List.{filter};
ghost use Rattle.c_tree.specs.Tree.{Done};
ghost use Rattle.c_tree.specs.View.{term, jump_of, front, code};
ghost use Rattle.loop_thresholds.specs.Numbers.{numbers_of_term, numbers_of_jump, numbers_of};
ghost use Rattle.loop_thresholds.specs.Thresholds.{is_int, candidates};
ghost use Rattle.loop_thresholds.specs.Keeping.{keep_all, keep_near};

use crate::insertion::{Order, insert};
use c_tree::{Expr, Jump, Stmt};
use fam_outer::NoMemory;

/// How many numbers are kept.
const MOST: usize = 64;

#[tactic(auto, unfolding(crate::specs::Thresholds::is_int))]
fn is_int(number: i64) -> bool
    ensures { result ≡ is_int number }
{
    -2147483648 <= number && number <= 2147483647
}

/// Keeps the number if it is one of `int` and among the nearest to zero.
fn keep(number: i64, kept: &mut Vec<i64>) -> Result<(), NoMemory>
    ensures { OnOk result (kept.new.items ≡ keep_all kept.old.items (filter is_int (number ∷ []))) }
{
    if is_int(number) {
        insert(Order::Nearness, kept, number)?;
        kept.truncate(MOST);
    }
    Ok(())
}

/// Keeps the candidates of the number. Only numbers beyond `int` saturate, and these have no candidates.
pub(crate) fn keep_candidates(number: i64, kept: &mut Vec<i64>) -> Result<(), NoMemory>
    ensures { OnOk result (kept.new.items ≡ keep_all kept.old.items (candidates number)) }
{
    keep(number.saturating_sub(1), kept)?;
    keep(number, kept)?;
    keep(number.saturating_add(1), kept)
}

/// Keeps the candidates of an expression's numbers.
#[tactic(auto, using(crate::proofs::Kept::keeps))]
fn keep_term(expr: &Expr, kept: &mut Vec<i64>) -> Result<(), NoMemory>
    ensures { OnOk result (kept.new.items ≡ keep_near kept.old.items (numbers_of_term (term expr.now))) }
{
    match expr {
        Expr::Number(number) => keep_candidates(*number, kept),
        Expr::Var(_) => Ok(()),
        Expr::Neg(inner) => match &**inner {
            Expr::Number(number) => keep_candidates(number.saturating_neg(), kept),
            other => keep_term(other, kept),
        },
        Expr::Not(inner) => keep_term(inner, kept),
        Expr::Binary(_, left, right) => {
            keep_term(left, kept)?;
            keep_term(right, kept)
        }
    }
}

/// Keeps the candidates of the numbers of a jump.
#[tactic(auto, using(crate::proofs::Kept::keeps))]
fn keep_jump(jump: &Jump, kept: &mut Vec<i64>) -> Result<(), NoMemory>
    ensures { OnOk result (kept.new.items ≡ keep_near kept.old.items (numbers_of_jump (jump_of jump.now))) }
{
    match jump {
        Jump::Break => Ok(()),
        Jump::Continue => Ok(()),
        Jump::Return(value) => keep_term(value, kept),
    }
}

/// Keeps the candidates of the numbers of a list of statements.
#[cycle(walk)]
#[tactic(auto, using(crate::proofs::Kept::keeps))]
pub(crate) fn keep_list(list: &[Stmt], kept: &mut Vec<i64>) -> Result<(), NoMemory>
    ensures { OnOk result (kept.new.items ≡ keep_near kept.old.items (numbers_of (code list.now))) }
{
    for s in list {
        keep_stmt(s, kept)?;
    }
    Ok(())
}

#[cycle(walk)]
#[tactic(auto, using(crate::proofs::Kept::keeps))]
fn keep_stmt(s: &Stmt, kept: &mut Vec<i64>) -> Result<(), NoMemory>
    ensures { OnOk result (kept.new.items ≡ keep_near kept.old.items (numbers_of (front s.now Done))) }
{
    match s {
        Stmt::Assign { value, .. } => keep_term(value, kept),
        Stmt::Input { .. } => Ok(()),
        Stmt::Skip { .. } => Ok(()),
        Stmt::Assert { test, .. } => keep_term(test, kept),
        Stmt::If { test, yes, no, .. } => {
            keep_term(test, kept)?;
            keep_list(yes, kept)?;
            keep_list(no, kept)
        }
        Stmt::While {
            test,
            step,
            body,
            ..
        } => {
            keep_term(test, kept)?;
            keep_list(step, kept)?;
            keep_list(body, kept)
        }
        Stmt::Do { body, test, .. } => {
            keep_list(body, kept)?;
            keep_term(test, kept)
        }
        Stmt::Leave { jump, .. } => keep_jump(jump, kept),
        Stmt::Block { body, .. } => keep_list(body, kept),
        Stmt::Cond { yes, no, .. } => {
            keep_list(yes, kept)?;
            keep_list(no, kept)
        }
    }
}

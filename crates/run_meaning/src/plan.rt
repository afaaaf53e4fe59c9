//! What is to be done for a statement, with the memory that it takes.
#![tactic(auto)]

ghost use Rattle.std.specs.Prelude.{◌≡◌, List, ℕ, ℤ, ◌-◌, ◌<◌, length, slice_get, IfOk, IfSome};
ghost use Rattle.std.specs.List.{All};
ghost use Rattle.c_tree.specs.Tree.{Code, Done, Assign, Input, Assert, If, While};
ghost use Rattle.c_tree.specs.View.{term, front, code, jump_of};
ghost use Rattle.c_tree.specs.Value.{IsInt};
ghost use Rattle.c_tree.specs.Fit.{IsTermOf, IsCodeOf, IsJumpOf, IsPlain};
ghost use Rattle.c_tree.specs.Run.{Level, step_of, leave_of};
ghost use Rattle.run_meaning.specs.View.{performed, IsWithin};

use crate::evaluation::value;
use c_tree::{Expr, Jump, Kind, Mode, Stmt, copy_expr, copy_list};
use fam_outer::{NoMemory, Place};
use std::alloc::Global;

/// What is to be done for the first statement.
#[derive(Drop)]
pub(crate) enum Plan {
    Move(Change),
    Stop(Place, Kind),
    Wait(Place),
}

/// How a step changes a state, with the copies that it needs. `Open` puts a list of the statement in
/// its place: of an `if` the side where its test holds, or the other, and of a block its body. `Round`
/// begins a round of a loop with its test first, by its step and its body, and `DoRound` one of a
/// loop with its test last, by its body and its test.
#[derive(Drop)]
pub(crate) enum Change {
    Set(u32, i64),
    Take(u32, i64),
    Pass,
    Open(bool),
    Round(Vec<Stmt>, Vec<Stmt>),
    DoRound(Vec<Stmt>, Place, Expr),
    Break,
    Continue,
    Finish,
}

/// The plan for a statement. The memory of all copies is taken here.
pub(crate) fn plan_for(
    alloc: Global,
    head: &Stmt,
    store: &[i64],
    taken: u64,
    inputs: &[i64],
    mode: Mode,
) -> Result<Plan, NoMemory>
    requires names { IsCodeOf (length store.now) (front head.now Done) }
    requires plain { IsPlain (front head.now Done) }
    requires ints { All IsInt store.now }
    ensures target { IfOk result (IsWithin (length store.now) (length inputs.now - taken)) }
    ensures does { IfOk result (λ plan. (rest : Code) (levels : List Level)
        → step_of mode inputs.now (front head.now rest) levels store.now taken
        ≡ performed plan rest (front head.now rest) levels store.now taken) }
{
    match head {
        Stmt::Assign {
            place,
            target,
            value: e,
        } => Ok(plan_to_set(*place, *target, e, store, mode)),
        Stmt::Input { place, target } => Ok(plan_to_take(*place, *target, inputs, taken)),
        Stmt::Assert { place, test } => Ok(plan_to_assert(*place, test, store, mode)),
        Stmt::If {
            place,
            test,
            yes: _,
            no: _,
        } => Ok(plan_to_choose(*place, test, store, mode)),
        Stmt::While {
            place,
            test,
            step,
            body,
        } => {
            let plan = plan_for_round(alloc, *place, test, step, body, store, mode)?;
            Ok(plan)
        }
        Stmt::Do {
            place: _,
            body,
            test_place,
            test,
        } => {
            let body = copy_list(alloc, body)?;
            let test = copy_expr(alloc, test)?;
            Ok(Plan::Move(Change::DoRound(body, *test_place, test)))
        }
        Stmt::Leave { place, jump } => Ok(plan_to_leave(*place, jump, store, mode)),
        Stmt::Block { place: _, body: _ } => Ok(Plan::Move(Change::Open(true))),
        Stmt::Skip { place: _ } => Ok(Plan::Move(Change::Pass)),
        Stmt::Cond { .. } => unreachable!(),
    }
}

fn plan_to_set(place: Place, target: u32, e: &Expr, store: &[i64], mode: Mode) -> Plan
    requires target { target < length store.now }
    requires names { IsTermOf (length store.now) (term e.now) }
    requires ints { All IsInt store.now }
    ensures target { (left : ℕ) → IsWithin (length store.now) left result }
    ensures does { (inputs : List ℤ) (rest all : Code) (levels : List Level) (taken : ℕ)
        → step_of mode inputs (Assign place target (term e.now) rest) levels store.now taken
        ≡ performed result rest all levels store.now taken }
{
    match value(e, store, mode) {
        Ok(n) => Plan::Move(Change::Set(target, n)),
        Err(kind) => Plan::Stop(place, kind),
    }
}

fn plan_to_take(place: Place, target: u32, inputs: &[i64], taken: u64) -> Plan
    ensures target { (count : ℕ) → target < count → IsWithin count (length inputs.now - taken) result }
    ensures does { (mode : Mode) (rest all : Code) (levels : List Level) (store : List ℤ)
        → step_of mode inputs.now (Input place target rest) levels store taken
        ≡ performed result rest all levels store taken }
{
    match input_at(inputs, taken) {
        Some(n) => Plan::Move(Change::Take(target, n)),
        None => Plan::Wait(place),
    }
}

fn plan_to_assert(place: Place, test: &Expr, store: &[i64], mode: Mode) -> Plan
    requires names { IsTermOf (length store.now) (term test.now) }
    requires ints { All IsInt store.now }
    ensures target { (left : ℕ) → IsWithin (length store.now) left result }
    ensures does { (inputs : List ℤ) (rest all : Code) (levels : List Level) (taken : ℕ)
        → step_of mode inputs (Assert place (term test.now) rest) levels store.now taken
        ≡ performed result rest all levels store.now taken }
{
    match value(test, store, mode) {
        Ok(n) => {
            if n == 0 {
                Plan::Stop(place, Kind::Assertion)
            } else {
                Plan::Move(Change::Pass)
            }
        }
        Err(kind) => Plan::Stop(place, kind),
    }
}

/// The plan for an `if`, whatever its sides.
fn plan_to_choose(place: Place, test: &Expr, store: &[i64], mode: Mode) -> Plan
    requires names { IsTermOf (length store.now) (term test.now) }
    requires ints { All IsInt store.now }
    ensures target { (left : ℕ) → IsWithin (length store.now) left result }
    ensures does { (inputs : List ℤ) (p q rest : Code) (levels : List Level) (taken : ℕ)
        → step_of mode inputs (If place (term test.now) p q rest) levels store.now taken
        ≡ performed result rest (If place (term test.now) p q rest) levels store.now taken }
{
    match value(test, store, mode) {
        Ok(n) => {
            if n == 0 {
                Plan::Move(Change::Open(false))
            } else {
                Plan::Move(Change::Open(true))
            }
        }
        Err(kind) => Plan::Stop(place, kind),
    }
}

/// The plan for a loop with its test first, with a copy of its step and its body.
fn plan_for_round(
    alloc: Global,
    place: Place,
    test: &Expr,
    step: &[Stmt],
    body: &[Stmt],
    store: &[i64],
    mode: Mode,
) -> Result<Plan, NoMemory>
    requires names { IsTermOf (length store.now) (term test.now) }
    requires ints { All IsInt store.now }
    ensures target { IfOk result (λ plan. (left : ℕ) → IsWithin (length store.now) left plan) }
    ensures does { IfOk result (λ plan. (inputs : List ℤ) (rest : Code) (levels : List Level) (taken : ℕ)
        → step_of mode inputs (While place (term test.now) (code step.now) (code body.now) rest) levels store.now taken
        ≡ performed plan rest (While place (term test.now) (code step.now) (code body.now) rest) levels store.now taken) }
{
    match value(test, store, mode) {
        Ok(n) => {
            if n == 0 {
                Ok(Plan::Move(Change::Pass))
            } else {
                let step = copy_list(alloc, step)?;
                let body = copy_list(alloc, body)?;
                Ok(Plan::Move(Change::Round(step, body)))
            }
        }
        Err(kind) => Ok(Plan::Stop(place, kind)),
    }
}

/// The plan for a jump.
fn plan_to_leave(place: Place, jump: &Jump, store: &[i64], mode: Mode) -> Plan
    requires names { IsJumpOf (length store.now) (jump_of jump.now) }
    requires ints { All IsInt store.now }
    ensures target { (left : ℕ) → IsWithin (length store.now) left result }
    ensures does { (rest all : Code) (levels : List Level) (taken : ℕ)
        → leave_of mode place (jump_of jump.now) levels store.now taken
        ≡ performed result rest all levels store.now taken }
{
    match jump {
        Jump::Break => Plan::Move(Change::Break),
        Jump::Continue => Plan::Move(Change::Continue),
        Jump::Return(e) => match value(e, store, mode) {
            Ok(_) => Plan::Move(Change::Finish),
            Err(kind) => Plan::Stop(place, kind),
        },
    }
}

fn input_at(inputs: &[i64], taken: u64) -> Option<i64>
    ensures value { result ≡ slice_get inputs.now taken }
    ensures there { IfSome result (λ _. taken < length inputs.now) }
{
    inputs.get(taken as usize).copied()
}

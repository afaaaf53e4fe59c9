//! Single steps of a run, with ample memory; whole runs are compared where the program prints them.

ghost use Rattle.std.specs.Prelude.{◌≡◌, IfOk, [], ◌∷◌, pos};
ghost use Rattle.c_tree.specs.Tree.{Binary, Var, Number};
ghost use Rattle.c_tree.specs.View.{term, jump_of, whole};
ghost use Rattle.c_tree.specs.Fit.{IsJumpOf};
ghost use Rattle.c_tree.specs.Whole.{IsSmallJump, IsProgram, IsPlainProgram};
ghost use Rattle.c_tree.specs.declared.tree.Op.TheVariants as op;

use c_tree::{Declarations, Expr, Jump, Kind, Mode, Names, Op, Program, Stmt};
use fam_outer::{NoMemory, Place, Text, Values};
use run_meaning::{Progress, RunEnd, begin, run, step};
use std::alloc::Global;
use std::test::Fail;

fn at(line: u32, column: u32) -> Place
    ensures { result ≡ record { line = line; column = column } }
{
    Place { line, column }
}

/// `x / 0`.
fn quotient(alloc: Global) -> Result<Expr, NoMemory>
    ensures { IfOk result (λ e. term e ≡ Binary op.Div (Var 0) (Number (pos 0))) }
{
    let x = Box::new(alloc, Expr::Var(0))?;
    Ok(Expr::Binary(Op::Div, x, Box::new(alloc, Expr::Number(0))?))
}

fn names(alloc: Global) -> Result<Names, NoMemory>
    ensures { IfOk result (λ made. made ≡ (120 ∷ []) ∷ []) }
{
    let mut list = Vec::new(alloc);
    list.push(Text::from_bytes(alloc, b"x")?)?;
    Ok(Names::from_vec(list))
}

fn starts(alloc: Global) -> Result<Values, NoMemory>
    ensures { IfOk result (λ made. made ≡ pos 7 ∷ []) }
{
    let mut list = Vec::new(alloc);
    list.push(7)?;
    Ok(Values::from_vec(list))
}

/// `x = input();` in line 3, and `x = x / 0;` in line 4, from 7.
fn dividing(alloc: Global) -> Result<Program, NoMemory>
    ensures program { IfOk result (λ p. IsProgram (whole p)) }
    ensures plain { IfOk result (λ p. IsPlainProgram (whole p)) }
{
    let names = names(alloc)?;
    let start = starts(alloc)?;
    let mut body = Vec::new(alloc);
    body.push(Stmt::Input {
        place: at(3, 1),
        target: 0,
    })?;
    body.push(Stmt::Assign {
        place: at(4, 1),
        target: 0,
        value: quotient(alloc)?,
    })?;
    Ok(Program {
        names,
        start,
        declared: Declarations::from_vec(Vec::new(alloc)),
        body,
        end: at(5, 1),
    })
}

// a step that waits or stops leaves the state as it is, so that the next one answers the same
#[test]
fn a_step_moves_or_leaves_the_state(rt: HostRuntime) -> Result<(), Fail> {
    let alloc = rt.alloc();
    let program = dividing(alloc)?;
    let mut state = begin(alloc, &program)?;
    let waiting = step(alloc, &mut state, &[], Mode::Stop)?;
    assert_eq!(rt; waiting, Progress::Waiting(at(3, 1)));
    let moved = step(alloc, &mut state, &[-5], Mode::Stop)?;
    assert_eq!(rt; moved, Progress::Moved);
    let stopped = Progress::Stopped(at(4, 1), Kind::ZeroDivisor);
    assert_eq!(rt; step(alloc, &mut state, &[], Mode::Wrap)?, stopped);
    assert_eq!(rt; step(alloc, &mut state, &[], Mode::Stop)?, stopped);
    Ok(())
}

#[test]
fn a_run_waits_with_its_values(rt: HostRuntime) -> Result<(), Fail> {
    let alloc = rt.alloc();
    let program = dividing(alloc)?;
    match run(alloc, &program, &[], 9, Mode::Stop)? {
        RunEnd::Waiting(place, store) => {
            assert_eq!(rt; place, at(3, 1));
            assert_eq!(rt; store.items(), [7].as_slice());
        }
        end => assert!(rt; false, "{end:?}"),
    }
    Ok(())
}

/// `do` in line 3, a jump in line 4, `while (x / 0);` in line 5, and `return x / 0;` in line 6, from 7.
fn jumping(alloc: Global, jump: Jump) -> Result<Program, NoMemory>
    requires names { IsJumpOf 1 (jump_of jump) }
    requires small { IsSmallJump (jump_of jump) }
    ensures program { IfOk result (λ p. IsProgram (whole p)) }
    ensures plain { IfOk result (λ p. IsPlainProgram (whole p)) }
{
    let names = names(alloc)?;
    let start = starts(alloc)?;
    let mut inner = Vec::new(alloc);
    inner.push(Stmt::Leave {
        place: at(4, 5),
        jump,
    })?;
    let mut body = Vec::new(alloc);
    body.push(Stmt::Do {
        place: at(3, 1),
        body: inner,
        test_place: at(5, 10),
        test: quotient(alloc)?,
    })?;
    body.push(Stmt::Leave {
        place: at(6, 1),
        jump: Jump::Return(quotient(alloc)?),
    })?;
    Ok(Program {
        names,
        start,
        declared: Declarations::from_vec(Vec::new(alloc)),
        body,
        end: at(7, 1),
    })
}

// `continue` leads to the test, which comes behind the body
#[test]
fn a_continue_leads_to_the_test(rt: HostRuntime) -> Result<(), Fail> {
    let alloc = rt.alloc();
    let program = jumping(alloc, Jump::Continue)?;
    match run(alloc, &program, &[], 2, Mode::Stop)? {
        RunEnd::At(place, _) => assert_eq!(rt; place, at(5, 10)),
        end => assert!(rt; false, "{end:?}"),
    }
    match run(alloc, &program, &[], 3, Mode::Stop)? {
        RunEnd::Stopped(place, kind) => {
            assert_eq!(rt; place, at(5, 10));
            assert_eq!(rt; kind, Kind::ZeroDivisor);
        }
        end => assert!(rt; false, "{end:?}"),
    }
    Ok(())
}

// `break` leads behind the loop, where the value of `return` is computed
#[test]
fn a_break_leads_behind_the_loop(rt: HostRuntime) -> Result<(), Fail> {
    let alloc = rt.alloc();
    let program = jumping(alloc, Jump::Break)?;
    match run(alloc, &program, &[], 9, Mode::Stop)? {
        RunEnd::Stopped(place, _) => assert_eq!(rt; place, at(6, 1)),
        end => assert!(rt; false, "{end:?}"),
    }
    Ok(())
}

// `return` in a loop ends the program
#[test]
fn a_return_ends_the_program(rt: HostRuntime) -> Result<(), Fail> {
    let alloc = rt.alloc();
    let program = jumping(alloc, Jump::Return(Expr::Number(0)))?;
    match run(alloc, &program, &[], 9, Mode::Stop)? {
        RunEnd::Ended(store) => assert_eq!(rt; store.items(), [7].as_slice()),
        end => assert!(rt; false, "{end:?}"),
    }
    Ok(())
}

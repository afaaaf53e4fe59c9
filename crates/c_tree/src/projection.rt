//! The program of one choice of truths.
#![tactic(auto)]

ghost use Rattle.std.specs.Prelude.{◌≡◌, length, slice_index_or, slice_set, false, IfOk, OnOk, if◌then◌else◌};
ghost use Rattle.c_tree.specs.Tree.{Done, followed};
ghost use Rattle.c_tree.specs.View.{front, code, whole};
ghost use Rattle.c_tree.specs.Whole.{IsProgram, IsPlainProgram};
ghost use Rattle.c_tree.specs.Project.{projected, projected_start, projected_program, guard_holds, guards_hold, IsConditioned};

use crate::copies::{copy_expr, copy_stmt};
use crate::lists::{Declarations, Declared, Guard, Guards};
use crate::tree::{Program, Stmt};
use fam_outer::{NoMemory, Values};
use std::alloc::Global;

/// The plain program of a list of truths, one for each condition: each section of groups is
/// replaced by the statements of its kept side, and each start value is that of the last declarator
/// whose guards hold, or stays where there is none. The only refusal is want of memory.
#[tactic(auto, using(crate::proofs::Wholes::wholes))]
pub fn project(alloc: Global, code: &Program, truths: &[bool]) -> Result<Program, NoMemory>
    requires program { IsProgram (whole code.now) }
    requires conditions { IsConditioned (length truths.now) (whole code.now) }
    ensures value { IfOk result (λ made. whole made ≡ projected_program truths.now (whole code.now)) }
    ensures program { IfOk result (λ made. IsProgram (whole made)) }
    ensures plain { IfOk result (λ made. IsPlainProgram (whole made)) }
{
    let mut body = Vec::new(alloc);
    project_list(alloc, &code.body, truths, &mut body)?;
    let names = code.names.copy(alloc)?;
    let start = start_values(alloc, code.start.items(), code.declared.items(), truths)?;
    Ok(Program {
        names,
        start,
        declared: Declarations::from_vec(Vec::new(alloc)),
        body,
        end: code.end,
    })
}

/// Whether the truth of the guard's number is as it asks.
fn does_hold(guard: &Guard, truths: &[bool]) -> bool
    ensures { result ≡ guard_holds truths.now guard.now }
{
    let truth = truth_at(truths, guard.number);
    if guard.positive { truth } else { !truth }
}

/// Whether the guards hold in the truths.
fn do_hold(guards: &Guards, truths: &[bool]) -> bool
    ensures { result ≡ guards_hold truths.now guards.now }
{
    guards.items().iter().all(|guard| does_hold(guard, truths))
}

/// Puts the value of a declarator whose guards hold, where there is its variable.
fn take_declared(start: &mut Vec<i64>, d: &Declared, truths: &[bool])
    ensures { start.new.items ≡ (if guards_hold truths.now d.now.guards then slice_set start.old.items d.now.target d.now.value else start.old.items) }
{
    let value = d.value;
    if do_hold(&d.guards, truths)
        && let Some(n) = start.get_mut(d.target as usize)
    {
        *n = value;
    }
}

/// The start values that the declarators give: of each variable the value of the last declarator whose
/// guards hold in the truths, one for each condition, or what stands in `start` where there is none. A
/// condition without a truth is false. The only refusal is want of memory.
pub fn start_values(
    alloc: Global,
    start: &[i64],
    declared: &[Declared],
    truths: &[bool],
) -> Result<Values, NoMemory>
    ensures value { IfOk result (λ made. made ≡ projected_start truths.now declared.now start.now) }
{
    let mut made = Vec::from_slice(alloc, start)?;
    for d in declared {
        take_declared(&mut made, d, truths);
    }
    Ok(Values::from_vec(made))
}

#[cycle(project)]
#[tactic(auto, using(crate::proofs::Listed::projected_lists))]
fn project_list(
    alloc: Global,
    list: &[Stmt],
    truths: &[bool],
    out: &mut Vec<Stmt>,
) -> Result<(), NoMemory>
    ensures { OnOk result (code out.new.items
        ≡ followed (code out.old.items) (projected truths.now (code list.now))) }
{
    for s in list {
        project_stmt(alloc, s, truths, out)?;
    }
    Ok(())
}

#[cycle(project)]
#[tactic(auto, using(crate::proofs::Listed::projected_lists))]
fn project_stmt(
    alloc: Global,
    s: &Stmt,
    truths: &[bool],
    out: &mut Vec<Stmt>,
) -> Result<(), NoMemory>
    ensures { OnOk result (code out.new.items
        ≡ followed (code out.old.items) (projected truths.now (front s.now Done))) }
{
    match s {
        Stmt::Assign { .. }
        | Stmt::Input { .. }
        | Stmt::Assert { .. }
        | Stmt::Leave { .. }
        | Stmt::Skip { .. } => push_stmt(out, copy_stmt(alloc, s)?),
        Stmt::If {
            place,
            test,
            yes,
            no,
        } => {
            let test = copy_expr(alloc, test)?;
            let mut made_yes = Vec::new(alloc);
            project_list(alloc, yes, truths, &mut made_yes)?;
            let mut made_no = Vec::new(alloc);
            project_list(alloc, no, truths, &mut made_no)?;
            let made = Stmt::If {
                place: *place,
                test,
                yes: made_yes,
                no: made_no,
            };
            push_stmt(out, made)
        }
        Stmt::While {
            place,
            test,
            step,
            body,
        } => {
            let test = copy_expr(alloc, test)?;
            let mut made_step = Vec::new(alloc);
            project_list(alloc, step, truths, &mut made_step)?;
            let mut made_body = Vec::new(alloc);
            project_list(alloc, body, truths, &mut made_body)?;
            let made = Stmt::While {
                place: *place,
                test,
                step: made_step,
                body: made_body,
            };
            push_stmt(out, made)
        }
        Stmt::Do {
            place,
            body,
            test_place,
            test,
        } => {
            let mut made_body = Vec::new(alloc);
            project_list(alloc, body, truths, &mut made_body)?;
            let test = copy_expr(alloc, test)?;
            let made = Stmt::Do {
                place: *place,
                body: made_body,
                test_place: *test_place,
                test,
            };
            push_stmt(out, made)
        }
        Stmt::Block { place, body } => {
            let mut made_body = Vec::new(alloc);
            project_list(alloc, body, truths, &mut made_body)?;
            let made = Stmt::Block {
                place: *place,
                body: made_body,
            };
            push_stmt(out, made)
        }
        Stmt::Cond { number, yes, no } => {
            if truth_at(truths, *number) {
                project_list(alloc, yes, truths, out)?;
                Ok(())
            } else {
                project_list(alloc, no, truths, out)?;
                Ok(())
            }
        }
    }
}

fn truth_at(truths: &[bool], number: u32) -> bool
    ensures { result ≡ slice_index_or truths.now number false }
{
    truths.get(number as usize).copied().unwrap_or(false)
}

// One more statement at the end of a list.
#[tactic(auto, using(crate::proofs::Listed::pushes))]
fn push_stmt(out: &mut Vec<Stmt>, s: Stmt) -> Result<(), NoMemory>
    ensures { OnOk result (code out.new.items ≡ followed (code out.old.items) (front s Done)) }
{
    out.push(s)?;
    Ok(())
}

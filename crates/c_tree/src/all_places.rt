//! The places of a program.
#![tactic(auto)]

ghost use Rattle.std.specs.Prelude.{◌≡◌, ◌++◌, IfOk, OnOk};
ghost use Rattle.c_tree.specs.Tree.{Done};
ghost use Rattle.c_tree.specs.View.{front, code, whole};
ghost use Rattle.c_tree.specs.Places.{places_of, program_places};

use crate::tree::{Program, Stmt};
use fam_outer::{NoMemory, Place};
use std::alloc::Global;

/// All places of a program in the order of its text, that of the closing brace of `main` last. In a
/// section of groups the kept side comes before the other. The only refusal is want of memory.
pub fn places(alloc: Global, code: &Program) -> Result<Vec<Place>, NoMemory>
    ensures { IfOk result (λ made. made.items ≡ program_places (whole code.now)) }
{
    let mut out = Vec::new(alloc);
    places_of_list(&code.body, &mut out)?;
    out.push(code.end)?;
    Ok(out)
}

#[cycle(places)]
#[tactic(auto, using(crate::proofs::Listed::place_lists))]
fn places_of_list(list: &[Stmt], out: &mut Vec<Place>) -> Result<(), NoMemory>
    ensures { OnOk result (out.new.items ≡ out.old.items ++ places_of (code list.now)) }
{
    for s in list {
        places_of_stmt(s, out)?;
    }
    Ok(())
}

#[cycle(places)]
fn places_of_stmt(s: &Stmt, out: &mut Vec<Place>) -> Result<(), NoMemory>
    ensures { OnOk result (out.new.items ≡ out.old.items ++ places_of (front s.now Done)) }
{
    match s {
        Stmt::Assign { place, .. }
        | Stmt::Input { place, .. }
        | Stmt::Assert { place, .. }
        | Stmt::Leave { place, .. }
        | Stmt::Skip { place } => {
            out.push(*place)?;
            Ok(())
        }
        Stmt::If { place, yes, no, .. } => {
            out.push(*place)?;
            places_of_list(yes, out)?;
            places_of_list(no, out)
        }
        Stmt::While {
            place,
            step,
            body,
            ..
        } => {
            out.push(*place)?;
            places_of_list(step, out)?;
            places_of_list(body, out)
        }
        Stmt::Do {
            place,
            body,
            test_place,
            ..
        } => {
            out.push(*place)?;
            places_of_list(body, out)?;
            out.push(*test_place)?;
            Ok(())
        }
        Stmt::Block { place, body } => {
            out.push(*place)?;
            places_of_list(body, out)
        }
        Stmt::Cond { yes, no, .. } => {
            places_of_list(yes, out)?;
            places_of_list(no, out)
        }
    }
}

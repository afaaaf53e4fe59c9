//! Whether a statement may stop.
#![tactic(auto)]

ghost use Rattle.std.specs.Prelude.{◌≡◌, ◌&&◌, IfOk};
ghost use Rattle.c_tree.specs.Fit.{IsTermOf, IsJumpOf, IsCodeOf};
ghost use Rattle.c_tree.specs.Tree.{Done};
ghost use Rattle.c_tree.specs.View.{term, jump_of, front};
ghost use Rattle.leaf_domain.specs.Stops.{may_term, is_of_value, may_fail, may_jump, may_at};

use crate::leaf::Leaf;
use crate::stops::{has_kind, is_of_value};
use crate::transfer::{split, survey};
use c_tree::{Expr, Jump, Kind, Mode, Stmt};
use fam_outer::NoMemory;
use std::alloc::Global;

/// Whether the value or the test of a statement that is entered with the leaf may stop with the kind.
pub fn may_stop<L: Leaf>(
    alloc: Global,
    leaf: &L,
    kind: Kind,
    e: &Expr,
    mode: Mode,
) -> Result<bool, NoMemory>
    requires { IsTermOf (L.value leaf.now).variables (term e.now) }
    ensures { IfOk result (λ b. b ≡
        (is_of_value kind && may_term L.meaning mode kind (term e.now) (L.value leaf.now))) }
{
    if !is_of_value(kind) {
        return Ok(false);
    }
    let found = survey(alloc, leaf, e, mode)?;
    Ok(has_kind(found.stops, kind))
}

/// Whether the test of an assertion may be 0.
fn may_fail<L: Leaf>(alloc: Global, leaf: &L, test: &Expr, mode: Mode) -> Result<bool, NoMemory>
    requires { IsTermOf (L.value leaf.now).variables (term test.now) }
    ensures { IfOk result (λ b. b ≡ may_fail L.meaning mode (term test.now) (L.value leaf.now)) }
{
    if leaf.is_nothing() {
        return Ok(false);
    }
    let sides = split(alloc, leaf, test, mode)?;
    Ok(!sides.when_false.is_nothing())
}

/// Whether a jump may stop with the kind: the value of a `return`.
fn may_jump<L: Leaf>(
    alloc: Global,
    leaf: &L,
    kind: Kind,
    jump: &Jump,
    mode: Mode,
) -> Result<bool, NoMemory>
    requires { IsJumpOf (L.value leaf.now).variables (jump_of jump.now) }
    ensures { IfOk result (λ b. b ≡ may_jump L.meaning mode kind (jump_of jump.now) (L.value leaf.now)) }
{
    match jump {
        Jump::Return(e) => may_stop(alloc, leaf, kind, e, mode),
        Jump::Break | Jump::Continue => Ok(false),
    }
}

/// Whether a statement that is entered with the leaf may stop with the kind. Of a statement with
/// others in it this is asked of its own test alone.
pub fn may<L: Leaf>(
    alloc: Global,
    leaf: &L,
    kind: Kind,
    s: &Stmt,
    mode: Mode,
) -> Result<bool, NoMemory>
    requires { IsCodeOf (L.value leaf.now).variables (front s.now Done) }
    ensures { IfOk result (λ b. b ≡ may_at L.meaning mode kind (front s.now Done) (L.value leaf.now)) }
{
    match s {
        Stmt::Assign { value, .. } => may_stop(alloc, leaf, kind, value, mode),
        Stmt::If { test, .. } => may_stop(alloc, leaf, kind, test, mode),
        Stmt::While { test, .. } => may_stop(alloc, leaf, kind, test, mode),
        Stmt::Assert { test, .. } => {
            if is_of_value(kind) {
                may_stop(alloc, leaf, kind, test, mode)
            } else {
                may_fail(alloc, leaf, test, mode)
            }
        }
        Stmt::Leave { jump, .. } => may_jump(alloc, leaf, kind, jump, mode),
        _ => Ok(false),
    }
}

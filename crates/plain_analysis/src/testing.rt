//! The test of a loop, which stands first or last.
#![tactic(auto)]

ghost use Rattle.std.specs.Prelude.{◌≡◌, IfOk};
ghost use Rattle.c_tree.specs.View.{whole};
ghost use Rattle.leaf_domain.specs.Transfer.{assumed};
ghost use Rattle.plain_analysis.specs.Stated.{ArePartsOf};
ghost use Rattle.plain_analysis.specs.Statements as spec;
ghost use Rattle.plain_analysis.specs.View.{parts_of, ways_of, AreOver};

use crate::loops::{Loop, Parts};
use crate::task::Task;
use crate::ways::{Ways, going_on};
use fam_outer::NoMemory;
use leaf_domain::{Leaf, assume};

/// The leaf with which the body of a loop is entered, where the head has `at`.
pub(crate) fn inside<L: Leaf>(task: &Task<'_>, the_loop: &Loop<'_>, at: &L) -> Result<L, NoMemory>
    requires { ArePartsOf (L.value at.now).variables (parts_of the_loop.now.parts) }
    ensures value { IfOk result (λ made. L.value made
        ≡ spec.inside L.meaning task.now.options.now.mode (parts_of the_loop.now.parts) (L.value at.now)) }
    ensures same { IfOk result (λ made. (L.value made).variables ≡ (L.value at.now).variables) }
{
    match the_loop.parts {
        Parts::TestFirst { test, .. } => assume(task.alloc, at, test, true, task.options.mode),
        Parts::TestLast { .. } => at.copy(task.alloc),
    }
}

/// The leaf with which the test of a loop fails, where the head has `at`, and the body leaves so.
pub(crate) fn failing<L: Leaf>(
    task: &Task<'_>,
    the_loop: &Loop<'_>,
    at: &L,
    left: &Ways<L>,
) -> Result<L, NoMemory>
    requires parts { ArePartsOf (L.value at.now).variables (parts_of the_loop.now.parts) }
    requires left { AreOver L.value (L.value at.now).variables left.now }
    ensures value { (heads : spec.Heads) → ways_of L.value left.now ≡ spec.through_body L.meaning task.now.options.now.mode heads (parts_of the_loop.now.parts) (L.value at.now)
        → IfOk result (λ made. L.value made ≡ spec.failing L.meaning task.now.options.now.mode heads (parts_of the_loop.now.parts) (L.value at.now)) }
    ensures same { IfOk result (λ made. (L.value made).variables ≡ (L.value at.now).variables) }
{
    match the_loop.parts {
        Parts::TestFirst { test, .. } => assume(task.alloc, at, test, false, task.options.mode),
        Parts::TestLast { test, .. } => {
            let on = going_on(task.alloc, left)?;
            assume(task.alloc, &on, test, false, task.options.mode)
        }
    }
}

//! What the statements without others in them make of the leaf behind.
#![tactic(auto)]

ghost use Rattle.std.specs.Prelude.{◌≡◌, ◌<◌, IfOk, true};
ghost use Rattle.c_tree.specs.View.{term};
ghost use Rattle.c_tree.specs.Fit.{IsTermOf};
ghost use Rattle.leaf_domain.specs.Transfer.{assigned, assumed, forgotten};
ghost use Rattle.plain_analysis.specs.View.{ways_of, AreOver};
ghost use Rattle.plain_analysis.specs.Ways as spec;

use crate::task::Task;
use crate::ways::{Ways, onto};
use c_tree::Expr;
use fam_outer::NoMemory;
use leaf_domain::{Leaf, assign, assume, forget};

/// A variable is set to the value of an expression.
pub(crate) fn after_assign<L: Leaf>(
    task: &Task<'_>,
    target: u32,
    value: &Expr,
    ways: Ways<L>,
) -> Result<Ways<L>, NoMemory>
    requires over { AreOver L.value (L.value ways.behind).variables ways }
    requires target { target < (L.value ways.behind).variables }
    requires fit { IsTermOf (L.value ways.behind).variables (term value.now) }
    ensures value { IfOk result (λ made. ways_of L.value made ≡ spec.onto (ways_of L.value ways)
        (assigned L.meaning task.now.options.now.mode target (term value.now) (L.value ways.behind))) }
    ensures over { IfOk result (λ made. AreOver L.value (L.value ways.behind).variables made) }
{
    let behind = assign(task.alloc, &ways.behind, target, value, task.options.mode)?;
    Ok(onto(ways, behind))
}

/// A variable is set to an input.
pub(crate) fn after_input<L: Leaf>(
    task: &Task<'_>,
    target: u32,
    ways: Ways<L>,
) -> Result<Ways<L>, NoMemory>
    requires over { AreOver L.value (L.value ways.behind).variables ways }
    requires target { target < (L.value ways.behind).variables }
    ensures value { IfOk result (λ made. ways_of L.value made
        ≡ spec.onto (ways_of L.value ways) (forgotten L.meaning target (L.value ways.behind))) }
    ensures over { IfOk result (λ made. AreOver L.value (L.value ways.behind).variables made) }
{
    let behind = forget(task.alloc, &ways.behind, target)?;
    Ok(onto(ways, behind))
}

/// A test is known to hold.
pub(crate) fn after_assert<L: Leaf>(
    task: &Task<'_>,
    test: &Expr,
    ways: Ways<L>,
) -> Result<Ways<L>, NoMemory>
    requires over { AreOver L.value (L.value ways.behind).variables ways }
    requires fit { IsTermOf (L.value ways.behind).variables (term test.now) }
    ensures value { IfOk result (λ made. ways_of L.value made ≡ spec.onto (ways_of L.value ways)
        (assumed L.meaning task.now.options.now.mode (term test.now) true (L.value ways.behind))) }
    ensures over { IfOk result (λ made. AreOver L.value (L.value ways.behind).variables made) }
{
    let behind = assume(task.alloc, &ways.behind, test, true, task.options.mode)?;
    Ok(onto(ways, behind))
}

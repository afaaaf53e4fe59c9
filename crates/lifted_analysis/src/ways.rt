//! What was passed, at all vectors: the tree behind it, and for each jump that of what left it by the jump.
#![tactic(auto)]

ghost use Rattle.std.specs.Prelude.{IfOk, true};
ghost use Rattle.c_tree.specs.Fit.{IsJumpOf};
ghost use Rattle.c_tree.specs.View.{jump_of};
ghost use Rattle.decision_tree.specs.Plain.{leaf_of};
ghost use Rattle.decision_tree.specs.View.{numbered, plain};
ghost use Rattle.leaf_domain.specs.Leaves.{nothing_of};
ghost use Rattle.plain_analysis.specs.Ways as spec;
ghost use Rattle.lifted_analysis.specs.States.{IsFamily, IsState, IsTruth, IsMade, AreStates, AreMade, ways_at};
ghost use Rattle.lifted_analysis.specs.Steps.{IsStepOf, stepped_by, kept_by};

use crate::family_context::FamilyContext;
use crate::operations::Step;
use crate::states::{joined, kept, stepped};
use crate::tables::Tables;
use c_tree::Jump;
use decision_tree::Tree;
use fam_outer::NoMemory;
use leaf_domain::Leaf;
use plain_analysis::Ways;
use std::sync::ledger::Ledger;

/// The tree that is Nothing at all vectors.
fn nothing_tree<L: Leaf, K: Ledger>(
    tables: &mut Tables<L, K>,
    family: &FamilyContext,
) -> Result<Tree<L>, NoMemory>
    requires { IsFamily family.now }
    ensures { IfOk result (λ r. IsMade L.value family.now tables.old.leaves tables.new.leaves
        (λ v. nothing_of family.now.variables) (numbered r)) }
{
    let nothing = L::nothing(tables.alloc, family.variables)?;
    tables.leaves.leaf(nothing)
}

/// Nothing has left yet.
pub(crate) fn enter<L: Leaf, K: Ledger>(
    tables: &mut Tables<L, K>,
    family: &FamilyContext,
    behind: Tree<L>,
) -> Result<Ways<Tree<L>>, NoMemory>
    requires family { IsFamily family.now }
    requires state { IsState L.value family.now tables.old.leaves (numbered behind) }
    ensures { IfOk result (λ r. AreMade L.value family.now tables.old.leaves tables.new.leaves
        (λ v. spec.enter (L.value (leaf_of (plain behind) v))) r) }
{
    let broke = nothing_tree(tables, family)?;
    let continued = broke.share()?;
    let returned = broke.share()?;
    Ok(Ways {
        behind,
        broke,
        continued,
        returned,
    })
}

/// A step of what is behind.
pub(crate) fn after_step<L: Leaf, K: Ledger>(
    tables: &mut Tables<L, K>,
    family: &FamilyContext,
    step: &Step,
    ways: Ways<Tree<L>>,
) -> Result<Ways<Tree<L>>, NoMemory>
    requires states { AreStates L.value family.now tables.old.leaves ways }
    requires step { IsStepOf family.now.variables step.now }
    ensures { IfOk result (λ r. AreMade L.value family.now tables.old.leaves tables.new.leaves
        (λ v. spec.onto (ways_at L.value ways v) (stepped_by L.meaning family.now.options.now.mode step.now
        (ways_at L.value ways v).behind)) r) }
{
    let behind = stepped(tables, family, step, &ways.behind)?;
    Ok(Ways {
        behind,
        broke: ways.broke,
        continued: ways.continued,
        returned: ways.returned,
    })
}

/// What is behind where a truth holds, and Nothing elsewhere.
pub(crate) fn keep_behind<L: Leaf, K: Ledger>(
    tables: &mut Tables<L, K>,
    family: &FamilyContext,
    truth: &Tree<bool>,
    ways: Ways<Tree<L>>,
) -> Result<Ways<Tree<L>>, NoMemory>
    requires truth { IsTruth family.now (numbered truth.now) }
    requires states { AreStates L.value family.now tables.old.leaves ways }
    ensures { IfOk result (λ r. AreMade L.value family.now tables.old.leaves tables.new.leaves
        (λ v. spec.onto (ways_at L.value ways v)
        (kept_by true (leaf_of (plain truth.now) v) (ways_at L.value ways v).behind)) r) }
{
    let behind = kept(tables, family, truth, true, &ways.behind)?;
    Ok(Ways {
        behind,
        broke: ways.broke,
        continued: ways.continued,
        returned: ways.returned,
    })
}

/// All that is behind leaves by a jump; of `return e` what has a value of `e`.
pub(crate) fn leave<L: Leaf, K: Ledger>(
    tables: &mut Tables<L, K>,
    family: &FamilyContext,
    jump: &Jump,
    ways: Ways<Tree<L>>,
) -> Result<Ways<Tree<L>>, NoMemory>
    requires family { IsFamily family.now }
    requires jump { IsJumpOf family.now.variables (jump_of jump.now) }
    requires states { AreStates L.value family.now tables.old.leaves ways }
    ensures { IfOk result (λ r. AreMade L.value family.now tables.old.leaves tables.new.leaves
        (λ v. spec.leave_by L.meaning family.now.options.now.mode (jump_of jump.now) (ways_at L.value ways v)) r) }
{
    let behind = nothing_tree(tables, family)?;
    match jump {
        Jump::Break => {
            let broke = joined(tables, family, &ways.broke, &ways.behind)?;
            Ok(Ways {
                behind,
                broke,
                continued: ways.continued,
                returned: ways.returned,
            })
        }
        Jump::Continue => {
            let continued = joined(tables, family, &ways.continued, &ways.behind)?;
            Ok(Ways {
                behind,
                broke: ways.broke,
                continued,
                returned: ways.returned,
            })
        }
        Jump::Return(e) => {
            let returning = stepped(tables, family, &Step::Evaluate(e), &ways.behind)?;
            let returned = joined(tables, family, &ways.returned, &returning)?;
            Ok(Ways {
                behind,
                broke: ways.broke,
                continued: ways.continued,
                returned,
            })
        }
    }
}

/// The tree with which a loop goes on behind its body.
pub(crate) fn going_on<L: Leaf, K: Ledger>(
    tables: &mut Tables<L, K>,
    family: &FamilyContext,
    body: &Ways<Tree<L>>,
) -> Result<Tree<L>, NoMemory>
    requires { AreStates L.value family.now tables.old.leaves body.now }
    ensures { IfOk result (λ r. IsMade L.value family.now tables.old.leaves tables.new.leaves
        (λ v. spec.going_on L.meaning (ways_at L.value body.now v)) (numbered r)) }
{
    joined(tables, family, &body.behind, &body.continued)
}

/// Behind a loop whose test fails with this tree, and whose body left so.
pub(crate) fn behind_loop<L: Leaf, K: Ledger>(
    tables: &mut Tables<L, K>,
    family: &FamilyContext,
    ways: Ways<Tree<L>>,
    failed: &Tree<L>,
    body: &Ways<Tree<L>>,
) -> Result<Ways<Tree<L>>, NoMemory>
    requires states { AreStates L.value family.now tables.old.leaves ways }
    requires failed { IsState L.value family.now tables.old.leaves (numbered failed.now) }
    requires body { AreStates L.value family.now tables.old.leaves body.now }
    ensures { IfOk result (λ r. AreMade L.value family.now tables.old.leaves tables.new.leaves
        (λ v. spec.behind_loop L.meaning (ways_at L.value ways v) (L.value (leaf_of (plain failed.now) v))
        (ways_at L.value body.now v)) r) }
{
    let behind = joined(tables, family, failed, &body.broke)?;
    let returned = joined(tables, family, &ways.returned, &body.returned)?;
    Ok(Ways {
        behind,
        broke: ways.broke,
        continued: ways.continued,
        returned,
    })
}

/// The tree at the end of a program, to which each jump outside loops leads.
pub(crate) fn end<L: Leaf, K: Ledger>(
    tables: &mut Tables<L, K>,
    family: &FamilyContext,
    ways: &Ways<Tree<L>>,
) -> Result<Tree<L>, NoMemory>
    requires { AreStates L.value family.now tables.old.leaves ways.now }
    ensures { IfOk result (λ r. IsMade L.value family.now tables.old.leaves tables.new.leaves
        (λ v. spec.end_of L.meaning (ways_at L.value ways.now v)) (numbered r)) }
{
    let with_returned = joined(tables, family, &ways.behind, &ways.returned)?;
    let with_broke = joined(tables, family, &with_returned, &ways.broke)?;
    joined(tables, family, &with_broke, &ways.continued)
}

//! The test of a loop, which stands first or last.
#![tactic(auto)]

ghost use Rattle.std.specs.Prelude.{IfOk};
ghost use Rattle.decision_tree.specs.Plain.{leaf_of};
ghost use Rattle.decision_tree.specs.View.{numbered, plain};
ghost use Rattle.plain_analysis.specs.Stated.{ArePartsOf};
ghost use Rattle.plain_analysis.specs.Statements as spec;
ghost use Rattle.plain_analysis.specs.View.{parts_of};
ghost use Rattle.lifted_analysis.specs.States.{IsState, IsMade, AreStates, ways_at};
ghost use Rattle.lifted_analysis.specs.Steps.{failing_so};

use crate::family_context::FamilyContext;
use crate::operations::Step;
use crate::states::stepped;
use crate::tables::Tables;
use crate::ways::going_on;
use decision_tree::Tree;
use fam_outer::NoMemory;
use leaf_domain::Leaf;
use plain_analysis::{Loop, Parts, Ways};
use std::sync::ledger::Ledger;

/// The tree with which the body of a loop is entered, where the head has `at`.
pub(crate) fn inside<L: Leaf, K: Ledger>(
    tables: &mut Tables<L, K>,
    family: &FamilyContext,
    the_loop: &Loop<'_>,
    at: &Tree<L>,
) -> Result<Tree<L>, NoMemory>
    requires parts { ArePartsOf family.now.variables (parts_of the_loop.now.parts) }
    requires at { IsState L.value family.now tables.old.leaves (numbered at.now) }
    ensures { IfOk result (λ r. IsMade L.value family.now tables.old.leaves tables.new.leaves
        (λ v. spec.inside L.meaning family.now.options.now.mode (parts_of the_loop.now.parts)
        (L.value (leaf_of (plain at.now) v))) (numbered r)) }
{
    match the_loop.parts {
        Parts::TestFirst { test, .. } => stepped(tables, family, &Step::Assume(test, true), at),
        Parts::TestLast { .. } => at.share(),
    }
}

/// The tree with which the test of a loop fails, where the head has `at`, and the body leaves so.
pub(crate) fn failing<L: Leaf, K: Ledger>(
    tables: &mut Tables<L, K>,
    family: &FamilyContext,
    the_loop: &Loop<'_>,
    at: &Tree<L>,
    left: &Ways<Tree<L>>,
) -> Result<Tree<L>, NoMemory>
    requires parts { ArePartsOf family.now.variables (parts_of the_loop.now.parts) }
    requires at { IsState L.value family.now tables.old.leaves (numbered at.now) }
    requires left { AreStates L.value family.now tables.old.leaves left.now }
    ensures { IfOk result (λ r. IsMade L.value family.now tables.old.leaves tables.new.leaves
        (λ v. failing_so L.meaning family.now.options.now.mode (parts_of the_loop.now.parts)
        (L.value (leaf_of (plain at.now) v)) (ways_at L.value left.now v)) (numbered r)) }
{
    match the_loop.parts {
        Parts::TestFirst { test, .. } => stepped(tables, family, &Step::Assume(test, false), at),
        Parts::TestLast { test, .. } => {
            let on = going_on(tables, family, left)?;
            stepped(tables, family, &Step::Assume(test, false), &on)
        }
    }
}

//! The trees of the conditions of a family.
#![tactic(auto)]

ghost use Rattle.std.specs.Prelude.{IfOk, All};
ghost use Rattle.cpp_conditions.specs.declared.formulas.Formula.{Formula};
ghost use Rattle.cpp_conditions.specs.Propositions.{IsBelow};
ghost use Rattle.cpp_conditions.specs.View.{formula};
ghost use Rattle.lifted_analysis.specs.Conditions.{AreTreesOf, AreFamilyTrees};
ghost use Rattle.lifted_analysis.specs.Promises.{AreBelow};

use crate::tables::Tables;
use cpp_conditions::Formula;
use decision_tree::Tree;
use fam_outer::NoMemory;
use leaf_domain::Leaf;
use std::sync::ledger::Ledger;
use tree_unify::test_tree_in;

/// The trees of a family's conditions, that of the vectors that are plausible, and that of no vector.
#[derive(Drop)]
pub(crate) struct FamilyTrees {
    pub(crate) choices: Vec<Tree<bool>>,
    pub(crate) plausible: Tree<bool>,
    pub(crate) never: Tree<bool>,
}

/// The trees of conditions, each made once.
fn condition_trees<L: Leaf, K: Ledger>(
    tables: &mut Tables<L, K>,
    conditions: &[Formula],
) -> Result<Vec<Tree<bool>>, NoMemory>
    requires { All (λ (c : Formula). IsBelow 320 (formula c)) conditions.now }
    ensures { IfOk result (λ trees. AreTreesOf conditions.now trees.items) }
{
    let alloc = tables.alloc;
    let mut trees = Vec::new(alloc);
    for condition in conditions {
        let tree = test_tree_in(alloc, &mut tables.truths, condition, &mut tables.steps)?;
        trees.push(tree)?;
    }
    Ok(trees)
}

/// The trees of conditions and of what is plausible.
pub(crate) fn family_trees<L: Leaf, K: Ledger>(
    tables: &mut Tables<L, K>,
    conditions: &[Formula],
    plausible: &Formula,
) -> Result<FamilyTrees, NoMemory>
    requires { AreBelow 320 conditions.now plausible.now }
    ensures { IfOk result (AreFamilyTrees conditions.now plausible.now) }
{
    let alloc = tables.alloc;
    let choices = condition_trees(tables, conditions)?;
    let plausible = test_tree_in(alloc, &mut tables.truths, plausible, &mut tables.steps)?;
    let never = tables.truths.leaf(false)?;
    Ok(FamilyTrees {
        choices,
        plausible,
        never,
    })
}

//! The tree of a formula.
#![tactic(auto)]

ghost use Rattle.std.specs.Prelude.{◌≡◌, ◌+◌, ◌*◌, ◌<◌, ◌≤◌, IfOk, Ok, not};
ghost use Rattle.cpp_conditions.specs.Propositions.{IsBelow, Test};
ghost use Rattle.cpp_conditions.specs.View.{formula};
ghost use Rattle.decision_tree.specs.Listed.{IsTreeIn, Keeps};
ghost use Rattle.decision_tree.specs.View.{numbered, plain};
ghost use Rattle.tree_unify.specs.Formulas.{IsTreeOf, operators};

use crate::mapped::map_in;
use crate::numbered::unify_in;
use crate::steps::Steps;
use crate::truths::{Both, Either};
use cpp_conditions::Formula;
use decision_tree::{Forest, Tree};
use fam_outer::NoMemory;
use std::alloc::Global;
use std::sync::ledger::Ledger;

/// The forest's tree of a single test.
#[tactic(auto, using(decision_tree::proofs::Numbers::stays, decision_tree::proofs::Numbers::keeps_both, decision_tree::proofs::Reduced::reduced_from))]
fn test_in(forest: &mut Forest<bool>, number: u32) -> Result<Tree<bool>, NoMemory>
    requires { number < 320 }
    ensures means { IfOk result (λ t. IsTreeOf (Test number) (plain t)) }
    ensures tree { IfOk result (λ t. IsTreeIn 0 320 forest.new (numbered t)) }
    ensures keeps { Keeps forest.old forest.new }
{
    let no = forest.leaf(false)?;
    let yes = forest.leaf(true)?;
    forest.node(number, &no, &yes)
}

/// The forest's tree that is true at exactly the vectors at which the formula is. Its tests are numbers of the formula,
/// which must be below 320. There are at most four steps for each operator. It answers an error only for want of memory;
/// then too the forest has all that it had, and may have more.
#[tactic(auto, using(decision_tree::proofs::Numbers::keeps_both, decision_tree::proofs::Numbers::numbered_in))]
pub fn test_tree_in<K: Ledger>(
    alloc: Global,
    forest: &mut Forest<bool>,
    f: &Formula,
    steps: &mut Steps<K>,
) -> Result<Tree<bool>, NoMemory>
    requires { IsBelow 320 (formula f.now) }
    ensures means { IfOk result (λ t. IsTreeOf (formula f.now) (plain t)) }
    ensures tree { IfOk result (λ t. IsTreeIn 0 320 forest.new (numbered t)) }
    ensures keeps { Keeps forest.old forest.new }
    ensures steps { steps.new ≤ steps.old + 4 * operators (formula f.now) }
{
    match f {
        Formula::Const(truth) => forest.leaf(*truth),
        Formula::Test(number) => test_in(forest, *number),
        Formula::Not(inner) => {
            let inner = test_tree_in(alloc, forest, inner, steps)?;
            let negation = |a: &bool| -> Result<bool, NoMemory>
                ensures { result ≡ Ok (not a.now) }
            { Ok(!*a) };
            map_in(alloc, forest, &negation, &inner, steps)
        }
        Formula::And(left, right) => {
            let left = test_tree_in(alloc, forest, left, steps)?;
            let right = test_tree_in(alloc, forest, right, steps)?;
            unify_in(alloc, forest, &Both, &left, &right, steps)
        }
        Formula::Or(left, right) => {
            let left = test_tree_in(alloc, forest, left, steps)?;
            let right = test_tree_in(alloc, forest, right, steps)?;
            unify_in(alloc, forest, &Either, &left, &right, steps)
        }
    }
}

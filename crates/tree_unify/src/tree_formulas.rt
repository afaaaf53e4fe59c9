//! The formula that a tree is false.
#![tactic(auto)]

ghost use Rattle.std.specs.Prelude.{◌≡◌, ◌<◌, ℕ, List, Bool, false, not, cond, slice_index_or, IfOk};
ghost use Rattle.cpp_conditions.specs.Propositions.{IsBelow, true_on};
ghost use Rattle.cpp_conditions.specs.View.{formula};
ghost use Rattle.decision_tree.specs.Plain.{TestsBelow, leaf_of};
ghost use Rattle.decision_tree.specs.View.{plain};

use cpp_conditions::Formula;
use cpp_conditions::formulas::{both, either, negation};
use decision_tree::Tree;
use fam_outer::NoMemory;
use std::alloc::Global;

/// One formula where a test is true, and another where it is false.
fn by_test(alloc: Global, test: u32, no: Formula, yes: Formula) -> Result<Formula, NoMemory>
    ensures truth { IfOk result (λ made. (v : List Bool)
        → true_on v (formula made) ≡ cond (slice_index_or v test false) (true_on v (formula yes))
        (true_on v (formula no))) }
    ensures below { IfOk result (λ made. (count : ℕ) → test < count → IsBelow count (formula no)
        → IsBelow count (formula yes) → IsBelow count (formula made)) }
{
    let denied = negation(alloc, Formula::Test(test))?;
    let where_true = either(alloc, denied, yes)?;
    let where_false = either(alloc, Formula::Test(test), no)?;
    both(alloc, where_true, where_false)
}

/// The formula that a tree is false: at each vector it is true where the tree leads to false. Its numbers are tests of the
/// tree. Paths that share a part of the tree have it each, so the formula is as long as the paths together. The only refusal is
/// want of memory.
pub fn untrue(alloc: Global, tree: &Tree<bool>) -> Result<Formula, NoMemory>
    ensures truth { IfOk result (λ made. (v : List Bool)
        → true_on v (formula made) ≡ not (leaf_of (plain tree.now) v)) }
    ensures below { IfOk result (λ made. (count : ℕ) → TestsBelow count (plain tree.now)
        → IsBelow count (formula made)) }
{
    match tree {
        Tree::Leaf(leaf) => Ok(Formula::Const(!leaf.value)),
        Tree::Node(node) => {
            let no = untrue(alloc, &node.no)?;
            let yes = untrue(alloc, &node.yes)?;
            by_test(alloc, node.test, no, yes)
        }
    }
}

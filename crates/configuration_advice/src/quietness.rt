//! The formula that trees of alarms are false.
#![tactic(auto)]

ghost use Rattle.std.specs.Prelude.{◌≡◌, ◌&&◌, ℕ, List, Bool, true, map, IfOk};
ghost use Rattle.std.specs.List.{All};
ghost use Rattle.cpp_conditions.specs.Propositions.{Const, IsBelow, true_on};
ghost use Rattle.cpp_conditions.specs.View.{formula};
ghost use Rattle.decision_tree.specs.Plain.{TestsBelow};
ghost use Rattle.decision_tree.specs.View.{plain};
ghost use Rattle.configuration_advice.specs.Nearest.{are_false};

use cpp_conditions::Formula;
use cpp_conditions::formulas::both;
use decision_tree::Tree;
use fam_outer::NoMemory;
use std::alloc::Global;
use tree_unify::untrue;

/// Whether a formula is just true.
fn is_true(part: &Formula) -> bool
    ensures { result ≡ true → formula part.now ≡ Const true }
{
    match part {
        Formula::Const(truth) => *truth,
        _ => false,
    }
}

/// Both formulas; one alone, where the other is just true.
fn conjunction(alloc: Global, left: Formula, right: Formula) -> Result<Formula, NoMemory>
    ensures truth { IfOk result (λ made. (v : List Bool)
        → true_on v (formula made) ≡ (true_on v (formula left) && true_on v (formula right))) }
    ensures below { IfOk result (λ made. (count : ℕ) → IsBelow count (formula left)
        → IsBelow count (formula right) → IsBelow count (formula made)) }
{
    if is_true(&left) {
        Ok(right)
    } else if is_true(&right) {
        Ok(left)
    } else {
        both(alloc, left, right)
    }
}

/// The formula that all trees are false, made by halves, so that it is not deep where there are many.
pub(crate) fn quiet(alloc: Global, trees: &[Tree<bool>]) -> Result<Formula, NoMemory>
    ensures truth { IfOk result (λ made. (v : List Bool)
        → true_on v (formula made) ≡ are_false (map plain trees.now) v) }
    ensures below { IfOk result (λ made. (count : ℕ)
        → All (λ (t : Tree Bool). TestsBelow count (plain t)) trees.now → IsBelow count (formula made)) }
{
    match trees {
        [] => Ok(Formula::Const(true)),
        [tree] => untrue(alloc, tree),
        _ => {
            let (first, second) = trees.split_at(trees.len() / 2);
            let left = quiet(alloc, first)?;
            let right = quiet(alloc, second)?;
            conjunction(alloc, left, right)
        }
    }
}

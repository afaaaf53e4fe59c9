//! Trees that tell how many features are changed, or that there is an alarm.
#![tactic(auto)]

ghost use Rattle.std.specs.Prelude.{◌≡◌, ◌<◌, ◌&&◌, suc, ℕ, List, Bool, true, false, not, map, length, if◌then◌else◌, IfOk};
ghost use Rattle.std.specs.List.{All};
ghost use Rattle.cpp_conditions.specs.declared.formulas.Formula.{Formula};
ghost use Rattle.cpp_conditions.specs.Propositions.{IsBelow};
ghost use Rattle.cpp_conditions.specs.View.{formula};
ghost use Rattle.decision_tree.specs.Listed.{IsNumberedTree};
ghost use Rattle.decision_tree.specs.Plain.{TestsBelow, leaf, leaf_of};
ghost use Rattle.decision_tree.specs.View.{numbered, plain};
ghost use Rattle.configuration_advice.specs.Changes.{unkept, too_many, cost_of, IsAbove};
ghost use Rattle.configuration_advice.specs.Nearest.{are_false};

use cpp_conditions::Formula;
use decision_tree::{Forest, Tree};
use fam_outer::NoMemory;
use linear_atoms::slices::cut;
use std::alloc::Global;
use std::marker::Brand;
use std::sync::ledger::{Blank, Ledger};
use tree_unify::{Either, Operation, Steps, map_in, test_tree_in, unify_in};

/// A number, and one more where the truth is false.
#[derive(Drop)]
struct OneMore;

impl Operation<u32, bool, u32> for OneMore {
    ghost takes = { λ _ _ _. Unit {0} };

    ghost gives = { λ _ a b c. a < too_many → c ≡ (if b then a else suc a) };

    fn apply(&self, first: &u32, second: &bool) -> Result<u32, NoMemory> {
        if *second || *first == u32::MAX {
            Ok(*first)
        } else {
            Ok(*first + 1)
        }
    }
}

/// Too many where the truth is true, and else the number.
#[derive(Drop)]
struct Barred;

impl Operation<bool, u32, u32> for Barred {
    ghost takes = { λ _ _ _. Unit {0} };

    ghost gives = { λ _ a b c. c ≡ (if a then too_many else b) };

    fn apply(&self, first: &bool, second: &u32) -> Result<u32, NoMemory> {
        Ok(if *first { u32::MAX } else { *second })
    }
}

/// How many of the formulas are false.
fn unkept_in<K: Ledger>(
    alloc: Global,
    forest: &mut Forest<u32>,
    truths: &mut Forest<bool>,
    kept: &[Formula],
    steps: &mut Steps<K>,
) -> Result<Tree<u32>, NoMemory>
    requires below { All (λ (f : Formula). IsBelow 320 (formula f)) kept.now }
    requires few { length kept.now < too_many }
    ensures counts { IfOk result (λ t. (v : List Bool)
        → leaf_of (plain t) v ≡ unkept (map formula kept.now) v) }
    ensures tests { IfOk result (λ t. (count : ℕ)
        → All (λ (f : Formula). IsBelow count (formula f)) kept.now → TestsBelow count (plain t)) }
    ensures numbered { IfOk result (λ t. IsNumberedTree 0 320 (numbered t)) }
{
    let Some((first, behind)) = cut(kept) else {
        return forest.leaf(0);
    };
    let others = unkept_in(alloc, forest, truths, behind, steps)?;
    let truth = test_tree_in(alloc, truths, first, steps)?;
    unify_in(alloc, forest, &OneMore, &others, &truth, steps)
}

/// Whether a tree is the leaf false.
fn is_never(tree: &Tree<bool>) -> bool
    ensures { result ≡ true → plain tree.now ≡ leaf false }
{
    match tree {
        Tree::Leaf(leaf) => !leaf.value,
        Tree::Node(_) => false,
    }
}

/// The vectors at which one of two trees is true.
fn either_in<K: Ledger>(
    alloc: Global,
    forest: &mut Forest<bool>,
    left: Tree<bool>,
    right: Tree<bool>,
    steps: &mut Steps<K>,
) -> Result<Tree<bool>, NoMemory>
    requires left { IsNumberedTree 0 320 (numbered left) }
    requires right { IsNumberedTree 0 320 (numbered right) }
    ensures truth { IfOk result (λ t. (v : List Bool) → not (leaf_of (plain t) v)
        ≡ (not (leaf_of (plain left) v) && not (leaf_of (plain right) v))) }
    ensures tests { IfOk result (λ t. (count : ℕ) → TestsBelow count (plain left)
        → TestsBelow count (plain right) → TestsBelow count (plain t)) }
    ensures numbered { IfOk result (λ t. IsNumberedTree 0 320 (numbered t)) }
{
    if is_never(&left) {
        Ok(right)
    } else if is_never(&right) {
        Ok(left)
    } else {
        unify_in(alloc, forest, &Either, &left, &right, steps)
    }
}

/// The vectors at which one of the trees is true, made by halves, so that the trees are united with others of their size.
fn any_in<K: Ledger>(
    alloc: Global,
    forest: &mut Forest<bool>,
    trees: &[Tree<bool>],
    steps: &mut Steps<K>,
) -> Result<Tree<bool>, NoMemory>
    requires { All (λ (t : Tree Bool). IsNumberedTree 0 320 (numbered t)) trees.now }
    ensures truth { IfOk result (λ t. (v : List Bool)
        → not (leaf_of (plain t) v) ≡ are_false (map plain trees.now) v) }
    ensures tests { IfOk result (λ t. (count : ℕ)
        → All (λ (t : Tree Bool). TestsBelow count (plain t)) trees.now → TestsBelow count (plain t)) }
    ensures numbered { IfOk result (λ t. IsNumberedTree 0 320 (numbered t)) }
{
    match trees {
        [] => forest.leaf(false),
        [tree] => tree.share(),
        _ => {
            let (first, second) = trees.split_at(trees.len() / 2);
            let left = any_in(alloc, forest, first, steps)?;
            let right = any_in(alloc, forest, second, steps)?;
            either_in(alloc, forest, left, right, steps)
        }
    }
}

/// `cost`, with a counter of its steps.
fn cost_counted<K: Ledger>(
    alloc: Global,
    alarms: &[Tree<bool>],
    kept: &[Formula],
    blank: Blank,
) -> Result<Tree<u32>, NoMemory>
    requires name { blank.name ≡ K.name }
    requires parts { blank.parts ≡ K.parts }
    requires some { 0 < K.parts }
    requires alarms { All (λ (t : Tree Bool). IsNumberedTree 0 320 (numbered t)) alarms.now }
    requires below { All (λ (f : Formula). IsBelow 320 (formula f)) kept.now }
    requires few { length kept.now < too_many }
    ensures cost { IfOk result (λ t. (v : List Bool)
        → leaf_of (plain t) v ≡ cost_of (map plain alarms.now) (map formula kept.now) v) }
    ensures tests { IfOk result (λ t. (count : ℕ)
        → All (λ (t : Tree Bool). TestsBelow count (plain t)) alarms.now
        → All (λ (f : Formula). IsBelow count (formula f)) kept.now → TestsBelow count (plain t)) }
    ensures numbered { IfOk result (λ t. IsNumberedTree 0 320 (numbered t)) }
{
    let mut steps = Steps::<K>::new(blank);
    let mut truths = Forest::new(alloc);
    let mut numbers = Forest::new(alloc);
    let changes = unkept_in(alloc, &mut numbers, &mut truths, kept, &mut steps)?;
    let alarm = any_in(alloc, &mut truths, alarms, &mut steps)?;
    unify_in(alloc, &mut numbers, &Barred, &alarm, &changes, &mut steps)
}

/// How many of the formulas are false, and too many where one of the trees is true. It has at most as many nodes as there are
/// pairs of one of the trees' union and one of the tree of numbers, which has at most so many for each test as there are formulas.
pub(crate) fn cost(
    alloc: Global,
    alarms: &[Tree<bool>],
    kept: &[Formula],
) -> Result<Tree<u32>, NoMemory>
    requires alarms { All (λ (t : Tree Bool). IsNumberedTree 0 320 (numbered t)) alarms.now }
    requires below { All (λ (f : Formula). IsBelow 320 (formula f)) kept.now }
    requires few { length kept.now < too_many }
    ensures cost { IfOk result (λ t. (v : List Bool)
        → leaf_of (plain t) v ≡ cost_of (map plain alarms.now) (map formula kept.now) v) }
    ensures tests { IfOk result (λ t. (count : ℕ)
        → All (λ (t : Tree Bool). TestsBelow count (plain t)) alarms.now
        → All (λ (f : Formula). IsBelow count (formula f)) kept.now → TestsBelow count (plain t)) }
    ensures numbered { IfOk result (λ t. IsNumberedTree 0 320 (numbered t)) }
{
    cost_counted::<Brand>(alloc, alarms, kept, Blank::new(1))
}

/// `above`, with a counter of its steps.
fn above_counted<K: Ledger>(
    alloc: Global,
    cost: &Tree<u32>,
    most: u32,
    blank: Blank,
) -> Result<Tree<bool>, NoMemory>
    requires name { blank.name ≡ K.name }
    requires parts { blank.parts ≡ K.parts }
    requires some { 0 < K.parts }
    requires cost { IsNumberedTree 0 320 (numbered cost.now) }
    ensures above { IfOk result (λ t. (v : List Bool)
        → IsAbove most (leaf_of (plain cost.now) v) (leaf_of (plain t) v)) }
    ensures tests { IfOk result (λ t. (count : ℕ) → TestsBelow count (plain cost.now) → TestsBelow count (plain t)) }
    ensures numbered { IfOk result (λ t. IsNumberedTree 0 320 (numbered t)) }
{
    let mut steps = Steps::<K>::new(blank);
    let mut forest = Forest::new(alloc);
    let is_more = |number: &u32| -> Result<bool, NoMemory>
        ensures { IfOk result (λ truth. IsAbove most number.now truth) }
    { Ok(most < *number) };
    map_in(alloc, &mut forest, &is_more, cost, &mut steps)
}

/// The vectors at which a number is more than so much.
pub(crate) fn above(alloc: Global, cost: &Tree<u32>, most: u32) -> Result<Tree<bool>, NoMemory>
    requires { IsNumberedTree 0 320 (numbered cost.now) }
    ensures above { IfOk result (λ t. (v : List Bool)
        → IsAbove most (leaf_of (plain cost.now) v) (leaf_of (plain t) v)) }
    ensures tests { IfOk result (λ t. (count : ℕ) → TestsBelow count (plain cost.now) → TestsBelow count (plain t)) }
    ensures numbered { IfOk result (λ t. IsNumberedTree 0 320 (numbered t)) }
{
    above_counted::<Brand>(alloc, cost, most, Blank::new(1))
}

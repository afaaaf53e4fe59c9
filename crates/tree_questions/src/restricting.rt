//! A tree where a test has one truth, and a formula that says so too.
#![tactic(auto)]

ghost use Rattle.std.specs.Prelude.{◌≡◌, ◌<◌, ℕ, List, Bool, false, Ok, IfOk, slice_index_or};
ghost use Rattle.cpp_conditions.specs.View.{formula};
ghost use Rattle.decision_tree.specs.Listed.{IsNumberedTree};
ghost use Rattle.decision_tree.specs.Plain.{TestsBelow, leaf_of};
ghost use Rattle.decision_tree.specs.View.{numbered, plain};
ghost use Rattle.tree_questions.specs.Least.{literal, with_test};

use cpp_conditions::Formula;
use cpp_conditions::formulas::{both, negation};
use decision_tree::{Forest, Tree};
use fam_outer::NoMemory;
use std::alloc::Global;
use std::marker::Brand;
use std::sync::ledger::{Blank, Ledger};
use tree_restrict::restrict_in;
use tree_unify::{Steps, map_in, test_tree_in};

/// The formula that a test has this truth.
fn literal(alloc: Global, test: u32, truth: bool) -> Result<Formula, NoMemory>
    ensures { IfOk result (λ made. formula made ≡ literal test truth) }
{
    if truth {
        Ok(Formula::Test(test))
    } else {
        negation(alloc, Formula::Test(test))
    }
}

/// What is wanted, and that a test has this truth.
pub(crate) fn with_test(
    alloc: Global,
    wanted: &Formula,
    test: u32,
    truth: bool,
) -> Result<Formula, NoMemory>
    ensures { IfOk result (λ made. formula made ≡ with_test (formula wanted.now) test truth) }
{
    let one = literal(alloc, test, truth)?;
    let others = wanted.copy(alloc)?;
    both(alloc, one, others)
}

/// `where_test`, with a counter of its steps.
fn where_counted<K: Ledger>(
    alloc: Global,
    tree: &Tree<bool>,
    test: u32,
    truth: bool,
    blank: Blank,
) -> Result<Tree<bool>, NoMemory>
    requires name { blank.name ≡ K.name }
    requires parts { blank.parts ≡ K.parts }
    requires some { 0 < K.parts }
    requires test { test < 320 }
    requires tree { IsNumberedTree 0 320 (numbered tree.now) }
    ensures leads { IfOk result (λ r. (v : List Bool) → slice_index_or v test false ≡ truth
        → leaf_of (plain r) v ≡ leaf_of (plain tree.now) v) }
    ensures tests { IfOk result (λ r. (count : ℕ) → TestsBelow count (plain tree.now)
        → TestsBelow count (plain r)) }
    ensures numbered { IfOk result (λ r. IsNumberedTree 0 320 (numbered r)) }
{
    let mut steps = Steps::<K>::new(blank);
    let mut forest = Forest::new(alloc);
    let copy = |leaf: &bool| -> Result<bool, NoMemory>
        ensures { result ≡ Ok leaf.now }
    { Ok(*leaf) };
    let own = map_in(alloc, &mut forest, &copy, tree, &mut steps)?;
    let mut cares = Forest::new(alloc);
    let said = literal(alloc, test, truth)?;
    let care = test_tree_in(alloc, &mut cares, &said, &mut steps)?;
    restrict_in(alloc, &mut forest, &own, &mut cares, &care, &mut steps)
}

/// A tree that leads where this one does at each vector at which a test has this truth. It has no other tests.
pub(crate) fn where_test(
    alloc: Global,
    tree: &Tree<bool>,
    test: u32,
    truth: bool,
) -> Result<Tree<bool>, NoMemory>
    requires test { test < 320 }
    requires tree { IsNumberedTree 0 320 (numbered tree.now) }
    ensures leads { IfOk result (λ r. (v : List Bool) → slice_index_or v test false ≡ truth
        → leaf_of (plain r) v ≡ leaf_of (plain tree.now) v) }
    ensures tests { IfOk result (λ r. (count : ℕ) → TestsBelow count (plain tree.now)
        → TestsBelow count (plain r)) }
    ensures numbered { IfOk result (λ r. IsNumberedTree 0 320 (numbered r)) }
{
    where_counted::<Brand>(alloc, tree, test, truth, Blank::new(1))
}

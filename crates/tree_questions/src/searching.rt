//! The least valid configuration at which a tree is false.
//!
//! A tree with few paths is asked about by one formula. Of another the first test, in the order of features, is decided both
//! ways, and what is left of the tree is asked again: first where the test has its truth at the least configuration that meets
//! what is decided so far. A side is not looked at where it is true at all vectors, or where the least configuration that meets
//! what is decided is not before the best one that was found. Where each feature has tests of its own and no constraint links
//! them, each side that is looked at has the answer, so there are as many steps as tests.
#![tactic(auto)]

ghost use Rattle.std.specs.Prelude.{◌≡◌, ◌+◌, ◌<◌, ◌&&◌, ◌*◌, ℤ, List, true, not, length, IfOk, IfSome, None};
ghost use Rattle.linear_atoms.specs.Atoms.{AreAtoms};
ghost use Rattle.cpp_conditions.specs.Numbering.{vector_at};
ghost use Rattle.cpp_conditions.specs.Propositions.{IsBelow, true_on};
ghost use Rattle.cpp_conditions.specs.Validity.{IsConfig};
ghost use Rattle.cpp_conditions.specs.View.{formula};
ghost use Rattle.decision_tree.specs.Listed.{IsNumberedTree};
ghost use Rattle.decision_tree.specs.Plain.{TestsBelow, leaf, leaf_of};
ghost use Rattle.decision_tree.specs.View.{numbered, plain};
ghost use Rattle.atom_solver.specs.Solutions.{Finds, IsBefore, IsFirst};
ghost use Rattle.tree_questions.specs.Least.{IsBehind, Improves, is_met};
ghost use Rattle.tree_questions.specs.Asked.{IsAsked, HasCount, IsAhead};

use crate::choosing::next_test;
use crate::comparing::improves;
use crate::evaluating::{leaf_at, truth_at};
use crate::restricting::{where_test, with_test};
use atom_solver::Prepared;
use cpp_conditions::Formula;
use cpp_conditions::formulas::both;
use decision_tree::Tree;
use fam_outer::{MOST_TESTS, NoMemory};
use linear_atoms::{Atom, Config};
use std::alloc::Global;
use tree_unify::untrue;

/// What all questions are asked of: a prepared model, and the atoms whose numbers are tests.
#[derive(Clone, Copy)]
struct Question<'a> {
    prepared: &'a Prepared<'a>,
    atoms: &'a [Atom],
}

/// Whether a tree is the leaf true.
fn is_true(tree: &Tree<bool>) -> bool
    ensures { result ≡ true → plain tree.now ≡ leaf true }
{
    match tree {
        Tree::Leaf(leaf) => leaf.value,
        Tree::Node(_) => false,
    }
}

/// The best one so far, or the least configuration that meets what is wanted and leads the tree to false, if that is before it:
/// asked for by one formula.
fn by_formula(
    alloc: Global,
    question: &Question,
    wanted: &Formula,
    tree: &Tree<bool>,
    best: Option<Config>,
) -> Result<Option<Config>, NoMemory>
    requires { IsAsked question.now (formula wanted.now) (numbered tree.now) best }
    ensures found { IfOk result (λ found. Improves question.now.prepared.now
        (is_met question.now.atoms.now (formula wanted.now) (plain tree.now)) best found) }
    ensures count { IfOk result (HasCount question.now) }
{
    let untrue = untrue(alloc, tree)?;
    let wanted = wanted.copy(alloc)?;
    let asked = both(alloc, wanted, untrue)?;
    match question
        .prepared
        .least_where(alloc, question.atoms, &asked)?
    {
        None => Ok(best),
        Some(found) => {
            if improves(&best, &found) {
                Ok(Some(found))
            } else {
                Ok(best)
            }
        }
    }
}

/// The best one so far, or the least configuration that meets what is wanted and leads the tree to false, if that is before it.
#[cycle(search)]
fn search(
    alloc: Global,
    question: &Question,
    wanted: &Formula,
    tree: &Tree<bool>,
    best: Option<Config>,
    left: u32,
) -> Result<Option<Config>, NoMemory>
    requires { IsAsked question.now (formula wanted.now) (numbered tree.now) best }
    ensures found { IfOk result (λ found. Improves question.now.prepared.now
        (is_met question.now.atoms.now (formula wanted.now) (plain tree.now)) best found) }
    ensures count { IfOk result (HasCount question.now) }
{
    if is_true(tree) {
        return Ok(best);
    }
    match question
        .prepared
        .least_where(alloc, question.atoms, wanted)?
    {
        None => Ok(best),
        Some(least) => {
            if improves(&best, &least) {
                improve(alloc, question, wanted, tree, best, least, left)
            } else {
                Ok(best)
            }
        }
    }
}

/// The same, where the least configuration that meets what is wanted is known, and before the best one.
#[cycle(search)]
fn improve(
    alloc: Global,
    question: &Question,
    wanted: &Formula,
    tree: &Tree<bool>,
    best: Option<Config>,
    least: Config,
    left: u32,
) -> Result<Option<Config>, NoMemory>
    requires asked { IsAsked question.now (formula wanted.now) (numbered tree.now) best }
    requires least { IsFirst question.now.prepared.now
        (λ (values : List ℤ). true_on (vector_at question.now.atoms.now values) (formula wanted.now)) least.values }
    requires config { IsConfig question.now.prepared.now.features least.values }
    requires ahead { IsAhead best least }
    ensures found { IfOk result (λ found. Improves question.now.prepared.now
        (is_met question.now.atoms.now (formula wanted.now) (plain tree.now)) best found) }
    ensures count { IfOk result (HasCount question.now) }
{
    if is_true(tree) {
        return Ok(best);
    }
    if !leaf_at(tree, question.atoms, &least) {
        return Ok(Some(least));
    }
    if left == 0 {
        return by_formula(alloc, question, wanted, tree, best);
    }
    match next_test(alloc, question.atoms, tree)? {
        None => by_formula(alloc, question, wanted, tree, best),
        Some(test) => {
            let truth = truth_at(question.atoms, test, &least);
            let near = where_test(alloc, tree, test, truth)?;
            let far = where_test(alloc, tree, test, !truth)?;
            let wanted_near = with_test(alloc, wanted, test, truth)?;
            let wanted_far = with_test(alloc, wanted, test, !truth)?;
            let found = improve(alloc, question, &wanted_near, &near, best, least, left - 1)?;
            search(alloc, question, &wanted_far, &far, found, left - 1)
        }
    }
}

/// The least of the valid configurations that meet a formula and at whose vectors a tree is false. It answers None exactly where
/// there is none, and an error only for want of memory.
///
/// The tree has numbers, as those of a forest have, and its tests and the numbers of the formula are below the number of atoms,
/// which are well formed over the features.
pub fn least_untrue_where(
    alloc: Global,
    prepared: &Prepared,
    atoms: &[Atom],
    wanted: &Formula,
    tree: &Tree<bool>,
) -> Result<Option<Config>, NoMemory>
    requires atoms { AreAtoms (length prepared.now.features) atoms.now }
    requires numbers { IsBelow (length atoms.now) (formula wanted.now) }
    requires tests { TestsBelow (length atoms.now) (plain tree.now) }
    requires tree { IsNumberedTree 0 320 (numbered tree.now) }
    ensures { IfOk result (λ found. Finds prepared.now
        (is_met atoms.now (formula wanted.now) (plain tree.now)) found) }
{
    let question = Question { prepared, atoms };
    search(alloc, &question, wanted, tree, None, MOST_TESTS as u32)
}

/// The least of the valid configurations at whose vectors a tree is false. It answers None exactly where there is none, and an
/// error only for want of memory.
///
/// The tree has numbers, as those of a forest have, and its tests are numbers of the atoms, which are well formed over the features.
pub fn least_untrue(
    alloc: Global,
    prepared: &Prepared,
    atoms: &[Atom],
    tree: &Tree<bool>,
) -> Result<Option<Config>, NoMemory>
    requires atoms { AreAtoms (length prepared.now.features) atoms.now }
    requires tests { TestsBelow (length atoms.now) (plain tree.now) }
    requires tree { IsNumberedTree 0 320 (numbered tree.now) }
    ensures { IfOk result (λ found. Finds prepared.now
        (λ (values : List ℤ). not (leaf_of (plain tree.now) (vector_at atoms.now values))) found) }
{
    least_untrue_where(alloc, prepared, atoms, &Formula::Const(true), tree)
}

//! Operations on small trees, with ample memory, and how often an operation is called.

ghost use Rattle.std.specs.Prelude.{◌≡◌, ◌⊎◌, ◌+◌, ◌<◌, ◌≤◌, IfOk};
ghost use Rattle.decision_tree.specs.Plain.{IsExact};
ghost use Rattle.decision_tree.specs.Listed.{IsNumberedTree, IsTreeIn, Keeps};
ghost use Rattle.decision_tree.specs.View.{numbered, plain};
ghost use Rattle.cpp_conditions.specs.Propositions.{IsBelow};
ghost use Rattle.cpp_conditions.specs.View.{formula};

use cpp_conditions::Formula;
use decision_tree::{Forest, Tree};
use fam_outer::NoMemory;
use std::alloc::Global;
use std::cell::Cell;
use std::hash::Hash;
use std::marker::Brand;
use std::sync::ledger::{Blank, Ledger};
use std::test::Fail;
use tree_unify::{Operation, Steps, map_in, test_tree_in, unify_in};

/// The sum of two numbers.
#[derive(Drop)]
struct Sum;

impl Operation<u32, u32, u32> for Sum {
    ghost takes = { λ _ _ _. Unit {0} };

    ghost gives = { λ _ _ _ _. Unit {0} };

    fn apply(&self, first: &u32, second: &u32) -> Result<u32, NoMemory> {
        Ok(first.wrapping_add(*second))
    }
}

/// Whether the sum of two small trees and a map of one are those that are worked out by hand.
#[tactic(auto, using(decision_tree::proofs::Numbers::stays, decision_tree::proofs::Numbers::keeps_both, decision_tree::proofs::Numbers::numbered_in))]
fn are_leafwise<K: Ledger>(alloc: Global, blank: Blank) -> Result<bool, NoMemory>
    requires name { blank.name ≡ K.name }
    requires parts { blank.parts ≡ K.parts }
    requires some { 0 < K.parts }
{
    let mut steps = Steps::<K>::new(blank);
    let mut forest = Forest::new(alloc);
    let one = forest.leaf(1u32)?;
    let two = forest.leaf(2u32)?;
    let t = forest.node(0, &one, &two)?;
    let u = forest.node(0, &two, &one)?;
    let three = forest.leaf(3u32)?;
    let sum = unify_in(alloc, &mut forest, &Sum, &t, &u, &mut steps)?;
    let turn = |a: &u32| Ok(3u32.wrapping_sub(*a));
    let turned = map_in(alloc, &mut forest, &turn, &t, &mut steps)?;
    Ok(sum.number() == three.number() && turned.number() == u.number())
}

#[test]
fn operations_are_leafwise(rt: HostRuntime) -> Result<(), Fail> {
    let answers = match are_leafwise::<Brand>(rt.alloc(), Blank::new(1)) {
        Ok(answers) => answers,
        Err(NoMemory) => are_leafwise::<Brand>(rt.alloc(), Blank::new(1))?,
    };
    assert!(rt; answers);
    Ok(())
}

/// The greater of two values of any type.
#[derive(Drop)]
struct Greater;

impl<L: Ord + Copy> Operation<L, L, L> for Greater {
    ghost takes = { λ _ _ _. Unit {0} };

    ghost gives = { λ _ a b c. (c ≡ a) ⊎ (c ≡ b) };

    fn apply(&self, first: &L, second: &L) -> Result<L, NoMemory> {
        if *first < *second {
            Ok(*second)
        } else {
            Ok(*first)
        }
    }
}

/// The greater leaf at every vector, of two trees over one type parameter.
fn greater_in<L: Ord + Copy + Hash + Drop, K: Ledger>(
    alloc: Global,
    forest: &mut Forest<L>,
    t: &Tree<L>,
    u: &Tree<L>,
    steps: &mut Steps<K>,
) -> Result<Tree<L>, NoMemory>
    requires t { IsNumberedTree 0 320 (numbered t.now) }
    requires u { IsNumberedTree 0 320 (numbered u.now) }
    requires exact { IsExact L.eq }
    ensures tree { IfOk result (λ r. IsTreeIn 0 320 forest.new (numbered r)) }
{
    unify_in(alloc, forest, &Greater, t, u, steps)
}

/// Whether the greater leaves of small trees are those that are worked out by hand.
#[tactic(auto, using(decision_tree::proofs::Numbers::numbered_in))]
fn are_greater<K: Ledger>(alloc: Global, blank: Blank) -> Result<bool, NoMemory>
    requires name { blank.name ≡ K.name }
    requires parts { blank.parts ≡ K.parts }
    requires some { 0 < K.parts }
{
    let mut steps = Steps::<K>::new(blank);
    let mut forest = Forest::new(alloc);
    let t = parity_trees(&mut forest, 0, 1, 3)?;
    let joined = greater_in(alloc, &mut forest, &t.even, &t.odd, &mut steps)?;
    let three = forest.leaf(3u32)?;
    Ok(joined.number() == three.number())
}

#[test]
fn trees_over_a_type_parameter(rt: HostRuntime) -> Result<(), Fail> {
    let answers = match are_greater::<Brand>(rt.alloc(), Blank::new(1)) {
        Ok(answers) => answers,
        Err(NoMemory) => are_greater::<Brand>(rt.alloc(), Blank::new(1))?,
    };
    assert!(rt; answers);
    Ok(())
}

/// The formula "test 0, or not test 1".
fn zero_or_not_one(alloc: Global) -> Result<Formula, NoMemory>
    ensures { IfOk result (λ f. IsBelow 320 (formula f)) }
{
    let one = Box::new(alloc, Formula::Test(1))?;
    let not_one = Box::new(alloc, Formula::Not(one))?;
    let zero = Box::new(alloc, Formula::Test(0))?;
    Ok(Formula::Or(zero, not_one))
}

/// Whether the forest's tree of that formula is the one that is worked out by hand.
#[tactic(auto, using(decision_tree::proofs::Numbers::stays, decision_tree::proofs::Numbers::keeps_both))]
fn is_formula_tree<K: Ledger>(alloc: Global, blank: Blank) -> Result<bool, NoMemory>
    requires name { blank.name ≡ K.name }
    requires parts { blank.parts ≡ K.parts }
    requires some { 0 < K.parts }
{
    let mut steps = Steps::<K>::new(blank);
    let mut forest = Forest::new(alloc);
    let on = forest.leaf(true)?;
    let off = forest.leaf(false)?;
    let low = forest.node(1, &on, &off)?;
    let tree = forest.node(0, &low, &on)?;
    let f = zero_or_not_one(alloc)?;
    let made = test_tree_in(alloc, &mut forest, &f, &mut steps)?;
    Ok(made.number() == tree.number())
}

#[test]
fn formulas_have_their_trees(rt: HostRuntime) -> Result<(), Fail> {
    let answers = match is_formula_tree::<Brand>(rt.alloc(), Blank::new(1)) {
        Ok(answers) => answers,
        Err(NoMemory) => is_formula_tree::<Brand>(rt.alloc(), Blank::new(1))?,
    };
    assert!(rt; answers);
    Ok(())
}

/// The formula that one test implies another.
pub(crate) fn implication(alloc: Global, greater: u32, lesser: u32) -> Result<Formula, NoMemory>
    requires greater { greater < 320 }
    requires lesser { lesser < 320 }
    ensures { IfOk result (λ f. IsBelow 320 (formula f)) }
{
    let greater = Box::new(alloc, Formula::Test(greater))?;
    let without = Box::new(alloc, Formula::Not(greater))?;
    let lesser = Box::new(alloc, Formula::Test(lesser))?;
    Ok(Formula::Or(without, lesser))
}

/// The formula that the tests of eight features are plausible, which have eight bounds each in a row of 64 tests: of two
/// neighbouring tests of one feature the later, with the greater bound, implies the earlier.
fn bounds_in_order(alloc: Global) -> Result<Formula, NoMemory>
    ensures { IfOk result (λ f. IsBelow 320 (formula f)) }
{
    let mut all = Formula::Const(true);
    for test in 1..64 {
        if test % 8 > 0 {
            let next = implication(alloc, test, test - 1)?;
            all = Formula::And(Box::new(alloc, all)?, Box::new(alloc, next)?);
        }
    }
    Ok(all)
}

/// Whether the forest's tree of that formula is true and false where the formula is. It has 9 to the power of 8 paths.
#[tactic(auto, using(decision_tree::proofs::Numbers::numbered_in))]
fn is_plausible_tree<K: Ledger>(alloc: Global, blank: Blank) -> Result<bool, NoMemory>
    requires name { blank.name ≡ K.name }
    requires parts { blank.parts ≡ K.parts }
    requires some { 0 < K.parts }
{
    let mut steps = Steps::<K>::new(blank);
    let mut forest = Forest::new(alloc);
    let f = bounds_in_order(alloc)?;
    let tree = test_tree_in(alloc, &mut forest, &f, &mut steps)?;
    let mut good = [false; 320];
    let none = *tree.leaf_at(&good);
    good[8] = true;
    good[9] = true;
    good[56] = true;
    let some = *tree.leaf_at(&good);
    let mut bad = [true; 320];
    let all = *tree.leaf_at(&bad);
    bad[63] = false;
    let most = *tree.leaf_at(&bad);
    bad[62] = false;
    bad[63] = true;
    let last = *tree.leaf_at(&bad);
    good[1] = true;
    let first = *tree.leaf_at(&good);
    Ok(none && some && all && most && !last && !first)
}

#[test]
fn formulas_of_many_parts(rt: HostRuntime) -> Result<(), Fail> {
    let answers = match is_plausible_tree::<Brand>(rt.alloc(), Blank::new(1)) {
        Ok(answers) => answers,
        Err(NoMemory) => is_plausible_tree::<Brand>(rt.alloc(), Blank::new(1))?,
    };
    assert!(rt; answers);
    Ok(())
}

/// The trees over the tests from one on whose leaf is 0 or `odd` by the number of true tests: for an even number 0 and
/// for an odd one `odd`, and the other way round.
#[derive(Drop)]
struct Parity {
    even: Tree<u32>,
    odd: Tree<u32>,
}

#[tactic(auto, using(decision_tree::proofs::Numbers::stays, decision_tree::proofs::Numbers::keeps_both))]
fn parity_trees(
    forest: &mut Forest<u32>,
    first: u32,
    end: u32,
    odd: u32,
) -> Result<Parity, NoMemory>
    requires order { first ≤ end }
    requires small { end ≤ 320 }
    ensures even { IfOk result (λ p. IsTreeIn first 320 forest.new (numbered p.even)) }
    ensures odd { IfOk result (λ p. IsTreeIn first 320 forest.new (numbered p.odd)) }
    ensures keeps { Keeps forest.old forest.new }
{
    if first == end {
        let no = forest.leaf(0)?;
        let yes = forest.leaf(odd)?;
        return Ok(Parity { even: no, odd: yes });
    }
    let rest = parity_trees(forest, first + 1, end, odd)?;
    let no = forest.node(first, &rest.even, &rest.odd)?;
    let yes = forest.node(first, &rest.odd, &rest.even)?;
    Ok(Parity { even: no, odd: yes })
}

/// The parity trees, once more after want of memory.
#[tactic(auto, using(decision_tree::proofs::Numbers::keeps_both))]
fn parity_trees_again(forest: &mut Forest<u32>, end: u32, odd: u32) -> Result<Parity, NoMemory>
    requires small { end ≤ 320 }
    ensures { IfOk result (λ p. IsTreeIn 0 320 forest.new (numbered p.even)) }
{
    match parity_trees(forest, 0, end, odd) {
        Ok(trees) => Ok(trees),
        Err(NoMemory) => parity_trees(forest, 0, end, odd),
    }
}

/// The sum of two numbers, which counts its calls.
#[derive(Drop)]
struct CountedSum<'a> {
    calls: &'a Cell<u32>,
}

impl Operation<u32, u32, u32> for CountedSum<'_> {
    ghost takes = { λ _ _ _. Unit {0} };

    ghost gives = { λ _ _ _ _. Unit {0} };

    fn apply(&self, first: &u32, second: &u32) -> Result<u32, NoMemory> {
        self.calls.set(self.calls.get().wrapping_add(1));
        Ok(first.wrapping_add(*second))
    }
}

/// Whether the sum of the parity of some tests with itself is that with 0 and 2, made by two calls of the addition: one
/// for two leaves 0, and one for two leaves 1. The double of each leaf takes two calls too, and each call of the
/// operation after want of memory takes more. Trees of one forest are compared by their numbers.
#[tactic(auto, using(decision_tree::proofs::Numbers::numbered_in))]
fn doubles<K: Ledger>(alloc: Global, blank: Blank, tests: u32) -> Result<bool, NoMemory>
    requires name { blank.name ≡ K.name }
    requires parts { blank.parts ≡ K.parts }
    requires some { 0 < K.parts }
    requires small { tests ≤ 320 }
{
    let mut steps = Steps::<K>::new(blank);
    let mut ones = Forest::new(alloc);
    let mut twos = Forest::new(alloc);
    let wanted = parity_trees_again(&mut twos, tests, 2)?.even;
    let t = parity_trees_again(&mut ones, tests, 1)?.even;
    let calls = Cell::new(0u32);
    let failures = Cell::new(0u32);
    let add = CountedSum { calls: &calls };
    let sum = match unify_in(alloc, &mut twos, &add, &t, &t, &mut steps) {
        Ok(sum) => sum,
        Err(NoMemory) => {
            failures.set(1);
            unify_in(alloc, &mut twos, &add, &t, &t, &mut steps)?
        }
    };
    let double = |a: &u32| {
        calls.set(calls.get().wrapping_add(1));
        Ok(a.wrapping_add(*a))
    };
    let mapped = match map_in(alloc, &mut twos, &double, &t, &mut steps) {
        Ok(mapped) => mapped,
        Err(NoMemory) => {
            failures.set(1);
            map_in(alloc, &mut twos, &double, &t, &mut steps)?
        }
    };
    let same = sum.number() == wanted.number() && mapped.number() == wanted.number();
    let few = calls.get() == 4 || (failures.get() == 1 && calls.get() > 4);
    Ok(same && few)
}

#[test]
fn shared_trees_take_few_steps(rt: HostRuntime) -> Result<(), Fail> {
    let few = doubles::<Brand>(rt.alloc(), Blank::new(1), 10)?;
    assert!(rt; few);
    let many = doubles::<Brand>(rt.alloc(), Blank::new(1), 40)?;
    assert!(rt; many);
    Ok(())
}

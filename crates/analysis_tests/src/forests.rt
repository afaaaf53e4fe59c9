//! Trees and forests made by hand, with ample memory.

ghost use Rattle.std.specs.Prelude.{◌≡◌, ◌+◌, ◌<◌, IfOk};
ghost use Rattle.decision_tree.specs.Plain.{leaf, TestsBelow};
ghost use Rattle.decision_tree.specs.Listed.{IsTreeIn, Keeps};
ghost use Rattle.decision_tree.specs.View.{numbered, plain};

use decision_tree::{Forest, Tree};
use fam_outer::NoMemory;
use std::alloc::Global;
use std::test::Fail;

/// The tree of "not test 1, or test 0".
#[tactic(auto, using(decision_tree::proofs::Numbers::stays))]
fn formula_tree(alloc: Global) -> Result<Tree<bool>, NoMemory>
    ensures { IfOk result (λ t. TestsBelow 2 (plain t)) }
{
    let mut forest = Forest::new(alloc);
    let on = forest.leaf(true)?;
    let off = forest.leaf(false)?;
    let low = forest.node(1, &on, &off)?;
    forest.node(0, &low, &on)
}

/// The same, once more after want of memory.
fn formula_tree_again(alloc: Global) -> Result<Tree<bool>, NoMemory>
    ensures { IfOk result (λ t. TestsBelow 2 (plain t)) }
{
    match formula_tree(alloc) {
        Ok(tree) => Ok(tree),
        Err(NoMemory) => formula_tree(alloc),
    }
}

/// A leaf of the forest, once more after want of memory.
#[tactic(auto, using(decision_tree::proofs::Numbers::keeps_same, decision_tree::proofs::Numbers::keeps_both))]
fn leaf_again(forest: &mut Forest<u32>, value: u32) -> Result<Tree<u32>, NoMemory>
    ensures same { IfOk result (λ t. plain t ≡ leaf value) }
    ensures tree { IfOk result (λ t. IsTreeIn 0 320 forest.new (numbered t)) }
    ensures keeps { Keeps forest.old forest.new }
{
    match forest.leaf(value) {
        Ok(tree) => Ok(tree),
        Err(NoMemory) => forest.leaf(value),
    }
}

/// A node of the forest, once more after want of memory.
#[tactic(auto, using(decision_tree::proofs::Numbers::stays, decision_tree::proofs::Numbers::keeps_both))]
fn node_again(
    forest: &mut Forest<u32>,
    test: u32,
    no: &Tree<u32>,
    yes: &Tree<u32>,
) -> Result<Tree<u32>, NoMemory>
    requires small { test < 320 }
    requires no { IsTreeIn (test + 1) 320 forest.old (numbered no.now) }
    requires yes { IsTreeIn (test + 1) 320 forest.old (numbered yes.now) }
    ensures tree { IfOk result (λ t. IsTreeIn test 320 forest.new (numbered t)) }
    ensures keeps { Keeps forest.old forest.new }
{
    match forest.node(test, no, yes) {
        Ok(tree) => Ok(tree),
        Err(NoMemory) => forest.node(test, no, yes),
    }
}

#[test]
fn leaves_at_vectors(rt: HostRuntime) -> Result<(), Fail> {
    let one = Tree::leaf(rt.alloc(), 1u32)?;
    let shared = one.share()?;
    assert!(rt; shared.number() == 0 && *shared.leaf_at(&[]) == 1);
    let tree = formula_tree_again(rt.alloc())?;
    for (a, b, leaf) in [
        (false, false, true),
        (false, true, false),
        (true, false, true),
        (true, true, true),
    ] {
        assert!(rt; *tree.leaf_at(&[a, b]) == leaf);
    }
    Ok(())
}

#[test]
fn paths_begin_with_no(rt: HostRuntime) -> Result<(), Fail> {
    let tree = formula_tree(rt.alloc())?;
    let paths = match tree.paths(rt.alloc()) {
        Ok(paths) => paths,
        Err(NoMemory) => tree.paths(rt.alloc())?,
    };
    assert!(rt; paths.len() == 3);
    assert!(rt;
        paths[0].turns.items() == [(0, false), (1, false)].as_slice() && paths[0].leaf.value
    );
    assert!(rt;
        paths[1].turns.items() == [(0, false), (1, true)].as_slice() && !paths[1].leaf.value
    );
    assert!(rt; paths[2].turns.items() == [(0, true)].as_slice() && paths[2].leaf.value);
    Ok(())
}

#[test]
#[tactic(auto, using(decision_tree::proofs::Numbers::stays))]
fn forests_make_each_tree_once(rt: HostRuntime) -> Result<(), Fail> {
    let mut forest = Forest::new(rt.alloc());
    let one = leaf_again(&mut forest, 1u32)?;
    let two = leaf_again(&mut forest, 2u32)?;
    let again = leaf_again(&mut forest, 1u32)?;
    assert!(rt; one.number() == 1 && two.number() == 2 && again.number() == 1);
    let t = node_again(&mut forest, 1, &one, &two)?;
    let u = node_again(&mut forest, 1, &two, &one)?;
    let same = node_again(&mut forest, 1, &one, &two)?;
    assert!(rt; t.number() == 3 && u.number() == 4 && same.number() == 3);
    let equal = node_again(&mut forest, 0, &t, &same)?;
    assert!(rt; equal.number() == 3);
    let top = node_again(&mut forest, 0, &t, &u)?;
    assert!(rt; top.number() == 5);
    Ok(())
}

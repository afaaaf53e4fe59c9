//! Operations on numbered trees, which call the operation once for each pair of different leaves.
ghost use Rattle.std.specs.Prelude.{◌≡◌, ◌+◌, ◌*◌, ◌<◌, ◌≤◌, List, length, IfOk, OnOk};
ghost use Rattle.decision_tree.specs.Plain.{Plain, leaf, IsNodeOf, IsReduced, TestsBelow, IsExact};
ghost use Rattle.decision_tree.specs.Numbered.{kept, IsWithin, IsNumbered};
ghost use Rattle.decision_tree.specs.Listed.{IsNumberedTree, IsTreeIn, IsOf, Keeps};
ghost use Rattle.decision_tree.specs.View.{numbered, plain};
ghost use Rattle.tree_unify.specs.Calls.{TakesLeaves};
ghost use Rattle.tree_unify.specs.Known.{IsKnown, IsWalked};
ghost use Rattle.tree_unify.specs.Leafwise.{IsUnified, LeavesComeFromBoth, TestsAreOfEither};
ghost use Rattle.tree_unify.specs.Leaves.{HoldsLeaves};
ghost use Rattle.tree_unify.specs.Subtrees.{HoldsSubtrees};
ghost use Rattle.tree_unify.specs.Made.{IsMade, IsNoted, IsNotedWithin};

use crate::memo::{Memo, Pair, find, remember};
use crate::operation::Operation;
use crate::sides::{first, side, value_of};
use crate::steps::Steps;
use decision_tree::{Forest, Kept, Tree};
use fam_outer::NoMemory;
use indexmap::IndexMap;
use std::alloc::Global;
use std::hash::Hash;
use std::marker::Brand;
use std::sync::ledger::{Blank, Ledger};

/// The operands of a call, whose subtrees its memo knows by their numbers.
#[derive(Drop)]
struct Operands<'a, A, B> {
    t: &'a Tree<A>,
    u: &'a Tree<B>,
}

/// What the operation gives for two leaves. Its call is one step.
fn call_counted<A, B, C, K: Ledger, F: Operation<A, B, C>>(
    op: &F,
    a: &Kept<A>,
    b: &Kept<B>,
    steps: &mut Steps<K>,
) -> Result<C, NoMemory>
    requires takes { TakesLeaves (F.takes op.now) (leaf a.now.value) (leaf b.now.value) }
    ensures answer { IfOk result (λ c. F.gives op.now a.now.value b.now.value c) }
    ensures counted { steps.new ≡ steps.old + 1 }
{
    steps.tick();
    op.apply(value_of(a), value_of(b))
}

/// The leaf that the operation gives for two leaves, noted for their pair: one step.
fn unify_new<A, B, C: Eq + Hash + Drop, K: Ledger, F: Operation<A, B, C>>(
    forest: &mut Forest<C>,
    op: &F,
    a: &Kept<A>,
    b: &Kept<B>,
    pair: Pair,
    entries: &mut IndexMap<Pair, Tree<C>>,
    steps: &mut Steps<K>,
) -> Result<Tree<C>, NoMemory>
    requires takes { TakesLeaves (F.takes op.now) (leaf a.now.value) (leaf b.now.value) }
    requires exact { IsExact C.eq }
    ensures made { IfOk result (λ r. IsMade (F.gives op.now) forest.new
        (leaf a.now.value) (leaf b.now.value) (numbered r)) }
    ensures noted { IfOk result (λ r. IsNoted pair (numbered r)
        entries.old.entries entries.new.entries) }
    ensures counted { steps.new ≡ steps.old + 1 }
    ensures keeps { Keeps forest.old forest.new }
{
    let made = call_counted(op, a, b, steps)?;
    let tree = forest.leaf(made)?;
    let noted = tree.share()?;
    remember(entries, pair, noted)?;
    Ok(tree)
}

/// The leaf for two leaves, with what is known of pairs so far: one step, where their pair is not known.
fn unify_leaves<A, B, C: Eq + Hash + Drop, K: Ledger, F: Operation<A, B, C>>(
    forest: &mut Forest<C>,
    op: &F,
    whole: &Operands<'_, A, B>,
    a: &Kept<A>,
    b: &Kept<B>,
    memo: &mut Memo<C>,
    steps: &mut Steps<K>,
) -> Result<Tree<C>, NoMemory>
    requires takes { TakesLeaves (F.takes op.now) (leaf a.now.value) (leaf b.now.value) }
    requires t_numbered { IsNumbered (numbered whole.now.t.now) }
    requires u_numbered { IsNumbered (numbered whole.now.u.now) }
    requires a_within { IsWithin (kept a.now.number a.now.value) (numbered whole.now.t.now) }
    requires b_within { IsWithin (kept b.now.number b.now.value) (numbered whole.now.u.now) }
    requires exact { IsExact C.eq }
    requires known { IsKnown (F.gives op.now) forest.old
        (numbered whole.now.t.now) (numbered whole.now.u.now)
        memo.old.leaves.entries memo.old.nodes.entries }
    ensures made { IfOk result (λ r. IsMade (F.gives op.now) forest.new
        (leaf a.now.value) (leaf b.now.value) (numbered r)) }
    ensures known { OnOk result (IsKnown (F.gives op.now) forest.new
        (numbered whole.now.t.now) (numbered whole.now.u.now)
        memo.new.leaves.entries memo.new.nodes.entries) }
    ensures counted { OnOk result (steps.new + length memo.old.leaves.entries
        ≡ steps.old + length memo.new.leaves.entries) }
    ensures bounded { (xs : List A) (ys : List B)
        → HoldsLeaves xs (plain whole.now.t.now) → HoldsLeaves ys (plain whole.now.u.now)
        → steps.new + length memo.old.leaves.entries ≤ steps.old + length xs * length ys }
    ensures nodes { memo.new.nodes.entries ≡ memo.old.nodes.entries }
    ensures keeps { Keeps forest.old forest.new }
{
    let pair = Pair {
        left: a.number,
        right: b.number,
    };
    if let Some(known) = find(&memo.leaves, &pair) {
        return known.share();
    }
    unify_new(forest, op, a, b, pair, &mut memo.leaves, steps)
}

/// The forest's tree of a test and two sides, noted for the pair that it is made of: one step.
fn note_node<C: Eq + Hash + Drop, N: Ledger>(
    forest: &mut Forest<C>,
    test: u32,
    no: &Tree<C>,
    yes: &Tree<C>,
    pair: Pair,
    entries: &mut IndexMap<Pair, Tree<C>>,
    nodes: &mut Steps<N>,
) -> Result<Tree<C>, NoMemory>
    requires small { test < 320 }
    requires no { IsTreeIn (test + 1) 320 forest.old (numbered no.now) }
    requires yes { IsTreeIn (test + 1) 320 forest.old (numbered yes.now) }
    ensures made { IfOk result (λ r. IsNodeOf test (plain no.now) (plain yes.now) (plain r)) }
    ensures own { IfOk result (λ r. IsOf forest.new (numbered r)) }
    ensures noted { IfOk result (λ r. IsNoted pair (numbered r)
        entries.old.entries entries.new.entries) }
    ensures counted { nodes.new ≡ nodes.old + 1 }
    ensures keeps { Keeps forest.old forest.new }
{
    nodes.tick();
    let tree = forest.node(test, no, yes)?;
    let noted = tree.share()?;
    remember(entries, pair, noted)?;
    Ok(tree)
}

/// The tree that is made of two subtrees of the operands, with what is known of pairs so far.
#[tactic(auto, using(crate::proofs::SideLemmas::small_side, crate::proofs::SideLemmas::reduced_side, crate::proofs::Pairs::fewer_of_two, crate::proofs::Pairs::takes_sides, decision_tree::proofs::Numbers::keeps_both))]
fn unify_known<A, B, C: Eq + Hash + Drop, K: Ledger, N: Ledger, F: Operation<A, B, C>>(
    forest: &mut Forest<C>,
    op: &F,
    whole: &Operands<'_, A, B>,
    t: &Tree<A>,
    u: &Tree<B>,
    memo: &mut Memo<C>,
    steps: &mut Steps<K>,
    nodes: &mut Steps<N>,
) -> Result<Tree<C>, NoMemory>
    requires takes { TakesLeaves (F.takes op.now) (plain t.now) (plain u.now) }
    requires t_numbered { IsNumbered (numbered whole.now.t.now) }
    requires u_numbered { IsNumbered (numbered whole.now.u.now) }
    requires t_within { IsWithin (numbered t.now) (numbered whole.now.t.now) }
    requires u_within { IsWithin (numbered u.now) (numbered whole.now.u.now) }
    requires t_small { TestsBelow 320 (plain t.now) }
    requires u_small { TestsBelow 320 (plain u.now) }
    requires t_reduced { IsReduced (plain t.now) }
    requires u_reduced { IsReduced (plain u.now) }
    requires exact { IsExact C.eq }
    requires known { IsKnown (F.gives op.now) forest.old
        (numbered whole.now.t.now) (numbered whole.now.u.now)
        memo.old.leaves.entries memo.old.nodes.entries }
    requires walked { IsWalked (numbered whole.now.t.now) (numbered whole.now.u.now)
        memo.old.nodes.entries }
    ensures made { IfOk result (λ r. IsMade (F.gives op.now) forest.new
        (plain t.now) (plain u.now) (numbered r)) }
    ensures known { OnOk result (IsKnown (F.gives op.now) forest.new
        (numbered whole.now.t.now) (numbered whole.now.u.now)
        memo.new.leaves.entries memo.new.nodes.entries) }
    ensures counted { OnOk result (steps.new + length memo.old.leaves.entries
        ≡ steps.old + length memo.new.leaves.entries) }
    ensures bounded { (xs : List A) (ys : List B)
        → HoldsLeaves xs (plain whole.now.t.now) → HoldsLeaves ys (plain whole.now.u.now)
        → steps.new + length memo.old.leaves.entries ≤ steps.old + length xs * length ys }
    ensures walked { OnOk result (IsWalked (numbered whole.now.t.now) (numbered whole.now.u.now)
        memo.new.nodes.entries) }
    ensures within { OnOk result (IsNotedWithin (numbered t.now) (numbered u.now)
        memo.old.nodes.entries memo.new.nodes.entries) }
    ensures nodes { OnOk result (nodes.new + length memo.old.nodes.entries
        ≡ nodes.old + length memo.new.nodes.entries) }
    ensures room { (xs : List (Plain A)) (ys : List (Plain B))
        → HoldsSubtrees xs (plain whole.now.t.now) → HoldsSubtrees ys (plain whole.now.u.now)
        → nodes.new + length memo.old.nodes.entries ≤ nodes.old + length xs * length ys }
    ensures keeps { Keeps forest.old forest.new }
{
    if let (Tree::Leaf(a), Tree::Leaf(b)) = (t, u) {
        return unify_leaves(forest, op, whole, a, b, memo, steps);
    }
    let pair = Pair {
        left: t.number(),
        right: u.number(),
    };
    if let Some(known) = find(&memo.nodes, &pair) {
        return known.share();
    }
    let k = first(t).min(first(u));
    let no = unify_known(
        forest,
        op,
        whole,
        side(t, k, false),
        side(u, k, false),
        memo,
        steps,
        nodes,
    )?;
    let yes = unify_known(
        forest,
        op,
        whole,
        side(t, k, true),
        side(u, k, true),
        memo,
        steps,
        nodes,
    )?;
    note_node(forest, k, &no, &yes, pair, &mut memo.nodes, nodes)
}

/// The forest's tree that has, at every vector, what the operation gives for the leaves of `t` and `u` there, and how many nodes
/// it asks the forest for.
///
/// One call of the operation is one step, and there is at most one for each leaf value of `t` with each of `u`, at want
/// of memory too. One call of `Forest::node` is one step of `nodes`, and there is at most one for each different subtree of `t`
/// with each of `u`: no pair is taken apart twice.
///
/// The operation must take each leaf of `t` with each of `u`. Both trees must be reduced, with tests below 320, and numbered; they may
/// be of other forests. `==` of the new leaves must be equality of values. It answers an error only for want of memory; then too the
/// forest has all that it had, and may have more.
#[tactic(auto, using(crate::proofs::Making::known_empty, crate::proofs::Walked::walked_empty, crate::proofs::Within::within_self))]
pub fn unify_counted<A, B, C: Eq + Hash + Drop, K: Ledger, N: Ledger, F: Operation<A, B, C>>(
    alloc: Global,
    forest: &mut Forest<C>,
    op: &F,
    t: &Tree<A>,
    u: &Tree<B>,
    steps: &mut Steps<K>,
    nodes: &mut Steps<N>,
) -> Result<Tree<C>, NoMemory>
    requires takes { TakesLeaves (F.takes op.now) (plain t.now) (plain u.now) }
    requires t { IsNumberedTree 0 320 (numbered t.now) }
    requires u { IsNumberedTree 0 320 (numbered u.now) }
    requires exact { IsExact C.eq }
    ensures unified { IfOk result
        (λ r. IsUnified (F.gives op.now) (plain t.now) (plain u.now) (plain r)) }
    ensures leaves { IfOk result
        (λ r. LeavesComeFromBoth (F.gives op.now) (plain t.now) (plain u.now) (plain r)) }
    ensures tests { IfOk result (λ r. TestsAreOfEither (plain t.now) (plain u.now) (plain r)) }
    ensures tree { IfOk result (λ r. IsTreeIn 0 320 forest.new (numbered r)) }
    ensures keeps { Keeps forest.old forest.new }
    ensures steps { (xs : List A) (ys : List B)
        → HoldsLeaves xs (plain t.now) → HoldsLeaves ys (plain u.now)
        → steps.new ≤ steps.old + length xs * length ys }
    ensures nodes { (xs : List (Plain A)) (ys : List (Plain B))
        → HoldsSubtrees xs (plain t.now) → HoldsSubtrees ys (plain u.now)
        → nodes.new ≤ nodes.old + length xs * length ys }
{
    let mut memo = Memo {
        leaves: IndexMap::new(alloc),
        nodes: IndexMap::new(alloc),
    };
    unify_known(
        forest,
        op,
        &Operands { t, u },
        t,
        u,
        &mut memo,
        steps,
        nodes,
    )
}

/// `unify_in`, with a count of nodes that nobody reads.
fn unify_blank<A, B, C: Eq + Hash + Drop, K: Ledger, N: Ledger, F: Operation<A, B, C>>(
    alloc: Global,
    forest: &mut Forest<C>,
    op: &F,
    t: &Tree<A>,
    u: &Tree<B>,
    steps: &mut Steps<K>,
    blank: Blank,
) -> Result<Tree<C>, NoMemory>
    requires name { blank.name ≡ N.name }
    requires parts { blank.parts ≡ N.parts }
    requires some { 0 < N.parts }
    requires takes { TakesLeaves (F.takes op.now) (plain t.now) (plain u.now) }
    requires t { IsNumberedTree 0 320 (numbered t.now) }
    requires u { IsNumberedTree 0 320 (numbered u.now) }
    requires exact { IsExact C.eq }
    ensures unified { IfOk result
        (λ r. IsUnified (F.gives op.now) (plain t.now) (plain u.now) (plain r)) }
    ensures leaves { IfOk result
        (λ r. LeavesComeFromBoth (F.gives op.now) (plain t.now) (plain u.now) (plain r)) }
    ensures tests { IfOk result (λ r. TestsAreOfEither (plain t.now) (plain u.now) (plain r)) }
    ensures tree { IfOk result (λ r. IsTreeIn 0 320 forest.new (numbered r)) }
    ensures keeps { Keeps forest.old forest.new }
    ensures steps { (xs : List A) (ys : List B)
        → HoldsLeaves xs (plain t.now) → HoldsLeaves ys (plain u.now)
        → steps.new ≤ steps.old + length xs * length ys }
{
    let mut nodes = Steps::<N>::new(blank);
    unify_counted(alloc, forest, op, t, u, steps, &mut nodes)
}

/// The forest's tree that has, at every vector, what the operation gives for the leaves of `t` and `u` there.
///
/// One call of the operation is one step, and there is at most one for each leaf value of `t` with each of `u`, at want
/// of memory too. The conditions are those of `unify_counted`, which it calls, and so is what it may refuse.
pub fn unify_in<A, B, C: Eq + Hash + Drop, K: Ledger, F: Operation<A, B, C>>(
    alloc: Global,
    forest: &mut Forest<C>,
    op: &F,
    t: &Tree<A>,
    u: &Tree<B>,
    steps: &mut Steps<K>,
) -> Result<Tree<C>, NoMemory>
    requires takes { TakesLeaves (F.takes op.now) (plain t.now) (plain u.now) }
    requires t { IsNumberedTree 0 320 (numbered t.now) }
    requires u { IsNumberedTree 0 320 (numbered u.now) }
    requires exact { IsExact C.eq }
    ensures unified { IfOk result
        (λ r. IsUnified (F.gives op.now) (plain t.now) (plain u.now) (plain r)) }
    ensures leaves { IfOk result
        (λ r. LeavesComeFromBoth (F.gives op.now) (plain t.now) (plain u.now) (plain r)) }
    ensures tests { IfOk result (λ r. TestsAreOfEither (plain t.now) (plain u.now) (plain r)) }
    ensures tree { IfOk result (λ r. IsTreeIn 0 320 forest.new (numbered r)) }
    ensures keeps { Keeps forest.old forest.new }
    ensures steps { (xs : List A) (ys : List B)
        → HoldsLeaves xs (plain t.now) → HoldsLeaves ys (plain u.now)
        → steps.new ≤ steps.old + length xs * length ys }
{
    unify_blank::<A, B, C, K, Brand, F>(alloc, forest, op, t, u, steps, Blank::new(1))
}

//! Maps of numbered trees: operations whose second operand has no value.
ghost use Rattle.std.specs.Prelude.{◌≡◌, ◌+◌, ◌<◌, ◌≤◌, List, length, IfOk, Ok};
ghost use Rattle.std.specs.Fn.{FnReturnsAt};
ghost use Rattle.decision_tree.specs.Plain.{Plain, IsExact};
ghost use Rattle.decision_tree.specs.Listed.{IsNumberedTree, IsTreeIn, Keeps};
ghost use Rattle.decision_tree.specs.View.{numbered, plain};
ghost use Rattle.tree_unify.specs.Calls.{IsCallableAt};
ghost use Rattle.tree_unify.specs.Leafwise.{IsMapped, LeavesComeFrom, TestsAreOf};
ghost use Rattle.tree_unify.specs.Leaves.{HoldsLeaves};
ghost use Rattle.tree_unify.specs.Subtrees.{HoldsSubtrees};

use crate::numbered::unify_counted;
use crate::operation::Operation;
use crate::steps::Steps;
use decision_tree::{Forest, Tree};
use fam_outer::NoMemory;
use std::alloc::Global;
use std::hash::Hash;
use std::marker::Brand;
use std::sync::ledger::{Blank, Ledger};

/// A map as an operation whose second operand has no value.
#[derive(Drop)]
struct OfFirst<'a, F> {
    f: &'a F,
}

impl<A, B, F: Fn(&A) -> Result<B, NoMemory>> Operation<A, (), B> for OfFirst<'_, F> {
    ghost use Rattle.std.specs.Prelude.{◌≡◌, Ok};
    ghost use Rattle.std.specs.Borrow.{Bor};
    ghost use Rattle.std.specs.Fn.{FnReturnsAt};

    ghost takes = { λ op a _. (p : Bor A) → p.now ≡ a → F.pre op.f.now p };

    ghost gives = { λ op a _ b. FnReturnsAt F.Fn op.f.now a (Ok b) };

    fn apply(&self, first: &A, _second: &()) -> Result<B, NoMemory> {
        (self.f)(first)
    }
}

/// The forest's tree that has, at every vector, what the operation gives for the leaf of `t` there, and how many nodes it asks the
/// forest for.
///
/// One call of the operation is one step, and there is at most one for each leaf value of `t`, at want of memory too. One call of
/// `Forest::node` is one step of `nodes`, and there is at most one for each different subtree of `t`: none is taken apart twice.
///
/// The operation must be callable at each leaf of `t`. The tree must be reduced, with tests below 320, and numbered; it may be of
/// another forest. `==` of the new leaves must be equality of values. It answers an error only for want of memory; then too the
/// forest has all that it had, and may have more.
#[tactic(auto, using(crate::proofs::Within::numbered_leaf, decision_tree::proofs::Numbers::keeps_same))]
pub fn map_counted<A, B: Eq + Hash + Drop, K: Ledger, N: Ledger, F: Fn(&A) -> Result<B, NoMemory>>(
    alloc: Global,
    forest: &mut Forest<B>,
    f: &F,
    t: &Tree<A>,
    steps: &mut Steps<K>,
    nodes: &mut Steps<N>,
) -> Result<Tree<B>, NoMemory>
    requires callable { IsCallableAt F.Fn f.now (plain t.now) }
    requires t { IsNumberedTree 0 320 (numbered t.now) }
    requires exact { IsExact B.eq }
    ensures mapped { IfOk result
        (λ r. IsMapped (λ a b. FnReturnsAt F.Fn f.now a (Ok b)) (plain t.now) (plain r)) }
    ensures leaves { IfOk result
        (λ r. LeavesComeFrom (λ a b. FnReturnsAt F.Fn f.now a (Ok b)) (plain t.now) (plain r)) }
    ensures tests { IfOk result (λ r. TestsAreOf (plain t.now) (plain r)) }
    ensures tree { IfOk result (λ r. IsTreeIn 0 320 forest.new (numbered r)) }
    ensures keeps { Keeps forest.old forest.new }
    ensures steps { (xs : List A) → HoldsLeaves xs (plain t.now)
        → steps.new ≤ steps.old + length xs }
    ensures nodes { (xs : List (Plain A)) → HoldsSubtrees xs (plain t.now)
        → nodes.new ≤ nodes.old + length xs }
{
    let unit = Tree::leaf(alloc, ())?;
    unify_counted(alloc, forest, &OfFirst { f }, t, &unit, steps, nodes)
}

/// `map_in`, with a count of nodes that nobody reads.
fn map_blank<A, B: Eq + Hash + Drop, K: Ledger, N: Ledger, F: Fn(&A) -> Result<B, NoMemory>>(
    alloc: Global,
    forest: &mut Forest<B>,
    f: &F,
    t: &Tree<A>,
    steps: &mut Steps<K>,
    blank: Blank,
) -> Result<Tree<B>, NoMemory>
    requires name { blank.name ≡ N.name }
    requires parts { blank.parts ≡ N.parts }
    requires some { 0 < N.parts }
    requires callable { IsCallableAt F.Fn f.now (plain t.now) }
    requires t { IsNumberedTree 0 320 (numbered t.now) }
    requires exact { IsExact B.eq }
    ensures mapped { IfOk result
        (λ r. IsMapped (λ a b. FnReturnsAt F.Fn f.now a (Ok b)) (plain t.now) (plain r)) }
    ensures leaves { IfOk result
        (λ r. LeavesComeFrom (λ a b. FnReturnsAt F.Fn f.now a (Ok b)) (plain t.now) (plain r)) }
    ensures tests { IfOk result (λ r. TestsAreOf (plain t.now) (plain r)) }
    ensures tree { IfOk result (λ r. IsTreeIn 0 320 forest.new (numbered r)) }
    ensures keeps { Keeps forest.old forest.new }
    ensures steps { (xs : List A) → HoldsLeaves xs (plain t.now)
        → steps.new ≤ steps.old + length xs }
{
    let mut nodes = Steps::<N>::new(blank);
    map_counted(alloc, forest, f, t, steps, &mut nodes)
}

/// The forest's tree that has, at every vector, what the operation gives for the leaf of `t` there.
///
/// One call of the operation is one step, and there is at most one for each leaf value of `t`, at want of memory too. The
/// conditions are those of `map_counted`, which it calls, and so is what it may refuse.
pub fn map_in<A, B: Eq + Hash + Drop, K: Ledger, F: Fn(&A) -> Result<B, NoMemory>>(
    alloc: Global,
    forest: &mut Forest<B>,
    f: &F,
    t: &Tree<A>,
    steps: &mut Steps<K>,
) -> Result<Tree<B>, NoMemory>
    requires callable { IsCallableAt F.Fn f.now (plain t.now) }
    requires t { IsNumberedTree 0 320 (numbered t.now) }
    requires exact { IsExact B.eq }
    ensures mapped { IfOk result
        (λ r. IsMapped (λ a b. FnReturnsAt F.Fn f.now a (Ok b)) (plain t.now) (plain r)) }
    ensures leaves { IfOk result
        (λ r. LeavesComeFrom (λ a b. FnReturnsAt F.Fn f.now a (Ok b)) (plain t.now) (plain r)) }
    ensures tests { IfOk result (λ r. TestsAreOf (plain t.now) (plain r)) }
    ensures tree { IfOk result (λ r. IsTreeIn 0 320 forest.new (numbered r)) }
    ensures keeps { Keeps forest.old forest.new }
    ensures steps { (xs : List A) → HoldsLeaves xs (plain t.now)
        → steps.new ≤ steps.old + length xs }
{
    map_blank::<A, B, K, Brand, F>(alloc, forest, f, t, steps, Blank::new(1))
}

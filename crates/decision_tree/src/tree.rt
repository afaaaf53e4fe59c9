//! Trees of tests over leaves, shared by their owners.
ghost use Rattle.std.specs.Prelude.{◌≡◌, ◌↔◌, ◌⊎◌, ℕ, Bool, List, ◌+◌, ◌<◌, length, IfOk, IsTrue};
ghost use Rattle.std.proofs.Common.{rules};
ghost use Rattle.std.specs.Cmp.Rules.{comparing, hashing};
ghost use Rattle.decision_tree.specs.Plain.{Plain, node, leaf_of, TestsBelow, IsReducedFrom, IsReduced, AgreeAtAll, IsNodeOf, IsExact};
ghost use Rattle.decision_tree.specs.Numbered.{Numbered, kept, branch, erase, root, IsNumbered};
ghost use Rattle.decision_tree.specs.Listed.{IsOf};
ghost use Rattle.decision_tree.specs.View.{numbered, plain};

use fam_outer::NoMemory;
use std::alloc::Global;
use std::hash::{Hash, Hasher};
use std::rc::Rc;

/// A leaf with its number, which is 0 outside a forest. Equality and hash are those of the value alone.
#[derive(Drop)]
pub struct Kept<L> {
    pub number: u64,
    pub value: L,
}

impl<L: PartialEq> PartialEq for Kept<L> {
    ghost eq = { λ a b. L.eq a.value b.value };

    ghost laws = { Prim.search (comparing, rules) };

    fn eq(&self, other: &Kept<L>) -> bool {
        self.value == other.value
    }
}

impl<L: Eq> Eq for Kept<L> {
    ghost laws = { Prim.search (comparing, rules) };
}

impl<L: Hash> Hash for Kept<L> {
    ghost hash_input = { λ a. L.hash_input a.value };

    ghost respects_eq = { Prim.search (hashing, rules) };

    fn hash<H: Hasher>(&self, state: &mut H) {
        self.value.hash(state);
    }
}

/// A numbered test, with the tree where it is false and that where it is true. Forests make nodes, each once.
#[cycle(tree)]
#[derive(Drop)]
pub struct Node<L> {
    pub number: u64,
    pub test: u32,
    pub no: Tree<L>,
    pub yes: Tree<L>,
}

/// A tree of tests over leaves (a decision diagram after Bryant). It is reduced where its tests rise on each path and
/// no node has equal children.
#[cycle(tree)]
#[derive(Drop)]
pub enum Tree<L> {
    Leaf(Rc<Kept<L>>),
    Node(Rc<Node<L>>),
}

impl<L> Tree<L> {
    /// The number of the root.
    ///
    /// Two trees of one forest are equal exactly where their numbers are, and so are any two subtrees of a tree of a forest.
    #[tactic(auto, using(crate::proofs::Numbers::numbers_tell, crate::proofs::Numbers::numbered_in))]
    pub fn number(&self) -> u64
        ensures number { result ≡ root (numbered self.now) }
        ensures tells { (forest : List (Plain L)) (u : Numbered L)
            → IsOf forest (numbered self.now) → IsOf forest u
            → ((result ≡ root u) ↔ (plain self.now ≡ erase u)) }
        ensures inside { (forest : List (Plain L))
            → IsOf forest (numbered self.now) → IsNumbered (numbered self.now) }
    {
        match self {
            Tree::Leaf(leaf) => leaf.number,
            Tree::Node(node) => node.number,
        }
    }

    /// The leaf to which a vector leads. All tests must be below its length.
    pub fn leaf_at(&self, vector: &[bool]) -> &L
        requires { TestsBelow (length vector.now) (plain self.now) }
        ensures { result.now ≡ leaf_of (plain self.now) vector.now }
    {
        match self {
            Tree::Leaf(leaf) => &leaf.value,
            Tree::Node(node) => {
                if vector[node.test as usize] {
                    node.yes.leaf_at(vector)
                } else {
                    node.no.leaf_at(vector)
                }
            }
        }
    }
}

impl<L: Drop> Tree<L> {
    /// A leaf with the number 0.
    pub fn leaf(alloc: Global, value: L) -> Result<Tree<L>, NoMemory>
        ensures { IfOk result (λ t. numbered t ≡ kept 0 value) }
    {
        Ok(Tree::Leaf(Rc::new(alloc, Kept { number: 0, value })?))
    }

    /// The same tree, with one more owner.
    pub fn share(&self) -> Result<Tree<L>, NoMemory>
        ensures { IfOk result (λ t. numbered t ≡ numbered self.now) }
    {
        match self {
            Tree::Leaf(leaf) => Ok(Tree::Leaf(leaf.clone()?)),
            Tree::Node(node) => Ok(Tree::Node(node.clone()?)),
        }
    }
}

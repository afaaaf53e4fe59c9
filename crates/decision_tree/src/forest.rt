//! Forests: tables that make each tree once, and number it.
ghost use Rattle.std.specs.Prelude.{◌≡◌, ◌⊎◌, Bool, ◌+◌, ◌<◌, IfOk, List, [], ◌∷◌, ◌++◌, OnOk, OnErr, None};
ghost use Rattle.std.specs.Option.{option_copied};
ghost use Rattle.std.specs.Map.{lookup};
ghost use Rattle.decision_tree.specs.Keys.{same_key};
ghost use Rattle.decision_tree.specs.Plain.{leaf, node, leaf_of, IsExact, IsNodeOf};
ghost use Rattle.decision_tree.specs.Listed.{IsTreeIn, Keeps};
ghost use Rattle.decision_tree.specs.View.{numbered, plain};

use crate::tree::{Kept, Node, Tree};
use fam_outer::NoMemory;
use indexmap::IndexMap;
use std::alloc::Global;
use std::hash::Hash;
use std::marker::Model;
use std::rc::Rc;

/// What tells the entries of a forest apart: a leaf by its value, a node by its test and its children's numbers.
#[derive(PartialEq, Eq, Hash, Drop)]
enum Key<L> {
    Leaf(Rc<Kept<L>>),
    Node(u32, u64, u64),
}

/// The tree at a key.
fn find<'a, L: Eq + Hash>(
    entries: &'a IndexMap<Key<L>, Tree<L>>,
    key: &Key<L>,
) -> Option<&'a Tree<L>>
    ensures { option_copied result ≡ lookup (same_key L.eq key.now) entries.now.entries }
{
    entries.get(key)
}

/// Adds a tree at a new key.
fn add<L: Eq + Hash + Drop>(
    entries: &mut IndexMap<Key<L>, Tree<L>>,
    key: Key<L>,
    tree: Tree<L>,
) -> Result<(), NoMemory>
    requires { lookup (same_key L.eq key) entries.old.entries ≡ None }
    ensures ok { OnOk result (entries.new.entries ≡ entries.old.entries ++ (key, tree) ∷ []) }
    ensures err { OnErr result (entries.new.entries ≡ entries.old.entries) }
{
    entries.insert(key, tree)?;
    Ok(())
}

/// A unique table: each leaf and each node is made once (Bryant's reduced ordered diagrams, shared as by Brace, Rudell
/// and Bryant). Contracts see the list of its leaves and nodes, each of which has the number of its place from 1 on.
#[derive(Drop)]
pub struct Forest<L: Eq + Hash> {
    alloc: Global,
    entries: IndexMap<Key<L>, Tree<L>>,
}

impl<L: Eq + Hash> Model for Forest<L> {
    ghost use Rattle.std.specs.Prelude.{List};
    ghost use Rattle.std.specs.Coded.{coded_list};
    ghost use Rattle.decision_tree.specs.Plain.{Plain};
    ghost use Rattle.decision_tree.specs.PlainCode.{plain_code};

    ghost Value = { List (Plain L) };

    ghost coded = { coded_list (plain_code L.code) };

    ghost use Rattle.decision_tree.specs.Entries.{trees, AreEntries};

    ghost view = { λ a. trees a.entries.entries };

    ghost invariant = { λ a. AreEntries a.entries.entries };
}

impl<L: Eq + Hash + Drop> Forest<L> {
    /// An empty forest, which takes no memory. Its tables will be of this allocator.
    pub fn new(alloc: Global) -> Forest<L>
        ensures { result ≡ [] }
    {
        Forest {
            alloc,
            entries: IndexMap::new(alloc),
        }
    }

    /// The forest's leaf with this value, made where it has none. `==` of the leaves must be equality of values.
    pub fn leaf(&mut self, value: L) -> Result<Tree<L>, NoMemory>
        requires { IsExact L.eq }
        ensures same { IfOk result (λ t. plain t ≡ leaf value) }
        ensures tree { IfOk result (λ t. IsTreeIn 0 320 self.new (numbered t)) }
        ensures added { IfOk result (λ t. (self.new ≡ self.old)
            ⊎ (self.new ≡ self.old ++ leaf value ∷ [])) }
        ensures unchanged { OnErr result (self.new ≡ self.old) }
        ensures keeps { Keeps self.old self.new }
    {
        let number = self.entries.len() as u64 + 1;
        let kept = Rc::new(self.alloc, Kept { number, value })?;
        let key = Key::Leaf(kept.clone()?);
        if let Some(found) = find(&self.entries, &key) {
            return found.share();
        }
        let made = Tree::Leaf(kept);
        let answer = made.share()?;
        add(&mut self.entries, key, made)?;
        Ok(answer)
    }

    /// The forest's tree that tests first and goes on at `no` or `yes`, made where it has none: `no` itself where they
    /// are equal, and then the forest stays as it was. The test must be below 320, and both reduced trees of this forest
    /// whose tests are greater.
    #[tactic(auto, using(crate::proofs::Nodes::tree_of_equal))]
    pub fn node(&mut self, test: u32, no: &Tree<L>, yes: &Tree<L>) -> Result<Tree<L>, NoMemory>
        requires small { test < 320 }
        requires no { IsTreeIn (test + 1) 320 self.old (numbered no.now) }
        requires yes { IsTreeIn (test + 1) 320 self.old (numbered yes.now) }
        ensures made { IfOk result (λ t. IsNodeOf test (plain no.now) (plain yes.now) (plain t)) }
        ensures tree { IfOk result (λ t. IsTreeIn test 320 self.new (numbered t)) }
        ensures leads { IfOk result (λ t. (v : List Bool)
            → leaf_of (plain t) v ≡ leaf_of (node test (plain no.now) (plain yes.now)) v) }
        ensures added { IfOk result (λ t. (self.new ≡ self.old)
            ⊎ (self.new ≡ self.old ++ node test (plain no.now) (plain yes.now) ∷ [])) }
        ensures equal { plain no.now ≡ plain yes.now → self.new ≡ self.old }
        ensures unchanged { OnErr result (self.new ≡ self.old) }
        ensures keeps { Keeps self.old self.new }
    {
        if no.number() == yes.number() {
            return no.share();
        }
        let key = Key::Node(test, no.number(), yes.number());
        if let Some(known) = find(&self.entries, &key) {
            return known.share();
        }
        let number = self.entries.len() as u64 + 1;
        let no = no.share()?;
        let yes = yes.share()?;
        let made = Tree::Node(Rc::new(
            self.alloc,
            Node {
                number,
                test,
                no,
                yes,
            },
        )?);
        let answer = made.share()?;
        add(&mut self.entries, key, made)?;
        Ok(answer)
    }
}

//! The paths of a tree.
ghost use Rattle.std.specs.Prelude.{◌≡◌, ◌∷◌, ◌++◌, [], List, ℕ, Bool, IfOk, OnOk};
ghost use Rattle.decision_tree.specs.Paths.{paths_from, paths_of};
ghost use Rattle.decision_tree.specs.Shown.{shown};
ghost use Rattle.decision_tree.specs.View.{plain};

use crate::tree::{Kept, Tree};
use fam_outer::NoMemory;
use smallvec::SmallVec;
use std::alloc::Global;
use std::marker::Model;
use std::rc::Rc;

/// Tests and their values, from the root on.
#[derive(Drop)]
pub struct Turns {
    list: SmallVec<(u32, bool), 8>,
}

impl Model for Turns {
    ghost use Rattle.std.specs.Prelude.{List, ℕ, Bool};

    ghost Value = { List (ℕ × Bool) };

    ghost view = { λ a. a.list.items };
}

impl Turns {
    /// The turns of a list.
    pub fn from_vec(list: SmallVec<(u32, bool), 8>) -> Turns
        ensures { result ≡ list.items }
    {
        Turns { list }
    }

    /// The turns.
    pub fn items(&self) -> &[(u32, bool)]
        ensures { result.now ≡ self.now }
    {
        self.list.as_slice()
    }

    fn copy(&self, alloc: Global) -> Result<Turns, NoMemory>
        ensures { IfOk result (λ turns. turns ≡ self.now) }
    {
        Ok(Turns {
            list: SmallVec::from_slice(alloc, self.list.as_slice())?,
        })
    }

    fn push(&mut self, test: u32, value: bool) -> Result<(), NoMemory>
        ensures { OnOk result (self.new ≡ self.old ++ (test, value) ∷ []) }
    {
        self.list.push((test, value))?;
        Ok(())
    }

    fn pop(&mut self)
        ensures { (turns : List (ℕ × Bool)) (turn : ℕ × Bool)
            → self.old ≡ turns ++ turn ∷ [] → self.new ≡ turns }
    {
        self.list.pop();
    }
}

/// A way from the root to a leaf.
#[derive(Drop)]
pub struct Path<L> {
    pub turns: Turns,
    pub leaf: Rc<Kept<L>>,
}

/// Adds the paths of a tree that is reached by these turns.
fn gather<L: Drop>(
    alloc: Global,
    t: &Tree<L>,
    turns: &mut Turns,
    list: &mut Vec<Path<L>>,
) -> Result<(), NoMemory>
    ensures told { OnOk result
        (shown list.new.items ≡ shown list.old.items ++ paths_from turns.old (plain t.now)) }
    ensures back { OnOk result (turns.new ≡ turns.old) }
{
    match t {
        Tree::Leaf(leaf) => {
            let turns = turns.copy(alloc)?;
            let leaf = leaf.clone()?;
            list.push(Path { turns, leaf })?;
            Ok(())
        }
        Tree::Node(node) => {
            turns.push(node.test, false)?;
            gather(alloc, &node.no, turns, list)?;
            turns.pop();
            turns.push(node.test, true)?;
            gather(alloc, &node.yes, turns, list)?;
            turns.pop();
            Ok(())
        }
    }
}

impl<L: Drop> Tree<L> {
    /// All paths, at each node those of the `no` side first.
    pub fn paths(&self, alloc: Global) -> Result<Vec<Path<L>>, NoMemory>
        ensures { IfOk result (λ paths. shown paths.items ≡ paths_of (plain self.now)) }
    {
        let mut turns = Turns {
            list: SmallVec::new(alloc),
        };
        let mut list = Vec::new(alloc);
        gather(alloc, self, &mut turns, &mut list)?;
        Ok(list)
    }
}

//! What one call with one operation has made, by the numbers of its operands' subtrees.
ghost use Rattle.std.specs.Prelude.{◌≡◌, OnOk};
ghost use Rattle.std.specs.Option.{option_copied};
ghost use Rattle.std.specs.Map.{lookup};
ghost use Rattle.indexmap.specs.IndexMap.{insert_entry};
ghost use Rattle.tree_unify.specs.Made.{same_pair};

use decision_tree::Tree;
use fam_outer::NoMemory;
use indexmap::IndexMap;

/// The numbers of two trees.
#[derive(Clone, Copy, PartialEq, Eq, Hash)]
pub struct Pair {
    pub left: u64,
    pub right: u64,
}

/// The trees that were made for pairs of leaves, and those for other pairs.
#[derive(Drop)]
pub struct Memo<C> {
    pub leaves: IndexMap<Pair, Tree<C>>,
    pub nodes: IndexMap<Pair, Tree<C>>,
}

/// The tree that was made for a pair.
pub fn find<'a, C>(entries: &'a IndexMap<Pair, Tree<C>>, pair: &Pair) -> Option<&'a Tree<C>>
    ensures { option_copied result ≡ lookup (same_pair pair.now) entries.now.entries }
{
    entries.get(pair)
}

/// Notes the tree that was made for a pair.
pub fn remember<C: Drop>(
    entries: &mut IndexMap<Pair, Tree<C>>,
    pair: Pair,
    tree: Tree<C>,
) -> Result<(), NoMemory>
    ensures { OnOk result (entries.new.entries ≡ insert_entry same_pair entries.old.entries pair tree) }
{
    entries.insert(pair, tree)?;
    Ok(())
}

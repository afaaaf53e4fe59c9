//! Lists that follow the blocks of a file: the latest items are given up at the end of a block.
#![tactic(auto)]

ghost use Rattle.std.specs.Prelude.{◌≡◌, ℕ, suc, false, true, List, [], ◌∷◌, ◌++◌, reverse, slice_get, OnOk, if◌then◌else◌};
ghost use Rattle.c_grammar.specs.Scoped.{IsSound, is_inside, still, without_innermost};

use fam_outer::NoMemory;
use std::alloc::Global;

/// Leaves the innermost block, unless it is the outermost.
fn close_innermost(begins: &mut Vec<usize>)
    ensures { reverse begins.new.items ≡ without_innermost (reverse begins.old.items) }
{
    if begins.len() > 1 {
        begins.pop();
    }
}

/// How many items stand before the innermost block.
fn innermost(begins: &[usize]) -> Option<usize>
    ensures { result ≡ slice_get (reverse begins.now) 0 }
{
    begins.last().copied()
}

/// A list of which the items that a block has added are given up where the block is left.
#[derive(Debug, Drop)]
pub struct Scoped<T> {
    items: Vec<T>,
    /// For each open block, the outermost first, how many items stand before it.
    begins: Vec<usize>,
}

impl<T> Scoped<T> {
    /// Without items, outside of all blocks.
    pub fn new(alloc: Global) -> Scoped<T>
        ensures sound { IsSound result }
        ensures empty { (n : ℕ) → still n result ≡ [] }
        ensures outside { is_inside result ≡ false }
    {
        Scoped {
            items: Vec::new(alloc),
            begins: Vec::new(alloc),
        }
    }

    /// The items whose block is open, in their order.
    pub fn items(&self) -> &[T]
        ensures { result.now ≡ still 0 self.now }
    {
        self.items.as_slice()
    }
}

impl<T: Drop> Scoped<T> {
    /// Adds an item, in the innermost block that is open.
    pub fn push(&mut self, item: T) -> Result<(), NoMemory>
        ensures sound { OnOk result (IsSound self.old → IsSound self.new) }
        ensures inside { OnOk result (is_inside self.new ≡ is_inside self.old) }
        ensures now { OnOk result (still 0 self.new ≡ still 0 self.old ++ item ∷ []) }
        ensures later { OnOk result (IsSound self.old → (n : ℕ) → still (suc n) self.new
            ≡ (if is_inside self.old then still (suc n) self.old else still (suc n) self.old ++ item ∷ [])) }
    {
        self.items.push(item)?;
        Ok(())
    }

    /// Opens a block.
    pub fn enter(&mut self) -> Result<(), NoMemory>
        ensures sound { OnOk result (IsSound self.old → IsSound self.new) }
        ensures inside { OnOk result (is_inside self.new ≡ true) }
        ensures now { OnOk result (still 0 self.new ≡ still 0 self.old) }
        ensures later { OnOk result ((n : ℕ) → still (suc n) self.new ≡ still n self.old) }
    {
        self.begins.push(self.items.len())?;
        Ok(())
    }

    /// Leaves the innermost block, and gives up its items. The outermost stays open; outside of all blocks nothing changes.
    pub fn leave(&mut self)
        ensures sound { IsSound self.old → IsSound self.new }
        ensures inside { is_inside self.new ≡ is_inside self.old }
        ensures left { IsSound self.old → (n : ℕ) → still n self.new
            ≡ (if is_inside self.old then still (suc n) self.old else still n self.old) }
    {
        if let Some(begin) = innermost(self.begins.as_slice()) {
            self.items.truncate(begin);
            close_innermost(&mut self.begins);
        }
    }
}

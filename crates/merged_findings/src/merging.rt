//! One tree, restricted to what is plausible.
#![tactic(auto)]

ghost use Rattle.std.specs.Prelude.{◌≡◌, ◌<◌, [], IfOk, Ok};
ghost use Rattle.decision_tree.specs.Listed.{IsNumberedTree, IsTreeIn, Keeps};
ghost use Rattle.decision_tree.specs.View.{numbered, plain};
ghost use Rattle.merged_findings.specs.Restricting.{IsRestrictedTo};

use decision_tree::{Forest, Tree};
use fam_outer::NoMemory;
use leaf_domain::{Leaf, equality_is_exact};
use std::alloc::Global;
use std::sync::ledger::{Blank, Ledger};
use tree_restrict::restrict_in;
use tree_unify::{Steps, map_in};

/// The forests of the trees that are made, that of the tree of what is plausible and its unions, and the count of the steps.
#[derive(Drop)]
pub(crate) struct Tables<L: Leaf, K: Ledger> {
    pub(crate) alloc: Global,
    pub(crate) leaves: Forest<L>,
    pub(crate) truths: Forest<bool>,
    pub(crate) cares: Forest<bool>,
    pub(crate) steps: Steps<K>,
}

impl<L: Leaf, K: Ledger> Tables<L, K> {
    /// Empty forests, and a count at 0.
    pub(crate) fn new(alloc: Global, blank: Blank) -> Tables<L, K>
        requires name { blank.name ≡ K.name }
        requires parts { blank.parts ≡ K.parts }
        requires some { 0 < K.parts }
        ensures cares { result.cares ≡ [] }
    {
        Tables {
            alloc,
            leaves: Forest::new(alloc),
            truths: Forest::new(alloc),
            cares: Forest::new(alloc),
            steps: Steps::<K>::new(blank),
        }
    }
}

/// The same tree in the forest of leaves, with a copy of each leaf.
fn own_leaves<L: Leaf, K: Ledger>(
    tables: &mut Tables<L, K>,
    t: &Tree<L>,
) -> Result<Tree<L>, NoMemory>
    requires { IsNumberedTree 0 320 (numbered t.now) }
    ensures same { IfOk result (λ r. plain r ≡ plain t.now) }
    ensures own { IfOk result (λ r. IsTreeIn 0 320 tables.new.leaves (numbered r)) }
    ensures cares { tables.new.cares ≡ tables.old.cares }
{
    equality_is_exact::<L>();
    let alloc = tables.alloc;
    let copy = |leaf: &L| -> Result<L, NoMemory>
        ensures { IfOk result (λ made. L.value made ≡ L.value leaf.now) }
    { leaf.copy(alloc) };
    map_in(alloc, &mut tables.leaves, &copy, t, &mut tables.steps)
}

/// The same tree in the forest of truths.
fn own_truths<L: Leaf, K: Ledger>(
    tables: &mut Tables<L, K>,
    t: &Tree<bool>,
) -> Result<Tree<bool>, NoMemory>
    requires { IsNumberedTree 0 320 (numbered t.now) }
    ensures same { IfOk result (λ r. plain r ≡ plain t.now) }
    ensures own { IfOk result (λ r. IsTreeIn 0 320 tables.new.truths (numbered r)) }
    ensures cares { tables.new.cares ≡ tables.old.cares }
{
    let alloc = tables.alloc;
    let copy = |truth: &bool| -> Result<bool, NoMemory>
        ensures { result ≡ Ok truth.now }
    { Ok(*truth) };
    map_in(alloc, &mut tables.truths, &copy, t, &mut tables.steps)
}

/// The tree of leaves, restricted to where the care is true.
pub(crate) fn merged_leaves<L: Leaf, K: Ledger>(
    tables: &mut Tables<L, K>,
    care: &Tree<bool>,
    t: &Tree<L>,
) -> Result<Tree<L>, NoMemory>
    requires care { IsTreeIn 0 320 tables.old.cares (numbered care.now) }
    requires tree { IsNumberedTree 0 320 (numbered t.now) }
    ensures merged { IfOk result (λ r. IsRestrictedTo (plain t.now) (plain care.now) (plain r)) }
    ensures cares { Keeps tables.old.cares tables.new.cares }
{
    equality_is_exact::<L>();
    let own = own_leaves(tables, t)?;
    let alloc = tables.alloc;
    restrict_in(
        alloc,
        &mut tables.leaves,
        &own,
        &mut tables.cares,
        care,
        &mut tables.steps,
    )
}

/// The tree of truths, restricted to where the care is true.
pub(crate) fn merged_truths<L: Leaf, K: Ledger>(
    tables: &mut Tables<L, K>,
    care: &Tree<bool>,
    t: &Tree<bool>,
) -> Result<Tree<bool>, NoMemory>
    requires care { IsTreeIn 0 320 tables.old.cares (numbered care.now) }
    requires tree { IsNumberedTree 0 320 (numbered t.now) }
    ensures merged { IfOk result (λ r. IsRestrictedTo (plain t.now) (plain care.now) (plain r)) }
    ensures cares { Keeps tables.old.cares tables.new.cares }
{
    let own = own_truths(tables, t)?;
    let alloc = tables.alloc;
    restrict_in(
        alloc,
        &mut tables.truths,
        &own,
        &mut tables.cares,
        care,
        &mut tables.steps,
    )
}

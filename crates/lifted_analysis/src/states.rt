//! Steps on trees of leaves.
#![tactic(auto)]

ghost use Rattle.std.specs.Prelude.{◌≡◌, ◌&&◌, IfOk, true, false, List, Bool, if◌then◌else◌};
ghost use Rattle.decision_tree.specs.Plain.{leaf_of};
ghost use Rattle.decision_tree.specs.View.{numbered, plain};
ghost use Rattle.leaf_domain.specs.Leaves.{is_nothing_of};
ghost use Rattle.lifted_analysis.specs.declared.operations.Combination.TheVariants.{Join};
ghost use Rattle.lifted_analysis.specs.States.{IsState, IsSized, IsLifted, IsJoint, IsTruth};
ghost use Rattle.lifted_analysis.specs.Rules.{as_wanted};
ghost use Rattle.lifted_analysis.specs.Steps.{IsStepOf, stepped_by, combined_by, kept_by};

use crate::family_context::FamilyContext;
use crate::operations::{Below, Combination, Combine, Guarded, Keep, Step};
use crate::tables::Tables;
use decision_tree::Tree;
use fam_outer::NoMemory;
use leaf_domain::Leaf;
use std::sync::ledger::Ledger;
use tree_unify::{map_in, unify_in};

/// The tree after a step, leaf by leaf.
pub(crate) fn stepped<L: Leaf, K: Ledger>(
    tables: &mut Tables<L, K>,
    family: &FamilyContext,
    step: &Step,
    t: &Tree<L>,
) -> Result<Tree<L>, NoMemory>
    requires state { IsState L.value family.now tables.old.leaves (numbered t.now) }
    requires step { IsStepOf family.now.variables step.now }
    ensures { IfOk result (λ r. IsLifted L.value family.now tables.old.leaves tables.new.leaves
        (λ v. stepped_by L.meaning family.now.options.now.mode step.now) (plain t.now) (numbered r)) }
{
    let alloc = tables.alloc;
    let mode = family.options.mode;
    let act = |leaf: &L| -> Result<L, NoMemory>
        requires { IsStepOf (L.value leaf.now).variables step.now }
        ensures value { IfOk result (λ made. L.value made
            ≡ stepped_by L.meaning mode step.entry.now (L.value leaf.now)) }
        ensures same { IfOk result (λ made. (L.value made).variables ≡ (L.value leaf.now).variables) }
    { step.at(alloc, leaf, mode) };
    map_in(alloc, &mut tables.leaves, &act, t, &mut tables.steps)
}

/// The combination of two trees, leaf by leaf.
pub(crate) fn combined<L: Leaf, K: Ledger>(
    tables: &mut Tables<L, K>,
    family: &FamilyContext,
    how: Combination,
    t: &Tree<L>,
    u: &Tree<L>,
) -> Result<Tree<L>, NoMemory>
    requires t { IsState L.value family.now tables.old.leaves (numbered t.now) }
    requires u { IsState L.value family.now tables.old.leaves (numbered u.now) }
    ensures { IfOk result (λ r. IsJoint L.value family.now tables.old.leaves tables.new.leaves
        (λ v. combined_by L.meaning family.now.options.now.thresholds how) (plain t.now) (plain u.now) (numbered r)) }
{
    let alloc = tables.alloc;
    let op = Combine {
        alloc,
        how,
        thresholds: &family.options.thresholds,
    };
    unify_in(alloc, &mut tables.leaves, &op, t, u, &mut tables.steps)
}

/// The join of two trees, leaf by leaf. Where one is Nothing everywhere it is the other, and no leaf is looked at.
pub(crate) fn joined<L: Leaf, K: Ledger>(
    tables: &mut Tables<L, K>,
    family: &FamilyContext,
    t: &Tree<L>,
    u: &Tree<L>,
) -> Result<Tree<L>, NoMemory>
    requires t { IsState L.value family.now tables.old.leaves (numbered t.now) }
    requires u { IsState L.value family.now tables.old.leaves (numbered u.now) }
    ensures { IfOk result (λ r. IsJoint L.value family.now tables.old.leaves tables.new.leaves
        (λ v. combined_by L.meaning family.now.options.now.thresholds Join) (plain t.now) (plain u.now) (numbered r)) }
{
    if is_nothing_everywhere(u) {
        return t.share();
    }
    if is_nothing_everywhere(t) {
        return u.share();
    }
    combined(tables, family, Combination::Join, t, u)
}

/// Where the leaves of a tree are below those of another.
pub(crate) fn below<L: Leaf, K: Ledger>(
    tables: &mut Tables<L, K>,
    family: &FamilyContext,
    t: &Tree<L>,
    u: &Tree<L>,
) -> Result<Tree<bool>, NoMemory>
    requires t { IsSized L.value family.now (numbered t.now) }
    requires u { IsSized L.value family.now (numbered u.now) }
    ensures truth { IfOk result (λ r. IsTruth family.now (numbered r)) }
    ensures at_each { IfOk result (λ r. (v : List Bool)
        → leaf_of (plain r) v ≡ L.meaning.leq (L.value (leaf_of (plain t.now) v))
        (L.value (leaf_of (plain u.now) v))) }
    ensures same { tables.new.leaves ≡ tables.old.leaves }
{
    let alloc = tables.alloc;
    let _family = family.variables;
    unify_in(alloc, &mut tables.truths, &Below, t, u, &mut tables.steps)
}

/// The tree with Nothing where the truth is other than wanted. Where it is so nowhere, no leaf is copied.
pub(crate) fn kept<L: Leaf, K: Ledger>(
    tables: &mut Tables<L, K>,
    family: &FamilyContext,
    truth: &Tree<bool>,
    want: bool,
    t: &Tree<L>,
) -> Result<Tree<L>, NoMemory>
    requires truth { IsTruth family.now (numbered truth.now) }
    requires state { IsState L.value family.now tables.old.leaves (numbered t.now) }
    ensures { IfOk result (λ r. IsLifted L.value family.now tables.old.leaves tables.new.leaves
        (λ v. kept_by want (leaf_of (plain truth.now) v)) (plain t.now) (numbered r)) }
{
    if is_everywhere(truth, want) {
        return t.share();
    }
    let alloc = tables.alloc;
    let op = Keep { alloc, want };
    unify_in(alloc, &mut tables.leaves, &op, truth, t, &mut tables.steps)
}

/// Where a truth holds and another is as wanted.
pub(crate) fn within<L: Leaf, K: Ledger>(
    tables: &mut Tables<L, K>,
    family: &FamilyContext,
    here: &Tree<bool>,
    choice: &Tree<bool>,
    want: bool,
) -> Result<Tree<bool>, NoMemory>
    requires here { IsTruth family.now (numbered here.now) }
    requires choice { IsTruth family.now (numbered choice.now) }
    ensures truth { IfOk result (λ r. IsTruth family.now (numbered r)) }
    ensures at_each { IfOk result (λ r. (v : List Bool)
        → leaf_of (plain r) v ≡ (leaf_of (plain here.now) v && as_wanted want (leaf_of (plain choice.now) v))) }
    ensures same { tables.new.leaves ≡ tables.old.leaves }
{
    let alloc = tables.alloc;
    let _family = family.variables;
    let op = Guarded { positive: want };
    unify_in(
        alloc,
        &mut tables.truths,
        &op,
        here,
        choice,
        &mut tables.steps,
    )
}

/// The tree with the leaf of `t` where the truth holds, and that of `u` elsewhere.
pub(crate) fn selected<L: Leaf, K: Ledger>(
    tables: &mut Tables<L, K>,
    family: &FamilyContext,
    truth: &Tree<bool>,
    t: &Tree<L>,
    u: &Tree<L>,
) -> Result<Tree<L>, NoMemory>
    requires truth { IsTruth family.now (numbered truth.now) }
    requires t { IsState L.value family.now tables.old.leaves (numbered t.now) }
    requires u { IsState L.value family.now tables.old.leaves (numbered u.now) }
    ensures { IfOk result (λ r. IsJoint L.value family.now tables.old.leaves tables.new.leaves
        (λ v x y. if leaf_of (plain truth.now) v then x else y) (plain t.now) (plain u.now) (numbered r)) }
{
    let where_true = kept(tables, family, truth, true, t)?;
    let where_false = kept(tables, family, truth, false, u)?;
    joined(tables, family, &where_true, &where_false)
}

/// Whether a tree is Nothing at all vectors.
pub(crate) fn is_nothing_everywhere<L: Leaf>(t: &Tree<L>) -> bool
    ensures { result ≡ true → (v : List Bool) → is_nothing_of (L.value (leaf_of (plain t.now) v)) ≡ true }
{
    match t {
        Tree::Leaf(leaf) => leaf.value.is_nothing(),
        Tree::Node(_) => false,
    }
}

/// Whether a tree of truths has the same one, as wanted, at all vectors.
pub(crate) fn is_everywhere(t: &Tree<bool>, want: bool) -> bool
    ensures { result ≡ true → (v : List Bool) → leaf_of (plain t.now) v ≡ want }
{
    match t {
        Tree::Leaf(leaf) => leaf.value == want,
        Tree::Node(_) => false,
    }
}

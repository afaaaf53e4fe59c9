//! The tree of the leaves of the start values.
#![tactic(auto)]

ghost use Rattle.std.specs.Prelude.{◌≡◌, ◌<◌, ◌≤◌, length, IfOk, true, List, Bool, All};
ghost use Rattle.c_tree.specs.Project.{guards_hold};
ghost use Rattle.c_tree.specs.Value.{IsInt};
ghost use Rattle.c_tree.specs.Whole.{IsDeclaredOf};
ghost use Rattle.decision_tree.specs.Plain.{leaf_of};
ghost use Rattle.decision_tree.specs.View.{numbered, plain};
ghost use Rattle.lifted_analysis.specs.States.{IsFamily, IsState, IsTruth, truths_in};
ghost use Rattle.lifted_analysis.specs.Start.{IsTreeAt, AreHeld, IsBeginningOf, set_where, begins_with, begins_at, leaf_with, start_at};

use crate::family_context::FamilyContext;
use crate::operations::Guarded;
use crate::tables::Tables;
use c_tree::{Declarations, Declared, Guard};
use decision_tree::{Forest, Tree};
use fam_outer::NoMemory;
use leaf_domain::Leaf;
use std::alloc::Global;
use std::hash::{Hash, Hasher};
use std::marker::Model;
use std::sync::ledger::Ledger;
use tree_unify::{Operation, map_in, unify_in};

/// The start values of a program's variables.
#[derive(Drop)]
pub(crate) struct StartValues {
    list: Vec<i64>,
}

impl Model for StartValues {
    ghost use Rattle.std.specs.Prelude.{List, ℤ};

    ghost Value = { List ℤ };

    ghost view = { λ values. values.list.items };
}

impl PartialEq for StartValues {
    ghost use Rattle.std.proofs.Common.{rules};
    ghost use Rattle.std.specs.Cmp.Rules.{comparing};
    ghost use Rattle.std.specs.Cmp.Lexicographic.{pointwise};
    ghost use Rattle.std.specs.Ordering.{int_eq};

    ghost eq = { pointwise int_eq };

    ghost laws = { Prim.search (comparing, rules) };

    fn eq(&self, other: &StartValues) -> bool {
        self.list == other.list
    }
}

impl Eq for StartValues {
    ghost use Rattle.std.proofs.Common.{rules};
    ghost use Rattle.std.specs.Cmp.Rules.{comparing};

    ghost laws = { Prim.search (comparing, rules) };
}

impl Hash for StartValues {
    ghost use Rattle.std.proofs.Common.{rules};
    ghost use Rattle.std.specs.Cmp.Rules.{hashing};
    ghost use Rattle.std.specs.Hash as fed;

    ghost hash_input = { fed.slice fed.i64 };

    ghost respects_eq = { Prim.search (hashing, rules) };

    fn hash<H: Hasher>(&self, state: &mut H) {
        self.list.hash(state);
    }
}

/// What a variant begins with: the start values of its variables, or nothing where it is not plausible.
#[derive(PartialEq, Eq, Hash, Drop)]
enum Beginning {
    Nothing,
    Values(StartValues),
}

impl StartValues {
    /// The values with that of a declarator set, where the truth holds.
    fn declared(
        &self,
        alloc: Global,
        truth: bool,
        declared: &Declared,
    ) -> Result<StartValues, NoMemory>
        ensures { IfOk result (λ made. made ≡ set_where truth declared.now.target declared.now.value self.now) }
    {
        let mut list = Vec::from_slice(alloc, self.list.as_slice())?;
        let value = declared.value;
        if truth && let Some(n) = list.get_mut(declared.target as usize) {
            *n = value;
        }
        Ok(StartValues { list })
    }
}

impl Beginning {
    /// The leaf of the start values, or Nothing.
    fn leaf<L: Leaf>(&self, alloc: Global, variables: u32) -> Result<L, NoMemory>
        requires few { variables ≤ 48 }
        requires fits { IsBeginningOf variables self.now }
        ensures { IfOk result (λ leaf. L.value leaf ≡ leaf_with L.meaning variables self.now) }
    {
        match self {
            Beginning::Nothing => L::nothing(alloc, variables),
            Beginning::Values(values) => L::start(alloc, values.list.as_slice()),
        }
    }
}

/// What a variant begins with after a declarator, whose value is set where the truth holds. Nothing stays nothing.
#[derive(Drop)]
struct Declare<'a> {
    alloc: Global,
    declared: &'a Declared,
}

impl Operation<bool, Beginning, Beginning> for Declare<'_> {
    ghost use Rattle.std.specs.Prelude.{◌≡◌};
    ghost use Rattle.lifted_analysis.specs.Start.{declared_by};

    ghost takes = { λ _ _ _. Unit {0} };

    ghost gives = { λ op b v w. w ≡ declared_by b op.declared.now.target op.declared.now.value v };

    fn apply(&self, first: &bool, second: &Beginning) -> Result<Beginning, NoMemory> {
        match second {
            Beginning::Nothing => Ok(Beginning::Nothing),
            Beginning::Values(values) => {
                let made = values.declared(self.alloc, *first, self.declared)?;
                Ok(Beginning::Values(made))
            }
        }
    }
}

/// The vectors at which all guards hold.
fn guards_tree<L: Leaf, K: Ledger>(
    tables: &mut Tables<L, K>,
    family: &FamilyContext,
    guards: &[Guard],
) -> Result<Tree<bool>, NoMemory>
    requires { IsFamily family.now }
    ensures tree { IfOk result (λ r. IsTreeAt family.now
        (λ v. guards_hold (truths_in family.now.choices.now v) guards.now) r) }
    ensures same { tables.new.leaves ≡ tables.old.leaves }
{
    let alloc = tables.alloc;
    let mut made = tables.truths.leaf(true)?;
    for guard in guards {
        let op = Guarded {
            positive: guard.positive,
        };
        let choice = family.choice(guard.number);
        made = unify_in(
            alloc,
            &mut tables.truths,
            &op,
            &made,
            choice,
            &mut tables.steps,
        )?;
    }
    Ok(made)
}

/// Guards, and the vectors at which they all hold.
#[derive(Drop)]
struct HeldGuards<'a> {
    guards: &'a [Guard],
    tree: Tree<bool>,
}

/// The guards with the vectors at which they all hold. Those of before are taken where the guards are the same.
fn held_guards<'a, L: Leaf, K: Ledger>(
    tables: &mut Tables<L, K>,
    family: &FamilyContext,
    before: HeldGuards<'a>,
    guards: &'a [Guard],
) -> Result<HeldGuards<'a>, NoMemory>
    requires family { IsFamily family.now }
    requires before { AreHeld family.now before }
    ensures held { IfOk result (λ r. AreHeld family.now r) }
    ensures guards { IfOk result (λ r. r.guards.now ≡ guards.now) }
    ensures same { tables.new.leaves ≡ tables.old.leaves }
{
    if before.guards == guards {
        return Ok(before);
    }
    let tree = guards_tree(tables, family, guards)?;
    Ok(HeldGuards { guards, tree })
}

/// The tree that has these start values at each plausible vector, and nothing elsewhere.
fn plausible_values<L: Leaf, K: Ledger>(
    tables: &mut Tables<L, K>,
    family: &FamilyContext,
    forest: &mut Forest<Beginning>,
    start: &[i64],
) -> Result<Tree<Beginning>, NoMemory>
    requires { IsTruth family.now (numbered family.now.plausible.now) }
    ensures tree { IfOk result (λ r. IsTreeAt family.now
        (λ v. begins_with start.now (leaf_of (plain family.now.plausible.now) v)) r) }
    ensures same { tables.new.leaves ≡ tables.old.leaves }
{
    let alloc = tables.alloc;
    let begins = |is_plausible: &bool| -> Result<Beginning, NoMemory>
        ensures { IfOk result (λ made. made ≡ begins_with start.entry.now is_plausible.now) }
    {
        if !*is_plausible {
            return Ok(Beginning::Nothing);
        }
        let list = Vec::from_slice(alloc, start)?;
        Ok(Beginning::Values(StartValues { list }))
    };
    map_in(alloc, forest, &begins, family.plausible, &mut tables.steps)
}

/// The tree of the start values: at each plausible vector those of the last declarators whose guards hold, and nothing elsewhere.
fn values_tree<L: Leaf, K: Ledger>(
    tables: &mut Tables<L, K>,
    family: &FamilyContext,
    start: &[i64],
    declared: &Declarations,
) -> Result<Tree<Beginning>, NoMemory>
    requires family { IsFamily family.now }
    requires plausible { IsTruth family.now (numbered family.now.plausible.now) }
    ensures tree { IfOk result (λ r. IsTreeAt family.now (begins_at family.now start.now declared.now) r) }
    ensures same { tables.new.leaves ≡ tables.old.leaves }
{
    let alloc = tables.alloc;
    let mut forest = Forest::new(alloc);
    let mut made = plausible_values(tables, family, &mut forest, start)?;
    let tree = tables.truths.leaf(true)?;
    let mut held = HeldGuards { guards: &[], tree };
    for d in declared.items() {
        held = held_guards(tables, family, held, d.guards.items())?;
        let op = Declare { alloc, declared: d };
        made = unify_in(
            alloc,
            &mut forest,
            &op,
            &held.tree,
            &made,
            &mut tables.steps,
        )?;
    }
    Ok(made)
}

/// The tree of the leaves of the start values where the vector is plausible, and of Nothing elsewhere.
pub(crate) fn start_tree<L: Leaf, K: Ledger>(
    tables: &mut Tables<L, K>,
    family: &FamilyContext,
    start: &[i64],
    declared: &Declarations,
) -> Result<Tree<L>, NoMemory>
    requires family { IsFamily family.now }
    requires plausible { IsTruth family.now (numbered family.now.plausible.now) }
    requires count { length start.now ≡ family.now.variables }
    requires ints { All IsInt start.now }
    requires declared { All (IsDeclaredOf family.now.variables) declared.now }
    ensures state { IfOk result (λ r. IsState L.value family.now tables.new.leaves (numbered r)) }
    ensures at_each { IfOk result (λ r. (v : List Bool)
        → L.value (leaf_of (plain r) v) ≡ start_at L.meaning family.now start.now declared.now v) }
{
    let alloc = tables.alloc;
    let variables = family.variables;
    let values = values_tree(tables, family, start, declared)?;
    let begins = |beginning: &Beginning| -> Result<L, NoMemory>
        requires few { variables ≤ 48 }
        requires fits { IsBeginningOf variables beginning.now }
        ensures { IfOk result (λ leaf. L.value leaf ≡ leaf_with L.meaning variables beginning.now) }
    { beginning.leaf::<L>(alloc, variables) };
    map_in(
        alloc,
        &mut tables.leaves,
        &begins,
        &values,
        &mut tables.steps,
    )
}

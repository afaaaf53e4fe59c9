//! The trees and alarm trees that are noted of statements.
#![tactic(auto)]

ghost use Rattle.std.specs.Prelude.{◌≡◌, ◌≤◌, ◌++◌, ◌∷◌, [], map, length, IfOk, OnOk, List, Bool};
ghost use Rattle.std.specs.List.{insert};
ghost use Rattle.c_tree.specs.Tree.{Done, If};
ghost use Rattle.c_tree.specs.View.{term, front};
ghost use Rattle.c_tree.specs.Fit.{IsTermOf, IsCodeOf};
ghost use Rattle.decision_tree.specs.Plain.{leaf_of};
ghost use Rattle.decision_tree.specs.View.{numbered, plain};
ghost use Rattle.leaf_domain.specs.Stops.{may_at};
ghost use Rattle.lifted_analysis.specs.Entries.{plain_visit, test_may, leaf_there, stop_there, IsReducedTree, AreReduced, AreReducedStops, AreSized, turn_there, HasEntered};
ghost use Rattle.lifted_analysis.specs.States.{IsState, IsSized};

use crate::family_context::FamilyContext;
use crate::findings::{AlarmTree, PlaceTree};
use crate::tables::Tables;
use c_tree::{Expr, Kind, Stmt};
use decision_tree::Tree;
use fam_outer::{NoMemory, Place};
use leaf_domain::{Leaf, may, may_stop};
use std::alloc::Global;
use std::sync::ledger::Ledger;
use tree_unify::map_in;

/// A loop: the tree with which it is entered, that at its head, and that after a lap.
#[derive(Drop)]
pub(crate) struct TurnTree<L> {
    pub(crate) place: Place,
    pub(crate) entered: Tree<L>,
    pub(crate) head: Tree<L>,
    pub(crate) again: Tree<L>,
}

/// The trees noted so far, in the order of the text.
#[derive(Drop)]
pub(crate) struct Noted<L> {
    pub(crate) places: Vec<PlaceTree<L>>,
    pub(crate) alarms: Vec<AlarmTree>,
    pub(crate) turns: Vec<TurnTree<L>>,
}

impl<L: Leaf> Noted<L> {
    /// Nothing is noted.
    pub(crate) fn new(alloc: Global) -> Noted<L>
        ensures places { result.places.items ≡ [] }
        ensures alarms { result.alarms.items ≡ [] }
        ensures turns { result.turns.items ≡ [] }
    {
        Noted {
            places: Vec::new(alloc),
            alarms: Vec::new(alloc),
            turns: Vec::new(alloc),
        }
    }

    /// Adds what is noted of later statements.
    pub(crate) fn append(&mut self, mut later: Noted<L>) -> Result<(), NoMemory>
        ensures places { OnOk result (self.new.places.items ≡ self.old.places.items ++ later.places.items) }
        ensures alarms { OnOk result (self.new.alarms.items ≡ self.old.alarms.items ++ later.alarms.items) }
        ensures turns { OnOk result (self.new.turns.items ≡ self.old.turns.items ++ later.turns.items) }
    {
        self.places.append(&mut later.places)?;
        self.alarms.append(&mut later.alarms)?;
        self.turns.append(&mut later.turns)?;
        Ok(())
    }
}

/// Where a statement may stop with the kind.
fn statement_stops<L: Leaf, K: Ledger>(
    tables: &mut Tables<L, K>,
    family: &FamilyContext,
    s: &Stmt,
    kind: Kind,
    t: &Tree<L>,
) -> Result<Tree<bool>, NoMemory>
    requires fit { IsCodeOf family.now.variables (front s.now Done) }
    requires state { IsState L.value family.now tables.old.leaves (numbered t.now) }
    ensures reduced { IfOk result (λ r. IsReducedTree family.now (numbered r)) }
    ensures at_each { IfOk result (λ r. (v : List Bool)
        → leaf_of (plain r) v ≡ may_at L.meaning family.now.options.now.mode kind (front s.now Done)
        (L.value (leaf_of (plain t.now) v))) }
    ensures same { tables.new.leaves ≡ tables.old.leaves }
{
    let alloc = tables.alloc;
    let mode = family.options.mode;
    let asks = |leaf: &L| -> Result<bool, NoMemory>
        requires { IsCodeOf (L.value leaf.now).variables (front s.now Done) }
        ensures { IfOk result (λ b. b ≡ may_at L.meaning mode kind (front s.entry.now Done)
            (L.value leaf.now)) }
    { may(alloc, leaf, kind, s, mode) };
    map_in(alloc, &mut tables.truths, &asks, t, &mut tables.steps)
}

/// Adds the tree with which a statement is entered.
fn add_tree<L: Leaf>(
    noted: &mut Noted<L>,
    family: &FamilyContext,
    place: Place,
    t: &Tree<L>,
) -> Result<(), NoMemory>
    requires { IsReducedTree family.now (numbered t.now) }
    ensures leaves { OnOk result ((v : List Bool)
        → map (leaf_there L.value v) noted.new.places.items
        ≡ map (leaf_there L.value v) noted.old.places.items
        ++ (place, L.value (leaf_of (plain t.now) v)) ∷ []) }
    ensures trees { OnOk result (AreReduced family.now noted.old.places.items
        → AreReduced family.now noted.new.places.items) }
    ensures alarms { noted.new.alarms.items ≡ noted.old.alarms.items }
    ensures turns { noted.new.turns.items ≡ noted.old.turns.items }
{
    let _family = family.variables;
    let tree = t.share()?;
    noted.places.push(PlaceTree { place, tree })?;
    Ok(())
}

/// Adds the tree of the vectors at which a statement may stop with the kind.
fn add_alarm<L: Leaf, K: Ledger>(
    tables: &mut Tables<L, K>,
    family: &FamilyContext,
    noted: &mut Noted<L>,
    s: &Stmt,
    place: Place,
    kind: Kind,
    t: &Tree<L>,
) -> Result<(), NoMemory>
    requires fit { IsCodeOf family.now.variables (front s.now Done) }
    requires state { IsState L.value family.now tables.old.leaves (numbered t.now) }
    ensures stops { OnOk result ((v : List Bool)
        → map (stop_there v) noted.new.alarms.items
        ≡ map (stop_there v) noted.old.alarms.items
        ++ (
          (place, kind),
          may_at L.meaning family.now.options.now.mode kind (front s.now Done)
              (L.value (leaf_of (plain t.now) v)),
        ) ∷ []) }
    ensures trees { OnOk result (AreReducedStops family.now noted.old.alarms.items
        → AreReducedStops family.now noted.new.alarms.items) }
    ensures places { noted.new.places.items ≡ noted.old.places.items }
    ensures turns { noted.new.turns.items ≡ noted.old.turns.items }
    ensures same { tables.new.leaves ≡ tables.old.leaves }
{
    let tree = statement_stops(tables, family, s, kind, t)?;
    noted.alarms.push(AlarmTree { place, kind, tree })?;
    Ok(())
}

/// Adds the tree with which a statement is entered, and its alarm trees.
pub(crate) fn enter<L: Leaf, K: Ledger>(
    tables: &mut Tables<L, K>,
    family: &FamilyContext,
    noted: &mut Noted<L>,
    s: &Stmt,
    place: Place,
    t: &Tree<L>,
) -> Result<(), NoMemory>
    requires fit { IsCodeOf family.now.variables (front s.now Done) }
    requires state { IsState L.value family.now tables.old.leaves (numbered t.now) }
    ensures entered { OnOk result (HasEntered L.value L.meaning family.now noted.old noted.new
        (λ v. plain_visit place (front s.now Done) (L.value (leaf_of (plain t.now) v)) ∷ [])) }
    ensures same { tables.new.leaves ≡ tables.old.leaves }
{
    add_tree(noted, family, place, t)?;
    add_alarm(tables, family, noted, s, place, Kind::Overflow, t)?;
    add_alarm(tables, family, noted, s, place, Kind::ZeroDivisor, t)?;
    add_alarm(tables, family, noted, s, place, Kind::Assertion, t)
}

/// Where a test that stands last may stop with the kind.
fn test_stops<L: Leaf, K: Ledger>(
    tables: &mut Tables<L, K>,
    family: &FamilyContext,
    test: &Expr,
    kind: Kind,
    t: &Tree<L>,
) -> Result<Tree<bool>, NoMemory>
    requires fit { IsTermOf family.now.variables (term test.now) }
    requires state { IsState L.value family.now tables.old.leaves (numbered t.now) }
    ensures reduced { IfOk result (λ r. IsReducedTree family.now (numbered r)) }
    ensures at_each { IfOk result (λ r. (v : List Bool)
        → leaf_of (plain r) v ≡ test_may L.meaning family.now.options.now.mode kind (term test.now)
        (L.value (leaf_of (plain t.now) v))) }
    ensures same { tables.new.leaves ≡ tables.old.leaves }
{
    let alloc = tables.alloc;
    let mode = family.options.mode;
    let asks = |leaf: &L| -> Result<bool, NoMemory>
        requires { IsTermOf (L.value leaf.now).variables (term test.now) }
        ensures { IfOk result (λ b. b ≡ test_may L.meaning mode kind (term test.entry.now)
            (L.value leaf.now)) }
    { may_stop(alloc, leaf, kind, test, mode) };
    map_in(alloc, &mut tables.truths, &asks, t, &mut tables.steps)
}

/// Adds the tree of the vectors at which a test that stands last may stop with the kind.
fn add_test_alarm<L: Leaf, K: Ledger>(
    tables: &mut Tables<L, K>,
    family: &FamilyContext,
    noted: &mut Noted<L>,
    test: &Expr,
    place: Place,
    kind: Kind,
    t: &Tree<L>,
) -> Result<(), NoMemory>
    requires fit { IsTermOf family.now.variables (term test.now) }
    requires state { IsState L.value family.now tables.old.leaves (numbered t.now) }
    ensures stops { OnOk result ((v : List Bool)
        → map (stop_there v) noted.new.alarms.items
        ≡ map (stop_there v) noted.old.alarms.items
        ++ (
          (place, kind),
          test_may L.meaning family.now.options.now.mode kind (term test.now)
              (L.value (leaf_of (plain t.now) v)),
        ) ∷ []) }
    ensures trees { OnOk result (AreReducedStops family.now noted.old.alarms.items
        → AreReducedStops family.now noted.new.alarms.items) }
    ensures places { noted.new.places.items ≡ noted.old.places.items }
    ensures turns { noted.new.turns.items ≡ noted.old.turns.items }
    ensures same { tables.new.leaves ≡ tables.old.leaves }
{
    let tree = test_stops(tables, family, test, kind, t)?;
    noted.alarms.push(AlarmTree { place, kind, tree })?;
    Ok(())
}

/// Adds the tree with which a test that stands last is entered, and its alarm trees.
pub(crate) fn enter_test<L: Leaf, K: Ledger>(
    tables: &mut Tables<L, K>,
    family: &FamilyContext,
    noted: &mut Noted<L>,
    test: &Expr,
    place: Place,
    t: &Tree<L>,
) -> Result<(), NoMemory>
    requires fit { IsTermOf family.now.variables (term test.now) }
    requires state { IsState L.value family.now tables.old.leaves (numbered t.now) }
    ensures entered { OnOk result (HasEntered L.value L.meaning family.now noted.old noted.new
        (λ v. plain_visit place (If place (term test.now) Done Done Done) (L.value (leaf_of (plain t.now) v)) ∷ [])) }
    ensures same { tables.new.leaves ≡ tables.old.leaves }
{
    add_tree(noted, family, place, t)?;
    add_test_alarm(tables, family, noted, test, place, Kind::Overflow, t)?;
    add_test_alarm(tables, family, noted, test, place, Kind::ZeroDivisor, t)?;
    add_test_alarm(tables, family, noted, test, place, Kind::Assertion, t)
}

/// Adds a loop before those in its step and in its body, which come behind it in the text.
pub(crate) fn add_turn<L: Leaf>(
    noted: &mut Noted<L>,
    family: &FamilyContext,
    at: usize,
    place: Place,
    entered: &Tree<L>,
    head: &Tree<L>,
    again: Tree<L>,
) -> Result<(), NoMemory>
    requires at { at ≤ length noted.old.turns.items }
    requires entered { IsSized L.value family.now (numbered entered.now) }
    requires head { IsSized L.value family.now (numbered head.now) }
    requires again { IsSized L.value family.now (numbered again) }
    ensures turns { OnOk result ((v : List Bool)
        → map (turn_there L.value v) noted.new.turns.items
        ≡ insert (map (turn_there L.value v) noted.old.turns.items) at (record {
          place = place;
          entered = L.value (leaf_of (plain entered.now) v);
          head = L.value (leaf_of (plain head.now) v);
          again = L.value (leaf_of (plain again) v);
        })) }
    ensures sized { OnOk result (AreSized L.value family.now noted.old.turns.items
        → AreSized L.value family.now noted.new.turns.items) }
    ensures places { noted.new.places.items ≡ noted.old.places.items }
    ensures alarms { noted.new.alarms.items ≡ noted.old.alarms.items }
{
    let _family = family.variables;
    let entered = entered.share()?;
    let head = head.share()?;
    noted.turns.insert(
        at,
        TurnTree {
            place,
            entered,
            head,
            again,
        },
    )?;
    Ok(())
}

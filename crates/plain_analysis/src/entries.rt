//! The leaves and alarms of statements.
#![tactic(auto)]

ghost use Rattle.std.specs.Prelude.{◌≡◌, ◌++◌, ◌∷◌, [], map, IfOk, OnOk};
ghost use Rattle.c_tree.specs.Tree.{Done, If};
ghost use Rattle.c_tree.specs.View.{term, front, code, whole};
ghost use Rattle.c_tree.specs.Fit.{IsTermOf, IsCodeOf};
ghost use Rattle.leaf_domain.specs.Stops.{may_at};
ghost use Rattle.plain_analysis.specs.Finals.{Remembers};
ghost use Rattle.plain_analysis.specs.Stated.{IsPartOf, IsLoopOf};
ghost use Rattle.plain_analysis.specs.Heads.{final_of};
ghost use Rattle.plain_analysis.specs.Statements.{after_of, entries_of, choice_entries, lap_entries, chosen, final_heads, through_body, behind_by};
ghost use Rattle.plain_analysis.specs.Places.{alarm_where};
ghost use Rattle.plain_analysis.specs.Entered.{place_and_leaf, HasEntered};
ghost use Rattle.plain_analysis.specs.View.{parts_of, ways_of, AreOver};

use crate::after::final_leaf;
use crate::alarm::Alarm;
use crate::finals::Finals;
use crate::findings::PlaceLeaf;
use crate::loops::{Loop, Parts};
use crate::simple::{after_assert, after_assign, after_input};
use crate::steps::joined;
use crate::task::Task;
use crate::testing::{failing, inside};
use crate::ways::{Ways, behind_loop, enter, exchange, going_on, leave, onto};
use c_tree::{Expr, Kind, Stmt};
use fam_outer::{NoMemory, Place};
use leaf_domain::{Leaf, may, may_stop, split};
use std::alloc::Global;

/// The leaves and alarms noted so far, in the order of the text.
#[derive(Drop)]
pub(crate) struct Noted<L> {
    pub(crate) places: Vec<PlaceLeaf<L>>,
    pub(crate) alarms: Vec<Alarm>,
}

impl<L: Leaf> Noted<L> {
    /// Nothing is noted.
    pub(crate) fn new(alloc: Global) -> Noted<L>
        ensures places { result.places.items ≡ [] }
        ensures alarms { result.alarms.items ≡ [] }
    {
        Noted {
            places: Vec::new(alloc),
            alarms: Vec::new(alloc),
        }
    }

    /// Adds what is noted of later statements.
    fn append(&mut self, mut later: Noted<L>) -> Result<(), NoMemory>
        ensures places { OnOk result (self.new.places.items ≡ self.old.places.items ++ later.places.items) }
        ensures alarms { OnOk result (self.new.alarms.items ≡ self.old.alarms.items ++ later.alarms.items) }
    {
        self.places.append(&mut later.places)?;
        self.alarms.append(&mut later.alarms)?;
        Ok(())
    }
}

/// Adds the leaf with which a statement is entered.
fn add_leaf<L: Leaf>(
    noted: &mut Noted<L>,
    task: &Task<'_>,
    place: Place,
    leaf: &L,
) -> Result<(), NoMemory>
    ensures leaves { OnOk result (map (place_and_leaf L.value) noted.new.places.items
        ≡ map (place_and_leaf L.value) noted.old.places.items ++ (place, L.value leaf.now) ∷ []) }
    ensures alarms { OnOk result (noted.new.alarms.items ≡ noted.old.alarms.items) }
{
    let leaf = leaf.copy(task.alloc)?;
    noted.places.push(PlaceLeaf { place, leaf })?;
    Ok(())
}

/// Adds the alarm of a kind, where the statement may stop with it.
fn add_alarm<L: Leaf>(
    noted: &mut Noted<L>,
    task: &Task<'_>,
    s: &Stmt,
    place: Place,
    kind: Kind,
    leaf: &L,
) -> Result<(), NoMemory>
    requires { IsCodeOf (L.value leaf.now).variables (front s.now Done) }
    ensures leaves { OnOk result (noted.new.places.items ≡ noted.old.places.items) }
    ensures alarms { OnOk result (noted.new.alarms.items
        ≡ noted.old.alarms.items ++ alarm_where
        (may_at L.meaning task.now.options.now.mode kind (front s.now Done) (L.value leaf.now)) place kind) }
{
    if may(task.alloc, leaf, kind, s, task.options.mode)? {
        noted.alarms.push(Alarm { place, kind })?;
    }
    Ok(())
}

/// Adds the leaf with which a statement is entered, and its alarms.
fn note<L: Leaf>(
    noted: &mut Noted<L>,
    task: &Task<'_>,
    s: &Stmt,
    place: Place,
    leaf: &L,
) -> Result<(), NoMemory>
    requires { IsCodeOf (L.value leaf.now).variables (front s.now Done) }
    ensures { OnOk result (HasEntered L.value L.meaning task.now.options.now noted.old noted.new
        (record { place = place; statement = front s.now Done; leaf = L.value leaf.now } ∷ [])) }
{
    add_leaf(noted, task, place, leaf)?;
    add_alarm(noted, task, s, place, Kind::Overflow, leaf)?;
    add_alarm(noted, task, s, place, Kind::ZeroDivisor, leaf)?;
    add_alarm(noted, task, s, place, Kind::Assertion, leaf)
}

/// Adds the alarm of a kind, where a test that stands last may stop with it.
fn add_test_alarm<L: Leaf>(
    noted: &mut Noted<L>,
    task: &Task<'_>,
    test: &Expr,
    place: Place,
    kind: Kind,
    leaf: &L,
) -> Result<(), NoMemory>
    requires { IsTermOf (L.value leaf.now).variables (term test.now) }
    ensures leaves { OnOk result (noted.new.places.items ≡ noted.old.places.items) }
    ensures alarms { OnOk result (noted.new.alarms.items
        ≡ noted.old.alarms.items ++ alarm_where
        (may_at L.meaning task.now.options.now.mode kind (If place (term test.now) Done Done Done) (L.value leaf.now)) place kind) }
{
    if may_stop(task.alloc, leaf, kind, test, task.options.mode)? {
        noted.alarms.push(Alarm { place, kind })?;
    }
    Ok(())
}

/// Adds the leaf with which a test that stands last is entered, and its alarms.
fn note_test<L: Leaf>(
    noted: &mut Noted<L>,
    task: &Task<'_>,
    test: &Expr,
    place: Place,
    leaf: &L,
) -> Result<(), NoMemory>
    requires { IsTermOf (L.value leaf.now).variables (term test.now) }
    ensures { OnOk result (HasEntered L.value L.meaning task.now.options.now noted.old noted.new
        (record { place = place; statement = If place (term test.now) Done Done Done; leaf = L.value leaf.now } ∷ [])) }
{
    add_leaf(noted, task, place, leaf)?;
    add_test_alarm(noted, task, test, place, Kind::Overflow, leaf)?;
    add_test_alarm(noted, task, test, place, Kind::ZeroDivisor, leaf)?;
    add_test_alarm(noted, task, test, place, Kind::Assertion, leaf)
}

/// Enters the statements of a list, and answers what they make of what was passed.
#[cycle(enter)]
pub(crate) fn enter_list<L: Leaf>(
    finals: &mut Finals<L>,
    noted: &mut Noted<L>,
    task: &Task<'_>,
    list: &[Stmt],
    ways: Ways<L>,
) -> Result<Ways<L>, NoMemory>
    requires over { AreOver L.value (L.value ways.behind).variables ways }
    requires part { IsPartOf (L.value ways.behind).variables (whole task.now.program.now) (code list.now) }
    requires memory { Remembers L.value L.meaning task.now finals.old }
    ensures value { IfOk result (λ made. ways_of L.value made
        ≡ after_of L.meaning task.now.options.now (code list.now) (ways_of L.value ways)) }
    ensures over { IfOk result (λ made. AreOver L.value (L.value ways.behind).variables made) }
    ensures entered { OnOk result (HasEntered L.value L.meaning task.now.options.now noted.old noted.new
        (entries_of L.meaning task.now.options.now (code list.now) (ways_of L.value ways))) }
    ensures memory { OnOk result (Remembers L.value L.meaning task.now finals.new) }
{
    let mut made = ways;
    for s in list {
        made = enter_stmt(finals, noted, task, s, made)?;
    }
    Ok(made)
}

/// Enters a statement and those in it, and answers what they make of what was passed.
#[cycle(enter)]
fn enter_stmt<L: Leaf>(
    finals: &mut Finals<L>,
    noted: &mut Noted<L>,
    task: &Task<'_>,
    s: &Stmt,
    ways: Ways<L>,
) -> Result<Ways<L>, NoMemory>
    requires over { AreOver L.value (L.value ways.behind).variables ways }
    requires part { IsPartOf (L.value ways.behind).variables (whole task.now.program.now) (front s.now Done) }
    requires memory { Remembers L.value L.meaning task.now finals.old }
    ensures value { IfOk result (λ made. ways_of L.value made
        ≡ after_of L.meaning task.now.options.now (front s.now Done) (ways_of L.value ways)) }
    ensures over { IfOk result (λ made. AreOver L.value (L.value ways.behind).variables made) }
    ensures entered { OnOk result (HasEntered L.value L.meaning task.now.options.now noted.old noted.new
        (entries_of L.meaning task.now.options.now (front s.now Done) (ways_of L.value ways))) }
    ensures memory { OnOk result (Remembers L.value L.meaning task.now finals.new) }
{
    match s {
        Stmt::Assign {
            place,
            target,
            value,
        } => {
            note(noted, task, s, *place, &ways.behind)?;
            after_assign(task, *target, value, ways)
        }
        Stmt::Input { place, target } => {
            note(noted, task, s, *place, &ways.behind)?;
            after_input(task, *target, ways)
        }
        Stmt::Assert { place, test } => {
            note(noted, task, s, *place, &ways.behind)?;
            after_assert(task, test, ways)
        }
        Stmt::If {
            place,
            test,
            yes,
            no,
        } => {
            note(noted, task, s, *place, &ways.behind)?;
            enter_choice(finals, noted, task, yes, no, test, ways)
        }
        Stmt::While {
            place,
            test,
            step,
            body,
        } => {
            let the_loop = Loop {
                place: *place,
                parts: Parts::TestFirst { test, step, body },
            };
            enter_loop(finals, noted, task, s, &the_loop, ways)
        }
        Stmt::Do {
            place,
            body,
            test_place,
            test,
        } => {
            let the_loop = Loop {
                place: *place,
                parts: Parts::TestLast {
                    body,
                    test_place: *test_place,
                    test,
                },
            };
            enter_loop(finals, noted, task, s, &the_loop, ways)
        }
        Stmt::Leave { place, jump } => {
            note(noted, task, s, *place, &ways.behind)?;
            leave(task.alloc, task.options.mode, jump, ways)
        }
        Stmt::Block { place, body } => {
            note(noted, task, s, *place, &ways.behind)?;
            enter_list(finals, noted, task, body, ways)
        }
        Stmt::Skip { place } => {
            note(noted, task, s, *place, &ways.behind)?;
            Ok(ways)
        }
        Stmt::Cond { .. } => Ok(ways),
    }
}

/// Enters both sides of a test, one after the other, and answers what they make of what was passed.
#[cycle(enter)]
fn enter_choice<L: Leaf>(
    finals: &mut Finals<L>,
    noted: &mut Noted<L>,
    task: &Task<'_>,
    yes: &[Stmt],
    no: &[Stmt],
    test: &Expr,
    ways: Ways<L>,
) -> Result<Ways<L>, NoMemory>
    requires over { AreOver L.value (L.value ways.behind).variables ways }
    requires test { IsTermOf (L.value ways.behind).variables (term test.now) }
    requires yes { IsPartOf (L.value ways.behind).variables (whole task.now.program.now) (code yes.now) }
    requires no { IsPartOf (L.value ways.behind).variables (whole task.now.program.now) (code no.now) }
    requires memory { Remembers L.value L.meaning task.now finals.old }
    ensures value { IfOk result (λ made. ways_of L.value made
        ≡ chosen L.meaning task.now.options.now.mode (final_heads L.meaning task.now.options.now)
        (term test.now) (code yes.now) (code no.now) (ways_of L.value ways)) }
    ensures over { IfOk result (λ made. AreOver L.value (L.value ways.behind).variables made) }
    ensures entered { OnOk result (HasEntered L.value L.meaning task.now.options.now noted.old noted.new
        (choice_entries L.meaning task.now.options.now (term test.now) (code yes.now) (code no.now) (ways_of L.value ways))) }
    ensures memory { OnOk result (Remembers L.value L.meaning task.now finals.new) }
{
    let sides = split(task.alloc, &ways.behind, test, task.options.mode)?;
    let after_yes = enter_list(finals, noted, task, yes, onto(ways, sides.when_true))?;
    let exchanged = exchange(after_yes, sides.when_false);
    let after_no = enter_list(finals, noted, task, no, exchanged.ways)?;
    let behind = joined(task.alloc, &exchanged.before, &after_no.behind)?;
    Ok(onto(after_no, behind))
}

/// Enters a loop with its final leaf, and what is in it, and answers what it makes of what was passed.
#[cycle(enter)]
fn enter_loop<L: Leaf>(
    finals: &mut Finals<L>,
    noted: &mut Noted<L>,
    task: &Task<'_>,
    s: &Stmt,
    the_loop: &Loop<'_>,
    ways: Ways<L>,
) -> Result<Ways<L>, NoMemory>
    requires over { AreOver L.value (L.value ways.behind).variables ways }
    requires part { IsCodeOf (L.value ways.behind).variables (front s.now Done) }
    requires own { IsLoopOf (L.value ways.behind).variables (whole task.now.program.now) the_loop.now }
    requires memory { Remembers L.value L.meaning task.now finals.old }
    ensures value { IfOk result (λ made. ways_of L.value made
        ≡ behind_by L.meaning task.now.options.now.mode (final_heads L.meaning task.now.options.now)
        (parts_of the_loop.now.parts) (ways_of L.value ways)
        (final_of L.meaning task.now.options.now the_loop.now (L.value ways.behind))) }
    ensures over { IfOk result (λ made. AreOver L.value (L.value ways.behind).variables made) }
    ensures entered { OnOk result (HasEntered L.value L.meaning task.now.options.now noted.old noted.new
        (record {
          place = the_loop.now.place;
          statement = front s.now Done;
          leaf = final_of L.meaning task.now.options.now the_loop.now (L.value ways.behind);
        }
        ∷ lap_entries L.meaning task.now.options.now (parts_of the_loop.now.parts)
        (final_of L.meaning task.now.options.now the_loop.now (L.value ways.behind)))) }
    ensures memory { OnOk result (Remembers L.value L.meaning task.now finals.new) }
{
    let last = final_leaf(finals, task, the_loop, &ways.behind)?;
    note(noted, task, s, the_loop.place, &last)?;
    let left = enter_lap(finals, noted, task, the_loop, &last)?;
    let failed = failing(task, the_loop, &last, &left)?;
    behind_loop(task.alloc, ways, failed, &left)
}

/// Enters the body of a loop from the leaf at its head, and its step, which is noted before the body, or the test that stands
/// last; and answers what the body makes of the head's leaf.
#[cycle(enter)]
fn enter_lap<L: Leaf>(
    finals: &mut Finals<L>,
    noted: &mut Noted<L>,
    task: &Task<'_>,
    the_loop: &Loop<'_>,
    head: &L,
) -> Result<Ways<L>, NoMemory>
    requires own { IsLoopOf (L.value head.now).variables (whole task.now.program.now) the_loop.now }
    requires memory { Remembers L.value L.meaning task.now finals.old }
    ensures value { IfOk result (λ made. ways_of L.value made
        ≡ through_body L.meaning task.now.options.now.mode (final_heads L.meaning task.now.options.now)
        (parts_of the_loop.now.parts) (L.value head.now)) }
    ensures over { IfOk result (λ made. AreOver L.value (L.value head.now).variables made) }
    ensures entered { OnOk result (HasEntered L.value L.meaning task.now.options.now noted.old noted.new
        (lap_entries L.meaning task.now.options.now (parts_of the_loop.now.parts) (L.value head.now))) }
    ensures memory { OnOk result (Remembers L.value L.meaning task.now finals.new) }
{
    let entered = inside(task, the_loop, head)?;
    let start = enter(task.alloc, entered)?;
    match the_loop.parts {
        Parts::TestFirst { step, body, .. } => {
            let mut in_body = Noted::new(task.alloc);
            let left = enter_list(finals, &mut in_body, task, body, start)?;
            let on = going_on(task.alloc, &left)?;
            let stepping = enter(task.alloc, on)?;
            let _stepped = enter_list(finals, noted, task, step, stepping)?;
            noted.append(in_body)?;
            Ok(left)
        }
        Parts::TestLast {
            body,
            test_place,
            test,
        } => {
            let left = enter_list(finals, noted, task, body, start)?;
            let on = going_on(task.alloc, &left)?;
            note_test(noted, task, test, test_place, &on)?;
            Ok(left)
        }
    }
}

//! The trees and alarm trees of statements.
#![tactic(auto)]

ghost use Rattle.std.specs.Prelude.{IfOk, OnOk, List, Bool};
ghost use Rattle.c_tree.specs.Tree.{Done};
ghost use Rattle.c_tree.specs.View.{term, front, code, whole};
ghost use Rattle.c_tree.specs.Fit.{IsTermOf, IsCodeOf};
ghost use Rattle.decision_tree.specs.Plain.{leaf_of};
ghost use Rattle.decision_tree.specs.View.{numbered, plain};
ghost use Rattle.plain_analysis.specs.Stated.{IsPartOf, IsLoopOf};
ghost use Rattle.plain_analysis.specs.View.{parts_of};
ghost use Rattle.lifted_analysis.specs.Entries.{entered_with, entered_both, entered_sides, entered_group, entered_lap, entered_loop, HasEntered};
ghost use Rattle.lifted_analysis.specs.Heads.{head_over};
ghost use Rattle.lifted_analysis.specs.Rules.{Knows, heads_in, passed_with, both_with, sides_with, group_with, body_with, lap_with, behind_with, AreCountedWith};
ghost use Rattle.lifted_analysis.specs.States.{IsFamily, IsState, IsTruth, AreStates, AreMade, IsMade, ways_at};

use crate::family_context::FamilyContext;
use crate::finals::Finals;
use crate::noted::{Noted, add_turn, enter, enter_test};
use crate::operations::Step;
use crate::rule::{Rule, head_tree};
use crate::states::{joined, kept, stepped, within};
use crate::tables::Tables;
use crate::testing::{failing, inside};
use crate::ways::{after_step, behind_loop, enter as enter_ways, going_on, keep_behind, leave};
use c_tree::{Expr, Stmt};
use decision_tree::Tree;
use fam_outer::NoMemory;
use leaf_domain::{Leaf, transfer_is_sound};
use plain_analysis::{Loop, Parts, Ways};
use std::sync::ledger::Ledger;

/// Enters the statements of a list, and answers what they make of what was passed.
#[cycle(enter)]
pub(crate) fn enter_list<L: Leaf, K: Ledger>(
    tables: &mut Tables<L, K>,
    finals: &mut Finals<L>,
    noted: &mut Noted<L>,
    family: &FamilyContext,
    rule: &Rule<L>,
    here: &Tree<bool>,
    list: &[Stmt],
    ways: Ways<Tree<L>>,
) -> Result<Ways<Tree<L>>, NoMemory>
    requires family { IsFamily family.now }
    requires here { IsTruth family.now (numbered here.now) }
    requires part { IsPartOf family.now.variables (whole family.now.program.now) (code list.now) }
    requires states { AreStates L.value family.now tables.old.leaves ways }
    requires memory { Knows L.value L.meaning family.now rule.now tables.old.leaves finals.old }
    ensures made { IfOk result (λ r. AreMade L.value family.now tables.old.leaves tables.new.leaves
        (λ v. passed_with L.meaning family.now
        (heads_in L.value L.meaning family.now rule.now (plain here.now)) (code list.now) v (ways_at L.value ways v)) r) }
    ensures entered { OnOk result (HasEntered L.value L.meaning family.now noted.old noted.new
        (entered_with L.value L.meaning family.now
        (heads_in L.value L.meaning family.now rule.now (plain here.now)) (code list.now) ways)) }
    ensures memory { OnOk result
        (Knows L.value L.meaning family.now rule.now tables.new.leaves finals.new) }
{
    let mut made = ways;
    for s in list {
        made = enter_stmt(tables, finals, noted, family, rule, here, s, made)?;
    }
    Ok(made)
}

/// Enters a statement and those in it, and answers what they make of what was passed.
#[cycle(enter)]
fn enter_stmt<L: Leaf, K: Ledger>(
    tables: &mut Tables<L, K>,
    finals: &mut Finals<L>,
    noted: &mut Noted<L>,
    family: &FamilyContext,
    rule: &Rule<L>,
    here: &Tree<bool>,
    s: &Stmt,
    ways: Ways<Tree<L>>,
) -> Result<Ways<Tree<L>>, NoMemory>
    requires family { IsFamily family.now }
    requires here { IsTruth family.now (numbered here.now) }
    requires part { IsPartOf family.now.variables (whole family.now.program.now) (front s.now Done) }
    requires states { AreStates L.value family.now tables.old.leaves ways }
    requires memory { Knows L.value L.meaning family.now rule.now tables.old.leaves finals.old }
    ensures made { IfOk result (λ r. AreMade L.value family.now tables.old.leaves tables.new.leaves
        (λ v. passed_with L.meaning family.now
        (heads_in L.value L.meaning family.now rule.now (plain here.now)) (front s.now Done) v (ways_at L.value ways v)) r) }
    ensures entered { OnOk result (HasEntered L.value L.meaning family.now noted.old noted.new
        (entered_with L.value L.meaning family.now
        (heads_in L.value L.meaning family.now rule.now (plain here.now)) (front s.now Done) ways)) }
    ensures memory { OnOk result
        (Knows L.value L.meaning family.now rule.now tables.new.leaves finals.new) }
{
    match s {
        Stmt::Assign {
            place,
            target,
            value,
        } => {
            enter(tables, family, noted, s, *place, &ways.behind)?;
            after_step(tables, family, &Step::Assign(*target, value), ways)
        }
        Stmt::Input { place, target } => {
            enter(tables, family, noted, s, *place, &ways.behind)?;
            after_step(tables, family, &Step::Forget(*target), ways)
        }
        Stmt::Assert { place, test } => {
            enter(tables, family, noted, s, *place, &ways.behind)?;
            after_step(tables, family, &Step::Assume(test, true), ways)
        }
        Stmt::If {
            place,
            test,
            yes,
            no,
        } => {
            enter(tables, family, noted, s, *place, &ways.behind)?;
            enter_if(
                tables, finals, noted, family, rule, here, yes, no, test, ways,
            )
        }
        Stmt::While {
            place,
            test,
            step,
            body,
        } => {
            let the_loop = Loop {
                place: *place,
                parts: Parts::TestFirst { test, step, body },
            };
            enter_loop(
                tables, finals, noted, family, rule, here, s, &the_loop, ways,
            )
        }
        Stmt::Do {
            place,
            body,
            test_place,
            test,
        } => {
            let the_loop = Loop {
                place: *place,
                parts: Parts::TestLast {
                    body,
                    test_place: *test_place,
                    test,
                },
            };
            enter_loop(
                tables, finals, noted, family, rule, here, s, &the_loop, ways,
            )
        }
        Stmt::Leave { place, jump } => {
            enter(tables, family, noted, s, *place, &ways.behind)?;
            leave(tables, family, jump, ways)
        }
        Stmt::Block { place, body } => {
            enter(tables, family, noted, s, *place, &ways.behind)?;
            enter_list(tables, finals, noted, family, rule, here, body, ways)
        }
        Stmt::Skip { place } => {
            enter(tables, family, noted, s, *place, &ways.behind)?;
            Ok(ways)
        }
        Stmt::Cond { number, yes, no } => {
            let choice = family.choice(*number);
            enter_group(
                tables, finals, noted, family, rule, here, yes, no, choice, ways,
            )
        }
    }
}

/// Enters two lists of statements, one after the other, of which the second is entered with `second`, where `no_here` holds.
#[cycle(enter)]
fn enter_both<L: Leaf, K: Ledger>(
    tables: &mut Tables<L, K>,
    finals: &mut Finals<L>,
    noted: &mut Noted<L>,
    family: &FamilyContext,
    rule: &Rule<L>,
    here: &Tree<bool>,
    no_here: &Tree<bool>,
    yes: &[Stmt],
    no: &[Stmt],
    ways: Ways<Tree<L>>,
    second: Tree<L>,
) -> Result<Ways<Tree<L>>, NoMemory>
    requires family { IsFamily family.now }
    requires here { IsTruth family.now (numbered here.now) }
    requires no_here { IsTruth family.now (numbered no_here.now) }
    requires yes { IsPartOf family.now.variables (whole family.now.program.now) (code yes.now) }
    requires no { IsPartOf family.now.variables (whole family.now.program.now) (code no.now) }
    requires states { AreStates L.value family.now tables.old.leaves ways }
    requires memory { Knows L.value L.meaning family.now rule.now tables.old.leaves finals.old }
    requires second { IsState L.value family.now tables.old.leaves (numbered second) }
    ensures made { IfOk result (λ r. AreMade L.value family.now tables.old.leaves tables.new.leaves
        (λ v. both_with L.meaning family.now
        (heads_in L.value L.meaning family.now rule.now (plain here.now)) (heads_in L.value L.meaning family.now rule.now (plain no_here.now))
        (code yes.now) (code no.now) v (ways_at L.value ways v) (L.value (leaf_of (plain second) v))) r) }
    ensures counted { IfOk result (λ r. (v : List Bool) → AreCountedWith L.meaning family.now
        (heads_in L.value L.meaning family.now rule.now (plain here.now)) (heads_in L.value L.meaning family.now rule.now (plain no_here.now))
        (code yes.now) (code no.now) v (ways_at L.value ways v) (L.value (leaf_of (plain second) v))) }
    ensures entered { OnOk result (HasEntered L.value L.meaning family.now noted.old noted.new
        (entered_both L.value L.meaning family.now
        (heads_in L.value L.meaning family.now rule.now (plain here.now)) (heads_in L.value L.meaning family.now rule.now (plain no_here.now))
        (code yes.now) (code no.now) ways (plain second))) }
    ensures memory { OnOk result
        (Knows L.value L.meaning family.now rule.now tables.new.leaves finals.new) }
{
    let first = enter_list(tables, finals, noted, family, rule, here, yes, ways)?;
    let entered = Ways {
        behind: second,
        broke: first.broke,
        continued: first.continued,
        returned: first.returned,
    };
    let made = enter_list(tables, finals, noted, family, rule, no_here, no, entered)?;
    let behind = joined(tables, family, &first.behind, &made.behind)?;
    Ok(Ways {
        behind,
        broke: made.broke,
        continued: made.continued,
        returned: made.returned,
    })
}

/// Enters the two sides of a test, the first where it is not 0.
#[cycle(enter)]
fn enter_if<L: Leaf, K: Ledger>(
    tables: &mut Tables<L, K>,
    finals: &mut Finals<L>,
    noted: &mut Noted<L>,
    family: &FamilyContext,
    rule: &Rule<L>,
    here: &Tree<bool>,
    yes: &[Stmt],
    no: &[Stmt],
    test: &Expr,
    ways: Ways<Tree<L>>,
) -> Result<Ways<Tree<L>>, NoMemory>
    requires family { IsFamily family.now }
    requires here { IsTruth family.now (numbered here.now) }
    requires test { IsTermOf family.now.variables (term test.now) }
    requires yes { IsPartOf family.now.variables (whole family.now.program.now) (code yes.now) }
    requires no { IsPartOf family.now.variables (whole family.now.program.now) (code no.now) }
    requires states { AreStates L.value family.now tables.old.leaves ways }
    requires memory { Knows L.value L.meaning family.now rule.now tables.old.leaves finals.old }
    ensures made { IfOk result (λ r. AreMade L.value family.now tables.old.leaves tables.new.leaves
        (λ v. sides_with L.meaning family.now
        (heads_in L.value L.meaning family.now rule.now (plain here.now)) (term test.now) (code yes.now) (code no.now) v (ways_at L.value ways v)) r) }
    ensures entered { OnOk result (HasEntered L.value L.meaning family.now noted.old noted.new
        (entered_sides L.value L.meaning family.now
        (heads_in L.value L.meaning family.now rule.now (plain here.now)) (term test.now) (code yes.now) (code no.now) ways)) }
    ensures memory { OnOk result
        (Knows L.value L.meaning family.now rule.now tables.new.leaves finals.new) }
{
    let in_no = stepped(tables, family, &Step::Assume(test, false), &ways.behind)?;
    let in_yes = after_step(tables, family, &Step::Assume(test, true), ways)?;
    enter_both(
        tables, finals, noted, family, rule, here, here, yes, no, in_yes, in_no,
    )
}

/// Enters both lists of a section of groups, each with Nothing where it is not kept.
#[cycle(enter)]
fn enter_group<L: Leaf, K: Ledger>(
    tables: &mut Tables<L, K>,
    finals: &mut Finals<L>,
    noted: &mut Noted<L>,
    family: &FamilyContext,
    rule: &Rule<L>,
    here: &Tree<bool>,
    yes: &[Stmt],
    no: &[Stmt],
    choice: &Tree<bool>,
    ways: Ways<Tree<L>>,
) -> Result<Ways<Tree<L>>, NoMemory>
    requires family { IsFamily family.now }
    requires here { IsTruth family.now (numbered here.now) }
    requires choice { IsTruth family.now (numbered choice.now) }
    requires yes { IsPartOf family.now.variables (whole family.now.program.now) (code yes.now) }
    requires no { IsPartOf family.now.variables (whole family.now.program.now) (code no.now) }
    requires states { AreStates L.value family.now tables.old.leaves ways }
    requires memory { Knows L.value L.meaning family.now rule.now tables.old.leaves finals.old }
    ensures made { IfOk result (λ r. AreMade L.value family.now tables.old.leaves tables.new.leaves
        (λ v. group_with L.meaning family.now
        (heads_in L.value L.meaning family.now rule.now (plain here.now)) (plain choice.now) (code yes.now) (code no.now) v (ways_at L.value ways v)) r) }
    ensures entered { OnOk result (HasEntered L.value L.meaning family.now noted.old noted.new
        (entered_group L.value L.meaning family.now
        (heads_in L.value L.meaning family.now rule.now (plain here.now)) (plain choice.now) (code yes.now) (code no.now) ways)) }
    ensures memory { OnOk result
        (Knows L.value L.meaning family.now rule.now tables.new.leaves finals.new) }
{
    transfer_is_sound::<L>();
    let yes_here = within(tables, family, here, choice, true)?;
    let no_here = within(tables, family, here, choice, false)?;
    let in_no = kept(tables, family, choice, false, &ways.behind)?;
    let in_yes = keep_behind(tables, family, choice, ways)?;
    enter_both(
        tables, finals, noted, family, rule, &yes_here, &no_here, yes, no, in_yes, in_no,
    )
}

/// Enters a loop with the tree at its head, and what is in it once, from there.
#[cycle(enter)]
fn enter_loop<L: Leaf, K: Ledger>(
    tables: &mut Tables<L, K>,
    finals: &mut Finals<L>,
    noted: &mut Noted<L>,
    family: &FamilyContext,
    rule: &Rule<L>,
    here: &Tree<bool>,
    s: &Stmt,
    the_loop: &Loop<'_>,
    ways: Ways<Tree<L>>,
) -> Result<Ways<Tree<L>>, NoMemory>
    requires family { IsFamily family.now }
    requires here { IsTruth family.now (numbered here.now) }
    requires fit { IsCodeOf family.now.variables (front s.now Done) }
    requires own { IsLoopOf family.now.variables (whole family.now.program.now) the_loop.now }
    requires states { AreStates L.value family.now tables.old.leaves ways }
    requires memory { Knows L.value L.meaning family.now rule.now tables.old.leaves finals.old }
    ensures made { IfOk result (λ r. AreMade L.value family.now tables.old.leaves tables.new.leaves
        (λ v. behind_with L.meaning family.now
        (heads_in L.value L.meaning family.now rule.now (plain here.now)) (parts_of the_loop.now.parts) v (ways_at L.value ways v)
        (head_over L.meaning family.now (heads_in L.value L.meaning family.now rule.now (plain here.now)) the_loop.now v (ways_at L.value ways v).behind)) r) }
    ensures entered { OnOk result (HasEntered L.value L.meaning family.now noted.old noted.new
        (entered_loop L.value L.meaning family.now
        (heads_in L.value L.meaning family.now rule.now (plain here.now)) (front s.now Done) the_loop.now.place (parts_of the_loop.now.parts) (plain ways.behind))) }
    ensures memory { OnOk result
        (Knows L.value L.meaning family.now rule.now tables.new.leaves finals.new) }
{
    let turns = noted.turns.as_slice();
    let at = turns.len();
    let head = head_tree(tables, finals, family, rule, here, the_loop, &ways.behind)?;
    enter(tables, family, noted, s, the_loop.place, &head)?;
    let passed = enter_lap(tables, finals, noted, family, rule, here, the_loop, &head)?;
    add_turn(
        noted,
        family,
        at,
        the_loop.place,
        &ways.behind,
        &head,
        passed.again,
    )?;
    let failed = failing(tables, family, the_loop, &head, &passed.left)?;
    behind_loop(tables, family, ways, &failed, &passed.left)
}

/// What the body of a loop leaves, and the tree after a lap.
#[derive(Drop)]
pub(crate) struct Lap<L> {
    left: Ways<Tree<L>>,
    again: Tree<L>,
}

/// Enters the body of a loop from the tree at its head, and its step, which is noted before the body, or the test that stands
/// last.
#[cycle(enter)]
fn enter_lap<L: Leaf, K: Ledger>(
    tables: &mut Tables<L, K>,
    finals: &mut Finals<L>,
    noted: &mut Noted<L>,
    family: &FamilyContext,
    rule: &Rule<L>,
    here: &Tree<bool>,
    the_loop: &Loop<'_>,
    head: &Tree<L>,
) -> Result<Lap<L>, NoMemory>
    requires family { IsFamily family.now }
    requires here { IsTruth family.now (numbered here.now) }
    requires own { IsLoopOf family.now.variables (whole family.now.program.now) the_loop.now }
    requires head { IsState L.value family.now tables.old.leaves (numbered head.now) }
    requires memory { Knows L.value L.meaning family.now rule.now tables.old.leaves finals.old }
    ensures again { IfOk result (λ r. IsMade L.value family.now tables.old.leaves tables.new.leaves
        (λ v. lap_with L.meaning family.now
        (heads_in L.value L.meaning family.now rule.now (plain here.now)) (parts_of the_loop.now.parts) v (L.value (leaf_of (plain head.now) v))) (numbered r.again)) }
    ensures made { IfOk result (λ r. AreMade L.value family.now tables.old.leaves tables.new.leaves
        (λ v. body_with L.meaning family.now
        (heads_in L.value L.meaning family.now rule.now (plain here.now)) (parts_of the_loop.now.parts) v (L.value (leaf_of (plain head.now) v))) r.left) }
    ensures entered { OnOk result (HasEntered L.value L.meaning family.now noted.old noted.new
        (entered_lap L.value L.meaning family.now
        (heads_in L.value L.meaning family.now rule.now (plain here.now)) (parts_of the_loop.now.parts) (plain head.now))) }
    ensures memory { OnOk result
        (Knows L.value L.meaning family.now rule.now tables.new.leaves finals.new) }
{
    let entered = inside(tables, family, the_loop, head)?;
    let start = enter_ways(tables, family, entered)?;
    match the_loop.parts {
        Parts::TestFirst { step, body, .. } => {
            let mut in_body = Noted::new(tables.alloc);
            let left = enter_list(
                tables,
                finals,
                &mut in_body,
                family,
                rule,
                here,
                body,
                start,
            )?;
            let on = going_on(tables, family, &left)?;
            let stepping = enter_ways(tables, family, on)?;
            let made = enter_list(tables, finals, noted, family, rule, here, step, stepping)?;
            noted.append(in_body)?;
            Ok(Lap {
                left,
                again: made.behind,
            })
        }
        Parts::TestLast {
            body,
            test_place,
            test,
        } => {
            let left = enter_list(tables, finals, noted, family, rule, here, body, start)?;
            let on = going_on(tables, family, &left)?;
            enter_test(tables, family, noted, test, test_place, &on)?;
            let again = stepped(tables, family, &Step::Assume(test, true), &on)?;
            Ok(Lap { left, again })
        }
    }
}

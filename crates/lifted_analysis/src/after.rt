//! What statements of a family make of what was passed.
#![tactic(auto)]

ghost use Rattle.std.specs.Prelude.{◌≡◌, IfOk, OnOk, true, List, Bool};
ghost use Rattle.c_tree.specs.Tree.{Done};
ghost use Rattle.c_tree.specs.View.{term, front, code, whole};
ghost use Rattle.c_tree.specs.Fit.{IsTermOf};
ghost use Rattle.decision_tree.specs.Listed.{Keeps};
ghost use Rattle.decision_tree.specs.Plain.{leaf_of};
ghost use Rattle.decision_tree.specs.View.{numbered, plain};
ghost use Rattle.plain_analysis.specs.Loops.{widened_leaf, narrowing_of};
ghost use Rattle.plain_analysis.specs.Stated.{IsPartOf, IsLoopOf};
ghost use Rattle.plain_analysis.specs.View.{parts_of};
ghost use Rattle.lifted_analysis.specs.Finals.{Remembers};
ghost use Rattle.lifted_analysis.specs.Heads.{IsHeadOf, turns_over, lap_over, final_over};
ghost use Rattle.lifted_analysis.specs.Rules.{ended_heads, body_with, behind_with, AreCountedWith};
ghost use Rattle.lifted_analysis.specs.States.{IsFamily, IsState, IsLifted, IsTruth, AreStates, AreMade, ways_at};
ghost use Rattle.lifted_analysis.specs.Steps.{after_at, both_at, if_at, group_at};

use crate::family_context::FamilyContext;
use crate::finals::{Entered, Finals, find, remember};
use crate::operations::{Combination, Step};
use crate::states::{
    below, combined, is_everywhere, is_nothing_everywhere, joined, kept, selected, stepped,
};
use crate::tables::Tables;
use crate::testing::{failing, inside};
use crate::ways::{after_step, behind_loop, enter, going_on, keep_behind, leave};
use c_tree::{Expr, Stmt};
use decision_tree::Tree;
use fam_outer::NoMemory;
use leaf_domain::{Leaf, transfer_is_sound};
use plain_analysis::{Loop, Parts, Ways, round_count};
use std::sync::ledger::Ledger;

/// What a list of statements makes of what was passed. With Nothing behind at all vectors, nothing changes.
#[cycle(after)]
pub(crate) fn after_list<L: Leaf, K: Ledger>(
    tables: &mut Tables<L, K>,
    finals: &mut Finals<L>,
    family: &FamilyContext,
    list: &[Stmt],
    ways: Ways<Tree<L>>,
) -> Result<Ways<Tree<L>>, NoMemory>
    requires family { IsFamily family.now }
    requires part { IsPartOf family.now.variables (whole family.now.program.now) (code list.now) }
    requires states { AreStates L.value family.now tables.old.leaves ways }
    requires memory { Remembers L.value L.meaning family.now tables.old.leaves finals.old }
    ensures made { IfOk result (λ r. AreMade L.value family.now tables.old.leaves tables.new.leaves
        (λ v. after_at L.meaning family.now (code list.now) v (ways_at L.value ways v)) r) }
    ensures memory { OnOk result (Remembers L.value L.meaning family.now tables.new.leaves finals.new) }
{
    transfer_is_sound::<L>();
    if is_nothing_everywhere(&ways.behind) {
        return Ok(ways);
    }
    let mut made = ways;
    for s in list {
        made = after_stmt(tables, finals, family, s, made)?;
    }
    Ok(made)
}

/// What a statement makes of what was passed. With Nothing behind at all vectors, nothing changes.
#[cycle(after)]
fn after_stmt<L: Leaf, K: Ledger>(
    tables: &mut Tables<L, K>,
    finals: &mut Finals<L>,
    family: &FamilyContext,
    s: &Stmt,
    ways: Ways<Tree<L>>,
) -> Result<Ways<Tree<L>>, NoMemory>
    requires family { IsFamily family.now }
    requires part { IsPartOf family.now.variables (whole family.now.program.now) (front s.now Done) }
    requires states { AreStates L.value family.now tables.old.leaves ways }
    requires memory { Remembers L.value L.meaning family.now tables.old.leaves finals.old }
    ensures made { IfOk result (λ r. AreMade L.value family.now tables.old.leaves tables.new.leaves
        (λ v. after_at L.meaning family.now (front s.now Done) v (ways_at L.value ways v)) r) }
    ensures memory { OnOk result (Remembers L.value L.meaning family.now tables.new.leaves finals.new) }
{
    transfer_is_sound::<L>();
    if is_nothing_everywhere(&ways.behind) {
        return Ok(ways);
    }
    match s {
        Stmt::Assign { target, value, .. } => {
            after_step(tables, family, &Step::Assign(*target, value), ways)
        }
        Stmt::Input { target, .. } => after_step(tables, family, &Step::Forget(*target), ways),
        Stmt::Assert { test, .. } => after_step(tables, family, &Step::Assume(test, true), ways),
        Stmt::If { test, yes, no, .. } => after_if(tables, finals, family, yes, no, test, ways),
        Stmt::While {
            place,
            test,
            step,
            body,
        } => {
            let the_loop = Loop {
                place: *place,
                parts: Parts::TestFirst { test, step, body },
            };
            after_loop(tables, finals, family, &the_loop, ways)
        }
        Stmt::Do {
            place,
            body,
            test_place,
            test,
        } => {
            let the_loop = Loop {
                place: *place,
                parts: Parts::TestLast {
                    body,
                    test_place: *test_place,
                    test,
                },
            };
            after_loop(tables, finals, family, &the_loop, ways)
        }
        Stmt::Leave { jump, .. } => leave(tables, family, jump, ways),
        Stmt::Block { body, .. } => after_list(tables, finals, family, body, ways),
        Stmt::Skip { .. } => Ok(ways),
        Stmt::Cond { number, yes, no } => {
            let choice = family.choice(*number);
            after_group(tables, finals, family, yes, no, choice, ways)
        }
    }
}

/// What two lists of statements make of what was passed, one after the other, of which the second is entered with `second`.
#[cycle(after)]
fn after_both<L: Leaf, K: Ledger>(
    tables: &mut Tables<L, K>,
    finals: &mut Finals<L>,
    family: &FamilyContext,
    yes: &[Stmt],
    no: &[Stmt],
    ways: Ways<Tree<L>>,
    second: Tree<L>,
) -> Result<Ways<Tree<L>>, NoMemory>
    requires family { IsFamily family.now }
    requires yes { IsPartOf family.now.variables (whole family.now.program.now) (code yes.now) }
    requires no { IsPartOf family.now.variables (whole family.now.program.now) (code no.now) }
    requires states { AreStates L.value family.now tables.old.leaves ways }
    requires second { IsState L.value family.now tables.old.leaves (numbered second) }
    requires memory { Remembers L.value L.meaning family.now tables.old.leaves finals.old }
    ensures made { IfOk result (λ r. AreMade L.value family.now tables.old.leaves tables.new.leaves
        (λ v. both_at L.meaning family.now (code yes.now) (code no.now) v (ways_at L.value ways v) (L.value (leaf_of (plain second) v))) r) }
    ensures counted { IfOk result (λ r. (v : List Bool) → AreCountedWith L.meaning family.now
        (ended_heads L.meaning family.now) (ended_heads L.meaning family.now)
        (code yes.now) (code no.now) v (ways_at L.value ways v) (L.value (leaf_of (plain second) v))) }
    ensures memory { OnOk result (Remembers L.value L.meaning family.now tables.new.leaves finals.new) }
{
    let first = after_list(tables, finals, family, yes, ways)?;
    let entered = Ways {
        behind: second,
        broke: first.broke,
        continued: first.continued,
        returned: first.returned,
    };
    let made = after_list(tables, finals, family, no, entered)?;
    let behind = joined(tables, family, &first.behind, &made.behind)?;
    Ok(Ways {
        behind,
        broke: made.broke,
        continued: made.continued,
        returned: made.returned,
    })
}

/// What the two sides of a test make of what was passed, of which the first is entered where the test is not 0.
#[cycle(after)]
fn after_if<L: Leaf, K: Ledger>(
    tables: &mut Tables<L, K>,
    finals: &mut Finals<L>,
    family: &FamilyContext,
    yes: &[Stmt],
    no: &[Stmt],
    test: &Expr,
    ways: Ways<Tree<L>>,
) -> Result<Ways<Tree<L>>, NoMemory>
    requires family { IsFamily family.now }
    requires test { IsTermOf family.now.variables (term test.now) }
    requires yes { IsPartOf family.now.variables (whole family.now.program.now) (code yes.now) }
    requires no { IsPartOf family.now.variables (whole family.now.program.now) (code no.now) }
    requires states { AreStates L.value family.now tables.old.leaves ways }
    requires memory { Remembers L.value L.meaning family.now tables.old.leaves finals.old }
    ensures made { IfOk result (λ r. AreMade L.value family.now tables.old.leaves tables.new.leaves
        (λ v. if_at L.meaning family.now (term test.now) (code yes.now) (code no.now) v (ways_at L.value ways v)) r) }
    ensures memory { OnOk result (Remembers L.value L.meaning family.now tables.new.leaves finals.new) }
{
    let in_no = stepped(tables, family, &Step::Assume(test, false), &ways.behind)?;
    let in_yes = after_step(tables, family, &Step::Assume(test, true), ways)?;
    after_both(tables, finals, family, yes, no, in_yes, in_no)
}

/// What a section of groups makes of what was passed: each list is entered with Nothing where it is not kept.
#[cycle(after)]
fn after_group<L: Leaf, K: Ledger>(
    tables: &mut Tables<L, K>,
    finals: &mut Finals<L>,
    family: &FamilyContext,
    yes: &[Stmt],
    no: &[Stmt],
    choice: &Tree<bool>,
    ways: Ways<Tree<L>>,
) -> Result<Ways<Tree<L>>, NoMemory>
    requires family { IsFamily family.now }
    requires choice { IsTruth family.now (numbered choice.now) }
    requires yes { IsPartOf family.now.variables (whole family.now.program.now) (code yes.now) }
    requires no { IsPartOf family.now.variables (whole family.now.program.now) (code no.now) }
    requires states { AreStates L.value family.now tables.old.leaves ways }
    requires memory { Remembers L.value L.meaning family.now tables.old.leaves finals.old }
    ensures made { IfOk result (λ r. AreMade L.value family.now tables.old.leaves tables.new.leaves
        (λ v. group_at L.meaning family.now (plain choice.now) (code yes.now) (code no.now) v (ways_at L.value ways v)) r) }
    ensures memory { OnOk result (Remembers L.value L.meaning family.now tables.new.leaves finals.new) }
{
    transfer_is_sound::<L>();
    let in_no = kept(tables, family, choice, false, &ways.behind)?;
    let in_yes = keep_behind(tables, family, choice, ways)?;
    after_both(tables, finals, family, yes, no, in_yes, in_no)
}

/// What a loop makes of what was passed: its body is passed once more, from its final tree.
#[cycle(after)]
fn after_loop<L: Leaf, K: Ledger>(
    tables: &mut Tables<L, K>,
    finals: &mut Finals<L>,
    family: &FamilyContext,
    the_loop: &Loop<'_>,
    ways: Ways<Tree<L>>,
) -> Result<Ways<Tree<L>>, NoMemory>
    requires family { IsFamily family.now }
    requires own { IsLoopOf family.now.variables (whole family.now.program.now) the_loop.now }
    requires states { AreStates L.value family.now tables.old.leaves ways }
    requires memory { Remembers L.value L.meaning family.now tables.old.leaves finals.old }
    ensures made { IfOk result (λ r. AreMade L.value family.now tables.old.leaves tables.new.leaves
        (λ v. behind_with L.meaning family.now (ended_heads L.meaning family.now) (parts_of the_loop.now.parts) v (ways_at L.value ways v)
        (final_over L.meaning family.now the_loop.now v (ways_at L.value ways v).behind)) r) }
    ensures memory { OnOk result (Remembers L.value L.meaning family.now tables.new.leaves finals.new) }
{
    let last = final_tree(tables, finals, family, the_loop, &ways.behind)?;
    let left = through_body(tables, finals, family, the_loop, &last)?;
    let failed = failing(tables, family, the_loop, &last, &left)?;
    behind_loop(tables, family, ways, &failed, &left)
}

/// What the body of a loop makes of the tree at the loop's head.
#[cycle(after)]
fn through_body<L: Leaf, K: Ledger>(
    tables: &mut Tables<L, K>,
    finals: &mut Finals<L>,
    family: &FamilyContext,
    the_loop: &Loop<'_>,
    at: &Tree<L>,
) -> Result<Ways<Tree<L>>, NoMemory>
    requires family { IsFamily family.now }
    requires own { IsLoopOf family.now.variables (whole family.now.program.now) the_loop.now }
    requires at { IsState L.value family.now tables.old.leaves (numbered at.now) }
    requires memory { Remembers L.value L.meaning family.now tables.old.leaves finals.old }
    ensures made { IfOk result (λ r. AreMade L.value family.now tables.old.leaves tables.new.leaves
        (λ v. body_with L.meaning family.now (ended_heads L.meaning family.now) (parts_of the_loop.now.parts) v
        (L.value (leaf_of (plain at.now) v))) r) }
    ensures memory { OnOk result (Remembers L.value L.meaning family.now tables.new.leaves finals.new) }
{
    let entered = inside(tables, family, the_loop, at)?;
    let start = enter(tables, family, entered)?;
    after_list(tables, finals, family, the_loop.body(), start)
}

/// What a lap makes of the tree at the head of a loop: behind the body the step comes, or the test holds.
#[cycle(after)]
fn lap<L: Leaf, K: Ledger>(
    tables: &mut Tables<L, K>,
    finals: &mut Finals<L>,
    family: &FamilyContext,
    the_loop: &Loop<'_>,
    at: &Tree<L>,
) -> Result<Tree<L>, NoMemory>
    requires family { IsFamily family.now }
    requires own { IsLoopOf family.now.variables (whole family.now.program.now) the_loop.now }
    requires at { IsState L.value family.now tables.old.leaves (numbered at.now) }
    requires memory { Remembers L.value L.meaning family.now tables.old.leaves finals.old }
    ensures lifted { IfOk result (λ r. IsLifted L.value family.now tables.old.leaves tables.new.leaves
        (lap_over L.meaning family.now the_loop.now) (plain at.now) (numbered r)) }
    ensures memory { OnOk result (Remembers L.value L.meaning family.now tables.new.leaves finals.new) }
{
    let left = through_body(tables, finals, family, the_loop, at)?;
    let on = going_on(tables, family, &left)?;
    match the_loop.parts {
        Parts::TestFirst { step, .. } => {
            let start = enter(tables, family, on)?;
            let made = after_list(tables, finals, family, step, start)?;
            Ok(made.behind)
        }
        Parts::TestLast { test, .. } => stepped(tables, family, &Step::Assume(test, true), &on),
    }
}

/// The tree at the head of a loop, and that of what comes in there with its leaves.
#[derive(Drop)]
pub(crate) struct Head<L> {
    at: Tree<L>,
    next: Tree<L>,
}

/// The head of a loop that is entered with `t`, where it has `at`.
#[cycle(after)]
fn head_at<L: Leaf, K: Ledger>(
    tables: &mut Tables<L, K>,
    finals: &mut Finals<L>,
    family: &FamilyContext,
    the_loop: &Loop<'_>,
    t: &Tree<L>,
    at: Tree<L>,
) -> Result<Head<L>, NoMemory>
    requires family { IsFamily family.now }
    requires own { IsLoopOf family.now.variables (whole family.now.program.now) the_loop.now }
    requires state { IsState L.value family.now tables.old.leaves (numbered t.now) }
    requires at { IsState L.value family.now tables.old.leaves (numbered at) }
    requires memory { Remembers L.value L.meaning family.now tables.old.leaves finals.old }
    ensures at { IfOk result (λ head. numbered head.at ≡ numbered at) }
    ensures head { IfOk result (λ head. IsHeadOf L.value family.now tables.new.leaves
        (turns_over L.value L.meaning family.now the_loop.now (plain t.now)) head) }
    ensures keeps { IfOk result (λ head. Keeps tables.old.leaves tables.new.leaves) }
    ensures memory { OnOk result (Remembers L.value L.meaning family.now tables.new.leaves finals.new) }
{
    let again = lap(tables, finals, family, the_loop, &at)?;
    let next = joined(tables, family, t, &again)?;
    Ok(Head { at, next })
}

/// The head of a loop after all rounds of joining and widening. It ends with the first round before which what comes in is
/// below the head at all vectors, since the later ones change nothing either.
#[cycle(after)]
fn widened<L: Leaf, K: Ledger>(
    tables: &mut Tables<L, K>,
    finals: &mut Finals<L>,
    family: &FamilyContext,
    the_loop: &Loop<'_>,
    t: &Tree<L>,
) -> Result<Head<L>, NoMemory>
    requires family { IsFamily family.now }
    requires own { IsLoopOf family.now.variables (whole family.now.program.now) the_loop.now }
    requires state { IsState L.value family.now tables.old.leaves (numbered t.now) }
    requires memory { Remembers L.value L.meaning family.now tables.old.leaves finals.old }
    ensures at_each { IfOk result (λ head. (v : List Bool)
        → L.value (leaf_of (plain head.at) v)
        ≡ widened_leaf L.meaning family.now.options.now.thresholds family.now.options.now.delay
        (turns_over L.value L.meaning family.now the_loop.now (plain t.now) v)
        (L.value (leaf_of (plain t.now) v))) }
    ensures head { IfOk result (λ head. IsHeadOf L.value family.now tables.new.leaves
        (turns_over L.value L.meaning family.now the_loop.now (plain t.now)) head) }
    ensures keeps { IfOk result (λ head. Keeps tables.old.leaves tables.new.leaves) }
    ensures memory { OnOk result (Remembers L.value L.meaning family.now tables.new.leaves finals.new) }
{
    let delay = u64::from(family.options.delay);
    let rounds = round_count::<L>(family.options, family.variables);
    let start = t.share()?;
    let mut head = head_at(tables, finals, family, the_loop, t, start)?;
    for k in 0..rounds {
        let stable = below(tables, family, &head.next, &head.at)?;
        if is_everywhere(&stable, true) {
            return Ok(head);
        }
        let how = Combination::Round(k < delay);
        let made = combined(tables, family, how, &head.at, &head.next)?;
        head = head_at(tables, finals, family, the_loop, t, made)?;
    }
    Ok(head)
}

/// The head of a loop after one round of narrowing: the candidate where what comes in with it is below it, and what was there
/// elsewhere.
#[cycle(after)]
fn narrowed<L: Leaf, K: Ledger>(
    tables: &mut Tables<L, K>,
    finals: &mut Finals<L>,
    family: &FamilyContext,
    the_loop: &Loop<'_>,
    t: &Tree<L>,
    head: Head<L>,
) -> Result<Head<L>, NoMemory>
    requires family { IsFamily family.now }
    requires own { IsLoopOf family.now.variables (whole family.now.program.now) the_loop.now }
    requires state { IsState L.value family.now tables.old.leaves (numbered t.now) }
    requires head { IsHeadOf L.value family.now tables.old.leaves
        (turns_over L.value L.meaning family.now the_loop.now (plain t.now)) head }
    requires memory { Remembers L.value L.meaning family.now tables.old.leaves finals.old }
    ensures at_each { IfOk result (λ made. (v : List Bool)
        → L.value (leaf_of (plain made.at) v)
        ≡ narrowing_of L.meaning family.now.options.now.thresholds (turns_over L.value L.meaning family.now the_loop.now (plain t.now) v) (L.value (leaf_of (plain head.at) v))) }
    ensures head { IfOk result (λ made. IsHeadOf L.value family.now tables.new.leaves
        (turns_over L.value L.meaning family.now the_loop.now (plain t.now)) made) }
    ensures keeps { IfOk result (λ made. Keeps tables.old.leaves tables.new.leaves) }
    ensures memory { OnOk result (Remembers L.value L.meaning family.now tables.new.leaves finals.new) }
{
    let candidate = combined(tables, family, Combination::Narrow, &head.at, &head.next)?;
    if candidate.number() == head.at.number() {
        return Ok(head);
    }
    let made = head_at(tables, finals, family, the_loop, t, candidate)?;
    let stable = below(tables, family, &made.next, &made.at)?;
    let at = selected(tables, family, &stable, &made.at, &head.at)?;
    let next = selected(tables, family, &stable, &made.next, &head.next)?;
    Ok(Head { at, next })
}

/// The final tree of a loop that is entered with `t`, by its rounds. Those of narrowing end with the first that changes nothing
/// at any vector.
#[cycle(after)]
fn final_by_rounds<L: Leaf, K: Ledger>(
    tables: &mut Tables<L, K>,
    finals: &mut Finals<L>,
    family: &FamilyContext,
    the_loop: &Loop<'_>,
    t: &Tree<L>,
) -> Result<Tree<L>, NoMemory>
    requires family { IsFamily family.now }
    requires own { IsLoopOf family.now.variables (whole family.now.program.now) the_loop.now }
    requires state { IsState L.value family.now tables.old.leaves (numbered t.now) }
    requires memory { Remembers L.value L.meaning family.now tables.old.leaves finals.old }
    ensures lifted { IfOk result (λ r. IsLifted L.value family.now tables.old.leaves tables.new.leaves
        (final_over L.meaning family.now the_loop.now) (plain t.now) (numbered r)) }
    ensures memory { OnOk result (Remembers L.value L.meaning family.now tables.new.leaves finals.new) }
{
    let mut head = widened(tables, finals, family, the_loop, t)?;
    for _k in 0..family.options.narrow {
        let before = head.at.number();
        head = narrowed(tables, finals, family, the_loop, t, head)?;
        if head.at.number() == before {
            return Ok(head.at);
        }
    }
    Ok(head.at)
}

/// The final tree of the loop at a place that is entered with `t`: Nothing stays Nothing, and else it is as remembered, or made
/// by its rounds and then remembered.
#[cycle(after)]
pub(crate) fn final_tree<L: Leaf, K: Ledger>(
    tables: &mut Tables<L, K>,
    finals: &mut Finals<L>,
    family: &FamilyContext,
    the_loop: &Loop<'_>,
    t: &Tree<L>,
) -> Result<Tree<L>, NoMemory>
    requires family { IsFamily family.now }
    requires own { IsLoopOf family.now.variables (whole family.now.program.now) the_loop.now }
    requires state { IsState L.value family.now tables.old.leaves (numbered t.now) }
    requires memory { Remembers L.value L.meaning family.now tables.old.leaves finals.old }
    ensures lifted { IfOk result (λ r. IsLifted L.value family.now tables.old.leaves tables.new.leaves
        (final_over L.meaning family.now the_loop.now) (plain t.now) (numbered r)) }
    ensures memory { OnOk result (Remembers L.value L.meaning family.now tables.new.leaves finals.new) }
{
    transfer_is_sound::<L>();
    if is_nothing_everywhere(t) {
        return t.share();
    }
    let key = Entered {
        place: the_loop.place,
        number: t.number(),
    };
    if let Some(last) = find(&finals.entries, &key) {
        return last.share();
    }
    let last = final_by_rounds(tables, finals, family, the_loop, t)?;
    let kept = last.share()?;
    remember(&mut finals.entries, key, kept)?;
    Ok(last)
}

//! What statements make of the leaf behind what was passed, and of what has left by a jump.
#![tactic(auto)]

ghost use Rattle.std.specs.Prelude.{◌≡◌, IfOk, OnOk, IfSome, IfNone, true, false};
ghost use Rattle.c_tree.specs.Tree.{Done};
ghost use Rattle.c_tree.specs.View.{term, front, code, whole};
ghost use Rattle.c_tree.specs.Fit.{IsTermOf};
ghost use Rattle.plain_analysis.specs.Finals.{Remembers};
ghost use Rattle.plain_analysis.specs.Heads.{IsHead, turns_of, final_of};
ghost use Rattle.plain_analysis.specs.Loops.{widened_leaf, narrowing_of};
ghost use Rattle.plain_analysis.specs.Stated.{IsPartOf, IsLoopOf};
ghost use Rattle.plain_analysis.specs.Statements.{after_of, chosen, final_heads, lap_of, through_body, behind_by};
ghost use Rattle.plain_analysis.specs.View.{parts_of, ways_of, AreOver};

use crate::finals::{Entered, Finals, find, remember};
use crate::loops::{Loop, Parts};
use crate::simple::{after_assert, after_assign, after_input};
use crate::steps::{joined, moved, narrowed_by, round_count};
use crate::task::Task;
use crate::testing::{failing, inside};
use crate::ways::{Ways, behind_loop, enter, exchange, going_on, leave, onto};
use c_tree::{Expr, Stmt};
use fam_outer::NoMemory;
use leaf_domain::{Leaf, assume, equality_is_exact, leaf_is_valid, split, transfer_is_sound};

/// What a list of statements makes of what was passed. With Nothing behind, nothing changes.
#[cycle(after)]
pub(crate) fn after_list<L: Leaf>(
    finals: &mut Finals<L>,
    task: &Task<'_>,
    list: &[Stmt],
    ways: Ways<L>,
) -> Result<Ways<L>, NoMemory>
    requires over { AreOver L.value (L.value ways.behind).variables ways }
    requires part { IsPartOf (L.value ways.behind).variables (whole task.now.program.now) (code list.now) }
    requires memory { Remembers L.value L.meaning task.now finals.old }
    ensures value { IfOk result (λ made. ways_of L.value made
        ≡ after_of L.meaning task.now.options.now (code list.now) (ways_of L.value ways)) }
    ensures over { IfOk result (λ made. AreOver L.value (L.value ways.behind).variables made) }
    ensures memory { OnOk result (Remembers L.value L.meaning task.now finals.new) }
{
    transfer_is_sound::<L>();
    leaf_is_valid(&ways.behind);
    if ways.behind.is_nothing() {
        return Ok(ways);
    }
    let mut made = ways;
    for s in list {
        made = after_stmt(finals, task, s, made)?;
    }
    Ok(made)
}

/// What a statement makes of what was passed. With Nothing behind, nothing changes.
#[cycle(after)]
fn after_stmt<L: Leaf>(
    finals: &mut Finals<L>,
    task: &Task<'_>,
    s: &Stmt,
    ways: Ways<L>,
) -> Result<Ways<L>, NoMemory>
    requires over { AreOver L.value (L.value ways.behind).variables ways }
    requires part { IsPartOf (L.value ways.behind).variables (whole task.now.program.now) (front s.now Done) }
    requires memory { Remembers L.value L.meaning task.now finals.old }
    ensures value { IfOk result (λ made. ways_of L.value made
        ≡ after_of L.meaning task.now.options.now (front s.now Done) (ways_of L.value ways)) }
    ensures over { IfOk result (λ made. AreOver L.value (L.value ways.behind).variables made) }
    ensures memory { OnOk result (Remembers L.value L.meaning task.now finals.new) }
{
    transfer_is_sound::<L>();
    leaf_is_valid(&ways.behind);
    if ways.behind.is_nothing() {
        return Ok(ways);
    }
    match s {
        Stmt::Assign { target, value, .. } => after_assign(task, *target, value, ways),
        Stmt::Input { target, .. } => after_input(task, *target, ways),
        Stmt::Assert { test, .. } => after_assert(task, test, ways),
        Stmt::If { test, yes, no, .. } => after_choice(finals, task, yes, no, test, ways),
        Stmt::While {
            place,
            test,
            step,
            body,
        } => {
            let the_loop = Loop {
                place: *place,
                parts: Parts::TestFirst { test, step, body },
            };
            after_loop(finals, task, &the_loop, ways)
        }
        Stmt::Do {
            place,
            body,
            test_place,
            test,
        } => {
            let the_loop = Loop {
                place: *place,
                parts: Parts::TestLast {
                    body,
                    test_place: *test_place,
                    test,
                },
            };
            after_loop(finals, task, &the_loop, ways)
        }
        Stmt::Leave { jump, .. } => leave(task.alloc, task.options.mode, jump, ways),
        Stmt::Block { body, .. } => after_list(finals, task, body, ways),
        Stmt::Skip { .. } | Stmt::Cond { .. } => Ok(ways),
    }
}

/// What both sides of a test make of what was passed, one after the other.
#[cycle(after)]
fn after_choice<L: Leaf>(
    finals: &mut Finals<L>,
    task: &Task<'_>,
    yes: &[Stmt],
    no: &[Stmt],
    test: &Expr,
    ways: Ways<L>,
) -> Result<Ways<L>, NoMemory>
    requires over { AreOver L.value (L.value ways.behind).variables ways }
    requires test { IsTermOf (L.value ways.behind).variables (term test.now) }
    requires yes { IsPartOf (L.value ways.behind).variables (whole task.now.program.now) (code yes.now) }
    requires no { IsPartOf (L.value ways.behind).variables (whole task.now.program.now) (code no.now) }
    requires memory { Remembers L.value L.meaning task.now finals.old }
    ensures value { IfOk result (λ made. ways_of L.value made
        ≡ chosen L.meaning task.now.options.now.mode (final_heads L.meaning task.now.options.now)
        (term test.now) (code yes.now) (code no.now) (ways_of L.value ways)) }
    ensures over { IfOk result (λ made. AreOver L.value (L.value ways.behind).variables made) }
    ensures memory { OnOk result (Remembers L.value L.meaning task.now finals.new) }
{
    let sides = split(task.alloc, &ways.behind, test, task.options.mode)?;
    let after_yes = after_list(finals, task, yes, onto(ways, sides.when_true))?;
    let exchanged = exchange(after_yes, sides.when_false);
    let after_no = after_list(finals, task, no, exchanged.ways)?;
    let behind = joined(task.alloc, &exchanged.before, &after_no.behind)?;
    Ok(onto(after_no, behind))
}

/// What a loop makes of what was passed: its body is passed once more, from its final leaf.
#[cycle(after)]
fn after_loop<L: Leaf>(
    finals: &mut Finals<L>,
    task: &Task<'_>,
    the_loop: &Loop<'_>,
    ways: Ways<L>,
) -> Result<Ways<L>, NoMemory>
    requires over { AreOver L.value (L.value ways.behind).variables ways }
    requires own { IsLoopOf (L.value ways.behind).variables (whole task.now.program.now) the_loop.now }
    requires memory { Remembers L.value L.meaning task.now finals.old }
    ensures value { IfOk result (λ made. ways_of L.value made
        ≡ behind_by L.meaning task.now.options.now.mode (final_heads L.meaning task.now.options.now)
        (parts_of the_loop.now.parts) (ways_of L.value ways)
        (final_of L.meaning task.now.options.now the_loop.now (L.value ways.behind))) }
    ensures over { IfOk result (λ made. AreOver L.value (L.value ways.behind).variables made) }
    ensures memory { OnOk result (Remembers L.value L.meaning task.now finals.new) }
{
    let last = final_leaf(finals, task, the_loop, &ways.behind)?;
    let left = through_body(finals, task, the_loop, &last)?;
    let failed = failing(task, the_loop, &last, &left)?;
    behind_loop(task.alloc, ways, failed, &left)
}

/// What the body of a loop makes of the leaf at the loop's head.
#[cycle(after)]
fn through_body<L: Leaf>(
    finals: &mut Finals<L>,
    task: &Task<'_>,
    the_loop: &Loop<'_>,
    at: &L,
) -> Result<Ways<L>, NoMemory>
    requires own { IsLoopOf (L.value at.now).variables (whole task.now.program.now) the_loop.now }
    requires memory { Remembers L.value L.meaning task.now finals.old }
    ensures value { IfOk result (λ made. ways_of L.value made
        ≡ through_body L.meaning task.now.options.now.mode (final_heads L.meaning task.now.options.now)
        (parts_of the_loop.now.parts) (L.value at.now)) }
    ensures over { IfOk result (λ made. AreOver L.value (L.value at.now).variables made) }
    ensures memory { OnOk result (Remembers L.value L.meaning task.now finals.new) }
{
    let entered = inside(task, the_loop, at)?;
    let start = enter(task.alloc, entered)?;
    after_list(finals, task, the_loop.body(), start)
}

/// What a lap makes of the leaf at the head of a loop: behind the body the step comes, or the test holds.
#[cycle(after)]
fn lap<L: Leaf>(
    finals: &mut Finals<L>,
    task: &Task<'_>,
    the_loop: &Loop<'_>,
    at: &L,
) -> Result<L, NoMemory>
    requires own { IsLoopOf (L.value at.now).variables (whole task.now.program.now) the_loop.now }
    requires memory { Remembers L.value L.meaning task.now finals.old }
    ensures value { IfOk result (λ made. L.value made
        ≡ lap_of L.meaning task.now.options.now (parts_of the_loop.now.parts) (L.value at.now)) }
    ensures same { IfOk result (λ made. (L.value made).variables ≡ (L.value at.now).variables) }
    ensures memory { OnOk result (Remembers L.value L.meaning task.now finals.new) }
{
    let left = through_body(finals, task, the_loop, at)?;
    let on = going_on(task.alloc, &left)?;
    match the_loop.parts {
        Parts::TestFirst { step, .. } => {
            let start = enter(task.alloc, on)?;
            let stepped = after_list(finals, task, step, start)?;
            Ok(stepped.behind)
        }
        Parts::TestLast { test, .. } => assume(task.alloc, &on, test, true, task.options.mode),
    }
}

/// The leaf at the head of a loop, and what comes in there with it.
#[derive(Drop)]
pub(crate) struct Head<L> {
    at: L,
    next: L,
}

/// What comes in at the head of a loop that is entered with `leaf`, where the head has `at`.
#[cycle(after)]
fn turn<L: Leaf>(
    finals: &mut Finals<L>,
    task: &Task<'_>,
    the_loop: &Loop<'_>,
    leaf: &L,
    at: &L,
) -> Result<L, NoMemory>
    requires count { (L.value at.now).variables ≡ (L.value leaf.now).variables }
    requires own { IsLoopOf (L.value leaf.now).variables (whole task.now.program.now) the_loop.now }
    requires memory { Remembers L.value L.meaning task.now finals.old }
    ensures value { IfOk result (λ made. L.value made
        ≡ turns_of L.meaning task.now.options.now the_loop.now (L.value leaf.now) (L.value at.now)) }
    ensures same { IfOk result (λ made. (L.value made).variables ≡ (L.value leaf.now).variables) }
    ensures memory { OnOk result (Remembers L.value L.meaning task.now finals.new) }
{
    let again = lap(finals, task, the_loop, at)?;
    joined(task.alloc, leaf, &again)
}

/// The head of a loop that has `at`.
#[cycle(after)]
fn head_at<L: Leaf>(
    finals: &mut Finals<L>,
    task: &Task<'_>,
    the_loop: &Loop<'_>,
    leaf: &L,
    at: L,
) -> Result<Head<L>, NoMemory>
    requires count { (L.value at).variables ≡ (L.value leaf.now).variables }
    requires own { IsLoopOf (L.value leaf.now).variables (whole task.now.program.now) the_loop.now }
    requires memory { Remembers L.value L.meaning task.now finals.old }
    ensures at { IfOk result (λ head. L.value head.at ≡ L.value at) }
    ensures head { IfOk result (λ head. IsHead L.value
        (turns_of L.meaning task.now.options.now the_loop.now (L.value leaf.now)) (L.value leaf.now).variables head) }
    ensures memory { OnOk result (Remembers L.value L.meaning task.now finals.new) }
{
    let next = turn(finals, task, the_loop, leaf, &at)?;
    Ok(Head { at, next })
}

/// The head of a loop after all rounds of joining and widening. It ends with the first round that changes nothing, since
/// the later ones change nothing either.
#[cycle(after)]
fn widened<L: Leaf>(
    finals: &mut Finals<L>,
    task: &Task<'_>,
    the_loop: &Loop<'_>,
    leaf: &L,
) -> Result<Head<L>, NoMemory>
    requires own { IsLoopOf (L.value leaf.now).variables (whole task.now.program.now) the_loop.now }
    requires memory { Remembers L.value L.meaning task.now finals.old }
    ensures value { IfOk result (λ head. L.value head.at ≡ widened_leaf L.meaning task.now.options.now.thresholds task.now.options.now.delay
        (turns_of L.meaning task.now.options.now the_loop.now (L.value leaf.now)) (L.value leaf.now)) }
    ensures head { IfOk result (λ head. IsHead L.value
        (turns_of L.meaning task.now.options.now the_loop.now (L.value leaf.now)) (L.value leaf.now).variables head) }
    ensures memory { OnOk result (Remembers L.value L.meaning task.now finals.new) }
{
    let delay = u64::from(task.options.delay);
    let rounds = round_count::<L>(task.options, leaf.variables());
    let start = leaf.copy(task.alloc)?;
    let mut head = head_at(finals, task, the_loop, leaf, start)?;
    for k in 0..rounds {
        match moved(
            task.alloc,
            &head.at,
            &head.next,
            k < delay,
            &task.options.thresholds,
        )? {
            None => return Ok(head),
            Some(made) => head = head_at(finals, task, the_loop, leaf, made)?,
        }
    }
    Ok(head)
}

/// The head of a loop after one round of narrowing, or None where the candidate is not taken, or is what stands there.
#[cycle(after)]
fn narrowed<L: Leaf>(
    finals: &mut Finals<L>,
    task: &Task<'_>,
    the_loop: &Loop<'_>,
    leaf: &L,
    head: &Head<L>,
) -> Result<Option<Head<L>>, NoMemory>
    requires head { IsHead L.value
        (turns_of L.meaning task.now.options.now the_loop.now (L.value leaf.now)) (L.value leaf.now).variables head.now }
    requires own { IsLoopOf (L.value leaf.now).variables (whole task.now.program.now) the_loop.now }
    requires memory { Remembers L.value L.meaning task.now finals.old }
    ensures kept { IfOk result (λ made. IfNone made (narrowing_of L.meaning task.now.options.now.thresholds
        (turns_of L.meaning task.now.options.now the_loop.now (L.value leaf.now)) (L.value head.now.at) ≡ L.value head.now.at)) }
    ensures taken { IfOk result (λ made. IfSome made (λ next. narrowing_of L.meaning task.now.options.now.thresholds
        (turns_of L.meaning task.now.options.now the_loop.now (L.value leaf.now)) (L.value head.now.at) ≡ L.value next.at)) }
    ensures head { IfOk result (λ made. IfSome made (λ next. IsHead L.value
        (turns_of L.meaning task.now.options.now the_loop.now (L.value leaf.now)) (L.value leaf.now).variables next)) }
    ensures memory { OnOk result (Remembers L.value L.meaning task.now finals.new) }
{
    equality_is_exact::<L>();
    let candidate = narrowed_by(task.alloc, &head.at, &head.next, &task.options.thresholds)?;
    if candidate == head.at {
        return Ok(None);
    }
    let made = head_at(finals, task, the_loop, leaf, candidate)?;
    if made.next.leq(&made.at) {
        Ok(Some(made))
    } else {
        Ok(None)
    }
}

/// The final leaf of a loop that is entered with `leaf`, by its rounds. Those of narrowing end with the first that changes
/// nothing.
#[cycle(after)]
fn final_by_rounds<L: Leaf>(
    finals: &mut Finals<L>,
    task: &Task<'_>,
    the_loop: &Loop<'_>,
    leaf: &L,
) -> Result<L, NoMemory>
    requires own { IsLoopOf (L.value leaf.now).variables (whole task.now.program.now) the_loop.now }
    requires memory { Remembers L.value L.meaning task.now finals.old }
    ensures value { IfOk result (λ made. L.value made
        ≡ final_of L.meaning task.now.options.now the_loop.now (L.value leaf.now)) }
    ensures same { IfOk result (λ made. (L.value made).variables ≡ (L.value leaf.now).variables) }
    ensures memory { OnOk result (Remembers L.value L.meaning task.now finals.new) }
{
    let mut head = widened(finals, task, the_loop, leaf)?;
    for _k in 0..task.options.narrow {
        match narrowed(finals, task, the_loop, leaf, &head)? {
            None => return Ok(head.at),
            Some(next) => head = next,
        }
    }
    Ok(head.at)
}

/// The final leaf of the loop at a place that is entered with `leaf`: Nothing stays Nothing, and else it is as remembered, or
/// made by its rounds and then remembered.
#[cycle(after)]
pub(crate) fn final_leaf<L: Leaf>(
    finals: &mut Finals<L>,
    task: &Task<'_>,
    the_loop: &Loop<'_>,
    leaf: &L,
) -> Result<L, NoMemory>
    requires own { IsLoopOf (L.value leaf.now).variables (whole task.now.program.now) the_loop.now }
    requires memory { Remembers L.value L.meaning task.now finals.old }
    ensures value { IfOk result (λ made. L.value made
        ≡ final_of L.meaning task.now.options.now the_loop.now (L.value leaf.now)) }
    ensures same { IfOk result (λ made. (L.value made).variables ≡ (L.value leaf.now).variables) }
    ensures memory { OnOk result (Remembers L.value L.meaning task.now finals.new) }
{
    transfer_is_sound::<L>();
    leaf_is_valid(leaf);
    if leaf.is_nothing() {
        return leaf.copy(task.alloc);
    }
    let entered = leaf.copy(task.alloc)?;
    let key = Entered {
        place: the_loop.place,
        leaf: entered,
    };
    if let Some(last) = find(&finals.entries, &key) {
        return last.copy(task.alloc);
    }
    let last = final_by_rounds(finals, task, the_loop, leaf)?;
    let kept = last.copy(task.alloc)?;
    remember(&mut finals.entries, key, kept)?;
    Ok(last)
}

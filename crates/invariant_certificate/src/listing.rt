//! What the lines of a certificate list.
#![tactic(auto)]

ghost use Rattle.std.specs.Prelude.{◌≡◌, ◌&&◌, ◌||◌, ◌<◌, ℕ, List, Bool, true, false, not, IfOk};
ghost use Rattle.std.specs.List.{All};
ghost use Rattle.cpp_conditions.specs.Propositions.{Const, IsBelow, true_on};
ghost use Rattle.cpp_conditions.specs.View.{formula};
ghost use Rattle.decision_tree.specs.Listed.{IsNumberedTree};
ghost use Rattle.decision_tree.specs.Plain.{TestsBelow, leaf, leaf_of};
ghost use Rattle.decision_tree.specs.View.{numbered, plain};
ghost use Rattle.plain_analysis.specs.Places.{is_same_place as same_place};
ghost use Rattle.certificate_format.specs.declared.certificates.AlarmLine.{AlarmLine};
ghost use Rattle.invariant_certificate.specs.Passes.{is_same_kind as same_kind, is_listed, lists};

use c_tree::Kind;
use certificate_format::AlarmLine;
use cpp_conditions::Formula;
use cpp_conditions::formulas::either;
use decision_tree::{Forest, Tree};
use fam_outer::{NoMemory, Place};
use lifted_analysis::AlarmTree;
use std::alloc::Global;
use std::marker::Brand;
use std::sync::ledger::{Blank, Ledger};
use tree_unify::{Operation, Steps, test_tree_in, unify_in};

/// Whether a line is for this place and kind.
fn is_for(line: &AlarmLine, place: Place, kind: Kind) -> bool
    ensures { result ≡ (same_place line.now.place place && same_kind line.now.kind kind) }
{
    let same = match (line.kind, kind) {
        (Kind::Overflow, Kind::Overflow)
        | (Kind::ZeroDivisor, Kind::ZeroDivisor)
        | (Kind::Assertion, Kind::Assertion) => true,
        _ => false,
    };
    line.place.line == place.line && line.place.column == place.column && same
}

/// Whether a formula is just false.
fn is_false(part: &Formula) -> bool
    ensures { result ≡ true → formula part.now ≡ Const false }
{
    match part {
        Formula::Const(truth) => !*truth,
        _ => false,
    }
}

/// One of the formulas or both; one alone, where the other is just false.
fn disjunction(alloc: Global, left: Formula, right: Formula) -> Result<Formula, NoMemory>
    ensures truth { IfOk result (λ made. (v : List Bool)
        → true_on v (formula made) ≡ (true_on v (formula left) || true_on v (formula right))) }
    ensures below { IfOk result (λ made. (count : ℕ) → IsBelow count (formula left)
        → IsBelow count (formula right) → IsBelow count (formula made)) }
{
    if is_false(&left) {
        Ok(right)
    } else if is_false(&right) {
        Ok(left)
    } else {
        either(alloc, left, right)
    }
}

/// The region of a line for this place and kind, and else just false.
fn listed_by(alloc: Global, line: &AlarmLine, place: Place, kind: Kind) -> Result<Formula, NoMemory>
    ensures truth { IfOk result (λ made. (v : List Bool)
        → true_on v (formula made) ≡ lists line.now (place, kind) v) }
    ensures below { IfOk result (λ made. (count : ℕ) → IsBelow count (formula line.now.region)
        → IsBelow count (formula made)) }
{
    if is_for(line, place, kind) {
        line.region.copy(alloc)
    } else {
        Ok(Formula::Const(false))
    }
}

/// The formula that some line lists the place and the kind, made by halves, so that it is not deep where there are many.
fn listed(alloc: Global, lines: &[AlarmLine], place: Place, kind: Kind) -> Result<Formula, NoMemory>
    ensures truth { IfOk result (λ made. (v : List Bool)
        → true_on v (formula made) ≡ is_listed lines.now (place, kind) v) }
    ensures below { IfOk result (λ made. (count : ℕ)
        → All (λ (l : AlarmLine). IsBelow count (formula l.region)) lines.now
        → IsBelow count (formula made)) }
{
    match lines {
        [] => Ok(Formula::Const(false)),
        [line] => listed_by(alloc, line, place, kind),
        _ => {
            let (first, second) = lines.split_at(lines.len() / 2);
            let left = listed(alloc, first, place, kind)?;
            let right = listed(alloc, second, place, kind)?;
            disjunction(alloc, left, right)
        }
    }
}

/// Whether a tree is the leaf false.
fn is_never(tree: &Tree<bool>) -> bool
    ensures { result ≡ true → plain tree.now ≡ leaf false }
{
    match tree {
        Tree::Leaf(leaf) => !leaf.value,
        Tree::Node(_) => false,
    }
}

/// That the first truth does not hold, or the second does.
#[derive(Drop)]
struct QuietOrListed;

impl Operation<bool, bool, bool> for QuietOrListed {
    ghost takes = { λ _ _ _. Unit {0} };

    ghost gives = { λ _ a b c. c ≡ (not a || b) };

    fn apply(&self, first: &bool, second: &bool) -> Result<bool, NoMemory> {
        Ok(!*first || *second)
    }
}

/// The vectors at which a tree is false or a formula true, with a counter of the steps.
fn quiet_or_listed<K: Ledger>(
    alloc: Global,
    tree: &Tree<bool>,
    listed: &Formula,
    blank: Blank,
) -> Result<Tree<bool>, NoMemory>
    requires name { blank.name ≡ K.name }
    requires parts { blank.parts ≡ K.parts }
    requires some { 0 < K.parts }
    requires tree { IsNumberedTree 0 320 (numbered tree.now) }
    requires listed { IsBelow 320 (formula listed.now) }
    ensures truth { IfOk result (λ t. (v : List Bool) → leaf_of (plain t) v
        ≡ (not (leaf_of (plain tree.now) v) || true_on v (formula listed.now))) }
    ensures tests { IfOk result (λ t. (count : ℕ) → TestsBelow count (plain tree.now)
        → IsBelow count (formula listed.now) → TestsBelow count (plain t)) }
    ensures numbered { IfOk result (λ t. IsNumberedTree 0 320 (numbered t)) }
{
    let mut steps = Steps::<K>::new(blank);
    let mut regions = Forest::new(alloc);
    let region = test_tree_in(alloc, &mut regions, listed, &mut steps)?;
    let mut forest = Forest::new(alloc);
    unify_in(
        alloc,
        &mut forest,
        &QuietOrListed,
        tree,
        &region,
        &mut steps,
    )
}

/// The vectors at which an alarm tree is false, or some line lists its place and kind.
pub(crate) fn covered(
    alloc: Global,
    alarm: &AlarmTree,
    lines: &[AlarmLine],
) -> Result<Tree<bool>, NoMemory>
    requires tree { IsNumberedTree 0 320 (numbered alarm.now.tree) }
    requires lines { All (λ (l : AlarmLine). IsBelow 320 (formula l.region)) lines.now }
    ensures truth { IfOk result (λ t. (v : List Bool) → leaf_of (plain t) v
        ≡ (not (leaf_of (plain alarm.now.tree) v) || is_listed lines.now (alarm.now.place, alarm.now.kind) v)) }
    ensures tests { IfOk result (λ t. (count : ℕ) → TestsBelow count (plain alarm.now.tree)
        → All (λ (l : AlarmLine). IsBelow count (formula l.region)) lines.now
        → TestsBelow count (plain t)) }
    ensures numbered { IfOk result (λ t. IsNumberedTree 0 320 (numbered t)) }
{
    if is_never(&alarm.tree) {
        return Tree::leaf(alloc, true);
    }
    let listed = listed(alloc, lines, alarm.place, alarm.kind)?;
    quiet_or_listed::<Brand>(alloc, &alarm.tree, &listed, Blank::new(1))
}

//! What the loops of a family have at their heads.
#![tactic(auto)]

ghost use Rattle.std.specs.Prelude.{ℕ, IfOk, OnOk, if◌then◌else◌};
ghost use Rattle.cpp_conditions.specs.Propositions.{true_on, IsBelow};
ghost use Rattle.cpp_conditions.specs.View.{formula};
ghost use Rattle.c_tree.specs.View.{whole};
ghost use Rattle.decision_tree.specs.View.{numbered, plain};
ghost use Rattle.plain_analysis.specs.Stated.{IsLoopOf};
ghost use Rattle.lifted_analysis.specs.Heads.{head_over};
ghost use Rattle.lifted_analysis.specs.LineIndex.{IsIndexOf};
ghost use Rattle.lifted_analysis.specs.Lines.{AreVariableBounds, bounded_by, given_at};
ghost use Rattle.lifted_analysis.specs.Rules.{Knows, IsRuleOf, heads_in, ruled_heads};
ghost use Rattle.tree_unify.specs.Formulas.{HasNumber};
ghost use Rattle.lifted_analysis.specs.States.{IsFamily, IsState, IsLifted, IsJoint, IsTruth, IsTest};

use crate::after::final_tree;
use crate::family_context::FamilyContext;
use crate::finals::Finals;
use crate::line_index::LineIndex;
use crate::lines::{LoopLine, Ranges};
use crate::operations::Step;
use crate::states::{kept, selected, stepped};
use crate::tables::Tables;
use decision_tree::Tree;
use fam_outer::{NoMemory, Place};
use leaf_domain::Leaf;
use plain_analysis::Loop;
use std::alloc::Global;
use std::sync::ledger::Ledger;
use tree_unify::test_tree_in;

/// What the loops of a family have at their heads: their final trees, or what the family's lines, with their index, make of the
/// tree of the start values.
#[derive(Drop)]
pub(crate) enum Rule<L> {
    Rounds,
    Lines(Tree<L>, LineIndex),
}

/// The rule by these lines, over the tree of the start values, or that by rounds.
pub(crate) fn rule_of<L: Leaf>(
    alloc: Global,
    start: &Tree<L>,
    lines: &[LoopLine],
    is_given: bool,
) -> Result<Rule<L>, NoMemory>
    ensures { IfOk result (IsRuleOf is_given lines.now (numbered start.now)) }
{
    if is_given {
        let start = start.share()?;
        let index = LineIndex::new(alloc, lines)?;
        return Ok(Rule::Lines(start, index));
    }
    Ok(Rule::Rounds)
}

/// What a line gives where its region holds, and a tree elsewhere.
fn region_tree<L: Leaf, K: Ledger>(
    tables: &mut Tables<L, K>,
    family: &FamilyContext,
    line: &LoopLine,
    start: &Tree<L>,
    elsewhere: &Tree<L>,
) -> Result<Tree<L>, NoMemory>
    requires start { IsState L.value family.now tables.old.leaves (numbered start.now) }
    requires elsewhere { IsState L.value family.now tables.old.leaves (numbered elsewhere.now) }
    requires region { IsBelow 320 (formula line.now.region) }
    requires tests { (k : ℕ) → HasNumber k (formula line.now.region) → IsTest family.now k }
    requires bounds { AreVariableBounds family.now.variables line.now.bounds }
    ensures { IfOk result (λ r. IsJoint L.value family.now tables.old.leaves tables.new.leaves
        (λ v x y. if true_on v (formula line.now.region) then bounded_by L.meaning line.now.bounds x else y)
        (plain start.now) (plain elsewhere.now) (numbered r)) }
{
    let alloc = tables.alloc;
    let _family = family.variables;
    let region = test_tree_in(alloc, &mut tables.truths, &line.region, &mut tables.steps)?;
    let bounded = stepped(tables, family, &Step::Bound(&line.bounds), start)?;
    selected(tables, family, &region, &bounded, elsewhere)
}

/// What the lines give the loop at a place: the first of its lines whose region holds counts, so the last one is taken first.
/// Lines at other places are not looked at.
fn given_tree<L: Leaf, K: Ledger>(
    tables: &mut Tables<L, K>,
    family: &FamilyContext,
    index: &LineIndex,
    start: &Tree<L>,
    place: Place,
) -> Result<Tree<L>, NoMemory>
    requires family { IsFamily family.now }
    requires index { IsIndexOf family.now.lines.now index.now }
    requires start { IsState L.value family.now tables.old.leaves (numbered start.now) }
    ensures { IfOk result (λ r. IsLifted L.value family.now tables.old.leaves tables.new.leaves
        (λ v d. given_at L.meaning family.now.lines.now v d place) (plain start.now) (numbered r)) }
{
    let positions = index.at(place);
    let unreached: Option<Ranges> = None;
    let mut made = stepped(tables, family, &Step::Bound(&unreached), start)?;
    for k in (0..positions.len()).rev() {
        let position = positions[k];
        let line = &family.lines[position];
        made = region_tree(tables, family, line, start, &made)?;
    }
    Ok(made)
}

/// The tree that the rule gives the loop at a place that is entered with `t`.
fn ruled_tree<L: Leaf, K: Ledger>(
    tables: &mut Tables<L, K>,
    finals: &mut Finals<L>,
    family: &FamilyContext,
    rule: &Rule<L>,
    the_loop: &Loop<'_>,
    t: &Tree<L>,
) -> Result<Tree<L>, NoMemory>
    requires family { IsFamily family.now }
    requires own { IsLoopOf family.now.variables (whole family.now.program.now) the_loop.now }
    requires state { IsState L.value family.now tables.old.leaves (numbered t.now) }
    requires memory { Knows L.value L.meaning family.now rule.now tables.old.leaves finals.old }
    ensures lifted { IfOk result (λ r. IsLifted L.value family.now tables.old.leaves tables.new.leaves
        (head_over L.meaning family.now (ruled_heads L.value L.meaning family.now rule.now) the_loop.now) (plain t.now) (numbered r)) }
    ensures memory { OnOk result
        (Knows L.value L.meaning family.now rule.now tables.new.leaves finals.new) }
{
    match rule {
        Rule::Rounds => final_tree(tables, finals, family, the_loop, t),
        Rule::Lines(start, index) => given_tree(tables, family, index, start, the_loop.place),
    }
}

/// The tree at the head of the loop at a place that is entered with `t`, and Nothing where the loop is not kept.
pub(crate) fn head_tree<L: Leaf, K: Ledger>(
    tables: &mut Tables<L, K>,
    finals: &mut Finals<L>,
    family: &FamilyContext,
    rule: &Rule<L>,
    here: &Tree<bool>,
    the_loop: &Loop<'_>,
    t: &Tree<L>,
) -> Result<Tree<L>, NoMemory>
    requires family { IsFamily family.now }
    requires here { IsTruth family.now (numbered here.now) }
    requires own { IsLoopOf family.now.variables (whole family.now.program.now) the_loop.now }
    requires state { IsState L.value family.now tables.old.leaves (numbered t.now) }
    requires memory { Knows L.value L.meaning family.now rule.now tables.old.leaves finals.old }
    ensures lifted { IfOk result (λ r. IsLifted L.value family.now tables.old.leaves tables.new.leaves
        (head_over L.meaning family.now (heads_in L.value L.meaning family.now rule.now (plain here.now)) the_loop.now) (plain t.now) (numbered r)) }
    ensures memory { OnOk result
        (Knows L.value L.meaning family.now rule.now tables.new.leaves finals.new) }
{
    let made = ruled_tree(tables, finals, family, rule, the_loop, t)?;
    kept(tables, family, here, true, &made)
}

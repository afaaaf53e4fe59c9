//! What is done to single leaves, and to pairs of them.
#![tactic(auto)]

ghost use Rattle.std.specs.Prelude.{◌≡◌, length, IfOk, All};
ghost use Rattle.leaf_domain.specs.Ranges.{IsInInt};
ghost use Rattle.lifted_analysis.specs.Lines.{AreVariableBounds, bounded_by, set_from};
ghost use Rattle.lifted_analysis.specs.Steps.{IsStepOf, stepped_by};

use crate::lines::Ranges;
use c_tree::{Expr, Mode};
use fam_outer::NoMemory;
use leaf_domain::{
    Leaf, Range, Thresholds, assign, assume, forget, leaf_is_valid, transfer_is_sound, valued,
};
use plain_analysis::{joined, narrowed_by, round};
use std::alloc::Global;
use tree_unify::Operation;

/// What a straight statement, a test, a value or a line does to a leaf: a variable is set to a value or to any input, the value
/// of a test is known to be other than 0, or to be 0, an expression is known to have a value, or each variable is set to its
/// range.
#[derive(Drop)]
pub(crate) enum Step<'a> {
    Assign(u32, &'a Expr),
    Forget(u32),
    Assume(&'a Expr, bool),
    Evaluate(&'a Expr),
    Bound(&'a Option<Ranges>),
}

/// The leaf with each variable set to its range, or Nothing where there are no ranges.
fn bounded<L: Leaf>(alloc: Global, leaf: &L, bounds: &Option<Ranges>) -> Result<L, NoMemory>
    requires { AreVariableBounds (L.value leaf.now).variables bounds.now }
    ensures value { IfOk result (λ made. L.value made ≡ bounded_by L.meaning bounds.now (L.value leaf.now)) }
    ensures same { IfOk result (λ made. (L.value made).variables ≡ (L.value leaf.now).variables) }
{
    leaf_is_valid(leaf);
    match bounds {
        None => L::nothing(alloc, leaf.variables()),
        Some(ranges) => ranged(alloc, leaf, ranges.items()),
    }
}

/// The leaf with each variable set to its range.
fn ranged<L: Leaf>(alloc: Global, leaf: &L, ranges: &[Range]) -> Result<L, NoMemory>
    requires count { length ranges.now ≡ (L.value leaf.now).variables }
    requires ranges { All IsInInt ranges.now }
    ensures value { IfOk result (λ made. L.value made ≡ set_from L.meaning 0 ranges.now (L.value leaf.now)) }
    ensures same { IfOk result (λ made. (L.value made).variables ≡ (L.value leaf.now).variables) }
{
    leaf_is_valid(leaf);
    let mut made = leaf.copy(alloc)?;
    let mut x = 0u32;
    for range in ranges {
        leaf_is_valid(&made);
        made = made.set_range(alloc, x, *range)?;
        x += 1;
    }
    Ok(made)
}

impl Step<'_> {
    /// The leaf after the step. Nothing stays Nothing, and no expression is looked at.
    pub(crate) fn at<L: Leaf>(&self, alloc: Global, leaf: &L, mode: Mode) -> Result<L, NoMemory>
        requires { IsStepOf (L.value leaf.now).variables self.now }
        ensures value { IfOk result (λ made. L.value made
            ≡ stepped_by L.meaning mode self.now (L.value leaf.now)) }
        ensures same { IfOk result (λ made. (L.value made).variables ≡ (L.value leaf.now).variables) }
    {
        transfer_is_sound::<L>();
        leaf_is_valid(leaf);
        if leaf.is_nothing() {
            return leaf.copy(alloc);
        }
        match self {
            Step::Assign(x, e) => assign(alloc, leaf, *x, e, mode),
            Step::Forget(x) => forget(alloc, leaf, *x),
            Step::Assume(e, want) => assume(alloc, leaf, e, *want, mode),
            Step::Evaluate(e) => valued(alloc, leaf, e, mode),
            Step::Bound(bounds) => bounded(alloc, leaf, bounds),
        }
    }
}

/// How two leaves are combined: joined, by a round of a loop, or to a candidate of narrowing.
#[derive(Clone, Copy)]
pub(crate) enum Combination {
    Join,
    Round(bool),
    Narrow,
}

/// The combination of two leaves.
#[derive(Drop)]
pub(crate) struct Combine<'a> {
    pub(crate) alloc: Global,
    pub(crate) how: Combination,
    pub(crate) thresholds: &'a Thresholds,
}

impl<L: Leaf> Operation<L, L, L> for Combine<'_> {
    ghost use Rattle.std.specs.Prelude.{◌≡◌};
    ghost use Rattle.lifted_analysis.specs.Steps.{combined_by};

    ghost takes = { λ _ a b. (L.value a).variables ≡ (L.value b).variables };

    ghost gives = { λ op a b c. (L.value c ≡ combined_by L.meaning op.thresholds.now op.how (L.value a) (L.value b)) × ((L.value c).variables ≡ (L.value a).variables) };

    fn apply(&self, first: &L, second: &L) -> Result<L, NoMemory> {
        match self.how {
            Combination::Join => joined(self.alloc, first, second),
            Combination::Round(is_early) => round(
                self.alloc,
                first,
                second,
                is_early,
                self.thresholds,
            ),
            Combination::Narrow => narrowed_by(self.alloc, first, second, self.thresholds),
        }
    }
}

/// Whether a leaf is below another.
#[derive(Drop)]
pub(crate) struct Below;

impl<L: Leaf> Operation<L, L, bool> for Below {
    ghost use Rattle.std.specs.Prelude.{◌≡◌};

    ghost takes = { λ _ a b. (L.value a).variables ≡ (L.value b).variables };

    ghost gives = { λ _ a b c. c ≡ L.meaning.leq (L.value a) (L.value b) };

    fn apply(&self, first: &L, second: &L) -> Result<bool, NoMemory> {
        Ok(first.leq(second))
    }
}

/// The leaf where the truth is as wanted, and Nothing elsewhere.
#[derive(Drop)]
pub(crate) struct Keep {
    pub(crate) alloc: Global,
    pub(crate) want: bool,
}

impl<L: Leaf> Operation<bool, L, L> for Keep {
    ghost use Rattle.std.specs.Prelude.{◌≡◌};
    ghost use Rattle.lifted_analysis.specs.Steps.{kept_by};

    ghost takes = { λ _ _ _. Unit {0} };

    ghost gives = { λ op b a c. (L.value c ≡ kept_by op.want b (L.value a)) × ((L.value c).variables ≡ (L.value a).variables) };

    fn apply(&self, first: &bool, second: &L) -> Result<L, NoMemory> {
        leaf_is_valid(second);
        let is_kept = if self.want { *first } else { !*first };
        if is_kept {
            second.copy(self.alloc)
        } else {
            L::nothing(self.alloc, second.variables())
        }
    }
}

/// Whether a truth holds, and another is as wanted.
#[derive(Drop)]
pub(crate) struct Guarded {
    pub(crate) positive: bool,
}

impl Operation<bool, bool, bool> for Guarded {
    ghost use Rattle.std.specs.Prelude.{◌≡◌, ◌&&◌, not, if◌then◌else◌};

    ghost takes = { λ _ _ _. Unit {0} };

    ghost gives = { λ op a b c. c ≡ (a && (if op.positive then b else not b)) };

    fn apply(&self, first: &bool, second: &bool) -> Result<bool, NoMemory> {
        Ok(*first && *second == self.positive)
    }
}

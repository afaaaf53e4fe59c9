//! Formulas that say what is kept.
#![tactic(auto)]

ghost use Rattle.std.specs.Prelude.{◌≡◌, ℕ, Bool, List, reverse, IfOk};
ghost use Rattle.std.specs.List.{All};
ghost use Rattle.cpp_conditions.specs.Propositions.{IsBelow, true_on};
ghost use Rattle.cpp_conditions.specs.View.{formula};
ghost use Rattle.cpp_groups.specs.Kept.{truth};
ghost use Rattle.family_names.specs.Groups.{is_true, is_as_asked, are_as_asked, are_kept};
ghost use Rattle.family_names.specs.Names.{truths_on};

use crate::groups::{Group, Groups};
use cpp_conditions::Formula;
use cpp_conditions::formulas::{both, negation};
use fam_outer::NoMemory;
use std::alloc::Global;

/// The condition with this number; false where there is none.
#[tactic(auto, using(crate::proofs::Asked::truth_with, crate::proofs::Asked::truth_without, crate::proofs::Asked::below_at))]
fn numbered(alloc: Global, conditions: &[Formula], number: u32) -> Result<Formula, NoMemory>
    ensures truth { IfOk result (λ made. (v : List Bool)
        → truth (truths_on conditions.now v) number ≡ true_on v (formula made)) }
    ensures below { IfOk result (λ made. (count : ℕ) → All (λ f. IsBelow count (formula f)) conditions.now
        → IsBelow count (formula made)) }
{
    match conditions.get(number as usize) {
        None => Ok(Formula::Const(false)),
        Some(condition) => condition.copy(alloc),
    }
}

/// The condition of a group; that of `#else` is true.
fn condition(alloc: Global, conditions: &[Formula], group: Group) -> Result<Formula, NoMemory>
    ensures truth { IfOk result (λ made. (v : List Bool)
        → is_true (truths_on conditions.now v) group ≡ true_on v (formula made)) }
    ensures below { IfOk result (λ made. (count : ℕ) → All (λ f. IsBelow count (formula f)) conditions.now
        → IsBelow count (formula made)) }
{
    match group {
        Group::First(number) => numbered(alloc, conditions, number),
        Group::Later(number) => numbered(alloc, conditions, number),
        Group::Else => Ok(Formula::Const(true)),
    }
}

/// The condition of a group, or its negation.
fn guard(
    alloc: Global,
    conditions: &[Formula],
    group: Group,
    asked: bool,
) -> Result<Formula, NoMemory>
    ensures truth { IfOk result (λ made. (v : List Bool)
        → is_as_asked asked (is_true (truths_on conditions.now v) group) ≡ true_on v (formula made)) }
    ensures below { IfOk result (λ made. (count : ℕ) → All (λ f. IsBelow count (formula f)) conditions.now
        → IsBelow count (formula made)) }
{
    let condition = condition(alloc, conditions, group)?;
    if asked {
        Ok(condition)
    } else {
        negation(alloc, condition)
    }
}

/// That the condition of the last group is as asked, and those before it too: of each section the group that stands here,
/// and the negations of those before it. It has as few levels as can be, since what reads it is recursive.
fn guards(
    alloc: Global,
    conditions: &[Formula],
    groups: &[Group],
    asked: bool,
) -> Result<Formula, NoMemory>
    ensures truth { IfOk result (λ made. (v : List Bool)
        → are_as_asked (truths_on conditions.now v) asked (reverse groups.now) ≡ true_on v (formula made)) }
    ensures below { IfOk result (λ made. (count : ℕ) → All (λ f. IsBelow count (formula f)) conditions.now
        → IsBelow count (formula made)) }
{
    match groups {
        [] => Ok(Formula::Const(true)),
        [group] => guard(alloc, conditions, *group, asked),
        _ => {
            let (outer, inner) = groups.split_at(groups.len() / 2);
            let front = guards(alloc, conditions, outer, inner[0].is_first())?;
            let back = guards(alloc, conditions, inner, asked)?;
            both(alloc, front, back)
        }
    }
}

/// That what stands in these groups is kept.
#[tactic(auto, using(crate::proofs::Asked::opened_guards))]
pub(crate) fn keeping(
    alloc: Global,
    conditions: &[Formula],
    groups: &Groups,
) -> Result<Formula, NoMemory>
    ensures truth { IfOk result (λ made. (v : List Bool)
        → are_kept (truths_on conditions.now v) groups.now ≡ true_on v (formula made)) }
    ensures below { IfOk result (λ made. (count : ℕ) → All (λ f. IsBelow count (formula f)) conditions.now
        → IsBelow count (formula made)) }
{
    guards(alloc, conditions, groups.items(), true)
}

//! The nearest valid configuration without alarms.
#![tactic(auto)]

ghost use Rattle.std.specs.Prelude.{◌≡◌, ◌≤◌, ◌<◌, ◌^◌, Bool, length, map, IfOk};
ghost use Rattle.std.specs.List.{All};
ghost use Rattle.linear_atoms.specs.Atoms.{AreAtoms, IsWithin};
ghost use Rattle.cpp_conditions.specs.declared.formulas.Formula.{Formula};
ghost use Rattle.cpp_conditions.specs.Naming.{AreFeatures};
ghost use Rattle.cpp_conditions.specs.Propositions.{IsBelow};
ghost use Rattle.cpp_conditions.specs.Validity.{AreFit};
ghost use Rattle.cpp_conditions.specs.View.{formula};
ghost use Rattle.decision_tree.specs.Listed.{IsNumberedTree};
ghost use Rattle.decision_tree.specs.Plain.{TestsBelow};
ghost use Rattle.decision_tree.specs.View.{numbered, plain};
ghost use Rattle.configuration_advice.specs.Changes.{TellsChanges};
ghost use Rattle.configuration_advice.specs.Choices.{nothing_chosen};
ghost use Rattle.configuration_advice.specs.Nearest.{Advises};
ghost use Rattle.configuration_advice.specs.Searching.{IsAsked, FindsNearest};

use crate::cheapest::{Priced, cheapest};
use crate::choices::{Choice, nothing_chosen};
use crate::comparing::Advice;
use crate::costs::cost;
use crate::keeping::{all_kept, copies};
use crate::question::{Question, first_candidate, with_pairs};
use crate::quietness::quiet;
use crate::searching::search;
use atom_solver::Prepared;
use cpp_conditions::{Formula, Model};
use decision_tree::Tree;
use fam_outer::{MOST_TESTS, NoMemory};
use linear_atoms::{Atom, Config};
use std::alloc::Global;

/// The nearest candidate, asked for with rising numbers of changes.
fn rising(
    alloc: Global,
    question: &Question,
    choices: &[Choice],
    most: u32,
) -> Result<Option<Advice>, NoMemory>
    requires asked { IsAsked question.now }
    requires nothing { choices.now ≡ nothing_chosen question.now.given.now.values }
    requires most { most ≤ length choices.now }
    ensures { IfOk result (λ found. FindsNearest question.now choices.now (length choices.now) found) }
{
    match search(alloc, question, choices, 0, most)? {
        Some(advice) => Ok(Some(advice)),
        None => {
            if (most as usize) < choices.len() {
                rising(alloc, question, choices, most + 1)
            } else {
                Ok(None)
            }
        }
    }
}

/// The nearest candidate, with any number of changes.
fn nearest_candidate(alloc: Global, question: &Question) -> Result<Option<Advice>, NoMemory>
    requires { IsAsked question.now }
    ensures { IfOk result (λ found. let given = question.now.given.now.values in FindsNearest question.now
        (nothing_chosen given) (length given) found) }
{
    let choices = nothing_chosen(alloc, question.given.values.items())?;
    match first_candidate(alloc, question, &choices)? {
        None => Ok(None),
        Some(_first) => rising(alloc, question, &choices, 0),
    }
}

/// `nearest`, by a search for what must change.
fn nearest_by_search(
    alloc: Global,
    prepared: &Prepared,
    atoms: &[Atom],
    alarms: &[Tree<bool>],
    given: &Config,
) -> Result<Option<Advice>, NoMemory>
    requires features { AreFeatures prepared.now.features }
    requires atoms { AreAtoms (length prepared.now.features) atoms.now }
    requires few { length atoms.now < 2 ^ 31 }
    requires tests { All (λ (t : Tree Bool). TestsBelow (length atoms.now) (plain t)) alarms.now }
    requires given { IsWithin prepared.now.features given.now.values }
    ensures { IfOk result (λ found. Advises prepared.now atoms.now
        (map plain alarms.now) given.now.values found) }
{
    let values = given.values.items();
    let tested = with_pairs(alloc, atoms, values)?;
    let quiet = quiet(alloc, alarms)?;
    let question = Question {
        prepared,
        atoms: &tested,
        quiet: &quiet,
        given,
        first: atoms.len() as u32,
    };
    let found = nearest_candidate(alloc, &question)?;
    Ok(found)
}

/// `nearest`, along a tree of how many features do not keep their given values, which has these tests.
fn nearest_by_cost(
    alloc: Global,
    prepared: &Prepared,
    tests: &[Atom],
    kept: &[Formula],
    alarms: &[Tree<bool>],
    given: &Config,
) -> Result<Option<Advice>, NoMemory>
    requires told { TellsChanges prepared.now.features tests.now (map formula kept.now) given.now.values }
    requires few { length tests.now ≤ 320 }
    requires atoms { AreAtoms (length prepared.now.features) tests.now }
    requires given { length given.now.values ≤ 32 }
    requires count { length kept.now ≤ length given.now.values }
    requires kept { All (λ (f : Formula). IsBelow (length tests.now) (formula f)) kept.now }
    requires alarms { All (λ (t : Tree Bool). TestsBelow (length tests.now) (plain t)) alarms.now }
    requires numbered { All (λ (t : Tree Bool). IsNumberedTree 0 320 (numbered t)) alarms.now }
    ensures { IfOk result (λ found. Advises prepared.now tests.now
        (map plain alarms.now) given.now.values found) }
{
    let cost = cost(alloc, alarms, kept)?;
    let priced = Priced {
        prepared,
        tests,
        cost: &cost,
    };
    cheapest(alloc, &priced, 0, given.values.items().len() as u32)
}

/// Of the valid configurations at which all trees of alarms are false, one that differs from the given one in the fewest
/// features, and among those the first in the order of configurations; and in how many it differs. The trees' tests are numbers
/// of the atoms. It answers None exactly where there is no such configuration, and an error only for want of memory.
///
/// The given configuration is within the ranges of the features, of which there are at most 32. The trees have numbers, as those of
/// a forest have. The other conditions are those of `alarm_report::regions` for each tree.
///
/// Where the atoms and the tests that tell of the features whether they keep their values are at most 320, there is one question
/// along a tree for each number of changes; else what must change is searched for, which may take a question for each choice
/// of the features that change.
pub fn nearest(
    alloc: Global,
    model: &Model,
    atoms: &[Atom],
    alarms: &[Tree<bool>],
    given: &Config,
) -> Result<Option<Advice>, NoMemory>
    requires constraints { AreFit (length model.now.features) model.now.constraints }
    requires features { AreFeatures model.now.features }
    requires atoms { AreAtoms (length model.now.features) atoms.now }
    requires few { length atoms.now < 2 ^ 31 }
    requires tests { All (λ (t : Tree Bool). TestsBelow (length atoms.now) (plain t)) alarms.now }
    requires trees { All (λ (t : Tree Bool). IsNumberedTree 0 320 (numbered t)) alarms.now }
    requires given { IsWithin model.now.features given.now.values }
    ensures { IfOk result (λ found. Advises model.now atoms.now
        (map plain alarms.now) given.now.values found) }
{
    let prepared = Prepared::new(alloc, model)?;
    let mut tests = copies(alloc, atoms)?;
    let kept = all_kept(
        alloc,
        &mut tests,
        model.features.items(),
        given.values.items(),
        0,
    )?;
    if tests.len() <= MOST_TESTS {
        nearest_by_cost(alloc, &prepared, &tests, &kept, alarms, given)
    } else {
        nearest_by_search(alloc, &prepared, atoms, alarms, given)
    }
}

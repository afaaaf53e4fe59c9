//! The search for the nearest candidate.
//!
//! What must change is found from what can't be kept: where no candidate keeps all features that are still open, some few of these
//! can't be kept together, and one of them changes. So features that no alarm and no constraint ties to these are never tried.
#![tactic(auto)]

ghost use Rattle.std.specs.Prelude.{◌≡◌, ◌+◌, ◌<◌, ◌^◌, length, IfOk};
ghost use Rattle.configuration_advice.specs.Choices.{Tightens, changes};
ghost use Rattle.configuration_advice.specs.Searching.{IsAsked, IsRefuted, FindsNearest};

use crate::choices::{Choice, closed, is_tightened, joined, loosened};
use crate::comparing::{Advice, nearer};
use crate::question::{Question, first_candidate};
use fam_outer::NoMemory;
use linear_atoms::slices::cut;
use std::alloc::Global;

/// Of refuted choices those from a place on and before another loosened again, as far as they stay refuted: by halves, so that
/// few questions suffice where few of them are to blame.
fn core(
    alloc: Global,
    question: &Question,
    choices: &[Choice],
    tight: Vec<Choice>,
    from: usize,
    to: usize,
) -> Result<Vec<Choice>, NoMemory>
    requires asked { IsAsked question.now }
    requires count { length choices.now ≡ length question.now.given.now.values }
    requires tight { Tightens choices.now tight.items }
    requires refuted { IsRefuted question.now tight.items }
    ensures tight { IfOk result (λ made. Tightens choices.now made.items) }
    ensures refuted { IfOk result (λ made. IsRefuted question.now made.items) }
{
    if from >= to {
        return Ok(tight);
    }
    let trial = loosened(alloc, choices, &tight, from, to)?;
    if first_candidate(alloc, question, &trial)?.is_none() {
        return Ok(trial);
    }
    if to - from == 1 {
        return Ok(tight);
    }
    let middle = from + (to - from) / 2;
    let first = core(alloc, question, choices, tight, from, middle)?;
    core(alloc, question, choices, first, middle, to)
}

/// The nearest candidate that is as chosen, with at most so many changes beside those that are chosen.
#[cycle(search)]
pub(crate) fn search(
    alloc: Global,
    question: &Question,
    choices: &[Choice],
    changed: u32,
    left: u32,
) -> Result<Option<Advice>, NoMemory>
    requires asked { IsAsked question.now }
    requires count { length choices.now ≡ length question.now.given.now.values }
    requires changed { changed ≡ changes choices.now }
    requires few { changed + left < 2 ^ 32 }
    ensures { IfOk result (λ found. FindsNearest question.now choices.now (changed + left) found) }
{
    let tight = closed(alloc, choices)?;
    if let Some(config) = first_candidate(alloc, question, &tight)? {
        return Ok(Some(Advice { config, changed }));
    }
    if left == 0 {
        return Ok(None);
    }
    let blamed = core(alloc, question, choices, tight, 0, choices.len())?;
    branches(alloc, question, choices, &blamed, changed, left - 1)
}

/// The nearest candidate that is as chosen, where others that keep some features are refuted: one of these features changes. The
/// changes are at most so many beside those that are chosen and this one.
#[cycle(search)]
fn branches(
    alloc: Global,
    question: &Question,
    choices: &[Choice],
    blamed: &[Choice],
    changed: u32,
    left: u32,
) -> Result<Option<Advice>, NoMemory>
    requires asked { IsAsked question.now }
    requires count { length choices.now ≡ length question.now.given.now.values }
    requires changed { changed ≡ changes choices.now }
    requires few { changed + 1 + left < 2 ^ 32 }
    requires tight { Tightens choices.now blamed.now }
    requires refuted { IsRefuted question.now blamed.now }
    ensures { IfOk result (λ found. FindsNearest question.now choices.now (changed + 1 + left) found) }
{
    let mut front = Vec::new(alloc);
    let mut best = None;
    let (mut rest, mut others) = (choices, blamed);
    'choices: while let (Some((choice, behind)), Some((other, more))) = (cut(rest), cut(others)) {
        if is_tightened(*choice, *other) {
            let trial = joined(alloc, &front, Choice::Changed, behind)?;
            let found = search(alloc, question, &trial, changed + 1, left)?;
            best = nearer(best, found);
        }
        front.push(*other)?;
        rest = behind;
        others = more;
    }
    Ok(best)
}

//! The least configuration of a model, part by part.
#![tactic(auto)]

ghost use Rattle.std.specs.Prelude.{None, true, length, IfOk, MatchOption};
ghost use Rattle.linear_atoms.specs.Atoms.{AreRanges};
ghost use Rattle.cpp_conditions.specs.Propositions.{Const};
ghost use Rattle.cpp_conditions.specs.Validity.{AreFit};
ghost use Rattle.cpp_conditions.specs.View.{formula};
ghost use Rattle.atom_solver.specs.Free.{Serves};
ghost use Rattle.atom_solver.specs.Spans.{ranges, meets, FindsIn};
ghost use Rattle.atom_solver.specs.Truths.{StandsForAll};

use crate::branching::MOST_TURNS;
use crate::guesses::Guesses;
use crate::labels::{marks_by, naming_of};
use crate::numbering::{Question, numbered};
use crate::parting::{part_of, with_values};
use crate::refuting::are_opposed;
use crate::searching::{Sought, search};
use crate::spans::CutPlace;
use cpp_conditions::Condition;
use fam_outer::NoMemory;
use linear_atoms::slices::cut;
use linear_atoms::{Config, Span};
use std::alloc::Global;

/// The first configuration of the box at which conditions are true, which are numbered.
#[tactic(auto, using(crate::proofs::Listed::stands_alone))]
fn first_of(
    alloc: Global,
    spans: &[Span],
    conditions: &[Condition],
    question: &Question,
    naming: &[Vec<usize>],
    guesses: &mut Guesses,
) -> Result<Option<Config>, NoMemory>
    requires fit { AreFit (length spans.now) conditions.now }
    requires ranges { AreRanges (ranges spans.now) }
    requires question { StandsForAll conditions.now question.now.atoms.items (formula question.now.asked) }
    ensures { IfOk result (λ found. FindsIn (ranges spans.now) (meets conditions.now (Const true)) found) }
{
    let every = Condition::Const(true);
    if are_opposed(alloc, spans, conditions, &every)? {
        return Ok(None);
    }
    let sought = Sought {
        constraints: conditions,
        wanted: &every,
        atoms: &question.atoms,
        order: &question.order,
        asked: &question.asked,
    };
    search(
        alloc,
        spans,
        &sought,
        naming,
        MOST_TURNS,
        CutPlace::LowEnd,
        guesses,
    )
}

/// The first configuration of the box at which conditions are true.
fn first_alone(
    alloc: Global,
    spans: &[Span],
    conditions: &[Condition],
) -> Result<Option<Config>, NoMemory>
    requires fit { AreFit (length spans.now) conditions.now }
    requires ranges { AreRanges (ranges spans.now) }
    ensures { IfOk result (λ found. FindsIn (ranges spans.now) (meets conditions.now (Const true)) found) }
{
    let question = numbered(alloc, conditions)?;
    let named = marks_by(alloc, spans.len(), conditions)?;
    let naming = naming_of(alloc, spans.len(), &named)?;
    let mut guesses = Guesses::at_lows(alloc, spans, &question.atoms)?;
    first_of(alloc, spans, conditions, &question, &naming, &mut guesses)
}

/// The box with the first values of a part alone; None where it has no solution.
#[tactic(auto, using(crate::proofs::Freed::serves_same, crate::proofs::Apart::fit_part, crate::proofs::Apart::void_part, crate::proofs::Apart::settled_part))]
fn solved(
    alloc: Global,
    spans: &[Span],
    conditions: &[Condition],
    marks: &[bool],
) -> Result<Option<Vec<Span>>, NoMemory>
    requires fit { AreFit (length spans.now) conditions.now }
    requires ranges { AreRanges (ranges spans.now) }
    ensures { IfOk result (λ made. MatchOption made
        (FindsIn (ranges spans.now) (meets conditions.now (Const true)) None)
        (λ inner. Serves (meets conditions.now (Const true)) spans.now inner.items)) }
{
    match part_of(alloc, conditions, marks)? {
        None => {
            let same = Vec::from_slice(alloc, spans)?;
            Ok(Some(same))
        }
        Some(part) => match first_alone(alloc, spans, &part)? {
            None => Ok(None),
            Some(config) => {
                let inner = with_values(alloc, marks, config.values.items(), spans)?;
                Ok(Some(inner))
            }
        },
    }
}

/// The same with one part after another.
#[tactic(auto, using(crate::proofs::Freed::serves_same, crate::proofs::Freed::served_fit, crate::proofs::Freed::served_ranges, crate::proofs::Freed::served_found, crate::proofs::Freed::served_more))]
fn all_solved(
    alloc: Global,
    spans: &[Span],
    conditions: &[Condition],
    parts: &[Vec<bool>],
) -> Result<Option<Vec<Span>>, NoMemory>
    requires fit { AreFit (length spans.now) conditions.now }
    requires ranges { AreRanges (ranges spans.now) }
    ensures { IfOk result (λ made. MatchOption made
        (FindsIn (ranges spans.now) (meets conditions.now (Const true)) None)
        (λ inner. Serves (meets conditions.now (Const true)) spans.now inner.items)) }
{
    match cut(parts) {
        None => {
            let same = Vec::from_slice(alloc, spans)?;
            Ok(Some(same))
        }
        Some((marks, behind)) => match solved(alloc, spans, conditions, marks)? {
            None => Ok(None),
            Some(inner) => match all_solved(alloc, &inner, conditions, behind)? {
                None => Ok(None),
                Some(last) => Ok(Some(last)),
            },
        },
    }
}

/// The first configuration of the box at which all conditions are true: each part that shares no feature with others is
/// solved alone.
#[tactic(auto, using(crate::proofs::Freed::served_fit, crate::proofs::Freed::served_ranges, crate::proofs::Freed::served_found))]
pub(crate) fn first_by_parts(
    alloc: Global,
    spans: &[Span],
    conditions: &[Condition],
    question: &Question,
    naming: &[Vec<usize>],
    parts: &[Vec<bool>],
    guesses: &mut Guesses,
) -> Result<Option<Config>, NoMemory>
    requires fit { AreFit (length spans.now) conditions.now }
    requires ranges { AreRanges (ranges spans.now) }
    requires question { StandsForAll conditions.now question.now.atoms.items (formula question.now.asked) }
    ensures { IfOk result (λ found. FindsIn (ranges spans.now) (meets conditions.now (Const true)) found) }
{
    match all_solved(alloc, spans, conditions, parts)? {
        None => Ok(None),
        Some(inner) => match first_of(alloc, &inner, conditions, question, naming, guesses)? {
            None => Ok(None),
            Some(config) => Ok(Some(config)),
        },
    }
}

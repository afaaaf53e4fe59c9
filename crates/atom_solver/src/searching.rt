//! The search: a box is ruled out by bounds or by truths, or narrowed by bounds and cut in two, the lower half first. It is guided by
//! the last solution that was found: where that has the least value of a feature, so has the first one.
#![tactic(auto)]

ghost use Rattle.std.specs.Prelude.{◌≡◌, ℤ, List, map, true, false, IfOk, IfSome, length};
ghost use Rattle.linear_atoms.specs.Atoms.{AreRanges, IsWithin};
ghost use Rattle.cpp_conditions.specs.Propositions.{IsFit, true_at};
ghost use Rattle.cpp_conditions.specs.Validity.{AreFit, IsConfig};
ghost use Rattle.cpp_conditions.specs.View.{formula, proposition};
ghost use Rattle.atom_solver.specs.Free.{Serves};
ghost use Rattle.atom_solver.specs.Solutions.{Finds};
ghost use Rattle.atom_solver.specs.Spans.{ranges, span_of, meets, FindsIn};
ghost use Rattle.atom_solver.specs.Truths.{StandsFor, StandsForAll};

use crate::branching::{FEWEST_TURNS, MOST_TURNS, is_untrue};
use crate::deciding::is_ruled_out;
use crate::freeing::{SmallerBox, reduced};
use crate::guesses::Guesses;
use crate::numbering::{Question, asked_too};
use crate::points::at_lows;
use crate::refuting::are_opposed;
use crate::spans::{CutPlace, begins_low, cut_box};
use cpp_conditions::{Condition, Formula, Model};
use fam_outer::NoMemory;
use linear_atoms::{Atom, Config, Span};
use std::alloc::Global;

/// How many choices are made for a part of a box, by how many were made for the box and how many of them were left: a quarter
/// where all were made in vain, since a smaller box needs fewer.
fn turns_within(turns: u32, left: u32) -> u32 {
    if left == 0 {
        (turns / 4).max(FEWEST_TURNS)
    } else {
        turns
    }
}

/// What is sought: where constraints are true and what is wanted is; and both as a formula over the numbers of atoms, with an order of
/// these.
#[derive(Clone, Copy)]
pub(crate) struct Sought<'a> {
    pub(crate) constraints: &'a [Condition],
    pub(crate) wanted: &'a Condition,
    pub(crate) atoms: &'a [Atom],
    pub(crate) order: &'a [u32],
    pub(crate) asked: &'a Formula,
}

/// Whether the box is ruled out by bounds or by truths, and how many choices are left for its parts. Where a solution in it is known,
/// nothing is asked; else one is looked for among the truths that nothing refutes.
#[tactic(auto, using(crate::proofs::Learned::out_by))]
fn is_out(
    alloc: Global,
    spans: &[Span],
    sought: &Sought<'_>,
    turns: u32,
    guesses: &mut Guesses,
) -> Result<(bool, u32), NoMemory>
    requires constraints { AreFit (length spans.now) sought.now.constraints.now }
    requires wanted { IsFit (length spans.now) (proposition sought.now.wanted.now) }
    requires ranges { AreRanges (ranges spans.now) }
    requires asked { StandsFor sought.now.constraints.now (proposition sought.now.wanted.now) sought.now.atoms.now
        (formula sought.now.asked.now) }
    ensures { IfOk result (λ answer. answer.0 ≡ true → (values : List ℤ) → IsWithin (ranges spans.now) values
        → meets sought.now.constraints.now (proposition sought.now.wanted.now) values ≡ false) }
{
    if !guesses.values_in(spans).is_empty() {
        return Ok((false, turns));
    }
    if is_ruled_out(spans, sought.constraints, sought.wanted) {
        return Ok((true, turns));
    }
    let (atoms, asked) = (sought.atoms, sought.asked);
    let (is_out, left) = is_untrue(alloc, spans, atoms, sought.order, asked, turns, guesses)?;
    if !is_out {
        guesses.find_values(alloc, spans, atoms, asked)?;
    }
    Ok((is_out, turns_within(turns, left)))
}

/// The box without what bounds rule out; or as it is, where the known solution in it has the least value of the first range that has
/// two: then this is the first one's too.
#[tactic(auto, using(crate::proofs::Freed::serves_same))]
fn smaller(
    alloc: Global,
    spans: &[Span],
    sought: &Sought<'_>,
    naming: &[Vec<usize>],
    guesses: &mut Guesses,
) -> Result<SmallerBox, NoMemory>
    requires constraints { AreFit (length spans.now) sought.now.constraints.now }
    requires wanted { IsFit (length spans.now) (proposition sought.now.wanted.now) }
    requires ranges { AreRanges (ranges spans.now) }
    ensures { IfOk result (λ made. Serves
        (meets sought.now.constraints.now (proposition sought.now.wanted.now)) spans.now made.spans.items) }
{
    if begins_low(spans, guesses.values_in(spans)) {
        return Ok(SmallerBox {
            spans: Vec::from_slice(alloc, spans)?,
            naming: None,
        });
    }
    let made = reduced(alloc, spans, sought.constraints, naming, sought.wanted)?;
    guesses.bring_in(&made.spans);
    Ok(made)
}

/// The first configuration of the box at which the constraints and what is wanted are true, with so many choices of truths at
/// most for the box. It is advised which undecided constraints name each feature, and where the box is cut.
pub(crate) fn search(
    alloc: Global,
    spans: &[Span],
    sought: &Sought<'_>,
    naming: &[Vec<usize>],
    turns: u32,
    cut_place: CutPlace,
    guesses: &mut Guesses,
) -> Result<Option<Config>, NoMemory>
    requires constraints { AreFit (length spans.now) sought.now.constraints.now }
    requires wanted { IsFit (length spans.now) (proposition sought.now.wanted.now) }
    requires ranges { AreRanges (ranges spans.now) }
    requires asked { StandsFor sought.now.constraints.now (proposition sought.now.wanted.now) sought.now.atoms.now
        (formula sought.now.asked.now) }
    ensures { IfOk result (λ found. FindsIn (ranges spans.now)
        (meets sought.now.constraints.now (proposition sought.now.wanted.now)) found) }
{
    let (is_out, turns) = is_out(alloc, spans, sought, turns, guesses)?;
    if is_out {
        return Ok(None);
    }
    let narrower = smaller(alloc, spans, sought, naming, guesses)?;
    let inner = narrower.spans.as_slice();
    let naming = narrower.naming_or(naming);
    match at_lows(alloc, inner, sought.constraints, sought.wanted)? {
        Some(config) => Ok(Some(config)),
        None => match cut_box(
            alloc,
            inner,
            sought.atoms,
            cut_place,
            guesses.values_in(inner),
        )? {
            None => Ok(None),
            Some(halves) => {
                match search(
                    alloc,
                    &halves.lower,
                    sought,
                    naming,
                    turns,
                    CutPlace::LowEnd,
                    guesses,
                )? {
                    Some(config) => Ok(Some(config)),
                    None => search(
                        alloc,
                        &halves.upper,
                        sought,
                        naming,
                        turns,
                        halves.next,
                        guesses,
                    ),
                }
            }
        },
    }
}

/// The first of the valid configurations at which the condition is true, in a box whose first one it is.
pub(crate) fn first_valid(
    alloc: Global,
    model: &Model,
    spans: &[Span],
    question: &Question,
    naming: &[Vec<usize>],
    wanted: &Condition,
) -> Result<Option<Config>, NoMemory>
    requires constraints { AreFit (length model.now.features) model.now.constraints }
    requires wanted { IsFit (length model.now.features) (proposition wanted.now) }
    requires ranges { AreRanges model.now.features }
    requires spans { Serves (meets model.now.constraints (proposition wanted.now))
        (map span_of model.now.features) spans.now }
    requires question { StandsForAll model.now.constraints question.now.atoms.items
        (formula question.now.asked) }
    ensures first { IfOk result (λ found. Finds model.now
        (λ (values : List ℤ). true_at values (proposition wanted.now)) found) }
    ensures config { IfOk result (λ found. IfSome found
        (λ config. IsConfig model.now.features config.values)) }
{
    let constraints = model.constraints.items();
    if are_opposed(alloc, spans, constraints, wanted)? {
        return Ok(None);
    }
    let whole = asked_too(alloc, question, wanted)?;
    let sought = Sought {
        constraints,
        wanted,
        atoms: &whole.atoms,
        order: &whole.order,
        asked: &whole.asked,
    };
    let mut guesses = Guesses::at_lows(alloc, spans, &whole.atoms)?;
    search(
        alloc,
        spans,
        &sought,
        naming,
        MOST_TURNS,
        CutPlace::LowEnd,
        &mut guesses,
    )
}

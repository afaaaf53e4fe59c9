//! The ends of ranges as linear forms that are at least 0.
#![tactic(auto)]

ghost use Rattle.std.specs.Prelude.{◌≡◌, ◌<◌, length, IfOk, MatchOption};
ghost use Rattle.linear_atoms.specs.Atoms.{AreRanges};
ghost use Rattle.atom_solver.specs.Facts.{AddsWithin, AreMetWithin, IsLine, IsMetWithin};
ghost use Rattle.atom_solver.specs.Spans.{ranges};

use crate::facts::{number, sum, term};
use crate::range_ends::range_at;
use fam_outer::NoMemory;
use linear_atoms::slices::cut;
use linear_atoms::{Atom, Linear, Span};
use std::alloc::Global;

/// A feature times a number, and a number; None where a number becomes too large.
fn line(alloc: Global, name: u32, by: i64, least: i64) -> Result<Option<Linear>, NoMemory>
    ensures { IfOk result (λ made. MatchOption made (Unit {0}) (λ f. IsLine name by least f)) }
{
    match term(alloc, name, by)? {
        None => Ok(None),
        Some(form) => match number(alloc, least)? {
            None => Ok(None),
            Some(constant) => match sum(alloc, &form, &constant)? {
                None => Ok(None),
                Some(made) => Ok(Some(made)),
            },
        },
    }
}

/// The form that is at least 0 where a feature is not below the low end of its range.
fn above_low(alloc: Global, spans: &[Span], place: u32) -> Result<Option<Linear>, NoMemory>
    requires place { place < length spans.now }
    requires ranges { AreRanges (ranges spans.now) }
    ensures { IfOk result (λ made. MatchOption made (Unit {0}) (λ f. IsMetWithin (ranges spans.now) f)) }
{
    let span = range_at(spans, place as usize);
    match line(alloc, place, 1, -span.low)? {
        None => Ok(None),
        Some(form) => Ok(Some(form)),
    }
}

/// The form that is at least 0 where a feature is not above the high end of its range.
fn below_high(alloc: Global, spans: &[Span], place: u32) -> Result<Option<Linear>, NoMemory>
    requires place { place < length spans.now }
    requires ranges { AreRanges (ranges spans.now) }
    ensures { IfOk result (λ made. MatchOption made (Unit {0}) (λ f. IsMetWithin (ranges spans.now) f)) }
{
    let span = range_at(spans, place as usize);
    match line(alloc, place, -1, span.high)? {
        None => Ok(None),
        Some(form) => Ok(Some(form)),
    }
}

/// An end of a range.
#[derive(Clone, Copy)]
enum End {
    Low,
    High,
}

/// The form that is at least 0 where a feature is not beyond an end of its range.
fn end_form(alloc: Global, spans: &[Span], place: u32, end: End) -> Result<Option<Linear>, NoMemory>
    requires place { place < length spans.now }
    requires ranges { AreRanges (ranges spans.now) }
    ensures { IfOk result (λ made. MatchOption made (Unit {0}) (λ f. IsMetWithin (ranges spans.now) f)) }
{
    match end {
        End::Low => above_low(alloc, spans, place),
        End::High => below_high(alloc, spans, place),
    }
}

/// Adds the form of an end of the range at a place.
#[tactic(auto, using(crate::proofs::Ended::adds_none, crate::proofs::Ended::adds_form))]
fn add_end(
    alloc: Global,
    spans: &[Span],
    place: u32,
    end: End,
    forms: &mut Vec<Linear>,
) -> Result<(), NoMemory>
    requires place { place < length spans.now }
    requires ranges { AreRanges (ranges spans.now) }
    ensures { IfOk result (λ _. AddsWithin (ranges spans.now) forms.old.items forms.new.items) }
{
    match end_form(alloc, spans, place, end)? {
        None => Ok(()),
        Some(form) => {
            forms.push(form)?;
            Ok(())
        }
    }
}

/// Adds the forms of both ends of the range at a place.
#[tactic(auto, using(crate::proofs::Ended::adds_more))]
fn add_both(
    alloc: Global,
    spans: &[Span],
    place: u32,
    forms: &mut Vec<Linear>,
) -> Result<(), NoMemory>
    requires place { place < length spans.now }
    requires ranges { AreRanges (ranges spans.now) }
    ensures { IfOk result (λ _. AddsWithin (ranges spans.now) forms.old.items forms.new.items) }
{
    add_end(alloc, spans, place, End::Low, forms)?;
    add_end(alloc, spans, place, End::High, forms)?;
    Ok(())
}

/// Adds the forms of both ends of each range from a place on.
#[tactic(auto, using(crate::proofs::Ended::adds_none, crate::proofs::Ended::adds_more))]
pub(crate) fn add_ends(
    alloc: Global,
    spans: &[Span],
    place: u32,
    forms: &mut Vec<Linear>,
) -> Result<(), NoMemory>
    requires { AreRanges (ranges spans.now) }
    ensures { IfOk result (λ _. AddsWithin (ranges spans.now) forms.old.items forms.new.items) }
{
    if place as usize >= spans.len() || place == u32::MAX {
        return Ok(());
    }
    add_both(alloc, spans, place, forms)?;
    add_ends(alloc, spans, place + 1, forms)
}

/// Whether an atom names two features: else no sum needs an end of a range.
fn any_links(atoms: &[Atom]) -> bool {
    for atom in atoms {
        if atom.terms.items().len() > 1 {
            return true;
        }
    }
    false
}

/// The forms of the ends of all ranges; none where each atom names one feature alone, since then no sum needs them.
pub(crate) fn ends_of(
    alloc: Global,
    spans: &[Span],
    atoms: &[Atom],
) -> Result<Vec<Linear>, NoMemory>
    requires { AreRanges (ranges spans.now) }
    ensures { IfOk result (λ made. AreMetWithin (ranges spans.now) made.items) }
{
    let mut ends = Vec::new(alloc);
    if any_links(atoms) {
        add_ends(alloc, spans, 0, &mut ends)?;
    }
    Ok(ends)
}

/// Forms once more.
pub(crate) fn copies(alloc: Global, forms: &[Linear]) -> Result<Vec<Linear>, NoMemory>
    ensures { IfOk result (λ made. made.items ≡ forms.now) }
{
    let mut made = Vec::new(alloc);
    let mut rest = forms;
    'forms: while let Some((form, behind)) = cut(rest) {
        made.push(Linear {
            terms: form.terms.copy(alloc)?,
            constant: form.constant,
        })?;
        rest = behind;
    }
    Ok(made)
}

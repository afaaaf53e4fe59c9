//! The least and the greatest value that valid configurations give a feature.
#![tactic(auto)]

ghost use Rattle.std.specs.Prelude.{◌<◌, ◌≤ℤ◌, ◌<ℤ◌, length, IfOk, MatchOption};
ghost use Rattle.configuration_advice.specs.Ends.{AreSmall, HasEnd, IsEnd, width};

use crate::asking::{value_below, value_from};
use atom_solver::Prepared;
use fam_outer::NoMemory;
use linear_atoms::Span;
use std::alloc::Global;

/// Which end of the values that valid configurations give a feature.
#[derive(Clone, Copy)]
pub(crate) enum End {
    Least,
    Greatest,
}

/// A number behind the low end of a span, halfway to its high end.
fn halfway(span: Span) -> i64
    requires order { span.low <ℤ span.high }
    requires small { AreSmall span }
    ensures low { span.low <ℤ result }
    ensures high { result ≤ℤ span.high }
{
    span.high - (span.high - span.low) / 2
}

/// The part of a span that has the value at this end; None where there is one value only.
#[tactic(auto, using(crate::proofs::Halved::least_above, crate::proofs::Halved::greatest_below))]
fn part_with(
    alloc: Global,
    prepared: &Prepared,
    number: u32,
    end: End,
    span: Span,
) -> Result<Option<Span>, NoMemory>
    requires number { number < length prepared.now.features }
    requires has { HasEnd end prepared.now number span }
    ensures { IfOk result (λ part. MatchOption part (span.high ≤ℤ span.low)
        (λ s. HasEnd end prepared.now number s × (width s < width span))) }
{
    if span.low >= span.high {
        return Ok(None);
    }
    let middle = halfway(span);
    match end {
        End::Least => match value_below(alloc, prepared, number, middle)? {
            None => Ok(Some(Span {
                low: middle,
                ..span
            })),
            Some(value) => Ok(Some(Span {
                high: value,
                ..span
            })),
        },
        End::Greatest => match value_from(alloc, prepared, number, middle)? {
            None => Ok(Some(Span {
                high: middle - 1,
                ..span
            })),
            Some(value) => Ok(Some(Span { low: value, ..span })),
        },
    }
}

/// The least or the greatest value that valid configurations give a feature: it is in the span, whose other end some of them gives.
#[tactic(auto, using(crate::proofs::Halved::end_alone))]
pub(crate) fn end_value(
    alloc: Global,
    prepared: &Prepared,
    number: u32,
    end: End,
    mut span: Span,
) -> Result<i64, NoMemory>
    requires number { number < length prepared.now.features }
    requires has { HasEnd end prepared.now number span }
    ensures { IfOk result (λ v. IsEnd end prepared.now number v) }
{
    'halves: while let Some(part) = part_with(alloc, prepared, number, end, span)? {
        span = part;
    }
    Ok(span.low)
}

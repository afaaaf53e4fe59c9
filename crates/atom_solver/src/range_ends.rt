//! The ends of ranges.
#![tactic(auto)]

ghost use Rattle.std.specs.Prelude.{◌≡◌, ◌<◌, ◌≤◌, pos, ◌+ℤ◌, ◌<ℤ◌, length, slice_index_or, unsigned_abs, MatchOption};
ghost use Rattle.linear_atoms.specs.Atoms.{AreRanges};
ghost use Rattle.atom_solver.specs.Spans.{ranges};

use crate::spans::span_at;
use fam_outer::MOST_VALUE;
use linear_atoms::Span;

/// The range at a place.
pub(crate) fn range_at(spans: &[Span], place: usize) -> Span
    requires place { place < length spans.now }
    requires ranges { AreRanges (ranges spans.now) }
    ensures value { result ≡ slice_index_or spans.now place result }
    ensures low { unsigned_abs result.low ≤ MOST_VALUE }
    ensures high { unsigned_abs result.high ≤ MOST_VALUE }
{
    *span_at(spans, place)
}

/// A value between two others.
fn between(low: i64, high: i64) -> i64
    requires apart { (low +ℤ pos 1) <ℤ high }
    requires low { unsigned_abs low ≤ MOST_VALUE }
    requires high { unsigned_abs high ≤ MOST_VALUE }
    ensures low { low <ℤ result }
    ensures high { result <ℤ high }
{
    low + (high - low) / 2
}

/// The least value of a range, if there are more.
pub(crate) fn low_end(span: Span) -> Option<Span>
    ensures { MatchOption result (Unit {0})
        (λ end. (end.low ≡ span.low) × (end.high ≡ span.low) × (span.low <ℤ span.high)) }
{
    if span.low < span.high {
        Some(Span {
            low: span.low,
            high: span.low,
        })
    } else {
        None
    }
}

/// The greatest value of a range, if there are more.
pub(crate) fn high_end(span: Span) -> Option<Span>
    ensures { MatchOption result (Unit {0})
        (λ end. (end.low ≡ span.high) × (end.high ≡ span.high) × (span.low <ℤ span.high)) }
{
    if span.low < span.high {
        Some(Span {
            low: span.high,
            high: span.high,
        })
    } else {
        None
    }
}

/// A range that goes on to a value before the high end of another; None where there is no such value.
pub(crate) fn longer(span: Span, limit: Span) -> Option<Span>
    requires order { span.high <ℤ limit.high }
    requires high { unsigned_abs span.high ≤ MOST_VALUE }
    requires limit { unsigned_abs limit.high ≤ MOST_VALUE }
    ensures { MatchOption result (Unit {0})
        (λ made. (made.low ≡ span.low) × (span.high <ℤ made.high) × (made.high <ℤ limit.high)) }
{
    if span.high + 1 < limit.high {
        Some(Span {
            low: span.low,
            high: between(span.high, limit.high),
        })
    } else {
        None
    }
}

/// A range that begins at a value behind the low end of another; None where there is no such value.
pub(crate) fn earlier(span: Span, limit: Span) -> Option<Span>
    requires order { limit.low <ℤ span.low }
    requires low { unsigned_abs span.low ≤ MOST_VALUE }
    requires limit { unsigned_abs limit.low ≤ MOST_VALUE }
    ensures { MatchOption result (Unit {0})
        (λ made. (limit.low <ℤ made.low) × (made.low <ℤ span.low) × (made.high ≡ span.high)) }
{
    if limit.low + 1 < span.low {
        Some(Span {
            low: between(limit.low, span.low),
            high: span.high,
        })
    } else {
        None
    }
}

/// What is left of a range behind another that begins with it.
pub(crate) fn behind(span: Span, whole: Span) -> Span
    requires order { span.high <ℤ whole.high }
    requires whole { unsigned_abs whole.high ≤ MOST_VALUE }
    requires high { unsigned_abs span.high ≤ MOST_VALUE }
    ensures low { result.low ≡ span.high +ℤ pos 1 }
    ensures high { result.high ≡ whole.high }
{
    Span {
        low: span.high + 1,
        high: whole.high,
    }
}

/// What is left of a range before another that ends with it.
pub(crate) fn in_front(span: Span, whole: Span) -> Span
    requires order { whole.low <ℤ span.low }
    requires whole { unsigned_abs whole.low ≤ MOST_VALUE }
    requires low { unsigned_abs span.low ≤ MOST_VALUE }
    ensures low { result.low ≡ whole.low }
    ensures high { span.low ≡ result.high +ℤ pos 1 }
{
    Span {
        low: whole.low,
        high: span.low - 1,
    }
}

//! The two forms of lines.
#![tactic(auto)]

ghost use Rattle.std.specs.Prelude.{◌≡◌, ◌≢◌, ℕ, List, ◌++◌, codes, MatchOption};
ghost use Rattle.fam_outer.specs.declared.faults.Place.{Place};
ghost use Rattle.c_tree.specs.declared.tree.Kind.{Kind};
ghost use Rattle.alarm_report.specs.Texts.{kind_text};
ghost use Rattle.certificate_format.specs.Lines.{IsLoopText, IsAlarmLine};

use crate::cutting::{behind, cut_at};
use crate::numbers::place_before;
use c_tree::Kind;
use fam_outer::Place;

/// The kind whose text and ` if ` stand at the front, and what stands behind that.
fn kind_before(text: &[u8]) -> Option<(Kind, &[u8])>
    ensures { MatchOption result ((kind : Kind) (rest : List ℕ)
        → text.now ≢ kind_text kind ++ (codes " if " ++ rest))
        (λ x. text.now ≡ kind_text x.0 ++ (codes " if " ++ x.1.now)) }
{
    if let Some(region) = behind(text, b"overflow if ") {
        return Some((Kind::Overflow, region));
    }
    if let Some(region) = behind(text, b"zero-divisor if ") {
        return Some((Kind::ZeroDivisor, region));
    }
    let Some(region) = behind(text, b"assertion if ") else {
        return None;
    };
    Some((Kind::Assertion, region))
}

/// What an alarm's line says.
pub(crate) fn alarm_of(line: &[u8]) -> Option<(Place, Kind, &[u8])>
    ensures { MatchOption result ((place : Place) (kind : Kind) (region : List ℕ)
        → ¬ (IsAlarmLine line.now place kind region))
        (λ x. IsAlarmLine line.now x.0 x.1 x.2.now) }
{
    let Some(text) = behind(line, b"alarm ") else {
        return None;
    };
    let Some((place, text)) = place_before(text, b": ") else {
        return None;
    };
    let Some((kind, region)) = kind_before(text) else {
        return None;
    };
    Some((place, kind, region))
}

/// The place, the region and the leaf of a loop's line.
pub(crate) fn loop_parts(line: &[u8]) -> Option<(Place, &[u8], &[u8])>
    ensures { MatchOption result ((place : Place) (region : List ℕ) (leaf : List ℕ)
        → ¬ (IsLoopText line.now place region leaf))
        (λ x. IsLoopText line.now x.0 x.1.now x.2.now) }
{
    let Some(text) = behind(line, b"loop ") else {
        return None;
    };
    let Some((place, text)) = place_before(text, b" if ") else {
        return None;
    };
    let Some((region, leaf)) = cut_at(text, b": ") else {
        return None;
    };
    Some((place, region, leaf))
}

//! The bounds of a loop's variables, read from their text.
#![tactic(auto)]

ghost use Rattle.std.specs.Prelude.{◌≡◌, ◌≢◌, ℕ, List, ◌++◌, Option, Some, false, IfOk, MatchOption, MatchBool};
ghost use Rattle.leaf_domain.specs.declared.range.Range.{Range};
ghost use Rattle.alarm_report.specs.LeafTexts.{within_text};
ghost use Rattle.certificate_format.specs.Bounds.{bounds_text, IsIntRange, AreIntBounds};
ghost use Rattle.certificate_format.specs.Forms.{further};

use crate::cutting::behind;
use crate::numbers::integer_before;
use fam_outer::{NoMemory, Text};
use leaf_domain::Range;
use lifted_analysis::Ranges;
use linear_atoms::slices::cut;
use std::alloc::Global;

/// The range ` in [l,h]` at the front of a text, and what stands behind it.
fn range_before(text: &[u8]) -> Option<(Range, &[u8])>
    ensures { MatchOption result ((r : Range) (rest : List ℕ) → IsIntRange r → text.now ≢ within_text r ++ rest)
        (λ x. (text.now ≡ within_text x.0 ++ x.1.now) × IsIntRange x.0) }
{
    let Some(text) = behind(text, b" in [") else {
        return None;
    };
    let Some((low, text)) = integer_before(text, b",") else {
        return None;
    };
    let Some((high, text)) = integer_before(text, b"]") else {
        return None;
    };
    if high < low {
        return None;
    }
    Some((Range { low, high }, text))
}

/// The range of the item `x in [l,h]` at the front of a text, and what stands behind it.
fn item_before<'a>(name: &Text, text: &'a [u8]) -> Option<(Range, &'a [u8])>
    ensures { MatchOption result ((r : Range) (rest : List ℕ) → IsIntRange r
        → text.now ≢ (name.now ++ within_text r) ++ rest)
        (λ x. (text.now ≡ (name.now ++ within_text x.0) ++ x.1.now) × IsIntRange x.0) }
{
    let Some(text) = behind(text, name.bytes()) else {
        return None;
    };
    match range_before(text) {
        Some((range, rest)) => Some((range, rest)),
        None => None,
    }
}

/// Adds the ranges of the names, whose items are the text, each behind `, `; and whether it is so.
fn push_further(names: &[Text], text: &[u8], ranges: &mut Vec<Range>) -> Result<bool, NoMemory>
    ensures { IfOk result (λ whole. MatchBool whole
        ((more : List Range) × (ranges.new.items ≡ ranges.old.items ++ more)
        × AreIntBounds names.now (Some more) × (text.now ≡ further names.now more))
        ((more : List Range) → AreIntBounds names.now (Some more) → text.now ≢ further names.now more)) }
{
    let Some((name, names)) = cut(names) else {
        return Ok(text.is_empty());
    };
    let Some(text) = behind(text, b", ") else {
        return Ok(false);
    };
    let Some((range, text)) = item_before(name, text) else {
        return Ok(false);
    };
    ranges.push(range)?;
    let whole = push_further(names, text, ranges)?;
    Ok(whole)
}

/// The ranges of the names.
fn ranges_of(alloc: Global, names: &[Text], text: &[u8]) -> Result<Option<Vec<Range>>, NoMemory>
    ensures { IfOk result (λ found. MatchOption found
        ((ranges : List Range) → AreIntBounds names.now (Some ranges)
        → text.now ≢ bounds_text names.now (Some ranges))
        (λ v. AreIntBounds names.now (Some v.items) × (text.now ≡ bounds_text names.now (Some v.items)))) }
{
    let mut ranges = Vec::new(alloc);
    let Some((name, names)) = cut(names) else {
        return if text == b"reachable".as_slice() {
            Ok(Some(ranges))
        } else {
            Ok(None)
        };
    };
    let Some((range, text)) = item_before(name, text) else {
        return Ok(None);
    };
    ranges.push(range)?;
    if push_further(names, text, &mut ranges)? {
        Ok(Some(ranges))
    } else {
        Ok(None)
    }
}

/// What the text of a leaf says over the names: no bounds for `unreachable`.
pub(crate) fn bounds_of(
    alloc: Global,
    names: &[Text],
    text: &[u8],
) -> Result<Option<Option<Ranges>>, NoMemory>
    ensures { IfOk result (λ found. MatchOption found
        ((bounds : Option (List Range)) → AreIntBounds names.now bounds → text.now ≢ bounds_text names.now bounds)
        (λ bounds. AreIntBounds names.now bounds × (text.now ≡ bounds_text names.now bounds))) }
{
    if text == b"unreachable".as_slice() {
        return Ok(Some(None));
    }
    match ranges_of(alloc, names, text)? {
        None => Ok(None),
        Some(ranges) => Ok(Some(Some(Ranges::from_vec(ranges)))),
    }
}

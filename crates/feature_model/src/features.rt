//! The features of a model, and the first fault among them.
#![tactic(auto)]

ghost use Rattle.std.specs.Prelude.{◌≡◌, ◌+◌, ◌≤◌, ◌<◌, ◌^◌, None, map, take, drop, length, IfOk};
ghost use Rattle.feature_model.specs.declared.shapes.Entry.{Entry};
ghost use Rattle.feature_model.specs.Features as features;
ghost use Rattle.feature_model.specs.Names.{is_misnamed};

use crate::faults::ModelFault;
use crate::names::is_misnamed;
use crate::shapes::Entry;
use fam_outer::{MOST_VALUE, NoMemory};
use linear_atoms::Feature;
use linear_atoms::slices::cut;
use std::alloc::Global;

/// Whether a range has its ends the wrong way round, or one that is too great in size.
fn is_bad_range(range: Option<(i64, i64)>) -> bool
    ensures { result ≡ features.is_bad_range range }
{
    match range {
        None => false,
        Some((low, high)) => high < low
            || (low < -i64::from(MOST_VALUE) || i64::from(MOST_VALUE) < high),
    }
}

/// The number of the first entry whose name is none.
fn first_misnamed(entries: &[Entry], number: u32) -> Option<u32>
    requires { number + length entries.now < 2 ^ 32 }
    ensures { result ≡ features.first_where (λ (e : Entry). is_misnamed e.name) number entries.now }
{
    let (entry, behind) = cut(entries)?;
    if is_misnamed(entry.name.bytes()) {
        Some(number)
    } else {
        first_misnamed(behind, number + 1)
    }
}

/// The number of the first entry with a bad range.
fn first_bad_range(entries: &[Entry], number: u32) -> Option<u32>
    requires { number + length entries.now < 2 ^ 32 }
    ensures { result ≡ features.first_where
        (λ (e : Entry). features.is_bad_range e.range) number entries.now }
{
    let (entry, behind) = cut(entries)?;
    if is_bad_range(entry.range) {
        Some(number)
    } else {
        first_bad_range(behind, number + 1)
    }
}

/// Whether an entry has this name.
fn has_name(name: &[u8], entries: &[Entry]) -> bool
    ensures { result ≡ features.has_name name.now entries.now }
{
    match cut(entries) {
        None => false,
        Some((entry, behind)) => name == entry.name.bytes() || has_name(name, behind),
    }
}

/// The number of the first entry, behind so many, whose name an earlier one has.
fn first_repeated(entries: &[Entry], before: usize) -> Option<u32>
    requires few { length entries.now < 2 ^ 31 }
    requires within { before ≤ length entries.now }
    ensures { result ≡ features.first_repeated (take before entries.now) (before + 1)
        (drop before entries.now) }
{
    let (earlier, rest) = entries.split_at(before);
    let (entry, _) = cut(rest)?;
    if has_name(entry.name.bytes(), earlier) {
        Some(before as u32 + 1)
    } else {
        first_repeated(entries, before + 1)
    }
}

/// The first fault: a name that is none, before a repeated one, before a range.
pub(crate) fn fault_of(entries: &[Entry]) -> Option<ModelFault>
    requires { length entries.now < 2 ^ 31 }
    ensures { result ≡ features.fault_of entries.now }
{
    if let Some(number) = first_misnamed(entries, 1) {
        return Some(ModelFault::Name(number));
    }
    if let Some(number) = first_repeated(entries, 0) {
        return Some(ModelFault::Twice(number));
    }
    let number = first_bad_range(entries, 1)?;
    Some(ModelFault::Range(number))
}

/// The feature of an entry; one without a range is Boolean.
fn feature(alloc: Global, entry: &Entry) -> Result<Feature, NoMemory>
    ensures { IfOk result (λ made. made ≡ features.feature entry.now) }
{
    let name = entry.name.copy(alloc)?;
    let boolean = entry.range.is_none();
    let (low, high) = entry.range.unwrap_or((0, 1));
    Ok(Feature {
        name,
        boolean,
        low,
        high,
    })
}

/// The features of the entries.
pub(crate) fn features(alloc: Global, entries: &[Entry]) -> Result<Vec<Feature>, NoMemory>
    ensures { IfOk result (λ made. made.items ≡ map features.feature entries.now) }
{
    let mut made = Vec::new(alloc);
    for entry in entries {
        made.push(feature(alloc, entry)?)?;
    }
    Ok(made)
}

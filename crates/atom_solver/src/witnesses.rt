//! Values at which all that is asked is true, found by raising the least values of a box until each test has the truth that it is to
//! have. They are advice alone.
#![tactic(auto)]

use crate::truths::has_truth;
use cpp_conditions::Formula;
use fam_outer::NoMemory;
use linear_atoms::{Atom, Span};
use std::alloc::Global;

/// The sum of terms at values.
fn sum_at(terms: &[(u32, i64)], values: &[i64]) -> i64 {
    let mut sum: i64 = 0;
    for (number, coefficient) in terms {
        if let Some(value) = values.get(*number as usize) {
            sum = sum.saturating_add(coefficient.saturating_mul(*value));
        }
    }
    sum
}

/// The truths of atoms at values.
pub(crate) fn truths_at(
    alloc: Global,
    atoms: &[Atom],
    values: &[i64],
) -> Result<Vec<Option<bool>>, NoMemory> {
    let mut made = Vec::new(alloc);
    for atom in atoms {
        made.push(Some(sum_at(atom.terms.items(), values) >= atom.bound))?;
    }
    Ok(made)
}

/// Whether there is a value in each range.
pub(crate) fn is_inside(values: &[i64], spans: &[Span]) -> bool {
    if values.len() != spans.len() {
        return false;
    }
    let mut place: usize = 0;
    for span in spans {
        match values.get(place) {
            Some(value) if span.low <= *value && *value <= span.high => {}
            _ => return false,
        }
        place = place.saturating_add(1);
    }
    true
}

/// How much a sum lacks of what it must be where a test has a truth: of its bound, or the negated sum of the negated number before it.
fn lack(atom: &Atom, truth: bool, values: &[i64]) -> i64 {
    let sum = sum_at(atom.terms.items(), values);
    if truth {
        atom.bound.saturating_sub(sum)
    } else {
        sum.saturating_sub(atom.bound.saturating_sub(1))
    }
}

/// Raises a value by what a sum lacks, as far as its range goes. It answers whether it was raised.
fn raise(values: &mut [i64], spans: &[Span], place: usize, coefficient: i64, missing: i64) -> bool {
    match spans.get(place) {
        Some(span) if place < values.len() && values[place] < span.high => {
            let steps = missing
                .saturating_add(coefficient.saturating_sub(1))
                .checked_div(coefficient)
                .unwrap_or(0);
            values[place] = values[place].saturating_add(steps).min(span.high);
            true
        }
        _ => false,
    }
}

/// Raises a value of a test that lacks its truth: of the last feature that can be raised. It answers whether one was.
fn raise_any(atom: &Atom, truth: bool, values: &mut [i64], spans: &[Span]) -> bool {
    let missing = lack(atom, truth, values);
    for (number, coefficient) in atom.terms.items().iter().rev() {
        let wanted = if truth {
            *coefficient
        } else {
            coefficient.saturating_neg()
        };
        if wanted > 0 && raise(values, spans, *number as usize, wanted, missing) {
            return true;
        }
    }
    false
}

/// Whether each test has the truth that it is to have: None where one can't be given it.
fn round(
    atoms: &[Atom],
    needed: &[Option<bool>],
    values: &mut [i64],
    spans: &[Span],
) -> Option<bool> {
    let mut are_met = true;
    let mut number: usize = 0;
    for atom in atoms {
        if let Some(Some(truth)) = needed.get(number) {
            if lack(atom, *truth, values) > 0 {
                are_met = false;
                if !raise_any(atom, *truth, values, spans) {
                    return None;
                }
            }
        }
        number = number.saturating_add(1);
    }
    Some(are_met)
}

/// Raises values until each test has the truth that it is to have: along differences that takes no more rounds than there are
/// features. It answers whether each has.
fn settle(atoms: &[Atom], needed: &[Option<bool>], values: &mut [i64], spans: &[Span]) -> bool {
    for _round in 0..spans.len().saturating_add(1) {
        match round(atoms, needed, values, spans) {
            None => return false,
            Some(true) => return true,
            Some(false) => {}
        }
    }
    false
}

/// Puts the first values that are not the least of their ranges there, while all that is asked stays true.
fn lower_first(
    alloc: Global,
    spans: &[Span],
    atoms: &[Atom],
    asked: &Formula,
    values: &mut [i64],
) -> Result<(), NoMemory> {
    let mut place: usize = 0;
    for span in spans {
        if place < values.len() && values[place] > span.low {
            let value = values[place];
            values[place] = span.low;
            if !has_truth(asked, true, &truths_at(alloc, atoms, values)?) {
                values[place] = value;
                return Ok(());
            }
        }
        place = place.saturating_add(1);
    }
    Ok(())
}

/// Values in a box at which each test has the truth that is needed and all that is asked is true, if some are found.
pub(crate) fn values_for(
    alloc: Global,
    spans: &[Span],
    atoms: &[Atom],
    needed: &[Option<bool>],
    asked: &Formula,
) -> Result<Option<Vec<i64>>, NoMemory> {
    let mut values = Vec::new(alloc);
    for span in spans {
        values.push(span.low)?;
    }
    if !settle(atoms, needed, &mut values, spans)
        || !has_truth(asked, true, &truths_at(alloc, atoms, &values)?)
    {
        return Ok(None);
    }
    lower_first(alloc, spans, atoms, asked, &mut values)?;
    Ok(Some(values))
}

//! Which features conditions name and link. It is advice alone: who asks looks at each condition again.
#![tactic(auto)]

ghost use Rattle.std.specs.Prelude.{◌≡◌, false, slice_index_or};

use cpp_conditions::Condition;
use fam_outer::NoMemory;
use linear_atoms::Atom;
use std::alloc::Global;

/// Marks a place, if there is one.
pub(crate) fn mark(marks: &mut [bool], place: usize) {
    if place < marks.len() {
        marks[place] = true;
    }
}

/// Whether a place is marked.
pub(crate) fn is_marked(marks: &[bool], place: usize) -> bool
    ensures { result ≡ slice_index_or marks.now place false }
{
    match marks.get(place) {
        None => false,
        Some(mark) => *mark,
    }
}

/// Marks the features of an atom.
fn mark_terms(atom: &Atom, marks: &mut [bool]) {
    for (number, _coefficient) in atom.terms.items() {
        mark(marks, *number as usize);
    }
}

/// Marks the features that a condition names.
fn mark_named(condition: &Condition, marks: &mut [bool]) {
    match condition {
        Condition::Const(_truth) => {}
        Condition::Test(atom) => mark_terms(atom, marks),
        Condition::Not(inner) => mark_named(inner, marks),
        Condition::And(left, right) => {
            mark_named(left, marks);
            mark_named(right, marks);
        }
        Condition::Or(left, right) => {
            mark_named(left, marks);
            mark_named(right, marks);
        }
    }
}

/// The label of each feature: at first its own number.
fn own_labels(alloc: Global, count: usize) -> Result<Vec<usize>, NoMemory> {
    let mut labels = Vec::new(alloc);
    for place in 0..count {
        labels.push(place)?;
    }
    Ok(labels)
}

/// Marks the labels of the features that are marked.
fn mark_labels(labels: &[usize], marks: &[bool], marked: &mut [bool]) {
    let mut place: usize = 0;
    for label in labels {
        if is_marked(marks, place) {
            mark(marked, *label);
        }
        place = place.saturating_add(1);
    }
}

/// The labels of the features that are marked.
fn labels_marked(alloc: Global, labels: &[usize], marks: &[bool]) -> Result<Vec<bool>, NoMemory> {
    let mut marked = vec![in alloc; false; labels.len()]?;
    mark_labels(labels, marks, &mut marked);
    Ok(marked)
}

/// The first place that is marked.
fn first_marked(marks: &[bool]) -> usize {
    let mut place: usize = 0;
    for is_marked in marks {
        if *is_marked {
            return place;
        }
        place = place.saturating_add(1);
    }
    place
}

/// Gives all features with a label that is marked the least of these.
fn joined(alloc: Global, labels: &[usize], marked: &[bool]) -> Result<Vec<usize>, NoMemory> {
    let least = first_marked(marked);
    let mut made = Vec::new(alloc);
    for label in labels {
        made.push(if is_marked(marked, *label) {
            least
        } else {
            *label
        })?;
    }
    Ok(made)
}

/// For each condition which of so many features it names.
pub(crate) fn marks_by(
    alloc: Global,
    count: usize,
    conditions: &[Condition],
) -> Result<Vec<Vec<bool>>, NoMemory> {
    let mut made = Vec::new(alloc);
    for condition in conditions {
        let mut marks = vec![in alloc; false; count]?;
        mark_named(condition, &mut marks);
        made.push(marks)?;
    }
    Ok(made)
}

/// A label for each of so many features, the same for those that a condition links.
pub(crate) fn labels_of(
    alloc: Global,
    count: usize,
    named: &[Vec<bool>],
) -> Result<Vec<usize>, NoMemory> {
    let mut labels = own_labels(alloc, count)?;
    for marks in named {
        let marked = labels_marked(alloc, &labels, marks)?;
        labels = joined(alloc, &labels, &marked)?;
    }
    Ok(labels)
}

/// Puts a number behind those of each feature that is marked.
fn add_number(marks: &[bool], number: usize, naming: &mut [Vec<usize>]) -> Result<(), NoMemory> {
    let mut place: usize = 0;
    for mark in marks {
        if *mark && place < naming.len() {
            naming[place].push(number)?;
        }
        place = place.saturating_add(1);
    }
    Ok(())
}

/// For each of so many features the places of the conditions that name it.
pub(crate) fn naming_of(
    alloc: Global,
    count: usize,
    named: &[Vec<bool>],
) -> Result<Vec<Vec<usize>>, NoMemory> {
    let mut naming = Vec::new(alloc);
    for _feature in 0..count {
        naming.push(Vec::new(alloc))?;
    }
    let mut place: usize = 0;
    for marks in named {
        add_number(marks, place, &mut naming)?;
        place = place.saturating_add(1);
    }
    Ok(naming)
}

/// The features with a label.
fn marks_of(alloc: Global, labels: &[usize], label: usize) -> Result<Vec<bool>, NoMemory> {
    let mut marks = Vec::new(alloc);
    for other in labels {
        marks.push(*other == label)?;
    }
    Ok(marks)
}

/// The features of each part that conditions name; none where there is one part alone.
pub(crate) fn parts_of(
    alloc: Global,
    labels: &[usize],
    named: &[Vec<bool>],
) -> Result<Vec<Vec<bool>>, NoMemory> {
    let mut marked = vec![in alloc; false; labels.len()]?;
    for marks in named {
        mark_labels(labels, marks, &mut marked);
    }
    let mut parts = Vec::new(alloc);
    for label in 0..labels.len() {
        if is_marked(&marked, label) {
            parts.push(marks_of(alloc, labels, label)?)?;
        }
    }
    if parts.len() < 2 {
        return Ok(Vec::new(alloc));
    }
    Ok(parts)
}

/// The features that share no label with those that a condition names.
pub(crate) fn untouched(
    alloc: Global,
    labels: &[usize],
    wanted: &Condition,
) -> Result<Vec<bool>, NoMemory> {
    let mut named = vec![in alloc; false; labels.len()]?;
    mark_named(wanted, &mut named);
    let marked = labels_marked(alloc, labels, &named)?;
    let mut marks = Vec::new(alloc);
    for label in labels {
        marks.push(!is_marked(&marked, *label))?;
    }
    Ok(marks)
}

//! Guesses that a search takes from box to box: the truth to try first of each test, and values at which all is true, once some are
//! found. They are advice alone.
#![tactic(auto)]

use crate::cycles::Lowered;
use crate::edges::Edges;
use crate::truths::has_truth;
use crate::witnesses::{is_inside, truths_at, values_for};
use cpp_conditions::Formula;
use fam_outer::NoMemory;
use linear_atoms::{Atom, Span};
use std::alloc::Global;

/// The truth to try first of each test: at first that at the least values of a box, and then the one that was found last. The
/// truths that were found last and not refuted, as far as they are needed. Values at which all that is asked is true; none
/// before some are found.
#[derive(Drop)]
pub(crate) struct Guesses {
    truths: Vec<Option<bool>>,
    needed: Vec<Option<bool>>,
    values: Vec<i64>,
}

impl Guesses {
    /// The truths of atoms at the least values of a box.
    pub(crate) fn at_lows(
        alloc: Global,
        spans: &[Span],
        atoms: &[Atom],
    ) -> Result<Guesses, NoMemory> {
        let mut lows = Vec::new(alloc);
        for span in spans {
            lows.push(span.low)?;
        }
        let truths = truths_at(alloc, atoms, &lows)?;
        Ok(Guesses {
            truths,
            needed: vec![in alloc; None; atoms.len()]?,
            values: Vec::new(alloc),
        })
    }

    /// The truth to try first of a test.
    pub(crate) fn preferred(&self, number: usize) -> bool {
        match self.truths.get(number) {
            Some(Some(truth)) => *truth,
            _ => true,
        }
    }

    /// Keeps truths that nothing refuted.
    pub(crate) fn keep(&mut self, known: &[Option<bool>]) {
        put_known(known, &mut self.truths);
        forget(&mut self.needed);
        put_known(known, &mut self.needed);
    }

    /// The truths to try first, with those that are known in their place.
    pub(crate) fn with_known(
        &self,
        alloc: Global,
        known: &[Option<bool>],
    ) -> Result<Vec<Option<bool>>, NoMemory> {
        let mut truths = Vec::from_slice(alloc, &self.truths)?;
        put_known(known, &mut truths);
        Ok(truths)
    }

    /// Keeps truths, unless a cycle of edges refutes them. It answers the places of the forms on the cycle; none where they are kept.
    /// The values are allowed by all edges but those of some tests.
    pub(crate) fn keep_unless_cycle(
        &mut self,
        alloc: Global,
        edges: &Edges,
        tests: &[usize],
        truths: &[Option<bool>],
        values: &[i64],
    ) -> Result<Vec<usize>, NoMemory> {
        let mut lowered = Lowered::from_values(alloc, values)?;
        let places = lowered.cycle(alloc, edges, tests, truths)?;
        if places.is_empty() {
            self.keep(truths);
        }
        Ok(places)
    }

    /// Whether the truths serve still: with those that are known in their place they make the formula true, and no cycle of edges
    /// refutes them. Then they are kept. The values are allowed by the edges of no test.
    pub(crate) fn serve(
        &mut self,
        alloc: Global,
        asked: &Formula,
        edges: &Edges,
        known: &[Option<bool>],
        values: &[i64],
    ) -> Result<bool, NoMemory> {
        let truths = self.with_known(alloc, known)?;
        if !has_truth(asked, true, &truths) {
            return Ok(false);
        }
        let tests = tests_anew(alloc, &[], &truths)?;
        let places = self.keep_unless_cycle(alloc, edges, &tests, &truths, values)?;
        Ok(places.is_empty())
    }

    /// Looks for values in a box at which all that is asked is true, by the truths that were kept. Where none are found, those that
    /// were found before are kept. A constant asks for no values: it may stand for more tests than are numbered.
    pub(crate) fn find_values(
        &mut self,
        alloc: Global,
        spans: &[Span],
        atoms: &[Atom],
        asked: &Formula,
    ) -> Result<(), NoMemory> {
        if let Formula::Const(_truth) = asked {
            return Ok(());
        }
        if let Some(values) = values_for(alloc, spans, atoms, &self.needed, asked)? {
            self.values = values;
        }
        Ok(())
    }

    /// Values in the box at which all that is asked is true; none where none are known.
    pub(crate) fn values_in(&self, spans: &[Span]) -> &[i64] {
        if is_inside(&self.values, spans) {
            self.values.as_slice()
        } else {
            &[]
        }
    }

    /// Puts the values at the ends of a smaller box of the same solutions where they are not in it: only features that change no truth
    /// are.
    pub(crate) fn bring_in(&mut self, spans: &[Span]) {
        let mut place: usize = 0;
        for span in spans {
            if place < self.values.len() {
                self.values[place] = self.values[place].max(span.low).min(span.high);
            }
            place = place.saturating_add(1);
        }
    }
}

/// The tests whose truths are known, and were not before.
pub(crate) fn tests_anew(
    alloc: Global,
    before: &[Option<bool>],
    known: &[Option<bool>],
) -> Result<Vec<usize>, NoMemory> {
    let mut made = Vec::new(alloc);
    let mut number: usize = 0;
    for truth in known {
        if truth.is_some() && !is_known(before, number) {
            made.push(number)?;
        }
        number = number.saturating_add(1);
    }
    Ok(made)
}

/// Whether the truth of a test is known.
fn is_known(known: &[Option<bool>], number: usize) -> bool {
    match known.get(number) {
        None => false,
        Some(truth) => truth.is_some(),
    }
}

/// Puts the truths that are known in the place of others.
fn put_known(known: &[Option<bool>], truths: &mut [Option<bool>]) {
    let mut place: usize = 0;
    for truth in known {
        if truth.is_some() && place < truths.len() {
            truths[place] = *truth;
        }
        place = place.saturating_add(1);
    }
}

/// Leaves nothing known.
fn forget(truths: &mut [Option<bool>]) {
    for place in 0..truths.len() {
        truths[place] = None;
    }
}

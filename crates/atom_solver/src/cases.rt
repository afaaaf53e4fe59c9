//! What is asked of truths, and where a choice of them begins.
use crate::edges::Edges;
use cpp_conditions::Formula;
use linear_atoms::{Atom, Linear};

/// What is asked of truths: which forms are at least 0, the atoms whose truths they are, and the formulas that must be true. Of the
/// choice of truths it is advised in which order atoms of equal terms stand, which of the formulas each truth of a test does not help
/// to be true, and which edges the forms of atoms and the ends of ranges are.
#[derive(Clone, Copy)]
pub(crate) struct Case<'a> {
    pub(crate) ends: &'a [Linear],
    pub(crate) atoms: &'a [Atom],
    pub(crate) clauses: &'a [Formula],
    pub(crate) order: &'a [u32],
    pub(crate) naming: &'a [Vec<usize>],
    pub(crate) edges: &'a Edges,
}

/// Where a choice begins: the places of the formulas that are looked at first; and what was found with fewer truths: these, the
/// places of the formulas that they and the guessed ones don't make true, and values of the nodes that their edges allow.
#[derive(Clone, Copy)]
pub(crate) struct Start<'a> {
    pub(crate) places: &'a [usize],
    pub(crate) known: &'a [Option<bool>],
    pub(crate) untrue: &'a [usize],
    pub(crate) values: &'a [i64],
}

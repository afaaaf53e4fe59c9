//! The differences that forms bound: edges between signed features. They are advice alone.
#![tactic(auto)]

use fam_outer::NoMemory;
use linear_atoms::{Atom, Linear, Span};
use std::alloc::Global;

/// How much greater one signed feature may be than another, the place of the form that says so, and the number and the truth
/// of the atom whose form it is: None of an end of a range. Edges from the same signed feature are linked: `next` is the one that was
/// added before.
#[derive(Clone, Copy)]
pub(crate) struct Edge {
    pub(crate) from: usize,
    pub(crate) to: usize,
    pub(crate) most: i64,
    pub(crate) place: usize,
    needed: Option<(usize, bool)>,
    pub(crate) next: usize,
}

impl Edge {
    /// Whether it is there where these truths are known.
    pub(crate) fn is_there(&self, known: &[Option<bool>]) -> bool {
        match self.needed {
            None => true,
            Some((number, truth)) => match known.get(number) {
                Some(Some(value)) => *value == truth,
                _ => false,
            },
        }
    }
}

/// Edges; of each signed feature the last one from it; and of each atom how many edges are before its first.
#[derive(Drop)]
pub(crate) struct Edges {
    edges: Vec<Edge>,
    heads: Vec<usize>,
    firsts: Vec<usize>,
}

impl Edges {
    /// No edges between so many signed features.
    fn none(alloc: Global, nodes: usize) -> Result<Edges, NoMemory> {
        Ok(Edges {
            edges: Vec::new(alloc),
            heads: vec![in alloc; usize::MAX; nodes]?,
            firsts: Vec::new(alloc),
        })
    }

    /// The edges of forms that are at least 0, and behind them those of atoms: the place of an atom's form is its number behind
    /// the places of the forms. There are none where no form is of two features: then the order of atoms of equal terms says it
    /// already, or the box decides it.
    pub(crate) fn new(
        alloc: Global,
        features: usize,
        forms: &[Linear],
        atoms: &[Atom],
    ) -> Result<Edges, NoMemory> {
        let mut edges = Edges::none(alloc, features.saturating_mul(2))?;
        if forms.is_empty() {
            return Ok(edges);
        }
        edges.add_forms(forms)?;
        edges.add_atoms(atoms, forms.len())?;
        Ok(edges)
    }

    /// How many edges there are.
    pub(crate) fn len(&self) -> usize {
        self.edges.len()
    }

    /// The edge of a number.
    pub(crate) fn get(&self, number: usize) -> Option<&Edge> {
        self.edges.get(number)
    }

    /// The number of the last edge from a signed feature.
    pub(crate) fn last_from(&self, node: usize) -> usize {
        match self.heads.get(node) {
            None => usize::MAX,
            Some(number) => *number,
        }
    }

    /// The number of the first edge of an atom.
    pub(crate) fn first_of(&self, atom: usize) -> usize {
        match self.firsts.get(atom) {
            None => self.edges.len(),
            Some(number) => *number,
        }
    }

    /// Adds an edge.
    fn push(&mut self, edge: Edge) -> Result<(), NoMemory> {
        let number = self.edges.len();
        if edge.from < self.heads.len() {
            let next = self.heads[edge.from];
            self.heads[edge.from] = number;
            self.edges.push(with_next(edge, next))?;
        }
        Ok(())
    }

    /// Adds the edges of a form of one or two features with coefficients 1 or -1; its terms are multiplied by a sign first.
    fn add_form(
        &mut self,
        terms: &[(u32, i64)],
        sign: i64,
        origin: Origin,
    ) -> Result<(), NoMemory> {
        match terms {
            [(first, a)] => {
                if a.unsigned_abs() == 1 {
                    let term = (*first, a.saturating_mul(sign));
                    self.push(edge_of(term, term, origin.constant.saturating_mul(2), origin))?;
                }
            }
            [(first, a), (second, b)] => {
                if a.unsigned_abs() == 1 && b.unsigned_abs() == 1 {
                    let term = (*first, a.saturating_mul(sign));
                    let other = (*second, b.saturating_mul(sign));
                    self.push(edge_of(term, other, origin.constant, origin))?;
                    self.push(edge_of(other, term, origin.constant, origin))?;
                }
            }
            _ => {}
        }
        Ok(())
    }

    /// Adds the edges of forms.
    fn add_forms(&mut self, forms: &[Linear]) -> Result<(), NoMemory> {
        let mut place: usize = 0;
        for form in forms {
            let origin = Origin {
                constant: form.constant,
                place,
                needed: None,
            };
            self.add_form(form.terms.items(), 1, origin)?;
            place = place.saturating_add(1);
        }
        Ok(())
    }

    /// Adds the edges of the forms of an atom: where it holds, and where it fails.
    fn add_atom(&mut self, atom: &Atom, number: usize, place: usize) -> Result<(), NoMemory> {
        let holds = Origin {
            constant: atom.bound.saturating_neg(),
            place,
            needed: Some((number, true)),
        };
        let fails = Origin {
            constant: atom.bound.saturating_sub(1),
            place,
            needed: Some((number, false)),
        };
        self.firsts.push(self.edges.len())?;
        self.add_form(atom.terms.items(), 1, holds)?;
        self.add_form(atom.terms.items(), -1, fails)
    }

    /// Adds the edges of atoms, whose forms have places from one on.
    fn add_atoms(&mut self, atoms: &[Atom], before: usize) -> Result<(), NoMemory> {
        let mut number: usize = 0;
        for atom in atoms {
            self.add_atom(atom, number, before.saturating_add(number))?;
            number = number.saturating_add(1);
        }
        Ok(())
    }
}

/// The node of a feature times 1 or -1.
fn node(number: u32, sign: i64) -> usize {
    let place = (number as usize).saturating_mul(2);
    if sign == 1 {
        place
    } else {
        place.saturating_add(1)
    }
}

/// What the edges of a form share.
#[derive(Clone, Copy)]
struct Origin {
    constant: i64,
    place: usize,
    needed: Option<(usize, bool)>,
}

/// An edge that is linked to one.
fn with_next(edge: Edge, next: usize) -> Edge {
    let mut made = edge;
    made.next = next;
    made
}

/// The edge of a term that may be no less than the opposite of another and of a constant.
fn edge_of(term: (u32, i64), other: (u32, i64), most: i64, origin: Origin) -> Edge {
    Edge {
        from: node(other.0, other.1),
        to: node(term.0, term.1.saturating_neg()),
        most,
        place: origin.place,
        needed: origin.needed,
        next: usize::MAX,
    }
}

/// The values of all signed features where each feature has the least value of its range: all edges of ends of ranges allow these.
pub(crate) fn values_at_lows(alloc: Global, spans: &[Span]) -> Result<Vec<i64>, NoMemory> {
    let mut values = Vec::with_capacity(alloc, spans.len().saturating_mul(2))?;
    for span in spans {
        values.push(span.low)?;
        values.push(span.low.saturating_neg())?;
    }
    Ok(values)
}

//! A leaf with a matrix of bounds.
#![tactic(auto)]

ghost use Rattle.std.specs.Prelude.{◌≡◌, ◌≤◌, ◌<◌, ◌*◌, IfOk, IfSome, IfNone, true, false, pos, ◌++◌, refl};
ghost use Rattle.leaf_domain.specs.Ranges.{IsInInt, is_empty_range};
ghost use Rattle.leaf_domain.specs.Compares.{holds_between};
ghost use Rattle.leaf_domain.specs.Forms.{IsFormNumber};
ghost use Rattle.leaf_domain.specs.Leaves.{LeafValue, nothing_of, same_leaf};
ghost use Rattle.leaf_domain.proofs.LeafEquality.{leaf_decides, leaf_partial, leaf_equiv};
ghost use Rattle.octagon_closure.specs.Best.{IsBest};
ghost use Rattle.octagon_leaf.specs.Greatest.{standing};
ghost use Rattle.octagon_leaf.specs.Octagons.{octagons, IsOctagon, octagon_set_range, met_all, dropped, moved, has_variable, set_term, is_below};
ghost use Rattle.octagon_leaf.specs.Shapes.{between};
ghost use Rattle.octagon_leaf.specs.Meeting.{AreMeets, AreSmall, IsSettled, IsOwnBest, leaf_from, IsClosedOf, IsStandingOf};
ghost use Rattle.octagon_leaf.specs.Hashing.{fed_leaf};
ghost use Rattle.octagon_leaf.specs.Laws.{octagon_laws, leaf_alike};

use crate::filled::{differences, joined, moved, narrowed, widened, with_range};
use crate::meets::{Meet, met};
use crate::shape::{Shape, between, compared, edge_range, equal_to, half, shape_of, term_between};
use fam_outer::NoMemory;
use leaf_domain::{Compare, Form, Leaf, Operation, Range, Thresholds};
use octagon_closure::{Closed, close};
use octagon_matrix::Matrix;
use std::alloc::Global;
use std::hash::{Hash, Hasher};
use std::marker::Model;

/// A leaf with a bound for the difference of each two signed variables, or Nothing, which holds no store.
///
/// It is the matrix as widened or narrowed, and beside it stands a copy with best bounds, which is made
/// once, with the leaf. Operations read the copy, but the next iterate of a widening or narrowing begins
/// with the matrix as it stands, since closing it in between could go on for ever. Equality and hash are
/// those of the matrix as it stands. Where that has best bounds itself, one matrix is kept.
#[derive(Drop)]
pub struct OctagonLeaf {
    variables: u32,
    closed: Option<Matrix>,
    widened: Option<Matrix>,
}

impl Model for OctagonLeaf {
    ghost use Rattle.leaf_domain.specs.Leaves.{LeafValue};

    ghost Value = { LeafValue };

    ghost use Rattle.octagon_leaf.specs.View.{view_of, IsSound};

    ghost view = { view_of };

    ghost invariant = { IsSound };
}

impl OctagonLeaf {
    /// The leaf that holds no store.
    fn none(variables: u32) -> OctagonLeaf
        requires { variables ≤ 48 }
        ensures { result ≡ nothing_of variables }
    {
        OctagonLeaf {
            variables,
            closed: None,
            widened: None,
        }
    }

    /// The leaf of a matrix with best bounds, and Nothing where there is none.
    fn from_best(variables: u32, closed: Option<Matrix>) -> OctagonLeaf
        requires few { variables ≤ 48 }
        requires best { IsOwnBest variables closed }
        ensures { result ≡ leaf_from variables closed }
    {
        OctagonLeaf {
            variables,
            closed,
            widened: None,
        }
    }

    /// The leaf of a matrix as it stands, which is closed here once; Nothing where no store meets it.
    fn standing_as(alloc: Global, widened: Matrix) -> Result<OctagonLeaf, NoMemory>
        ensures { IfOk result (λ leaf. leaf ≡ standing widened) }
    {
        let variables = widened.variables();
        let mut closed = widened.copy(alloc)?;
        match close(&mut closed) {
            Closed::Empty => Ok(OctagonLeaf::none(variables)),
            Closed::Closed => Ok(OctagonLeaf {
                variables,
                closed: Some(closed),
                widened: Some(widened),
            }),
        }
    }

    /// The best matrix, where it is not Nothing.
    fn best_matrix(&self) -> Option<&Matrix>
        ensures nothing { IfNone result (self.now ≡ nothing_of self.now.variables) }
        ensures best { IfSome result (λ m. IsClosedOf self.now m.now) }
        ensures few { self.now.variables ≤ 48 }
    {
        match &self.closed {
            None => None,
            Some(closed) => Some(closed),
        }
    }

    /// The matrix as it stands, where it is not Nothing.
    fn own_matrix(&self) -> Option<&Matrix>
        ensures nothing { IfNone result (self.now ≡ nothing_of self.now.variables) }
        ensures standing { IfSome result (λ m. IsStandingOf self.now m.now) }
        ensures few { self.now.variables ≤ 48 }
    {
        match (&self.closed, &self.widened) {
            (None, _) => None,
            (Some(_), Some(widened)) => Some(widened),
            (Some(closed), None) => Some(closed),
        }
    }

    /// The number of variables.
    fn count(&self) -> u32
        ensures value { result ≡ self.now.variables }
        ensures few { result ≤ 48 }
        ensures valid { IsOctagon self.now }
    {
        let _closed = &self.closed;
        self.variables
    }

    /// The leaf with `x` put as any number of the range.
    fn with(&self, alloc: Global, x: u32, r: Range) -> Result<OctagonLeaf, NoMemory>
        requires x { x < self.now.variables }
        requires r { IsInInt r }
        ensures { IfOk result (λ leaf. leaf ≡ octagon_set_range self.now x r) }
    {
        let Some(matrix) = self.best_matrix() else {
            return Ok(OctagonLeaf::none(self.count()));
        };
        if r.is_empty() {
            return Ok(OctagonLeaf::none(self.count()));
        }
        let set = with_range(alloc, matrix, x, r)?;
        Ok(OctagonLeaf::from_best(self.count(), Some(set)))
    }
}

/// The best matrix of the stores of a best one with `x` put as any number of the range, of those that meet
/// the bounds; none where none does.
fn set_met(
    alloc: Global,
    matrix: &Matrix,
    x: u32,
    r: Range,
    meets: &[Meet],
) -> Result<Option<Matrix>, NoMemory>
    requires best { IsBest matrix.now matrix.now }
    requires x { x < matrix.now.variables }
    requires int { IsInInt r }
    requires some { is_empty_range r ≡ false }
    requires meets { AreMeets matrix.now.variables meets.now }
    requires small { AreSmall meets.now }
    ensures { IfOk result (λ set. IsSettled (met_all (dropped matrix.now x) (meets.now ++ between x r)) set) }
{
    let _variables = matrix.variables();
    Ok(met(with_range(alloc, matrix, x, r)?, meets))
}

/// The best matrix of the stores of a best one with `x` put as the value of its term `t` plus `c` where
/// that lies in the range; none where there is none.
fn moved_within(
    alloc: Global,
    matrix: &Matrix,
    x: u32,
    t: u32,
    c: i64,
    r: Range,
) -> Result<Option<Matrix>, NoMemory>
    requires best { IsBest matrix.now matrix.now }
    requires x { x < matrix.now.variables }
    requires term { t < 2 * matrix.now.variables }
    requires own { has_variable x t ≡ true }
    requires constant { IsFormNumber c }
    requires int { IsInInt r }
    ensures { IfOk result (λ set. IsSettled (met_all (moved matrix.now x t c) (between x r)) set) }
{
    let _variables = matrix.variables();
    let copy = matrix.copy(alloc)?;
    match met(copy, &term_between(t, r.low - c, r.high - c)) {
        None => Ok(None),
        Some(held) => Ok(Some(moved(alloc, &held, x, t, c)?)),
    }
}

/// The best matrix of the stores of a best one with `x` put as the value of the term `t` plus `c` where that
/// lies in the range; none where there is none.
fn set_term(
    alloc: Global,
    matrix: &Matrix,
    x: u32,
    t: u32,
    c: i64,
    r: Range,
) -> Result<Option<Matrix>, NoMemory>
    requires best { IsBest matrix.now matrix.now }
    requires x { x < matrix.now.variables }
    requires term { t < 2 * matrix.now.variables }
    requires constant { IsFormNumber c }
    requires int { IsInInt r }
    requires some { is_empty_range r ≡ false }
    ensures { IfOk result (λ set. IsSettled (set_term matrix.now x t c r) set) }
{
    let _variables = matrix.variables();
    if t / 2 == x {
        moved_within(alloc, matrix, x, t, c, r)
    } else {
        set_met(alloc, matrix, x, r, &equal_to(x, t, c))
    }
}

/// Whether each entry of the first is at most that of the second.
fn is_below(first: &Matrix, second: &Matrix) -> bool
    requires { first.now.variables ≡ second.now.variables }
    ensures { result ≡ is_below first.now second.now }
{
    let variables = first.variables();
    let _same = second.variables();
    for a in 0..2 * variables {
        for b in 0..2 * (a / 2) + 2 {
            if first.entry(a, b) > second.entry(a, b) {
                return false;
            }
        }
    }
    true
}

impl PartialEq for OctagonLeaf {
    ghost eq = { same_leaf };

    ghost laws = { leaf_partial };

    fn eq(&self, other: &OctagonLeaf) -> bool {
        let Some(matrix) = self.own_matrix() else {
            return self.count() == other.count() && other.own_matrix().is_none();
        };
        match other.own_matrix() {
            None => false,
            Some(second) => matrix == second,
        }
    }
}

impl Eq for OctagonLeaf {
    ghost laws = { leaf_equiv };
}

impl Hash for OctagonLeaf {
    ghost hash_input = { fed_leaf };

    ghost respects_eq = { leaf_alike };

    fn hash<H: Hasher>(&self, state: &mut H) {
        match self.own_matrix() {
            None => self.count().hash(state),
            Some(matrix) => matrix.hash(state),
        }
    }
}

impl Leaf for OctagonLeaf {
    ghost value = { λ v. v };

    ghost meaning = { octagons };

    ghost equal = { λ a b. refl };

    ghost exact = { λ a b e. (leaf_decides a b).0 e };

    ghost laws = { octagon_laws };

    fn nothing(_alloc: Global, variables: u32) -> Result<OctagonLeaf, NoMemory> {
        Ok(OctagonLeaf::none(variables))
    }

    fn start(alloc: Global, values: &[i64]) -> Result<OctagonLeaf, NoMemory> {
        let matrix = differences(alloc, values)?;
        Ok(OctagonLeaf::from_best(values.len() as u32, Some(matrix)))
    }

    fn bound_count(variables: u32) -> u32 {
        4 * (variables * variables)
    }

    fn variables(&self) -> u32 {
        self.count()
    }

    fn is_nothing(&self) -> bool {
        self.best_matrix().is_none()
    }

    fn copy(&self, alloc: Global) -> Result<OctagonLeaf, NoMemory> {
        let variables = self.variables;
        let Some(closed) = &self.closed else {
            return Ok(OctagonLeaf::none(variables));
        };
        let closed = Some(closed.copy(alloc)?);
        let widened = match &self.widened {
            None => None,
            Some(widened) => Some(widened.copy(alloc)?),
        };
        Ok(OctagonLeaf {
            variables,
            closed,
            widened,
        })
    }

    fn best(&self, alloc: Global) -> Result<OctagonLeaf, NoMemory> {
        match self.best_matrix() {
            None => Ok(OctagonLeaf::none(self.count())),
            Some(matrix) => Ok(OctagonLeaf::from_best(self.count(), Some(matrix.copy(alloc)?))),
        }
    }

    fn leq(&self, other: &OctagonLeaf) -> bool {
        let Some(matrix) = self.best_matrix() else {
            return true;
        };
        match other.own_matrix() {
            None => false,
            Some(above) => is_below(matrix, above),
        }
    }

    fn join(&self, alloc: Global, other: &OctagonLeaf) -> Result<OctagonLeaf, NoMemory> {
        let Some(first) = self.best_matrix() else {
            return other.copy(alloc);
        };
        match other.best_matrix() {
            None => self.copy(alloc),
            Some(second) => {
                let matrix = joined(alloc, first, second)?;
                Ok(OctagonLeaf::from_best(self.count(), Some(matrix)))
            }
        }
    }

    fn widen(
        &self,
        alloc: Global,
        other: &OctagonLeaf,
        thresholds: &Thresholds,
    ) -> Result<OctagonLeaf, NoMemory> {
        let Some(own) = self.own_matrix() else {
            return other.best(alloc);
        };
        match other.best_matrix() {
            None => self.copy(alloc),
            Some(best) => {
                OctagonLeaf::standing_as(alloc, widened(alloc, own, best, thresholds)?)
            }
        }
    }

    fn narrow(
        &self,
        alloc: Global,
        other: &OctagonLeaf,
        thresholds: &Thresholds,
    ) -> Result<OctagonLeaf, NoMemory> {
        let Some(own) = self.own_matrix() else {
            return self.copy(alloc);
        };
        match other.best_matrix() {
            None => other.copy(alloc),
            Some(best) => {
                OctagonLeaf::standing_as(alloc, narrowed(alloc, own, best, thresholds)?)
            }
        }
    }

    fn bounds_of(&self, x: u32) -> Range {
        match self.best_matrix() {
            None => Range::EMPTY,
            Some(matrix) => Range {
                low: -half(matrix.entry(2 * x + 1, 2 * x)),
                high: half(matrix.entry(2 * x, 2 * x + 1)),
            },
        }
    }

    fn step_of(&self, _x: u32) -> u64 {
        1
    }

    fn form_range(&self, f: &Form) -> Option<Range> {
        let matrix = self.best_matrix();
        match shape_of(f, self.count()) {
            Shape::Other => None,
            Shape::Constant(c) => match matrix {
                None => Some(Range::EMPTY),
                Some(_) => Some(Range { low: c, high: c }),
            },
            Shape::Terms(e) => match matrix {
                None => Some(Range::EMPTY),
                Some(best) => Some(edge_range(best, e)),
            },
        }
    }

    fn meet_range(&self, alloc: Global, x: u32, r: Range) -> Result<OctagonLeaf, NoMemory> {
        let Some(matrix) = self.best_matrix() else {
            return Ok(OctagonLeaf::none(self.count()));
        };
        if r.is_empty() {
            return Ok(OctagonLeaf::none(self.count()));
        }
        let kept = met(matrix.copy(alloc)?, &between(x, r));
        Ok(OctagonLeaf::from_best(self.count(), kept))
    }

    fn meet_form(&self, alloc: Global, f: &Form, op: Compare) -> Result<OctagonLeaf, NoMemory> {
        let Some(matrix) = self.best_matrix() else {
            return Ok(OctagonLeaf::none(self.count()));
        };
        match shape_of(f, self.count()) {
            Shape::Other => self.best(alloc),
            Shape::Constant(c) => {
                if holds(op, c) {
                    self.best(alloc)
                } else {
                    Ok(OctagonLeaf::none(self.count()))
                }
            }
            Shape::Terms(e) => {
                let range = edge_range(matrix, e);
                let kept = compared(matrix.copy(alloc)?, e, op, range);
                Ok(OctagonLeaf::from_best(self.count(), kept))
            }
        }
    }

    fn set_range(&self, alloc: Global, x: u32, r: Range) -> Result<OctagonLeaf, NoMemory> {
        self.with(alloc, x, r)
    }

    fn set_form(&self, alloc: Global, x: u32, f: &Form, r: Range) -> Result<OctagonLeaf, NoMemory> {
        let Some(matrix) = self.best_matrix() else {
            return Ok(OctagonLeaf::none(self.count()));
        };
        if r.is_empty() {
            return Ok(OctagonLeaf::none(self.count()));
        }
        match shape_of(f, self.count()) {
            Shape::Other => self.with(alloc, x, r),
            Shape::Constant(c) => {
                let value = Range { low: c, high: c };
                let set = set_met(alloc, matrix, x, r, &between(x, value))?;
                Ok(OctagonLeaf::from_best(self.count(), set))
            }
            Shape::Terms(e) => {
                if !e.is_double {
                    return self.with(alloc, x, r);
                }
                let set = set_term(alloc, matrix, x, e.first, e.constant, r)?;
                Ok(OctagonLeaf::from_best(self.count(), set))
            }
        }
    }

    fn operation_range(&self, _p: &Operation) -> Option<Range> {
        None
    }

    fn meet_operation(
        self,
        _alloc: Global,
        _p: &Operation,
        _op: Compare,
        _r: Range,
    ) -> Result<OctagonLeaf, NoMemory> {
        Ok(self)
    }

    fn set_operation(
        &self,
        alloc: Global,
        x: u32,
        _p: &Operation,
        r: Range,
    ) -> Result<OctagonLeaf, NoMemory> {
        self.set_range(alloc, x, r)
    }
}

/// Whether the comparison of a number with 0 holds.
fn holds(op: Compare, c: i64) -> bool
    ensures { result ≡ holds_between op c (pos 0) }
{
    match op {
        Compare::Lt => c < 0,
        Compare::Le => c <= 0,
        Compare::Gt => c > 0,
        Compare::Ge => c >= 0,
        Compare::Eq => c == 0,
        Compare::Ne => c != 0,
    }
}

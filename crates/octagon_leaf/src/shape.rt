//! Octagonal forms, and what a comparison of one with 0 meets.
#![tactic(auto)]

ghost use Rattle.std.specs.Prelude.{◌≡◌, ◌≤◌, ◌<◌, ◌*◌, ◌^◌, ◌≤ℤ◌, pos, neg_ℤ};
ghost use Rattle.leaf_domain.specs.Forms.{IsForm, IsFormNumber};
ghost use Rattle.leaf_domain.specs.declared.compare.Compare.TheVariants.{Ne};
ghost use Rattle.octagon_matrix.specs.Matrices.{entry_of};
ghost use Rattle.octagon_closure.specs.Sweeps.{half};
ghost use Rattle.octagon_closure.specs.Best.{IsBest};
ghost use Rattle.octagon_leaf.specs.Shapes.{is_unit, term_of, single, double, shape_of, scaled, halved, edge_range, at_most, at_least, compared, between, term_between, equal_to};
ghost use Rattle.octagon_leaf.specs.Octagons.{met_all};
ghost use Rattle.octagon_leaf.specs.Meeting.{IsEdge, IsSettled, IsSmall, IsSmallRange, IsKnownRange};

use crate::meets::{Meet, met};
use leaf_domain::{Compare, Form, Range};
use octagon_matrix::{Matrix, opposite};

/// The difference of two terms and a constant: it is a form, or twice a form where `is_double`, and
/// then the constant is that of the form.
#[derive(Clone, Copy, Debug, PartialEq, Eq)]
pub(crate) struct Edge {
    pub(crate) first: u32,
    pub(crate) second: u32,
    pub(crate) is_double: bool,
    pub(crate) constant: i64,
}

/// A form as an octagon sees it.
#[derive(Clone, Copy, Debug, PartialEq, Eq)]
pub(crate) enum Shape {
    /// No variable.
    Constant(i64),
    /// One variable with coefficient 1 or -1, or two.
    Terms(Edge),
    /// Any other form.
    Other,
}

fn is_unit(k: i64) -> bool
    ensures { result ≡ is_unit k }
{
    k == 1 || k == -1
}

/// The term of a variable with coefficient 1 or -1.
fn term_of(x: u32, k: i64) -> u32
    requires { x < 48 }
    ensures value { result ≡ term_of x k }
    ensures small { result < 96 }
{
    if k == 1 { 2 * x } else { 2 * x + 1 }
}

/// The shape of one term and a constant.
fn single(x: u32, k: i64, constant: i64) -> Shape
    requires { x < 48 }
    ensures { result ≡ single x k constant }
{
    if !is_unit(k) {
        return Shape::Other;
    }
    let first = term_of(x, k);
    Shape::Terms(Edge {
        first,
        second: opposite(first),
        is_double: true,
        constant,
    })
}

/// The shape of two terms and a constant.
fn double(x: u32, k: i64, y: u32, l: i64, constant: i64) -> Shape
    requires first { x < 48 }
    requires second { y < 48 }
    ensures { result ≡ double x k y l constant }
{
    if !(is_unit(k) && is_unit(l)) {
        return Shape::Other;
    }
    Shape::Terms(Edge {
        first: term_of(x, k),
        second: opposite(term_of(y, l)),
        is_double: false,
        constant,
    })
}

/// How an octagon sees a form.
pub(crate) fn shape_of(f: &Form, variables: u32) -> Shape
    requires few { variables ≤ 48 }
    requires form { IsForm variables f.now }
    ensures { result ≡ shape_of f.now }
{
    let _few = variables;
    match f.terms.items() {
        [] => Shape::Constant(f.constant),
        [(x, k)] => single(*x, *k, f.constant),
        [(x, k), (y, l)] => double(*x, *k, *y, *l, f.constant),
        _ => Shape::Other,
    }
}

/// A number, twice where the terms are twice the form.
fn scaled(is_double: bool, n: i64) -> i64
    requires { IsSmall n }
    ensures value { result ≡ scaled is_double n }
    ensures low { neg_ℤ (pos (2 ^ 51)) ≤ℤ result }
    ensures high { result ≤ℤ pos (2 ^ 51) }
{
    if is_double { 2 * n } else { n }
}

/// Half of a number, rounded down.
#[tactic(auto, unfolding(octagon_closure::specs::Sweeps::half))]
pub(crate) fn half(n: i64) -> i64
    ensures { result ≡ half n }
{
    n.div_euclid(2)
}

/// A number, its half where the terms are twice the form.
fn halved(is_double: bool, n: i64) -> i64
    requires { IsSmall n }
    ensures value { result ≡ halved is_double n }
    ensures small { IsSmall result }
{
    if is_double { half(n) } else { n }
}

/// The range of a form by the entries of a best matrix.
pub(crate) fn edge_range(matrix: &Matrix, e: Edge) -> Range
    requires edge { IsEdge matrix.now.variables e }
    ensures value { result ≡ edge_range (entry_of matrix.now) e }
    ensures known { IsKnownRange result }
{
    let _variables = matrix.variables();
    Range {
        low: e.constant - halved(e.is_double, matrix.entry(e.second, e.first)),
        high: e.constant + halved(e.is_double, matrix.entry(e.first, e.second)),
    }
}

/// That the form plus a number is at most 0.
fn at_most(e: Edge, n: i64) -> Meet
    requires constant { IsFormNumber e.constant }
    requires small { IsFormNumber n }
    ensures { result ≡ at_most e n }
{
    Meet {
        first: e.first,
        second: e.second,
        bound: -scaled(e.is_double, e.constant + n),
    }
}

/// That the negated form plus a number is at most 0.
fn at_least(e: Edge, n: i64) -> Meet
    requires constant { IsFormNumber e.constant }
    requires small { IsFormNumber n }
    ensures { result ≡ at_least e n }
{
    Meet {
        first: e.second,
        second: e.first,
        bound: -scaled(e.is_double, n - e.constant),
    }
}

/// The best matrix of the stores that meet a best matrix and at which the comparison of the form with 0
/// holds, as far as an octagon sees; none where there is none. `range` is that of the form.
pub(crate) fn compared(matrix: Matrix, e: Edge, op: Compare, range: Range) -> Option<Matrix>
    requires best { IsBest matrix matrix }
    requires edge { IsEdge matrix.variables e }
    requires range { IsKnownRange range }
    ensures { IsSettled (met_all matrix (compared e op range)) result }
{
    match op {
        Compare::Lt => met(matrix, &[at_most(e, 1)]),
        Compare::Le => met(matrix, &[at_most(e, 0)]),
        Compare::Gt => met(matrix, &[at_least(e, 1)]),
        Compare::Ge => met(matrix, &[at_least(e, 0)]),
        Compare::Eq => met(matrix, &[at_most(e, 0), at_least(e, 0)]),
        Compare::Ne => different(matrix, e, range),
    }
}

/// The same where the form is not 0.
fn different(matrix: Matrix, e: Edge, range: Range) -> Option<Matrix>
    requires best { IsBest matrix matrix }
    requires edge { IsEdge matrix.variables e }
    requires range { IsKnownRange range }
    ensures { IsSettled (met_all matrix (compared e Ne range)) result }
{
    match (range.low == 0, range.high == 0) {
        (true, true) => met(matrix, &[at_least(e, 1), at_most(e, 1)]),
        (true, false) => met(matrix, &[at_least(e, 1)]),
        (false, true) => met(matrix, &[at_most(e, 1)]),
        (false, false) => met(matrix, &[]),
    }
}

/// That the term lies from `low` to `high`.
pub(crate) fn term_between(t: u32, low: i64, high: i64) -> [Meet; 2]
    requires t { t < 96 }
    requires low { IsSmall low }
    requires high { IsSmall high }
    ensures { result ≡ term_between t low high }
{
    let minus = opposite(t);
    [
        Meet {
            first: t,
            second: minus,
            bound: 2 * high,
        },
        Meet {
            first: minus,
            second: t,
            bound: -(2 * low),
        },
    ]
}

/// That variable `x` lies in the range.
pub(crate) fn between(x: u32, r: Range) -> [Meet; 2]
    requires x { x < 48 }
    requires small { IsSmallRange r }
    ensures { result ≡ between x r }
{
    [
        Meet {
            first: 2 * x,
            second: 2 * x + 1,
            bound: 2 * r.high,
        },
        Meet {
            first: 2 * x + 1,
            second: 2 * x,
            bound: -(2 * r.low),
        },
    ]
}

/// That variable `x` is the term and the constant.
pub(crate) fn equal_to(x: u32, t: u32, c: i64) -> [Meet; 2]
    requires x { x < 48 }
    requires constant { IsFormNumber c }
    ensures { result ≡ equal_to x t c }
{
    [
        Meet {
            first: 2 * x,
            second: t,
            bound: c,
        },
        Meet {
            first: t,
            second: 2 * x,
            bound: -c,
        },
    ]
}

//! Matrices made entry by entry.
#![tactic(auto)]

ghost use Rattle.std.specs.Prelude.{◌≡◌, ◌≢◌, ◌≤◌, ◌<◌, ◌*◌, ◌/◌, ◌^◌, ℕ, ℤ, pos, neg_ℤ, ◌≤ℤ◌, ◌*ℤ◌, ◌||◌, IfOk, length, All, false};
ghost use Rattle.c_tree.specs.Value.{IsInt};
ghost use Rattle.leaf_domain.specs.Ranges.{IsInInt, is_empty_range};
ghost use Rattle.leaf_domain.specs.Forms.{IsFormNumber};
ghost use Rattle.octagon_matrix.specs.Matrices.{IsMatrix, HasEntries};
ghost use Rattle.octagon_matrix.specs.Stores.{term_value};
ghost use Rattle.octagon_closure.specs.Best.{IsBest};
ghost use Rattle.octagon_leaf.specs.Greatest.{difference};
ghost use Rattle.octagon_leaf.specs.Shapes.{between};
ghost use Rattle.octagon_leaf.specs.Octagons.{has_variable, least_entry, met_all, dropped, renamed, sign_of, moved_entry, greater, multiple_of, widened, narrowed};
ghost use Rattle.octagon_leaf.specs.Meeting.{IsSmall};
ghost use Rattle.octagon_leaf.specs.Filling.{IsFull, AreLarge, greatest_set, set_entry};

use crate::shape::half;
use fam_outer::NoMemory;
use leaf_domain::{Multiple, Range, Thresholds};
use octagon_matrix::{Matrix, opposite, type_bound};
use std::alloc::Global;

/// The matrix with these entries off the diagonal. One of each pair of coherent entries is asked for.
fn filled<F: Fn(u32, u32) -> i64>(
    alloc: Global,
    variables: u32,
    entry: F,
) -> Result<Matrix, NoMemory>
    requires few { variables ≤ 48 }
    requires callable { (a b : ℕ) → a < 2 * variables → b < 2 * variables → a ≢ b → F.pre entry a b }
    requires large { (a b : ℕ) (r : ℤ) → a < 2 * variables → b < 2 * variables → a ≢ b → F.post entry a b r
        → least_entry ≤ℤ r }
    ensures entries { (f : ℕ → ℕ → ℤ) → IsFull variables f
        → ((a b : ℕ) (r : ℤ) → a < 2 * variables → b < 2 * variables → a ≢ b → F.post entry a b r → r ≡ f a b)
        → IfOk result (λ m. HasEntries m variables f) }
    ensures kept { IfOk result (λ m. IsMatrix m) }
{
    let mut matrix = Matrix::top(alloc, variables)?;
    for a in 0..2 * variables {
        for b in 0..2 * (a / 2) + 2 {
            if a != b {
                matrix.meet_entry(a, b, entry(a, b));
            }
        }
    }
    Ok(matrix)
}

/// The value of a term at a store.
fn term_value(values: &[i64], a: u32) -> i64
    requires term { a < 2 * length values.now }
    requires int { All IsInt values.now }
    ensures value { result ≡ term_value values.now a }
    ensures least { neg_ℤ (pos (2 ^ 31)) ≤ℤ result }
    ensures most { result ≤ℤ pos (2 ^ 31) }
{
    let value = values[(a / 2) as usize];
    if a % 2 == 0 { value } else { -value }
}

/// The differences of the terms at a store.
pub(crate) fn differences(alloc: Global, values: &[i64]) -> Result<Matrix, NoMemory>
    requires few { length values.now ≤ 48 }
    requires int { All IsInt values.now }
    ensures entries { IfOk result (λ m. HasEntries m (length values.now) (difference values.now)) }
    ensures kept { IfOk result (λ m. IsMatrix m) }
{
    filled(alloc, values.len() as u32, |a, b| {
        term_value(values, a) - term_value(values, b)
    })
}

/// The greater of the entries of both.
pub(crate) fn joined(alloc: Global, first: &Matrix, second: &Matrix) -> Result<Matrix, NoMemory>
    requires { first.now.variables ≡ second.now.variables }
    ensures entries { IfOk result (λ m. HasEntries m first.now.variables (greater first.now second.now)) }
    ensures kept { IfOk result (λ m. IsMatrix m) }
{
    let _same = second.variables();
    filled(alloc, first.variables(), |a, b| {
        first.entry(a, b).max(second.entry(a, b))
    })
}

/// What the entry of two terms bounds: a variable twice, its negation twice, or the sum or difference of two variables.
fn multiple_of(a: u32, b: u32) -> Multiple
    requires { a < 96 }
    ensures { result ≡ multiple_of a b }
{
    if b != opposite(a) {
        Multiple::One
    } else if a % 2 == 0 {
        Multiple::Two
    } else {
        Multiple::MinusTwo
    }
}

/// An entry of `x` where that of `g` is not greater, and else the nearest threshold that covers that of `g`, and the type's bound
/// where none does.
pub(crate) fn widened(
    alloc: Global,
    x: &Matrix,
    g: &Matrix,
    thresholds: &Thresholds,
) -> Result<Matrix, NoMemory>
    requires { x.now.variables ≡ g.now.variables }
    ensures entries { IfOk result (λ m. HasEntries m x.now.variables (widened thresholds.now x.now g.now)) }
    ensures kept { IfOk result (λ m. IsMatrix m) }
{
    let _same = g.variables();
    filled(alloc, x.variables(), |a, b| {
        let own = x.entry(a, b);
        let bound = g.entry(a, b);
        if bound <= own {
            own
        } else {
            thresholds.nearest(multiple_of(a, b), type_bound(a, b), bound)
        }
    })
}

/// An entry of `x` that is neither the type's bound nor that of a threshold, and else that of `g`.
pub(crate) fn narrowed(
    alloc: Global,
    x: &Matrix,
    g: &Matrix,
    thresholds: &Thresholds,
) -> Result<Matrix, NoMemory>
    requires { x.now.variables ≡ g.now.variables }
    ensures entries { IfOk result (λ m. HasEntries m x.now.variables (narrowed thresholds.now x.now g.now)) }
    ensures kept { IfOk result (λ m. IsMatrix m) }
{
    let _same = g.variables();
    filled(alloc, x.variables(), |a, b| {
        let own = x.entry(a, b);
        if thresholds.is_step(multiple_of(a, b), type_bound(a, b), own) {
            g.entry(a, b)
        } else {
            own
        }
    })
}

/// The greatest value of a term over the stores of a best matrix with variable `x` put as any number of
/// the range.
fn greatest(matrix: &Matrix, x: u32, r: Range, a: u32) -> i64
    requires term { a < 2 * matrix.now.variables }
    requires int { IsInInt r }
    ensures value { result ≡ greatest_set matrix.now x r a }
    ensures small { IsSmall result }
{
    let _variables = matrix.variables();
    if a / 2 != x {
        half(matrix.entry(a, opposite(a)))
    } else if a % 2 == 0 {
        r.high
    } else {
        -r.low
    }
}

/// Whether one of the terms is of variable `x`.
fn has_either(x: u32, a: u32, b: u32) -> bool
    ensures { result ≡ (has_variable x a || has_variable x b) }
{
    a / 2 == x || b / 2 == x
}

/// The entry of two different terms where variable `x` is any number of the range.
fn set_entry(matrix: &Matrix, x: u32, r: Range, a: u32, b: u32) -> i64
    requires first { a < 2 * matrix.now.variables }
    requires second { b < 2 * matrix.now.variables }
    requires apart { a ≢ b }
    requires int { IsInInt r }
    ensures { result ≡ set_entry matrix.now x r a b }
{
    let _variables = matrix.variables();
    if has_either(x, a, b) {
        greatest(matrix, x, r, a) + greatest(matrix, x, r, opposite(b))
    } else {
        matrix.entry(a, b)
    }
}

/// The best matrix of the stores of a best one with variable `x` put as any number of the range. So
/// no closing is needed.
pub(crate) fn with_range(
    alloc: Global,
    matrix: &Matrix,
    x: u32,
    r: Range,
) -> Result<Matrix, NoMemory>
    requires best { IsBest matrix.now matrix.now }
    requires x { x < matrix.now.variables }
    requires int { IsInInt r }
    requires some { is_empty_range r ≡ false }
    ensures best { IfOk result (λ m. IsBest (met_all (dropped matrix.now x) (between x r)) m) }
    ensures kept { IfOk result (λ m. IsMatrix m) }
{
    filled(
        alloc,
        matrix.variables(),
        move |a, b| set_entry(matrix, x, r, a, b),
    )
}

/// The term `t` for `+x`, its opposite for `-x`, and every other term itself.
fn renamed(x: u32, t: u32, a: u32) -> u32
    requires { t < 96 }
    ensures { result ≡ renamed x t a }
{
    if a / 2 != x {
        a
    } else if a % 2 == 0 {
        t
    } else {
        opposite(t)
    }
}

/// The constant for `+x`, its negation for `-x`, and 0 for every other term.
fn signed(x: u32, c: i64, a: u32) -> i64
    requires { IsFormNumber c }
    ensures value { result ≡ c *ℤ sign_of x a }
    ensures small { IsSmall result }
{
    if a / 2 != x {
        0
    } else if a % 2 == 0 {
        c
    } else {
        -c
    }
}

/// The entry where variable `x` takes the value of its term `t` plus `c`.
fn moved_entry(matrix: &Matrix, x: u32, t: u32, c: i64, a: u32, b: u32) -> i64
    requires term { t < 2 * matrix.now.variables }
    requires first { a < 2 * matrix.now.variables }
    requires second { b < 2 * matrix.now.variables }
    requires constant { IsFormNumber c }
    ensures { result ≡ moved_entry matrix.now x t c a b }
{
    let _variables = matrix.variables();
    let entry = matrix.entry(renamed(x, t, a), renamed(x, t, b));
    entry + (signed(x, c, a) - signed(x, c, b))
}

/// The entries of a best matrix moved to where variable `x` takes the value of its term `t` plus `c`. They
/// are best again where some matrix has them as its best, and no closing is needed.
pub(crate) fn moved(
    alloc: Global,
    matrix: &Matrix,
    x: u32,
    t: u32,
    c: i64,
) -> Result<Matrix, NoMemory>
    requires term { t < 2 * matrix.now.variables }
    requires constant { IsFormNumber c }
    requires full { IsFull matrix.now.variables (moved_entry matrix.now x t c) }
    requires large { AreLarge matrix.now.variables (moved_entry matrix.now x t c) }
    ensures entries { IfOk result (λ m. HasEntries m matrix.now.variables (moved_entry matrix.now x t c)) }
    ensures kept { IfOk result (λ m. IsMatrix m) }
{
    filled(
        alloc,
        matrix.variables(),
        move |a, b| moved_entry(matrix, x, t, c, a, b),
    )
}

//! Tight closure of Miné's octagons over whole numbers, after Bagnara, Hill and Zaffanella.
#![tactic(auto)]

ghost use Rattle.std.specs.Prelude.{◌≡◌, ◌+◌, ◌*◌, ◌<◌, ◌≤◌, ◌^◌, ◌↔◌, ℤ, List, pos, neg_ℤ, ◌≤ℤ◌, IfOk};
ghost use Rattle.std.specs.Int.{int_min};
ghost use Rattle.octagon_matrix.specs.Matrices.{MatrixValue, entry_of, IsMatrix, HasEntries};
ghost use Rattle.octagon_matrix.specs.Stores.{Holds, IsStore};
ghost use Rattle.octagon_closure.specs.Sweeps.{row_from, halves, sums, lowered, through, tightened, bound_at, IsRow, IsSmall, HasNegative};
ghost use Rattle.octagon_closure.specs.Best.{IsUnmet, IsBest, CameByOne, IsClosure};
ghost use Rattle.octagon_closure.specs.declared.Closed.{Closed as Answer};

use octagon_matrix::{Matrix, opposite};

/// What the closure of a matrix answers.
#[derive(Clone, Copy, Debug, PartialEq, Eq)]
pub enum Closed {
    /// Some store meets the matrix, and each entry is best.
    Closed,
    /// No store meets the matrix.
    Empty,
}

/// The lesser of two numbers.
fn lesser(a: i64, b: i64) -> i64
    ensures { result ≡ int_min a b }
{
    if b < a { b } else { a }
}

/// For each term the shorter of two walks: `near` and the entry from `p`, or `far` and the entry from `q`.
fn row_from(matrix: &Matrix, p: u32, near: i64, q: u32, far: i64) -> [i64; 96]
    requires first { p < 2 * matrix.now.variables }
    requires second { q < 2 * matrix.now.variables }
    requires near { IsSmall near }
    requires far { IsSmall far }
    ensures { IsRow matrix.now.variables result (row_from (entry_of matrix.now) p near q far) }
{
    let mut row = [0; 96];
    for c in 0..2 * matrix.variables() {
        row[c as usize] = lesser(near + matrix.entry(p, c), far + matrix.entry(q, c));
    }
    row
}

/// For each term half of the bound of twice its opposite, rounded down.
fn halves(matrix: &Matrix) -> [i64; 96]
    ensures { IsRow matrix.now.variables result (halves (entry_of matrix.now)) }
{
    let mut row = [0; 96];
    for c in 0..2 * matrix.variables() {
        row[c as usize] = matrix.entry(opposite(c), c).div_euclid(2);
    }
    row
}

/// The lesser of the sums of two rows for the entry `(a, b)` and for its coherent twin.
fn sums(variables: u32, first: &[i64; 96], second: &[i64; 96], a: u32, b: u32) -> i64
    requires few { variables ≤ 48 }
    requires first_row { IsRow variables first.now (bound_at first.now) }
    requires second_row { IsRow variables second.now (bound_at second.now) }
    requires first_term { a < 2 * variables }
    requires second_term { b < 2 * variables }
    ensures value { result ≡ sums (bound_at first.now) (bound_at second.now) a b }
    ensures least { neg_ℤ (pos (2 ^ 41)) ≤ℤ result }
    ensures most { result ≤ℤ pos (2 ^ 41) }
{
    let c = opposite(a) as usize;
    let one = first[c] + second[b as usize];
    let other = first[b as usize] + second[c];
    lesser(one, other)
}

/// Lowers each entry to the sums of two rows. Answers Empty at once where an entry and the one opposite to
/// its ends are together below 0, so that no entry passes -2^34.
fn meet_sums(matrix: &mut Matrix, first: &[i64; 96], second: &[i64; 96]) -> Closed
    requires first_row { IsRow matrix.old.variables first.now (bound_at first.now) }
    requires second_row { IsRow matrix.old.variables second.now (bound_at second.now) }
    ensures lowered { result ≡ Closed.Closed
        → HasEntries matrix.new matrix.old.variables
        (lowered (entry_of matrix.old) (bound_at first.now) (bound_at second.now)) }
    ensures empty { result ≡ Closed.Empty
        → HasNegative matrix.old.variables
        (lowered (entry_of matrix.old) (bound_at first.now) (bound_at second.now)) }
    ensures kept { IsMatrix matrix.new }
    ensures variables { matrix.new.variables ≡ matrix.old.variables }
{
    let variables = matrix.variables();
    for a in 0..2 * variables {
        for b in 0..2 * (a / 2) + 2 {
            let bound = sums(variables, first, second, a, b);
            if bound + matrix.entry(b, a) < 0 {
                return Closed::Empty;
            }
            if a != b {
                matrix.meet_entry(a, b, bound);
            }
        }
    }
    Closed::Closed
}

/// Lowers each entry to the shortest walk through the entry `(a, b)`, its coherent twin, or both. Where `a`
/// is `b`, these are the walks by way of the term and its opposite.
fn pass(matrix: &mut Matrix, a: u32, b: u32) -> Closed
    requires first { a < 2 * matrix.old.variables }
    requires second { b < 2 * matrix.old.variables }
    ensures lowered { result ≡ Closed.Closed
        → HasEntries matrix.new matrix.old.variables (through (entry_of matrix.old) a b) }
    ensures empty { result ≡ Closed.Empty
        → HasNegative matrix.old.variables (through (entry_of matrix.old) a b) }
    ensures kept { IsMatrix matrix.new }
    ensures variables { matrix.new.variables ≡ matrix.old.variables }
{
    let _variables = matrix.variables();
    let c = opposite(a);
    let d = opposite(b);
    let step = matrix.entry(a, b);
    let before = matrix.entry(c, a) + step;
    let after = matrix.entry(b, d) + step + step;
    let first = row_from(matrix, c, 0, b, before);
    let second = row_from(matrix, b, step, c, after);
    meet_sums(matrix, &first, &second)
}

/// Rounds each entry `(a, -a)` down to an even number, and lets each entry `(a, b)` be the least of itself
/// and half of `(a, -a)` plus `(-b, b)`, both in one sweep.
fn tighten(matrix: &mut Matrix) -> Closed
    ensures lowered { result ≡ Closed.Closed
        → HasEntries matrix.new matrix.old.variables (tightened (entry_of matrix.old)) }
    ensures empty { result ≡ Closed.Empty
        → HasNegative matrix.old.variables (tightened (entry_of matrix.old)) }
    ensures kept { IsMatrix matrix.new }
    ensures variables { matrix.new.variables ≡ matrix.old.variables }
{
    let row = halves(matrix);
    meet_sums(matrix, &row, &row)
}

/// Tight closure: makes each entry the greatest difference of its two terms over all stores that meet the
/// matrix. Answers Empty exactly where no store meets it. All stores that meet it have values within `int`.
///
/// Shortest walks by way of one variable after another, as A. Miné, "The octagon abstract domain"; then the
/// rounding and the halving of R. Bagnara, P. M. Hill and E. Zaffanella, "An improved tight closure
/// algorithm for integer octagonal constraints". After Empty the entries are not stated.
pub fn close(matrix: &mut Matrix) -> Closed
    ensures empty { (result ≡ Closed.Empty) ↔ IsUnmet matrix.old }
    ensures best { result ≡ Closed.Closed → IsBest matrix.old matrix.new }
    ensures within { (s : List ℤ) → Holds matrix.old s → IsStore matrix.old.variables s }
    ensures kept { IsMatrix matrix.new }
    ensures variables { matrix.new.variables ≡ matrix.old.variables }
{
    let variables = matrix.variables();
    for k in 0..variables {
        match pass(matrix, 2 * k, 2 * k) {
            Closed::Empty => return Closed::Empty,
            Closed::Closed => {}
        }
    }
    tighten(matrix)
}

/// The same answer and the same matrix as `close`, where the matrix came from one with all bounds best by
/// one `meet_entry` on `(a, b)`. It looks at each pair of terms a fixed number of times.
pub fn close_after_one(matrix: &mut Matrix, a: u32, b: u32) -> Closed
    requires first { a < 2 * matrix.old.variables }
    requires second { b < 2 * matrix.old.variables }
    requires came { CameByOne matrix.old a b }
    ensures empty { (result ≡ Closed.Empty) ↔ IsUnmet matrix.old }
    ensures best { result ≡ Closed.Closed → IsBest matrix.old matrix.new }
    // whatever `close` may answer and leave is what this answers and leaves
    ensures same { (answer : Answer) (next : MatrixValue) → IsClosure matrix.old answer next
        → (answer ≡ result) × (result ≡ Closed.Closed → next ≡ matrix.new) }
    ensures kept { IsMatrix matrix.new }
    ensures variables { matrix.new.variables ≡ matrix.old.variables }
{
    match pass(matrix, a, b) {
        Closed::Empty => return Closed::Empty,
        Closed::Closed => {}
    }
    tighten(matrix)
}

#[cfg(test)]
mod tests {
    use super::*;
    use std::alloc::Global;
    use std::process::Abort;
    use std::test::Fail;

    /// What `close` answers and leaves after these meets on the matrix of two variables.
    fn closed(
        rt: &impl Abort,
        alloc: Global,
        meets: &[(u32, u32, i64)],
    ) -> Result<(Closed, Matrix), Fail>
        ensures { IfOk result (λ r. r.1.variables ≡ 2) }
    {
        let mut matrix = Matrix::top(alloc, 2).map_err(|_| "memory")?;
        for &(a, b, bound) in meets {
            assert!(rt; a < 4 && b < 4 && a != b && bound >= -1);
            matrix.meet_entry(a, b, bound);
        }
        let answer = close(&mut matrix);
        Ok((answer, matrix))
    }

    // the terms 0 to 3 are +x, -x, +y and -y
    #[test]
    fn best_bounds(rt: HostRuntime) -> Result<(), Fail> {
        let table = [
            (
                [(0, 3, 1), (0, 2, 0)],
                [
                    (0, 1, 0),
                    (1, 0, 4294967296),
                    (2, 3, 4294967294),
                    (3, 2, 4294967296),
                ],
            ),
            (
                [(0, 1, 0), (3, 2, 0)],
                [(0, 2, 0), (3, 1, 0), (0, 1, 0), (3, 2, 0)],
            ),
        ];
        for (meets, entries) in table {
            let (answer, matrix) = closed(&rt, rt.alloc(), &meets)?;
            assert_eq!(rt; answer, Closed::Closed, "after {meets:?}");
            for (a, b, bound) in entries {
                assert!(rt; a < 4 && b < 4);
                assert_eq!(rt; matrix.entry(a, b), bound, "after {meets:?} at {a} and {b}");
            }
        }
        let (answer, matrix) = closed(&rt, rt.alloc(), &[])?;
        assert_eq!(rt; answer, Closed::Closed);
        assert_eq!(rt; matrix, Matrix::top(rt.alloc(), 2).map_err(|_| "memory")?);
        Ok(())
    }

    #[test]
    fn no_store(rt: HostRuntime) -> Result<(), Fail> {
        for meets in [[(0, 2, -1), (2, 0, 0)], [(0, 1, 1), (1, 0, -1)]] {
            let (answer, _) = closed(&rt, rt.alloc(), &meets)?;
            assert_eq!(rt; answer, Closed::Empty, "after {meets:?}");
        }
        Ok(())
    }

    #[test]
    fn closed_after_each_meet(rt: HostRuntime) -> Result<(), Fail> {
        let mut matrix = Matrix::top(rt.alloc(), 2).map_err(|_| "memory")?;
        match close(&mut matrix) {
            Closed::Empty => return Err(Fail::new("empty")),
            Closed::Closed => {}
        }
        matrix.meet_entry(0, 3, 1);
        match close_after_one(&mut matrix, 0, 3) {
            Closed::Empty => return Err(Fail::new("empty")),
            Closed::Closed => {}
        }
        matrix.meet_entry(0, 2, 0);
        assert_eq!(rt; close_after_one(&mut matrix, 0, 2), Closed::Closed);
        for (a, b, bound) in [
            (0, 1, 0),
            (1, 0, 4294967296),
            (2, 3, 4294967294),
            (3, 2, 4294967296),
        ] {
            assert!(rt; a < 4 && b < 4);
            assert_eq!(rt; matrix.entry(a, b), bound, "at {a} and {b}");
        }
        Ok(())
    }
}

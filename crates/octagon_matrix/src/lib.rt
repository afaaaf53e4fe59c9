//! Coherent matrices of Miné's octagons, of which each pair of coherent entries is kept once.
#![tactic(auto)]

ghost use Rattle.std.specs.Prelude.{◌≡◌, ◌≢◌, ◌≤◌, ◌<◌, ◌*◌, ◌^◌, ◌↔◌, ℤ, List, pos, neg_ℤ, ◌-ℤ◌, ◌≤ℤ◌, IfOk};
ghost use Rattle.std.specs.Int.{int_min};
ghost use Rattle.octagon_matrix.specs.Terms.{opposite, greatest_value, least_value, type_bound};
ghost use Rattle.octagon_matrix.specs.Matrices.{entry_of, IsMatrix, met_entry, HasEntries};
ghost use Rattle.octagon_matrix.specs.Stores.{term_value, Holds, IsStore};
ghost use Rattle.octagon_matrix.specs.Equality.{same_matrix, matrix_partial, matrix_equiv, fed_matrix, matrix_alike};
ghost use Rattle.octagon_matrix.specs.View.{row_of, place_of, IsFilled};

use fam_outer::NoMemory;
use std::alloc::Global;
use std::hash::{Hash, Hasher};
use std::marker::Model;

/// Upper bounds of the differences of signed terms, after A. Miné, "The octagon abstract domain".
///
/// Of variable `x`, term `2x` is `+x` and term `2x + 1` is `-x`. Entry `(a, b)` bounds the value of
/// term `a` minus that of term `b`. Contracts see the number of variables, at most 48, and the whole
/// list of entries, row by row. The diagonal is 0, the entries `(a, b)` and `(-b, -a)` are equal
/// (coherence), and each entry lies between -2^34 and the bound that the values of `int` give.
///
/// Of each pair of coherent entries one is kept, `2n(n + 1)` for `n` variables.
#[derive(Debug, Drop)]
pub struct Matrix {
    variables: u32,
    cells: Vec<i64>,
}

impl Model for Matrix {
    ghost use Rattle.octagon_matrix.specs.Matrices.{MatrixValue};

    ghost Value = { MatrixValue };

    ghost use Rattle.octagon_matrix.specs.View.{view_of, IsSound};

    ghost view = { view_of };

    ghost invariant = { IsSound };
}

impl PartialEq for Matrix {
    ghost eq = { same_matrix };

    ghost laws = { matrix_partial };

    fn eq(&self, other: &Matrix) -> bool {
        self.variables == other.variables && self.cells == other.cells
    }
}

impl Eq for Matrix {
    ghost laws = { matrix_equiv };
}

impl Hash for Matrix {
    ghost hash_input = { fed_matrix };

    ghost respects_eq = { matrix_alike };

    fn hash<H: Hasher>(&self, state: &mut H) {
        self.variables.hash(state);
        self.cells.hash(state);
    }
}

/// The term with the other sign.
#[tactic(auto, unfolding(crate::specs::Terms::opposite))]
pub fn opposite(a: u32) -> u32
    requires { a < 2 ^ 16 }
    ensures { result ≡ opposite a }
{
    if a % 2 == 0 { a + 1 } else { a - 1 }
}

/// The place of the first cell of a row. Row `a` has the entries up to the variable of `a`.
#[tactic(auto, unfolding(crate::specs::View::row_of))]
fn row(a: u32) -> usize
    requires { a < 96 }
    ensures { result ≡ row_of a }
{
    let variable = (a / 2) as usize;
    let sign = (a % 2) as usize;
    (variable + sign) * (2 * variable + 2)
}

/// The place of the cell of an entry, which its coherent twin shares.
#[tactic(auto, unfolding(crate::specs::View::place_of))]
fn place(a: u32, b: u32) -> usize
    requires first { a < 96 }
    requires second { b < 96 }
    ensures { result ≡ place_of a b }
{
    if b / 2 <= a / 2 {
        row(a) + b as usize
    } else {
        row(opposite(b)) + opposite(a) as usize
    }
}

/// The lesser of two numbers.
fn lesser(a: i64, b: i64) -> i64
    ensures { result ≡ int_min a b }
{
    if b < a { b } else { a }
}

/// The greatest value of a term over the values of `int`.
fn greatest_value(a: u32) -> i64
    ensures { result ≡ greatest_value a }
{
    if a % 2 == 0 { 2147483647 } else { 2147483648 }
}

/// The least value of a term over the values of `int`.
fn least_value(a: u32) -> i64
    ensures { result ≡ least_value a }
{
    if a % 2 == 0 { -2147483648 } else { -2147483647 }
}

/// The bound that the values of `int` give to term `a` minus term `b`, two different terms.
pub fn type_bound(a: u32, b: u32) -> i64
    requires { a ≢ b }
    ensures { result ≡ type_bound a b }
{
    greatest_value(a) - least_value(b)
}

/// Cells that hold the type's bounds.
fn filled(alloc: Global, variables: u32) -> Result<Vec<i64>, NoMemory>
    requires { variables ≤ 48 }
    ensures { IfOk result (λ v. IsFilled variables v.items (2 * variables) 0) }
{
    let size = (variables * (2 * variables + 2)) as usize;
    let mut cells = Vec::from_elem(alloc, 0, size)?;
    for a in 0..2 * variables {
        for b in 0..2 * variables {
            if a != b {
                let at = place(a, b);
                cells[at] = type_bound(a, b);
            }
        }
    }
    Ok(cells)
}

impl Matrix {
    /// The matrix of the type's bounds, which all stores within `int` meet. Refuses only for want of memory.
    pub fn top(alloc: Global, variables: u32) -> Result<Matrix, NoMemory>
        requires { variables ≤ 48 }
        ensures entries { IfOk result (λ m. HasEntries m variables type_bound) }
        ensures stores { IfOk result (λ m. (s : List ℤ) → Holds m s ↔ IsStore variables s) }
        ensures kept { IfOk result (λ m. IsMatrix m) }
    {
        let cells = filled(alloc, variables)?;
        Ok(Matrix { variables, cells })
    }

    /// Another matrix with the same entries. Refuses only for want of memory.
    pub fn copy(&self, alloc: Global) -> Result<Matrix, NoMemory>
        ensures { IfOk result (λ m. m ≡ self.now) }
    {
        let variables = self.variables;
        let cells = Vec::from_slice(alloc, &self.cells)?;
        Ok(Matrix { variables, cells })
    }

    /// The number of variables.
    pub fn variables(&self) -> u32
        ensures value { result ≡ self.now.variables }
        ensures kept { IsMatrix self.now }
    {
        self.variables
    }

    /// The entry `(a, b)`, the bound of term `a` minus term `b`.
    pub fn entry(&self, a: u32, b: u32) -> i64
        requires first { a < 2 * self.now.variables }
        requires second { b < 2 * self.now.variables }
        ensures { result ≡ entry_of self.now a b }
    {
        let _variables = self.variables;
        self.cells[place(a, b)]
    }

    /// Lowers the entry `(a, b)` and its coherent twin to `bound` where it is less, and leaves all others.
    /// So a store meets the matrix where it met it before, and term `a` minus term `b` is at most `bound`.
    pub fn meet_entry(&mut self, a: u32, b: u32, bound: i64)
        requires first { a < 2 * self.old.variables }
        requires second { b < 2 * self.old.variables }
        requires apart { a ≢ b }
        requires least { neg_ℤ (pos (2 ^ 34)) ≤ℤ bound }
        ensures entries { HasEntries self.new self.old.variables (met_entry self.old a b bound) }
        ensures stores { (s : List ℤ) →
            Holds self.new s ↔ (Holds self.old s × ((term_value s a -ℤ term_value s b) ≤ℤ bound)) }
        ensures kept { IsMatrix self.new }
    {
        let _variables = self.variables;
        let at = place(a, b);
        self.cells[at] = lesser(self.cells[at], bound);
    }
}

#[cfg(test)]
mod tests {
    use super::*;
    use std::hash::DefaultHasher;
    use std::test::Fail;

    fn fingerprint(matrix: &Matrix) -> u64 {
        let mut state = DefaultHasher::new();
        matrix.hash(&mut state);
        state.finish()
    }

    // each bound is the greatest value of the first term minus the least of the second
    #[test]
    fn the_type_bounds(rt: HostRuntime) -> Result<(), Fail> {
        let top = Matrix::top(rt.alloc(), 2).map_err(|_| "memory")?;
        assert_eq!(rt; top.variables(), 2);
        let table = [
            (0, 0, 0),
            (0, 1, 4294967294),
            (1, 0, 4294967296),
            (0, 2, 4294967295),
            (0, 3, 4294967294),
            (2, 1, 4294967294),
            (1, 2, 4294967296),
            (3, 0, 4294967296),
            (3, 1, 4294967295),
        ];
        for (a, b, bound) in table {
            assert!(rt; a < 4 && b < 4);
            assert_eq!(rt; top.entry(a, b), bound, "at {a} and {b}");
        }
        Ok(())
    }

    #[test]
    fn meets_and_copies(rt: HostRuntime) -> Result<(), Fail> {
        let top = Matrix::top(rt.alloc(), 2).map_err(|_| "memory")?;
        let mut met = top.copy(rt.alloc()).map_err(|_| "memory")?;
        assert!(rt; met == top);
        assert_eq!(rt; met.variables(), 2);
        met.meet_entry(0, 3, 1);
        met.meet_entry(0, 3, 5);
        assert_eq!(rt; met.entry(0, 3), 1);
        assert_eq!(rt; met.entry(2, 1), 1);
        assert_eq!(rt; met.entry(3, 0), 4294967296);
        assert_eq!(rt; met.entry(0, 2), 4294967295);
        assert!(rt; met != top);
        let mut other = top.copy(rt.alloc()).map_err(|_| "memory")?;
        assert_eq!(rt; other.variables(), 2);
        other.meet_entry(2, 1, 1);
        assert!(rt; other == met);
        assert_eq!(rt; fingerprint(&other), fingerprint(&met));
        assert_ne!(rt; fingerprint(&other), fingerprint(&top));
        Ok(())
    }
}

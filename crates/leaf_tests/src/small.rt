//! Small leaves of two variables: boxes, boxes cut by a sum or a difference, and joins of single stores.

ghost use Rattle.std.specs.Prelude.{IfOk};
ghost use Rattle.leaf_domain.specs.Forms.{IsForm};

use crate::stores::{Store, between, replaced};
use fam_outer::NoMemory;
use leaf_domain::{Compare, Form, Leaf};
use linear_terms::Terms;
use smallvec::SmallVec;
use std::alloc::Global;

/// A sum of multiples of the two variables and of a constant.
#[derive(Clone, Copy)]
pub(crate) struct Sum {
    pub x: i8,
    pub y: i8,
    pub constant: i8,
}

/// The value of the sum at a store; the numbers of the tests are far too small to pass 64 bits.
pub(crate) fn value(sum: Sum, store: Store) -> i64 {
    let x = i64::from(sum.x).checked_mul(store.x);
    let y = i64::from(sum.y).checked_mul(store.y);
    let Some(terms) = x.unwrap_or(0).checked_add(y.unwrap_or(0)) else {
        return 0;
    };
    terms.checked_add(i64::from(sum.constant)).unwrap_or(0)
}

/// The form of a sum.
pub(crate) fn form_of(alloc: Global, sum: Sum) -> Result<Form, NoMemory>
    ensures { IfOk result (IsForm 2) }
{
    let mut terms = SmallVec::new(alloc);
    if sum.x != 0 {
        terms.push((0, i64::from(sum.x)))?;
    }
    if sum.y != 0 {
        terms.push((1, i64::from(sum.y)))?;
    }
    Ok(Form {
        terms: Terms::from_vec(terms),
        constant: i64::from(sum.constant),
    })
}

/// Both variables, each between two numbers.
fn boxed<L: Leaf>(alloc: Global, ends: (i64, i64, i64, i64)) -> Result<L, NoMemory> {
    let (low, high, low_y, high_y) = ends;
    let start = L::start(alloc, &[0, 0])?;
    let with_x = replaced(alloc, &start, 0, between(low, high))?;
    replaced(alloc, &with_x, 1, between(low_y, high_y))
}

/// The leaf where the comparison of the sum with 0 holds.
pub(crate) fn compared<L: Leaf>(
    alloc: Global,
    leaf: &L,
    sum: Sum,
    op: Compare,
) -> Result<L, NoMemory> {
    let form = form_of(alloc, sum)?;
    if leaf.variables() == 2 {
        leaf.meet_form(alloc, &form, op)
    } else {
        L::nothing(alloc, 2)
    }
}

/// The join of two leaves of as many variables.
pub(crate) fn joined<L: Leaf>(alloc: Global, a: &L, b: &L) -> Result<L, NoMemory> {
    if a.variables() == b.variables() {
        a.join(alloc, b)
    } else {
        L::nothing(alloc, 2)
    }
}

/// The join of single stores.
pub(crate) fn join_of<L: Leaf>(alloc: Global, stores: &[Store]) -> Result<L, NoMemory> {
    let mut leaf = L::nothing(alloc, 2)?;
    for store in stores {
        let single = boxed(alloc, (store.x, store.x, store.y, store.y))?;
        leaf = joined(alloc, &leaf, &single)?;
    }
    Ok(leaf)
}

/// The least and the greatest number of both variables; the last is empty.
const BOXES: [(i64, i64, i64, i64); 6] = [
    (-4, 4, -4, 4),
    (-2, 3, -4, -1),
    (1, 4, 0, 2),
    (0, 0, 1, 1),
    (-4, -4, -4, 4),
    (2, 1, 0, 0),
];

const CUTS: [(i8, i8, i8, Compare); 4] = [
    (1, -1, -1, Compare::Le),
    (1, 1, 0, Compare::Gt),
    (-1, 1, 0, Compare::Eq),
    (1, 0, 2, Compare::Ge),
];

/// Boxes, and each of them cut by each comparison.
fn add_boxes<L: Leaf>(alloc: Global, leaves: &mut Vec<L>) -> Result<(), NoMemory> {
    for ends in BOXES {
        let whole: L = boxed(alloc, ends)?;
        for (x, y, constant, op) in CUTS {
            leaves.push(compared(alloc, &whole, Sum { x, y, constant }, op)?)?;
        }
        leaves.push(whole)?;
    }
    Ok(())
}

/// The stores with these numbers of both variables.
fn stores_at(alloc: Global, points: [(i64, i64); 3]) -> Result<Vec<Store>, NoMemory> {
    let mut stores = Vec::new(alloc);
    for (x, y) in points {
        stores.push(Store { x, y })?;
    }
    Ok(stores)
}

/// The stores of some joins, as numbers of both variables.
const POINTS: [[(i64, i64); 3]; 5] = [
    [(0, 0), (2, 2), (4, 4)],
    [(-3, 1), (0, 1), (3, 1)],
    [(-4, 4), (0, 0), (2, -2)],
    [(1, 3), (1, -1), (1, 3)],
    [(-2, 0), (4, -3), (1, 3)],
];

/// All small leaves.
pub(crate) fn small_leaves<L: Leaf>(alloc: Global) -> Result<Vec<L>, NoMemory> {
    let mut leaves = Vec::new(alloc);
    add_boxes(alloc, &mut leaves)?;
    for points in POINTS {
        let stores = stores_at(alloc, points)?;
        leaves.push(join_of(alloc, stores.as_slice())?)?;
    }
    Ok(leaves)
}

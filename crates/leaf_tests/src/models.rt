//! Leaves of two variables as the definitions of their kinds have them: a bound of each of some sums, and for each variable a stride.

use crate::small::{Sum, value};
use crate::stores::Store;
use fam_outer::NoMemory;
use std::alloc::Global;

const LEAST: i64 = -2147483648;

const GREATEST: i64 = 2147483647;

/// The greatest value of a sum at a store of `int`, which is the type's bound.
fn limit(sum: Sum) -> i64 {
    let x = if sum.x < 0 { LEAST } else { GREATEST };
    let y = if sum.y < 0 { LEAST } else { GREATEST };
    value(sum, Store { x, y })
}

/// The bound of a sum that a threshold is: of so many times one variable it is as many times the threshold, and of two variables
/// it is the threshold itself.
fn step(sum: Sum, threshold: i64) -> i64 {
    if sum.x != 0 && sum.y != 0 {
        threshold
    } else {
        let times = i64::from(sum.x).saturating_add(i64::from(sum.y));
        threshold.saturating_mul(times)
    }
}

/// The bound of a sum to which one steps: the least that a threshold is and that covers it, and at most the type's.
fn nearest(sum: Sum, thresholds: &[i64], bound: i64) -> i64 {
    let mut nearest = limit(sum);
    for threshold in thresholds {
        let step = step(sum, *threshold);
        if bound <= step && step < nearest {
            nearest = step;
        }
    }
    nearest
}

/// The greatest value of a sum at a first store and further ones.
fn greatest(sum: Sum, first: Store, stores: &[Store]) -> i64 {
    let mut greatest = value(sum, first);
    for store in stores {
        greatest = greatest.max(value(sum, *store));
    }
    greatest
}

/// Whether the bound of a sum is the type's, or that of a threshold.
fn is_step(sum: Sum, thresholds: &[i64], bound: i64) -> bool {
    bound == limit(sum) || thresholds.iter().any(|it| step(sum, *it) == bound)
}

/// The numbers that differ from the residue by multiples of the modulus; where that is 0, the residue alone.
#[derive(Clone, Copy)]
pub(crate) struct Stride {
    pub modulus: u64,
    pub residue: i64,
}

/// The greatest common divisor, by steps of Euclid's.
fn divisor(a: u64, b: u64) -> u64 {
    let mut pair = (a, b);
    for _step in 0..100 {
        if pair.1 != 0 {
            pair = (pair.1, pair.0 % pair.1);
        }
    }
    pair.0
}

impl Stride {
    /// All numbers.
    const ALL: Stride = Stride {
        modulus: 1,
        residue: 0,
    };

    fn has(self, n: i64) -> bool {
        let distance = n.abs_diff(self.residue);
        if self.modulus == 0 {
            distance == 0
        } else {
            distance % self.modulus == 0
        }
    }

    /// The stride of the greatest modulus that has the numbers of both.
    fn joined(self, other: Stride) -> Stride {
        let distance = self.residue.abs_diff(other.residue);
        Stride {
            modulus: divisor(divisor(self.modulus, other.modulus), distance),
            residue: self.residue,
        }
    }
}

/// A kind of leaf.
#[derive(Clone, Copy, PartialEq, Eq)]
pub(crate) enum Template {
    Intervals,
    Strides,
    Octagons,
    /// Octagons together with strides.
    Sharp,
}

/// How often both variables are in each sum of which intervals have an upper bound.
static SINGLE: [(i8, i8); 4] = [(1, 0), (-1, 0), (0, 1), (0, -1)];

/// The same of octagons.
static SIGNED: [(i8, i8); 8] = [
    (2, 0),
    (-2, 0),
    (0, 2),
    (0, -2),
    (1, 1),
    (1, -1),
    (-1, 1),
    (-1, -1),
];

/// The sum of so many times each variable.
pub(crate) fn sum_of(times: (i8, i8)) -> Sum {
    Sum {
        x: times.0,
        y: times.1,
        constant: 0,
    }
}

/// Whether the number is 1, 0 or -1.
fn is_small(times: i8) -> bool {
    -1 <= times && times <= 1
}

impl Template {
    /// Whether the kind has bounds of sums of both variables.
    pub(crate) fn has_pairs(self) -> bool {
        self == Template::Octagons || self == Template::Sharp
    }

    /// Whether the kind has a stride for each variable.
    pub(crate) fn has_strides(self) -> bool {
        self == Template::Strides || self == Template::Sharp
    }

    /// How often both variables are in each sum of which the kind has an upper bound.
    pub(crate) fn sums(self) -> &'static [(i8, i8)] {
        if self.has_pairs() { &SIGNED } else { &SINGLE }
    }

    /// Whether the kind finds the least upper bound of the sum over the stores that its bounds and strides have in common. Octagons
    /// and strides tell each other the bounds of variables, and not those of sums.
    pub(crate) fn is_best_of(self, times: (i8, i8)) -> bool {
        self != Template::Sharp || times.0 == 0 || times.1 == 0
    }

    /// The stride of a number alone.
    fn point(self, n: i64) -> Stride {
        if self.has_strides() {
            Stride {
                modulus: 0,
                residue: n,
            }
        } else {
            Stride::ALL
        }
    }

    /// Whether the kind has the range of the sum, and meets a comparison of it with 0 exactly, unless that is `!=`.
    pub(crate) fn has_sum(self, sum: Sum) -> bool {
        self.has_pairs() && is_small(sum.x) && is_small(sum.y)
    }

    /// Whether the kind answers the best leaf over the stores with a variable put as the sum, where it is given the range of the sum.
    pub(crate) fn sets_sum(self, sum: Sum) -> bool {
        !self.has_pairs() || (self.has_sum(sum) && (sum.x == 0 || sum.y == 0))
    }
}

/// A leaf of a kind that holds some store, by its bounds as they stand.
#[derive(Drop)]
pub(crate) struct Model {
    pub template: Template,
    pub bounds: Vec<i64>,
    pub x: Stride,
    pub y: Stride,
}

impl Model {
    /// The best leaf of a kind that holds these stores; None where there is none.
    pub(crate) fn best(
        alloc: Global,
        template: Template,
        stores: &[Store],
    ) -> Result<Option<Model>, NoMemory> {
        let Some(first) = stores.first() else {
            return Ok(None);
        };
        let mut x = template.point(first.x);
        let mut y = template.point(first.y);
        for store in stores {
            x = x.joined(template.point(store.x));
            y = y.joined(template.point(store.y));
        }
        let mut bounds = Vec::new(alloc);
        for times in template.sums() {
            bounds.push(greatest(sum_of(*times), *first, stores))?;
        }
        Ok(Some(Model {
            template,
            bounds,
            x,
            y,
        }))
    }

    /// Whether it holds the store.
    pub(crate) fn has(&self, store: Store) -> bool {
        let sums = self.template.sums().iter();
        self.x.has(store.x)
            && self.y.has(store.y)
            && sums
                .zip(self.bounds.as_slice())
                .all(|(times, bound)| value(sum_of(*times), store) <= *bound)
    }

    /// The same leaf.
    pub(crate) fn copy(&self, alloc: Global) -> Result<Model, NoMemory> {
        Ok(Model {
            template: self.template,
            bounds: Vec::from_slice(alloc, self.bounds.as_slice())?,
            x: self.x,
            y: self.y,
        })
    }

    /// Each bound that the other's is above steps to the nearest threshold that covers the other's, and strides are joined.
    pub(crate) fn widened(
        &self,
        alloc: Global,
        other: &Model,
        thresholds: &[i64],
    ) -> Result<Model, NoMemory> {
        let mut bounds = Vec::new(alloc);
        let both = self.bounds.iter().zip(other.bounds.as_slice());
        for (times, (own, new)) in self.template.sums().iter().zip(both) {
            bounds.push(if own < new {
                nearest(sum_of(*times), thresholds, *new)
            } else {
                *own
            })?;
        }
        Ok(Model {
            template: self.template,
            bounds,
            x: self.x.joined(other.x),
            y: self.y.joined(other.y),
        })
    }

    /// Each bound that is the type's or that of a threshold becomes the other's, and so does a stride that has all numbers.
    pub(crate) fn narrowed(
        &self,
        alloc: Global,
        other: &Model,
        thresholds: &[i64],
    ) -> Result<Model, NoMemory> {
        let mut bounds = Vec::new(alloc);
        let both = self.bounds.iter().zip(other.bounds.as_slice());
        for (times, (own, new)) in self.template.sums().iter().zip(both) {
            bounds.push(if is_step(sum_of(*times), thresholds, *own) {
                *new
            } else {
                *own
            })?;
        }
        Ok(Model {
            template: self.template,
            bounds,
            x: if self.x.modulus == 1 { other.x } else { self.x },
            y: if self.y.modulus == 1 { other.y } else { self.y },
        })
    }
}

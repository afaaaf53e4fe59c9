//! Leaves that look random, widened to lists of thresholds and narrowed, against the definitions of their kinds.

ghost use Rattle.std.specs.Prelude.{◌≤◌, IfOk, All, length};
ghost use Rattle.c_tree.specs.Value.{IsInt};

use crate::models::{Model, Template};
use crate::numbers::Numbers;
use crate::small::join_of;
use crate::stores::{Store, between, met};
use congruence_leaf::CongruenceLeaf;
use fam_outer::NoMemory;
use interval_leaf::IntervalLeaf;
use leaf_domain::{Leaf, Thresholds};
use octagon_leaf::OctagonLeaf;
use product_leaf::StrideLeaf;
use std::alloc::Global;
use std::test::Fail;

/// The numbers of the stores that are asked of: those to which bounds of the tests step, those beside, and the ends of `int`.
const ASKED: [i64; 23] = [
    -2147483648,
    -10,
    -9,
    -8,
    -7,
    -6,
    -5,
    -4,
    -3,
    -2,
    -1,
    0,
    1,
    2,
    3,
    4,
    5,
    6,
    7,
    8,
    9,
    10,
    2147483647,
];

/// Which of the stores that are asked of a leaf holds.
fn held<L: Leaf>(alloc: Global, leaf: &L) -> Result<Vec<bool>, NoMemory> {
    let mut held = Vec::new(alloc);
    for x in ASKED {
        let at_x = met(alloc, leaf, 0, between(x, x))?;
        for y in ASKED {
            let at_both = met(alloc, &at_x, 1, between(y, y))?;
            held.push(!at_both.is_nothing())?;
        }
    }
    Ok(held)
}

/// Which of the stores that are asked of a model holds; Nothing has none.
fn held_by_model(alloc: Global, model: &Option<Model>) -> Result<Vec<bool>, NoMemory> {
    let mut held = Vec::new(alloc);
    for x in ASKED {
        for y in ASKED {
            held.push(match model {
                Some(model) => model.has(Store { x, y }),
                None => false,
            })?;
        }
    }
    Ok(held)
}

/// Whether each store of the first is one of the second.
fn is_below(first: &[bool], second: &[bool]) -> bool {
    first.iter().zip(second).all(|(a, b)| !*a || *b)
}

/// At most four stores, with numbers that are at most 4 in size.
fn some_stores(alloc: Global, numbers: &mut Numbers) -> Result<Vec<Store>, NoMemory> {
    let mut stores = Vec::new(alloc);
    for _store in 0..numbers.below(5) {
        stores.push(Store {
            x: numbers.within(4),
            y: numbers.within(4),
        })?;
    }
    Ok(stores)
}

/// At most three numbers that are at most 9 in size, in any order.
fn some_thresholds(alloc: Global, numbers: &mut Numbers) -> Result<Vec<i64>, NoMemory>
    ensures few { IfOk result (λ made. length made.items ≤ 64) }
    ensures int { IfOk result (λ made. All IsInt made.items) }
{
    let a = numbers.within(9);
    let b = numbers.within(9);
    let c = numbers.within(9);
    match numbers.below(4) {
        0 => Ok(Vec::new(alloc)),
        1 => Ok(vec![in alloc; a]?),
        2 => Ok(vec![in alloc; a, b]?),
        _ => Ok(vec![in alloc; a, b, c]?),
    }
}

/// A leaf, its model, and which of the stores that are asked of it holds.
#[derive(Drop)]
struct Known<L> {
    leaf: L,
    model: Option<Model>,
    held: Vec<bool>,
}

impl<L: Leaf> Known<L> {
    /// A leaf with its model.
    fn new(alloc: Global, leaf: L, model: Option<Model>) -> Result<Known<L>, NoMemory> {
        let held = held(alloc, &leaf)?;
        Ok(Known { leaf, model, held })
    }

    /// The join of some stores.
    fn join_of_some(
        alloc: Global,
        template: Template,
        numbers: &mut Numbers,
    ) -> Result<Known<L>, NoMemory> {
        let stores = some_stores(alloc, numbers)?;
        let leaf = join_of(alloc, stores.as_slice())?;
        let model = Model::best(alloc, template, stores.as_slice())?;
        Known::new(alloc, leaf, model)
    }

    /// Whether it holds just the stores of its model.
    fn is_right(&self, alloc: Global) -> Result<bool, NoMemory> {
        Ok(self.held.as_slice() == held_by_model(alloc, &self.model)?.as_slice())
    }

    /// This leaf widened by another; Nothing is the unit.
    fn widened(
        &self,
        alloc: Global,
        other: &Known<L>,
        thresholds: &Thresholds,
        list: &[i64],
    ) -> Result<Known<L>, NoMemory> {
        let model = match (&self.model, &other.model) {
            (Some(own), Some(new)) => Some(own.widened(alloc, new, list)?),
            (Some(only), None) | (None, Some(only)) => Some(only.copy(alloc)?),
            (None, None) => None,
        };
        let leaf = if self.leaf.variables() == other.leaf.variables() {
            self.leaf.widen(alloc, &other.leaf, thresholds)?
        } else {
            L::nothing(alloc, 2)?
        };
        Known::new(alloc, leaf, model)
    }

    /// This leaf narrowed by another; by Nothing it becomes Nothing.
    fn narrowed(
        &self,
        alloc: Global,
        other: &Known<L>,
        thresholds: &Thresholds,
        list: &[i64],
    ) -> Result<Known<L>, NoMemory> {
        let model = match (&self.model, &other.model) {
            (Some(own), Some(new)) => Some(own.narrowed(alloc, new, list)?),
            _ => None,
        };
        let leaf = if self.leaf.variables() == other.leaf.variables() {
            self.leaf.narrow(alloc, &other.leaf, thresholds)?
        } else {
            L::nothing(alloc, 2)?
        };
        Known::new(alloc, leaf, model)
    }

    /// Whether it is seen to be below another.
    fn is_seen_below(&self, other: &Known<L>) -> bool {
        self.leaf.variables() == other.leaf.variables() && self.leaf.leq(&other.leaf)
    }
}

/// A leaf `a` is widened by `b`, and what that makes by `c`; this is narrowed by `b`, which is below it, and by a leaf that need not
/// be.
fn chain_is_right<L: Leaf>(
    alloc: Global,
    template: Template,
    numbers: &mut Numbers,
) -> Result<bool, NoMemory> {
    let list = some_thresholds(alloc, numbers)?;
    let list = list.as_slice();
    let thresholds = Thresholds::from_vec(Vec::from_slice(alloc, list)?);
    let a: Known<L> = Known::join_of_some(alloc, template, numbers)?;
    let b = Known::join_of_some(alloc, template, numbers)?;
    let c = Known::join_of_some(alloc, template, numbers)?;
    let once = a.widened(alloc, &b, &thresholds, list)?;
    let twice = once.widened(alloc, &c, &thresholds, list)?;
    let less = twice.narrowed(alloc, &b, &thresholds, list)?;
    let other = Known::join_of_some(alloc, template, numbers)?;
    let moved = twice.narrowed(alloc, &other, &thresholds, list)?;
    Ok(
        a.is_right(alloc)?
            && once.is_right(alloc)?
            && twice.is_right(alloc)?
            && less.is_right(alloc)?
            && moved.is_right(alloc)?
            && are_between(&a, &once, &twice)
            && are_between(&b, &once, &twice)
            && are_between(&c, &twice, &twice)
            && b.is_seen_below(&twice)
            && are_between(&b, &less, &twice)
            && (!other.is_seen_below(&twice) || are_between(&other, &moved, &twice)),
    )
}

/// Whether each store of the first is one of the second, and each of that one of the third.
fn are_between<L: Leaf>(first: &Known<L>, second: &Known<L>, third: &Known<L>) -> bool {
    is_below(first.held.as_slice(), second.held.as_slice())
        && is_below(second.held.as_slice(), third.held.as_slice())
}

/// How many chains there are of each kind.
const CHAINS: u32 = 100;

/// The first chain that is not right, by the number with which it begins.
fn first_wrong<L: Leaf>(alloc: Global, template: Template) -> Result<Option<u32>, NoMemory> {
    for seed in 0..CHAINS {
        let mut numbers = Numbers::from_seed(seed);
        if !chain_is_right::<L>(alloc, template, &mut numbers)? {
            return Ok(Some(seed));
        }
    }
    Ok(None)
}

#[test]
fn intervals_are_widened_as_defined(rt: HostRuntime) -> Result<(), Fail> {
    let wrong = first_wrong::<IntervalLeaf>(rt.alloc(), Template::Intervals)?;
    assert_eq!(rt; wrong, None);
    Ok(())
}

#[test]
fn strides_are_widened_as_defined(rt: HostRuntime) -> Result<(), Fail> {
    let wrong = first_wrong::<StrideLeaf>(rt.alloc(), Template::Strides)?;
    assert_eq!(rt; wrong, None);
    Ok(())
}

#[test]
fn octagons_are_widened_as_defined(rt: HostRuntime) -> Result<(), Fail> {
    let wrong = first_wrong::<OctagonLeaf>(rt.alloc(), Template::Octagons)?;
    assert_eq!(rt; wrong, None);
    Ok(())
}

#[test]
fn strides_that_follow_remainders_are_widened_as_defined(rt: HostRuntime) -> Result<(), Fail> {
    let wrong = first_wrong::<CongruenceLeaf>(rt.alloc(), Template::Strides)?;
    assert_eq!(rt; wrong, None);
    Ok(())
}

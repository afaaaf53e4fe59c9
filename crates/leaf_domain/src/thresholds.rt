//! Numbers to which the bounds of a loop's leaf may step.
#![tactic(auto)]

ghost use Rattle.std.specs.Prelude.{◌≡◌, ◌≤◌, [], length, All};
ghost use Rattle.c_tree.specs.Value.{IsInt};
ghost use Rattle.leaf_domain.specs.Thresholds.{times, scaled, nearest, is_step};

use fam_outer::slices::cut;
use std::alloc::Global;
use std::marker::Model;

/// What a bound is a bound of: a variable this many times.
#[derive(Clone, Copy, Debug, PartialEq, Eq)]
pub enum Multiple {
    One,
    MinusOne,
    Two,
    MinusTwo,
}

/// The number so many times.
fn times(multiple: Multiple, number: i64) -> i64
    requires { IsInt number }
    ensures { result ≡ times multiple number }
{
    match multiple {
        Multiple::One => number,
        Multiple::MinusOne => -number,
        Multiple::Two => 2 * number,
        Multiple::MinusTwo => -(2 * number),
    }
}

/// Numbers to which a bound that grows in a loop may step, before it becomes the type's: at most 64, each a number of
/// `int`.
#[derive(Debug, Drop)]
pub struct Thresholds {
    list: Vec<i64>,
}

impl Model for Thresholds {
    ghost use Rattle.std.specs.Prelude.{List, ℤ};
    ghost use Rattle.leaf_domain.specs.Thresholds.{AreThresholds};

    ghost Value = { List ℤ };

    ghost view = { λ thresholds. thresholds.list.items };

    ghost invariant = { λ thresholds. AreThresholds thresholds.list.items };
}

/// The least of the bounds that these numbers are, times the multiple, that is not below the bound, and the limit where none
/// is, or none below the limit.
fn nearest(numbers: &[i64], multiple: Multiple, limit: i64, bound: i64) -> i64
    requires { All IsInt numbers.now }
    ensures { result ≡ nearest limit (scaled multiple numbers.now) bound }
{
    match cut(numbers) {
        None => limit,
        Some((first, rest)) => {
            let step = times(multiple, first);
            let other = nearest(rest, multiple, limit, bound);
            if bound <= step {
                step.min(other)
            } else {
                other
            }
        }
    }
}

/// Whether the bound is the limit or one of those that these numbers are, times the multiple.
fn is_step(numbers: &[i64], multiple: Multiple, limit: i64, bound: i64) -> bool
    requires { All IsInt numbers.now }
    ensures { result ≡ is_step limit (scaled multiple numbers.now) bound }
{
    match cut(numbers) {
        None => bound == limit,
        Some((first, rest)) => {
            bound == times(multiple, first) || is_step(rest, multiple, limit, bound)
        }
    }
}

impl Thresholds {
    /// No number: a bound that grows becomes the type's.
    pub fn none(alloc: Global) -> Thresholds
        ensures { result ≡ [] }
    {
        Thresholds {
            list: Vec::new(alloc),
        }
    }

    /// These numbers.
    pub fn from_vec(list: Vec<i64>) -> Thresholds
        requires few { length list.items ≤ 64 }
        requires int { All IsInt list.items }
        ensures { result ≡ list.items }
    {
        Thresholds { list }
    }

    /// How many numbers there are.
    pub fn count(&self) -> u32
        ensures value { result ≡ length self.now }
        ensures few { result ≤ 64 }
    {
        self.list.len() as u32
    }

    /// The bound to which a bound of a variable so many times steps that has to cover this one: the least that one of the
    /// numbers gives and that is not below it, and at most the limit.
    pub fn nearest(&self, multiple: Multiple, limit: i64, bound: i64) -> i64
        ensures { result ≡ nearest limit (scaled multiple self.now) bound }
    {
        nearest(self.list.as_slice(), multiple, limit, bound)
    }

    /// Whether a bound of a variable so many times may come of a step: it is the limit, or what one of the numbers gives.
    pub fn is_step(&self, multiple: Multiple, limit: i64, bound: i64) -> bool
        ensures { result ≡ is_step limit (scaled multiple self.now) bound }
    {
        is_step(self.list.as_slice(), multiple, limit, bound)
    }
}

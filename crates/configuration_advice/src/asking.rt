//! Questions on the value of one feature.
#![tactic(auto)]

ghost use Rattle.std.specs.Prelude.{◌≡◌, ◌≤◌, ◌<◌, pos, ◌≤ℤ◌, ◌<ℤ◌, ◌-ℤ◌, length, unsigned_abs, IfOk, MatchOption};
ghost use Rattle.configuration_advice.specs.Tests.{at_least};
ghost use Rattle.configuration_advice.specs.Uses.{value_of, Has, AllFrom, AllTo};

use atom_solver::Prepared;
use fam_outer::NoMemory;
use linear_atoms::{Atom, Config, Literal, Terms};
use std::alloc::Global;

/// The test whether a feature has at least a value.
pub(crate) fn at_least(alloc: Global, number: u32, bound: i64) -> Result<Atom, NoMemory>
    ensures { IfOk result (λ made. made ≡ at_least number bound) }
{
    Ok(Atom {
        terms: Terms::single(alloc, number, 1)?,
        bound,
    })
}

/// The value that a configuration gives a feature.
pub(crate) fn value_of(config: &Config, number: u32) -> i64
    requires { number < length config.now.values }
    ensures { result ≡ value_of number config.now.values }
{
    config.values.items()[number as usize]
}

/// A value of at least `low` that some valid configuration gives a feature.
#[tactic(auto, using(crate::proofs::Asked::none_from, crate::proofs::Asked::some_from))]
pub(crate) fn value_from(
    alloc: Global,
    prepared: &Prepared,
    number: u32,
    low: i64,
) -> Result<Option<i64>, NoMemory>
    requires number { number < length prepared.now.features }
    requires low { unsigned_abs low ≤ 2147483649 }
    ensures { IfOk result (λ found. MatchOption found (AllTo prepared.now number (low -ℤ pos 1))
        (λ v. (low ≤ℤ v) × Has prepared.now number v)) }
{
    let literals = [Literal {
        atom: at_least(alloc, number, low)?,
        positive: true,
    }];
    match prepared.least(alloc, &literals)? {
        None => Ok(None),
        Some(config) => Ok(Some(value_of(&config, number))),
    }
}

/// A value of less than `high` that some valid configuration gives a feature.
#[tactic(auto, using(crate::proofs::Asked::none_below, crate::proofs::Asked::some_below))]
pub(crate) fn value_below(
    alloc: Global,
    prepared: &Prepared,
    number: u32,
    high: i64,
) -> Result<Option<i64>, NoMemory>
    requires number { number < length prepared.now.features }
    requires high { unsigned_abs high ≤ 2147483649 }
    ensures { IfOk result (λ found. MatchOption found (AllFrom prepared.now number high)
        (λ v. (v <ℤ high) × Has prepared.now number v)) }
{
    let literals = [Literal {
        atom: at_least(alloc, number, high)?,
        positive: false,
    }];
    match prepared.least(alloc, &literals)? {
        None => Ok(None),
        Some(config) => Ok(Some(value_of(&config, number))),
    }
}

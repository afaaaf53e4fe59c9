//! Models without a valid configuration, behind features that no constraint names, with ample memory.

ghost use Rattle.std.specs.Prelude.{◌≡◌, ◌+◌, ◌<◌, ◌≤◌, ◌∷◌, [], pos, negsuc, ◌≤ℤ◌, length, unsigned_abs, IfOk};
ghost use Rattle.linear_atoms.specs.Atoms.{AreRanges, IsAtom};
ghost use Rattle.linear_atoms.specs.Forms.{IsRising};
ghost use Rattle.cpp_conditions.specs.Propositions.{IsFit};
ghost use Rattle.cpp_conditions.specs.Validity.{AreFit};
ghost use Rattle.cpp_conditions.specs.View.{proposition};

use atom_solver::{Prepared, least};
use cpp_conditions::conditions::{both, either, negation};
use cpp_conditions::{Condition, Conditions, Features, Model};
use fam_outer::{MOST_VALUE, Text};
use linear_atoms::{Atom, Config, Feature, Linear, Literal};
use std::alloc::Global;
use std::test::Fail;

/// Features of 0 to a number, so many, before others.
fn before(
    alloc: Global,
    count: u32,
    high: i64,
    mut others: Vec<Feature>,
) -> Result<Vec<Feature>, Fail>
    requires some { pos 0 ≤ℤ high }
    requires high { unsigned_abs high ≤ MOST_VALUE }
    requires ranges { AreRanges others.items }
    ensures ranges { IfOk result (λ made. AreRanges made.items) }
    ensures count { IfOk result (λ made. length made.items ≡ count + length others.items) }
{
    if count == 0 {
        return Ok(others);
    }
    let feature = Feature {
        name: Text::from_bytes(alloc, b"F")?,
        boolean: false,
        low: 0,
        high,
    };
    others.insert(0, feature)?;
    before(alloc, count - 1, high, others)
}

/// The test that one of three Boolean features behind others is on.
fn is_on(alloc: Global, free: u32, place: u32) -> Result<Condition, Fail>
    requires few { free ≤ 20 }
    requires place { place < 3 }
    ensures { IfOk result (λ made. IsFit (free + 3) (proposition made)) }
{
    let form = Linear::feature(alloc, free + place)?;
    let terms = form.terms.copy(alloc)?;
    Ok(Condition::Test(Atom { terms, bound: 1 }))
}

/// Of two of them exactly one is on.
fn differ(alloc: Global, free: u32, left: u32, right: u32) -> Result<Condition, Fail>
    requires few { free ≤ 20 }
    requires left { left < 3 }
    requires right { right < 3 }
    ensures { IfOk result (λ made. IsFit (free + 3) (proposition made)) }
{
    let off = negation(alloc, is_on(alloc, free, right)?)?;
    let first = both(alloc, is_on(alloc, free, left)?, off)?;
    let off = negation(alloc, is_on(alloc, free, left)?)?;
    let second = both(alloc, off, is_on(alloc, free, right)?)?;
    Ok(either(alloc, first, second)?)
}

/// So many features of 0 to a number, and three Boolean ones that must differ pairwise.
fn three(alloc: Global, free: u32, high: i64) -> Result<Model, Fail>
    requires few { free ≤ 20 }
    requires some { pos 0 ≤ℤ high }
    requires high { unsigned_abs high ≤ MOST_VALUE }
    ensures count { IfOk result (λ made. length made.features ≡ free + 3) }
    ensures ranges { IfOk result (λ made. AreRanges made.features) }
    ensures fit { IfOk result (λ made. AreFit (free + 3) made.constraints) }
{
    let switches = before(alloc, 3, 1, Vec::new(alloc))?;
    let features = before(alloc, free, high, switches)?;
    let first = differ(alloc, free, 0, 1)?;
    let second = differ(alloc, free, 1, 2)?;
    let third = differ(alloc, free, 0, 2)?;
    Ok(Model {
        features: Features::from_vec(features),
        constraints: Conditions::from_vec(vec![in alloc; first, second, third]?),
    })
}

/// A feature times -1.
fn turned(alloc: Global, number: u32) -> Result<Linear, Fail>
    ensures terms { IfOk result (λ made. made.terms ≡ (number, negsuc 0) ∷ []) }
    ensures rising { IfOk result (λ made. IsRising made.terms) }
{
    match Linear::feature(alloc, number)?.scale(alloc, -1) {
        Ok(made) => Ok(made),
        Err(_) => Err("too large")?,
    }
}

/// A feature less another that is behind it.
fn difference(alloc: Global, left: u32, right: u32) -> Result<Linear, Fail>
    requires { left < right }
    ensures { IfOk result (λ made. made.terms ≡ (left, pos 1) ∷ (right, negsuc 0) ∷ []) }
{
    let right = turned(alloc, right)?;
    match Linear::feature(alloc, left)?.add(alloc, &right) {
        Ok(made) => Ok(made),
        Err(_) => Err("too large")?,
    }
}

/// The test that a feature is greater than another that is behind it.
fn above(alloc: Global, left: u32, right: u32) -> Result<Atom, Fail>
    requires order { left < right }
    requires right { right < 5 }
    ensures { IfOk result (λ made. IsAtom 5 made) }
{
    let form = difference(alloc, left, right)?;
    let terms = form.terms.copy(alloc)?;
    Ok(Atom { terms, bound: 1 })
}

/// A feature is greater than another that is behind it.
fn exceeds(alloc: Global, left: u32, right: u32) -> Result<Condition, Fail>
    requires order { left < right }
    requires right { right < 5 }
    ensures { IfOk result (λ made. IsFit 5 (proposition made)) }
{
    let atom = above(alloc, left, right)?;
    Ok(Condition::Test(atom))
}

/// A feature is at least another that is behind it.
fn reaches(alloc: Global, left: u32, right: u32) -> Result<Condition, Fail>
    requires order { left < right }
    requires right { right < 5 }
    ensures { IfOk result (λ made. IsFit 5 (proposition made)) }
{
    let form = difference(alloc, left, right)?;
    let terms = form.terms.copy(alloc)?;
    Ok(Condition::Test(Atom { terms, bound: 0 }))
}

/// The test that a feature is at least so much more than another that is behind it.
fn exceeds_by(alloc: Global, left: u32, right: u32, least: i64) -> Result<Condition, Fail>
    requires order { left < right }
    requires right { right < 5 }
    requires least { unsigned_abs least ≤ MOST_VALUE }
    ensures { IfOk result (λ made. IsFit 5 (proposition made)) }
{
    let form = difference(alloc, left, right)?;
    let terms = form.terms.copy(alloc)?;
    Ok(Condition::Test(Atom {
        terms,
        bound: least,
    }))
}

/// Of a feature and another that is behind it one is at least so much more than the other.
fn apart(alloc: Global, left: u32, right: u32, least: i64) -> Result<Condition, Fail>
    requires order { left < right }
    requires right { right < 5 }
    requires some { pos 0 ≤ℤ least }
    requires least { unsigned_abs least ≤ 1048575 }
    ensures { IfOk result (λ made. IsFit 5 (proposition made)) }
{
    let over = exceeds_by(alloc, left, right, least)?;
    let near = exceeds_by(alloc, left, right, 1 - least)?;
    Ok(either(alloc, over, negation(alloc, near)?)?)
}

/// The first feature less the two behind it.
fn spare(alloc: Global) -> Result<Linear, Fail>
    ensures { IfOk result (λ made. made.terms
        ≡ (0, pos 1) ∷ (1, negsuc 0) ∷ (2, negsuc 0) ∷ []) }
{
    let third = turned(alloc, 2)?;
    match difference(alloc, 0, 1)?.add(alloc, &third) {
        Ok(made) => Ok(made),
        Err(_) => Err("too large")?,
    }
}

/// The first feature is at least the sum of the two behind it.
fn covers(alloc: Global) -> Result<Condition, Fail>
    ensures { IfOk result (λ made. IsFit 5 (proposition made)) }
{
    let form = spare(alloc)?;
    let terms = form.terms.copy(alloc)?;
    Ok(Condition::Test(Atom { terms, bound: 0 }))
}

/// A feature is not equal to another that is behind it.
fn unequal(alloc: Global, left: u32, right: u32) -> Result<Condition, Fail>
    requires order { left < right }
    requires right { right < 5 }
    ensures { IfOk result (λ made. IsFit 5 (proposition made)) }
{
    let below = negation(alloc, reaches(alloc, left, right)?)?;
    Ok(either(alloc, exceeds(alloc, left, right)?, below)?)
}

/// The first two features differ, or the next two are equal.
fn choice(alloc: Global) -> Result<Condition, Fail>
    ensures { IfOk result (λ made. IsFit 5 (proposition made)) }
{
    let differ = unequal(alloc, 0, 1)?;
    let not_above = negation(alloc, exceeds(alloc, 2, 3)?)?;
    let equal = both(alloc, reaches(alloc, 2, 3)?, not_above)?;
    Ok(either(alloc, differ, equal)?)
}

/// Five features of 0 to 2^20 and these constraints.
fn wide(alloc: Global, constraints: Vec<Condition>) -> Result<Model, Fail>
    requires { AreFit 5 constraints.items }
    ensures count { IfOk result (λ made. length made.features ≡ 5) }
    ensures ranges { IfOk result (λ made. AreRanges made.features) }
    ensures fit { IfOk result (λ made. AreFit 5 made.constraints) }
{
    Ok(Model {
        features: Features::from_vec(before(alloc, 5, 1_048_576, Vec::new(alloc))?),
        constraints: Conditions::from_vec(constraints),
    })
}

#[test]
fn switches_that_must_differ_are_refuted(rt: HostRuntime) -> Result<(), Fail> {
    let alloc = rt.alloc();
    for (free, high) in [(20, 1), (2, 1_048_576)] {
        let model = three(alloc, free, high)?;
        assert!(rt; least(alloc, &model, &[])?.is_none());
    }
    Ok(())
}

#[test]
fn rings_are_refuted(rt: HostRuntime) -> Result<(), Fail> {
    let alloc = rt.alloc();
    let first = negation(alloc, exceeds(alloc, 0, 1)?)?;
    let second = negation(alloc, exceeds(alloc, 1, 2)?)?;
    let third = exceeds(alloc, 0, 2)?;
    let model = wide(alloc, vec![in alloc; first, second, third]?)?;
    assert!(rt; least(alloc, &model, &[])?.is_none());
    Ok(())
}

#[test]
fn denials_are_refuted(rt: HostRuntime) -> Result<(), Fail> {
    let alloc = rt.alloc();
    let first = choice(alloc)?;
    let second = negation(alloc, choice(alloc)?)?;
    let model = wide(alloc, vec![in alloc; first, second]?)?;
    assert!(rt; least(alloc, &model, &[])?.is_none());
    Ok(())
}

/// The values of five features.
fn five(found: Option<Config>) -> Option<(i64, i64, i64, i64, i64)> {
    match found?.values.items() {
        [first, second, third, fourth, fifth] => {
            Some((*first, *second, *third, *fourth, *fifth))
        }
        _ => None,
    }
}

/// The first feature is greater than the second, or the others are a ring.
#[test]
fn rings_are_refuted_in_the_search(rt: HostRuntime) -> Result<(), Fail> {
    let alloc = rt.alloc();
    let first = negation(alloc, exceeds(alloc, 1, 2)?)?;
    let second = negation(alloc, exceeds(alloc, 2, 3)?)?;
    let ring = both(alloc, both(alloc, first, second)?, exceeds(alloc, 1, 3)?)?;
    let either = either(alloc, exceeds(alloc, 0, 1)?, ring)?;
    let model = wide(alloc, vec![in alloc; either]?)?;
    assert!(rt; five(least(alloc, &model, &[])?) == Some((1, 0, 0, 0, 0)));
    Ok(())
}

/// The first feature can't exceed the second at 0, so the third exceeds the fourth; then the second exceeds the fifth, and it is so
/// far from the fourth.
#[test]
fn least_solutions_of_choices_are_found(rt: HostRuntime) -> Result<(), Fail> {
    let alloc = rt.alloc();
    for (least_gap, values) in [(1, (0, 1, 1, 0, 0)), (5, (0, 1, 7, 6, 0))] {
        let first = either(alloc, exceeds(alloc, 0, 1)?, exceeds(alloc, 2, 3)?)?;
        let denied = negation(alloc, exceeds(alloc, 2, 3)?)?;
        let second = either(alloc, denied, exceeds(alloc, 1, 4)?)?;
        let third = apart(alloc, 1, 3, least_gap)?;
        let model = wide(alloc, vec![in alloc; first, second, third]?)?;
        assert!(rt; five(least(alloc, &model, &[])?) == Some(values));
    }
    Ok(())
}

/// Three values of 0 to 2^20 that are pairwise at least 2^19 apart are the ends and the middle, and no three are further
/// apart: a cycle of differences shows it with the ends of the ranges.
#[test]
fn values_too_far_apart_are_refuted(rt: HostRuntime) -> Result<(), Fail> {
    let alloc = rt.alloc();
    let cases = [
        (524_288, Some((0, 524_288, 1_048_576, 0, 0))),
        (524_289, None),
    ];
    for (least_gap, values) in cases {
        let first = apart(alloc, 0, 1, least_gap)?;
        let second = apart(alloc, 1, 2, least_gap)?;
        let third = apart(alloc, 0, 2, least_gap)?;
        let model = wide(alloc, vec![in alloc; first, second, third]?)?;
        assert!(rt; five(least(alloc, &model, &[])?) == values);
    }
    Ok(())
}

/// The first feature is at least the sum of the two behind it, and the second exceeds it: bounds would push one another on
/// by one, and the sum needs that the third is not below 0.
#[test]
fn sums_with_ends_of_ranges_are_refuted(rt: HostRuntime) -> Result<(), Fail> {
    let alloc = rt.alloc();
    let above = negation(alloc, reaches(alloc, 0, 1)?)?;
    let model = wide(alloc, vec![in alloc; covers(alloc)?, above]?)?;
    assert!(rt; least(alloc, &model, &[])?.is_none());
    Ok(())
}

/// Two features of 0 to 2^20 that differ, and three of 0 to a number that differ pairwise.
fn two_parts(alloc: Global, high: i64) -> Result<Model, Fail>
    requires some { pos 0 ≤ℤ high }
    requires high { unsigned_abs high ≤ MOST_VALUE }
    ensures count { IfOk result (λ made. length made.features ≡ 5) }
    ensures ranges { IfOk result (λ made. AreRanges made.features) }
    ensures fit { IfOk result (λ made. AreFit 5 made.constraints) }
{
    let last = before(alloc, 3, high, Vec::new(alloc))?;
    let features = before(alloc, 2, 1_048_576, last)?;
    let alone = unequal(alloc, 0, 1)?;
    let first = unequal(alloc, 2, 3)?;
    let second = unequal(alloc, 3, 4)?;
    let third = unequal(alloc, 2, 4)?;
    Ok(Model {
        features: Features::from_vec(features),
        constraints: Conditions::from_vec(vec![in alloc; alone, first, second, third]?),
    })
}

/// Three values of 0 to 1 can't differ pairwise: that is not asked again with each solution of the rest.
#[test]
fn parts_without_a_solution_are_refuted_alone(rt: HostRuntime) -> Result<(), Fail> {
    let alloc = rt.alloc();
    let model = two_parts(alloc, 1)?;
    assert!(rt; least(alloc, &model, &[])?.is_none());
    Ok(())
}

#[test]
fn parts_that_are_not_asked_for_keep_their_least_values(rt: HostRuntime) -> Result<(), Fail> {
    let alloc = rt.alloc();
    let model = two_parts(alloc, 2)?;
    let prepared = Prepared::new(alloc, &model)?;
    let literals = [
        Literal {
            atom: above(alloc, 2, 3)?,
            positive: true,
        },
        Literal {
            atom: above(alloc, 3, 4)?,
            positive: true,
        },
        Literal {
            atom: above(alloc, 0, 1)?,
            positive: true,
        },
    ];
    let cases = [
        (0, (0, 1, 0, 1, 2)),
        (1, (0, 1, 1, 0, 2)),
        (2, (0, 1, 2, 1, 0)),
        (3, (1, 0, 2, 1, 0)),
    ];
    for (count, values) in cases {
        assert!(rt; five(prepared.least(alloc, &literals[..count])?) == Some(values));
    }
    Ok(())
}

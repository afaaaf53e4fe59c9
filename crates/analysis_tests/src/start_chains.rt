//! Start values that are declared in chains of groups, where few vectors are plausible.
//!
//! N is from 0 to 63, and test i is whether N is at least i + 1. Variable v is declared in a chain `#if N >= 3v+3`,
//! `#elif N >= 3v+2`, `#elif N >= 3v+1`, `#else`, with the start values 3, 2, 1 and 0. So k variables have 3k tests, of which a
//! plausible vector makes the first few true and no other: there are 3k + 1 of them, with as many different start values, of
//! the 4 to the k that the chains alone would allow.

ghost use Rattle.std.specs.Prelude.{◌≡◌, ◌*◌, ◌<◌, ◌≤◌, length, IfOk, All};
ghost use Rattle.c_tree.specs.View.{whole};
ghost use Rattle.c_tree.specs.Whole.{IsDeclaredOf, IsProgram};
ghost use Rattle.c_tree.specs.Project.{IsConditioned, IsGuarded};
ghost use Rattle.cpp_conditions.specs.Propositions.{IsBelow};
ghost use Rattle.cpp_conditions.specs.View.{formula};

use crate::unifying::implication;
use c_tree::{Declarations, Declared, Guard, Guards, Mode, Names, Program};
use cpp_conditions::Formula;
use decision_tree::Tree;
use fam_outer::{NoMemory, Place, Text, Values};
use interval_leaf::IntervalLeaf;
use leaf_domain::{Leaf, Thresholds};
use lifted_analysis::analyse_family;
use plain_analysis::Options;
use std::alloc::Global;
use std::test::Fail;

/// The branch with a start value of the chain of a variable, of so many.
fn branch(alloc: Global, count: u32, target: u32, value: u32) -> Result<Declared, NoMemory>
    requires few { count ≤ 16 }
    requires target { target < count }
    requires value { value < 4 }
    ensures declared { IfOk result (λ made. IsDeclaredOf count made) }
    ensures guarded { IfOk result (λ made. IsGuarded (3 * count) made) }
{
    let third = Guard {
        number: 3 * target + 2,
        positive: value == 3,
    };
    let second = Guard {
        number: 3 * target + 1,
        positive: value == 2,
    };
    let first = Guard {
        number: 3 * target,
        positive: value == 1,
    };
    let mut guards = Vec::new(alloc);
    guards.push(third)?;
    if value < 3 {
        guards.push(second)?;
    }
    if value < 2 {
        guards.push(first)?;
    }
    Ok(Declared {
        target,
        value: value as i64,
        guards: Guards::from_vec(guards),
    })
}

/// The branches of the chains of so many variables.
fn chains(alloc: Global, count: u32) -> Result<Vec<Declared>, NoMemory>
    requires { count ≤ 16 }
    ensures declared { IfOk result (λ made. All (IsDeclaredOf count) made.items) }
    ensures guarded { IfOk result (λ made. All (IsGuarded (3 * count)) made.items) }
{
    let mut list = Vec::new(alloc);
    for number in 0..4 * count {
        list.push(branch(alloc, count, number / 4, number % 4)?)?;
    }
    Ok(list)
}

/// A family whose body is empty, with a chain for each of its variables.
fn chain_family(alloc: Global, count: u32) -> Result<Program, NoMemory>
    requires { count ≤ 16 }
    ensures program { IfOk result (λ made. IsProgram (whole made)) }
    ensures conditions { IfOk result (λ made. IsConditioned (3 * count) (whole made)) }
{
    let declared = chains(alloc, count)?;
    let mut names = Vec::new(alloc);
    let mut start = Vec::new(alloc);
    for x in 0..count {
        names.push(Text::from_bytes(alloc, &[97 + x as u8])?)?;
        start.push(0)?;
    }
    Ok(Program {
        names: Names::from_vec(names),
        start: Values::from_vec(start),
        declared: Declarations::from_vec(declared),
        body: Vec::new(alloc),
        end: Place { line: 9, column: 1 },
    })
}

/// The tests, each a condition.
fn conditions(alloc: Global, count: u32) -> Result<Vec<Formula>, NoMemory>
    requires { count ≤ 320 }
    ensures count { IfOk result (λ made. length made.items ≡ count) }
    ensures below { IfOk result (λ made. All (λ c. IsBelow 320 (formula c)) made.items) }
{
    let mut list = Vec::new(alloc);
    for test in 0..count {
        list.push(Formula::Test(test))?;
    }
    Ok(list)
}

/// Each test is true only where the one before it is.
fn falling(alloc: Global, count: u32) -> Result<Formula, NoMemory>
    requires { count ≤ 320 }
    ensures { IfOk result (λ made. IsBelow 320 (formula made)) }
{
    let mut made = Formula::Const(true);
    for test in 1..count {
        let next = implication(alloc, test, test - 1)?;
        made = Formula::And(Box::new(alloc, made)?, Box::new(alloc, next)?);
    }
    Ok(made)
}

/// Whether each variable has the value of its branch, where so many tests are true.
fn are_starts(leaf: &IntervalLeaf, count: u32, holding: usize) -> bool {
    if leaf.variables() != count {
        return false;
    }
    let mut rest = holding;
    for x in 0..count {
        let bounds = leaf.bounds_of(x);
        let value = rest.min(3) as i64;
        if bounds.low != value || bounds.high != value {
            return false;
        }
        rest = rest.saturating_sub(3);
    }
    true
}

/// Whether a tree of so many variables has right start values on so many paths, and Nothing on all others of so many.
fn has_starts(
    alloc: Global,
    tree: &Tree<IntervalLeaf>,
    count: u32,
    plausible: usize,
    all: usize,
) -> Result<bool, NoMemory> {
    let paths = tree.paths(alloc)?;
    let plausible_paths = paths
        .iter()
        .filter(|path| !path.leaf.value.is_nothing())
        .count();
    if paths.len() != all || plausible_paths != plausible {
        return Ok(false);
    }
    for path in paths.iter() {
        let leaf = &path.leaf.value;
        let holding = path
            .turns
            .items()
            .iter()
            .filter(|(_, value)| *value)
            .count();
        if !leaf.is_nothing() && !are_starts(leaf, count, holding) {
            return Ok(false);
        }
    }
    Ok(true)
}

/// Whether the start values of the family of so many chains are right, and so many leaves and nodes are made of them. The forest
/// numbers what it makes from 1 on, and makes the root last.
fn is_right(
    alloc: Global,
    count: u32,
    plausible: usize,
    all: usize,
    made: u64,
) -> Result<bool, NoMemory>
    requires { count ≤ 16 }
{
    let code = chain_family(alloc, count)?;
    let tests = conditions(alloc, 3 * count)?;
    let rule = falling(alloc, 3 * count)?;
    let options = Options {
        delay: 0,
        narrow: 0,
        thresholds: Thresholds::none(alloc),
        mode: Mode::Stop,
    };
    let found = analyse_family::<IntervalLeaf>(alloc, &code, &tests, &rule, &options)?;
    match found.places.as_slice() {
        [end] => {
            let has_starts = has_starts(alloc, &end.tree, count, plausible, all)?;
            Ok(has_starts && end.tree.number() == made)
        }
        _ => Ok(false),
    }
}

// 3k + 1 plausible paths; and a path with Nothing for each test that fails and a later one that holds: 3k (3k - 1) / 2. Each start
// values have one leaf, and Nothing has one: 3k + 2. Before test i all tests held, or the first j alone, of i: so it has i + 1 nodes,
// and all tests have 3k (3k + 1) / 2.
#[test]
fn leaves_are_those_of_plausible_vectors(rt: HostRuntime) -> Result<(), Fail> {
    let rows = [
        (4, 13, 79, 92),
        (8, 25, 301, 326),
        (12, 37, 667, 704),
        (16, 49, 1177, 1226),
    ];
    for (count, plausible, all, made) in rows {
        assert!(rt; is_right(rt.alloc(), count, plausible, all, made)?);
    }
    Ok(())
}

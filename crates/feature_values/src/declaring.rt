//! The declarators that give the variables of features their values.
#![tactic(auto)]

ghost use Rattle.std.specs.Prelude.{◌≡◌, ◌+◌, ◌<◌, ◌^◌, ◌≤◌, unsigned_abs, [], ◌∷◌, ◌++◌, OnOk, IfOk};
ghost use Rattle.linear_atoms.specs.Atoms.{AreRanges};
ghost use Rattle.c_tree.specs.View.{whole};
ghost use Rattle.feature_values.specs.Declarators as specs;
ghost use Rattle.feature_values.specs.Values.{AreUses, test_count};

use crate::feature_uses::{Use, width};
use c_tree::{Declarations, Declared, Guard, Guards, Program};
use fam_outer::NoMemory;
use linear_atoms::Feature;
use linear_atoms::slices::cut;
use std::alloc::Global;

/// The guard that the condition of this number is true.
fn is_true(alloc: Global, number: u32) -> Result<Guards, NoMemory>
    ensures { IfOk result (λ made. made ≡ specs.is_true number ∷ []) }
{
    let mut list = Vec::new(alloc);
    list.push(Guard {
        number,
        positive: true,
    })?;
    Ok(Guards::from_vec(list))
}

/// Adds a variable's declarators with each of so many numbers above this one, where the first test has this number.
fn add_values_above(
    alloc: Global,
    made: &mut Vec<Declared>,
    first: u32,
    target: u32,
    low: i64,
    count: u32,
) -> Result<(), NoMemory>
    requires numbers { first + count < 2 ^ 32 }
    requires low { unsigned_abs low ≤ 1048576 }
    ensures { OnOk result (made.new.items ≡ made.old.items ++ specs.declarators_above first target low count) }
{
    let mut number = first;
    let mut value = low;
    let mut left = count;
    'above: while left > 0 {
        let guards = is_true(alloc, number)?;
        value += 1;
        made.push(Declared {
            target,
            value,
            guards,
        })?;
        number += 1;
        left -= 1;
    }
    Ok(())
}

/// Adds the declarators of features that are used as values, where the test of the first has this number.
fn add_declarators(
    alloc: Global,
    made: &mut Vec<Declared>,
    first: u32,
    features: &[Feature],
    uses: &[Use],
) -> Result<(), NoMemory>
    requires ranges { AreRanges features.now }
    requires uses { AreUses features.now uses.now }
    requires numbers { first + test_count features.now uses.now < 2 ^ 32 }
    ensures { OnOk result (made.new.items ≡ made.old.items ++ specs.declarators first features.now uses.now) }
{
    let mut number = first;
    let mut rest = uses;
    'uses: while let Some((used, behind)) = cut(rest) {
        let feature = &features[used.feature as usize];
        let count = width(feature);
        made.push(Declared {
            target: used.name,
            value: feature.low,
            guards: Guards::from_vec(Vec::new(alloc)),
        })?;
        add_values_above(alloc, made, number, used.name, feature.low, count)?;
        number += count;
        rest = behind;
    }
    Ok(())
}

/// A copy of declarators.
fn declarator_copies(alloc: Global, declared: &[Declared]) -> Result<Vec<Declared>, NoMemory>
    ensures { IfOk result (λ made. made.items ≡ declared.now) }
{
    let mut made = Vec::new(alloc);
    for d in declared {
        let guards = d.guards.copy(alloc)?;
        made.push(Declared {
            target: d.target,
            value: d.value,
            guards,
        })?;
    }
    Ok(made)
}

/// The program in which the variables of features have their values as start values.
///
/// It has more declarators behind its own, of each use, in order: the feature's low without a guard, and each number above
/// it, up to its high, where the test of that number is true. The test of the first number has the number `first`, and the
/// others count on. It answers an error only for want of memory.
pub fn add_values(
    alloc: Global,
    first: u32,
    features: &[Feature],
    uses: &[Use],
    program: Program,
) -> Result<Program, NoMemory>
    requires ranges { AreRanges features.now }
    requires uses { AreUses features.now uses.now }
    requires numbers { first + test_count features.now uses.now < 2 ^ 32 }
    ensures { IfOk result (λ made. whole made ≡ specs.with_values first features.now uses.now (whole program)) }
{
    let Program {
        names,
        start,
        declared,
        body,
        end,
    } = program;
    let mut list = declarator_copies(alloc, declared.items())?;
    add_declarators(alloc, &mut list, first, features, uses)?;
    Ok(Program {
        names,
        start,
        declared: Declarations::from_vec(list),
        body,
        end,
    })
}

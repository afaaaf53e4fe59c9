//! The names of code that are those of features.
#![tactic(auto)]

ghost use Rattle.std.specs.Prelude.{◌≡◌, ◌≤ℤ◌, ◌≤◌, ◌<◌, ◌^◌, unsigned_abs, ◌++◌, length, IfOk, OnOk, IfSome};
ghost use Rattle.fam_outer.specs.Limits.{most_value};
ghost use Rattle.cpp_conditions.specs.Expressions as named;
ghost use Rattle.feature_values.specs.Values as values;

use fam_outer::{NoMemory, Text};
use linear_atoms::Feature;
use linear_atoms::slices::cut;
use std::alloc::Global;

/// A feature that code uses as a value: its number in the model, and the number of its name among the names of code.
#[derive(Clone, Copy, Debug, PartialEq, Eq)]
pub struct Use {
    pub feature: u32,
    pub name: u32,
}

/// The number of the first feature with a name.
fn found(features: &[Feature], name: &[u8]) -> Option<u32>
    requires { length features.now < 2 ^ 32 }
    ensures place { result ≡ named.found name.now features.now }
    ensures bound { IfSome result (λ number. number < length features.now) }
{
    let (feature, behind) = cut(features)?;
    if feature.name.bytes() == name {
        return Some(0);
    }
    let number = found(behind, name)?;
    Some(number + 1)
}

/// Adds the use of the name with this number, where a feature has it.
fn add_use(made: &mut Vec<Use>, feature: Option<u32>, name: u32) -> Result<(), NoMemory>
    ensures { OnOk result (made.new.items ≡ made.old.items ++ values.use_at feature name) }
{
    match feature {
        None => Ok(()),
        Some(feature) => {
            made.push(Use { feature, name })?;
            Ok(())
        }
    }
}

/// The names that are those of features, in their order, each with its number and that of the first feature of that name.
/// It answers an error only for want of memory.
pub fn uses(alloc: Global, features: &[Feature], names: &[Text]) -> Result<Vec<Use>, NoMemory>
    requires features { length features.now < 2 ^ 32 }
    requires names { length names.now < 2 ^ 32 }
    ensures { IfOk result (λ made. made.items ≡ values.uses_of features.now names.now) }
{
    let mut made = Vec::new(alloc);
    let mut number: u32 = 0;
    let mut rest = names;
    'names: while let Some((name, behind)) = cut(rest) {
        add_use(&mut made, found(features, name.bytes()), number)?;
        number += 1;
        rest = behind;
    }
    Ok(made)
}

/// How many tests tell the value of a feature whose range is not empty: its high less its low.
pub fn width(feature: &Feature) -> u32
    requires range { feature.now.low ≤ℤ feature.now.high }
    requires low { unsigned_abs feature.now.low ≤ most_value }
    requires high { unsigned_abs feature.now.high ≤ most_value }
    ensures exact { result ≡ values.width feature.now }
    ensures bound { result ≤ 2097152 }
{
    (feature.high - feature.low) as u32
}

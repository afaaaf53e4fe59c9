//! What words have set.
#![tactic(auto)]

ghost use Rattle.std.specs.Prelude.{◌≡◌, ◌+◌, ◌≤◌, ◌<◌, length, option_map, IfSome, OnOk};
ghost use Rattle.cpp_conditions.specs.Naming.{AreFeatures};
ghost use Rattle.linear_atoms.specs.Atoms.{AreRanges};
ghost use Rattle.feature_model.specs.Settings as settings;

use crate::faults::ConfigFault;
use crate::values::{fits, value_of};
use linear_atoms::Feature;
use linear_atoms::slices::cut;

/// The number, counted from this one, and the feature with the name.
fn named<'a>(name: &[u8], number: usize, features: &'a [Feature]) -> Option<(usize, &'a Feature)>
    requires few { number + length features.now ≤ 32 }
    requires ranges { AreRanges features.now }
    ensures value { option_map (λ x. (x.0, x.1.now)) result ≡ settings.named name.now number features.now }
    ensures within { IfSome result (λ x. x.0 < number + length features.now) }
    ensures small { IfSome result (λ x. settings.IsSmallRange x.1.now) }
{
    let (first, behind) = cut(features)?;
    if first.name.bytes() == name {
        Some((number, first))
    } else {
        named(name, number + 1, behind)
    }
}

/// The name before the first `=` of a word, and the value after it, if there is one.
fn parts(word: &str) -> (&str, Option<&str>)
    ensures { (result.0.now, option_map (λ t. t.now) result.1) ≡ settings.parts word.now }
{
    match word.split_once('=') {
        Some((name, value)) => (name, Some(value)),
        None => (word, None),
    }
}

/// Sets a feature by its name, once, to a value in its range. The number is that of the word.
fn set(
    features: &[Feature],
    slots: &mut [Option<i64>],
    number: u32,
    name: &[u8],
    value: Option<i64>,
) -> Result<(), ConfigFault>
    requires features { AreFeatures features.now }
    requires slots { length slots.old ≡ length features.now }
    ensures sets { settings.Sets slots.new result
        (settings.set_at number slots.old value (settings.named name.now 0 features.now)) }
    ensures length { length slots.new ≡ length slots.old }
    ensures count { OnOk result (settings.count slots.new ≡ settings.count slots.old + 1) }
    ensures small { settings.AreSmall slots.old → settings.AreSmall slots.new }
{
    let Some((place, feature)) = named(name, 0, features) else {
        return Err(ConfigFault::UnknownName(number));
    };
    if slots[place].is_some() {
        return Err(ConfigFault::Twice(number));
    }
    if !fits(feature, value) {
        return Err(ConfigFault::OutOfRange(number));
    }
    slots[place] = value;
    Ok(())
}

/// Sets what a word says; the number is that of the word.
pub(crate) fn step(
    features: &[Feature],
    slots: &mut [Option<i64>],
    number: u32,
    word: &str,
) -> Result<(), ConfigFault>
    requires features { AreFeatures features.now }
    requires slots { length slots.old ≡ length features.now }
    ensures sets { settings.Sets slots.new result (settings.step features.now number slots.old word.now) }
    ensures length { length slots.new ≡ length slots.old }
    ensures count { OnOk result (settings.count slots.new ≡ settings.count slots.old + 1) }
    ensures small { settings.AreSmall slots.old → settings.AreSmall slots.new }
{
    let (name, value) = parts(word);
    let value = value_of(value);
    set(features, slots, number, name.as_bytes(), value)
}

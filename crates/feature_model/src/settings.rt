//! Configurations read from settings.
#![tactic(auto)]

ghost use Rattle.std.specs.Prelude.{◌≡◌, ◌+◌, ◌≤◌, [], ◌∷◌, map, length, string_bytes, IfOk, MatchOption};
ghost use Rattle.std.specs.declared.alloc.Global.{Global};
ghost use Rattle.linear_atoms.specs.Atoms.{AreValues};
ghost use Rattle.cpp_conditions.specs.Naming.{AreFeatures};
ghost use Rattle.cpp_conditions.specs.Validity.{plain, IsValid, IsConfig, AreFit};
ghost use Rattle.feature_model.specs.Settings as given;

use crate::faults::{ConfigFault, ConfigRefusal};
use crate::slots::step;
use cpp_conditions::{Model, is_valid};
use fam_outer::{NoMemory, Values};
use linear_atoms::slices::cut;
use linear_atoms::{Config, Feature};
use std::alloc::Global;

/// No feature is set.
fn unset(alloc: Global, features: &[Feature]) -> Result<Vec<Option<i64>>, NoMemory>
    ensures { IfOk result (λ v. v.items ≡ given.unset features.now) }
{
    let mut slots = Vec::new(alloc);
    for _feature in features {
        slots.push(None)?;
    }
    Ok(slots)
}

/// What the words set, one after another.
fn all_set(
    alloc: Global,
    features: &[Feature],
    words: &[String],
) -> Result<Vec<Option<i64>>, ConfigRefusal>
    requires { AreFeatures features.now }
    ensures sets { given.Gives (λ v. v.items) result
        (given.steps features.now 1 (given.unset features.now) (map string_bytes words.now)) }
    ensures length { IfOk result (λ v. length v.items ≡ length features.now) }
    ensures small { IfOk result (λ v. given.AreSmall v.items) }
{
    let mut slots = unset(alloc, features)?;
    let mut number: u32 = 1;
    for word in words {
        match step(features, &mut slots, number, word.as_str()) {
            Ok(()) => number += 1,
            Err(fault) => return Err(ConfigRefusal::Fault(fault)),
        }
    }
    Ok(slots)
}

/// The first slot and those behind it.
fn cut_slots(slots: &[Option<i64>]) -> Option<(Option<i64>, &[Option<i64>])>
    ensures { MatchOption result (slots.now ≡ []) (λ x. slots.now ≡ x.0 ∷ x.1.now) }
{
    match slots {
        [] => None,
        [first, behind @ ..] => Some((*first, behind)),
    }
}

/// What a feature is set to; a Boolean one that is not set is off. The number is that of the feature.
fn value_by(number: u32, feature: &Feature, slot: Option<i64>) -> Result<i64, ConfigFault>
    ensures { result ≡ given.value_by number feature.now slot }
{
    match slot {
        Some(value) => Ok(value),
        None => {
            if feature.boolean {
                Ok(0)
            } else {
                Err(ConfigFault::Missing(number))
            }
        }
    }
}

/// Puts the values of the features, of which the first has this number, behind others.
fn settle(
    features: &[Feature],
    slots: &[Option<i64>],
    number: u32,
    values: &mut Vec<i64>,
) -> Result<(), ConfigRefusal>
    requires few { number + length features.now ≤ 64 }
    requires small { given.AreSmall slots.now }
    ensures adds { given.Adds values.old.items values.new.items result
        (given.settled number features.now slots.now) }
    ensures small { AreValues values.old.items → AreValues values.new.items }
{
    let (Some((feature, features)), Some((slot, slots))) = (cut(features), cut_slots(slots)) else {
        return Ok(());
    };
    match value_by(number, feature, slot) {
        Ok(value) => values.push(value)?,
        Err(fault) => return Err(ConfigRefusal::Fault(fault)),
    }
    settle(features, slots, number + 1, values)
}

/// The values of the features.
fn settled(
    alloc: Global,
    features: &[Feature],
    slots: &[Option<i64>],
) -> Result<Vec<i64>, ConfigRefusal>
    requires few { length features.now ≤ 32 }
    requires small { given.AreSmall slots.now }
    ensures settled { given.Gives (λ v. v.items) result (given.settled 1 features.now slots.now) }
    ensures small { IfOk result (λ v. AreValues v.items) }
{
    let mut values = Vec::new(alloc);
    settle(features, slots, 1, &mut values)?;
    Ok(values)
}

/// The configuration, if it is valid.
fn checked(model: &Model, config: Config) -> Result<Config, ConfigRefusal>
    requires features { AreFeatures model.now.features }
    requires fit { AreFit (length model.now.features) model.now.constraints }
    requires values { AreValues config.values }
    ensures checked { given.Gives (λ c. c.values) result (given.checked model.now config.values) }
    ensures config { IfOk result (λ made. IsConfig model.now.features made.values) }
    ensures valid { IfOk result (λ made. IsValid (plain model.now) made.values) }
{
    if is_valid(model, &config) {
        Ok(config)
    } else {
        Err(ConfigRefusal::Fault(ConfigFault::NotValid))
    }
}

/// The configuration that the settings give.
///
/// A setting is a word `NAME=VALUE`, or `NAME`, which means the value 1. The name ends before the first `=`. The value
/// is `0`, or digits that do not begin with 0, perhaps behind `-`. A Boolean feature that no word names is off.
///
/// Its refusals: for the words in their order
/// - `UnknownName`, where no feature has the name, before
/// - `Twice`, where an earlier word names it, before
/// - `OutOfRange`, where the value is not spelled so, or not in the range of the feature;
///
/// and after all words
/// - `Missing`, at the first integer feature that no word names, before
/// - `NotValid`, where the configuration is not valid.
///
/// It answers `NoMemory` for want of memory. The features are those of a model, and the constraints name them.
pub fn read_config(
    alloc: Global,
    model: &Model,
    settings: &[String],
) -> Result<Config, ConfigRefusal>
    requires features { AreFeatures model.now.features }
    requires fit { AreFit (length model.now.features) model.now.constraints }
    ensures read { given.Gives (λ c. c.values) result
        (given.config_of model.now (map string_bytes settings.now)) }
    ensures valid { IfOk result (λ made. IsValid (plain model.now) made.values) }
    ensures config { IfOk result (λ made. IsConfig model.now.features made.values) }
{
    let slots = all_set(alloc, model.features.items(), settings)?;
    let values = settled(alloc, model.features.items(), &slots)?;
    checked(
        model,
        Config {
            values: Values::from_vec(values),
        },
    )
}

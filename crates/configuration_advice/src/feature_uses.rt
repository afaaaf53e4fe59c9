//! What a model leaves open of each feature.
#![tactic(auto)]

ghost use Rattle.std.specs.Prelude.{◌≡◌, ◌<◌, ℤ, List, true, false, Some, length, slice_get, IfOk};
ghost use Rattle.linear_atoms.specs.Atoms.{AreRanges};
ghost use Rattle.cpp_conditions.specs.Naming.{AreFeatures};
ghost use Rattle.cpp_conditions.specs.Validity.{plain, IsValid, AreFit, IsConfig};
ghost use Rattle.configuration_advice.specs.Uses.{IsUse, AreUses};

use crate::asking::{value_below, value_from, value_of};
use crate::ends::{End, end_value};
use atom_solver::Prepared;
use cpp_conditions::Model;
use fam_outer::NoMemory;
use linear_atoms::{Config, Feature, Span};
use std::alloc::Global;

/// What the valid configurations make of a feature. A switch is on where its value is at least 1.
#[derive(Clone, Copy, Debug, PartialEq, Eq)]
pub enum FeatureUse {
    /// A switch that is on in some of them and off in others.
    Free,
    /// A switch that is off in all of them.
    Dead,
    /// A switch that is on in all of them.
    Always,
    /// The least and the greatest value of a number feature.
    Span(i64, i64),
}

/// What the valid configurations make of a switch.
fn use_of_switch(
    alloc: Global,
    prepared: &Prepared,
    number: u32,
    feature: &Feature,
) -> Result<FeatureUse, NoMemory>
    requires number { number < length prepared.now.features }
    requires boolean { feature.now.boolean ≡ true }
    ensures { IfOk result (λ made. IsUse prepared.now number feature.now made) }
{
    match value_from(alloc, prepared, number, 1)? {
        None => Ok(FeatureUse::Dead),
        Some(_on) => match value_below(alloc, prepared, number, 1)? {
            None => Ok(FeatureUse::Always),
            Some(_off) => Ok(FeatureUse::Free),
        },
    }
}

/// What the valid configurations, of which one is given, make of a number feature.
#[tactic(auto, using(crate::proofs::Ranged::least_in, crate::proofs::Ranged::greatest_in))]
fn use_of_number(
    alloc: Global,
    prepared: &Prepared,
    first: &Config,
    number: u32,
    feature: &Feature,
) -> Result<FeatureUse, NoMemory>
    requires ranges { AreRanges prepared.now.features }
    requires valid { IsValid (plain prepared.now) first.now.values }
    requires config { IsConfig prepared.now.features first.now.values }
    requires feature { slice_get prepared.now.features number ≡ Some feature.now }
    requires boolean { feature.now.boolean ≡ false }
    ensures { IfOk result (λ made. IsUse prepared.now number feature.now made) }
{
    let value = value_of(first, number);
    let to_value = Span {
        low: feature.low,
        high: value,
    };
    let from_value = Span {
        low: value,
        high: feature.high,
    };
    let low = end_value(alloc, prepared, number, End::Least, to_value)?;
    let high = end_value(alloc, prepared, number, End::Greatest, from_value)?;
    Ok(FeatureUse::Span(low, high))
}

/// What the valid configurations, of which one is given, make of a feature.
fn use_of(
    alloc: Global,
    prepared: &Prepared,
    first: &Config,
    number: u32,
    feature: &Feature,
) -> Result<FeatureUse, NoMemory>
    requires ranges { AreRanges prepared.now.features }
    requires valid { IsValid (plain prepared.now) first.now.values }
    requires config { IsConfig prepared.now.features first.now.values }
    requires feature { slice_get prepared.now.features number ≡ Some feature.now }
    ensures { IfOk result (λ made. IsUse prepared.now number feature.now made) }
{
    if feature.boolean {
        use_of_switch(alloc, prepared, number, feature)
    } else {
        use_of_number(alloc, prepared, first, number, feature)
    }
}

/// What the valid configurations, of which one is given, make of each feature.
fn uses_over(
    alloc: Global,
    prepared: &Prepared,
    first: &Config,
    features: &[Feature],
) -> Result<Vec<FeatureUse>, NoMemory>
    requires same { features.now ≡ prepared.now.features }
    requires features { AreFeatures prepared.now.features }
    requires valid { IsValid (plain prepared.now) first.now.values }
    requires config { IsConfig prepared.now.features first.now.values }
    ensures { IfOk result (λ made. AreUses prepared.now features.now made.items) }
{
    let mut uses = Vec::new(alloc);
    'features: for feature in features {
        let number = uses.len() as u32;
        uses.push(use_of(alloc, prepared, first, number, feature)?)?;
    }
    Ok(uses)
}

/// What the valid configurations make of each feature, one answer per feature in their order. A switch is `Free` where
/// some of them have it on and others off, `Dead` where none has it on, and `Always` where all have it on. A number
/// feature has the `Span` of the least and the greatest value that some of them gives it. The only refusal is want of
/// memory.
///
/// Some configuration is valid. There are at most 32 features, whose ranges are not empty and have ends of at most 2^20 in size,
/// and the atoms of the constraints are well formed over them.
pub fn uses(alloc: Global, model: &Model) -> Result<Vec<FeatureUse>, NoMemory>
    requires constraints { AreFit (length model.now.features) model.now.constraints }
    requires features { AreFeatures model.now.features }
    requires valid { (values : List ℤ) × IsValid (plain model.now) values }
    ensures { IfOk result (λ made. AreUses model.now model.now.features made.items) }
{
    let prepared = Prepared::new(alloc, model)?;
    match prepared.least(alloc, &[])? {
        None => Ok(Vec::new(alloc)),
        Some(first) => uses_over(alloc, &prepared, &first, model.features.items()),
    }
}

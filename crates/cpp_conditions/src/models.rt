//! Feature models: features with their ranges, and constraints.
#![tactic(auto)]

ghost use Rattle.std.specs.Prelude.{◌≡◌, length, map, true};
ghost use Rattle.linear_atoms.specs.Atoms.{AreValues};
ghost use Rattle.cpp_conditions.specs.View.{proposition};
ghost use Rattle.cpp_conditions.specs.Validity.{plain, is_in_range, is_within, all_true, is_valid, AreFit};

use crate::conditions::Condition;
use linear_atoms::slices::cut;
use linear_atoms::{Config, Feature};
use std::marker;

/// The features of a model, in its order.
#[derive(Debug, Drop)]
pub struct Features {
    list: Vec<Feature>,
}

impl marker::Model for Features {
    ghost use Rattle.std.specs.Prelude.{List};
    ghost use Rattle.linear_atoms.specs.declared.atoms.Feature.{Feature};

    ghost Value = { List Feature };

    ghost view = { λ features. features.list.items };
}

impl Features {
    /// These features.
    pub fn from_vec(list: Vec<Feature>) -> Features
        ensures { result ≡ list.items }
    {
        Features { list }
    }

    /// The features.
    pub fn items(&self) -> &[Feature]
        ensures { result.now ≡ self.now }
    {
        self.list.as_slice()
    }
}

/// The constraints of a model, in its order.
#[derive(Debug, Drop)]
pub struct Conditions {
    list: Vec<Condition>,
}

impl marker::Model for Conditions {
    ghost use Rattle.std.specs.Prelude.{List};
    ghost use Rattle.cpp_conditions.specs.declared.conditions.Condition.{Condition};
    ghost use Rattle.cpp_conditions.specs.contracts.conditions.Condition as of_condition;
    ghost use Rattle.std.specs.Coded.{codes};

    ghost Value = { List Condition };

    ghost coded = { Prim.hlevel (codes, of_condition.the_row.coded) };

    ghost view = { λ conditions. conditions.list.items };
}

impl Conditions {
    /// These conditions.
    pub fn from_vec(list: Vec<Condition>) -> Conditions
        ensures { result ≡ list.items }
    {
        Conditions { list }
    }

    /// The conditions.
    pub fn items(&self) -> &[Condition]
        ensures { result.now ≡ self.now }
    {
        self.list.as_slice()
    }
}

/// A feature model: features, and constraints over them.
#[derive(Debug, Drop)]
pub struct Model {
    pub features: Features,
    pub constraints: Conditions,
}

/// Whether a value is in the range of its feature.
fn is_in_range(feature: &Feature, value: &i64) -> bool
    ensures { result ≡ is_in_range feature.now value.now }
{
    feature.low <= *value && *value <= feature.high
}

/// Whether there is one value per feature, in its range.
fn is_within(features: &[Feature], values: &[i64]) -> bool
    ensures value { result ≡ is_within features.now values.now }
    ensures length { result ≡ true → length values.now ≡ length features.now }
{
    match (cut(features), cut(values)) {
        (None, None) => true,
        (Some((feature, features)), Some((value, values))) => {
            is_in_range(feature, value) && is_within(features, values)
        }
        _ => false,
    }
}

/// Whether each condition is true at a configuration, which has each feature that they name.
pub fn all_true(conditions: &[Condition], config: &Config) -> bool
    requires fit { AreFit (length config.now.values) conditions.now }
    requires values { AreValues config.now.values }
    ensures { result ≡ all_true config.now.values (map proposition conditions.now) }
{
    match cut(conditions) {
        None => true,
        Some((condition, behind)) => condition.at(config) && all_true(behind, config),
    }
}

/// Whether a configuration is valid: it has one value per feature, each in its range, and every constraint is true.
pub fn is_valid(model: &Model, config: &Config) -> bool
    requires fit { AreFit (length model.now.features) model.now.constraints }
    requires values { AreValues config.now.values }
    ensures { result ≡ is_valid (plain model.now) config.now.values }
{
    is_within(model.features.items(), config.values.items())
        && all_true(model.constraints.items(), config)
}

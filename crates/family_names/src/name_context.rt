//! What the names of a file are judged by.
#![tactic(auto)]

ghost use Rattle.std.specs.Prelude.{◌≡◌};
ghost use Rattle.std.specs.List.{list_any};
ghost use Rattle.std.specs.Str.{bytes_eq};
ghost use Rattle.family_names.specs.Names.{is_feature, is_feature_function, is_integer, is_value, feature_in, feature_of, width_or_none};
ghost use Rattle.family_names.specs.NameContexts.{plain};

use atom_solver::Prepared;
use cpp_conditions::Formula;
use fam_outer::Text;
use linear_atoms::{Atom, Feature};

/// What the names of a file are judged by: a model, prepared for the questions about them all, the atoms and the conditions of
/// the file's groups, the list of its names, and that of the words of its functions.
#[derive(Clone, Copy)]
pub struct NameContext<'a> {
    pub model: &'a Prepared<'a>,
    pub atoms: &'a [Atom],
    pub conditions: &'a [Formula],
    pub names: &'a [Text],
    pub functions: &'a [Text],
}

/// Whether a feature has this name.
fn has_feature(features: &[Feature], name: &Text) -> bool
    ensures { result ≡ list_any (λ f. bytes_eq f.name name.now) features.now }
{
    for feature in features {
        if feature.name == *name {
            return true;
        }
    }
    false
}

/// Whether the feature with this name is an integer feature; false where there is none.
fn is_integer(features: &[Feature], name: &Text) -> bool
    ensures { result ≡ is_integer (feature_in features.now name.now) }
{
    for feature in features {
        if feature.name == *name {
            return !feature.boolean;
        }
    }
    false
}

/// How many tests tell the value of the feature with this name; 0 where there is none.
fn width(features: &[Feature], name: &Text) -> u64
    ensures { result ≡ width_or_none (feature_in features.now name.now) }
{
    for feature in features {
        if feature.name == *name {
            return feature.high.abs_diff(feature.low);
        }
    }
    0
}

impl NameContext<'_> {
    /// Whether the name with this number is a feature's.
    pub(crate) fn is_feature(&self, name: u32) -> bool
        ensures { result ≡ is_feature (plain self.now) name }
    {
        match self.names.get(name as usize) {
            None => false,
            Some(text) => has_feature(self.model.model().features.items(), text),
        }
    }

    /// Whether the word of the function with this number is a feature's name.
    pub(crate) fn is_feature_function(&self, function: u32) -> bool
        ensures { result ≡ is_feature_function (plain self.now) function }
    {
        match self.functions.get(function as usize) {
            None => false,
            Some(text) => has_feature(self.model.model().features.items(), text),
        }
    }

    /// Whether the name with this number is an integer feature's, which code may use as a value.
    pub(crate) fn is_value(&self, name: u32) -> bool
        ensures { result ≡ is_value (plain self.now) name }
    {
        match self.names.get(name as usize) {
            None => false,
            Some(text) => is_integer(self.model.model().features.items(), text),
        }
    }

    /// How many tests tell the value of the feature whose name has this number; 0 where it is no feature's.
    pub(crate) fn width(&self, name: u32) -> u64
        ensures { result ≡ width_or_none (feature_of (plain self.now) name) }
    {
        match self.names.get(name as usize) {
            None => 0,
            Some(text) => width(self.model.model().features.items(), text),
        }
    }
}

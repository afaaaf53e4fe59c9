//! The features of a model, found by their names.
#![tactic(auto)]

ghost use Rattle.std.specs.Prelude.{◌≡◌, ◌+◌, ◌<◌, ◌^◌, length, IfOk};
ghost use Rattle.linear_atoms.specs.Atoms.{AreRanges};
ghost use Rattle.linear_atoms.specs.Texts.{boolean_at};
ghost use Rattle.cpp_conditions.specs.Expressions.{found};
ghost use Rattle.cpp_conditions.specs.Meaning.{is_boolean};
ghost use Rattle.cpp_conditions.specs.Naming.{Finds, AreFeatures};

use fam_outer::NoMemory;
use indexmap::IndexMap;
use linear_atoms::Feature;
use linear_atoms::slices::cut;
use std::alloc::Global;
use std::marker;

/// Features, and their numbers by name.
#[derive(Drop)]
pub(crate) struct Names<'a> {
    features: &'a [Feature],
    numbers: IndexMap<&'a [u8], u32>,
}

impl<'a> marker::Model for Names<'a> {
    ghost use Rattle.std.specs.Prelude.{List};
    ghost use Rattle.linear_atoms.specs.declared.atoms.Feature.{Feature};
    ghost use Rattle.cpp_conditions.specs.Naming.{Finds, AreFeatures};

    ghost Value = { List Feature };

    ghost view = { λ names. names.features.now };

    ghost invariant = { λ names. Finds names.numbers.entries 0 names.features.now × AreFeatures names.features.now };
}

/// The numbers of features by their names, counted from the first. Of features with one name, it is the first.
fn numbered(
    alloc: Global,
    features: &[Feature],
    first: u32,
) -> Result<IndexMap<&[u8], u32>, NoMemory>
    requires { first + length features.now < 2 ^ 32 }
    ensures { IfOk result (λ map. Finds map.entries first features.now) }
{
    match cut(features) {
        None => Ok(IndexMap::new(alloc)),
        Some((feature, behind)) => {
            let mut numbers = numbered(alloc, behind, first + 1)?;
            numbers.insert(feature.name.bytes(), first)?;
            Ok(numbers)
        }
    }
}

impl<'a> Names<'a> {
    /// These features.
    pub(crate) fn of(alloc: Global, features: &'a [Feature]) -> Result<Names<'a>, NoMemory>
        requires { AreFeatures features.now }
        ensures { IfOk result (λ names. names ≡ features.now) }
    {
        let numbers = numbered(alloc, features, 0)?;
        Ok(Names { features, numbers })
    }

    /// The features.
    pub(crate) fn features(&self) -> &[Feature]
        ensures same { result.now ≡ self.now }
        ensures ranges { AreRanges self.now }
    {
        self.features
    }

    /// The number of the feature with this name.
    pub(crate) fn number(&self, name: &[u8]) -> Option<u32>
        ensures { result ≡ found name.now self.now }
    {
        self.numbers.get(name).copied()
    }

    /// Whether the feature of this number is Boolean.
    pub(crate) fn is_boolean(&self, number: u32) -> bool
        ensures { result ≡ boolean_at self.now number }
    {
        match self.features.get(number as usize) {
            Some(feature) => feature.boolean,
            None => false,
        }
    }
}

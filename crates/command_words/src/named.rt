//! The options, and the values that are given to them.
#![tactic(auto)]

ghost use Rattle.std.specs.Prelude.{◌≡◌};
ghost use Rattle.command_words.specs.Sorting.{name_by, is_given, with_value};
ghost use Rattle.command_words.specs.Arguments.{given_of};

use crate::settings::Given;
use crate::word::Word;

/// The options.
#[derive(Clone, Copy, Debug, PartialEq, Eq)]
pub enum OptionName {
    Domain,
    Delay,
    Narrow,
    Widening,
    Overflow,
    Regions,
    Unknown,
    Includes,
    Steps,
    Inputs,
}

impl OptionName {
    /// The option with the name.
    pub fn of(name: &str) -> Option<OptionName>
        ensures { result ≡ name_by name.now }
    {
        match name {
            "domain" => Some(OptionName::Domain),
            "delay" => Some(OptionName::Delay),
            "narrow" => Some(OptionName::Narrow),
            "widening" => Some(OptionName::Widening),
            "overflow" => Some(OptionName::Overflow),
            "regions" => Some(OptionName::Regions),
            "unknown" => Some(OptionName::Unknown),
            "includes" => Some(OptionName::Includes),
            "steps" => Some(OptionName::Steps),
            "inputs" => Some(OptionName::Inputs),
            _ => None,
        }
    }
}

/// The values of the options that are given, as they are spelled.
#[derive(Debug, Drop)]
pub struct OptionValues {
    pub domain: Option<Word>,
    pub delay: Option<Word>,
    pub narrow: Option<Word>,
    pub widening: Option<Word>,
    pub overflow: Option<Word>,
    pub regions: Option<Word>,
    pub unknown: Option<Word>,
    pub includes: Option<Word>,
    pub steps: Option<Word>,
    pub inputs: Option<Word>,
}

impl OptionValues {
    /// The option is given.
    pub fn has(&self, name: OptionName) -> bool
        ensures { result ≡ is_given self.now name }
    {
        match name {
            OptionName::Domain => self.domain.is_some(),
            OptionName::Delay => self.delay.is_some(),
            OptionName::Narrow => self.narrow.is_some(),
            OptionName::Widening => self.widening.is_some(),
            OptionName::Overflow => self.overflow.is_some(),
            OptionName::Regions => self.regions.is_some(),
            OptionName::Unknown => self.unknown.is_some(),
            OptionName::Includes => self.includes.is_some(),
            OptionName::Steps => self.steps.is_some(),
            OptionName::Inputs => self.inputs.is_some(),
        }
    }

    /// Gives the option its value.
    pub fn set(&mut self, name: OptionName, value: Word)
        ensures { self.new ≡ with_value self.old name value }
    {
        match name {
            OptionName::Domain => self.domain = Some(value),
            OptionName::Delay => self.delay = Some(value),
            OptionName::Narrow => self.narrow = Some(value),
            OptionName::Widening => self.widening = Some(value),
            OptionName::Overflow => self.overflow = Some(value),
            OptionName::Regions => self.regions = Some(value),
            OptionName::Unknown => self.unknown = Some(value),
            OptionName::Includes => self.includes = Some(value),
            OptionName::Steps => self.steps = Some(value),
            OptionName::Inputs => self.inputs = Some(value),
        }
    }

    /// Which options are given.
    pub fn given(&self) -> Given
        ensures { result ≡ given_of self.now }
    {
        Given {
            domain: self.domain.is_some(),
            delay: self.delay.is_some(),
            narrow: self.narrow.is_some(),
            widening: self.widening.is_some(),
            overflow: self.overflow.is_some(),
            regions: self.regions.is_some(),
            unknown: self.unknown.is_some(),
            includes: self.includes.is_some(),
            steps: self.steps.is_some(),
            inputs: self.inputs.is_some(),
        }
    }
}

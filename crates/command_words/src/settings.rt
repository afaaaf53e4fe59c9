//! What the options set.
#![tactic(auto)]

ghost use Rattle.std.specs.Prelude.{◌≡◌, Some};
ghost use Rattle.command_words.specs.Spelling.{domain_by, includes_by, overflow_by, regions_by, unknown_by, widening_by};
ghost use Rattle.command_words.specs.Spelling.{domain_name, includes_name, overflow_name, regions_name, unknown_name, widening_name};

use c_tree::Mode;
use fam_outer::{Includes, Unknown, Values};
use linear_atoms::Regions;

/// The domain of an analysis.
#[derive(Clone, Copy, Debug, PartialEq, Eq)]
pub enum Domain {
    /// Bounds of each variable.
    Interval,
    /// Bounds of the variables, and of the sum and the difference of each two.
    Octagon,
    /// Bounds of each variable, with a stride.
    Stride,
    /// What octagons and bounds with a stride know together: each has the bounds of the other.
    Sharp,
}

impl Domain {
    /// The domain with the name.
    pub fn of(name: &str) -> Option<Domain>
        ensures { result ≡ domain_by name.now }
    {
        match name {
            "interval" => Some(Domain::Interval),
            "octagon" => Some(Domain::Octagon),
            "stride" => Some(Domain::Stride),
            "sharp" => Some(Domain::Sharp),
            _ => None,
        }
    }

    /// Its name.
    pub fn name(self) -> &'static str
        ensures name { result.now ≡ domain_name self }
        ensures back { domain_by result.now ≡ Some self }
    {
        match self {
            Domain::Interval => "interval",
            Domain::Octagon => "octagon",
            Domain::Stride => "stride",
            Domain::Sharp => "sharp",
        }
    }
}

/// What a loop's bound that grows becomes.
#[derive(Clone, Copy, Debug, PartialEq, Eq)]
pub enum Widening {
    /// The bound of the type.
    Type,
    /// The nearest threshold that covers it, of those that the file's numbers make, and the bound of the type where none does.
    Thresholds,
}

impl Widening {
    /// The widening with the name.
    pub fn of(name: &str) -> Option<Widening>
        ensures { result ≡ widening_by name.now }
    {
        match name {
            "type" => Some(Widening::Type),
            "thresholds" => Some(Widening::Thresholds),
            _ => None,
        }
    }

    /// Its name.
    pub fn name(self) -> &'static str
        ensures name { result.now ≡ widening_name self }
        ensures back { widening_by result.now ≡ Some self }
    {
        match self {
            Widening::Type => "type",
            Widening::Thresholds => "thresholds",
        }
    }
}

/// What comes of an operation whose value is not in `int`, by the name.
pub fn mode_of(name: &str) -> Option<Mode>
    ensures { result ≡ overflow_by name.now }
{
    match name {
        "stop" => Some(Mode::Stop),
        "wrap" => Some(Mode::Wrap),
        _ => None,
    }
}

/// The name of what comes of an operation whose value is not in `int`.
pub fn mode_name(mode: Mode) -> &'static str
    ensures name { result.now ≡ overflow_name mode }
    ensures back { overflow_by result.now ≡ Some mode }
{
    match mode {
        Mode::Stop => "stop",
        Mode::Wrap => "wrap",
    }
}

/// How the regions of a report are told, by the name.
pub fn regions_of(name: &str) -> Option<Regions>
    ensures { result ≡ regions_by name.now }
{
    match name {
        "paths" => Some(Regions::Paths),
        "merged" => Some(Regions::Merged),
        _ => None,
    }
}

/// The name of how the regions of a report are told.
pub fn regions_name(regions: Regions) -> &'static str
    ensures name { result.now ≡ regions_name regions }
    ensures back { regions_by result.now ≡ Some regions }
{
    match regions {
        Regions::Paths => "paths",
        Regions::Merged => "merged",
    }
}

/// What a name of a condition is that no model has, by the name.
pub fn unknown_of(name: &str) -> Option<Unknown>
    ensures { result ≡ unknown_by name.now }
{
    match name {
        "zero" => Some(Unknown::Zero),
        "refuse" => Some(Unknown::Refuse),
        _ => None,
    }
}

/// The name of what a name of a condition is that no model has.
pub fn unknown_name(unknown: Unknown) -> &'static str
    ensures name { result.now ≡ unknown_name unknown }
    ensures back { unknown_by result.now ≡ Some unknown }
{
    match unknown {
        Unknown::Zero => "zero",
        Unknown::Refuse => "refuse",
    }
}

/// Which includes a file may have, by the name.
pub fn includes_of(name: &str) -> Option<Includes>
    ensures { result ≡ includes_by name.now }
{
    match name {
        "assert" => Some(Includes::Assert),
        "skip" => Some(Includes::Skip),
        _ => None,
    }
}

/// The name of which includes a file may have.
pub fn includes_name(includes: Includes) -> &'static str
    ensures name { result.now ≡ includes_name includes }
    ensures back { includes_by result.now ≡ Some includes }
{
    match includes {
        Includes::Assert => "assert",
        Includes::Skip => "skip",
    }
}

/// What the options other than `--inputs` set.
#[derive(Clone, Copy, Debug, PartialEq, Eq)]
pub struct Chosen {
    pub domain: Domain,
    pub delay: u32,
    pub narrow: u32,
    pub widening: Widening,
    pub overflow: Mode,
    pub regions: Regions,
    pub unknown: Unknown,
    pub includes: Includes,
    pub steps: u64,
}

/// What each option sets, and its default where it is not given.
#[derive(Debug, Drop)]
pub struct OptionSettings {
    pub chosen: Chosen,
    pub inputs: Values,
}

/// Which options are given.
#[derive(Clone, Copy, Debug, PartialEq, Eq)]
pub struct Given {
    pub domain: bool,
    pub delay: bool,
    pub narrow: bool,
    pub widening: bool,
    pub overflow: bool,
    pub regions: bool,
    pub unknown: bool,
    pub includes: bool,
    pub steps: bool,
    pub inputs: bool,
}

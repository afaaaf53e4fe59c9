//! What the words ask for, by the shape of the command: which paths are loaded, and what is done with them.
#![tactic(auto)]

mod guide;
mod options;
mod page_options;
mod reading;

ghost use Rattle.std.specs.Option.{option_copied};
ghost use Rattle.std.specs.Prelude.{◌≡◌, IfOk, map, string_bytes};
ghost use Rattle.famlint_requests.specs.Requests.{role_of, role_beside, role_of_three, is_path};

use c_tree::Mode;
use command_words::{Domain, Widening, Word};
use fam_outer::{Dialect, Includes, NoMemory, Text, Unknown, Values};
pub use guide::Guide;
use linear_atoms::Regions;
pub use options::Command;
pub use page_options::made_by;
pub use reading::read_request;
use std::alloc::Global;
use std::marker::Model;

/// What the words ask for.
#[derive(Debug, Drop)]
pub enum Request {
    /// The report on the program of FILE.
    Plain {
        file: Word,
        includes: Includes,
        analysis: Analysis,
    },
    /// Something of the variant of FILE that the settings select among those of MODEL.
    Variant {
        model: Word,
        file: Word,
        dialect: Dialect,
        settings: SettingWords,
        task: VariantTask,
    },
    /// Something of all variants of FILE at once, of those that MODEL allows.
    Family {
        model: Word,
        file: Word,
        dialect: Dialect,
        analysis: Analysis,
        regions: Regions,
        task: FamilyTask,
    },
    /// The report on all variants beside MODEL and FILE, as one page.
    Page {
        model: Word,
        file: Word,
        dialect: Dialect,
        analysis: Analysis,
        regions: Regions,
    },
    /// The alarms of the family of so many blocks that is made for measures, and its size.
    Generate {
        number: u32,
        analysis: Analysis,
        regions: Regions,
    },
    /// Whether CERTIFICATE holds of all variants of FILE, of those that MODEL allows.
    Check {
        model: Word,
        file: Word,
        certificate: Word,
        dialect: Dialect,
    },
    /// The nearest configuration of MODEL to the one that the settings give at which FILE has no alarms.
    Advice {
        model: Word,
        file: Word,
        dialect: Dialect,
        settings: SettingWords,
        analysis: Analysis,
    },
    /// What MODEL leaves open of each feature.
    Features {
        model: Word,
        unknown: Unknown,
    },
    /// A text about the program.
    Guide(Guide),
}

/// How programs are analysed.
#[derive(Clone, Copy, Debug, PartialEq, Eq)]
pub struct Analysis {
    pub domain: Domain,
    /// The rounds of a loop that join before those that widen.
    pub delay: u32,
    /// The rounds of narrowing that follow.
    pub narrow: u32,
    pub widening: Widening,
    pub mode: Mode,
}

/// What is asked of a variant, by the name of the command.
#[derive(Debug, Drop)]
pub enum VariantTask {
    /// Its text.
    Project,
    /// The report on its program.
    Variant(Analysis),
    /// How a run of its program stands after at most so many steps.
    Run {
        steps: u64,
        inputs: Values,
        mode: Mode,
    },
}

/// What is asked of all variants of a family, by the name of the command.
#[derive(Clone, Copy, Debug, PartialEq, Eq)]
pub enum FamilyTask {
    /// The alarms, with the configurations that have them.
    Analyse,
    /// The leaves at all places, with the configurations that have them, and then the alarms.
    Invariants,
    /// The certificate: the invariants of the loops, and the alarms.
    Certify,
    /// How many bytes and places there are, and then the alarms.
    Generate,
}

/// The words of settings, each `NAME=VALUE` or `NAME`.
#[derive(Debug, Drop)]
pub struct SettingWords {
    list: Vec<String>,
}

impl Model for SettingWords {
    ghost use Rattle.std.specs.Prelude.{List, ℕ, map, string_bytes};

    ghost Value = { List (List ℕ) };

    ghost view = { λ words. map string_bytes words.list.items };
}

impl SettingWords {
    /// Copies of these words.
    pub fn from_words(alloc: Global, words: &[Word]) -> Result<SettingWords, NoMemory>
        ensures { IfOk result (λ made. made ≡ words.now) }
    {
        let mut list = Vec::new(alloc);
        for word in words {
            list.push(String::from_str(alloc, word.as_str())?)?;
        }
        Ok(SettingWords { list })
    }

    /// The words.
    pub fn items(&self) -> &[String]
        ensures { map string_bytes result.now ≡ self.now }
    {
        self.list.as_slice()
    }
}

/// What a path is to a request.
#[derive(Clone, Copy, Debug, PartialEq, Eq)]
pub enum Role {
    Model,
    File,
    Certificate,
}

/// Whether the failed path is this one.
fn is_path(failed: Option<&Text>, path: &Word) -> bool
    ensures { result ≡ is_path (option_copied failed.entry) path.now }
{
    match failed {
        None => false,
        Some(text) => text.bytes() == path.as_str().as_bytes(),
    }
}

/// What the path of a failed load is, where one of the two is MODEL.
fn role_beside(failed: Option<&Text>, model: &Word) -> Role
    ensures { result ≡ role_beside (option_copied failed.entry) model.now }
{
    if is_path(failed, model) {
        Role::Model
    } else {
        Role::File
    }
}

/// What the path of a failed load is, where these are MODEL, FILE and CERTIFICATE.
fn role_of_three(failed: Option<&Text>, model: &Word, file: &Word, certificate: &Word) -> Role
    ensures { result ≡ role_of_three (option_copied failed.entry) model.now file.now certificate.now }
{
    if is_path(failed, model) {
        Role::Model
    } else if is_path(failed, file) {
        Role::File
    } else if is_path(failed, certificate) {
        Role::Certificate
    } else {
        Role::File
    }
}

impl Request {
    /// What the path of a failed load is to the request.
    pub fn role(&self, failed: Option<&Text>) -> Role
        ensures { result ≡ role_of self.now (option_copied failed.entry) }
    {
        match self {
            Request::Plain { .. } | Request::Generate { .. } | Request::Guide(_) => Role::File,
            Request::Features { .. } => Role::Model,
            Request::Variant { model, .. }
            | Request::Family { model, .. }
            | Request::Page { model, .. }
            | Request::Advice { model, .. } => role_beside(failed, model),
            Request::Check {
                model,
                file,
                certificate,
                ..
            } => role_of_three(failed, model, file, certificate),
        }
    }
}

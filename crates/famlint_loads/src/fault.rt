//! Faults of what was loaded, and why the work stops.
#![tactic(auto)]

mod lines;

ghost use Rattle.std.specs.Prelude.{◌≡◌, ◌≢◌, ◌≤◌, IfOk, Some};
ghost use Rattle.famlint_loads.specs.Faults.{status_of, line_of, fault_of_file, fault_of_settings, example_of, name_of};

use crate::fault::lines::{certificate_line, config_line, file_line, model_line};
use certificate_format::CertificateFault;
use fam_outer::{FileCode, NoMemory, Place, Text};
use feature_model::{ConfigFault, ModelFault};
use linear_atoms::{Feature, config_text};
use std::alloc::Global;

/// Why what was loaded, or what the settings say, is refused.
#[derive(Debug, Drop)]
pub enum Fault {
    Model(ModelFault),
    /// With the text of the configuration that shows the fault, if there is one.
    File {
        code: FileCode,
        place: Place,
        example: Option<Text>,
    },
    /// With the name of the feature that has no value, if that is the fault.
    Settings {
        fault: ConfigFault,
        name: Text,
    },
    Certificate(CertificateFault),
}

/// Why the work stops before its output.
#[derive(Debug, Drop)]
pub enum Failure {
    Refused(Fault),
    ReadFault,
    NoMemory,
}

impl From<NoMemory> for Failure {
    ghost use Rattle.std.specs.Prelude.{◌≡◌};
    ghost use Rattle.famlint_loads.specs.declared.fault.Failure.TheVariants as failure;

    ghost from_gives = { λ _ given. given ≡ failure.NoMemory };

    fn from(_error: NoMemory) -> Failure {
        Failure::NoMemory
    }
}

/// What a command came to: its whole output, and its status.
#[derive(Debug, Drop)]
pub struct Done {
    pub text: Text,
    pub status: u8,
}

/// The text of the configuration that shows the fault of a file.
fn example_of(
    alloc: Global,
    features: &[Feature],
    code: &FileCode,
) -> Result<Option<Text>, NoMemory>
    ensures { IfOk result (λ example. example ≡ example_of features.now code.now) }
{
    match code {
        FileCode::Undeclared(Some(values)) => {
            Ok(Some(config_text(alloc, features, values.items())?))
        }
        FileCode::Twice(Some(values)) => Ok(Some(config_text(alloc, features, values.items())?)),
        _ => Ok(None),
    }
}

/// The fault of a file, over the features of the model.
pub fn file_fault(
    alloc: Global,
    features: &[Feature],
    code: FileCode,
    place: Place,
) -> Result<Fault, NoMemory>
    ensures { IfOk result (λ fault. fault ≡ fault_of_file features.now code place) }
{
    let example = example_of(alloc, features, &code)?;
    Ok(Fault::File {
        code,
        place,
        example,
    })
}

/// The name of the feature that has no value, or nothing.
fn name_of<'a>(features: &'a [Feature], fault: ConfigFault) -> &'a [u8]
    ensures { result.now ≡ name_of features.now fault }
{
    match fault {
        ConfigFault::Missing(number) => match features.get((number as usize).saturating_sub(1)) {
            Some(feature) => feature.name.bytes(),
            None => b"",
        },
        _ => b"",
    }
}

/// The fault of settings, over the features of the model.
pub fn settings_fault(
    alloc: Global,
    features: &[Feature],
    fault: ConfigFault,
) -> Result<Fault, NoMemory>
    ensures { IfOk result (λ made. made ≡ fault_of_settings features.now fault) }
{
    let name = Text::from_bytes(alloc, name_of(features, fault))?;
    Ok(Fault::Settings { fault, name })
}

impl Fault {
    /// The status with which the fault ends the program.
    pub fn status(&self) -> u8
        ensures status { result ≡ status_of self.now }
        ensures low { 3 ≤ result }
        ensures high { result ≤ 9 }
        ensures no_load { result ≢ 6 }
        ensures no_write { result ≢ 7 }
        ensures no_memory { result ≢ 8 }
    {
        match self {
            Fault::Model(_) => 3,
            Fault::File {
                code: _,
                place: _,
                example: _,
            } => 4,
            Fault::Settings { fault: _, name: _ } => 5,
            Fault::Certificate(_) => 9,
        }
    }

    /// The line that tells the fault.
    pub fn line(&self, alloc: Global) -> Result<Text, NoMemory>
        ensures { IfOk result (λ line. line ≡ line_of self.now) }
    {
        match self {
            Fault::Model(fault) => model_line(alloc, *fault),
            Fault::File {
                code,
                place,
                example,
            } => file_line(alloc, code, *place, example.as_ref()),
            Fault::Settings { fault, name } => config_line(alloc, *fault, name.bytes()),
            Fault::Certificate(fault) => certificate_line(alloc, *fault),
        }
    }
}

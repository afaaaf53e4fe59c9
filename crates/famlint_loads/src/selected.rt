//! The variant of a family that settings select: the loads of a command with MODEL, FILE and settings.
#![tactic(auto)]

ghost use Rattle.std.specs.Prelude.{◌≡◌, [], ◌∷◌, map, string_bytes, IfOk, IsOk};
ghost use Rattle.fam_outer.specs.Loading.{AreGiven};
ghost use Rattle.cpp_conditions.specs.Validity.{plain, IsValid, IsConfig};
ghost use Rattle.famlint_loads.specs.Contents.{of_line};
ghost use Rattle.famlint_loads.specs.Loads.{Comes, IsReadFault, IsReadOf, IsUsable, model_source, file_source};
ghost use Rattle.famlint_loads.specs.ProductLines.{ComesOfLine, IsUsableLine};
ghost use Rattle.famlint_loads.specs.Selected.{IsSelected, IsSettled};

use crate::fault::{Failure, settings_fault};
use crate::product_line::{ProductLine, load_product_line};
use cpp_conditions::Model;
use fam_outer::{Dialect, Files};
use feature_model::{ConfigRefusal, read_config};
use linear_atoms::Config;
use std::alloc::Global;

/// A model and a family over it, and a valid configuration.
#[derive(Drop)]
pub struct Selected {
    pub line: ProductLine,
    pub config: Config,
}

/// The configuration that settings give.
fn settled(alloc: Global, model: &Model, settings: &[String]) -> Result<Config, Failure>
    requires { IsUsable model.now }
    ensures config { Comes (IsSettled model.now (map string_bytes settings.now)) result }
    ensures valid { IfOk result (λ made. IsValid (plain model.now) made.values) }
    ensures fit { IfOk result (λ made. IsConfig model.now.features made.values) }
    ensures read { IsReadFault result → ⊥ }
{
    match read_config(alloc, model, settings) {
        Ok(config) => Ok(config),
        Err(ConfigRefusal::NoMemory) => Err(Failure::NoMemory),
        Err(ConfigRefusal::Fault(fault)) => Err(Failure::Refused(settings_fault(
            alloc,
            model.features.items(),
            fault,
        )?)),
    }
}

/// Loads MODEL and then FILE, and reads the settings behind them.
pub fn select<F: Files>(
    alloc: Global,
    dialect: Dialect,
    model_path: &str,
    file_path: &str,
    settings: &[String],
    files: &mut F,
) -> Result<Selected, Failure>
    ensures given { AreGiven F.loads (F.content files.old) files.old files.new
        (model_source model_path.now ∷ file_source file_path.now ∷ []) of_line (IsOk result)
        (λ told. ComesOfLine (IsSelected dialect told.model told.file (map string_bytes settings.now)) dialect.unknown
        model_path.now file_path.now told.model (F.failed files.new) result) }
    ensures line { IfOk result (λ made. IsUsableLine made.line) }
    ensures valid { IfOk result (λ made. IsValid (plain made.line.model) made.config.values) }
    ensures config { IfOk result (λ made. IsConfig made.line.model.features made.config.values) }
    ensures kept { F.content files.new ≡ F.content files.old }
    ensures read { IsReadOf (model_path.now ∷ file_path.now ∷ []) (F.faults files.old) (F.faults files.new)
        (F.failed files.new) result }
{
    let line = load_product_line(alloc, dialect, model_path, file_path, files)?;
    let config = settled(alloc, &line.model, settings)?;
    Ok(Selected { line, config })
}

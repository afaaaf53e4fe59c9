//! A model and a family over it: the loads of each command with MODEL and FILE.
#![tactic(auto)]

ghost use Rattle.std.specs.Prelude.{◌≡◌, [], ◌∷◌, IfOk, IsOk};
ghost use Rattle.fam_outer.specs.Loading.{AreGiven};
ghost use Rattle.famlint_loads.specs.Contents.{of_line};
ghost use Rattle.famlint_loads.specs.Loads.{IsReadOf, model_source, file_source};
ghost use Rattle.famlint_loads.specs.ProductLines.{ComesOfLine, ReadsProductLine, ReadsProductLineFiles, IsUsableLine};

use crate::fault::Failure;
use crate::load::{FamilyFile, ModelFile, load_family, load_model_file};
use c_parser::Family;
use cpp_conditions::Model;
use fam_outer::{Dialect, Files, Text};
use std::alloc::Global;

/// A feature model, and a family over it with the bytes of its file; and how they were read.
#[derive(Drop)]
pub struct ProductLine {
    pub dialect: Dialect,
    pub model: Model,
    pub family: Family,
    pub text: Text,
}

/// A product line, and the bytes of both files: those of FILE stand in the line.
#[derive(Drop)]
pub struct ProductLineFiles {
    pub line: ProductLine,
    pub model_text: Text,
}

/// Loads MODEL and then FILE, and keeps the bytes of both.
pub fn load_product_line_files<F: Files>(
    alloc: Global,
    dialect: Dialect,
    model_path: &str,
    file_path: &str,
    files: &mut F,
) -> Result<ProductLineFiles, Failure>
    ensures given { AreGiven F.loads (F.content files.old) files.old files.new
        (model_source model_path.now ∷ file_source file_path.now ∷ []) of_line (IsOk result)
        (λ told. ComesOfLine (ReadsProductLineFiles dialect told.model told.file) dialect.unknown model_path.now file_path.now
        told.model (F.failed files.new) result) }
    ensures usable { IfOk result (λ made. IsUsableLine made.line) }
    ensures kept { F.content files.new ≡ F.content files.old }
    ensures read { IsReadOf (model_path.now ∷ file_path.now ∷ []) (F.faults files.old) (F.faults files.new)
        (F.failed files.new) result }
{
    let ModelFile {
        model,
        text: model_text,
    } = load_model_file(alloc, dialect.unknown, model_path, files)?;
    let FamilyFile { family, text } = load_family(alloc, dialect, &model, file_path, files)?;
    let line = ProductLine {
        dialect,
        model,
        family,
        text,
    };
    Ok(ProductLineFiles { line, model_text })
}

/// Loads MODEL and then FILE.
pub fn load_product_line<F: Files>(
    alloc: Global,
    dialect: Dialect,
    model_path: &str,
    file_path: &str,
    files: &mut F,
) -> Result<ProductLine, Failure>
    ensures given { AreGiven F.loads (F.content files.old) files.old files.new
        (model_source model_path.now ∷ file_source file_path.now ∷ []) of_line (IsOk result)
        (λ told. ComesOfLine (ReadsProductLine dialect told.model told.file) dialect.unknown model_path.now file_path.now
        told.model (F.failed files.new) result) }
    ensures usable { IfOk result (λ made. IsUsableLine made) }
    ensures kept { F.content files.new ≡ F.content files.old }
    ensures read { IsReadOf (model_path.now ∷ file_path.now ∷ []) (F.faults files.old) (F.faults files.new)
        (F.failed files.new) result }
{
    let ProductLineFiles {
        line,
        model_text: _model_text,
    } = load_product_line_files(alloc, dialect, model_path, file_path, files)?;
    Ok(line)
}

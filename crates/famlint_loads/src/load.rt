//! Loads, and the reading of what was loaded.
#![tactic(auto)]

ghost use Rattle.std.specs.Prelude.{◌≡◌, ℕ, List, [], ◌∷◌, Some, IfOk, IsOk, length};
ghost use Rattle.fam_outer.specs.Causes.{faults_loaded};
ghost use Rattle.fam_outer.specs.Loading.{AreGiven, IsLoaded, only};
ghost use Rattle.c_parser.specs.FamilyReading.{IsFamilyOf};
ghost use Rattle.famlint_loads.specs.Loads.{Comes, faults_read, IsReadOf, IsText, IsFileText, IsModel, IsModelFile, IsFamilyFile, IsUsable, IsUsableFamily, IsReadFault, long_file, text_source, model_source, file_source};

use crate::fault::{Failure, Fault, file_fault};
use c_parser::{Family, read_family};
use cpp_conditions::Model;
use fam_outer::{
    Dialect, FILE_BYTES, FileCode, FileRefusal, Files, Loaded, MODEL_BYTES, Place, Text, Unknown,
};
use feature_model::{ModelFault, ModelRefusal, read_model};
use std::alloc::Global;

/// The fault of a file that is too long.
fn long_file() -> Fault
    ensures { result ≡ long_file }
{
    Fault::File {
        code: FileCode::TooLong,
        place: Place { line: 1, column: 1 },
        example: None,
    }
}

/// What the answer of a load of at most so many bytes comes to; a longer text has the fault.
fn text_of(limit: u32, long: Fault, answer: Loaded) -> Result<Text, Failure>
    ensures text { (bytes : List ℕ) → IsLoaded (Some bytes) limit answer → Comes (IsText limit long bytes) result }
    ensures counted { (n : ℕ) → faults_read result n ≡ faults_loaded answer n }
    ensures failed { IsReadFault result → answer ≡ Loaded.Failed }
{
    match answer {
        Loaded::NoMemory => Err(Failure::NoMemory),
        Loaded::Failed => Err(Failure::ReadFault),
        Loaded::TooLong => Err(Failure::Refused(long)),
        Loaded::Whole(text) => Ok(text),
    }
}

/// The text of a path, of at most so many bytes; a longer one has the fault.
pub fn load_text<F: Files>(
    alloc: Global,
    path: &str,
    limit: u32,
    long: Fault,
    files: &mut F,
) -> Result<Text, Failure>
    ensures given { AreGiven F.loads (F.content files.old) files.old files.new (text_source path.now limit ∷ [])
        only (IsOk result) (λ bytes. Comes (IsText limit long bytes) result) }
    ensures kept { F.content files.new ≡ F.content files.old }
    ensures read { IsReadOf (path.now ∷ []) (F.faults files.old) (F.faults files.new)
        (F.failed files.new) result }
{
    let answer = files.load(alloc, path, limit);
    text_of(limit, long, answer)
}

/// The text of FILE, of at most 1,048,576 bytes; a longer one is refused as a whole, at 1:1.
pub fn load_file<F: Files>(alloc: Global, path: &str, files: &mut F) -> Result<Text, Failure>
    ensures given { AreGiven F.loads (F.content files.old) files.old files.new (file_source path.now ∷ [])
        only (IsOk result) (λ bytes. Comes (IsFileText bytes) result) }
    ensures kept { F.content files.new ≡ F.content files.old }
    ensures read { IsReadOf (path.now ∷ []) (F.faults files.old) (F.faults files.new)
        (F.failed files.new) result }
{
    load_text(alloc, path, FILE_BYTES as u32, long_file(), files)
}

/// A model, and the bytes of its file.
#[derive(Drop)]
pub struct ModelFile {
    pub model: Model,
    pub text: Text,
}

/// The model that bytes say.
fn model_of(alloc: Global, unknown: Unknown, text: Text) -> Result<ModelFile, Failure>
    ensures model { Comes (IsModelFile unknown text) result }
    ensures usable { IfOk result (λ made. IsUsable made.model) }
    ensures read { IsReadFault result → ⊥ }
{
    match read_model(alloc, unknown, text.bytes()) {
        Ok(model) => Ok(ModelFile { model, text }),
        Err(ModelRefusal::NoMemory) => Err(Failure::NoMemory),
        Err(ModelRefusal::Fault(fault)) => Err(Failure::Refused(Fault::Model(fault))),
    }
}

/// The model of MODEL, of at most 65,536 bytes, with these.
pub fn load_model_file<F: Files>(
    alloc: Global,
    unknown: Unknown,
    path: &str,
    files: &mut F,
) -> Result<ModelFile, Failure>
    ensures given { AreGiven F.loads (F.content files.old) files.old files.new (model_source path.now ∷ [])
        only (IsOk result) (λ bytes. Comes (IsModelFile unknown bytes) result) }
    ensures usable { IfOk result (λ made. IsUsable made.model) }
    ensures kept { F.content files.new ≡ F.content files.old }
    ensures read { IsReadOf (path.now ∷ []) (F.faults files.old) (F.faults files.new)
        (F.failed files.new) result }
{
    let text = load_text(
        alloc,
        path,
        MODEL_BYTES as u32,
        Fault::Model(ModelFault::TooLong),
        files,
    )?;
    model_of(alloc, unknown, text)
}

/// The model of MODEL, of at most 65,536 bytes.
pub fn load_model<F: Files>(
    alloc: Global,
    unknown: Unknown,
    path: &str,
    files: &mut F,
) -> Result<Model, Failure>
    ensures given { AreGiven F.loads (F.content files.old) files.old files.new (model_source path.now ∷ [])
        only (IsOk result) (λ bytes. Comes (IsModel unknown bytes) result) }
    ensures usable { IfOk result (λ model. IsUsable model) }
    ensures kept { F.content files.new ≡ F.content files.old }
    ensures read { IsReadOf (path.now ∷ []) (F.faults files.old) (F.faults files.new)
        (F.failed files.new) result }
{
    let ModelFile { model, text: _text } = load_model_file(alloc, unknown, path, files)?;
    Ok(model)
}

/// A family, and the bytes of its file.
#[derive(Drop)]
pub struct FamilyFile {
    pub family: Family,
    pub text: Text,
}

/// The family that bytes spell over a model.
fn family_of(
    alloc: Global,
    dialect: Dialect,
    model: &Model,
    text: Text,
) -> Result<FamilyFile, Failure>
    requires { IsUsable model.now }
    ensures family { Comes (IsFamilyFile dialect model.now text) result }
    ensures spelled { IfOk result (λ made. IsFamilyOf dialect model.now made.text made.family) }
    ensures usable { IfOk result (λ made. IsUsableFamily (length model.now.features) made.family) }
    ensures read { IsReadFault result → ⊥ }
{
    match read_family(alloc, dialect, model, text.bytes()) {
        Ok(family) => Ok(FamilyFile { family, text }),
        Err(FileRefusal::NoMemory) => Err(Failure::NoMemory),
        Err(FileRefusal::Fault { code, place }) => Err(Failure::Refused(file_fault(
            alloc,
            model.features.items(),
            code,
            place,
        )?)),
    }
}

/// The family of FILE over a model.
pub fn load_family<F: Files>(
    alloc: Global,
    dialect: Dialect,
    model: &Model,
    path: &str,
    files: &mut F,
) -> Result<FamilyFile, Failure>
    requires { IsUsable model.now }
    ensures given { AreGiven F.loads (F.content files.old) files.old files.new (file_source path.now ∷ [])
        only (IsOk result) (λ bytes. Comes (IsFamilyFile dialect model.now bytes) result) }
    ensures spelled { IfOk result (λ made. IsFamilyOf dialect model.now made.text made.family) }
    ensures usable { IfOk result (λ made. IsUsableFamily (length model.now.features) made.family) }
    ensures kept { F.content files.new ≡ F.content files.old }
    ensures read { IsReadOf (path.now ∷ []) (F.faults files.old) (F.faults files.new)
        (F.failed files.new) result }
{
    let text = load_text(alloc, path, FILE_BYTES as u32, long_file(), files)?;
    family_of(alloc, dialect, model, text)
}

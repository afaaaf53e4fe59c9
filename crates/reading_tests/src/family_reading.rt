//! What files with groups are read as over models.

ghost use Rattle.std.specs.Prelude.{length, IfOk};
ghost use Rattle.cpp_conditions.specs.Distinct.{HaveFewAtoms};
ghost use Rattle.cpp_conditions.specs.Naming.{AreFeatures};
ghost use Rattle.cpp_conditions.specs.Validity.{plain, AreFit};

use crate::rows::{is_row, parts_of};
use c_parser::{Family, read_family};
use cpp_conditions::Model;
use fam_outer::{Dialect, FileRefusal, Includes, Place, Unknown};
use feature_model::read_model;
use std::alloc::{AllocError, Global};
use std::process::Abort;
use std::test::Fail;

/// Two switches, and a number from 0 to 100.
pub(crate) const MIXED: &str =
    "{\"features\":[{\"name\":\"A\"},{\"name\":\"B\"},{\"name\":\"N\",\"min\":0,\"max\":100}]}";

/// One switch.
pub(crate) const SWITCH: &str = "{\"features\":[{\"name\":\"A\"}]}";

/// A number from 0 to 7.
pub(crate) const NUMBER: &str = "{\"features\":[{\"name\":\"N\",\"min\":0,\"max\":7}]}";

/// How names and includes are read without options.
pub(crate) fn usual() -> Dialect {
    Dialect {
        unknown: Unknown::Zero,
        includes: Includes::Assert,
    }
}

/// The same, with any includes.
pub(crate) fn skipping() -> Dialect {
    Dialect {
        unknown: Unknown::Zero,
        includes: Includes::Skip,
    }
}

/// The model of a text.
pub(crate) fn model(alloc: Global, text: &str) -> Result<Model, Fail>
    ensures features { IfOk result (λ made. AreFeatures made.features) }
    ensures fit { IfOk result (λ made. AreFit (length made.features) made.constraints) }
    ensures few { IfOk result (λ made. HaveFewAtoms 64 (plain made).constraints) }
{
    match read_model(alloc, Unknown::Zero, text.as_bytes()) {
        Ok(model) => Ok(model),
        Err(_) => Err("no model")?,
    }
}

/// What a file is read as over a model.
pub(crate) fn read(
    alloc: Global,
    features: &str,
    file: &[u8],
) -> Result<Result<Family, FileRefusal>, Fail> {
    let model = model(alloc, features)?;
    Ok(read_family(alloc, usual(), &model, file))
}

/// A file over a model with this fault, at a line and a column.
pub(crate) fn refuses(
    rt: &impl Abort,
    alloc: Global,
    features: &str,
    file: &[u8],
    wanted: &str,
    line: u32,
    column: u32,
) -> Result<(), Fail> {
    match read(alloc, features, file)? {
        Err(FileRefusal::Fault { code, place }) => {
            let shown = format!(in alloc; "{code:?}")?;
            assert_eq!(rt; shown.as_str(), wanted);
            assert_eq!(rt; place, Place { line, column });
        }
        _ => panic!(rt; "not refused: {wanted}"),
    }
    Ok(())
}

/// Files over a model with a fault, in a table: of each the code's text, and the place.
pub(crate) fn refuse_all(
    rt: &impl Abort,
    alloc: Global,
    features: &str,
    rows: &str,
) -> Result<(), Fail> {
    for row in rows.lines().filter(|line| is_row(line)) {
        let (file, told) = parts_of(alloc, row)?;
        match read(alloc, features, file.as_bytes())? {
            Err(FileRefusal::Fault { code, place }) => {
                let shown = format!(in alloc; "{code:?} {}:{}", place.line, place.column)?;
                assert_eq!(rt; shown.as_str(), told, "at {row}");
            }
            _ => panic!(rt; "not refused: {row}"),
        }
    }
    Ok(())
}

/// A text, another one so many times, and a third one.
pub(crate) fn repeated(
    alloc: Global,
    front: &str,
    middle: &str,
    count: u32,
    back: &str,
) -> Result<String, AllocError> {
    let mut text = String::new(alloc);
    text.push_str(front)?;
    for _ in 0..count {
        text.push_str(middle)?;
    }
    text.push_str(back)?;
    Ok(text)
}

//! Variants of files by hand.

ghost use Rattle.std.specs.Prelude.{length, IfOk};
ghost use Rattle.cpp_conditions.specs.Distinct.{HaveFewAtoms};
ghost use Rattle.cpp_conditions.specs.Naming.{AreFeatures};
ghost use Rattle.cpp_conditions.specs.Validity.{plain, AreFit, IsConfig};

use crate::family_reading::{skipping, usual};
use cpp_conditions::Model;
use fam_outer::{Dialect, FileCode, FileRefusal, Place, Unknown};
use feature_model::{read_config, read_model};
use linear_atoms::Config;
use std::alloc::Global;
use std::process::Abort;
use std::test::Fail;
use variant_projector::variant_text;

/// A switch, and a number from 0 to 9.
const MODEL: &[u8] = b"{\"features\":[{\"name\":\"A\"},{\"name\":\"N\",\"min\":0,\"max\":9}]}";

/// The model.
fn model(alloc: Global) -> Result<Model, Fail>
    ensures features { IfOk result (λ made. AreFeatures made.features) }
    ensures fit { IfOk result (λ made. AreFit (length made.features) made.constraints) }
    ensures few { IfOk result (λ made. HaveFewAtoms 64 (plain made).constraints) }
{
    match read_model(alloc, Unknown::Zero, MODEL) {
        Ok(model) => Ok(model),
        Err(_) => Err("no model")?,
    }
}

/// The configuration of these settings.
fn config(alloc: Global, model: &Model, words: [&str; 2]) -> Result<Config, Fail>
    requires features { AreFeatures model.now.features }
    requires fit { AreFit (length model.now.features) model.now.constraints }
    ensures config { IfOk result (λ made. IsConfig model.now.features made.values) }
{
    let mut settings = Vec::new(alloc);
    for word in words {
        settings.push(String::from_str(alloc, word)?)?;
    }
    match read_config(alloc, model, &settings) {
        Ok(config) => Ok(config),
        Err(_) => Err("no configuration")?,
    }
}

/// The text of a variant.
fn has_variant(
    rt: &impl Abort,
    alloc: Global,
    dialect: Dialect,
    words: [&str; 2],
    file: &[u8],
    wanted: &[u8],
) -> Result<(), Fail> {
    let model = model(alloc)?;
    let config = config(alloc, &model, words)?;
    match variant_text(alloc, dialect, file, &model, &config) {
        Ok(text) => assert_eq!(rt; text.bytes(), wanted),
        Err(_) => panic!(rt; "refused"),
    }
    Ok(())
}

#[test]
fn configurations_select_variants(rt: HostRuntime) -> Result<(), Fail> {
    let file = b"/* a */ x\n#ifdef A // on\ny\n#elif N > 4\nz\n#endif\nw";
    let cases: [([&str; 2], &[u8]); 3] = [
        (["A=1", "N=9"], b"        x\n\ny\n\n\n\nw"),
        (["A=0", "N=5"], b"        x\n\n\n\nz\n\nw"),
        (["A=0", "N=4"], b"        x\n\n\n\n\n\nw"),
    ];
    for (words, wanted) in cases {
        has_variant(&rt, rt.alloc(), usual(), words, file, wanted)?;
    }
    let file = b"int x; // one\nint main(void) {\n#ifdef A\nx = 1;\n#else\nx = 2;\n#endif\n}\n";
    let wanted = b"int x;       \nint main(void) {\n\nx = 1;\n\n\n\n}\n";
    has_variant(&rt, rt.alloc(), usual(), ["A=1", "N=0"], file, wanted)
}

#[test]
fn faulty_files_have_no_variant(rt: HostRuntime) -> Result<(), Fail> {
    let alloc = rt.alloc();
    let model = model(alloc)?;
    let config = config(alloc, &model, ["A=1", "N=0"])?;
    let long = vec![in alloc; b'\n'; 1_048_577]?;
    let cases: [(&[u8], FileCode, u32, u32); 3] = [
        (&long, FileCode::TooLong, 1, 1),
        (b"#if A\n /* x", FileCode::OpenComment, 2, 2),
        (b"x\n #if A\n", FileCode::NoEndif, 2, 2),
    ];
    for (file, wanted, line, column) in cases {
        match variant_text(alloc, usual(), file, &model, &config) {
            Err(FileRefusal::Fault { code, place }) => {
                let shown = format!(in alloc; "{code:?}")?;
                let wanted = format!(in alloc; "{wanted:?}")?;
                assert_eq!(rt; shown.as_str(), wanted.as_str());
                assert_eq!(rt; place, Place { line, column });
            }
            _ => panic!(rt; "not refused"),
        }
    }
    Ok(())
}

#[test]
fn includes_are_blank_lines(rt: HostRuntime) -> Result<(), Fail> {
    let file =
        b"#include <stdint.h>\n#ifdef A\n#include \"a.h\"\ny\n#endif\n# include X\nw\n#include";
    let cases: [([&str; 2], &[u8]); 2] = [
        (["A=1", "N=0"], b"\n\n\ny\n\n\nw\n"),
        (["A=0", "N=0"], b"\n\n\n\n\n\nw\n"),
    ];
    for (words, wanted) in cases {
        has_variant(&rt, rt.alloc(), skipping(), words, file, wanted)?;
    }
    Ok(())
}

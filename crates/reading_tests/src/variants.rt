//! Variants of families: their texts, read over the names of the family.

ghost use Rattle.std.specs.Prelude.{length, IfOk};
ghost use Rattle.std.specs.List.{All};
ghost use Rattle.linear_atoms.specs.Atoms.{AreAtoms, AreValues};
ghost use Rattle.c_tree.specs.Project.{IsConditioned};
ghost use Rattle.c_tree.specs.View.{whole};
ghost use Rattle.c_tree.specs.Whole.{IsProgram};
ghost use Rattle.cpp_conditions.specs.Distinct.{HaveFewAtoms};
ghost use Rattle.cpp_conditions.specs.Naming.{AreFeatures};
ghost use Rattle.cpp_conditions.specs.Propositions.{IsBelow};
ghost use Rattle.cpp_conditions.specs.Validity.{plain, AreFit, IsConfig};
ghost use Rattle.cpp_conditions.specs.View.{formula};
ghost use Rattle.c_parser.specs.FamilyReading.{IsFamilyOf};
ghost use Rattle.variant_projector.specs.Variant.{IsVariant};

use crate::family_limits::{QUEUE, front};
use crate::family_reading::{SWITCH, model, skipping, usual};
use c_parser::variants::{family_names_are_few, variants_are_projections};
use c_parser::{Family, functions_of, read_family, read_plain_with};
use c_tree::project;
use cpp_conditions::Model;
use fam_outer::{Dialect, Includes, Text};
use feature_model::read_config;
use linear_atoms::Config;
use std::alloc::Global;
use std::process::Abort;
use std::test::Fail;
use variant_projector::{truths_of, variant_text, vector_of};

/// The configuration of these settings.
fn config(alloc: Global, model: &Model, words: &[&str]) -> Result<Config, Fail>
    requires features { AreFeatures model.now.features }
    requires fit { AreFit (length model.now.features) model.now.constraints }
    ensures config { IfOk result (λ made. IsConfig model.now.features made.values) }
{
    let mut settings = Vec::new(alloc);
    for word in words {
        settings.push(String::from_str(alloc, word)?)?;
    }
    match read_config(alloc, model, &settings) {
        Ok(config) => Ok(config),
        Err(_) => Err("no configuration")?,
    }
}

/// The family that a file is read as.
fn family(alloc: Global, dialect: Dialect, model: &Model, file: &[u8]) -> Result<Family, Fail>
    requires features { AreFeatures model.now.features }
    requires fit { AreFit (length model.now.features) model.now.constraints }
    requires few { HaveFewAtoms 64 (plain model.now).constraints }
    ensures reads { IfOk result (λ f. IsFamilyOf dialect model.now file.now f) }
    ensures program { IfOk result (λ f. IsProgram (whole f.code)) }
    ensures conditioned { IfOk result (λ f. IsConditioned (length f.conditions) (whole f.code)) }
    ensures atoms { IfOk result (λ f. AreAtoms (length model.now.features) f.atoms) }
    ensures below { IfOk result (λ f. All (λ c. IsBelow (length f.atoms) (formula c)) f.conditions) }
{
    match read_family(alloc, dialect, model, file) {
        Ok(family) => Ok(family),
        Err(_) => Err("no family")?,
    }
}

/// The text of a variant.
fn text(
    alloc: Global,
    dialect: Dialect,
    model: &Model,
    file: &[u8],
    config: &Config,
) -> Result<Text, Fail>
    requires features { AreFeatures model.now.features }
    requires fit { AreFit (length model.now.features) model.now.constraints }
    requires few { HaveFewAtoms 64 (plain model.now).constraints }
    requires config { IsConfig model.now.features config.now.values }
    ensures { IfOk result (λ text. IsVariant dialect (plain model.now) config.now.values file.now text) }
{
    match variant_text(alloc, dialect, file, model, config) {
        Ok(text) => Ok(text),
        Err(_) => Err("no text")?,
    }
}

/// The program that the text of a variant is read as over the names of its family.
fn variant(
    alloc: Global,
    dialect: Dialect,
    model: &Model,
    file: &[u8],
    family: &Family,
    config: &Config,
) -> Result<String, Fail>
    requires features { AreFeatures model.now.features }
    requires fit { AreFit (length model.now.features) model.now.constraints }
    requires few { HaveFewAtoms 64 (plain model.now).constraints }
    requires family { IsFamilyOf dialect model.now file.now family.now }
    requires config { IsConfig model.now.features config.now.values }
{
    family_names_are_few();
    variants_are_projections();
    let text = text(alloc, dialect, model, file, config)?;
    let functions = functions_of(alloc, file)?;
    match read_plain_with(
        alloc,
        Includes::Assert,
        functions.items(),
        family.code.names.items(),
        text.bytes(),
    ) {
        Ok(program) => Ok(format!(in alloc; "{program:?}")?),
        Err(_) => Err("refused")?,
    }
}

/// The projection of a family at a configuration.
fn projection(alloc: Global, family: &Family, config: &Config) -> Result<String, Fail>
    requires atoms { AreAtoms (length config.now.values) family.now.atoms }
    requires values { AreValues config.now.values }
    requires below { All (λ f. IsBelow (length family.now.atoms) (formula f)) family.now.conditions }
    requires program { IsProgram (whole family.now.code) }
    requires conditioned { IsConditioned (length family.now.conditions) (whole family.now.code) }
{
    let vector = vector_of(alloc, family.atoms.items(), config)?;
    let truths = truths_of(alloc, family.conditions.items(), &vector)?;
    let program = project(alloc, &family.code, &truths)?;
    Ok(format!(in alloc; "{program:?}")?)
}

/// What the text of a variant is read as, and the projection of its family.
fn both_ways(
    alloc: Global,
    dialect: Dialect,
    features: &str,
    file: &str,
    words: &[&str],
) -> Result<(String, String), Fail> {
    let model = model(alloc, features)?;
    let config = config(alloc, &model, words)?;
    let family = family(alloc, dialect, &model, file.as_bytes())?;
    let read = variant(alloc, dialect, &model, file.as_bytes(), &family, &config)?;
    let projected = projection(alloc, &family, &config)?;
    Ok((read, projected))
}

#[test]
fn variants_are_read_over_the_names_of_the_family(rt: HostRuntime) -> Result<(), Fail> {
    let comment = "int x; // one\nint main(void) {\n#ifdef A\nx = 1;\n#else\nx = 2;\n#endif\n}\n";
    let names =
        "#ifdef A\nint x = 1;\n#else\nint y = 2;\n#endif\nint z;\nint main(void) {\n#if A\nz = x;\n#else\nz = y;\n#endif\n}\n";
    let cases = [
        (
            comment,
            "A=1",
            "Program { names: Names { list: [Text { bytes: [120] }] }, start: Values { list: [0] }, declared: Declarations { list: [] }, body: [Assign { place: Place { line: 4, column: 1 }, target: 0, value: Number(1) }], end: Place { line: 8, column: 1 } }",
        ),
        (
            comment,
            "A=0",
            "Program { names: Names { list: [Text { bytes: [120] }] }, start: Values { list: [0] }, declared: Declarations { list: [] }, body: [Assign { place: Place { line: 6, column: 1 }, target: 0, value: Number(2) }], end: Place { line: 8, column: 1 } }",
        ),
        (
            names,
            "A=1",
            "Program { names: Names { list: [Text { bytes: [120] }, Text { bytes: [121] }, Text { bytes: [122] }] }, start: Values { list: [1, 0, 0] }, declared: Declarations { list: [] }, body: [Assign { place: Place { line: 9, column: 1 }, target: 2, value: Var(0) }], end: Place { line: 13, column: 1 } }",
        ),
        (
            names,
            "A=0",
            "Program { names: Names { list: [Text { bytes: [120] }, Text { bytes: [121] }, Text { bytes: [122] }] }, start: Values { list: [0, 2, 0] }, declared: Declarations { list: [] }, body: [Assign { place: Place { line: 11, column: 1 }, target: 2, value: Var(1) }], end: Place { line: 13, column: 1 } }",
        ),
    ];
    for (file, word, wanted) in cases {
        let (read, projected) = both_ways(rt.alloc(), usual(), SWITCH, file, &[word])?;
        assert_eq!(rt; read.as_str(), wanted);
        assert_eq!(rt; projected.as_str(), wanted);
    }
    Ok(())
}

#[test]
fn variants_are_projections_of_their_family(rt: HostRuntime) -> Result<(), Fail> {
    let alloc = rt.alloc();
    let file = front(alloc, 40)?;
    let cases: [&[&str]; 6] = [
        &["SIZE=1", "LIMIT=0"],
        &["SIZE=8", "LIMIT=0", "LOG"],
        &["SIZE=4", "LIMIT=2", "FAST", "RETRY"],
        &["SIZE=16", "LIMIT=5", "SAFE", "BULK"],
        &["SIZE=7", "LIMIT=5", "SAFE", "RETRY", "LOG"],
        &["SIZE=16", "LIMIT=0", "RETRY", "BULK", "FAST", "LOG"],
    ];
    for words in cases {
        let (read, projected) = both_ways(alloc, usual(), QUEUE, file.as_str(), words)?;
        assert_eq!(rt; read.as_str(), projected.as_str());
    }
    Ok(())
}

#[test]
fn variants_have_no_includes(rt: HostRuntime) -> Result<(), Fail> {
    let file =
        "#include <stdint.h>\nint x;\n#ifdef A\n#include \"a.h\"\n#endif\nint main(void) {\n# include X\nx = 1;\n}\n";
    let wanted =
        "Program { names: Names { list: [Text { bytes: [120] }] }, start: Values { list: [0] }, declared: Declarations { list: [] }, body: [Assign { place: Place { line: 8, column: 1 }, target: 0, value: Number(1) }], end: Place { line: 9, column: 1 } }";
    for word in ["A=0", "A=1"] {
        let (read, projected) = both_ways(rt.alloc(), skipping(), SWITCH, file, &[word])?;
        assert_eq!(rt; read.as_str(), wanted);
        assert_eq!(rt; projected.as_str(), wanted);
    }
    Ok(())
}

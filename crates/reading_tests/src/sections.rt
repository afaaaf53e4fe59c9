//! Texts with groups by hand: their lines, conditions and atoms, their refusals, and the texts of their variants.

ghost use Rattle.std.specs.Prelude.{length, IfOk};
ghost use Rattle.cpp_conditions.specs.Distinct.{HaveFewAtoms};
ghost use Rattle.cpp_conditions.specs.Naming.{AreFeatures};
ghost use Rattle.cpp_conditions.specs.Validity.{plain, AreFit};

use crate::family_reading::usual;
use crate::rows::{is_row, parts_of};
use cpp_conditions::Model;
use cpp_lines::{Sections, preprocessed_text, read_sections};
use fam_outer::{FileRefusal, Place, Unknown};
use feature_model::read_model;
use std::alloc::Global;
use std::process::Abort;
use std::test::Fail;

/// Two switches, and a number from 0 to 100.
const MODEL: &[u8] =
    b"{\"features\":[{\"name\":\"A\"},{\"name\":\"B\"},{\"name\":\"N\",\"min\":0,\"max\":100}]}";

/// The model.
fn model(alloc: Global) -> Result<Model, Fail>
    ensures features { IfOk result (λ made. AreFeatures made.features) }
    ensures fit { IfOk result (λ made. AreFit (length made.features) made.constraints) }
    ensures few { IfOk result (λ made. HaveFewAtoms 64 (plain made).constraints) }
{
    match read_model(alloc, Unknown::Zero, MODEL) {
        Ok(model) => Ok(model),
        Err(_) => Err("no model")?,
    }
}

/// What a text is read as.
fn read(
    rt: &impl Abort,
    alloc: Global,
    text: &[u8],
) -> Result<Result<Sections, FileRefusal>, Fail> {
    assert!(rt; text.len() <= 1_048_576);
    let model = model(alloc)?;
    Ok(read_sections(alloc, usual(), &model, text))
}

/// A text that is read as these kinds of lines, these conditions over numbers of atoms, and so many atoms. A number `e` that
/// is used as a truth value is `e != 0`, the negation of `e >= 0` and not `e - 1 >= 0`; what the ranges decide is a constant.
fn accepts(
    rt: &impl Abort,
    alloc: Global,
    text: &[u8],
    kinds: &str,
    conditions: &str,
    atoms: usize,
) -> Result<(), Fail> {
    match read(rt, alloc, text)? {
        Ok(sections) => {
            let mut shown = String::new(alloc);
            for line in sections.lines.items() {
                shown.push_str(format!(in alloc; "{:?} ", line.kind)?.as_str())?;
            }
            assert_eq!(rt; shown.as_str(), kinds);
            let mut shown = String::new(alloc);
            for condition in sections.conditions.items() {
                shown.push_str(format!(in alloc; "{:?} ", condition)?.as_str())?;
            }
            assert_eq!(rt; shown.as_str(), conditions);
            assert_eq!(rt; sections.atoms.items().len(), atoms);
        }
        Err(_) => panic!(rt; "refused"),
    }
    Ok(())
}

#[test]
fn texts_have_sections(rt: HostRuntime) -> Result<(), Fail> {
    let cases: [(&[u8], &str, &str, usize); 6] = [
        (b"", "Code ", "", 0),
        (b"x\n#include <assert.h>\n", "Code Include Code ", "", 0),
        (
            b"#if A\nx\n#elif B && !N\n # else \n#endif",
            "If(0) Code Elif(1) Else Endif ",
            "Not(And(Const(true), Not(Test(0)))) And(Not(And(Const(true), Not(Test(1)))), Not(Not(And(Const(true), Not(Test(2)))))) ",
            3,
        ),
        (
            b"#ifdef A\n#endif\n#ifndef A\n#endif\n#ifdef N\n#endif\n#ifndef X\n#endif",
            "If(0) Endif If(1) Endif If(2) Endif If(3) Endif ",
            "Not(And(Const(true), Not(Test(0)))) Not(Not(And(Const(true), Not(Test(0))))) Not(And(Const(true), Not(Const(true)))) Not(Not(And(Const(true), Not(Const(false))))) ",
            1,
        ),
        (
            b"#if N>2\n#if B\n#endif\n#else\n#if N > 2\n#endif\n#endif",
            "If(0) If(1) Endif Else If(2) Endif Endif ",
            "Test(1) Not(And(Const(true), Not(Test(0)))) Test(1) ",
            2,
        ),
        (
            b"#if (A)\r\n#endif \r\n",
            "If(0) Endif Code ",
            "Not(And(Const(true), Not(Test(0)))) ",
            1,
        ),
    ];
    for (text, kinds, conditions, atoms) in cases {
        accepts(&rt, rt.alloc(), text, kinds, conditions, atoms)?;
    }
    Ok(())
}

/// Texts with a fault, in a table: of each the code's text, and the place of a line's `#`.
fn refuse_all(rt: &impl Abort, alloc: Global, rows: &str) -> Result<(), Fail> {
    for row in rows.lines().filter(|line| is_row(line)) {
        let (text, told) = parts_of(alloc, row)?;
        match read(rt, alloc, text.as_bytes())? {
            Err(FileRefusal::Fault { code, place }) => {
                let shown = format!(in alloc; "{code:?} {}:{}", place.line, place.column)?;
                assert_eq!(rt; shown.as_str(), told, "at {row}");
            }
            _ => panic!(rt; "not refused: {row}"),
        }
    }
    Ok(())
}

/// A text with this fault at a line's `#` in a column.
fn refuses(
    rt: &impl Abort,
    alloc: Global,
    text: &[u8],
    wanted: &str,
    line: u32,
    column: u32,
) -> Result<(), Fail> {
    match read(rt, alloc, text)? {
        Err(FileRefusal::Fault { code, place }) => {
            let shown = format!(in alloc; "{code:?}")?;
            assert_eq!(rt; shown.as_str(), wanted);
            assert_eq!(rt; place, Place { line, column });
        }
        _ => panic!(rt; "not refused"),
    }
    Ok(())
}

#[test]
fn sections_are_refused(rt: HostRuntime) -> Result<(), Fail> {
    let rows = r"
x\n  #define A => Directive 2:3
#else x => Directive 1:1
#if A\n#endif A => Directive 2:1
#if A\n#else A\n#else\n#endif => Directive 2:1
#if A\n#foo\n#endif => Directive 2:1
#endif => NoIf 1:1
x\n #else => NoIf 2:2
#elif ( => NoIf 1:1
#if A\n#endif\n#endif\n#if ( => NoIf 3:1
#if A => NoEndif 1:1
#if (\n => NoEndif 1:1
#if A\n#if ( => NoEndif 1:1
#if A\n#foo => NoEndif 1:1
#if A\n#if B\n#endif => NoEndif 1:1
#if A\n#endif\n #ifdef B\n#else => NoEndif 3:2
#if A\n#elif (\n#else\n#else => NoEndif 1:1
#if A\n#endif A\n#if ( => Directive 2:1
#if A\n#else\n#else\n#endif => SecondElse 3:1
#if A\n#else\n#elif (\n#endif => SecondElse 3:1
#if (\n#endif => Condition(Syntax) 1:1
#if A\n#elif\n#endif => Condition(Syntax) 2:1
#ifdef\n#endif => Condition(Syntax) 1:1
#ifdef A B\n#endif => Condition(Syntax) 1:1
#ifdef (A)\n#endif => Condition(Syntax) 1:1
#ifndef 1A\n#endif => Condition(Syntax) 1:1
#ifndef defined\n#endif => Condition(Syntax) 1:1
#ifdef __A\n#endif => Condition(ReservedName) 1:1
#if N * N\n#endif => Condition(NonLinear) 1:1
#if N + 2147483649\n#endif => Condition(TooLarge) 1:1
#if A\n#if N * N\n#foo\n#endif\n#endif => Condition(NonLinear) 2:1
";
    refuse_all(&rt, rt.alloc(), rows)?;
    Ok(())
}

/// Sections that test whether `N` is at least 1, 2 and so on.
fn tested(alloc: Global, count: u32) -> Result<String, Fail> {
    let mut text = String::new(alloc);
    for bound in 0..count {
        text.push_str(format!(in alloc; "#if N > {bound}\n#endif\n")?.as_str())?;
    }
    Ok(text)
}

#[test]
fn sixty_four_tests_are_read(rt: HostRuntime) -> Result<(), Fail> {
    let alloc = rt.alloc();
    let text = tested(alloc, 64)?;
    match read(&rt, alloc, text.as_bytes())? {
        Ok(sections) => assert_eq!(rt; sections.atoms.items().len(), 64),
        Err(_) => panic!(rt; "refused"),
    }
    let text = tested(alloc, 65)?;
    refuses(&rt, alloc, text.as_bytes(), "TooManyTests", 129, 1)
}

/// The text of a variant.
fn variant(
    rt: &impl Abort,
    alloc: Global,
    text: &[u8],
    truths: &[bool],
    wanted: &[u8],
) -> Result<(), Fail> {
    assert!(rt; text.len() <= 1_048_576);
    let model = model(alloc)?;
    match read_sections(alloc, usual(), &model, text) {
        Ok(sections) => {
            let made = preprocessed_text(alloc, text, sections.lines.items(), truths)?;
            assert_eq!(rt; made.bytes(), wanted);
        }
        Err(_) => panic!(rt; "refused"),
    }
    Ok(())
}

#[test]
fn variants_have_the_kept_lines(rt: HostRuntime) -> Result<(), Fail> {
    let text = b"a\n#if A\nb\n#elif B\nc\n#else\n#include <assert.h>\nd\r\n#endif\ne";
    let nested = b"#if A\na\n#if B\nb\n#endif\nc\n#else\n#if B\nd\n#endif\n#endif\n";
    let cases: [(&[u8], &[bool], &[u8]); 7] = [
        (text, &[true, true], b"a\n\nb\n\n\n\n\n\n\ne"),
        (text, &[true, false], b"a\n\nb\n\n\n\n\n\n\ne"),
        (text, &[false, true], b"a\n\n\n\nc\n\n\n\n\ne"),
        (text, &[false, false], b"a\n\n\n\n\n\n\nd\r\n\ne"),
        (nested, &[true, true, true], b"\na\n\nb\n\nc\n\n\n\n\n\n"),
        (nested, &[true, false, true], b"\na\n\n\n\nc\n\n\n\n\n\n"),
        (nested, &[false, true, true], b"\n\n\n\n\n\n\n\nd\n\n\n"),
    ];
    for (text, truths, wanted) in cases {
        variant(&rt, rt.alloc(), text, truths, wanted)?;
    }
    Ok(())
}

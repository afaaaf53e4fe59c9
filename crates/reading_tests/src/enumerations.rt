//! Constants by `enum`: the forms that are read with their values, and what is refused.
//!
//! Lines and columns are counted by hand.
#![tactic(auto)]

use crate::family_reading;
use crate::family_reading::SWITCH;
use crate::files::{accepts, refuse_all, refuses};
use c_parser::read_plain;
use fam_outer::Includes;
use std::test::Fail;

#[test]
fn enumerations_have_their_values(rt: HostRuntime) -> Result<(), Fail> {
    let cases = [
        (
            "enum { a, b = 5, c, d = -3, e, f = 0x10, };\nint main(void) { }",
            "Program { names: Names { list: [Text { bytes: [97] }, Text { bytes: [98] }, Text { bytes: [99] }, Text { bytes: [100] }, Text { bytes: [101] }, Text { bytes: [102] }] }, start: Values { list: [0, 5, 6, -3, -2, 16] }, declared: Declarations { list: [] }, body: [], end: Place { line: 2, column: 18 } }",
        ),
        // each begins at 0, and a name may be the greatest `int`
        (
            "enum{a=2147483646,b};int x=1;enum{c};\nint main(void) { x = b; }",
            "Program { names: Names { list: [Text { bytes: [120] }, Text { bytes: [97] }, Text { bytes: [98] }, Text { bytes: [99] }] }, start: Values { list: [1, 2147483646, 2147483647, 0] }, declared: Declarations { list: [] }, body: [Assign { place: Place { line: 2, column: 18 }, target: 0, value: Var(2) }], end: Place { line: 2, column: 25 } }",
        ),
    ];
    for (file, wanted) in cases {
        accepts(&rt, rt.alloc(), file, wanted)?;
    }
    Ok(())
}

#[test]
fn other_enumerations_are_refused(rt: HostRuntime) -> Result<(), Fail> {
    let rows = r"
// no name, two in a row, and two commas
enum { };\nint main(void) { } => Syntax 1:8
enum { a b };\nint main(void) { } => Syntax 1:10
enum { a, , b };\nint main(void) { } => Syntax 1:11
// no number, and others than a number
enum { a = };\nint main(void) { } => Syntax 1:12
enum { a, b = a };\nint main(void) { } => Syntax 1:15
enum { a = (1) };\nint main(void) { } => Syntax 1:12
// no brace, no semicolon, and a variable behind it
enum { a; };\nint main(void) { } => Syntax 1:9
enum { a } int x;\nint main(void) { } => Syntax 1:12
enum { a } x;\nint main(void) { } => Syntax 1:12
// a tag, `static`, and inside `main`
enum mode { a };\nint main(void) { } => Syntax 1:6
static enum { a };\nint main(void) { } => Syntax 1:8
int main(void) { enum { a }; } => Syntax 1:18
// what ends an `enum`, behind a variable
int x, };\nint main(void) { } => Syntax 1:8
int x };\nint main(void) { } => Syntax 1:7
// behind a name that would count past `int`
enum { a = 2147483647, b };\nint main(void) { } => Syntax 1:26
enum { a = 2147483647, b, c };\nint main(void) { } => Syntax 1:25
";
    refuse_all(&rt, rt.alloc(), rows)?;
    Ok(())
}

#[test]
fn names_of_enumerations(rt: HostRuntime) -> Result<(), Fail> {
    let cases: [(&[u8], &str, u32, u32); 8] = [
        (b"enum { a, a };\nint main(void) { }", "Twice(None)", 1, 11),
        (
            b"int a;\nenum { a };\nint main(void) { }",
            "Twice(None)",
            2,
            8,
        ),
        (
            b"enum { a };\nconst int a = 1;\nint main(void) { }",
            "Twice(None)",
            2,
            11,
        ),
        (
            b"enum { a };\nint main(void) { assert(b); }",
            "Undeclared(None)",
            2,
            25,
        ),
        (
            b"enum{k0,k1,k2,k3,k4,k5,k6,k7,k8,k9,k10,k11,k12,k13,k14,k15,k16};\nint main(void) { }",
            "TooManyConstants",
            1,
            60,
        ),
        (
            b"enum { a };\nint main(void) { a = 3; }",
            "ChangedConstant",
            2,
            18,
        ),
        (
            b"enum { b, a, };\nint main(void) { ++a; }",
            "ChangedConstant",
            2,
            20,
        ),
        (
            b"int x;\nenum { a = 1 };\nint main(void) { x = a; a = input(); }",
            "ChangedConstant",
            3,
            25,
        ),
    ];
    for (file, wanted, line, column) in cases {
        refuses(&rt, rt.alloc(), file, wanted, line, column)?;
    }
    let file = b"enum { a };\nint x;\nint main(void) { x = a; x++; }";
    assert!(rt; read_plain(rt.alloc(), Includes::Assert, file).is_ok());
    Ok(())
}

#[test]
fn enumerations_of_families(rt: HostRuntime) -> Result<(), Fail> {
    let cases: [(&str, &[u8], &str, u32, u32); 7] = [
        // a constant in one group, used outside
        (
            SWITCH,
            b"#ifdef A\nenum { k };\n#endif\nint main(void) {\nassert(k);\n}",
            "Undeclared(Some(Values { list: [0] }))",
            5,
            8,
        ),
        (
            SWITCH,
            b"enum { k };\n#ifdef A\nenum { j, k };\n#endif\nint main(void) { }",
            "Twice(Some(Values { list: [1] }))",
            3,
            11,
        ),
        (
            SWITCH,
            b"enum { A };\nint main(void) { }",
            "FeatureInCode",
            1,
            8,
        ),
        (
            SWITCH,
            b"#ifdef A\nenum { k = 2 };\n#else\nint k = 2;\n#endif\nint main(void) {\nk = 3;\n}",
            "ChangedConstant",
            7,
            1,
        ),
        // groups inside an `enum`
        (
            SWITCH,
            b"enum {\n#ifdef A\nk\n#endif\n};\nint main(void) { }",
            "GroupInsideStatement",
            2,
            1,
        ),
        (
            SWITCH,
            b"enum { j,\n#ifdef A\nk,\n#endif\n};\nint main(void) { }",
            "GroupInsideStatement",
            2,
            1,
        ),
        (
            SWITCH,
            b"enum\n#ifdef A\n{ k };\n#endif\nint main(void) { }",
            "GroupInsideStatement",
            2,
            1,
        ),
    ];
    for (features, file, wanted, line, column) in cases {
        family_reading::refuses(&rt, rt.alloc(), features, file, wanted, line, column)?;
    }
    let file =
        b"#ifdef A\nenum { k };\n#else\nint k = 2;\n#endif\nint main(void) {\n#ifndef A\nk = 3;\n#endif\n}";
    assert!(rt; family_reading::read(rt.alloc(), SWITCH, file)?.is_ok());
    Ok(())
}

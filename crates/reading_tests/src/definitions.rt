//! Constants by `#define`: the forms that are read with their values, and what is refused.
//!
//! Lines and columns are counted by hand.
#![tactic(auto)]

use crate::family_reading;
use crate::family_reading::{MIXED, SWITCH};
use crate::files::{accepts, refuses};
use std::test::Fail;

#[test]
fn definitions_have_their_values(rt: HostRuntime) -> Result<(), Fail> {
    let cases = [
        (
            "#define a 3\n#define b -017\n#define c (0x10)\n # define\td ( - 'a' ) \nint main(void) { }",
            "Program { names: Names { list: [Text { bytes: [97] }, Text { bytes: [98] }, Text { bytes: [99] }, Text { bytes: [100] }] }, start: Values { list: [3, -15, 16, -97] }, declared: Declarations { list: [] }, body: [], end: Place { line: 5, column: 18 } }",
        ),
        // among other declarations, and variables come before constants
        (
            "#define k 2147483647 // the most\nint x = 1, y;\n#define j 0\nint main(void) { y = k; }",
            "Program { names: Names { list: [Text { bytes: [120] }, Text { bytes: [121] }, Text { bytes: [107] }, Text { bytes: [106] }] }, start: Values { list: [1, 0, 2147483647, 0] }, declared: Declarations { list: [] }, body: [Assign { place: Place { line: 4, column: 18 }, target: 1, value: Var(2) }], end: Place { line: 4, column: 25 } }",
        ),
    ];
    for (file, wanted) in cases {
        accepts(&rt, rt.alloc(), file, wanted)?;
    }
    Ok(())
}

/// Each is refused at its `#`.
#[test]
fn other_definitions_are_refused(rt: HostRuntime) -> Result<(), Fail> {
    let files: [&[u8]; 24] = [
        // no name, no number, and more than a number
        b"#define\nint main(void) { }",
        b"#define 3\nint main(void) { }",
        b"#define k\nint main(void) { }",
        b"#define k 3 4\nint main(void) { }",
        b"#define k 3;\nint main(void) { }",
        b"#define k 3 + 4\nint main(void) { }",
        b"#define k = 3\nint main(void) { }",
        b"#define k j\nint main(void) { }",
        // parentheses
        b"#define k -(3)\nint main(void) { }",
        b"#define k ((3))\nint main(void) { }",
        b"#define k (3\nint main(void) { }",
        b"#define k 3)\nint main(void) { }",
        b"#define k ()\nint main(void) { }",
        b"#define k(j) 3\nint main(void) { }",
        b"#define k(3)\nint main(void) { }",
        // numbers that are none of `int`
        b"#define k 3u\nint main(void) { }",
        b"#define k 08\nint main(void) { }",
        b"#define k 2147483648\nint main(void) { }",
        b"#define k 'ab'\nint main(void) { }",
        b"#define k --3\nint main(void) { }",
        // reserved words
        b"#define int 3\nint main(void) { }",
        b"#define main 3\nint main(void) { }",
        b"#define NDEBUG 1\nint main(void) { }",
        b"#define defined 1\nint main(void) { }",
    ];
    for file in files {
        refuses(&rt, rt.alloc(), file, "Directive", 1, 1)?;
    }
    Ok(())
}

#[test]
fn names_of_definitions(rt: HostRuntime) -> Result<(), Fail> {
    let cases: [(&[u8], &str, u32, u32); 10] = [
        (
            b"#define k 1\n#define k 1\nint main(void) { }",
            "Twice(None)",
            2,
            9,
        ),
        (
            b"int k;\n  #define k 1\nint main(void) { }",
            "Twice(None)",
            2,
            11,
        ),
        (
            b"#define k 1\nenum { k };\nint main(void) { }",
            "Twice(None)",
            2,
            8,
        ),
        (
            b"#define k 1\nint main(void) { k = 2; }",
            "ChangedConstant",
            2,
            18,
        ),
        (
            b"#define k (1)\nint x;\nint main(void) { x++; --k; }",
            "ChangedConstant",
            3,
            25,
        ),
        (
            b"#define k 1\nint main(void) { assert(j); }",
            "Undeclared(None)",
            2,
            25,
        ),
        // in `main`, behind it, and within another declaration
        (b"int main(void) {\n#define k 1\n}", "Syntax", 2, 1),
        (b"int main(void) { }\n#define k 1\n", "Syntax", 2, 1),
        (
            b"int x,\n#define k 1\ny;\nint main(void) { }",
            "Syntax",
            2,
            1,
        ),
        // a byte 1 is no token, and no character
        (b"\x01 k 1\nint main(void) { }", "StrayByte", 1, 1),
    ];
    for (file, wanted, line, column) in cases {
        refuses(&rt, rt.alloc(), file, wanted, line, column)?;
    }
    refuses(
        &rt,
        rt.alloc(),
        b"int x;\nint main(void) { x = '\x01'; }",
        "Literal",
        2,
        22,
    )
}

#[test]
fn definitions_of_families(rt: HostRuntime) -> Result<(), Fail> {
    let cases: [(&str, &[u8], &str, u32, u32); 12] = [
        // a feature's name, and a second definition that some configuration keeps
        (
            MIXED,
            b"#define N 3\nint main(void) { }",
            "FeatureInCode",
            1,
            9,
        ),
        (
            MIXED,
            b"#ifdef A\n#define k 3\n#endif\n#ifdef B\n#define k 4\n#endif\nint main(void) { }",
            "Twice(Some(Values { list: [1, 1, 0] }))",
            5,
            9,
        ),
        (
            SWITCH,
            b"#ifdef A\n#define k 3\n#endif\nint main(void) {\nassert(k);\n}",
            "Undeclared(Some(Values { list: [0] }))",
            5,
            8,
        ),
        (
            SWITCH,
            b"#ifdef A\n#define k 3\n#else\nint k;\n#endif\nint main(void) {\nk = 3;\n}",
            "ChangedConstant",
            7,
            1,
        ),
        // conditions below it, whether it is kept or not
        (
            SWITCH,
            b"#define k 3\n#if k\n#endif\nint main(void) { }",
            "Condition(DefinedName)",
            2,
            1,
        ),
        (
            SWITCH,
            b"#define k 3\n#ifdef A\n#elif defined(k)\n#endif\nint main(void) { }",
            "Condition(DefinedName)",
            3,
            1,
        ),
        (
            SWITCH,
            b"#ifdef A\n#define k 3\n#endif\n#ifndef k\n#endif\nint main(void) { }",
            "Condition(DefinedName)",
            4,
            1,
        ),
        // before a product of features, behind a name with two underscores and a fault of the grammar
        (
            MIXED,
            b"#define k 3\n#if k + N * N\n#endif\nint main(void) { }",
            "Condition(DefinedName)",
            2,
            1,
        ),
        (
            SWITCH,
            b"#define k 3\n#if k + __A\n#endif\nint main(void) { }",
            "Condition(ReservedName)",
            2,
            1,
        ),
        (
            SWITCH,
            b"#define k 3\n#if k +\n#endif\nint main(void) { }",
            "Condition(Syntax)",
            2,
            1,
        ),
        // other faults of the same line, and in `main`
        (
            SWITCH,
            b"#ifdef A\n#define k 3 3\n#endif\nint main(void) { }",
            "Directive",
            2,
            1,
        ),
        (
            SWITCH,
            b"int main(void) {\n#ifdef A\n#define k 3\n#endif\n}",
            "Syntax",
            3,
            1,
        ),
    ];
    for (features, file, wanted, line, column) in cases {
        family_reading::refuses(&rt, rt.alloc(), features, file, wanted, line, column)?;
    }
    Ok(())
}

#[test]
fn families_with_definitions_are_read(rt: HostRuntime) -> Result<(), Fail> {
    let files: [&[u8]; 3] = [
        // a condition above the definition: the name is unknown there
        b"#ifndef k\n#define k 3\n#endif\nint main(void) {\nassert(k == 3);\n}",
        b"#ifdef A\n#define k 3\n#else\nenum { j, k };\n#endif\nint main(void) {\nassert(k);\n}",
        b"#ifdef A\n#define k 3\n#else\nint k = 2;\n#endif\nint main(void) {\n#ifndef A\nk = 3;\n#endif\n}",
    ];
    for file in files {
        assert!(rt; family_reading::read(rt.alloc(), SWITCH, file)?.is_ok());
    }
    Ok(())
}

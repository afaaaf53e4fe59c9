//! Constants by `const`: the forms that are read, and the names that are changed.
//!
//! Lines and columns are counted by hand.
#![tactic(auto)]

use crate::family_reading;
use crate::family_reading::{MIXED, SWITCH};
use crate::files::{accepts, refuse_all};
use c_parser::read_plain;
use fam_outer::Includes;
use std::test::Fail;

#[test]
fn constants_have_their_values(rt: HostRuntime) -> Result<(), Fail> {
    let cases = [
        (
            "const int a = 1; int const b = -2, c = 0x10; static const int d = 4;\nstatic signed int const e = '\\n'; const int32_t f = 0; const int signed g = 7; signed const h = 8;\nint main(void) { }",
            "Program { names: Names { list: [Text { bytes: [97] }, Text { bytes: [98] }, Text { bytes: [99] }, Text { bytes: [100] }, Text { bytes: [101] }, Text { bytes: [102] }, Text { bytes: [103] }, Text { bytes: [104] }] }, start: Values { list: [1, -2, 16, 4, 10, 0, 7, 8] }, declared: Declarations { list: [] }, body: [], end: Place { line: 3, column: 18 } }",
        ),
        // a constant is read as a variable is
        (
            "int x;\nconst int k = 3;\nint main(void) { x = k; }",
            "Program { names: Names { list: [Text { bytes: [120] }, Text { bytes: [107] }] }, start: Values { list: [0, 3] }, declared: Declarations { list: [] }, body: [Assign { place: Place { line: 3, column: 18 }, target: 0, value: Var(1) }], end: Place { line: 3, column: 25 } }",
        ),
    ];
    for (file, wanted) in cases {
        accepts(&rt, rt.alloc(), file, wanted)?;
    }
    Ok(())
}

#[test]
fn other_forms_are_refused(rt: HostRuntime) -> Result<(), Fail> {
    let rows = r"
// without a value, first or later
const int k;\nint main(void) { } => Syntax 1:12
const int k = 1, j, i = 2;\nint main(void) { } => Syntax 1:19
int const k;\nint main(void) { } => Syntax 1:12
static const int k = ;\nint main(void) { } => Syntax 1:22
// twice, between the words of the type, or before `static`
const const int k = 1;\nint main(void) { } => Syntax 1:7
const int const k = 1;\nint main(void) { } => Syntax 1:11
int const const k = 1;\nint main(void) { } => Syntax 1:11
signed const int k = 1;\nint main(void) { } => Syntax 1:14
const static int k = 1;\nint main(void) { } => Syntax 1:7
// of a function, and inside `main`
extern const int input(void);\nint main(void) { } => Syntax 1:8
const int input(void);\nint main(void) { } => Syntax 1:11
int const main(void) { } => Syntax 1:11
int main(void) { const int k; } => Syntax 1:29
";
    refuse_all(&rt, rt.alloc(), rows)?;
    Ok(())
}

#[test]
fn changed_constants(rt: HostRuntime) -> Result<(), Fail> {
    let rows = r"
const int k = 2;\nint main(void) {\nk = 3;\n} => ChangedConstant 3:1
int const k = 2;\nint main(void) { k += 3; } => ChangedConstant 2:18
const int k = 2;\nint main(void) { k -= 3; } => ChangedConstant 2:18
const int k = 2;\nint main(void) { k *= 3; } => ChangedConstant 2:18
const int k = 2;\nint main(void) { k /= 3; } => ChangedConstant 2:18
const int k = 2;\nint main(void) { k %= 3; } => ChangedConstant 2:18
const int k = 2;\nint main(void) { k++; } => ChangedConstant 2:18
const int k = 2;\nint main(void) { k--; } => ChangedConstant 2:18
// at the name, which stands behind `++`
const int k = 2;\nint main(void) { ++k; } => ChangedConstant 2:20
const int k = 2;\nint main(void) { --\nk; } => ChangedConstant 3:1
const int k = 2;\nint main(void) { k = input(); } => ChangedConstant 2:18
int x;\nconst int k = 2, j = 3;\nint main(void) { if (x) x = j; else j = x; } => ChangedConstant 3:37
// the first of two faults, in both orders, and at one name the lower code
const int k = 2;\nint main(void) { k = y; } => ChangedConstant 2:18
const int k = 2;\nint main(void) { y = k; k = 1; } => Undeclared(None) 2:18
const int k = 2, k = 3;\nint main(void) { k = 1; } => Twice(None) 1:18
const int k = 2;\nint main(void) { k = 1; j = 1; } => ChangedConstant 2:18
const int k = 2;\nint main(void) { j = 1; } => Undeclared(None) 2:18
// an earlier phase
const int k = 2;\nint main(void) { k = 1; } int => Syntax 2:27
";
    refuse_all(&rt, rt.alloc(), rows)?;
    Ok(())
}

#[test]
fn changed_variables_are_read(rt: HostRuntime) -> Result<(), Fail> {
    let files: [&[u8]; 3] = [
        b"const int k = 2;\nint x = 3;\nint main(void) { x = k; x += k; ++x; x--; x = input(); }",
        b"int x = 3;\nint const k = 2;\nint main(void) { x = k - k; }",
        b"static const int k = 2;\nstatic int x;\nint main(void) { if (k == x) x = 1; }",
    ];
    for file in files {
        assert!(rt; read_plain(rt.alloc(), Includes::Assert, file).is_ok());
    }
    Ok(())
}

#[test]
fn changed_constants_of_families(rt: HostRuntime) -> Result<(), Fail> {
    let cases: [(&str, &[u8], &str, u32, u32); 9] = [
        (
            MIXED,
            b"const int k = 2;\nint main(void) {\nk = 3;\n}",
            "ChangedConstant",
            3,
            1,
        ),
        // a constant at some configurations, and a variable at the others
        (
            SWITCH,
            b"#ifdef A\nconst int k = 2;\n#else\nint k = 2;\n#endif\nint main(void) {\nk = 3;\n}",
            "ChangedConstant",
            7,
            1,
        ),
        (
            SWITCH,
            b"#ifdef A\nconst int k = 2;\n#else\nint k = 2;\n#endif\nint main(void) {\n#ifdef A\n++k;\n#endif\n}",
            "ChangedConstant",
            8,
            3,
        ),
        // the constant is declared in another group, or behind the variable
        (
            SWITCH,
            b"#ifdef A\nint k = 2;\n#else\nint const k = 2;\n#endif\nint main(void) {\nk--;\n}",
            "ChangedConstant",
            7,
            1,
        ),
        (
            MIXED,
            b"#if N >= 3\nconst int k = 2;\n#elif A\nint k;\n#else\nint k = 7;\n#endif\nint main(void) {\n#if N >= 4\nk = 3;\n#endif\n}",
            "ChangedConstant",
            10,
            1,
        ),
        // at one name the lower code, which has an example
        (
            SWITCH,
            b"#ifdef A\nconst int k = 2;\n#endif\nint main(void) {\nk = 3;\n}",
            "Undeclared(Some(Values { list: [0] }))",
            5,
            1,
        ),
        (
            SWITCH,
            b"const int k = 2;\nint main(void) {\nA = 3;\n}",
            "FeatureInCode",
            3,
            1,
        ),
        // the first place
        (
            SWITCH,
            b"const int k = 2;\nint main(void) {\nk = A;\n}",
            "ChangedConstant",
            3,
            1,
        ),
        (
            SWITCH,
            b"int x;\nconst int k = 2;\nint main(void) {\nx = A;\nk = 1;\n}",
            "FeatureInCode",
            4,
            5,
        ),
    ];
    for (features, file, wanted, line, column) in cases {
        family_reading::refuses(&rt, rt.alloc(), features, file, wanted, line, column)?;
    }
    Ok(())
}

/// No valid configuration keeps a change together with a declaration as a constant.
#[test]
fn families_change_their_variables(rt: HostRuntime) -> Result<(), Fail> {
    let files: [&[u8]; 3] = [
        b"#ifdef A\nconst int k = 2;\n#else\nint k = 2;\n#endif\nint main(void) {\n#ifndef A\nk = 3;\n#endif\n}",
        b"#ifdef A\nint k = 2;\n#else\nint const k = 2;\n#endif\nint main(void) {\n#ifdef A\nk++;\n#else\nassert(k);\n#endif\n}",
        b"const int k = 2;\n#ifdef A\nint x = 2;\n#else\nint x;\n#endif\nint main(void) {\nx = k;\n}",
    ];
    for file in files {
        assert!(rt; family_reading::read(rt.alloc(), SWITCH, file)?.is_ok());
    }
    Ok(())
}

//! Forms of statements that are short for others, and the words of the type `int`.
#![tactic(auto)]

use crate::family_reading;
use crate::family_reading::MIXED;
use crate::files::{accepts, refuse_all, refuses, repeated};
use c_parser::read_plain;
use fam_outer::Includes;
use std::test::Fail;

#[test]
fn statements_are_short_for_others(rt: HostRuntime) -> Result<(), Fail> {
    let cases = [
        (
            "int x;\nint main(void) { x *= x + 1; x /= 2; x %= -3; }",
            "Program { names: Names { list: [Text { bytes: [120] }] }, start: Values { list: [0] }, declared: Declarations { list: [] }, body: [Assign { place: Place { line: 2, column: 18 }, target: 0, value: Binary(Mul, Var(0), Binary(Add, Var(0), Number(1))) }, Assign { place: Place { line: 2, column: 30 }, target: 0, value: Binary(Div, Var(0), Number(2)) }, Assign { place: Place { line: 2, column: 38 }, target: 0, value: Binary(Rem, Var(0), Neg(Number(3))) }], end: Place { line: 2, column: 47 } }",
        ),
        (
            "int x;\nint main(void) { ++x; -- x; }",
            "Program { names: Names { list: [Text { bytes: [120] }] }, start: Values { list: [0] }, declared: Declarations { list: [] }, body: [Assign { place: Place { line: 2, column: 18 }, target: 0, value: Binary(Add, Var(0), Number(1)) }, Assign { place: Place { line: 2, column: 23 }, target: 0, value: Binary(Sub, Var(0), Number(1)) }], end: Place { line: 2, column: 29 } }",
        ),
        (
            "int x, y;\nint main(void) { if (x) ++y; else --\ny; }",
            "Program { names: Names { list: [Text { bytes: [120] }, Text { bytes: [121] }] }, start: Values { list: [0, 0] }, declared: Declarations { list: [] }, body: [If { place: Place { line: 2, column: 18 }, test: Var(0), yes: [Assign { place: Place { line: 2, column: 25 }, target: 1, value: Binary(Add, Var(1), Number(1)) }], no: [Assign { place: Place { line: 2, column: 35 }, target: 1, value: Binary(Sub, Var(1), Number(1)) }] }], end: Place { line: 3, column: 4 } }",
        ),
        (
            "int main(void) { input(); (void)input(); }",
            "Program { names: Names { list: [] }, start: Values { list: [] }, declared: Declarations { list: [] }, body: [Skip { place: Place { line: 1, column: 18 } }, Skip { place: Place { line: 1, column: 27 } }], end: Place { line: 1, column: 42 } }",
        ),
    ];
    for (file, wanted) in cases {
        accepts(&rt, rt.alloc(), file, wanted)?;
    }
    Ok(())
}

#[test]
fn types_have_several_words(rt: HostRuntime) -> Result<(), Fail> {
    let cases = [
        (
            "int32_t a; signed b = 2; signed int c, d; int signed e = -1;\nstatic int32_t f; static signed int g;\nextern signed input(void); int32_t input(); extern int signed input();\nint32_t main(void) { }",
            "Program { names: Names { list: [Text { bytes: [97] }, Text { bytes: [98] }, Text { bytes: [99] }, Text { bytes: [100] }, Text { bytes: [101] }, Text { bytes: [102] }, Text { bytes: [103] }] }, start: Values { list: [0, 2, 0, 0, -1, 0, 0] }, declared: Declarations { list: [] }, body: [], end: Place { line: 4, column: 22 } }",
        ),
        (
            "signed main() { }",
            "Program { names: Names { list: [] }, start: Values { list: [] }, declared: Declarations { list: [] }, body: [], end: Place { line: 1, column: 17 } }",
        ),
        (
            "int signed main(void) { }",
            "Program { names: Names { list: [] }, start: Values { list: [] }, declared: Declarations { list: [] }, body: [], end: Place { line: 1, column: 25 } }",
        ),
    ];
    for (file, wanted) in cases {
        accepts(&rt, rt.alloc(), file, wanted)?;
    }
    Ok(())
}

#[test]
fn other_forms_are_refused(rt: HostRuntime) -> Result<(), Fail> {
    let rows = r"
int x;\nint main(void) { ++x++; } => Syntax 2:21
int x;\nint main(void) { ++++x; } => Syntax 2:20
int x;\nint main(void) { ++(x); } => Syntax 2:20
int x;\nint main(void) { x = ++x; } => Syntax 2:22
int x;\nint main(void) { ++x = 1; } => Syntax 2:22
int main(void) { ++; } => Syntax 1:20
int x;\nint main(void) { x *= ; } => Syntax 2:23
int x;\nint main(void) { x * = 2; } => Syntax 2:20
int x;\nint main(void) { x %= input(); } => Syntax 2:23
int x;\nint main(void) { x = 1 /= 2; } => Syntax 2:24
int main(void) { ++y; } => Undeclared(None) 1:20
int main(void) { y /= 1; } => Undeclared(None) 1:18
int x;\nint main(void) { x %= y; } => Undeclared(None) 2:23
int int x;\nint main(void) { } => Syntax 1:5
signed signed x;\nint main(void) { } => Syntax 1:8
int32_t int x;\nint main(void) { } => Syntax 1:9
int32_t signed x;\nint main(void) { } => Syntax 1:9
signed int signed x;\nint main(void) { } => Syntax 1:12
static x;\nint main(void) { } => Syntax 1:8
static int signed main(void) { } => Syntax 1:19
extern signed int x;\nint main(void) { } => Syntax 1:19
signed int;\nint main(void) { } => Syntax 1:11
int int32_t;\nint main(void) { } => Syntax 1:5
int main(void) { int32_t int x; } => Syntax 1:26
unsigned x;\nint main(void) { } => Syntax 1:1
int x;\nint main(void) { x = (void)input(); } => Syntax 2:23
int main(void) { input; } => Syntax 1:23
int main(void) { (input)(); } => Syntax 1:19
int main(void) { input(1); } => Syntax 1:24
int x;\nint main(void) { (void)x; } => Syntax 2:24
void input(void);\nint main(void) { } => Syntax 1:6
";
    refuse_all(&rt, rt.alloc(), rows)?;
    Ok(())
}

#[test]
fn an_expression_has_64_operators(rt: HostRuntime) -> Result<(), Fail> {
    let alloc = rt.alloc();
    let front = "int x;\nint main(void) {\nx *= 1";
    let file = repeated(alloc, front, " + 1", 64, ";\n}\n")?;
    assert!(rt; read_plain(alloc, Includes::Assert, file.as_bytes()).is_ok());
    let file = repeated(alloc, front, " + 1", 65, ";\n}\n")?;
    refuses(&rt, alloc, file.as_bytes(), "TooDeep", 3, 264)
}

#[test]
fn groups_stand_around_them(rt: HostRuntime) -> Result<(), Fail> {
    let file =
        b"#if A\nint32_t x = 1;\n#else\nstatic signed x;\n#endif\nint main(void) {\n#if B\n++x;\n#else\nx %= 2;\n#endif\n}";
    match family_reading::read(rt.alloc(), MIXED, file)? {
        Ok(family) => {
            let shown = format!(in rt.alloc(); "{:?}", family.code)?;
            assert_eq!(rt;
                shown.as_str(),
                "Program { names: Names { list: [Text { bytes: [120] }] }, start: Values { list: [0] }, declared: Declarations { list: [Declared { target: 0, value: 1, guards: Guards { list: [Guard { number: 0, positive: true }] } }, Declared { target: 0, value: 0, guards: Guards { list: [Guard { number: 0, positive: false }] } }] }, body: [Cond { number: 1, yes: [Assign { place: Place { line: 8, column: 1 }, target: 0, value: Binary(Add, Var(0), Number(1)) }], no: [Assign { place: Place { line: 10, column: 1 }, target: 0, value: Binary(Rem, Var(0), Number(2)) }] }], end: Place { line: 12, column: 1 } }"
            );
        }
        Err(_) => panic!(rt; "refused"),
    }
    let cases: [(&[u8], &str, u32, u32); 6] = [
        (
            b"int x;\nint main(void) {\n++\n#if A\nx;\n#endif\n}",
            "GroupInsideStatement",
            4,
            1,
        ),
        (
            b"#if A\nsigned\n#endif\nint x;\nint main(void) { }",
            "GroupInsideStatement",
            3,
            1,
        ),
        (b"int main(void) {\n--A;\n}", "FeatureInCode", 2, 3),
        (b"int main(void) {\nN *= 2;\n}", "ChangedConstant", 2, 1),
        (
            b"#if A\nint x;\n#endif\nint main(void) {\n++x;\n}",
            "Undeclared(Some(Values { list: [0, 0, 0] }))",
            5,
            3,
        ),
        (
            b"signed x;\n#if A\nint32_t x;\n#endif\nint main(void) { }",
            "Twice(Some(Values { list: [1, 0, 0] }))",
            3,
            9,
        ),
    ];
    for (file, wanted, line, column) in cases {
        family_reading::refuses(&rt, rt.alloc(), MIXED, file, wanted, line, column)?;
    }
    Ok(())
}

//! Files and what they are read as.
#![tactic(auto)]

ghost use Rattle.std.specs.Prelude.{◌≡◌, IfOk, [], ◌∷◌};

use crate::rows::{is_row, parts_of};
use c_parser::{read_plain, read_plain_with};
use c_tree::Names;
use fam_outer::{FileRefusal, Includes, NoMemory, Place, Text};
use std::alloc::{AllocError, Global};
use std::process::Abort;
use std::test::Fail;

/// A file that is read as the program with this text.
pub(crate) fn accepts(
    rt: &impl Abort,
    alloc: Global,
    file: &str,
    wanted: &str,
) -> Result<(), Fail> {
    match read_plain(alloc, Includes::Assert, file.as_bytes()) {
        Ok(program) => {
            let shown = format!(in alloc; "{program:?}")?;
            assert_eq!(rt; shown.as_str(), wanted);
        }
        Err(_) => panic!(rt; "refused: {file}"),
    }
    Ok(())
}

/// A file that is refused, with the code's text and the place.
pub(crate) fn refuses(
    rt: &impl Abort,
    alloc: Global,
    file: &[u8],
    wanted: &str,
    line: u32,
    column: u32,
) -> Result<(), Fail> {
    match read_plain(alloc, Includes::Assert, file) {
        Err(FileRefusal::Fault { code, place }) => {
            let shown = format!(in alloc; "{code:?}")?;
            assert_eq!(rt; shown.as_str(), wanted);
            assert_eq!(rt; place, Place { line, column });
        }
        _ => panic!(rt; "not refused"),
    }
    Ok(())
}

/// Files that are refused, in a table: of each the code's text, and the place.
pub(crate) fn refuse_all(rt: &impl Abort, alloc: Global, rows: &str) -> Result<(), Fail> {
    for row in rows.lines().filter(|line| is_row(line)) {
        let (file, told) = parts_of(alloc, row)?;
        match read_plain(alloc, Includes::Assert, file.as_bytes()) {
            Err(FileRefusal::Fault { code, place }) => {
                let shown = format!(in alloc; "{code:?} {}:{}", place.line, place.column)?;
                assert_eq!(rt; shown.as_str(), told, "at {row}");
            }
            _ => panic!(rt; "not refused: {row}"),
        }
    }
    Ok(())
}

/// A file between these texts, with a text so many times between them.
pub(crate) fn repeated(
    alloc: Global,
    front: &str,
    middle: &str,
    count: u32,
    back: &str,
) -> Result<String, AllocError> {
    let mut text = String::new(alloc);
    text.push_str(front)?;
    for _ in 0..count {
        text.push_str(middle)?;
    }
    text.push_str(back)?;
    Ok(text)
}

#[test]
fn programs(rt: HostRuntime) -> Result<(), Fail> {
    let cases = [
        (
            "int main(void) { }",
            "Program { names: Names { list: [] }, start: Values { list: [] }, declared: Declarations { list: [] }, body: [], end: Place { line: 1, column: 18 } }",
        ),
        (
            "int x;\nint main(void) { x = x - 1 - 2; }",
            "Program { names: Names { list: [Text { bytes: [120] }] }, start: Values { list: [0] }, declared: Declarations { list: [] }, body: [Assign { place: Place { line: 2, column: 18 }, target: 0, value: Binary(Sub, Binary(Sub, Var(0), Number(1)), Number(2)) }], end: Place { line: 2, column: 33 } }",
        ),
        (
            "int x;\nint main(void) { x -= x + 1; }",
            "Program { names: Names { list: [Text { bytes: [120] }] }, start: Values { list: [0] }, declared: Declarations { list: [] }, body: [Assign { place: Place { line: 2, column: 18 }, target: 0, value: Binary(Sub, Var(0), Binary(Add, Var(0), Number(1))) }], end: Place { line: 2, column: 30 } }",
        ),
        (
            "int x;\nint main(void) { if (x) if (!x) ; else x++; }",
            "Program { names: Names { list: [Text { bytes: [120] }] }, start: Values { list: [0] }, declared: Declarations { list: [] }, body: [If { place: Place { line: 2, column: 18 }, test: Var(0), yes: [If { place: Place { line: 2, column: 25 }, test: Not(Var(0)), yes: [Skip { place: Place { line: 2, column: 33 } }], no: [Assign { place: Place { line: 2, column: 40 }, target: 0, value: Binary(Add, Var(0), Number(1)) }] }], no: [] }], end: Place { line: 2, column: 45 } }",
        ),
        (
            "extern int input(void); int input(); int x = -5, y;\nint main() { x = input(); while (x < 3) { y = +x; } return 7; }",
            "Program { names: Names { list: [Text { bytes: [120] }, Text { bytes: [121] }] }, start: Values { list: [-5, 0] }, declared: Declarations { list: [] }, body: [Input { place: Place { line: 2, column: 14 }, target: 0 }, While { place: Place { line: 2, column: 27 }, test: Binary(Lt, Var(0), Number(3)), step: [], body: [Block { place: Place { line: 2, column: 41 }, body: [Assign { place: Place { line: 2, column: 43 }, target: 1, value: Var(0) }] }] }, Leave { place: Place { line: 2, column: 53 }, jump: Return(Number(7)) }], end: Place { line: 2, column: 63 } }",
        ),
        (
            "int x;\nint main(void) { do { if (x) break; continue; } while (x - 1); return x; }",
            "Program { names: Names { list: [Text { bytes: [120] }] }, start: Values { list: [0] }, declared: Declarations { list: [] }, body: [Do { place: Place { line: 2, column: 18 }, body: [Block { place: Place { line: 2, column: 21 }, body: [If { place: Place { line: 2, column: 23 }, test: Var(0), yes: [Leave { place: Place { line: 2, column: 30 }, jump: Break }], no: [] }, Leave { place: Place { line: 2, column: 37 }, jump: Continue }] }], test_place: Place { line: 2, column: 56 }, test: Binary(Sub, Var(0), Number(1)) }, Leave { place: Place { line: 2, column: 64 }, jump: Return(Var(0)) }], end: Place { line: 2, column: 74 } }",
        ),
        (
            "#include <assert.h>\n/* one\n#if */ static int defined; // two\nint main(void) { assert(defined == 0); }",
            "Program { names: Names { list: [Text { bytes: [100, 101, 102, 105, 110, 101, 100] }] }, start: Values { list: [0] }, declared: Declarations { list: [] }, body: [Assert { place: Place { line: 4, column: 18 }, test: Binary(Eq, Var(0), Number(0)) }], end: Place { line: 4, column: 40 } }",
        ),
    ];
    for (file, wanted) in cases {
        accepts(&rt, rt.alloc(), file, wanted)?;
    }
    Ok(())
}

#[test]
fn refusals(rt: HostRuntime) -> Result<(), Fail> {
    let rows = r"
int main(void) { } /* x => OpenComment 1:20
int main(void) { }\\n => Splice 1:19
/* a\n*/ #include <assert.h>\nint main(void) { } => CommentAtDirective 1:1
#define X\nint main(void) { } => Directive 1:1
int main(void) { }\n #else x => Directive 2:2
int x;\nint main(void) {\n#if A\n#endif\n} => GroupHere 3:1
#if A\n#define X\n => GroupHere 1:1
int main(void) { @ } => StrayByte 1:18
int x;\nint main(void) { x = 08; } => Literal 2:22
 => Syntax 1:1
int main(void) {\n => Syntax 2:1
int x;\nint main(void) { if (x) x = 1; else x = 2; else x = 3; } => Syntax 2:44
int goto;\nint main(void) { } => Syntax 1:5
int main(void) { int y = 1; int; } => Syntax 1:32
int main(void) { { break; } } => Syntax 1:20
int main(void) { while (1) ; continue; } => Syntax 1:30
int main(void) { return; } => Syntax 1:24
int main(void) { do ; } => Syntax 1:23
int main(void) { } int x; => Syntax 1:20
static int main(void) { } => Syntax 1:12
int x;\nint main(void) { x = 1 } => Syntax 2:24
int x;\nint main(void) { x += ; } => Syntax 2:23
int main(void) { x = 1; } => Undeclared(None) 1:18
int x;\nint main(void) { x = y; } => Undeclared(None) 2:22
int x;\nint main(void) { if (z > 0) x = 1; } => Undeclared(None) 2:22
int x;\nint x;\nint main(void) { } => Twice(None) 2:5
int x, y, x;\nint main(void) { } => Twice(None) 1:11
int x, x; int main(void) { y = 1; } => Twice(None) 1:8
int x, x; int main(void) { y = } => Syntax 1:32
int a, b, c, d, e, f, g, h, i, j, k, l, m, n, o, p, q;\nint main(void) { } => TooManyVariables 1:53
int a, b, c, d, e, f, g, h, i, j, k, l, m, n, o, p, a, q;\nint main(void) { } => Twice(None) 1:53
";
    refuse_all(&rt, rt.alloc(), rows)?;
    let others: [(&[u8], &str, u32, u32); 2] = [
        (b"int main(void) { }\\\r\n", "Splice", 1, 19),
        (b"\xffint main(void) { }", "StrayByte", 1, 1),
    ];
    for (file, wanted, line, column) in others {
        refuses(&rt, rt.alloc(), file, wanted, line, column)?;
    }
    Ok(())
}

/// Numbers of each form: 31, 15 and 65, and comments with quotes in them.
#[test]
fn numbers(rt: HostRuntime) -> Result<(), Fail> {
    accepts(
        &rt,
        rt.alloc(),
        "int x = 0x1F, y = -017; // it's\nint main(void) { x = '\\x41'; /* don't */ y = '/'; }",
        "Program { names: Names { list: [Text { bytes: [120] }, Text { bytes: [121] }] }, start: Values { list: [31, -15] }, declared: Declarations { list: [] }, body: [Assign { place: Place { line: 2, column: 18 }, target: 0, value: Number(65) }, Assign { place: Place { line: 2, column: 42 }, target: 1, value: Number(47) }], end: Place { line: 2, column: 51 } }",
    )?;
    let cases: [(&[u8], &str, u32, u32); 8] = [
        (
            b"int x;\nint main(void) {\nx = '\\200';\n}",
            "Literal",
            3,
            5,
        ),
        (b"int x = 0x80000000;\nint main(void) { }", "Literal", 1, 9),
        (b"int x = 1u;\nint main(void) { }", "Literal", 1, 9),
        // no comment stands in a character constant that is read
        (b"int x;\nint main(void) { x = '//'; }", "Literal", 2, 22),
        (
            b"int x;\nint main(void) { x = '/*'; }",
            "OpenComment",
            2,
            23,
        ),
        (b"int x;\nint main(void) { x = 'a\n'; }", "Literal", 2, 22),
        (b"int x;\nint main(void) { x = '\\\n'; }", "Splice", 2, 23),
        (b"int int32_t;\nint main(void) { }", "Syntax", 1, 5),
    ];
    for (file, wanted, line, column) in cases {
        refuses(&rt, rt.alloc(), file, wanted, line, column)?;
    }
    Ok(())
}

#[test]
fn limits(rt: HostRuntime) -> Result<(), Fail> {
    let alloc = rt.alloc();
    let sum = repeated(
        alloc,
        "int x;\nint main(void) {\nx = 1",
        " + 1",
        64,
        ";\n}\n",
    )?;
    assert!(rt; read_plain(alloc, Includes::Assert, sum.as_bytes()).is_ok());
    let sum = repeated(
        alloc,
        "int x;\nint main(void) {\nx = 1",
        " + 1",
        65,
        ";\n}\n",
    )?;
    refuses(&rt, alloc, sum.as_bytes(), "TooDeep", 3, 263)?;
    let blocks = repeated(alloc, "int main(void) {", "{", 64, "")?;
    let whole = repeated(alloc, blocks.as_str(), "}", 65, "")?;
    assert!(rt; read_plain(alloc, Includes::Assert, whole.as_bytes()).is_ok());
    let blocks = repeated(alloc, "int main(void) {", "{", 65, "")?;
    let whole = repeated(alloc, blocks.as_str(), "}", 66, "")?;
    refuses(&rt, alloc, whole.as_bytes(), "TooDeep", 1, 81)?;
    let names = "int a, b, c, d, e, f, g, h, i, j, k, l, m, n, o, p;\nint main(void) { p = a; }";
    assert!(rt; read_plain(alloc, Includes::Assert, names.as_bytes()).is_ok());
    let long = repeated(alloc, "int main(void) { }", " ", 1_048_558, "")?;
    assert_eq!(rt; long.len(), 1_048_576);
    assert!(rt; read_plain(alloc, Includes::Assert, long.as_bytes()).is_ok());
    let longer = repeated(alloc, "int main(void) { }", " ", 1_048_559, "")?;
    refuses(&rt, alloc, longer.as_bytes(), "TooLong", 1, 1)
}

/// The names `y` and `x`.
fn given(alloc: Global) -> Result<Names, NoMemory>
    ensures { IfOk result (λ made. made ≡ (121 ∷ []) ∷ (120 ∷ []) ∷ []) }
{
    let mut list = Vec::new(alloc);
    list.push(Text::from_bytes(alloc, b"y")?)?;
    list.push(Text::from_bytes(alloc, b"x")?)?;
    Ok(Names::from_vec(list))
}

#[test]
fn given_names(rt: HostRuntime) -> Result<(), Fail> {
    let names = given(rt.alloc())?;
    match read_plain_with(
        rt.alloc(),
        Includes::Assert,
        &[],
        names.items(),
        b"int x;int main(){x=1;}",
    ) {
        Ok(program) => {
            let shown = format!(in rt.alloc(); "{program:?}")?;
            assert_eq!(rt;
                shown.as_str(),
                "Program { names: Names { list: [Text { bytes: [121] }, Text { bytes: [120] }] }, start: Values { list: [0, 0] }, declared: Declarations { list: [] }, body: [Assign { place: Place { line: 1, column: 18 }, target: 1, value: Number(1) }], end: Place { line: 1, column: 22 } }"
            );
        }
        Err(_) => panic!(rt; "refused"),
    }
    Ok(())
}

#[test]
fn includes_are_skipped(rt: HostRuntime) -> Result<(), Fail> {
    let file = b"#include <stdint.h>\n#include \"a.h\"\nint main(void) { }\n";
    assert!(rt; read_plain(rt.alloc(), Includes::Skip, file).is_ok());
    refuses(&rt, rt.alloc(), file, "Directive", 1, 1)?;
    let file = b"#include <assert.h>\n#include \"a.h\"\nint main(void) { }\n";
    refuses(&rt, rt.alloc(), file, "Directive", 2, 1)
}

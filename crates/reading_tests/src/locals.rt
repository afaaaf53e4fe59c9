//! Variables that `main` declares.
#![tactic(auto)]

use crate::family_reading;
use crate::family_reading::MIXED;
use crate::files::{accepts, refuse_all, refuses, repeated};
use c_parser::read_plain;
use fam_outer::Includes;
use std::test::Fail;

/// A declarator is a statement at its name, and the names stand behind the variables before `main`, and before the constants.
#[test]
fn declarations_are_statements(rt: HostRuntime) -> Result<(), Fail> {
    let cases = [
        (
            "int main(void) { int x = 1, y; }",
            "Program { names: Names { list: [Text { bytes: [120] }, Text { bytes: [121] }] }, start: Values { list: [0, 0] }, declared: Declarations { list: [] }, body: [Assign { place: Place { line: 1, column: 22 }, target: 0, value: Number(1) }, Input { place: Place { line: 1, column: 29 }, target: 1 }], end: Place { line: 1, column: 32 } }",
        ),
        (
            "const int k = 2;\nint g;\nint main(void) { signed int const c = g, d = input(); { int32_t b; } }",
            "Program { names: Names { list: [Text { bytes: [103] }, Text { bytes: [99] }, Text { bytes: [100] }, Text { bytes: [98] }, Text { bytes: [107] }] }, start: Values { list: [0, 0, 0, 0, 2] }, declared: Declarations { list: [] }, body: [Assign { place: Place { line: 3, column: 35 }, target: 1, value: Var(0) }, Input { place: Place { line: 3, column: 42 }, target: 2 }, Block { place: Place { line: 3, column: 55 }, body: [Input { place: Place { line: 3, column: 65 }, target: 3 }] }], end: Place { line: 3, column: 70 } }",
        ),
        // static variables leave no statement
        (
            "int main(void) { static int x = -7; x = 1; { static signed y; } }",
            "Program { names: Names { list: [Text { bytes: [120] }, Text { bytes: [121] }] }, start: Values { list: [-7, 0] }, declared: Declarations { list: [] }, body: [Assign { place: Place { line: 1, column: 37 }, target: 0, value: Number(1) }, Block { place: Place { line: 1, column: 44 }, body: [] }], end: Place { line: 1, column: 65 } }",
        ),
        // two declarations of one name, whose scopes are apart
        (
            "int main(void) { { int x; } int x = 1; }",
            "Program { names: Names { list: [Text { bytes: [120] }] }, start: Values { list: [0] }, declared: Declarations { list: [] }, body: [Block { place: Place { line: 1, column: 18 }, body: [Input { place: Place { line: 1, column: 24 }, target: 0 }] }, Assign { place: Place { line: 1, column: 33 }, target: 0, value: Number(1) }], end: Place { line: 1, column: 40 } }",
        ),
    ];
    for (file, wanted) in cases {
        accepts(&rt, rt.alloc(), file, wanted)?;
    }
    Ok(())
}

#[test]
fn other_declarations_are_refused(rt: HostRuntime) -> Result<(), Fail> {
    let rows = r"
int main(void) { int x = ; } => Syntax 1:26
int main(void) { int x, = 1; } => Syntax 1:25
int main(void) { int x y; } => Syntax 1:24
int main(void) { int x = 1 = 2; } => Syntax 1:28
int main(void) { int x = input() + 1; } => Syntax 1:34
int main(void) { int x += 1; } => Syntax 1:24
int main(void) { const x = 1; } => Syntax 1:24
int main(void) { const int const x = 1; } => Syntax 1:28
int main(void) { static x; } => Syntax 1:25
int main(void) { static int x = y; } => Syntax 1:33
int main(void) { if (1) static int x; } => Syntax 1:25
int main(void) { enum { A }; } => Syntax 1:18
int main(void) { if (1) int x; } => Syntax 1:25
int main(void) { if (1) ; else const int x = 1; } => Syntax 1:32
int main(void) { int x = 1, y = y; } => Undeclared(None) 1:33
int main(void) { int x; { int x; } } => Twice(None) 1:31
int main(void) { { int x; } x = 1; } => Undeclared(None) 1:29
int main(void) { { static int x; } { int x; } } => Twice(None) 1:42
int main(void) { { int x; } { static int x; } } => Twice(None) 1:42
";
    refuse_all(&rt, rt.alloc(), rows)?;
    Ok(())
}

/// Each class has its own limit: 16 variables, 16 names of `main`, with `const` or without, and 16 constants.
#[test]
fn names_of_main_are_counted_apart(rt: HostRuntime) -> Result<(), Fail> {
    let alloc = rt.alloc();
    let full =
        "int a,b,c,d,e,f,g,h,i,j,k,l,m,n,o,p;\nenum {A,B,C,D,E,F,G,H,I,J,K,L,M,N,O,P};\nint main(void) {\nint q,r,s,t,u,v,w,x,y,z,Q,R,S,T;\nconst int U=1,V=2";
    let file = repeated(alloc, full, "", 0, ";\n}\n")?;
    assert!(rt; read_plain(alloc, Includes::Assert, file.as_bytes()).is_ok());
    let file = repeated(alloc, full, ",W=3", 1, ";\n}\n")?;
    refuses(&rt, alloc, file.as_bytes(), "TooManyVariables", 5, 19)
}

#[test]
fn an_initialiser_has_64_operators(rt: HostRuntime) -> Result<(), Fail> {
    let alloc = rt.alloc();
    let front = "int main(void) {\nint x = 1";
    let file = repeated(alloc, front, " + 1", 64, ", y = 1 + 1;\n}\n")?;
    assert!(rt; read_plain(alloc, Includes::Assert, file.as_bytes()).is_ok());
    let file = repeated(alloc, front, " + 1", 65, ";\n}\n")?;
    refuses(&rt, alloc, file.as_bytes(), "TooDeep", 2, 267)
}

#[test]
fn groups_stand_around_them(rt: HostRuntime) -> Result<(), Fail> {
    let file = b"int main(void) {\n#if A\nint x = 1;\n#else\nconst int x = 2;\n#endif\n}";
    match family_reading::read(rt.alloc(), MIXED, file)? {
        Ok(family) => {
            let shown = format!(in rt.alloc(); "{:?}", family.code)?;
            assert_eq!(rt;
                shown.as_str(),
                "Program { names: Names { list: [Text { bytes: [120] }] }, start: Values { list: [0] }, declared: Declarations { list: [] }, body: [Cond { number: 0, yes: [Assign { place: Place { line: 3, column: 5 }, target: 0, value: Number(1) }], no: [Assign { place: Place { line: 5, column: 11 }, target: 0, value: Number(2) }] }], end: Place { line: 7, column: 1 } }"
            );
        }
        Err(_) => panic!(rt; "refused"),
    }
    Ok(())
}

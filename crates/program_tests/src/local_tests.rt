//! Variables that `main` declares.

use std::test::Fail;
use test_runs::comparing::{compares, two_files};

const MODEL: &[u8] = b"{\"features\":[{\"name\":\"A\"}]}\n";

/// A declaration with an initialiser is an assignment, and one without reads an input; a list is read one by one.
#[test]
fn declarations_are_statements(rt: HostRuntime) -> Result<(), Fail> {
    let rows = [
        (
            "run m f --inputs=5,9",
            "int main(void){\nint a=2,b;\n{\nint c=a+b;\na=c;\n}\nsigned int d = input();\na+=d;\n}\n",
            "ended a=16 b=5 c=7 d=9\n",
        ),
        // behind the variables before `main`, and before the constants
        (
            "run m f --inputs=9",
            "#define K 1\nint a=2;\nint main(void){\nint b=3;\na=b+K;\n}\n",
            "ended a=4 b=3 K=1\n",
        ),
        // with `const` or without
        (
            "run m f",
            "int a;\nenum { K = 1 };\nint main(void){\nconst int c=5;\nint b=c+K;\na=b;\n}\n",
            "ended a=6 c=5 b=6 K=1\n",
        ),
        // each declarator is a step of its own, at its name
        (
            "run m f --steps=1",
            "int f(void);\nint main(void)\n{\nint a = 1, b = f();\n}\n",
            "at 4:12 a=1 b=0\n",
        ),
        // an initialiser is entered again with its block
        (
            "run m f",
            "int main(void)\n{\nint i = 0, s = 0;\nwhile (i < 3) {\nint x = i;\nx += 1;\ns += x;\ni++;\n}\n}\n",
            "ended i=3 s=6 x=3\n",
        ),
        (
            "invariants m f",
            "int main(void)\n{\nint a = 1, b;\n}\n",
            "3:5: if 1: a in [0,0], b in [0,0]\n3:12: if 1: a in [1,1], b in [0,0]\n4:1: if 1: a in [1,1], b in [-2147483648,2147483647]\nalarms: 0\n",
        ),
        // without an initialiser a value is any
        (
            "analyse m f",
            "int main(void) {\nint x;\nassert(x != 7);\n}\n",
            "3:1: assertion if 1; example A=0\nalarms: 1\n",
        ),
        // in groups
        (
            "analyse m f",
            "int main(void) {\n#ifdef A\nint a = 1;\n#else\nconst int a = 2;\n#endif\nassert(a == 1);\n}\n",
            "7:1: assertion if !A; example A=0\nalarms: 1\n",
        ),
        (
            "project m f A",
            "int main(void) {\n#ifdef A\nint a = 1, b;\n#else\nint a = 2;\n#endif\n}\n",
            "int main(void) {\n\nint a = 1, b;\n\n\n\n}\n",
        ),
    ];
    for (line, file, output) in rows {
        let contents = two_files(MODEL, file.as_bytes());
        let status = if output.ends_with("alarms: 1\n") {
            1
        } else {
            0
        };
        compares(
            rt.alloc(),
            line,
            &contents,
            (status, output.as_bytes(), b""),
        )?;
    }
    Ok(())
}

/// A name of blocks beside one another is one variable, which each block sets anew; a name that is out of scope may be declared
/// again, and no constant of another block keeps it from being changed.
#[test]
fn blocks_are_scopes(rt: HostRuntime) -> Result<(), Fail> {
    let rows = [
        (
            "run m f --inputs=5,9",
            "int main(void){\nint a=2,b;\n{\nint c=a+b;\na=c;\n}{\nint c;\na+=c;\n}}\n",
            "ended a=16 b=5 c=9\n",
        ),
        (
            "run m f",
            "int main(void){\n{\nconst int a=1;\n}\n{\nint a=2;\na+=3;\n}\n}\n",
            "ended a=5\n",
        ),
        (
            "analyse m f",
            "int x;\nint main(void) {\nif (x) {\nint t = 1;\nx = t;\n} else {\nint t = 2;\nx = t;\n}\nassert(x == 2);\n}\n",
            "alarms: 0\n",
        ),
        // a declaration in a group of a block, and behind the block
        (
            "analyse m f",
            "int main(void) {\n{\n#ifdef A\nint a = 1;\n#else\nint a = 2;\n#endif\na++;\n}\nint a = 3;\nassert(a == 3);\n}\n",
            "alarms: 0\n",
        ),
        // the end of a block in a group leaves what stands around the group
        (
            "analyse m f",
            "int main(void) {\nint a = 1;\n#ifdef A\n{\nint b = 2;\na = b;\n}\n#endif\nassert(a == 1);\n}\n",
            "9:1: assertion if A; example A=1\nalarms: 1\n",
        ),
    ];
    for (line, file, output) in rows {
        let contents = two_files(MODEL, file.as_bytes());
        let status = if output.ends_with("alarms: 1\n") {
            1
        } else {
            0
        };
        compares(
            rt.alloc(),
            line,
            &contents,
            (status, output.as_bytes(), b""),
        )?;
    }
    Ok(())
}

/// F13 behind a block, with the least configuration that keeps the use where no declaration is in scope; F14 in a block within a
/// scope; F23 in the scope of a constant.
#[test]
fn scopes_are_kept(rt: HostRuntime) -> Result<(), Fail> {
    let rows = [
        (
            "plain f",
            "int main(void) {\n{\nint a = 1;\n}\na = 2;\n}\n",
            "file: F13 at 5:1\n",
        ),
        (
            "analyse m f",
            "int main(void) {\n{\nint a = 1;\n}\na = 2;\n}\n",
            "file: F13 at 5:1; example A=0\n",
        ),
        // the second block has no declaration where A is on
        (
            "analyse m f",
            "int main(void) {\n{\nint a = 1;\n}\n{\n#ifndef A\nint a = 2;\n#endif\na++;\n}\n}\n",
            "file: F13 at 9:1; example A=1\n",
        ),
        (
            "plain f",
            "int main(void) {\nint a = 1;\n{\nint b = a, a = b;\n}\n}\n",
            "file: F14 at 4:12\n",
        ),
        (
            "plain f",
            "int main(void) {\n{\nint a = 1;\n}\nint a = 2;\n{\n{\nint a = 3;\n}\n}\n}\n",
            "file: F14 at 8:5\n",
        ),
        (
            "plain f",
            "int main(void) {\n{\nconst int a = 1;\n{\na++;\n}\n}\n}\n",
            "file: F23 at 5:1\n",
        ),
    ];
    for (line, file, told) in rows {
        let contents = two_files(MODEL, file.as_bytes());
        compares(rt.alloc(), line, &contents, (4, b"", told.as_bytes()))?;
    }
    Ok(())
}

/// 16 variables stand before `main` and 16 in it, with `const` or without, beside 16 constants.
#[test]
fn names_are_counted_by_class(rt: HostRuntime) -> Result<(), Fail> {
    const MOST: &str =
        "int a0,a1,a2,a3,a4,a5,a6,a7,a8,a9,a10,a11,a12,a13,a14,a15;\nenum{c0,c1,c2,c3,c4,c5,c6,c7,c8,c9,c10,c11,c12,c13,c14,c15};\nint main(void){\nint b0=1,b1=1,b2=1,b3=1,b4=1,b5=1,b6=1,b7=1,b8=1,b9=1,b10=1,b11=1,b12=1,b13=1,b14=1;\nconst int b15=1;\nassert(b15==c1);\n}\n";
    const LOCAL: &str =
        "int main(void){\nint b0=1,b1=1,b2=1,b3=1,b4=1,b5=1,b6=1,b7=1,b8=1,b9=1,b10=1,b11=1,b12=1,b13=1,b14=1,b15=1;\n{\nint c=1;\n}\n}\n";
    let rows = [
        ("plain f", MOST, 0, "alarms: 0\n", ""),
        ("analyse m f", MOST, 0, "alarms: 0\n", ""),
        ("plain f", LOCAL, 4, "", "file: F17 at 4:5\n"),
        ("analyse m f", LOCAL, 4, "", "file: F17 at 4:5\n"),
    ];
    for (line, file, status, output, told) in rows {
        let contents = two_files(MODEL, file.as_bytes());
        compares(
            rt.alloc(),
            line,
            &contents,
            (status, output.as_bytes(), told.as_bytes()),
        )?;
    }
    Ok(())
}

/// F12 of forms, F13 of scope, F14 of a second declaration, F17 of the 17th variable, F23 of constants.
#[test]
fn declarations_are_refused(rt: HostRuntime) -> Result<(), Fail> {
    let rows = [
        (
            "analyse m f",
            "int main(void) {\n#ifdef A\nint a=1;\n#endif\na=2;\n}\n",
            "file: F13 at 5:1; example A=0\n",
        ),
        (
            "plain f",
            "int main(void) {\nint a = a + 1;\n}\n",
            "file: F13 at 2:9\n",
        ),
        (
            "analyse m f",
            "int main(void) {\nint a = a + 1;\n}\n",
            "file: F13 at 2:9; example A=0\n",
        ),
        (
            "plain f",
            "int main(void) {\na = 1;\nint a;\n}\n",
            "file: F13 at 2:1\n",
        ),
        (
            "plain f",
            "int x;\nint main(void) {\nif (x) { int x; }\n}\n",
            "file: F14 at 3:14\n",
        ),
        (
            "analyse m f",
            "int main(void) {\n#ifdef A\nint a;\n#endif\nint a;\n}\n",
            "file: F14 at 5:5; example A=1\n",
        ),
        (
            "analyse m f",
            "int main(void) {\nint A = 1;\n}\n",
            "file: F15 at 2:5\n",
        ),
        (
            "plain f",
            "int main(void) {\nconst int a = 2;\na = 3;\n}\n",
            "file: F23 at 3:1\n",
        ),
        (
            "analyse m f",
            "int main(void) {\nint const a = 2, b = a;\n#ifdef A\n++b;\n#endif\n}\n",
            "file: F23 at 4:3\n",
        ),
        // a declaration is no statement of its own, a constant has an initialiser, a declarator a name
        (
            "plain f",
            "int x;\nint main(void) {\nwhile (x < 3)\nint y = 1;\n}\n",
            "file: F12 at 4:1\n",
        ),
        (
            "plain f",
            "int main(void) {\nconst int a;\n}\n",
            "file: F12 at 2:12\n",
        ),
        (
            "plain f",
            "int main(void) {\nint a = 1, ;\n}\n",
            "file: F12 at 2:12\n",
        ),
        (
            "plain f",
            "int main(void) {\nint a = 1 b;\n}\n",
            "file: F12 at 2:11\n",
        ),
        (
            "plain f",
            "int x;\nint main(void) {\nx = 1, x = 2;\n}\n",
            "file: F12 at 3:6\n",
        ),
        (
            "plain f",
            "int main(void){\nint v0;\nint v1;\nint v2;\nint v3;\nint v4;\nint v5;\nint v6;\nint v7;\nint v8;\nint v9;\nint v10;\nint v11;\nint v12;\nint v13;\nint v14;\nint v15;\nint v16;\n}\n",
            "file: F17 at 18:5\n",
        ),
    ];
    for (line, file, told) in rows {
        let contents = two_files(MODEL, file.as_bytes());
        compares(rt.alloc(), line, &contents, (4, b"", told.as_bytes()))?;
    }
    Ok(())
}

/// A static variable of `main` has its value from the start, so that its declaration is no statement, and keeps what it is given when its
/// block is entered again.
#[test]
fn static_variables_have_their_values(rt: HostRuntime) -> Result<(), Fail> {
    let rows = [
        (
            "run m f",
            "int main(void){\nstatic int a=-5,b;\nb=a;\n}\n",
            "ended a=-5 b=-5\n",
        ),
        (
            "run m f --steps=0",
            "int main(void)\n{\nstatic int a = 0x10;\na = 2;\n}\n",
            "at 4:1 a=16\n",
        ),
        (
            "run m f",
            "int main(void)\n{\nint i = 0;\nwhile (i < 3) {\nstatic int n = 10;\nn++;\ni++;\n}\n}\n",
            "ended i=3 n=13\n",
        ),
        // with `const`, behind the variables before `main` and before the constants
        (
            "run m f",
            "enum { J = 1 };\nint x;\nint main(void){\nstatic int const k=-3;\nx=k+J;\n}\n",
            "ended x=-2 k=-3 J=1\n",
        ),
        (
            "invariants m f",
            "int main(void) {\nstatic int a = 4;\n;\n}\n",
            "3:1: if 1: a in [4,4]\n4:1: if 1: a in [4,4]\nalarms: 0\n",
        ),
        (
            "analyse m f",
            "int main(void) {\nwhile (1) {\nstatic int n;\nassert(n < 2);\nn = 1;\n}\n}\n",
            "alarms: 0\n",
        ),
        // in groups
        (
            "analyse m f",
            "int main(void) {\n#ifdef A\nstatic int a = 1;\n#else\nstatic int a = 2;\n#endif\nassert(a == 1);\n}\n",
            "7:1: assertion if !A; example A=0\nalarms: 1\n",
        ),
        // static in one variant, and another variable in the others
        (
            "analyse m f",
            "int main(void) {\n#ifdef A\n{\nstatic int s = 3;\nassert(s == 3);\n}\n#else\n{\nint s = 5;\nassert(s == 5);\n}\n#endif\n}\n",
            "alarms: 0\n",
        ),
        (
            "project m f A",
            "int main(void) {\n#ifdef A\nstatic int a = 1, b;\n#endif\n}\n",
            "int main(void) {\n\nstatic int a = 1, b;\n\n}\n",
        ),
    ];
    for (line, file, output) in rows {
        let contents = two_files(MODEL, file.as_bytes());
        let status = if output.ends_with("alarms: 1\n") {
            1
        } else {
            0
        };
        compares(
            rt.alloc(),
            line,
            &contents,
            (status, output.as_bytes(), b""),
        )?;
    }
    Ok(())
}

/// F12 of forms, F13 behind its block, F14 of another variable of its name in `main`, F17 of the 17th, F23 of a constant.
#[test]
fn static_variables_are_refused(rt: HostRuntime) -> Result<(), Fail> {
    let rows = [
        (
            "plain f",
            "int main(void){\n{\nstatic int s;\n}{\nint s=5;\n}}\n",
            "file: F14 at 5:5\n",
        ),
        (
            "plain f",
            "int main(void) {\n{\nint s = 1;\n}\n{\nstatic int s;\n}\n}\n",
            "file: F14 at 6:12\n",
        ),
        (
            "plain f",
            "int main(void) {\n{\nstatic int s;\n}\n{\nint t, u;\nstatic const int v = 1, s = 2;\n}\n}\n",
            "file: F14 at 7:25\n",
        ),
        (
            "analyse m f",
            "int main(void) {\n{\nstatic int s;\n}\n#ifdef A\n{\nint s = 5;\n}\n#endif\n}\n",
            "file: F14 at 7:5; example A=1\n",
        ),
        (
            "plain f",
            "int s;\nint main(void) {\nstatic int s;\n}\n",
            "file: F14 at 3:12\n",
        ),
        (
            "plain f",
            "int main(void) {\n{\nstatic int s;\n}\ns = 1;\n}\n",
            "file: F13 at 5:1\n",
        ),
        (
            "plain f",
            "int main(void) {\nstatic const int k = 2;\nk = 3;\n}\n",
            "file: F23 at 3:1\n",
        ),
        (
            "plain f",
            "int main(void) {\nstatic int a,b,c,d,e,f,g,h,i,j,k,l,m,n,o,p,q;\n}\n",
            "file: F17 at 2:44\n",
        ),
        // it stands in a list; its value is a number, and a constant has one
        (
            "plain f",
            "int main(void) {\nif (1) static int s;\n}\n",
            "file: F12 at 2:8\n",
        ),
        (
            "plain f",
            "int x;\nint main(void) {\nstatic int s = x;\n}\n",
            "file: F12 at 3:16\n",
        ),
        (
            "plain f",
            "int main(void) {\nstatic int s = 1 + 1;\n}\n",
            "file: F12 at 2:18\n",
        ),
        (
            "plain f",
            "int main(void) {\nstatic const int k;\n}\n",
            "file: F12 at 2:19\n",
        ),
        (
            "plain f",
            "int main(void) {\nconst static int k = 2;\n}\n",
            "file: F12 at 2:7\n",
        ),
    ];
    for (line, file, told) in rows {
        let contents = two_files(MODEL, file.as_bytes());
        compares(rt.alloc(), line, &contents, (4, b"", told.as_bytes()))?;
    }
    Ok(())
}

//! Functions outside: their declarations, and calls whose value is an input or is dropped.

use std::test::Fail;
use test_runs::comparing::{compares, two_files};

const MODEL: &[u8] = b"{\"features\":[{\"name\":\"A\"}]}\n";

/// A call whose value is taken is an input, and one whose value is dropped takes none.
#[test]
fn calls_are_inputs(rt: HostRuntime) -> Result<(), Fail> {
    let rows = [
        (
            "run m f --inputs=7",
            "int f(void);\nvoid g(void);\nsigned x;\nint32_t y;\nint main(void){\nx=f();\ng();\n(void)f();\n--x;\ny=-x;\n}\n",
            "ended x=6 y=-6\n",
        ),
        (
            "run m f --inputs=7",
            "int x;\nint main(void) {\ninput();\n(void)input();\nx = input();\n}\n",
            "ended x=7\n",
        ),
        (
            "run m f A --inputs=7",
            "int x;\nint main(void) {\n#ifdef A\ninput();\n#else\nx = input();\n#endif\n}\n",
            "ended x=0\n",
        ),
        (
            "invariants m f",
            "int x;\nint main(void) {\nif (x) (void)input(); else input();\n}\n",
            "3:1: if 1: x in [0,0]\n3:8: if 1: unreachable\n3:28: if 1: x in [0,0]\n4:1: if 1: x in [0,0]\nalarms: 0\n",
        ),
        // of one type in each variant
        (
            "run m f A --inputs=7",
            "#ifdef A\nint f(void);\n#else\nvoid f(void);\n#endif\nint x;\nint main(void) {\nf();\n#ifdef A\nx = f();\n#endif\n}\n",
            "ended x=7\n",
        ),
        // several times, and with a function's name as no name of the program
        (
            "run m f --inputs=5,6",
            "int b;\nint a(void);\nextern signed int a();\nint c;\nint main(void) {\nc = a();\nb = a();\n}\n",
            "ended b=6 c=5\n",
        ),
    ];
    for (line, file, output) in rows {
        let contents = two_files(MODEL, file.as_bytes());
        compares(rt.alloc(), line, &contents, (0, output.as_bytes(), b""))?;
    }
    Ok(())
}

/// F13 of calls, F14 and F15 of declarations, with the least configuration where there is one, and F12.
#[test]
fn calls_and_declarations_are_refused(rt: HostRuntime) -> Result<(), Fail> {
    let rows = [
        // declared in some variants alone
        (
            "analyse m f",
            "#ifdef A\nint f(void);\n#endif\nint x;\nint main(void) {\nx = f();\n}\n",
            "file: F13 at 6:5; example A=0\n",
        ),
        // without a value in some
        (
            "analyse m f",
            "#ifndef A\nint f(void);\n#else\nvoid f(void);\n#endif\nint x;\nint main(void) {\nf();\nx = f();\n}\n",
            "file: F13 at 9:5; example A=1\n",
        ),
        // without a value in all
        (
            "plain f",
            "void g(void);\nint x;\nint main(void) {\nx = g();\n}\n",
            "file: F13 at 4:5\n",
        ),
        (
            "analyse m f",
            "int f(void);\n#ifdef A\nvoid f(void);\n#endif\nint main(void) { }\n",
            "file: F14 at 3:6; example A=1\n",
        ),
        (
            "plain f",
            "void f(void);\nextern int f(void);\nint main(void) { }\n",
            "file: F14 at 2:12\n",
        ),
        (
            "analyse m f",
            "int A(void);\nint main(void) { }\n",
            "file: F15 at 1:5\n",
        ),
        // of what no declaration makes a function; with an argument; as a variable
        (
            "plain f",
            "int main(void) {\nf();\n}\n",
            "file: F12 at 2:2\n",
        ),
        (
            "plain f",
            "int f(void);\nint main(void) {\nf(1);\n}\n",
            "file: F12 at 3:3\n",
        ),
        (
            "plain f",
            "int f(void);\nint f;\nint main(void) { }\n",
            "file: F12 at 2:6\n",
        ),
    ];
    for (line, file, told) in rows {
        let contents = two_files(MODEL, file.as_bytes());
        compares(rt.alloc(), line, &contents, (4, b"", told.as_bytes()))?;
    }
    Ok(())
}

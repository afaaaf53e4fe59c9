//! Loops that are written with `for`.

use std::test::Fail;
use test_runs::comparing::{compares, two_files};

const MODEL: &[u8] = b"{\"features\":[{\"name\":\"A\"},{\"name\":\"N\",\"min\":0,\"max\":7}]}\n";

/// Two rounds of a loop: what stands before the test, the test, the body, the step.
const COUNTED: &str = "int i;\nint main(void){\nfor(i=0;i<2;i++)\n;\n}\n";

/// A run does each part of a `for` at its own place, with a step of the run each.
#[test]
fn runs_go_part_by_part(rt: HostRuntime) -> Result<(), Fail> {
    let rows = [
        ("run m f N=0 --steps=0", COUNTED, "at 3:5 i=0\n"),
        ("run m f N=0 --steps=1", COUNTED, "at 3:9 i=0\n"),
        ("run m f N=0 --steps=2", COUNTED, "at 4:1 i=0\n"),
        ("run m f N=0 --steps=3", COUNTED, "at 3:13 i=0\n"),
        ("run m f N=0 --steps=4", COUNTED, "at 3:9 i=1\n"),
        ("run m f N=0 --steps=5", COUNTED, "at 4:1 i=1\n"),
        ("run m f N=0 --steps=7", COUNTED, "at 3:9 i=2\n"),
        ("run m f N=0 --steps=8", COUNTED, "ended i=2\n"),
        // all parts may be absent: the test is then 1, at its semicolon
        (
            "run m f N=0 --steps=2",
            "int x;\nint main(void){\nfor(;;)x=x+1;\n}\n",
            "at 3:6 x=1\n",
        ),
        (
            "run m f N=0 --steps=3",
            "int x;\nint main(void){\nfor(;;)x=x+1;\n}\n",
            "at 3:8 x=1\n",
        ),
        // inputs, and the short forms
        (
            "run m f N=0 --inputs=1,5",
            "int x,n;\nint main(void){\nfor(x=input();x<3;x=input())n++;\n}\n",
            "ended x=5 n=1\n",
        ),
        (
            "run m f N=0",
            "int x;\nint main(void){\nfor(++x;x<20;x*=3);\n}\n",
            "ended x=27\n",
        ),
        (
            "run m f N=0",
            "int x=3,s;\nint main(void){\nfor(;x;--x)s+=x;\n}\n",
            "ended x=0 s=6\n",
        ),
        // an `else` belongs to the nearest `if` that it may belong to
        (
            "run m f N=0",
            "int x,y;\nint main(void){\nfor(;x<1;x++)if(x)y=1;else y=2;\n}\n",
            "ended x=1 y=2\n",
        ),
        (
            "run m f N=0",
            "int x,y;\nint main(void){\nif(x)for(y=4;;);else y=3;\n}\n",
            "ended x=0 y=3\n",
        ),
        // a `for` is one statement: what stands before its test belongs to the branch
        (
            "run m f N=0",
            "int x,y=5;\nint main(void){\nif(x)for(y=0;y<3;y++);\n}\n",
            "ended x=0 y=5\n",
        ),
        (
            "run m f N=0",
            "int x,y,n;\nint main(void){\nfor(x=0;x<2;x++)for(y=0;y<3;y++)n++;\n}\n",
            "ended x=2 y=3 n=6\n",
        ),
    ];
    for (line, file, output) in rows {
        let contents = two_files(MODEL, file.as_bytes());
        compares(rt.alloc(), line, &contents, (0, output.as_bytes(), b""))?;
    }
    Ok(())
}

/// The analysis goes through the body, the step and the test again; places stand in the order of the text.
#[test]
fn analyses_go_part_by_part(rt: HostRuntime) -> Result<(), Fail> {
    let rows = [
        (
            "invariants m f",
            "int i;\nint main(void){\nfor(i=0;i<3;++i);\n}\n",
            0,
            "3:5: if 1: i in [0,0]\n3:9: if 1: i in [0,3]\n3:13: if 1: i in [0,2]\n3:17: if 1: i in [0,2]\n4:1: if 1: i in [3,3]\nalarms: 0\n",
        ),
        (
            "analyse m f",
            "int x;\nint main(void){\nfor(x=0;x<N;x++);\nassert(x!=3);\n}\n",
            1,
            "4:1: assertion if N >= 3 && N <= 3; example A=0 N=3\nalarms: 1\n",
        ),
        (
            "analyse m f",
            "int x,y;\nint main(void){\nfor(x=0;x<2;x++){\n#ifdef A\ny=1;\n#endif\n}\nassert(y==0);\n}\n",
            1,
            "8:1: assertion if A; example A=1 N=0\nalarms: 1\n",
        ),
        // the step may stop, and what it does is known at the test
        (
            "plain f",
            "int x;\nint main(void){\nfor(x=1;x>0;x*=2);\n}\n",
            1,
            "3:13: overflow\nalarms: 1\n",
        ),
        (
            "plain f",
            "int x,y;\nint main(void){\nfor(x=6;x>0;y=7/x)x-=2;\n}\n",
            1,
            "3:13: zero-divisor\nalarms: 1\n",
        ),
        (
            "certify m f",
            "int x;\nint main(void){\nfor(x=0;x<3;x++);\n}\n",
            0,
            "famlint certificate 1 stop\nloop 3:9 if 1: x in [0,3]\n",
        ),
        (
            "project m f N=0",
            "int x;\nint main(void){\nfor(x=0;x<3;x++){\n#ifdef A\nx++;\n#endif\n}\n}\n",
            0,
            "int x;\nint main(void){\nfor(x=0;x<3;x++){\n\n\n\n}\n}\n",
        ),
    ];
    for (line, file, status, output) in rows {
        let contents = two_files(MODEL, file.as_bytes());
        compares(
            rt.alloc(),
            line,
            &contents,
            (status, output.as_bytes(), b""),
        )?;
    }
    Ok(())
}

/// F12 at the first token that no `for` has, F16 of the 65th in one another, F23 of a constant.
#[test]
fn other_forms_are_refused(rt: HostRuntime) -> Result<(), Fail> {
    let rows = [
        (
            "int x;\nint main(void){\nfor(x;;);\n}\n",
            "file: F12 at 3:6\n",
        ),
        (
            "int x,y;\nint main(void){\nfor(x=0,y=0;;);\n}\n",
            "file: F12 at 3:8\n",
        ),
        (
            "int x;\nint main(void){\nfor(;;x=0;);\n}\n",
            "file: F12 at 3:10\n",
        ),
        (
            "int x;\nint main(void){\nfor(x=0);\n}\n",
            "file: F12 at 3:8\n",
        ),
        ("int main(void){\nfor(;);\n}\n", "file: F12 at 2:6\n"),
        (
            "int x;\nint main(void) {\nfor (x = 0; x < 3; x++)\nint y = 1;\n}\n",
            "file: F12 at 4:1\n",
        ),
        (
            "const int K=2;\nint main(void){\nfor(K=0;;);\n}\n",
            "file: F23 at 3:5\n",
        ),
        ("int main(void){\nfor(;y;);\n}\n", "file: F13 at 2:6\n"),
        (
            "int main(void){\nfor(;;)for(;;)for(;;)for(;;)for(;;)for(;;)for(;;)for(;;)for(;;)for(;;)for(;;)for(;;)for(;;)for(;;)for(;;)for(;;)for(;;)for(;;)for(;;)for(;;)for(;;)for(;;)for(;;)for(;;)for(;;)for(;;)for(;;)for(;;)for(;;)for(;;)for(;;)for(;;)for(;;)for(;;)for(;;)for(;;)for(;;)for(;;)for(;;)for(;;)for(;;)for(;;)for(;;)for(;;)for(;;)for(;;)for(;;)for(;;)for(;;)for(;;)for(;;)for(;;)for(;;)for(;;)for(;;)for(;;)for(;;)for(;;)for(;;)for(;;)for(;;)for(;;)for(;;)for(;;)for(;;);\n}\n",
            "file: F16 at 2:449\n",
        ),
    ];
    for (file, told) in rows {
        let contents = two_files(MODEL, file.as_bytes());
        compares(rt.alloc(), "plain f", &contents, (4, b"", told.as_bytes()))?;
    }
    Ok(())
}

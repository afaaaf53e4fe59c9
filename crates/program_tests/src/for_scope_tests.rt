//! Loops that are written with `for` and declare variables.

use std::test::Fail;
use test_runs::comparing::{compares, two_files};

const MODEL: &[u8] = b"{\"features\":[{\"name\":\"A\"},{\"name\":\"N\",\"min\":0,\"max\":7}]}\n";

/// Two rounds of a loop: the block, the declarator, the test, the body, the step.
const COUNTED: &str = "int main(void){\nfor(int i=0;i<2;i++)\n;\n}\n";

/// A run has a step at the `for`, one at each declarator, and then those of the loop.
#[test]
fn runs_begin_with_the_block(rt: HostRuntime) -> Result<(), Fail> {
    let rows = [
        ("run m f N=0 --steps=0", "at 2:1 i=0\n"),
        ("run m f N=0 --steps=1", "at 2:9 i=0\n"),
        ("run m f N=0 --steps=2", "at 2:13 i=0\n"),
        ("run m f N=0 --steps=3", "at 3:1 i=0\n"),
        ("run m f N=0 --steps=4", "at 2:17 i=0\n"),
        ("run m f N=0 --steps=5", "at 2:13 i=1\n"),
        ("run m f N=0 --steps=8", "at 2:13 i=2\n"),
        ("run m f N=0 --steps=9", "ended i=2\n"),
    ];
    for (line, output) in rows {
        let contents = two_files(MODEL, COUNTED.as_bytes());
        compares(rt.alloc(), line, &contents, (0, output.as_bytes(), b""))?;
    }
    Ok(())
}

/// Declarators are done one by one, and each in the scope of those before it; loops beside one another may declare one name.
#[test]
fn runs_end_with_these_values(rt: HostRuntime) -> Result<(), Fail> {
    let rows = [
        (
            "int n;\nint main(void){\nfor(int i=0;i<2;i++)n+=i;\nfor(int i=5;i<7;i++)n+=i;\n}\n",
            "ended n=12 i=7\n",
        ),
        (
            "int main(void){\nfor(int i=0,j=9;i<j;i++)j--;\n}\n",
            "ended i=5 j=4\n",
        ),
        (
            "int main(void){\nfor(int i=1,j=i+1;j<9;j*=2)i+=j;\n}\n",
            "ended i=15 j=16\n",
        ),
        (
            "int n=3;\nint main(void){\nfor(int i=n;i;--i)n+=i;\n}\n",
            "ended n=9 i=0\n",
        ),
        (
            "int n;\nint main(void){\nfor(int i=input();i<4;i++)n++;\n}\n",
            "ended n=2 i=4\n",
        ),
        (
            "int n;\nint main(void){\nfor(const int k=3;n<k;n++);\n}\n",
            "ended n=3 k=3\n",
        ),
        (
            "int n;\nint main(void){\nfor(int32_t const k=3;n<k;n++);\n}\n",
            "ended n=3 k=3\n",
        ),
        (
            "int n;\nint main(void){\nfor(int i=0;i<2;i++)for(int j=0;j<3;j++)n++;\n}\n",
            "ended n=6 i=2 j=3\n",
        ),
        (
            "int n;\nint main(void){\ndo for(int i=0;i<2;i++)n++;while(n<3);\n}\n",
            "ended n=4 i=2\n",
        ),
        (
            "int n;\nint main(void){\nfor(int i=0;;i++){if(i==3)break;if(i==1)continue;n+=i;}\n}\n",
            "ended n=2 i=3\n",
        ),
        // an `else` belongs to the nearest `if`, in the scope of the loop; else the scope ends before it
        (
            "int a=1,b;\nint main(void){\nif(a)for(int i=0;i<1;i++)if(b)a=2;else a=i+3;\n}\n",
            "ended a=3 b=0 i=1\n",
        ),
        (
            "int a,b;\nint main(void){\nif(a)for(int i=0;i<1;i++)b=1;else for(int i=4;i<5;i++)b=i;\n}\n",
            "ended a=0 b=4 i=5\n",
        ),
    ];
    for (file, output) in rows {
        let contents = two_files(MODEL, file.as_bytes());
        let line = "run m f N=0 --inputs=2";
        compares(rt.alloc(), line, &contents, (0, output.as_bytes(), b""))?;
    }
    Ok(())
}

/// What is declared is known at the test; groups stand in the body; a variant's text keeps the declaration.
#[test]
fn analyses_begin_with_the_block(rt: HostRuntime) -> Result<(), Fail> {
    let rows = [
        (
            "invariants m f",
            "int main(void){\nfor(int i=0;i<3;++i);\n}\n",
            0,
            "2:1: if 1: i in [0,0]\n2:9: if 1: i in [0,0]\n2:13: if 1: i in [0,3]\n2:17: if 1: i in [0,2]\n2:21: if 1: i in [0,2]\n3:1: if 1: i in [3,3]\nalarms: 0\n",
        ),
        (
            "analyse m f",
            "int main(void){\nfor(int i=0;i<N;i++)\nassert(i!=6);\n}\n",
            1,
            "3:1: assertion if N >= 7; example A=0 N=7\nalarms: 1\n",
        ),
        (
            "analyse m f",
            "int n;\nint main(void){\nfor(int i=0;i<2;i++){\n#ifdef A\nn=i;\n#endif\n}\nassert(n==0);\n}\n",
            1,
            "8:1: assertion if A; example A=1 N=0\nalarms: 1\n",
        ),
        (
            "plain f",
            "int n=2147483647;\nint main(void){\nfor(int i=n+1;;);\n}\n",
            1,
            "3:9: overflow\nalarms: 1\n",
        ),
        (
            "certify m f",
            "int main(void){\nfor(int x=0;x<3;x++);\n}\n",
            0,
            "famlint certificate 1 stop\nloop 2:13 if 1: x in [0,3]\n",
        ),
        (
            "project m f N=0",
            "int main(void){\nfor(int x=0;x<3;x++){\n#ifdef A\nx++;\n#endif\n}\n}\n",
            0,
            "int main(void){\nfor(int x=0;x<3;x++){\n\n\n\n}\n}\n",
        ),
    ];
    for (line, file, status, output) in rows {
        let contents = two_files(MODEL, file.as_bytes());
        compares(
            rt.alloc(),
            line,
            &contents,
            (status, output.as_bytes(), b""),
        )?;
    }
    Ok(())
}

/// F12 of other declarations, F13 outside the scope, F14 of a second declaration in it, F23 of a constant.
#[test]
fn other_declarations_are_refused(rt: HostRuntime) -> Result<(), Fail> {
    let rows = [
        (
            "plain f",
            "int main(void){\nfor(int i;;);\n}\n",
            "file: F12 at 2:10\n",
        ),
        (
            "plain f",
            "int main(void){\nfor(int i=0,j;;);\n}\n",
            "file: F12 at 2:14\n",
        ),
        (
            "plain f",
            "int main(void){\nfor(static int i=0;;);\n}\n",
            "file: F12 at 2:5\n",
        ),
        (
            "plain f",
            "int main(void){\nfor(int i=0);\n}\n",
            "file: F12 at 2:12\n",
        ),
        (
            "plain f",
            "int main(void){\nfor(int i=0;i<3;int j=1);\n}\n",
            "file: F12 at 2:17\n",
        ),
        (
            "plain f",
            "int main(void){\nfor(int i=0;i<3;++i);\ni=1;\n}\n",
            "file: F13 at 3:1\n",
        ),
        (
            "plain f",
            "int main(void){\nfor(int i=0;i<3;++i)if(i);else;\ni=1;\n}\n",
            "file: F13 at 3:1\n",
        ),
        (
            "plain f",
            "int main(void){\nfor(int i=i;;);\n}\n",
            "file: F13 at 2:11\n",
        ),
        (
            "analyse m f",
            "int main(void){\n#ifdef A\nfor(int i=0;i<3;i++);\n#endif\ni=1;\n}\n",
            "file: F13 at 5:1; example A=0 N=0\n",
        ),
        (
            "analyse m f",
            "int main(void){\n#ifdef A\nint i=2;\n#else\nfor(int i=0;i<3;i++);\n#endif\ni=1;\n}\n",
            "file: F13 at 7:1; example A=0 N=0\n",
        ),
        (
            "plain f",
            "int main(void){\nfor(int i=0;;){int i=1;}\n}\n",
            "file: F14 at 2:20\n",
        ),
        (
            "plain f",
            "int i;\nint main(void){\nfor(int i=0;;);\n}\n",
            "file: F14 at 3:9\n",
        ),
        (
            "plain f",
            "int main(void){\nfor(int i=0;;)for(int i=0;;);\n}\n",
            "file: F14 at 2:23\n",
        ),
        (
            "plain f",
            "int main(void){\nfor(const int k=3;;++k);\n}\n",
            "file: F23 at 2:22\n",
        ),
    ];
    for (line, file, told) in rows {
        let contents = two_files(MODEL, file.as_bytes());
        compares(rt.alloc(), line, &contents, (4, b"", told.as_bytes()))?;
    }
    Ok(())
}

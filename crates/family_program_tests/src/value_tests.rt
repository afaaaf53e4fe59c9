//! Features as values in code, and constants by `#define`, under commands over files in memory.

use std::alloc::Global;
use std::test::Fail;
use test_runs::comparing::{Unlike, compares, two_files};

/// Runs a row: the words, the model under the path `m`, the file under `f`, and what is wanted.
fn compares_row(
    alloc: Global,
    words: &str,
    model: &str,
    file: &str,
    wanted: (u8, &str, &str),
) -> Result<(), Unlike> {
    let (status, output, told) = wanted;
    compares(
        alloc,
        words,
        &two_files(model.as_bytes(), file.as_bytes()),
        (status, output.as_bytes(), told.as_bytes()),
    )
}

#[test]
fn features_have_their_values(rt: HostRuntime) -> Result<(), Fail> {
    let rows = [
        (
            "certify m f --regions merged",
            "{\"features\":[{\"name\":\"N\",\"min\":1,\"max\":2}]}\n",
            "int x;\nint main(void){\nwhile(x<N)x++;\nassert(x==1);\n}\n",
            (
                1,
                "famlint certificate 1 stop\nloop 3:1 if N <= 1: x in [0,1], N in [1,1]\nloop 3:1 if N >= 2: x in [0,2], N in [2,2]\nalarm 4:1: assertion if N >= 2\n",
                "",
            ),
        ),
        (
            "analyse m f --regions merged",
            "{\"features\":[{\"name\":\"N\",\"min\":1,\"max\":2}]}\n",
            "int x;\nint main(void){\nwhile(x<N)x++;\nassert(x==1);\n}\n",
            (1, "4:1: assertion if N >= 2; example N=2\nalarms: 1\n", ""),
        ),
        (
            "variant m f N=1",
            "{\"features\":[{\"name\":\"N\",\"min\":1,\"max\":2}]}\n",
            "int x;\nint main(void){\nwhile(x<N)x++;\nassert(x==1);\n}\n",
            (0, "alarms: 0\n", ""),
        ),
        (
            "variant m f N=2",
            "{\"features\":[{\"name\":\"N\",\"min\":1,\"max\":2}]}\n",
            "int x;\nint main(void){\nwhile(x<N)x++;\nassert(x==1);\n}\n",
            (1, "4:1: assertion\nalarms: 1\n", ""),
        ),
        (
            "run m f N=2",
            "{\"features\":[{\"name\":\"N\",\"min\":1,\"max\":2}]}\n",
            "int x;\nint main(void){\nwhile(x<N)x++;\nassert(x==1);\n}\n",
            (0, "stopped 4:1 assertion\n", ""),
        ),
        (
            "run m f N=2 --steps=1",
            "{\"features\":[{\"name\":\"N\",\"min\":1,\"max\":2}]}\n",
            "int x;\nint main(void){\nwhile(x<N)x++;\nassert(x==1);\n}\n",
            (0, "at 3:11 x=0 N=2\n", ""),
        ),
        (
            "project m f N=2",
            "{\"features\":[{\"name\":\"N\",\"min\":1,\"max\":2}]}\n",
            "int x;\nint main(void){\nwhile(x<N)x++;\nassert(x==1);\n}\n",
            (
                0,
                "int x;\nint main(void){\nwhile(x<N)x++;\nassert(x==1);\n}\n",
                "",
            ),
        ),
        (
            "analyse m f",
            "{\"features\":[{\"name\":\"N\",\"min\":0,\"max\":8}]}\n",
            "int x;\nint main(void){\nx=10/(N-3);\n}\n",
            (
                1,
                "3:1: zero-divisor if N >= 3 && N <= 3; example N=3\nalarms: 1\n",
                "",
            ),
        ),
        (
            "analyse m f --regions=merged",
            "{\"features\":[{\"name\":\"N\",\"min\":0,\"max\":8}]}\n",
            "int x;\nint main(void){\nx=10/(N-3);\n}\n",
            (
                1,
                "3:1: zero-divisor if N == 3; example N=3\nalarms: 1\n",
                "",
            ),
        ),
        (
            "analyse m f",
            "{\"features\":[{\"name\":\"N\",\"min\":0,\"max\":8}]}\n",
            "int main(void){\n#if N>=5\nassert(N>=5);\n#else\nassert(N<=4);\n#endif\n}\n",
            (0, "alarms: 0\n", ""),
        ),
        (
            "analyse m f",
            "{\"features\":[{\"name\":\"N\",\"min\":0,\"max\":200},{\"name\":\"P\",\"min\":0,\"max\":56},{\"name\":\"Q\",\"min\":0,\"max\":1}]}\n",
            "int x;\nint main(void){\nx=N+P;\nx=Q;\n}\n",
            (4, "", "file: F22 at 4:3\n"),
        ),
        (
            "analyse m f",
            "{\"features\":[{\"name\":\"N\",\"min\":0,\"max\":8}]}\n",
            "int main(void) {\nN++;\n}\n",
            (4, "", "file: F23 at 2:1\n"),
        ),
        (
            "analyse m f",
            "{\"features\":[{\"name\":\"N\",\"min\":0,\"max\":8}]}\n",
            "const int K=2;\nint main(void){\nK=3;\n}\n",
            (4, "", "file: F23 at 3:1\n"),
        ),
        (
            "analyse m f",
            "{\"features\":[{\"name\":\"A\"}]}\n",
            "int main(void){\nassert(A);\n}\n",
            (4, "", "file: F15 at 2:8\n"),
        ),
    ];
    for (words, model, file, wanted) in rows {
        compares_row(rt.alloc(), words, model, file, wanted)?;
    }
    Ok(())
}

#[test]
fn definitions_are_constants(rt: HostRuntime) -> Result<(), Fail> {
    let rows = [
        (
            "invariants m f",
            "{\"features\":[{\"name\":\"A\"}]}\n",
            "#ifdef A\n#define K 3\n#else\nenum{J=4,K};\n#endif\nint main(void){\nassert(K);\n}\n",
            (
                0,
                "7:1: if !A: K in [5,5], J in [4,4]\n7:1: if A: K in [3,3], J in [0,0]\n8:1: if !A: K in [5,5], J in [4,4]\n8:1: if A: K in [3,3], J in [0,0]\nalarms: 0\n",
                "",
            ),
        ),
        (
            "project m f A",
            "{\"features\":[{\"name\":\"A\"}]}\n",
            "#ifdef A\n#define K 3\n#else\n#define K 4\n#endif\nint main(void){}\n",
            (0, "\n#define K 3\n\n\n\nint main(void){}\n", ""),
        ),
        (
            "analyse m f",
            "{\"features\":[{\"name\":\"A\"}]}\n",
            "#define K 3\nint main(void){\n#ifdef K\n#endif\n}\n",
            (4, "", "file: F8 C7 at 3:1\n"),
        ),
        (
            "analyse m f",
            "{\"features\":[{\"name\":\"A\"}]}\n",
            "#ifndef K\n#define K 3\n#endif\nint main(void){\nassert(K==3);\n}\n",
            (0, "alarms: 0\n", ""),
        ),
        (
            "analyse m f --unknown=refuse",
            "{\"features\":[{\"name\":\"A\"}]}\n",
            "#ifndef K\n#define K 3\n#endif\nint main(void){\nassert(K==3);\n}\n",
            (0, "alarms: 0\n", ""),
        ),
        (
            "run m f --inputs=9",
            "{\"features\":[{\"name\":\"A\"}]}\n",
            "#define K 1\nint a=2;\nint main(void){\na=input()\n;a=a+K;\n}\n",
            (0, "ended a=10 K=1\n", ""),
        ),
        (
            "plain f",
            "{\"features\":[{\"name\":\"A\"}]}\n",
            "int main(void) {\n#define K 3\n}\n",
            (4, "", "file: F12 at 2:1\n"),
        ),
        (
            "plain f",
            "{\"features\":[{\"name\":\"A\"}]}\n",
            "#define K -(3)\nint main(void) { }\n",
            (4, "", "file: F4 at 1:1\n"),
        ),
        (
            "plain f",
            "{\"features\":[{\"name\":\"A\"}]}\n",
            "#define NDEBUG 1\nint main(void) { }\n",
            (4, "", "file: F4 at 1:1\n"),
        ),
        (
            "plain f",
            "{\"features\":[{\"name\":\"A\"}]}\n",
            "enum{K0,K1,K2,K3,K4,K5,K6,K7,K8,K9,K10,K11,K12,K13,K14,K15,K16};\nint main(void){}\n",
            (4, "", "file: F24 at 1:60\n"),
        ),
    ];
    for (words, model, file, wanted) in rows {
        compares_row(rt.alloc(), words, model, file, wanted)?;
    }
    Ok(())
}

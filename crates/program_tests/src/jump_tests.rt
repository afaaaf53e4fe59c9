//! Loops with the test last, `break`, `continue`, and `return` wherever it stands.

use std::test::Fail;
use test_runs::comparing::{compares, three_files, two_files};

const MODEL: &[u8] = b"{\"features\":[{\"name\":\"A\"},{\"name\":\"N\",\"min\":0,\"max\":7}]}\n";

/// Up to three by a loop with the test last.
const COUNTED: &str = "int x;\nint main(void){\ndo x++;while(x<3);\n}\n";

/// Goes on once, and then breaks.
const TURNED: &str =
    "int x;\nint main(void){\nwhile(1){\nx++;\nif(x==1)continue;\nbreak;\n}\nx=9;\n}\n";

/// A loop that is left by `break` alone.
const ENDLESS: &str = "int x;\nint main(void){\nfor(;;){\nif(x==2)break;\nx++;\n}}\n";

/// One that some variants leave at once.
const LEFT: &str =
    "int x;\nint main(void){\nwhile(x<3){\n#ifdef A\nbreak;\n#endif\nx++;\n}\nassert(x==3);\n}\n";

/// At `do` a step stands each time that the body begins, and the test has one of its own; a jump is one step.
#[test]
fn runs_go_step_by_step(rt: HostRuntime) -> Result<(), Fail> {
    let rows = [
        ("--steps=0", COUNTED, "at 3:1 x=0\n"),
        ("--steps=1", COUNTED, "at 3:4 x=0\n"),
        ("--steps=2", COUNTED, "at 3:14 x=1\n"),
        ("--steps=3", COUNTED, "at 3:1 x=1\n"),
        ("--steps=4", COUNTED, "at 3:4 x=1\n"),
        ("--steps=8", COUNTED, "at 3:14 x=3\n"),
        ("--steps=9", COUNTED, "ended x=3\n"),
        // `continue` leads to the test of a `while`, and `break` behind it
        ("--steps=1", TURNED, "at 3:9 x=0\n"),
        ("--steps=4", TURNED, "at 5:9 x=1\n"),
        ("--steps=5", TURNED, "at 3:1 x=1\n"),
        ("--steps=9", TURNED, "at 6:1 x=2\n"),
        ("--steps=10", TURNED, "at 8:1 x=2\n"),
        ("--steps=11", TURNED, "ended x=9\n"),
        // of a `for` to its step
        (
            "--steps=2",
            "int i;\nint main(void){\nfor(;i<2;i++)continue;\n}\n",
            "at 3:10 i=0\n",
        ),
        // of a `do` to its test, which stands behind the body
        (
            "--steps=3",
            "int x;\nint main(void){\ndo{x++;continue;}while(x<2);\n}\n",
            "at 3:8 x=1\n",
        ),
        (
            "--steps=4",
            "int x;\nint main(void){\ndo{x++;continue;}while(x<2);\n}\n",
            "at 3:24 x=1\n",
        ),
        (
            "--steps=5",
            "int x;\nint main(void){\ndo{x++;continue;}while(x<2);\n}\n",
            "at 3:1 x=1\n",
        ),
        (
            "--steps=0",
            "int x;\nint main(void){\nreturn 0;\n}\n",
            "at 3:1 x=0\n",
        ),
        (
            "--steps=1",
            "int x;\nint main(void){\nreturn 0;\n}\n",
            "ended x=0\n",
        ),
    ];
    let alloc = rt.alloc();
    for (steps, file, output) in rows {
        let line = format!(in alloc; "run m f N=0 {steps}")?;
        let contents = two_files(MODEL, file.as_bytes());
        compares(alloc, line.as_str(), &contents, (0, output.as_bytes(), b""))?;
    }
    Ok(())
}

/// Where the jumps lead.
#[test]
fn runs_end(rt: HostRuntime) -> Result<(), Fail> {
    let rows = [
        ("run m f N=0", ENDLESS, "ended x=2\n"),
        (
            "run m f N=0",
            "int i,s;\nint main(void){\nfor(i=0;i<5;i++){\nif(i%2)continue;\ns+=i;\n}\n}\n",
            "ended i=5 s=6\n",
        ),
        (
            "run m f N=0",
            "int x,y;\nint main(void){\ndo{\nx++;\nif(x==2)continue;\ny+=x;\n}while(x<4);\n}\n",
            "ended x=4 y=8\n",
        ),
        // the inner of two loops is left
        (
            "run m f N=0",
            "int i,j,n;\nint main(void){\nfor(i=0;i<3;i++)\nfor(j=0;;j++){\nif(j==i)break;\nn++;\n}\n}\n",
            "ended i=3 j=2 n=3\n",
        ),
        (
            "run m f N=0",
            "int x;\nint main(void){\ndo do x++;while(x<3);while(x<5);\n}\n",
            "ended x=5\n",
        ),
        (
            "run m f N=0",
            "int x;\nint main(void){\ndo while(x<2)x++;while(0);\n}\n",
            "ended x=2\n",
        ),
        // behind a `do` an `else` belongs to the `if` around it, and within one to that within
        (
            "run m f N=0",
            "int x,y;\nint main(void){\nif(x)do if(y)y=1;while(0);else y=2;\n}\n",
            "ended x=0 y=2\n",
        ),
        (
            "run m f N=0",
            "int x=1,y;\nint main(void){\nif(x)do if(y)y=1;else y=3;while(y<3);\n}\n",
            "ended x=1 y=3\n",
        ),
        (
            "run m f N=0 --inputs=3,4,-1",
            "int x,n;\nint main(void){\ndo{\nx=input();\nif(x<0)break;\nn+=x;\n}while(n<10);\n}\n",
            "ended x=-1 n=7\n",
        ),
        (
            "run m f N=0 --inputs=3",
            "int x,n;\nint main(void){\ndo{\nx=input();\nif(x<0)break;\nn+=x;\n}while(n<10);\n}\n",
            "waiting 4:1 x=3 n=3\n",
        ),
        (
            "run m f N=0",
            "int x;\nint main(void){\ndo x=0;while(1/x);\n}\n",
            "stopped 3:14 zero-divisor\n",
        ),
        // `return` ends the program out of all loops, behind its value
        (
            "run m f N=0",
            "int i,j;\nint main(void){\nfor(i=0;i<3;i++)\nfor(j=0;j<3;j++)\nif(i+j==3)return 0;\ni=9;\n}\n",
            "ended i=1 j=2\n",
        ),
        (
            "run m f N=0",
            "int x=2147483647;\nint main(void){\nreturn x+1;\nx=1;\n}\n",
            "stopped 3:1 overflow\n",
        ),
        (
            "run m f N=0 --overflow=wrap",
            "int x=2147483647;\nint main(void){\nreturn x+1;\nx=1;\n}\n",
            "ended x=2147483647\n",
        ),
        // in groups
        ("run m f A=1 N=0", LEFT, "stopped 9:1 assertion\n"),
        ("run m f N=0", LEFT, "ended x=3\n"),
        (
            "run m f N=3",
            "int x;\nint main(void){\ndo{\n#if N>2\ncontinue;\n#endif\nx++;\n}while(x%2);\n}\n",
            "ended x=0\n",
        ),
        (
            "run m f N=2",
            "int x;\nint main(void){\ndo{\n#if N>2\ncontinue;\n#endif\nx++;\n}while(x%2);\n}\n",
            "ended x=2\n",
        ),
    ];
    for (line, file, output) in rows {
        let contents = two_files(MODEL, file.as_bytes());
        compares(rt.alloc(), line, &contents, (0, output.as_bytes(), b""))?;
    }
    Ok(())
}

/// What leaves by a jump is known where the jump leads.
#[test]
fn alarms_know_the_ways_out(rt: HostRuntime) -> Result<(), Fail> {
    let rows = [
        (
            "plain f",
            "int x;\nint main(void){\nwhile(1){\nx++;\nif(x==5)break;\nif(x<5)continue;\nassert(0);\n}\nassert(x==5);\n}\n",
            0,
            "alarms: 0\n",
        ),
        (
            "plain f",
            "int i,j;\nint main(void){\nfor(i=0;i<3;i++)\nfor(j=0;;j++)\nif(j>=2)break;\nassert(i==3);\nassert(j==2);\n}\n",
            1,
            "7:1: assertion\nalarms: 1\n",
        ),
        (
            "plain f",
            "int i,x;\nint main(void){\nfor(i=0;i<16;i++){\nx=input();\nif(x<0)return 1;\nassert(x>=0);\n}\nassert(i==16);\n}\n",
            0,
            "alarms: 0\n",
        ),
        (
            "plain f",
            "int x;\nint main(void){\nx=input();\nreturn x+1;\n}\n",
            1,
            "4:1: overflow\nalarms: 1\n",
        ),
        (
            "plain f --overflow=wrap",
            "int x;\nint main(void){\nx=input();\nreturn x+1;\n}\n",
            0,
            "alarms: 0\n",
        ),
        (
            "plain f",
            "int x;\nint main(void){\ndo x=input();while(7/x);\n}\n",
            1,
            "3:20: zero-divisor\nalarms: 1\n",
        ),
        ("plain f", ENDLESS, 1, "5:1: overflow\nalarms: 1\n"),
        ("plain f --widening=thresholds", ENDLESS, 0, "alarms: 0\n"),
        (
            "plain f",
            "int x;\nint main(void){\nfor(;;x+=2)\nif(x>=10)break;\nassert(x==10);\n}\n",
            1,
            "5:1: assertion\nalarms: 1\n",
        ),
        (
            "plain f --domain=stride",
            "int x;\nint main(void){\nfor(;;x+=2)\nif(x>=10)break;\nassert(x==10);\n}\n",
            0,
            "alarms: 0\n",
        ),
        (
            "plain f --domain=octagon",
            "int i,n;\nint main(void){\nn=input();\nfor(;;i++){\nif(i>=n)break;\nassert(i<n);\n}\n}\n",
            0,
            "alarms: 0\n",
        ),
        // in families
        (
            "analyse m f",
            LEFT,
            1,
            "9:1: assertion if A; example A=1 N=0\nalarms: 1\n",
        ),
        ("variant m f N=0", LEFT, 0, "alarms: 0\n"),
        ("variant m f A N=0", LEFT, 1, "9:1: assertion\nalarms: 1\n"),
        (
            "analyse m f",
            "int x;\nint main(void){\n#ifdef A\nreturn 1/x;\n#endif\nassert(x);\n}\n",
            1,
            "4:1: zero-divisor if A; example A=1 N=0\n6:1: assertion if !A; example A=0 N=0\nalarms: 2\n",
        ),
        (
            "analyse m f",
            "int x;\nint main(void){\nfor(;;x++)\nif(x>=N)break;\nassert(x==N);\n}\n",
            0,
            "alarms: 0\n",
        ),
        (
            "analyse m f --regions=merged",
            "int x;\nint main(void){\nwhile(x<9){\n#if N==3\nbreak;\n#endif\nx++;\n}\nassert(x==9);\n}\n",
            1,
            "9:1: assertion if N == 3; example A=0 N=3\nalarms: 1\n",
        ),
    ];
    for (line, file, status, output) in rows {
        let contents = two_files(MODEL, file.as_bytes());
        compares(
            rt.alloc(),
            line,
            &contents,
            (status, output.as_bytes(), b""),
        )?;
    }
    Ok(())
}

/// At `do` stands what the body begins with, and behind a jump nothing; the last brace has all that returned.
#[test]
fn invariants_know_the_ways_out(rt: HostRuntime) -> Result<(), Fail> {
    let rows = [
        (
            COUNTED,
            0,
            "3:1: if 1: x in [0,2]\n3:4: if 1: x in [0,2]\n3:14: if 1: x in [1,3]\n4:1: if 1: x in [3,3]\nalarms: 0\n",
        ),
        (
            "int i;\nint main(void){\nfor(i=0;i<3;i++)continue;\n}\n",
            0,
            "3:5: if 1: i in [0,0]\n3:9: if 1: i in [0,3]\n3:13: if 1: i in [0,2]\n3:17: if 1: i in [0,2]\n4:1: if 1: i in [3,3]\nalarms: 0\n",
        ),
        (
            "int x;\nint main(void){\nwhile(x<9){\nif(x==4)break;\nx++;\n}\n}\n",
            0,
            "3:1: if 1: x in [0,9]\n3:11: if 1: x in [0,8]\n4:1: if 1: x in [0,8]\n4:9: if 1: x in [4,4]\n5:1: if 1: x in [0,8]\n7:1: if 1: x in [4,9]\nalarms: 0\n",
        ),
        (
            "int x;\nint main(void){\nwhile(1){\nbreak;\nx=1;\n}\n}\n",
            0,
            "3:1: if 1: x in [0,0]\n3:9: if 1: x in [0,0]\n4:1: if 1: x in [0,0]\n5:1: if 1: unreachable\n7:1: if 1: x in [0,0]\nalarms: 0\n",
        ),
        (
            "int x;\nint main(void){\nx=input();\nif(x>0)return 0;\nx=-7;\n}\n",
            0,
            "3:1: if 1: x in [0,0]\n4:1: if 1: x in [-2147483648,2147483647]\n4:8: if 1: x in [1,2147483647]\n5:1: if 1: x in [-2147483648,0]\n6:1: if 1: x in [-7,2147483647]\nalarms: 0\n",
        ),
        // of `return e` nothing is known where e has no value
        (
            "int x;\nint main(void){\nreturn 1/0;\n}\n",
            1,
            "3:1: if 1: x in [0,0]\n4:1: if 1: unreachable\n3:1: zero-divisor if 1; example A=0 N=0\nalarms: 1\n",
        ),
        (
            LEFT,
            1,
            "3:1: if !A: x in [0,3]\n3:1: if A: x in [0,0]\n3:11: if !A: x in [0,2]\n3:11: if A: x in [0,0]\n5:1: if !A: unreachable\n5:1: if A: x in [0,0]\n7:1: if !A: x in [0,2]\n7:1: if A: unreachable\n9:1: if !A: x in [3,3]\n9:1: if A: x in [0,0]\n10:1: if !A: x in [3,3]\n10:1: if A: unreachable\n9:1: assertion if A; example A=1 N=0\nalarms: 1\n",
        ),
        (
            "int x=1;\nint main(void){\n#if N>3\nreturn x;\n#endif\nx=2;\n}\n",
            0,
            "4:1: if N <= 3: unreachable\n4:1: if N >= 4: x in [1,1]\n6:1: if N <= 3: x in [1,1]\n6:1: if N >= 4: unreachable\n7:1: if N <= 3: x in [2,2]\n7:1: if N >= 4: x in [1,1]\nalarms: 0\n",
        ),
        // with A the test never fails
        (
            "int x;\nint main(void){\ndo{\n#ifdef A\ncontinue;\n#endif\nx++;\n}while(x<3);\nassert(x==3);\n}\n",
            0,
            "3:1: if !A: x in [0,2]\n3:1: if A: x in [0,0]\n3:3: if !A: x in [0,2]\n3:3: if A: x in [0,0]\n5:1: if !A: unreachable\n5:1: if A: x in [0,0]\n7:1: if !A: x in [0,2]\n7:1: if A: unreachable\n8:8: if !A: x in [1,3]\n8:8: if A: x in [0,0]\n9:1: if !A: x in [3,3]\n9:1: if A: unreachable\n10:1: if !A: x in [3,3]\n10:1: if A: unreachable\nalarms: 0\n",
        ),
    ];
    for (file, status, output) in rows {
        let contents = two_files(MODEL, file.as_bytes());
        compares(
            rt.alloc(),
            "invariants m f",
            &contents,
            (status, output.as_bytes(), b""),
        )?;
    }
    Ok(())
}

/// What is certified is accepted.
#[test]
fn certificates_hold(rt: HostRuntime) -> Result<(), Fail> {
    let rows = [
        (
            COUNTED,
            0,
            "famlint certificate 1 stop\nloop 3:1 if 1: x in [0,2]\n",
            "certificate: yes, 0 alarms\n",
        ),
        (
            ENDLESS,
            1,
            "famlint certificate 1 stop\nloop 3:6 if 1: x in [0,2147483647]\nalarm 5:1: overflow if 1\n",
            "certificate: yes, 1 alarms\n",
        ),
        (
            LEFT,
            1,
            "famlint certificate 1 stop\nloop 3:1 if !A: x in [0,3]\nloop 3:1 if A: x in [0,0]\nalarm 9:1: assertion if A\n",
            "certificate: yes, 1 alarms\n",
        ),
        (
            "int x;\nint main(void){\nreturn 1/x;\n}\n",
            1,
            "famlint certificate 1 stop\nalarm 3:1: zero-divisor if 1\n",
            "certificate: yes, 1 alarms\n",
        ),
    ];
    let alloc = rt.alloc();
    for (file, status, certificate, told) in rows {
        let contents = two_files(MODEL, file.as_bytes());
        compares(
            alloc,
            "certify m f",
            &contents,
            (status, certificate.as_bytes(), b""),
        )?;
        let contents = three_files(MODEL, file.as_bytes(), certificate.as_bytes());
        compares(alloc, "check m f c", &contents, (0, told.as_bytes(), b""))?;
    }
    Ok(())
}

/// One by hand may say more than the analysis finds, and is refused where it says too much.
#[test]
fn certificates_by_hand_are_judged(rt: HostRuntime) -> Result<(), Fail> {
    let rows = [
        // a loop that is left by `break` at 2
        (
            ENDLESS,
            "loop 3:6 if 1: x in [0,2]\n",
            0,
            "certificate: yes, 0 alarms\n",
        ),
        (
            ENDLESS,
            "loop 3:6 if 1: x in [0,1]\n",
            1,
            "certificate: no: 3:6 loop; example A=0 N=0\n",
        ),
        // what enters a `do`, what comes from its test, and a line that is not at `do`
        (
            COUNTED,
            "loop 3:1 if 1: x in [1,2]\n",
            1,
            "certificate: no: 3:1 loop; example A=0 N=0\n",
        ),
        (
            COUNTED,
            "loop 3:1 if 1: x in [0,1]\n",
            1,
            "certificate: no: 3:1 loop; example A=0 N=0\n",
        ),
        (
            COUNTED,
            "loop 3:14 if 1: x in [0,2]\n",
            1,
            "certificate: no: 3:1 loop; example A=0 N=0\n",
        ),
        // what breaks is known behind the loop
        (
            LEFT,
            "loop 3:1 if 1: x in [0,3]\n",
            1,
            "certificate: no: 9:1 assertion; example A=1 N=0\n",
        ),
        (
            "int x;\nint main(void){\nreturn 1/x;\n}\n",
            "",
            1,
            "certificate: no: 3:1 zero-divisor; example A=0 N=0\n",
        ),
    ];
    let alloc = rt.alloc();
    for (file, lines, status, told) in rows {
        let certificate = format!(in alloc; "famlint certificate 1 stop\n{lines}")?;
        let contents = three_files(MODEL, file.as_bytes(), certificate.as_bytes());
        compares(
            alloc,
            "check m f c",
            &contents,
            (status, told.as_bytes(), b""),
        )?;
    }
    Ok(())
}

#[test]
fn texts_of_variants_keep_jumps(rt: HostRuntime) -> Result<(), Fail> {
    let file =
        "int x;\nint main(void){\ndo{\n#ifdef A\nbreak;\n#endif\nx++;\n}while(x<3);\nreturn x;\n}\n";
    let rows = [
        (
            "project m f N=0",
            "int x;\nint main(void){\ndo{\n\n\n\nx++;\n}while(x<3);\nreturn x;\n}\n",
        ),
        (
            "project m f A N=0",
            "int x;\nint main(void){\ndo{\n\nbreak;\n\nx++;\n}while(x<3);\nreturn x;\n}\n",
        ),
    ];
    for (line, output) in rows {
        let contents = two_files(MODEL, file.as_bytes());
        compares(rt.alloc(), line, &contents, (0, output.as_bytes(), b""))?;
    }
    Ok(())
}

/// F12 at a jump outside loops, and at the first token that no loop has; F16 of the 65th in one another.
#[test]
fn other_forms_are_refused(rt: HostRuntime) -> Result<(), Fail> {
    let rows = [
        ("int main(void){\nif(1)break;\n}\n", "file: F12 at 2:6\n"),
        ("int main(void){\ncontinue;\n}\n", "file: F12 at 2:1\n"),
        (
            "int main(void){\ndo;while(1);break;\n}\n",
            "file: F12 at 2:13\n",
        ),
        (
            "int main(void){\nfor(;;);\n{continue;}\n}\n",
            "file: F12 at 3:2\n",
        ),
        (
            "int main(void){\nwhile(1)break 1;\n}\n",
            "file: F12 at 2:15\n",
        ),
        ("int main(void){\nreturn;\n}\n", "file: F12 at 2:7\n"),
        (
            "int main(void){\nreturn input();\n}\n",
            "file: F12 at 2:8\n",
        ),
        ("int main(void){\nreturn y;\n}\n", "file: F13 at 2:8\n"),
        ("int main(void){\ndo;\n}\n", "file: F12 at 3:1\n"),
        ("int main(void){\ndo;while(1)\n}\n", "file: F12 at 3:1\n"),
        ("int main(void){\ndo;while();\n}\n", "file: F12 at 2:10\n"),
        (
            "int main(void){\ndo int x=1;while(x);\n}\n",
            "file: F12 at 2:4\n",
        ),
        (
            "int main(void){\nif(1)do;while(0)else;\n}\n",
            "file: F12 at 2:17\n",
        ),
        // the test is outside the block of the body
        (
            "int main(void){\ndo{\nint y=1;\n}while(y);\n}\n",
            "file: F13 at 4:8\n",
        ),
        (
            "int x;\nint main(void){\nswitch(x){}\n}\n",
            "file: F12 at 3:1\n",
        ),
        ("int main(void){\ngoto end;\n}\n", "file: F12 at 2:1\n"),
        (
            "int main(void){\ndo do do do do do do do do do do do do do do do do do do do do do do do do do do do do do do do do do do do do do do do do do do do do do do do do do do do do do do do do do do do do do do do do ;\n}\n",
            "file: F16 at 2:193\n",
        ),
    ];
    for (file, told) in rows {
        let contents = two_files(MODEL, file.as_bytes());
        compares(rt.alloc(), "plain f", &contents, (4, b"", told.as_bytes()))?;
    }
    Ok(())
}

/// A group directive stands neither before the body of a `do`, nor before its test.
#[test]
fn groups_cut_no_loop(rt: HostRuntime) -> Result<(), Fail> {
    let rows = [
        "int x;\nint main(void){\ndo\n#ifdef A\nx++;\n#endif\nwhile(x);\n}\n",
        "int x;\nint main(void){\ndo x=0;\n#ifdef A\n#endif\nwhile(x);\n}\n",
    ];
    for file in rows {
        let contents = two_files(MODEL, file.as_bytes());
        let told = "file: F19 at 4:1\n";
        compares(
            rt.alloc(),
            "analyse m f",
            &contents,
            (4, b"", told.as_bytes()),
        )?;
    }
    Ok(())
}

//! The program over files and sinks in memory.

use fam_outer::{MemorySink, NoMemory};
use famlint_core::famlint;
use std::alloc::Global;
use std::test::Fail;
use test_runs::cases::USAGE;
use test_runs::running::{memory_files, ran_over, words_of};

const ROW_1: &[u8] = b"int main(void) { }\n";

const ROW_3: &[u8] = b"int x;\nint main(void) {\nx = 2147483647;\nx = x + 1;\nassert(0);\n}\n";

const ROW_4: &[u8] =
    b"int x;\nint y;\nint main(void) {\nx = -2147483647 - 1;\ny = x / -1;\ny = x % -1;\n}\n";

const ROW_6: &[u8] = b"int x;\nint main(void) {\nwhile (x < 10) x++;\nassert(x == 10);\n}\n";

const REMAINDER: &[u8] =
    b"int x;\nint y;\nint main(void) {\nx = -2147483647 - 1;\ny = x % -1;\n}\n";

const ROW_35: &[u8] = b"int x;\nint main(void) {\nx = 2147483647;\nx = x + 1;\nassert(x < 0);\n}\n";

#[test]
fn refuses_words(rt: HostRuntime) -> Result<(), Fail> {
    let lines = [
        "",
        "plain",
        "plain f g",
        "plain -x",
        "plain --",
        "f plain",
        "frob f",
        "analyse f f --steps 3",
        "plain f --steps 3",
        "plain f --inputs=1",
        "plain f --delay 17",
        "plain f --delay 07",
        "plain f --narrow",
        "plain f --narrow 9",
        "plain f --narrow 0 --narrow 0",
        "plain -- f --narrow 0",
        "plain f --overflow halt",
        "plain f --domain=boxes",
        "plain f --regions merged",
    ];
    for line in lines {
        let ran = ran_over(rt.alloc(), line, &[("f", ROW_1)])?;
        assert_eq!(rt; ran.status, 2, "at {line}");
        assert_eq!(rt; ran.out.as_slice(), b"".as_slice(), "at {line}");
        assert_eq!(rt; ran.err.as_slice(), USAGE.as_bytes(), "at {line}");
    }
    Ok(())
}

#[test]
fn refuses_files(rt: HostRuntime) -> Result<(), Fail> {
    let cases: [(&str, &[u8], u8, &[u8]); 12] = [
        ("plain g", ROW_1, 6, b"read fault: file\n"),
        (
            "plain f",
            b"int x;\nint main(void) {\n#if A\n#endif\n}\n",
            4,
            b"file: F21 at 3:1\n",
        ),
        (
            "plain f",
            b"int main(void) { x = 1; }\n",
            4,
            b"file: F13 at 1:18\n",
        ),
        (
            "plain f",
            b"int x;\nint main(void) { x = 08; }\n",
            4,
            b"file: F11 at 2:22\n",
        ),
        ("plain f", b"int main(void) {\n", 4, b"file: F12 at 2:1\n"),
        (
            "plain f",
            b"\xffint main(void) { }\n",
            4,
            b"file: F10 at 1:1\n",
        ),
        (
            "plain f",
            b"int main(void) { } /* x\n",
            4,
            b"file: F1 at 1:20\n",
        ),
        (
            "plain f",
            b"int main(void) { }\\\n",
            4,
            b"file: F2 at 1:19\n",
        ),
        (
            "plain f",
            b"/* a\n*/ #if A\nint main(void) { }\n",
            4,
            b"file: F3 at 1:1\n",
        ),
        (
            "plain f",
            b"#pragma once\nint main(void) { }\n",
            4,
            b"file: F4 at 1:1\n",
        ),
        (
            "plain f",
            b"int x;\nint x;\nint main(void) { }\n",
            4,
            b"file: F14 at 2:5\n",
        ),
        (
            "plain f",
            b"int x, main(void) { }\n",
            4,
            b"file: F12 at 1:8\n",
        ),
    ];
    for (line, content, status, fault) in cases {
        let ran = ran_over(rt.alloc(), line, &[("f", content)])?;
        assert_eq!(rt; ran.status, status);
        assert_eq!(rt; ran.out.as_slice(), b"".as_slice());
        assert_eq!(rt; ran.err.as_slice(), fault);
    }
    Ok(())
}

#[test]
fn reports(rt: HostRuntime) -> Result<(), Fail> {
    let none: &[u8] = b"alarms: 0\n";
    let cases: [(&str, &[u8], u8, &[u8]); 19] = [
        ("plain f", ROW_1, 0, none),
        (
            "plain f",
            b"int x;\nint main(void) {\nx = 1 / x;\n}\n",
            1,
            b"3:1: zero-divisor\nalarms: 1\n",
        ),
        ("plain f", ROW_3, 1, b"4:1: overflow\nalarms: 1\n"),
        ("plain f", ROW_4, 1, b"5:1: overflow\nalarms: 1\n"),
        ("plain f", REMAINDER, 1, b"5:1: overflow\nalarms: 1\n"),
        (
            "plain f --overflow wrap",
            REMAINDER,
            1,
            b"5:1: overflow\nalarms: 1\n",
        ),
        (
            "plain f",
            b"int x;\nint main(void) {\nassert(x != 0 && 10 / x > 0);\n}\n",
            1,
            b"3:1: assertion\nalarms: 1\n",
        ),
        ("plain f", ROW_6, 0, none),
        (
            "plain f --narrow 0",
            ROW_6,
            1,
            b"4:1: assertion\nalarms: 1\n",
        ),
        (
            "--narrow 0 -- plain f",
            ROW_6,
            1,
            b"4:1: assertion\nalarms: 1\n",
        ),
        ("plain --narrow=0 f --delay 16", ROW_6, 0, none),
        ("plain f", b"/*\n#endif\n*/\nint main(void) { }\n", 0, none),
        (
            "plain f --overflow wrap",
            ROW_3,
            1,
            b"5:1: assertion\nalarms: 1\n",
        ),
        (
            "plain f --overflow wrap",
            ROW_4,
            1,
            b"5:1: overflow\nalarms: 1\n",
        ),
        ("plain --overflow=wrap f", ROW_35, 0, none),
        (
            "plain f --overflow stop",
            ROW_35,
            1,
            b"4:1: overflow\nalarms: 1\n",
        ),
        (
            "plain f",
            b"int x = 3;\nint main(void) {\nx = x - 5;\nassert(x >= 0);\nx = 1;\n}\n",
            1,
            b"4:1: assertion\nalarms: 1\n",
        ),
        ("plain f", b"int main(void) { ; }\n", 0, none),
        ("plain f", b"/* \xff */ int main(void) { }\n", 0, none),
    ];
    for (line, content, status, report) in cases {
        let ran = ran_over(rt.alloc(), line, &[("f", content)])?;
        assert_eq!(rt; ran.err.as_slice(), b"".as_slice(), "at {line}");
        assert_eq!(rt; ran.out.as_slice(), report, "at {line}");
        assert_eq!(rt; ran.status, status, "at {line}");
    }
    let dash = ran_over(rt.alloc(), "plain -", &[("-", ROW_1)])?;
    assert_eq!(rt; dash.out.as_slice(), none);
    assert_eq!(rt; dash.status, 0);
    Ok(())
}

/// A file between these texts, with a text so many times between them.
fn repeated(
    alloc: Global,
    front: &str,
    middle: &str,
    count: u32,
    back: &str,
) -> Result<String, NoMemory> {
    let mut text = String::new(alloc);
    text.push_str(front)?;
    for _ in 0..count {
        text.push_str(middle)?;
    }
    text.push_str(back)?;
    Ok(text)
}

#[test]
fn keeps_limits(rt: HostRuntime) -> Result<(), Fail> {
    let alloc = rt.alloc();
    let names =
        "int a;\nint b;\nint c;\nint d;\nint e;\nint f;\nint g;\nint h;\nint i;\nint j;\nint k;\nint l;\nint m;\nint n;\nint o;\nint p;\n";
    let sums = "int x;\nint main(void) {\nx = 1";
    let blocks = repeated(alloc, "int main(void) {", "{", 64, "")?;
    let more_blocks = repeated(alloc, "int main(void) {", "{", 65, "")?;
    let cases = [
        (repeated(alloc, blocks.as_str(), "}", 64, "}\n")?, 0, ""),
        (
            repeated(alloc, more_blocks.as_str(), "}", 65, "}\n")?,
            4,
            "file: F16 at 1:81\n",
        ),
        (
            repeated(alloc, names, "", 0, "int main(void) { }\n")?,
            0,
            "",
        ),
        (
            repeated(alloc, names, "int q;\n", 1, "int main(void) { }\n")?,
            4,
            "file: F17 at 17:5\n",
        ),
        (repeated(alloc, sums, " + 1", 64, ";\n}\n")?, 0, ""),
        (
            repeated(alloc, sums, " + 1", 65, ";\n}\n")?,
            4,
            "file: F16 at 3:263\n",
        ),
    ];
    for (content, status, fault) in &cases {
        let ran = ran_over(alloc, "plain f", &[("f", content.as_bytes())])?;
        assert_eq!(rt; ran.err.as_slice(), fault.as_bytes());
        assert_eq!(rt; ran.status, *status);
    }
    Ok(())
}

/// A file has at most a mebibyte.
#[test]
fn keeps_the_limit_of_bytes(rt: HostRuntime) -> Result<(), Fail> {
    let alloc = rt.alloc();
    let cases = [(1_048_557, 0, ""), (1_048_558, 4, "file: F20 at 1:1\n")];
    for (spaces, status, fault) in cases {
        let content = repeated(alloc, "int main(void) { }", " ", spaces, "\n")?;
        let ran = ran_over(alloc, "plain f", &[("f", content.as_bytes())])?;
        assert_eq!(rt; ran.err.as_slice(), fault.as_bytes());
        assert_eq!(rt; ran.status, status);
    }
    Ok(())
}

/// From 0 an even number of comparisons gives 0. Each part of an expression is looked at a bounded number of times: else this would not end.
#[test]
fn many_comparisons(rt: HostRuntime) -> Result<(), Fail> {
    let alloc = rt.alloc();
    let front = "int x;\nint main(void) {\nx = x";
    let assigned = repeated(alloc, front, " < 1", 64, ";\nassert(x")?;
    let file = repeated(alloc, assigned.as_str(), " < 1", 64, ");\n}\n")?;
    let ran = ran_over(alloc, "plain f --overflow wrap", &[("f", file.as_bytes())])?;
    assert_eq!(rt;
        ran.out.as_slice(),
        b"4:1: assertion\nalarms: 1\n".as_slice()
    );
    Ok(())
}

#[test]
fn tells_a_write_fault(rt: HostRuntime) -> Result<(), Fail> {
    let alloc = rt.alloc();
    let words = words_of(alloc, "plain f")?;
    let mut files = memory_files(alloc, &[("f", ROW_1)])?;
    let mut out = MemorySink::new(alloc, 100, 4, vec![in alloc; 2u64]?)?;
    let mut err = MemorySink::new(alloc, 1000, 1000, Vec::new(alloc))?;
    let answered = famlint(alloc, words.as_slice(), &mut files, &mut out, &mut err);
    assert_eq!(rt; answered, 7);
    assert_eq!(rt; out.taken.as_slice(), b"alar".as_slice());
    assert_eq!(rt; err.taken.as_slice(), b"write fault\n".as_slice());
    Ok(())
}

#[test]
fn a_failing_error_stream_keeps_the_status(rt: HostRuntime) -> Result<(), Fail> {
    let alloc = rt.alloc();
    let words = words_of(alloc, "plain")?;
    let mut files = memory_files(alloc, &[("f", ROW_1)])?;
    let mut out = MemorySink::new(alloc, 1000, 1000, Vec::new(alloc))?;
    let mut err = MemorySink::new(alloc, 1000, 6, vec![in alloc; 2u64]?)?;
    let answered = famlint(alloc, words.as_slice(), &mut files, &mut out, &mut err);
    assert_eq!(rt; answered, 2);
    assert_eq!(rt; out.taken.as_slice(), b"".as_slice());
    assert_eq!(rt; err.taken.as_slice(), b"usage:".as_slice());
    assert_eq!(rt; err.faults, 1);
    Ok(())
}

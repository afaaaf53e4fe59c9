//! `project`, `variant` and `run` over files in memory.

use std::test::Fail;
use test_runs::cases::{USAGE, content_of};
use test_runs::comparing::{gives, two_files};
use test_runs::running::ran_over;

#[test]
fn variants_are_reported(rt: HostRuntime) -> Result<(), Fail> {
    let alloc = rt.alloc();
    let rows = [
        ("variant ma f8 A=1", 0, "alarms: 0\n"),
        (
            "variant ma f8 A=0",
            1,
            "9:1: overflow\n12:1: assertion\nalarms: 2\n",
        ),
        (
            "variant ma f8",
            1,
            "9:1: overflow\n12:1: assertion\nalarms: 2\n",
        ),
        ("variant mc f10 A N=0", 0, "alarms: 0\n"),
        (
            "variant queue.json queue.c FAST RETRY SIZE=4 LIMIT=2",
            1,
            "34:5: zero-divisor\nalarms: 1\n",
        ),
        ("variant m0 f35 --overflow wrap", 0, "alarms: 0\n"),
        ("variant m0 f6 --narrow=0", 1, "4:1: assertion\nalarms: 1\n"),
    ];
    for (line, status, output) in rows {
        gives(alloc, line, Vec::new(alloc), (status, output, ""))?;
    }
    Ok(())
}

#[test]
fn runs_are_told(rt: HostRuntime) -> Result<(), Fail> {
    let alloc = rt.alloc();
    let rows = [
        ("run m0 f6 --steps 0", "at 3:1 x=0\n"),
        ("run m0 f6 --steps 3", "at 3:16 x=1\n"),
        ("run m0 f6 --steps 21", "at 4:1 x=10\n"),
        ("run m0 f6 --steps 22", "ended x=10\n"),
        ("run m0 f1", "ended\n"),
        ("run m0 f2", "stopped 3:1 zero-divisor\n"),
        ("run m0 f11 --inputs=-5", "waiting 5:1 x=-5 y=0\n"),
        ("run m0 f35 --overflow wrap", "ended x=-2147483648\n"),
        ("run m0 f35", "stopped 4:1 overflow\n"),
        (
            "run queue.json queue.c SAFE SIZE=4 LIMIT=2",
            "waiting 11:5 count=0 tries=3 logged=0 load=0\n",
        ),
    ];
    for (line, output) in rows {
        gives(alloc, line, Vec::new(alloc), (0, output, ""))?;
    }
    Ok(())
}

/// What a run of `x = FIRST; x = SECOND;` comes to, in lines 3 and 4.
const RESULTS: [(&str, &str, &str, &str); 8] = [
    ("2147483647", "x + 1", "", "stopped 4:1 overflow\n"),
    (
        "2147483647",
        "x + 1",
        " --overflow=wrap",
        "ended x=-2147483648\n",
    ),
    (
        "-2147483647 - 1",
        "x - 1",
        " --overflow=wrap",
        "ended x=2147483647\n",
    ),
    (
        "-2147483647 - 1",
        "x / -1",
        " --overflow=wrap",
        "stopped 4:1 overflow\n",
    ),
    (
        "-2147483647 - 1",
        "x % -1",
        " --overflow=wrap",
        "stopped 4:1 overflow\n",
    ),
    (
        "-2147483647 - 1",
        "x * -1",
        " --overflow=wrap",
        "ended x=-2147483648\n",
    ),
    ("-7", "x % 1", "", "ended x=0\n"),
    ("3", "x || -1", "", "ended x=1\n"),
];

#[test]
fn results_stop_or_wrap(rt: HostRuntime) -> Result<(), Fail> {
    let alloc = rt.alloc();
    for (first, second, mode, told) in RESULTS {
        let words = format!(in alloc; "run m f{mode}")?;
        let text = format!(in alloc;
            "int x;\nint main(void) {{\nx = {first};\nx = {second};\n}}\n"
        )?;
        let files = two_files(content_of("m0"), text.as_bytes());
        let ran = ran_over(alloc, words.as_str(), &files)?;
        assert_eq!(rt; ran.out.as_slice(), told.as_bytes(), "{first}; {second}");
        assert_eq!(rt; ran.status, 0);
    }
    Ok(())
}

#[test]
fn texts_of_variants(rt: HostRuntime) -> Result<(), Fail> {
    let alloc = rt.alloc();
    let rows = [
        (
            "project ma f23 A=1",
            "int x;       \nint main(void) {\n\nx = 1;\n\n\n\n}\n",
        ),
        (
            "project ma f23 A=0",
            "int x;       \nint main(void) {\n\n\n\nx = 2;\n\n}\n",
        ),
    ];
    for (line, output) in rows {
        gives(alloc, line, Vec::new(alloc), (0, output, ""))?;
    }
    Ok(())
}

#[test]
fn models_files_and_settings_are_refused(rt: HostRuntime) -> Result<(), Fail> {
    let alloc = rt.alloc();
    let rows = [
        (
            "variant mc f10 A=1 A=1 N=0",
            5,
            "configuration: K3 at word 2\n",
        ),
        ("variant mc f10 A=1 N=8", 5, "configuration: K4 at word 2\n"),
        ("variant mc f10 A=1", 5, "configuration: K2 N\n"),
        ("variant mc f10 A=0 N=0", 5, "configuration: K5\n"),
        ("variant mc f10 B=1", 5, "configuration: K1 at word 1\n"),
        (
            "variant queue.json queue.c FAST SAFE SIZE=4 LIMIT=2",
            5,
            "configuration: K5\n",
        ),
        ("variant void f10", 3, "model: M9\n"),
        ("project m1 f10", 3, "model: M1\n"),
        ("run m3 none", 3, "model: M3 at feature 2\n"),
        ("run m7 none", 3, "model: M7 C1 at constraint 2\n"),
        ("project ma f30 A=1", 4, "file: F13 at 5:1; example A=0\n"),
        ("run ma f33 B=2", 4, "file: F12 at 2:5\n"),
        ("project none f1", 6, "read fault: model\n"),
        ("project ma none B=2", 6, "read fault: file\n"),
    ];
    for (line, status, told) in rows {
        gives(alloc, line, Vec::new(alloc), (status, "", told))?;
    }
    Ok(())
}

#[test]
fn loads_fail(rt: HostRuntime) -> Result<(), Fail> {
    let alloc = rt.alloc();
    let rows = [
        ("variant ma f8 A=1", 1, "read fault: model\n"),
        ("variant ma f8 A=1", 2, "read fault: file\n"),
        ("variant ma ma", 2, "read fault: model\n"),
        ("plain f1", 1, "read fault: file\n"),
    ];
    for (line, call, told) in rows {
        let failing = vec![in alloc; call]?;
        gives(alloc, line, failing, (6, "", told))?;
    }
    Ok(())
}

#[test]
fn other_options_are_refused(rt: HostRuntime) -> Result<(), Fail> {
    let alloc = rt.alloc();
    let usage = USAGE;
    let lines = [
        "project ma",
        "variant",
        "run m0 f6 --delay 1",
        "run m0 f6 --domain=interval",
        "variant ma f8 --steps 3",
        "project ma f23 --overflow wrap",
        "variant ma f8 --domain boxes",
        "variant ma f8 --regions merged",
        "project ma f23 --regions=paths",
        "run m0 f6 --regions merged",
    ];
    for line in lines {
        gives(alloc, line, Vec::new(alloc), (2, "", usage))?;
    }
    Ok(())
}

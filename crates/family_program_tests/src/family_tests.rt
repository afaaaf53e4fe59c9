//! `analyse` and `invariants` over files in memory.

ghost use Rattle.std.specs.Prelude.{◌≤◌};

use fam_outer::{MemorySink, NoMemory};
use famlint_core::famlint;
use std::alloc::Global;
use std::process::Abort;
use std::test::Fail;
use test_runs::cases::{USAGE, content_of};
use test_runs::comparing::{compares, gives, two_files};
use test_runs::running::{memory_files, ran_over, words_of};

#[test]
fn alarms_of_all_variants(rt: HostRuntime) -> Result<(), Fail> {
    let alloc = rt.alloc();
    let rows = [
        (
            "analyse ma f8",
            1,
            "9:1: overflow if !A; example A=0\n12:1: assertion if !A; example A=0\nalarms: 2\n",
        ),
        (
            "analyse mn f9",
            1,
            "4:1: assertion if N >= 5; example N=5\nalarms: 1\n",
        ),
        (
            "analyse mc f10",
            1,
            "3:1: assertion if !A; example A=0 N=3\nalarms: 1\n",
        ),
        ("analyse ma f14", 0, "alarms: 0\n"),
        (
            "analyse mn f21",
            1,
            "3:1: assertion if N >= 3; example N=3\nalarms: 1\n",
        ),
        (
            "analyse mn f21_negative",
            1,
            "3:1: assertion if N <= 2; example N=0\nalarms: 1\n",
        ),
        (
            "analyse ma f29",
            1,
            "7:1: assertion if !A; example A=0\nalarms: 1\n",
        ),
        ("analyse mnot f32", 0, "alarms: 0\n"),
        (
            "analyse ma f38",
            1,
            "10:1: assertion if 1; example A=0\nalarms: 1\n",
        ),
        ("analyse m0 f1", 0, "alarms: 0\n"),
        (
            "analyse m0 f2",
            1,
            "3:1: zero-divisor if 1; example -\nalarms: 1\n",
        ),
    ];
    for (line, status, output) in rows {
        gives(alloc, line, Vec::new(alloc), (status, output, ""))?;
    }
    Ok(())
}

#[test]
fn alarms_with_options(rt: HostRuntime) -> Result<(), Fail> {
    let alloc = rt.alloc();
    let rows = [
        (
            "analyse m0 f6 --narrow 0",
            1,
            "4:1: assertion if 1; example -\nalarms: 1\n",
        ),
        ("analyse m0 f35 --overflow wrap", 0, "alarms: 0\n"),
        (
            "analyse m0 f35",
            1,
            "4:1: overflow if 1; example -\nalarms: 1\n",
        ),
        (
            "analyse m0 f7",
            1,
            "7:1: overflow if 1; example -\n9:1: assertion if 1; example -\nalarms: 2\n",
        ),
        ("--domain octagon analyse m0 f7", 0, "alarms: 0\n"),
        (
            "analyse --domain stride ma f38",
            1,
            "10:1: assertion if !A; example A=0\nalarms: 1\n",
        ),
        (
            "analyse --domain sharp ma f38",
            1,
            "10:1: assertion if !A; example A=0\nalarms: 1\n",
        ),
        (
            "analyse queue.json queue.c",
            1,
            "22:9: overflow if LOG && !FAST; example LOG=1 FAST=0 RETRY=0 SAFE=0 BULK=0 SIZE=1 LIMIT=0\n22:9: overflow if LOG && FAST; example LOG=1 FAST=1 RETRY=0 SAFE=0 BULK=0 SIZE=1 LIMIT=0\n26:5: overflow if !SAFE && BULK; example LOG=0 FAST=0 RETRY=0 SAFE=0 BULK=1 SIZE=1 LIMIT=0\n34:5: zero-divisor if FAST && RETRY && LIMIT >= 1; example LOG=0 FAST=1 RETRY=1 SAFE=0 BULK=0 SIZE=1 LIMIT=1\nalarms: 4\n",
        ),
        (
            "analyse queue.json queue.c --domain=octagon",
            1,
            "26:5: overflow if !SAFE && BULK; example LOG=0 FAST=0 RETRY=0 SAFE=0 BULK=1 SIZE=1 LIMIT=0\n34:5: zero-divisor if FAST && RETRY && LIMIT >= 1; example LOG=0 FAST=1 RETRY=1 SAFE=0 BULK=0 SIZE=1 LIMIT=1\nalarms: 2\n",
        ),
    ];
    for (line, status, output) in rows {
        gives(alloc, line, Vec::new(alloc), (status, output, ""))?;
    }
    Ok(())
}

#[test]
fn invariants_of_all_variants(rt: HostRuntime) -> Result<(), Fail> {
    let alloc = rt.alloc();
    let rows = [
        (
            "invariants m0 f6",
            0,
            "3:1: if 1: x in [0,10]\n3:16: if 1: x in [0,9]\n4:1: if 1: x in [10,10]\n5:1: if 1: x in [10,10]\nalarms: 0\n",
        ),
        (
            "invariants --domain octagon m0 f7",
            0,
            "4:1: if 1: x in [0,0], y in [0,0]\n5:1: if 1: x in [0,100], y in [0,100], x-y in [0,0]\n5:17: if 1: x in [0,99], y in [0,99], x-y in [0,0]\n6:1: if 1: x in [0,99], y in [0,99], x-y in [0,0]\n7:1: if 1: x in [1,100], y in [0,99], x-y in [1,1]\n9:1: if 1: x in [100,100], y in [100,100]\n10:1: if 1: x in [100,100], y in [100,100]\nalarms: 0\n",
        ),
        (
            "invariants --domain octagon m0 both_ways",
            0,
            "4:1: if 1: x in [0,10], y in [0,10], x+y in [10,10]\n4:16: if 1: x in [0,9], y in [1,10], x+y in [10,10]\n5:1: if 1: x in [0,9], y in [1,10], x+y in [10,10]\n6:1: if 1: x in [1,10], y in [1,10], x+y in [11,11]\n8:1: if 1: x in [10,10], y in [0,0]\n9:1: if 1: x in [10,10], y in [0,0]\nalarms: 0\n",
        ),
        (
            "invariants --domain=sharp m0 f42",
            0,
            "4:1: if 1: x in [0,10] step 2, y in [0,10] step 2, x-y in [0,0]\n4:15: if 1: x in [0,8] step 2, y in [0,8] step 2, x-y in [0,0]\n5:1: if 1: x in [0,8] step 2, y in [0,8] step 2, x-y in [0,0]\n6:1: if 1: x in [2,10] step 2, y in [0,8] step 2, x-y in [2,2]\n8:1: if 1: x in [10,10], y in [10,10]\n9:1: if 1: x in [10,10], y in [10,10]\nalarms: 0\n",
        ),
        (
            "invariants ma f31",
            0,
            "6:1: if !A: unreachable\n6:1: if A: x in [0,0]\n8:1: if !A: x in [0,0]\n8:1: if A: x in [1,1]\nalarms: 0\n",
        ),
        ("invariants m0 f1", 0, "1:18: if 1: reachable\nalarms: 0\n"),
        (
            "invariants m0 f2",
            1,
            "3:1: if 1: x in [0,0]\n4:1: if 1: unreachable\n3:1: zero-divisor if 1; example -\nalarms: 1\n",
        ),
    ];
    for (line, status, output) in rows {
        gives(alloc, line, Vec::new(alloc), (status, output, ""))?;
    }
    Ok(())
}

#[test]
fn models_and_files_are_refused(rt: HostRuntime) -> Result<(), Fail> {
    let alloc = rt.alloc();
    let rows = [
        ("analyse ma f12", 4, "file: F3 at 1:7\n"),
        ("analyse ma f13", 4, "file: F6 at 2:1\n"),
        ("analyse ma f14_reserved", 4, "file: F8 C4 at 2:1\n"),
        ("analyse ma f15", 4, "file: F19 at 6:1\n"),
        ("analyse mn f21_product", 4, "file: F8 C2 at 2:1\n"),
        ("analyse mn f21_large", 4, "file: F8 C3 at 2:1\n"),
        ("analyse ma f30", 4, "file: F13 at 5:1; example A=0\n"),
        ("analyse ma f32", 4, "file: F14 at 3:5; example A=1\n"),
        ("analyse ma f33", 4, "file: F12 at 2:5\n"),
        ("invariants ma f33", 4, "file: F12 at 2:5\n"),
        ("analyse void f10", 3, "model: M9\n"),
        ("invariants m1 none", 3, "model: M1\n"),
        ("analyse none f8", 6, "read fault: model\n"),
        ("invariants ma none", 6, "read fault: file\n"),
    ];
    for (line, status, told) in rows {
        gives(alloc, line, Vec::new(alloc), (status, "", told))?;
    }
    Ok(())
}

#[test]
fn loads_of_both_commands_fail(rt: HostRuntime) -> Result<(), Fail> {
    let alloc = rt.alloc();
    let rows = [
        ("analyse ma f8", 1, "read fault: model\n"),
        ("analyse ma f8", 2, "read fault: file\n"),
        ("invariants ma f8", 2, "read fault: file\n"),
        ("analyse ma ma", 2, "read fault: model\n"),
    ];
    for (line, call, told) in rows {
        let failing = vec![in alloc; call]?;
        gives(alloc, line, failing, (6, "", told))?;
    }
    Ok(())
}

#[test]
fn other_words_are_refused(rt: HostRuntime) -> Result<(), Fail> {
    let alloc = rt.alloc();
    let usage = USAGE;
    let lines = [
        "analyse",
        "analyse ma",
        "analyse ma f8 A=1",
        "analyse ma f8 --steps 3",
        "invariants ma f8 --inputs=1",
        "invariants ma f8 --domain boxes",
        "analyse ma f8 --regions",
        "analyse ma f8 --regions joined",
        "invariants ma f8 --regions=paths --regions=paths",
    ];
    for line in lines {
        gives(alloc, line, Vec::new(alloc), (2, "", usage))?;
    }
    Ok(())
}

#[test]
fn a_long_model_is_refused(rt: HostRuntime) -> Result<(), Fail> {
    let alloc = rt.alloc();
    let mut model = Vec::new(alloc);
    for _ in 0..65537u32 {
        model.push(b' ')?;
    }
    let contents = two_files(model.as_slice(), content_of("f8"));
    Ok(compares(alloc, "analyse m f", &contents, (3, b"", b"model: M8\n"))?)
}

/// A model of this many switches `F1`, `F2` and so on.
fn switches(alloc: Global, count: u32) -> Result<Vec<u8>, NoMemory> {
    let mut text = String::from_str(alloc, "{\"features\":[")?;
    for i in 1..=count {
        if i > 1 {
            text.push_str(",")?;
        }
        write!(text, "{{\"name\":\"F{i}\"}}")?;
    }
    text.push_str("]}\n")?;
    Ok(text.into_bytes())
}

/// For each switch a group that counts up and down.
fn counting(alloc: Global, count: u32) -> Result<Vec<u8>, NoMemory> {
    let mut text = String::from_str(alloc, "int x;\nint main(void) {\n")?;
    for i in 1..=count {
        write!(text, "#ifdef F{i}\nx++;\nx--;\n#endif\n")?;
    }
    text.push_str("}\n")?;
    Ok(text.into_bytes())
}

#[test]
fn thirty_switches(rt: HostRuntime) -> Result<(), Fail> {
    let alloc = rt.alloc();
    let model = switches(alloc, 30)?;
    let file = counting(alloc, 30)?;
    let contents = two_files(model.as_slice(), file.as_slice());
    compares(alloc, "analyse m f", &contents, (0, b"alarms: 0\n", b""))?;
    let ran = ran_over(alloc, "invariants m f", &contents).map_err(|_| "memory")?;
    assert_eq!(rt; ran.status, 0);
    assert!(rt; ran.out.ends_with(b"\n123:1: if 1: x in [0,0]\nalarms: 0\n"));
    let many = switches(alloc, 33)?;
    let refused = two_files(many.as_slice(), file.as_slice());
    Ok(compares(alloc, "analyse m f", &refused, (3, b"", b"model: M6\n"))?)
}

/// As many tests of `N` in groups of their own.
fn tested(alloc: Global, count: u32) -> Result<Vec<u8>, NoMemory> {
    let mut text = String::from_str(alloc, "int main(void) {\n")?;
    for i in 1..=count {
        write!(text, "#if N >= {i}\n#endif\n")?;
    }
    text.push_str("}\n")?;
    Ok(text.into_bytes())
}

/// As many groups, one in the other.
fn nested(alloc: Global, count: u32) -> Result<Vec<u8>, NoMemory> {
    let mut text = String::from_str(alloc, "int main(void) {\n")?;
    for _ in 0..count {
        text.push_str("#if 0\n")?;
    }
    for _ in 0..count {
        text.push_str("#endif\n")?;
    }
    text.push_str("}\n")?;
    Ok(text.into_bytes())
}

#[test]
fn limits_of_groups(rt: HostRuntime) -> Result<(), Fail> {
    let alloc = rt.alloc();
    let model = b"{\"features\":[{\"name\":\"N\",\"min\":0,\"max\":100}]}\n".as_slice();
    let most = tested(alloc, 64)?;
    let contents = two_files(model, most.as_slice());
    compares(alloc, "analyse m f", &contents, (0, b"alarms: 0\n", b""))?;
    let more = tested(alloc, 65)?;
    let contents = two_files(model, more.as_slice());
    compares(
        alloc,
        "analyse m f",
        &contents,
        (4, b"", b"file: F9 at 130:1\n"),
    )?;
    let deep = nested(alloc, 65)?;
    let contents = two_files(content_of("ma"), deep.as_slice());
    Ok(compares(
        alloc,
        "analyse m f",
        &contents,
        (4, b"", b"file: F16 at 66:1\n"),
    )?)
}

/// The first line of the section that is open behind this line of the queue, if one is.
fn open_section(line: u32) -> Option<u32> {
    match line {
        12..=17 => Some(12),
        21..=22 => Some(21),
        25..=26 => Some(25),
        28..=31 => Some(28),
        33..=36 => Some(33),
        _ => None,
    }
}

/// The line that tells the fault of the queue, cut behind a line.
fn told_of_cut(alloc: Global, line: u32) -> Result<Vec<u8>, NoMemory> {
    let text = match open_section(line) {
        Some(first) => format!(in alloc; "file: F6 at {first}:1\n")?,
        None => {
            let next = u64::from(line) + 1;
            format!(in alloc; "file: F12 at {next}:1\n")?
        }
    };
    Ok(text.into_bytes())
}

#[test]
fn cut_files_are_refused(rt: HostRuntime) -> Result<(), Fail> {
    let alloc = rt.alloc();
    let model = content_of("queue.json");
    let whole = content_of("queue.c");
    let mut cut = Vec::new(alloc);
    let mut line = 0u32;
    let told = told_of_cut(alloc, 0)?;
    compares(
        alloc,
        "analyse m f",
        &two_files(model, b""),
        (4, b"", told.as_slice()),
    )?;
    for byte in whole {
        cut.push(*byte)?;
        if *byte == b'\n' && line < 39 {
            line += 1;
            let told = told_of_cut(alloc, line)?;
            let contents = two_files(model, cut.as_slice());
            compares(alloc, "analyse m f", &contents, (4, b"", told.as_slice()))?;
            if line == 39 {
                return Ok(());
            }
        }
    }
    Err(Fail::new("forty lines"))
}

/// Runs `analyse` on the first small family, over sinks of which these calls fail.
fn writes_fail(
    rt: &impl Abort,
    alloc: Global,
    most: usize,
    failing: (Vec<u64>, Vec<u64>),
    wanted: (&[u8], &[u8]),
) -> Result<(), Fail>
    requires { 1 ≤ most }
{
    let (outs, errs) = failing;
    let words = words_of(alloc, "analyse m f").map_err(|_| "memory")?;
    let contents = two_files(content_of("ma"), content_of("f8"));
    let mut files = memory_files(alloc, &contents).map_err(|_| "memory")?;
    let mut out = MemorySink::new(alloc, 1000, most, outs).map_err(|_| "memory")?;
    let mut err = MemorySink::new(alloc, 1000, 1000, errs).map_err(|_| "memory")?;
    let status = famlint(alloc, &words, &mut files, &mut out, &mut err);
    let (output, told) = wanted;
    assert_eq!(rt; status, 7);
    assert_eq!(rt; out.taken.as_slice(), output);
    assert_eq!(rt; err.taken.as_slice(), told);
    Ok(())
}

#[test]
fn a_write_fails(rt: HostRuntime) -> Result<(), Fail> {
    let alloc = rt.alloc();
    let third = (vec![in alloc; 3]?, Vec::new(alloc));
    writes_fail(&rt, alloc, 5, third, (b"9:1: overf", b"write fault\n"))?;
    let both = (vec![in alloc; 1]?, vec![in alloc; 1]?);
    writes_fail(&rt, alloc, 1000, both, (b"", b""))
}

//! `certify` and `check` over files in memory.

use fam_outer::NoMemory;
use family_generator::generated_text;
use std::alloc::Global;
use std::test::Fail;
use test_runs::cases::{USAGE, content_of};
use test_runs::comparing::{Unlike, compares, gives, three_files, two_files};
use test_runs::running::ran_over;

/// The certificate of a count to 10 that counts a second variable where `A` is off.
const WHOLE: &str =
    "famlint certificate 1 stop\nloop 4:1 if !A: x in [0,2147483647], i in [0,10]\nloop 4:1 if A: x in [0,0], i in [0,10]\nalarm 9:1: overflow if !A\nalarm 12:1: assertion if !A\n";

/// The same where sums wrap.
const WRAPPED: &str =
    "famlint certificate 1 wrap\nloop 4:1 if !A: x in [-2147483648,2147483647], i in [0,10]\nloop 4:1 if A: x in [0,0], i in [0,10]\nalarm 12:1: assertion if !A\n";

#[test]
fn certificates_of_families(rt: HostRuntime) -> Result<(), Fail> {
    let alloc = rt.alloc();
    let rows = [
        ("certify ma f8", 1, WHOLE),
        ("certify --overflow wrap ma f8", 1, WRAPPED),
        (
            "certify --narrow 0 ma f8",
            1,
            "famlint certificate 1 stop\nloop 4:1 if !A: x in [0,2147483647], i in [0,2147483647]\nloop 4:1 if A: x in [0,0], i in [0,2147483647]\nalarm 9:1: overflow if !A\nalarm 12:1: assertion if !A\n",
        ),
        (
            "certify ma f38",
            1,
            "famlint certificate 1 stop\nloop 3:1 if !A: x in [0,12]\nloop 3:1 if A: x in [0,11]\nalarm 10:1: assertion if 1\n",
        ),
        (
            "certify mc f10",
            1,
            "famlint certificate 1 stop\nalarm 3:1: assertion if !A\n",
        ),
        ("certify m0 f1", 0, "famlint certificate 1 stop\n"),
    ];
    for (line, status, output) in rows {
        gives(alloc, line, Vec::new(alloc), (status, output, ""))?;
    }
    Ok(())
}

/// Compares what the check of a certificate over `ma` and a file comes to.
fn checked(
    alloc: Global,
    file: &str,
    certificate: &str,
    wanted: (u8, &str, &str),
) -> Result<(), Unlike> {
    let contents = three_files(content_of("ma"), content_of(file), certificate.as_bytes());
    let (status, output, told) = wanted;
    let wanted = (status, output.as_bytes(), told.as_bytes());
    compares(alloc, "check m f c", &contents, wanted)
}

#[test]
fn certificates_that_hold(rt: HostRuntime) -> Result<(), Fail> {
    let rows = [
        ("f8", WHOLE, "certificate: yes, 2 alarms\n"),
        ("f8", WRAPPED, "certificate: yes, 1 alarms\n"),
        // a family without loops
        (
            "f10",
            "famlint certificate 1 stop\nalarm 3:1: assertion if !A\n",
            "certificate: yes, 1 alarms\n",
        ),
        (
            "f1",
            "famlint certificate 1 stop\n",
            "certificate: yes, 0 alarms\n",
        ),
        // a line at a place that is no loop, and one of an alarm that no run has, change nothing
        (
            "f8",
            "famlint certificate 1 stop\nloop 7:1 if 1: unreachable\nalarm 5:1: overflow if 1\nloop 4:1 if !A: x in [0,2147483647], i in [0,10]\nloop 4:1 if A: x in [0,0], i in [0,10]\nalarm 9:1: overflow if !A\nalarm 12:1: assertion if !A\n",
            "certificate: yes, 3 alarms\n",
        ),
        // lines in an other order
        (
            "f8",
            "famlint certificate 1 stop\nalarm 12:1: assertion if !A\nloop 4:1 if A: x in [0,0], i in [0,10]\nalarm 9:1: overflow if !A\nloop 4:1 if !A: x in [0,2147483647], i in [0,10]\n",
            "certificate: yes, 2 alarms\n",
        ),
        // of two lines whose regions overlap the first counts
        (
            "f8",
            "famlint certificate 1 stop\nloop 4:1 if 1: x in [0,2147483647], i in [0,10]\nloop 4:1 if A: unreachable\nalarm 9:1: overflow if !A\nalarm 12:1: assertion if 1\n",
            "certificate: yes, 2 alarms\n",
        ),
    ];
    for (file, certificate, output) in rows {
        checked(rt.alloc(), file, certificate, (0, output, ""))?;
    }
    Ok(())
}

#[test]
fn certificates_that_do_not_hold(rt: HostRuntime) -> Result<(), Fail> {
    let rows = [
        // no line for a stop
        (
            "famlint certificate 1 stop\nloop 4:1 if !A: x in [0,2147483647], i in [0,10]\nloop 4:1 if A: x in [0,0], i in [0,10]\nalarm 12:1: assertion if !A\n",
            "certificate: no: 9:1 overflow; example A=0\n",
        ),
        // one of another kind
        (
            "famlint certificate 1 stop\nloop 4:1 if !A: x in [0,2147483647], i in [0,10]\nloop 4:1 if A: x in [0,0], i in [0,10]\nalarm 9:1: zero-divisor if !A\nalarm 12:1: assertion if !A\n",
            "certificate: no: 9:1 overflow; example A=0\n",
        ),
        // one of another region
        (
            "famlint certificate 1 stop\nloop 4:1 if 1: x in [0,2147483647], i in [0,10]\nalarm 9:1: overflow if !A\nalarm 12:1: assertion if !A\n",
            "certificate: no: 12:1 assertion; example A=1\n",
        ),
        // the body leaves what is said of the head
        (
            "famlint certificate 1 stop\nloop 4:1 if !A: x in [0,2147483647], i in [0,10]\nloop 4:1 if A: x in [0,0], i in [0,9]\nalarm 9:1: overflow if !A\nalarm 12:1: assertion if !A\n",
            "certificate: no: 4:1 loop; example A=1\n",
        ),
        // what enters is not in it
        (
            "famlint certificate 1 stop\nloop 4:1 if !A: x in [0,2147483647], i in [0,10]\nloop 4:1 if A: x in [0,0], i in [1,10]\nalarm 9:1: overflow if !A\nalarm 12:1: assertion if !A\n",
            "certificate: no: 4:1 loop; example A=1\n",
        ),
        // the first of two lines says less than the second
        (
            "famlint certificate 1 stop\nloop 4:1 if A: unreachable\nloop 4:1 if 1: x in [0,2147483647], i in [0,10]\nalarm 9:1: overflow if !A\nalarm 12:1: assertion if 1\n",
            "certificate: no: 4:1 loop; example A=1\n",
        ),
        // a loop before an alarm, and no line at all
        (
            "famlint certificate 1 stop\nloop 4:1 if A: x in [0,0], i in [0,10]\n",
            "certificate: no: 4:1 loop; example A=0\n",
        ),
        (
            "famlint certificate 1 stop\n",
            "certificate: no: 4:1 loop; example A=0\n",
        ),
        // what holds where sums stop does not where they wrap
        (
            "famlint certificate 1 wrap\nloop 4:1 if !A: x in [0,2147483647], i in [0,10]\nloop 4:1 if A: x in [0,0], i in [0,10]\nalarm 9:1: overflow if !A\nalarm 12:1: assertion if !A\n",
            "certificate: no: 4:1 loop; example A=0\n",
        ),
    ];
    for (certificate, output) in rows {
        checked(rt.alloc(), "f8", certificate, (1, output, ""))?;
    }
    Ok(())
}

#[test]
fn certificates_that_are_refused(rt: HostRuntime) -> Result<(), Fail> {
    let rows = [
        ("", "certificate: E2\n"),
        ("famlint certificate 2 stop\n", "certificate: E2\n"),
        ("famlint certificate 1 stop", "certificate: E2\n"),
        (
            "famlint certificate 1 stop\nloop 4:1 if !A: x in [0,2147483647], i in [0,10]\nloop 4:1 if A: x in [0,0], i in [0,10]\nalarm 9:1: overflow if A >=\nalarm 12:1: assertion if !A\n",
            "certificate: E4 at line 4\n",
        ),
        (
            "famlint certificate 1 stop\nloop 4:1 if !A: x in [0,2147483647], i in [0,10]\nloop 4:1 if A: x in [0,0], i in [0,10]\nalarm 9:1: overflow if !A\nalarm 12:1: assertion if !A",
            "certificate: E3 at line 5\n",
        ),
        // a variable too few, and a range that is empty
        (
            "famlint certificate 1 stop\nloop 4:1 if 1: x in [0,0]\n",
            "certificate: E3 at line 2\n",
        ),
        (
            "famlint certificate 1 stop\nloop 4:1 if 1: x in [1,0], i in [0,10]\n",
            "certificate: E3 at line 2\n",
        ),
    ];
    for (certificate, told) in rows {
        checked(rt.alloc(), "f8", certificate, (9, "", told))?;
    }
    Ok(())
}

#[test]
fn words_and_loads(rt: HostRuntime) -> Result<(), Fail> {
    let alloc = rt.alloc();
    let rows = [
        ("check nowhere f8 f1", 6, "read fault: model\n"),
        ("check ma nowhere f1", 6, "read fault: file\n"),
        ("check ma f8 nowhere", 6, "read fault: certificate\n"),
        // a refusal comes before a later load
        ("check void f8 nowhere", 3, "model: M9\n"),
        ("check ma f13 nowhere", 4, "file: F6 at 2:1\n"),
        ("check ma f8 ma", 9, "certificate: E2\n"),
        ("certify void f8", 3, "model: M9\n"),
        ("certify ma f13", 4, "file: F6 at 2:1\n"),
        ("certify ma nowhere", 6, "read fault: file\n"),
        ("check ma f8", 2, USAGE),
        ("check ma f8 f1 f1", 2, USAGE),
        ("check --overflow wrap ma f8 f1", 2, USAGE),
        ("check --regions paths ma f8 f1", 2, USAGE),
        ("certify ma", 2, USAGE),
        ("certify ma f8 A", 2, USAGE),
        ("certify --domain octagon ma f8", 2, USAGE),
        ("certify --steps 1 ma f8", 2, USAGE),
        ("certify --regions=joined ma f8", 2, USAGE),
    ];
    for (line, status, told) in rows {
        gives(alloc, line, Vec::new(alloc), (status, "", told))?;
    }
    // a path that is CERTIFICATE's and FILE's is FILE's
    let third = vec![in alloc; 3u64]?;
    gives(
        alloc,
        "check ma f8 f8",
        third,
        (6, "", "read fault: file\n"),
    )?;
    let third = vec![in alloc; 3u64]?;
    Ok(gives(
        alloc,
        "check ma f8 f1",
        third,
        (6, "", "read fault: certificate\n"),
    )?)
}

/// What `certify` writes for a model and a file with these options is accepted, with as many alarms.
fn is_accepted<'x>(
    alloc: Global,
    options: &str,
    model: &'x [u8],
    file: &'x [u8],
    told: &str,
) -> Result<(), Fail> {
    let line = format!(in alloc; "certify {options} m f").map_err(|_| "memory")?;
    let contents = two_files(model, file);
    let ran = ran_over(alloc, line.as_str(), &contents).map_err(|_| "memory")?;
    let contents = three_files(model, file, ran.out.as_slice());
    Ok(compares(alloc, "check m f c", &contents, (0, told.as_bytes(), b""))?)
}

#[test]
fn what_is_certified_is_accepted(rt: HostRuntime) -> Result<(), Fail> {
    let alloc = rt.alloc();
    let rows = [
        ("--delay 0", "ma", "f8", "certificate: yes, 2 alarms\n"),
        (
            "--narrow 0 --delay 3",
            "ma",
            "f8",
            "certificate: yes, 2 alarms\n",
        ),
        (
            "--overflow wrap",
            "ma",
            "f8",
            "certificate: yes, 1 alarms\n",
        ),
        ("--narrow 2", "ma", "f38", "certificate: yes, 1 alarms\n"),
        ("--delay 0", "ma", "f31", "certificate: yes, 0 alarms\n"),
        (
            "--delay 0",
            "queue.json",
            "queue.c",
            "certificate: yes, 4 alarms\n",
        ),
        (
            "--overflow wrap",
            "queue.json",
            "queue.c",
            "certificate: yes, 1 alarms\n",
        ),
    ];
    for (options, model, file, told) in rows {
        let (model, file) = (content_of(model), content_of(file));
        is_accepted(alloc, options, model, file, told)?;
    }
    Ok(())
}

/// A model of thirty switches, and a file that counts to ten and, where a switch is on, once more behind it.
fn thirty(alloc: Global) -> Result<(String, String), NoMemory> {
    let mut model = String::from_str(alloc, "{\"features\":[{\"name\":\"F1\"}")?;
    let mut file = String::from_str(
        alloc,
        "int x;\nint main(void) {\nwhile (x < 10) {\nx++;\n}\n",
    )?;
    for number in 2..31 {
        write!(model, ",{{\"name\":\"F{number}\"}}")?;
        write!(
            file,
            "#ifdef F{number}\nwhile (x < 20) {{\nx++;\nx--;\nx++;\n}}\nx = 10;\n#endif\n"
        )?;
    }
    model.push_str("]}\n")?;
    file.push_str("assert(x == 10);\n}\n")?;
    Ok((model, file))
}

#[test]
fn thirty_switches_with_loops(rt: HostRuntime) -> Result<(), Fail> {
    let alloc = rt.alloc();
    let (model, file) = thirty(alloc)?;
    let told = "certificate: yes, 0 alarms\n";
    is_accepted(alloc, "--delay 0", model.as_bytes(), file.as_bytes(), told)
}

/// Eight switches and a number, over which thirty blocks are generated.
#[test]
fn a_generated_family(rt: HostRuntime) -> Result<(), Fail> {
    let alloc = rt.alloc();
    let model =
        b"{\"features\":[{\"name\":\"F0\"},{\"name\":\"F1\"},{\"name\":\"F2\"},{\"name\":\"F3\"},{\"name\":\"F4\"},{\"name\":\"F5\"},{\"name\":\"F6\"},{\"name\":\"F7\"},{\"name\":\"N\",\"min\":0,\"max\":9}]}\n";
    let text = generated_text(alloc, 30)?;
    let told = "certificate: yes, 0 alarms\n";
    is_accepted(alloc, "--delay 0", model, text.bytes(), told)
}

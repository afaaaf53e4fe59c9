//! Names that no model has, and includes: refused or not, beside what comes without the options.

use std::test::Fail;
use test_runs::cases::USAGE;
use test_runs::comparing::{compares, three_files, two_files};
use test_runs::running::ran_over;

/// One switch.
const SWITCH: &[u8] = b"{\"features\":[{\"name\":\"A\"}]}\n";

/// A constraint with a name that is no feature.
const STRANGE: &[u8] =
    b"{\"features\":[{\"name\":\"A\"}],\"constraints\":[\"A||!A\",\"!defined(B)\"]}\n";

/// A misspelled switch.
const MISSPELLED: &[u8] = b"int main(void) {\n#ifdef a\nassert(0);\n#endif\n}\n";

/// A name that is no feature, and a truth value used as a number.
const SUMMED: &[u8] = b"int main(void){\n#if X+(A&&A)\n#endif\n}\n";

/// A condition that has features alone.
const KNOWN: &[u8] = b"int main(void) {\n#ifdef A\nassert(0);\n#endif\n}\n";

/// Includes in and outside a group.
const INCLUDING: &[u8] =
    b"#include <stdint.h>\n#ifdef A\n#include \"a.h\"\n#endif\nint main(void) { assert(0); }\n";

#[test]
fn unknown_names(rt: HostRuntime) -> Result<(), Fail> {
    let quiet = "alarms: 0\n";
    let rows = [
        ("analyse m f", SWITCH, MISSPELLED, 0, quiet, ""),
        (
            "analyse m f --unknown zero",
            SWITCH,
            MISSPELLED,
            0,
            quiet,
            "",
        ),
        (
            "analyse m f --unknown refuse",
            SWITCH,
            MISSPELLED,
            4,
            "",
            "file: F8 C6 at 2:1\n",
        ),
        (
            "analyse m f --unknown refuse",
            SWITCH,
            SUMMED,
            4,
            "",
            "file: F8 C6 at 2:1\n",
        ),
        ("analyse m f", SWITCH, SUMMED, 4, "", "file: F8 C2 at 2:1\n"),
        (
            "analyse m f --unknown=refuse",
            SWITCH,
            KNOWN,
            1,
            "3:1: assertion if A; example A=1\nalarms: 1\n",
            "",
        ),
        (
            "invariants m f --unknown refuse",
            STRANGE,
            KNOWN,
            3,
            "",
            "model: M7 C6 at constraint 2\n",
        ),
        (
            "features m --unknown refuse",
            STRANGE,
            KNOWN,
            3,
            "",
            "model: M7 C6 at constraint 2\n",
        ),
        ("features m", STRANGE, KNOWN, 0, "A: free\n", ""),
        (
            "project m f A --unknown refuse",
            SWITCH,
            MISSPELLED,
            4,
            "",
            "file: F8 C6 at 2:1\n",
        ),
        (
            "run m f A --unknown refuse",
            SWITCH,
            MISSPELLED,
            4,
            "",
            "file: F8 C6 at 2:1\n",
        ),
        (
            "advise m f A --unknown refuse",
            SWITCH,
            MISSPELLED,
            4,
            "",
            "file: F8 C6 at 2:1\n",
        ),
        ("plain f --unknown refuse", SWITCH, KNOWN, 2, "", USAGE),
    ];
    for (line, model, file, status, output, told) in rows {
        let files = two_files(model, file);
        let wanted = (status, output.as_bytes(), told.as_bytes());
        compares(rt.alloc(), line, files.as_slice(), wanted)?;
    }
    Ok(())
}

#[test]
fn includes(rt: HostRuntime) -> Result<(), Fail> {
    let refused = "file: F4 at 1:1\n";
    let rows = [
        ("analyse m f", 4, "", refused),
        ("analyse m f --includes assert", 4, "", refused),
        (
            "analyse m f --includes skip",
            1,
            "5:18: assertion if 1; example A=0\nalarms: 1\n",
            "",
        ),
        ("plain f --includes skip", 4, "", "file: F21 at 2:1\n"),
        (
            "project m f A --includes skip",
            0,
            "\n\n\n\nint main(void) { assert(0); }\n",
            "",
        ),
        (
            "variant m f A --includes=skip",
            1,
            "5:18: assertion\nalarms: 1\n",
            "",
        ),
        ("run m f --includes skip", 0, "stopped 5:18 assertion\n", ""),
        ("run m f", 4, "", refused),
        ("features m --includes skip", 2, "", USAGE),
        ("generate 1 --includes skip", 2, "", USAGE),
    ];
    for (line, status, output, told) in rows {
        let files = two_files(SWITCH, INCLUDING);
        let wanted = (status, output.as_bytes(), told.as_bytes());
        compares(rt.alloc(), line, files.as_slice(), wanted)?;
    }
    let plain = b"#include <stdint.h>\n#include \"a.h\"\nint main(void) { }\n";
    let files = two_files(SWITCH, plain);
    let quiet = (0, b"alarms: 0\n".as_slice(), b"".as_slice());
    Ok(compares(
        rt.alloc(),
        "plain f --includes skip",
        files.as_slice(),
        quiet,
    )?)
}

#[test]
fn certificates(rt: HostRuntime) -> Result<(), Fail> {
    let certificate = b"famlint certificate 1 stop\nalarm 5:18: assertion if 1\n";
    let files = three_files(SWITCH, INCLUDING, certificate);
    let written = (1, certificate.as_slice(), b"".as_slice());
    let line = "certify m f --includes skip";
    compares(rt.alloc(), line, files.as_slice(), written)?;
    let line = "check m f c --includes=skip --unknown=refuse";
    let ran = ran_over(rt.alloc(), line, files.as_slice())?;
    assert_eq!(rt; ran.status, 0);
    let refused = (4, b"".as_slice(), b"file: F4 at 1:1\n".as_slice());
    Ok(compares(rt.alloc(), "check m f c", files.as_slice(), refused)?)
}

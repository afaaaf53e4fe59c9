//! Merged regions beside those by paths: fewer lines, with the same meaning.

use std::test::Fail;
use test_runs::cases::{USAGE, content_of};
use test_runs::comparing::{compares, gives, three_files, two_files};

/// A place that all variants have, behind groups that say nothing of it.
const STEPS: &[u8] = b"int main(void){\n#if N>=3\n#endif\n#if N>=5\n#endif\nassert(0);\n}\n";

/// A place that one value of a number keeps.
const THREE: &[u8] = b"int main(void){\n#if N==3\nassert(0);\n#endif\n}\n";

/// A loop that one value of a number keeps.
const COUNTED: &[u8] =
    b"int x;\nint main(void){\n#if N==3\nwhile(x<5)x++;\n#endif\nassert(x==0);\n}\n";

/// The invariants of the loop and the alarm of the last.
const COUNTED_CERTIFICATE: &str =
    "famlint certificate 1 stop\nloop 4:1 if N <= 2: unreachable\nloop 4:1 if N == 3: x in [0,5]\nloop 4:1 if N >= 4: unreachable\nalarm 6:1: assertion if N == 3\n";

#[test]
fn reports_by_paths_and_merged(rt: HostRuntime) -> Result<(), Fail> {
    let alloc = rt.alloc();
    let rows = [
        (
            "analyse m f",
            STEPS,
            "6:1: assertion if N <= 2; example N=0\n6:1: assertion if N >= 3; example N=3\nalarms: 2\n",
        ),
        (
            "analyse m f --regions merged",
            STEPS,
            "6:1: assertion if 1; example N=0\nalarms: 1\n",
        ),
        (
            "analyse m f --regions=paths",
            THREE,
            "3:1: assertion if N >= 3 && N <= 3; example N=3\nalarms: 1\n",
        ),
        (
            "analyse m f --regions=merged",
            THREE,
            "3:1: assertion if N == 3; example N=3\nalarms: 1\n",
        ),
        (
            "invariants --regions=merged m f",
            THREE,
            "3:1: if N <= 2: unreachable\n3:1: if N == 3: reachable\n3:1: if N >= 4: unreachable\n5:1: if N <= 2: reachable\n5:1: if N == 3: unreachable\n5:1: if N >= 4: reachable\n3:1: assertion if N == 3; example N=3\nalarms: 1\n",
        ),
        ("certify --regions=merged m f", COUNTED, COUNTED_CERTIFICATE),
    ];
    for (line, file, output) in rows {
        let files = two_files(content_of("mn"), file);
        let wanted = (1, output.as_bytes(), "".as_bytes());
        compares(alloc, line, &files, wanted)?;
    }
    Ok(())
}

#[test]
fn merged_certificates_are_accepted(rt: HostRuntime) -> Result<(), Fail> {
    let alloc = rt.alloc();
    let files = three_files(content_of("mn"), COUNTED, COUNTED_CERTIFICATE.as_bytes());
    let wanted = (0, "certificate: yes, 1 alarms\n".as_bytes(), "".as_bytes());
    Ok(compares(alloc, "check m f c", &files, wanted)?)
}

#[test]
fn commands_that_have_no_regions(rt: HostRuntime) -> Result<(), Fail> {
    let alloc = rt.alloc();
    let rows = [
        (
            "generate 3 --regions=merged",
            0,
            "bytes: 164\nplaces: 9\nalarms: 0\n",
            "",
        ),
        ("analyse ma f1 --regions=each", 2, "", USAGE),
        (
            "analyse ma f1 --regions=paths --regions=merged",
            2,
            "",
            USAGE,
        ),
        ("plain f1 --regions=merged", 2, "", USAGE),
        ("advise ma f1 --regions=merged", 2, "", USAGE),
        ("check ma f1 c --regions=merged", 2, "", USAGE),
    ];
    for (line, status, output, told) in rows {
        gives(alloc, line, Vec::new(alloc), (status, output, told))?;
    }
    Ok(())
}

//! Widening to thresholds, beside that to the type's bounds.

use std::test::Fail;
use test_runs::cases::{USAGE, content_of};
use test_runs::comparing::{compares, three_files, two_files};
use test_runs::running::ran_over;

/// A place in a ring of 8, which one way through the loop leaves as it is.
const RING: &[u8] =
    b"int t,h;\nint main(void){\nwhile(1){\nt=input();\nif(t){\nassert(h<8);\nh=(h+1)%8;\n}}}\n";

/// A count down to -5.
const FALLING: &[u8] =
    b"int t,x;\nint main(void){\nwhile(1){\nt=input();\nif(t){\nassert(x>=-5);\nif(x>-5)x--;\n}}}\n";

/// A count up to a product that is no literal.
const PRODUCT: &[u8] =
    b"int x,y,z;\nint main(void){\ny=3*4;\nz=100;\nwhile(x<y)x++;\nassert(x<4*5);\n}\n";

/// A ring of 8 in which the literal 7 stands in one variant alone.
const SPREAD: &[u8] =
    b"int t,x,y;\nint main(void){\n#ifdef A\nassert(7);\n#endif\ny=3+4;\nwhile(1){\nt=input();\nif(t){\nassert(x<4+4);\nx=(x+1)%(y+1);\n}}}\n";

/// The text of the other variant.
const SPREAD_WITHOUT: &[u8] =
    b"int t,x,y;\nint main(void){\n\n\n\ny=3+4;\nwhile(1){\nt=input();\nif(t){\nassert(x<4+4);\nx=(x+1)%(y+1);\n}}}\n";

/// The certificate of the ring.
const RING_CERTIFICATE: &str =
    "famlint certificate 1 stop\nloop 3:1 if 1: t in [-2147483648,2147483647], h in [0,7]\n";

#[test]
fn reports_on_one_program(rt: HostRuntime) -> Result<(), Fail> {
    let none = "alarms: 0\n";
    let rows = [
        ("plain f", RING, 1, "6:1: assertion\nalarms: 1\n"),
        (
            "plain f --widening type",
            RING,
            1,
            "6:1: assertion\nalarms: 1\n",
        ),
        ("plain f --widening thresholds", RING, 0, none),
        (
            "plain --widening=thresholds f --domain octagon",
            RING,
            0,
            none,
        ),
        (
            "plain f --widening thresholds --domain=stride",
            RING,
            0,
            none,
        ),
        (
            "plain f --domain octagon",
            FALLING,
            1,
            "6:1: assertion\nalarms: 1\n",
        ),
        (
            "plain f --widening thresholds --domain octagon",
            FALLING,
            0,
            none,
        ),
        ("plain f --widening thresholds", FALLING, 0, none),
        ("plain f", PRODUCT, 0, none),
        ("plain f --widening thresholds", PRODUCT, 0, none),
        (
            "plain f --widening thresholds",
            SPREAD_WITHOUT,
            1,
            "10:1: assertion\nalarms: 1\n",
        ),
    ];
    for (line, file, status, output) in rows {
        let ran = ran_over(rt.alloc(), line, &[("f", file)])?;
        assert_eq!(rt; ran.status, status, "at {line}");
        assert_eq!(rt; ran.out.as_slice(), output.as_bytes(), "at {line}");
        assert_eq!(rt; ran.err.as_slice(), b"".as_slice(), "at {line}");
    }
    Ok(())
}

/// All variants step to the thresholds of the whole file: those that stand in one of them serve the others.
#[test]
fn reports_on_all_variants(rt: HostRuntime) -> Result<(), Fail> {
    let alloc = rt.alloc();
    let rows = [
        (
            "analyse m f --widening thresholds",
            SPREAD,
            0,
            "alarms: 0\n",
        ),
        (
            "variant m f A=0 --widening thresholds",
            SPREAD,
            0,
            "alarms: 0\n",
        ),
        (
            "variant m f A=1 --widening thresholds",
            SPREAD,
            0,
            "alarms: 0\n",
        ),
        (
            "analyse m f",
            SPREAD,
            1,
            "10:1: assertion if 1; example A=0\nalarms: 1\n",
        ),
        (
            "advise m f A=0 --widening thresholds",
            SPREAD,
            0,
            "advice: A=0; changed 0\n",
        ),
        (
            "certify m f --widening=thresholds",
            RING,
            0,
            RING_CERTIFICATE,
        ),
    ];
    for (line, file, status, output) in rows {
        let files = two_files(content_of("ma"), file);
        let wanted = (status, output.as_bytes(), "".as_bytes());
        compares(alloc, line, &files, wanted)?;
    }
    Ok(())
}

/// A certificate is checked without a word of how its leaves were found.
#[test]
fn certificates_are_accepted(rt: HostRuntime) -> Result<(), Fail> {
    let files = three_files(content_of("ma"), RING, RING_CERTIFICATE.as_bytes());
    let wanted = (0, "certificate: yes, 0 alarms\n".as_bytes(), "".as_bytes());
    Ok(compares(rt.alloc(), "check m f c", &files, wanted)?)
}

#[test]
fn refuses_words(rt: HostRuntime) -> Result<(), Fail> {
    let lines = [
        "plain f --widening",
        "plain f --widening types",
        "plain f --widening type --widening type",
        "check m f c --widening type",
        "run m f --widening=thresholds",
    ];
    for line in lines {
        let ran = ran_over(rt.alloc(), line, &[("f", RING)])?;
        assert_eq!(rt; ran.status, 2, "at {line}");
        assert_eq!(rt; ran.err.as_slice(), USAGE.as_bytes(), "at {line}");
    }
    Ok(())
}

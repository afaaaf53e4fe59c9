//! Pages: their statuses, and what is refused. The page of an example is compared byte for byte beside the other examples.

use std::test::Fail;
use test_runs::cases::{USAGE, ran_over_cases};
use test_runs::comparing::gives;

#[test]
fn pages_end_as_reports_do(rt: HostRuntime) -> Result<(), Fail> {
    let alloc = rt.alloc();
    let rows = [
        ("page ma f1", 0),
        ("page ma f10", 1),
        ("page mc f9 --regions merged --domain=octagon", 1),
        ("page --overflow=wrap m0 f35", 0),
    ];
    for (line, status) in rows {
        let ran = ran_over_cases(alloc, line, Vec::new(alloc))?;
        assert_eq!(rt; ran.status, status, "at {line}");
        assert_eq!(rt; ran.err.as_slice(), b"".as_slice(), "at {line}");
        assert!(rt;
            ran.out.as_slice().starts_with(b"<!DOCTYPE html>\n"),
            "at {line}"
        );
        assert!(rt; ran.out.as_slice().ends_with(b"</html>\n"), "at {line}");
    }
    Ok(())
}

#[test]
fn pages_are_refused_as_reports_are(rt: HostRuntime) -> Result<(), Fail> {
    let alloc = rt.alloc();
    let rows = [
        ("page", 2, USAGE),
        ("page ma", 2, USAGE),
        ("page ma f1 A=1", 2, USAGE),
        ("page ma f1 --steps=1", 2, USAGE),
        ("page void f1", 3, "model: M9\n"),
        ("page void f13", 3, "model: M9\n"),
        ("page ma f13", 4, "file: F6 at 2:1\n"),
        ("page ma f14 --unknown=refuse", 4, "file: F8 C6 at 2:1\n"),
        ("page none f1", 6, "read fault: model\n"),
        ("page ma none", 6, "read fault: file\n"),
    ];
    for (line, status, told) in rows {
        gives(alloc, line, Vec::new(alloc), (status, "", told))?;
    }
    gives(
        alloc,
        "page ma f1",
        vec![in alloc; 1]?,
        (6, "", "read fault: model\n"),
    )?;
    Ok(gives(
        alloc,
        "page ma f1",
        vec![in alloc; 2]?,
        (6, "", "read fault: file\n"),
    )?)
}

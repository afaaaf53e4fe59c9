//! `generate`, which names no files.

use std::test::Fail;
use test_runs::cases::USAGE;
use test_runs::comparing::gives;

/// The text of one block is 63 bytes long by hand, that of three 164: block 1 counts `b` to 11 where `N` is at least 2.
#[test]
fn generated_families(rt: HostRuntime) -> Result<(), Fail> {
    let alloc = rt.alloc();
    let three = "bytes: 164\nplaces: 9\nalarms: 0\n";
    let rows = [
        ("generate 1", 0, "bytes: 63\nplaces: 2\nalarms: 0\n", ""),
        ("generate 3", 0, three, ""),
        ("generate --overflow=wrap 3", 0, three, ""),
        ("generate 3 --domain octagon", 0, three, ""),
        (
            "generate 2000",
            0,
            "bytes: 87360\nplaces: 5333\nalarms: 0\n",
            "",
        ),
        ("generate --regions=paths 3", 0, three, ""),
        ("generate 0", 2, "", USAGE),
        ("generate 2001", 2, "", USAGE),
        ("generate 03", 2, "", USAGE),
        ("generate three", 2, "", USAGE),
        ("generate", 2, "", USAGE),
        ("generate 1 3", 2, "", USAGE),
        ("generate 3 --steps 1", 2, "", USAGE),
        ("generate 3 --regions joined", 2, "", USAGE),
    ];
    for (line, status, output, told) in rows {
        gives(alloc, line, Vec::new(alloc), (status, output, told))?;
    }
    Ok(())
}

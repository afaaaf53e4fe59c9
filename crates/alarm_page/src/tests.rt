//! A page of small texts, byte for byte.

use crate::page::{Told, page_text};
use crate::parts;
use std::test::Fail;

/// What stands behind the fixed parts, in the order of the page. The digests are those of another program.
const WRITTEN: [(&str, &str); 6] = [
    (
        parts::BEFORE_ALARMS,
        "1:1: overflow if A &#x26;&#x26; !B; example A=1 B=0\nalarms: 1\n",
    ),
    (parts::BEFORE_NUMBERS, "1\n2\n"),
    (parts::BEFORE_FILE, "&#x3c;b&#x3e;&#x22;&#xff;\n"),
    (parts::BEFORE_REPORT, "&#x09;&#x27;&#x00;"),
    (parts::BEFORE_MODEL, "{&#x22;a&#x22;: 1}"),
    (
        parts::BEFORE_ABOUT,
        "made by hand\nSHA-256 of MODEL: f9d86028c6e0d64e225186f96acb69338b2c59764df79162107f5c4bb34d1310\nSHA-256 of FILE: 453c17eca93bedfb1cecd799b4daca9907fddc59cc1aa7d2daf6710d3115534c\n",
    ),
];

#[test]
fn page_of_small_texts(rt: HostRuntime) -> Result<(), Fail> {
    let alloc = rt.alloc();
    let page = page_text(
        alloc,
        &Told {
            alarms: b"1:1: overflow if A && !B; example A=1 B=0\nalarms: 1\n",
            report: b"\t'\0",
            model: b"{\"a\": 1}",
            file: b"<b>\"\xff\n",
            made_by: b"made by hand\n",
        },
    )?;
    let mut expected = Vec::from_slice(alloc, parts::HEAD.as_bytes())?;
    expected.extend_from_slice(parts::STYLE.as_bytes())?;
    for (front, text) in WRITTEN {
        expected.extend_from_slice(front.as_bytes())?;
        expected.extend_from_slice(text.as_bytes())?;
    }
    expected.extend_from_slice(parts::BEFORE_SCRIPT.as_bytes())?;
    expected.extend_from_slice(parts::SCRIPT.as_bytes())?;
    expected.extend_from_slice(parts::END.as_bytes())?;
    assert_eq!(rt; page.bytes(), expected.as_slice());
    Ok(())
}

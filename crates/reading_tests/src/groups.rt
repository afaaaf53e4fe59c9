//! Sections by hand, and whether what stands behind each directive is kept.

use cpp_groups::{GroupDirective, OpenSections};
use std::test::Fail;

#[test]
fn groups_are_kept(rt: HostRuntime) -> Result<(), Fail> {
    let section = [
        GroupDirective::If(0),
        GroupDirective::Elif(1),
        GroupDirective::Else,
        GroupDirective::Endif,
    ];
    let nested = [
        GroupDirective::If(0),
        GroupDirective::If(1),
        GroupDirective::Endif,
        GroupDirective::Endif,
    ];
    let outside = [
        GroupDirective::Endif,
        GroupDirective::Else,
        GroupDirective::Elif(1),
        GroupDirective::If(7),
    ];
    let cases: [(&[GroupDirective], [bool; 2], [bool; 4]); 8] = [
        (&section, [true, true], [true, false, false, true]),
        (&section, [true, false], [true, false, false, true]),
        (&section, [false, true], [false, true, false, true]),
        (&section, [false, false], [false, false, true, true]),
        (&nested, [true, true], [true, true, true, true]),
        (&nested, [true, false], [true, false, true, true]),
        (&nested, [false, true], [false, false, false, true]),
        (&outside, [true, true], [true, true, true, false]),
    ];
    for (directives, truths, wanted) in cases {
        let mut open = OpenSections::new(rt.alloc());
        let mut kept = Vec::new(rt.alloc());
        for directive in directives {
            open.follow(&truths, *directive)?;
            kept.push(open.are_kept())?;
        }
        assert_eq!(rt; kept.as_slice(), wanted.as_slice());
    }
    Ok(())
}

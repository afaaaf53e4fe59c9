//! The limits of a family, and a family that is cut short.

use crate::family_reading::{MIXED, SWITCH, model, read, refuses, repeated, usual};
use c_parser::read_family;
use fam_outer::{FileRefusal, Place};
use std::alloc::Global;
use std::test::Fail;

/// Files around so many groups, one in the other: of declarations, of statements, and behind `main`.
fn nested(alloc: Global, front: &str, inner: &str, depth: u32, back: &str) -> Result<String, Fail> {
    let opened = repeated(alloc, front, "#if A\n", depth, inner)?;
    Ok(repeated(alloc, opened.as_str(), "#endif\n", depth, back)?)
}

#[test]
fn sixty_four_groups_are_read(rt: HostRuntime) -> Result<(), Fail> {
    let alloc = rt.alloc();
    let cases = [
        ("", "int x;\n", "int main(void) { }", 65),
        ("int main(void) {\n", ";\n", "}\n", 66),
        ("int main(void) {\n}\n", "", "", 67),
    ];
    for (front, inner, back, line) in cases {
        let file = nested(alloc, front, inner, 64, back)?;
        match read(alloc, SWITCH, file.as_bytes())? {
            Ok(family) => assert_eq!(rt; family.conditions.items().len(), 64),
            Err(_) => panic!(rt; "refused"),
        }
        let file = nested(alloc, front, inner, 65, back)?;
        refuses(&rt, alloc, SWITCH, file.as_bytes(), "TooDeep", line, 1)?;
    }
    Ok(())
}

#[test]
fn depth_counts_elifs_and_statements(rt: HostRuntime) -> Result<(), Fail> {
    let alloc = rt.alloc();
    let file = repeated(
        alloc,
        "int main(void) {\n#if 0\n",
        "#elif 0\n",
        63,
        "#endif\n}",
    )?;
    assert!(rt; read(alloc, SWITCH, file.as_bytes())?.is_ok());
    let file = repeated(
        alloc,
        "int main(void) {\n#if 0\n",
        "#elif 0\n",
        64,
        "#endif\n}",
    )?;
    refuses(&rt, alloc, SWITCH, file.as_bytes(), "TooDeep", 66, 1)?;
    let blocks = repeated(alloc, "int main(void) {\n#if A\n", "{", 63, ";")?;
    let file = repeated(alloc, blocks.as_str(), "}", 63, "\n#endif\n}")?;
    assert!(rt; read(alloc, SWITCH, file.as_bytes())?.is_ok());
    let blocks = repeated(alloc, "int main(void) {\n#if A\n", "{", 64, ";")?;
    let file = repeated(alloc, blocks.as_str(), "}", 64, "\n#endif\n}")?;
    refuses(&rt, alloc, SWITCH, file.as_bytes(), "TooDeep", 3, 64)?;
    let file = repeated(alloc, "int main(void) {\n", "#if 0\n", 65, "")?;
    let file = repeated(alloc, file.as_str(), "#endif\n", 65, "}\n")?;
    refuses(&rt, alloc, SWITCH, file.as_bytes(), "TooDeep", 66, 1)?;
    // beside a wrong item, in both orders
    let file = repeated(alloc, "int main(void) {\n", "{", 65, " = }")?;
    refuses(&rt, alloc, SWITCH, file.as_bytes(), "TooDeep", 2, 65)?;
    let file = repeated(alloc, "int main(void) { =\n", "{", 65, "}")?;
    refuses(&rt, alloc, SWITCH, file.as_bytes(), "Syntax", 1, 18)
}

/// A program with groups that test whether `N` is at least 1, 2 and so on.
fn tested(alloc: Global, count: u32) -> Result<String, Fail> {
    let mut file = String::from_str(alloc, "int main(void) {\n")?;
    for below in 0..count {
        let bound = below + 1;
        file.push_str(format!(in alloc; "#if N >= {bound}\n#endif\n")?.as_str())?;
    }
    file.push_str("}\n")?;
    Ok(file)
}

#[test]
fn sixty_four_tests_are_read(rt: HostRuntime) -> Result<(), Fail> {
    let alloc = rt.alloc();
    let file = tested(alloc, 64)?;
    match read(alloc, MIXED, file.as_bytes())? {
        Ok(family) => assert_eq!(rt; family.atoms.items().len(), 64),
        Err(_) => panic!(rt; "refused"),
    }
    let file = tested(alloc, 65)?;
    refuses(&rt, alloc, MIXED, file.as_bytes(), "TooManyTests", 130, 1)?;
    // beside another fault of a line, in both orders
    let behind = repeated(alloc, file.as_str(), "#foo\n", 1, "")?;
    refuses(&rt, alloc, MIXED, behind.as_bytes(), "TooManyTests", 130, 1)?;
    let before = repeated(alloc, "#foo\n", file.as_str(), 1, "")?;
    refuses(&rt, alloc, MIXED, before.as_bytes(), "Directive", 1, 1)?;
    // atoms of the model count as well
    let model =
        "{\"features\":[{\"name\":\"A\"},{\"name\":\"N\",\"min\":0,\"max\":100}],\"constraints\":[\"A\"]}";
    refuses(
        &rt,
        alloc,
        model,
        tested(alloc, 64)?.as_bytes(),
        "TooManyTests",
        128,
        1,
    )
}

#[test]
fn a_file_has_so_many_bytes(rt: HostRuntime) -> Result<(), Fail> {
    let alloc = rt.alloc();
    let file = repeated(
        alloc,
        "#if A\n#endif\nint main(void) { }",
        " ",
        1_048_545,
        "",
    )?;
    assert!(rt; file.len() < 1_048_577);
    assert!(rt; read(alloc, SWITCH, file.as_bytes())?.is_ok());
    let file = repeated(
        alloc,
        "#if A\n#endif\nint main(void) { }",
        " ",
        1_048_546,
        "",
    )?;
    refuses(&rt, alloc, SWITCH, file.as_bytes(), "TooLong", 1, 1)?;
    let file = repeated(alloc, "/* x", "\\\n", 524_288, "")?;
    refuses(&rt, alloc, SWITCH, file.as_bytes(), "TooLong", 1, 1)
}

/// The model of a queue in many versions.
pub(crate) const QUEUE: &str =
    "{\"features\":[{\"name\":\"LOG\"},{\"name\":\"FAST\"},{\"name\":\"RETRY\"},{\"name\":\"SAFE\"},{\"name\":\"BULK\"},{\"name\":\"SIZE\",\"min\":1,\"max\":16},{\"name\":\"LIMIT\",\"min\":0,\"max\":5}],\"constraints\":[\"!FAST || !SAFE\",\"LIMIT <= SIZE\"]}";

/// Its lines.
pub(crate) const LINES: [&str; 40] = [
    "#include <assert.h>",
    "/* a small queue, in many versions */",
    "extern int input(void);",
    "int count;",
    "int tries = 3;",
    "int logged;",
    "int load;",
    "",
    "int main(void)",
    "{",
    "    load = input();",
    "#if defined(SAFE)",
    "    if (load < 0 || load > 100)",
    "        load = 0;",
    "#elif SIZE >= 8",
    "    if (load > 1000)",
    "        load = 1000;",
    "#endif",
    "    while (count < 10) {",
    "        count++;",
    "#ifdef LOG",
    "        logged++;",
    "#endif",
    "    }",
    "#ifdef BULK",
    "    load = load * 2;",
    "#endif",
    "#if RETRY && LIMIT > 0",
    "    while (tries > 0)",
    "        tries--;",
    "    assert(tries == 0);",
    "#endif",
    "#ifdef FAST",
    "    count = 100 / tries;",
    "#else",
    "    count = 100 / (tries + 1);",
    "#endif",
    "    assert(count >= 0);",
    "    return 0;",
    "}",
];

/// Its first lines, so many of them.
pub(crate) fn front(alloc: Global, count: usize) -> Result<String, Fail> {
    let mut file = String::new(alloc);
    for line in LINES.iter().take(count) {
        file.push_str(line)?;
        file.push_str("\n")?;
    }
    Ok(file)
}

/// The lines at which a section opens, and the last lines before its end.
const SPANS: [(u32, u32); 5] = [(12, 17), (21, 22), (25, 26), (28, 31), (33, 36)];

#[test]
fn cut_files_are_refused(rt: HostRuntime) -> Result<(), Fail> {
    let alloc = rt.alloc();
    let model = model(alloc, QUEUE)?;
    for count in 0..40u32 {
        let file = front(alloc, count as usize)?;
        let span = SPANS.iter().find(|span| span.0 <= count && count <= span.1);
        let (wanted, line) = match span {
            Some((first, _)) => ("NoEndif", *first),
            None => ("Syntax", count + 1),
        };
        match read_family(alloc, usual(), &model, file.as_bytes()) {
            Err(FileRefusal::Fault { code, place }) => {
                let shown = format!(in alloc; "{code:?}")?;
                assert_eq!(rt; shown.as_str(), wanted);
                assert_eq!(rt; place, Place { line, column: 1 });
            }
            _ => panic!(rt; "not refused: {count}"),
        }
    }
    let file = front(alloc, 40)?;
    assert!(rt; read_family(alloc, usual(), &model, file.as_bytes()).is_ok());
    Ok(())
}

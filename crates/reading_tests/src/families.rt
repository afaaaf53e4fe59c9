//! Files with groups that are read.

use crate::family_reading::{MIXED, NUMBER, SWITCH, read};
use std::alloc::Global;
use std::process::Abort;
use std::test::Fail;

/// A file that is read as the program with this text, these conditions over numbers of atoms, and so many atoms.
fn accepts(
    rt: &impl Abort,
    alloc: Global,
    features: &str,
    file: &str,
    code: &str,
    conditions: &str,
    atoms: usize,
) -> Result<(), Fail> {
    match read(alloc, features, file.as_bytes())? {
        Ok(family) => {
            let shown = format!(in alloc; "{:?}", family.code)?;
            assert_eq!(rt; shown.as_str(), code);
            let mut shown = String::new(alloc);
            for condition in family.conditions.items() {
                shown.push_str(format!(in alloc; "{:?} ", condition)?.as_str())?;
            }
            assert_eq!(rt; shown.as_str(), conditions);
            assert_eq!(rt; family.atoms.items().len(), atoms);
        }
        Err(_) => panic!(rt; "refused: {file}"),
    }
    Ok(())
}

#[test]
fn families_are_read(rt: HostRuntime) -> Result<(), Fail> {
    let cases = [
        (
            MIXED,
            "int x;\nint main(void) { x = 1; }",
            "Program { names: Names { list: [Text { bytes: [120] }] }, start: Values { list: [0] }, declared: Declarations { list: [] }, body: [Assign { place: Place { line: 2, column: 18 }, target: 0, value: Number(1) }], end: Place { line: 2, column: 25 } }",
            "",
            0,
        ),
        (
            MIXED,
            "#if A\nint x = 1;\n#else\nint x;\n#endif\nint main(void) {\n#ifdef B\nx = 3;\n#elif N > 2\n;\n#endif\n}",
            "Program { names: Names { list: [Text { bytes: [120] }] }, start: Values { list: [0] }, declared: Declarations { list: [Declared { target: 0, value: 1, guards: Guards { list: [Guard { number: 0, positive: true }] } }, Declared { target: 0, value: 0, guards: Guards { list: [Guard { number: 0, positive: false }] } }] }, body: [Cond { number: 1, yes: [Assign { place: Place { line: 8, column: 1 }, target: 0, value: Number(3) }], no: [Cond { number: 2, yes: [Skip { place: Place { line: 10, column: 1 } }], no: [] }] }], end: Place { line: 12, column: 1 } }",
            "Not(And(Const(true), Not(Test(0)))) Not(And(Const(true), Not(Test(1)))) Test(2) ",
            3,
        ),
        // a name that is no feature is 0
        (
            SWITCH,
            "int main(void) {\n#if FOO\nassert(0);\n#endif\n}\n",
            "Program { names: Names { list: [] }, start: Values { list: [] }, declared: Declarations { list: [] }, body: [Cond { number: 0, yes: [Assert { place: Place { line: 3, column: 1 }, test: Number(0) }], no: [] }], end: Place { line: 5, column: 1 } }",
            "Not(And(Const(true), Not(Const(false)))) ",
            0,
        ),
        // 2 * N >= 5 is N >= 3
        (
            NUMBER,
            "int main(void) {\n#if 2 * N >= 5\n;\n#endif\n}\n",
            "Program { names: Names { list: [] }, start: Values { list: [] }, declared: Declarations { list: [] }, body: [Cond { number: 0, yes: [Skip { place: Place { line: 3, column: 1 } }], no: [] }], end: Place { line: 5, column: 1 } }",
            "Test(0) ",
            1,
        ),
        // a group around nothing, an `#elif` behind an `#if` and within another group, and an `#else`
        (
            MIXED,
            "int main(void) {\n#if A\n#if B\n#elif N > 9\n;\n#endif\n#else\n;\n#endif\n}\n#if B\n#endif",
            "Program { names: Names { list: [] }, start: Values { list: [] }, declared: Declarations { list: [] }, body: [Cond { number: 0, yes: [Cond { number: 1, yes: [], no: [Cond { number: 2, yes: [Skip { place: Place { line: 5, column: 1 } }], no: [] }] }], no: [Skip { place: Place { line: 8, column: 1 } }] }], end: Place { line: 10, column: 1 } }",
            "Not(And(Const(true), Not(Test(0)))) Not(And(Const(true), Not(Test(1)))) Test(2) Not(And(Const(true), Not(Test(1)))) ",
            3,
        ),
        // guards of an outer group, and of each group of a section up to its own
        (
            MIXED,
            "#if A\n#if B\n#elif N > 2\nint x = 1;\n#else\nstatic int x = -2;\n#endif\n#endif\nint main() { }",
            "Program { names: Names { list: [Text { bytes: [120] }] }, start: Values { list: [0] }, declared: Declarations { list: [Declared { target: 0, value: 1, guards: Guards { list: [Guard { number: 0, positive: true }, Guard { number: 1, positive: false }, Guard { number: 2, positive: true }] } }, Declared { target: 0, value: -2, guards: Guards { list: [Guard { number: 0, positive: true }, Guard { number: 1, positive: false }, Guard { number: 2, positive: false }] } }] }, body: [], end: Place { line: 9, column: 14 } }",
            "Not(And(Const(true), Not(Test(0)))) Not(And(Const(true), Not(Test(1)))) Test(2) ",
            3,
        ),
    ];
    for (features, file, code, conditions, atoms) in cases {
        accepts(&rt, rt.alloc(), features, file, code, conditions, atoms)?;
    }
    Ok(())
}

#[test]
fn names_may_depend_on_features(rt: HostRuntime) -> Result<(), Fail> {
    let never = "{\"features\":[{\"name\":\"A\"}],\"constraints\":[\"!A\"]}";
    let cases = [
        // one start value or another
        (
            SWITCH,
            "#ifdef A\nint x = 1;\n#else\nint x;\n#endif\nint main(void) {\nassert(x == 1);\n}\n",
        ),
        // declared and used in the same groups
        (
            SWITCH,
            "#ifdef A\nint x;\n#endif\nint main(void) {\n#ifdef A\nx = 1;\n#endif\n}\n",
        ),
        // no valid configuration keeps the second declaration, or the use
        (
            never,
            "int x;\n#ifdef A\nint x;\n#endif\nint main(void) { }\n",
        ),
        (
            never,
            "#ifndef A\nint x;\n#endif\nint main(void) { x = 1; }\n",
        ),
    ];
    for (features, file) in cases {
        match read(rt.alloc(), features, file.as_bytes())? {
            Ok(family) => assert_eq!(rt; family.code.names.items().len(), 1),
            Err(_) => panic!(rt; "refused: {file}"),
        }
    }
    Ok(())
}

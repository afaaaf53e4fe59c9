//! Certificates over the switch `A` and the variables `x` and `i`, compared with what was written by hand.

ghost use Rattle.std.specs.Prelude.{◌≡◌, [], length, IfOk};
ghost use Rattle.linear_atoms.specs.Atoms.{AreAtoms, IsAtom};

use crate::features::switch;
use certificate_format::read_certificate;
use fam_outer::{Refusal, Text};
use linear_atoms::{Atom, Feature, Terms};
use smallvec::SmallVec;
use std::alloc::Global;
use std::process::Abort;
use std::test::Fail;

const HEADER: &str = "famlint certificate 1 stop\n";

/// The feature `A`.
fn features(alloc: Global) -> Result<Vec<Feature>, Fail>
    ensures { IfOk result (λ made. length made.items ≡ 1) }
{
    let feature = switch(alloc, b"A")?;
    Ok(vec![in alloc; feature]?)
}

/// A well-formed atom over one feature.
fn atom(alloc: Global, terms: &[(u32, i64)], bound: i64) -> Result<Atom, Fail>
    requires { IsAtom 1 (record { terms = terms.now; bound = bound }) }
    ensures { IfOk result (λ made. IsAtom 1 made) }
{
    let terms = Terms::from_vec(SmallVec::from_slice(alloc, terms)?);
    Ok(Atom { terms, bound })
}

/// The test "`A` is on".
fn atoms(alloc: Global) -> Result<[Atom; 1], Fail>
    ensures { IfOk result (λ made. AreAtoms 1 made) }
{
    Ok([atom(alloc, &[(0, 1)], 1)?])
}

/// `x` and `i`.
fn names(alloc: Global) -> Result<[Text; 2], Fail> {
    Ok([
        Text::from_bytes(alloc, b"x")?,
        Text::from_bytes(alloc, b"i")?,
    ])
}

/// What is read over some names, as it is printed.
fn shown(alloc: Global, names: &[Text], text: &str) -> Result<String, Fail> {
    let features = features(alloc)?;
    let atoms = atoms(alloc)?;
    match read_certificate(alloc, &features, &atoms, names, text.as_bytes()) {
        Ok(certificate) => Ok(format!(in alloc; "{certificate:?}")?),
        Err(Refusal::Fault(fault)) => Ok(format!(in alloc; "{fault:?}")?),
        Err(Refusal::NoMemory) => Ok(format!(in alloc; "want of memory")?),
    }
}

/// Of each text over `x` and `i` this is read.
fn reads(rt: &impl Abort, alloc: Global, front: &str, cases: &[(&str, &str)]) -> Result<(), Fail> {
    let names = names(alloc)?;
    for (text, wanted) in cases {
        let whole = format!(in alloc; "{front}{text}")?;
        let made = shown(alloc, &names, whole.as_str())?;
        assert_eq!(rt; made.as_str(), *wanted, "{text}");
    }
    Ok(())
}

#[test]
fn texts_are_read(rt: HostRuntime) -> Result<(), Fail> {
    let cases = [
        (
            "famlint certificate 1 stop\nloop 4:1 if !A: x in [0,2147483647], i in [0,10]\nloop 4:1 if A: x in [0,0], i in [0,10]\nalarm 9:1: overflow if !A\nalarm 12:1: assertion if !A\n",
            "Certificate { mode: Stop, loops: [LoopLine { place: Place { line: 4, column: 1 }, region: And(Not(Test(0)), Const(true)), bounds: Some(Ranges { list: [Range { low: 0, high: 2147483647 }, Range { low: 0, high: 10 }] }) }, LoopLine { place: Place { line: 4, column: 1 }, region: And(Test(0), Const(true)), bounds: Some(Ranges { list: [Range { low: 0, high: 0 }, Range { low: 0, high: 10 }] }) }], alarms: [AlarmLine { place: Place { line: 9, column: 1 }, kind: Overflow, region: And(Not(Test(0)), Const(true)) }, AlarmLine { place: Place { line: 12, column: 1 }, kind: Assertion, region: And(Not(Test(0)), Const(true)) }] }",
        ),
        // the last newline is missing
        (
            "famlint certificate 1 stop\nloop 4:1 if !A: x in [0,2147483647], i in [0,10]\nloop 4:1 if A: x in [0,0], i in [0,10]\nalarm 9:1: overflow if !A\nalarm 12:1: assertion if !A",
            "Line(5)",
        ),
        (
            "famlint certificate 1 stop\nloop 4:1 if !A: x in [0,2147483647], i in [0,10]\nloop 4:1 if A: x in [0,0], i in [0,10]\nalarm 9:1: overflow if A >=\nalarm 12:1: assertion if !A\n",
            "Test(4)",
        ),
        ("", "Header"),
        ("famlint certificate 1 stop", "Header"),
        ("famlint certificate 2 stop\n", "Header"),
        (
            "famlint certificate 1 wrap\n",
            "Certificate { mode: Wrap, loops: [], alarms: [] }",
        ),
        // an alarm before a loop
        (
            "famlint certificate 1 wrap\nalarm 4294967295:4294967295: zero-divisor if 1\nloop 2:3 if A: unreachable\n",
            "Certificate { mode: Wrap, loops: [LoopLine { place: Place { line: 2, column: 3 }, region: And(Test(0), Const(true)), bounds: None }], alarms: [AlarmLine { place: Place { line: 4294967295, column: 4294967295 }, kind: ZeroDivisor, region: Const(true) }] }",
        ),
    ];
    reads(&rt, rt.alloc(), "", &cases)
}

#[test]
fn regions_are_read(rt: HostRuntime) -> Result<(), Fail> {
    let cases = [
        (
            "alarm 9:1: overflow if A && !A\n",
            "Certificate { mode: Stop, loops: [], alarms: [AlarmLine { place: Place { line: 9, column: 1 }, kind: Overflow, region: And(Test(0), And(Not(Test(0)), Const(true))) }] }",
        ),
        (
            "alarm 9:1: overflow if A && A\n",
            "Certificate { mode: Stop, loops: [], alarms: [AlarmLine { place: Place { line: 9, column: 1 }, kind: Overflow, region: And(Test(0), Const(true)) }] }",
        ),
        ("alarm 9:1: overflow if \n", "Test(2)"),
        ("alarm 9:1: overflow if 1 && A\n", "Test(2)"),
        ("alarm 9:1: overflow if A && \n", "Test(2)"),
        ("alarm 9:1: overflow if A&&A\n", "Test(2)"),
        ("loop 4:1 if B: unreachable\n", "Test(2)"),
        // the first faulty line decides
        ("alarm 9:1: overflow if B\nnothing\n", "Test(2)"),
        ("nothing\nalarm 9:1: overflow if B\n", "Line(2)"),
        (
            "alarm 9:1: overflow if A\nalarm 9:1: overflow if B",
            "Line(3)",
        ),
    ];
    reads(&rt, rt.alloc(), HEADER, &cases)
}

#[test]
fn other_lines_are_refused(rt: HostRuntime) -> Result<(), Fail> {
    let cases = [
        ("\n", "Line(2)"),
        ("alarm 09:1: overflow if A\n", "Line(2)"),
        ("alarm +9:1: overflow if A\n", "Line(2)"),
        ("alarm 0:1: overflow if A\n", "Line(2)"),
        ("alarm 9:0: overflow if A\n", "Line(2)"),
        ("alarm 9:4294967296: overflow if A\n", "Line(2)"),
        ("alarm 9:1: division if A\n", "Line(2)"),
        ("alarm 9:1 overflow if A\n", "Line(2)"),
        ("loop 4:1: if A: unreachable\n", "Line(2)"),
        ("loop 4:1 if A:unreachable\n", "Line(2)"),
        ("loop 4:1 if A: b: unreachable\n", "Line(2)"),
        ("loop 4:1 if A: reachable\n", "Line(2)"),
        ("loop 4:1 if A: x in [0,0]\n", "Line(2)"),
        ("loop 4:1 if A: i in [0,0], x in [0,0]\n", "Line(2)"),
        (
            "loop 4:1 if A: x in [0,0], i in [0,0], i in [0,0]\n",
            "Line(2)",
        ),
        ("loop 4:1 if A: x in [2,1], i in [0,0]\n", "Line(2)"),
        (
            "loop 4:1 if A: x in [0,2147483648], i in [0,0]\n",
            "Line(2)",
        ),
        (
            "loop 4:1 if A: x in [-2147483649,0], i in [0,0]\n",
            "Line(2)",
        ),
        ("loop 4:1 if A: x in [-0,0], i in [0,0]\n", "Line(2)"),
        ("loop 4:1 if A: x in [00,0], i in [0,0]\n", "Line(2)"),
        (
            "loop 4:1 if A: x in [-2147483648,-1], i in [0,0]\n",
            "Certificate { mode: Stop, loops: [LoopLine { place: Place { line: 4, column: 1 }, region: And(Test(0), Const(true)), bounds: Some(Ranges { list: [Range { low: -2147483648, high: -1 }, Range { low: 0, high: 0 }] }) }], alarms: [] }",
        ),
    ];
    reads(&rt, rt.alloc(), HEADER, &cases)
}

#[test]
fn leaves_without_variables_are_read(rt: HostRuntime) -> Result<(), Fail> {
    let made = shown(
        rt.alloc(),
        &[],
        "famlint certificate 1 stop\nloop 4:1 if 1: reachable\n",
    )?;
    assert_eq!(rt;
        made.as_str(),
        "Certificate { mode: Stop, loops: [LoopLine { place: Place { line: 4, column: 1 }, region: Const(true), bounds: Some(Ranges { list: [] }) }], alarms: [] }"
    );
    Ok(())
}

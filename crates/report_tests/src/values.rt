//! Regions in which two literals leave one value: their texts, and what is read of such texts, compared with what was written by hand.

ghost use Rattle.std.specs.Prelude.{◌≡◌, ◌≤◌, unsigned_abs, length, IfOk};
ghost use Rattle.linear_atoms.specs.Atoms.{AreAtoms, AreLiterals, IsAtom};

use crate::features::{number_feature, switch};
use alarm_report::texts::push_region;
use certificate_format::read_certificate;
use fam_outer::Refusal;
use linear_atoms::{Atom, Feature, Literal, Regions, Terms};
use smallvec::SmallVec;
use std::alloc::Global;
use std::process::Abort;
use std::test::Fail;

/// `A` and `B`, which are Boolean, and `N` and `M` from -9 to 9.
fn features(alloc: Global) -> Result<Vec<Feature>, Fail>
    ensures { IfOk result (λ made. length made.items ≡ 4) }
{
    let first = switch(alloc, b"A")?;
    let second = switch(alloc, b"B")?;
    let third = number_feature(alloc, b"N", -9, 9)?;
    let fourth = number_feature(alloc, b"M", -9, 9)?;
    Ok(vec![in alloc; first, second, third, fourth]?)
}

/// A well-formed atom over four features.
fn atom(alloc: Global, terms: &[(u32, i64)], bound: i64) -> Result<Atom, Fail>
    requires { IsAtom 4 (record { terms = terms.now; bound = bound }) }
    ensures { IfOk result (λ made. IsAtom 4 made) }
{
    let terms = Terms::from_vec(SmallVec::from_slice(alloc, terms)?);
    Ok(Atom { terms, bound })
}

/// Whether `A` is on.
fn first_is_on(alloc: Global) -> Result<Literal, Fail>
    ensures { IfOk result (λ made. IsAtom 4 made.atom) }
{
    let atom = atom(alloc, &[(0, 1)], 1)?;
    Ok(Literal {
        atom,
        positive: true,
    })
}

/// Whether `B` is off.
fn second_is_off(alloc: Global) -> Result<Literal, Fail>
    ensures { IfOk result (λ made. IsAtom 4 made.atom) }
{
    let atom = atom(alloc, &[(1, 1)], 1)?;
    Ok(Literal {
        atom,
        positive: false,
    })
}

/// `N` is at least a bound.
fn number(alloc: Global, bound: i64) -> Result<Atom, Fail>
    requires { unsigned_abs bound ≤ 10 }
    ensures { IfOk result (λ made. IsAtom 4 made) }
{
    atom(alloc, &[(2, 1)], bound)
}

/// `2*N + M` is at least a bound.
fn sum(alloc: Global, bound: i64) -> Result<Atom, Fail>
    requires { unsigned_abs bound ≤ 10 }
    ensures { IfOk result (λ made. IsAtom 4 made) }
{
    atom(alloc, &[(2, 2), (3, 1)], bound)
}

/// `N >= low` and `N <= high`.
fn numbers(alloc: Global, low: i64, high: i64) -> Result<Vec<Literal>, Fail>
    requires low { unsigned_abs low ≤ 9 }
    requires high { unsigned_abs high ≤ 9 }
    ensures { IfOk result (λ made. AreLiterals 4 made.items) }
{
    let lower = Literal {
        atom: number(alloc, low)?,
        positive: true,
    };
    let upper = Literal {
        atom: number(alloc, high + 1)?,
        positive: false,
    };
    Ok(vec![in alloc; lower, upper]?)
}

/// `A`, `N >= 3`, `N <= 3` and `!B`.
fn between(alloc: Global) -> Result<Vec<Literal>, Fail>
    ensures { IfOk result (λ made. AreLiterals 4 made.items) }
{
    let first = first_is_on(alloc)?;
    let lower = Literal {
        atom: number(alloc, 3)?,
        positive: true,
    };
    let upper = Literal {
        atom: number(alloc, 4)?,
        positive: false,
    };
    let last = second_is_off(alloc)?;
    Ok(vec![in alloc; first, lower, upper, last]?)
}

/// `2*N + M >= 5` and `2*N + M <= 5`.
fn sums(alloc: Global) -> Result<Vec<Literal>, Fail>
    ensures { IfOk result (λ made. AreLiterals 4 made.items) }
{
    let lower = Literal {
        atom: sum(alloc, 5)?,
        positive: true,
    };
    let upper = Literal {
        atom: sum(alloc, 6)?,
        positive: false,
    };
    Ok(vec![in alloc; lower, upper]?)
}

/// The region has this text where paths are told, and this where they are merged.
fn told(
    rt: &impl Abort,
    alloc: Global,
    literals: &[Literal],
    paths: &str,
    merged: &str,
) -> Result<(), Fail>
    requires { AreLiterals 4 literals.now }
{
    let features = features(alloc)?;
    let mut text = Vec::new(alloc);
    push_region(alloc, Regions::Paths, &mut text, &features, literals)?;
    assert_eq!(rt; text.as_slice(), paths.as_bytes());
    let mut text = Vec::new(alloc);
    push_region(alloc, Regions::Merged, &mut text, &features, literals)?;
    assert_eq!(rt; text.as_slice(), merged.as_bytes());
    Ok(())
}

#[test]
fn values_have_texts(rt: HostRuntime) -> Result<(), Fail> {
    let alloc = rt.alloc();
    told(
        &rt,
        alloc,
        &numbers(alloc, 3, 3)?,
        "N >= 3 && N <= 3",
        "N == 3",
    )?;
    told(
        &rt,
        alloc,
        &numbers(alloc, 0, 0)?,
        "N >= 0 && N <= 0",
        "N == 0",
    )?;
    told(
        &rt,
        alloc,
        &numbers(alloc, -2, -2)?,
        "N >= -2 && N <= -2",
        "N == -2",
    )?;
    told(
        &rt,
        alloc,
        &numbers(alloc, 3, 4)?,
        "N >= 3 && N <= 4",
        "N >= 3 && N <= 4",
    )?;
    told(&rt, alloc, &[], "1", "1")?;
    told(
        &rt,
        alloc,
        &between(alloc)?,
        "A && N >= 3 && N <= 3 && !B",
        "A && N == 3 && !B",
    )?;
    told(
        &rt,
        alloc,
        &sums(alloc)?,
        "2*N + M >= 5 && 2*N + M <= 5",
        "2*N + M == 5",
    )
}

/// The tests `N >= 3`, `N >= 4` and `N >= 6`.
fn atoms(alloc: Global) -> Result<[Atom; 3], Fail>
    ensures { IfOk result (λ made. AreAtoms 4 made) }
{
    Ok([number(alloc, 3)?, number(alloc, 4)?, number(alloc, 6)?])
}

/// The certificate of one alarm in a region, as it is printed.
fn shown(alloc: Global, region: &str) -> Result<String, Fail> {
    let features = features(alloc)?;
    let atoms = atoms(alloc)?;
    let text = format!(in alloc; "famlint certificate 1 stop\nalarm 9:1: overflow if {region}\n")?;
    match read_certificate(alloc, &features, &atoms, &[], text.as_bytes()) {
        Ok(certificate) => Ok(format!(in alloc; "{certificate:?}")?),
        Err(Refusal::Fault(fault)) => Ok(format!(in alloc; "{fault:?}")?),
        Err(Refusal::NoMemory) => Ok(format!(in alloc; "want of memory")?),
    }
}

#[test]
fn values_are_read(rt: HostRuntime) -> Result<(), Fail> {
    let cases = [
        (
            "N == 3",
            "Certificate { mode: Stop, loops: [], alarms: [AlarmLine { place: Place { line: 9, column: 1 }, kind: Overflow, region: And(Test(0), And(Not(Test(1)), Const(true))) }] }",
        ),
        // each literal is taken once, where it first stands
        (
            "N <= 3 && N == 3 && N >= 3",
            "Certificate { mode: Stop, loops: [], alarms: [AlarmLine { place: Place { line: 9, column: 1 }, kind: Overflow, region: And(Not(Test(1)), And(Test(0), Const(true))) }] }",
        ),
        // the atoms lack `N >= 5` and `N >= 7`
        ("N == 4", "Test(2)"),
        ("N == 5", "Test(2)"),
        ("N == 6", "Test(2)"),
        ("N==3", "Test(2)"),
        ("N == 03", "Test(2)"),
    ];
    let alloc = rt.alloc();
    for (region, wanted) in cases {
        let made = shown(alloc, region)?;
        assert_eq!(rt; made.as_str(), wanted, "{region}");
    }
    Ok(())
}

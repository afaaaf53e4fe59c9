//! The text of a certificate, compared with one that was written by hand.

ghost use Rattle.std.specs.Prelude.{◌≡◌, IfOk, [], length};
ghost use Rattle.c_tree.specs.Value.{IsInt};
ghost use Rattle.linear_atoms.specs.Atoms.{AreLiterals, IsAtom};

use crate::features::switch;
use alarm_report::{FamilyAlarm, FamilyInvariant, Literals, Region};
use c_tree::{Kind, Mode};
use certificate_format::certificate_text;
use decision_tree::Kept;
use fam_outer::{NoMemory, Place, Text, Values};
use interval_leaf::IntervalLeaf;
use leaf_domain::{Leaf, Range};
use linear_atoms::{Atom, Config, Feature, Literal, Regions, Terms};
use smallvec::SmallVec;
use std::alloc::Global;
use std::rc::Rc;
use std::test::Fail;

/// `A`, which is Boolean.
fn features(alloc: Global) -> Result<Vec<Feature>, NoMemory>
    ensures { IfOk result (λ made. length made.items ≡ 1) }
{
    let feature = switch(alloc, b"A")?;
    Ok(vec![in alloc; feature]?)
}

/// `x` and `i`.
fn names(alloc: Global) -> Result<Vec<Text>, NoMemory> {
    let first = Text::from_bytes(alloc, b"x")?;
    let second = Text::from_bytes(alloc, b"i")?;
    Ok(vec![in alloc; first, second]?)
}

/// A literal of a well-formed atom over one feature.
fn literal(
    alloc: Global,
    terms: &[(u32, i64)],
    bound: i64,
    positive: bool,
) -> Result<Literal, NoMemory>
    requires { IsAtom 1 (record { terms = terms.now; bound = bound }) }
    ensures { IfOk result (λ made. IsAtom 1 made.atom) }
{
    let terms = Terms::from_vec(SmallVec::from_slice(alloc, terms)?);
    Ok(Literal {
        atom: Atom { terms, bound },
        positive,
    })
}

/// The variants in which `A` is on, or those in which it is off.
fn region(alloc: Global, on: bool) -> Result<Region, NoMemory>
    ensures { IfOk result (λ made. AreLiterals 1 made.literals) }
{
    let switch = literal(alloc, &[(0, 1)], 1, on)?;
    let values = Vec::from_slice(alloc, &[i64::from(on)])?;
    Ok(Region {
        literals: Literals::from_vec(vec![in alloc; switch]?),
        example: Config {
            values: Values::from_vec(values),
        },
    })
}

/// What is known in line 4: `x` is from 0 to a bound, and `i` from 0 to 10.
fn line(alloc: Global, on: bool, high: i64) -> Result<FamilyInvariant<IntervalLeaf>, NoMemory>
    requires { IsInt high }
    ensures { IfOk result (λ made. AreLiterals 1 made.region.literals) }
{
    let start = IntervalLeaf::start(alloc, &[0, 0])?;
    let counted = start.set_range(alloc, 1, Range::new(0, 10))?;
    let value = counted.set_range(alloc, 0, Range::new(0, high))?;
    Ok(FamilyInvariant {
        place: Place { line: 4, column: 1 },
        region: region(alloc, on)?,
        leaf: Rc::new(alloc, Kept { number: 0, value })?,
    })
}

// `x` has no upper bound at the loop's head where `A` is off, and its sum may overflow there
#[test]
fn certificates_have_texts(rt: HostRuntime) -> Result<(), Fail> {
    let alloc = rt.alloc();
    let features = features(alloc)?;
    let names = names(alloc)?;
    let loops = [line(alloc, false, 2147483647)?, line(alloc, true, 0)?];
    let alarms = [FamilyAlarm {
        place: Place { line: 9, column: 1 },
        kind: Kind::Overflow,
        region: region(alloc, false)?,
    }];
    let stops = certificate_text(
        alloc,
        Regions::Paths,
        &features,
        &names,
        Mode::Stop,
        &loops,
        &alarms,
    )?;
    assert_eq!(rt;
        stops.bytes(),
        b"famlint certificate 1 stop\nloop 4:1 if !A: x in [0,2147483647], i in [0,10]\nloop 4:1 if A: x in [0,0], i in [0,10]\nalarm 9:1: overflow if !A\n".as_slice()
    );
    let wraps = certificate_text(
        alloc,
        Regions::Paths,
        &features,
        &names,
        Mode::Wrap,
        &loops,
        &[],
    )?;
    assert_eq!(rt;
        wraps.bytes(),
        b"famlint certificate 1 wrap\nloop 4:1 if !A: x in [0,2147483647], i in [0,10]\nloop 4:1 if A: x in [0,0], i in [0,10]\n".as_slice()
    );
    let none = certificate_text::<IntervalLeaf>(
        alloc,
        Regions::Paths,
        &features,
        &names,
        Mode::Stop,
        &[],
        &[],
    )?;
    assert_eq!(rt; none.bytes(), b"famlint certificate 1 stop\n".as_slice());
    Ok(())
}

//! Texts of reports, compared with texts that were written by hand.

ghost use Rattle.std.specs.Prelude.{◌≡◌, ◌<◌, IfOk, [], ◌∷◌, pos, length};
ghost use Rattle.linear_atoms.specs.Atoms.{AreLiterals, IsAtom};

use crate::features::{number_feature, switch};
use alarm_report::{
    FamilyAlarm, FamilyInvariant, Literals, Region, alarm_text, invariant_text, leaf_text,
    variant_report,
};
use c_tree::{Kind, Names};
use decision_tree::Kept;
use fam_outer::{NoMemory, Place, Text, Values};
use interval_leaf::IntervalLeaf;
use leaf_domain::Leaf;
use linear_atoms::{Atom, Config, Feature, Literal, Regions, Terms};
use octagon_leaf::OctagonLeaf;
use plain_analysis::Alarm;
use smallvec::SmallVec;
use std::alloc::Global;
use std::rc::Rc;
use std::test::Fail;

fn at(line: u32, column: u32) -> Place
    ensures { result ≡ record { line = line; column = column } }
{
    Place { line, column }
}

// ---- alarms

/// `A`, which is Boolean, and `N` and `M` from -5 to 5.
fn features(alloc: Global) -> Result<Vec<Feature>, Fail>
    ensures { IfOk result (λ made. length made.items ≡ 3) }
{
    let switch = switch(alloc, b"A")?;
    let first = number_feature(alloc, b"N", -5, 5)?;
    let second = number_feature(alloc, b"M", -5, 5)?;
    Ok(vec![in alloc; switch, first, second]?)
}

/// A literal of a well-formed atom over three features.
fn literal(alloc: Global, terms: &[(u32, i64)], bound: i64, positive: bool) -> Result<Literal, Fail>
    requires { IsAtom 3 (record { terms = terms.now; bound = bound }) }
    ensures { IfOk result (λ made. IsAtom 3 made.atom) }
{
    let terms = Terms::from_vec(SmallVec::from_slice(alloc, terms)?);
    Ok(Literal {
        atom: Atom { terms, bound },
        positive,
    })
}

/// The region of these literals with this example.
fn region(alloc: Global, literals: Vec<Literal>, example: [i64; 3]) -> Result<Region, Fail>
    requires { AreLiterals 3 literals.items }
    ensures { IfOk result (λ made. AreLiterals 3 made.literals) }
{
    let values = Vec::from_slice(alloc, example.as_slice())?;
    Ok(Region {
        literals: Literals::from_vec(literals),
        example: Config {
            values: Values::from_vec(values),
        },
    })
}

// `!A`, `N <= 2` and `N - 2*M >= 3`; the second alarm has no literal
#[test]
fn alarms_have_texts(rt: HostRuntime) -> Result<(), Fail> {
    let alloc = rt.alloc();
    let features = features(alloc)?;
    let off = literal(alloc, &[(0, 1)], 1, false)?;
    let few = literal(alloc, &[(1, 1)], 3, false)?;
    let both = literal(alloc, &[(1, 1), (2, -2)], 3, true)?;
    let first = FamilyAlarm {
        place: at(9, 1),
        kind: Kind::Overflow,
        region: region(alloc, vec![in alloc; off, few, both]?, [0, -5, -5])?,
    };
    let second = FamilyAlarm {
        place: at(12, 30),
        kind: Kind::ZeroDivisor,
        region: region(alloc, Vec::new(alloc), [0, -5, -5])?,
    };
    let text = alarm_text(alloc, Regions::Paths, &features, &[first, second])?;
    assert_eq!(rt;
        text.bytes(),
        b"9:1: overflow if !A && N <= 2 && N - 2*M >= 3; example A=0 N=-5 M=-5\n12:30: zero-divisor if 1; example A=0 N=-5 M=-5\nalarms: 2\n".as_slice()
    );
    let none = alarm_text(alloc, Regions::Paths, &features, &[])?;
    assert_eq!(rt; none.bytes(), b"alarms: 0\n".as_slice());
    let one = Alarm {
        place: at(3, 1),
        kind: Kind::Assertion,
    };
    let variant = variant_report(alloc, &[one])?;
    assert_eq!(rt; variant.bytes(), b"3:1: assertion\nalarms: 1\n".as_slice());
    Ok(())
}

// ---- invariants

fn names(alloc: Global) -> Result<Names, NoMemory>
    ensures { IfOk result (λ made. made ≡ (120 ∷ []) ∷ (121 ∷ []) ∷ []) }
{
    let mut list = Vec::new(alloc);
    list.push(Text::from_bytes(alloc, b"x")?)?;
    list.push(Text::from_bytes(alloc, b"y")?)?;
    Ok(Names::from_vec(list))
}

// what a leaf of two variables, one without a store and one without variables are told as
#[test]
fn leaves_have_texts(rt: HostRuntime) -> Result<(), Fail> {
    let alloc = rt.alloc();
    let names = names(alloc)?;
    let both = OctagonLeaf::start(alloc, &[3, -4])?;
    assert_eq!(rt;
        leaf_text(alloc, names.items(), &both)?.bytes(),
        b"x in [3,3], y in [-4,-4]".as_slice()
    );
    let nothing = IntervalLeaf::nothing(alloc, 2)?;
    assert_eq!(rt;
        leaf_text(alloc, names.items(), &nothing)?.bytes(),
        b"unreachable".as_slice()
    );
    let bare = IntervalLeaf::start(alloc, &[])?;
    assert_eq!(rt;
        leaf_text(alloc, &[], &bare)?.bytes(),
        b"reachable".as_slice()
    );
    Ok(())
}

// one invariant where `A` is off
#[test]
fn invariants_have_texts(rt: HostRuntime) -> Result<(), Fail> {
    let alloc = rt.alloc();
    let features = features(alloc)?;
    let off = literal(alloc, &[(0, 1)], 1, false)?;
    let names = names(alloc)?;
    let value = IntervalLeaf::start(alloc, &[3, -4])?;
    let one = FamilyInvariant {
        place: at(6, 1),
        region: region(alloc, vec![in alloc; off]?, [0, -5, -5])?,
        leaf: Rc::new(alloc, Kept { number: 0, value })?,
    };
    let text = invariant_text(alloc, Regions::Paths, &features, names.items(), &[one])?;
    assert_eq!(rt;
        text.bytes(),
        b"6:1: if !A: x in [3,3], y in [-4,-4]\n".as_slice()
    );
    Ok(())
}

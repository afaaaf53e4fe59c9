//! Conditions over `N` (from 0 to 7) and `A` (Boolean), with ample memory.

ghost use Rattle.std.specs.Prelude.{◌≡◌, ◌≤◌, length, unsigned_abs, IfOk};
ghost use Rattle.cpp_conditions.specs.Naming.{AreFeatures};
ghost use Rattle.cpp_conditions.specs.Propositions.{IsFit};
ghost use Rattle.cpp_conditions.specs.View.{proposition};

use cpp_conditions::{
    Condition, ConditionRefusal, Conditions, Features, Formula, Model, add_atoms, distinct_atoms,
    formulas, is_valid, no_macros, number, read_condition,
};
use fam_outer::{ConditionFault, MOST_VALUE, Text, Unknown, Values};
use linear_atoms::{Atom, Config, Feature, Linear, Literal, Normal};
use std::alloc::Global;
use std::test::Fail;

/// The atom "the feature's value is at least the bound", where this is the bound negated.
fn at_least(alloc: Global, number: u32, negated: i64) -> Result<Atom, Fail> {
    let constant = Linear::constant(alloc, negated)?;
    match Linear::feature(alloc, number)?
        .add(alloc, &constant)?
        .normal(alloc)?
    {
        Normal::Const(_) => Err("a truth")?,
        Normal::Literal(literal) => {
            let Literal { atom, .. } = literal;
            Ok(atom)
        }
    }
}

#[test]
fn formulas_have_truths(rt: HostRuntime) -> Result<(), Fail> {
    let alloc = rt.alloc();
    let inner = Formula::Not(Box::new(alloc, Formula::Test(1))?);
    let formula = Formula::Or(Box::new(alloc, Formula::Test(0))?, Box::new(alloc, inner)?);
    assert!(rt; formula.on(&[true, true]));
    assert!(rt; formula.on(&[false, false]));
    assert!(rt; !formula.on(&[false, true]));
    Ok(())
}

#[test]
fn formulas_are_copied(rt: HostRuntime) -> Result<(), Fail> {
    let alloc = rt.alloc();
    let inner = formulas::negation(alloc, Formula::Test(1))?;
    let made = formulas::either(
        alloc,
        Formula::Test(0),
        formulas::both(alloc, inner, Formula::Const(true))?,
    )?;
    match made.copy(alloc)? {
        Formula::Or(left, right) => {
            assert!(rt; matches!(&*left, Formula::Test(0)));
            match &*right {
                Formula::And(left, right) => {
                    assert!(rt; matches!(&**left, Formula::Not(_)));
                    assert!(rt; matches!(&**right, Formula::Const(true)));
                }
                _ => panic!(rt; "both are wanted"),
            }
        }
        _ => panic!(rt; "one of two is wanted"),
    }
    Ok(())
}

/// The conditions `N >= 3 || A` and `N < 1 && A`.
fn two_conditions(alloc: Global) -> Result<Vec<Condition>, Fail> {
    let features = both_features(alloc)?;
    let mut list = Vec::new(alloc);
    for bytes in [b"N >= 3 || A".as_slice(), b"N < 1 && A".as_slice()] {
        match read_condition(alloc, no_macros(Unknown::Zero), features.items(), bytes) {
            Ok(condition) => list.push(condition)?,
            Err(_) => return Err("a condition is wanted")?,
        }
    }
    Ok(list)
}

#[test]
fn distinct_atoms_are_in_order(rt: HostRuntime) -> Result<(), Fail> {
    let alloc = rt.alloc();
    let conditions = two_conditions(alloc)?;
    let expected = [
        at_least(alloc, 0, -1)?,
        at_least(alloc, 0, -3)?,
        at_least(alloc, 1, -1)?,
    ];
    match distinct_atoms(alloc, &conditions, 3)? {
        Some(atoms) => assert!(rt; atoms.as_slice() == expected.as_slice()),
        None => panic!(rt; "three atoms are wanted"),
    }
    assert!(rt; distinct_atoms(alloc, &conditions, 2)?.is_none());
    let mut atoms = Vec::new(alloc);
    add_atoms(alloc, &mut atoms, &Condition::Test(at_least(alloc, 1, -1)?))?;
    add_atoms(alloc, &mut atoms, &Condition::Test(at_least(alloc, 0, -2)?))?;
    assert!(rt; atoms.as_slice() == [at_least(alloc, 0, -2)?, at_least(alloc, 1, -1)?].as_slice());
    Ok(())
}

#[test]
fn atoms_are_numbered(rt: HostRuntime) -> Result<(), Fail> {
    let alloc = rt.alloc();
    let atoms = [at_least(alloc, 0, -1)?, at_least(alloc, 1, -3)?];
    let condition = Condition::Test(atoms[1].copy(alloc)?);
    let formula = number(alloc, &condition, &atoms)?;
    assert!(rt; matches!(formula, Formula::Test(1)));
    Ok(())
}

#[test]
fn models_have_valid_configurations(rt: HostRuntime) -> Result<(), Fail> {
    let alloc = rt.alloc();
    let feature = Feature {
        name: Text::from_bytes(alloc, b"N")?,
        boolean: false,
        low: 0,
        high: 7,
    };
    let model = Model {
        features: Features::from_vec(vec![in alloc; feature]?),
        constraints: Conditions::from_vec(vec![in alloc; Condition::Const(true)]?),
    };
    let inside = Config {
        values: Values::from_vec(vec![in alloc; 7]?),
    };
    let outside = Config {
        values: Values::from_vec(vec![in alloc; 8]?),
    };
    assert!(rt; is_valid(&model, &inside));
    assert!(rt; !is_valid(&model, &outside));
    Ok(())
}

/// The features `N` and `A`.
fn both_features(alloc: Global) -> Result<Features, Fail>
    ensures features { IfOk result (λ made. AreFeatures made) }
    ensures two { IfOk result (λ made. length made ≡ 2) }
{
    let number = Feature {
        name: Text::from_bytes(alloc, b"N")?,
        boolean: false,
        low: 0,
        high: 7,
    };
    let switch = Feature {
        name: Text::from_bytes(alloc, b"A")?,
        boolean: true,
        low: 0,
        high: 1,
    };
    Ok(Features::from_vec(vec![in alloc; number, switch]?))
}

/// Whether a condition is true at these values.
fn holds(alloc: Global, condition: &Condition, number: i64, switch: i64) -> Result<bool, Fail>
    requires fit { IsFit 2 (proposition condition.now) }
    requires number { unsigned_abs number ≤ MOST_VALUE }
    requires switch { unsigned_abs switch ≤ MOST_VALUE }
{
    let config = Config {
        values: Values::from_vec(vec![in alloc; number, switch]?),
    };
    Ok(condition.at(&config))
}

/// What bytes are read as: a fault; or the truths where `A` is off and where it is on, of which bit n is that at
/// `N` equal to n.
#[derive(Clone, Copy, Debug, PartialEq, Eq)]
enum Answer {
    Truths(u8, u8),
    Fault(ConditionFault),
}

/// The truths of a condition at the values from 0 to 7.
fn truths(alloc: Global, condition: &Condition, switch: i64) -> Result<u8, Fail>
    requires fit { IsFit 2 (proposition condition.now) }
    requires switch { unsigned_abs switch ≤ MOST_VALUE }
{
    let mut bits = 0;
    for number in 0..8u8 {
        if holds(alloc, condition, number as i64, switch)? {
            bits |= 1 << number;
        }
    }
    Ok(bits)
}

fn read(alloc: Global, unknown: Unknown, bytes: &[u8]) -> Result<Answer, Fail> {
    let features = both_features(alloc)?;
    match read_condition(alloc, no_macros(unknown), features.items(), bytes) {
        Ok(condition) => {
            let off = truths(alloc, &condition, 0)?;
            let on = truths(alloc, &condition, 1)?;
            Ok(Answer::Truths(off, on))
        }
        Err(ConditionRefusal::Fault(fault)) => Ok(Answer::Fault(fault)),
        Err(ConditionRefusal::NoMemory) => Err("want of memory")?,
    }
}

#[test]
fn conditions_are_read(rt: HostRuntime) -> Result<(), Fail> {
    let alloc = rt.alloc();
    let cases: [(&[u8], u8, u8); 19] = [
        (b"2 * N >= 5", 0b1111_1000, 0b1111_1000),
        (b"3 - N > 0", 0b0000_0111, 0b0000_0111),
        (b"N >= 8", 0, 0),
        (b"defined N && !defined(FOO)", 255, 255),
        (b"N + 2147483648 > -1", 255, 255),
        (b"defined(N) * N > 1", 0b1111_1100, 0b1111_1100),
        (b"3 - -N", 255, 255),
        (b"N > 2", 0b1111_1000, 0b1111_1000),
        (b"N < 2 || N == 7", 0b1000_0011, 0b1000_0011),
        (b"1 <= N && N <= 2", 0b0000_0110, 0b0000_0110),
        (b"N != 2", 0b1111_1011, 0b1111_1011),
        (b"!(N - 3)", 0b0000_1000, 0b0000_1000),
        (b"A", 0, 255),
        (b"defined A", 0, 255),
        (b"FOO", 0, 0),
        (b"while + N * 1", 0b1111_1110, 0b1111_1110),
        (b"1 || 0 && 0", 255, 255),
        (b"5-2-3", 0, 0),
        (b"\tN\r+ A*8 > +7\x0b\x0c", 0, 255),
    ];
    for (bytes, off, on) in cases {
        assert_eq!(rt; read(alloc, Unknown::Zero, bytes)?, Answer::Truths(off, on));
    }
    Ok(())
}

#[test]
fn integer_constants_are_read(rt: HostRuntime) -> Result<(), Fail> {
    let alloc = rt.alloc();
    let cases: [(&[u8], u8); 15] = [
        (b"N == 0x5", 0b0010_0000),
        (b"N == 0X5", 0b0010_0000),
        (b"N == 07", 0b1000_0000),
        (b"N == 00", 0b0000_0001),
        (b"N == 5L", 0b0010_0000),
        (b"N == 5l", 0b0010_0000),
        (b"N == 5LL", 0b0010_0000),
        (b"N == 0x5ll", 0b0010_0000),
        (b"N > 01L", 0b1111_1100),
        (b"N < 0x80000000", 255),
        (b"N > -020000000000", 255),
        (b"N + 0xe == 0xF", 0b0000_0010),
        (b"N == 0x1F-0x1A", 0b0010_0000),
        (b"N == 0xE -012", 0b0001_0000),
        (b"N + 0x1EL+1 == 0x23", 0b0001_0000),
    ];
    for (bytes, both) in cases {
        assert_eq!(rt;
            read(alloc, Unknown::Zero, bytes)?,
            Answer::Truths(both, both)
        );
    }
    Ok(())
}

#[test]
fn integer_constants_are_refused(rt: HostRuntime) -> Result<(), Fail> {
    let alloc = rt.alloc();
    let cases: [(&[u8], ConditionFault); 19] = [
        (b"5u", ConditionFault::Syntax),
        (b"5U", ConditionFault::Syntax),
        (b"5uL", ConditionFault::Syntax),
        (b"5LU", ConditionFault::Syntax),
        (b"5lL", ConditionFault::Syntax),
        (b"5Ll", ConditionFault::Syntax),
        (b"5LLL", ConditionFault::Syntax),
        (b"5L5", ConditionFault::Syntax),
        (b"08L", ConditionFault::Syntax),
        (b"0x", ConditionFault::Syntax),
        (b"0xL", ConditionFault::Syntax),
        (b"0xg", ConditionFault::Syntax),
        (b"0x1E+1", ConditionFault::Syntax),
        (b"0x1e-1", ConditionFault::Syntax),
        (b"'a'", ConditionFault::Syntax),
        (b"N > 0x80000001", ConditionFault::TooLarge),
        (b"N > 020000000001", ConditionFault::TooLarge),
        (b"N > 2147483649L", ConditionFault::TooLarge),
        (b"N > 0xffffffffffffffffffff", ConditionFault::TooLarge),
    ];
    for (bytes, fault) in cases {
        assert_eq!(rt; read(alloc, Unknown::Zero, bytes)?, Answer::Fault(fault));
    }
    Ok(())
}

#[test]
fn conditions_have_normal_forms(rt: HostRuntime) -> Result<(), Fail> {
    let alloc = rt.alloc();
    let features = both_features(alloc)?;
    let decided = read_condition(alloc, no_macros(Unknown::Zero), features.items(), b"N >= 8");
    assert!(rt; matches!(decided, Ok(Condition::Const(false))));
    let least = at_least(alloc, 0, -3)?;
    match read_condition(
        alloc,
        no_macros(Unknown::Zero),
        features.items(),
        b"3 - N > 0",
    ) {
        Ok(Condition::Not(inner)) => match &*inner {
            Condition::Test(atom) => assert!(rt; *atom == least),
            _ => panic!(rt; "no test"),
        },
        _ => panic!(rt; "no negation"),
    }
    Ok(())
}

#[test]
fn conditions_are_refused(rt: HostRuntime) -> Result<(), Fail> {
    let alloc = rt.alloc();
    let cases: [(&[u8], ConditionFault); 25] = [
        (b"", ConditionFault::Syntax),
        (b"N >", ConditionFault::Syntax),
        (b"3 --N", ConditionFault::Syntax),
        (b"N\n", ConditionFault::Syntax),
        (b"N & 1", ConditionFault::Syntax),
        (b"08", ConditionFault::Syntax),
        (b"1a", ConditionFault::Syntax),
        (b"1_a", ConditionFault::Syntax),
        (b"defined(N", ConditionFault::Syntax),
        (b"defined defined", ConditionFault::Syntax),
        (b"(N)) + __N", ConditionFault::Syntax),
        (
            b"(((((((((((((((((((((((((((((((((((((((((((((((((((((((((((((((((",
            ConditionFault::TooDeep,
        ),
        (
            b"((((((((((((((((((((((((((((((((((((((((((((((((((((((((((((((((( 08",
            ConditionFault::Syntax,
        ),
        (
            b"1+1+1+1+1+1+1+1+1+1+1+1+1+1+1+1+1+1+1+1+1+1+1+1+1+1+1+1+1+1+1+1+1+1+1+1+1+1+1+1+1+1+1+1+1+1+1+1+1+1+1+1+1+1+1+1+1+1+1+1+1+1+1+1+1+1",
            ConditionFault::TooDeep,
        ),
        (b"__N", ConditionFault::ReservedName),
        (b"N * N > 1 || defined __N", ConditionFault::ReservedName),
        (b"N * N > 1", ConditionFault::NonLinear),
        (b"(N - N) * N > 1", ConditionFault::NonLinear),
        (b"9999999999 > 0 && N * N", ConditionFault::NonLinear),
        (b"(A && N) == 1", ConditionFault::NonLinear),
        (b"+(A && N)", ConditionFault::NonLinear),
        (b"N > 2147483649", ConditionFault::TooLarge),
        (b"N + 2147483648 >= -1", ConditionFault::TooLarge),
        (b"-2147483648", ConditionFault::TooLarge),
        (b"N * 65536 * 65536", ConditionFault::TooLarge),
    ];
    for (bytes, fault) in cases {
        assert_eq!(rt; read(alloc, Unknown::Zero, bytes)?, Answer::Fault(fault));
    }
    Ok(())
}

#[test]
fn unknown_names_are_refused_or_0(rt: HostRuntime) -> Result<(), Fail> {
    let alloc = rt.alloc();
    let known = Answer::Truths(0, 252);
    let unknown = Answer::Fault(ConditionFault::UnknownName);
    let cases: [(&[u8], Answer, Answer); 10] = [
        (b"N > 1 && defined A", known, known),
        (b"X", unknown, Answer::Truths(0, 0)),
        (b"defined X", unknown, Answer::Truths(0, 0)),
        (b"!defined(X) || N", unknown, Answer::Truths(255, 255)),
        (b"A && (N > 1 + X)", unknown, known),
        (
            b"X + (A && A)",
            unknown,
            Answer::Fault(ConditionFault::NonLinear),
        ),
        (
            b"X && N > 2147483649",
            unknown,
            Answer::Fault(ConditionFault::TooLarge),
        ),
        (
            b"X && __N",
            Answer::Fault(ConditionFault::ReservedName),
            Answer::Fault(ConditionFault::ReservedName),
        ),
        (
            b"X &&",
            Answer::Fault(ConditionFault::Syntax),
            Answer::Fault(ConditionFault::Syntax),
        ),
        (b"n > 1 && A", unknown, Answer::Truths(0, 0)),
    ];
    for (bytes, refused, zero) in cases {
        assert_eq!(rt; read(alloc, Unknown::Refuse, bytes)?, refused);
        assert_eq!(rt; read(alloc, Unknown::Zero, bytes)?, zero);
    }
    Ok(())
}

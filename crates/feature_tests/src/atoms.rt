//! Linear forms, atoms and literals over features `A` (Boolean), `N` and `M` (from 0 to 7).

ghost use Rattle.std.specs.Prelude.{◌≡◌, pos, IfOk};
ghost use Rattle.linear_atoms.specs.Atoms.{IsAtom};
ghost use Rattle.linear_atoms.specs.Forms.{IsRising};

use fam_outer::{NoMemory, Text, Values};
use linear_atoms::{Atom, Config, Feature, Linear, LinearFault, Literal, Normal, Span, Terms};
use smallvec::SmallVec;
use std::alloc::Global;
use std::test::Fail;

fn terms(alloc: Global, list: &[(u32, i64)]) -> Result<Terms, NoMemory>
    ensures { IfOk result (λ made. made ≡ list.now) }
{
    Ok(Terms::from_vec(SmallVec::from_slice(alloc, list)?))
}

fn atom(alloc: Global, list: &[(u32, i64)], bound: i64) -> Result<Atom, NoMemory>
    ensures terms { IfOk result (λ made. made.terms ≡ list.now) }
    ensures bound { IfOk result (λ made. made.bound ≡ bound) }
{
    Ok(Atom {
        terms: terms(alloc, list)?,
        bound,
    })
}

/// A well-formed atom over two features.
fn test(alloc: Global, list: &[(u32, i64)], bound: i64) -> Result<Atom, NoMemory>
    requires { IsAtom 2 (record { terms = list.now; bound = bound }) }
    ensures { IfOk result (λ made. IsAtom 2 made) }
{
    atom(alloc, list, bound)
}

fn feature(alloc: Global, name: &[u8], boolean: bool, high: i64) -> Result<Feature, NoMemory>
    ensures low { IfOk result (λ made. made.low ≡ pos 0) }
    ensures high { IfOk result (λ made. made.high ≡ high) }
{
    Ok(Feature {
        name: Text::from_bytes(alloc, name)?,
        boolean,
        low: 0,
        high,
    })
}

/// `2 * N` and the like: a multiple of feature 1 and a constant.
fn form(alloc: Global, coefficient: i64, constant: i64) -> Result<Linear, LinearFault>
    ensures { IfOk result (λ made. IsRising made.terms) }
{
    let feature = Linear::feature(alloc, 1)?;
    let multiple = feature.scale(alloc, coefficient)?;
    multiple.add(alloc, &Linear::constant(alloc, constant)?)
}

#[test]
fn forms_are_sums(rt: HostRuntime) -> Result<(), Fail> {
    let cases: [(i64, i64, i64, i64, &[(u32, i64)], i64); 3] = [
        (2, 1, 3, -5, &[(1, 5)], -4),
        (2, 1, -2, 4, &[], 5),
        (2147483647, 0, 1, 0, &[(1, 2147483648)], 0),
    ];
    for (a, k, b, l, terms, constant) in cases {
        let sum = form(rt.alloc(), a, k)?.add(rt.alloc(), &form(rt.alloc(), b, l)?)?;
        assert_eq!(rt; sum.terms.items(), terms);
        assert_eq!(rt; sum.constant, constant);
    }
    let large = form(rt.alloc(), 2147483648, 0)?;
    let one = form(rt.alloc(), 1, 0)?;
    let sum = large.add(rt.alloc(), &one);
    assert!(rt; matches!(sum, Err(LinearFault::TooLarge)));
    let constant = Linear::constant(rt.alloc(), -2147483649);
    assert!(rt; matches!(constant, Err(LinearFault::TooLarge)));
    Ok(())
}

#[test]
fn normal_forms_round_up(rt: HostRuntime) -> Result<(), Fail> {
    let cases = [
        (2, -5, 3, true),
        (-1, 2, 3, false),
        (4, 6, -1, true),
        (-2, 5, 3, false),
        (2147483648, -2147483648, 1, true),
    ];
    for (a, k, bound, positive) in cases {
        let normal = form(rt.alloc(), a, k)?.normal(rt.alloc())?;
        match normal {
            Normal::Const(_) => return Err("a truth")?,
            Normal::Literal(literal) => {
                assert_eq!(rt; literal.atom.terms.items(), [(1, 1)].as_slice());
                assert_eq!(rt; literal.atom.bound, bound);
                assert_eq!(rt; literal.positive, positive);
            }
        }
    }
    let truth = form(rt.alloc(), 0, -1)?.normal(rt.alloc())?;
    assert!(rt; matches!(truth, Normal::Const(false)));
    Ok(())
}

#[test]
fn atoms_are_in_order(rt: HostRuntime) -> Result<(), Fail> {
    let first = atom(rt.alloc(), &[(0, 1)], 9)?;
    let second = atom(rt.alloc(), &[(0, 1), (1, -2)], 0)?;
    let third = atom(rt.alloc(), &[(0, 1), (1, -2)], 1)?;
    let fourth = atom(rt.alloc(), &[(0, 2)], 0)?;
    assert!(rt; first < second);
    assert!(rt; second < third);
    assert!(rt; third < fourth);
    assert!(rt; second.copy(rt.alloc())? == second);
    Ok(())
}

#[tactic(auto, unfolding(linear_atoms::specs::Divisors::common_divisor))]
/// `2 * A - N >= -3` at values of `A` and `N`.
#[test]
fn atoms_have_truths(rt: HostRuntime) -> Result<(), Fail> {
    let atom = test(rt.alloc(), &[(0, 2), (1, -1)], -3)?;
    for (value, truth) in [(5, true), (6, false)] {
        let config = Config {
            values: Values::from_vec(vec![in rt.alloc(); 1, value]?),
        };
        assert!(rt; atom.truth(&config) == truth);
    }
    Ok(())
}

#[tactic(auto, unfolding(linear_atoms::specs::Divisors::common_divisor))]
#[test]
fn ranges_decide(rt: HostRuntime) -> Result<(), Fail> {
    let features = [
        feature(rt.alloc(), b"A", true, 1)?,
        feature(rt.alloc(), b"N", false, 7)?,
    ];
    let spans = [Span { low: 0, high: 1 }, Span { low: 1, high: 7 }];
    let reached = test(rt.alloc(), &[(0, 1), (1, -1)], -7)?;
    let open = test(rt.alloc(), &[(0, 1), (1, -1)], 1)?;
    let missed = test(rt.alloc(), &[(0, 1), (1, -1)], 2)?;
    assert_eq!(rt; reached.decided(&features), Some(true));
    assert_eq!(rt; open.decided(&features), None);
    assert_eq!(rt; missed.decided(&features), Some(false));
    assert_eq!(rt; open.decided_within(&spans), Some(false));
    Ok(())
}

#[tactic(auto, unfolding(linear_atoms::specs::Divisors::common_divisor))]
#[test]
fn literals_have_texts(rt: HostRuntime) -> Result<(), Fail> {
    let features = [
        feature(rt.alloc(), b"A", true, 1)?,
        feature(rt.alloc(), b"N", false, 7)?,
    ];
    let switch = Literal {
        atom: test(rt.alloc(), &[(0, 1)], 1)?,
        positive: false,
    };
    let sum = Literal {
        atom: test(rt.alloc(), &[(0, 1), (1, -2)], -3)?,
        positive: false,
    };
    let multiple = Literal {
        atom: test(rt.alloc(), &[(0, 2), (1, 3)], 4)?,
        positive: true,
    };
    assert_eq!(rt;
        switch.text(rt.alloc(), &features)?.bytes(),
        b"!A".as_slice()
    );
    assert_eq!(rt;
        sum.text(rt.alloc(), &features)?.bytes(),
        b"A - 2*N <= -4".as_slice()
    );
    assert_eq!(rt;
        multiple.text(rt.alloc(), &features)?.bytes(),
        b"2*A + 3*N >= 4".as_slice()
    );
    Ok(())
}

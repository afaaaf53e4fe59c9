//! Sums, multiples and divisors of small numbers.

ghost use Rattle.std.specs.Prelude.{◌≡◌, IfOk};

use fam_outer::NoMemory;
use linear_terms::{Terms, greatest_common_divisor};
use smallvec::SmallVec;
use std::alloc::Global;
use std::test::Fail;

fn terms(alloc: Global, list: &[(u32, i64)]) -> Result<Terms, NoMemory>
    ensures { IfOk result (λ made. made ≡ list.now) }
{
    Ok(Terms::from_vec(SmallVec::from_slice(alloc, list)?))
}

/// `3x0 - 2x2` and others, within 7.
#[test]
fn terms_are_added(rt: HostRuntime) -> Result<(), Fail> {
    let first = terms(rt.alloc(), &[(0, 3), (2, -2)])?;
    let second = terms(rt.alloc(), &[(0, 4), (1, 5), (2, 2)])?;
    match first.add(rt.alloc(), &second, 7)? {
        Some(sum) => assert_eq!(rt; sum.items(), [(0, 7), (1, 5)].as_slice()),
        None => return Err("no sum")?,
    }
    assert!(rt; first.add(rt.alloc(), &second, 6)?.is_none());
    let single = Terms::single(rt.alloc(), 2, -2)?;
    assert!(rt; first < single);
    assert!(rt; Terms::none(rt.alloc()) < single);
    assert!(rt; first.copy(rt.alloc())? == first);
    Ok(())
}

#[test]
fn terms_are_multiplied(rt: HostRuntime) -> Result<(), Fail> {
    let first = terms(rt.alloc(), &[(0, 3), (2, -2)])?;
    match first.scale(rt.alloc(), -2, 6)? {
        Some(multiple) => assert_eq!(rt; multiple.items(), [(0, -6), (2, 4)].as_slice()),
        None => return Err("no multiple")?,
    }
    match first.scale(rt.alloc(), 0, 6)? {
        Some(multiple) => assert!(rt; multiple.items().is_empty()),
        None => return Err("no multiple")?,
    }
    assert!(rt; first.scale(rt.alloc(), 4611686018427387904, 6)?.is_none());
    Ok(())
}

#[test]
fn divisors_are_greatest(rt: HostRuntime) -> Result<(), Fail> {
    for (a, b, divisor) in [
        (0, 0, 0),
        (0, 7, 7),
        (12, 18, 6),
        (18446744073709551616, 6, 2),
    ] {
        assert_eq!(rt; greatest_common_divisor(a, b), divisor);
    }
    Ok(())
}

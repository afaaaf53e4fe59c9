//! Ranges found by hand.

ghost use Rattle.std.specs.Prelude.{◌≡◌, IsTrue};
ghost use Rattle.leaf_domain.specs.Ranges.{IsInInt, is_arithmetic};

use c_tree::Op;
use leaf_domain::{Compare, Range, arithmetic, cut};

const LEAST: i64 = -2147483648;

const GREATEST: i64 = 2147483647;

fn range(low: i64, high: i64) -> Range
    ensures { result ≡ record { low = low; high = high } }
{
    Range { low, high }
}

fn is_int(a: Range) -> bool
    ensures { IsTrue result → IsInInt a }
{
    LEAST <= a.low && a.low <= GREATEST && LEAST <= a.high && a.high <= GREATEST
}

fn is_arithmetic(op: Op) -> bool
    ensures { result ≡ is_arithmetic op }
{
    matches!(op, Op::Add | Op::Sub | Op::Mul | Op::Div | Op::Rem)
}

#[test]
fn arithmetic_of_ranges(rt: HostRuntime) {
    let cases = [
        (Op::Add, range(1, 3), range(-5, 2), range(-4, 5)),
        (Op::Sub, range(1, 3), range(-5, 2), range(-1, 8)),
        (Op::Mul, range(-2, 3), range(-5, 4), range(-15, 12)),
        (Op::Div, range(-7, 7), range(-2, 3), range(-7, 7)),
        (Op::Div, range(7, 7), range(0, 0), Range::EMPTY),
        (
            Op::Div,
            range(LEAST, LEAST),
            range(-1, -1),
            range(2147483648, 2147483648),
        ),
        (Op::Rem, range(LEAST, LEAST), range(-1, -1), Range::EMPTY),
        (Op::Rem, range(-7, -7), range(3, 3), range(-1, -1)),
        (Op::Rem, range(0, 2), range(3, 9), range(0, 2)),
        (Op::Rem, range(-9, 4), range(-3, 5), range(-4, 4)),
        (Op::Add, Range::EMPTY, range(1, 1), Range::EMPTY),
    ];
    for (op, a, b, want) in cases {
        assert!(rt; is_arithmetic(op));
        assert!(rt; is_int(a));
        assert!(rt; is_int(b));
        assert_eq!(rt; arithmetic(op, a, b), want, "{a:?} {b:?}");
    }
}

#[test]
fn cuts_of_ranges(rt: HostRuntime) {
    let cases = [
        (Compare::Lt, range(0, 9), range(3, 5), range(0, 4)),
        (Compare::Le, range(0, 9), range(3, 5), range(0, 5)),
        (Compare::Gt, range(0, 9), range(3, 5), range(4, 9)),
        (Compare::Ge, range(0, 9), range(3, 5), range(3, 9)),
        (Compare::Eq, range(0, 9), range(7, 12), range(7, 9)),
        (Compare::Ne, range(0, 9), range(0, 0), range(1, 9)),
        (Compare::Ne, range(0, 9), range(5, 5), range(0, 9)),
        (Compare::Ne, range(4, 4), range(4, 4), Range::EMPTY),
        (Compare::Lt, range(4, 9), range(0, 4), Range::EMPTY),
        (Compare::Lt, range(-5, 5), Range::EMPTY, Range::EMPTY),
        (Compare::Ge, range(-5, 5), Range::EMPTY, Range::EMPTY),
        (Compare::Ne, Range::EMPTY, range(0, 0), Range::EMPTY),
    ];
    for (op, a, b, want) in cases {
        assert!(rt; is_int(a));
        assert!(rt; is_int(b));
        assert_eq!(rt; cut(op, a, b), want, "{op:?} {a:?} {b:?}");
    }
}

#[test]
fn clipped_folded_and_met(rt: HostRuntime) {
    let beyond = range(GREATEST + 1, GREATEST + 3);
    assert_eq!(rt; beyond.clip(), Range::EMPTY);
    assert_eq!(rt; beyond.fold(), range(LEAST, LEAST + 2));
    assert_eq!(rt; range(GREATEST, GREATEST + 1).fold(), Range::INT);
    assert_eq!(rt;
        range(LEAST - 1, LEAST - 1).fold(),
        range(GREATEST, GREATEST)
    );
    assert_eq!(rt; range(i64::MIN, i64::MAX).fold(), Range::INT);
    assert_eq!(rt; Range::EMPTY.fold(), Range::EMPTY);
    assert_eq!(rt; range(0, 5).meet(range(3, 9)), range(3, 5));
    assert_eq!(rt; range(0, 2).meet(range(3, 9)), Range::EMPTY);
}

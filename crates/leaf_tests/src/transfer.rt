//! What expressions `x op n` do to a leaf in which `x` is from -3 to 5, compared with values found
//! by hand.

ghost use Rattle.std.specs.Prelude.{◌≡◌, IfOk};
ghost use Rattle.c_tree.specs.Fit.{IsTermOf, IsCodeOf};
ghost use Rattle.c_tree.specs.Tree.{Done, Binary, Var, Number};
ghost use Rattle.c_tree.specs.View.{term, front};

use crate::intervals::{GREATEST, LEAST, leaf};
use c_tree::{Expr, Kind, Mode, Op, Stmt};
use fam_outer::{NoMemory, Place};
use interval_leaf::IntervalLeaf;
use leaf_domain::{Leaf, assign, assume, fits, forget, form_of, may, range_of, raw_of, split};
use std::alloc::Global;
use std::test::Fail;

/// `a op b`.
fn binary(alloc: Global, op: Op, a: Expr, b: Expr) -> Result<Expr, NoMemory>
    ensures { IfOk result (λ e. term e ≡ Binary op (term a) (term b)) }
{
    let a = Box::new(alloc, a)?;
    Ok(Expr::Binary(op, a, Box::new(alloc, b)?))
}

/// `x op n`.
fn with_x(alloc: Global, op: Op, n: i64) -> Result<Expr, NoMemory>
    ensures { IfOk result (λ e. term e ≡ Binary op (Var 0) (Number n)) }
{
    binary(alloc, op, Expr::Var(0), Expr::Number(n))
}

/// `((x op 1) op 1) op .. 1`, so deep.
fn nested(alloc: Global, op: Op, depth: u32) -> Result<Expr, NoMemory>
    ensures { IfOk result (λ e. IsTermOf 2 (term e)) }
{
    let mut e = Expr::Var(0);
    'deeper: for _k in 0..depth {
        e = binary(alloc, op, e, Expr::Number(1))?;
    }
    Ok(e)
}

/// `x = e;`.
fn assigning(value: Expr) -> Stmt
    requires { IsTermOf 2 (term value) }
    ensures { IsCodeOf 2 (front result Done) }
{
    Stmt::Assign {
        place: Place { line: 1, column: 1 },
        target: 0,
        value,
    }
}

/// `assert(e);`.
fn asserting(test: Expr) -> Stmt
    requires { IsTermOf 2 (term test) }
    ensures { IsCodeOf 2 (front result Done) }
{
    Stmt::Assert {
        place: Place { line: 1, column: 1 },
        test,
    }
}

/// The bounds of the first of two variables, where the leaf holds a store.
fn ends(leaf: &IntervalLeaf) -> Option<(i64, i64)> {
    if leaf.is_nothing() || leaf.variables() != 2 {
        return None;
    }
    let r = leaf.bounds_of(0);
    Some((r.low, r.high))
}

/// The ends of the range of an expression, those before it is clipped or folded, and whether it
/// fits.
fn found(
    alloc: Global,
    leaf: &IntervalLeaf,
    e: &Expr,
    mode: Mode,
) -> Result<((i64, i64), (i64, i64), bool), NoMemory>
    requires { IsTermOf leaf.now.variables (term e.now) }
{
    let r = range_of(alloc, leaf, e, mode)?;
    let raw = raw_of(alloc, leaf, e, mode)?;
    Ok((
        (r.low, r.high),
        (raw.low, raw.high),
        fits(alloc, leaf, e, mode)?,
    ))
}

#[test]
fn ranges_of_expressions(rt: HostRuntime) -> Result<(), Fail> {
    let entered = leaf(rt.alloc(), -3, 5)?;
    let past = (2147483644, 2147483652);
    let cases = [
        (Mode::Stop, Op::Add, 7, ((4, 12), (4, 12), true)),
        (
            Mode::Stop,
            Op::Add,
            GREATEST,
            ((2147483644, GREATEST), past, true),
        ),
        (
            Mode::Wrap,
            Op::Add,
            GREATEST,
            ((LEAST, GREATEST), past, false),
        ),
        (Mode::Wrap, Op::Mul, 2, ((-6, 10), (-6, 10), true)),
        (Mode::Wrap, Op::Div, 7, ((0, 0), (0, 0), false)),
        (Mode::Stop, Op::Div, 0, ((1, 0), (1, 0), true)),
        (Mode::Stop, Op::Rem, 4, ((-3, 3), (-3, 3), true)),
        (Mode::Stop, Op::Lt, 7, ((1, 1), (1, 1), true)),
        (Mode::Wrap, Op::Or, 0, ((0, 1), (0, 1), false)),
    ];
    for (mode, op, n, want) in cases {
        assert!(rt; 0 <= n && n <= GREATEST);
        let e = with_x(rt.alloc(), op, n)?;
        assert_eq!(rt; found(rt.alloc(), &entered, &e, mode)?, want, "{op:?} {n}");
    }
    Ok(())
}

#[test]
fn tests_of_expressions(rt: HostRuntime) -> Result<(), Fail> {
    let entered = leaf(rt.alloc(), -3, 5)?;
    let cases = [
        (Op::Lt, 2, true, Some((-3, 1))),
        (Op::Lt, 2, false, Some((2, 5))),
        (Op::Eq, 9, true, None),
        (Op::Ne, 5, true, Some((-3, 4))),
        (Op::And, 0, true, None),
        (Op::Or, 1, false, None),
        (Op::Add, 3, false, Some((-3, 5))),
    ];
    for (op, n, want, left) in cases {
        assert!(rt; 0 <= n && n <= GREATEST);
        let e = with_x(rt.alloc(), op, n)?;
        let made = assume(rt.alloc(), &entered, &e, want, Mode::Stop)?;
        assert_eq!(rt; ends(&made), left, "{op:?} {n} {want}");
    }
    let above = with_x(rt.alloc(), Op::Gt, 3)?;
    let below = with_x(rt.alloc(), Op::Lt, 5)?;
    let both = binary(rt.alloc(), Op::And, above, below)?;
    let made = assume(rt.alloc(), &entered, &both, true, Mode::Stop)?;
    assert_eq!(rt; ends(&made), Some((4, 4)));
    Ok(())
}

#[test]
fn both_sides_of_expressions(rt: HostRuntime) -> Result<(), Fail> {
    let entered = leaf(rt.alloc(), -3, 5)?;
    let cases = [
        (Op::Lt, 2, Some((-3, 1)), Some((2, 5))),
        (Op::Ge, 6, None, Some((-3, 5))),
        (Op::Eq, 5, Some((5, 5)), Some((-3, 4))),
        (Op::And, 0, None, Some((-3, 5))),
        (Op::Or, 1, Some((-3, 5)), None),
        (Op::Mul, 0, None, Some((-3, 5))),
    ];
    for (op, n, when_true, when_false) in cases {
        assert!(rt; 0 <= n && n <= GREATEST);
        let e = with_x(rt.alloc(), op, n)?;
        let sides = split(rt.alloc(), &entered, &e, Mode::Stop)?;
        assert_eq!(rt; ends(&sides.when_true), when_true, "{op:?} {n}");
        assert_eq!(rt; ends(&sides.when_false), when_false, "{op:?} {n}");
    }
    Ok(())
}

/// Each part is looked at once, so that a deep expression takes no longer than its length.
#[test]
fn deep_expressions(rt: HostRuntime) -> Result<(), Fail> {
    let entered = leaf(rt.alloc(), -3, 5)?;
    let cases = [
        (Op::Lt, ((0, 1), (0, 1), true)),
        (Op::Add, ((61, 69), (61, 69), true)),
        (Op::Sub, ((-67, -59), (-67, -59), true)),
        (Op::And, ((0, 1), (0, 1), true)),
    ];
    for (op, want) in cases {
        let e = nested(rt.alloc(), op, 64)?;
        assert_eq!(rt;
            found(rt.alloc(), &entered, &e, Mode::Stop)?,
            want,
            "{op:?}"
        );
    }
    Ok(())
}

#[test]
fn statements_that_may_stop(rt: HostRuntime) -> Result<(), Fail> {
    let entered = leaf(rt.alloc(), -3, 5)?;
    let cases = [
        (Mode::Stop, Kind::Overflow, Op::Add, GREATEST, true),
        (Mode::Wrap, Kind::Overflow, Op::Add, GREATEST, false),
        (Mode::Stop, Kind::Overflow, Op::Mul, 2, false),
        (Mode::Wrap, Kind::ZeroDivisor, Op::Div, 0, true),
        (Mode::Stop, Kind::ZeroDivisor, Op::Rem, 3, false),
        (Mode::Stop, Kind::Assertion, Op::Add, 1, false),
    ];
    for (mode, kind, op, n, want) in cases {
        assert!(rt; 0 <= n && n <= GREATEST);
        let s = assigning(with_x(rt.alloc(), op, n)?);
        assert_eq!(rt;
            may(rt.alloc(), &entered, kind, &s, mode)?,
            want,
            "{op:?} {n}"
        );
    }
    for (n, want) in [(5, true), (6, false)] {
        let s = asserting(with_x(rt.alloc(), Op::Lt, n)?);
        assert_eq!(rt;
            may(rt.alloc(), &entered, Kind::Assertion, &s, Mode::Stop)?,
            want
        );
    }
    let one = Box::new(rt.alloc(), Expr::Number(1))?;
    let rest = binary(rt.alloc(), Op::Rem, Expr::Var(0), Expr::Neg(one))?;
    let lowest = leaf(rt.alloc(), LEAST, LEAST)?;
    assert!(rt;
        may(
            rt.alloc(),
            &lowest,
            Kind::Overflow,
            &assigning(rest),
            Mode::Wrap
        )?
    );
    Ok(())
}

#[test]
fn assignments_and_inputs(rt: HostRuntime) -> Result<(), Fail> {
    let entered = leaf(rt.alloc(), -3, 5)?;
    let next = with_x(rt.alloc(), Op::Add, 1)?;
    let made = assign(rt.alloc(), &entered, 0, &next, Mode::Stop)?;
    assert_eq!(rt; ends(&made), Some((-2, 6)));
    assert_eq!(rt;
        ends(&forget(rt.alloc(), &entered, 0)?),
        Some((LEAST, GREATEST))
    );
    Ok(())
}

#[test]
fn linear_forms(rt: HostRuntime) -> Result<(), Fail> {
    let twice = with_x(rt.alloc(), Op::Mul, 2)?;
    let more = binary(rt.alloc(), Op::Add, Expr::Number(3), twice)?;
    let linear = binary(rt.alloc(), Op::Sub, more, Expr::Var(1))?;
    let Some(form) = form_of(rt.alloc(), &linear)? else {
        assert!(rt; false);
        return Ok(());
    };
    assert_eq!(rt; form.terms.items(), [(0, 2), (1, -1)].as_slice());
    assert_eq!(rt; form.constant, 3);
    let square = binary(rt.alloc(), Op::Mul, Expr::Var(0), Expr::Var(0))?;
    assert!(rt; form_of(rt.alloc(), &square)?.is_none());
    Ok(())
}

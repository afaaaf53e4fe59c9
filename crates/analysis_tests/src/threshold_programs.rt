//! Loops whose bounds step to thresholds: the leaves at their places, compared with leaves that were found by hand.

ghost use Rattle.std.specs.Prelude.{◌≡◌, ◌<◌, ◌≤ℤ◌, IfOk, pos, length};
ghost use Rattle.c_tree.specs.Value.{IsInt, greatest};
ghost use Rattle.c_tree.specs.View.{term, code, whole};
ghost use Rattle.c_tree.specs.Whole.{IsProgram, IsPlainProgram};
ghost use Rattle.analysis_tests.specs.Loops.{moving_where, moving_loop};

use crate::families::{both, one};
use crate::small_programs::{at, binary, names, starts};
use c_tree::{Declarations, Expr, Mode, Op, Program, Stmt};
use fam_outer::NoMemory;
use interval_leaf::IntervalLeaf;
use leaf_domain::{Leaf, Range, Thresholds};
use octagon_leaf::OctagonLeaf;
use plain_analysis::{Options, PlaceLeaf, PlaceLeaves, analyse_one};
use product_leaf::StrideLeaf;
use std::alloc::Global;
use std::test::Fail;

pub(crate) const LEAST: i64 = -2147483648;

pub(crate) const GREATEST: i64 = 2147483647;

/// How a loop moves `x`: `if (FORM OP 0 STEP LIMIT) x = x STEP BY;`.
#[derive(Clone, Copy)]
pub(crate) struct Turn {
    pub op: Op,
    pub step: Op,
    pub limit: i64,
    pub by: i64,
}

/// The statement that moves `x`, alone, in this line and the next.
fn moving(alloc: Global, line: u32, form: Expr, turn: Turn) -> Result<Vec<Stmt>, NoMemory>
    requires { line < 1000 }
    ensures { IfOk result (λ made. code made.items ≡ moving_where line (term form) turn.op turn.step turn.limit turn.by) }
{
    let value = binary(alloc, turn.step, Expr::Var(0), Expr::Number(turn.by))?;
    let assignment = Stmt::Assign {
        place: at(line + 1, 1),
        target: 0,
        value,
    };
    let end = binary(alloc, turn.step, Expr::Number(0), Expr::Number(turn.limit))?;
    one(
        alloc,
        Stmt::If {
            place: at(line, 1),
            test: binary(alloc, turn.op, form, end)?,
            yes: one(alloc, assignment)?,
            no: Vec::new(alloc),
        },
    )
}

/// `while (z < 3) { z = input(); .. }` around it, alone.
pub(crate) fn looping(
    alloc: Global,
    line: u32,
    z: u32,
    form: Expr,
    turn: Turn,
) -> Result<Vec<Stmt>, NoMemory>
    requires { line < 900 }
    ensures { IfOk result (λ made. code made.items ≡ moving_loop line z (term form) turn.op turn.step turn.limit turn.by) }
{
    let input = Stmt::Input {
        place: at(line + 1, 1),
        target: z,
    };
    let body = both(one(alloc, input)?, moving(alloc, line + 2, form, turn)?)?;
    let test = binary(alloc, Op::Lt, Expr::Var(z), Expr::Number(3))?;
    one(
        alloc,
        Stmt::While {
            place: at(line, 1),
            test,
            step: Vec::new(alloc),
            body,
        },
    )
}

/// `while (y < 3) { y = input(); if (x OP 0 STEP LIMIT) x = x STEP BY; }` in the lines 3 to 6.
fn climbing(alloc: Global, turn: Turn) -> Result<Program, NoMemory>
    requires limit_positive { pos 0 ≤ℤ turn.limit }
    requires limit { turn.limit ≤ℤ greatest }
    requires by_positive { pos 0 ≤ℤ turn.by }
    requires by { turn.by ≤ℤ greatest }
    ensures program { IfOk result (λ p. IsProgram (whole p)) }
    ensures plain { IfOk result (λ p. IsPlainProgram (whole p)) }
{
    Ok(Program {
        names: names(alloc)?,
        start: starts(alloc)?,
        declared: Declarations::from_vec(Vec::new(alloc)),
        body: looping(alloc, 3, 1, Expr::Var(0), turn)?,
        end: at(7, 1),
    })
}

/// The numbers to which bounds step.
pub(crate) fn thresholds(alloc: Global) -> Result<Thresholds, NoMemory> {
    Ok(Thresholds::from_vec(vec![in alloc; -21i64, -10i64, 10i64, 21i64]?))
}

/// The leaves at the places of a program, by a kind of leaf.
pub(crate) fn leaves_of<L: Leaf>(
    alloc: Global,
    program: &Program,
    start: &L,
    thresholds: Thresholds,
) -> Result<PlaceLeaves<L>, NoMemory>
    requires program { IsProgram (whole program.now) }
    requires plain { IsPlainProgram (whole program.now) }
    requires variables { (L.value start.now).variables ≡ length program.now.names }
{
    let options = Options {
        delay: 0,
        narrow: 2,
        thresholds,
        mode: Mode::Stop,
    };
    let findings = analyse_one(alloc, program, start, &options)?;
    Ok(findings.places)
}

/// The bounds of `x`.
fn bounds<L: Leaf>(leaf: &L) -> Option<(i64, i64)> {
    if leaf.variables() == 0 {
        return None;
    }
    let r = leaf.bounds_of(0);
    Some((r.low, r.high))
}

/// Whether `x` has these bounds at the first place in a line.
fn has_bounds<L: Leaf>(places: &[PlaceLeaf<L>], line: u32, expected: (i64, i64)) -> bool {
    match places.iter().find(|it| it.place.line == line) {
        Some(found) => bounds(&found.leaf) == Some(expected),
        None => false,
    }
}

/// Whether `x` has these bounds at the head of the loop and behind it, and those where it is moved.
fn is_as<L: Leaf>(places: &PlaceLeaves<L>, head: (i64, i64), moved: (i64, i64)) -> bool {
    let places = places.items();
    has_bounds(places, 3, head) && has_bounds(places, 6, moved) && has_bounds(places, 7, head)
}

/// Upward: below the limit, by a sum.
pub(crate) const UP: (Op, Op) = (Op::Lt, Op::Add);

/// Downward: above the limit, by a difference.
pub(crate) const DOWN: (Op, Op) = (Op::Gt, Op::Sub);

/// How `x` is moved, with the limit and the step; its bounds at the head with thresholds and without, and those where it is
/// moved.
type Row = ((Op, Op), i64, i64, (i64, i64), (i64, i64), (i64, i64));

/// From the limit on `x` stays as it is, so that narrowing brings nothing back.
const CLIMBS: [Row; 5] = [
    // from 0 to 1, and so 10; to 11, and so 21; then to 15
    (UP, 15, 1, (0, 21), (0, GREATEST), (0, 14)),
    // from 0 to 12, and so 21; then to 19
    (UP, 8, 12, (0, 21), (0, GREATEST), (0, 7)),
    // as the first, and then from 21 to 22, which is past the last
    (UP, 30, 1, (0, GREATEST), (0, GREATEST), (0, 29)),
    // to -1, and so -10; to -11, and so -21; then to -15
    (DOWN, 15, 1, (-21, 0), (LEAST, 0), (-14, 0)),
    (DOWN, 30, 1, (LEAST, 0), (LEAST, 0), (-29, 0)),
];

/// Whether a kind of leaf has what a row says.
fn climbs<L: Leaf>(alloc: Global, row: Row) -> Result<bool, NoMemory>
    requires limit_positive { pos 0 ≤ℤ row.1 }
    requires limit { row.1 ≤ℤ greatest }
    requires by_positive { pos 0 ≤ℤ row.2 }
    requires by { row.2 ≤ℤ greatest }
{
    let ((op, step), limit, by, with, without, moved) = row;
    let turn = Turn {
        op,
        step,
        limit,
        by,
    };
    let program = climbing(alloc, turn)?;
    let start = L::start(alloc, program.start.items())?;
    if start.variables() as usize != program.names.items().len() {
        return Ok(false);
    }
    let stepped = leaves_of(alloc, &program, &start, thresholds(alloc)?)?;
    let plain = leaves_of(alloc, &program, &start, Thresholds::none(alloc))?;
    Ok(is_as(&stepped, with, moved) && is_as(&plain, without, moved))
}

#[test]
fn intervals_step_twice(rt: HostRuntime) -> Result<(), Fail> {
    for row in CLIMBS {
        assert!(rt;
            climbs::<IntervalLeaf>(rt.alloc(), row)?,
            "{} {}",
            row.1,
            row.2
        );
    }
    Ok(())
}

#[test]
fn octagons_of_one_variable_step_twice(rt: HostRuntime) -> Result<(), Fail> {
    for row in CLIMBS {
        assert!(rt;
            climbs::<OctagonLeaf>(rt.alloc(), row)?,
            "{} {}",
            row.1,
            row.2
        );
    }
    Ok(())
}

/// The bounds of `x` by strides, which then are numbers of the stride.
const STRIDES: [Row; 4] = [
    // 0 and 4, and so up to 10, where 8 is the last; 0 to 12, and so up to 21, where 20 is the last; then 4 to 16
    (UP, 15, 4, (0, 20), (0, GREATEST - 3), (0, 12)),
    // 0 and 4, and so up to 10; then 4 to 8
    (UP, 5, 4, (0, 8), (0, GREATEST - 3), (0, 4)),
    // as the first, and then from 20 to 24, which is past the last
    (UP, 30, 4, (0, GREATEST - 3), (0, GREATEST - 3), (0, 28)),
    // 0 and -4, and so down to -10, where -8 is the first; -12, and so down to -21, where -20 is the first; then -16
    (DOWN, 15, 4, (-20, 0), (LEAST, 0), (-12, 0)),
];

#[test]
fn strides_step_twice(rt: HostRuntime) -> Result<(), Fail> {
    for row in STRIDES {
        assert!(rt;
            climbs::<StrideLeaf>(rt.alloc(), row)?,
            "{} {}",
            row.1,
            row.2
        );
    }
    Ok(())
}

/// Whether `x` may be this number at the head of the loop.
fn may_be(alloc: Global, places: &PlaceLeaves<StrideLeaf>, n: i64) -> Result<bool, NoMemory>
    requires { IsInt n }
{
    let Some(head) = places.items().iter().find(|it| it.place.line == 3) else {
        return Ok(false);
    };
    if head.leaf.variables() == 0 {
        return Ok(false);
    }
    let single = Range { low: n, high: n };
    Ok(!head.leaf.meet_range(alloc, 0, single)?.is_nothing())
}

/// Some numbers, and whether each is one of the loop's: the multiples of 4 from 0 to 20.
const ASKED: [(i64, bool); 9] = [
    (-4, false),
    (0, true),
    (1, false),
    (4, true),
    (10, false),
    (18, false),
    (20, true),
    (21, false),
    (24, false),
];

#[test]
fn steps_keep_strides(rt: HostRuntime) -> Result<(), Fail> {
    let alloc = rt.alloc();
    let turn = Turn {
        op: Op::Lt,
        step: Op::Add,
        limit: 15,
        by: 4,
    };
    let program = climbing(alloc, turn)?;
    let start = StrideLeaf::start(alloc, program.start.items())?;
    let places = leaves_of(alloc, &program, &start, thresholds(alloc)?)?;
    for (n, is_one) in ASKED {
        assert_eq!(rt; may_be(alloc, &places, n)?, is_one, "{n}");
    }
    Ok(())
}

/// `while (x < 10) x = x + 2;` in line 3, and the end in line 4.
fn counting(alloc: Global) -> Result<Program, NoMemory>
    ensures program { IfOk result (λ p. IsProgram (whole p)) }
    ensures plain { IfOk result (λ p. IsPlainProgram (whole p)) }
{
    let step = Stmt::Assign {
        place: at(3, 16),
        target: 0,
        value: binary(alloc, Op::Add, Expr::Var(0), Expr::Number(2))?,
    };
    let turning = Stmt::While {
        place: at(3, 1),
        test: binary(alloc, Op::Lt, Expr::Var(0), Expr::Number(10))?,
        step: Vec::new(alloc),
        body: one(alloc, step)?,
    };
    Ok(Program {
        names: names(alloc)?,
        start: starts(alloc)?,
        declared: Declarations::from_vec(Vec::new(alloc)),
        body: one(alloc, turning)?,
        end: at(4, 1),
    })
}

/// Whether the bounds of `x` at the head of the loop that counts by 2 and behind it are these, with thresholds and without.
fn counts<L: Leaf>(alloc: Global, head: (i64, i64), behind: (i64, i64)) -> Result<bool, NoMemory> {
    let program = counting(alloc)?;
    let start = L::start(alloc, program.start.items())?;
    if start.variables() as usize != program.names.items().len() {
        return Ok(false);
    }
    let stepped = leaves_of(alloc, &program, &start, thresholds(alloc)?)?;
    let plain = leaves_of(alloc, &program, &start, Thresholds::none(alloc))?;
    Ok(
        has_bounds(stepped.items(), 3, head)
            && has_bounds(stepped.items(), 4, behind)
            && has_bounds(plain.items(), 3, head)
            && has_bounds(plain.items(), 4, behind),
    )
}

// each way through the loop bounds `x`, so that narrowing takes back all that widening gave up. To thresholds `x` goes from 0 to
// 2, and so 10; then to 11, and so 21; then it is at most 11. By strides 10 is the last already.
#[test]
fn narrowing_takes_steps_back(rt: HostRuntime) -> Result<(), Fail> {
    let alloc = rt.alloc();
    assert!(rt; counts::<IntervalLeaf>(alloc, (0, 11), (10, 11))?);
    assert!(rt; counts::<OctagonLeaf>(alloc, (0, 11), (10, 11))?);
    assert!(rt; counts::<StrideLeaf>(alloc, (0, 10), (10, 10))?);
    Ok(())
}

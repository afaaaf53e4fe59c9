//! Loops in which octagons of two variables step to thresholds: the ranges of a sum and of a difference, compared with ranges that
//! were found by hand.

ghost use Rattle.std.specs.Prelude.{◌≡◌, ◌≤ℤ◌, IfOk, pos, length, [], ◌∷◌};
ghost use Rattle.c_tree.specs.declared.tree.Op.TheVariants as op;
ghost use Rattle.c_tree.specs.Tree.{Binary, Var, Number};
ghost use Rattle.c_tree.specs.Value.{greatest};
ghost use Rattle.c_tree.specs.View.{term, code, whole};
ghost use Rattle.c_tree.specs.Whole.{IsProgram, IsPlainProgram};
ghost use Rattle.analysis_tests.specs.Loops.{paired};

use crate::families::both;
use crate::small_programs::{at, binary};
use crate::threshold_programs::{DOWN, GREATEST, LEAST, Turn, UP, leaves_of, looping, thresholds};
use c_tree::{Declarations, Expr, Mode, Names, Op, Program, Stmt};
use fam_outer::{NoMemory, Text, Values};
use leaf_domain::{Leaf, Thresholds, raw_of};
use octagon_leaf::OctagonLeaf;
use plain_analysis::PlaceLeaves;
use std::alloc::Global;
use std::test::Fail;

/// `x`, `y` and `t`.
fn names(alloc: Global) -> Result<Names, NoMemory>
    ensures { IfOk result (λ made. length made ≡ 3) }
{
    let mut list = Vec::new(alloc);
    list.push(Text::from_bytes(alloc, b"x")?)?;
    list.push(Text::from_bytes(alloc, b"y")?)?;
    list.push(Text::from_bytes(alloc, b"t")?)?;
    Ok(Names::from_vec(list))
}

/// 0 for each.
fn starts(alloc: Global) -> Result<Values, NoMemory>
    ensures { IfOk result (λ made. made ≡ pos 0 ∷ pos 0 ∷ pos 0 ∷ []) }
{
    let mut list = Vec::new(alloc);
    list.push(0)?;
    list.push(0)?;
    list.push(0)?;
    Ok(Values::from_vec(list))
}

/// `0 <= y && y <= 1000`.
fn small(alloc: Global) -> Result<Expr, NoMemory>
    ensures { IfOk result (λ e. term e
        ≡ Binary op.And (Binary op.Le (Number (pos 0)) (Var 1)) (Binary op.Le (Var 1) (Number (pos 1000)))) }
{
    let low = binary(alloc, Op::Le, Expr::Number(0), Expr::Var(1))?;
    let high = binary(alloc, Op::Le, Expr::Var(1), Expr::Number(1000))?;
    binary(alloc, Op::And, low, high)
}

/// `y = input();`, `assert(0 <= y && y <= 1000);` and `x = 0 START y;` in the lines 3 to 5.
fn pairing(alloc: Global, start: Op) -> Result<Vec<Stmt>, NoMemory>
    ensures { IfOk result (λ made. code made.items ≡ paired start) }
{
    let value = binary(alloc, start, Expr::Number(0), Expr::Var(1))?;
    let mut list = Vec::new(alloc);
    list.push(Stmt::Input {
        place: at(3, 1),
        target: 1,
    })?;
    list.push(Stmt::Assert {
        place: at(4, 1),
        test: small(alloc)?,
    })?;
    list.push(Stmt::Assign {
        place: at(5, 1),
        target: 0,
        value,
    })?;
    Ok(list)
}

/// What is done to both variables before the loop: `x = 0 START y;`, and in the loop: `x FORM y`.
#[derive(Clone, Copy)]
struct Pair {
    start: Op,
    form: Op,
}

/// `y = input();`, `assert(0 <= y && y <= 1000);` and `x = 0 START y;` in the lines 3 to 5, and
/// `while (t < 3) { t = input(); if (x FORM y OP 0 STEP LIMIT) x = x STEP BY; }` in the lines 6 to 9.
fn drifting(alloc: Global, pair: Pair, turn: Turn) -> Result<Program, NoMemory>
    requires limit_positive { pos 0 ≤ℤ turn.limit }
    requires limit { turn.limit ≤ℤ greatest }
    requires by_positive { pos 0 ≤ℤ turn.by }
    requires by { turn.by ≤ℤ greatest }
    ensures program { IfOk result (λ p. IsProgram (whole p)) }
    ensures plain { IfOk result (λ p. IsPlainProgram (whole p)) }
{
    let form = binary(alloc, pair.form, Expr::Var(0), Expr::Var(1))?;
    Ok(Program {
        names: names(alloc)?,
        start: starts(alloc)?,
        declared: Declarations::from_vec(Vec::new(alloc)),
        body: both(
            pairing(alloc, pair.start)?,
            looping(alloc, 6, 2, form, turn)?,
        )?,
        end: at(10, 1),
    })
}

/// The range of `x FORM y` at the first place in a line, before what overflows is left out.
fn range_at(
    alloc: Global,
    places: &PlaceLeaves<OctagonLeaf>,
    line: u32,
    op: Op,
) -> Result<Option<(i64, i64)>, NoMemory> {
    let both = binary(alloc, op, Expr::Var(0), Expr::Var(1))?;
    let Some(found) = places.items().iter().find(|it| it.place.line == line) else {
        return Ok(None);
    };
    if found.leaf.variables() != 3 {
        return Ok(None);
    }
    let range = raw_of(alloc, &found.leaf, &both, Mode::Stop)?;
    Ok(Some((range.low, range.high)))
}

/// Whether `x FORM y` has this range at the head of the loop and behind it, and that where `x` is moved.
fn is_as(
    alloc: Global,
    places: &PlaceLeaves<OctagonLeaf>,
    op: Op,
    head: (i64, i64),
    moved: (i64, i64),
) -> Result<bool, NoMemory> {
    Ok(
        range_at(alloc, places, 6, op)? == Some(head)
            && range_at(alloc, places, 9, op)? == Some(moved)
            && range_at(alloc, places, 10, op)? == Some(head),
    )
}

/// `x` starts as `y`, and their difference is moved; it starts as `-y`, and their sum is moved.
const DIFFERENCE: (Op, Op) = (Op::Add, Op::Sub);

const SUM: (Op, Op) = (Op::Sub, Op::Add);

/// How `x` starts and is moved by 1, with the limit; the range of the form at the head with thresholds and without, and that where
/// `x` is moved.
type Row = ((Op, Op), (Op, Op), i64, (i64, i64), (i64, i64), (i64, i64));

/// An entry of two variables steps to a threshold, upward and downward alike: the low of `x - y` is the entry of `y - x`.
const DRIFTS: [Row; 5] = [
    // from 0 to 1, and so 10; to 11, and so 21; then to 15. Without thresholds `x` is any number from 0 on, and `y` at least 0.
    (DIFFERENCE, UP, 15, (0, 21), (0, GREATEST), (0, 14)),
    // from 21 to 22, which is past the last
    (DIFFERENCE, UP, 30, (0, GREATEST), (0, GREATEST), (0, 29)),
    // `y - x` to 1, and so 10; to 11, and so 21; then to 15. Without thresholds `x` is any number, and `y` at most 1000.
    (DIFFERENCE, DOWN, 15, (-21, 0), (LEAST - 1000, 0), (-14, 0)),
    (SUM, UP, 15, (0, 21), (0, GREATEST + 1000), (0, 14)),
    (SUM, DOWN, 15, (-21, 0), (LEAST, 0), (-14, 0)),
];

/// Whether octagons have what a row says.
fn drifts(alloc: Global, row: Row) -> Result<bool, NoMemory>
    requires limit_positive { pos 0 ≤ℤ row.2 }
    requires limit { row.2 ≤ℤ greatest }
{
    let ((start, form), (op, step), limit, with, without, moved) = row;
    let turn = Turn {
        op,
        step,
        limit,
        by: 1,
    };
    let program = drifting(alloc, Pair { start, form }, turn)?;
    let start = OctagonLeaf::start(alloc, program.start.items())?;
    let stepped = leaves_of(alloc, &program, &start, thresholds(alloc)?)?;
    let plain = leaves_of(alloc, &program, &start, Thresholds::none(alloc))?;
    Ok(is_as(alloc, &stepped, form, with, moved)? && is_as(alloc, &plain, form, without, moved)?)
}

#[test]
fn octagons_of_two_variables_step_twice(rt: HostRuntime) -> Result<(), Fail> {
    for row in DRIFTS {
        assert!(rt; drifts(rt.alloc(), row)?, "{}", row.2);
    }
    Ok(())
}

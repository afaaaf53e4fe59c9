//! The thresholds of small programs, compared with lists that were found by hand.

use c_tree::{Declarations, Declared, Expr, Guards, Names, Op, Program, Stmt};
use fam_outer::{NoMemory, Place, Values};
use leaf_domain::{Multiple, Thresholds};
use loop_thresholds::thresholds_of;
use std::alloc::Global;
use std::test::Fail;

fn place() -> Place {
    Place { line: 1, column: 1 }
}

fn program(alloc: Global, start: &[i64], body: Vec<Stmt>) -> Result<Program, NoMemory> {
    Ok(Program {
        names: Names::from_vec(Vec::new(alloc)),
        start: Values::from_vec(Vec::from_slice(alloc, start)?),
        declared: Declarations::from_vec(Vec::new(alloc)),
        body,
        end: place(),
    })
}

fn one(alloc: Global, s: Stmt) -> Result<Vec<Stmt>, NoMemory> {
    let mut list = Vec::new(alloc);
    list.push(s)?;
    Ok(list)
}

/// Whether these are the thresholds, from the least on.
fn are(thresholds: &Thresholds, numbers: &[i64]) -> bool {
    let mut bound = i64::MIN;
    for number in numbers {
        if thresholds.nearest(Multiple::One, i64::MAX, bound) != *number {
            return false;
        }
        bound = number.saturating_add(1);
    }
    thresholds.nearest(Multiple::One, i64::MAX, bound) == i64::MAX
        && thresholds.count() as usize == numbers.len()
}

fn are_of_starts(alloc: Global, start: &[i64], numbers: &[i64]) -> Result<bool, NoMemory> {
    let program = program(alloc, start, Vec::new(alloc))?;
    Ok(are(&thresholds_of(alloc, &program)?, numbers))
}

#[test]
fn start_values(rt: HostRuntime) -> Result<(), Fail> {
    let table: [(&[i64], &[i64]); 5] = [
        (&[], &[]),
        (&[0], &[-1, 0, 1]),
        (&[5, -5, 5, 4], &[-6, -5, -4, 3, 4, 5, 6]),
        (&[2147483647], &[2147483646, 2147483647]),
        (&[-2147483648], &[-2147483648, -2147483647]),
    ];
    for (start, numbers) in table {
        let is_right = are_of_starts(rt.alloc(), start, numbers).map_err(|_| "memory")?;
        assert!(rt; is_right);
    }
    Ok(())
}

// 0, which has 3 candidates, and 30 numbers far apart: the 64th is the first of 109 and -109
#[test]
fn the_nearest_of_many(rt: HostRuntime) -> Result<(), Fail> {
    let start = [
        150, -150, 140, -140, 130, -130, 120, -120, 110, -110, 100, -100, 90, -90, 80, -80, 70,
        -70, 60, -60, 50, -50, 40, -40, 30, -30, 20, -20, 10, -10, 0,
    ];
    let nearest = [
        -109, -101, -100, -99, -91, -90, -89, -81, -80, -79, -71, -70, -69, -61, -60, -59, -51,
        -50, -49, -41, -40, -39, -31, -30, -29, -21, -20, -19, -11, -10, -9, -1, 0, 1, 9, 10, 11,
        19, 20, 21, 29, 30, 31, 39, 40, 41, 49, 50, 51, 59, 60, 61, 69, 70, 71, 79, 80, 81, 89, 90,
        91, 99, 100, 101,
    ];
    let is_right = are_of_starts(rt.alloc(), &start, &nearest).map_err(|_| "memory")?;
    assert!(rt; is_right);
    Ok(())
}

fn boxed(alloc: Global, e: Expr) -> Result<Box<Expr>, NoMemory> {
    Ok(Box::new(alloc, e)?)
}

fn sum(alloc: Global, a: Expr, b: Expr) -> Result<Expr, NoMemory> {
    Ok(Expr::Binary(Op::Add, boxed(alloc, a)?, boxed(alloc, b)?))
}

fn are_of_test(alloc: Global, test: Expr, numbers: &[i64]) -> Result<bool, NoMemory> {
    let body = one(
        alloc,
        Stmt::Assert {
            place: place(),
            test,
        },
    )?;
    let program = program(alloc, &[0], body)?;
    Ok(are(&thresholds_of(alloc, &program)?, numbers))
}

/// `3 + 4`, `-7`, `-(-7)`, `-(x + 7)` and `!7`, each with the start value 0.
fn are_of_tests(alloc: Global) -> Result<bool, NoMemory> {
    let sums = are_of_test(
        alloc,
        sum(alloc, Expr::Number(3), Expr::Number(4))?,
        &[-1, 0, 1, 2, 3, 4, 5],
    )?;
    let minus = Expr::Neg(boxed(alloc, Expr::Number(7))?);
    let negative = are_of_test(alloc, minus, &[-8, -7, -6, -1, 0, 1])?;
    let minus = Expr::Neg(boxed(alloc, Expr::Number(7))?);
    let twice = Expr::Neg(boxed(alloc, minus)?);
    let inner = are_of_test(alloc, twice, &[-8, -7, -6, -1, 0, 1])?;
    let minus = Expr::Neg(boxed(alloc, sum(alloc, Expr::Var(0), Expr::Number(7))?)?);
    let outer = are_of_test(alloc, minus, &[-1, 0, 1, 6, 7, 8])?;
    let not = Expr::Not(boxed(alloc, Expr::Number(7))?);
    let nots = are_of_test(alloc, not, &[-1, 0, 1, 6, 7, 8])?;
    Ok(sums && negative && inner && outer && nots)
}

#[test]
fn expressions(rt: HostRuntime) -> Result<(), Fail> {
    let is_right = are_of_tests(rt.alloc()).map_err(|_| "memory")?;
    assert!(rt; is_right);
    Ok(())
}

fn set(alloc: Global, n: i64) -> Result<Vec<Stmt>, NoMemory> {
    one(
        alloc,
        Stmt::Assign {
            place: place(),
            target: 0,
            value: Expr::Number(n),
        },
    )
}

/// `while (10) {` with a choice of `x = 20;` and `x = 30;` in a block, and then `if (40) x = 50; else x = 60;`, where a declarator
/// has the start value 70.
fn nested(alloc: Global) -> Result<Program, NoMemory> {
    let choice = Stmt::Cond {
        number: 0,
        yes: set(alloc, 20)?,
        no: set(alloc, 30)?,
    };
    let block = Stmt::Block {
        place: place(),
        body: one(alloc, choice)?,
    };
    let mut body = one(
        alloc,
        Stmt::While {
            place: place(),
            test: Expr::Number(10),
            step: Vec::new(alloc),
            body: one(alloc, block)?,
        },
    )?;
    body.push(Stmt::If {
        place: place(),
        test: Expr::Number(40),
        yes: set(alloc, 50)?,
        no: set(alloc, 60)?,
    })?;
    let mut made = program(alloc, &[], body)?;
    let mut declared = Vec::new(alloc);
    declared.push(Declared {
        target: 0,
        value: 70,
        guards: Guards::from_vec(Vec::new(alloc)),
    })?;
    made.declared = Declarations::from_vec(declared);
    Ok(made)
}

#[test]
fn statements(rt: HostRuntime) -> Result<(), Fail> {
    let program = nested(rt.alloc()).map_err(|_| "memory")?;
    let thresholds = thresholds_of(rt.alloc(), &program).map_err(|_| "memory")?;
    let numbers = [
        9, 10, 11, 19, 20, 21, 29, 30, 31, 39, 40, 41, 49, 50, 51, 59, 60, 61, 69, 70, 71,
    ];
    assert!(rt; are(&thresholds, &numbers));
    Ok(())
}

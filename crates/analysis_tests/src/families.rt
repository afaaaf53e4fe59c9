//! Families made by hand, over three conditions and the variables `a` and `b`.

ghost use Rattle.std.specs.Prelude.{◌≡◌, ◌+◌, ◌<◌, length, IfOk, [], ◌∷◌, pos, true};
ghost use Rattle.c_tree.specs.declared.tree.Op.TheVariants as op;
ghost use Rattle.c_tree.specs.Tree.{followed, Done, Assign, Assert, If, While, Cond, Binary, Var, Number};
ghost use Rattle.c_tree.specs.View.{term, code, whole};
ghost use Rattle.c_tree.specs.Whole.{IsProgram};
ghost use Rattle.c_tree.specs.Project.{IsConditioned};
ghost use Rattle.analysis_tests.specs.Families.{outer_loop, rest_of_body, unsteady_loop, spread_body, restarted_loops};

use crate::small_programs::binary;
use c_tree::{Declarations, Declared, Expr, Guard, Guards, Names, Op, Program, Stmt};
use fam_outer::{NoMemory, Place, Text, Values};
use std::alloc::Global;

pub(crate) fn at(line: u32) -> Place
    ensures { result ≡ record { line = line; column = 1 } }
{
    Place { line, column: 1 }
}

/// The sum of a variable and a number.
fn sum(alloc: Global, x: u32, n: i64) -> Result<Expr, NoMemory>
    ensures { IfOk result (λ e. term e ≡ Binary op.Add (Var x) (Number n)) }
{
    binary(alloc, Op::Add, Expr::Var(x), Expr::Number(n))
}

/// Whether a variable is less than a number.
pub(crate) fn less(alloc: Global, x: u32, n: i64) -> Result<Expr, NoMemory>
    ensures { IfOk result (λ e. term e ≡ Binary op.Lt (Var x) (Number n)) }
{
    binary(alloc, Op::Lt, Expr::Var(x), Expr::Number(n))
}

/// A list of one statement.
pub(crate) fn one(alloc: Global, s: Stmt) -> Result<Vec<Stmt>, NoMemory>
    ensures { IfOk result (λ made. made.items ≡ s ∷ []) }
{
    let mut list = Vec::new(alloc);
    list.push(s)?;
    Ok(list)
}

/// `x = x + n;`, alone.
fn grown(alloc: Global, line: u32, x: u32, n: i64) -> Result<Vec<Stmt>, NoMemory>
    ensures { IfOk result (λ made. code made.items
        ≡ Assign (record { line = line; column = 1 }) x (Binary op.Add (Var x) (Number n)) Done) }
{
    let value = sum(alloc, x, n)?;
    one(
        alloc,
        Stmt::Assign {
            place: at(line),
            target: x,
            value,
        },
    )
}

/// `while (x < n) x = x + 1;` in two lines, alone.
pub(crate) fn counted(alloc: Global, line: u32, x: u32, n: i64) -> Result<Vec<Stmt>, NoMemory>
    requires { line < 1000 }
    ensures { IfOk result (λ made. code made.items
        ≡ While (record { line = line; column = 1 }) (Binary op.Lt (Var x) (Number n)) Done
        (Assign (record { line = line + 1; column = 1 }) x (Binary op.Add (Var x) (Number (pos 1))) Done) Done) }
{
    let test = less(alloc, x, n)?;
    let body = grown(alloc, line + 1, x, 1)?;
    one(
        alloc,
        Stmt::While {
            place: at(line),
            test,
            step: Vec::new(alloc),
            body,
        },
    )
}

/// A declarator of `a` under condition 0.
fn declared(alloc: Global, value: i64) -> Result<Declarations, NoMemory>
    ensures { IfOk result (λ made. made
        ≡ record { target = 0; value = value; guards = record { number = 0; positive = true } ∷ [] } ∷ []) }
{
    let mut guards = Vec::new(alloc);
    guards.push(Guard {
        number: 0,
        positive: true,
    })?;
    let mut list = Vec::new(alloc);
    list.push(Declared {
        target: 0,
        value,
        guards: Guards::from_vec(guards),
    })?;
    Ok(Declarations::from_vec(list))
}

/// A section of groups, alone.
pub(crate) fn section(
    alloc: Global,
    number: u32,
    yes: Vec<Stmt>,
    no: Vec<Stmt>,
) -> Result<Vec<Stmt>, NoMemory>
    ensures { IfOk result (λ made. code made.items ≡ Cond number (code yes.items) (code no.items) Done) }
{
    one(alloc, Stmt::Cond { number, yes, no })
}

/// A list and then another.
#[tactic(auto, using(crate::proofs::Lists::code_append))]
pub(crate) fn both(mut first: Vec<Stmt>, second: Vec<Stmt>) -> Result<Vec<Stmt>, NoMemory>
    ensures { IfOk result (λ made. code made.items ≡ followed (code first.items) (code second.items)) }
{
    let mut rest = second;
    first.append(&mut rest)?;
    Ok(first)
}

/// `while (a < 10) { .. }` in line 10: `a` grows by 1 in a variant with condition 1 and by 2 in others, and in a variant with
/// condition 2 there is a loop over `b` in it.
fn outer(alloc: Global) -> Result<Vec<Stmt>, NoMemory>
    ensures { IfOk result (λ made. code made.items ≡ outer_loop) }
{
    let steps = section(alloc, 1, grown(alloc, 11, 0, 1)?, grown(alloc, 12, 0, 2)?)?;
    let inner = section(alloc, 2, counted(alloc, 13, 1, 5)?, Vec::new(alloc))?;
    let body = both(steps, inner)?;
    let test = less(alloc, 0, 10)?;
    one(
        alloc,
        Stmt::While {
            place: at(10),
            test,
            step: Vec::new(alloc),
            body,
        },
    )
}

/// A loop in a group in a group, and in another variant an assignment, in the lines 20 to 25; `if (a < 4) assert(b < 6);` in the
/// lines 30 and 31.
fn rest(alloc: Global) -> Result<Vec<Stmt>, NoMemory>
    ensures { IfOk result (λ made. code made.items ≡ rest_of_body) }
{
    let nested = section(alloc, 1, counted(alloc, 20, 1, 7)?, Vec::new(alloc))?;
    let groups = section(alloc, 0, nested, grown(alloc, 25, 1, 3)?)?;
    let test = less(alloc, 0, 4)?;
    let claim = less(alloc, 1, 6)?;
    let yes = one(
        alloc,
        Stmt::Assert {
            place: at(31),
            test: claim,
        },
    )?;
    let choice = one(
        alloc,
        Stmt::If {
            place: at(30),
            test,
            yes,
            no: Vec::new(alloc),
        },
    )?;
    both(groups, choice)
}

/// `x = value;`, alone.
pub(crate) fn set(alloc: Global, line: u32, x: u32, value: Expr) -> Result<Vec<Stmt>, NoMemory>
    ensures { IfOk result (λ made. code made.items
        ≡ Assign (record { line = line; column = 1 }) x (term value) Done) }
{
    one(
        alloc,
        Stmt::Assign {
            place: at(line),
            target: x,
            value,
        },
    )
}

/// `while (a < 3) { if (b < a) b = 3; a = b + 2; }` in the lines 12 to 15.
fn restless(alloc: Global) -> Result<Vec<Stmt>, NoMemory>
    ensures { IfOk result (λ made. code made.items
        ≡ While (record { line = 12; column = 1 }) (Binary op.Lt (Var 0) (Number (pos 3))) Done
        (If (record { line = 13; column = 1 }) (Binary op.Lt (Var 1) (Var 0)) (Assign (record { line = 14; column = 1 }) 1 (Number (pos 3)) Done) Done
        (Assign (record { line = 15; column = 1 }) 0 (Binary op.Add (Var 1) (Number (pos 2))) Done)) Done) }
{
    let choice = one(
        alloc,
        Stmt::If {
            place: at(13),
            test: binary(alloc, Op::Lt, Expr::Var(1), Expr::Var(0))?,
            yes: set(alloc, 14, 1, Expr::Number(3))?,
            no: Vec::new(alloc),
        },
    )?;
    let body = both(choice, set(alloc, 15, 0, sum(alloc, 1, 2)?)?)?;
    let test = less(alloc, 0, 3)?;
    one(
        alloc,
        Stmt::While {
            place: at(12),
            test,
            step: Vec::new(alloc),
            body,
        },
    )
}

/// `while (b < 5) { .. }` in line 10. With condition 0 there is a loop in it that makes the leaf at its head, narrowed, one that
/// what comes in is not below; with condition 1 alone `b` grows by 1, and with none nothing moves.
fn unsteady(alloc: Global) -> Result<Vec<Stmt>, NoMemory>
    ensures { IfOk result (λ made. code made.items ≡ unsteady_loop) }
{
    let less_one = binary(alloc, Op::Sub, Expr::Var(1), Expr::Number(1))?;
    let yes = both(set(alloc, 11, 1, less_one)?, restless(alloc)?)?;
    let no = section(alloc, 1, grown(alloc, 16, 1, 1)?, Vec::new(alloc))?;
    let body = section(alloc, 0, yes, no)?;
    let test = less(alloc, 1, 5)?;
    one(
        alloc,
        Stmt::While {
            place: at(10),
            test,
            step: Vec::new(alloc),
            body,
        },
    )
}

/// `assert(a == n);`, alone.
fn claimed(alloc: Global, line: u32, n: i64) -> Result<Vec<Stmt>, NoMemory>
    ensures { IfOk result (λ made. code made.items
        ≡ Assert (record { line = line; column = 1 }) (Binary op.Eq (Var 0) (Number n)) Done) }
{
    let test = binary(alloc, Op::Eq, Expr::Var(0), Expr::Number(n))?;
    one(
        alloc,
        Stmt::Assert {
            place: at(line),
            test,
        },
    )
}

/// `while (b < 10) { .. } assert(a == 0);` in the lines 4 to 12: `b` counts, and with it `a`, but in a variant with condition 0.
fn spread(alloc: Global) -> Result<Vec<Stmt>, NoMemory>
    ensures { IfOk result (λ made. code made.items ≡ spread_body) }
{
    let groups = section(
        alloc,
        0,
        set(alloc, 7, 0, Expr::Var(0))?,
        grown(alloc, 9, 0, 1)?,
    )?;
    let body = both(grown(alloc, 5, 1, 1)?, groups)?;
    let test = less(alloc, 1, 10)?;
    let loops = one(
        alloc,
        Stmt::While {
            place: at(4),
            test,
            step: Vec::new(alloc),
            body,
        },
    )?;
    both(loops, claimed(alloc, 12, 0)?)
}

/// A program of the variables `a` and `b`, which start with 0.
pub(crate) fn over_two(
    alloc: Global,
    declared: Declarations,
    body: Vec<Stmt>,
    end: u32,
) -> Result<Program, NoMemory>
    ensures { IfOk result (λ made. whole made
        ≡ record {
          names = (97 ∷ []) ∷ ((98 ∷ []) ∷ []);
          start = pos 0
              ∷ (pos 0 ∷ []);
          declared = declared;
          body = code body.items;
          end = record { line = end; column = 1 };
        }) }
{
    let mut names = Vec::new(alloc);
    names.push(Text::from_bytes(alloc, b"a")?)?;
    names.push(Text::from_bytes(alloc, b"b")?)?;
    let mut start = Vec::new(alloc);
    start.push(0)?;
    start.push(0)?;
    Ok(Program {
        names: Names::from_vec(names),
        start: Values::from_vec(start),
        declared,
        body,
        end: at(end),
    })
}

/// A family of one loop, in which one variant's candidate is refused where another's is taken, and a third does not move.
pub(crate) fn unsteady_family(alloc: Global) -> Result<Program, NoMemory>
    ensures program { IfOk result (λ made. IsProgram (whole made)) }
    ensures conditions { IfOk result (λ made. IsConditioned 3 (whole made)) }
{
    let body = unsteady(alloc)?;
    over_two(alloc, Declarations::from_vec(Vec::new(alloc)), body, 40)
}

/// A family of one loop, in which `a` grows in one of two variants.
pub(crate) fn spread_family(alloc: Global) -> Result<Program, NoMemory>
    ensures program { IfOk result (λ made. IsProgram (whole made)) }
    ensures conditions { IfOk result (λ made. IsConditioned 1 (whole made)) }
{
    let body = spread(alloc)?;
    over_two(alloc, Declarations::from_vec(Vec::new(alloc)), body, 13)
}

/// A family without a loop, in which `a` starts with 1 with condition 0, and `assert(a == 1);` stands in line 7.
pub(crate) fn declared_family(alloc: Global) -> Result<Program, NoMemory>
    ensures program { IfOk result (λ made. IsProgram (whole made)) }
    ensures conditions { IfOk result (λ made. IsConditioned 1 (whole made)) }
{
    let declared = declared(alloc, 1)?;
    let body = claimed(alloc, 7, 1)?;
    over_two(alloc, declared, body, 8)
}

/// A family with both, of the variables `a` and `b`, which start with 0; with condition 0 `a` starts with 3.
pub(crate) fn family(alloc: Global) -> Result<Program, NoMemory>
    ensures program { IfOk result (λ made. IsProgram (whole made)) }
    ensures conditions { IfOk result (λ made. IsConditioned 3 (whole made)) }
{
    let declared = declared(alloc, 3)?;
    let body = both(outer(alloc)?, rest(alloc)?)?;
    over_two(alloc, declared, body, 40)
}

/// `while (a < 10) { a = input(); .. }`, 24 times in each other.
fn restarted(alloc: Global) -> Result<Vec<Stmt>, NoMemory>
    ensures { IfOk result (λ made. code made.items ≡ restarted_loops 24) }
{
    let mut body = Vec::new(alloc);
    for k in 0..24u32 {
        let input = one(
            alloc,
            Stmt::Input {
                place: at(48 - 2 * k),
                target: 0,
            },
        )?;
        let inner = both(input, body)?;
        let test = less(alloc, 0, 10)?;
        body = one(
            alloc,
            Stmt::While {
                place: at(47 - 2 * k),
                test,
                step: Vec::new(alloc),
                body: inner,
            },
        )?;
    }
    Ok(body)
}

/// A family of loops in each other in the variants with condition 0. In each round of a loop the next one is entered alike.
pub(crate) fn restarted_family(alloc: Global) -> Result<Program, NoMemory>
    ensures program { IfOk result (λ made. IsProgram (whole made)) }
    ensures conditions { IfOk result (λ made. IsConditioned 1 (whole made)) }
{
    let body = section(alloc, 0, restarted(alloc)?, Vec::new(alloc))?;
    over_two(alloc, Declarations::from_vec(Vec::new(alloc)), body, 49)
}

/// `while (b < 10) b = b + 1;` in the lines 4 and 5 in the variants with condition 0, and `assert(a == 0);` in line 8.
pub(crate) fn held_family(alloc: Global) -> Result<Program, NoMemory>
    ensures program { IfOk result (λ made. IsProgram (whole made)) }
    ensures conditions { IfOk result (λ made. IsConditioned 1 (whole made)) }
    ensures variables { IfOk result (λ made. length made.names ≡ 2) }
{
    let loops = section(alloc, 0, counted(alloc, 4, 1, 10)?, Vec::new(alloc))?;
    let body = both(loops, claimed(alloc, 8, 0)?)?;
    over_two(alloc, Declarations::from_vec(Vec::new(alloc)), body, 9)
}

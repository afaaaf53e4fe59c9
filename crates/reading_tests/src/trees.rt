//! Calls with ample memory, compared with lines and values found by hand.

ghost use Rattle.std.specs.Prelude.{◌≡◌, ◌<◌, IfOk, [], ◌∷◌, pos, true, false};
ghost use Rattle.c_tree.specs.Tree.{Done, Skip, Cond};
ghost use Rattle.c_tree.specs.View.{code, whole};
ghost use Rattle.c_tree.specs.Whole.{IsProgram};
ghost use Rattle.c_tree.specs.Project.{IsConditioned};

use c_tree::{
    Declarations, Declared, Guard, Guards, Names, Program, Stmt, places, project, start_values,
};
use fam_outer::{NoMemory, Place, Text, Values};
use std::alloc::Global;
use std::test::Fail;

fn at(line: u32) -> Place
    ensures { result ≡ record { line = line; column = 1 } }
{
    Place { line, column: 1 }
}

fn skip(line: u32) -> Stmt
    ensures { result ≡ Stmt.Skip (record { line = line; column = 1 }) }
{
    Stmt::Skip { place: at(line) }
}

/// A list of one statement.
fn one(alloc: Global, s: Stmt) -> Result<Vec<Stmt>, NoMemory>
    ensures { IfOk result (λ made. made.items ≡ s ∷ []) }
{
    let mut list = Vec::new(alloc);
    list.push(s)?;
    Ok(list)
}

/// A declarator of the only variable under one guard.
fn declared(alloc: Global, value: i64, number: u32, positive: bool) -> Result<Declared, NoMemory>
    ensures { IfOk result (λ made. made
        ≡ record {
          target = 0;
          value = value;
          guards = record { number = number; positive = positive }
              ∷ [];
        }) }
{
    let mut guards = Vec::new(alloc);
    guards.push(Guard { number, positive })?;
    Ok(Declared {
        target: 0,
        value,
        guards: Guards::from_vec(guards),
    })
}

/// The declarators of the only variable: 7 under condition 0, and later 8 where condition 1 is false.
fn declarations(alloc: Global) -> Result<Declarations, NoMemory>
    ensures { IfOk result (λ made. made ≡
        record { target = 0; value = pos 7; guards = record { number = 0; positive = true } ∷ [] }
        ∷ record { target = 0; value = pos 8; guards = record { number = 1; positive = false } ∷ [] } ∷ []) }
{
    let mut list = Vec::new(alloc);
    list.push(declared(alloc, 7, 0, true)?)?;
    list.push(declared(alloc, 8, 1, false)?)?;
    Ok(Declarations::from_vec(list))
}

/// Statements in lines 2 and 4, that of line 4 where condition 1 is true.
fn kept_side(alloc: Global) -> Result<Vec<Stmt>, NoMemory>
    ensures { IfOk result (λ made. code made.items
        ≡ Skip (record { line = 2; column = 1 })
        (Cond 1 (Skip (record { line = 4; column = 1 }) Done) Done Done)) }
{
    let mut list = one(alloc, skip(2))?;
    list.push(Stmt::Cond {
        number: 1,
        yes: one(alloc, skip(4))?,
        no: Vec::new(alloc),
    })?;
    Ok(list)
}

/// These statements where condition 0 is true, one in line 7 where it is false, and one in line 9.
fn body(alloc: Global) -> Result<Vec<Stmt>, NoMemory>
    ensures { IfOk result (λ made. code made.items ≡
        Cond 0 (Skip (record { line = 2; column = 1 }) (Cond 1 (Skip (record { line = 4; column = 1 }) Done) Done Done))
        (Skip (record { line = 7; column = 1 }) Done) (Skip (record { line = 9; column = 1 }) Done)) }
{
    let yes = kept_side(alloc)?;
    let no = one(alloc, skip(7))?;
    let mut list = one(alloc, Stmt::Cond { number: 0, yes, no })?;
    list.push(skip(9))?;
    Ok(list)
}

/// A family of one variable, with two conditions.
fn family(alloc: Global) -> Result<Program, NoMemory>
    ensures program { IfOk result (λ made. IsProgram (whole made)) }
    ensures conditions { IfOk result (λ made. IsConditioned 2 (whole made)) }
{
    let mut names = Vec::new(alloc);
    names.push(Text::from_bytes(alloc, b"x")?)?;
    let mut start = Vec::new(alloc);
    start.push(0)?;
    let declared = declarations(alloc)?;
    let body = body(alloc)?;
    Ok(Program {
        names: Names::from_vec(names),
        start: Values::from_vec(start),
        declared,
        body,
        end: at(10),
    })
}

fn lines(alloc: Global, program: &Program) -> Result<Vec<u32>, NoMemory> {
    let mut lines = Vec::new(alloc);
    for place in places(alloc, program)? {
        lines.push(place.line)?;
    }
    Ok(lines)
}

#[test]
fn families_are_projected(rt: HostRuntime) -> Result<(), Fail> {
    let family = family(rt.alloc())?;
    let copy = family.copy(rt.alloc())?;
    assert_eq!(rt;
        lines(rt.alloc(), &copy)?.as_slice(),
        [2, 4, 7, 9, 10].as_slice()
    );
    let cases: [([bool; 2], i64, &[u32]); 4] = [
        ([true, true], 7, &[2, 4, 9, 10]),
        ([true, false], 8, &[2, 9, 10]),
        ([false, true], 0, &[7, 9, 10]),
        ([false, false], 8, &[7, 9, 10]),
    ];
    for (truths, start, kept) in cases {
        let program = project(rt.alloc(), &family, &truths)?;
        assert_eq!(rt; program.start.items(), [start].as_slice());
        assert_eq!(rt; lines(rt.alloc(), &program)?.as_slice(), kept);
        assert!(rt; program.declared.items().is_empty());
    }
    Ok(())
}

#[test]
fn the_last_declarator_that_holds_gives_the_start_value(rt: HostRuntime) -> Result<(), Fail> {
    let declared = declarations(rt.alloc())?;
    let cases: [(&[bool], i64); 4] = [
        (&[true, true], 7),
        (&[true, false], 8),
        (&[false, true], 5),
        (&[], 8),
    ];
    for (truths, start) in cases {
        let made = start_values(rt.alloc(), &[5], declared.items(), truths)?;
        assert_eq!(rt; made.items(), [start].as_slice());
    }
    Ok(())
}

//! Files over a model of the Boolean features `A` and `B` with the constraint `A || B`.
//!
//! A file is written with one character for each item: a letter is a name; `0` and `1` are `#if A` and `#if B`, `2` and `3`
//! are `#elif A` and `#elif B`, `|` is `#else`, `.` is `#endif`, and `@` is `main`. An item's column is its position.
#![tactic(auto)]

ghost use Rattle.std.specs.Prelude.{◌≡◌, ◌<◌, ◌∷◌, [], length, IfOk};
ghost use Rattle.std.specs.List.{All};
ghost use Rattle.linear_atoms.specs.Atoms.{AreAtoms, AreRanges, IsAtom};
ghost use Rattle.cpp_conditions.specs.Propositions.{IsBelow};
ghost use Rattle.cpp_conditions.specs.Validity.{AreFit};
ghost use Rattle.cpp_conditions.specs.View.{formula};

use atom_solver::Prepared;
use c_grammar::{Item, Sign};
use cpp_conditions::{Condition, Conditions, Features, Formula, Model};
use fam_outer::{FileCode, NoMemory, Place, Text};
use family_names::{NameContext, first_name_fault};
use linear_atoms::{Atom, Feature, Linear};
use std::alloc::{AllocError, Global};
use std::process::Abort;
use std::test::Fail;

/// The names, each of one letter; `A` is a feature's.
const LETTERS: [u8; 18] = *b"xyAcdefghijklmnopq";

/// The test "the feature is on".
fn is_on(alloc: Global, number: u32) -> Result<Atom, Fail>
    requires number { number < 2 }
    ensures { IfOk result (λ made. IsAtom 2 made) }
{
    let form = Linear::feature(alloc, number)?;
    let terms = form.terms.copy(alloc)?;
    Ok(Atom { terms, bound: 1 })
}

fn atoms(alloc: Global) -> Result<Vec<Atom>, Fail>
    ensures two { IfOk result (λ made. length made.items ≡ 2) }
    ensures atoms { IfOk result (λ made. AreAtoms 2 made.items) }
{
    let first = is_on(alloc, 0)?;
    let second = is_on(alloc, 1)?;
    Ok(vec![in alloc; first, second]?)
}

fn conditions(alloc: Global) -> Result<Vec<Formula>, Fail>
    ensures { IfOk result (λ made. All (λ f. IsBelow 2 (formula f)) made.items) }
{
    Ok(vec![in alloc; Formula::Test(0), Formula::Test(1)]?)
}

fn switch(alloc: Global, name: &[u8]) -> Result<Feature, Fail>
    ensures { IfOk result (λ made. AreRanges (made ∷ [])) }
{
    Ok(Feature {
        name: Text::from_bytes(alloc, name)?,
        boolean: true,
        low: 0,
        high: 1,
    })
}

fn model(alloc: Global) -> Result<Model, Fail>
    ensures two { IfOk result (λ made. length made.features ≡ 2) }
    ensures ranges { IfOk result (λ made. AreRanges made.features) }
    ensures fit { IfOk result (λ made. AreFit 2 made.constraints) }
{
    let first = switch(alloc, b"A")?;
    let second = switch(alloc, b"B")?;
    let left = Box::new(alloc, Condition::Test(is_on(alloc, 0)?))?;
    let right = Box::new(alloc, Condition::Test(is_on(alloc, 1)?))?;
    Ok(Model {
        features: Features::from_vec(vec![in alloc; first, second]?),
        constraints: Conditions::from_vec(vec![in alloc; Condition::Or(left, right)]?),
    })
}

fn names(alloc: Global) -> Result<Vec<Text>, NoMemory> {
    let mut names = Vec::new(alloc);
    for letter in &LETTERS {
        names.push(Text::from_bytes(alloc, &[*letter])?)?;
    }
    Ok(names)
}

fn sign(byte: u8) -> Sign {
    match byte {
        b'0' => Sign::GroupIf(0),
        b'1' => Sign::GroupIf(1),
        b'2' => Sign::GroupElif(0),
        b'3' => Sign::GroupElif(1),
        b'|' => Sign::GroupElse,
        b'.' => Sign::GroupEnd,
        b'@' => Sign::Main,
        _ => match LETTERS.iter().position(|letter| *letter == byte) {
            Some(number) => Sign::Name(number as u32),
            None => Sign::Reserved,
        },
    }
}

fn items(alloc: Global, file: &[u8]) -> Result<Vec<Item>, NoMemory> {
    let mut items = Vec::new(alloc);
    let mut column: u32 = 1;
    for byte in file {
        items.push(Item {
            place: Place { line: 1, column },
            sign: sign(*byte),
        })?;
        column = column.saturating_add(1);
    }
    Ok(items)
}

fn fault(alloc: Global, file: &[u8]) -> Result<Option<(FileCode, Place)>, Fail> {
    let model = model(alloc)?;
    let atoms = atoms(alloc)?;
    let conditions = conditions(alloc)?;
    let names = names(alloc)?;
    let items = items(alloc, file)?;
    let prepared = Prepared::new(alloc, &model)?;
    let context = NameContext {
        model: &prepared,
        atoms: &atoms,
        conditions: &conditions,
        names: &names,
        functions: &[],
    };
    Ok(first_name_fault(alloc, &context, &items)?)
}

fn accepts(rt: &impl Abort, alloc: Global, file: &str) -> Result<(), Fail> {
    match fault(alloc, file.as_bytes())? {
        None => Ok(()),
        Some((code, _place)) => panic!(rt; "{file}: {code:?}"),
    }
}

/// The file is refused with the code at the column.
fn refuses(
    rt: &impl Abort,
    alloc: Global,
    file: &str,
    wanted: &str,
    column: u32,
) -> Result<(), Fail> {
    match fault(alloc, file.as_bytes())? {
        Some((code, place)) => {
            let shown = format!(in alloc; "{code:?}")?;
            assert_eq!(rt; shown.as_str(), wanted);
            assert_eq!(rt; place, Place { line: 1, column });
        }
        None => panic!(rt; "not refused: {file}"),
    }
    Ok(())
}

#[test]
fn names_without_a_fault(rt: HostRuntime) -> Result<(), Fail> {
    let files = [
        "@",
        "x@x",
        // declared on both sides, and once at each valid configuration
        "0x|x.@xxx",
        "0x3x.@x",
        // declared and used in the same groups
        "0x.@0x.",
        "0x3y.@0x3y.",
        "01x..@01x..",
        // no valid configuration keeps the use, or the second declaration
        "0x.@0|1|x..",
        "x0|1|x..@x",
        // 16 names, in 16 declarations and in 17
        "xycdefghijklmnop@",
        "0x|x.ycdefghijklmnop@",
    ];
    for file in files {
        accepts(&rt, rt.alloc(), file)?;
    }
    Ok(())
}

#[test]
fn names_with_a_fault(rt: HostRuntime) -> Result<(), Fail> {
    let neither = "Undeclared(None)";
    let without_a = "Undeclared(Some(Values { list: [0, 1] }))";
    let without_b = "Undeclared(Some(Values { list: [1, 0] }))";
    let cases = [
        // no declaration at all, or none at some configurations
        ("@x", neither, 2),
        ("0x.@y", neither, 5),
        ("0x.@x", without_a, 5),
        ("1x.@x", without_b, 5),
        ("0x3y.@y", without_b, 7),
        ("0x3y.@0y.", without_b, 8),
        ("0x.@0|x.", without_a, 7),
        ("0x.@03x.", without_a, 7),
        ("01x..@0x.", without_b, 8),
        ("0x.@0x.x", without_a, 8),
        // two declarations, without groups and with some
        ("xx@", "Twice(Some(Values { list: [0, 1] }))", 2),
        ("x0x.@", "Twice(Some(Values { list: [1, 0] }))", 3),
        ("0x.1x.@x", "Twice(Some(Values { list: [1, 1] }))", 5),
        // a feature's name
        ("A@", "FeatureInCode", 1),
        ("0A.@", "FeatureInCode", 2),
        ("x@A", "FeatureInCode", 3),
        // 17 names
        ("xycdefghijklmnopq@", "TooManyVariables", 17),
        ("0x|x.ycdefghijklmnopq@", "TooManyVariables", 21),
        // the first of two faults
        ("xxA@", "Twice(Some(Values { list: [0, 1] }))", 2),
        ("Axx@", "FeatureInCode", 1),
        ("@yA", neither, 2),
        ("@Ay", "FeatureInCode", 2),
    ];
    for (file, wanted, column) in cases {
        refuses(&rt, rt.alloc(), file, wanted, column)?;
    }
    Ok(())
}

/// A text and so many copies of another one behind it.
fn repeated(alloc: Global, front: &str, behind: &str, count: u32) -> Result<String, AllocError> {
    let mut text = String::new(alloc);
    text.push_str(front)?;
    for _ in 0..count {
        text.push_str(behind)?;
    }
    Ok(text)
}

#[test]
fn many_names(rt: HostRuntime) -> Result<(), Fail> {
    let alloc = rt.alloc();
    for (front, behind) in [("0x|x.@", "x"), ("0x.@", "0x."), ("0x|x.@", "0x3x|x.")] {
        let file = repeated(alloc, front, behind, 10_000)?;
        accepts(&rt, alloc, file.as_str())?;
        let more = repeated(alloc, file.as_str(), "y", 1)?;
        assert!(rt; fault(alloc, more.as_bytes())?.is_some());
    }
    Ok(())
}

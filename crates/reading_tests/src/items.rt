//! Lists of items, and the programs that they spell.
#![tactic(auto)]

ghost use Rattle.std.specs.Prelude.{◌≡◌, ◌<◌, [], IsTrue, IfOk, length};
ghost use Rattle.fam_outer.specs.Places.{is_before};
ghost use Rattle.c_grammar.specs.Facts.{AreFit, AreRising, IsBeforeItems, IsFit};

use c_grammar::{Item, Sign};
use c_tree::{Names, Op, Program};
use fam_outer::{NoMemory, Place, Text, cut};
use item_reader::{Unread, UnreadRefusal, read_items};
use std::alloc::{AllocError, Global};
use std::process::Abort;
use std::test::Fail;

fn is_earlier(first: Place, second: Place) -> bool
    ensures { result ≡ is_before first second }
{
    first.line < second.line || (first.line == second.line && first.column < second.column)
}

fn is_before_all(place: Place, items: &[Item]) -> bool
    ensures { IsTrue result → IsBeforeItems place items.now }
{
    match cut(items) {
        None => true,
        Some((item, rest)) => is_earlier(place, item.place) && is_before_all(place, rest),
    }
}

/// The places rise.
fn do_rise(items: &[Item]) -> bool
    ensures { IsTrue result → AreRising items.now }
{
    match cut(items) {
        None => true,
        Some((item, rest)) => is_before_all(item.place, rest) && do_rise(rest),
    }
}

fn is_fit(sign: Sign) -> bool
    ensures { IsTrue result → IsFit 2 sign }
{
    match sign {
        Sign::Number(n) => 0 <= n && n <= 2_147_483_647,
        Sign::Name(x) => x < 2,
        _ => true,
    }
}

/// The numbers are those of an `int`, and there are two names.
fn are_fit(items: &[Item]) -> bool
    ensures { IsTrue result → AreFit 2 items.now }
{
    match cut(items) {
        None => true,
        Some((item, rest)) => is_fit(item.sign) && are_fit(rest),
    }
}

/// The names `x` and `y`.
fn two_names(alloc: Global) -> Result<Names, NoMemory>
    ensures { IfOk result (λ names. length names ≡ 2) }
{
    let mut names = Vec::new(alloc);
    names.push(Text::from_bytes(alloc, b"x")?)?;
    names.push(Text::from_bytes(alloc, b"y")?)?;
    Ok(Names::from_vec(names))
}

/// Reads these signs, each in a line of its own.
pub(crate) fn read(
    rt: &impl Abort,
    alloc: Global,
    signs: &[Sign],
) -> Result<Program, UnreadRefusal> {
    let mut items = Vec::new(alloc);
    let mut line = 0u32;
    for sign in signs {
        line = line.saturating_add(1);
        let place = Place { line, column: 1 };
        items.push(Item { place, sign: *sign })?;
    }
    assert!(rt; do_rise(&items));
    assert!(rt; are_fit(&items));
    read_items(alloc, two_names(alloc)?, &items)
}

/// The start values, the declarators, the statements and the last brace of what is read.
fn shown(alloc: Global, program: &Program) -> Result<String, AllocError> {
    format!(in alloc;
        "{:?} {:?} {:?} {:?}",
        program.start, program.declared, program.body, program.end
    )
}

/// Signs that are read, and what they are read as.
fn accepts(rt: &impl Abort, alloc: Global, signs: &[Sign], wanted: &str) -> Result<(), Fail> {
    match read(rt, alloc, signs) {
        Ok(program) => {
            let text = shown(alloc, &program)?;
            assert_eq!(rt; text.as_str(), wanted);
        }
        Err(_) => panic!(rt; "not read"),
    }
    Ok(())
}

/// `int main() {`.
pub(crate) const HEAD: [Sign; 5] = [
    Sign::Int,
    Sign::Main,
    Sign::Open,
    Sign::Close,
    Sign::LeftBrace,
];

/// Adds these signs so many times.
pub(crate) fn add(signs: &mut Vec<Sign>, more: &[Sign], count: u32) -> Result<(), NoMemory> {
    for _ in 0..count {
        for sign in more {
            signs.push(*sign)?;
        }
    }
    Ok(())
}

#[test]
fn a_plain_program_is_read(rt: HostRuntime) -> Result<(), Fail> {
    let signs = [
        Sign::Int,
        Sign::Name(0),
        Sign::Equals,
        Sign::Oper(Op::Sub),
        Sign::Number(5),
        Sign::Comma,
        Sign::Name(1),
        Sign::Semicolon,
        Sign::Int,
        Sign::Main,
        Sign::Open,
        Sign::Void,
        Sign::Close,
        Sign::LeftBrace,
        Sign::Name(0),
        Sign::Equals,
        Sign::Name(0),
        Sign::Oper(Op::Sub),
        Sign::Name(1),
        Sign::Oper(Op::Sub),
        Sign::Number(1),
        Sign::Semicolon,
        Sign::If,
        Sign::Open,
        Sign::Name(0),
        Sign::Close,
        Sign::If,
        Sign::Open,
        Sign::Name(1),
        Sign::Close,
        Sign::Semicolon,
        Sign::Else,
        Sign::Name(0),
        Sign::MinusEquals,
        Sign::Number(2),
        Sign::Semicolon,
        Sign::Return,
        Sign::Number(0),
        Sign::Semicolon,
        Sign::RightBrace,
    ];
    accepts(
        &rt,
        rt.alloc(),
        &signs,
        "Values { list: [-5, 0] } Declarations { list: [] } [Assign { place: Place { line: 15, column: 1 }, target: 0, value: Binary(Sub, Binary(Sub, Var(0), Var(1)), Number(1)) }, If { place: Place { line: 23, column: 1 }, test: Var(0), yes: [If { place: Place { line: 27, column: 1 }, test: Var(1), yes: [Skip { place: Place { line: 31, column: 1 } }], no: [Assign { place: Place { line: 33, column: 1 }, target: 0, value: Binary(Sub, Var(0), Number(2)) }] }], no: [] }, Leave { place: Place { line: 37, column: 1 }, jump: Return(Number(0)) }] Place { line: 40, column: 1 }",
    )
}

#[test]
fn groups_are_read(rt: HostRuntime) -> Result<(), Fail> {
    let signs = [
        Sign::GroupIf(0),
        Sign::Int,
        Sign::Name(0),
        Sign::Equals,
        Sign::Number(1),
        Sign::Semicolon,
        Sign::GroupElif(1),
        Sign::Int,
        Sign::Name(0),
        Sign::Equals,
        Sign::Number(2),
        Sign::Semicolon,
        Sign::GroupEnd,
        Sign::Int,
        Sign::Name(1),
        Sign::Semicolon,
        Sign::Int,
        Sign::Main,
        Sign::Open,
        Sign::Close,
        Sign::LeftBrace,
        Sign::GroupIf(1),
        Sign::Name(1),
        Sign::Equals,
        Sign::Number(1),
        Sign::Semicolon,
        Sign::GroupElif(2),
        Sign::Name(1),
        Sign::Equals,
        Sign::Number(2),
        Sign::Semicolon,
        Sign::GroupElse,
        Sign::Name(1),
        Sign::Equals,
        Sign::Number(3),
        Sign::Semicolon,
        Sign::GroupEnd,
        Sign::RightBrace,
        Sign::GroupIf(3),
        Sign::GroupEnd,
    ];
    accepts(
        &rt,
        rt.alloc(),
        &signs,
        "Values { list: [0, 0] } Declarations { list: [Declared { target: 0, value: 1, guards: Guards { list: [Guard { number: 0, positive: true }] } }, Declared { target: 0, value: 2, guards: Guards { list: [Guard { number: 0, positive: false }, Guard { number: 1, positive: true }] } }, Declared { target: 1, value: 0, guards: Guards { list: [] } }] } [Cond { number: 1, yes: [Assign { place: Place { line: 23, column: 1 }, target: 1, value: Number(1) }], no: [Cond { number: 2, yes: [Assign { place: Place { line: 28, column: 1 }, target: 1, value: Number(2) }], no: [Assign { place: Place { line: 33, column: 1 }, target: 1, value: Number(3) }] }] }] Place { line: 38, column: 1 }",
    )
}

#[test]
fn the_first_wrong_item_is_found(rt: HostRuntime) -> Result<(), Fail> {
    let alloc = rt.alloc();
    let outside: [(&[Sign], usize); 6] = [
        (&[], 0),
        (&[Sign::Int], 1),
        (&[Sign::Else], 0),
        (&[Sign::Int, Sign::Name(0), Sign::Equals, Sign::Name(1)], 3),
        (&[Sign::GroupIf(0), Sign::Int, Sign::Main], 2),
        (&[Sign::Int, Sign::Reserved], 1),
    ];
    for (signs, position) in outside {
        assert_eq!(rt;
            read(&rt, alloc, signs).err(),
            Some(UnreadRefusal::Fault(Unread::Wrong(position)))
        );
    }
    // behind `int main() {`
    let inside: [(&[Sign], usize); 11] = [
        (&[], 5),
        (&[Sign::Name(0), Sign::Equals, Sign::Semicolon], 7),
        (&[Sign::LeftBrace, Sign::Break], 6),
        (&[Sign::LeftBrace, Sign::Return, Sign::Semicolon], 7),
        (&[Sign::Do, Sign::Semicolon, Sign::Semicolon], 7),
        (&[Sign::Do, Sign::GroupIf(0)], 6),
        (&[Sign::Semicolon, Sign::Else], 6),
        (&[Sign::RightBrace, Sign::Semicolon], 6),
        (&[Sign::RightBrace, Sign::GroupIf(0)], 7),
        (
            &[
                Sign::RightBrace,
                Sign::GroupIf(0),
                Sign::GroupElse,
                Sign::GroupElse,
            ],
            8,
        ),
        (
            &[
                Sign::If,
                Sign::Open,
                Sign::Name(0),
                Sign::Close,
                Sign::GroupIf(0),
            ],
            9,
        ),
    ];
    for (signs, position) in inside {
        let mut all = Vec::new(alloc);
        add(&mut all, &HEAD, 1)?;
        add(&mut all, signs, 1)?;
        assert_eq!(rt;
            read(&rt, alloc, &all).err(),
            Some(UnreadRefusal::Fault(Unread::Wrong(position)))
        );
    }
    Ok(())
}

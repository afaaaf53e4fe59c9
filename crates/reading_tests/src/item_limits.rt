//! Programs at the limits of depth, and one beyond them.
#![tactic(auto)]

use crate::items::{HEAD, add, read};
use c_grammar::Sign;
use c_tree::Op;
use fam_outer::NoMemory;
use item_reader::{Unread, UnreadRefusal};
use std::alloc::Global;
use std::process::Abort;
use std::test::Fail;

/// Signs in which more and more is open: `front`, so many times `opens`, `middle`, as many times `closes`, and `back`.
#[derive(Clone, Copy)]
struct Nest<'a> {
    front: &'a [Sign],
    opens: &'a [Sign],
    middle: &'a [Sign],
    closes: &'a [Sign],
    back: &'a [Sign],
}

fn nested(alloc: Global, nest: &Nest, count: u32) -> Result<Vec<Sign>, NoMemory> {
    let mut signs = Vec::new(alloc);
    add(&mut signs, nest.front, 1)?;
    add(&mut signs, nest.opens, count)?;
    add(&mut signs, nest.middle, 1)?;
    add(&mut signs, nest.closes, count)?;
    add(&mut signs, nest.back, 1)?;
    Ok(signs)
}

/// With this count the signs are read, and with one more they are too deep at this position.
fn is_the_limit(
    rt: &impl Abort,
    alloc: Global,
    nest: &Nest,
    count: u32,
    position: usize,
) -> Result<(), Fail> {
    let signs = nested(alloc, nest, count)?;
    assert!(rt; read(rt, alloc, &signs).is_ok());
    let signs = nested(alloc, nest, count.saturating_add(1))?;
    assert_eq!(rt;
        read(rt, alloc, &signs).err(),
        Some(UnreadRefusal::Fault(Unread::Deep(position)))
    );
    Ok(())
}

#[test]
fn sixty_four_constructs_may_stand_in_one_another(rt: HostRuntime) -> Result<(), Fail> {
    // the opening signs, those inside, the closing signs, and where the 65th construct begins
    let cases: [(&[Sign], &[Sign], &[Sign], usize); 6] = [
        (
            &[Sign::If, Sign::Open, Sign::Name(0), Sign::Close],
            &[Sign::Semicolon],
            &[],
            261,
        ),
        (
            &[Sign::While, Sign::Open, Sign::Name(0), Sign::Close],
            &[Sign::Semicolon],
            &[],
            261,
        ),
        (&[Sign::LeftBrace], &[], &[Sign::RightBrace], 69),
        (
            &[Sign::Do],
            &[Sign::Semicolon],
            &[
                Sign::While,
                Sign::Open,
                Sign::Name(0),
                Sign::Close,
                Sign::Semicolon,
            ],
            69,
        ),
        (
            &[
                Sign::If,
                Sign::Open,
                Sign::Name(0),
                Sign::Close,
                Sign::Semicolon,
                Sign::Else,
            ],
            &[Sign::Semicolon],
            &[],
            389,
        ),
        (&[Sign::GroupIf(0)], &[], &[Sign::GroupEnd], 69),
    ];
    for (opens, middle, closes, position) in cases {
        let nest = Nest {
            front: &HEAD,
            opens,
            middle,
            closes,
            back: &[Sign::RightBrace],
        };
        is_the_limit(&rt, rt.alloc(), &nest, 64, position)?;
    }
    Ok(())
}

/// `int main() { }`.
const MAIN: [Sign; 6] = [
    Sign::Int,
    Sign::Main,
    Sign::Open,
    Sign::Close,
    Sign::LeftBrace,
    Sign::RightBrace,
];

#[test]
fn sixty_four_groups_may_stand_in_one_another(rt: HostRuntime) -> Result<(), Fail> {
    let group = [Sign::GroupIf(0)];
    let end = [Sign::GroupEnd];
    // before `main` and behind it
    let before = Nest {
        front: &[],
        opens: &group,
        middle: &[],
        closes: &end,
        back: &MAIN,
    };
    is_the_limit(&rt, rt.alloc(), &before, 64, 64)?;
    let behind = Nest {
        front: &MAIN,
        opens: &group,
        middle: &[],
        closes: &end,
        back: &[],
    };
    is_the_limit(&rt, rt.alloc(), &behind, 64, 70)?;
    // each in the `#else` of the one around it
    let in_else = Nest {
        front: &HEAD,
        opens: &[Sign::GroupIf(0), Sign::GroupElse],
        middle: &[],
        closes: &end,
        back: &[Sign::RightBrace],
    };
    is_the_limit(&rt, rt.alloc(), &in_else, 64, 133)
}

#[test]
fn each_elif_counts_as_one_more(rt: HostRuntime) -> Result<(), Fail> {
    // behind the signs of `front` an `#if`, then `#elif` so many times, `middle` and `back`; the count that is the limit,
    // and where the first sign beyond it stands
    let cases: [(&[Sign], &[Sign], &[Sign], u32, usize); 6] = [
        (&HEAD, &[Sign::GroupEnd], &[Sign::RightBrace], 63, 69),
        (
            &HEAD,
            &[Sign::LeftBrace, Sign::RightBrace, Sign::GroupEnd],
            &[Sign::RightBrace],
            62,
            69,
        ),
        (&[], &[Sign::GroupEnd], &MAIN, 63, 64),
        (
            &[],
            &[Sign::GroupIf(0), Sign::GroupEnd, Sign::GroupEnd],
            &MAIN,
            62,
            64,
        ),
        (&MAIN, &[Sign::GroupEnd], &[], 63, 70),
        (
            &MAIN,
            &[Sign::GroupIf(0), Sign::GroupEnd, Sign::GroupEnd],
            &[],
            62,
            70,
        ),
    ];
    for (front, middle, back, count, position) in cases {
        let mut all = Vec::new(rt.alloc());
        add(&mut all, front, 1)?;
        all.push(Sign::GroupIf(0))?;
        let nest = Nest {
            front: &all,
            opens: &[Sign::GroupElif(0)],
            middle,
            closes: &[],
            back,
        };
        is_the_limit(&rt, rt.alloc(), &nest, count, position)?;
    }
    Ok(())
}

#[test]
fn sixty_four_operators_may_stand_in_an_expression(rt: HostRuntime) -> Result<(), Fail> {
    let assigns = [Sign::Name(0), Sign::Equals];
    // behind `int main() {` these signs, the opening ones, those inside, the closing ones and those behind; and where the
    // 65th operator stands
    let cases: [(&[Sign], &[Sign], &[Sign], &[Sign], usize); 6] = [
        (
            &assigns,
            &[Sign::Open],
            &[Sign::Number(1)],
            &[Sign::Close],
            71,
        ),
        (&assigns, &[Sign::Bang], &[Sign::Number(1)], &[], 71),
        (
            &assigns,
            &[Sign::Oper(Op::Sub)],
            &[Sign::Number(1)],
            &[],
            71,
        ),
        (
            &assigns,
            &[Sign::Oper(Op::Add)],
            &[Sign::Number(1)],
            &[],
            71,
        ),
        (
            &[Sign::Name(0), Sign::Equals, Sign::Number(1)],
            &[Sign::Oper(Op::Add), Sign::Number(1)],
            &[],
            &[],
            136,
        ),
        // the sign of `+=` is no operator of the expression
        (
            &[Sign::Name(0), Sign::PlusEquals, Sign::Number(1)],
            &[Sign::Oper(Op::Mul), Sign::Number(1)],
            &[],
            &[],
            136,
        ),
    ];
    for (front, opens, middle, closes, position) in cases {
        let mut all = Vec::new(rt.alloc());
        add(&mut all, &HEAD, 1)?;
        add(&mut all, front, 1)?;
        let nest = Nest {
            front: &all,
            opens,
            middle,
            closes,
            back: &[Sign::Semicolon, Sign::RightBrace],
        };
        is_the_limit(&rt, rt.alloc(), &nest, 64, position)?;
    }
    Ok(())
}

#[test]
fn parentheses_of_a_statement_do_not_count(rt: HostRuntime) -> Result<(), Fail> {
    // the word in front of the parenthesis
    for word in [Sign::If, Sign::While, Sign::Assert] {
        let mut all = Vec::new(rt.alloc());
        add(&mut all, &HEAD, 1)?;
        all.push(word)?;
        all.push(Sign::Open)?;
        let nest = Nest {
            front: &all,
            opens: &[Sign::Open],
            middle: &[Sign::Number(1)],
            closes: &[Sign::Close],
            back: &[Sign::Close, Sign::Semicolon, Sign::RightBrace],
        };
        is_the_limit(&rt, rt.alloc(), &nest, 64, 71)?;
    }
    Ok(())
}

#[test]
fn what_stands_side_by_side_is_not_deep(rt: HostRuntime) -> Result<(), Fail> {
    let cases: [(&[Sign], &[Sign], &[Sign]); 6] = [
        (
            &HEAD,
            &[Sign::LeftBrace, Sign::RightBrace],
            &[Sign::RightBrace],
        ),
        (
            &HEAD,
            &[
                Sign::While,
                Sign::Open,
                Sign::Name(0),
                Sign::Close,
                Sign::Semicolon,
            ],
            &[Sign::RightBrace],
        ),
        (
            &HEAD,
            &[Sign::GroupIf(0), Sign::GroupElif(1), Sign::GroupEnd],
            &[Sign::RightBrace],
        ),
        (
            &HEAD,
            &[
                Sign::Name(0),
                Sign::Equals,
                Sign::Oper(Op::Sub),
                Sign::Number(1),
                Sign::Semicolon,
            ],
            &[Sign::RightBrace],
        ),
        (&[], &[Sign::GroupIf(0), Sign::GroupEnd], &MAIN),
        (&MAIN, &[Sign::GroupIf(0), Sign::GroupEnd], &[]),
    ];
    for (front, piece, back) in cases {
        let mut all = Vec::new(rt.alloc());
        add(&mut all, front, 1)?;
        add(&mut all, piece, 65)?;
        add(&mut all, back, 1)?;
        assert!(rt; read(&rt, rt.alloc(), &all).is_ok());
    }
    Ok(())
}

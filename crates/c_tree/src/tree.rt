//! Expressions, statements and programs.
#![tactic(auto)]

use crate::lists::{Declarations, Names};
use fam_outer::{Place, Values};

/// A binary operator.
#[derive(Clone, Copy, Debug, PartialEq, Eq)]
pub enum Op {
    Add,
    Sub,
    Mul,
    Div,
    Rem,
    Lt,
    Le,
    Gt,
    Ge,
    Eq,
    Ne,
    And,
    Or,
}

/// An expression. A literal is from 0 to 2147483647, and a variable is numbered from 0 in the
/// order of the program's names.
#[derive(Debug, Drop)]
pub enum Expr {
    Number(i64),
    Var(u32),
    Neg(Box<Expr>),
    Not(Box<Expr>),
    Binary(Op, Box<Expr>, Box<Expr>),
}

/// Where a jump leads (C11 6.8.6): behind the loop that it stands in, on to that loop's step or
/// test, or to the end of the program, where the value is computed first.
#[derive(Debug, Drop)]
pub enum Jump {
    Break,
    Continue,
    Return(Expr),
}

/// A statement. Its place is that of its first token. `While` does its body, and then its step,
/// while its test is not 0; `step` is that of a `for`, whose place is that of its test, and empty
/// in a `while`. `Do` does its body first, and again while its test is not 0, which has a place of
/// its own: that of its first token. `Leave` is a jump. `Cond` is a section of groups: `yes` where the condition of this number is true,
/// else `no`.
#[derive(Debug, Drop)]
pub enum Stmt {
    Assign {
        place: Place,
        target: u32,
        value: Expr,
    },
    Input {
        place: Place,
        target: u32,
    },
    Assert {
        place: Place,
        test: Expr,
    },
    If {
        place: Place,
        test: Expr,
        yes: Vec<Stmt>,
        no: Vec<Stmt>,
    },
    While {
        place: Place,
        test: Expr,
        step: Vec<Stmt>,
        body: Vec<Stmt>,
    },
    Do {
        place: Place,
        body: Vec<Stmt>,
        test_place: Place,
        test: Expr,
    },
    Leave {
        place: Place,
        jump: Jump,
    },
    Block {
        place: Place,
        body: Vec<Stmt>,
    },
    Skip {
        place: Place,
    },
    Cond {
        number: u32,
        yes: Vec<Stmt>,
        no: Vec<Stmt>,
    },
}

/// A program. `start` has one start value for each name, and `end` is the place of the closing
/// brace of `main`. In a plain program `declared` is empty and no statement is a `Cond`.
#[derive(Debug, Drop)]
pub struct Program {
    pub names: Names,
    pub start: Values,
    pub declared: Declarations,
    pub body: Vec<Stmt>,
    pub end: Place,
}

/// Why a run stops.
#[derive(Clone, Copy, Debug, PartialEq, Eq, PartialOrd, Ord, Hash)]
pub enum Kind {
    Overflow,
    ZeroDivisor,
    Assertion,
}

/// What an overflow of a negation, a sum, a difference or a product does: it stops the run, or
/// the result wraps around.
#[derive(Clone, Copy, Debug, PartialEq, Eq)]
pub enum Mode {
    Stop,
    Wrap,
}

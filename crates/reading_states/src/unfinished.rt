//! Expressions, statements and groups that are open between two items.
#![tactic(auto)]

use crate::words::{Prefix, Qualifier, Update};
use c_tree::{Declared, Expr, Op, Stmt};
use fam_outer::Place;

/// What waits for an operand: a parenthesis, a prefix, or an operator behind its left operand.
#[derive(Drop)]
pub enum Frame {
    Paren,
    Pre(Prefix),
    Left(Op, Expr),
}

/// An earlier part of a section of groups: its condition and its statements.
#[derive(Drop)]
pub struct Link {
    pub number: u32,
    pub made: Vec<Stmt>,
}

/// What a `for` does before its first test: a change of a variable, or nothing; or it declares variables, and is a block at
/// this place.
#[derive(Drop)]
pub enum Start {
    ChangeStart { made: Vec<Stmt> },
    DeclaredStart { place: Place, made: Vec<Stmt> },
}

/// The statements and groups that are open, the innermost first. A list has the statements that it has so far. `Top` is
/// the list of `main`, behind the declarators. `Yes` is a part with a condition, and `No` the part behind `#else`. A loop has
/// what stands before its first test, and its step. Of a `do` the body is read.
#[derive(Drop)]
pub enum Stack {
    Top {
        declared: Vec<Declared>,
        made: Vec<Stmt>,
    },
    Braces {
        place: Place,
        made: Vec<Stmt>,
        outer: Box<Stack>,
    },
    Yes {
        links: Vec<Link>,
        number: u32,
        made: Vec<Stmt>,
        outer: Box<Stack>,
    },
    No {
        links: Vec<Link>,
        number: u32,
        first: Vec<Stmt>,
        made: Vec<Stmt>,
        outer: Box<Stack>,
    },
    ThenOf {
        place: Place,
        test: Expr,
        outer: Box<Stack>,
    },
    ElseOf {
        place: Place,
        test: Expr,
        first: Vec<Stmt>,
        outer: Box<Stack>,
    },
    LoopOf {
        start: Start,
        place: Place,
        test: Expr,
        advance: Vec<Stmt>,
        outer: Box<Stack>,
    },
    DoOf {
        place: Place,
        outer: Box<Stack>,
    },
}

/// What comes behind a statement, where no `else` does: more of a list, or the test of a `do`, behind its body.
#[derive(Drop)]
pub enum Onward {
    InList {
        outer: Stack,
    },
    AtTest {
        place: Place,
        body: Vec<Stmt>,
        outer: Stack,
    },
}

/// What a declaration in `main` stands in: a list, or the parentheses of a `for` at this place, with its declarators so far.
#[derive(Drop)]
pub enum Scope {
    ListScope {
        outer: Stack,
    },
    ForScope {
        place: Place,
        made: Vec<Stmt>,
        outer: Stack,
    },
}

/// Where a change of a variable stands: as a statement, before the first test of a `for`, or behind its test.
#[derive(Drop)]
pub enum Site {
    AsStatement {
        outer: Stack,
    },
    AsStart {
        outer: Stack,
    },
    AsStep {
        start: Start,
        place: Place,
        test: Expr,
        outer: Stack,
    },
}

/// What an expression is for. The initialiser of a variable that `main` declares has what its declaration declares, and the
/// test of a `for` what stands before it. That of a `do` has its body, and its own place.
#[derive(Drop)]
pub enum Purpose {
    ToAssign {
        place: Place,
        target: u32,
        site: Site,
    },
    ToInitialise {
        kind: Qualifier,
        place: Place,
        target: u32,
        scope: Scope,
    },
    ToUpdate {
        place: Place,
        target: u32,
        update: Update,
        site: Site,
    },
    ToAssert {
        place: Place,
        outer: Stack,
    },
    ToChoose {
        place: Place,
        outer: Stack,
    },
    ToLoop {
        place: Place,
        outer: Stack,
    },
    ToRepeat {
        start: Start,
        place: Place,
        outer: Stack,
    },
    ToRedo {
        place: Place,
        body: Vec<Stmt>,
        test_place: Place,
        outer: Stack,
    },
    ToReturn {
        place: Place,
        outer: Stack,
    },
}

/// What is read but for its end: a statement, which may be a change in a `for`, or a declarator in `main`.
#[derive(Drop)]
pub enum Pending {
    OfStatement {
        site: Site,
        statement: Stmt,
    },
    OfLocal {
        kind: Qualifier,
        scope: Scope,
        statement: Stmt,
    },
}

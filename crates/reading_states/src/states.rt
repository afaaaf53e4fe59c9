//! What was read so far, between two items.
#![tactic(auto)]

use crate::unfinished::{Frame, Pending, Purpose, Scope, Site, Stack, Start};
use crate::words::{Count, Leading, Qualifier, StaticPart, TypeWords};
use c_tree::{Declared, Expr, Guard, Stmt};
use fam_outer::Place;

/// The groups around declarations: a part with a condition, with the guards before it, and the last part with its guards.
#[derive(Drop)]
pub enum Sections {
    Outermost,
    InPart {
        guards: Vec<Guard>,
        number: u32,
        outer: Box<Sections>,
    },
    InLast {
        guards: Vec<Guard>,
        outer: Box<Sections>,
    },
}

/// What the parentheses behind the name of a function are for.
#[derive(Drop)]
pub enum Aim {
    ToPrototype {
        sections: Sections,
        declared: Vec<Declared>,
    },
    ToMain {
        declared: Vec<Declared>,
    },
}

/// A section of groups behind `main`, with its conditions so far: another part may come, or this one is the last.
#[derive(Drop)]
pub enum Tailing {
    Another(Vec<u32>),
    Final(Vec<u32>),
}

/// A file whose `main` is closed.
#[derive(Drop)]
pub struct File {
    pub declared: Vec<Declared>,
    pub body: Vec<Stmt>,
    pub end: Place,
}

/// What was read so far.
#[derive(Drop)]
pub enum ReadingState {
    /// A declaration may begin.
    Outside {
        sections: Sections,
        declared: Vec<Declared>,
    },
    AfterStatic {
        sections: Sections,
        declared: Vec<Declared>,
    },
    AfterExtern {
        sections: Sections,
        declared: Vec<Declared>,
    },
    /// Behind `const` before a type.
    AfterConst {
        sections: Sections,
        declared: Vec<Declared>,
    },
    /// Behind `enum`.
    AfterEnum {
        sections: Sections,
        declared: Vec<Declared>,
    },
    /// Behind `void` before the name of a function.
    AfterVoidType {
        sections: Sections,
        declared: Vec<Declared>,
    },
    /// Behind a word of a type.
    AfterType {
        leading: Leading,
        words: TypeWords,
        sections: Sections,
        declared: Vec<Declared>,
    },
    /// A declarator comes.
    Declaring {
        kind: Qualifier,
        sections: Sections,
        declared: Vec<Declared>,
    },
    /// Behind the name, behind `=`, behind `-`, and behind the start value of a declarator.
    Bare {
        kind: Qualifier,
        name: u32,
        sections: Sections,
        declared: Vec<Declared>,
    },
    Starting {
        kind: Qualifier,
        name: u32,
        sections: Sections,
        declared: Vec<Declared>,
    },
    Negating {
        kind: Qualifier,
        name: u32,
        sections: Sections,
        declared: Vec<Declared>,
    },
    Started {
        kind: Qualifier,
        name: u32,
        value: i64,
        sections: Sections,
        declared: Vec<Declared>,
    },
    /// In an `enum`, behind a comma and the value before it; and behind its brace.
    Listing {
        last: i64,
        sections: Sections,
        declared: Vec<Declared>,
    },
    Enumerated {
        sections: Sections,
        declared: Vec<Declared>,
    },
    /// Behind `#define`.
    AfterDefine {
        sections: Sections,
        declared: Vec<Declared>,
    },
    /// Behind the name of a definition, and behind a `-` there.
    Defining {
        name: u32,
        sections: Sections,
        declared: Vec<Declared>,
    },
    NegativeDefining {
        name: u32,
        sections: Sections,
        declared: Vec<Declared>,
    },
    /// In the parentheses of a definition: before its number, behind a `-`, and behind the number.
    Enclosing {
        name: u32,
        sections: Sections,
        declared: Vec<Declared>,
    },
    NegativeEnclosing {
        name: u32,
        sections: Sections,
        declared: Vec<Declared>,
    },
    Enclosed {
        name: u32,
        value: i64,
        sections: Sections,
        declared: Vec<Declared>,
    },
    /// Before parentheses, in them, behind `void` in them, and behind them.
    Parameters {
        aim: Aim,
    },
    InParameters {
        aim: Aim,
    },
    AfterVoid {
        aim: Aim,
    },
    AfterParameters {
        aim: Aim,
    },
    /// A statement may begin.
    Ready {
        outer: Stack,
    },
    /// Behind `const` before the type of a declaration in `main`.
    LocalConst {
        scope: Scope,
    },
    /// Behind a word of its type.
    LocalType {
        kind: Qualifier,
        words: TypeWords,
        scope: Scope,
    },
    /// The name of a variable comes, and behind it.
    NextLocal {
        kind: Qualifier,
        scope: Scope,
    },
    LocalNamed {
        kind: Qualifier,
        place: Place,
        target: u32,
        scope: Scope,
    },
    /// In a static declaration in `main`, which leaves no statement.
    InStatic {
        part: StaticPart,
        outer: Stack,
    },
    /// A statement has ended, and an `else` may come.
    Ended {
        outer: Stack,
        statement: Stmt,
    },
    /// An operand comes.
    Wants {
        frames: Vec<Frame>,
        purpose: Purpose,
    },
    /// Behind an operand.
    Has {
        frames: Vec<Frame>,
        purpose: Purpose,
        operand: Expr,
    },
    /// Behind `++` or `--` at the front of a change.
    Counting {
        place: Place,
        count: Count,
        site: Site,
    },
    /// Behind the name at the front of a change.
    Named {
        place: Place,
        target: u32,
        site: Site,
    },
    /// A parenthesis before an expression comes.
    Opens {
        purpose: Purpose,
    },
    /// Behind `for`, behind its parenthesis, behind its first semicolon, and behind the second one.
    ForOpens {
        place: Place,
        outer: Stack,
    },
    StartComes {
        place: Place,
        outer: Stack,
    },
    TestComes {
        start: Start,
        outer: Stack,
    },
    StepComes {
        start: Start,
        place: Place,
        test: Expr,
        outer: Stack,
    },
    /// Behind the body of a `do` and `while`, and behind the parenthesis before its test.
    RedoOpens {
        place: Place,
        body: Vec<Stmt>,
        outer: Stack,
    },
    RedoComes {
        place: Place,
        body: Vec<Stmt>,
        outer: Stack,
    },
    /// Behind the parenthesis at the front of a statement, behind `void` in it, and behind both parentheses: a call comes,
    /// whose value is dropped.
    VoidComes {
        place: Place,
        outer: Stack,
    },
    VoidCloses {
        place: Place,
        outer: Stack,
    },
    CallComes {
        place: Place,
        outer: Stack,
    },
    /// Behind the name of a function that is called, and behind its parenthesis. The call makes what is pending.
    CallOpens {
        pending: Pending,
    },
    CallCloses {
        pending: Pending,
    },
    /// The end of a change comes, the semicolon of another statement, or the end of a declarator.
    Finishing {
        pending: Pending,
    },
    /// `main` is closed, and these groups are open.
    Over {
        file: File,
        parts: Vec<Tailing>,
    },
}

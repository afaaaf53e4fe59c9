//! The loops of a program.
#![tactic(auto)]

ghost use Rattle.std.specs.Prelude.{◌≡◌};
ghost use Rattle.c_tree.specs.View.{code};
ghost use Rattle.plain_analysis.specs.Statements.{body_of};
ghost use Rattle.plain_analysis.specs.View.{parts_of};

use c_tree::{Expr, Stmt};
use fam_outer::Place;

/// What a loop has beside its place: its test stands first, and its step comes behind its body, or
/// its test stands last, at a place of its own.
#[derive(Clone, Copy)]
pub enum Parts<'a> {
    TestFirst {
        test: &'a Expr,
        step: &'a [Stmt],
        body: &'a [Stmt],
    },
    TestLast {
        body: &'a [Stmt],
        test_place: Place,
        test: &'a Expr,
    },
}

/// A loop: where it stands, and its parts.
#[derive(Clone, Copy)]
pub struct Loop<'a> {
    pub place: Place,
    pub parts: Parts<'a>,
}

impl<'a> Loop<'a> {
    /// Its body.
    pub fn body(&self) -> &'a [Stmt]
        ensures { code result.now ≡ body_of (parts_of self.now.parts) }
    {
        match self.parts {
            Parts::TestFirst { body, .. } | Parts::TestLast { body, .. } => body,
        }
    }
}

//! The syntax trees of C programs with groups, and the definitions of values and runs.
//!
//! Contracts see an expression, a list of statements and a program as the plain trees of
//! `specs/Tree.antt`, without boxes and capacities. `specs/Value.antt` says what value an
//! expression has at a store, and `specs/Run.antt` what a run of a plain program does, so that
//! the analyses can speak of runs without the crate that runs them.
#![tactic(auto)]

pub mod all_places;
pub mod copies;
pub mod laws;
pub mod lists;
pub mod projection;
pub mod tree;

pub use all_places::places;
pub use copies::{copy_expr, copy_jump, copy_list, copy_stmt};
pub use lists::{Declarations, Declared, Guard, Guards, Names};
pub use projection::{project, start_values};
pub use tree::{Expr, Jump, Kind, Mode, Op, Program, Stmt};

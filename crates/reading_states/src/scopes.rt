//! What declarations in `main` stand in.
#![tactic(auto)]

ghost use Rattle.std.specs.Prelude.{◌≡◌, IfOk};
ghost use Rattle.c_tree.specs.Tree.{Done};
ghost use Rattle.c_tree.specs.View.{front};
ghost use Rattle.c_grammar.specs.Machine as machine;
ghost use Rattle.reading_states.specs.Views.{as_qualifier, as_scope, as_stack, as_state};

use crate::lists::{only, with_statements};
use crate::stacks::folded;
use crate::states::ReadingState;
use crate::unfinished::{Scope, Stack, Start};
use crate::words::Qualifier;
use c_tree::Stmt;
use fam_outer::{NoMemory, Place};
use std::alloc::Global;

/// The parentheses of a `for`, before its first declarator.
pub fn for_scope(alloc: Global, place: Place, outer: Stack) -> Scope
    ensures { as_scope result ≡ machine.ForScope place Done (as_stack outer) }
{
    Scope::ForScope {
        place,
        made: Vec::new(alloc),
        outer,
    }
}

/// The statement of a declarator is put into the list that is open, or behind the earlier declarators of a `for`.
pub fn with_declarator(alloc: Global, scope: Scope, statement: Stmt) -> Result<Scope, NoMemory>
    ensures { IfOk result (λ made. as_scope made
        ≡ machine.with_declarator (as_scope scope) (front statement Done)) }
{
    match scope {
        Scope::ListScope { outer } => {
            let outer = folded(alloc, outer, statement)?;
            Ok(Scope::ListScope { outer })
        }
        Scope::ForScope { place, made, outer } => {
            let statements = only(alloc, statement)?;
            let made = with_statements(made, statements)?;
            Ok(Scope::ForScope { place, made, outer })
        }
    }
}

/// Behind the semicolon of a declaration: a statement may begin, and in a `for` the test comes.
pub fn behind_declaration(scope: Scope) -> ReadingState
    ensures { as_state result ≡ machine.behind_declaration (as_scope scope) }
{
    match scope {
        Scope::ListScope { outer } => ReadingState::Ready { outer },
        Scope::ForScope { place, made, outer } => ReadingState::TestComes {
            start: Start::DeclaredStart { place, made },
            outer,
        },
    }
}

/// What a declaration declares here: what a `for` declares has an initialiser, as a constant has one.
pub fn initialising(scope: &Scope, kind: Qualifier) -> Qualifier
    ensures { as_qualifier result ≡ machine.initialising (as_scope scope.now) (as_qualifier kind) }
{
    match scope {
        Scope::ListScope { .. } => kind,
        Scope::ForScope { .. } => Qualifier::Constant,
    }
}

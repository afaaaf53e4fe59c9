//! Declarations in `main`.
#![tactic(auto)]

ghost use Rattle.std.specs.Prelude.{◌≡◌, IfSome, option_map};
ghost use Rattle.c_tree.specs.Tree.{Done};
ghost use Rattle.c_tree.specs.View.{front};
ghost use Rattle.c_grammar.specs.Grammar as grammar;
ghost use Rattle.c_grammar.specs.Machine as machine;
ghost use Rattle.reading_states.specs.Views.{as_pending, as_qualifier, as_scope, as_stack, as_state, as_words, Moves};

use crate::expressions::expected;
use c_grammar::Sign;
use c_tree::Stmt;
use fam_outer::{NoMemory, Place};
use reading_states::changes::finished_change;
use reading_states::scopes::{behind_declaration, initialising, with_declarator};
use reading_states::states::ReadingState;
use reading_states::unfinished::{Pending, Purpose, Scope, Stack};
use reading_states::words::{Qualifier, TypeWords, is_second_word};
use std::alloc::Global;

/// What is open, where it is a list, in which alone a declaration as a statement stands.
pub fn in_list(outer: Stack) -> Option<Stack>
    ensures same { IfSome result (λ list. as_stack list ≡ as_stack outer) }
    ensures list { (next : machine.ReadingState) → option_map (λ list. next) result
        ≡ machine.in_list (as_stack outer) next }
{
    match outer {
        Stack::ThenOf { .. } | Stack::ElseOf { .. } | Stack::LoopOf { .. } | Stack::DoOf { .. } =>
            None,
        list => Some(list),
    }
}

/// `const`, where a statement may begin.
pub fn const_in(outer: Stack) -> Option<ReadingState>
    ensures { option_map as_state result
        ≡ machine.in_list (as_stack outer) (machine.LocalConst (machine.ListScope (as_stack outer))) }
{
    let outer = in_list(outer)?;
    Some(ReadingState::LocalConst {
        scope: Scope::ListScope { outer },
    })
}

/// The first word of a type, where a statement may begin.
pub fn type_in(outer: Stack, words: TypeWords) -> Option<ReadingState>
    ensures { option_map as_state result
        ≡ machine.in_list (as_stack outer)
        (machine.LocalType grammar.Unqualified (as_words words) (machine.ListScope (as_stack outer))) }
{
    let outer = in_list(outer)?;
    Some(ReadingState::LocalType {
        kind: Qualifier::Unqualified,
        words,
        scope: Scope::ListScope { outer },
    })
}

/// Behind `const`: the first word of a type.
pub fn const_word(scope: Scope, sign: Sign) -> Option<ReadingState>
    ensures { option_map as_state result ≡ machine.const_word (as_scope scope) sign }
{
    let words = match sign {
        Sign::Int => TypeWords::OneInt,
        Sign::Int32 => TypeWords::WholeType,
        Sign::Signed => TypeWords::OneSigned,
        _ => {
            drop(scope);
            return None;
        }
    };
    Some(ReadingState::LocalType {
        kind: Qualifier::Constant,
        words,
        scope,
    })
}

/// Where a declarator comes: its name.
pub fn next_local(kind: Qualifier, scope: Scope, place: Place, sign: Sign) -> Option<ReadingState>
    ensures { option_map as_state result ≡ machine.next_local (as_qualifier kind) (as_scope scope) place sign }
{
    match sign {
        Sign::Name(target) => Some(ReadingState::LocalNamed {
            kind: initialising(&scope, kind),
            place,
            target,
            scope,
        }),
        _ => {
            drop(scope);
            None
        }
    }
}

/// Behind a type without `const`: this word, or a name.
fn qualifying_local(scope: Scope, place: Place, sign: Sign) -> Option<ReadingState>
    ensures { option_map as_state result
        ≡ machine.behind_local_type grammar.Unqualified (as_scope scope) place sign }
{
    match sign {
        Sign::Const => Some(ReadingState::NextLocal {
            kind: Qualifier::Constant,
            scope,
        }),
        other => next_local(Qualifier::Unqualified, scope, place, other),
    }
}

/// What follows the type of a declaration.
fn behind_local_type(
    kind: Qualifier,
    scope: Scope,
    place: Place,
    sign: Sign,
) -> Option<ReadingState>
    ensures { option_map as_state result
        ≡ machine.behind_local_type (as_qualifier kind) (as_scope scope) place sign }
{
    match kind {
        Qualifier::Unqualified => qualifying_local(scope, place, sign),
        Qualifier::Constant | Qualifier::Counted(_) => next_local(kind, scope, place, sign),
    }
}

/// Another word of the type, or what follows it.
#[tactic(auto, using(crate::proofs::MoreWords::second_local_word, crate::proofs::MoreWords::no_second_local_word))]
pub fn local_type(
    kind: Qualifier,
    scope: Scope,
    place: Place,
    sign: Sign,
    words: TypeWords,
) -> Option<ReadingState>
    ensures { option_map as_state result
        ≡ machine.local_type (as_qualifier kind) (as_scope scope) place sign (as_words words) }
{
    if is_second_word(sign, words) {
        Some(ReadingState::LocalType {
            kind,
            words: TypeWords::WholeType,
            scope,
        })
    } else {
        behind_local_type(kind, scope, place, sign)
    }
}

/// The end of a declarator, whose statement is put into what its declaration stands in.
fn local_end(
    alloc: Global,
    kind: Qualifier,
    scope: Scope,
    statement: Stmt,
    sign: Sign,
) -> Result<Option<ReadingState>, NoMemory>
    ensures { Moves result
        (machine.local_end (as_qualifier kind) (as_scope scope) (front statement Done) sign) }
{
    match sign {
        Sign::Semicolon => {
            let scope = with_declarator(alloc, scope, statement)?;
            Ok(Some(behind_declaration(scope)))
        }
        Sign::Comma => {
            let scope = with_declarator(alloc, scope, statement)?;
            Ok(Some(ReadingState::NextLocal { kind, scope }))
        }
        _ => {
            drop(scope);
            Ok(None)
        }
    }
}

/// Behind a declared name without an initialiser: a variable has any value, and a constant has an initialiser.
fn without_initialiser(
    alloc: Global,
    kind: Qualifier,
    place: Place,
    target: u32,
    scope: Scope,
    sign: Sign,
) -> Result<Option<ReadingState>, NoMemory>
    ensures { Moves result
        (machine.without_initialiser (as_qualifier kind) place target (as_scope scope) sign) }
{
    match kind {
        Qualifier::Unqualified => {
            let statement = Stmt::Input { place, target };
            local_end(alloc, kind, scope, statement, sign)
        }
        Qualifier::Constant | Qualifier::Counted(_) => Ok(None),
    }
}

/// Behind a declared name.
pub fn local_named(
    alloc: Global,
    kind: Qualifier,
    place: Place,
    target: u32,
    scope: Scope,
    sign: Sign,
) -> Result<Option<ReadingState>, NoMemory>
    ensures { Moves result (machine.local_named (as_qualifier kind) place target (as_scope scope) sign) }
{
    match sign {
        Sign::Equals => {
            let purpose = Purpose::ToInitialise {
                kind,
                place,
                target,
                scope,
            };
            Ok(Some(expected(alloc, purpose)))
        }
        _ => without_initialiser(alloc, kind, place, target, scope, sign),
    }
}

/// The end of a statement or of a declarator.
pub fn finishing(
    alloc: Global,
    pending: Pending,
    sign: Sign,
) -> Result<Option<ReadingState>, NoMemory>
    ensures { Moves result (machine.finishing (as_pending pending) sign) }
{
    match pending {
        Pending::OfStatement { site, statement } => finished_change(alloc, site, statement, sign),
        Pending::OfLocal {
            kind,
            scope,
            statement,
        } => local_end(alloc, kind, scope, statement, sign),
    }
}

//! One step: what an item leads to.
#![tactic(auto)]

ghost use Rattle.std.specs.Prelude.{◌≡◌, ◌≤◌, option_map};
ghost use Rattle.c_tree.specs.Tree as tree;
ghost use Rattle.c_grammar.specs.Machine as machine;
ghost use Rattle.reading_states.specs.Signs.{IsUnsigned};
ghost use Rattle.item_reader.specs.Stages.{stage};
ghost use Rattle.reading_states.specs.Views.{as_stack, as_state, Moves};

use crate::endings::over;
use c_grammar::Sign;
use c_tree::Stmt;
use declaration_reader::declarations::{is_bare, listing, negating, started, starting};
use declaration_reader::definitions::{
    after_define, defining, enclosed, enclosing, negative_defining, negative_enclosing,
};
use declaration_reader::heads::{
    after_enum, after_type, behind_extern, behind_static, behind_void, declaring, first_word,
};
use declaration_reader::parameters::{after_parameters, in_parameters};
use declaration_reader::sections::outside;
use fam_outer::{NoMemory, Place};
use reading_states::marks::{at_close, at_function, at_open, at_semicolon, at_void};
use reading_states::states::ReadingState;
use reading_states::unfinished::{Pending, Site, Stack};
use reading_states::words::Leading;
use statement_reader::expressions::{expected, have, want};
use statement_reader::for_headers::{start_comes, step_comes, test_comes};
use statement_reader::jumps::redo_comes;
use statement_reader::locals::{const_word, finishing, local_named, local_type, next_local};
use statement_reader::statements::{begin, counting, named, on};
use statement_reader::statics::static_step;
use std::alloc::Global;

/// What an item leads to, where the state can take it.
pub(crate) fn step(
    alloc: Global,
    state: ReadingState,
    place: Place,
    sign: Sign,
) -> Result<Option<ReadingState>, NoMemory>
    requires { IsUnsigned sign }
    ensures { Moves result (machine.step (as_state state) place sign) }
{
    match state {
        ReadingState::Outside { sections, declared } => outside(alloc, sections, declared, sign),
        ReadingState::AfterStatic { sections, declared } => {
            Ok(behind_static(sections, declared, sign))
        }
        ReadingState::AfterExtern { sections, declared } => {
            Ok(behind_extern(sections, declared, sign))
        }
        ReadingState::AfterConst { sections, declared } => {
            Ok(first_word(Leading::ConstWord, sections, declared, sign))
        }
        ReadingState::AfterEnum { sections, declared } => Ok(after_enum(sections, declared, sign)),
        ReadingState::AfterVoidType { sections, declared } => {
            Ok(behind_void(sections, declared, sign))
        }
        ReadingState::AfterType {
            leading,
            words,
            sections,
            declared,
        } => Ok(after_type(leading, sections, declared, sign, words)),
        ReadingState::Declaring {
            kind,
            sections,
            declared,
        } => Ok(declaring(kind, sections, declared, sign)),
        other => step_declarator(alloc, other, place, sign),
    }
}

/// The step of a state from a declarator on.
fn step_declarator(
    alloc: Global,
    state: ReadingState,
    place: Place,
    sign: Sign,
) -> Result<Option<ReadingState>, NoMemory>
    requires unsigned { IsUnsigned sign }
    requires stage { 1 ≤ stage (as_state state) }
    ensures { Moves result (machine.step (as_state state) place sign) }
{
    match state {
        ReadingState::Bare {
            kind,
            name,
            sections,
            declared,
        } => is_bare(alloc, kind, name, sections, declared, sign),
        ReadingState::Starting {
            kind,
            name,
            sections,
            declared,
        } => Ok(starting(kind, name, sections, declared, sign)),
        ReadingState::Negating {
            kind,
            name,
            sections,
            declared,
        } => Ok(negating(kind, name, sections, declared, sign)),
        ReadingState::Started {
            kind,
            name,
            value,
            sections,
            declared,
        } => started(alloc, kind, name, value, sections, declared, sign),
        ReadingState::Listing {
            last,
            sections,
            declared,
        } => Ok(listing(last, sections, declared, sign)),
        ReadingState::Enumerated { sections, declared } => {
            Ok(at_semicolon(ReadingState::Outside { sections, declared }, sign))
        }
        other => step_definition(alloc, other, place, sign),
    }
}

/// The step of a state from a definition on.
fn step_definition(
    alloc: Global,
    state: ReadingState,
    place: Place,
    sign: Sign,
) -> Result<Option<ReadingState>, NoMemory>
    requires unsigned { IsUnsigned sign }
    requires stage { 2 ≤ stage (as_state state) }
    ensures { Moves result (machine.step (as_state state) place sign) }
{
    match state {
        ReadingState::AfterDefine { sections, declared } => {
            Ok(after_define(sections, declared, sign))
        }
        ReadingState::Defining {
            name,
            sections,
            declared,
        } => defining(alloc, name, sections, declared, sign),
        ReadingState::NegativeDefining {
            name,
            sections,
            declared,
        } => negative_defining(alloc, name, sections, declared, sign),
        ReadingState::Enclosing {
            name,
            sections,
            declared,
        } => Ok(enclosing(name, sections, declared, sign)),
        ReadingState::NegativeEnclosing {
            name,
            sections,
            declared,
        } => Ok(negative_enclosing(name, sections, declared, sign)),
        ReadingState::Enclosed {
            name,
            value,
            sections,
            declared,
        } => enclosed(alloc, name, value, sections, declared, sign),
        other => step_statement(alloc, other, place, sign),
    }
}

/// The step of a state from the statements on.
fn step_statement(
    alloc: Global,
    state: ReadingState,
    place: Place,
    sign: Sign,
) -> Result<Option<ReadingState>, NoMemory>
    requires { 3 ≤ stage (as_state state) }
    ensures { Moves result (machine.step (as_state state) place sign) }
{
    match state {
        ReadingState::Ready { outer } => begin(alloc, outer, place, sign),
        ReadingState::Ended { outer, statement } => on(alloc, outer, statement, place, sign),
        ReadingState::Counting {
            place: first,
            count,
            site,
        } => counting(alloc, first, count, site, sign),
        ReadingState::Named {
            place,
            target,
            site,
        } => named(alloc, place, target, site, sign),
        ReadingState::Finishing { pending } => finishing(alloc, pending, sign),
        other => step_local(alloc, other, place, sign),
    }
}

/// The step of a state from a declaration in `main` on.
fn step_local(
    alloc: Global,
    state: ReadingState,
    place: Place,
    sign: Sign,
) -> Result<Option<ReadingState>, NoMemory>
    requires { 4 ≤ stage (as_state state) }
    ensures { Moves result (machine.step (as_state state) place sign) }
{
    match state {
        ReadingState::LocalConst { scope } => Ok(const_word(scope, sign)),
        ReadingState::LocalType { kind, words, scope } => {
            Ok(local_type(kind, scope, place, sign, words))
        }
        ReadingState::NextLocal { kind, scope } => Ok(next_local(kind, scope, place, sign)),
        ReadingState::LocalNamed {
            kind,
            place,
            target,
            scope,
        } => local_named(alloc, kind, place, target, scope, sign),
        ReadingState::InStatic { part, outer } => Ok(static_step(part, outer, sign)),
        other => step_operand(alloc, other, place, sign),
    }
}

/// The step of a state from an expression on.
fn step_operand(
    alloc: Global,
    state: ReadingState,
    place: Place,
    sign: Sign,
) -> Result<Option<ReadingState>, NoMemory>
    requires { 5 ≤ stage (as_state state) }
    ensures { Moves result (machine.step (as_state state) place sign) }
{
    match state {
        ReadingState::Wants { frames, purpose } => want(frames, purpose, sign),
        ReadingState::Has {
            frames,
            purpose,
            operand,
        } => have(alloc, frames, purpose, operand, sign),
        ReadingState::Opens { purpose } => {
            let next = expected(alloc, purpose);
            Ok(at_open(next, sign))
        }
        other => step_header(alloc, other, place, sign),
    }
}

/// The step of a state from the parentheses of a `for` on.
fn step_header(
    alloc: Global,
    state: ReadingState,
    place: Place,
    sign: Sign,
) -> Result<Option<ReadingState>, NoMemory>
    requires { 6 ≤ stage (as_state state) }
    ensures { Moves result (machine.step (as_state state) place sign) }
{
    match state {
        ReadingState::ForOpens {
            place: first,
            outer,
        } => {
            let next = ReadingState::StartComes {
                place: first,
                outer,
            };
            Ok(at_open(next, sign))
        }
        ReadingState::StartComes {
            place: first,
            outer,
        } => Ok(start_comes(alloc, first, outer, place, sign)),
        ReadingState::TestComes { start, outer } => test_comes(alloc, start, outer, place, sign),
        ReadingState::StepComes {
            start,
            place: first,
            test,
            outer,
        } => step_comes(alloc, start, first, test, outer, place, sign),
        other => step_redo(alloc, other, place, sign),
    }
}

/// The step of a state from the test of a `do` on.
fn step_redo(
    alloc: Global,
    state: ReadingState,
    place: Place,
    sign: Sign,
) -> Result<Option<ReadingState>, NoMemory>
    requires { 7 ≤ stage (as_state state) }
    ensures { Moves result (machine.step (as_state state) place sign) }
{
    match state {
        ReadingState::RedoOpens {
            place: first,
            body,
            outer,
        } => {
            let next = ReadingState::RedoComes {
                place: first,
                body,
                outer,
            };
            Ok(at_open(next, sign))
        }
        ReadingState::RedoComes {
            place: first,
            body,
            outer,
        } => redo_comes(alloc, first, body, outer, place, sign),
        other => step_call(alloc, other, place, sign),
    }
}

/// The step of a state from a call on.
fn step_call(
    alloc: Global,
    state: ReadingState,
    place: Place,
    sign: Sign,
) -> Result<Option<ReadingState>, NoMemory>
    requires { 8 ≤ stage (as_state state) }
    ensures { Moves result (machine.step (as_state state) place sign) }
{
    match state {
        ReadingState::VoidComes { place, outer } => {
            Ok(at_void(ReadingState::VoidCloses { place, outer }, sign))
        }
        ReadingState::VoidCloses { place, outer } => {
            Ok(at_close(ReadingState::CallComes { place, outer }, sign))
        }
        ReadingState::CallComes { place, outer } => Ok(call_comes(place, outer, sign)),
        ReadingState::CallOpens { pending } => {
            Ok(at_open(ReadingState::CallCloses { pending }, sign))
        }
        ReadingState::CallCloses { pending } => {
            Ok(at_close(ReadingState::Finishing { pending }, sign))
        }
        other => step_edge(alloc, other, place, sign),
    }
}

/// The name of a function comes, whose call does nothing else.
#[tactic(auto, using(reading_states::proofs::Holding::holding))]
fn call_comes(place: Place, outer: Stack, sign: Sign) -> Option<ReadingState>
    ensures { option_map as_state result
        ≡ machine.at_function (machine.CallOpens
        (machine.OfStatement (machine.AsStatement (as_stack outer)) (tree.Skip place tree.Done))) sign }
{
    let pending = Pending::OfStatement {
        site: Site::AsStatement { outer },
        statement: Stmt::Skip { place },
    };
    at_function(ReadingState::CallOpens { pending }, sign)
}

/// The step of a state in the parentheses of a function that is declared, or at the end of a file.
fn step_edge(
    alloc: Global,
    state: ReadingState,
    _place: Place,
    sign: Sign,
) -> Result<Option<ReadingState>, NoMemory>
    requires { 9 ≤ stage (as_state state) }
    ensures { Moves result (machine.step (as_state state) _place sign) }
{
    match state {
        ReadingState::Parameters { aim } => Ok(at_open(ReadingState::InParameters { aim }, sign)),
        ReadingState::InParameters { aim } => Ok(in_parameters(aim, sign)),
        ReadingState::AfterVoid { aim } => Ok(at_close(
            ReadingState::AfterParameters { aim },
            sign,
        )),
        ReadingState::AfterParameters { aim } => Ok(after_parameters(alloc, aim, sign)),
        ReadingState::Over { file, parts } => over(alloc, file, parts, sign),
        other => {
            drop(other);
            Ok(None)
        }
    }
}

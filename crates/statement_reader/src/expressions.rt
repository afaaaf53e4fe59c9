//! Signs in an expression.
#![tactic(auto)]

ghost use Rattle.std.specs.Prelude.{◌≡◌, [], ◌∷◌, Some, option_map};
ghost use Rattle.c_tree.specs.View.{term};
ghost use Rattle.c_grammar.specs.Machine as machine;
ghost use Rattle.c_grammar.specs.declared.items.Sign.TheVariants as signs;
ghost use Rattle.reading_states.specs.Views.{Moves, as_frame, as_frames, as_purpose, as_state};

use crate::purposes::{assigned, initialised, input_for, tested};
use c_grammar::Sign;
use c_tree::{Expr, Op};
use fam_outer::NoMemory;
use reading_states::frames::{no_frames, prefix_of, settle, take_frame, tighter, with_frame};
use reading_states::states::ReadingState;
use reading_states::unfinished::{Frame, Purpose};
use reading_states::words::Prefix;
use std::alloc::Global;

/// One more waits, and an operand comes.
fn waiting(
    frames: Vec<Frame>,
    frame: Frame,
    purpose: Purpose,
) -> Result<Option<ReadingState>, NoMemory>
    ensures { Moves result (Some (machine.Wants (as_frame frame ∷ as_frames frames.items)
        (as_purpose purpose))) }
{
    match with_frame(frames, frame) {
        Ok(frames) => Ok(Some(ReadingState::Wants { frames, purpose })),
        Err(memory) => {
            drop(purpose);
            Err(memory)
        }
    }
}

/// An expression comes.
pub fn expected(alloc: Global, purpose: Purpose) -> ReadingState
    ensures { as_state result ≡ machine.Wants [] (as_purpose purpose) }
{
    ReadingState::Wants {
        frames: no_frames(alloc),
        purpose,
    }
}

/// The name of a function in place of an expression.
fn input_of(mut frames: Vec<Frame>, purpose: Purpose) -> Option<ReadingState>
    ensures { option_map as_state result ≡ machine.input_of (as_frames frames.items) (as_purpose purpose) }
{
    match take_frame(&mut frames) {
        None => input_for(purpose),
        Some(_) => {
            drop(purpose);
            None
        }
    }
}

/// What a sign leads to where an operand comes.
pub fn want(
    frames: Vec<Frame>,
    purpose: Purpose,
    sign: Sign,
) -> Result<Option<ReadingState>, NoMemory>
    ensures { Moves result (machine.want (as_frames frames.items) (as_purpose purpose) sign) }
{
    match sign {
        Sign::Number(n) => Ok(Some(ReadingState::Has {
            frames,
            purpose,
            operand: Expr::Number(n),
        })),
        Sign::Name(x) => Ok(Some(ReadingState::Has {
            frames,
            purpose,
            operand: Expr::Var(x),
        })),
        Sign::Open => waiting(frames, Frame::Paren, purpose),
        Sign::Bang => waiting(frames, Frame::Pre(Prefix::Inverse), purpose),
        Sign::Oper(op) => prefixed(frames, purpose, op),
        Sign::Input | Sign::Function(_) => Ok(input_of(frames, purpose)),
        _ => {
            drop(purpose);
            Ok(None)
        }
    }
}

/// An operator where an operand comes.
fn prefixed(frames: Vec<Frame>, purpose: Purpose, op: Op) -> Result<Option<ReadingState>, NoMemory>
    ensures { Moves result (machine.want (as_frames frames.items) (as_purpose purpose) (signs.Oper op)) }
{
    match prefix_of(op) {
        Some(prefix) => waiting(frames, Frame::Pre(prefix), purpose),
        None => {
            drop(purpose);
            Ok(None)
        }
    }
}

/// A closing parenthesis behind an operand, with all operators applied.
fn closed_by(
    alloc: Global,
    mut frames: Vec<Frame>,
    purpose: Purpose,
    operand: Expr,
) -> Result<Option<ReadingState>, NoMemory>
    ensures { Moves result (machine.closed_by (as_frames frames.items) (as_purpose purpose) (term operand)) }
{
    match take_frame(&mut frames) {
        None => tested(alloc, purpose, operand),
        Some(Frame::Paren) => Ok(Some(ReadingState::Has {
            frames,
            purpose,
            operand,
        })),
        Some(Frame::Pre(_)) | Some(Frame::Left(_, _)) => {
            drop(purpose);
            Ok(None)
        }
    }
}

/// A semicolon behind an operand, with all operators applied.
fn ended_by(
    alloc: Global,
    mut frames: Vec<Frame>,
    purpose: Purpose,
    operand: Expr,
) -> Result<Option<ReadingState>, NoMemory>
    ensures { Moves result (machine.ended_by (as_frames frames.items) (as_purpose purpose) (term operand)) }
{
    match take_frame(&mut frames) {
        None => assigned(alloc, purpose, operand),
        Some(_) => {
            drop(purpose);
            Ok(None)
        }
    }
}

/// A comma behind an operand, with all operators applied.
fn followed_by(
    alloc: Global,
    mut frames: Vec<Frame>,
    purpose: Purpose,
    operand: Expr,
) -> Result<Option<ReadingState>, NoMemory>
    ensures { Moves result (machine.followed_by (as_frames frames.items) (as_purpose purpose) (term operand)) }
{
    match take_frame(&mut frames) {
        None => initialised(alloc, purpose, operand),
        Some(_) => {
            drop(purpose);
            Ok(None)
        }
    }
}

/// A closing parenthesis behind an operand.
fn closed(
    alloc: Global,
    frames: Vec<Frame>,
    purpose: Purpose,
    operand: Expr,
) -> Result<Option<ReadingState>, NoMemory>
    ensures { Moves result (machine.have (as_frames frames.items) (as_purpose purpose)
        (term operand) signs.Close) }
{
    match settle(alloc, 6, frames, operand) {
        Ok((frames, operand)) => closed_by(alloc, frames, purpose, operand),
        Err(memory) => {
            drop(purpose);
            Err(memory)
        }
    }
}

/// A semicolon behind an operand.
fn ended(
    alloc: Global,
    frames: Vec<Frame>,
    purpose: Purpose,
    operand: Expr,
) -> Result<Option<ReadingState>, NoMemory>
    ensures { Moves result (machine.have (as_frames frames.items) (as_purpose purpose)
        (term operand) signs.Semicolon) }
{
    match settle(alloc, 6, frames, operand) {
        Ok((frames, operand)) => ended_by(alloc, frames, purpose, operand),
        Err(memory) => {
            drop(purpose);
            Err(memory)
        }
    }
}

/// A comma behind an operand.
fn followed(
    alloc: Global,
    frames: Vec<Frame>,
    purpose: Purpose,
    operand: Expr,
) -> Result<Option<ReadingState>, NoMemory>
    ensures { Moves result (machine.have (as_frames frames.items) (as_purpose purpose)
        (term operand) signs.Comma) }
{
    match settle(alloc, 6, frames, operand) {
        Ok((frames, operand)) => followed_by(alloc, frames, purpose, operand),
        Err(memory) => {
            drop(purpose);
            Err(memory)
        }
    }
}

/// An operator behind an operand.
fn operated(
    alloc: Global,
    frames: Vec<Frame>,
    purpose: Purpose,
    operand: Expr,
    op: Op,
) -> Result<Option<ReadingState>, NoMemory>
    ensures { Moves result (machine.have (as_frames frames.items) (as_purpose purpose) (term operand)
        (signs.Oper op)) }
{
    match settle(alloc, tighter(op) + 1, frames, operand) {
        Ok((frames, left)) => waiting(frames, Frame::Left(op, left), purpose),
        Err(memory) => {
            drop(purpose);
            Err(memory)
        }
    }
}

/// What a sign leads to behind an operand.
pub fn have(
    alloc: Global,
    frames: Vec<Frame>,
    purpose: Purpose,
    operand: Expr,
    sign: Sign,
) -> Result<Option<ReadingState>, NoMemory>
    ensures { Moves result (machine.have (as_frames frames.items) (as_purpose purpose) (term operand) sign) }
{
    match sign {
        Sign::Close => closed(alloc, frames, purpose, operand),
        Sign::Oper(op) => operated(alloc, frames, purpose, operand, op),
        Sign::Semicolon => ended(alloc, frames, purpose, operand),
        Sign::Comma => followed(alloc, frames, purpose, operand),
        _ => {
            drop(purpose);
            Ok(None)
        }
    }
}

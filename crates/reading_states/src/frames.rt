//! What waits for an operand, the innermost last.
#![tactic(auto, using(crate::proofs::Innermost::innermost))]

ghost use Rattle.std.specs.Prelude.{◌≡◌, ◌<◌, [], ◌∷◌, IfOk, IfSome, MatchOption, vec_len, option_map};
ghost use Rattle.c_tree.specs.Tree.{Binary};
ghost use Rattle.c_tree.specs.View.{term};
ghost use Rattle.c_grammar.specs.Grammar as grammar;
ghost use Rattle.c_grammar.specs.Machine as machine;
ghost use Rattle.reading_states.specs.Views.{as_frame, as_frames, as_prefix};

use crate::unfinished::Frame;
use crate::words::Prefix;
use c_tree::{Expr, Op};
use fam_outer::NoMemory;
use std::alloc::Global;

/// Nothing waits.
pub fn no_frames(alloc: Global) -> Vec<Frame>
    ensures { as_frames result.items ≡ [] }
{
    Vec::new(alloc)
}

/// One more that waits.
pub fn with_frame(mut frames: Vec<Frame>, frame: Frame) -> Result<Vec<Frame>, NoMemory>
    ensures { IfOk result (λ made. as_frames made.items ≡ as_frame frame ∷ as_frames frames.items) }
{
    frames.push(frame)?;
    Ok(frames)
}

/// The innermost that waits, taken out.
pub fn take_frame(frames: &mut Vec<Frame>) -> Option<Frame>
    ensures taken { MatchOption result ((as_frames frames.old.items ≡ []) × (as_frames frames.new.items ≡ []))
        (λ frame. as_frames frames.old.items ≡ as_frame frame ∷ as_frames frames.new.items) }
    ensures fewer { IfSome result (λ frame. vec_len frames.new < vec_len frames.old) }
{
    frames.pop()
}

/// How many levels of operators bind tighter.
pub fn tighter(op: Op) -> u32
    ensures same { result ≡ grammar.tighter op }
    ensures few { result < 6 }
{
    match op {
        Op::Mul | Op::Div | Op::Rem => 0,
        Op::Add | Op::Sub => 1,
        Op::Lt | Op::Le | Op::Gt | Op::Ge => 2,
        Op::Eq | Op::Ne => 3,
        Op::And => 4,
        Op::Or => 5,
    }
}

/// The prefix that an operator is.
pub fn prefix_of(op: Op) -> Option<Prefix>
    ensures { option_map as_prefix result ≡ machine.prefix_of op }
{
    match op {
        Op::Add => Some(Prefix::Positive),
        Op::Sub => Some(Prefix::Negative),
        _ => None,
    }
}

/// An operand behind a prefix.
pub fn applied(alloc: Global, prefix: Prefix, operand: Expr) -> Result<Expr, NoMemory>
    ensures { IfOk result (λ made. term made ≡ grammar.applied (as_prefix prefix) (term operand)) }
{
    match prefix {
        Prefix::Positive => Ok(operand),
        Prefix::Negative => Ok(Expr::Neg(Box::new(alloc, operand)?)),
        Prefix::Inverse => Ok(Expr::Not(Box::new(alloc, operand)?)),
    }
}

/// Two operands with an operator between them.
pub fn binary(alloc: Global, op: Op, left: Expr, right: Expr) -> Result<Expr, NoMemory>
    ensures { IfOk result (λ made. term made ≡ Binary op (term left) (term right)) }
{
    Ok(Expr::Binary(op, Box::new(alloc, left)?, Box::new(alloc, right)?))
}

/// The operators that bind tighter than a level are applied.
pub fn settle(
    alloc: Global,
    level: u32,
    mut frames: Vec<Frame>,
    operand: Expr,
) -> Result<(Vec<Frame>, Expr), NoMemory>
    ensures frames { IfOk result (λ made. as_frames made.0.items
        ≡ (machine.settle level (as_frames frames.items) (term operand)).0) }
    ensures operand { IfOk result (λ made. term made.1
        ≡ (machine.settle level (as_frames frames.items) (term operand)).1) }
{
    match take_frame(&mut frames) {
        None => Ok((frames, operand)),
        Some(Frame::Paren) => Ok((with_frame(frames, Frame::Paren)?, operand)),
        Some(Frame::Pre(prefix)) => {
            let made = applied(alloc, prefix, operand)?;
            settle(alloc, level, frames, made)
        }
        Some(Frame::Left(op, left)) => {
            if tighter(op) < level {
                let made = binary(alloc, op, left, operand)?;
                settle(alloc, level, frames, made)
            } else {
                Ok((with_frame(frames, Frame::Left(op, left))?, operand))
            }
        }
    }
}

//! Expressions of conditions, read from their tokens.
#![tactic(auto)]

ghost use Rattle.std.specs.Prelude.{◌≡◌, ◌<◌, suc, [], ◌∷◌, length, MatchOption, IfOk, IfSome};
ghost use Rattle.cpp_conditions.specs.Expressions.{Unary, Binary};
ghost use Rattle.cpp_conditions.specs.Grammar.{tighter, sign};
ghost use Rattle.cpp_conditions.specs.Machine.{read, Wants};
ghost use Rattle.cpp_conditions.specs.Scanning.{token};
ghost use Rattle.cpp_conditions.specs.Tokens as kinds;
ghost use Rattle.cpp_conditions.specs.Descent.{expression, plain, Loose, IsNoClose, Climbs, IsNoPrefix, IsNoOpen, Asking, Singles, Made, AnswersExpression};

use crate::expression_refusal::ExpressionRefusal;
use crate::operators::{Operator, Prefix};
use crate::tokens::Token;
use std::alloc::Global;

/// An expression: a number by its digits, a name, `defined` of a name, or an operator with its operands.
#[derive(Debug, Drop)]
pub(crate) enum Expression<'a> {
    Number(&'a [u8]),
    Name(&'a [u8]),
    IsDefined(&'a [u8]),
    Unary(Prefix, Box<Expression<'a>>),
    Binary(Operator, Box<Expression<'a>>, Box<Expression<'a>>),
}

/// The first token and what is behind it.
fn cut<'a, 'b>(tokens: &'b [Token<'a>]) -> Option<(Token<'a>, &'b [Token<'a>])>
    ensures value { MatchOption result (plain tokens.now ≡ [])
        (λ x. plain tokens.now ≡ token x.0 ∷ plain x.1.now) }
    ensures shorter { IfSome result (λ x. length tokens.now ≡ suc (length x.1.now)) }
{
    match tokens {
        [] => None,
        [token, behind @ ..] => Some((*token, behind)),
    }
}

/// The operator at the front, if it is of the level or tighter, and what is behind it.
fn operator<'a, 'b>(tokens: &'b [Token<'a>], level: u32) -> Option<(Operator, &'b [Token<'a>])>
    ensures value { MatchOption result (Loose (suc level) (plain tokens.now))
        (λ x. (plain tokens.now ≡ kinds.Oper x.0 ∷ plain x.1.now) × (tighter x.0 < level)) }
    ensures shorter { IfSome result (λ x. length x.1.now < length tokens.now) }
{
    match cut(tokens) {
        Some((Token::Oper(op), behind)) => {
            if op.level() <= level {
                Some((op, behind))
            } else {
                None
            }
        }
        _ => None,
    }
}

/// What is behind a closing parenthesis at the front.
fn close<'a, 'b>(tokens: &'b [Token<'a>]) -> Option<&'b [Token<'a>]>
    ensures value { MatchOption result (IsNoClose (plain tokens.now))
        (λ x. plain tokens.now ≡ kinds.Close ∷ plain x.now) }
    ensures shorter { IfSome result (λ x. length x.now < length tokens.now) }
{
    match cut(tokens) {
        Some((Token::Close, behind)) => Some(behind),
        _ => None,
    }
}

/// The name behind `defined`, in parentheses or not, and what is behind it.
#[tactic(auto, unfolding(crate::specs::Machine::read))]
fn asked<'a, 'b>(tokens: &'b [Token<'a>]) -> Option<(&'a [u8], &'b [Token<'a>])>
    ensures value { Asking result (plain tokens.now) }
    ensures shorter { IfSome result (λ x. length x.1.now < length tokens.now) }
{
    match cut(tokens) {
        Some((Token::Word(name), behind)) => Some((name, behind)),
        Some((Token::Open, inside)) => match cut(inside) {
            Some((Token::Word(name), after)) => match cut(after) {
                Some((Token::Close, behind)) => Some((name, behind)),
                _ => None,
            },
            _ => None,
        },
        _ => None,
    }
}

/// An operator with its operand.
fn unary<'a>(
    alloc: Global,
    op: Prefix,
    operand: Expression<'a>,
) -> Result<Expression<'a>, ExpressionRefusal>
    ensures { Made result (Unary op (expression operand.entry)) }
{
    Ok(Expression::Unary(op, Box::new(alloc, operand)?))
}

/// An operator with its operands.
fn binary<'a>(
    alloc: Global,
    op: Operator,
    left: Expression<'a>,
    right: Expression<'a>,
) -> Result<Expression<'a>, ExpressionRefusal>
    ensures { Made result (Binary op (expression left.entry) (expression right.entry)) }
{
    Ok(Expression::Binary(op, Box::new(alloc, left)?, Box::new(alloc, right)?))
}

/// The operator that stands in front of an operand, and what is behind it.
fn prefix<'a, 'b>(tokens: &'b [Token<'a>]) -> Option<(Prefix, &'b [Token<'a>])>
    ensures value { MatchOption result (IsNoPrefix (plain tokens.now))
        (λ x. plain tokens.now ≡ sign x.0 ∷ plain x.1.now) }
    ensures shorter { IfSome result (λ x. length x.1.now < length tokens.now) }
{
    match cut(tokens) {
        Some((Token::Bang, behind)) => Some((Prefix::Inverse, behind)),
        Some((Token::Oper(Operator::Plus), behind)) => Some((Prefix::Positive, behind)),
        Some((Token::Oper(Operator::Minus), behind)) => Some((Prefix::Negative, behind)),
        _ => None,
    }
}

/// A number, a name or `defined` of a name, and what is behind it.
#[tactic(auto, unfolding(crate::specs::Machine::read))]
fn single<'a, 'b>(tokens: &'b [Token<'a>]) -> Option<(Expression<'a>, &'b [Token<'a>])>
    ensures value { Singles result (plain tokens.now) }
    ensures shorter { IfSome result (λ x. length x.1.now < length tokens.now) }
{
    match cut(tokens) {
        Some((Token::Digits(digits), behind)) => Some((Expression::Number(digits), behind)),
        Some((Token::Word(name), behind)) => Some((Expression::Name(name), behind)),
        Some((Token::Defined, behind)) => match asked(behind) {
            Some((name, after)) => Some((Expression::IsDefined(name), after)),
            None => None,
        },
        _ => None,
    }
}

/// What is behind an opening parenthesis at the front.
fn open<'a, 'b>(tokens: &'b [Token<'a>]) -> Option<&'b [Token<'a>]>
    ensures value { MatchOption result (IsNoOpen (plain tokens.now))
        (λ x. plain tokens.now ≡ kinds.Open ∷ plain x.now) }
    ensures shorter { IfSome result (λ x. length x.now < length tokens.now) }
{
    match cut(tokens) {
        Some((Token::Open, behind)) => Some(behind),
        _ => None,
    }
}

/// An operand: a number, a name, `defined` of a name, an expression in parentheses, or a prefix and its operand.
#[cycle(climb)]
fn operand<'a, 'b>(
    alloc: Global,
    tokens: &'b [Token<'a>],
) -> Result<(Expression<'a>, &'b [Token<'a>]), ExpressionRefusal>
    ensures read { Climbs 0 result (plain tokens.now) }
    ensures shorter { IfOk result (λ x. length x.1.now < length tokens.now) }
{
    if let Some((op, behind)) = prefix(tokens) {
        let (inner, after) = operand(alloc, behind)?;
        let made = unary(alloc, op, inner)?;
        return Ok((made, after));
    }
    if let Some(inside) = open(tokens) {
        let (inner, rest) = climb(alloc, inside, 6)?;
        let Some(after) = close(rest) else {
            return Err(ExpressionRefusal::Wrong);
        };
        return Ok((inner, after));
    }
    match single(tokens) {
        Some(found) => Ok(found),
        None => Err(ExpressionRefusal::Wrong),
    }
}

/// An operand and the operators of the level or tighter that follow it, with their operands.
#[cycle(climb)]
fn climb<'a, 'b>(
    alloc: Global,
    tokens: &'b [Token<'a>],
    level: u32,
) -> Result<(Expression<'a>, &'b [Token<'a>]), ExpressionRefusal>
    ensures read { Climbs level result (plain tokens.now) }
    ensures ends { IfOk result (λ x. Loose (suc level) (plain x.1.now)) }
    ensures shorter { IfOk result (λ x. length x.1.now < length tokens.now) }
{
    let (mut left, mut rest) = operand(alloc, tokens)?;
    'more: while let Some((op, behind)) = operator(rest, level) {
        let (right, next) = climb(alloc, behind, op.level() - 1)?;
        left = binary(alloc, op, left, right)?;
        rest = next;
    }
    Ok((left, rest))
}

/// The expression that the tokens are. It answers `Wrong` where they are none.
pub(crate) fn parse<'a>(
    alloc: Global,
    tokens: &[Token<'a>],
) -> Result<Expression<'a>, ExpressionRefusal>
    ensures { AnswersExpression result (read (Wants []) (plain tokens.now)) }
{
    let (made, rest) = climb(alloc, tokens, 6)?;
    if rest.is_empty() {
        Ok(made)
    } else {
        Err(ExpressionRefusal::Wrong)
    }
}

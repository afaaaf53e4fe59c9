//! What refuses an expression before its numbers are looked at.
#![tactic(auto)]

ghost use Rattle.std.specs.Prelude.{◌≡◌, ◌≤◌, map, false};
ghost use Rattle.cpp_conditions.specs.Expressions.{found};
ghost use Rattle.cpp_conditions.specs.Descent.{expression, plain};
ghost use Rattle.cpp_conditions.specs.Grammar as grammar;
ghost use Rattle.cpp_conditions.specs.Judged as judged;
ghost use Rattle.cpp_conditions.specs.Macros.{macros as plain_macros};
ghost use Rattle.cpp_conditions.specs.Meaning as meaning;
ghost use Rattle.cpp_conditions.specs.Scanning.{token as plainly};
ghost use Rattle.cpp_conditions.specs.Tokens as kinds;

use crate::expressions::Expression;
use crate::macros::{Macros, is_one_of};
use crate::names::Names;
use crate::operators::{Operator, Prefix};
use crate::tokens::Token;
use c_words::begins_with_two_underscores;
use fam_outer::Unknown;

/// 1 for an operator or an opening parenthesis that is not that of `defined`, else 0.
fn weight(token: Token<'_>, is_behind_defined: bool) -> usize
    ensures value { result ≡ kinds.weight is_behind_defined (plainly token.entry) }
    ensures small { result ≤ 1 }
{
    match token {
        Token::Open => { if is_behind_defined { 0 } else { 1 } }
        Token::Bang | Token::Oper(_) | Token::Twice => 1,
        _ => 0,
    }
}

/// Whether a token is `defined`.
fn is_defined(token: Token<'_>) -> bool
    ensures { result ≡ kinds.is_defined (plainly token.entry) }
{
    matches!(token, Token::Defined)
}

/// How many tokens are operators or opening parentheses that are not those of `defined`.
pub(crate) fn count_deep(tokens: &[Token<'_>]) -> usize
    ensures { result ≡ kinds.weight_behind false (plain tokens.now) }
{
    let mut count = 0;
    let mut is_behind_defined = false;
    for token in tokens {
        count += weight(*token, is_behind_defined);
        is_behind_defined = is_defined(*token);
    }
    count
}

/// Whether a name in the expression begins with two underscores.
pub(crate) fn has_reserved(tree: &Expression<'_>) -> bool
    ensures { result ≡ grammar.has_reserved (expression tree.now) }
{
    match tree {
        Expression::Number(_) => false,
        Expression::Name(name) | Expression::IsDefined(name) => begins_with_two_underscores(name),
        Expression::Unary(_, operand) => has_reserved(operand),
        Expression::Binary(_, left, right) => has_reserved(left) || has_reserved(right),
    }
}

/// Whether a name is that of no feature, and none of those that the file defines.
fn is_unknown(file: &[&[u8]], names: &Names<'_>, name: &[u8]) -> bool
    ensures { result ≡ grammar.is_unknown (map (λ it. it.now) file.now) names.now name.now }
{
    !is_one_of(file, name) && names.number(name).is_none()
}

/// Whether a name in the expression is that of no feature, and none of those that the file defines.
fn has_unknown(file: &[&[u8]], names: &Names<'_>, tree: &Expression<'_>) -> bool
    ensures { result ≡ grammar.has_unknown (map (λ it. it.now) file.now) names.now (expression tree.now) }
{
    match tree {
        Expression::Number(_) => false,
        Expression::Name(name) | Expression::IsDefined(name) => is_unknown(file, names, name),
        Expression::Unary(_, operand) => has_unknown(file, names, operand),
        Expression::Binary(_, left, right) => {
            has_unknown(file, names, left) || has_unknown(file, names, right)
        }
    }
}

/// Whether a name that no feature has refuses the expression.
pub(crate) fn unknown_refuses(macros: Macros<'_>, names: &Names<'_>, tree: &Expression<'_>) -> bool
    ensures { result ≡ grammar.unknown_refuses (plain_macros macros.entry) names.now (expression tree.now) }
{
    match macros.unknown {
        Unknown::Zero => false,
        Unknown::Refuse => has_unknown(macros.file, names, tree),
    }
}

/// Whether a name in the expression is one of those that are defined above it.
pub(crate) fn has_defined(above: &[&[u8]], tree: &Expression<'_>) -> bool
    ensures { result ≡ grammar.has_defined (map (λ it. it.now) above.now) (expression tree.now) }
{
    match tree {
        Expression::Number(_) => false,
        Expression::Name(name) | Expression::IsDefined(name) => is_one_of(above, name),
        Expression::Unary(_, operand) => has_defined(above, operand),
        Expression::Binary(_, left, right) => has_defined(above, left) || has_defined(above, right),
    }
}

/// Whether an operator gives truth values.
pub(crate) fn gives_truth(op: Operator) -> bool
    ensures { result ≡ meaning.gives_truth op }
{
    match op {
        Operator::Times | Operator::Plus | Operator::Minus => false,
        _ => true,
    }
}

/// Whether the expression is a truth value, and no number.
fn is_truth(tree: &Expression<'_>) -> bool
    ensures { result ≡ meaning.is_truth (expression tree.now) }
{
    match tree {
        Expression::Unary(op, _) => *op == Prefix::Inverse,
        Expression::Binary(op, _, _) => gives_truth(*op),
        _ => false,
    }
}

/// Whether an operator takes its operands: truth values or numbers alone, which both name a feature or do not.
fn suits(op: Operator, are_numbers: bool, both_named: bool) -> bool
    ensures { result ≡ meaning.suits_operator op are_numbers both_named }
{
    match op {
        Operator::Both | Operator::Either => true,
        Operator::Times => are_numbers && !both_named,
        _ => are_numbers,
    }
}

/// Whether the name is that of a Boolean feature.
fn is_boolean(names: &Names<'_>, name: &[u8]) -> bool
    ensures { result ≡ meaning.is_boolean names.now (found name.now names.now) }
{
    match names.number(name) {
        Some(number) => names.is_boolean(number),
        None => false,
    }
}

/// Whether the expression names a feature; none where a truth value in it is used as a number, or both sides of a
/// product name a feature.
pub(crate) fn named(names: &Names<'_>, tree: &Expression<'_>) -> Option<bool>
    ensures { judged.Names names.now (expression tree.now) result }
{
    match tree {
        Expression::Number(_) => Some(false),
        Expression::Name(name) => Some(names.number(name).is_some()),
        Expression::IsDefined(name) => Some(is_boolean(names, name)),
        Expression::Unary(op, operand) => {
            let is_named = named(names, operand)?;
            if *op == Prefix::Inverse || !is_truth(operand) {
                Some(is_named)
            } else {
                None
            }
        }
        Expression::Binary(op, left, right) => {
            let is_left = named(names, left)?;
            let is_right = named(names, right)?;
            if suits(
                *op,
                !is_truth(left) && !is_truth(right),
                is_left && is_right,
            ) {
                Some(is_left || is_right)
            } else {
                None
            }
        }
    }
}

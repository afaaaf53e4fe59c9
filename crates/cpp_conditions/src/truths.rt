//! Conditions of expressions.
#![tactic(auto)]

ghost use Rattle.std.specs.Prelude.{◌≡◌, ◌&&◌, true};
ghost use Rattle.cpp_conditions.specs.Descent.{expression};
ghost use Rattle.cpp_conditions.specs.Forming.{IsNumber, Means};
ghost use Rattle.cpp_conditions.specs.Grammar.{are_small_forms, is_small_compared, is_small_condition};
ghost use Rattle.cpp_conditions.specs.Meaning as meaning;

use crate::comparing::{compare, is_zero};
use crate::conditions::{Condition, both, either, negation};
use crate::expressions::Expression;
use crate::forming::form;
use crate::names::Names;
use crate::operators::{Operator, Prefix};
use linear_atoms::LinearFault;
use std::alloc::Global;

/// The condition that a number is not 0.
fn of_number(
    alloc: Global,
    names: &Names<'_>,
    tree: &Expression<'_>,
) -> Result<Condition, LinearFault>
    ensures { IsNumber names.now (expression tree.now)
        → Means names.now result (meaning.cond names.now (expression tree.now))
        (is_small_condition names.now (expression tree.now)) }
{
    let form = form(alloc, names, tree)?;
    let zero = is_zero(alloc, names, form)?;
    Ok(negation(alloc, zero)?)
}

/// The condition of a comparison of two numbers.
fn of_comparison(
    alloc: Global,
    names: &Names<'_>,
    op: Operator,
    left: &Expression<'_>,
    right: &Expression<'_>,
) -> Result<Condition, LinearFault>
    ensures { IsNumber names.now (expression left.now) → IsNumber names.now (expression right.now)
        → Means names.now result
        (meaning.compared names.now op (meaning.difference (meaning.form names.now (expression left.now)) (meaning.form names.now (expression right.now))))
        ((are_small_forms names.now (expression left.now) && are_small_forms names.now (expression right.now))
        && is_small_compared op (meaning.difference (meaning.form names.now (expression left.now)) (meaning.form names.now (expression right.now)))) }
{
    let left = form(alloc, names, left)?;
    let right = form(alloc, names, right)?;
    compare(alloc, names, op, left, right)
}

/// The condition that an expression means, where no truth value in it is used as a number and no product has a
/// feature on both sides. It answers `TooLarge` where a number is too large.
pub(crate) fn condition(
    alloc: Global,
    names: &Names<'_>,
    tree: &Expression<'_>,
) -> Result<Condition, LinearFault>
    ensures { meaning.is_linear names.now (expression tree.now) ≡ true
        → Means names.now result (meaning.cond names.now (expression tree.now))
        (is_small_condition names.now (expression tree.now)) }
{
    match tree {
        Expression::Unary(op, operand) => match op {
            Prefix::Inverse => {
                let inner = condition(alloc, names, operand)?;
                Ok(negation(alloc, inner)?)
            }
            _ => of_number(alloc, names, tree),
        },
        Expression::Binary(op, left, right) => match op {
            Operator::Times | Operator::Plus | Operator::Minus => of_number(alloc, names, tree),
            Operator::Both => {
                let left = condition(alloc, names, left)?;
                let right = condition(alloc, names, right)?;
                Ok(both(alloc, left, right)?)
            }
            Operator::Either => {
                let left = condition(alloc, names, left)?;
                let right = condition(alloc, names, right)?;
                Ok(either(alloc, left, right)?)
            }
            _ => of_comparison(alloc, names, *op, left, right),
        },
        _ => of_number(alloc, names, tree),
    }
}

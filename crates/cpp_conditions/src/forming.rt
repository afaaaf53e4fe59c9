//! Linear forms of expressions that are numbers.
#![tactic(auto)]

ghost use Rattle.std.specs.Prelude.{◌≡◌, ◌≤◌, ◌<◌, pos, true, IfOk};
ghost use Rattle.cpp_conditions.specs.declared.operators.Operator.TheVariants as operators;
ghost use Rattle.linear_atoms.specs.Forms as forms;
ghost use Rattle.cpp_conditions.specs.Descent.{expression};
ghost use Rattle.cpp_conditions.specs.Expressions.{found};
ghost use Rattle.cpp_conditions.specs.Forming.{IsNumber, IsSmallOver, Forms, combined};
ghost use Rattle.cpp_conditions.specs.Grammar.{are_small_forms};
ghost use Rattle.cpp_conditions.specs.Meaning as meaning;
ghost use Rattle.cpp_conditions.specs.Integers as specs;

use crate::expressions::Expression;
use crate::integers::integer_value;
use crate::names::Names;
use crate::operators::{Operator, Prefix};
use linear_atoms::{Linear, LinearFault};
use std::alloc::Global;

/// The greatest number of a form.
const GREATEST: u32 = 2_147_483_648;

/// The number of an integer constant, and that which is too large for each that is.
fn number(digits: &[u8]) -> u64
    ensures exact { specs.integer_value digits.now ≤ 2147483648 → result ≡ specs.integer_value digits.now }
    ensures large { 2147483648 < specs.integer_value digits.now → result ≡ 2147483649 }
{
    match integer_value(digits, GREATEST) {
        Some(value) => value as u64,
        None => GREATEST as u64 + 1,
    }
}

/// The form of a number.
fn literal(alloc: Global, names: &Names<'_>, digits: &[u8]) -> Result<Linear, LinearFault>
    ensures { Forms names.now result (forms.constant_form (pos (specs.integer_value digits.now)))
        (forms.is_small (pos (specs.integer_value digits.now))) }
{
    Linear::constant(alloc, number(digits) as i64)
}

/// The form of a name.
fn name(alloc: Global, names: &Names<'_>, name: &[u8]) -> Result<Linear, LinearFault>
    ensures { Forms names.now result (meaning.name_form (found name.now names.now)) true }
{
    let Some(number) = names.number(name) else {
        return Linear::constant(alloc, 0);
    };
    Ok(Linear::feature(alloc, number)?)
}

/// The form of `defined` of a name.
fn defined(alloc: Global, names: &Names<'_>, name: &[u8]) -> Result<Linear, LinearFault>
    ensures { Forms names.now result (meaning.defined_form names.now (found name.now names.now)) true }
{
    match names.number(name) {
        Some(number) => {
            if names.is_boolean(number) {
                Ok(Linear::feature(alloc, number)?)
            } else {
                Linear::constant(alloc, 1)
            }
        }
        None => Linear::constant(alloc, 0),
    }
}

/// The form of a number behind `+` or `-`.
fn signed(
    alloc: Global,
    names: &Names<'_>,
    op: Prefix,
    operand: Linear,
) -> Result<Linear, LinearFault>
    requires { IsSmallOver names.now operand }
    ensures { Forms names.now result (meaning.form_before op operand)
        (forms.is_small_form (meaning.form_before op operand)) }
{
    match op {
        Prefix::Negative => operand.scale(alloc, -1),
        _ => Ok(operand),
    }
}

/// The form of a product, of which one side has no terms.
fn product(
    alloc: Global,
    names: &Names<'_>,
    left: Linear,
    right: Linear,
) -> Result<Linear, LinearFault>
    requires left { IsSmallOver names.now left }
    requires right { IsSmallOver names.now right }
    ensures { Forms names.now result (combined operators.Times left right)
        (forms.is_small_form (combined operators.Times left right)) }
{
    if left.terms.items().is_empty() {
        right.scale(alloc, left.constant)
    } else {
        left.scale(alloc, right.constant)
    }
}

/// The form of a product, a sum or a difference.
fn combined(
    alloc: Global,
    names: &Names<'_>,
    op: Operator,
    left: Linear,
    right: Linear,
) -> Result<Linear, LinearFault>
    requires left { IsSmallOver names.now left }
    requires right { IsSmallOver names.now right }
    ensures { Forms names.now result (combined op left right) (forms.is_small_form (combined op left right)) }
{
    match op {
        Operator::Times => product(alloc, names, left, right),
        Operator::Plus => left.add(alloc, &right),
        _ => {
            let right = right.scale(alloc, -1)?;
            left.add(alloc, &right)
        }
    }
}

/// The form of an expression that is a number.
pub(crate) fn form(
    alloc: Global,
    names: &Names<'_>,
    tree: &Expression<'_>,
) -> Result<Linear, LinearFault>
    ensures exact { IsNumber names.now (expression tree.now)
        → Forms names.now result (meaning.form names.now (expression tree.now))
        (are_small_forms names.now (expression tree.now)) }
    ensures over { IfOk result (λ made. IsSmallOver names.now made) }
{
    match tree {
        Expression::Number(digits) => literal(alloc, names, digits),
        Expression::Name(text) => name(alloc, names, text),
        Expression::IsDefined(text) => defined(alloc, names, text),
        Expression::Unary(op, operand) => {
            let operand = form(alloc, names, operand)?;
            signed(alloc, names, *op, operand)
        }
        Expression::Binary(op, left, right) => {
            let left = form(alloc, names, left)?;
            let right = form(alloc, names, right)?;
            combined(alloc, names, *op, left, right)
        }
    }
}

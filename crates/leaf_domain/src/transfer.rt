//! What an expression does to a leaf, generic over the kind of leaf.
#![tactic(auto)]

ghost use Rattle.std.specs.Prelude.{◌≡◌, ◌<◌, IfOk, true, false};
ghost use Rattle.c_tree.specs.Fit.{IsTermOf};
ghost use Rattle.c_tree.specs.View.{term};
ghost use Rattle.leaf_domain.specs.Ranges.{IsInInt};
ghost use Rattle.leaf_domain.specs.Sums.{HasForm};
ghost use Rattle.leaf_domain.specs.Operations.{HasOperation};
ghost use Rattle.leaf_domain.specs.Evaluations.{IsOver, survey_of, stops_of};
ghost use Rattle.leaf_domain.specs.Transfer as transfer;

use crate::differences::form_where;
use crate::evaluation::is_truth;
use crate::form::Form;
use crate::laws::leaf_is_valid;
use crate::leaf::Leaf;
use crate::operation::Operation;
use crate::range::Range;
use crate::sides::{
    Sides, Split, both, compare_operands, compare_zero, comparison, copies, either, sides_of,
    swapped, with_stops,
};
use crate::stops::operator_stops;
use crate::survey::{Survey, negation, number, operation, truth, variable_at};
use c_tree::{Expr, Mode, Op};
use fam_outer::NoMemory;
use std::alloc::Global;

/// All that is found of an expression in a leaf: each part of it is looked at once.
#[cycle(transfer)]
pub(crate) fn survey<L: Leaf>(
    alloc: Global,
    leaf: &L,
    e: &Expr,
    mode: Mode,
) -> Result<Survey, NoMemory>
    requires { IsTermOf (L.value leaf.now).variables (term e.now) }
    ensures value { IfOk result (λ found. found ≡ survey_of L.meaning mode (term e.now) (L.value leaf.now)) }
    ensures over { IfOk result (IsOver (L.value leaf.now).variables) }
{
    if is_truth(e) {
        let made = split_with_stops(alloc, leaf, e, mode)?;
        return Ok(truth(&made.when_true, &made.when_false, mode, made.stops));
    }
    match e {
        Expr::Number(n) => Ok(number(alloc, leaf, *n)),
        Expr::Var(x) => variable_at(alloc, leaf, *x),
        Expr::Neg(a) => {
            let found = survey(alloc, leaf, a, mode)?;
            negation(alloc, leaf, mode, &found)
        }
        Expr::Binary(op, a, b) => {
            let left = survey(alloc, leaf, a, mode)?;
            let right = survey(alloc, leaf, b, mode)?;
            operation(alloc, leaf, mode, *op, left, right)
        }
        Expr::Not(_) => unreachable!(),
    }
}

/// The leaves where an expression is not 0 and where it is, and the kinds with which it may stop:
/// each part of it is looked at once.
#[cycle(transfer)]
pub(crate) fn split_with_stops<L: Leaf>(
    alloc: Global,
    leaf: &L,
    e: &Expr,
    mode: Mode,
) -> Result<Split<L>, NoMemory>
    requires { IsTermOf (L.value leaf.now).variables (term e.now) }
    ensures when_true { IfOk result
        (λ made. L.value made.when_true
        ≡ (transfer.transfer L.meaning mode (term e.now)).when_true (L.value leaf.now)) }
    ensures when_false { IfOk result
        (λ made. L.value made.when_false
        ≡ (transfer.transfer L.meaning mode (term e.now)).when_false (L.value leaf.now)) }
    ensures true_same { IfOk result
        (λ made. (L.value made.when_true).variables ≡ (L.value leaf.now).variables) }
    ensures false_same { IfOk result
        (λ made. (L.value made.when_false).variables ≡ (L.value leaf.now).variables) }
    ensures stops { IfOk result (λ made. made.stops
        ≡ stops_of L.meaning mode (term e.now) (L.value leaf.now)) }
{
    if leaf.is_nothing() {
        return copies(alloc, leaf);
    }
    if !is_truth(e) {
        let found = survey(alloc, leaf, e, mode)?;
        let sides = compare_zero(alloc, leaf, e, &found)?;
        return Ok(with_stops(sides, found.stops));
    }
    match e {
        Expr::Not(a) => Ok(swapped(split_with_stops(alloc, leaf, a, mode)?)),
        Expr::Binary(op, a, b) => match op {
            Op::And => {
                let first = split_with_stops(alloc, leaf, a, mode)?;
                let second = split_with_stops(alloc, &first.when_true, b, mode)?;
                both(alloc, first, second)
            }
            Op::Or => {
                let first = split_with_stops(alloc, leaf, a, mode)?;
                let second = split_with_stops(alloc, &first.when_false, b, mode)?;
                either(alloc, first, second)
            }
            _ => {
                let left = survey(alloc, leaf, a, mode)?;
                let right = survey(alloc, leaf, b, mode)?;
                let sides = compare_operands(alloc, leaf, comparison(*op), a, b, &left, &right)?;
                let (r, s) = (left.evaluation.range, right.evaluation.range);
                let stops = operator_stops(mode, *op, Range::EMPTY, left.stops, right.stops, r, s);
                Ok(with_stops(sides, stops))
            }
        },
        _ => unreachable!(),
    }
}

/// The range of the values of an expression before it is clipped to `int` or folded into it.
pub fn raw_of<L: Leaf>(alloc: Global, leaf: &L, e: &Expr, mode: Mode) -> Result<Range, NoMemory>
    requires { IsTermOf (L.value leaf.now).variables (term e.now) }
    ensures { IfOk result (λ r. r ≡ transfer.raw_of_term L.meaning mode (term e.now) (L.value leaf.now)) }
{
    let found = survey(alloc, leaf, e, mode)?;
    Ok(found.evaluation.raw)
}

/// The range of the values of an expression at the stores of a leaf.
pub fn range_of<L: Leaf>(alloc: Global, leaf: &L, e: &Expr, mode: Mode) -> Result<Range, NoMemory>
    requires { IsTermOf (L.value leaf.now).variables (term e.now) }
    ensures { IfOk result (λ r. r ≡ transfer.range_of_term L.meaning mode (term e.now) (L.value leaf.now)) }
{
    let found = survey(alloc, leaf, e, mode)?;
    Ok(found.evaluation.range)
}

/// Whether no negation, sum, difference or product in the expression leaves `int` at a store of the
/// leaf, where overflows wrap. Where they stop, every expression fits.
pub fn fits<L: Leaf>(alloc: Global, leaf: &L, e: &Expr, mode: Mode) -> Result<bool, NoMemory>
    requires { IsTermOf (L.value leaf.now).variables (term e.now) }
    ensures { IfOk result (λ b. b ≡ transfer.fits_term L.meaning mode (term e.now) (L.value leaf.now)) }
{
    let found = survey(alloc, leaf, e, mode)?;
    Ok(found.evaluation.fits)
}

/// The leaf where an expression is not 0 and the leaf where it is, by one pass over it.
pub fn split<L: Leaf>(alloc: Global, leaf: &L, e: &Expr, mode: Mode) -> Result<Sides<L>, NoMemory>
    requires { IsTermOf (L.value leaf.now).variables (term e.now) }
    ensures when_true { IfOk result
        (λ made. L.value made.when_true
        ≡ transfer.assumed L.meaning mode (term e.now) true (L.value leaf.now)) }
    ensures when_false { IfOk result
        (λ made. L.value made.when_false
        ≡ transfer.assumed L.meaning mode (term e.now) false (L.value leaf.now)) }
    ensures true_same { IfOk result
        (λ made. (L.value made.when_true).variables ≡ (L.value leaf.now).variables) }
    ensures false_same { IfOk result
        (λ made. (L.value made.when_false).variables ≡ (L.value leaf.now).variables) }
{
    let made = split_with_stops(alloc, leaf, e, mode)?;
    Ok(sides_of(made))
}

/// The leaf where an expression is not 0, or is 0.
pub fn assume<L: Leaf>(
    alloc: Global,
    leaf: &L,
    e: &Expr,
    want: bool,
    mode: Mode,
) -> Result<L, NoMemory>
    requires { IsTermOf (L.value leaf.now).variables (term e.now) }
    ensures value { IfOk result (λ made. L.value made
        ≡ transfer.assumed L.meaning mode (term e.now) want (L.value leaf.now)) }
    ensures same { IfOk result (λ made. (L.value made).variables ≡ (L.value leaf.now).variables) }
{
    let Sides {
        when_true,
        when_false,
    } = split(alloc, leaf, e, mode)?;
    if want { Ok(when_true) } else { Ok(when_false) }
}

/// The leaf with a variable set to what an operator gives, where there is one, or to a range.
fn set_operation<L: Leaf>(
    alloc: Global,
    leaf: &L,
    x: u32,
    operation: &Option<Operation>,
    range: Range,
) -> Result<L, NoMemory>
    requires x { x < (L.value leaf.now).variables }
    requires operation { HasOperation (L.value leaf.now).variables operation.now }
    requires range { IsInInt range }
    ensures value { IfOk result (λ made. L.value made
        ≡ transfer.operation_set L.meaning x operation.now range (L.value leaf.now)) }
    ensures same { IfOk result (λ made. (L.value made).variables ≡ (L.value leaf.now).variables) }
{
    leaf_is_valid(leaf);
    match operation {
        None => leaf.set_range(alloc, x, range),
        Some(operation) => leaf.set_operation(alloc, x, operation, range),
    }
}

/// The leaf with a variable set to a form, where there is one, to what an operator gives, or to a range.
fn set<L: Leaf>(
    alloc: Global,
    leaf: &L,
    x: u32,
    form: &Option<Form>,
    operation: &Option<Operation>,
    range: Range,
) -> Result<L, NoMemory>
    requires x { x < (L.value leaf.now).variables }
    requires form { HasForm (L.value leaf.now).variables form.now }
    requires operation { HasOperation (L.value leaf.now).variables operation.now }
    requires range { IsInInt range }
    ensures value { IfOk result (λ made. L.value made
        ≡ transfer.form_set L.meaning x form.now operation.now range (L.value leaf.now)) }
    ensures same { IfOk result (λ made. (L.value made).variables ≡ (L.value leaf.now).variables) }
{
    leaf_is_valid(leaf);
    match form {
        None => set_operation(alloc, leaf, x, operation, range),
        Some(form) => leaf.set_form(alloc, x, form, range),
    }
}

/// The leaf after `x = e`.
pub fn assign<L: Leaf>(alloc: Global, leaf: &L, x: u32, e: &Expr, mode: Mode) -> Result<L, NoMemory>
    requires x { x < (L.value leaf.now).variables }
    requires e { IsTermOf (L.value leaf.now).variables (term e.now) }
    ensures value { IfOk result (λ made. L.value made
        ≡ transfer.assigned L.meaning mode x (term e.now) (L.value leaf.now)) }
    ensures same { IfOk result (λ made. (L.value made).variables ≡ (L.value leaf.now).variables) }
{
    let Survey {
        evaluation,
        form,
        operation,
        ..
    } = survey(alloc, leaf, e, mode)?;
    if evaluation.range.is_empty() {
        return L::nothing(alloc, leaf.variables());
    }
    let form = form_where(form, evaluation.fits);
    set(alloc, leaf, x, &form, &operation, evaluation.range)
}

/// The leaf where an expression has a value: Nothing where it has none, else the leaf.
pub fn valued<L: Leaf>(alloc: Global, leaf: &L, e: &Expr, mode: Mode) -> Result<L, NoMemory>
    requires { IsTermOf (L.value leaf.now).variables (term e.now) }
    ensures value { IfOk result (λ made. L.value made
        ≡ transfer.valued L.meaning mode (term e.now) (L.value leaf.now)) }
    ensures same { IfOk result (λ made. (L.value made).variables ≡ (L.value leaf.now).variables) }
{
    if range_of(alloc, leaf, e, mode)?.is_empty() {
        L::nothing(alloc, leaf.variables())
    } else {
        leaf.copy(alloc)
    }
}

/// The leaf after `x = input()`, which is any number of `int`.
pub fn forget<L: Leaf>(alloc: Global, leaf: &L, x: u32) -> Result<L, NoMemory>
    requires { x < (L.value leaf.now).variables }
    ensures value { IfOk result (λ made. L.value made ≡ transfer.forgotten L.meaning x (L.value leaf.now)) }
    ensures same { IfOk result (λ made. (L.value made).variables ≡ (L.value leaf.now).variables) }
{
    leaf_is_valid(leaf);
    leaf.set_range(alloc, x, Range::INT)
}

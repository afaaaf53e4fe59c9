//! All that one pass over an expression finds in a leaf.
#![tactic(auto)]

ghost use Rattle.std.specs.Prelude.{◌≡◌, ◌<◌, IfOk, IsTrue};
ghost use Rattle.c_tree.specs.Value.{IsInt};
ghost use Rattle.leaf_domain.specs.Ranges.{is_arithmetic};
ghost use Rattle.leaf_domain.specs.Evaluations.{IsOver, number_survey, variable_survey, negation_survey, operation_survey, truth_survey};

use crate::evaluation;
use crate::evaluation::{Evaluation, atom};
use crate::form::Form;
use crate::laws::leaf_is_valid;
use crate::leaf::Leaf;
use crate::linear::{combined, constant, negated, variable};
use crate::operation::{Operation, kept_operation, operation_where};
use crate::range::Range;
use crate::stops::{Stops, negation_stops, no_stops, operator_stops, stops_where_some};
use c_tree::{Mode, Op};
use fam_outer::NoMemory;
use std::alloc::Global;

/// The ranges of an expression, its linear form where it has one, the operator that gives its value where its operands have
/// linear forms, and the kinds with which it may stop.
#[derive(Debug, Drop)]
pub struct Survey {
    pub evaluation: Evaluation,
    pub form: Option<Form>,
    pub operation: Option<Operation>,
    pub stops: Stops,
}

/// A number.
pub(crate) fn number<L: Leaf>(alloc: Global, leaf: &L, n: i64) -> Survey
    requires { IsInt n }
    ensures value { result ≡ number_survey n (L.value leaf.now) }
    ensures over { IsOver (L.value leaf.now).variables result }
{
    Survey {
        evaluation: atom(leaf, Range { low: n, high: n }),
        form: constant(alloc, n),
        operation: None,
        stops: no_stops(),
    }
}

/// A variable.
pub(crate) fn variable_at<L: Leaf>(alloc: Global, leaf: &L, x: u32) -> Result<Survey, NoMemory>
    requires { x < (L.value leaf.now).variables }
    ensures value { IfOk result (λ found. found ≡ variable_survey L.meaning x (L.value leaf.now)) }
    ensures over { IfOk result (IsOver (L.value leaf.now).variables) }
{
    leaf_is_valid(leaf);
    let form = variable(alloc, x)?;
    Ok(Survey {
        evaluation: atom(leaf, leaf.bounds_of(x)),
        form: Some(form),
        operation: None,
        stops: no_stops(),
    })
}

/// The negation of an operand.
pub(crate) fn negation<L: Leaf>(
    alloc: Global,
    leaf: &L,
    mode: Mode,
    a: &Survey,
) -> Result<Survey, NoMemory>
    requires { IsOver (L.value leaf.now).variables a.now }
    ensures value { IfOk result (λ found. found ≡ negation_survey L.meaning mode a.now (L.value leaf.now)) }
    ensures over { IfOk result (IsOver (L.value leaf.now).variables) }
{
    let form = negated(alloc, &a.form)?;
    let found = evaluation::negation(leaf, mode, &form, a.evaluation);
    let stops = negation_stops(mode, found.raw, a.stops, a.evaluation.range);
    Ok(Survey {
        evaluation: found,
        form,
        operation: None,
        stops: stops_where_some(leaf, stops),
    })
}

/// An arithmetic operator on two operands.
pub(crate) fn operation<L: Leaf>(
    alloc: Global,
    leaf: &L,
    mode: Mode,
    op: Op,
    a: Survey,
    b: Survey,
) -> Result<Survey, NoMemory>
    requires op { IsTrue (is_arithmetic op) }
    requires a { IsOver (L.value leaf.now).variables a }
    requires b { IsOver (L.value leaf.now).variables b }
    ensures value { IfOk result (λ found. found
        ≡ operation_survey L.meaning mode op a b (L.value leaf.now)) }
    ensures over { IfOk result (IsOver (L.value leaf.now).variables) }
{
    let form = combined(alloc, op, &a.form, &b.form)?;
    let (left, right) = (a.evaluation, b.evaluation);
    let operation = operation_where(left.fits && right.fits, op, a.form, b.form);
    let found = evaluation::operation(leaf, mode, op, &form, &operation, left, right);
    let stops = operator_stops(
        mode,
        op,
        found.raw,
        a.stops,
        b.stops,
        left.range,
        right.range,
    );
    Ok(Survey {
        evaluation: found,
        form,
        operation: kept_operation(op, found.fits, operation),
        stops: stops_where_some(leaf, stops),
    })
}

/// A truth value that is 1 in the first leaf and 0 in the second.
pub(crate) fn truth<L: Leaf>(when_true: &L, when_false: &L, mode: Mode, stops: Stops) -> Survey
    ensures value { result ≡ truth_survey mode (L.value when_true.now) (L.value when_false.now) stops }
    ensures over { IsOver (L.value when_true.now).variables result }
{
    Survey {
        evaluation: evaluation::truth(when_true, when_false, mode),
        form: None,
        operation: None,
        stops,
    }
}

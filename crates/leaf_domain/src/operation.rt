//! Arithmetic operators on operands that have linear forms.
#![tactic(auto)]

ghost use Rattle.std.specs.Prelude.{◌≡◌};
ghost use Rattle.leaf_domain.specs.Operations.{operation_where, operation_if, kept_operation};

use crate::form::Form;
use c_tree::Op;

/// An arithmetic operator with the linear forms of its operands.
#[derive(Debug, Drop)]
pub struct Operation {
    pub op: Op,
    pub left: Form,
    pub right: Form,
}

/// The operator with the forms of its operands, where it counts and there are both.
pub(crate) fn operation_where(
    counts: bool,
    op: Op,
    left: Option<Form>,
    right: Option<Form>,
) -> Option<Operation>
    ensures { result ≡ operation_where counts op left right }
{
    match (counts, left, right) {
        (true, Some(left), Some(right)) => Some(Operation { op, left, right }),
        _ => None,
    }
}

/// The operation, where it counts.
fn operation_if(counts: bool, operation: Option<Operation>) -> Option<Operation>
    ensures { result ≡ operation_if counts operation }
{
    if counts { operation } else { None }
}

/// The operation as one of the values of an expression: a negation, a sum, a difference or a product has its value only where
/// that fits.
pub(crate) fn kept_operation(op: Op, fits: bool, operation: Option<Operation>) -> Option<Operation>
    ensures { result ≡ kept_operation op fits operation }
{
    match op {
        Op::Div | Op::Rem => operation,
        _ => operation_if(fits, operation),
    }
}

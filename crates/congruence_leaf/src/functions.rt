//! Operations that are functions of one form.
#![tactic(auto)]

ghost use Rattle.std.specs.Prelude.{◌≡◌, IfSome};
ghost use Rattle.leaf_domain.specs.Forms.{IsFormNumber};
ghost use Rattle.congruence_leaf.specs.Congruences.{same_form, square_where, quotient_by, remainder_by, function_of, HasDivisor};

use crate::operands::divisor;
use c_tree::Op;
use leaf_domain::{Form, Operation};

/// What an operation makes of its left form.
#[derive(Clone, Copy, Debug, PartialEq, Eq)]
pub(crate) enum Function {
    /// The form times itself.
    Square,
    /// The quotient by a constant, rounded toward 0 (C11 6.5.5).
    Quotient(i64),
    /// The remainder by a constant (C11 6.5.5).
    Remainder(i64),
}

/// Whether the terms and the constants are the same.
fn same_form(f: &Form, g: &Form) -> bool
    ensures { result ≡ same_form f.now g.now }
{
    f.terms == g.terms && f.constant == g.constant
}

/// The square, where the operands are the same.
fn square_where(same: bool) -> Option<Function>
    ensures { result ≡ square_where same }
{
    if same { Some(Function::Square) } else { None }
}

/// The quotient by a divisor, where there is one.
fn quotient_by(divisor: Option<i64>) -> Option<Function>
    ensures { result ≡ quotient_by divisor }
{
    match divisor {
        None => None,
        Some(m) => Some(Function::Quotient(m)),
    }
}

/// The remainder by a divisor, where there is one.
fn remainder_by(divisor: Option<i64>) -> Option<Function>
    ensures { result ≡ remainder_by divisor }
{
    match divisor {
        None => None,
        Some(m) => Some(Function::Remainder(m)),
    }
}

/// The function of its left form that an operation is: the square of a form times itself, or the quotient or the remainder by a
/// constant within `int` that is not 0. Other operations are none.
pub(crate) fn function_of(p: &Operation) -> Option<Function>
    requires { IsFormNumber p.now.right.constant }
    ensures value { result ≡ function_of p.now }
    ensures divisor { IfSome result HasDivisor }
{
    match p.op {
        Op::Mul => square_where(same_form(&p.left, &p.right)),
        Op::Div => quotient_by(divisor(&p.right)),
        Op::Rem => remainder_by(divisor(&p.right)),
        _ => None,
    }
}

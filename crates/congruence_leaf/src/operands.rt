//! Forms that are a variable and a constant, and forms that are a constant to divide by.
#![tactic(auto)]

ghost use Rattle.std.specs.Prelude.{◌≡◌, ◌∷◌};
ghost use Rattle.leaf_domain.specs.Forms.{IsFormNumber};
ghost use Rattle.congruence_leaf.specs.Congruences.{lone_variable, is_divisor, divisor_of};

use leaf_domain::{Form, Range};
use linear_terms::first_term;

/// The variable of a term with nothing behind it, where its coefficient is 1.
fn lone_by(x: u32, coefficient: i64, behind: &[(u32, i64)]) -> Option<u32>
    ensures { result ≡ lone_variable ((x, coefficient) ∷ behind.now) }
{
    match first_term(behind) {
        None => { if coefficient == 1 { Some(x) } else { None } }
        Some((_x, _coefficient, _behind)) => None,
    }
}

/// The variable of a form that is a variable and a constant.
pub(crate) fn lone_variable(f: &Form) -> Option<u32>
    ensures { result ≡ lone_variable f.now.terms }
{
    match first_term(f.terms.items()) {
        None => None,
        Some((x, coefficient, behind)) => lone_by(x, coefficient, behind),
    }
}

/// Whether a number is within `int`, and not 0.
fn is_divisor(m: i64) -> bool
    ensures { result ≡ is_divisor m }
{
    Range::INT.low <= m && (m <= Range::INT.high && m != 0)
}

/// The number of a form that is a constant to divide by.
pub(crate) fn divisor(f: &Form) -> Option<i64>
    requires { IsFormNumber f.now.constant }
    ensures { result ≡ divisor_of f.now }
{
    match first_term(f.terms.items()) {
        None => {
            if is_divisor(f.constant) {
                Some(f.constant)
            } else {
                None
            }
        }
        Some((_x, _coefficient, _behind)) => None,
    }
}

//! What an operation gives that is a function of one form, where the variables have these parts.
#![tactic(auto)]

ghost use Rattle.std.specs.Prelude.{◌≡◌, ◌≤◌, ◌≤ℤ◌, true, length, IfSome};
ghost use Rattle.c_tree.specs.Value.{least, greatest};
ghost use Rattle.leaf_domain.specs.Forms.{IsForm, IsFormNumber};
ghost use Rattle.leaf_domain.specs.Operations.{IsOperation};
ghost use Rattle.leaf_domain.specs.Ranges.{IsInInt};
ghost use Rattle.strides.specs.Strides.{IsReduced};
ghost use Rattle.strides.specs.Strided.{best_part, IsOwn};
ghost use Rattle.product_leaf.specs.StrideLeaves.{AllOwn};
ghost use Rattle.congruence_leaf.specs.Congruences.{moved_within, form_reach, form_numbers, HasDivisor, applied, applied_by, results_of, is_int, is_in_int};

use crate::functions::{Function, function_of};
use crate::operands::lone_variable;
use crate::quotients::quotients;
use crate::remainders::{remainders, strided_in};
use crate::squares::squares;
use leaf_domain::{Form, Operation, Range};
use product_leaf::form_stride::form_stride;
use strides::{Stride, Strided};

/// A range with so much added to each number, as far as it lies within `int`.
fn moved_within(range: Range, by: i64) -> Range
    requires range { IsInInt range }
    requires by { IsFormNumber by }
    ensures value { result ≡ moved_within by range }
    ensures low { least ≤ℤ result.low }
    ensures high { result.high ≤ℤ greatest }
{
    Range {
        low: Range::INT.low.max(range.low + by),
        high: Range::INT.high.min(range.high + by),
    }
}

/// The range of a form within `int`: that of its variable, where it is a variable and a constant.
fn reach(parts: &[Strided], f: &Form) -> Range
    requires own { AllOwn parts.now }
    requires form { IsForm (length parts.now) f.now }
    ensures value { result ≡ form_reach parts.now f.now }
    ensures low { least ≤ℤ result.low }
    ensures high { result.high ≤ℤ greatest }
{
    match lone_variable(f) {
        None => Range::INT,
        Some(x) => moved_within(parts[x as usize].range(), f.constant),
    }
}

/// The numbers within `int` that a form may have, by their best bounds; none where there is none.
fn form_numbers(parts: &[Strided], f: &Form) -> Option<Strided>
    requires few { length parts.now ≤ 48 }
    requires own { AllOwn parts.now }
    requires form { IsForm (length parts.now) f.now }
    ensures value { result ≡ best_part (form_numbers parts.now f.now) }
    ensures own { IfSome result IsOwn }
{
    let range = reach(parts, f);
    let stride = form_stride(parts, f);
    Strided::best(range.low, range.high, stride)
}

/// The values of a function at numbers of which the low is one.
fn applied(numbers: Strided, function: Function) -> Strided
    requires own { IsOwn numbers }
    requires divisor { HasDivisor function }
    ensures { result ≡ applied numbers function }
{
    match function {
        Function::Square => squares(numbers),
        Function::Quotient(m) => quotients(numbers, m),
        Function::Remainder(m) => remainders(numbers, m),
    }
}

/// The values at the numbers, where there are some.
fn applied_by(numbers: Option<Strided>, function: Function) -> Strided
    requires own { IfSome numbers IsOwn }
    requires divisor { HasDivisor function }
    ensures { result ≡ applied_by numbers function }
{
    match numbers {
        None => strided_in(Range::EMPTY, Stride::ALL),
        Some(numbers) => applied(numbers, function),
    }
}

/// The numbers that an operation may give, by their best bounds, where it is a function of its left form. A square and a
/// quotient by -1 may pass `int`.
pub(crate) fn results(parts: &[Strided], p: &Operation) -> Option<Strided>
    requires few { length parts.now ≤ 48 }
    requires own { AllOwn parts.now }
    requires p { IsOperation (length parts.now) p.now }
    ensures value { result ≡ results_of parts.now p.now }
    ensures reduced { IfSome result (λ b. IsReduced b.stride) }
{
    match function_of(p) {
        None => None,
        Some(function) => {
            let numbers = form_numbers(parts, &p.left);
            Some(applied_by(numbers, function).reduced())
        }
    }
}

/// Whether a number is within `int`.
fn is_int(n: i64) -> bool
    ensures { result ≡ is_int n }
{
    Range::INT.low <= n && n <= Range::INT.high
}

/// Whether both ends are within `int`.
pub(crate) fn is_in_int(range: Range) -> bool
    ensures value { result ≡ is_in_int range }
    ensures int { result ≡ true → IsInInt range }
{
    is_int(range.low) && is_int(range.high)
}

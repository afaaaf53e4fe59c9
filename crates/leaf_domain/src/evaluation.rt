//! What one pass over an expression finds of its values at the stores of a leaf.
#![tactic(auto)]

ghost use Rattle.std.specs.Prelude.{◌≡◌, IsTrue, not, true};
ghost use Rattle.c_tree.specs.View.{term};
ghost use Rattle.leaf_domain.specs.Ranges.{IsInInt, is_arithmetic};
ghost use Rattle.leaf_domain.specs.Sums.{HasForm};
ghost use Rattle.leaf_domain.specs.Operations.{HasOperation};
ghost use Rattle.leaf_domain.specs.Transfer.{fits_in, truth_range, negated_range, is_inside, results_in, raw_of_sum, form_range_of, form_where, operation_range_of, operands_range, narrowed_by};
ghost use Rattle.leaf_domain.specs.Evaluations.{is_truth_term, truth_at, number_at, modular_at, divided_at, negation_at, arithmetic_at};

use crate::form::Form;
use crate::leaf::Leaf;
use crate::operation::Operation;
use crate::range::{Range, arithmetic};
use c_tree::{Expr, Mode, Op};

/// The ranges of an expression before and after it is clipped to `int` or folded into it, and
/// whether no sum or product in it leaves `int`.
#[derive(Clone, Copy, Debug)]
pub struct Evaluation {
    pub raw: Range,
    pub range: Range,
    pub fits: bool,
}

/// Whether the expression is a truth value.
pub(crate) fn is_truth(e: &Expr) -> bool
    ensures { result ≡ is_truth_term (term e.now) }
{
    match e {
        Expr::Not(_) => true,
        Expr::Binary(op, _, _) => is_truth_op(*op),
        _ => false,
    }
}

fn is_truth_op(op: Op) -> bool
    ensures { result ≡ not (is_arithmetic op) }
{
    match op {
        Op::Add | Op::Sub | Op::Mul | Op::Div | Op::Rem => false,
        _ => true,
    }
}

/// In the mode in which an overflow stops every expression fits.
fn fits_in(mode: Mode, fits: bool) -> bool
    ensures { result ≡ fits_in mode fits }
{
    match mode {
        Mode::Stop => true,
        Mode::Wrap => fits,
    }
}

/// The range of a truth value that may be 1 and may be 0.
fn truth_range(may_hold: bool, may_fail: bool) -> Range
    ensures value { result ≡ truth_range may_hold may_fail }
    ensures int { IsInInt result }
{
    let one = if may_hold {
        Range { low: 1, high: 1 }
    } else {
        Range::EMPTY
    };
    let zero = if may_fail {
        Range { low: 0, high: 0 }
    } else {
        Range::EMPTY
    };
    one.hull(zero)
}

/// A truth value that is 1 in the first leaf and 0 in the second.
pub(crate) fn truth<L: Leaf>(when_true: &L, when_false: &L, mode: Mode) -> Evaluation
    ensures value { result ≡ truth_at mode (L.value when_true.now) (L.value when_false.now) }
    ensures int { IsInInt result.range }
{
    let range = truth_range(!when_true.is_nothing(), !when_false.is_nothing());
    Evaluation {
        raw: range,
        range,
        fits: fits_in(mode, false),
    }
}

/// A number with these ranges, which are empty at Nothing.
fn number<L: Leaf>(leaf: &L, raw: Range, range: Range, fits: bool) -> Evaluation
    requires { IsInInt range }
    ensures value { result ≡ number_at (L.value leaf.now) raw range fits }
    ensures int { IsInInt result.range }
{
    if leaf.is_nothing() {
        Evaluation {
            raw: Range::EMPTY,
            range: Range::EMPTY,
            fits,
        }
    } else {
        Evaluation { raw, range, fits }
    }
}

/// A number or a variable of this range.
pub(crate) fn atom<L: Leaf>(leaf: &L, range: Range) -> Evaluation
    requires { IsInInt range }
    ensures value { result ≡ number_at (L.value leaf.now) range range true }
    ensures int { IsInInt result.range }
{
    number(leaf, range, range, true)
}

/// The range of the negated numbers.
fn negated(a: Range) -> Range
    requires { IsInInt a }
    ensures { result ≡ negated_range a }
{
    if a.is_empty() {
        Range::EMPTY
    } else {
        Range {
            low: -a.high,
            high: -a.low,
        }
    }
}

/// An empty range, or one within `int`.
pub(crate) fn is_inside(a: Range) -> bool
    ensures { result ≡ is_inside a }
{
    a.is_empty() || Range::INT.low <= a.low && a.high <= Range::INT.high
}

/// The range of the results: overflows stop, or wrap.
fn results_in(mode: Mode, a: Range) -> Range
    ensures value { result ≡ results_in mode a }
    ensures int { IsInInt result }
{
    match mode {
        Mode::Stop => a.clip(),
        Mode::Wrap => a.fold(),
    }
}

/// The range of a form in a leaf, where there is one and it counts.
fn form_range<L: Leaf>(leaf: &L, form: &Option<Form>, counts: bool) -> Option<Range>
    requires { HasForm (L.value leaf.now).variables form.now }
    ensures { result ≡ form_range_of L.meaning (form_where counts form.now) (L.value leaf.now) }
{
    match (counts, form) {
        (true, Some(form)) => leaf.form_range(form),
        _ => None,
    }
}

/// The range of a sum or a product before it is clipped, met with that of its form where the
/// operands fit.
fn raw_of_sum<L: Leaf>(leaf: &L, form: &Option<Form>, operands_fit: bool, plain: Range) -> Range
    requires { HasForm (L.value leaf.now).variables form.now }
    ensures { result ≡ raw_of_sum L.meaning form.now operands_fit plain (L.value leaf.now) }
{
    match form_range(leaf, form, operands_fit) {
        Some(range) => plain.meet(range),
        None => plain,
    }
}

/// A negation, a sum, a difference or a product of this form and this range.
fn modular<L: Leaf>(
    leaf: &L,
    mode: Mode,
    form: &Option<Form>,
    operands_fit: bool,
    plain: Range,
) -> Evaluation
    requires { HasForm (L.value leaf.now).variables form.now }
    ensures value { result ≡ modular_at L.meaning mode form.now operands_fit plain (L.value leaf.now) }
    ensures int { IsInInt result.range }
{
    let raw = raw_of_sum(leaf, form, operands_fit, plain);
    let fits = fits_in(mode, operands_fit && is_inside(raw));
    number(leaf, raw, results_in(mode, raw), fits)
}

/// A quotient or a remainder of this range.
fn divided<L: Leaf>(leaf: &L, mode: Mode, plain: Range) -> Evaluation
    ensures value { result ≡ divided_at mode plain (L.value leaf.now) }
    ensures int { IsInInt result.range }
{
    number(
        leaf,
        plain,
        results_in(Mode::Stop, plain),
        fits_in(mode, false),
    )
}

/// The negation of an operand.
pub(crate) fn negation<L: Leaf>(
    leaf: &L,
    mode: Mode,
    form: &Option<Form>,
    a: Evaluation,
) -> Evaluation
    requires form { HasForm (L.value leaf.now).variables form.now }
    requires a { IsInInt a.range }
    ensures value { result ≡ negation_at L.meaning mode form.now a (L.value leaf.now) }
    ensures int { IsInInt result.range }
{
    modular(leaf, mode, form, a.fits, negated(a.range))
}

/// The range of what an operator gives in a leaf, where its operands have forms that count and the kind of leaf has one.
fn operation_range<L: Leaf>(leaf: &L, p: &Option<Operation>) -> Option<Range>
    requires { HasOperation (L.value leaf.now).variables p.now }
    ensures { result ≡ operation_range_of L.meaning p.now (L.value leaf.now) }
{
    match p {
        Some(p) => leaf.operation_range(p),
        None => None,
    }
}

/// The range met with another, where there is one.
fn narrowed(range: Range, by: Option<Range>) -> Range
    ensures { result ≡ narrowed_by by range }
{
    match by {
        Some(by) => range.meet(by),
        None => range,
    }
}

/// The range of an operator on operands of these ranges before clipping, met with that of the operation.
fn operands_range<L: Leaf>(leaf: &L, op: Op, p: &Option<Operation>, a: Range, b: Range) -> Range
    requires op { IsTrue (is_arithmetic op) }
    requires p { HasOperation (L.value leaf.now).variables p.now }
    requires a { IsInInt a }
    requires b { IsInInt b }
    ensures { result ≡ operands_range L.meaning op p.now a b (L.value leaf.now) }
{
    narrowed(arithmetic(op, a, b), operation_range(leaf, p))
}

/// An arithmetic operator on two operands.
pub(crate) fn operation<L: Leaf>(
    leaf: &L,
    mode: Mode,
    op: Op,
    form: &Option<Form>,
    p: &Option<Operation>,
    a: Evaluation,
    b: Evaluation,
) -> Evaluation
    requires op { IsTrue (is_arithmetic op) }
    requires form { HasForm (L.value leaf.now).variables form.now }
    requires p { HasOperation (L.value leaf.now).variables p.now }
    requires a { IsInInt a.range }
    requires b { IsInInt b.range }
    ensures value { result ≡ arithmetic_at L.meaning mode op form.now p.now a b (L.value leaf.now) }
    ensures int { IsInInt result.range }
{
    let plain = operands_range(leaf, op, p, a.range, b.range);
    match op {
        Op::Div | Op::Rem => divided(leaf, mode, plain),
        _ => modular(leaf, mode, form, a.fits && b.fits, plain),
    }
}

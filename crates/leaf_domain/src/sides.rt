//! The leaves where an expression is not 0 and where it is.
#![tactic(auto)]

ghost use Rattle.std.specs.Prelude.{◌≡◌, ◌<◌, IfOk, IfSome};
ghost use Rattle.c_tree.specs.Fit.{IsTermOf};
ghost use Rattle.c_tree.specs.View.{term};
ghost use Rattle.leaf_domain.specs.declared.compare.Compare.TheVariants.{Ne, Eq};
ghost use Rattle.leaf_domain.specs.Ranges.{IsInInt};
ghost use Rattle.leaf_domain.specs.Compares.{negation_of};
ghost use Rattle.leaf_domain.specs.Sums.{HasForm};
ghost use Rattle.leaf_domain.specs.Operations.{HasOperation};
ghost use Rattle.leaf_domain.specs.Transfer.{variable_of, met, form_met, operation_met};
ghost use Rattle.leaf_domain.specs.Evaluations.{IsOperand, IsOver, no_stops, joined_stops, compared_at, operands_compared_at, compared_terms, compared_zero, compare_of_op};

use crate::compare::{Compare, cut, mirror, negation};
use crate::differences::{difference_where, less_zero_where};
use crate::form::Form;
use crate::laws::leaf_is_valid;
use crate::leaf::Leaf;
use crate::operation::Operation;
use crate::range::Range;
use crate::stops::{Stops, joined_stops, no_stops};
use crate::survey::Survey;
use c_tree::{Expr, Op};
use fam_outer::NoMemory;
use std::alloc::Global;

/// A leaf where an expression is not 0, and one where it is.
#[derive(Drop)]
pub struct Sides<L> {
    pub when_true: L,
    pub when_false: L,
}

/// A leaf where an expression is not 0, one where it is, and the kinds with which it may stop.
#[derive(Drop)]
pub struct Split<L> {
    pub when_true: L,
    pub when_false: L,
    pub stops: Stops,
}

/// An operand of a comparison: which variable it is, where it is one, and its range.
#[derive(Clone, Copy, Debug)]
pub struct Operand {
    pub variable: Option<u32>,
    pub range: Range,
}

/// The sides with the stops.
pub(crate) fn with_stops<L: Leaf>(sides: Sides<L>, stops: Stops) -> Split<L>
    ensures when_true { result.when_true ≡ sides.when_true }
    ensures when_false { result.when_false ≡ sides.when_false }
    ensures stops { result.stops ≡ stops }
{
    let Sides {
        when_true,
        when_false,
    } = sides;
    Split {
        when_true,
        when_false,
        stops,
    }
}

/// The sides without the stops.
pub(crate) fn sides_of<L: Leaf>(split: Split<L>) -> Sides<L>
    ensures when_true { result.when_true ≡ split.when_true }
    ensures when_false { result.when_false ≡ split.when_false }
{
    let Split {
        when_true,
        when_false,
        stops: _,
    } = split;
    Sides {
        when_true,
        when_false,
    }
}

/// The number of a variable, where the expression is one.
fn variable_in(e: &Expr) -> Option<u32>
    ensures { result ≡ variable_of (term e.now) }
{
    match e {
        Expr::Var(x) => Some(*x),
        _ => None,
    }
}

/// The operand that is this expression of this range.
fn operand_of<L: Leaf>(leaf: &L, e: &Expr, range: Range) -> Operand
    requires e { IsTermOf (L.value leaf.now).variables (term e.now) }
    requires range { IsInInt range }
    ensures variable { result.variable ≡ variable_of (term e.now) }
    ensures range { result.range ≡ range }
    ensures over { IsOperand (L.value leaf.now).variables result }
{
    Operand {
        variable: variable_in(e),
        range,
    }
}

/// The comparison of an operator, and for any other operator that with 0.
pub(crate) fn comparison(op: Op) -> Compare
    ensures { result ≡ compare_of_op op }
{
    match op {
        Op::Lt => Compare::Lt,
        Op::Le => Compare::Le,
        Op::Gt => Compare::Gt,
        Op::Ge => Compare::Ge,
        Op::Eq => Compare::Eq,
        _ => Compare::Ne,
    }
}

/// The same stores by the bounds that are best.
fn best<L: Leaf>(alloc: Global, leaf: &L) -> Result<L, NoMemory>
    ensures value { IfOk result (λ made. L.value made ≡ L.meaning.best (L.value leaf.now)) }
    ensures same { IfOk result (λ made. (L.value made).variables ≡ (L.value leaf.now).variables) }
{
    leaf_is_valid(leaf);
    leaf.best(alloc)
}

/// The join of two leaves.
fn joined<L: Leaf>(alloc: Global, a: &L, b: &L) -> Result<L, NoMemory>
    requires { (L.value a.now).variables ≡ (L.value b.now).variables }
    ensures value { IfOk result (λ made. L.value made ≡ L.meaning.join (L.value a.now) (L.value b.now)) }
    ensures same { IfOk result (λ made. (L.value made).variables ≡ (L.value a.now).variables) }
{
    leaf_is_valid(a);
    leaf_is_valid(b);
    a.join(alloc, b)
}

/// Both sides of a leaf that holds no store: the leaf.
pub(crate) fn copies<L: Leaf>(alloc: Global, leaf: &L) -> Result<Split<L>, NoMemory>
    ensures when_true { IfOk result (λ made. L.value made.when_true ≡ L.value leaf.now) }
    ensures when_false { IfOk result (λ made. L.value made.when_false ≡ L.value leaf.now) }
    ensures stops { IfOk result (λ made. made.stops ≡ no_stops) }
{
    Ok(Split {
        when_true: leaf.copy(alloc)?,
        when_false: leaf.copy(alloc)?,
        stops: no_stops(),
    })
}

/// The sides of `!a` by those of `a`.
pub(crate) fn swapped<L: Leaf>(split: Split<L>) -> Split<L>
    ensures when_true { result.when_true ≡ split.when_false }
    ensures when_false { result.when_false ≡ split.when_true }
    ensures stops { result.stops ≡ split.stops }
{
    let Split {
        when_true,
        when_false,
        stops,
    } = split;
    Split {
        when_true: when_false,
        when_false: when_true,
        stops,
    }
}

/// The sides of `a && b` by those of `a`, and by those of `b` where `a` is not 0.
pub(crate) fn both<L: Leaf>(
    alloc: Global,
    first: Split<L>,
    second: Split<L>,
) -> Result<Split<L>, NoMemory>
    requires { (L.value first.when_false).variables ≡ (L.value second.when_false).variables }
    ensures when_true { IfOk result (λ made. L.value made.when_true ≡ L.value second.when_true) }
    ensures when_false { IfOk result
        (λ made. L.value made.when_false
        ≡ L.meaning.join (L.value first.when_false) (L.value second.when_false)) }
    ensures same { IfOk result (λ made. (L.value made.when_false).variables
        ≡ (L.value first.when_false).variables) }
    ensures stops { IfOk result (λ made. made.stops ≡ joined_stops first.stops second.stops) }
{
    let when_false = joined(alloc, &first.when_false, &second.when_false)?;
    let stops = joined_stops(first.stops, second.stops);
    Ok(Split {
        when_true: second.when_true,
        when_false,
        stops,
    })
}

/// The sides of `a || b` by those of `a`, and by those of `b` where `a` is 0.
pub(crate) fn either<L: Leaf>(
    alloc: Global,
    first: Split<L>,
    second: Split<L>,
) -> Result<Split<L>, NoMemory>
    requires { (L.value first.when_true).variables ≡ (L.value second.when_true).variables }
    ensures when_true { IfOk result
        (λ made. L.value made.when_true
        ≡ L.meaning.join (L.value first.when_true) (L.value second.when_true)) }
    ensures when_false { IfOk result (λ made. L.value made.when_false ≡ L.value second.when_false) }
    ensures same { IfOk result (λ made. (L.value made.when_true).variables
        ≡ (L.value first.when_true).variables) }
    ensures stops { IfOk result (λ made. made.stops ≡ joined_stops first.stops second.stops) }
{
    let when_true = joined(alloc, &first.when_true, &second.when_true)?;
    let stops = joined_stops(first.stops, second.stops);
    Ok(Split {
        when_true,
        when_false: second.when_false,
        stops,
    })
}

/// The leaf met with the range of a variable, where there is one.
fn meet_variable<L: Leaf>(alloc: Global, leaf: L, x: Option<u32>, r: Range) -> Result<L, NoMemory>
    requires x { IfSome x (λ x. x < (L.value leaf).variables) }
    requires r { IsInInt r }
    ensures value { IfOk result (λ made. L.value made ≡ met L.meaning x r (L.value leaf)) }
    ensures same { IfOk result (λ made. (L.value made).variables ≡ (L.value leaf).variables) }
{
    leaf_is_valid(&leaf);
    match x {
        None => Ok(leaf),
        Some(x) => leaf.meet_range(alloc, x, r),
    }
}

/// The leaf met with the comparison of a form with 0, where there is one.
fn meet_form<L: Leaf>(
    alloc: Global,
    leaf: L,
    form: &Option<Form>,
    op: Compare,
) -> Result<L, NoMemory>
    requires { HasForm (L.value leaf).variables form.now }
    ensures value { IfOk result (λ made. L.value made ≡ form_met L.meaning form.now op (L.value leaf)) }
    ensures same { IfOk result (λ made. (L.value made).variables ≡ (L.value leaf).variables) }
{
    leaf_is_valid(&leaf);
    match form {
        None => Ok(leaf),
        Some(form) => leaf.meet_form(alloc, form, op),
    }
}

/// The leaf where the comparison of two operands holds, whose difference has the form.
fn compare<L: Leaf>(
    alloc: Global,
    leaf: &L,
    op: Compare,
    a: Operand,
    b: Operand,
    form: &Option<Form>,
) -> Result<L, NoMemory>
    requires a { IsOperand (L.value leaf.now).variables a }
    requires b { IsOperand (L.value leaf.now).variables b }
    requires form { HasForm (L.value leaf.now).variables form.now }
    ensures value { IfOk result (λ made. L.value made
        ≡ compared_at L.meaning op a b form.now (L.value leaf.now)) }
    ensures same { IfOk result (λ made. (L.value made).variables ≡ (L.value leaf.now).variables) }
{
    let first = cut(op, a.range, b.range);
    if a.range.is_empty() || b.range.is_empty() || first.is_empty() {
        return L::nothing(alloc, leaf.variables());
    }
    let second = cut(mirror(op), b.range, a.range);
    let made = best(alloc, leaf)?;
    let made = meet_variable(alloc, made, a.variable, first)?;
    let made = meet_variable(alloc, made, b.variable, second)?;
    meet_form(alloc, made, form, op)
}

/// The leaf met with the comparison of what an operator gives with some number of the range, where there is one.
fn meet_operation<L: Leaf>(
    alloc: Global,
    leaf: L,
    operation: &Option<Operation>,
    op: Compare,
    r: Range,
) -> Result<L, NoMemory>
    requires operation { HasOperation (L.value leaf).variables operation.now }
    requires r { IsInInt r }
    ensures value { IfOk result (λ made. L.value made ≡ operation_met L.meaning operation.now op r (L.value leaf)) }
    ensures same { IfOk result (λ made. (L.value made).variables ≡ (L.value leaf).variables) }
{
    leaf_is_valid(&leaf);
    match operation {
        None => Ok(leaf),
        Some(operation) => leaf.meet_operation(alloc, operation, op, r),
    }
}

/// The leaf where the comparison of two operands holds, whose difference has the form, and each of which is also seen as what
/// an operator gives, where there is one.
fn compare_operations<L: Leaf>(
    alloc: Global,
    leaf: &L,
    op: Compare,
    a: Operand,
    b: Operand,
    form: &Option<Form>,
    first: &Option<Operation>,
    second: &Option<Operation>,
) -> Result<L, NoMemory>
    requires a { IsOperand (L.value leaf.now).variables a }
    requires b { IsOperand (L.value leaf.now).variables b }
    requires form { HasForm (L.value leaf.now).variables form.now }
    requires first { HasOperation (L.value leaf.now).variables first.now }
    requires second { HasOperation (L.value leaf.now).variables second.now }
    ensures value { IfOk result (λ made. L.value made
        ≡ operands_compared_at L.meaning op a b form.now first.now second.now (L.value leaf.now)) }
    ensures same { IfOk result (λ made. (L.value made).variables ≡ (L.value leaf.now).variables) }
{
    let made = compare(alloc, leaf, op, a, b, form)?;
    let made = meet_operation(alloc, made, first, op, b.range)?;
    meet_operation(alloc, made, second, mirror(op), a.range)
}

/// Both outcomes of a comparison.
fn compare_both<L: Leaf>(
    alloc: Global,
    leaf: &L,
    op: Compare,
    a: Operand,
    b: Operand,
    form: &Option<Form>,
    first: &Option<Operation>,
    second: &Option<Operation>,
) -> Result<Sides<L>, NoMemory>
    requires a { IsOperand (L.value leaf.now).variables a }
    requires b { IsOperand (L.value leaf.now).variables b }
    requires form { HasForm (L.value leaf.now).variables form.now }
    requires first { HasOperation (L.value leaf.now).variables first.now }
    requires second { HasOperation (L.value leaf.now).variables second.now }
    ensures when_true { IfOk result
        (λ made. L.value made.when_true
        ≡ operands_compared_at L.meaning op a b form.now first.now second.now (L.value leaf.now)) }
    ensures when_false { IfOk result
        (λ made. L.value made.when_false
        ≡ operands_compared_at L.meaning (negation_of op) a b form.now first.now second.now (L.value leaf.now)) }
    ensures true_same { IfOk result
        (λ made. (L.value made.when_true).variables ≡ (L.value leaf.now).variables) }
    ensures false_same { IfOk result
        (λ made. (L.value made.when_false).variables ≡ (L.value leaf.now).variables) }
{
    let when_true = compare_operations(alloc, leaf, op, a, b, form, first, second)?;
    let other = negation(op);
    let when_false = compare_operations(alloc, leaf, other, a, b, form, first, second)?;
    Ok(Sides {
        when_true,
        when_false,
    })
}

/// Both outcomes of the comparison of two expressions, by what was found of them.
pub(crate) fn compare_operands<L: Leaf>(
    alloc: Global,
    leaf: &L,
    op: Compare,
    a: &Expr,
    b: &Expr,
    left: &Survey,
    right: &Survey,
) -> Result<Sides<L>, NoMemory>
    requires a { IsTermOf (L.value leaf.now).variables (term a.now) }
    requires b { IsTermOf (L.value leaf.now).variables (term b.now) }
    requires left { IsOver (L.value leaf.now).variables left.now }
    requires right { IsOver (L.value leaf.now).variables right.now }
    ensures when_true { IfOk result
        (λ made. L.value made.when_true
        ≡ compared_terms L.meaning op (variable_of (term a.now)) (variable_of (term b.now)) left.now right.now
        (L.value leaf.now)) }
    ensures when_false { IfOk result
        (λ made. L.value made.when_false
        ≡ compared_terms L.meaning (negation_of op) (variable_of (term a.now))
        (variable_of (term b.now)) left.now right.now (L.value leaf.now)) }
    ensures true_same { IfOk result
        (λ made. (L.value made.when_true).variables ≡ (L.value leaf.now).variables) }
    ensures false_same { IfOk result
        (λ made. (L.value made.when_false).variables ≡ (L.value leaf.now).variables) }
{
    let counts = left.evaluation.fits && right.evaluation.fits;
    let form = difference_where(alloc, &left.form, &right.form, counts)?;
    let a = operand_of(leaf, a, left.evaluation.range);
    let b = operand_of(leaf, b, right.evaluation.range);
    let (first, second) = (&left.operation, &right.operation);
    compare_both(alloc, leaf, op, a, b, &form, first, second)
}

/// The leaves where a number is not 0 and where it is, by what was found of it.
pub(crate) fn compare_zero<L: Leaf>(
    alloc: Global,
    leaf: &L,
    e: &Expr,
    found: &Survey,
) -> Result<Sides<L>, NoMemory>
    requires e { IsTermOf (L.value leaf.now).variables (term e.now) }
    requires found { IsOver (L.value leaf.now).variables found.now }
    ensures when_true { IfOk result
        (λ made. L.value made.when_true
        ≡ compared_zero L.meaning Ne (variable_of (term e.now)) found.now (L.value leaf.now)) }
    ensures when_false { IfOk result
        (λ made. L.value made.when_false
        ≡ compared_zero L.meaning Eq (variable_of (term e.now)) found.now (L.value leaf.now)) }
    ensures true_same { IfOk result
        (λ made. (L.value made.when_true).variables ≡ (L.value leaf.now).variables) }
    ensures false_same { IfOk result
        (λ made. (L.value made.when_false).variables ≡ (L.value leaf.now).variables) }
{
    let form = less_zero_where(alloc, &found.form, found.evaluation.fits)?;
    let zero = Operand {
        variable: None,
        range: Range { low: 0, high: 0 },
    };
    let number = operand_of(leaf, e, found.evaluation.range);
    let (op, first) = (Compare::Ne, &found.operation);
    compare_both(alloc, leaf, op, number, zero, &form, first, &None)
}

//! The linear form of an expression.
#![tactic(auto)]

ghost use Rattle.std.specs.Prelude.{◌≡◌, ℕ, negsuc, IfOk};
ghost use Rattle.c_tree.specs.Fit.{IsTermOf};
ghost use Rattle.c_tree.specs.View.{term};
ghost use Rattle.leaf_domain.specs.Forms.{IsForm, constant_form, variable_form, form_sum, form_by, kept_form, sum_form, multiple_form, difference_form, product_of, product_form, has_no_term, binary_form, form_of_term};
ghost use Rattle.leaf_domain.specs.Sums.{kept_number, formed, HasForm};

use crate::form::Form;
use c_tree::{Expr, Op};
use fam_outer::NoMemory;
use linear_terms::{Terms, within};
use std::alloc::Global;

/// The greatest size of a coefficient or a constant.
const LARGEST: u64 = 1099511627776;

/// The number, where it does not pass 2^40 in size.
fn kept(n: i128) -> Option<i64>
    ensures { result ≡ kept_number n }
{
    within(n, LARGEST)
}

/// The form of these terms and this constant, where there are both.
fn formed(terms: Option<Terms>, constant: Option<i64>) -> Option<Form>
    ensures { result ≡ formed terms constant }
{
    match (terms, constant) {
        (Some(terms), Some(constant)) => Some(Form { terms, constant }),
        _ => None,
    }
}

/// The constant form of a number, where that does not pass 2^40 in size.
pub(crate) fn constant(alloc: Global, n: i64) -> Option<Form>
    ensures { result ≡ kept_form (constant_form n) }
{
    formed(Some(Terms::none(alloc)), kept(n as i128))
}

/// The form of a variable.
pub(crate) fn variable(alloc: Global, x: u32) -> Result<Form, NoMemory>
    ensures { IfOk result (λ made. made ≡ variable_form x) }
{
    Ok(Form {
        terms: Terms::single(alloc, x, 1)?,
        constant: 0,
    })
}

/// The sum of two constants.
fn constants(f: &Form, g: &Form) -> Option<i64>
    ensures { result ≡ kept_number (form_sum f.now g.now).constant }
{
    kept(f.constant as i128 + g.constant as i128)
}

#[tactic(auto, using(crate::proofs::FormLemmas::form_rises))]
/// The sum of two forms, where no number of it passes 2^40 in size.
fn sum_of(alloc: Global, f: &Form, g: &Form) -> Result<Option<Form>, NoMemory>
    requires f { IsForm 48 f.now }
    requires g { IsForm 48 g.now }
    ensures { IfOk result (λ made. made ≡ kept_form (form_sum f.now g.now)) }
{
    let terms = f.terms.add(alloc, &g.terms, LARGEST)?;
    Ok(formed(terms, constants(f, g)))
}

/// A form times a number, where no number of it passes 2^40 in size.
fn multiple_of(alloc: Global, by: i64, f: &Form) -> Result<Option<Form>, NoMemory>
    ensures { IfOk result (λ made. made ≡ kept_form (form_by by f.now)) }
{
    let terms = f.terms.scale(alloc, by, LARGEST)?;
    Ok(formed(terms, kept(linear_terms::product(f.constant, by))))
}

/// The sum of two forms, where there are both.
fn sum(alloc: Global, f: &Option<Form>, g: &Option<Form>) -> Result<Option<Form>, NoMemory>
    requires f { HasForm 48 f.now }
    requires g { HasForm 48 g.now }
    ensures { IfOk result (λ made. made ≡ sum_form f.now g.now) }
{
    match (f, g) {
        (Some(f), Some(g)) => sum_of(alloc, f, g),
        _ => Ok(None),
    }
}

/// A form times a number, where there is one.
fn multiple(alloc: Global, by: i64, f: &Option<Form>) -> Result<Option<Form>, NoMemory>
    ensures { IfOk result (λ made. made ≡ multiple_form by f.now) }
{
    match f {
        Some(f) => multiple_of(alloc, by, f),
        None => Ok(None),
    }
}

/// The difference of two forms, where there are both.
pub(crate) fn difference(
    alloc: Global,
    f: &Option<Form>,
    g: &Option<Form>,
) -> Result<Option<Form>, NoMemory>
    requires f { HasForm 48 f.now }
    requires g { HasForm 48 g.now }
    ensures { IfOk result (λ made. made ≡ difference_form f.now g.now) }
{
    let negated = multiple(alloc, -1, g)?;
    sum(alloc, f, &negated)
}

/// The product of two forms, where one has no term.
fn product_of(alloc: Global, f: &Form, g: &Form) -> Result<Option<Form>, NoMemory>
    ensures { IfOk result (λ made. made ≡ product_of f.now g.now) }
{
    if has_no_term(f) {
        multiple_of(alloc, f.constant, g)
    } else if has_no_term(g) {
        multiple_of(alloc, g.constant, f)
    } else {
        Ok(None)
    }
}

fn has_no_term(f: &Form) -> bool
    ensures { result ≡ has_no_term f.now.terms }
{
    f.terms.items().is_empty()
}

/// The product of two forms, where there are both and one has no term.
fn product(alloc: Global, f: &Option<Form>, g: &Option<Form>) -> Result<Option<Form>, NoMemory>
    ensures { IfOk result (λ made. made ≡ product_form f.now g.now) }
{
    match (f, g) {
        (Some(f), Some(g)) => product_of(alloc, f, g),
        _ => Ok(None),
    }
}

/// The form of a negation, by that of its operand.
pub(crate) fn negated(alloc: Global, f: &Option<Form>) -> Result<Option<Form>, NoMemory>
    ensures { IfOk result (λ made. made ≡ multiple_form (negsuc 0) f.now) }
{
    multiple(alloc, -1, f)
}

/// The form of an operator, by those of its operands.
pub(crate) fn combined(
    alloc: Global,
    op: Op,
    f: &Option<Form>,
    g: &Option<Form>,
) -> Result<Option<Form>, NoMemory>
    requires f { HasForm 48 f.now }
    requires g { HasForm 48 g.now }
    ensures { IfOk result (λ made. made ≡ binary_form op f.now g.now) }
{
    match op {
        Op::Add => sum(alloc, f, g),
        Op::Sub => difference(alloc, f, g),
        Op::Mul => product(alloc, f, g),
        _ => Ok(None),
    }
}

/// The linear form of an expression. There is none where it is not linear, or where a number on the
/// way passes 2^40 in size. A negation, a sum, a difference and a product by a constant are linear.
pub fn form_of(alloc: Global, e: &Expr) -> Result<Option<Form>, NoMemory>
    requires { IsTermOf 48 (term e.now) }
    ensures value { IfOk result (λ f. f ≡ form_of_term (term e.now)) }
    ensures form { (count : ℕ) → IsTermOf count (term e.now) → IfOk result (HasForm count) }
{
    match e {
        Expr::Number(n) => Ok(constant(alloc, *n)),
        Expr::Var(x) => Ok(Some(variable(alloc, *x)?)),
        Expr::Neg(a) => multiple(alloc, -1, &form_of(alloc, a)?),
        Expr::Binary(Op::Add, a, b) => sum(alloc, &form_of(alloc, a)?, &form_of(alloc, b)?),
        Expr::Binary(Op::Sub, a, b) => difference(alloc, &form_of(alloc, a)?, &form_of(alloc, b)?),
        Expr::Binary(Op::Mul, a, b) => product(alloc, &form_of(alloc, a)?, &form_of(alloc, b)?),
        _ => Ok(None),
    }
}

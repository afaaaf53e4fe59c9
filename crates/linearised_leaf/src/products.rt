//! Products of which one factor has one value: their form, and what an assignment of one and a comparison of one say.
#![tactic(auto)]

ghost use Rattle.std.specs.Prelude.{◌≡◌, ◌<◌, IfOk, Some};
ghost use Rattle.leaf_domain.specs.Forms.{IsForm, AreTerms};
ghost use Rattle.leaf_domain.specs.Operations.{IsOperation};
ghost use Rattle.leaf_domain.specs.Ranges.{IsInInt, is_single};
ghost use Rattle.leaf_domain.specs.Sums.{HasForm};
ghost use Rattle.linearised_leaf.specs.Products.{have_one_value, known_value, multiple_by, first_or, operation_form, met_where, less_number, met_between, operation_met, operation_set};
ghost use Rattle.linearised_leaf.specs.Linearised.{linearised};

use crate::differences::set_met;
use crate::forms::{has_variable, kept, less_variable, multiple};
use crate::least::least_value;
use crate::linear::linear_met;
use c_tree::Op;
use fam_outer::NoMemory;
use leaf_domain::{Compare, Form, Leaf, Operation, Range, leaf_is_valid};
use linear_terms::first_term;
use std::alloc::Global;

/// Whether a range has one number.
fn is_single(range: Range) -> bool
    ensures { result ≡ is_single range }
{
    range.low == range.high
}

/// Whether each variable of the terms has one value.
fn have_one_value<L: Leaf>(leaf: &L, terms: &[(u32, i64)]) -> bool
    requires { AreTerms 0 (L.value leaf.now).variables terms.now }
    ensures { result ≡ have_one_value L.meaning (L.value leaf.now) terms.now }
{
    leaf_is_valid(leaf);
    let mut rest = terms;
    'terms: while let Some((x, _factor, behind)) = first_term(rest) {
        if is_single(leaf.bounds_of(x)) {
            rest = behind;
        } else {
            return false;
        }
    }
    true
}

/// The value of a form, where each of its variables has one, and it does not pass 2^40 in size.
fn known_value<L: Leaf>(leaf: &L, f: &Form) -> Option<i64>
    requires { IsForm (L.value leaf.now).variables f.now }
    ensures { result ≡ known_value L.meaning (L.value leaf.now) f.now }
{
    if have_one_value(leaf, f.terms.items()) {
        kept(least_value(leaf, f, 0))
    } else {
        None
    }
}

/// A form so many times, where the number is known.
fn multiple_by(alloc: Global, by: Option<i64>, f: &Form) -> Result<Option<Form>, NoMemory>
    ensures { IfOk result (λ made. made ≡ multiple_by by f.now) }
{
    match by {
        None => Ok(None),
        Some(by) => multiple(alloc, by, f),
    }
}

/// The form of a product, where one of its factors has one value.
fn product_form<L: Leaf>(
    alloc: Global,
    leaf: &L,
    f: &Form,
    g: &Form,
) -> Result<Option<Form>, NoMemory>
    requires f { IsForm (L.value leaf.now).variables f.now }
    requires g { IsForm (L.value leaf.now).variables g.now }
    ensures { IfOk result (λ made. made
        ≡ first_or (multiple_by (known_value L.meaning (L.value leaf.now) f.now) g.now)
        (multiple_by (known_value L.meaning (L.value leaf.now) g.now) f.now)) }
{
    match multiple_by(alloc, known_value(leaf, f), g)? {
        None => multiple_by(alloc, known_value(leaf, g), f),
        Some(product) => Ok(Some(product)),
    }
}

/// The form of an operation: that of a product of which one factor has one value.
fn operation_form<L: Leaf>(alloc: Global, leaf: &L, p: &Operation) -> Result<Option<Form>, NoMemory>
    requires { IsOperation (L.value leaf.now).variables p.now }
    ensures value { IfOk result
        (λ made. made ≡ operation_form L.meaning (L.value leaf.now) p.now) }
    ensures form { IfOk result (HasForm (L.value leaf.now).variables) }
{
    match p.op {
        Op::Mul => product_form(alloc, leaf, &p.left, &p.right),
        _ => Ok(None),
    }
}

/// A leaf met with a comparison of a form with 0, where there is one, linearised.
fn met_where<L: Leaf>(alloc: Global, leaf: L, f: &Option<Form>, op: Compare) -> Result<L, NoMemory>
    requires { HasForm (L.value leaf).variables f.now }
    ensures value { IfOk result
        (λ met. L.value met ≡ met_where L.meaning (L.value leaf) f.now op) }
    ensures same { IfOk result (λ met. (L.value met).variables ≡ (L.value leaf).variables) }
{
    leaf_is_valid(&leaf);
    match f {
        None => Ok(leaf),
        Some(f) => linear_met(alloc, &leaf, f, op),
    }
}

/// A form less a number, where its constant does not pass 2^40 in size.
fn less_number(alloc: Global, f: &Form, n: i64) -> Result<Option<Form>, NoMemory>
    ensures { IfOk result (λ made. made ≡ less_number n f.now) }
{
    match kept(f.constant as i128 - n as i128) {
        None => Ok(None),
        Some(constant) => Ok(Some(Form {
            terms: f.terms.copy(alloc)?,
            constant,
        })),
    }
}

/// A leaf met with a comparison of a form with a number, linearised.
fn met_with<L: Leaf>(alloc: Global, leaf: L, f: &Form, op: Compare, n: i64) -> Result<L, NoMemory>
    requires { IsForm (L.value leaf).variables f.now }
    ensures value { IfOk result
        (λ met. L.value met ≡ met_where L.meaning (L.value leaf) (less_number n f.now) op) }
    ensures same { IfOk result (λ met. (L.value met).variables ≡ (L.value leaf).variables) }
{
    let less = less_number(alloc, f, n)?;
    met_where(alloc, leaf, &less, op)
}

/// A leaf met with a form's comparing so with some number of a range.
fn met_between<L: Leaf>(
    alloc: Global,
    leaf: L,
    f: &Form,
    op: Compare,
    r: Range,
) -> Result<L, NoMemory>
    requires { IsForm (L.value leaf).variables f.now }
    ensures { IfOk result
        (λ met. L.value met ≡ met_between L.meaning (L.value leaf) f.now op r) }
{
    match op {
        Compare::Lt => met_with(alloc, leaf, f, Compare::Lt, r.high),
        Compare::Le => met_with(alloc, leaf, f, Compare::Le, r.high),
        Compare::Gt => met_with(alloc, leaf, f, Compare::Gt, r.low),
        Compare::Ge => met_with(alloc, leaf, f, Compare::Ge, r.low),
        Compare::Eq => {
            let above = met_with(alloc, leaf, f, Compare::Ge, r.low)?;
            met_with(alloc, above, f, Compare::Le, r.high)
        }
        Compare::Ne => {
            if is_single(r) {
                met_with(alloc, leaf, f, Compare::Ne, r.low)
            } else {
                Ok(leaf)
            }
        }
    }
}

/// A leaf in which a variable was set to an operation, met with the variable's being its form. `leaf` is the leaf before.
fn form_set<L: Leaf>(alloc: Global, leaf: &L, x: u32, f: &Form, set: L) -> Result<L, NoMemory>
    requires same { (L.value set).variables ≡ (L.value leaf.now).variables }
    requires x { x < (L.value leaf.now).variables }
    requires f { IsForm (L.value leaf.now).variables f.now }
    ensures { IfOk result
        (λ met. L.value met ≡ operation_set L.meaning (L.value leaf.now) x (Some f.now) (L.value set)) }
{
    leaf_is_valid(leaf);
    if has_variable(x, f.terms.items()) {
        set_met(alloc, leaf, x, f, set)
    } else {
        let less = less_variable(alloc, x, f)?;
        met_where(alloc, set, &less, Compare::Eq)
    }
}

/// The stores at which the comparison of the operation with some number of the range holds, as far as the kind of leaf sees; and where it is a
/// product of which one factor has one value, so that it is a multiple of the other, those at which that form compares so, linearised.
pub fn linear_operation_met<L: Leaf>(
    alloc: Global,
    leaf: L,
    p: &Operation,
    op: Compare,
    r: Range,
) -> Result<L, NoMemory>
    requires p { IsOperation (L.value leaf).variables p.now }
    requires r { IsInInt r }
    ensures { IfOk result
        (λ met. L.value met ≡ (linearised L.meaning).meet_operation (L.value leaf) p.now op r) }
{
    leaf_is_valid(&leaf);
    let form = operation_form(alloc, &leaf, p)?;
    let met = leaf.meet_operation(alloc, p, op, r)?;
    match &form {
        None => Ok(met),
        Some(f) => met_between(alloc, met, f, op, r),
    }
}

/// The stores with a variable replaced by what the operation gives, which lies in the range; and where it is a product of which one factor has
/// one value, so that it is a multiple of the other, the variable equals that form, linearised.
pub fn linear_operation_set<L: Leaf>(
    alloc: Global,
    leaf: &L,
    x: u32,
    p: &Operation,
    r: Range,
) -> Result<L, NoMemory>
    requires x { x < (L.value leaf.now).variables }
    requires p { IsOperation (L.value leaf.now).variables p.now }
    requires r { IsInInt r }
    ensures { IfOk result
        (λ met. L.value met ≡ (linearised L.meaning).set_operation (L.value leaf.now) x p.now r) }
{
    leaf_is_valid(leaf);
    let form = operation_form(alloc, leaf, p)?;
    let set = leaf.set_operation(alloc, x, p, r)?;
    match &form {
        None => Ok(set),
        Some(f) => form_set(alloc, leaf, x, f, set),
    }
}

//! Tests and assignments of linear forms, linearised.
#![tactic(auto)]

ghost use Rattle.std.specs.Prelude.{◌≡◌, ◌<◌, IfOk, IfSome};
ghost use Rattle.leaf_domain.specs.Forms.{IsForm, IsFormNumber};
ghost use Rattle.leaf_domain.specs.Ranges.{IsInInt};
ghost use Rattle.linearised_leaf.specs.Tightened.{other_side_met, sides_met, tightened, tightened_where, tightened_set};
ghost use Rattle.linearised_leaf.specs.Linearised.{linearised};

use crate::differences::set_met;
use crate::forms::{has_variable, is_octagonal, less_variable, negated};
use crate::sides::side_met;
use fam_outer::NoMemory;
use leaf_domain::{Compare, Form, Leaf, Range, leaf_is_valid};
use std::alloc::Global;

/// The leaf met with what the negated form plus a number being at most 0 says of its terms.
fn other_side_met<L: Leaf>(alloc: Global, leaf: &L, f: &Form, more: i64) -> Result<L, NoMemory>
    requires form { IsForm (L.value leaf.now).variables f.now }
    requires more { IsFormNumber more }
    ensures value { IfOk result
        (λ met. L.value met ≡ other_side_met L.meaning (L.value leaf.now) f.now more) }
    ensures same { IfOk result (λ met. (L.value met).variables ≡ (L.value leaf.now).variables) }
{
    match negated(alloc, f)? {
        None => leaf.copy(alloc),
        Some(g) => side_met(alloc, leaf, &g, more),
    }
}

/// The leaf met with what a comparison of the form with 0 says of its terms.
fn sides_met<L: Leaf>(alloc: Global, leaf: &L, f: &Form, op: Compare) -> Result<L, NoMemory>
    requires { IsForm (L.value leaf.now).variables f.now }
    ensures { IfOk result (λ met. L.value met ≡ sides_met L.meaning (L.value leaf.now) f.now op) }
{
    match op {
        Compare::Lt => side_met(alloc, leaf, f, 1),
        Compare::Le => side_met(alloc, leaf, f, 0),
        Compare::Gt => other_side_met(alloc, leaf, f, 1),
        Compare::Ge => other_side_met(alloc, leaf, f, 0),
        Compare::Eq => {
            let below = side_met(alloc, leaf, f, 0)?;
            other_side_met(alloc, &below, f, 0)
        }
        Compare::Ne => {
            let below = side_met(alloc, leaf, f, 1)?;
            let above = other_side_met(alloc, leaf, f, 1)?;
            below.join(alloc, &above)
        }
    }
}

/// A leaf whose stores meet the comparison, linearised: unless it is Nothing, or an octagon has all of the form.
fn tightened<L: Leaf>(alloc: Global, leaf: L, f: &Form, op: Compare) -> Result<L, NoMemory>
    requires { IsForm (L.value leaf).variables f.now }
    ensures { IfOk result (λ met. L.value met ≡ tightened L.meaning (L.value leaf) f.now op) }
{
    if leaf.is_nothing() || is_octagonal(f.terms.items()) {
        Ok(leaf)
    } else {
        sides_met(alloc, &leaf, f, op)
    }
}

/// A leaf at whose stores the form is 0, where there is one, linearised.
fn tightened_where<L: Leaf>(alloc: Global, leaf: L, f: &Option<Form>) -> Result<L, NoMemory>
    requires { IfSome f.now (IsForm (L.value leaf).variables) }
    ensures { IfOk result (λ met. L.value met ≡ tightened_where L.meaning (L.value leaf) f.now) }
{
    match f {
        None => Ok(leaf),
        Some(f) => tightened(alloc, leaf, f, Compare::Eq),
    }
}

/// A leaf with a variable set to the form, linearised. `leaf` is the leaf before.
fn tightened_set<L: Leaf>(alloc: Global, leaf: &L, x: u32, f: &Form, set: L) -> Result<L, NoMemory>
    requires same { (L.value set).variables ≡ (L.value leaf.now).variables }
    requires x { x < (L.value leaf.now).variables }
    requires f { IsForm (L.value leaf.now).variables f.now }
    ensures { IfOk result
        (λ met. L.value met ≡ tightened_set L.meaning (L.value leaf.now) x f.now (L.value set)) }
{
    leaf_is_valid(leaf);
    if has_variable(x, f.terms.items()) {
        set_met(alloc, leaf, x, f, set)
    } else {
        tightened_where(alloc, set, &less_variable(alloc, x, f)?)
    }
}

/// The stores at which the comparison of the form with 0 holds, as far as the kind of leaf sees, linearised: where the form has three terms
/// or more, or a coefficient other than 1 and -1, each two of its terms with 1 or -1, and each term, is met with what the ranges of the
/// others leave it. `==` and `!=` look at both sides.
pub fn linear_met<L: Leaf>(alloc: Global, leaf: &L, f: &Form, op: Compare) -> Result<L, NoMemory>
    requires { IsForm (L.value leaf.now).variables f.now }
    ensures { IfOk result
        (λ met. L.value met ≡ (linearised L.meaning).meet_form (L.value leaf.now) f.now op) }
{
    leaf_is_valid(leaf);
    tightened(alloc, leaf.meet_form(alloc, f, op)?, f, op)
}

/// The stores with a variable replaced by the value of the form, which lies in the range, linearised: where the form does not have the
/// variable, the variable then equals the form, and that is met as a comparison is. Where it has the variable, as `x = x + y`, the variable
/// less each other term with 1 or -1 is met with the range that the rest of the form had before.
pub fn linear_set<L: Leaf>(
    alloc: Global,
    leaf: &L,
    x: u32,
    f: &Form,
    r: Range,
) -> Result<L, NoMemory>
    requires x { x < (L.value leaf.now).variables }
    requires f { IsForm (L.value leaf.now).variables f.now }
    requires r { IsInInt r }
    ensures { IfOk result
        (λ met. L.value met ≡ (linearised L.meaning).set_form (L.value leaf.now) x f.now r) }
{
    leaf_is_valid(leaf);
    let set = leaf.set_form(alloc, x, f, r)?;
    tightened_set(alloc, leaf, x, f, set)
}

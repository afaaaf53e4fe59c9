//! The forms that linearising meets.
#![tactic(auto)]

ghost use Rattle.std.specs.Prelude.{◌≡◌, ◌&&◌, negsuc, Some, IfOk};
ghost use Rattle.leaf_domain.specs.Forms.{IsForm, multiple_form};
ghost use Rattle.leaf_domain.specs.Sums.{formed, kept_number};
ghost use Rattle.linearised_leaf.specs.Sides.{is_unit, two_terms};
ghost use Rattle.linearised_leaf.specs.Differences.{is_other_unit};
ghost use Rattle.linearised_leaf.specs.Tightened.{is_octagonal, has_variable, form_less_variable};

use fam_outer::NoMemory;
use leaf_domain::{Form, Terms};
use linear_terms::{first_term, product, within};
use smallvec::SmallVec;
use std::alloc::Global;

/// The greatest size of a coefficient or a constant.
const LARGEST: u64 = 1099511627776;

/// The number, where it does not pass 2^40 in size.
pub(crate) fn kept(n: i128) -> Option<i64>
    ensures { result ≡ kept_number n }
{
    within(n, LARGEST)
}

/// The form of these terms and this constant, where there are both.
fn formed(terms: Option<Terms>, constant: Option<i64>) -> Option<Form>
    ensures { result ≡ formed terms constant }
{
    match (terms, constant) {
        (Some(terms), Some(constant)) => Some(Form { terms, constant }),
        _ => None,
    }
}

/// A form so many times, where no number of it passes 2^40 in size.
pub(crate) fn multiple(alloc: Global, by: i64, f: &Form) -> Result<Option<Form>, NoMemory>
    ensures { IfOk result (λ made. made ≡ multiple_form by (Some f.now)) }
{
    let terms = f.terms.scale(alloc, by, LARGEST)?;
    Ok(formed(terms, kept(product(f.constant, by))))
}

/// The negated form, where no number of it passes 2^40 in size.
pub(crate) fn negated(alloc: Global, f: &Form) -> Result<Option<Form>, NoMemory>
    ensures { IfOk result (λ made. made ≡ multiple_form (negsuc 0) (Some f.now)) }
{
    multiple(alloc, -1, f)
}

/// A form minus a variable, where no number of it passes 2^40 in size.
#[tactic(auto, using(leaf_domain::proofs::FormLemmas::form_rises))]
pub(crate) fn less_variable(alloc: Global, x: u32, f: &Form) -> Result<Option<Form>, NoMemory>
    requires { IsForm 48 f.now }
    ensures { IfOk result (λ made. made ≡ form_less_variable x f.now) }
{
    let variable = Terms::single(alloc, x, -1)?;
    let terms = variable.add(alloc, &f.terms, LARGEST)?;
    Ok(formed(terms, kept(f.constant as i128)))
}

/// Whether a variable is among those of the terms.
pub(crate) fn has_variable(x: u32, terms: &[(u32, i64)]) -> bool
    ensures { result ≡ has_variable x terms.now }
{
    match first_term(terms) {
        None => false,
        Some((y, _factor, behind)) => x == y || has_variable(x, behind),
    }
}

/// The form of two terms and a constant.
pub(crate) fn two_terms(
    alloc: Global,
    first: (u32, i64),
    second: (u32, i64),
    constant: i64,
) -> Result<Form, NoMemory>
    ensures { IfOk result (λ made. made ≡ two_terms first second constant) }
{
    let mut list = SmallVec::new(alloc);
    list.push(first)?;
    list.push(second)?;
    Ok(Form {
        terms: Terms::from_vec(list),
        constant,
    })
}

/// Whether a coefficient is 1 or -1.
fn is_unit(factor: i64) -> bool
    ensures { result ≡ is_unit factor }
{
    factor == 1 || factor == -1
}

/// Whether two coefficients are 1 or -1.
pub(crate) fn are_units(first: i64, second: i64) -> bool
    ensures { result ≡ (is_unit first && is_unit second) }
{
    is_unit(first) && is_unit(second)
}

/// Whether a term is another variable than `x`, times 1 or -1.
pub(crate) fn is_other_unit(x: u32, y: u32, factor: i64) -> bool
    ensures { result ≡ is_other_unit x (y, factor) }
{
    x != y && is_unit(factor)
}

/// Whether the terms are at most two, each a variable or its negation.
pub(crate) fn is_octagonal(terms: &[(u32, i64)]) -> bool
    ensures { result ≡ is_octagonal terms.now }
{
    match terms {
        [] => true,
        [(_, k)] => is_unit(*k),
        [(_, k), (_, l)] => are_units(*k, *l),
        _ => false,
    }
}

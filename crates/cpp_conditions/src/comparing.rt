//! Tests that compare linear forms with 0.
#![tactic(auto)]

ghost use Rattle.std.specs.Prelude.{◌≡◌, ◌≤◌, negsuc, unsigned_abs, length, IfOk};
ghost use Rattle.linear_atoms.specs.Atoms.{IsAtom};
ghost use Rattle.linear_atoms.specs.Forms as forms;
ghost use Rattle.linear_atoms.specs.Ranges.{decided_of};
ghost use Rattle.cpp_conditions.specs.Forming.{IsOver, IsSmallOver, IsWide, Widens, Means, IsOverFeatures};
ghost use Rattle.cpp_conditions.specs.Grammar.{is_small_zero, is_small_compared};
ghost use Rattle.cpp_conditions.specs.Meaning as meaning;
ghost use Rattle.cpp_conditions.specs.View.{proposition};

use crate::conditions::{Condition, both, negation};
use crate::names::Names;
use crate::operators::Operator;
use fam_outer::NoMemory;
use linear_atoms::{Atom, Linear, LinearFault, Literal, Normal};
use std::alloc::Global;

/// One form minus another. Its constant may be too large for a form.
fn difference(
    alloc: Global,
    names: &Names<'_>,
    left: Linear,
    right: Linear,
) -> Result<Linear, LinearFault>
    requires left { IsSmallOver names.now left }
    requires right { IsSmallOver names.now right }
    ensures { Widens names.now result (meaning.difference left right) }
{
    let constant = left.constant - right.constant;
    let mut back = right.scale(alloc, -1)?;
    back.constant = 0;
    let mut front = left;
    front.constant = 0;
    let mut made = front.add(alloc, &back)?;
    made.constant = constant;
    Ok(made)
}

/// The form times -1.
fn opposite(alloc: Global, names: &Names<'_>, form: Linear) -> Result<Linear, LinearFault>
    requires { IsWide names.now form }
    ensures { Widens names.now result (forms.form_by (negsuc 0) form) }
{
    let constant = -form.constant;
    let mut front = form;
    front.constant = 0;
    let mut made = front.scale(alloc, -1)?;
    made.constant = constant;
    Ok(made)
}

/// The form minus 1.
fn lowered(form: Linear) -> Linear
    requires { unsigned_abs form.constant ≤ 4294967296 }
    ensures { result ≡ meaning.less_one form }
{
    let mut made = form;
    made.constant -= 1;
    made
}

/// The test of an atom, or its truth where the ranges decide it.
fn kept(names: &Names<'_>, atom: Atom) -> Condition
    requires { IsAtom (length names.now) atom }
    ensures is { proposition result ≡ meaning.kept atom (decided_of names.now atom) }
    ensures over { IsOverFeatures names.now (proposition result) }
{
    match atom.decided(names.features()) {
        Some(truth) => Condition::Const(truth),
        None => Condition::Test(atom),
    }
}

/// The condition, or its negation.
fn signed(alloc: Global, condition: Condition, is_positive: bool) -> Result<Condition, NoMemory>
    ensures { IfOk result (λ made. proposition made ≡ meaning.signed is_positive (proposition condition)) }
{
    if is_positive {
        Ok(condition)
    } else {
        negation(alloc, condition)
    }
}

/// The condition that the form is at least 0.
fn at_least_zero(alloc: Global, names: &Names<'_>, form: &Linear) -> Result<Condition, LinearFault>
    requires { IsOver names.now form.now }
    ensures { Means names.now result (meaning.at_least_zero names.now form.now)
        (forms.is_small_form form.now) }
{
    match form.normal(alloc)? {
        Normal::Const(truth) => Ok(Condition::Const(truth)),
        Normal::Literal(literal) => {
            let Literal { atom, positive } = literal;
            Ok(signed(alloc, kept(names, atom), positive)?)
        }
    }
}

/// The condition that the form is 0.
pub(crate) fn is_zero(
    alloc: Global,
    names: &Names<'_>,
    form: Linear,
) -> Result<Condition, LinearFault>
    requires over { IsOver names.now form }
    requires wide { unsigned_abs form.constant ≤ 4294967296 }
    ensures { Means names.now result (meaning.is_zero names.now form) (is_small_zero form) }
{
    let first = at_least_zero(alloc, names, &form)?;
    let form = lowered(form);
    let second = at_least_zero(alloc, names, &form)?;
    let second = negation(alloc, second)?;
    Ok(both(alloc, first, second)?)
}

/// What a comparison says of its left side minus its right.
fn relation(
    alloc: Global,
    names: &Names<'_>,
    op: Operator,
    form: Linear,
) -> Result<Condition, LinearFault>
    requires { IsWide names.now form }
    ensures { Means names.now result (meaning.compared names.now op form) (is_small_compared op form) }
{
    match op {
        Operator::AtLeast => at_least_zero(alloc, names, &form),
        Operator::Greater => at_least_zero(alloc, names, &lowered(form)),
        Operator::AtMost => {
            let back = opposite(alloc, names, form)?;
            at_least_zero(alloc, names, &back)
        }
        Operator::Less => {
            let back = opposite(alloc, names, form)?;
            at_least_zero(alloc, names, &lowered(back))
        }
        Operator::Equal => is_zero(alloc, names, form),
        _ => Ok(negation(alloc, is_zero(alloc, names, form)?)?),
    }
}

/// The condition of a comparison.
pub(crate) fn compare(
    alloc: Global,
    names: &Names<'_>,
    op: Operator,
    left: Linear,
    right: Linear,
) -> Result<Condition, LinearFault>
    requires left { IsSmallOver names.now left }
    requires right { IsSmallOver names.now right }
    ensures { Means names.now result (meaning.compared names.now op (meaning.difference left right))
        (is_small_compared op (meaning.difference left right)) }
{
    let form = difference(alloc, names, left, right)?;
    relation(alloc, names, op, form)
}

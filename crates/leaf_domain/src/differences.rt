//! Forms that count only where the operands fit.
#![tactic(auto)]

ghost use Rattle.std.specs.Prelude.{◌≡◌, ℕ, IfOk};
ghost use Rattle.leaf_domain.specs.Forms.{difference_form};
ghost use Rattle.leaf_domain.specs.Sums.{HasForm};
ghost use Rattle.leaf_domain.specs.Transfer.{form_where, form_less_zero};

use crate::form::Form;
use crate::linear::{constant, difference};
use fam_outer::NoMemory;
use std::alloc::Global;

/// The form, where it counts.
pub(crate) fn form_where(form: Option<Form>, counts: bool) -> Option<Form>
    ensures { result ≡ form_where counts form }
{
    if counts { form } else { None }
}

/// The form of the difference of two expressions of these forms, where it counts.
pub(crate) fn difference_where(
    alloc: Global,
    f: &Option<Form>,
    g: &Option<Form>,
    counts: bool,
) -> Result<Option<Form>, NoMemory>
    requires f { HasForm 48 f.now }
    requires g { HasForm 48 g.now }
    ensures value { IfOk result (λ made. made ≡ form_where counts (difference_form f.now g.now)) }
    ensures form { (count : ℕ) → HasForm count f.now → HasForm count g.now → IfOk result (HasForm count) }
{
    if counts {
        difference(alloc, f, g)
    } else {
        Ok(None)
    }
}

/// The form of the difference of an expression of this form to 0, where it counts.
pub(crate) fn less_zero_where(
    alloc: Global,
    f: &Option<Form>,
    counts: bool,
) -> Result<Option<Form>, NoMemory>
    requires { HasForm 48 f.now }
    ensures value { IfOk result (λ made. made ≡ form_where counts (form_less_zero f.now)) }
    ensures form { (count : ℕ) → HasForm count f.now → IfOk result (HasForm count) }
{
    if counts {
        difference(alloc, f, &constant(alloc, 0))
    } else {
        Ok(None)
    }
}

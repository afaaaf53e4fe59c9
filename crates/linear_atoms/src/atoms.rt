//! Features, configurations, atoms and literals.
#![tactic(auto)]

ghost use Rattle.std.specs.Prelude.{◌≡◌, ◌*◌, true, IfOk, length, unsigned_abs, ◌≤◌};
ghost use Rattle.linear_atoms.specs.Forms.{sum_at, are_small};
ghost use Rattle.linear_atoms.specs.Atoms.{holds, AreBelow, AreValues, IsAtom};

use fam_outer::{NoMemory, Text, Values};
use linear_terms::{Terms, first_term, product};
use std::alloc::Global;

/// A feature: its name, and the least and the greatest of its values. A Boolean feature has 0 and 1.
#[derive(Debug, Drop)]
pub struct Feature {
    pub name: Text,
    pub boolean: bool,
    pub low: i64,
    pub high: i64,
}

/// One value per feature.
#[derive(Debug, Drop)]
pub struct Config {
    pub values: Values,
}

/// The test "the sum of the terms is at least the bound". The order of atoms compares the lists of terms item by
/// item, a proper prefix first, and then the bounds.
#[derive(Debug, Drop, PartialEq, Eq, PartialOrd, Ord)]
pub struct Atom {
    pub terms: Terms,
    pub bound: i64,
}

/// An atom, or its negation.
#[derive(Debug, Drop)]
pub struct Literal {
    pub atom: Atom,
    pub positive: bool,
}

/// The sum of the terms at these values.
fn sum_at(terms: &[(u32, i64)], values: &[i64]) -> i128
    requires named { AreBelow (length values.now) terms.now }
    requires coefficients { are_small terms.now ≡ true }
    requires values { AreValues values.now }
    ensures value { result ≡ sum_at terms.now values.now }
    ensures bound { unsigned_abs result ≤ length terms.now * 2251799813685248 }
{
    let _count = terms.len();
    let mut sum: i128 = 0;
    let mut rest = terms;
    'terms: while let Some((number, coefficient, behind)) = first_term(rest) {
        sum += product(coefficient, values[number as usize]);
        rest = behind;
    }
    sum
}

impl Atom {
    /// A copy of the atom.
    pub fn copy(&self, alloc: Global) -> Result<Atom, NoMemory>
        ensures { IfOk result (λ made. made ≡ self.now) }
    {
        Ok(Atom {
            terms: self.terms.copy(alloc)?,
            bound: self.bound,
        })
    }

    /// Whether the test is true at a configuration, which has each feature that it names.
    pub fn truth(&self, config: &Config) -> bool
        requires atom { IsAtom (length config.now.values) self.now }
        requires values { AreValues config.now.values }
        ensures { result ≡ holds self.now config.now.values }
    {
        sum_at(self.terms.items(), config.values.items()) >= self.bound as i128
    }
}

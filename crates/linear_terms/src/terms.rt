//! The terms of a linear form.
#![tactic(auto)]

ghost use Rattle.std.specs.Prelude.{◌≡◌, [], ◌∷◌, IfOk};

use fam_outer::NoMemory;
use smallvec::SmallVec;
use std::alloc::Global;
use std::cmp::Ordering;
use std::marker::Model;

/// The number of terms that need no allocation.
pub const INLINE_TERMS: usize = 4;

/// The terms of a linear form: numbers of variables and their coefficients.
///
/// Their order compares them one by one, number before coefficient, and a proper prefix comes first.
#[derive(Debug, Drop)]
pub struct Terms {
    list: SmallVec<(u32, i64), INLINE_TERMS>,
}

impl Model for Terms {
    ghost use Rattle.std.specs.Prelude.{List, ℕ, ℤ};

    ghost Value = { List (ℕ × ℤ) };

    ghost view = { λ terms. terms.list.items };
}

impl PartialEq for Terms {
    ghost use Rattle.std.specs.Cmp.{partial_equiv_from_equiv};
    ghost use Rattle.linear_terms.specs.Order.{same_terms, terms_equivalence};

    ghost eq = { same_terms };

    ghost laws = { partial_equiv_from_equiv terms_equivalence };

    fn eq(&self, other: &Terms) -> bool {
        self.list == other.list
    }
}

impl Eq for Terms {
    ghost use Rattle.linear_terms.specs.Order.{terms_equivalence};

    ghost laws = { terms_equivalence };
}

impl PartialOrd for Terms {
    ghost use Rattle.std.specs.Prelude.{Some};
    ghost use Rattle.linear_terms.specs.Order.{terms_order, terms_partial_order};

    ghost partial_cmp = { λ x y. Some (terms_order x y) };

    ghost laws = { terms_partial_order };

    fn partial_cmp(&self, other: &Terms) -> Option<Ordering> {
        Some(self.cmp(other))
    }
}

impl Ord for Terms {
    ghost use Rattle.std.proofs.Common.{rules};
    ghost use Rattle.linear_terms.specs.Order.{terms_order, terms_total, terms_tie};

    ghost cmp = { terms_order };

    ghost total = { terms_total };

    ghost matches_partial_cmp = { Prim.search rules };

    ghost matches_eq = { terms_tie };

    fn cmp(&self, other: &Terms) -> Ordering {
        self.list.cmp(&other.list)
    }
}

impl Terms {
    /// These terms.
    pub fn from_vec(list: SmallVec<(u32, i64), INLINE_TERMS>) -> Terms
        ensures { result ≡ list.items }
    {
        Terms { list }
    }

    /// No term.
    pub fn none(alloc: Global) -> Terms
        ensures { result ≡ [] }
    {
        Terms {
            list: SmallVec::new(alloc),
        }
    }

    /// One variable with a coefficient. It answers an error only for want of memory.
    pub fn single(alloc: Global, number: u32, coefficient: i64) -> Result<Terms, NoMemory>
        ensures { IfOk result (λ made. made ≡ (number, coefficient) ∷ []) }
    {
        let mut list = SmallVec::new(alloc);
        list.push((number, coefficient))?;
        Ok(Terms { list })
    }

    /// A copy of the terms. It answers an error only for want of memory.
    pub fn copy(&self, alloc: Global) -> Result<Terms, NoMemory>
        ensures { IfOk result (λ made. made ≡ self.now) }
    {
        Ok(Terms {
            list: SmallVec::from_slice(alloc, self.items())?,
        })
    }

    /// The terms.
    pub fn items(&self) -> &[(u32, i64)]
        ensures { result.now ≡ self.now }
    {
        self.list.as_slice()
    }
}

//! What an atom says over ranges of values.
#![tactic(auto)]

ghost use Rattle.std.specs.Prelude.{◌≡◌, true, length, map};
ghost use Rattle.linear_atoms.specs.declared.atoms.Feature.{Feature};
ghost use Rattle.linear_atoms.specs.Forms.{are_small};
ghost use Rattle.linear_atoms.specs.Atoms.{AreBelow, AreRanges, IsAtom, IsDecided};
ghost use Rattle.linear_atoms.specs.Ranges.{extreme_value, extreme_sum, decided_of, range};

use crate::atoms::{Atom, Feature};
use linear_terms::{first_term, product};

/// The values from `low` to `high`.
#[derive(Clone, Copy, Debug)]
pub struct Span {
    pub low: i64,
    pub high: i64,
}

/// What has a range of values: a feature, or a span alone, which is seen as a feature without a name.
trait Ranged {
    ghost feature: { Self → Feature };

    /// The least and the greatest value.
    fn ends(&self) -> (i64, i64)
        ensures low { result.0 ≡ (feature self.now).low }
        ensures high { result.1 ≡ (feature self.now).high };
}

impl Ranged for Feature {
    ghost feature = { λ f. f };

    fn ends(&self) -> (i64, i64) {
        (self.low, self.high)
    }
}

impl Ranged for Span {
    ghost use Rattle.linear_atoms.specs.Ranges.{range};

    ghost feature = { range };

    fn ends(&self) -> (i64, i64) {
        (self.low, self.high)
    }
}

/// The value of the range that makes a term with this coefficient the greatest, or the least.
fn extreme_value<R: Ranged>(ranged: &R, coefficient: i64, is_greatest: bool) -> i64
    ensures { result ≡ extreme_value is_greatest coefficient (R.feature ranged.now) }
{
    let (low, high) = ranged.ends();
    if 0 < coefficient {
        if is_greatest { high } else { low }
    } else if is_greatest {
        low
    } else {
        high
    }
}

/// The greatest sum of the terms over the ranges, or the least.
fn extreme_sum<R: Ranged>(terms: &[(u32, i64)], ranges: &[R], is_greatest: bool) -> i128
    requires named { AreBelow (length ranges.now) terms.now }
    requires coefficients { are_small terms.now ≡ true }
    requires ranges { AreRanges (map R.feature ranges.now) }
    ensures { result ≡ extreme_sum is_greatest (map R.feature ranges.now) terms.now }
{
    let _count = terms.len();
    let mut sum: i128 = 0;
    let mut rest = terms;
    'terms: while let Some((number, coefficient, behind)) = first_term(rest) {
        let value = extreme_value(&ranges[number as usize], coefficient, is_greatest);
        sum += product(coefficient, value);
        rest = behind;
    }
    sum
}

/// What the ranges decide: true where the least sum reaches the bound, false where the greatest does not.
fn decided_by<R: Ranged>(atom: &Atom, ranges: &[R]) -> Option<bool>
    requires atom { IsAtom (length ranges.now) atom.now }
    requires ranges { AreRanges (map R.feature ranges.now) }
    ensures { result ≡ decided_of (map R.feature ranges.now) atom.now }
{
    let terms = atom.terms.items();
    if extreme_sum(terms, ranges, false) >= atom.bound as i128 {
        Some(true)
    } else if extreme_sum(terms, ranges, true) < atom.bound as i128 {
        Some(false)
    } else {
        None
    }
}

impl Atom {
    /// Whether the test is true, or false, at each configuration within the ranges: true where the least sum
    /// reaches the bound, false where the greatest does not, else None.
    pub fn decided(&self, features: &[Feature]) -> Option<bool>
        requires atom { IsAtom (length features.now) self.now }
        requires ranges { AreRanges features.now }
        ensures value { result ≡ decided_of features.now self.now }
        ensures exact { IsDecided features.now self.now result }
    {
        decided_by(self, features)
    }

    /// The same over spans, one per feature.
    pub fn decided_within(&self, spans: &[Span]) -> Option<bool>
        requires atom { IsAtom (length spans.now) self.now }
        requires ranges { AreRanges (map range spans.now) }
        ensures value { result ≡ decided_of (map range spans.now) self.now }
        ensures exact { IsDecided (map range spans.now) self.now result }
    {
        decided_by(self, spans)
    }
}

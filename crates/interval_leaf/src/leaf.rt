//! A leaf with one range per variable.
#![tactic(auto)]

ghost use Rattle.std.specs.Prelude.{◌≡◌, ◌≤◌, ◌<◌, IfOk, IfSome, IfNone, length};
ghost use Rattle.leaf_domain.specs.Leaves.{LeafValue, nothing_of};
ghost use Rattle.interval_leaf.specs.Intervals.{interval_of, ranges_of, AllOwn, IsInterval, AllEnds, HasEnds, settled, interval_with, intervals};
ghost use Rattle.interval_leaf.specs.Laws.{interval_laws, leaf_alike};
ghost use Rattle.std.specs.Prelude.{refl};
ghost use Rattle.leaf_domain.specs.Leaves.{same_leaf};
ghost use Rattle.leaf_domain.proofs.LeafEquality.{leaf_decides, leaf_partial, leaf_equiv};
ghost use Rattle.interval_leaf.specs.Hashing.{fed_leaf};

use crate::ranges::{
    are_inside, are_same, covered, has_empty, narrowed_ranges, points, widened_ranges,
};
use fam_outer::NoMemory;
use leaf_domain::{Compare, Form, Leaf, Operation, Range, Thresholds};
use nonrelational_leaf::replaced;
use std::alloc::Global;
use std::hash::{Hash, Hasher};
use std::marker::Model;

/// A leaf with one range for each variable, or Nothing, which holds no store. It keeps no form: a
/// comparison of a form changes nothing, and the value of a form is known by its range alone.
#[derive(Drop)]
pub struct IntervalLeaf {
    variables: u32,
    ranges: Option<Vec<Range>>,
}

impl Model for IntervalLeaf {
    ghost use Rattle.leaf_domain.specs.Leaves.{LeafValue};

    ghost Value = { LeafValue };

    ghost use Rattle.interval_leaf.specs.View.{view_of, IsSound};

    ghost view = { view_of };

    ghost invariant = { IsSound };
}

impl IntervalLeaf {
    /// The leaf that holds no store.
    fn none(variables: u32) -> IntervalLeaf
        requires { variables ≤ 48 }
        ensures { result ≡ nothing_of variables }
    {
        IntervalLeaf {
            variables,
            ranges: None,
        }
    }

    /// The leaf of these ranges.
    fn of(ranges: Vec<Range>) -> IntervalLeaf
        requires few { length ranges.items ≤ 48 }
        requires own { AllOwn ranges.items }
        ensures { result ≡ interval_of ranges.items }
    {
        IntervalLeaf {
            variables: ranges.len() as u32,
            ranges: Some(ranges),
        }
    }

    /// The ranges, where it is not Nothing.
    fn items(&self) -> Option<&[Range]>
        ensures nothing { IfNone result (self.now ≡ nothing_of self.now.variables) }
        ensures ranges { IfSome result (λ rs. self.now ≡ interval_of rs.now) }
        ensures own { IfSome result (λ rs. AllOwn rs.now) }
        ensures few { self.now.variables ≤ 48 }
    {
        match &self.ranges {
            None => None,
            Some(ranges) => Some(ranges),
        }
    }

    /// The leaf of these ranges; Nothing where one is empty.
    fn settled(ranges: Vec<Range>) -> IntervalLeaf
        requires few { length ranges.items ≤ 48 }
        requires within { AllEnds ranges.items }
        ensures { result ≡ settled ranges.items }
    {
        if has_empty(&ranges) {
            IntervalLeaf::none(ranges.len() as u32)
        } else {
            IntervalLeaf::of(ranges)
        }
    }

    /// The leaf with this range for `x`; Nothing where the range is empty.
    fn with(&self, alloc: Global, x: u32, r: Range) -> Result<IntervalLeaf, NoMemory>
        requires x { x < self.now.variables }
        requires r { HasEnds r }
        ensures { IfOk result (λ leaf. leaf ≡ interval_with self.now x r) }
    {
        match self.items() {
            None => Ok(IntervalLeaf::none(self.count())),
            Some(ranges) => {
                if r.is_empty() {
                    return Ok(IntervalLeaf::none(self.count()));
                }
                Ok(IntervalLeaf::of(replaced(alloc, ranges, x, r)?))
            }
        }
    }

    /// The ranges, none where it is Nothing.
    fn all(&self) -> &[Range]
        ensures { result.now ≡ ranges_of self.now }
    {
        match self.items() {
            None => &[],
            Some(ranges) => ranges,
        }
    }

    /// The number of variables.
    fn count(&self) -> u32
        ensures value { result ≡ self.now.variables }
        ensures few { result ≤ 48 }
        ensures valid { IsInterval self.now }
    {
        let _ranges = &self.ranges;
        self.variables
    }
}

impl PartialEq for IntervalLeaf {
    ghost eq = { same_leaf };

    ghost laws = { leaf_partial };

    fn eq(&self, other: &IntervalLeaf) -> bool {
        let is_count = self.count() == other.count();
        let Some(ranges) = self.items() else {
            return is_count && other.items().is_none();
        };
        match other.items() {
            None => false,
            Some(others) => is_count && are_same(ranges, others),
        }
    }
}

impl Eq for IntervalLeaf {
    ghost laws = { leaf_equiv };
}

impl Hash for IntervalLeaf {
    ghost hash_input = { fed_leaf };

    ghost respects_eq = { leaf_alike };

    fn hash<H: Hasher>(&self, state: &mut H) {
        self.count().hash(state);
        self.all().hash(state);
    }
}

impl Leaf for IntervalLeaf {
    ghost value = { λ v. v };

    ghost meaning = { intervals };

    ghost equal = { λ a b. refl };

    ghost exact = { λ a b e. (leaf_decides a b).0 e };

    ghost laws = { interval_laws };

    fn nothing(_alloc: Global, variables: u32) -> Result<IntervalLeaf, NoMemory> {
        Ok(IntervalLeaf::none(variables))
    }

    fn start(alloc: Global, values: &[i64]) -> Result<IntervalLeaf, NoMemory> {
        Ok(IntervalLeaf::of(points(alloc, values)?))
    }

    fn bound_count(variables: u32) -> u32 {
        2 * variables
    }

    fn variables(&self) -> u32 {
        self.count()
    }

    fn is_nothing(&self) -> bool {
        self.items().is_none()
    }

    fn copy(&self, alloc: Global) -> Result<IntervalLeaf, NoMemory> {
        match self.items() {
            None => Ok(IntervalLeaf::none(self.count())),
            Some(ranges) => Ok(IntervalLeaf::of(ranges.to_vec(alloc)?)),
        }
    }

    fn best(&self, alloc: Global) -> Result<IntervalLeaf, NoMemory> {
        self.copy(alloc)
    }

    fn leq(&self, other: &IntervalLeaf) -> bool {
        let Some(ranges) = self.items() else {
            return true;
        };
        match other.items() {
            None => false,
            Some(above) => are_inside(ranges, above),
        }
    }

    fn join(&self, alloc: Global, other: &IntervalLeaf) -> Result<IntervalLeaf, NoMemory> {
        let Some(ranges) = self.items() else {
            return other.copy(alloc);
        };
        match other.items() {
            None => self.copy(alloc),
            Some(others) => Ok(IntervalLeaf::of(covered(alloc, ranges, others)?)),
        }
    }

    fn widen(
        &self,
        alloc: Global,
        other: &IntervalLeaf,
        thresholds: &Thresholds,
    ) -> Result<IntervalLeaf, NoMemory> {
        let Some(ranges) = self.items() else {
            return other.copy(alloc);
        };
        match other.items() {
            None => self.copy(alloc),
            Some(others) => {
                let widened = widened_ranges(alloc, ranges, others, thresholds)?;
                Ok(IntervalLeaf::of(widened))
            }
        }
    }

    fn narrow(
        &self,
        alloc: Global,
        other: &IntervalLeaf,
        thresholds: &Thresholds,
    ) -> Result<IntervalLeaf, NoMemory> {
        let Some(ranges) = self.items() else {
            return self.copy(alloc);
        };
        match other.items() {
            None => other.copy(alloc),
            Some(others) => {
                let narrowed = narrowed_ranges(alloc, ranges, others, thresholds)?;
                Ok(IntervalLeaf::settled(narrowed))
            }
        }
    }

    fn bounds_of(&self, x: u32) -> Range {
        match self.items() {
            None => Range::EMPTY,
            Some(ranges) => ranges[x as usize],
        }
    }

    fn step_of(&self, _x: u32) -> u64 {
        1
    }

    fn form_range(&self, _f: &Form) -> Option<Range> {
        None
    }

    fn meet_range(&self, alloc: Global, x: u32, r: Range) -> Result<IntervalLeaf, NoMemory> {
        self.with(alloc, x, self.bounds_of(x).meet(r))
    }

    fn meet_form(&self, alloc: Global, _f: &Form, _op: Compare) -> Result<IntervalLeaf, NoMemory> {
        self.copy(alloc)
    }

    fn set_range(&self, alloc: Global, x: u32, r: Range) -> Result<IntervalLeaf, NoMemory> {
        self.with(alloc, x, r)
    }

    fn set_form(
        &self,
        alloc: Global,
        x: u32,
        _f: &Form,
        r: Range,
    ) -> Result<IntervalLeaf, NoMemory> {
        self.with(alloc, x, r)
    }

    fn operation_range(&self, _p: &Operation) -> Option<Range> {
        None
    }

    fn meet_operation(
        self,
        _alloc: Global,
        _p: &Operation,
        _op: Compare,
        _r: Range,
    ) -> Result<IntervalLeaf, NoMemory> {
        Ok(self)
    }

    fn set_operation(
        &self,
        alloc: Global,
        x: u32,
        _p: &Operation,
        r: Range,
    ) -> Result<IntervalLeaf, NoMemory> {
        self.set_range(alloc, x, r)
    }
}

//! A leaf with a low, a high and a stride for each variable.
#![tactic(auto)]

ghost use Rattle.std.specs.Prelude.{◌≡◌, ◌≤◌, ◌<◌, IfOk, IfSome, IfNone, length, map, refl};
ghost use Rattle.leaf_domain.specs.Leaves.{LeafValue, nothing_of, same_leaf};
ghost use Rattle.leaf_domain.proofs.LeafEquality.{leaf_decides, leaf_partial, leaf_equiv};
ghost use Rattle.strides.specs.declared.strided.Strided as strided;
ghost use Rattle.strides.specs.Strided.{reduced, best_part, IsOwn};
ghost use Rattle.product_leaf.specs.StrideLeaves.{strides, leaf_of, parts_of, AllOwn, IsStrideLeaf, stride_with};
ghost use Rattle.product_leaf.specs.View.{IsOwnOf, IsBestOf};
ghost use Rattle.product_leaf.specs.Laws.{stride_laws, leaf_alike};
ghost use Rattle.product_leaf.specs.Hashing.{fed_leaf};

use crate::form_stride::form_stride;
use crate::parts::{
    are_inside, are_same, best_part, copied, has_bare, joined, met_part, narrowed, points, reduced,
    widened,
};
use fam_outer::NoMemory;
use leaf_domain::{Compare, Form, Leaf, Operation, Range, Thresholds};
use nonrelational_leaf::replaced;
use std::alloc::Global;
use std::hash::{Hash, Hasher};
use std::marker::Model;
use strides::{Stride, Strided};

/// A leaf with a low, a high and a stride for each variable, or Nothing, which holds no store.
///
/// It is the parts as widened or narrowed, and beside them stand the parts by their best bounds, which are
/// found once, with the leaf. Operations read the best ones, but the next iterate of a widening or narrowing
/// begins with the parts as they stand. Equality and hash are those of the parts as they stand. Where
/// these are best themselves, one list is kept.
#[derive(Drop)]
pub struct StrideLeaf {
    variables: u32,
    best: Option<Vec<Strided>>,
    standing: Option<Vec<Strided>>,
}

impl Model for StrideLeaf {
    ghost use Rattle.leaf_domain.specs.Leaves.{LeafValue};

    ghost Value = { LeafValue };

    ghost use Rattle.product_leaf.specs.View.{view_of, IsSound};

    ghost view = { view_of };

    ghost invariant = { IsSound };
}

impl StrideLeaf {
    /// The leaf that holds no store.
    fn none(variables: u32) -> StrideLeaf
        requires { variables ≤ 48 }
        ensures { result ≡ nothing_of variables }
    {
        StrideLeaf {
            variables,
            best: None,
            standing: None,
        }
    }

    /// The leaf of parts that have their best bounds.
    fn of_best(best: Vec<Strided>) -> StrideLeaf
        requires few { length best.items ≤ 48 }
        requires own { AllOwn best.items }
        requires best { best.items ≡ map reduced best.items }
        ensures { result ≡ leaf_of best.items }
    {
        StrideLeaf {
            variables: best.len() as u32,
            best: Some(best),
            standing: None,
        }
    }

    /// The leaf of parts as they stand, whose best bounds are found here once.
    fn standing_as(alloc: Global, standing: Vec<Strided>) -> Result<StrideLeaf, NoMemory>
        requires few { length standing.items ≤ 48 }
        requires own { AllOwn standing.items }
        ensures { IfOk result (λ leaf. leaf ≡ leaf_of standing.items) }
    {
        let best = reduced(alloc, &standing)?;
        Ok(StrideLeaf {
            variables: standing.len() as u32,
            best: Some(best),
            standing: Some(standing),
        })
    }

    /// The parts by their best bounds, where it is not Nothing.
    pub fn best_parts(&self) -> Option<&[Strided]>
        ensures nothing { IfNone result (self.now ≡ nothing_of self.now.variables) }
        ensures best { IfSome result (λ bs. IsBestOf self.now bs.now) }
        ensures few { self.now.variables ≤ 48 }
    {
        match &self.best {
            None => None,
            Some(best) => Some(best),
        }
    }

    /// The parts as they stand, where it is not Nothing.
    fn own_parts(&self) -> Option<&[Strided]>
        ensures nothing { IfNone result (self.now ≡ nothing_of self.now.variables) }
        ensures standing { IfSome result (λ bs. IsOwnOf self.now bs.now) }
        ensures few { self.now.variables ≤ 48 }
    {
        match (&self.best, &self.standing) {
            (None, _) => None,
            (Some(_), Some(standing)) => Some(standing),
            (Some(best), None) => Some(best),
        }
    }

    /// The parts as they stand, none where it is Nothing.
    fn all(&self) -> &[Strided]
        ensures { result.now ≡ parts_of self.now }
    {
        match self.own_parts() {
            None => &[],
            Some(parts) => parts,
        }
    }

    /// The number of variables.
    fn count(&self) -> u32
        ensures value { result ≡ self.now.variables }
        ensures few { result ≤ 48 }
        ensures valid { IsStrideLeaf self.now }
    {
        let _best = &self.best;
        self.variables
    }

    /// The leaf with this part for `x`, by its best bounds; Nothing where it has none.
    pub fn with(&self, alloc: Global, x: u32, part: Option<Strided>) -> Result<StrideLeaf, NoMemory>
        requires x { x < self.now.variables }
        requires own { IfSome part IsOwn }
        requires best { IfSome part (λ b. b ≡ reduced b) }
        ensures { (b : strided.Strided) → part ≡ best_part b
            → IfOk result (λ leaf. leaf ≡ stride_with self.now x b) }
    {
        let Some(parts) = self.best_parts() else {
            return Ok(StrideLeaf::none(self.count()));
        };
        match part {
            None => Ok(StrideLeaf::none(self.count())),
            Some(part) => Ok(StrideLeaf::of_best(replaced(alloc, parts, x, part)?)),
        }
    }
}

impl PartialEq for StrideLeaf {
    ghost eq = { same_leaf };

    ghost laws = { leaf_partial };

    fn eq(&self, other: &StrideLeaf) -> bool {
        let is_count = self.count() == other.count();
        let Some(parts) = self.own_parts() else {
            return is_count && other.own_parts().is_none();
        };
        match other.own_parts() {
            None => false,
            Some(others) => is_count && are_same(parts, others),
        }
    }
}

impl Eq for StrideLeaf {
    ghost laws = { leaf_equiv };
}

impl Hash for StrideLeaf {
    ghost hash_input = { fed_leaf };

    ghost respects_eq = { leaf_alike };

    fn hash<H: Hasher>(&self, state: &mut H) {
        self.count().hash(state);
        self.all().hash(state);
    }
}

impl Leaf for StrideLeaf {
    ghost value = { λ v. v };

    ghost meaning = { strides };

    ghost equal = { λ a b. refl };

    ghost exact = { λ a b e. (leaf_decides a b).0 e };

    ghost laws = { stride_laws };

    fn nothing(_alloc: Global, variables: u32) -> Result<StrideLeaf, NoMemory> {
        Ok(StrideLeaf::none(variables))
    }

    fn start(alloc: Global, values: &[i64]) -> Result<StrideLeaf, NoMemory> {
        Ok(StrideLeaf::of_best(points(alloc, values)?))
    }

    fn bound_count(variables: u32) -> u32 {
        35 * variables
    }

    fn variables(&self) -> u32 {
        self.count()
    }

    fn is_nothing(&self) -> bool {
        self.best_parts().is_none()
    }

    fn copy(&self, alloc: Global) -> Result<StrideLeaf, NoMemory> {
        let variables = self.variables;
        let Some(best) = &self.best else {
            return Ok(StrideLeaf::none(variables));
        };
        let best = Some(best.to_vec(alloc)?);
        let standing = match &self.standing {
            None => None,
            Some(standing) => Some(standing.to_vec(alloc)?),
        };
        Ok(StrideLeaf {
            variables,
            best,
            standing,
        })
    }

    fn best(&self, alloc: Global) -> Result<StrideLeaf, NoMemory> {
        match self.best_parts() {
            None => Ok(StrideLeaf::none(self.count())),
            Some(parts) => Ok(StrideLeaf::of_best(copied(alloc, parts)?)),
        }
    }

    fn leq(&self, other: &StrideLeaf) -> bool {
        let Some(parts) = self.best_parts() else {
            return true;
        };
        match other.own_parts() {
            None => false,
            Some(above) => are_inside(parts, above),
        }
    }

    fn join(&self, alloc: Global, other: &StrideLeaf) -> Result<StrideLeaf, NoMemory> {
        let Some(parts) = self.best_parts() else {
            return other.copy(alloc);
        };
        match other.best_parts() {
            None => self.copy(alloc),
            Some(others) => Ok(StrideLeaf::of_best(joined(alloc, parts, others)?)),
        }
    }

    fn widen(
        &self,
        alloc: Global,
        other: &StrideLeaf,
        thresholds: &Thresholds,
    ) -> Result<StrideLeaf, NoMemory> {
        let Some(parts) = self.own_parts() else {
            return other.best(alloc);
        };
        match other.best_parts() {
            None => self.copy(alloc),
            Some(others) => {
                let widened = widened(alloc, parts, others, thresholds)?;
                StrideLeaf::standing_as(alloc, widened)
            }
        }
    }

    fn narrow(
        &self,
        alloc: Global,
        other: &StrideLeaf,
        thresholds: &Thresholds,
    ) -> Result<StrideLeaf, NoMemory> {
        let Some(parts) = self.own_parts() else {
            return self.copy(alloc);
        };
        let Some(others) = other.best_parts() else {
            return other.copy(alloc);
        };
        let narrowed = narrowed(alloc, parts, others, thresholds)?;
        if has_bare(&narrowed) {
            Ok(StrideLeaf::none(self.count()))
        } else {
            StrideLeaf::standing_as(alloc, narrowed)
        }
    }

    fn bounds_of(&self, x: u32) -> Range {
        match self.best_parts() {
            None => Range::EMPTY,
            Some(parts) => parts[x as usize].range(),
        }
    }

    fn step_of(&self, _x: u32) -> u64 {
        1
    }

    fn form_range(&self, _f: &Form) -> Option<Range> {
        None
    }

    fn meet_range(&self, alloc: Global, x: u32, r: Range) -> Result<StrideLeaf, NoMemory> {
        match self.own_parts() {
            None => Ok(StrideLeaf::none(self.count())),
            Some(parts) => self.with(alloc, x, best_part(met_part(parts[x as usize], r))),
        }
    }

    fn meet_form(&self, alloc: Global, _f: &Form, _op: Compare) -> Result<StrideLeaf, NoMemory> {
        self.best(alloc)
    }

    fn set_range(&self, alloc: Global, x: u32, r: Range) -> Result<StrideLeaf, NoMemory> {
        let part = Strided {
            low: r.low,
            high: r.high,
            stride: Stride::ALL,
        };
        self.with(alloc, x, best_part(part))
    }

    fn set_form(&self, alloc: Global, x: u32, f: &Form, r: Range) -> Result<StrideLeaf, NoMemory> {
        match self.best_parts() {
            None => Ok(StrideLeaf::none(self.count())),
            Some(parts) => {
                let stride = form_stride(parts, f);
                self.with(alloc, x, Strided::best(r.low, r.high, stride))
            }
        }
    }

    fn operation_range(&self, _p: &Operation) -> Option<Range> {
        None
    }

    fn meet_operation(
        self,
        _alloc: Global,
        _p: &Operation,
        _op: Compare,
        _r: Range,
    ) -> Result<StrideLeaf, NoMemory> {
        Ok(self)
    }

    fn set_operation(
        &self,
        alloc: Global,
        x: u32,
        _p: &Operation,
        r: Range,
    ) -> Result<StrideLeaf, NoMemory> {
        self.set_range(alloc, x, r)
    }
}

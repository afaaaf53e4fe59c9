//! A leaf of an octagon together with intervals and strides, linearised.
#![tactic(auto)]

ghost use Rattle.std.specs.Prelude.{◌≡◌, refl};
ghost use Rattle.leaf_domain.specs.Leaves.{same_leaf};
ghost use Rattle.leaf_domain.proofs.LeafEquality.{leaf_decides, leaf_partial, leaf_equiv};
ghost use Rattle.sharp_leaf.specs.SharpLeaves.{sharp};
ghost use Rattle.sharp_leaf.specs.Laws.{sharp_laws, leaf_alike};
ghost use Rattle.sharp_leaf.specs.Hashing.{fed_leaf};

use crate::reduced::ReducedLeaf;
use fam_outer::NoMemory;
use leaf_domain::{Compare, Form, Leaf, Operation, Range, Thresholds};
use linearised_leaf::{linear_met, linear_operation_met, linear_operation_set, linear_set};
use std::alloc::Global;
use std::hash::{Hash, Hasher};
use std::marker::Model;

/// A leaf of an octagon together with intervals and strides, which holds the stores of both; or Nothing, which holds no store.
///
/// Each operation is that of both parts, and then each part has the ranges of the other. A test of a linear form and an assignment of one
/// are linearised too: where an octagon does not have all of the form, what its terms are is met two by two and one by one, with the others
/// in their ranges. A product of which one factor has one value is such a form too, a multiple of the other. What was widened or narrowed stays as it is, since the next iterate begins with it; the operations on it give each part
/// the ranges of the other.
#[derive(Drop)]
pub struct SharpLeaf {
    reduced: ReducedLeaf,
}

impl Model for SharpLeaf {
    ghost use Rattle.leaf_domain.specs.Leaves.{LeafValue};

    ghost Value = { LeafValue };

    ghost view = { λ leaf. leaf.reduced };
}

impl SharpLeaf {
    fn of(reduced: ReducedLeaf) -> SharpLeaf
        ensures { result ≡ reduced }
    {
        SharpLeaf { reduced }
    }

    fn reduced(&self) -> &ReducedLeaf
        ensures { result.now ≡ self.now }
    {
        &self.reduced
    }

    fn into_reduced(self) -> ReducedLeaf
        ensures { result ≡ self }
    {
        self.reduced
    }
}

impl PartialEq for SharpLeaf {
    ghost eq = { same_leaf };

    ghost laws = { leaf_partial };

    fn eq(&self, other: &SharpLeaf) -> bool {
        self.reduced() == other.reduced()
    }
}

impl Eq for SharpLeaf {
    ghost laws = { leaf_equiv };
}

impl Hash for SharpLeaf {
    ghost hash_input = { fed_leaf };

    ghost respects_eq = { leaf_alike };

    fn hash<H: Hasher>(&self, state: &mut H) {
        self.reduced().hash(state);
    }
}

impl Leaf for SharpLeaf {
    ghost value = { λ v. v };

    ghost meaning = { sharp };

    ghost equal = { λ a b. refl };

    ghost exact = { λ a b e. (leaf_decides a b).0 e };

    ghost laws = { sharp_laws };

    fn nothing(alloc: Global, variables: u32) -> Result<SharpLeaf, NoMemory> {
        Ok(SharpLeaf::of(ReducedLeaf::nothing(alloc, variables)?))
    }

    fn start(alloc: Global, values: &[i64]) -> Result<SharpLeaf, NoMemory> {
        Ok(SharpLeaf::of(ReducedLeaf::start(alloc, values)?))
    }

    fn bound_count(variables: u32) -> u32 {
        ReducedLeaf::bound_count(variables)
    }

    fn variables(&self) -> u32 {
        self.reduced().variables()
    }

    fn is_nothing(&self) -> bool {
        self.reduced().is_nothing()
    }

    fn copy(&self, alloc: Global) -> Result<SharpLeaf, NoMemory> {
        Ok(SharpLeaf::of(self.reduced().copy(alloc)?))
    }

    fn best(&self, alloc: Global) -> Result<SharpLeaf, NoMemory> {
        Ok(SharpLeaf::of(self.reduced().best(alloc)?))
    }

    fn leq(&self, other: &SharpLeaf) -> bool {
        self.reduced().leq(other.reduced())
    }

    fn join(&self, alloc: Global, other: &SharpLeaf) -> Result<SharpLeaf, NoMemory> {
        let joined = self.reduced().join(alloc, other.reduced())?;
        Ok(SharpLeaf::of(joined))
    }

    fn widen(
        &self,
        alloc: Global,
        other: &SharpLeaf,
        thresholds: &Thresholds,
    ) -> Result<SharpLeaf, NoMemory> {
        let widened = self.reduced().widen(alloc, other.reduced(), thresholds)?;
        Ok(SharpLeaf::of(widened))
    }

    fn narrow(
        &self,
        alloc: Global,
        other: &SharpLeaf,
        thresholds: &Thresholds,
    ) -> Result<SharpLeaf, NoMemory> {
        let narrowed = self.reduced().narrow(alloc, other.reduced(), thresholds)?;
        Ok(SharpLeaf::of(narrowed))
    }

    fn bounds_of(&self, x: u32) -> Range {
        self.reduced().bounds_of(x)
    }

    fn step_of(&self, x: u32) -> u64 {
        self.reduced().step_of(x)
    }

    fn form_range(&self, f: &Form) -> Option<Range> {
        self.reduced().form_range(f)
    }

    fn meet_range(&self, alloc: Global, x: u32, r: Range) -> Result<SharpLeaf, NoMemory> {
        Ok(SharpLeaf::of(self.reduced().meet_range(alloc, x, r)?))
    }

    fn meet_form(&self, alloc: Global, f: &Form, op: Compare) -> Result<SharpLeaf, NoMemory> {
        Ok(SharpLeaf::of(linear_met(alloc, self.reduced(), f, op)?))
    }

    fn set_range(&self, alloc: Global, x: u32, r: Range) -> Result<SharpLeaf, NoMemory> {
        Ok(SharpLeaf::of(self.reduced().set_range(alloc, x, r)?))
    }

    fn set_form(&self, alloc: Global, x: u32, f: &Form, r: Range) -> Result<SharpLeaf, NoMemory> {
        Ok(SharpLeaf::of(linear_set(alloc, self.reduced(), x, f, r)?))
    }

    fn operation_range(&self, p: &Operation) -> Option<Range> {
        self.reduced().operation_range(p)
    }

    fn meet_operation(
        self,
        alloc: Global,
        p: &Operation,
        op: Compare,
        r: Range,
    ) -> Result<SharpLeaf, NoMemory> {
        let met = linear_operation_met(alloc, self.into_reduced(), p, op, r)?;
        Ok(SharpLeaf::of(met))
    }

    fn set_operation(
        &self,
        alloc: Global,
        x: u32,
        p: &Operation,
        r: Range,
    ) -> Result<SharpLeaf, NoMemory> {
        let set = linear_operation_set(alloc, self.reduced(), x, p, r)?;
        Ok(SharpLeaf::of(set))
    }
}

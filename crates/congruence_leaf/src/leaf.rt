//! A leaf of intervals with strides that follow squares, and quotients and remainders by a constant.
#![tactic(auto)]

ghost use Rattle.std.specs.Prelude.{◌≡◌, ◌≢◌, ◌≤◌, ◌<◌, pos, IfOk, IfSome, IfNone, refl, unsigned_abs};
ghost use Rattle.c_tree.specs.Value.{IsInt};
ghost use Rattle.leaf_domain.specs.Forms.{IsForm};
ghost use Rattle.leaf_domain.specs.Operations.{IsOperation};
ghost use Rattle.leaf_domain.specs.Ranges.{IsInInt};
ghost use Rattle.leaf_domain.specs.Leaves.{nothing_of, same_leaf};
ghost use Rattle.leaf_domain.proofs.LeafEquality.{leaf_decides, leaf_partial, leaf_equiv};
ghost use Rattle.strides.specs.declared.strided.Strided as strided;
ghost use Rattle.strides.specs.Strides.{IsReduced};
ghost use Rattle.strides.specs.Strided.{IsOwn};
ghost use Rattle.product_leaf.specs.StrideLeaves.{IsStrideLeaf, best_parts, part_at, stride_with};
ghost use Rattle.product_leaf.specs.View.{IsBestOf};
ghost use Rattle.product_leaf.specs.Laws.{leaf_alike};
ghost use Rattle.product_leaf.specs.Laws.Parts.{IsLimited};
ghost use Rattle.product_leaf.specs.Hashing.{fed_leaf};
ghost use Rattle.congruence_leaf.specs.Congruences.{lone_variable, HasDivisor, leaf_results, divided_with, value_with, congruences};
ghost use Rattle.congruence_leaf.specs.Laws.{congruence_laws};

use crate::functions::{Function, function_of};
use crate::operands::lone_variable;
use crate::remainders::{cut_numbers, stride_less, stride_modulo};
use crate::results::{is_in_int, results};
use crate::two_strides::met;
use fam_outer::NoMemory;
use leaf_domain::{Compare, Form, Leaf, Operation, Range, Thresholds};
use product_leaf::StrideLeaf;
use product_leaf::parts::{best_part, met_part};
use std::alloc::Global;
use std::hash::{Hash, Hasher};
use std::marker::Model;
use strides::Strided;

/// A leaf of intervals with strides, or Nothing, whose operations on squares, and on quotients and remainders by a constant, say
/// what the strides tell of them. All other operations are those of [`StrideLeaf`].
#[derive(Drop)]
pub struct CongruenceLeaf {
    strides: StrideLeaf,
}

impl Model for CongruenceLeaf {
    ghost use Rattle.leaf_domain.specs.Leaves.{LeafValue};

    ghost Value = { LeafValue };

    ghost view = { λ s. s.strides };
}

impl CongruenceLeaf {
    /// The leaf of its intervals with strides.
    fn of(strides: StrideLeaf) -> CongruenceLeaf
        ensures { result ≡ strides }
    {
        CongruenceLeaf { strides }
    }

    /// The intervals with strides.
    fn strides(&self) -> &StrideLeaf
        ensures { result.now ≡ self.now }
    {
        &self.strides
    }

    /// The parts by their best bounds, where it is not Nothing.
    fn best_parts(&self) -> Option<&[Strided]>
        ensures nothing { IfNone result (self.now ≡ nothing_of self.now.variables) }
        ensures best { IfSome result (λ bs. IsBestOf self.now bs.now) }
        ensures few { self.now.variables ≤ 48 }
    {
        self.strides.best_parts()
    }

    /// The part of a variable by its best bounds.
    fn part(&self, x: u32) -> Strided
        requires { x < self.now.variables }
        ensures value { result ≡ part_at (best_parts self.now) x }
        ensures own { IsOwn result }
    {
        match self.best_parts() {
            None => Strided::point(0),
            Some(parts) => parts[x as usize],
        }
    }

    /// The numbers that an operation may give, where it is a function of its left form and the leaf is not Nothing.
    fn results(&self, p: &Operation) -> Option<Strided>
        requires { IsOperation self.now.variables p.now }
        ensures value { result ≡ leaf_results self.now p.now }
        ensures reduced { IfSome result (λ b. IsReduced b.stride) }
    {
        match self.best_parts() {
            None => None,
            Some(parts) => results(parts, p),
        }
    }

    /// The leaf with this part for `x`, by its best bounds; Nothing where it has no number.
    fn with(&self, alloc: Global, x: u32, part: Strided) -> Result<CongruenceLeaf, NoMemory>
        requires x { x < self.now.variables }
        requires part { IsLimited part }
        ensures { IfOk result (λ leaf. leaf ≡ stride_with self.now x part) }
    {
        let strides = self.strides().with(alloc, x, best_part(part))?;
        Ok(CongruenceLeaf::of(strides))
    }

    /// The leaf in which the function has one of these values at the form; Nothing where there is none.
    fn cut(
        self,
        alloc: Global,
        f: &Form,
        function: Function,
        values: Option<Strided>,
    ) -> Result<CongruenceLeaf, NoMemory>
        requires f { IsForm self.variables f.now }
        requires divisor { HasDivisor function }
        ensures { IfOk result (λ leaf. leaf ≡ value_with self f.now values function) }
    {
        match values {
            None => CongruenceLeaf::nothing(alloc, self.variables()),
            Some(left) => match function {
                Function::Square => Ok(self),
                Function::Quotient(_m) => Ok(self),
                Function::Remainder(m) => self.divided(alloc, f, m, left),
            },
        }
    }

    /// The leaf in which the form leaves one of these remainders by `m`.
    fn divided(
        self,
        alloc: Global,
        f: &Form,
        m: i64,
        left: Strided,
    ) -> Result<CongruenceLeaf, NoMemory>
        requires f { IsForm self.variables f.now }
        requires int { IsInt m }
        requires some { m ≢ pos 0 }
        ensures { IfOk result (λ leaf. leaf
            ≡ divided_with self (lone_variable f.now.terms) f.now.constant m left) }
    {
        match lone_variable(f) {
            None => Ok(self),
            Some(x) => {
                let stride = stride_less(stride_modulo(left.stride, m), f.constant);
                let strides = self.strides().with(alloc, x, met(self.part(x), stride))?;
                Ok(CongruenceLeaf::of(strides))
            }
        }
    }
}

impl PartialEq for CongruenceLeaf {
    ghost eq = { same_leaf };

    ghost laws = { leaf_partial };

    fn eq(&self, other: &CongruenceLeaf) -> bool {
        self.strides() == other.strides()
    }
}

impl Eq for CongruenceLeaf {
    ghost laws = { leaf_equiv };
}

impl Hash for CongruenceLeaf {
    ghost hash_input = { fed_leaf };

    ghost respects_eq = { leaf_alike };

    fn hash<H: Hasher>(&self, state: &mut H) {
        self.strides().hash(state);
    }
}

impl Leaf for CongruenceLeaf {
    ghost value = { λ v. v };

    ghost meaning = { congruences };

    ghost equal = { λ a b. refl };

    ghost exact = { λ a b e. (leaf_decides a b).0 e };

    ghost laws = { congruence_laws };

    fn nothing(alloc: Global, variables: u32) -> Result<CongruenceLeaf, NoMemory> {
        let strides = StrideLeaf::nothing(alloc, variables)?;
        Ok(CongruenceLeaf::of(strides))
    }

    fn start(alloc: Global, values: &[i64]) -> Result<CongruenceLeaf, NoMemory> {
        let strides = StrideLeaf::start(alloc, values)?;
        Ok(CongruenceLeaf::of(strides))
    }

    fn bound_count(variables: u32) -> u32 {
        StrideLeaf::bound_count(variables)
    }

    fn variables(&self) -> u32 {
        self.strides().variables()
    }

    fn is_nothing(&self) -> bool {
        self.strides().is_nothing()
    }

    fn copy(&self, alloc: Global) -> Result<CongruenceLeaf, NoMemory> {
        let strides = self.strides().copy(alloc)?;
        Ok(CongruenceLeaf::of(strides))
    }

    fn best(&self, alloc: Global) -> Result<CongruenceLeaf, NoMemory> {
        let strides = self.strides().best(alloc)?;
        Ok(CongruenceLeaf::of(strides))
    }

    fn leq(&self, other: &CongruenceLeaf) -> bool {
        self.strides().leq(other.strides())
    }

    fn join(&self, alloc: Global, other: &CongruenceLeaf) -> Result<CongruenceLeaf, NoMemory> {
        let strides = self.strides().join(alloc, other.strides())?;
        Ok(CongruenceLeaf::of(strides))
    }

    fn widen(
        &self,
        alloc: Global,
        other: &CongruenceLeaf,
        thresholds: &Thresholds,
    ) -> Result<CongruenceLeaf, NoMemory> {
        let strides = self.strides().widen(alloc, other.strides(), thresholds)?;
        Ok(CongruenceLeaf::of(strides))
    }

    fn narrow(
        &self,
        alloc: Global,
        other: &CongruenceLeaf,
        thresholds: &Thresholds,
    ) -> Result<CongruenceLeaf, NoMemory> {
        let strides = self.strides().narrow(alloc, other.strides(), thresholds)?;
        Ok(CongruenceLeaf::of(strides))
    }

    fn bounds_of(&self, x: u32) -> Range {
        self.strides().bounds_of(x)
    }

    fn step_of(&self, x: u32) -> u64 {
        self.part(x).stride.modulus
    }

    fn form_range(&self, f: &Form) -> Option<Range> {
        self.strides().form_range(f)
    }

    fn meet_range(&self, alloc: Global, x: u32, r: Range) -> Result<CongruenceLeaf, NoMemory> {
        let strides = self.strides().meet_range(alloc, x, r)?;
        Ok(CongruenceLeaf::of(strides))
    }

    fn meet_form(&self, alloc: Global, f: &Form, op: Compare) -> Result<CongruenceLeaf, NoMemory> {
        let strides = self.strides().meet_form(alloc, f, op)?;
        Ok(CongruenceLeaf::of(strides))
    }

    fn set_range(&self, alloc: Global, x: u32, r: Range) -> Result<CongruenceLeaf, NoMemory> {
        let strides = self.strides().set_range(alloc, x, r)?;
        Ok(CongruenceLeaf::of(strides))
    }

    fn set_form(
        &self,
        alloc: Global,
        x: u32,
        f: &Form,
        r: Range,
    ) -> Result<CongruenceLeaf, NoMemory> {
        let strides = self.strides().set_form(alloc, x, f, r)?;
        Ok(CongruenceLeaf::of(strides))
    }

    fn operation_range(&self, p: &Operation) -> Option<Range> {
        match self.results(p) {
            None => None,
            Some(results) => Some(results.range()),
        }
    }

    fn meet_operation(
        self,
        alloc: Global,
        p: &Operation,
        op: Compare,
        r: Range,
    ) -> Result<CongruenceLeaf, NoMemory> {
        match function_of(p) {
            None => Ok(self),
            Some(function) => match self.results(p) {
                None => Ok(self),
                Some(results) => {
                    if is_in_int(results.range()) {
                        self.cut(alloc, &p.left, function, cut_numbers(op, results, r))
                    } else {
                        Ok(self)
                    }
                }
            },
        }
    }

    fn set_operation(
        &self,
        alloc: Global,
        x: u32,
        p: &Operation,
        r: Range,
    ) -> Result<CongruenceLeaf, NoMemory> {
        match self.results(p) {
            None => self.set_range(alloc, x, r),
            Some(results) => self.with(alloc, x, met_part(results, r)),
        }
    }
}

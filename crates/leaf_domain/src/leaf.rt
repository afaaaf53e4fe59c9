//! The trait of leaves.
#![tactic(auto)]

ghost use Rattle.std.specs.Prelude.{◌≡◌, ◌<◌, ◌≤◌, true, IfOk, length, All};
ghost use Rattle.leaf_domain.specs.Ranges.{IsInInt};
ghost use Rattle.c_tree.specs.Value.{IsInt};
ghost use Rattle.leaf_domain.specs.Forms.{IsForm};
ghost use Rattle.leaf_domain.specs.Operations.{IsOperation};
ghost use Rattle.leaf_domain.specs.Leaves.{LeafValue, LeafMeaning, LeafLaws, nothing_of, is_nothing_of, same_leaf};

use crate::compare::Compare;
use crate::form::Form;
use crate::operation::Operation;
use crate::range::Range;
use crate::thresholds::Thresholds;
use fam_outer::NoMemory;
use std::alloc::Global;
use std::hash::Hash;

/// What an analysis knows of the stores at one place: Nothing, or bounds that each of them meets.
/// The meanings of a kind's operations are functions on plain values, and an analysis over leaves
/// knows nothing of a kind but the laws of these meanings.
pub trait Leaf: Eq + Hash + Drop {
    /// The leaf as plain data.
    ghost value: { Self → LeafValue };

    /// What the operations of this kind of leaf mean.
    ghost meaning: { LeafMeaning };

    /// The leaf that holds no store.
    fn nothing(alloc: Global, variables: u32) -> Result<Self, NoMemory>
        requires { variables ≤ 48 }
        ensures { IfOk result (λ leaf. value leaf ≡ nothing_of variables) };

    /// The leaf of one store.
    fn start(alloc: Global, values: &[i64]) -> Result<Self, NoMemory>
        requires few { length values.now ≤ 48 }
        requires int { All IsInt values.now }
        ensures { IfOk result (λ leaf. value leaf ≡ meaning.start values.now) };

    /// How many bounds a leaf has.
    fn bound_count(variables: u32) -> u32
        requires { variables ≤ 48 }
        ensures value { result ≡ meaning.bound_count variables }
        ensures small { result ≤ 16384 };

    /// The number of variables. Each leaf of the kind has one of the kind's values.
    fn variables(&self) -> u32
        ensures value { result ≡ (value self.now).variables }
        ensures few { result ≤ 48 }
        ensures valid { meaning.valid (value self.now) };

    /// Whether it holds no store.
    fn is_nothing(&self) -> bool
        ensures { result ≡ is_nothing_of (value self.now) };

    /// The same leaf.
    fn copy(&self, alloc: Global) -> Result<Self, NoMemory>
        ensures { IfOk result (λ leaf. value leaf ≡ value self.now) };

    /// The same stores by the bounds that are best.
    fn best(&self, alloc: Global) -> Result<Self, NoMemory>
        ensures { IfOk result (λ leaf. value leaf ≡ meaning.best (value self.now)) };

    /// Whether the stores of this leaf are seen to be among those of the other.
    fn leq(&self, other: &Self) -> bool
        requires { (value self.now).variables ≡ (value other.now).variables }
        ensures { result ≡ meaning.leq (value self.now) (value other.now) };

    /// The stores of both.
    fn join(&self, alloc: Global, other: &Self) -> Result<Self, NoMemory>
        requires { (value self.now).variables ≡ (value other.now).variables }
        ensures { IfOk result (λ leaf. value leaf ≡ meaning.join (value self.now) (value other.now)) };

    /// The stores of both, with each bound that the other moves put as the nearest threshold that covers the other's, and as
    /// the type's where none does.
    fn widen(&self, alloc: Global, other: &Self, thresholds: &Thresholds) -> Result<Self, NoMemory>
        requires { (value self.now).variables ≡ (value other.now).variables }
        ensures { IfOk result (λ leaf. value leaf ≡ meaning.widen thresholds.now (value self.now) (value other.now)) };

    /// The leaf with each bound that is the type's or that of a threshold put as the other's.
    fn narrow(&self, alloc: Global, other: &Self, thresholds: &Thresholds) -> Result<Self, NoMemory>
        requires { (value self.now).variables ≡ (value other.now).variables }
        ensures { IfOk result (λ leaf. value leaf ≡ meaning.narrow thresholds.now (value self.now) (value other.now)) };

    /// The range of a variable, empty at Nothing.
    fn bounds_of(&self, x: u32) -> Range
        requires { x < (value self.now).variables }
        ensures { result ≡ meaning.bounds_of (value self.now) x };

    /// How far apart the values of a variable are known to lie: each is the low end of its range and a multiple of the step. 1 tells no
    /// more than the range, and 0 that there is one value.
    fn step_of(&self, x: u32) -> u64
        requires { x < (value self.now).variables }
        ensures { result ≡ meaning.step_of (value self.now) x };

    /// The range of a form, where the kind of leaf has one.
    fn form_range(&self, f: &Form) -> Option<Range>
        requires { IsForm (value self.now).variables f.now }
        ensures { result ≡ meaning.form_range (value self.now) f.now };

    /// The stores at which a variable lies in the range.
    fn meet_range(&self, alloc: Global, x: u32, r: Range) -> Result<Self, NoMemory>
        requires x { x < (value self.now).variables }
        requires r { IsInInt r }
        ensures { IfOk result (λ leaf. value leaf ≡ meaning.meet_range (value self.now) x r) };

    /// The stores at which the comparison of the form with 0 holds, as far as the kind of leaf sees.
    fn meet_form(&self, alloc: Global, f: &Form, op: Compare) -> Result<Self, NoMemory>
        requires { IsForm (value self.now).variables f.now }
        ensures { IfOk result (λ leaf. value leaf ≡ meaning.meet_form (value self.now) f.now op) };

    /// The stores with a variable replaced by any number of the range.
    fn set_range(&self, alloc: Global, x: u32, r: Range) -> Result<Self, NoMemory>
        requires x { x < (value self.now).variables }
        requires r { IsInInt r }
        ensures { IfOk result (λ leaf. value leaf ≡ meaning.set_range (value self.now) x r) };

    /// The stores with a variable replaced by the value of the form, which lies in the range.
    fn set_form(&self, alloc: Global, x: u32, f: &Form, r: Range) -> Result<Self, NoMemory>
        requires x { x < (value self.now).variables }
        requires f { IsForm (value self.now).variables f.now }
        requires r { IsInInt r }
        ensures { IfOk result (λ leaf. value leaf ≡ meaning.set_form (value self.now) x f.now r) };

    /// The range of what an operator gives on two forms, before clipping, where the kind of leaf has one. That of their ranges
    /// is met with it.
    fn operation_range(&self, p: &Operation) -> Option<Range>
        requires { IsOperation (value self.now).variables p.now }
        ensures { result ≡ meaning.operation_range (value self.now) p.now };

    /// The stores at which what an operator gives on two forms compares so with some number of the range, as far as the kind of
    /// leaf sees.
    fn meet_operation(
        self,
        alloc: Global,
        p: &Operation,
        op: Compare,
        r: Range,
    ) -> Result<Self, NoMemory>
        requires p { IsOperation (value self).variables p.now }
        requires r { IsInInt r }
        ensures { IfOk result (λ leaf. value leaf ≡ meaning.meet_operation (value self) p.now op r) };

    /// The stores with a variable replaced by what an operator gives on two forms, which lies in the range.
    fn set_operation(
        &self,
        alloc: Global,
        x: u32,
        p: &Operation,
        r: Range,
    ) -> Result<Self, NoMemory>
        requires x { x < (value self.now).variables }
        requires p { IsOperation (value self.now).variables p.now }
        requires r { IsInInt r }
        ensures { IfOk result (λ leaf. value leaf ≡ meaning.set_operation (value self.now) x p.now r) };

    /// Leaves are equal where their values are, number for number.
    ghost equal: { (a b : Self) → Self.eq a b ≡ same_leaf (value a) (value b) };

    /// Where `==` answers true, the leaves are the same.
    ghost exact: { (a b : Self) → Self.eq a b ≡ true → a ≡ b };

    /// What the meanings keep.
    ghost laws: { LeafLaws meaning };
}

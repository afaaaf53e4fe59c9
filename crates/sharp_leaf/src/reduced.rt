//! A leaf of the reduced product of octagons with intervals and strides.
#![tactic(auto)]

ghost use Rattle.std.specs.Prelude.{◌≡◌, ◌≤◌, IfOk, refl};
ghost use Rattle.leaf_domain.specs.Forms.{IsForm};
ghost use Rattle.leaf_domain.specs.Leaves.{same_leaf};
ghost use Rattle.leaf_domain.proofs.LeafEquality.{leaf_decides, leaf_partial, leaf_equiv};
ghost use Rattle.octagon_leaf.specs.Octagons.{octagons};
ghost use Rattle.congruence_leaf.specs.Congruences.{congruences as strides};
ghost use Rattle.paired_leaf.specs.Pairs.{pair_of, first_of, second_of, IsPair, AreParts};
ghost use Rattle.paired_leaf.specs.Exchange.{exchanged};
ghost use Rattle.paired_leaf.specs.PairedLeaves.{both_ranges, both_bounds, step_where, both_compared, either_side};
ghost use Rattle.sharp_leaf.specs.SharpLeaves.{reduced};
ghost use Rattle.sharp_leaf.specs.Laws.{reduced_laws, leaf_alike};
ghost use Rattle.sharp_leaf.specs.Hashing.{fed_leaf};

use congruence_leaf::CongruenceLeaf;
use fam_outer::NoMemory;
use leaf_domain::{Compare, Form, Leaf, Operation, Range, Thresholds};
use octagon_leaf::OctagonLeaf;
use paired_leaf::{Parts, exchanged, settled, widened_to};
use std::alloc::Global;
use std::hash::{Hash, Hasher};
use std::marker::Model;

/// A leaf of an octagon together with intervals and strides, which holds the stores of both; or Nothing, which holds no store.
///
/// Each operation is that of both parts, and then each part has the ranges of the other. What was widened or narrowed stays as
/// it is, since the next iterate begins with it; the operations on it give each part the ranges of the other.
#[derive(Drop)]
pub(crate) struct ReducedLeaf {
    octagon: OctagonLeaf,
    strides: CongruenceLeaf,
}

impl Model for ReducedLeaf {
    ghost use Rattle.leaf_domain.specs.Leaves.{LeafValue};

    ghost Value = { LeafValue };

    ghost use Rattle.sharp_leaf.specs.View.{view_of, IsSound};

    ghost view = { view_of };

    ghost invariant = { IsSound };
}

impl ReducedLeaf {
    /// The leaf of its parts.
    fn of(parts: Parts<OctagonLeaf, CongruenceLeaf>) -> ReducedLeaf
        requires { AreParts octagons strides parts.first parts.second }
        ensures { result ≡ pair_of parts.first parts.second }
    {
        let Parts { first, second } = parts;
        ReducedLeaf {
            octagon: first,
            strides: second,
        }
    }

    /// The leaf of two parts as they are.
    fn settled(
        alloc: Global,
        first: OctagonLeaf,
        second: CongruenceLeaf,
    ) -> Result<ReducedLeaf, NoMemory>
        requires { first.variables ≡ second.variables }
        ensures { IfOk result (λ leaf. leaf ≡ pair_of first second) }
    {
        Ok(ReducedLeaf::of(settled(alloc, first, second)?))
    }

    /// The leaf of two parts once each has the ranges of the other.
    fn exchanged(
        alloc: Global,
        first: OctagonLeaf,
        second: CongruenceLeaf,
    ) -> Result<ReducedLeaf, NoMemory>
        requires { first.variables ≡ second.variables }
        ensures { IfOk result (λ leaf. leaf ≡ exchanged octagons strides first second) }
    {
        Ok(ReducedLeaf::of(exchanged(alloc, first, second)?))
    }

    /// Both parts.
    fn into_parts(self) -> Parts<OctagonLeaf, CongruenceLeaf>
        ensures first { result.first ≡ first_of self }
        ensures second { result.second ≡ second_of self }
        ensures valid { IsPair octagons strides self }
    {
        Parts {
            first: self.octagon,
            second: self.strides,
        }
    }

    /// The octagon.
    fn octagon(&self) -> &OctagonLeaf
        ensures value { result.now ≡ first_of self.now }
        ensures few { self.now.variables ≤ 48 }
        ensures valid { IsPair octagons strides self.now }
    {
        &self.octagon
    }

    /// The intervals with strides.
    fn strides(&self) -> &CongruenceLeaf
        ensures value { result.now ≡ second_of self.now }
        ensures valid { IsPair octagons strides self.now }
    {
        &self.strides
    }
}

/// What lies in both ranges, as far as there are any.
fn both_ranges(first: Option<Range>, second: Option<Range>) -> Option<Range>
    ensures { result ≡ both_ranges first second }
{
    match (first, second) {
        (None, second) => second,
        (Some(first), None) => Some(first),
        (Some(first), Some(second)) => Some(first.meet(second)),
    }
}

/// What lies in both ranges, and the first where nothing does.
fn both_bounds(first: Range, second: Range) -> Range
    ensures { result ≡ both_bounds first second }
{
    let both = first.meet(second);
    if both.is_empty() { first } else { both }
}

/// The step of the second part where both ranges begin with its low end, and else 1.
fn step_where(both: Range, second: Range, step: u64) -> u64
    ensures { result ≡ step_where both second step }
{
    if both.low == second.low { step } else { 1 }
}

/// Two parts met with a comparison.
fn both_compared(
    alloc: Global,
    first: &OctagonLeaf,
    second: &CongruenceLeaf,
    f: &Form,
    op: Compare,
) -> Result<ReducedLeaf, NoMemory>
    requires same { first.now.variables ≡ second.now.variables }
    requires form { IsForm first.now.variables f.now }
    ensures value { IfOk result
        (λ leaf. leaf ≡ both_compared octagons strides first.now second.now f.now op) }
    ensures same { IfOk result (λ leaf. leaf.variables ≡ first.now.variables) }
{
    let _valid = (first.variables(), second.variables());
    let octagon = first.meet_form(alloc, f, op)?;
    let strides = second.meet_form(alloc, f, op)?;
    ReducedLeaf::exchanged(alloc, octagon, strides)
}

/// Two parts where the form is below 0, and where it is above 0.
fn either_side(
    alloc: Global,
    first: &OctagonLeaf,
    second: &CongruenceLeaf,
    f: &Form,
) -> Result<ReducedLeaf, NoMemory>
    requires same { first.now.variables ≡ second.now.variables }
    requires form { IsForm first.now.variables f.now }
    ensures { IfOk result
        (λ leaf. leaf ≡ either_side octagons strides first.now second.now f.now) }
{
    let below = both_compared(alloc, first, second, f, Compare::Lt)?;
    let above = both_compared(alloc, first, second, f, Compare::Gt)?;
    below.join(alloc, &above)
}

impl PartialEq for ReducedLeaf {
    ghost eq = { same_leaf };

    ghost laws = { leaf_partial };

    fn eq(&self, other: &ReducedLeaf) -> bool {
        self.octagon() == other.octagon() && self.strides() == other.strides()
    }
}

impl Eq for ReducedLeaf {
    ghost laws = { leaf_equiv };
}

impl Hash for ReducedLeaf {
    ghost hash_input = { fed_leaf };

    ghost respects_eq = { leaf_alike };

    fn hash<H: Hasher>(&self, state: &mut H) {
        self.octagon().hash(state);
        self.strides().hash(state);
    }
}

impl Leaf for ReducedLeaf {
    ghost value = { λ v. v };

    ghost meaning = { reduced };

    ghost equal = { λ a b. refl };

    ghost exact = { λ a b e. (leaf_decides a b).0 e };

    ghost laws = { reduced_laws };

    fn nothing(alloc: Global, variables: u32) -> Result<ReducedLeaf, NoMemory> {
        let octagon = OctagonLeaf::nothing(alloc, variables)?;
        let strides = CongruenceLeaf::nothing(alloc, variables)?;
        ReducedLeaf::settled(alloc, octagon, strides)
    }

    fn start(alloc: Global, values: &[i64]) -> Result<ReducedLeaf, NoMemory> {
        let octagon = OctagonLeaf::start(alloc, values)?;
        let strides = CongruenceLeaf::start(alloc, values)?;
        ReducedLeaf::settled(alloc, octagon, strides)
    }

    fn bound_count(variables: u32) -> u32 {
        4 * (variables * variables) + 35 * variables
    }

    fn variables(&self) -> u32 {
        self.octagon().variables()
    }

    fn is_nothing(&self) -> bool {
        self.octagon().is_nothing()
    }

    fn copy(&self, alloc: Global) -> Result<ReducedLeaf, NoMemory> {
        let octagon = self.octagon().copy(alloc)?;
        let strides = self.strides().copy(alloc)?;
        ReducedLeaf::settled(alloc, octagon, strides)
    }

    fn best(&self, alloc: Global) -> Result<ReducedLeaf, NoMemory> {
        let octagon = self.octagon().best(alloc)?;
        let strides = self.strides().best(alloc)?;
        ReducedLeaf::exchanged(alloc, octagon, strides)
    }

    fn leq(&self, other: &ReducedLeaf) -> bool {
        self.octagon().leq(other.octagon()) && self.strides().leq(other.strides())
    }

    fn join(&self, alloc: Global, other: &ReducedLeaf) -> Result<ReducedLeaf, NoMemory> {
        if self.is_nothing() {
            return other.copy(alloc);
        }
        if other.is_nothing() {
            return self.copy(alloc);
        }
        let octagon = self.octagon().join(alloc, other.octagon())?;
        let strides = self.strides().join(alloc, other.strides())?;
        ReducedLeaf::settled(alloc, octagon, strides)
    }

    fn widen(
        &self,
        alloc: Global,
        other: &ReducedLeaf,
        thresholds: &Thresholds,
    ) -> Result<ReducedLeaf, NoMemory> {
        let octagon = widened_to(alloc, self.octagon(), other.octagon(), thresholds)?;
        let strides = widened_to(alloc, self.strides(), other.strides(), thresholds)?;
        ReducedLeaf::settled(alloc, octagon, strides)
    }

    fn narrow(
        &self,
        alloc: Global,
        other: &ReducedLeaf,
        thresholds: &Thresholds,
    ) -> Result<ReducedLeaf, NoMemory> {
        let octagon = self.octagon().narrow(alloc, other.octagon(), thresholds)?;
        let strides = self.strides().narrow(alloc, other.strides(), thresholds)?;
        ReducedLeaf::settled(alloc, octagon, strides)
    }

    fn bounds_of(&self, x: u32) -> Range {
        both_bounds(self.octagon().bounds_of(x), self.strides().bounds_of(x))
    }

    fn step_of(&self, x: u32) -> u64 {
        let strides = self.strides();
        step_where(self.bounds_of(x), strides.bounds_of(x), strides.step_of(x))
    }

    fn form_range(&self, f: &Form) -> Option<Range> {
        both_ranges(self.octagon().form_range(f), self.strides().form_range(f))
    }

    fn meet_range(&self, alloc: Global, x: u32, r: Range) -> Result<ReducedLeaf, NoMemory> {
        let octagon = self.octagon().meet_range(alloc, x, r)?;
        let strides = self.strides().meet_range(alloc, x, r)?;
        ReducedLeaf::exchanged(alloc, octagon, strides)
    }

    fn meet_form(&self, alloc: Global, f: &Form, op: Compare) -> Result<ReducedLeaf, NoMemory> {
        match op {
            Compare::Ne => {
                let octagon = self.octagon().meet_form(alloc, f, op)?;
                let strides = self.strides().meet_form(alloc, f, op)?;
                either_side(alloc, &octagon, &strides, f)
            }
            Compare::Lt | Compare::Le | Compare::Gt | Compare::Ge | Compare::Eq => {
                both_compared(alloc, self.octagon(), self.strides(), f, op)
            }
        }
    }

    fn set_range(&self, alloc: Global, x: u32, r: Range) -> Result<ReducedLeaf, NoMemory> {
        let octagon = self.octagon().set_range(alloc, x, r)?;
        let strides = self.strides().set_range(alloc, x, r)?;
        ReducedLeaf::exchanged(alloc, octagon, strides)
    }

    fn set_form(&self, alloc: Global, x: u32, f: &Form, r: Range) -> Result<ReducedLeaf, NoMemory> {
        let octagon = self.octagon().set_form(alloc, x, f, r)?;
        let strides = self.strides().set_form(alloc, x, f, r)?;
        ReducedLeaf::exchanged(alloc, octagon, strides)
    }

    fn operation_range(&self, p: &Operation) -> Option<Range> {
        both_ranges(
            self.octagon().operation_range(p),
            self.strides().operation_range(p),
        )
    }

    fn meet_operation(
        self,
        alloc: Global,
        p: &Operation,
        op: Compare,
        r: Range,
    ) -> Result<ReducedLeaf, NoMemory> {
        let Parts { first, second } = self.into_parts();
        let octagon = first.meet_operation(alloc, p, op, r)?;
        let strides = second.meet_operation(alloc, p, op, r)?;
        ReducedLeaf::exchanged(alloc, octagon, strides)
    }

    fn set_operation(
        &self,
        alloc: Global,
        x: u32,
        p: &Operation,
        r: Range,
    ) -> Result<ReducedLeaf, NoMemory> {
        let octagon = self.octagon().set_operation(alloc, x, p, r)?;
        let strides = self.strides().set_operation(alloc, x, p, r)?;
        ReducedLeaf::exchanged(alloc, octagon, strides)
    }
}

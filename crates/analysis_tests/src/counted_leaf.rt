//! Leaves of intervals that count the joins of an analysis.

ghost use Rattle.std.specs.Prelude.{◌≡◌, IfOk, refl};
ghost use Rattle.leaf_domain.specs.Leaves.{same_leaf};
ghost use Rattle.leaf_domain.proofs.LeafEquality.{leaf_decides, leaf_partial, leaf_equiv};
ghost use Rattle.interval_leaf.specs.Hashing.{fed_leaf};
ghost use Rattle.interval_leaf.specs.Intervals.{intervals};
ghost use Rattle.interval_leaf.specs.Laws.{interval_laws, leaf_alike};

use fam_outer::NoMemory;
use interval_leaf::IntervalLeaf;
use leaf_domain::{Compare, Form, Leaf, Operation, Range, Thresholds};
use std::alloc::Global;
use std::cell::Cell;
use std::hash::{Hash, Hasher};
use std::marker::Model;
use std::rc::Rc;

/// A leaf of intervals. All leaves that are made of one `start` share the count of their joins, and one of `nothing` has no
/// count. Contracts see the leaf of intervals alone.
#[derive(Drop)]
pub(crate) struct CountedLeaf {
    leaf: IntervalLeaf,
    joins: Option<Rc<Cell<u32>>>,
}

impl Model for CountedLeaf {
    ghost use Rattle.leaf_domain.specs.Leaves.{LeafValue};

    ghost Value = { LeafValue };

    ghost view = { λ a. a.leaf };
}

impl CountedLeaf {
    /// How many joins there were of leaves with this leaf's count.
    pub(crate) fn joins(&self) -> u32 {
        match &self.joins {
            None => 0,
            Some(joins) => joins.get(),
        }
    }

    /// One more join.
    fn count_join(&self) {
        if let Some(joins) = &self.joins {
            joins.set(joins.get().wrapping_add(1));
        }
    }

    /// The leaf of the two that has a count, where one has.
    fn counted<'a>(&'a self, other: &'a CountedLeaf) -> &'a CountedLeaf {
        if self.joins.is_some() { self } else { other }
    }

    /// A leaf with the count of this one.
    fn with(&self, leaf: IntervalLeaf) -> Result<CountedLeaf, NoMemory>
        ensures { IfOk result (λ made. made ≡ leaf) }
    {
        let joins = match &self.joins {
            None => None,
            Some(joins) => Some(joins.clone()?),
        };
        Ok(CountedLeaf { leaf, joins })
    }
}

impl PartialEq for CountedLeaf {
    ghost eq = { same_leaf };

    ghost laws = { leaf_partial };

    fn eq(&self, other: &CountedLeaf) -> bool {
        self.leaf == other.leaf
    }
}

impl Eq for CountedLeaf {
    ghost laws = { leaf_equiv };
}

impl Hash for CountedLeaf {
    ghost hash_input = { fed_leaf };

    ghost respects_eq = { leaf_alike };

    fn hash<H: Hasher>(&self, state: &mut H) {
        self.leaf.hash(state);
    }
}

impl Leaf for CountedLeaf {
    ghost value = { λ v. v };

    ghost meaning = { intervals };

    ghost equal = { λ a b. refl };

    ghost exact = { λ a b e. (leaf_decides a b).0 e };

    ghost laws = { interval_laws };

    fn nothing(alloc: Global, variables: u32) -> Result<CountedLeaf, NoMemory> {
        let leaf = IntervalLeaf::nothing(alloc, variables)?;
        Ok(CountedLeaf { leaf, joins: None })
    }

    fn start(alloc: Global, values: &[i64]) -> Result<CountedLeaf, NoMemory> {
        let leaf = IntervalLeaf::start(alloc, values)?;
        let joins = Some(Rc::new(alloc, Cell::new(0u32))?);
        Ok(CountedLeaf { leaf, joins })
    }

    fn bound_count(variables: u32) -> u32 {
        IntervalLeaf::bound_count(variables)
    }

    fn variables(&self) -> u32 {
        self.leaf.variables()
    }

    fn is_nothing(&self) -> bool {
        self.leaf.is_nothing()
    }

    fn copy(&self, alloc: Global) -> Result<CountedLeaf, NoMemory> {
        self.with(self.leaf.copy(alloc)?)
    }

    fn best(&self, alloc: Global) -> Result<CountedLeaf, NoMemory> {
        self.with(self.leaf.best(alloc)?)
    }

    fn leq(&self, other: &CountedLeaf) -> bool {
        self.leaf.leq(&other.leaf)
    }

    fn join(&self, alloc: Global, other: &CountedLeaf) -> Result<CountedLeaf, NoMemory> {
        let counted = self.counted(other);
        counted.count_join();
        counted.with(self.leaf.join(alloc, &other.leaf)?)
    }

    fn widen(
        &self,
        alloc: Global,
        other: &CountedLeaf,
        thresholds: &Thresholds,
    ) -> Result<CountedLeaf, NoMemory> {
        let leaf = self.leaf.widen(alloc, &other.leaf, thresholds)?;
        self.counted(other).with(leaf)
    }

    fn narrow(
        &self,
        alloc: Global,
        other: &CountedLeaf,
        thresholds: &Thresholds,
    ) -> Result<CountedLeaf, NoMemory> {
        let leaf = self.leaf.narrow(alloc, &other.leaf, thresholds)?;
        self.counted(other).with(leaf)
    }

    fn bounds_of(&self, x: u32) -> Range {
        self.leaf.bounds_of(x)
    }

    fn step_of(&self, x: u32) -> u64 {
        self.leaf.step_of(x)
    }

    fn form_range(&self, f: &Form) -> Option<Range> {
        self.leaf.form_range(f)
    }

    fn meet_range(&self, alloc: Global, x: u32, r: Range) -> Result<CountedLeaf, NoMemory> {
        self.with(self.leaf.meet_range(alloc, x, r)?)
    }

    fn meet_form(&self, alloc: Global, f: &Form, op: Compare) -> Result<CountedLeaf, NoMemory> {
        self.with(self.leaf.meet_form(alloc, f, op)?)
    }

    fn set_range(&self, alloc: Global, x: u32, r: Range) -> Result<CountedLeaf, NoMemory> {
        self.with(self.leaf.set_range(alloc, x, r)?)
    }

    fn set_form(&self, alloc: Global, x: u32, f: &Form, r: Range) -> Result<CountedLeaf, NoMemory> {
        self.with(self.leaf.set_form(alloc, x, f, r)?)
    }

    fn operation_range(&self, p: &Operation) -> Option<Range> {
        self.leaf.operation_range(p)
    }

    fn meet_operation(
        self,
        alloc: Global,
        p: &Operation,
        op: Compare,
        r: Range,
    ) -> Result<CountedLeaf, NoMemory> {
        let leaf = self.leaf.meet_operation(alloc, p, op, r)?;
        let joins = self.joins;
        Ok(CountedLeaf { leaf, joins })
    }

    fn set_operation(
        &self,
        alloc: Global,
        x: u32,
        p: &Operation,
        r: Range,
    ) -> Result<CountedLeaf, NoMemory> {
        self.with(self.leaf.set_operation(alloc, x, p, r)?)
    }
}

//! The first of the valid configurations with the least cost, asked for with rising costs.
#![tactic(auto)]

ghost use Rattle.std.specs.Prelude.{◌≡◌, ◌≤◌, ◌<◌, ◌^◌, ℤ, List, length, IfOk};
ghost use Rattle.linear_atoms.specs.Atoms.{AreAtoms};
ghost use Rattle.cpp_conditions.specs.Validity.{plain as plain_model, IsValid};
ghost use Rattle.decision_tree.specs.Listed.{IsNumberedTree};
ghost use Rattle.decision_tree.specs.Plain.{TestsBelow};
ghost use Rattle.decision_tree.specs.View.{numbered, plain};
ghost use Rattle.configuration_advice.specs.Changes.{FindsCheapest};
ghost use Rattle.configuration_advice.specs.Costs.{cost_at, IsPriced};

use crate::comparing::Advice;
use crate::costs::above;
use atom_solver::Prepared;
use decision_tree::Tree;
use fam_outer::NoMemory;
use linear_atoms::Atom;
use std::alloc::Global;
use tree_questions::least_untrue;

/// What is asked of all valid configurations: a prepared model, the atoms whose numbers are tests, and the tree of costs.
#[derive(Clone, Copy)]
pub(crate) struct Priced<'a> {
    pub prepared: &'a Prepared<'a>,
    pub tests: &'a [Atom],
    pub cost: &'a Tree<u32>,
}

/// The first of the valid configurations with the least cost, where none costs less than `least`, and that is at most `most`.
pub(crate) fn cheapest(
    alloc: Global,
    priced: &Priced,
    least: u32,
    most: u32,
) -> Result<Option<Advice>, NoMemory>
    requires priced { IsPriced priced.now }
    requires none { (values : List ℤ) → IsValid (plain_model priced.now.prepared.now) values → least ≤ cost_at priced.now values }
    requires within { least ≤ most }
    requires few { most < 2 ^ 31 }
    ensures { IfOk result (λ found. FindsCheapest priced.now.prepared.now (cost_at priced.now) most found) }
{
    let dearer = above(alloc, priced.cost, least)?;
    match least_untrue(alloc, priced.prepared, priced.tests, &dearer)? {
        Some(config) => Ok(Some(Advice {
            config,
            changed: least,
        })),
        None => {
            if least < most {
                cheapest(alloc, priced, least + 1, most)
            } else {
                Ok(None)
            }
        }
    }
}

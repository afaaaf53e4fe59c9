//! The first loop that is not inductive.
#![tactic(auto)]

ghost use Rattle.std.specs.Prelude.{length, IfOk, MatchOption};
ghost use Rattle.std.specs.List.{All};
ghost use Rattle.linear_atoms.specs.Atoms.{AreAtoms};
ghost use Rattle.decision_tree.specs.Listed.{IsNumberedTree};
ghost use Rattle.decision_tree.specs.Plain.{TestsBelow};
ghost use Rattle.decision_tree.specs.View.{numbered, plain};
ghost use Rattle.lifted_analysis.specs.declared.findings.LoopTree.{LoopTree};
ghost use Rattle.invariant_certificate.specs.Failing.{AllHold};
ghost use Rattle.invariant_certificate.specs.FirstFailing.{loop_holds, IsFirstLoop};

use atom_solver::Prepared;
use fam_outer::{NoMemory, Place};
use lifted_analysis::LoopTree;
use linear_atoms::{Atom, Config};
use std::alloc::Global;
use tree_questions::least_untrue;

/// The place of the first loop whose tree is false at some valid configuration, and the least such configuration.
pub(crate) fn first_unsettled(
    alloc: Global,
    prepared: &Prepared,
    atoms: &[Atom],
    loops: &[LoopTree],
) -> Result<Option<(Place, Config)>, NoMemory>
    requires atoms { AreAtoms (length prepared.now.features) atoms.now }
    requires tests { All (λ (l : LoopTree). TestsBelow (length atoms.now) (plain l.tree)) loops.now }
    requires trees { All (λ (l : LoopTree). IsNumberedTree 0 320 (numbered l.tree)) loops.now }
    ensures { IfOk result (λ found. MatchOption found
        (AllHold prepared.now (loop_holds atoms.now) loops.now)
        (λ x. IsFirstLoop prepared.now atoms.now loops.now x.0 x.1.values)) }
{
    'loops: for one in loops {
        if let Some(config) = least_untrue(alloc, prepared, atoms, &one.tree)? {
            return Ok(Some((one.place, config)));
        }
    }
    Ok(None)
}

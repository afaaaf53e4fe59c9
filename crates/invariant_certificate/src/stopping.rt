//! The first stop that is not listed.
#![tactic(auto)]

ghost use Rattle.std.specs.Prelude.{◌≤◌, length, IfOk, MatchOption};
ghost use Rattle.std.specs.List.{All};
ghost use Rattle.linear_atoms.specs.Atoms.{AreAtoms};
ghost use Rattle.cpp_conditions.specs.Propositions.{IsBelow};
ghost use Rattle.cpp_conditions.specs.View.{formula};
ghost use Rattle.decision_tree.specs.Listed.{IsNumberedTree};
ghost use Rattle.decision_tree.specs.Plain.{TestsBelow};
ghost use Rattle.decision_tree.specs.View.{numbered, plain};
ghost use Rattle.lifted_analysis.specs.declared.findings.AlarmTree.{AlarmTree};
ghost use Rattle.certificate_format.specs.declared.certificates.AlarmLine.{AlarmLine};
ghost use Rattle.invariant_certificate.specs.Failing.{AllHold};
ghost use Rattle.invariant_certificate.specs.FirstFailing.{stop_holds, IsFirstStop};

use crate::listing::covered;
use atom_solver::Prepared;
use c_tree::Kind;
use certificate_format::AlarmLine;
use fam_outer::{NoMemory, Place};
use lifted_analysis::AlarmTree;
use linear_atoms::{Atom, Config};
use std::alloc::Global;
use tree_questions::least_untrue;

/// A place and a kind, and a configuration.
pub(crate) type UnlistedStop = (Place, Kind, Config);

/// The place and the kind of the first alarm tree that is true at some valid configuration at which no line lists it, and the
/// least such configuration.
pub(crate) fn first_unlisted(
    alloc: Global,
    prepared: &Prepared,
    atoms: &[Atom],
    alarms: &[AlarmTree],
    lines: &[AlarmLine],
) -> Result<Option<UnlistedStop>, NoMemory>
    requires atoms { AreAtoms (length prepared.now.features) atoms.now }
    requires few { length atoms.now ≤ 320 }
    requires tests { All (λ (a : AlarmTree). TestsBelow (length atoms.now) (plain a.tree)) alarms.now }
    requires trees { All (λ (a : AlarmTree). IsNumberedTree 0 320 (numbered a.tree)) alarms.now }
    requires lines { All (λ (l : AlarmLine). IsBelow (length atoms.now) (formula l.region)) lines.now }
    ensures { IfOk result (λ found. MatchOption found
        (AllHold prepared.now (stop_holds atoms.now lines.now) alarms.now)
        (λ x. IsFirstStop prepared.now atoms.now lines.now alarms.now x.0 x.1 x.2.values)) }
{
    'alarms: for alarm in alarms {
        let covered = covered(alloc, alarm, lines)?;
        if let Some(config) = least_untrue(alloc, prepared, atoms, &covered)? {
            return Ok(Some((alarm.place, alarm.kind, config)));
        }
    }
    Ok(None)
}

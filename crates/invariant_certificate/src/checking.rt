//! The check of a certificate.
#![tactic(auto)]

ghost use Rattle.std.specs.Prelude.{◌≡◌, ◌≤◌, length, IfOk};
ghost use Rattle.std.specs.List.{All};
ghost use Rattle.c_tree.specs.Project.{IsConditioned};
ghost use Rattle.c_tree.specs.View.{whole};
ghost use Rattle.c_tree.specs.Whole.{IsProgram};
ghost use Rattle.linear_atoms.specs.Atoms.{AreRanges, AreAtoms};
ghost use Rattle.cpp_conditions.specs.declared.formulas.Formula.{Formula};
ghost use Rattle.cpp_conditions.specs.Numbering.{AreAllAmong};
ghost use Rattle.cpp_conditions.specs.Propositions.{IsBelow};
ghost use Rattle.cpp_conditions.specs.Validity.{plain, AreFit};
ghost use Rattle.cpp_conditions.specs.View.{formula};
ghost use Rattle.decision_tree.specs.Listed.{IsNumberedTree};
ghost use Rattle.decision_tree.specs.Plain.{TestsBelow};
ghost use Rattle.decision_tree.specs.View as tree;
ghost use Rattle.lifted_analysis.specs.declared.findings.AlarmTree.{AlarmTree};
ghost use Rattle.lifted_analysis.specs.declared.findings.LoopTree.{LoopTree};
ghost use Rattle.lifted_analysis.specs.declared.lines.LoopLine.{LoopLine};
ghost use Rattle.lifted_analysis.specs.Lines.{AreVariableBounds, AreRegionsBelow};
ghost use Rattle.certificate_format.specs.declared.certificates.AlarmLine.{AlarmLine};
ghost use Rattle.invariant_certificate.specs.declared.verdicts.Verdict.TheVariants.{Yes};
ghost use Rattle.invariant_certificate.specs.FirstFailing.{IsJudged};
ghost use Rattle.invariant_certificate.specs.Verdicts.{IsVerdict, StopsAreListed};

use crate::settling::first_unsettled;
use crate::stopping::first_unlisted;
use crate::verdicts::Verdict;
use atom_solver::{Prepared, plausible};
use c_tree::Program;
use certificate_format::{AlarmLine, Certificate};
use cpp_conditions::{Formula, Model};
use fam_outer::NoMemory;
use leaf_domain::Leaf;
use lifted_analysis::{PassFindings, pass_family};
use linear_atoms::Atom;
use std::alloc::Global;

/// What the trees of a pass come to.
fn judged<L: Leaf>(
    alloc: Global,
    prepared: &Prepared,
    atoms: &[Atom],
    found: &PassFindings<L>,
    lines: &[AlarmLine],
) -> Result<Verdict, NoMemory>
    requires atoms { AreAtoms (length prepared.now.features) atoms.now }
    requires few { length atoms.now ≤ 320 }
    requires loops { All (λ (l : LoopTree). TestsBelow (length atoms.now) (tree.plain l.tree)) found.now.loops.items }
    requires alarms { All (λ (a : AlarmTree). TestsBelow (length atoms.now) (tree.plain a.tree)) found.now.alarms.items }
    requires loops_numbered { All (λ (l : LoopTree). IsNumberedTree 0 320 (tree.numbered l.tree)) found.now.loops.items }
    requires alarms_numbered { All (λ (a : AlarmTree). IsNumberedTree 0 320 (tree.numbered a.tree)) found.now.alarms.items }
    requires lines { All (λ (l : AlarmLine). IsBelow (length atoms.now) (formula l.region)) lines.now }
    ensures { IfOk result (λ verdict. IsJudged prepared.now atoms.now lines.now
        found.now.loops.items found.now.alarms.items verdict) }
{
    let loops = found.loops.as_slice();
    if let Some((place, config)) = first_unsettled(alloc, prepared, atoms, loops)? {
        return Ok(Verdict::NotInductive(place, config));
    }
    let alarms = found.alarms.as_slice();
    if let Some((place, kind, config)) = first_unlisted(alloc, prepared, atoms, alarms, lines)? {
        return Ok(Verdict::Unlisted(place, kind, config));
    }
    Ok(Verdict::Yes)
}

/// Whether a certificate holds of a family over a model.
///
/// One pass over all variants at once has at the head of each loop what the loop's lines say, so it takes no rounds and trusts no
/// analysis. Yes comes where at every valid configuration each loop is inductive and each stop that may be met is listed by an
/// alarm line of its place and kind whose region holds; then every stop of every run of every valid configuration's variant is
/// listed. Else the answer is the first loop, in the order of the text, that is not inductive at some valid configuration; or,
/// where all are inductive, the first place and then kind that are not listed at some valid configuration; with the least such
/// configuration. The only refusal is want of memory.
///
/// Numbers of regions and of conditions are below the number of atoms, of which there are at most 320. The bounds of a loop line, if
/// it has any, are one range for each variable, within `int`.
pub fn check<L: Leaf>(
    alloc: Global,
    model: &Model,
    code: &Program,
    conditions: &[Formula],
    atoms: &[Atom],
    certificate: &Certificate,
) -> Result<Verdict, NoMemory>
    requires constraints { AreFit (length model.now.features) model.now.constraints }
    requires ranges { AreRanges model.now.features }
    requires program { IsProgram (whole code.now) }
    requires conditioned { IsConditioned (length conditions.now) (whole code.now) }
    requires among { AreAllAmong atoms.now (plain model.now).constraints }
    requires atoms { AreAtoms (length model.now.features) atoms.now }
    requires few { length atoms.now ≤ 320 }
    requires below { All (λ (c : Formula). IsBelow (length atoms.now) (formula c)) conditions.now }
    requires regions { AreRegionsBelow (length atoms.now) certificate.now.loops.items }
    requires bounds { All (λ (l : LoopLine). AreVariableBounds (length code.now.names) l.bounds) certificate.now.loops.items }
    requires listed { All (λ (l : AlarmLine). IsBelow (length atoms.now) (formula l.region)) certificate.now.alarms.items }
    ensures verdict { IfOk result (λ verdict. IsVerdict L.meaning model.now
        (whole code.now) conditions.now atoms.now certificate.now verdict) }
    ensures sound { IfOk result (λ verdict. verdict ≡ Yes → StopsAreListed L.meaning model.now
        (whole code.now) conditions.now atoms.now certificate.now) }
{
    let plausible = plausible(alloc, model, atoms)?;
    let prepared = Prepared::new(alloc, model)?;
    let mode = certificate.mode;
    let loops = certificate.loops.as_slice();
    let found = pass_family::<L>(alloc, code, conditions, &plausible, mode, loops)?;
    let lines = certificate.alarms.as_slice();
    judged(alloc, &prepared, atoms, &found, lines)
}

//! `certify`: the invariants of the loops of a family and its alarms, as a text.
#![tactic(auto)]

ghost use Rattle.std.specs.Prelude.{◌≡◌, IfOk, map};
ghost use Rattle.linear_atoms.specs.declared.regions.Regions.{Regions};
ghost use Rattle.plain_analysis.specs.declared.options.Options.{Options};
ghost use Rattle.alarm_report.specs.Invariants.{invariant};
ghost use Rattle.famlint_families.specs.Findings.{IsFound, AreTested, AreAlarmsWithLiterals, AreInvariantsWithLiterals, AreGoodLoops, IsCertificateText};
ghost use Rattle.famlint_loads.specs.ProductLines.{IsUsableLine};

use alarm_report::{FamilyAlarm, FamilyInvariant, invariants_of};
use atom_solver::Prepared;
use c_parser::variants::variants_are_projections;
use certificate_format::{certificate_text, loop_places, loop_trees};
use fam_outer::{NoMemory, Text};
use famlint_loads::ProductLine;
use leaf_domain::{Leaf, transfer_is_sound};
use lifted_analysis::FamilyFindings;
use linear_atoms::Regions;
use plain_analysis::Options;
use report_laws::leaf_texts_tell_stores;
use std::alloc::Global;

/// The invariants of the loops that were found.
fn loops_in<L: Leaf>(
    alloc: Global,
    line: &ProductLine,
    prepared: &Prepared,
    findings: &FamilyFindings<L>,
) -> Result<Vec<FamilyInvariant<L>>, NoMemory>
    requires line { IsUsableLine line.now }
    requires prepared { prepared.now ≡ line.now.model }
    requires tested { AreTested line.now findings.now }
    ensures good { (o : Options) (r : Regions) → IsFound L.value L.meaning o r line.now findings.now
        → IfOk result (λ made. AreGoodLoops L.meaning o r line.now (map (invariant L.value) made.items)) }
    ensures fit { IfOk result (λ made. AreInvariantsWithLiterals line.now made.items) }
{
    variants_are_projections();
    transfer_is_sound::<L>();
    leaf_texts_tell_stores::<L>();
    let atoms = line.family.atoms.items();
    let loops = loop_places(alloc, &line.family.code)?;
    let trees = loop_trees(alloc, &loops, findings.places.as_slice())?;
    let invariants = invariants_of(alloc, prepared, atoms, &trees)?;
    Ok(invariants)
}

/// The text of the certificate of what was found.
pub(crate) fn certificate_of<L: Leaf>(
    alloc: Global,
    line: &ProductLine,
    options: &Options,
    regions: Regions,
    prepared: &Prepared,
    findings: &FamilyFindings<L>,
    alarms: &[FamilyAlarm],
) -> Result<Text, NoMemory>
    requires line { IsUsableLine line.now }
    requires prepared { prepared.now ≡ line.now.model }
    requires tested { AreTested line.now findings.now }
    requires fit { AreAlarmsWithLiterals line.now alarms.now }
    ensures { IsFound L.value L.meaning options.now regions line.now findings.now
        → IfOk result (λ text. IsCertificateText L.meaning options.now regions line.now alarms.now text) }
{
    let loops = loops_in(alloc, line, prepared, findings)?;
    let features = line.model.features.items();
    let names = line.family.code.names.items();
    let text = certificate_text(
        alloc,
        regions,
        features,
        names,
        options.mode,
        loops.as_slice(),
        alarms,
    )?;
    Ok(text)
}

//! What is asked of all variants of a family at once: `analyse`, `invariants` and `certify`.
#![tactic(auto)]

ghost use Rattle.std.specs.Prelude.{◌≡◌, ◌≤◌, ◌++◌, [], ◌∷◌, IfOk, IsOk, map};
ghost use Rattle.fam_outer.specs.Loading.{AreGiven};
ghost use Rattle.std.specs.List.{All};
ghost use Rattle.c_tree.specs.View.{whole};
ghost use Rattle.decision_tree.specs.Listed.{IsNumberedTree};
ghost use Rattle.decision_tree.specs.View.{numbered};
ghost use Rattle.lifted_analysis.specs.declared.findings.AlarmTree.{AlarmTree};
ghost use Rattle.linear_atoms.specs.declared.regions.Regions.{Regions};
ghost use Rattle.linear_atoms.specs.declared.regions.Regions.TheVariants.{Paths};
ghost use Rattle.plain_analysis.specs.declared.options.Options.{Options};
ghost use Rattle.alarm_report.specs.Invariants.{invariant};
ghost use Rattle.famlint_families.specs.FamilyAnswers.{AnswersFamily, PromisedFamily};
ghost use Rattle.famlint_loads.specs.Contents.{of_line};
ghost use Rattle.famlint_programs.specs.AnalysisOptions.{options_of};
ghost use Rattle.famlint_programs.specs.ProgramAnswers.{meaning_of};
ghost use Rattle.famlint_families.specs.FamilyReports.{IsFamilyDone, sizes_text, family_status as status_of};
ghost use Rattle.famlint_families.specs.Findings.{IsFound, AreTested, AreAlarmsWithLiterals, AreInvariantsWithLiterals, AreGoodAlarms, AreGoodInvariants, AreInvariantsBefore, IsGoodText};
ghost use Rattle.famlint_families.specs.Headline.{PromisedOfAll};
ghost use Rattle.famlint_loads.specs.Loads.{IsReadOf, IsRight, model_source, file_source};
ghost use Rattle.famlint_loads.specs.ProductLines.{IsLoadedFor, IsUsableLine};

use crate::certify::certificate_of;
use alarm_report::{
    FamilyAlarm, FamilyAlarms, FamilyInvariant, alarm_text, alarms_of, invariant_text,
    invariants_of,
};
use atom_solver::{Prepared, plausible};
use c_parser::variants::variants_are_projections;
use command_words::Word;
use fam_outer::{Dialect, Files, NoMemory, Text};
use famlint_loads::{Done, Failure, ProductLine, load_product_line};
use famlint_programs::options::options_of;
use famlint_programs::over_domain;
use famlint_requests::{Analysis, FamilyTask};
use leaf_domain::{Leaf, transfer_is_sound};
use lifted_analysis::{FamilyFindings, analyse_family};
use linear_atoms::Regions;
use merged_findings::merged_findings;
use plain_analysis::Options;
use report_laws::leaf_texts_tell_stores;
use std::alloc::Global;

/// What the analysis of all variants finds, over a kind of leaf.
pub(crate) fn found_in<L: Leaf>(
    alloc: Global,
    line: &ProductLine,
    options: &Options,
    regions: Regions,
) -> Result<FamilyFindings<L>, NoMemory>
    requires { IsUsableLine line.now }
    ensures found { IfOk result (λ f. IsFound L.value L.meaning options.now regions line.now f) }
    ensures tested { IfOk result (λ f. AreTested line.now f) }
    ensures numbered { regions ≡ Paths → IfOk result
        (λ f. All (λ (a : AlarmTree). IsNumberedTree 0 320 (numbered a.tree)) f.alarms.items) }
{
    let family = &line.family;
    let plausible = plausible(alloc, &line.model, family.atoms.items())?;
    let conditions = family.conditions.items();
    let findings = analyse_family(alloc, &family.code, conditions, &plausible, options)?;
    match regions {
        Regions::Paths => Ok(findings),
        Regions::Merged => merged_findings(alloc, &findings, &plausible),
    }
}

/// The alarms that were found.
pub(crate) fn alarms_in<L: Leaf>(
    alloc: Global,
    line: &ProductLine,
    prepared: &Prepared,
    findings: &FamilyFindings<L>,
) -> Result<FamilyAlarms, NoMemory>
    requires line { IsUsableLine line.now }
    requires prepared { prepared.now ≡ line.now.model }
    requires tested { AreTested line.now findings.now }
    ensures good { (o : Options) (r : Regions) → IsFound L.value L.meaning o r line.now findings.now
        → IfOk result (λ alarms. AreGoodAlarms L.meaning o r line.now alarms) }
    ensures fit { IfOk result (λ alarms. AreAlarmsWithLiterals line.now alarms) }
{
    variants_are_projections();
    let atoms = line.family.atoms.items();
    let alarms = alarms_of(alloc, prepared, atoms, findings.alarms.as_slice())?;
    Ok(alarms)
}

/// The invariants that were found.
fn invariants_in<L: Leaf>(
    alloc: Global,
    line: &ProductLine,
    prepared: &Prepared,
    findings: &FamilyFindings<L>,
) -> Result<Vec<FamilyInvariant<L>>, NoMemory>
    requires line { IsUsableLine line.now }
    requires prepared { prepared.now ≡ line.now.model }
    requires tested { AreTested line.now findings.now }
    ensures good { (o : Options) (r : Regions) → IsFound L.value L.meaning o r line.now findings.now
        → IfOk result (λ made. AreGoodInvariants L.meaning o r line.now (map (invariant L.value) made.items)) }
    ensures fit { IfOk result (λ made. AreInvariantsWithLiterals line.now made.items) }
{
    variants_are_projections();
    transfer_is_sound::<L>();
    leaf_texts_tell_stores::<L>();
    let atoms = line.family.atoms.items();
    let invariants = invariants_of(alloc, prepared, atoms, findings.places.as_slice())?;
    Ok(invariants)
}

/// 1 where there is an alarm.
pub(crate) fn family_status(alarms: &[FamilyAlarm]) -> u8
    ensures { result ≡ status_of alarms.now }
{
    if alarms.is_empty() { 0 } else { 1 }
}

/// The text of the invariants that were found, and behind it that of the alarms.
pub(crate) fn invariants_before<L: Leaf>(
    alloc: Global,
    line: &ProductLine,
    regions: Regions,
    prepared: &Prepared,
    findings: &FamilyFindings<L>,
    alarms: &Text,
) -> Result<Text, NoMemory>
    requires line { IsUsableLine line.now }
    requires prepared { prepared.now ≡ line.now.model }
    requires tested { AreTested line.now findings.now }
    ensures { (o : Options) → IsFound L.value L.meaning o regions line.now findings.now
        → IfOk result (λ text. AreInvariantsBefore L.meaning o regions line.now alarms.now text) }
{
    let invariants = invariants_in(alloc, line, prepared, findings)?;
    let features = line.model.features.items();
    let names = line.family.code.names.items();
    let front = invariant_text(alloc, regions, features, names, invariants.as_slice())?;
    let mut text = Vec::from_slice(alloc, front.bytes())?;
    text.extend_from_slice(alarms.bytes())?;
    Ok(Text::from_vec(text))
}

/// How many bytes and places there are, and behind it the text of the alarms.
fn sizes_before<L: Leaf>(
    alloc: Global,
    line: &ProductLine,
    findings: &FamilyFindings<L>,
    told: &Text,
) -> Result<Text, NoMemory>
    ensures { (o : Options) (r : Regions) → IsFound L.value L.meaning o r line.now findings.now
        → IfOk result (λ text. text ≡ sizes_text line.now ++ told.now) }
{
    let bytes = line.text.bytes().len();
    let places = findings.places.len();
    let front = format!(in alloc; "bytes: {bytes}\nplaces: {places}\n")?;
    let mut text = front.into_bytes();
    text.extend_from_slice(told.bytes())?;
    Ok(Text::from_vec(text))
}

/// The whole text that is asked for.
fn text_for<L: Leaf>(
    alloc: Global,
    line: &ProductLine,
    options: &Options,
    regions: Regions,
    task: FamilyTask,
    prepared: &Prepared,
    findings: &FamilyFindings<L>,
    alarms: &[FamilyAlarm],
) -> Result<Text, NoMemory>
    requires line { IsUsableLine line.now }
    requires prepared { prepared.now ≡ line.now.model }
    requires tested { AreTested line.now findings.now }
    requires fit { AreAlarmsWithLiterals line.now alarms.now }
    ensures { IsFound L.value L.meaning options.now regions line.now findings.now
        → IfOk result (λ text. IsGoodText L.meaning options.now regions task line.now alarms.now text) }
{
    let features = line.model.features.items();
    match task {
        FamilyTask::Analyse => alarm_text(alloc, regions, features, alarms),
        FamilyTask::Invariants => {
            let told = alarm_text(alloc, regions, features, alarms)?;
            invariants_before(alloc, line, regions, prepared, findings, &told)
        }
        FamilyTask::Certify => {
            certificate_of(alloc, line, options, regions, prepared, findings, alarms)
        }
        FamilyTask::Generate => {
            let told = alarm_text(alloc, regions, features, alarms)?;
            sizes_before(alloc, line, findings, &told)
        }
    }
}

/// The report on all variants, over a kind of leaf.
fn report_on<L: Leaf>(
    alloc: Global,
    line: &ProductLine,
    options: &Options,
    regions: Regions,
    task: FamilyTask,
) -> Result<Done, NoMemory>
    requires { IsUsableLine line.now }
    ensures answer { IfOk result (λ done. IsFamilyDone L.meaning options.now regions task line.now done) }
    ensures promise { IfOk result (λ done. PromisedOfAll L.meaning options.now regions task line.now done.status done.text) }
    ensures status { IfOk result (λ done. done.status ≤ 1) }
{
    let findings = found_in::<L>(alloc, line, options, regions)?;
    let prepared = Prepared::new(alloc, &line.model)?;
    let found = alarms_in(alloc, line, &prepared, &findings)?;
    let alarms = found.items();
    let text = text_for(
        alloc, line, options, regions, task, &prepared, &findings, alarms,
    )?;
    Ok(Done {
        text,
        status: family_status(alarms),
    })
}

/// The report on all variants, over the kind of leaf that is asked for.
pub(crate) fn report_by(
    alloc: Global,
    line: &ProductLine,
    analysis: &Analysis,
    regions: Regions,
    task: FamilyTask,
) -> Result<Done, NoMemory>
    requires { IsUsableLine line.now }
    ensures answer { IfOk result (λ done. IsFamilyDone
        (meaning_of analysis.now.domain) (options_of analysis.now (whole line.now.family.code)) regions task line.now done) }
    ensures promise { IfOk result (λ done. PromisedOfAll
        (meaning_of analysis.now.domain) (options_of analysis.now (whole line.now.family.code)) regions task line.now done.status done.text) }
    ensures status { IfOk result (λ done. done.status ≤ 1) }
{
    let options = options_of(alloc, analysis, &line.family.code)?;
    over_domain!(
        analysis.domain,
        report_on(alloc, line, &options, regions, task)
    )
}

/// The work of `analyse`, `invariants` and `certify`.
pub fn family<F: Files>(
    alloc: Global,
    model: &Word,
    file: &Word,
    dialect: Dialect,
    analysis: &Analysis,
    regions: Regions,
    task: FamilyTask,
    files: &mut F,
) -> Result<Done, Failure>
    ensures given { AreGiven F.loads (F.content files.old) files.old files.new
        (model_source model.now ∷ file_source file.now ∷ []) of_line (IsOk result)
        (λ told. IsRight (AnswersFamily dialect analysis.now regions task told) (PromisedFamily dialect analysis.now regions task told)
        (IsLoadedFor dialect.unknown model.now file.now told.model) (F.failed files.new) result) }
    ensures status { IfOk result (λ done. done.status ≤ 1) }
    ensures kept { F.content files.new ≡ F.content files.old }
    ensures read { IsReadOf (model.now ∷ file.now ∷ []) (F.faults files.old) (F.faults files.new)
        (F.failed files.new) result }
{
    let line = load_product_line(alloc, dialect, model.as_str(), file.as_str(), files)?;
    Ok(report_by(alloc, &line, analysis, regions, task)?)
}

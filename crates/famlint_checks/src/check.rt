//! `check`: whether a certificate holds of a family, without the analysis.
#![tactic(auto)]

ghost use Rattle.std.specs.Prelude.{◌≡◌, ◌≤◌, ℕ, List, [], ◌∷◌, IfOk, IsOk};
ghost use Rattle.fam_outer.specs.Loading.{AreGiven};
ghost use Rattle.famlint_checks.specs.Checked.{AnswersCheck, PromisedCheck};
ghost use Rattle.famlint_loads.specs.Contents.{of_check};
ghost use Rattle.famlint_loads.specs.CertificateLoads.{ReadsCertificate, IsUsableCertificate, IsLoadedForCheck};
ghost use Rattle.famlint_checks.specs.Checked.{IsCheckDone, IsCheckPromised, IsVerdictFor, no_text, verdict_text, verdict_status as status_of};
ghost use Rattle.famlint_loads.specs.Loads.{IsReadOf, IsRight, model_source, file_source, certificate_source};
ghost use Rattle.famlint_loads.specs.ProductLines.{IsUsableLine};
ghost use Rattle.c_tree.specs.View.{whole};
ghost use Rattle.interval_leaf.specs.Intervals.{intervals};
ghost use Rattle.invariant_certificate.specs.Verdicts.{IsVerdict};

use alarm_report::kind_text;
use alarm_report::texts::push_place;
use c_parser::variants::variants_are_projections;
use certificate_format::Certificate;
use command_words::Word;
use fam_outer::{Dialect, Files, NoMemory, Place, Text};
use famlint_loads::{Done, Failure, ProductLine, load_certificate, load_product_line};
use interval_leaf::IntervalLeaf;
use invariant_certificate::{Verdict, check as check_all};
use linear_atoms::{Config, Feature, config_text};
use std::alloc::Global;

/// The line of a place at which a certificate does not hold: what is wrong there, and the configuration.
fn no_line(
    alloc: Global,
    features: &[Feature],
    place: Place,
    what: &str,
    config: &Config,
) -> Result<Text, NoMemory>
    ensures { IfOk result (λ text. text ≡ no_text features.now place what.now config.now.values) }
{
    let mut text = Vec::from_slice(alloc, b"certificate: no: ")?;
    push_place(alloc, &mut text, place)?;
    text.push(b' ')?;
    text.extend_from_slice(what.as_bytes())?;
    text.extend_from_slice(b"; example ")?;
    let example = config_text(alloc, features, config.values.items())?;
    text.extend_from_slice(example.bytes())?;
    text.push(b'\n')?;
    Ok(Text::from_vec(text))
}

/// The line of a verdict on a certificate with so many alarm lines.
fn verdict_line(
    alloc: Global,
    features: &[Feature],
    alarms: usize,
    verdict: &Verdict,
) -> Result<Text, NoMemory>
    ensures { IfOk result (λ text. text ≡ verdict_text features.now alarms verdict.now) }
{
    match verdict {
        Verdict::Yes => {
            let text = format!(in alloc; "certificate: yes, {alarms} alarms\n")?;
            Ok(Text::from_vec(text.into_bytes()))
        }
        Verdict::NotInductive(place, config) => no_line(alloc, features, *place, "loop", config),
        Verdict::Unlisted(place, kind, config) => {
            no_line(alloc, features, *place, kind_text(*kind), config)
        }
    }
}

/// 0 where it is yes.
fn verdict_status(verdict: &Verdict) -> u8
    ensures value { result ≡ status_of verdict.now }
    ensures low { result ≤ 1 }
{
    match verdict {
        Verdict::Yes => 0,
        Verdict::NotInductive(_, _) | Verdict::Unlisted(_, _, _) => 1,
    }
}

/// The verdict on a certificate, by intervals.
fn verdict_on(
    alloc: Global,
    line: &ProductLine,
    certificate: &Certificate,
) -> Result<Verdict, NoMemory>
    requires line { IsUsableLine line.now }
    requires certificate { IsUsableCertificate line.now certificate.now }
    ensures verdict { IfOk result (λ verdict. IsVerdict intervals line.now.model (whole line.now.family.code)
        line.now.family.conditions line.now.family.atoms certificate.now verdict) }
    ensures promised { IfOk result (λ verdict. IsVerdictFor line.now certificate.now verdict) }
{
    variants_are_projections();
    let family = &line.family;
    let conditions = family.conditions.items();
    let atoms = family.atoms.items();
    let verdict = check_all::<IntervalLeaf>(
        alloc,
        &line.model,
        &family.code,
        conditions,
        atoms,
        certificate,
    )?;
    Ok(verdict)
}

/// What the check of a certificate comes to.
fn check_done(
    alloc: Global,
    line: &ProductLine,
    certificate: &Certificate,
) -> Result<Done, NoMemory>
    requires line { IsUsableLine line.now }
    requires certificate { IsUsableCertificate line.now certificate.now }
    ensures answer { IfOk result (λ done. (bytes : List ℕ) → ReadsCertificate line.now bytes (Ok certificate.now)
        → IsCheckDone line.now bytes done) }
    ensures promise { IfOk result (λ done. (bytes : List ℕ) → ReadsCertificate line.now bytes (Ok certificate.now)
        → IsCheckPromised line.now bytes done.status done.text) }
    ensures status { IfOk result (λ done. done.status ≤ 1) }
{
    let verdict = verdict_on(alloc, line, certificate)?;
    let alarms = certificate.alarms.as_slice().len();
    Ok(Done {
        text: verdict_line(alloc, line.model.features.items(), alarms, &verdict)?,
        status: verdict_status(&verdict),
    })
}

/// The work of `check`.
pub fn check<F: Files>(
    alloc: Global,
    model: &Word,
    file: &Word,
    certificate: &Word,
    dialect: Dialect,
    files: &mut F,
) -> Result<Done, Failure>
    ensures given { AreGiven F.loads (F.content files.old) files.old files.new
        (model_source model.now ∷ file_source file.now ∷ certificate_source certificate.now ∷ []) of_check (IsOk result)
        (λ told. IsRight (AnswersCheck dialect told) (PromisedCheck dialect told)
        (IsLoadedForCheck dialect model.now file.now certificate.now told.model told.file) (F.failed files.new) result) }
    ensures status { IfOk result (λ done. done.status ≤ 1) }
    ensures kept { F.content files.new ≡ F.content files.old }
    ensures read { IsReadOf (model.now ∷ file.now ∷ certificate.now ∷ [])
        (F.faults files.old) (F.faults files.new) (F.failed files.new) result }
{
    let line = load_product_line(alloc, dialect, model.as_str(), file.as_str(), files)?;
    let certificate = load_certificate(alloc, &line, certificate.as_str(), files)?;
    Ok(check_done(alloc, &line, &certificate)?)
}

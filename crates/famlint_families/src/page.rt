//! `page`: the report on all variants beside MODEL and FILE, as one page.
#![tactic(auto)]

ghost use Rattle.std.specs.Prelude.{◌≡◌, ◌≤◌, [], ◌∷◌, IfOk, IsOk};
ghost use Rattle.fam_outer.specs.Loading.{AreGiven};
ghost use Rattle.c_tree.specs.View.{whole};
ghost use Rattle.alarm_page.specs.Pages.{page_of, told_by, texts_told};
ghost use Rattle.famlint_families.specs.FamilyAnswers.{AnswersPage, PromisedPage};
ghost use Rattle.famlint_families.specs.Pages.{IsPageReport, IsPageDone, TellsOfAll, texts_with};
ghost use Rattle.famlint_loads.specs.Contents.{of_line};
ghost use Rattle.famlint_loads.specs.Loads.{IsReadOf, IsRight, model_source, file_source};
ghost use Rattle.famlint_loads.specs.ProductLines.{IsLoadedFor, IsUsableLine};
ghost use Rattle.famlint_programs.specs.AnalysisOptions.{options_of};
ghost use Rattle.famlint_programs.specs.ProgramAnswers.{meaning_of};
ghost use Rattle.famlint_requests.specs.MadeBy.{made_by};

use crate::family::{alarms_in, family_status, found_in, invariants_before};
use alarm_page::page::{Told, page_text};
use alarm_report::alarm_text;
use atom_solver::Prepared;
use command_words::Word;
use fam_outer::{Dialect, Files, NoMemory, Text};
use famlint_loads::{Done, Failure, ProductLine, ProductLineFiles, load_product_line_files};
use famlint_programs::options::options_of;
use famlint_programs::over_domain;
use famlint_requests::{Analysis, made_by};
use leaf_domain::Leaf;
use linear_atoms::Regions;
use plain_analysis::Options;
use std::alloc::Global;

/// The report of `invariants`, and its alarms apart.
#[derive(Drop)]
pub(crate) struct PageReport {
    pub alarms: Text,
    pub whole: Text,
    pub status: u8,
}

/// The report on all variants, over a kind of leaf.
fn report_on<L: Leaf>(
    alloc: Global,
    line: &ProductLine,
    options: &Options,
    regions: Regions,
) -> Result<PageReport, NoMemory>
    requires { IsUsableLine line.now }
    ensures { IfOk result (λ report. IsPageReport L.meaning options.now regions line.now report) }
{
    let findings = found_in::<L>(alloc, line, options, regions)?;
    let prepared = Prepared::new(alloc, &line.model)?;
    let found = alarms_in(alloc, line, &prepared, &findings)?;
    let alarms = found.items();
    let features = line.model.features.items();
    let told = alarm_text(alloc, regions, features, alarms)?;
    let whole = invariants_before(alloc, line, regions, &prepared, &findings, &told)?;
    Ok(PageReport {
        alarms: told,
        whole,
        status: family_status(alarms),
    })
}

/// The report on all variants, over the kind of leaf that is asked for.
fn report_by(
    alloc: Global,
    line: &ProductLine,
    analysis: &Analysis,
    regions: Regions,
) -> Result<PageReport, NoMemory>
    requires { IsUsableLine line.now }
    ensures { IfOk result (λ report. IsPageReport
        (meaning_of analysis.now.domain) (options_of analysis.now (whole line.now.family.code)) regions line.now report) }
{
    let options = options_of(alloc, analysis, &line.family.code)?;
    over_domain!(analysis.domain, report_on(alloc, line, &options, regions))
}

/// The text of the page with a report.
fn text_with(
    alloc: Global,
    report: &PageReport,
    files: &ProductLineFiles,
    made: &Text,
) -> Result<Text, NoMemory>
    ensures page { IfOk result (λ page. page ≡ page_of (texts_with report.now files.now.model_text files.now.line.text made.now)) }
    ensures told { IfOk result (λ page. told_by page ≡ texts_told (texts_with report.now files.now.model_text files.now.line.text made.now)) }
{
    let told = Told {
        alarms: report.alarms.bytes(),
        report: report.whole.bytes(),
        model: files.model_text.bytes(),
        file: files.line.text.bytes(),
        made_by: made.bytes(),
    };
    page_text(alloc, &told)
}

/// The page of a product line with the bytes of its files.
fn page_for(
    alloc: Global,
    files: &ProductLineFiles,
    analysis: &Analysis,
    regions: Regions,
) -> Result<Done, NoMemory>
    requires { IsUsableLine files.now.line }
    ensures answer { IfOk result (λ done. IsPageDone
        (meaning_of analysis.now.domain) (options_of analysis.now (whole files.now.line.family.code)) regions files.now.line
        files.now.model_text (made_by files.now.line.dialect analysis.now regions) done) }
    ensures promise { IfOk result (λ done. TellsOfAll
        (meaning_of analysis.now.domain) (options_of analysis.now (whole files.now.line.family.code)) regions files.now.line
        files.now.model_text (made_by files.now.line.dialect analysis.now regions) done.status done.text) }
    ensures status { IfOk result (λ done. done.status ≤ 1) }
{
    let report = report_by(alloc, &files.line, analysis, regions)?;
    let made = made_by(alloc, files.line.dialect, analysis, regions)?;
    let text = text_with(alloc, &report, files, &made)?;
    Ok(Done {
        text,
        status: report.status,
    })
}

/// The work of `page`. The status is that of `analyse`.
pub fn page<F: Files>(
    alloc: Global,
    model: &Word,
    file: &Word,
    dialect: Dialect,
    analysis: &Analysis,
    regions: Regions,
    files: &mut F,
) -> Result<Done, Failure>
    ensures given { AreGiven F.loads (F.content files.old) files.old files.new
        (model_source model.now ∷ file_source file.now ∷ []) of_line (IsOk result)
        (λ told. IsRight (AnswersPage dialect analysis.now regions told) (PromisedPage dialect analysis.now regions told)
        (IsLoadedFor dialect.unknown model.now file.now told.model) (F.failed files.new) result) }
    ensures status { IfOk result (λ done. done.status ≤ 1) }
    ensures kept { F.content files.new ≡ F.content files.old }
    ensures read { IsReadOf (model.now ∷ file.now ∷ []) (F.faults files.old) (F.faults files.new)
        (F.failed files.new) result }
{
    let line = load_product_line_files(alloc, dialect, model.as_str(), file.as_str(), files)?;
    Ok(page_for(alloc, &line, analysis, regions)?)
}

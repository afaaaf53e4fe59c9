//! The report on one program.
#![tactic(auto)]

ghost use Rattle.std.specs.Prelude.{◌≡◌, ◌≤◌, IfOk};
ghost use Rattle.c_tree.specs.View.{whole};
ghost use Rattle.c_tree.specs.Whole.{IsProgram, IsPlainProgram};
ghost use Rattle.famlint_programs.specs.AnalysisOptions.{options_of};
ghost use Rattle.famlint_programs.specs.ProgramAnswers.{meaning_of, program_done};
ghost use Rattle.famlint_programs.specs.Report.{report_status as status_of, report_done, IsReport};

use crate::options::options_of;
use crate::over_domain;
use alarm_report::{reports_tell_their_alarms, variant_report};
use c_tree::Program;
use fam_outer::NoMemory;
use famlint_loads::Done;
use famlint_requests::Analysis;
use leaf_domain::Leaf;
use plain_analysis::{Alarm, Options, analyse_one};
use std::alloc::Global;

/// The status of a report: 1 where there is an alarm.
fn report_status(alarms: &[Alarm]) -> u8
    ensures { result ≡ status_of alarms.now }
{
    if alarms.is_empty() { 0 } else { 1 }
}

/// The report on a program, over a kind of leaf.
fn report_on<L: Leaf>(alloc: Global, program: &Program, options: &Options) -> Result<Done, NoMemory>
    requires program { IsProgram (whole program.now) }
    requires plain { IsPlainProgram (whole program.now) }
    ensures answer { IfOk result (λ done. done ≡ report_done L.meaning options.now (whole program.now)) }
    ensures report { IfOk result (λ done. IsReport L.meaning options.now
        (whole program.now) done.status done.text) }
    ensures status { IfOk result (λ done. done.status ≤ 1) }
{
    reports_tell_their_alarms();
    let start = L::start(alloc, program.start.items())?;
    let findings = analyse_one(alloc, program, &start, options)?;
    let alarms = findings.alarms.items();
    Ok(Done {
        text: variant_report(alloc, alarms)?,
        status: report_status(alarms),
    })
}

/// The report on a program of a file, over the kind of leaf that is asked for.
pub fn report_by(
    alloc: Global,
    program: &Program,
    analysis: &Analysis,
    file: &Program,
) -> Result<Done, NoMemory>
    requires program { IsProgram (whole program.now) }
    requires plain { IsPlainProgram (whole program.now) }
    ensures answer { IfOk result (λ done. done ≡ program_done analysis.now (whole file.now) (whole program.now)) }
    ensures report { IfOk result (λ done. IsReport (meaning_of analysis.now.domain)
        (options_of analysis.now (whole file.now)) (whole program.now) done.status done.text) }
    ensures status { IfOk result (λ done. done.status ≤ 1) }
{
    let options = options_of(alloc, analysis, file)?;
    over_domain!(analysis.domain, report_on(alloc, program, &options))
}

//! How the programs of a file are analysed.
#![tactic(auto)]

ghost use Rattle.std.specs.Prelude.{◌≡◌, IfOk};
ghost use Rattle.c_tree.specs.View.{whole};
ghost use Rattle.famlint_programs.specs.AnalysisOptions.{thresholds_by, options_of};

use c_tree::Program;
use command_words::Widening;
use fam_outer::NoMemory;
use famlint_requests::Analysis;
use leaf_domain::Thresholds;
use loop_thresholds::thresholds_of;
use plain_analysis::Options;
use std::alloc::Global;

/// The thresholds of the whole file, with all its groups, where widening is to step to thresholds.
fn thresholds_by(alloc: Global, widening: Widening, file: &Program) -> Result<Thresholds, NoMemory>
    ensures { IfOk result (λ made. made ≡ thresholds_by widening (whole file.now)) }
{
    match widening {
        Widening::Type => Ok(Thresholds::none(alloc)),
        Widening::Thresholds => thresholds_of(alloc, file),
    }
}

/// How the programs of a file are analysed: all of them to one list of thresholds, which is that of the whole file.
pub fn options_of(alloc: Global, analysis: &Analysis, file: &Program) -> Result<Options, NoMemory>
    ensures { IfOk result (λ made. made ≡ options_of analysis.now (whole file.now)) }
{
    Ok(Options {
        delay: analysis.delay,
        narrow: analysis.narrow,
        thresholds: thresholds_by(alloc, analysis.widening, file)?,
        mode: analysis.mode,
    })
}

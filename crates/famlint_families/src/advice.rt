//! `advise`: the nearest configuration without alarms.
#![tactic(auto)]

ghost use Rattle.std.specs.Prelude.{◌≡◌, ◌≤◌, ◌<◌, ℕ, [], ◌∷◌, Bool, Some, IfOk, IsOk, map};
ghost use Rattle.fam_outer.specs.Loading.{AreGiven};
ghost use Rattle.c_tree.specs.View.{whole};
ghost use Rattle.std.specs.List.{All};
ghost use Rattle.cpp_conditions.specs.Validity.{IsConfig};
ghost use Rattle.decision_tree.specs.Listed.{IsNumberedTree};
ghost use Rattle.decision_tree.specs.Plain.{TestsBelow};
ghost use Rattle.decision_tree.specs.View as tree;
ghost use Rattle.lifted_analysis.specs.declared.findings.AlarmTree.{AlarmTree};
ghost use Rattle.alarm_report.specs.Alarms.{plain_alarm_tree};
ghost use Rattle.configuration_advice.specs.declared.comparing.Advice.{Advice};
ghost use Rattle.famlint_families.specs.Advised.{IsNearestWithoutAlarms, IsGood, IsAdviseDone, TellsGoodAdvice, advice_status as status_of, trees_of};
ghost use Rattle.famlint_families.specs.FamilyAnswers.{AnswersAdvice, PromisedAdvice};
ghost use Rattle.famlint_loads.specs.Contents.{of_line};
ghost use Rattle.famlint_programs.specs.AnalysisOptions.{options_of};
ghost use Rattle.famlint_programs.specs.ProgramAnswers.{meaning_of};
ghost use Rattle.famlint_loads.specs.Loads.{IsReadOf, IsRight, model_source, file_source};
ghost use Rattle.famlint_loads.specs.ProductLines.{IsLoadedFor, IsUsableLine};

use crate::family::found_in;
use c_parser::variants::variants_are_projections;
use command_words::Word;
use configuration_advice::{Advice, advice_text, nearest};
use decision_tree::Tree;
use fam_outer::{Dialect, Files, NoMemory};
use famlint_loads::{Done, Failure, ProductLine, Selected, select};
use famlint_programs::options::options_of;
use famlint_programs::over_domain;
use famlint_requests::{Analysis, SettingWords};
use leaf_domain::Leaf;
use lifted_analysis::AlarmTree;
use linear_atoms::{Config, Regions};
use plain_analysis::Options;
use std::alloc::Global;

/// The trees of stops alone, each with one more owner.
fn trees_of(alloc: Global, alarms: &[AlarmTree]) -> Result<Vec<Tree<bool>>, NoMemory>
    ensures trees { IfOk result (λ made. map tree.plain made.items ≡ trees_of (map plain_alarm_tree alarms.now)) }
    ensures tests { IfOk result (λ made. (count : ℕ)
        → All (λ (t : AlarmTree). TestsBelow count (tree.plain t.tree)) alarms.now
        → All (λ (t : Tree Bool). TestsBelow count (tree.plain t)) made.items) }
    ensures numbered { IfOk result (λ made. All (λ (t : AlarmTree). IsNumberedTree 0 320 (tree.numbered t.tree)) alarms.now
        → All (λ (t : Tree Bool). IsNumberedTree 0 320 (tree.numbered t)) made.items) }
{
    let mut trees = Vec::new(alloc);
    for alarm in alarms {
        trees.push(alarm.tree.share()?)?;
    }
    Ok(trees)
}

/// The nearest configuration to the given one at which the analysis finds no alarm.
fn advice_in<L: Leaf>(
    alloc: Global,
    line: &ProductLine,
    given: &Config,
    options: &Options,
) -> Result<Option<Advice>, NoMemory>
    requires line { IsUsableLine line.now }
    requires given { IsConfig line.now.model.features given.now.values }
    ensures answer { IfOk result (λ found. IsNearestWithoutAlarms L.meaning options.now line.now given.now.values found) }
    ensures good { IfOk result (λ found. IsGood L.meaning options.now line.now given.now.values found) }
{
    variants_are_projections();
    let findings = found_in::<L>(alloc, line, options, Regions::Paths)?;
    let trees = trees_of(alloc, &findings.alarms)?;
    let atoms = line.family.atoms.items();
    let found = nearest(alloc, &line.model, atoms, &trees, given)?;
    Ok(found)
}

/// 1 where there is no advice.
fn advice_status(advice: &Option<Advice>) -> u8
    ensures { result ≡ status_of advice.now }
{
    match advice {
        None => 1,
        Some(_advice) => 0,
    }
}

/// The advice, over the kind of leaf that is asked for.
fn advice_by(
    alloc: Global,
    line: &ProductLine,
    given: &Config,
    analysis: &Analysis,
) -> Result<Option<Advice>, NoMemory>
    requires line { IsUsableLine line.now }
    requires given { IsConfig line.now.model.features given.now.values }
    ensures answer { IfOk result (λ found. IsNearestWithoutAlarms
        (meaning_of analysis.now.domain) (options_of analysis.now (whole line.now.family.code)) line.now given.now.values found) }
    ensures good { IfOk result (λ found. IsGood
        (meaning_of analysis.now.domain) (options_of analysis.now (whole line.now.family.code)) line.now given.now.values found) }
{
    let options = options_of(alloc, analysis, &line.family.code)?;
    over_domain!(analysis.domain, advice_in(alloc, line, given, &options))
}

/// The line of the advice, with its status.
fn advice_done(alloc: Global, selected: &Selected, analysis: &Analysis) -> Result<Done, NoMemory>
    requires line { IsUsableLine selected.now.line }
    requires config { IsConfig selected.now.line.model.features selected.now.config.values }
    ensures answer { IfOk result (λ done. IsAdviseDone
        (meaning_of analysis.now.domain) (options_of analysis.now (whole selected.now.line.family.code)) selected.now.line selected.now.config.values done) }
    ensures promise { IfOk result (λ done. TellsGoodAdvice
        (meaning_of analysis.now.domain) (options_of analysis.now (whole selected.now.line.family.code)) selected.now.line selected.now.config.values done.status done.text) }
    ensures status { IfOk result (λ done. done.status ≤ 1) }
{
    let Selected { line, config } = selected;
    let found = advice_by(alloc, line, config, analysis)?;
    Ok(Done {
        text: advice_text(alloc, line.model.features.items(), &found)?,
        status: advice_status(&found),
    })
}

/// The work of `advise`.
pub fn advice<F: Files>(
    alloc: Global,
    model: &Word,
    file: &Word,
    dialect: Dialect,
    settings: &SettingWords,
    analysis: &Analysis,
    files: &mut F,
) -> Result<Done, Failure>
    ensures given { AreGiven F.loads (F.content files.old) files.old files.new
        (model_source model.now ∷ file_source file.now ∷ []) of_line (IsOk result)
        (λ told. IsRight (AnswersAdvice dialect analysis.now settings.now told) (PromisedAdvice dialect analysis.now settings.now told)
        (IsLoadedFor dialect.unknown model.now file.now told.model) (F.failed files.new) result) }
    ensures status { IfOk result (λ done. done.status ≤ 1) }
    ensures kept { F.content files.new ≡ F.content files.old }
    ensures read { IsReadOf (model.now ∷ file.now ∷ []) (F.faults files.old) (F.faults files.new)
        (F.failed files.new) result }
{
    let selected = select(
        alloc,
        dialect,
        model.as_str(),
        file.as_str(),
        settings.items(),
        files,
    )?;
    Ok(advice_done(alloc, &selected, analysis)?)
}

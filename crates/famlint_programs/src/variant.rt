//! What is asked of a variant: `project`, `variant` and `run`.
#![tactic(auto)]

ghost use Rattle.std.specs.Prelude.{◌≡◌, ◌≤◌, [], ◌∷◌, ◌++◌, IfOk, IsOk};
ghost use Rattle.fam_outer.specs.Loading.{AreGiven};
ghost use Rattle.std.specs.List.{All};
ghost use Rattle.c_tree.specs.Value.{IsInt};
ghost use Rattle.c_tree.specs.View.{whole};
ghost use Rattle.c_tree.specs.Whole.{IsProgram, IsPlainProgram};
ghost use Rattle.cpp_conditions.specs.Validity.{plain, IsValid, IsConfig};
ghost use Rattle.famlint_programs.specs.ProgramAnswers.{AnswersVariant, PromisedVariant, PromisedOf, IsDone, run_done};
ghost use Rattle.famlint_loads.specs.Contents.{of_line};
ghost use Rattle.famlint_loads.specs.Loads.{IsReadOf, IsRight, model_source, file_source};
ghost use Rattle.famlint_requests.specs.Requests.{HaveInts};
ghost use Rattle.famlint_programs.specs.RunText.{run_text, front_text, store_text};
ghost use Rattle.famlint_requests.specs.declared.request.VariantTask.TheVariants as tasks;
ghost use Rattle.famlint_loads.specs.ProductLines.{IsLoadedFor, IsUsableLine};
ghost use Rattle.famlint_loads.specs.Selected.{IsProgramOf};
ghost use Rattle.run_meaning.specs.View.{end_of};

use crate::report::report_by;
use alarm_report::kind_text;
use c_parser::variants::variants_are_projections;
use c_tree::{Mode, Program, project};
use command_words::Word;
use fam_outer::{Dialect, FileRefusal, Files, NoMemory, Place, Text, Values};
use famlint_loads::{Done, Failure, Selected, select};
use famlint_requests::{SettingWords, VariantTask};
use linear_atoms::push_settings;
use run_meaning::{RunEnd, run};
use std::alloc::Global;
use variant_projector::{truths_of, variant_text, vector_of};

/// The program of the variant: that of the family, projected by the truths of its conditions, which is what the variant's text
/// is read as.
fn program_of(alloc: Global, selected: &Selected) -> Result<Program, NoMemory>
    requires line { IsUsableLine selected.now.line }
    requires valid { IsValid (plain selected.now.line.model) selected.now.config.values }
    requires config { IsConfig selected.now.line.model.features selected.now.config.values }
    ensures is { IfOk result (λ p. IsProgramOf selected.now (whole p)) }
    ensures program { IfOk result (λ p. IsProgram (whole p)) }
    ensures plain { IfOk result (λ p. IsPlainProgram (whole p)) }
{
    variants_are_projections();
    let family = &selected.line.family;
    let vector = vector_of(alloc, family.atoms.items(), &selected.config)?;
    let truths = truths_of(alloc, family.conditions.items(), &vector)?;
    project(alloc, &family.code, &truths)
}

/// The front of a run's text: how it stands and where.
fn front(alloc: Global, word: &str, place: Place) -> Result<Vec<u8>, NoMemory>
    ensures { IfOk result (λ text. text.items ≡ front_text word.now place) }
{
    let Place { line, column } = place;
    let text = format!(in alloc; "{word} {line}:{column}")?;
    Ok(text.into_bytes())
}

/// Ends a run's text with the value of each variable.
fn with_store(
    alloc: Global,
    mut text: Vec<u8>,
    names: &[Text],
    store: &Values,
) -> Result<Text, NoMemory>
    ensures { IfOk result (λ made. made ≡ text.items ++ store_text names.now store.now) }
{
    push_settings(alloc, &mut text, names, store.items())?;
    text.push(b'\n')?;
    Ok(Text::from_vec(text))
}

/// How a run stands, as a text.
fn run_text(alloc: Global, names: &[Text], end: &RunEnd) -> Result<Text, NoMemory>
    ensures { IfOk result (λ text. text ≡ run_text names.now (end_of end.now)) }
{
    match end {
        RunEnd::At(place, store) => with_store(alloc, front(alloc, "at", *place)?, names, store),
        RunEnd::Stopped(place, kind) => {
            let mut text = front(alloc, "stopped", *place)?;
            text.push(b' ')?;
            text.extend_from_slice(kind_text(*kind).as_bytes())?;
            text.push(b'\n')?;
            Ok(Text::from_vec(text))
        }
        RunEnd::Waiting(place, store) => {
            with_store(alloc, front(alloc, "waiting", *place)?, names, store)
        }
        RunEnd::Ended(store) => with_store(alloc, Vec::from_slice(alloc, b"ended")?, names, store),
    }
}

/// How a run of a program stands after at most so many steps.
fn run_for(
    alloc: Global,
    program: &Program,
    inputs: &[i64],
    steps: u64,
    mode: Mode,
) -> Result<Done, NoMemory>
    requires program { IsProgram (whole program.now) }
    requires plain { IsPlainProgram (whole program.now) }
    requires ints { All IsInt inputs.now }
    ensures { IfOk result (λ done. done ≡ run_done inputs.now steps mode (whole program.now)) }
{
    let end = run(alloc, program, inputs, steps, mode)?;
    Ok(Done {
        text: run_text(alloc, program.names.items(), &end)?,
        status: 0,
    })
}

/// The text of the variant.
fn text_of(alloc: Global, selected: &Selected) -> Result<Done, NoMemory>
    requires line { IsUsableLine selected.now.line }
    requires config { IsConfig selected.now.line.model.features selected.now.config.values }
    ensures { IfOk result (λ done. IsDone tasks.Project selected.now done) }
{
    variants_are_projections();
    let Selected { line, config } = selected;
    match variant_text(alloc, line.dialect, line.text.bytes(), &line.model, config) {
        Ok(text) => Ok(Done { text, status: 0 }),
        Err(FileRefusal::NoMemory) => Err(NoMemory),
        Err(FileRefusal::Fault { code: _, place: _ }) => unreachable!(),
    }
}

/// What is asked of the variant.
fn done_for(alloc: Global, selected: &Selected, task: &VariantTask) -> Result<Done, NoMemory>
    requires line { IsUsableLine selected.now.line }
    requires valid { IsValid (plain selected.now.line.model) selected.now.config.values }
    requires config { IsConfig selected.now.line.model.features selected.now.config.values }
    requires ints { HaveInts task.now }
    ensures answer { IfOk result (λ done. IsDone task.now selected.now done) }
    ensures promise { IfOk result (λ done. PromisedOf task.now selected.now done.status done.text) }
    ensures status { IfOk result (λ done. done.status ≤ 1) }
{
    match task {
        VariantTask::Project => text_of(alloc, selected),
        VariantTask::Variant(analysis) => {
            let program = program_of(alloc, selected)?;
            report_by(alloc, &program, analysis, &selected.line.family.code)
        }
        VariantTask::Run {
            steps,
            inputs,
            mode,
        } => {
            let program = program_of(alloc, selected)?;
            run_for(alloc, &program, inputs.items(), *steps, *mode)
        }
    }
}

/// The work of `project`, `variant` and `run`.
pub fn variant<F: Files>(
    alloc: Global,
    model: &Word,
    file: &Word,
    dialect: Dialect,
    settings: &SettingWords,
    task: &VariantTask,
    files: &mut F,
) -> Result<Done, Failure>
    requires { HaveInts task.now }
    ensures given { AreGiven F.loads (F.content files.old) files.old files.new
        (model_source model.now ∷ file_source file.now ∷ []) of_line (IsOk result)
        (λ told. IsRight (AnswersVariant dialect task.now settings.now told) (PromisedVariant dialect task.now settings.now told)
        (IsLoadedFor dialect.unknown model.now file.now told.model) (F.failed files.new) result) }
    ensures status { IfOk result (λ done. done.status ≤ 1) }
    ensures kept { F.content files.new ≡ F.content files.old }
    ensures read { IsReadOf (model.now ∷ file.now ∷ []) (F.faults files.old) (F.faults files.new)
        (F.failed files.new) result }
{
    let selected = select(
        alloc,
        dialect,
        model.as_str(),
        file.as_str(),
        settings.items(),
        files,
    )?;
    Ok(done_for(alloc, &selected, task)?)
}

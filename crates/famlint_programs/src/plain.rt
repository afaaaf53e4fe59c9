//! `plain FILE`: the report on the program of a file.
#![tactic(auto)]

ghost use Rattle.std.specs.Prelude.{◌≡◌, ◌≤◌, [], ◌∷◌, Some, Ok, IfOk, IsOk};
ghost use Rattle.fam_outer.specs.Loading.{AreGiven, only};
ghost use Rattle.famlint_programs.specs.ProgramAnswers.{AnswersPlain, PromisedPlain};
ghost use Rattle.famlint_loads.specs.Loads.{Comes, IsReadFault, IsReadOf, IsRight, file_source};

use crate::report::report_by;
use c_parser::read_plain;
use command_words::Word;
use fam_outer::{FileRefusal, Files, Includes};
use famlint_loads::{Done, Failure, Fault, load_file};
use famlint_requests::Analysis;
use std::alloc::Global;

/// The report on the program that the bytes spell.
fn report_on_bytes(
    alloc: Global,
    includes: Includes,
    bytes: &[u8],
    analysis: &Analysis,
) -> Result<Done, Failure>
    ensures answer { Comes (AnswersPlain includes analysis.now bytes.now) result }
    ensures promise { IfOk result (λ done. PromisedPlain includes analysis.now bytes.now done.status done.text) }
    ensures status { IfOk result (λ done. done.status ≤ 1) }
    ensures read { IsReadFault result → ⊥ }
{
    match read_plain(alloc, includes, bytes) {
        Err(FileRefusal::NoMemory) => Err(Failure::NoMemory),
        Err(FileRefusal::Fault { code, place }) => Err(Failure::Refused(Fault::File {
            code,
            place,
            example: None,
        })),
        Ok(program) => Ok(report_by(alloc, &program, analysis, &program)?),
    }
}

/// The work of `plain FILE`.
pub fn plain<F: Files>(
    alloc: Global,
    file: &Word,
    includes: Includes,
    analysis: &Analysis,
    files: &mut F,
) -> Result<Done, Failure>
    ensures given { AreGiven F.loads (F.content files.old) files.old files.new (file_source file.now ∷ [])
        only (IsOk result) (λ bytes. IsRight (AnswersPlain includes analysis.now bytes) (PromisedPlain includes analysis.now bytes)
        (λ failed. failed ≡ Some file.now) (F.failed files.new) result) }
    ensures status { IfOk result (λ done. done.status ≤ 1) }
    ensures kept { F.content files.new ≡ F.content files.old }
    ensures read { IsReadOf (file.now ∷ []) (F.faults files.old) (F.faults files.new)
        (F.failed files.new) result }
{
    let text = load_file(alloc, file.as_str(), files)?;
    report_on_bytes(alloc, includes, text.bytes(), analysis)
}

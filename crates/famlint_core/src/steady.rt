//! The program where nothing outside fails.
#![tactic(auto)]

ghost use Rattle.std.specs.Prelude.{◌≡◌, ◌≢◌, [], Some, Result, unwrap_or};
ghost use Rattle.fam_outer.specs.Memory.{entry_of};
ghost use Rattle.command_words.specs.Arguments.{texts_of};
ghost use Rattle.famlint_loads.specs.declared.fault.Done.{Done};
ghost use Rattle.famlint_loads.specs.declared.fault.Fault.{Fault};
ghost use Rattle.famlint_requests.specs.declared.request.Request.{Request};
ghost use Rattle.famlint_loads.specs.Contents.{Contents};
ghost use Rattle.famlint_core.specs.Answers.{IsTold, Answers};
ghost use Rattle.famlint_core.specs.Endings.{status_at};
ghost use Rattle.famlint_requests.specs.Requests.{reading};

use crate::program::famlint;
use fam_outer::{SteadyFiles, SteadySink};
use std::alloc::Global;

/// The program over steady files and steady sinks. No load and no write fails there, so the words
/// and the files decide the status, but for want of memory.
pub fn famlint_over_steady(
    alloc: Global,
    words: &[String],
    files: &mut SteadyFiles,
    out: &mut SteadySink,
    err: &mut SteadySink,
) -> u8
    ensures exact { (request : Request) → reading (texts_of words.now) ≡ Some request
        → (told : Contents) → IsTold request (λ path. Some (unwrap_or (entry_of files.old.entries path) [])) told
        → result ≢ 8 → (answer : Result Done Fault) × Answers request told answer × (result ≡ status_at answer) }
    ensures read { result ≢ 6 }
    ensures write { result ≢ 7 }
{
    famlint(alloc, words, files, out, err)
}

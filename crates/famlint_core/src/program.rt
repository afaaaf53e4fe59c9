//! The top call.
#![tactic(auto)]

ghost use Rattle.std.specs.Prelude.{◌≡◌, ◌≢◌, ◌≤◌, ◌⊎◌, ℕ, List, Some, None};
ghost use Rattle.std.specs.Io.KnownBytes.{Appends};
ghost use Rattle.fam_outer.specs.Causes.{Rose};
ghost use Rattle.fam_outer.specs.Loading.{AreGiven};
ghost use Rattle.fam_outer.specs.Writing.{Reports};
ghost use Rattle.command_words.specs.Arguments.{texts_of};
ghost use Rattle.famlint_requests.specs.declared.request.Request.{Request};
ghost use Rattle.famlint_loads.specs.Contents.{Contents};
ghost use Rattle.famlint_core.specs.Answers.{IsTold, IsAccepted, IsLoaded, Answers, Promised, AsksOfCertified, sources_of, contents_of};
ghost use Rattle.famlint_core.specs.Endings.{EndsWith, HasLines, faults_at, streams};
ghost use Rattle.famlint_core.specs.Runs.{IsRun};
ghost use Rattle.famlint_core.specs.Endings.{usage_line, memory_line};
ghost use Rattle.famlint_loads.specs.Loads.{IsOneOf};
ghost use Rattle.famlint_requests.specs.Requests.{reading, paths_of, role_of};

use crate::ending::{end, give_up, refuse};
use crate::laws::certificates_are_accepted;
use crate::work::work;
use command_words::WordsRefusal;
use fam_outer::{Files, Sink};
use famlint_requests::read_request;
use std::alloc::Global;

/// Does all that the program does, and answers its status. `words` are those after the program's
/// name.
///
/// 0 and 1: done, and 1 exactly where the output has an alarm, where `advise` has no advice, and where `check` finds that the
/// certificate does not hold. 2: the words are refused. 3: the model's bytes are refused. 4: the file's are. 5: the settings are.
/// 6: a load failed. 7: a write to `out` failed. 8: want of memory. 9: the certificate's bytes are refused, with an E code. At 2 to 9
/// one line on `err` tells the fault.
pub fn famlint<F: Files, S: Sink, E: Sink>(
    alloc: Global,
    words: &[String],
    files: &mut F,
    out: &mut S,
    err: &mut E,
) -> u8
    // Where the words ask for something, the run made these loads alone: of the first paths of the request, in order, each once, and of
    // all of them at 0 and 1. Whatever the paths hold that agrees with what the loads answered, the run ended with an answer of it, what is
    // promised of the output holds of it, and a load that failed is of a path that is loaded for it.
    ensures given { (request : Request) → reading (texts_of words.now) ≡ Some request
        → AreGiven F.loads (F.content files.old) files.old files.new (sources_of request) (contents_of request) (result ≤ 1)
        (IsRun request (F.failed files.new) result
        (streams (S.written out.old) (E.written err.old) (S.faults out.old) (E.faults err.old))
        (streams (S.written out.new) (E.written err.new) (S.faults out.new) (E.faults err.new))) }
    // Where the contents of the paths are told, the run ended with an answer of theirs to the request: its status, its whole
    // output and its line. This, what is promised, and the order follow from `given`.
    ensures answer { (request : Request) → reading (texts_of words.now) ≡ Some request
        → (told : Contents) → IsTold request (F.content files.old) told
        → EndsWith (Answers request told) (role_of request (F.failed files.new)) result
        (streams (S.written out.old) (E.written err.old) (S.faults out.old) (E.faults err.old))
        (streams (S.written out.new) (E.written err.new) (S.faults out.new) (E.faults err.new)) }
    // What is promised of the output: each stop of each run of a reported program is printed, and at status 0 no run stops. Under
    // `analyse` and `invariants` this is so for the variant of each valid configuration, by the lines whose regions it meets, and under
    // `page` by those that the page tells.
    ensures promise { (request : Request) → reading (texts_of words.now) ≡ Some request
        → (told : Contents) → IsTold request (F.content files.old) told → result ≤ 1
        → (text : List ℕ) × Appends (S.written out.old) (S.written out.new) text × Promised request told result text }
    // What is accepted is answered, unless memory runs out, a load fails or a write fails.
    ensures complete { (request : Request) → reading (texts_of words.now) ≡ Some request
        → (told : Contents) → IsTold request (F.content files.old) told → IsAccepted request told
        → ¬ Rose (F.faults files.old) (F.faults files.new) → ¬ Rose (S.faults out.old) (S.faults out.new)
        → (result ≤ 1) ⊎ (result ≡ 8) }
    // What `certify` writes of a model and a file, if it is not too long, `check` of these says yes to, unless memory runs out, a load
    // fails or a write fails.
    ensures certified { (request : Request) → reading (texts_of words.now) ≡ Some request
        → (told : Contents) → IsTold request (F.content files.old) told → AsksOfCertified request told
        → ¬ Rose (F.faults files.old) (F.faults files.new) → ¬ Rose (S.faults out.old) (S.faults out.new)
        → (result ≡ 0) ⊎ (result ≡ 8) }
    // A refusal of what was loaded earlier comes before a failed load.
    ensures order { (request : Request) → reading (texts_of words.now) ≡ Some request
        → (told : Contents) → IsTold request (F.content files.old) told
        → result ≡ 6 → IsLoaded request told (F.failed files.new) }
    // The line of a failed load, a failed write and want of memory, whatever is told.
    ensures lines { (request : Request) → reading (texts_of words.now) ≡ Some request
        → HasLines (role_of request (F.failed files.new)) result
        (streams (S.written out.old) (E.written err.old) (S.faults out.old) (E.faults err.old))
        (streams (S.written out.new) (E.written err.new) (S.faults out.new) (E.faults err.new)) }
    ensures usage_told { result ≡ 2
        → Reports (E.written err.old) (E.written err.new) usage_line (E.faults err.old) (E.faults err.new) }
    ensures memory_told { result ≡ 8
        → Reports (E.written err.old) (E.written err.new) memory_line (E.faults err.old) (E.faults err.new) }
    ensures known { result ≤ 9 }
    ensures usage { result ≡ 2 → reading (texts_of words.now) ≡ None }
    ensures refused { reading (texts_of words.now) ≡ None → (result ≡ 2) ⊎ (result ≡ 8) }
    // One load failed at 6 and one write to `out` at 7, and none else.
    ensures loads_counted { F.faults files.new ≡ faults_at 6 result (F.faults files.old) }
    ensures writes_counted { S.faults out.new ≡ faults_at 7 result (S.faults out.old) }
    ensures path { (request : Request) → reading (texts_of words.now) ≡ Some request
        → result ≡ 6 → IsOneOf (F.failed files.new) (paths_of request) }
    ensures quiet { 2 ≤ result → result ≢ 7 → S.written out.new ≡ S.written out.old }
    ensures silent { result ≤ 1 → E.written err.new ≡ E.written err.old }
    // Contents stay, and no count falls, so that calls can be chained.
    ensures kept { F.content files.new ≡ F.content files.old }
    ensures files_later { F.faults files.old ≤ F.faults files.new }
    ensures out_later { S.faults out.old ≤ S.faults out.new }
    ensures err_later { E.faults err.old ≤ E.faults err.new }
{
    certificates_are_accepted();
    match read_request(alloc, words) {
        Err(WordsRefusal::NoMemory) => give_up(err),
        Err(WordsRefusal::Fault(_)) => refuse(err),
        Ok(request) => {
            let came = work(alloc, &request, files);
            let failed = request.role(files.failed());
            end(alloc, &came, failed, out, err)
        }
    }
}

//! What is done for a request: its loads, and then its work.
#![tactic(auto)]

ghost use Rattle.std.specs.Prelude.{◌≡◌, ◌≤◌, IfOk, IsOk};
ghost use Rattle.fam_outer.specs.Loading.{AreGiven};
ghost use Rattle.famlint_core.specs.Answers.{Answers, Promised, IsLoaded, sources_of, contents_of};
ghost use Rattle.famlint_loads.specs.Loads.{IsReadOf, IsRight};
ghost use Rattle.famlint_requests.specs.Guides.{guide_text};
ghost use Rattle.famlint_requests.specs.Requests.{paths_of, IsWithinRanges};

use fam_outer::{Files, NoMemory};
use famlint_checks::check::check;
use famlint_families::advice::advice;
use famlint_families::family::family;
use famlint_families::features::features;
use famlint_families::generate::generate;
use famlint_families::page::page;
use famlint_loads::{Done, Failure};
use famlint_programs::plain::plain;
use famlint_programs::variant::variant;
use famlint_requests::{Guide, Request};
use std::alloc::Global;

/// The text that tells of the program.
fn guided(alloc: Global, guide: &Guide) -> Result<Done, NoMemory>
    ensures { IfOk result (λ done. done ≡ record { text = guide_text guide.now; status = 0 }) }
{
    Ok(Done {
        text: guide.text(alloc)?,
        status: 0,
    })
}

/// Does what a request asks for: first the loads, then the work.
pub fn work<F: Files>(alloc: Global, request: &Request, files: &mut F) -> Result<Done, Failure>
    requires { IsWithinRanges request.now }
    ensures given { AreGiven F.loads (F.content files.old) files.old files.new (sources_of request.now)
        (contents_of request.now) (IsOk result)
        (λ told. IsRight (Answers request.now told) (Promised request.now told) (IsLoaded request.now told)
        (F.failed files.new) result) }
    ensures status { IfOk result (λ done. done.status ≤ 1) }
    ensures kept { F.content files.new ≡ F.content files.old }
    ensures read { IsReadOf (paths_of request.now) (F.faults files.old) (F.faults files.new)
        (F.failed files.new) result }
{
    match request {
        Request::Plain {
            file,
            includes,
            analysis,
        } => plain(alloc, file, *includes, analysis, files),
        Request::Variant {
            model,
            file,
            dialect,
            settings,
            task,
        } => variant(alloc, model, file, *dialect, settings, task, files),
        Request::Family {
            model,
            file,
            dialect,
            analysis,
            regions,
            task,
        } => family(
            alloc, model, file, *dialect, analysis, *regions, *task, files,
        ),
        Request::Page {
            model,
            file,
            dialect,
            analysis,
            regions,
        } => page(alloc, model, file, *dialect, analysis, *regions, files),
        Request::Generate {
            number,
            analysis,
            regions,
        } => Ok(generate(alloc, *number, analysis, *regions)?),
        Request::Check {
            model,
            file,
            certificate,
            dialect,
        } => check(alloc, model, file, certificate, *dialect, files),
        Request::Advice {
            model,
            file,
            dialect,
            settings,
            analysis,
        } => advice(alloc, model, file, *dialect, settings, analysis, files),
        Request::Features { model, unknown } => features(alloc, model, *unknown, files),
        Request::Guide(guide) => Ok(guided(alloc, guide)?),
    }
}

//! The analysis of one program.
#![tactic(auto)]

ghost use Rattle.std.specs.Prelude.{◌≡◌, map, length, IfOk};
ghost use Rattle.c_tree.specs.View.{whole};
ghost use Rattle.c_tree.specs.Whole.{IsProgram, IsPlainProgram};
ghost use Rattle.c_tree.specs.Places.{program_places};
ghost use Rattle.plain_analysis.specs.Places.{at_of, alarms_of};
ghost use Rattle.plain_analysis.specs.Promises.{LoopsSettle, FinalsAreInductive, RunsForeseen};

use crate::alarm::Alarms;
use crate::entries::{Noted, enter_list};
use crate::finals::Finals;
use crate::findings::{Findings, PlaceLeaf, PlaceLeaves};
use crate::options::Options;
use crate::task::Task;
use crate::ways::{end, enter};
use c_tree::Program;
use fam_outer::NoMemory;
use indexmap::IndexMap;
use leaf_domain::{Leaf, leaf_is_valid, transfer_is_sound};
use std::alloc::Global;

/// The analysis of a plain program from a leaf of its variables.
///
/// The places are those of the program in the order of the text, that of the closing brace of
/// `main` last, each with the leaf with which the statement there is entered. At the place of a loop
/// it is the loop's final leaf: the one after `delay` rounds of joining, so many rounds of widening
/// to the thresholds that what comes in at the head is then below it, and `narrow` rounds of
/// narrowing, where a candidate is taken only if what comes in with it is below it. So what comes in
/// at the head is below the final leaf too: what enters the loop, and what its body, left at its end
/// or by a `continue`, and then its step or the test that stands last make of the head's leaf. In the
/// body, and behind it in the step or at the test that stands last, it is the leaf of one more pass
/// from there. Behind a loop it is the leaf where the test fails, joined with what leaves the body by
/// a `break`. Behind a jump in a list it is Nothing, up to where paths meet. At the end it is the leaf
/// behind the whole body of `main`, joined with what leaves it by a `return`, or by a jump outside
/// loops, which the readers refuse.
///
/// An alarm stands at a place and with a kind exactly where the statement there may stop with the
/// kind by its leaf; alarms come by place and then by kind. In the mode of the options and for each
/// store of the first leaf, each list of inputs and each number of steps, the store that a run has
/// reached lies in the leaf at its place, and the stop that it has met is among the alarms. The only
/// refusal is want of memory.
pub fn analyse_one<L: Leaf>(
    alloc: Global,
    program: &Program,
    start: &L,
    options: &Options,
) -> Result<Findings<L>, NoMemory>
    requires program { IsProgram (whole program.now) }
    requires plain { IsPlainProgram (whole program.now) }
    requires variables { (L.value start.now).variables ≡ length program.now.names }
    ensures places { IfOk result (λ f. map (λ at. at.place) f.places ≡ program_places (whole program.now)) }
    ensures leaves { IfOk result (λ f. map (λ at. L.value at.leaf) f.places
        ≡ map (at_of L.meaning options.now (whole program.now) (L.value start.now))
        (program_places (whole program.now))) }
    ensures alarms { IfOk result (λ f. f.alarms
        ≡ alarms_of L.meaning options.now (whole program.now) (L.value start.now)) }
    ensures runs { RunsForeseen L.meaning options.now (whole program.now) (L.value start.now) }
    ensures settled { LoopsSettle L.meaning options.now }
    ensures inductive { FinalsAreInductive L.meaning options.now }
{
    runs_are_foreseen(program, start, options);
    let mut noted = Noted {
        places: Vec::new(alloc),
        alarms: Vec::new(alloc),
    };
    let mut finals = Finals {
        entries: IndexMap::new(alloc),
    };
    let task = Task {
        alloc,
        program,
        options,
    };
    let entered = start.copy(alloc)?;
    let ways = enter(alloc, entered)?;
    let left = enter_list(&mut finals, &mut noted, &task, &program.body, ways)?;
    let leaf = end(alloc, left)?;
    let place = program.end;
    noted.places.push(PlaceLeaf { place, leaf })?;
    Ok(Findings {
        places: PlaceLeaves::from_vec(noted.places),
        alarms: Alarms::from_vec(noted.alarms),
    })
}

/// The laws of the analysis: runs are foreseen, the rounds of widening end where nothing comes in
/// any more, and final leaves are inductive.
fn runs_are_foreseen<L: Leaf>(program: &Program, start: &L, options: &Options)
    requires program { IsProgram (whole program.now) }
    requires plain { IsPlainProgram (whole program.now) }
    requires variables { (L.value start.now).variables ≡ length program.now.names }
    ensures runs { RunsForeseen L.meaning options.now (whole program.now) (L.value start.now) }
    ensures settled { LoopsSettle L.meaning options.now }
    ensures inductive { FinalsAreInductive L.meaning options.now }
{
    transfer_is_sound::<L>();
    leaf_is_valid(start);
}

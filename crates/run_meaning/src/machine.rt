//! The machine that runs a plain program, one statement at a time (ISO/IEC 9899:2011, 6.8).
#![tactic(auto)]

ghost use Rattle.std.specs.Prelude.{◌≡◌, List, ℤ, ◌-◌, length, IfOk, OnOk, OnErr};
ghost use Rattle.std.specs.List.{All};
ghost use Rattle.c_tree.specs.Tree.{Code, Done};
ghost use Rattle.c_tree.specs.View.{front, whole};
ghost use Rattle.c_tree.specs.Value.{IsInt};
ghost use Rattle.c_tree.specs.Fit.{IsPlain};
ghost use Rattle.c_tree.specs.Whole.{IsProgram, IsPlainProgram};
ghost use Rattle.c_tree.specs.Run.{next_of, start_of, run_of, cut_of, AtEnd, IsFit};
ghost use Rattle.run_meaning.specs.View.{pile, below, nest, standing, progress_of, left_by, end_of, performed, changed, IsWithin, IsChangeWithin};

use crate::heads::{drop_head, head_of, open_head};
use crate::levels::{
    Level, begin_do_round, begin_round, break_loop, continue_loop, finish, settle,
};
use crate::plan::{Change, Plan, plan_for};
use c_tree::{Kind, Mode, Program, Stmt, copy_list};
use fam_outer::{NoMemory, Place, Values};
use std::alloc::Global;

/// Where a run stands: the statements still to do, the loops that are entered, the store, and the
/// number of inputs taken. The statements are kept with the last one first, so that a step works at
/// the end of a vector, and the innermost loop comes last.
#[derive(Drop)]
pub struct State {
    pub(crate) todo: Vec<Stmt>,
    pub(crate) levels: Vec<Level>,
    pub(crate) store: Vec<i64>,
    pub(crate) taken: u64,
}

impl State {
    /// The values of the variables.
    pub fn store(&self) -> &[i64]
        ensures { result.now ≡ (standing self.now).store }
    {
        self.store.as_slice()
    }

    /// How many inputs are taken.
    pub fn taken(&self) -> u64
        ensures { result ≡ (standing self.now).taken }
    {
        self.taken
    }
}

/// What a step came to.
#[derive(Clone, Copy, Debug, PartialEq, Eq)]
pub enum Progress {
    Moved,
    Stopped(Place, Kind),
    Waiting(Place),
    Ended,
}

/// How a run of a bounded number of steps ended.
#[derive(Debug, Drop)]
pub enum RunEnd {
    At(Place, Values),
    Stopped(Place, Kind),
    Waiting(Place, Values),
    Ended(Values),
}

/// A program before its first step: its whole body is still to do, its store has the start values,
/// and no input is taken. The only refusal is want of memory.
#[tactic(auto, using(crate::proofs::Stacks::piles, crate::proofs::Nests::nests, crate::proofs::Fits::fit_from_program))]
pub fn begin(alloc: Global, program: &Program) -> Result<State, NoMemory>
    requires program { IsProgram (whole program.now) }
    requires plain { IsPlainProgram (whole program.now) }
    ensures start { IfOk result (λ state. standing state ≡ start_of (whole program.now)) }
    ensures fit { IfOk result (λ state. IsFit (standing state)) }
{
    let mut todo = copy_list(alloc, &program.body)?;
    todo.reverse();
    let store = Vec::from_slice(alloc, program.start.items())?;
    Ok(State {
        todo,
        levels: Vec::new(alloc),
        store,
        taken: 0,
    })
}

/// One step in a mode. `Moved`: the first statement was done, and where the body of a loop is over
/// then, the state stands at what is done next, which counts no step. `Stopped`: its expression or
/// assertion stops the run. `Waiting`: it is an input, and all inputs are taken. `Ended`: nothing is
/// left to do. Only `Moved` changes the state. The memory is taken first, so that after want of
/// memory, the only refusal, the next call answers as if the refused one had not been. Only where a
/// round of a loop begins does a step copy statements: the loop's body, and its step; and with them
/// the test where that comes last.
#[tactic(auto, using(crate::proofs::Fits::fits))]
pub fn step(
    alloc: Global,
    state: &mut State,
    inputs: &[i64],
    mode: Mode,
) -> Result<Progress, NoMemory>
    requires fit { IsFit (standing state.old) }
    requires ints { All IsInt inputs.now }
    ensures progress { IfOk result (λ p. p ≡ progress_of (next_of mode inputs.now (standing state.old))) }
    ensures left { OnOk result (standing state.new
        ≡ left_by (next_of mode inputs.now (standing state.old)) (standing state.old)) }
    ensures err { OnErr result (standing state.new ≡ standing state.old) }
    ensures fit { IsFit (standing state.new) }
{
    let Some(head) = head_of(&state.todo) else {
        return Ok(Progress::Ended);
    };
    let plan = plan_for(alloc, head, &state.store, state.taken, inputs, mode)?;
    act(alloc, state, plan, inputs)
}

/// What stands after at most `n` steps of a program from its start. `At`: `n` steps were made and
/// something is left to do; else the answer is that of the next step. The only refusal is want of
/// memory.
pub fn run(
    alloc: Global,
    program: &Program,
    inputs: &[i64],
    n: u64,
    mode: Mode,
) -> Result<RunEnd, NoMemory>
    requires program { IsProgram (whole program.now) }
    requires plain { IsPlainProgram (whole program.now) }
    requires ints { All IsInt inputs.now }
    ensures { IfOk result (λ end. end_of end ≡ run_of (whole program.now) inputs.now n mode) }
{
    let mut state = begin(alloc, program)?;
    for _i in 0..n {
        match step(alloc, &mut state, inputs, mode)? {
            Progress::Moved => {}
            Progress::Stopped(place, kind) => return Ok(RunEnd::Stopped(place, kind)),
            Progress::Waiting(place) => return Ok(RunEnd::Waiting(place, store_of(state))),
            Progress::Ended => return Ok(RunEnd::Ended(store_of(state))),
        }
    }
    Ok(cut(state))
}

/// What a run answers after its last step.
fn cut(state: State) -> RunEnd
    requires { IsPlain (standing state).todo }
    ensures { end_of result ≡ cut_of (standing state).todo (standing state).store }
{
    match head_of(&state.todo) {
        None => RunEnd::Ended(store_of(state)),
        Some(head) => {
            let place = place_of(head);
            RunEnd::At(place, store_of(state))
        }
    }
}

fn store_of(state: State) -> Values
    ensures { result ≡ (standing state).store }
{
    let State {
        todo: _,
        levels: _,
        store,
        taken: _,
    } = state;
    Values::from_vec(store)
}

fn place_of(head: &Stmt) -> Place
    requires { IsPlain (front head.now Done) }
    ensures { (rest : Code) (store : List ℤ) → cut_of (front head.now rest) store ≡ AtEnd result store }
{
    match head {
        Stmt::Assign { place, .. }
        | Stmt::Input { place, .. }
        | Stmt::Assert { place, .. }
        | Stmt::If { place, .. }
        | Stmt::While { place, .. }
        | Stmt::Do { place, .. }
        | Stmt::Leave { place, .. }
        | Stmt::Block { place, .. }
        | Stmt::Skip { place } => *place,
        Stmt::Cond { .. } => unreachable!(),
    }
}

/// Does what is planned for the first statement.
fn act(alloc: Global, state: &mut State, plan: Plan, inputs: &[i64]) -> Result<Progress, NoMemory>
    requires { IsWithin (length state.old.store.items) (length inputs.now - state.old.taken) plan }
    ensures progress { IfOk result (λ p. p
        ≡ progress_of (performed plan (below state.old.todo.items)
        (pile state.old.todo.items) (nest state.old.levels.items) state.old.store.items state.old.taken)) }
    ensures left { OnOk result (standing state.new
        ≡ left_by (performed plan (below state.old.todo.items) (pile state.old.todo.items)
        (nest state.old.levels.items) state.old.store.items state.old.taken) (standing state.old)) }
    ensures err { OnErr result (standing state.new ≡ standing state.old) }
{
    match plan {
        Plan::Move(it) => {
            change(alloc, state, it, inputs)?;
            settle(state);
            Ok(Progress::Moved)
        }
        Plan::Stop(place, kind) => Ok(Progress::Stopped(place, kind)),
        Plan::Wait(place) => Ok(Progress::Waiting(place)),
    }
}

/// Changes the state. What memory is still to be taken is taken before anything changes.
fn change(alloc: Global, state: &mut State, it: Change, inputs: &[i64]) -> Result<(), NoMemory>
    requires { IsChangeWithin (length state.old.store.items) (length inputs.now - state.old.taken) it }
    ensures ok { OnOk result (standing state.new
        ≡ changed it (below state.old.todo.items) (pile state.old.todo.items)
        (nest state.old.levels.items) state.old.store.items state.old.taken) }
    ensures err { OnErr result (standing state.new ≡ standing state.old) }
{
    match it {
        Change::Set(target, n) => {
            drop_head(&mut state.todo);
            state.store[target as usize] = n;
        }
        Change::Take(target, n) => {
            let _length = inputs.len();
            drop_head(&mut state.todo);
            state.store[target as usize] = n;
            state.taken += 1;
        }
        Change::Pass => drop_head(&mut state.todo),
        Change::Open(first) => return open_head(alloc, &mut state.todo, first),
        Change::Round(step, body) => return begin_round(state, step, body),
        Change::DoRound(body, place, test) => return begin_do_round(
            alloc, state, body, place, test,
        ),
        Change::Break => break_loop(state),
        Change::Continue => continue_loop(state),
        Change::Finish => finish(state),
    }
    Ok(())
}

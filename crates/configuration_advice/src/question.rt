//! Questions on the candidates that are as chosen.
#![tactic(auto)]

ghost use Rattle.std.specs.Prelude.{◌≡◌, ◌<◌, ◌≤◌, ◌^◌, ◌++◌, pos, ◌+ℤ◌, [], ◌∷◌, length, unsigned_abs, IfOk};
ghost use Rattle.linear_atoms.specs.Atoms.{AreValues};
ghost use Rattle.configuration_advice.specs.Searching.{IsAsked, FindsFirst, pairs};
ghost use Rattle.configuration_advice.specs.Tests.{at_least};

use crate::choices::{Choice, of_choices};
use crate::keeping::{copies, push_pair};
use atom_solver::Prepared;
use cpp_conditions::Formula;
use fam_outer::{MOST_VALUE, NoMemory};
use linear_atoms::slices::cut;
use linear_atoms::{Atom, Config};
use std::alloc::Global;

/// What is asked of all candidates: a prepared model, the atoms of the alarms and behind them two for each feature, the formula
/// that there are no alarms, the given configuration, and the number of the first feature's first test.
#[derive(Clone, Copy)]
pub(crate) struct Question<'a> {
    pub prepared: &'a Prepared<'a>,
    pub atoms: &'a [Atom],
    pub quiet: &'a Formula,
    pub given: &'a Config,
    pub first: u32,
}

/// Copies of the atoms, and behind them two tests for each feature.
pub(crate) fn with_pairs(
    alloc: Global,
    atoms: &[Atom],
    given: &[i64],
) -> Result<Vec<Atom>, NoMemory>
    requires values { AreValues given.now }
    requires few { length given.now < 2 ^ 32 }
    ensures { IfOk result (λ made. made.items ≡ atoms.now ++ pairs 0 given.now) }
{
    let mut list = copies(alloc, atoms)?;
    let mut rest = given;
    let mut number: u32 = 0;
    'features: while let Some((value, behind)) = cut(rest) {
        push_pair(alloc, &mut list, number, *value)?;
        rest = behind;
        number += 1;
    }
    Ok(list)
}

/// The first candidate that is as chosen.
pub(crate) fn first_candidate(
    alloc: Global,
    question: &Question,
    choices: &[Choice],
) -> Result<Option<Config>, NoMemory>
    requires asked { IsAsked question.now }
    requires count { length choices.now ≡ length question.now.given.now.values }
    ensures { IfOk result (λ found. FindsFirst question.now choices.now found) }
{
    let quiet = question.quiet.copy(alloc)?;
    let wanted = of_choices(alloc, choices, question.first, quiet)?;
    question
        .prepared
        .least_where(alloc, question.atoms, &wanted)
}

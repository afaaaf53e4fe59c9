//! What is chosen of features, as lists and as formulas.
#![tactic(auto)]

ghost use Rattle.std.specs.Prelude.{◌≡◌, ℕ, ◌+◌, ◌*◌, ◌≤◌, ◌<◌, ◌^◌, ◌&&◌, ◌∷◌, ◌++◌, true, false, List, Bool, length, map, IfOk};
ghost use Rattle.cpp_conditions.specs.Propositions.{IsBelow, true_on, Test, Not, And};
ghost use Rattle.cpp_conditions.specs.View.{formula};
ghost use Rattle.configuration_advice.specs.Choices.{nothing_chosen, close, Tightens, are_chosen_on};

use cpp_conditions::Formula;
use cpp_conditions::formulas::{both, negation};
use fam_outer::NoMemory;
use linear_atoms::slices::cut;
use std::alloc::Global;

/// What is chosen of a feature: to keep its given value, to change it, or neither yet.
#[derive(Clone, Copy, Debug, PartialEq, Eq)]
pub(crate) enum Choice {
    Open,
    Kept,
    Changed,
}

/// Nothing chosen yet, for each of the given values.
pub(crate) fn nothing_chosen(alloc: Global, given: &[i64]) -> Result<Vec<Choice>, NoMemory>
    ensures { IfOk result (λ made. made.items ≡ nothing_chosen given.now) }
{
    let mut made = Vec::new(alloc);
    let mut rest = given;
    'values: while let Some((_value, behind)) = cut(rest) {
        made.push(Choice::Open)?;
        rest = behind;
    }
    Ok(made)
}

/// The choice, or to keep where it is open.
fn close(choice: Choice) -> Choice
    ensures { result ≡ close choice }
{
    match choice {
        Choice::Open | Choice::Kept => Choice::Kept,
        Choice::Changed => Choice::Changed,
    }
}

/// The choices, with all kept that are open.
pub(crate) fn closed(alloc: Global, choices: &[Choice]) -> Result<Vec<Choice>, NoMemory>
    ensures { IfOk result (λ made. made.items ≡ map close choices.now) }
{
    let mut made = Vec::new(alloc);
    for choice in choices {
        made.push(close(*choice))?;
    }
    Ok(made)
}

/// Choices with another one between them.
pub(crate) fn joined(
    alloc: Global,
    front: &[Choice],
    choice: Choice,
    behind: &[Choice],
) -> Result<Vec<Choice>, NoMemory>
    ensures { IfOk result (λ made. made.items ≡ front.now ++ (choice ∷ behind.now)) }
{
    let mut made = Vec::from_slice(alloc, front)?;
    made.push(choice)?;
    made.extend_from_slice(behind)?;
    Ok(made)
}

/// Tighter choices, with those loosened again that stand from a place on and before another.
pub(crate) fn loosened(
    alloc: Global,
    choices: &[Choice],
    tight: &[Choice],
    from: usize,
    to: usize,
) -> Result<Vec<Choice>, NoMemory>
    requires { Tightens choices.now tight.now }
    ensures { IfOk result (λ made. Tightens choices.now made.items) }
{
    let mut made = Vec::new(alloc);
    let (mut rest, mut others) = (choices, tight);
    'choices: while let (Some((choice, behind)), Some((other, more))) = (cut(rest), cut(others)) {
        let place = made.len();
        if from <= place && place < to {
            made.push(*choice)?;
        } else {
            made.push(*other)?;
        }
        rest = behind;
        others = more;
    }
    Ok(made)
}

/// Whether a feature that is open in one list is kept in the other.
pub(crate) fn is_tightened(choice: Choice, other: Choice) -> bool
    ensures so { result ≡ true → (choice ≡ Choice.Open) × (other ≡ Choice.Kept) }
    ensures otherwise { result ≡ false → choice ≡ Choice.Open → other ≡ Choice.Kept → ⊥ }
{
    match (choice, other) {
        (Choice::Open, Choice::Kept) => true,
        _ => false,
    }
}

/// The formula that a feature keeps its value, by its two tests.
fn kept(alloc: Global, test: u32) -> Result<Formula, NoMemory>
    requires { test + 1 < 2 ^ 32 }
    ensures { IfOk result (λ made. formula made ≡ And (Test test) (Not (Test (test + 1)))) }
{
    let more = negation(alloc, Formula::Test(test + 1))?;
    both(alloc, Formula::Test(test), more)
}

/// The formula that all features are as chosen, whose tests begin with this number, and that one more formula holds.
pub(crate) fn of_choices(
    alloc: Global,
    choices: &[Choice],
    test: u32,
    last: Formula,
) -> Result<Formula, NoMemory>
    requires { test + 2 * length choices.now < 2 ^ 32 }
    ensures truth { IfOk result (λ made. (v : List Bool)
        → true_on v (formula made) ≡ (are_chosen_on v test choices.now && true_on v (formula last))) }
    ensures below { IfOk result (λ made. (count : ℕ) → test + 2 * length choices.now ≤ count
        → IsBelow count (formula last) → IsBelow count (formula made)) }
{
    match cut(choices) {
        None => Ok(last),
        Some((choice, behind)) => {
            let others = of_choices(alloc, behind, test + 2, last)?;
            match choice {
                Choice::Open => Ok(others),
                Choice::Kept => {
                    let one = kept(alloc, test)?;
                    both(alloc, one, others)
                }
                Choice::Changed => {
                    let one = kept(alloc, test)?;
                    let denied = negation(alloc, one)?;
                    both(alloc, denied, others)
                }
            }
        }
    }
}

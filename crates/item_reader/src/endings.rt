//! Groups behind `main`, and the end of a file.
#![tactic(auto)]

ghost use Rattle.std.specs.Prelude.{◌≡◌, [], ◌∷◌, IfOk, MatchOption, option_map};
ghost use Rattle.c_grammar.specs.Machine as machine;
ghost use Rattle.c_grammar.specs.declared.items.Sign.TheVariants as signs;
ghost use Rattle.reading_states.specs.Views.{as_file, as_parts, as_state, as_tailing, Moves};

use c_grammar::Sign;
use fam_outer::NoMemory;
use reading_states::states::{File, ReadingState, Tailing};
use std::alloc::Global;

/// The innermost part, and the others.
#[tactic(auto, using(reading_states::proofs::Parts::parts))]
fn cut(parts: Vec<Tailing>) -> Option<(Tailing, Vec<Tailing>)>
    ensures { MatchOption result (as_parts parts.items ≡ [])
        (λ x. as_parts parts.items ≡ as_tailing x.0 ∷ as_parts x.1.items) }
{
    let mut parts = parts;
    let innermost = parts.pop()?;
    Some((innermost, parts))
}

/// One more part, the innermost.
#[tactic(auto, using(reading_states::proofs::Parts::parts))]
fn put(parts: Vec<Tailing>, innermost: Tailing) -> Result<Vec<Tailing>, NoMemory>
    ensures { IfOk result (λ made. as_parts made.items ≡ as_tailing innermost ∷ as_parts parts.items) }
{
    let mut parts = parts;
    parts.push(innermost)?;
    Ok(parts)
}

/// A section opens behind `main`.
fn tail_start(
    alloc: Global,
    file: File,
    parts: Vec<Tailing>,
    number: u32,
) -> Result<Option<ReadingState>, NoMemory>
    ensures { Moves result (machine.over (as_file file) (as_parts parts.items) (signs.GroupIf number)) }
{
    let mut numbers = Vec::new(alloc);
    numbers.push(number)?;
    let parts = put(parts, Tailing::Another(numbers))?;
    Ok(Some(ReadingState::Over { file, parts }))
}

/// The next part of a section behind `main`, where another may come.
fn tail_condition(
    file: File,
    parts: Vec<Tailing>,
    number: u32,
) -> Result<Option<ReadingState>, NoMemory>
    ensures { Moves result (machine.over (as_file file) (as_parts parts.items) (signs.GroupElif number)) }
{
    let Some((innermost, parts)) = cut(parts) else {
        return Ok(None);
    };
    match innermost {
        Tailing::Another(numbers) => {
            let mut numbers = numbers;
            numbers.push(number)?;
            let parts = put(parts, Tailing::Another(numbers))?;
            Ok(Some(ReadingState::Over { file, parts }))
        }
        Tailing::Final(_numbers) => Ok(None),
    }
}

/// The last part of a section behind `main`, where another may come.
fn tail_last(file: File, parts: Vec<Tailing>) -> Result<Option<ReadingState>, NoMemory>
    ensures { Moves result (machine.over (as_file file) (as_parts parts.items) signs.GroupElse) }
{
    let Some((innermost, parts)) = cut(parts) else {
        return Ok(None);
    };
    match innermost {
        Tailing::Another(numbers) => {
            let parts = put(parts, Tailing::Final(numbers))?;
            Ok(Some(ReadingState::Over { file, parts }))
        }
        Tailing::Final(_numbers) => Ok(None),
    }
}

/// The end of a section behind `main`, where one is open.
fn tail_end(file: File, parts: Vec<Tailing>) -> Option<ReadingState>
    ensures { option_map as_state result ≡ machine.over (as_file file) (as_parts parts.items) signs.GroupEnd }
{
    let (_innermost, parts) = cut(parts)?;
    Some(ReadingState::Over { file, parts })
}

/// Behind the brace of `main`.
pub(crate) fn over(
    alloc: Global,
    file: File,
    parts: Vec<Tailing>,
    sign: Sign,
) -> Result<Option<ReadingState>, NoMemory>
    ensures { Moves result (machine.over (as_file file) (as_parts parts.items) sign) }
{
    match sign {
        Sign::GroupIf(number) => tail_start(alloc, file, parts, number),
        Sign::GroupElif(number) => tail_condition(file, parts, number),
        Sign::GroupElse => tail_last(file, parts),
        Sign::GroupEnd => Ok(tail_end(file, parts)),
        _ => Ok(None),
    }
}

/// The file, where it may end here.
pub(crate) fn finish(state: ReadingState) -> Option<File>
    ensures { option_map as_file result ≡ machine.finish (as_state state) }
{
    match state {
        ReadingState::Over { file, parts } => match cut(parts) {
            None => Some(file),
            Some(_open) => None,
        },
        other => {
            drop(other);
            None
        }
    }
}

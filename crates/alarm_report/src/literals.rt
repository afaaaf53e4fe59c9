//! The literals of a path.
#![tactic(auto)]

ghost use Rattle.std.specs.Prelude.{◌≡◌, ◌<◌, length, IfOk};
ghost use Rattle.std.specs.List.{All};
ghost use Rattle.alarm_report.specs.Regions.{literal_of, literals_of};

use fam_outer::NoMemory;
use linear_atoms::{Atom, Literal};
use std::alloc::Global;

/// The literal of a turn: the atom with the number of its test, or its negation.
fn literal_of(alloc: Global, atoms: &[Atom], turn: (u32, bool)) -> Result<Literal, NoMemory>
    requires { turn.0 < length atoms.now }
    ensures { IfOk result (λ literal. literal ≡ literal_of atoms.now turn) }
{
    let (test, positive) = turn;
    Ok(Literal {
        atom: atoms[test as usize].copy(alloc)?,
        positive,
    })
}

/// The literals of the turns of a path.
pub fn literals_of(
    alloc: Global,
    atoms: &[Atom],
    turns: &[(u32, bool)],
) -> Result<Vec<Literal>, NoMemory>
    requires { All (λ turn. turn.0 < length atoms.now) turns.now }
    ensures { IfOk result (λ literals. literals.items ≡ literals_of atoms.now turns.now) }
{
    let mut literals = Vec::new(alloc);
    for turn in turns {
        literals.push(literal_of(alloc, atoms, *turn)?)?;
    }
    Ok(literals)
}

//! The texts of the literals of atoms, and of the values that two of them leave.
#![tactic(auto)]

ghost use Rattle.std.specs.Prelude.{◌≡◌, ◌+◌, ◌≤◌, ◌<◌, ◌++◌, true, length, unsigned_abs, IfOk};
ghost use Rattle.linear_atoms.specs.Atoms.{IsAtom, AreAtoms};
ghost use Rattle.certificate_format.specs.Regions.{next_from};
ghost use Rattle.certificate_format.specs.Rows.{row, rows_from, value_row, values_from, all_rows, row_of};

use alarm_report::pieces::is_next;
use fam_outer::{NoMemory, Text};
use linear_atoms::slices::cut;
use linear_atoms::{Atom, Feature, Literal};
use std::alloc::Global;

/// An atom by its number, or its negation.
#[derive(Clone, Copy, Debug, PartialEq, Eq)]
pub struct Numbered {
    pub number: u32,
    pub positive: bool,
}

/// What a piece of a region stands for.
#[derive(Clone, Copy, Debug, PartialEq, Eq)]
pub enum Piece {
    /// An atom, or its negation.
    Literal(Numbered),
    /// The atom with the first number and the negation of that with the second, which has the same terms and the next bound.
    Value(u32, u32),
}

/// The text of a piece.
#[derive(Debug, Drop)]
pub struct Row {
    pub text: Text,
    pub piece: Piece,
}

/// The row of an atom, or of its negation.
fn row_by(
    alloc: Global,
    features: &[Feature],
    number: u32,
    atom: &Atom,
    positive: bool,
) -> Result<Row, NoMemory>
    requires { IsAtom (length features.now) atom.now }
    ensures { IfOk result (λ made. made ≡ row features.now number atom.now positive) }
{
    let literal = Literal {
        atom: atom.copy(alloc)?,
        positive,
    };
    Ok(Row {
        text: literal.text(alloc, features)?,
        piece: Piece::Literal(Numbered { number, positive }),
    })
}

/// The rows of the literals of atoms: each atom before its negation.
fn literal_rows(alloc: Global, features: &[Feature], atoms: &[Atom]) -> Result<Vec<Row>, NoMemory>
    requires atoms { AreAtoms (length features.now) atoms.now }
    requires few { length atoms.now ≤ 320 }
    ensures { IfOk result (λ made. made.items ≡ rows_from features.now 0 atoms.now) }
{
    let mut rows = Vec::new(alloc);
    let mut number: u32 = 0;
    let mut rest = atoms;
    'atoms: while let Some((atom, behind)) = cut(rest) {
        rows.push(row_by(alloc, features, number, atom, true)?)?;
        rows.push(row_by(alloc, features, number, atom, false)?)?;
        rest = behind;
        number += 1;
    }
    Ok(rows)
}

/// The number of the first atom with the same terms and the next bound.
fn next_of(atoms: &[Atom], atom: &Atom) -> Option<u32>
    requires few { length atoms.now ≤ 320 }
    requires bound { unsigned_abs atom.now.bound ≤ 2147483649 }
    ensures { result ≡ next_from 0 atoms.now atom.now }
{
    let mut number: u32 = 0;
    let mut rest = atoms;
    'atoms: while let Some((other, behind)) = cut(rest) {
        if is_next(atom, other) {
            return Some(number);
        }
        rest = behind;
        number += 1;
    }
    None
}

/// Adds the row of the value that the atom with this number and the negation of the next leave, if there is a next.
fn push_value(
    alloc: Global,
    features: &[Feature],
    atoms: &[Atom],
    number: u32,
    atom: &Atom,
    rows: &mut Vec<Row>,
) -> Result<(), NoMemory>
    requires atom { IsAtom (length features.now) atom.now }
    requires few { length atoms.now ≤ 320 }
    ensures { IfOk result (λ _. rows.new.items
        ≡ rows.old.items ++ value_row features.now number atom.now (next_from 0 atoms.now atom.now)) }
{
    let Some(next) = next_of(atoms, atom) else {
        return Ok(());
    };
    rows.push(Row {
        text: atom.value_text(alloc, features)?,
        piece: Piece::Value(number, next),
    })?;
    Ok(())
}

/// Adds the rows of the values that two literals of the atoms leave.
fn push_values(
    alloc: Global,
    features: &[Feature],
    atoms: &[Atom],
    rows: &mut Vec<Row>,
) -> Result<(), NoMemory>
    requires atoms { AreAtoms (length features.now) atoms.now }
    requires few { length atoms.now ≤ 320 }
    ensures { IfOk result (λ _. rows.new.items ≡ rows.old.items ++ values_from features.now atoms.now 0 atoms.now) }
{
    let mut number: u32 = 0;
    let mut rest = atoms;
    'atoms: while let Some((atom, behind)) = cut(rest) {
        push_value(alloc, features, atoms, number, atom, rows)?;
        rest = behind;
        number += 1;
    }
    Ok(())
}

/// The rows of the literals of atoms, and of the values that two of them leave.
pub(crate) fn rows_of(
    alloc: Global,
    features: &[Feature],
    atoms: &[Atom],
) -> Result<Vec<Row>, NoMemory>
    requires atoms { AreAtoms (length features.now) atoms.now }
    requires few { length atoms.now ≤ 320 }
    ensures { IfOk result (λ made. made.items ≡ all_rows features.now atoms.now) }
{
    let mut rows = literal_rows(alloc, features, atoms)?;
    push_values(alloc, features, atoms, &mut rows)?;
    Ok(rows)
}

/// What the first row with the text says.
pub(crate) fn piece_of(rows: &[Row], text: &[u8]) -> Option<Piece>
    ensures { result ≡ row_of rows.now text.now }
{
    for row in rows {
        if row.text.bytes() == text {
            return Some(row.piece);
        }
    }
    None
}

//! Regions read as formulas.
#![tactic(auto)]

ghost use Rattle.std.specs.Prelude.{◌≡◌, ℕ, List, codes, Option, Some, None, map, flat_map, IfOk, MatchOption};
ghost use Rattle.std.specs.List.{list_any};
ghost use Rattle.cpp_conditions.specs.View.{formula};
ghost use Rattle.certificate_format.specs.declared.literals.Piece.{Piece};
ghost use Rattle.certificate_format.specs.Cuts.{AreBetween, IsBetween};
ghost use Rattle.certificate_format.specs.Regions.{test_of, all_of, is_same, distinct, literals_in, IsMeant, IsStrange};
ghost use Rattle.certificate_format.specs.Rows.{row_of, added, all_added};

use crate::cutting::cut_at;
use crate::literals::{Numbered, Piece, Row, piece_of};
use cpp_conditions::Formula;
use cpp_conditions::formulas::{both, negation};
use fam_outer::NoMemory;
use linear_atoms::slices::cut;
use std::alloc::Global;

/// Whether the literals are the same.
fn is_same(a: Numbered, b: Numbered) -> bool
    ensures { result ≡ is_same a b }
{
    a.number == b.number && a.positive == b.positive
}

/// Whether the literal is among these.
fn is_among(literal: Numbered, found: &[Numbered]) -> bool
    ensures { result ≡ list_any (is_same literal) found.now }
{
    for other in found {
        if is_same(literal, *other) {
            return true;
        }
    }
    false
}

/// Adds a literal, unless it is there.
fn add(found: &mut Vec<Numbered>, literal: Numbered) -> Result<(), NoMemory>
    ensures { IfOk result (λ _. found.new.items ≡ added found.old.items literal) }
{
    if is_among(literal, found) {
        return Ok(());
    }
    found.push(literal)?;
    Ok(())
}

/// Adds the literals of a piece, each unless it is there.
fn add_piece(found: &mut Vec<Numbered>, piece: Piece) -> Result<(), NoMemory>
    ensures { IfOk result (λ _. found.new.items ≡ all_added found.old.items (literals_in piece)) }
{
    match piece {
        Piece::Literal(literal) => add(found, literal),
        Piece::Value(lower, upper) => {
            let lower = Numbered {
                number: lower,
                positive: true,
            };
            let upper = Numbered {
                number: upper,
                positive: false,
            };
            add(found, lower)?;
            add(found, upper)
        }
    }
}

/// The literals of the pieces of a region, each once.
fn literals_of(
    alloc: Global,
    rows: &[Row],
    region: &[u8],
) -> Result<Option<Vec<Numbered>>, NoMemory>
    ensures { IfOk result (λ found. MatchOption found
        ((piece : List ℕ) × IsBetween (codes " && ") region.now piece × (row_of rows.now piece ≡ None))
        (λ v. (texts : List (List ℕ)) × (pieces : List Piece) × AreBetween (codes " && ") region.now texts
        × (map (row_of rows.now) texts ≡ map Some pieces) × (v.items ≡ distinct (flat_map literals_in pieces)))) }
{
    let mut found = Vec::new(alloc);
    let mut rest = region;
    'pieces: while let Some((text, behind)) = cut_at(rest, b" && ") {
        let Some(piece) = piece_of(rows, text) else {
            return Ok(None);
        };
        add_piece(&mut found, piece)?;
        rest = behind;
    }
    let Some(piece) = piece_of(rows, rest) else {
        return Ok(None);
    };
    add_piece(&mut found, piece)?;
    Ok(Some(found))
}

/// A literal as a formula.
fn test_of(alloc: Global, literal: Numbered) -> Result<Formula, NoMemory>
    ensures { IfOk result (λ made. formula made ≡ test_of literal) }
{
    let test = Formula::Test(literal.number);
    if literal.positive {
        Ok(test)
    } else {
        negation(alloc, test)
    }
}

/// All of the literals.
fn all_of(alloc: Global, literals: &[Numbered]) -> Result<Formula, NoMemory>
    ensures { IfOk result (λ made. formula made ≡ all_of literals.now) }
{
    let Some((literal, behind)) = cut(literals) else {
        return Ok(Formula::Const(true));
    };
    let first = test_of(alloc, *literal)?;
    let others = all_of(alloc, behind)?;
    both(alloc, first, others)
}

/// The formula of a region, if each of its pieces is the text of a row.
pub(crate) fn formula_of(
    alloc: Global,
    rows: &[Row],
    region: &[u8],
) -> Result<Option<Formula>, NoMemory>
    ensures { IfOk result (λ found. MatchOption found
        (IsStrange (row_of rows.now) region.now)
        (λ made. IsMeant (row_of rows.now) region.now (formula made))) }
{
    if region == b"1".as_slice() {
        return Ok(Some(Formula::Const(true)));
    }
    match literals_of(alloc, rows, region)? {
        None => Ok(None),
        Some(literals) => Ok(Some(all_of(alloc, &literals)?)),
    }
}

//! The texts of the pieces of regions.
#![tactic(auto)]

ghost use Rattle.std.specs.Prelude.{◌≡◌, ◌≤◌, ◌∷◌, ◌++◌, unsigned_abs, length, map, IfOk};
ghost use Rattle.linear_atoms.specs.Atoms.{IsAtom, AreLiterals};
ghost use Rattle.linear_atoms.specs.Texts.{literal_text};
ghost use Rattle.alarm_report.specs.Pieces.{is_next, leave_value, folded, pieces_of, piece_text};

use fam_outer::{NoMemory, Text};
use linear_atoms::slices::cut;
use linear_atoms::texts::is_switch;
use linear_atoms::{Atom, Feature, Literal, Regions};
use std::alloc::Global;

/// The texts of literals.
fn literal_texts(
    alloc: Global,
    features: &[Feature],
    literals: &[Literal],
) -> Result<Vec<Text>, NoMemory>
    requires { AreLiterals (length features.now) literals.now }
    ensures { IfOk result (λ texts. texts.items ≡ map (literal_text features.now) literals.now) }
{
    let mut texts = Vec::new(alloc);
    let mut rest = literals;
    'literals: while let Some((literal, behind)) = cut(rest) {
        texts.push(literal.text(alloc, features)?)?;
        rest = behind;
    }
    Ok(texts)
}

/// Whether the terms are the same, and the second's bound is the next.
pub fn is_next(first: &Atom, second: &Atom) -> bool
    requires { unsigned_abs first.now.bound ≤ 2147483649 }
    ensures { result ≡ is_next first.now second.now }
{
    first.terms == second.terms && second.bound == first.bound + 1
}

/// Whether the literals are `T >= k` and `T <= k`, and neither is spelled as a switch.
fn leave_value(features: &[Feature], first: &Literal, second: &Literal) -> bool
    requires first { IsAtom (length features.now) first.now.atom }
    requires second { IsAtom (length features.now) second.now.atom }
    ensures { result ≡ leave_value features.now first.now second.now }
{
    (first.positive && !second.positive && is_next(&first.atom, &second.atom))
        && (!is_switch(&first.atom, features) && !is_switch(&second.atom, features))
}

/// Adds the text of the first piece of a literal and those behind it, and answers the literals that are left.
fn push_piece<'a>(
    alloc: Global,
    texts: &mut Vec<Text>,
    features: &[Feature],
    literal: &Literal,
    behind: &'a [Literal],
) -> Result<&'a [Literal], NoMemory>
    requires { AreLiterals (length features.now) (literal.now ∷ behind.now) }
    ensures texts { IfOk result (λ left. texts.new.items ++ map (piece_text features.now) (folded features.now left.now)
        ≡ texts.old.items ++ map (piece_text features.now) (folded features.now (literal.now ∷ behind.now))) }
    ensures left { IfOk result (λ left. AreLiterals (length features.now) left.now) }
    ensures fewer { IfOk result (λ left. length left.now ≤ length behind.now) }
{
    match cut(behind) {
        Some((next, left)) if leave_value(features, literal, next) => {
            texts.push(literal.atom.value_text(alloc, features)?)?;
            Ok(left)
        }
        _ => {
            texts.push(literal.text(alloc, features)?)?;
            Ok(behind)
        }
    }
}

/// The texts of literals, and of the values that two of them leave.
fn folded_texts(
    alloc: Global,
    features: &[Feature],
    literals: &[Literal],
) -> Result<Vec<Text>, NoMemory>
    requires { AreLiterals (length features.now) literals.now }
    ensures { IfOk result (λ texts. texts.items ≡ map (piece_text features.now) (folded features.now literals.now)) }
{
    let mut texts = Vec::new(alloc);
    let mut rest = literals;
    'pieces: while let Some((literal, behind)) = cut(rest) {
        rest = push_piece(alloc, &mut texts, features, literal, behind)?;
    }
    Ok(texts)
}

/// The texts of the pieces of a region.
#[tactic(auto, using(crate::proofs::Piecewise::single_texts))]
pub fn piece_texts(
    alloc: Global,
    regions: Regions,
    features: &[Feature],
    literals: &[Literal],
) -> Result<Vec<Text>, NoMemory>
    requires { AreLiterals (length features.now) literals.now }
    ensures { IfOk result (λ texts. texts.items
        ≡ map (piece_text features.now) (pieces_of regions features.now literals.now)) }
{
    match regions {
        Regions::Paths => literal_texts(alloc, features, literals),
        Regions::Merged => folded_texts(alloc, features, literals),
    }
}

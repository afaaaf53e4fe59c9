//! The texts of literals.
#![tactic(auto)]

ghost use Rattle.std.specs.Prelude.{◌≡◌, ◌++◌, true, length, unsigned_abs, IfOk, codes};
ghost use Rattle.std.specs.Fmt.{signed_decimal};
ghost use Rattle.linear_atoms.specs.Forms.{are_small, is_small};
ghost use Rattle.linear_atoms.specs.Atoms.{AreBelow, IsAtom};
ghost use Rattle.linear_atoms.specs.Texts.{sign_text, sized_text, terms_text, is_switch, literal_text, value_text};

use crate::atoms::{Atom, Feature, Literal};
use fam_outer::{NoMemory, Text, decimal};
use linear_terms::first_term;
use std::alloc::Global;

/// What stands before a term's size.
fn sign_text(is_first: bool, coefficient: i64) -> &'static str
    ensures { result.now ≡ sign_text is_first coefficient }
{
    if is_first {
        if coefficient < 0 { "-" } else { "" }
    } else if coefficient < 0 {
        " - "
    } else {
        " + "
    }
}

/// Adds `N`, or `3*N`.
fn push_sized(
    alloc: Global,
    text: &mut Vec<u8>,
    coefficient: i64,
    name: &[u8],
) -> Result<(), NoMemory>
    requires { is_small coefficient ≡ true }
    ensures { IfOk result (λ _. text.new.items ≡ text.old.items ++ sized_text coefficient name.now) }
{
    let size = coefficient.unsigned_abs();
    if size != 1 {
        let digits = decimal(alloc, size as i64)?;
        text.extend_from_slice(digits.bytes())?;
        text.push(b'*')?;
    }
    text.extend_from_slice(name)?;
    Ok(())
}

/// The terms in order, as `N - 2*M`.
fn terms_text(
    alloc: Global,
    terms: &[(u32, i64)],
    features: &[Feature],
) -> Result<Vec<u8>, NoMemory>
    requires named { AreBelow (length features.now) terms.now }
    requires coefficients { are_small terms.now ≡ true }
    ensures { IfOk result (λ made. made.items ≡ terms_text true features.now terms.now) }
{
    let mut text = Vec::new(alloc);
    let mut is_first = true;
    let mut rest = terms;
    'terms: while let Some((number, coefficient, behind)) = first_term(rest) {
        text.extend_from_slice(sign_text(is_first, coefficient).as_bytes())?;
        let feature = &features[number as usize];
        push_sized(alloc, &mut text, coefficient, feature.name.bytes())?;
        is_first = false;
        rest = behind;
    }
    Ok(text)
}

/// Whether the atom is one Boolean feature with coefficient 1 and bound 1.
pub fn is_switch(atom: &Atom, features: &[Feature]) -> bool
    requires { AreBelow (length features.now) atom.now.terms }
    ensures { result ≡ is_switch features.now atom.now.terms atom.now.bound }
{
    match atom.terms.items() {
        [(number, coefficient)] => {
            *coefficient == 1 && features[*number as usize].boolean && atom.bound == 1
        }
        _ => false,
    }
}

/// The terms, a relation and a bound.
fn comparison(
    alloc: Global,
    mut terms: Vec<u8>,
    relation: &str,
    bound: i64,
) -> Result<Text, NoMemory>
    ensures { IfOk result (λ text. text ≡ (terms.items ++ relation.now) ++ signed_decimal bound) }
{
    terms.extend_from_slice(relation.as_bytes())?;
    let digits = decimal(alloc, bound)?;
    terms.extend_from_slice(digits.bytes())?;
    Ok(Text::from_vec(terms))
}

/// The name after `!`.
fn negated(alloc: Global, name: &[u8]) -> Result<Text, NoMemory>
    ensures { IfOk result (λ text. text ≡ codes "!" ++ name.now) }
{
    let mut text = Vec::new(alloc);
    text.extend_from_slice("!".as_bytes())?;
    text.extend_from_slice(name)?;
    Ok(Text::from_vec(text))
}

impl Literal {
    /// The text of the literal, over the features that its numbers name: where the atom is one Boolean feature
    /// with coefficient 1 and bound 1, the feature's name, after `!` where the literal is negative. Otherwise
    /// `T >= c` where it is positive, with `c` the bound, and `T <= d` where it is negative, with `d` the bound
    /// minus 1. `T` has the terms in order, as `N`, `3*N` or `N - 2*M`.
    pub fn text(&self, alloc: Global, features: &[Feature]) -> Result<Text, NoMemory>
        requires { IsAtom (length features.now) self.now.atom }
        ensures { IfOk result (λ text. text ≡ literal_text features.now self.now) }
    {
        let terms = terms_text(alloc, self.atom.terms.items(), features)?;
        match (is_switch(&self.atom, features), self.positive) {
            (true, true) => Ok(Text::from_vec(terms)),
            (true, false) => negated(alloc, terms.as_slice()),
            (false, true) => comparison(alloc, terms, " >= ", self.atom.bound),
            (false, false) => comparison(alloc, terms, " <= ", self.atom.bound - 1),
        }
    }
}

impl Atom {
    /// The text of the terms with the bound as their value, over the features that the numbers name: `T == c`, with `T`
    /// as in the text of a literal and `c` the bound.
    pub fn value_text(&self, alloc: Global, features: &[Feature]) -> Result<Text, NoMemory>
        requires { IsAtom (length features.now) self.now }
        ensures { IfOk result (λ text. text ≡ value_text features.now self.now) }
    {
        let terms = terms_text(alloc, self.terms.items(), features)?;
        comparison(alloc, terms, " == ", self.bound)
    }
}

//! Lists of formulas and of atoms.
#![tactic(auto)]

ghost use Rattle.std.specs.Prelude.{◌≡◌};

use cpp_conditions::Formula;
use linear_atoms::Atom;
use std::marker::Model;

/// A list of formulas.
#[derive(Debug, Drop)]
pub struct Formulas {
    list: Vec<Formula>,
}

impl Model for Formulas {
    ghost use Rattle.std.specs.Prelude.{List};
    ghost use Rattle.cpp_conditions.specs.declared.formulas.Formula.{Formula};
    ghost use Rattle.cpp_conditions.specs.contracts.formulas.Formula as of_formula;
    ghost use Rattle.std.specs.Coded.{codes};

    ghost Value = { List Formula };

    ghost coded = { Prim.hlevel (codes, of_formula.the_row.coded) };

    ghost view = { λ formulas. formulas.list.items };
}

impl Formulas {
    /// These formulas.
    pub fn from_vec(list: Vec<Formula>) -> Formulas
        ensures { result ≡ list.items }
    {
        Formulas { list }
    }

    /// The formulas.
    pub fn items(&self) -> &[Formula]
        ensures { result.now ≡ self.now }
    {
        self.list.as_slice()
    }
}

/// A list of atoms.
#[derive(Debug, Drop)]
pub struct Atoms {
    list: Vec<Atom>,
}

impl Model for Atoms {
    ghost use Rattle.std.specs.Prelude.{List};
    ghost use Rattle.linear_atoms.specs.declared.atoms.Atom.{Atom};

    ghost Value = { List Atom };

    ghost view = { λ atoms. atoms.list.items };
}

impl Atoms {
    /// These atoms.
    pub fn from_vec(list: Vec<Atom>) -> Atoms
        ensures { result ≡ list.items }
    {
        Atoms { list }
    }

    /// The atoms.
    pub fn items(&self) -> &[Atom]
        ensures { result.now ≡ self.now }
    {
        self.list.as_slice()
    }
}

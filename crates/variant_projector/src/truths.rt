//! The truths of atoms and conditions at a configuration.
#![tactic(auto)]

ghost use Rattle.std.specs.Prelude.{◌≡◌, length, map, IfOk};
ghost use Rattle.std.specs.List.{All};
ghost use Rattle.linear_atoms.specs.Atoms.{AreAtoms, AreValues};
ghost use Rattle.cpp_conditions.specs.Numbering.{vector_at};
ghost use Rattle.cpp_conditions.specs.Propositions.{IsBelow, true_on};
ghost use Rattle.cpp_conditions.specs.View.{formula};

use cpp_conditions::Formula;
use fam_outer::NoMemory;
use linear_atoms::slices::cut;
use linear_atoms::{Atom, Config};
use std::alloc::Global;

/// The truth of each atom at a configuration, which has each feature that they name. It answers an error only for want
/// of memory.
pub fn vector_of(alloc: Global, atoms: &[Atom], config: &Config) -> Result<Vec<bool>, NoMemory>
    requires atoms { AreAtoms (length config.now.values) atoms.now }
    requires values { AreValues config.now.values }
    ensures { IfOk result (λ made. made.items ≡ vector_at atoms.now config.now.values) }
{
    let mut made = Vec::new(alloc);
    let mut rest = atoms;
    'atoms: while let Some((atom, behind)) = cut(rest) {
        made.push(atom.truth(config))?;
        rest = behind;
    }
    Ok(made)
}

/// The truth of each formula where its tests have these truths; each of its numbers is below their count. It answers an
/// error only for want of memory.
pub fn truths_of(
    alloc: Global,
    formulas: &[Formula],
    vector: &[bool],
) -> Result<Vec<bool>, NoMemory>
    requires { All (λ f. IsBelow (length vector.now) (formula f)) formulas.now }
    ensures { IfOk result (λ made. made.items ≡ map (λ f. true_on vector.now (formula f)) formulas.now) }
{
    let mut made = Vec::new(alloc);
    for wanted in formulas {
        made.push(wanted.on(vector))?;
    }
    Ok(made)
}

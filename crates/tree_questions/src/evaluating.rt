//! Trees and tests at a configuration.
#![tactic(auto)]

ghost use Rattle.std.specs.Prelude.{◌≡◌, ◌<◌, false, length, slice_index_or};
ghost use Rattle.linear_atoms.specs.Atoms.{AreAtoms, AreValues};
ghost use Rattle.cpp_conditions.specs.Numbering.{vector_at};
ghost use Rattle.decision_tree.specs.Plain.{TestsBelow, leaf_of};
ghost use Rattle.decision_tree.specs.View.{plain};

use decision_tree::Tree;
use linear_atoms::{Atom, Config};

/// The truth of a test at a configuration, which has each feature that the atoms name.
pub(crate) fn truth_at(atoms: &[Atom], test: u32, config: &Config) -> bool
    requires atoms { AreAtoms (length config.now.values) atoms.now }
    requires values { AreValues config.now.values }
    requires test { test < length atoms.now }
    ensures { result ≡ slice_index_or (vector_at atoms.now config.now.values) test false }
{
    atoms[test as usize].truth(config)
}

/// The leaf to which the vector of a configuration leads. The configuration has each feature that the atoms name, whose numbers are the
/// tests of the tree.
pub fn leaf_at(tree: &Tree<bool>, atoms: &[Atom], config: &Config) -> bool
    requires atoms { AreAtoms (length config.now.values) atoms.now }
    requires values { AreValues config.now.values }
    requires tests { TestsBelow (length atoms.now) (plain tree.now) }
    ensures { result ≡ leaf_of (plain tree.now) (vector_at atoms.now config.now.values) }
{
    match tree {
        Tree::Leaf(leaf) => leaf.value,
        Tree::Node(node) => {
            if truth_at(atoms, node.test, config) {
                leaf_at(&node.yes, atoms, config)
            } else {
                leaf_at(&node.no, atoms, config)
            }
        }
    }
}

//! Which test of a tree is decided next. Nothing rests on it but the time.
#![tactic(auto)]

ghost use Rattle.std.specs.Prelude.{◌≡◌, ◌<◌, true, length, IfOk, IfSome};

use decision_tree::Tree;
use fam_outer::NoMemory;
use indexmap::IndexMap;
use linear_atoms::Atom;
use std::alloc::Global;

/// A tree with fewer paths is asked about by one formula, which is as long as its paths together.
const FEW_PATHS: u32 = 256;

/// How many of so many paths are left when those of a tree are taken away: none where it has as many or more.
fn paths_left(tree: &Tree<bool>, left: u32) -> u32 {
    if left == 0 {
        return 0;
    }
    match tree {
        Tree::Leaf(_) => left - 1,
        Tree::Node(node) => {
            let behind = paths_left(&node.no, left);
            paths_left(&node.yes, behind)
        }
    }
}

/// Marks the tests of a tree. A node whose number was seen is not looked at again.
fn mark_tests(
    tree: &Tree<bool>,
    seen: &mut IndexMap<u64, ()>,
    marks: &mut [bool],
) -> Result<(), NoMemory> {
    match tree {
        Tree::Leaf(_) => Ok(()),
        Tree::Node(node) => {
            if seen.insert(node.number, ())?.is_some() {
                return Ok(());
            }
            if let Some(mark) = marks.get_mut(node.test as usize) {
                *mark = true;
            }
            mark_tests(&node.no, seen, marks)?;
            mark_tests(&node.yes, seen, marks)
        }
    }
}

/// Whether a test's atom is before that of another one, if there is one.
fn is_earlier(atoms: &[Atom], test: u32, other: Option<u32>) -> bool
    ensures { result ≡ true → test < length atoms.now }
{
    match atoms.get(test as usize) {
        None => false,
        Some(atom) => match other {
            None => true,
            Some(other) => match atoms.get(other as usize) {
                None => true,
                Some(first) => atom < first,
            },
        },
    }
}

/// Of the marked tests one whose atom is before all others: it names the earliest feature, and has the least bound.
fn first_marked(atoms: &[Atom], marks: &[bool; 320]) -> Option<u32>
    ensures { IfSome result (λ test. (test < 320) × (test < length atoms.now)) }
{
    let mut first = None;
    for test in 0u32..320 {
        if marks[test as usize] && is_earlier(atoms, test, first) {
            first = Some(test);
        }
    }
    first
}

/// The test that is decided next, or none where one formula serves.
///
/// Of the tests of the tree it is the first in the order of features: so what is found where it has the truth that comes first
/// is before all that is found where it has the other, as long as no constraint links the features.
pub(crate) fn next_test(
    alloc: Global,
    atoms: &[Atom],
    tree: &Tree<bool>,
) -> Result<Option<u32>, NoMemory>
    ensures { IfOk result (λ found. IfSome found (λ test. (test < 320) × (test < length atoms.now))) }
{
    if paths_left(tree, FEW_PATHS) > 0 {
        return Ok(None);
    }
    let mut seen = IndexMap::new(alloc);
    let mut marks = [false; 320];
    mark_tests(tree, &mut seen, &mut marks)?;
    Ok(first_marked(atoms, &marks))
}

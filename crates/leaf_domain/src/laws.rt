//! What transfer keeps.
#![tactic(auto)]

ghost use Rattle.c_tree.specs.declared.tree.Mode as mode;
ghost use Rattle.std.specs.Prelude.{◌≡◌, ◌≤◌, ◌↔◌, true};
ghost use Rattle.leaf_domain.specs.Soundness.{FormsAreForms, TransferAnswers, TransferHolds, NothingStops};

use crate::leaf::Leaf;

/// The laws of transfer, over the laws of a kind of leaf and in both modes. The form of an
/// expression is a form over its variables. The transfer functions answer leaves of the kind, and
/// Nothing on Nothing. A range has each value of its expression; an assumed leaf keeps each store
/// at which the expression is as wanted; the leaves after an assignment and after an input hold each
/// store that these leave, and that where an expression has a value each store at which it has one; a statement at which a store of the leaf stops may stop with that kind;
/// and an expression that fits, where overflows wrap, has the value that it has where they stop. At
/// Nothing no statement may stop.
pub fn transfer_is_sound<L: Leaf>()
    ensures forms { FormsAreForms }
    ensures answers { (m : mode.Mode) → TransferAnswers L.meaning m }
    ensures holds { (m : mode.Mode) → TransferHolds L.meaning m }
    ensures nothing { (m : mode.Mode) → NothingStops L.meaning m }
{}

/// The laws of equality of a kind of leaf: `==` answers true exactly where the leaves are the same,
/// and leaves of the same value are the same.
pub fn equality_is_exact<L: Leaf>()
    ensures decides { (a b : L) → (L.eq a b ≡ true) ↔ (a ≡ b) }
    ensures value { (a b : L) → L.value a ≡ L.value b → a ≡ b }
{}

/// Each leaf has one of the values of its kind, of at most 48 variables. A law of the trait can't say
/// so of every leaf, so it is a clause of `Leaf::variables`, and a proof learns it from a call: generic
/// code makes this one, which does nothing, where a proof needs it.
pub fn leaf_is_valid<L: Leaf>(leaf: &L)
    ensures few { (L.value leaf.now).variables ≤ 48 }
    ensures valid { L.meaning.valid (L.value leaf.now) }
{
    let _count = leaf.variables();
}

//! What holds of the definitions alone.
#![tactic(auto)]

ghost use Rattle.std.specs.Prelude.{◌≡◌, Bool, List, Option, length};
ghost use Rattle.linear_atoms.specs.declared.atoms.Atom.{Atom};
ghost use Rattle.linear_atoms.specs.declared.atoms.Feature.{Feature};
ghost use Rattle.linear_atoms.specs.Atoms.{AreRanges, IsAtom, IsDecided};
ghost use Rattle.linear_atoms.specs.Ranges.{decided_of};

#[tactic(auto, using(crate::proofs::Extremes::decided_so, crate::proofs::Extremes::decided_once))]
/// The least and the greatest sum over the ranges tell what every configuration within them says of a well-formed
/// atom: a truth where each has it, and nothing where some have each.
pub fn sums_decide_atoms()
    ensures said { (features : List Feature) (atom : Atom) → AreRanges features
        → IsAtom (length features) atom
        → IsDecided features atom (decided_of features atom) }
    ensures once { (features : List Feature) (atom : Atom) (said : Option Bool) → AreRanges features
        → IsAtom (length features) atom → IsDecided features atom said → said ≡ decided_of features atom }
{}

//! Atoms are looked for where they are expected in a list that rises, before they are compared one by one.
#![tactic(auto)]

ghost use Rattle.std.specs.Prelude.{◌≡◌, slice_get, IfSome, Some};

use linear_atoms::Atom;
use std::cmp::Ordering;

/// The first place in a list that rises whose atom does not come before this one, by halving; in another list it is any place.
fn likely_place(atoms: &[Atom], atom: &Atom) -> usize {
    let mut low: usize = 0;
    let mut high: usize = atoms.len();
    for _halving in 0..usize::BITS {
        if low >= high {
            return low;
        }
        let middle = low.saturating_add(high.saturating_sub(low) / 2);
        match atoms.get(middle) {
            None => return low,
            Some(other) => match other.cmp(atom) {
                Ordering::Less => low = middle.saturating_add(1),
                Ordering::Equal => return middle,
                Ordering::Greater => high = middle,
            },
        }
    }
    low
}

/// The place of an atom, found by halving; in a list that does not rise it may be missed.
pub(crate) fn expected_place(atoms: &[Atom], atom: &Atom) -> Option<usize>
    ensures { IfSome result (λ place. slice_get atoms.now place ≡ Some atom.now) }
{
    let place = likely_place(atoms, atom);
    match atoms.get(place) {
        None => None,
        Some(other) => { if other == atom { Some(place) } else { None } }
    }
}

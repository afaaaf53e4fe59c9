//! Places in a text.
#![tactic(auto)]

ghost use Rattle.std.specs.Prelude.{◌≡◌, ℕ, ◌<◌, ◌≤◌, ◌+◌, ◌^◌, IsTrue, List, [], ◌∷◌, ◌++◌, length};
ghost use Rattle.fam_outer.specs.Places.{end_place, place_at, is_before};

use crate::faults::Place;

/// A later byte of a text has a later place.
pub fn places_rise()
    ensures { (text : List ℕ) (i j : ℕ) → i < j → j ≤ length text
        → IsTrue (is_before (place_at text i) (place_at text j)) }
{}

/// The place behind a byte that stands at this place.
pub fn place_after(b: u8, place: Place) -> Place
    requires line { place.line < 2 ^ 31 }
    requires column { place.column < 2 ^ 31 }
    ensures value { (front : List ℕ) → place ≡ end_place front → result ≡ end_place (front ++ b ∷ []) }
    ensures line { result.line ≤ place.line + 1 }
    ensures column { result.column ≤ place.column + 1 }
    ensures positive { 1 ≤ place.column → 1 ≤ result.column }
{
    if b == b'\n' {
        Place {
            line: place.line + 1,
            column: 1,
        }
    } else {
        Place {
            line: place.line,
            column: place.column + 1,
        }
    }
}

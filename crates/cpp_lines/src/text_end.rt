//! The end of a text.
#![tactic(auto)]

ghost use Rattle.std.specs.Prelude.{◌≡◌, ◌≤◌, length};
ghost use Rattle.fam_outer.specs.Places as places;

use fam_outer::{FILE_BYTES, Place, place_after};

/// The place at which a text ends: its line is 1 and the number of newlines, and its column 1 and the number of bytes
/// behind the last newline.
pub fn end_place(bytes: &[u8]) -> Place
    requires { length bytes.now ≤ FILE_BYTES }
    ensures { result ≡ places.end_place bytes.now }
{
    let mut place = Place { line: 1, column: 1 };
    for b in bytes {
        place = place_after(*b, place);
    }
    place
}

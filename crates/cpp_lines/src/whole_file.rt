//! A whole file without its comments.
#![tactic(auto)]

ghost use Rattle.std.specs.Prelude.{◌≤◌, length, IfOk};
ghost use Rattle.fam_outer.specs.Refusals.{Gives};
ghost use Rattle.cpp_lines.specs.Whole as specs;

use crate::laws::places_stay;
use crate::without_comments::blank_comments;
use fam_outer::{FILE_BYTES, FileCode, FileRefusal, Place, Text};
use std::alloc::Global;

/// The file with each byte of a comment but a newline a space. It answers `TooLong` at 1:1 for more than 1,048,576 bytes,
/// and else what `blank_comments` does.
pub fn blanked_file(alloc: Global, bytes: &[u8]) -> Result<Text, FileRefusal>
    ensures value { Gives (λ text. text) result (specs.blanked_file bytes.now) }
    ensures short { IfOk result (λ text. length text ≤ FILE_BYTES) }
    ensures limited { IfOk result (λ _. length bytes.now ≤ FILE_BYTES) }
{
    places_stay();
    if bytes.len() > FILE_BYTES {
        return Err(FileRefusal::Fault {
            code: FileCode::TooLong,
            place: Place { line: 1, column: 1 },
        });
    }
    blank_comments(alloc, bytes)
}

//! The lines of a blanked text.
#![tactic(auto)]

ghost use Rattle.std.specs.Prelude.{◌≡◌, ◌≤◌, ◌<◌, ◌+◌, false, [], ◌∷◌, ◌++◌, length, IfOk, MatchOption};
ghost use Rattle.std.specs.List.{list_any};
ghost use Rattle.fam_outer.specs.Places.{is_newline};
ghost use Rattle.fam_outer.specs.Refusals.{Gives};
ghost use Rattle.cpp_lines.specs.Lines as specs;

use crate::bytes::{gap_len, line_len};
use crate::directives::{begins_directive, plain_kind};
use crate::line::{Line, Lines};
use fam_outer::{FILE_BYTES, FileRefusal, Includes, Place, cut};
use std::alloc::Global;

/// The first line, and what stands behind its newline; none where no newline comes.
pub(crate) fn cut_line(bytes: &[u8]) -> Option<(&[u8], &[u8])>
    ensures { MatchOption result (specs.pieces bytes.now ≡ bytes.now ∷ [])
        (λ x. (specs.pieces bytes.now ≡ x.0.now ∷ specs.pieces x.1.now)
        × (bytes.now ≡ x.0.now ++ 10 ∷ x.1.now) × (list_any is_newline x.0.now ≡ false)) }
{
    let (line, behind) = bytes.split_at(line_len(bytes));
    match cut(behind) {
        None => None,
        Some((_, rest)) => Some((line, rest)),
    }
}

/// The place of `#` in a directive line, and of the first byte of another line.
pub(crate) fn line_place(first: Place, line: &[u8]) -> Place
    requires short { length line.now ≤ FILE_BYTES }
    requires column { first.column ≤ 1 }
    ensures { result ≡ specs.line_place first line.now }
{
    if !begins_directive(line) {
        return first;
    }
    Place {
        line: first.line,
        column: first.column + gap_len(line) as u32,
    }
}

/// A line whose first byte stands at this offset and place, or its fault.
fn plain_line(
    includes: Includes,
    start: u32,
    first: Place,
    line: &[u8],
) -> Result<Line, FileRefusal>
    requires short { start + length line.now ≤ FILE_BYTES }
    requires column { first.column ≤ 1 }
    ensures { Gives (λ line. line) result (specs.plain_line includes start first line.now) }
{
    let place = line_place(first, line);
    match plain_kind(includes, line) {
        Ok(kind) => Ok(Line {
            kind,
            start,
            end: start + line.len() as u32,
            place,
        }),
        Err(code) => Err(FileRefusal::Fault { code, place }),
    }
}

/// The lines of a blanked text that has no groups.
///
/// Its lines are the pieces between its newlines, so there is one more than there are newlines, and each is code, an
/// include or a definition. It answers `Directive` at the `#` of a directive that is none of the six group directives `if`, `ifdef`,
/// `ifndef`, `elif`, `else` and `endif`, nor `include` with exactly `<assert.h>`, or where includes are skipped with
/// anything, nor `define` with a name and a constant, and of `else` or `endif` with text behind it; and `GroupHere` at the `#` of any other group directive. The
/// first place decides. It answers `NoMemory` for want of memory.
pub fn plain_lines(alloc: Global, includes: Includes, blanked: &[u8]) -> Result<Lines, FileRefusal>
    requires { length blanked.now ≤ FILE_BYTES }
    ensures value { Gives (λ lines. lines) result (specs.plain_lines_of includes blanked.now) }
    ensures lines { IfOk result (λ lines. specs.AreLinesOf blanked.now lines) }
{
    let mut list = Vec::new(alloc);
    let mut first = Place { line: 1, column: 1 };
    let mut start: u32 = 0;
    let mut rest = blanked;
    'lines: while let Some((line, behind)) = cut_line(rest) {
        list.push(plain_line(includes, start, first, line)?)?;
        first.line += 1;
        start += line.len() as u32 + 1;
        rest = behind;
    }
    list.push(plain_line(includes, start, first, rest)?)?;
    Ok(Lines::from_vec(list))
}

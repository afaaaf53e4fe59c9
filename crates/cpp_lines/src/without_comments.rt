//! The text without its comments, or its first fault.
#![tactic(auto)]

ghost use Rattle.std.specs.Prelude.{◌≡◌, ◌≤◌, ◌+◌, ◌-◌, ◌&&◌, ◌||◌, ℕ, List, length, take, drop};
ghost use Rattle.std.specs.List.{list_any};
ghost use Rattle.fam_outer.specs.Places.{is_newline, last_line};
ghost use Rattle.fam_outer.specs.Refusals.{Gives};
ghost use Rattle.cpp_lines.specs.Comments as comments;
ghost use Rattle.cpp_lines.specs.Directives as directives;
ghost use Rattle.cpp_lines.specs.Faults as specs;

use crate::bytes::{begins_with, has_first};
use crate::comments::{blank, block_len, comment_left, comment_len};
use crate::directives::begins_directive;
use fam_outer::{FILE_BYTES, FileCode, FileRefusal, Place, Text, cut, place_after};
use std::alloc::Global;

/// Whether a comment opens at the front with `/*` and does not end.
fn is_open(bytes: &[u8]) -> bool
    ensures { result ≡ specs.is_open bytes.now }
{
    begins_with(b'/', b'*', bytes) && block_len(&bytes[2..]).is_none()
}

/// Whether a line ends at the front: with a newline, or with a carriage return and a newline.
fn ends_line(bytes: &[u8]) -> bool
    ensures { result ≡ specs.ends_line bytes.now }
{
    has_first(b'\n', bytes) || begins_with(b'\r', b'\n', bytes)
}

/// Whether a backslash, or the trigraph `??/` that means one, comes first, directly before the end of a line
/// (ISO/IEC 9899:2011, 5.1.1.2 and 5.2.1.1).
fn is_splice(bytes: &[u8]) -> bool
    ensures { result ≡ specs.is_splice bytes.now }
{
    match bytes {
        [b'\\', behind @ ..] => ends_line(behind),
        [b'?', b'?', b'/', behind @ ..] => ends_line(behind),
        _ => false,
    }
}

/// How many bytes stand behind the last newline.
fn last_line_len(bytes: &[u8]) -> usize
    ensures value { result ≡ length (last_line bytes.now) }
    ensures within { result ≤ length bytes.now }
{
    let mut len: usize = 0;
    for b in bytes {
        if *b == b'\n' {
            len = 0;
        } else {
            len += 1;
        }
    }
    len
}

/// Whether a comment has a newline, and its first or its last line is a directive line. It stands at an offset of the
/// blanked text, and so many bytes of its first line stand before it.
fn touches_directive(blanked: &[u8], offset: usize, before: usize, comment: &[u8]) -> bool
    requires before { before ≤ offset }
    requires within { offset + length comment.now ≤ length blanked.now }
    ensures { result ≡ (list_any is_newline comment.now &&
        (directives.begins_directive (drop (offset - before) blanked.now)
        || directives.begins_directive (drop (offset + length comment.now - length (last_line comment.now)) blanked.now))) }
{
    if !comment.contains(&b'\n') {
        return false;
    }
    let last = offset + comment.len() - last_line_len(comment);
    begins_directive(&blanked[offset - before..]) || begins_directive(&blanked[last..])
}

/// The fault of the comment that opens at an offset, where so many bytes of its line stand before it.
fn comment_fault(blanked: &[u8], offset: usize, before: usize, rest: &[u8]) -> Option<FileCode>
    requires before { before ≤ offset }
    requires within { offset + length rest.now ≤ length blanked.now }
    ensures { (text : List ℕ) → blanked.now ≡ comments.blank text → rest.now ≡ drop offset text
        → before ≡ length (last_line (take offset text)) → result ≡ specs.comment_fault text offset rest.now }
{
    if is_open(rest) {
        return Some(FileCode::OpenComment);
    }
    let (comment, _) = rest.split_at(comment_len(rest));
    if touches_directive(blanked, offset, before, comment) {
        return Some(FileCode::CommentAtDirective);
    }
    None
}

/// The fault at an offset, where so many bytes of its line stand before it and so many are left of a comment.
fn fault_at(
    blanked: &[u8],
    offset: usize,
    before: usize,
    left: usize,
    rest: &[u8],
) -> Option<FileCode>
    requires before { before ≤ offset }
    requires within { offset + length rest.now ≤ length blanked.now }
    ensures { (text : List ℕ) → blanked.now ≡ comments.blank text → rest.now ≡ drop offset text
        → before ≡ length (last_line (take offset text)) → result ≡ specs.fault_at text offset left rest.now }
{
    if is_splice(rest) {
        return Some(FileCode::Splice);
    }
    if left > 0 {
        return None;
    }
    comment_fault(blanked, offset, before, rest)
}

/// The first fault of a text at its comments and line ends.
fn first_fault(bytes: &[u8], blanked: &[u8]) -> Option<(FileCode, Place)>
    requires short { length bytes.now ≤ FILE_BYTES }
    requires blanked { blanked.now ≡ comments.blank bytes.now }
    ensures { result ≡ specs.first_fault bytes.now }
{
    let mut place = Place { line: 1, column: 1 };
    let mut at: usize = 0;
    let mut left: usize = 0;
    let mut rest = bytes;
    'scan: while let Some((b, behind)) = cut(rest) {
        let before = (place.column - 1) as usize;
        if let Some(code) = fault_at(blanked, at, before, left, rest) {
            return Some((code, place));
        }
        left = comment_left(left, rest).saturating_sub(1);
        place = place_after(b, place);
        at += 1;
        rest = behind;
    }
    None
}

/// The text with each byte of a comment but a newline a space, so that all places stay.
///
/// A comment opens with `/*` and ends with `*/`, or opens with `//` and ends before the newline. It answers `OpenComment`
/// at a `/*` without its end; `Splice` at a backslash, or at the trigraph `??/` that means one, directly before a newline,
/// or before a carriage return and a newline, also in a comment (ISO/IEC 9899:2011, 5.1.1.2 and 5.2.1.1); and
/// `CommentAtDirective` at a comment with a newline whose first or last line is a directive line of the blanked text.
/// The first place decides, and at one place the lowest code. It answers `NoMemory` for want of memory.
pub fn blank_comments(alloc: Global, bytes: &[u8]) -> Result<Text, FileRefusal>
    requires { length bytes.now ≤ FILE_BYTES }
    ensures { Gives (λ text. text) result (specs.without_comments bytes.now) }
{
    let blanked = blank(alloc, bytes)?;
    match first_fault(bytes, blanked.bytes()) {
        Some((code, place)) => Err(FileRefusal::Fault { code, place }),
        None => Ok(blanked),
    }
}

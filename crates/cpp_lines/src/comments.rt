//! Comments, and the text without them (ISO/IEC 9899:2011, 6.4.9).
#![tactic(auto)]

ghost use Rattle.std.specs.Prelude.{◌≡◌, ◌≤◌, length, IfOk, IfSome};
ghost use Rattle.cpp_lines.specs.Comments as specs;

use crate::bytes::{begins_with, line_len};
use fam_outer::{NoMemory, Text, cut};
use std::alloc::Global;

/// How many bytes stand up to the end of the first `*/`.
pub(crate) fn block_len(bytes: &[u8]) -> Option<usize>
    ensures value { result ≡ specs.block_len bytes.now }
    ensures within { IfSome result (λ len. len ≤ length bytes.now) }
{
    let mut passed: usize = 0;
    let mut rest = bytes;
    'search: while let Some((_, behind)) = cut(rest) {
        if begins_with(b'*', b'/', rest) {
            return Some(passed + 2);
        }
        passed += 1;
        rest = behind;
    }
    None
}

/// How many bytes the comment at the front has; 0 where none opens there.
pub(crate) fn comment_len(bytes: &[u8]) -> usize
    ensures value { result ≡ specs.comment_len bytes.now }
    ensures within { result ≤ length bytes.now }
{
    if begins_with(b'/', b'*', bytes) {
        match block_len(&bytes[2..]) {
            Some(len) => 2 + len,
            None => bytes.len(),
        }
    } else if begins_with(b'/', b'/', bytes) {
        line_len(bytes)
    } else {
        0
    }
}

/// How many bytes of a comment stand from here on, where so many are left of one.
pub(crate) fn comment_left(left: usize, bytes: &[u8]) -> usize
    ensures { result ≡ specs.comment_left left bytes.now }
{
    if left == 0 { comment_len(bytes) } else { left }
}

/// What becomes of a byte, where so many bytes of a comment stand from it on.
fn blanked_byte(left: usize, b: u8) -> u8
    ensures { result ≡ specs.blanked_byte left b }
{
    if left == 0 || b == b'\n' { b } else { b' ' }
}

/// The text with each byte of a comment but a newline a space. A comment without its end goes to the end of the text.
pub(crate) fn blank(alloc: Global, bytes: &[u8]) -> Result<Text, NoMemory>
    ensures { IfOk result (λ text. text ≡ specs.blank bytes.now) }
{
    let mut list = Vec::new(alloc);
    let mut left: usize = 0;
    let mut rest = bytes;
    'blank: while let Some((b, behind)) = cut(rest) {
        let here = comment_left(left, rest);
        list.push(blanked_byte(here, b))?;
        left = here.saturating_sub(1);
        rest = behind;
    }
    Ok(Text::from_vec(list))
}

//! The code of a blanked text.
#![tactic(auto)]

ghost use Rattle.std.specs.Prelude.{◌≡◌, ◌++◌, IfOk, OnOk};
ghost use Rattle.cpp_lines.specs.Bytes.{behind_word};
ghost use Rattle.cpp_lines.specs.Code as specs;
ghost use Rattle.cpp_lines.specs.Directives.{behind_hash};

use crate::bytes::split_word;
use crate::directives::{Directive, begins_directive, behind_hash, directive_of};
use crate::lines::cut_line;
use c_tokens::DEFINITION_BYTE;
use fam_outer::{NoMemory, Text};
use std::alloc::Global;

/// A byte that no token and no character constant has.
const STRAY_BYTE: u8 = 2;

/// What bytes leave: those of code all but the mark of a definition, those of `#define` this mark in place of `#`, and
/// those of another directive line spaces alone.
#[derive(Clone, Copy)]
pub enum Leaves {
    Code,
    Mark,
    Spaces,
}

/// What a byte leaves.
fn byte_left(leaves: Leaves, b: u8) -> u8
    ensures { result ≡ specs.byte_left leaves b }
{
    match leaves {
        Leaves::Code => { if b == DEFINITION_BYTE { STRAY_BYTE } else { b } }
        Leaves::Mark => { if b == b'#' { DEFINITION_BYTE } else { b' ' } }
        Leaves::Spaces => b' ',
    }
}

/// Adds what the bytes leave.
fn add_bytes(code: &mut Vec<u8>, leaves: Leaves, bytes: &[u8]) -> Result<(), NoMemory>
    ensures { OnOk result (code.new.items ≡ code.old.items ++ specs.code_bytes leaves bytes.now) }
{
    for b in bytes {
        code.push(byte_left(leaves, *b))?;
    }
    Ok(())
}

/// Adds what a definition leaves, of which this stands behind `define`: the mark, and its name and constant.
fn add_definition(code: &mut Vec<u8>, line: &[u8], rest: &[u8]) -> Result<(), NoMemory>
    requires { rest.now ≡ behind_word (behind_hash line.now) }
    ensures { OnOk result (code.new.items ≡ code.old.items ++ specs.definition_code line.now) }
{
    let (front, behind) = line.split_at(line.len().saturating_sub(rest.len()));
    add_bytes(code, Leaves::Mark, front)?;
    code.extend_from_slice(behind)?;
    Ok(())
}

/// Adds what a line leaves.
fn add_line(code: &mut Vec<u8>, line: &[u8]) -> Result<(), NoMemory>
    ensures { OnOk result (code.new.items ≡ code.old.items ++ specs.code_piece line.now) }
{
    if !begins_directive(line) {
        return add_bytes(code, Leaves::Code, line);
    }
    let behind = behind_hash(line);
    match directive_of(behind) {
        Some(Directive::Define) => add_definition(code, line, split_word(behind).1),
        _ => add_bytes(code, Leaves::Spaces, line),
    }
}

/// The code of a blanked text: each byte of a directive line becomes a space, but that of a definition its name and its
/// constant stay, and its `#` becomes the mark of a definition. The newlines stay, and so do all places. A byte that
/// could be taken for this mark becomes one that no token has. It answers `NoMemory` for want of memory.
pub fn code_text(alloc: Global, blanked: &[u8]) -> Result<Text, NoMemory>
    ensures { IfOk result (λ text. text ≡ specs.code_of blanked.now) }
{
    let mut code = Vec::new(alloc);
    let mut rest = blanked;
    'lines: while let Some((line, behind)) = cut_line(rest) {
        add_line(&mut code, line)?;
        code.push(b'\n')?;
        rest = behind;
    }
    add_line(&mut code, rest)?;
    Ok(Text::from_vec(code))
}

//! The text of a variant: the lines that stay where each condition has a truth (ISO/IEC 9899:2011, 6.10.1).
#![tactic(auto)]

ghost use Rattle.std.specs.Prelude.{◌≡◌, ◌++◌, IfOk, OnOk};
ghost use Rattle.cpp_groups.specs.Kept as groups;
ghost use Rattle.cpp_lines.specs.Lines as lists;
ghost use Rattle.cpp_lines.specs.Preprocessed as kept;

use crate::line::{Line, LineKind};
use crate::lines::cut_line;
use cpp_groups::{GroupDirective, OpenSections};
use fam_outer::{NoMemory, Text, cut};
use std::alloc::Global;

/// The group directive of a line.
fn group_of(kind: LineKind) -> Option<GroupDirective>
    ensures { result ≡ kept.group_of kind }
{
    match kind {
        LineKind::Code => None,
        LineKind::Include => None,
        LineKind::Define => None,
        LineKind::If(number) => Some(GroupDirective::If(number)),
        LineKind::Elif(number) => Some(GroupDirective::Elif(number)),
        LineKind::Else => Some(GroupDirective::Else),
        LineKind::Endif => Some(GroupDirective::Endif),
    }
}

/// Whether a line of this kind stays where its groups are kept: code, or a definition.
fn stays(kind: LineKind) -> bool
    ensures { result ≡ lists.stays kind }
{
    match kind {
        LineKind::Code => true,
        LineKind::Define => true,
        _ => false,
    }
}

/// Adds a line where it stays, and goes on behind it.
fn add_line(
    out: &mut Vec<u8>,
    sections: &mut OpenSections,
    truths: &[bool],
    kind: LineKind,
    piece: &[u8],
) -> Result<(), NoMemory>
    ensures text { OnOk result (out.new.items ≡ out.old.items ++ kept.kept_line sections.old kind piece.now) }
    ensures sections { OnOk result (sections.new
        ≡ groups.sections_after truths.now sections.old (kept.group_of kind)) }
{
    if stays(kind) && sections.are_kept() {
        out.extend_from_slice(piece)?;
    }
    match group_of(kind) {
        None => Ok(()),
        Some(directive) => sections.follow(truths, directive),
    }
}

/// The text of a variant of a blanked text, whose conditions have these truths.
///
/// A line stays as it is where it is code or a definition, and each group around it is the kept one of its section: the first
/// whose condition is true, else that of `#else`. Every other line becomes empty. The newlines stay, and so do all
/// places. A condition without a truth is false. The lines are those of the text. It answers `NoMemory` for want of
/// memory.
pub fn preprocessed_text(
    alloc: Global,
    blanked: &[u8],
    lines: &[Line],
    truths: &[bool],
) -> Result<Text, NoMemory>
    requires lines { lists.AreLinesOf blanked.now lines.now }
    ensures { IfOk result (λ text. text ≡ kept.preprocessed truths.now lines.now blanked.now) }
{
    let mut out = Vec::new(alloc);
    let mut sections = OpenSections::new(alloc);
    let mut rest = blanked;
    let mut left = lines;
    'lines: while let Some((piece, more)) = cut_line(rest) {
        let Some((line, behind)) = cut(left) else {
            unreachable!();
        };
        add_line(&mut out, &mut sections, truths, line.kind, piece)?;
        out.push(b'\n')?;
        rest = more;
        left = behind;
    }
    let Some((line, _)) = cut(left) else {
        unreachable!();
    };
    add_line(&mut out, &mut sections, truths, line.kind, rest)?;
    Ok(Text::from_vec(out))
}

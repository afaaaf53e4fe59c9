//! The names that the lines of a text define.
#![tactic(auto)]

ghost use Rattle.std.specs.Prelude.{◌≡◌, ◌++◌, IfOk, OnOk};
ghost use Rattle.cpp_lines.specs.Defined as specs;
ghost use Rattle.cpp_lines.specs.Lines as lists;
ghost use Rattle.cpp_lines.specs.Taking.{plain_names};

use crate::bytes::{behind_gap, split_word};
use crate::directives::{Directive, begins_directive, behind_hash, directive_of};
use crate::lines::cut_line;
use fam_outer::NoMemory;
use std::alloc::Global;

/// Adds the name that a line defines, where it is a definition.
pub(crate) fn add_name<'a>(names: &mut Vec<&'a [u8]>, line: &'a [u8]) -> Result<(), NoMemory>
    ensures { OnOk result (plain_names names.new.items ≡ plain_names names.old.items ++ specs.names_in line.now) }
{
    if !begins_directive(line) {
        return Ok(());
    }
    let behind = behind_hash(line);
    match directive_of(behind) {
        Some(Directive::Define) => {
            let (_, rest) = split_word(behind);
            let (name, _) = split_word(behind_gap(rest));
            names.push(name)?;
            Ok(())
        }
        _ => Ok(()),
    }
}

/// The names that the lines of a text define, in their order.
pub(crate) fn names_of<'a>(alloc: Global, blanked: &'a [u8]) -> Result<Vec<&'a [u8]>, NoMemory>
    ensures { IfOk result (λ names. plain_names names.items ≡ specs.names_of (lists.pieces blanked.now)) }
{
    let mut names = Vec::new(alloc);
    let mut rest = blanked;
    'lines: while let Some((line, behind)) = cut_line(rest) {
        add_name(&mut names, line)?;
        rest = behind;
    }
    add_name(&mut names, rest)?;
    Ok(names)
}

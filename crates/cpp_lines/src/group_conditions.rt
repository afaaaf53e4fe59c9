//! The conditions of group directives (ISO/IEC 9899:2011, 6.10.1).
#![tactic(auto)]

ghost use Rattle.std.specs.Prelude.{◌≡◌, ◌++◌, option_map, IfOk};
ghost use Rattle.cpp_conditions.specs.Macros.{macros as plain_macros};
ghost use Rattle.cpp_conditions.specs.Naming.{AreFeatures};
ghost use Rattle.cpp_lines.specs.GroupConditions as asked;
ghost use Rattle.cpp_lines.specs.Taking as taking;

use crate::bytes::{behind_gap, is, is_gap_only, split_word};
use crate::directives::{Directive, begins_directive, behind_hash, directive_of};
use c_words::is_digit;
use cpp_conditions::{Condition, ConditionRefusal, Macros, read_condition};
use fam_outer::{ConditionFault, NoMemory, Text, cut};
use linear_atoms::Feature;
use std::alloc::Global;

/// The bytes that spell a condition, or the fault of a directive without them.
pub(crate) type ConditionText = Result<Text, ConditionFault>;

/// Whether letters, digits and underscores are an identifier: the first is no digit.
fn is_name(word: &[u8]) -> bool
    ensures { result ≡ asked.is_name word.now }
{
    match cut(word) {
        None => false,
        Some((b, _)) => !is_digit(b),
    }
}

/// The identifier that stands alone, with white space before and behind it, and is not `defined`.
fn name_in(rest: &[u8]) -> Option<&[u8]>
    ensures { option_map (λ name. name.now) result ≡ asked.name_in rest.now }
{
    let (word, behind) = split_word(behind_gap(rest));
    if is_name(word) && !is(word, "defined") && is_gap_only(behind) {
        Some(word)
    } else {
        None
    }
}

/// The bytes behind others.
fn joined(alloc: Global, front: &str, back: &[u8]) -> Result<Text, NoMemory>
    ensures { IfOk result (λ text. text ≡ front.now ++ back.now) }
{
    let mut bytes = Vec::from_slice(alloc, front.as_bytes())?;
    bytes.extend_from_slice(back)?;
    Ok(Text::from_vec(bytes))
}

/// The text of the condition that the lone identifier makes with what stands before it.
fn behind_prefix(alloc: Global, prefix: &str, rest: &[u8]) -> Result<ConditionText, NoMemory>
    ensures { IfOk result (λ text. text ≡ asked.behind_prefix prefix.now (asked.name_in rest.now)) }
{
    match name_in(rest) {
        None => Ok(Err(ConditionFault::Syntax)),
        Some(name) => Ok(Ok(joined(alloc, prefix, name)?)),
    }
}

/// The text of a directive's condition, where this stands behind the name.
fn condition_text(
    alloc: Global,
    directive: Option<Directive>,
    rest: &[u8],
) -> Result<Option<ConditionText>, NoMemory>
    ensures { IfOk result (λ found. found ≡ asked.condition_text directive rest.now) }
{
    match directive {
        None => Ok(None),
        Some(Directive::If) => Ok(Some(Ok(Text::from_bytes(alloc, rest)?))),
        Some(Directive::Elif) => Ok(Some(Ok(Text::from_bytes(alloc, rest)?))),
        Some(Directive::Ifdef) => Ok(Some(behind_prefix(alloc, "defined ", rest)?)),
        Some(Directive::Ifndef) => Ok(Some(behind_prefix(alloc, "!defined ", rest)?)),
        Some(Directive::Include) => Ok(None),
        Some(Directive::OtherInclude) => Ok(None),
        Some(Directive::Else) => Ok(None),
        Some(Directive::Endif) => Ok(None),
        Some(Directive::Define) => Ok(None),
    }
}

/// The text of a line's condition, where it has one. It answers an error only for want of memory.
pub(crate) fn condition_in(alloc: Global, line: &[u8]) -> Result<Option<ConditionText>, NoMemory>
    ensures { IfOk result (λ found. found ≡ asked.condition_in line.now) }
{
    if !begins_directive(line) {
        return Ok(None);
    }
    let behind = behind_hash(line);
    let (_, rest) = split_word(behind);
    condition_text(alloc, directive_of(behind), rest)
}

/// The condition that a text spells, or its fault.
pub(crate) fn read_text(
    alloc: Global,
    macros: Macros<'_>,
    features: &[Feature],
    text: &ConditionText,
) -> Result<Condition, ConditionRefusal>
    requires { AreFeatures features.now }
    ensures { taking.ReadsText (plain_macros macros.entry) features.now text.now result }
{
    match text {
        Ok(bytes) => read_condition(alloc, macros, features, bytes.bytes()),
        Err(fault) => Err(ConditionRefusal::Fault(*fault)),
    }
}

//! Directive lines (ISO/IEC 9899:2011, 6.10).
#![tactic(auto)]

ghost use Rattle.std.specs.Prelude.{◌≡◌, true, map};
ghost use Rattle.cpp_lines.specs.Directives as specs;
ghost use Rattle.cpp_lines.specs.declared.directives.Directive.TheVariants.{Define};

use crate::bytes::{behind_gap, has_first, is, is_gap_only, split_word};
use crate::definitions::is_definition_text;
use crate::line::LineKind;
use fam_outer::{FileCode, Includes};

/// A known directive. `Include` is that of `<assert.h>`, and the name of all includes.
#[derive(Clone, Copy, Debug, PartialEq, Eq)]
pub(crate) enum Directive {
    Include,
    OtherInclude,
    If,
    Ifdef,
    Ifndef,
    Elif,
    Else,
    Endif,
    Define,
}

/// The names of the known directives.
const NAMES: [(&str, Directive); 8] = [
    ("include", Directive::Include),
    ("if", Directive::If),
    ("ifdef", Directive::Ifdef),
    ("ifndef", Directive::Ifndef),
    ("elif", Directive::Elif),
    ("else", Directive::Else),
    ("endif", Directive::Endif),
    ("define", Directive::Define),
];

/// Whether the line at the front is a directive line: its first byte that is not white space is `#`.
pub(crate) fn begins_directive(bytes: &[u8]) -> bool
    ensures { result ≡ specs.begins_directive bytes.now }
{
    has_first(b'#', behind_gap(bytes))
}

/// The directive that a table gives a word.
fn directive_in(table: &[(&str, Directive)], word: &[u8]) -> Option<Directive>
    ensures { result ≡ specs.directive_in (map (λ entry. (entry.0.now, entry.1)) table.now) word.now }
{
    for (name, directive) in table {
        if is(word, *name) {
            return Some(*directive);
        }
    }
    None
}

/// The directive with this name.
pub(crate) fn directive_named(word: &[u8]) -> Option<Directive>
    ensures { result ≡ specs.directive_named word.now }
{
    directive_in(&NAMES, word)
}

/// Exactly `<assert.h>`, with white space before and behind it.
fn is_assert_header(bytes: &[u8]) -> bool
    ensures { result ≡ specs.is_assert_header bytes.now }
{
    let name = behind_gap(bytes);
    let (front, behind) = name.split_at(name.len().min(10));
    is(front, "<assert.h>") && is_gap_only(behind)
}

/// The include with this behind its name: of `<assert.h>`, or of anything else.
fn include_of(rest: &[u8]) -> Directive
    ensures { result ≡ specs.include_of rest.now }
{
    if is_assert_header(rest) {
        Directive::Include
    } else {
        Directive::OtherInclude
    }
}

/// The directive, where nothing but white space stands behind its name.
fn alone(directive: Directive, rest: &[u8]) -> Option<Directive>
    ensures { result ≡ specs.alone directive rest.now }
{
    if is_gap_only(rest) {
        Some(directive)
    } else {
        None
    }
}

/// A definition, where a name, white space and a constant stand behind `define`.
fn definition(rest: &[u8]) -> Option<Directive>
    ensures { result ≡ specs.with_rest Define rest.now }
{
    if is_definition_text(rest) {
        Some(Directive::Define)
    } else {
        None
    }
}

/// The directive of this name with this behind it; none, where this may not stand there.
fn with_rest(directive: Directive, rest: &[u8]) -> Option<Directive>
    ensures { result ≡ specs.with_rest directive rest.now }
{
    match directive {
        Directive::Include => Some(include_of(rest)),
        Directive::OtherInclude => Some(Directive::OtherInclude),
        Directive::Else => alone(Directive::Else, rest),
        Directive::Endif => alone(Directive::Endif, rest),
        Directive::If => Some(Directive::If),
        Directive::Ifdef => Some(Directive::Ifdef),
        Directive::Ifndef => Some(Directive::Ifndef),
        Directive::Elif => Some(Directive::Elif),
        Directive::Define => definition(rest),
    }
}

/// The directive of what stands behind `#`; none, where it is no known one, or `else` or `endif` with text behind it, or
/// `define` without a name and a constant.
pub(crate) fn directive_of(bytes: &[u8]) -> Option<Directive>
    ensures { result ≡ specs.directive_of bytes.now }
{
    let (word, rest) = split_word(bytes);
    match directive_named(word) {
        None => None,
        Some(directive) => with_rest(directive, rest),
    }
}

/// The fault of an include of anything but `<assert.h>`.
pub(crate) fn include_fault(includes: Includes) -> Option<FileCode>
    ensures { result ≡ specs.include_fault includes }
{
    match includes {
        Includes::Assert => Some(FileCode::Directive),
        Includes::Skip => None,
    }
}

/// What stands behind `#` and white space in a directive line.
pub(crate) fn behind_hash(line: &[u8]) -> &[u8]
    requires { specs.begins_directive line.now ≡ true }
    ensures { result.now ≡ specs.behind_hash line.now }
{
    behind_gap(&behind_gap(line)[1..])
}

/// The kind of a line without a model.
pub(crate) fn plain_kind(includes: Includes, line: &[u8]) -> Result<LineKind, FileCode>
    ensures { result ≡ specs.plain_kind includes line.now }
{
    if !begins_directive(line) {
        return Ok(LineKind::Code);
    }
    match directive_of(behind_hash(line)) {
        None => Err(FileCode::Directive),
        Some(Directive::Include) => Ok(LineKind::Include),
        Some(Directive::OtherInclude) => match include_fault(includes) {
            None => Ok(LineKind::Include),
            Some(code) => Err(code),
        },
        Some(Directive::Define) => Ok(LineKind::Define),
        Some(_) => Err(FileCode::GroupHere),
    }
}

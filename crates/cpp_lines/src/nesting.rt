//! How group directives nest (ISO/IEC 9899:2011, 6.10.1).
#![tactic(auto)]

ghost use Rattle.std.specs.Prelude.{◌≡◌, ◌<◌, ◌≤◌, ◌+◌, ◌^◌, [], false, length, OnOk};
ghost use Rattle.cpp_lines.specs.Lines as lists;
ghost use Rattle.cpp_lines.specs.Nesting as nesting;
ghost use Rattle.cpp_lines.specs.Opens as opens;

use crate::bytes::split_word;
use crate::directives::{
    Directive, begins_directive, behind_hash, directive_named, directive_of, include_fault,
};
use crate::lines::cut_line;
use crate::open_sections::Opens;
use fam_outer::{FILE_BYTES, FileCode, Includes, NoMemory, Place};
use std::alloc::Global;

/// The directive that a line names, whatever stands behind the name.
pub(crate) fn named_in(line: &[u8]) -> Option<Directive>
    ensures { result ≡ nesting.named_in line.now }
{
    if !begins_directive(line) {
        return None;
    }
    let (word, _) = split_word(behind_hash(line));
    directive_named(word)
}

/// Whether a directive opens a section.
fn opens_section(directive: Option<Directive>) -> bool
    ensures { result ≡ nesting.opens_section directive }
{
    match directive {
        Some(Directive::If) => true,
        Some(Directive::Ifdef) => true,
        Some(Directive::Ifndef) => true,
        _ => false,
    }
}

/// Whether a directive ends a section.
fn ends_section(directive: Option<Directive>) -> bool
    ensures { result ≡ nesting.ends_section directive }
{
    match directive {
        Some(Directive::Endif) => true,
        _ => false,
    }
}

/// Sections that begin or end: how many opened so far are open, and how many of those that were open before are ended.
#[derive(Clone, Copy)]
struct Count {
    open: usize,
    ended: usize,
}

/// The count behind a line.
fn count_line(count: Count, line: &[u8]) -> Count
    requires open { count.open < 2 ^ 32 }
    requires ended { count.ended < 2 ^ 32 }
    ensures { opens.IsCounted count.open count.ended (nesting.named_in line.now) result.open result.ended }
{
    let directive = named_in(line);
    if ends_section(directive) {
        if count.open == 0 {
            return Count {
                open: 0,
                ended: count.ended + 1,
            };
        }
        return Count {
            open: count.open - 1,
            ended: count.ended,
        };
    }
    if opens_section(directive) {
        return Count {
            open: count.open + 1,
            ended: count.ended,
        };
    }
    count
}

/// How many sections that are open before these lines they end.
pub(crate) fn ends_of(bytes: &[u8]) -> usize
    requires { length bytes.now ≤ FILE_BYTES }
    ensures { result ≡ nesting.ends_of (lists.pieces bytes.now) }
{
    let mut count = Count { open: 0, ended: 0 };
    let mut rest = bytes;
    'lines: while let Some((line, behind)) = cut_line(rest) {
        count = count_line(count, line);
        rest = behind;
    }
    count_line(count, rest).ended
}

impl Opens {
    /// No section is open.
    pub(crate) fn new(alloc: Global) -> Opens
        ensures { opens.flags result ≡ [] }
    {
        Opens {
            inner: None,
            outer: Vec::new(alloc),
            first: Place { line: 1, column: 1 },
        }
    }

    /// How many sections are open.
    pub(crate) fn depth(&self) -> usize
        ensures { result ≡ length (opens.flags self.now) }
    {
        match self.inner {
            None => 0,
            Some(_) => self.outer.len() + 1,
        }
    }

    /// The fault of `#elif` and `#else` here.
    fn later_fault(&self) -> Option<FileCode>
        ensures { result ≡ nesting.later_fault (opens.flags self.now) }
    {
        match self.inner {
            None => Some(FileCode::NoIf),
            Some(true) => Some(FileCode::SecondElse),
            Some(false) => None,
        }
    }

    /// The fault of `#endif` here.
    fn end_fault(&self) -> Option<FileCode>
        ensures { result ≡ nesting.end_fault (opens.flags self.now) }
    {
        match self.inner {
            None => Some(FileCode::NoIf),
            Some(_) => None,
        }
    }

    /// The fault of a directive here, where it is none of the known ones, or has what may not stand behind its name, or may
    /// not stand here.
    fn directive_fault(&self, includes: Includes, directive: Option<Directive>) -> Option<FileCode>
        ensures { result ≡ nesting.directive_fault includes (opens.flags self.now) directive }
    {
        match directive {
            None => Some(FileCode::Directive),
            Some(Directive::If) => None,
            Some(Directive::Ifdef) => None,
            Some(Directive::Ifndef) => None,
            Some(Directive::Include) => None,
            Some(Directive::OtherInclude) => include_fault(includes),
            Some(Directive::Elif) => self.later_fault(),
            Some(Directive::Else) => self.later_fault(),
            Some(Directive::Endif) => self.end_fault(),
            Some(Directive::Define) => None,
        }
    }

    /// The fault of a line here, but for those of its condition, and for a section that nothing ends.
    pub(crate) fn line_fault(&self, includes: Includes, line: &[u8]) -> Option<FileCode>
        ensures { result ≡ nesting.line_fault includes (opens.flags self.now) line.now }
    {
        if !begins_directive(line) {
            return None;
        }
        self.directive_fault(includes, directive_of(behind_hash(line)))
    }

    /// Goes on behind a line, whose `#` stands at this place where it is a directive line. It answers an error only for
    /// want of memory.
    pub(crate) fn follow(&mut self, line: &[u8], place: Place) -> Result<(), NoMemory>
        ensures flags { OnOk result (opens.flags self.new
            ≡ nesting.opened_by (nesting.named_in line.now) (opens.flags self.old)) }
        ensures first { OnOk result (self.new.first
            ≡ opens.first_after (nesting.named_in line.now) place (opens.flags self.old) self.old.first) }
    {
        let directive = named_in(line);
        if opens_section(directive) {
            return self.enter(place);
        }
        match directive {
            Some(Directive::Else) => self.inner = self.inner.map(|_| true),
            Some(Directive::Endif) => self.inner = self.outer.pop(),
            _ => {}
        }
        Ok(())
    }

    /// Opens a section.
    fn enter(&mut self, place: Place) -> Result<(), NoMemory>
        ensures flags { OnOk result (opens.flags self.new ≡ opens.inner false (opens.flags self.old)) }
        ensures first { OnOk result (self.new.first
            ≡ opens.first_of place (opens.flags self.old) self.old.first) }
    {
        match self.inner {
            None => self.first = place,
            Some(around) => self.outer.push(around)?,
        }
        self.inner = Some(false);
        Ok(())
    }
}

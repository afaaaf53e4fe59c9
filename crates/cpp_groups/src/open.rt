//! The sections that are open at a line of a text.
#![tactic(auto)]

ghost use Rattle.std.specs.Prelude.{◌≡◌, [], Some, OnOk, OnErr};
ghost use Rattle.cpp_groups.specs.Kept as kept;

use crate::directive::GroupDirective;
use crate::section::{Section, next_group};
use fam_outer::NoMemory;
use std::alloc::Global;
use std::marker::Model;

/// The sections that are open, which contracts see with the innermost first. The innermost one stands by itself, and the
/// others with the outermost first.
#[derive(Drop)]
pub struct OpenSections {
    inner: Option<Section>,
    outer: Vec<Section>,
    left_out: usize,
}

impl Model for OpenSections {
    ghost use Rattle.std.specs.Prelude.{List};
    ghost use Rattle.cpp_groups.specs.declared.section.Section.{Section};
    ghost use Rattle.cpp_groups.specs.Kept.{opened, IsCounted};

    ghost Value = { List Section };

    ghost view = { λ s. opened s.inner s.outer.items };

    ghost invariant = { λ s. IsCounted s.inner s.outer.items s.left_out };
}

/// Whether the group that stands here is not the kept one of its section.
fn is_left_out(section: Section) -> bool
    ensures { result ≡ kept.is_left_out section }
{
    match section {
        Section::Seeking => true,
        Section::Keeping => false,
        Section::Passed => true,
    }
}

/// The truth of a condition by its number; false where there is none.
fn truth(truths: &[bool], number: u32) -> bool
    ensures { result ≡ kept.truth truths.now number }
{
    match truths.get(number as usize) {
        Some(truth) => *truth,
        None => false,
    }
}

impl OpenSections {
    /// No section is open. It takes no memory.
    pub fn new(alloc: Global) -> OpenSections
        ensures { result ≡ [] }
    {
        OpenSections {
            inner: None,
            outer: Vec::new(alloc),
            left_out: 0,
        }
    }

    /// Whether the group that stands here is the kept one in every open section.
    #[tactic(auto, using(crate::proofs::Counting::kept_by_count))]
    pub fn are_kept(&self) -> bool
        ensures { result ≡ kept.all_kept self.now }
    {
        match self.inner {
            None => true,
            Some(section) => !is_left_out(section) && self.left_out == 0,
        }
    }

    /// Goes on behind a group directive, where the conditions have these truths. `#else` is the group of a condition that
    /// is true. Outside every section a directive that opens none changes nothing. It answers an error only for want of
    /// memory, and then nothing has changed.
    pub fn follow(&mut self, truths: &[bool], directive: GroupDirective) -> Result<(), NoMemory>
        ensures ok { OnOk result (self.new ≡ kept.sections_after truths.now self.old (Some directive)) }
        ensures err { OnErr result (self.new ≡ self.old) }
    {
        match directive {
            GroupDirective::If(number) => {
                let section = next_group(Section::Seeking, truth(truths, number));
                self.enter(section)
            }
            GroupDirective::Elif(number) => {
                self.change(truth(truths, number));
                Ok(())
            }
            GroupDirective::Else => {
                self.change(true);
                Ok(())
            }
            GroupDirective::Endif => {
                self.leave();
                Ok(())
            }
        }
    }

    /// Opens a section.
    fn enter(&mut self, section: Section) -> Result<(), NoMemory>
        ensures ok { OnOk result (self.new ≡ kept.inner section self.old) }
        ensures err { OnErr result (self.new ≡ self.old) }
    {
        if let Some(around) = self.inner {
            self.outer.push(around)?;
            if is_left_out(around) {
                self.left_out += 1;
            }
        }
        self.inner = Some(section);
        Ok(())
    }

    /// Leaves the innermost section, if there is one.
    fn leave(&mut self)
        ensures { self.new ≡ kept.behind self.old }
    {
        self.inner = self.outer.pop();
        if let Some(section) = self.inner {
            if is_left_out(section) {
                self.left_out -= 1;
            }
        }
    }

    /// Goes on to the next group of the innermost section, if there is one.
    fn change(&mut self, truth: bool)
        ensures { self.new ≡ kept.in_next truth self.old }
    {
        if let Some(section) = self.inner {
            self.inner = Some(next_group(section, truth));
        }
    }
}

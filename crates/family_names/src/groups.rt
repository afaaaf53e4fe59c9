//! The groups that stand around an item.
#![tactic(auto)]

ghost use Rattle.std.specs.Prelude.{◌≡◌, Bool, true, false, List, [], ◌∷◌, ◌++◌, Some, reverse, IfOk, OnOk, MatchOption};
ghost use Rattle.cpp_groups.specs.Kept.{sections_after};
ghost use Rattle.family_names.specs.Groups as specs;

use cpp_groups::GroupDirective;
use fam_outer::NoMemory;
use std::alloc::Global;
use std::marker::Model;

/// A group: the first of its section, or a later one, with the number of its condition; that of `#else` has none.
#[derive(Clone, Copy, Debug, PartialEq, Eq)]
pub(crate) enum Group {
    First(u32),
    Later(u32),
    Else,
}

/// The groups of the open sections up to the one that stands here, which contracts see with the latest first.
#[derive(Drop)]
pub(crate) struct Groups {
    list: Vec<Group>,
}

impl Model for Groups {
    ghost use Rattle.std.specs.Prelude.{List, reverse};
    ghost use Rattle.family_names.specs.declared.groups.Group.{Group};
    ghost use Rattle.family_names.specs.Groups.{IsOpened};

    ghost Value = { List Group };

    ghost view = { λ groups. reverse groups.list.items };

    ghost invariant = { λ groups. IsOpened (reverse groups.list.items) };
}

/// The last item and those before it.
pub(crate) fn cut_last<T>(items: &[T]) -> Option<(&T, &[T])>
    ensures { MatchOption result (items.now ≡ []) (λ x. items.now ≡ x.1.now ++ x.0.now ∷ []) }
{
    match items {
        [] => None,
        [before @ .., last] => Some((last, before)),
    }
}

impl Group {
    /// Whether the group is the first of its section.
    pub(crate) fn is_first(self) -> bool
        ensures { result ≡ specs.is_first self }
    {
        match self {
            Group::First(_) => true,
            Group::Later(_) => false,
            Group::Else => false,
        }
    }
}

/// Leaves the innermost section, if there is one.
fn leave(list: &mut Vec<Group>)
    ensures { reverse list.new.items ≡ specs.left (reverse list.old.items) }
{
    while let Some(group) = list.pop() {
        if group.is_first() {
            return;
        }
    }
}

impl Groups {
    /// No group. It takes no memory.
    pub(crate) fn new(alloc: Global) -> Groups
        ensures { result ≡ [] }
    {
        Groups {
            list: Vec::new(alloc),
        }
    }

    /// A copy of the groups. It answers an error only for want of memory.
    pub(crate) fn copy(&self, alloc: Global) -> Result<Groups, NoMemory>
        ensures { IfOk result (λ made. made ≡ self.now) }
    {
        Ok(Groups {
            list: Vec::from_slice(alloc, &self.list)?,
        })
    }

    /// The groups, with the latest last.
    pub(crate) fn items(&self) -> &[Group]
        ensures value { reverse result.now ≡ self.now }
        ensures opened { specs.IsOpened self.now }
    {
        self.list.as_slice()
    }

    /// Whether these are the outermost of the other groups: then what stands in those is kept only where what stands in
    /// these is.
    pub(crate) fn begins(&self, other: &Groups) -> bool
        ensures { result ≡ true → (truths : List Bool) → specs.are_kept truths other.now ≡ true
            → specs.are_kept truths self.now ≡ true }
    {
        let groups = self.items();
        let others = other.items();
        let count = groups.len();
        if count > others.len() || &others[..count] != groups {
            return false;
        }
        count == others.len() || others[count].is_first()
    }

    /// Adds a group behind the others.
    fn add(&mut self, group: Group) -> Result<(), NoMemory>
        requires { specs.IsOpened (specs.with_group group self.old) }
        ensures { OnOk result (self.new ≡ specs.with_group group self.old) }
    {
        self.list.push(group)?;
        Ok(())
    }

    /// Adds a later group of the innermost section, if there is one.
    fn change(&mut self, group: Group) -> Result<(), NoMemory>
        requires { specs.is_first group ≡ false }
        ensures { OnOk result (self.new ≡ specs.changed group self.old) }
    {
        if self.list.is_empty() {
            return Ok(());
        }
        self.add(group)
    }

    /// Goes on behind a group directive: the sections that are open are the same as `cpp_groups` says, whatever the truths
    /// of the conditions. It answers an error only for want of memory.
    pub(crate) fn follow(&mut self, directive: GroupDirective) -> Result<(), NoMemory>
        ensures { OnOk result ((truths : List Bool)
            → specs.sections truths self.new
            ≡ sections_after truths (specs.sections truths self.old) (Some directive)) }
    {
        let _count = self.list.len();
        match directive {
            GroupDirective::If(number) => self.add(Group::First(number)),
            GroupDirective::Elif(number) => self.change(Group::Later(number)),
            GroupDirective::Else => self.change(Group::Else),
            GroupDirective::Endif => {
                leave(&mut self.list);
                Ok(())
            }
        }
    }
}

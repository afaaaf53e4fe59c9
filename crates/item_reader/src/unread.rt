//! Why no program is made.
#![tactic(auto)]

use fam_outer::Refusal;

/// Where a list of items spells no program, or too deep a one.
#[derive(Clone, Copy, Debug, PartialEq, Eq)]
pub enum Unread {
    /// No file goes on with the item at this position of the list, or ends behind its last item where the position is
    /// the length of the list.
    Wrong(usize),
    /// Some file goes on with the item at this position of the list, but none within the limits.
    Deep(usize),
}

/// Why no program is made: want of memory, or items that spell none within the limits.
pub type UnreadRefusal = Refusal<Unread>;

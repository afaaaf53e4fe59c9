//! A reader of items: a list of items is read into a program, item by item, with all that is open in a value of its own.
#![tactic(auto)]

mod endings;
mod files;
mod limits;
mod programs;
pub mod reading;
mod steps;
pub mod unread;

pub use reading::read_items;
pub use unread::{Unread, UnreadRefusal};

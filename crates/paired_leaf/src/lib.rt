//! Two kinds of leaf as one: the reduced product of any two kinds (after Cousot and Cousot). Its operations are those of both,
//! after which each leaf has the ranges of the other, and its laws follow from those of the two kinds.
#![tactic(auto)]

mod exchange;
mod parts;

pub use exchange::{exchanged, limited_at};
pub use parts::{Parts, settled, widened_to};

//! Leaves of octagons together with intervals and strides: the reduced product of both kinds, linearised.
#![tactic(auto)]

pub mod laws;
pub mod leaf;
mod reduced;

pub use laws::{
    sharp_is_below_intervals, sharp_is_below_its_parts, sharp_is_below_strides,
    strides_are_below_intervals,
};
pub use leaf::SharpLeaf;

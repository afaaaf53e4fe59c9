//! Leaves of intervals with strides, the reduced product of intervals (after Cousot and Cousot) and of
//! congruences (after Granger): Nothing, or a low, a high and a stride for each variable.
#![tactic(auto)]

pub mod form_stride;
pub mod laws;
mod leaf;
pub mod parts;

pub use laws::{stride_join_is_least, strides_are_exact, strides_are_ordered_by_stores};
pub use leaf::StrideLeaf;

//! Leaves of octagons (after A. Miné, "The octagon abstract domain"): Nothing, or a matrix of bounds
//! of the differences of signed variables.
#![tactic(auto)]

mod filled;
mod laws;
mod leaf;
mod meets;
mod shape;

pub use laws::octagons_are_exact;
pub use leaf::OctagonLeaf;

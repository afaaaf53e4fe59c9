//! Numbers from a low to a high that have a stride (after Granger): they differ from a residue by
//! multiples of a modulus.
#![tactic(auto)]

pub mod stride;
pub mod strided;

pub use stride::{Stride, WideStride};
pub use strided::Strided;

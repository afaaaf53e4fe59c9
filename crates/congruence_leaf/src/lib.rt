//! Leaves of intervals with strides that follow squares, and quotients and remainders by a constant (after Granger's arithmetical
//! congruences): what `f * f`, `f / m` and `f % m` may be where the linear form `f` has a stride, and which stride a variable has
//! where `x % m == k` holds.
#![tactic(auto)]

mod functions;
pub mod laws;
mod leaf;
mod operands;
mod quotients;
mod remainders;
mod results;
mod squares;
mod two_strides;

pub use laws::{
    congruences_are_exact, congruences_keep_the_laws, parts_keep_the_numbers_of_both_strides,
};
pub use leaf::CongruenceLeaf;

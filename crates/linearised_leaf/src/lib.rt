//! A kind of leaf whose tests and assignments of linear forms are linearised too, over any kind of leaf (after A. Miné, "Symbolic methods to
//! enhance the precision of numerical abstract domains").
#![tactic(auto)]

pub mod differences;
pub mod forms;
pub mod laws;
pub mod least;
pub mod linear;
pub mod products;
pub mod sides;

pub use laws::linearised_keeps_the_laws;
pub use linear::{linear_met, linear_set};
pub use products::{linear_operation_met, linear_operation_set};

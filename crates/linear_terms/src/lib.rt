//! The terms of linear forms: their sums and multiples within a limit of size, and the greatest common divisor.
#![tactic(auto)]

pub mod divisors;
pub mod merging;
pub mod terms;

pub use divisors::greatest_common_divisor;
pub use merging::{first_term, product, within};
pub use terms::Terms;

//! Conditions over features, as they stand behind `#if` (ISO/IEC 9899:2011, 6.10.1).
#![tactic(auto)]

mod comparing;
pub mod conditions;
pub mod distinct;
mod expected;
mod expression_refusal;
mod expressions;
mod forming;
pub mod formulas;
mod integers;
mod judging;
pub mod laws;
pub mod macros;
pub mod models;
mod names;
pub mod operators;
pub mod reading;
mod tokens;
mod truths;

pub use conditions::Condition;
pub use distinct::{add_atoms, distinct_atoms};
pub use formulas::{Formula, number};
pub use macros::{Macros, no_macros};
pub use models::{Conditions, Features, Model, all_true, is_valid};
pub use reading::{ConditionRefusal, read_condition};

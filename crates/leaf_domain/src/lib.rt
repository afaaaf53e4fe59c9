//! Ranges, comparisons, linear forms, and the trait of leaves with its laws.
#![tactic(auto)]

pub mod compare;
mod differences;
mod ends;
mod evaluation;
pub mod form;
pub mod laws;
pub mod leaf;
pub mod linear;
pub mod operation;
pub mod range;
mod sides;
pub mod statements;
mod stops;
mod survey;
pub mod thresholds;
pub mod transfer;

pub use compare::{Compare, cut, cut_is_sound, mirror};
pub use form::Form;
pub use laws::{equality_is_exact, leaf_is_valid, transfer_is_sound};
pub use leaf::Leaf;
pub use linear::form_of;
pub use linear_terms::Terms;
pub use operation::Operation;
pub use range::{Range, arithmetic, arithmetic_is_sound, fold_is_sound};
pub use sides::Sides;
pub use statements::{may, may_stop};
pub use thresholds::{Multiple, Thresholds};
pub use transfer::{assign, assume, fits, forget, range_of, raw_of, split, valued};

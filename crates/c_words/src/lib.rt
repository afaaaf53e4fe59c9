//! Bytes, words and numbers of C, for all crates that read it.
#![tactic(auto)]

pub mod bytes;
pub mod identifiers;
pub mod keywords;
pub mod numbers;

pub use bytes::{is_alphanumeric, is_digit, is_gap, is_nondigit, is_space, is_word_byte};
pub use identifiers::{begins_with_two_underscores, is_identifier};
pub use keywords::{is_among, is_keyword, is_reserved};
pub use numbers::{
    begins_with_zero, constant_value, decimal, goes_on, is_constant, is_digit_in, numeral,
};

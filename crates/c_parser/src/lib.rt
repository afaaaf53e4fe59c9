//! The parser of the C subset: files without groups, and families.
#![tactic(auto)]

mod constants;
pub mod family;
mod family_items;
mod functions;
pub mod laws;
mod locals;
mod names;
mod numbering;
mod order;
mod phases;
pub mod plain;
mod prototypes;
mod signs;
mod spelled;
pub mod variants;

pub use family::{Family, read_family};
pub use functions::functions_of;
pub use plain::{read_plain, read_plain_with};

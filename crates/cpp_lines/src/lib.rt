//! Comments, lines and the code between directives (ISO/IEC 9899:2011, 5.1.1.2 and 6.10).
#![tactic(auto)]

mod bytes;
pub mod code;
mod comments;
mod defined;
mod definitions;
mod directives;
mod group_conditions;
pub mod laws;
pub mod line;
pub mod lines;
pub mod lists;
mod nesting;
mod open_sections;
pub mod preprocessing;
pub mod sections;
pub mod text_end;
pub mod whole_file;
pub mod without_comments;

pub use code::code_text;
pub use line::{Line, LineKind, Lines};
pub use lines::plain_lines;
pub use lists::{Atoms, Formulas};
pub use preprocessing::preprocessed_text;
pub use sections::{Sections, read_sections};
pub use text_end::end_place;
pub use whole_file::blanked_file;
pub use without_comments::blank_comments;

//! What reading models and files means, said a second time: in the words of the standard, by the grammar, and by single
//! variants.
#![tactic(auto)]

pub mod answers;
pub mod families;
pub mod groups;
pub mod models;
pub mod names;
pub mod settings;

pub use answers::{files_have_answers, phases_have_answers};
pub use families::families_have_answers;
pub use groups::{
    files_have_whole_sections, groups_are_kept_in_order, variants_have_the_lines_that_stay,
};
pub use models::{bytes_say_some_model, conditions_have_lists_of_atoms, models_are_valid_or_void};
pub use names::{
    declarations_of_families_are_those_of_the_grammar, families_have_the_names_that_they_declare,
    refusals_of_names_are_shown,
};
pub use settings::settings_are_read_word_by_word;

//! What the words ask for: a request, and the paths that it names.
#![tactic(auto)]

mod laws;
mod request;

pub use laws::guides_ask_for_nothing_else;
pub use request::{
    Analysis, Command, FamilyTask, Guide, Request, Role, SettingWords, VariantTask, made_by,
    read_request,
};

//! The codes of refusals and the statuses, by their names.
#![tactic(auto)]

ghost use Rattle.std.specs.Prelude.{◌≡◌};
ghost use Rattle.guide_texts.specs.Codes.{told, first_of, file_code, other_code, code_of, code_text};

use crate::code_texts::{FILE_CODES, OTHER_CODES};
use std::marker::Model;

/// A code of a refusal, or a status.
#[derive(Debug, Drop)]
pub struct Code {
    name: &'static str,
    text: &'static str,
}

impl Model for Code {
    ghost use Rattle.guide_texts.specs.Codes.{CodeText};

    ghost Value = { CodeText };

    ghost view = { λ code. record { name = code.name.now; text = code.text.now } };
}

/// The first row with the name.
fn among(rows: &[(&'static str, &'static str)], name: &str) -> Option<Code>
    ensures { result ≡ first_of (told rows.now) name.now }
{
    for row in rows {
        if row.0 == name {
            return Some(Code {
                name: row.0,
                text: row.1,
            });
        }
    }
    None
}

/// The code of a file with the name.
#[tactic(auto, unfolding(crate::specs::Codes::file_code))]
fn of_file(name: &str) -> Option<Code>
    ensures { result ≡ file_code name.now }
{
    among(&FILE_CODES, name)
}

/// Another code with the name, or the status.
#[tactic(auto, unfolding(crate::specs::Codes::other_code))]
fn of_others(name: &str) -> Option<Code>
    ensures { result ≡ other_code name.now }
{
    among(&OTHER_CODES, name)
}

impl Code {
    /// The code with the name, or none.
    #[tactic(auto, unfolding(crate::specs::Codes::code_of))]
    pub fn of(name: &str) -> Option<Code>
        ensures { result ≡ code_of name.now }
    {
        match of_file(name) {
            Some(code) => Some(code),
            None => of_others(name),
        }
    }

    /// What it means, and what to do.
    pub fn text(&self) -> &'static str
        ensures { result.now ≡ code_text self.now }
    {
        self.text
    }
}

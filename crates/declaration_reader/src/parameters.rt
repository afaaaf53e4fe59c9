//! The parentheses behind the names of functions.
#![tactic(auto)]

ghost use Rattle.std.specs.Prelude.{◌≡◌, option_map};
ghost use Rattle.c_grammar.specs.Machine as machine;
ghost use Rattle.reading_states.specs.Views.{as_aim, as_state};

use c_grammar::Sign;
use reading_states::states::{Aim, ReadingState};
use reading_states::unfinished::Stack;
use std::alloc::Global;

/// In the parentheses.
pub fn in_parameters(aim: Aim, sign: Sign) -> Option<ReadingState>
    ensures { option_map as_state result ≡ machine.in_parameters (as_aim aim) sign }
{
    match sign {
        Sign::Void => Some(ReadingState::AfterVoid { aim }),
        Sign::Close => Some(ReadingState::AfterParameters { aim }),
        _ => None,
    }
}

/// Behind the parentheses: a semicolon for a function outside, and a brace for `main`.
pub fn after_parameters(alloc: Global, aim: Aim, sign: Sign) -> Option<ReadingState>
    ensures { option_map as_state result ≡ machine.after_parameters (as_aim aim) sign }
{
    match (aim, sign) {
        (Aim::ToPrototype { sections, declared }, Sign::Semicolon) => {
            Some(ReadingState::Outside { sections, declared })
        }
        (Aim::ToMain { declared }, Sign::LeftBrace) => Some(ReadingState::Ready {
            outer: Stack::Top {
                declared,
                made: Vec::new(alloc),
            },
        }),
        _other => None,
    }
}

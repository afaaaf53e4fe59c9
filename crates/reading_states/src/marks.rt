//! Signs that a state wants, and no other.
#![tactic(auto)]

ghost use Rattle.std.specs.Prelude.{◌≡◌, option_map};
ghost use Rattle.c_grammar.specs.Machine as machine;
ghost use Rattle.reading_states.specs.Views.{as_state};

use crate::states::ReadingState;
use c_grammar::Sign;

/// The state behind an opening parenthesis.
pub fn at_open(next: ReadingState, sign: Sign) -> Option<ReadingState>
    ensures { option_map as_state result ≡ machine.at_open (as_state next) sign }
{
    match sign {
        Sign::Open => Some(next),
        _ => None,
    }
}

/// The state behind a closing parenthesis.
pub fn at_close(next: ReadingState, sign: Sign) -> Option<ReadingState>
    ensures { option_map as_state result ≡ machine.at_close (as_state next) sign }
{
    match sign {
        Sign::Close => Some(next),
        _ => None,
    }
}

/// The state behind a semicolon.
pub fn at_semicolon(next: ReadingState, sign: Sign) -> Option<ReadingState>
    ensures { option_map as_state result ≡ machine.at_semicolon (as_state next) sign }
{
    match sign {
        Sign::Semicolon => Some(next),
        _ => None,
    }
}

/// The state behind `while`.
pub fn at_while(next: ReadingState, sign: Sign) -> Option<ReadingState>
    ensures { option_map as_state result ≡ machine.at_while (as_state next) sign }
{
    match sign {
        Sign::While => Some(next),
        _ => None,
    }
}

/// The state behind `void`.
pub fn at_void(next: ReadingState, sign: Sign) -> Option<ReadingState>
    ensures { option_map as_state result ≡ machine.at_void (as_state next) sign }
{
    match sign {
        Sign::Void => Some(next),
        _ => None,
    }
}

/// The state behind the name of a function.
pub fn at_function(next: ReadingState, sign: Sign) -> Option<ReadingState>
    ensures { option_map as_state result ≡ machine.at_function (as_state next) sign }
{
    match sign {
        Sign::Input | Sign::Function(_) => Some(next),
        _ => None,
    }
}

/// The state behind the name of a function other than `input`.
pub fn at_void_function(next: ReadingState, sign: Sign) -> Option<ReadingState>
    ensures { option_map as_state result ≡ machine.at_void_function (as_state next) sign }
{
    match sign {
        Sign::Function(_) => Some(next),
        _ => None,
    }
}

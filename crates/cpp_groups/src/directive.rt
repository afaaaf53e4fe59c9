//! Group directives.

/// A group directive, with the number of its condition where it has one.
#[derive(Clone, Copy, Debug, PartialEq, Eq)]
pub enum GroupDirective {
    If(u32),
    Elif(u32),
    Else,
    Endif,
}

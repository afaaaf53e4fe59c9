//! The names that a file defines as macros (ISO/IEC 9899:2011, 6.10.3).
#![tactic(auto)]

ghost use Rattle.std.specs.Prelude.{◌≡◌, map};
ghost use Rattle.cpp_conditions.specs.Macros as plain;

use fam_outer::{Unknown, cut};

/// The names that a file defines above a condition, and all that it defines; and what any other name is that no
/// feature has.
#[derive(Clone, Copy, Debug)]
pub struct Macros<'a> {
    pub unknown: Unknown,
    pub above: &'a [&'a [u8]],
    pub file: &'a [&'a [u8]],
}

/// No definitions.
pub fn no_macros<'a>(unknown: Unknown) -> Macros<'a>
    ensures { plain.macros result ≡ plain.no_macros unknown }
{
    Macros {
        unknown,
        above: &[],
        file: &[],
    }
}

/// Whether a name is one of these.
pub(crate) fn is_one_of(names: &[&[u8]], name: &[u8]) -> bool
    ensures { result ≡ plain.is_one_of (map (λ it. it.now) names.now) name.now }
{
    match cut(names) {
        None => false,
        Some((first, behind)) => first == name || is_one_of(behind, name),
    }
}

//! The features that code uses as values.
#![tactic(auto)]

ghost use Rattle.std.specs.Prelude.{◌≡◌, List, [], IfOk};
ghost use Rattle.family_names.specs.Names.{test_count};
ghost use Rattle.family_names.specs.Names as names;
ghost use Rattle.family_names.specs.NameContexts.{plain};
ghost use Rattle.family_names.specs.Judging as judging;

use crate::name_context::NameContext;
use crate::seen::contains;
use fam_outer::{FileCode, MOST_CONSTANTS, MOST_VALUE_TESTS, NoMemory};
use std::alloc::Global;

/// The integer features that some items use as values: the numbers of their names, each once, and how many tests tell
/// their values.
#[derive(Drop)]
pub(crate) struct Used {
    pub(crate) names: Vec<u32>,
    pub(crate) tests: u64,
}

impl Used {
    /// No feature. It takes no memory.
    pub(crate) fn new(alloc: Global) -> Used
        ensures { (context : names.NameContext) → judging.AreUsed context [] result }
    {
        Used {
            names: Vec::new(alloc),
            tests: 0,
        }
    }
}

/// The fault of a use of an integer feature as a value, where so many constants are declared; without one it is among those
/// that are used.
pub(crate) fn use_value(
    context: &NameContext<'_>,
    constants: usize,
    used: &mut Used,
    name: u32,
) -> Result<Option<FileCode>, NoMemory>
    ensures { used.old.tests ≡ test_count (plain context.now) used.old.names.items
        → IfOk result (λ fault. judging.UsesValue (plain context.now) constants used.old name used.new fault) }
{
    if contains(&used.names, name) {
        return Ok(None);
    }
    let tests = used.tests.saturating_add(context.width(name));
    if tests > MOST_VALUE_TESTS as u64 {
        return Ok(Some(FileCode::TooManyValueTests));
    }
    if constants.saturating_add(used.names.len()) >= MOST_CONSTANTS {
        return Ok(Some(FileCode::TooManyConstants));
    }
    used.names.push(name)?;
    used.tests = tests;
    Ok(None)
}

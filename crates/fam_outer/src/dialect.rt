//! What is read of names and includes where C leaves a choice.

/// What a name of a condition is that no model has.
#[derive(Clone, Copy, Debug, PartialEq, Eq)]
pub enum Unknown {
    /// The number 0, as the preprocessor has it (ISO/IEC 9899:2011, 6.10.1, paragraph 4).
    Zero,
    /// A fault.
    Refuse,
}

/// Which includes a file may have. No included file is read.
#[derive(Clone, Copy, Debug, PartialEq, Eq)]
pub enum Includes {
    /// That of `<assert.h>` alone.
    Assert,
    /// Any: the line is skipped.
    Skip,
}

/// How the names of conditions and the includes of files are read.
#[derive(Clone, Copy, Debug, PartialEq, Eq)]
pub struct Dialect {
    pub unknown: Unknown,
    pub includes: Includes,
}

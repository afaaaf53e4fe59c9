//! Limits that several crates keep.
#![tactic(auto)]

/// The most bytes of a C file.
pub const FILE_BYTES: usize = 1_048_576;

/// The most bytes of a model.
pub const MODEL_BYTES: usize = 65_536;

/// The most bytes of a certificate.
pub const CERTIFICATE_BYTES: usize = 16_777_216;

/// The most features of a model.
pub const MOST_FEATURES: usize = 32;

/// The most constraints of a model.
pub const MOST_CONSTRAINTS: usize = 256;

/// The greatest size of a feature's value, and of an end of its range.
pub const MOST_VALUE: u32 = 1_048_576;

/// The most distinct atoms of the constraints of a model and the conditions of a file.
pub const MOST_ATOMS: usize = 64;

/// The most tests of the values of features that a file uses as values.
pub const MOST_VALUE_TESTS: usize = 256;

/// The most distinct atoms of a family: those of its conditions, and the tests of its values.
pub const MOST_TESTS: usize = 320;

/// The most variables that a file declares.
pub const MOST_NAMES: usize = 16;

/// The most constants that a file declares and features that it uses as values, together.
pub const MOST_CONSTANTS: usize = 16;

/// The most operators and parentheses of a condition, and of a full expression of code.
pub const MOST_OPERATORS: usize = 64;

/// The most constructs of code in one another.
pub const MOST_NESTED: usize = 64;

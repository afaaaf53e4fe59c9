//! Why bytes are no feature model, and why settings give no configuration.
#![tactic(auto)]

use fam_outer::{ConditionFault, Refusal};

/// Why bytes are no model: M1 to M10, in this order. A number counts features or constraints from 1.
#[derive(Clone, Copy, Debug, PartialEq, Eq)]
pub enum ModelFault {
    Json,
    Shape,
    Name(u32),
    Twice(u32),
    Range(u32),
    TooMany,
    Constraint(u32, ConditionFault),
    TooLong,
    Void,
    TooManyTests,
}

/// The refusal of a model: want of memory, or a fault.
pub type ModelRefusal = Refusal<ModelFault>;

/// Why settings give no configuration: K1 to K5, in this order. The number of K2 counts features from 1, the others
/// count words from 1.
#[derive(Clone, Copy, Debug, PartialEq, Eq)]
pub enum ConfigFault {
    UnknownName(u32),
    Missing(u32),
    Twice(u32),
    OutOfRange(u32),
    NotValid,
}

/// The refusal of settings: want of memory, or a fault.
pub type ConfigRefusal = Refusal<ConfigFault>;

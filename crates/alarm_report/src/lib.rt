//! Reports on families: which configurations lead to a leaf of a decision tree, the least of them, and the texts that say so.
#![tactic(auto)]

pub mod alarms;
mod dropping;
pub mod finding;
pub mod invariants;
mod joining;
mod known;
pub mod laws;
pub mod leaf_texts;
mod literals;
pub mod path_region;
pub mod pieces;
pub mod region;
pub mod texts;

pub use alarms::{FamilyAlarm, FamilyAlarms, alarms_of};
pub use finding::{regions, regions_over};
pub use invariants::{FamilyInvariant, invariants_of};
pub use laws::reports_tell_their_alarms;
pub use leaf_texts::{invariant_text, leaf_text};
pub use path_region::region_of;
pub use region::{Literals, Region, Regions};
pub use texts::{alarm_text, kind_text, variant_report};

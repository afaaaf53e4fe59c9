//! The analysis of one plain program, generic over the kind of leaf: which leaf holds at each place,
//! and which stops a run may meet. It knows nothing of a kind of leaf but its laws.
#![tactic(auto)]

mod after;
pub mod alarm;
pub mod analysis;
mod entries;
mod finals;
pub mod findings;
pub mod laws;
pub mod loops;
pub mod options;
mod simple;
pub mod steps;
mod task;
mod testing;
pub mod ways;

pub use alarm::{Alarm, Alarms};
pub use analysis::analyse_one;
pub use findings::{Findings, PlaceLeaf, PlaceLeaves};
pub use laws::passes_foresee_runs;
pub use loops::{Loop, Parts};
pub use options::Options;
pub use steps::{joined, moved, narrowed_by, round, round_count};
pub use ways::Ways;

//! How an analysis is run.
#![tactic(auto)]

use c_tree::Mode;
use leaf_domain::Thresholds;

/// How an analysis is run: in how many rounds of a loop leaves are joined before they are widened,
/// in how many they are narrowed afterwards, to which numbers a widened bound may step before it
/// becomes the type's, and what an overflow does.
#[derive(Debug, Drop)]
pub struct Options {
    pub delay: u32,
    pub narrow: u32,
    pub thresholds: Thresholds,
    pub mode: Mode,
}

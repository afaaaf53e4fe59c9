//! How a report's regions are told.

/// How the regions of a report are told.
#[derive(Clone, Copy, Debug, PartialEq, Eq)]
pub enum Regions {
    /// Each path of a decision tree by itself, and each literal as it stands.
    Paths,
    /// Merged over the vectors that no configuration has, and with `N == k` where two literals leave one value of their terms.
    Merged,
}

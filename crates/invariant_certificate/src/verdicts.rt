//! What a check comes to.
#![tactic(auto)]

use c_tree::Kind;
use fam_outer::Place;
use linear_atoms::Config;

/// Whether a certificate holds of a family, and where it does not.
#[derive(Debug, Drop)]
pub enum Verdict {
    /// Every loop is inductive and every stop that may be met is listed, at every valid configuration.
    Yes,
    /// The loop at the place is not inductive at the configuration.
    NotInductive(Place, Config),
    /// A stop of the kind at the place may be met at the configuration, and no line lists it.
    Unlisted(Place, Kind, Config),
}

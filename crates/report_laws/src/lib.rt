//! What reports tell.
#![tactic(auto)]

pub mod families;
pub mod stores;

pub use families::reports_of_families_tell_their_alarms;
pub use stores::leaf_texts_tell_stores;

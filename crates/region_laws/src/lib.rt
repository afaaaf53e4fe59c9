//! What the texts of regions mean.
#![tactic(auto)]

pub mod laws;

pub use laws::{
    region_texts_are_conditions, region_texts_are_refused_by_size,
    region_texts_have_the_meaning_of_regions,
};

//! Features for the models of the tests.

use fam_outer::{NoMemory, Text};
use linear_atoms::Feature;
use std::alloc::Global;

/// A switch of this name.
pub(crate) fn switch(alloc: Global, name: &[u8]) -> Result<Feature, NoMemory> {
    Ok(Feature {
        name: Text::from_bytes(alloc, name)?,
        boolean: true,
        low: 0,
        high: 1,
    })
}

/// A number feature of this name and range.
pub(crate) fn number_feature(
    alloc: Global,
    name: &[u8],
    low: i64,
    high: i64,
) -> Result<Feature, NoMemory> {
    Ok(Feature {
        name: Text::from_bytes(alloc, name)?,
        boolean: false,
        low,
        high,
    })
}

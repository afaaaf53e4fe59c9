//! Tests of the reading of files: words, tokens, trees, items, names, lines, families and their variants, over the contracts of their crates.
#![tactic(auto)]

#[cfg(test)]
mod constants;
#[cfg(test)]
mod definitions;
#[cfg(test)]
mod enumerations;
#[cfg(test)]
mod families;
#[cfg(test)]
mod family_limits;
#[cfg(test)]
mod family_reading;
#[cfg(test)]
mod family_refusals;
#[cfg(test)]
mod feature_names;
#[cfg(test)]
mod files;
#[cfg(test)]
mod generated;
#[cfg(test)]
mod groups;
#[cfg(test)]
mod item_limits;
#[cfg(test)]
mod items;
#[cfg(test)]
mod line_variants;
#[cfg(test)]
mod lines;
#[cfg(test)]
mod locals;
#[cfg(test)]
mod names;
#[cfg(test)]
mod rows;
#[cfg(test)]
mod sections;
#[cfg(test)]
mod short_forms;
#[cfg(test)]
mod trees;
#[cfg(test)]
mod variants;
#[cfg(test)]
mod words;

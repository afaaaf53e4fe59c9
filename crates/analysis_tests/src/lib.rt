//! Tests of trees, of the analyses of one program and of all variants, and of advice, over the contracts of their crates.
#![tactic(auto)]

#[cfg(test)]
mod advice;
#[cfg(test)]
mod all_variants;
#[cfg(test)]
mod bounds;
#[cfg(test)]
mod counted_leaf;
#[cfg(test)]
mod families;
#[cfg(test)]
mod forests;
#[cfg(test)]
mod nearest;
#[cfg(test)]
mod passes;
#[cfg(test)]
mod repeated_loops;
#[cfg(test)]
mod restricting;
#[cfg(test)]
mod small_programs;
#[cfg(test)]
mod start_chains;
#[cfg(test)]
mod steps;
#[cfg(test)]
mod threshold_lists;
#[cfg(test)]
mod threshold_pairs;
#[cfg(test)]
mod threshold_programs;
#[cfg(test)]
mod tree_formulas;
#[cfg(test)]
mod unifying;

//! Tests of `famlint_core` over its contracts: commands on one program, options, codes, texts about the program, and the example files.
//! Each runs over files in memory, and is compared with its status, its output and its line.
#![tactic(auto)]

#[cfg(test)]
mod call_tests;
#[cfg(test)]
mod code_tests;
#[cfg(test)]
mod dialect_tests;
#[cfg(test)]
mod domain_tests;
#[cfg(test)]
mod example_files;
#[cfg(test)]
mod example_tests;
#[cfg(test)]
mod for_scope_tests;
#[cfg(test)]
mod for_tests;
#[cfg(test)]
mod guide_tests;
#[cfg(test)]
mod jump_tests;
#[cfg(test)]
mod local_tests;
#[cfg(test)]
mod plain_tests;
#[cfg(test)]
mod variant_tests;
#[cfg(test)]
mod widening_tests;

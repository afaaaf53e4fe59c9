//! Tests of `famlint_core` over its contracts: commands on all variants, their pages and certificates, and advice. Each runs over files in
//! memory, and is compared with its status, its output and its line.
#![tactic(auto)]

#[cfg(test)]
mod advice_tests;
#[cfg(test)]
mod certificate_tests;
#[cfg(test)]
mod changed_certificate_tests;
#[cfg(test)]
mod family_tests;
#[cfg(test)]
mod generate_tests;
#[cfg(test)]
mod memory_tests;
#[cfg(test)]
mod merged_tests;
#[cfg(test)]
mod page_tests;
#[cfg(test)]
mod value_tests;

//! Tests of regions, reports and certificates, over the contracts of their crates.
#![tactic(auto)]

#[cfg(test)]
mod certificate_loops;
#[cfg(test)]
mod certificate_texts;
#[cfg(test)]
mod certificates_read;
#[cfg(test)]
mod features;
#[cfg(test)]
mod regions;
#[cfg(test)]
mod reports;
#[cfg(test)]
mod values;

//! Tests of runs and of the kinds of leaf, over their contracts; among them every operation over small leaves of two variables, against
//! the stores that it must hold.
#![tactic(auto)]

#[cfg(test)]
mod best;
#[cfg(test)]
mod intervals;
#[cfg(test)]
mod models;
#[cfg(test)]
mod numbers;
#[cfg(test)]
mod octagons;
#[cfg(test)]
mod operations;
#[cfg(test)]
mod pairs;
#[cfg(test)]
mod products;
#[cfg(test)]
mod random_chains;
#[cfg(test)]
mod ranges;
#[cfg(test)]
mod remainders;
#[cfg(test)]
mod runs;
#[cfg(test)]
mod small;
#[cfg(test)]
mod small_leaves;
#[cfg(test)]
mod stores;
#[cfg(test)]
mod stride_leaves;
#[cfg(test)]
mod transfer;

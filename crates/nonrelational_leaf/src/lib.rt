//! Leaves that keep one part for each variable: a domain of one variable lifted to stores, as Verasco lifts its
//! non-relational domains (Jourdan, Laporte, Blazy, Leroy and Pichardie, POPL 2015).
#![tactic(auto)]

mod lists;

pub use lists::replaced;

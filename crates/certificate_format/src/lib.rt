//! Certificates: the invariants of all loops of a family and its alarms, as a text that is written, and read from bytes.
#![tactic(auto)]

pub mod certificates;
mod cutting;
mod forms;
mod leaves;
pub mod literals;
pub mod loops;
mod numbers;
pub mod reading;
mod regions;
pub mod writing;

pub use certificates::{AlarmLine, Certificate, CertificateFault, CertificateRefusal};
pub use lifted_analysis::{LoopLine, Ranges};
pub use loops::{loop_places, loop_trees};
pub use reading::read_certificate;
pub use writing::certificate_text;

//! Certificates, checked against a family without its analysis.
#![tactic(auto)]

mod checking;
mod listing;
mod settling;
mod stopping;
pub mod verdicts;

pub use certificate_format::{
    AlarmLine, Certificate, CertificateFault, CertificateRefusal, LoopLine, Ranges,
    read_certificate,
};
pub use checking::check;
pub use verdicts::Verdict;

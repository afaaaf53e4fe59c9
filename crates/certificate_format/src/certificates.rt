//! Certificates, and why bytes are none.
#![tactic(auto)]

use c_tree::{Kind, Mode};
use cpp_conditions::Formula;
use fam_outer::{Place, Refusal};
use lifted_analysis::LoopLine;

/// A place and a kind at which runs may stop where the region holds.
#[derive(Debug, Drop)]
pub struct AlarmLine {
    pub place: Place,
    pub kind: Kind,
    pub region: Formula,
}

/// What is said of the loops and the stops of a family in a mode, in the order of the text.
#[derive(Debug, Drop)]
pub struct Certificate {
    pub mode: Mode,
    pub loops: Vec<LoopLine>,
    pub alarms: Vec<AlarmLine>,
}

/// What a line says.
#[derive(Debug, Drop)]
pub enum Entry {
    Loop(LoopLine),
    Alarm(AlarmLine),
}

/// Why bytes are no certificate. A number counts lines of the text from 1.
#[derive(Clone, Copy, Debug, PartialEq, Eq)]
pub enum CertificateFault {
    TooLong,
    Header,
    Line(u32),
    Test(u32),
}

/// The refusal of a certificate: want of memory, or a fault.
pub type CertificateRefusal = Refusal<CertificateFault>;

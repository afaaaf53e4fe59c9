//! How commands are compared with what is wanted.

use crate::cases::ran_over_cases;
use crate::running::{Ran, ran_over};
use fam_outer::NoMemory;
use std::alloc::{AllocError, Global};

/// Why a comparison failed.
#[derive(Debug, Drop)]
pub enum Unlike {
    NoMemory,
    /// The words of this line came to something else than is wanted.
    At(String),
}

impl From<NoMemory> for Unlike {
    fn from(_error: NoMemory) -> Unlike {
        Unlike::NoMemory
    }
}

impl From<AllocError> for Unlike {
    fn from(_error: AllocError) -> Unlike {
        Unlike::NoMemory
    }
}

/// Compares what the words of a line came to with the status, the output and the line on `err` that are wanted.
fn compared(
    alloc: Global,
    line: &str,
    ran: &Ran,
    wanted: (u8, &[u8], &[u8]),
) -> Result<(), Unlike> {
    let (status, output, told) = wanted;
    if ran.is(status, output, told) {
        Ok(())
    } else {
        Err(Unlike::At(String::from_str(alloc, line)?))
    }
}

/// Runs the words of a line over the models and files of the tests, of which the loads with these numbers fail, and compares the status,
/// the output and the line on `err`.
pub fn gives(
    alloc: Global,
    line: &str,
    failing: Vec<u64>,
    wanted: (u8, &str, &str),
) -> Result<(), Unlike> {
    let ran = ran_over_cases(alloc, line, failing)?;
    let (status, output, told) = wanted;
    compared(
        alloc,
        line,
        &ran,
        (status, output.as_bytes(), told.as_bytes()),
    )
}

/// The same over these files.
pub fn compares(
    alloc: Global,
    line: &str,
    contents: &[(&str, &[u8])],
    wanted: (u8, &[u8], &[u8]),
) -> Result<(), Unlike> {
    let ran = ran_over(alloc, line, contents)?;
    compared(alloc, line, &ran, wanted)
}

/// A model under the path `m`, and a file under the path `f`.
pub fn two_files<'x>(model: &'x [u8], file: &'x [u8]) -> [(&'x str, &'x [u8]); 2] {
    [("m", model), ("f", file)]
}

/// The same, and a certificate under the path `c`.
pub fn three_files<'x>(
    model: &'x [u8],
    file: &'x [u8],
    certificate: &'x [u8],
) -> [(&'x str, &'x [u8]); 3] {
    [("m", model), ("f", file), ("c", certificate)]
}

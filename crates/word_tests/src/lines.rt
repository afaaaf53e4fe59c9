//! The words of a line.

use fam_outer::NoMemory;
use std::alloc::Global;

/// The words of a line, with a space between two.
pub(crate) fn words_of(alloc: Global, line: &str) -> Result<Vec<String>, NoMemory> {
    let mut words = Vec::new(alloc);
    for word in line.split_whitespace() {
        words.push(String::from_str(alloc, word)?)?;
    }
    Ok(words)
}

//! Commands over files in memory, under any paths.

use fam_outer::{CallNumbers, Entries, MemoryFiles, MemorySink, NoMemory, Text};
use famlint_core::famlint;
use std::alloc::Global;

/// The words of a line.
pub fn words_of(alloc: Global, line: &str) -> Result<Vec<String>, NoMemory> {
    let mut words = Vec::new(alloc);
    for word in line.split_whitespace() {
        words.push(String::from_str(alloc, word)?)?;
    }
    Ok(words)
}

/// Files in memory, each under its path, whose loads do not fail.
pub fn memory_files(alloc: Global, contents: &[(&str, &[u8])]) -> Result<MemoryFiles, NoMemory> {
    let mut entries = Vec::new(alloc);
    for (path, content) in contents {
        let path = Text::from_bytes(alloc, path.as_bytes())?;
        let content = Text::from_bytes(alloc, content)?;
        entries.push((path, content))?;
    }
    Ok(MemoryFiles {
        entries: Entries::from_vec(entries),
        failing: CallNumbers::from_vec(Vec::new(alloc)),
        calls: 0,
        faults: 0,
        failed: None,
    })
}

/// The same of texts, where the loads with these numbers fail.
pub fn text_files(
    alloc: Global,
    texts: &[(&str, &str)],
    failing: Vec<u64>,
) -> Result<MemoryFiles, NoMemory> {
    let mut entries = Vec::new(alloc);
    for (path, text) in texts {
        let path = Text::from_bytes(alloc, path.as_bytes())?;
        let content = Text::from_bytes(alloc, text.as_bytes())?;
        entries.push((path, content))?;
    }
    Ok(MemoryFiles {
        entries: Entries::from_vec(entries),
        failing: CallNumbers::from_vec(failing),
        calls: 0,
        faults: 0,
        failed: None,
    })
}

/// What the words of a line came to: the status, and the bytes of both sinks.
#[derive(Drop)]
pub struct Ran {
    pub status: u8,
    pub out: Vec<u8>,
    pub err: Vec<u8>,
}

impl Ran {
    /// Whether this is the status, the output and the line on `err`.
    pub fn is(&self, status: u8, output: &[u8], told: &[u8]) -> bool {
        self.status == status && self.out.as_slice() == output && self.err.as_slice() == told
    }
}

/// Runs the words of a line over files in memory.
pub fn ran_with(alloc: Global, line: &str, files: &mut MemoryFiles) -> Result<Ran, NoMemory> {
    let words = words_of(alloc, line)?;
    let mut out = MemorySink::new(alloc, 60000, 60000, Vec::new(alloc))?;
    let mut err = MemorySink::new(alloc, 1000, 1000, Vec::new(alloc))?;
    let status = famlint(alloc, &words, files, &mut out, &mut err);
    Ok(Ran {
        status,
        out: Vec::from_slice(alloc, out.taken.as_slice())?,
        err: Vec::from_slice(alloc, err.taken.as_slice())?,
    })
}

/// Runs the words of a line over these files.
pub fn ran_over(alloc: Global, line: &str, contents: &[(&str, &[u8])]) -> Result<Ran, NoMemory> {
    let mut files = memory_files(alloc, contents)?;
    ran_with(alloc, line, &mut files)
}

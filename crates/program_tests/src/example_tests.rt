//! The example files: what is written beside each is what its command writes.

use crate::example_files::{
    FAMILIES, FAMILY_FILES, PROGRAM_FILES, PROGRAMS, REFUSED_FAMILIES, REFUSED_FAMILY_FILES,
    REFUSED_FILES, VARIANTS,
};
use fam_outer::{CallNumbers, Entries, MemoryFiles, MemorySink, NoMemory, Text};
use famlint_core::famlint;
use std::alloc::Global;
use std::test::Fail;
use test_runs::running::words_of;

/// Files with their paths.
type Files = Vec<(Text, Text)>;

/// Adds a file.
fn add_file(alloc: Global, files: &mut Files, path: &str, content: &str) -> Result<(), NoMemory> {
    let path = Text::from_bytes(alloc, path.as_bytes())?;
    let content = Text::from_bytes(alloc, content.as_bytes())?;
    files.push((path, content))?;
    Ok(())
}

// One function for each list, since a check of one with all of them takes too much memory.

fn add_programs(alloc: Global, files: &mut Files) -> Result<(), NoMemory> {
    for (path, content) in PROGRAM_FILES {
        add_file(alloc, files, path, content)?;
    }
    Ok(())
}

fn add_refused(alloc: Global, files: &mut Files) -> Result<(), NoMemory> {
    for (path, content) in REFUSED_FILES {
        add_file(alloc, files, path, content)?;
    }
    Ok(())
}

fn add_families(alloc: Global, files: &mut Files) -> Result<(), NoMemory> {
    for (path, content) in FAMILY_FILES {
        add_file(alloc, files, path, content)?;
    }
    Ok(())
}

fn add_refused_families(alloc: Global, files: &mut Files) -> Result<(), NoMemory> {
    for (path, content) in REFUSED_FAMILY_FILES {
        add_file(alloc, files, path, content)?;
    }
    Ok(())
}

/// The example files in memory.
fn example_files(alloc: Global) -> Result<MemoryFiles, NoMemory> {
    let mut entries = Vec::new(alloc);
    add_programs(alloc, &mut entries)?;
    add_refused(alloc, &mut entries)?;
    add_families(alloc, &mut entries)?;
    add_refused_families(alloc, &mut entries)?;
    Ok(MemoryFiles {
        entries: Entries::from_vec(entries),
        failing: CallNumbers::from_vec(Vec::new(alloc)),
        calls: 0,
        faults: 0,
        failed: None,
    })
}

/// The output of a command, and then its line on the error stream.
fn written(alloc: Global, line: &str) -> Result<Vec<u8>, NoMemory> {
    let words = words_of(alloc, line)?;
    let mut files = example_files(alloc)?;
    let mut out = MemorySink::new(alloc, 60000, 60000, Vec::new(alloc))?;
    let mut err = MemorySink::new(alloc, 1000, 1000, Vec::new(alloc))?;
    famlint(alloc, &words, &mut files, &mut out, &mut err);
    let mut text = Vec::from_slice(alloc, out.taken.as_slice())?;
    text.extend_from_slice(err.taken.as_slice())?;
    Ok(text)
}

#[test]
fn programs_are_as_expected(rt: HostRuntime) -> Result<(), Fail> {
    for (line, expected) in PROGRAMS {
        let text = written(rt.alloc(), line).map_err(|_| "memory")?;
        assert_eq!(rt; text.as_slice(), expected.as_bytes(), "at {line}");
    }
    Ok(())
}

#[test]
fn families_are_as_expected(rt: HostRuntime) -> Result<(), Fail> {
    for (line, expected) in FAMILIES {
        let text = written(rt.alloc(), line).map_err(|_| "memory")?;
        assert_eq!(rt; text.as_slice(), expected.as_bytes(), "at {line}");
    }
    Ok(())
}

#[test]
fn variants_are_as_expected(rt: HostRuntime) -> Result<(), Fail> {
    for (line, expected) in VARIANTS {
        let text = written(rt.alloc(), line).map_err(|_| "memory")?;
        assert_eq!(rt; text.as_slice(), expected.as_bytes(), "at {line}");
    }
    Ok(())
}

#[test]
fn refused_families_are_as_expected(rt: HostRuntime) -> Result<(), Fail> {
    for (line, expected) in REFUSED_FAMILIES {
        let text = written(rt.alloc(), line).map_err(|_| "memory")?;
        assert_eq!(rt; text.as_slice(), expected.as_bytes(), "at {line}");
    }
    Ok(())
}

//! Generated families of rising size, over each kind of leaf and in both modes: none meets want of memory.

use fam_outer::{MemorySink, NoMemory};
use famlint_core::famlint;
use std::alloc::Global;
use std::test::Fail;
use test_runs::running::{memory_files, words_of};

/// The status of a command that names no files.
fn status_of(alloc: Global, line: &str) -> Result<u8, NoMemory> {
    let words = words_of(alloc, line)?;
    let mut files = memory_files(alloc, &[])?;
    let mut out = MemorySink::new(alloc, 60000, 60000, Vec::new(alloc))?;
    let mut err = MemorySink::new(alloc, 1000, 1000, Vec::new(alloc))?;
    Ok(famlint(alloc, &words, &mut files, &mut out, &mut err))
}

#[test]
fn generated_families_have_memory(rt: HostRuntime) -> Result<(), Fail> {
    for size in ["1", "20", "300"] {
        for domain in ["interval", "stride", "octagon", "sharp"] {
            for mode in ["stop", "wrap"] {
                let line = format!(in rt.alloc();
                    "generate {size} --domain {domain} --overflow {mode}"
                ).map_err(|_| "memory")?;
                let status = status_of(rt.alloc(), line.as_str()).map_err(|_| "memory")?;
                assert!(rt; status <= 1, "at {line}");
            }
        }
    }
    Ok(())
}

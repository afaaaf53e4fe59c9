//! Calls with ample memory, and the two adapters over a real file and a real stream.

use fam_host::{HostFiles, HostSink};
use fam_outer::{
    CallNumbers, Entries, Files, Loaded, MemoryFiles, MemorySink, NoMemory, Sink, SteadyFiles,
    SteadySink, Text, decimal, write_all,
};
use std::alloc::Global;
use std::fs;
use std::test::Fail;

fn entry(alloc: Global, path: &[u8], content: &[u8]) -> Result<(Text, Text), NoMemory> {
    Ok((
        Text::from_bytes(alloc, path)?,
        Text::from_bytes(alloc, content)?,
    ))
}

/// A file `a` that holds `one`, another `a`, and a file `b` that holds `four`.
fn entries(alloc: Global) -> Result<Entries, NoMemory> {
    let mut list = Vec::new(alloc);
    list.push(entry(alloc, b"a", b"one")?)?;
    list.push(entry(alloc, b"a", b"other")?)?;
    list.push(entry(alloc, b"b", b"four")?)?;
    Ok(Entries::from_vec(list))
}

fn text_of(loaded: &Loaded) -> Option<&[u8]> {
    match loaded {
        Loaded::Whole(text) => Some(text.bytes()),
        _ => None,
    }
}

#[test]
fn numbers_are_decimal(rt: HostRuntime) -> Result<(), Fail> {
    let cases = [
        (0, "0"),
        (7, "7"),
        (-10, "-10"),
        (2147483647, "2147483647"),
        (i64::MIN, "-9223372036854775808"),
    ];
    for (n, want) in cases {
        assert_eq!(rt; decimal(rt.alloc(), n)?.bytes(), want.as_bytes());
    }
    Ok(())
}

#[test]
fn texts_are_copied(rt: HostRuntime) -> Result<(), Fail> {
    let text = Text::from_bytes(rt.alloc(), b"ab")?;
    let copy = text.copy(rt.alloc())?;
    assert_eq!(rt; copy.bytes(), b"ab".as_slice());
    assert!(rt; copy == text);
    assert!(rt; copy != Text::from_bytes(rt.alloc(), b"abc")?);
    Ok(())
}

#[test]
fn memory_files_answer(rt: HostRuntime) -> Result<(), Fail> {
    let mut failing = Vec::new(rt.alloc());
    failing.push(4)?;
    let mut files = MemoryFiles {
        entries: entries(rt.alloc())?,
        failing: CallNumbers::from_vec(failing),
        calls: 0,
        faults: 0,
        failed: None,
    };
    assert_eq!(rt;
        text_of(&files.load(rt.alloc(), "a", 3)),
        Some(b"one".as_slice())
    );
    assert!(rt; matches!(files.load(rt.alloc(), "b", 3), Loaded::TooLong));
    assert!(rt; matches!(files.load(rt.alloc(), "c", 3), Loaded::Failed));
    assert!(rt; matches!(files.load(rt.alloc(), "b", 4), Loaded::Failed));
    assert_eq!(rt;
        text_of(&files.load(rt.alloc(), "b", 4)),
        Some(b"four".as_slice())
    );
    assert_eq!(rt; files.faults(), 2);
    assert_eq!(rt;
        files.failed().map(|path| path.bytes()),
        Some(b"b".as_slice())
    );
    Ok(())
}

#[test]
fn memory_sinks_take_pieces(rt: HostRuntime) -> Result<(), Fail> {
    let mut failing = Vec::new(rt.alloc());
    failing.push(2)?;
    let mut sink = MemorySink::new(rt.alloc(), 6, 4, failing)?;
    assert!(rt; !write_all(&mut sink, b"alarms"));
    assert!(rt; write_all(&mut sink, b"ms"));
    assert!(rt; !write_all(&mut sink, b"!"));
    assert_eq!(rt; sink.taken.as_slice(), b"alarms".as_slice());
    assert_eq!(rt; sink.faults, 2);
    Ok(())
}

#[test]
fn steady_forms_never_fail(rt: HostRuntime) -> Result<(), Fail> {
    let mut files = SteadyFiles {
        entries: entries(rt.alloc())?,
    };
    assert_eq!(rt;
        text_of(&files.load(rt.alloc(), "a", 9)),
        Some(b"one".as_slice())
    );
    assert_eq!(rt;
        text_of(&files.load(rt.alloc(), "c", 9)),
        Some(b"".as_slice())
    );
    let mut sink = SteadySink { bytes: 1 };
    assert!(rt; write_all(&mut sink, b"four"));
    assert_eq!(rt; sink.bytes, 5);
    Ok(())
}

#[test]
fn a_real_file_is_read_to_its_end(rt: HostRuntime) -> Result<(), Fail> {
    fs::write(&rt, "fam_outer_real_file", "real bytes")?;
    let mut files = HostFiles::new(rt);
    let whole = files.load(rt.alloc(), "fam_outer_real_file", 10);
    let long = files.load(rt.alloc(), "fam_outer_real_file", 9);
    let absent = files.load(rt.alloc(), "fam_outer_no_such_file", 9);
    fs::remove_file(&rt, "fam_outer_real_file")?;
    assert_eq!(rt; text_of(&whole), Some(b"real bytes".as_slice()));
    assert!(rt; matches!(long, Loaded::TooLong));
    assert!(rt; matches!(absent, Loaded::Failed));
    assert_eq!(rt; files.faults(), 1);
    assert_eq!(rt;
        files.failed().map(|path| path.bytes()),
        Some(b"fam_outer_no_such_file".as_slice())
    );
    Ok(())
}

#[test]
fn a_real_stream_takes_all(rt: HostRuntime) -> Result<(), Fail> {
    let mut sink = HostSink::new(fs::create(&rt, "fam_outer_real_stream")?);
    let is_written = write_all(&mut sink, b"streamed");
    let bytes = fs::read(&rt, "fam_outer_real_stream")?;
    fs::remove_file(&rt, "fam_outer_real_stream")?;
    assert!(rt; is_written);
    assert_eq!(rt; bytes.as_slice(), b"streamed".as_slice());
    assert_eq!(rt; sink.faults(), 0);
    let mut closed = HostSink::new(fs::open(&rt, "/dev/null")?);
    assert!(rt; !write_all(&mut closed, b"refused"));
    assert_eq!(rt; closed.faults(), 1);
    Ok(())
}

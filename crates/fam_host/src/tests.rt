//! Readers and writers that signals interrupt, by count.

use crate::{HostSink, read_whole};
use fam_outer::{Loaded, Sink, write_all};
use std::io::{self, ErrorKind, Read, Write};
use std::test::Fail;

/// A reader or a writer that is interrupted after each `good` calls.
#[derive(Drop)]
struct Interrupted<T> {
    inner: T,
    good: u32,
    left: u32,
}

impl<T> Interrupted<T> {
    fn comes(&mut self) -> bool {
        match self.left.checked_sub(1) {
            None => {
                self.left = self.good;
                true
            }
            Some(left) => {
                self.left = left;
                false
            }
        }
    }
}

impl<R: Read> Read for Interrupted<R> {
    fn read(&mut self, buf: &mut [u8]) -> io::Result<usize> {
        if self.comes() {
            return Err(io::Error::from(ErrorKind::Interrupted));
        }
        self.inner.read(buf)
    }
}

impl<W: Write> Write for Interrupted<W> {
    fn write(&mut self, buf: &[u8]) -> io::Result<usize> {
        if self.comes() {
            return Err(io::Error::from(ErrorKind::Interrupted));
        }
        self.inner.write(&buf[..buf.len().min(3)])
    }

    fn flush(&mut self) -> io::Result<()> {
        self.inner.flush()
    }
}

fn with_interrupts<T>(inner: T, good: u32) -> Interrupted<T> {
    Interrupted {
        inner,
        good,
        left: good,
    }
}

// a text longer than two chunks
#[test]
fn interrupted_reads_lose_nothing(rt: HostRuntime) -> Result<(), Fail> {
    let text = [7u8; 10000];
    for good in [1, 2] {
        let mut file = with_interrupts(text.as_slice(), good);
        match read_whole(rt.alloc(), &mut file, 10000) {
            Loaded::Whole(whole) => assert!(rt; whole.bytes() == text.as_slice()),
            _ => return Err(Fail::new("not whole")),
        }
        let mut long = with_interrupts(text.as_slice(), good);
        assert!(rt; matches!(read_whole(rt.alloc(), &mut long, 9999), Loaded::TooLong));
    }
    Ok(())
}

#[test]
fn interrupted_writes_lose_nothing(rt: HostRuntime) -> Result<(), Fail> {
    for good in [1, 2] {
        let mut sink = HostSink::new(with_interrupts(Vec::new(rt.alloc()), good));
        assert!(rt; write_all(&mut sink, b"interrupted"));
        assert_eq!(rt; sink.stream.inner.as_slice(), b"interrupted".as_slice());
        assert_eq!(rt; sink.faults(), 0);
    }
    Ok(())
}

#[test]
fn an_interrupt_for_ever_is_a_fault(rt: HostRuntime) -> Result<(), Fail> {
    let mut file = with_interrupts(b"never".as_slice(), 0);
    assert!(rt; matches!(read_whole(rt.alloc(), &mut file, 10), Loaded::Failed));
    let mut sink = HostSink::new(with_interrupts(Vec::new(rt.alloc()), 0));
    assert!(rt; !write_all(&mut sink, b"never"));
    assert_eq!(rt; sink.stream.inner.as_slice(), b"".as_slice());
    assert_eq!(rt; sink.faults(), 1);
    Ok(())
}

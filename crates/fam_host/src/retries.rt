//! Calls of the system that are tried again where a signal interrupts them.
#![tactic(auto)]

ghost use Rattle.std.specs.Prelude.{◌≡◌, ◌<◌, take, length, IfOk, OnErr};
ghost use Rattle.std.specs.Io.KnownBytes.{Keeps, Appends, Consumes, IsAtEnd};
ghost use Rattle.std.specs.Io.{ReadsAtMost, WritesAtMost};

use std::io::{self, ErrorKind, Read, Write};
use std::{fs, rt};

/// How many interrupts in a row a call is tried again after. One more is the fault that it is.
pub const MOST_INTERRUPTS: u32 = 1000;

/// A signal came before the call did anything.
fn is_interrupted(error: &io::Error) -> bool {
    error.kind() == ErrorKind::Interrupted
}

/// The file of the path, opened for reading.
pub(crate) fn open_file<R: rt::Files>(runtime: &R, path: &str) -> io::Result<R::File> {
    for _try in 0..MOST_INTERRUPTS {
        match fs::open(runtime, path) {
            Ok(file) => return Ok(file),
            Err(error) => {
                if !is_interrupted(&error) {
                    return Err(error);
                }
            }
        }
    }
    fs::open(runtime, path)
}

/// One read. Where it fails, no byte that the reader has left is lost.
pub(crate) fn read_some<F: Read>(file: &mut F, chunk: &mut [u8]) -> io::Result<usize>
    ensures bound { ReadsAtMost result chunk.new }
    ensures ok { IfOk result (λ n. Consumes (F.remaining file.old) (F.remaining file.new) (take n chunk.new)) }
    ensures end { IfOk result (λ n. n ≡ 0 → 0 < length chunk.old → IsAtEnd (F.remaining file.new)) }
    ensures err { OnErr result (Keeps (F.remaining file.old) (F.remaining file.new)) }
{
    for _try in 0..MOST_INTERRUPTS {
        match file.read(chunk) {
            Ok(count) => return Ok(count),
            Err(error) => {
                if !is_interrupted(&error) {
                    return Err(error);
                }
            }
        }
    }
    file.read(chunk)
}

/// One write. Where it fails, nothing was written.
pub(crate) fn write_some<W: Write>(stream: &mut W, bytes: &[u8]) -> io::Result<usize>
    ensures bound { WritesAtMost result bytes.now }
    ensures ok { IfOk result (λ n. Appends (W.contents stream.old) (W.contents stream.new) (take n bytes.now)) }
    ensures err { OnErr result (Keeps (W.contents stream.old) (W.contents stream.new)) }
{
    for _try in 0..MOST_INTERRUPTS {
        match stream.write(bytes) {
            Ok(count) => return Ok(count),
            Err(error) => {
                if !is_interrupted(&error) {
                    return Err(error);
                }
            }
        }
    }
    stream.write(bytes)
}

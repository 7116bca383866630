//! Sources and sinks over std's readers and writers. Nothing is told of the bytes that pass.

ghost use Rattle.std.specs.Prelude.{◌≡◌, ◌<◌, ◌≤◌, None, length, is_ok, if◌then◌else◌, IfOk, OnErr};
ghost use Rattle.std.specs.Io.{ReadsAtMost, WritesAtMost};
ghost use Rattle.std.specs.Io.KnownBytes.{ReadConsumes, WriteAppends};
ghost use Rattle.phase_run.specs.Faults.{Rose, one_more};

use crate::failed::Failed;
use crate::sink::Sink;
use crate::source::Source;
use std::io::{self, ErrorKind, Read, Write};

/// Reads, and tries again where the read was interrupted before it moved a byte.
fn read_on<R: Read>(inner: &mut R, buf: &mut [u8]) -> io::Result<usize>
    ensures bound { ReadsAtMost result buf.new }
    ensures bytes { ReadConsumes (R.remaining inner.old) (R.remaining inner.new) result buf.new }
{
    for _ in 0..u64::MAX {
        match inner.read(buf) {
            Ok(n) => return Ok(n),
            Err(error) => {
                if error.kind() != ErrorKind::Interrupted {
                    return Err(error);
                }
            }
        }
    }
    Err(io::Error::from(ErrorKind::Interrupted))
}

/// Writes, and tries again where the write was interrupted before it moved a byte.
fn write_on<W: Write>(inner: &mut W, piece: &[u8]) -> io::Result<usize>
    ensures bound { WritesAtMost result piece.now }
    ensures bytes { WriteAppends (W.contents inner.old) (W.contents inner.new) result piece.now }
{
    for _ in 0..u64::MAX {
        match inner.write(piece) {
            Ok(n) => return Ok(n),
            Err(error) => {
                if error.kind() != ErrorKind::Interrupted {
                    return Err(error);
                }
            }
        }
    }
    Err(io::Error::from(ErrorKind::Interrupted))
}

/// A source over a reader. It counts the reader's errors, but for interruptions, after which it reads again, up to the greatest number that a `u64` holds.
#[derive(Drop)]
pub struct StdSource<R: Read> {
    inner: R,
    faults: u64,
}

impl<R: Read> StdSource<R> {
    /// A source over the reader, with no fault yet.
    pub fn new(inner: R) -> StdSource<R>
        ensures inner { result.inner ≡ inner }
        ensures faults { result.faults ≡ 0 }
    {
        StdSource { inner, faults: 0 }
    }
}

impl<R: Read> Source for StdSource<R> {
    ghost remaining = { λ _. None };

    ghost faults = { λ s. s.faults };

    fn take(&mut self, buf: &mut [u8]) -> Result<usize, Failed>
        requires { 0 < length buf.old }
        ensures bound { ReadsAtMost result buf.new }
        ensures bytes { ReadConsumes None None result buf.new }
        ensures steady { self.old.faults ≤ self.new.faults }
        ensures failed { OnErr result (Rose self.old.faults self.new.faults) }
        // The reader gave what is handed on.
        ensures inner { ReadConsumes (R.remaining self.old.inner) (R.remaining self.new.inner) result buf.new }
        ensures counted { self.new.faults ≡ (if is_ok result then self.old.faults else one_more self.old.faults) }
    {
        match read_on(&mut self.inner, buf) {
            Ok(n) => Ok(n),
            Err(_) => {
                self.faults = self.faults.saturating_add(1);
                Err(Failed)
            }
        }
    }
}

/// A sink over a writer. It counts the writer's errors, but for interruptions, after which it writes again, up to the greatest number that a `u64` holds. A write that takes
/// nothing is one.
#[derive(Drop)]
pub struct StdSink<W: Write> {
    inner: W,
    faults: u64,
}

impl<W: Write> StdSink<W> {
    /// A sink over the writer, with no fault yet.
    pub fn new(inner: W) -> StdSink<W>
        ensures inner { result.inner ≡ inner }
        ensures faults { result.faults ≡ 0 }
    {
        StdSink { inner, faults: 0 }
    }
}

impl<W: Write> Sink for StdSink<W> {
    ghost given = { λ _. None };

    ghost faults = { λ s. s.faults };

    fn give(&mut self, piece: &[u8]) -> Result<usize, Failed>
        requires { 0 < length piece.now }
        ensures some { IfOk result (λ n. 0 < n) }
        ensures bound { WritesAtMost result piece.now }
        ensures bytes { WriteAppends None None result piece.now }
        ensures steady { self.old.faults ≤ self.new.faults }
        ensures failed { OnErr result (Rose self.old.faults self.new.faults) }
        // The writer took what was handed on.
        ensures inner { WriteAppends (W.contents self.old.inner) (W.contents self.new.inner) result piece.now }
        ensures counted { self.new.faults ≡ (if is_ok result then self.old.faults else one_more self.old.faults) }
    {
        match write_on(&mut self.inner, piece) {
            Ok(n) if n > 0 => Ok(n),
            _ => {
                self.faults = self.faults.saturating_add(1);
                Err(Failed)
            }
        }
    }
}

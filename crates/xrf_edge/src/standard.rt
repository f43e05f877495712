// The ends over a reader and a writer of std, which tell no byte.
ghost use Rattle.std.specs.Prelude.{◌≡◌, ◌≤◌, ◌<◌, ◌↔◌, None, IfOk, OnOk, OnErr, IsTrue, length, take, IfSome};
ghost use Rattle.std.specs.IoError.{error_kind};
ghost use Rattle.std.specs.Io.KnownBytes.{Appends, Keeps, ReadConsumes};
ghost use Rattle.xrf_edge.specs.Faults.{HasRisen, next_count};
ghost use Rattle.xrf_edge.specs.Standard.{reader_of, reader_faults, writer_of, writer_faults};

use crate::{Failed, Sink, Source};
use std::io::{Error, ErrorKind, Read, Write};

/// How often a read, a write or a flush is tried while signals interrupt it.
pub const TRIES: u32 = 100_000;

/// A source over a reader, such as standard input. It does not tell its bytes. A read that a signal
/// interrupts is tried again, [`TRIES`] times in all; only then it is a fault.
#[derive(Drop)]
pub struct StdSource<R: Read> {
    reader: R,
    faults: u64,
}

impl<R: Read> StdSource<R> {
    pub fn new(reader: R) -> Self
        ensures reader { reader_of result ≡ reader }
        ensures faults { reader_faults result ≡ 0 }
    {
        StdSource { reader, faults: 0 }
    }
}

impl<R: Read> Source for StdSource<R> {
    ghost end = { λ s. record { bytes = None; faults = reader_faults s } };

    fn read(&mut self, into: &mut [u8]) -> Result<usize, Failed>
        ensures within { IfOk result (λ n. n ≤ length into.new) }
        ensures passes { ReadConsumes (R.remaining (reader_of self.old)) (R.remaining (reader_of self.new)) result into.new }
        ensures ok { OnOk result (reader_faults self.new ≡ reader_faults self.old) }
        ensures err { OnErr result (reader_faults self.new ≡ next_count (reader_faults self.old)) }
        ensures cause { OnErr result (HasRisen (reader_faults self.old) (reader_faults self.new)) }
        ensures count { reader_faults self.old ≤ reader_faults self.new }
    {
        match read_on(&mut self.reader, into) {
            Ok(n) => Ok(n),
            Err(Failed) => {
                self.faults = self.faults.saturating_add(1);
                Err(Failed)
            }
        }
    }
}

fn is_interrupted(error: &Error) -> bool
    ensures { IsTrue result ↔ (error_kind error.now ≡ ErrorKind.Interrupted) }
{
    error.kind() == ErrorKind::Interrupted
}

/// Reads once, and again where a signal interrupts it.
fn read_on<R: Read>(reader: &mut R, into: &mut [u8]) -> Result<usize, Failed>
    ensures within { IfOk result (λ n. n ≤ length into.new) }
    ensures passes { ReadConsumes (R.remaining reader.old) (R.remaining reader.new) result into.new }
{
    for _ in 0..TRIES {
        match reader.read(into) {
            Ok(n) => return Ok(n),
            Err(error) => {
                if !is_interrupted(&error) {
                    return Err(Failed);
                }
            }
        }
    }
    Err(Failed)
}

/// A sink over a writer, such as standard output. It does not tell its bytes. Each write is
/// flushed, and a flush that fails is a fault of that write. Where a signal interrupts one of them
/// it is tried again, [`TRIES`] times in all; only then it is a fault.
#[derive(Drop)]
pub struct StdSink<W: Write> {
    writer: W,
    faults: u64,
}

impl<W: Write> StdSink<W> {
    pub fn new(writer: W) -> Self
        ensures writer { writer_of result ≡ writer }
        ensures faults { writer_faults result ≡ 0 }
    {
        StdSink { writer, faults: 0 }
    }
}

impl<W: Write> Sink for StdSink<W> {
    ghost end = { λ s. record { bytes = None; faults = writer_faults s } };

    fn write(&mut self, from: &[u8]) -> Result<usize, Failed>
        ensures within { IfOk result (λ n. n ≤ length from.now) }
        ensures goes_on { IfOk result (λ n. 0 < length from.now → 0 < n) }
        ensures passes { IfOk result (λ n. Appends (W.contents (writer_of self.old)) (W.contents (writer_of self.new)) (take n from.now)) }
        ensures ok { OnOk result (writer_faults self.new ≡ writer_faults self.old) }
        ensures err { OnErr result (writer_faults self.new ≡ next_count (writer_faults self.old)) }
        ensures cause { OnErr result (HasRisen (writer_faults self.old) (writer_faults self.new)) }
        ensures count { writer_faults self.old ≤ writer_faults self.new }
    {
        match write_flushed(&mut self.writer, from) {
            Some(n) => Ok(n),
            None => {
                self.faults = self.faults.saturating_add(1);
                Err(Failed)
            }
        }
    }
}

/// Writes and flushes once, and says how many bytes went out. It is none where the write or the
/// flush fails, or the writer takes nothing of some bytes.
fn write_flushed<W: Write>(writer: &mut W, from: &[u8]) -> Option<usize>
    ensures within { IfSome result (λ n. n ≤ length from.now) }
    ensures goes_on { IfSome result (λ n. 0 < length from.now → 0 < n) }
    ensures passes { IfSome result (λ n. Appends (W.contents writer.old) (W.contents writer.new) (take n from.now)) }
{
    let n = write_on(writer, from)?;
    flush_on(writer).ok()?;
    if n == 0 && !from.is_empty() {
        return None;
    }
    Some(n)
}

/// Writes once, and again where a signal interrupts it.
fn write_on<W: Write>(writer: &mut W, from: &[u8]) -> Option<usize>
    ensures within { IfSome result (λ n. n ≤ length from.now) }
    ensures passes { IfSome result (λ n. Appends (W.contents writer.old) (W.contents writer.new) (take n from.now)) }
{
    for _ in 0..TRIES {
        match writer.write(from) {
            Ok(n) => return Some(n),
            Err(error) => {
                if !is_interrupted(&error) {
                    return None;
                }
            }
        }
    }
    None
}

/// Flushes once, and again where a signal interrupts it.
fn flush_on<W: Write>(writer: &mut W) -> Result<(), Failed>
    ensures { Keeps (W.contents writer.old) (W.contents writer.new) }
{
    for _ in 0..TRIES {
        match writer.flush() {
            Ok(()) => return Ok(()),
            Err(error) => {
                if !is_interrupted(&error) {
                    return Err(Failed);
                }
            }
        }
    }
    Err(Failed)
}

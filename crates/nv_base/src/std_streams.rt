// Any reader of std as a source, and any writer as a sink. What they consume and append is told by
// the reader's and the writer's own ghost content, where these have it.

ghost use Rattle.std.specs.Prelude.{◌≡◌, ◌≤◌, ◌<◌, IfOk, OnErr, OnOk, length};
ghost use Rattle.std.specs.Io.KnownBytes.{Keeps, ReadConsumes, WriteAppends};
ghost use Rattle.nv_base.specs.StdStreams.{read_faults, reader_of, reader_seen, write_faults, writer_of, writer_seen};
ghost use Rattle.nv_base.specs.Streams.{FaultCounted};

use crate::streams::{Sink, SinkFailed, Source, SourceFailed};
use std::io::{Read, Write};

/// Reads once. `SourceFailed` where the reader failed, and then the count of faults rises.
fn read_some<R: Read>(
    reader: &mut R,
    count: &mut u64,
    buf: &mut [u8],
) -> Result<usize, SourceFailed>
    ensures within { IfOk result (λ n. n ≤ length buf.new) }
    ensures bytes { ReadConsumes (R.remaining reader.old) (R.remaining reader.new) result buf.new }
    ensures still { OnOk result (count.new ≡ count.old) }
    ensures failed { OnErr result (FaultCounted count.old count.new) }
{
    match reader.read(buf) {
        Ok(n) => Ok(n),
        Err(_) => {
            *count = count.saturating_add(1);
            Err(SourceFailed)
        }
    }
}

/// Writes once. `SinkFailed` where the writer failed or took nothing of a piece that is not empty,
/// and then the count of faults rises.
fn write_some<W: Write>(writer: &mut W, count: &mut u64, piece: &[u8]) -> Result<usize, SinkFailed>
    ensures within { IfOk result (λ n. n ≤ length piece.now) }
    ensures some { IfOk result (λ n. 0 < length piece.now → 0 < n) }
    ensures bytes { WriteAppends (W.contents writer.old) (W.contents writer.new) result piece.now }
    ensures still { OnOk result (count.new ≡ count.old) }
    ensures failed { OnErr result (FaultCounted count.old count.new) }
{
    match writer.write(piece) {
        Ok(n) if n > 0 || piece.is_empty() => Ok(n),
        // a writer that takes nothing of a piece would never take it
        _ => {
            *count = count.saturating_add(1);
            Err(SinkFailed)
        }
    }
}

/// Flushes once. `SinkFailed` where the writer failed, and then the count of faults rises.
fn flush_some<W: Write>(writer: &mut W, count: &mut u64) -> Result<(), SinkFailed>
    ensures bytes { Keeps (W.contents writer.old) (W.contents writer.new) }
    ensures still { OnOk result (count.new ≡ count.old) }
    ensures failed { OnErr result (FaultCounted count.old count.new) }
{
    if writer.flush().is_err() {
        *count = count.saturating_add(1);
        return Err(SinkFailed);
    }
    Ok(())
}

/// A source over a reader.
#[derive(Debug, Drop)]
pub struct StdSource<R: Read> {
    reader: R,
    count: u64,
}

impl<R: Read> StdSource<R> {
    /// A source that reads from this reader, without a buffer of its own.
    pub fn new(reader: R) -> StdSource<R>
        ensures reader { reader_of result ≡ reader }
        ensures faults { read_faults result ≡ 0 }
    {
        StdSource { reader, count: 0 }
    }
}

impl<R: Read> Source for StdSource<R> {
    ghost seen = { λ s. reader_seen s };

    fn take(&mut self, buf: &mut [u8]) -> Result<usize, SourceFailed>
        ensures within { IfOk result (λ n. n ≤ length buf.new) }
        ensures bytes { ReadConsumes (R.remaining (reader_of self.old))
            (R.remaining (reader_of self.new)) result buf.new }
        ensures still { OnOk result (read_faults self.new ≡ read_faults self.old) }
        ensures failed { OnErr result (FaultCounted (read_faults self.old) (read_faults self.new)) }
        ensures never_falls { read_faults self.old ≤ read_faults self.new }
    {
        read_some(&mut self.reader, &mut self.count, buf)
    }
}

/// A sink over a writer. Each piece goes straight to the writer, so no byte waits here; where the writer keeps some
/// back, `flush` hands them on.
#[derive(Debug, Drop)]
pub struct StdSink<W: Write> {
    writer: W,
    count: u64,
}

impl<W: Write> StdSink<W> {
    /// A sink that writes to this writer, without a buffer of its own.
    pub fn new(writer: W) -> StdSink<W>
        ensures writer { writer_of result ≡ writer }
        ensures faults { write_faults result ≡ 0 }
    {
        StdSink { writer, count: 0 }
    }

    /// Hands on what the writer has kept back. `SinkFailed` where the writer failed.
    pub fn flush(&mut self) -> Result<(), SinkFailed>
        ensures bytes { Keeps (W.contents (writer_of self.old)) (W.contents (writer_of self.new)) }
        ensures still { OnOk result (write_faults self.new ≡ write_faults self.old) }
        ensures failed { OnErr result
            (FaultCounted (write_faults self.old) (write_faults self.new)) }
        ensures never_falls { write_faults self.old ≤ write_faults self.new }
    {
        flush_some(&mut self.writer, &mut self.count)
    }
}

impl<W: Write> Sink for StdSink<W> {
    ghost seen = { λ s. writer_seen s };

    fn put(&mut self, piece: &[u8]) -> Result<usize, SinkFailed>
        ensures within { IfOk result (λ n. n ≤ length piece.now) }
        ensures some { IfOk result (λ n. 0 < length piece.now → 0 < n) }
        ensures bytes { WriteAppends (W.contents (writer_of self.old))
            (W.contents (writer_of self.new)) result piece.now }
        ensures still { OnOk result (write_faults self.new ≡ write_faults self.old) }
        ensures failed { OnErr result
            (FaultCounted (write_faults self.old) (write_faults self.new)) }
        ensures never_falls { write_faults self.old ≤ write_faults self.new }
    {
        write_some(&mut self.writer, &mut self.count, piece)
    }
}

ghost use Rattle.std.specs.Prelude.{◌≡◌, ◌<◌, ◌≤◌, ◌^◌, Err, IfOk, IsErr, OnErr, is_some, length};
ghost use Rattle.std.specs.Io.{ReadsAtMost};
ghost use Rattle.std.specs.Io.KnownBytes.{ReadConsumes, WriteAppends};
ghost use Rattle.fault_count.specs.Faults.{Counts, HasCause, HasCauseAt};
ghost use Rattle.byte_io.specs.Sources.{TakesTurn};
ghost use Rattle.byte_io.specs.Streams.{reader_faults, reader_of, sink_tells, source_tells, turns_of, writer_faults, writer_of};

use crate::sink::{Sink, SinkError};
use crate::source::{Failed, Source};
use std::io::{Read, Write};

/// No source gives bytes for ever, so one that was read this often fails.
pub const MAX_TURNS: u64 = 1 << 62;

/// A source over any std reader. It tells nothing, and counts a fault at each `Err` of the reader. One
/// that was read 2^62 times fails.
#[derive(Drop)]
pub struct StdSource<R> {
    reader: R,
    turns: u64,
    faults: u64,
}

impl<R: Read> StdSource<R> {
    /// A source of which no byte was read.
    pub fn new(reader: R) -> StdSource<R>
        ensures reader { reader_of result ≡ reader }
        ensures turns { turns_of result ≡ 2 ^ 62 }
        ensures faults { reader_faults result ≡ 0 }
    {
        StdSource {
            reader,
            turns: MAX_TURNS,
            faults: 0,
        }
    }
}

impl<R: Read> Source for StdSource<R> {
    ghost left = { source_tells };

    ghost turns = { turns_of };

    ghost faults = { reader_faults };

    fn read(&mut self, buf: &mut [u8]) -> Result<usize, Failed>
        ensures bound { ReadsAtMost result buf.new }
        ensures bytes { ReadConsumes (source_tells self.old) (source_tells self.new) result buf.new }
        ensures tells { is_some (source_tells self.new) ≡ is_some (source_tells self.old) }
        ensures turns { TakesTurn (turns_of self.old) (turns_of self.new) result }
        ensures cause { HasCause (reader_faults self.old) (reader_faults self.new) result }

        // It gives the bytes that its reader gives, where these are known.
        ensures through { ReadConsumes (R.remaining (reader_of self.old))
            (R.remaining (reader_of self.new)) result buf.new }

        // Where no turn is left, it fails; each time that it fails is counted.
        ensures spent { turns_of self.old ≡ 0 → IsErr result }
        ensures counted { Counts (reader_faults self.old) (reader_faults self.new) result }
    {
        let read = read_in_turn(&mut self.reader, &mut self.turns, buf);
        counted(&mut self.faults, read)
    }
}

/// Reads, where a turn is left.
pub fn read_in_turn<R: Read>(
    reader: &mut R,
    turns: &mut u64,
    buf: &mut [u8],
) -> Result<usize, Failed>
    ensures bound { ReadsAtMost result buf.new }
    ensures turns { TakesTurn turns.old turns.new result }
    ensures spent { turns.old ≡ 0 → IsErr result }
    ensures through { ReadConsumes (R.remaining reader.old) (R.remaining reader.new) result buf.new }
{
    if *turns == 0 {
        return Err(Failed);
    }
    *turns -= 1;
    match reader.read(buf) {
        Ok(count) => Ok(count),
        Err(_) => Err(Failed),
    }
}

/// The answer, with a count for each that failed.
pub fn counted<T, E>(faults: &mut u64, answer: Result<T, E>) -> Result<T, E>
    ensures same { result ≡ answer }
    ensures counted { Counts faults.old faults.new result }
    ensures cause { HasCause faults.old faults.new result }
{
    if answer.is_err() {
        *faults = faults.saturating_add(1);
    }
    answer
}

/// A sink over any std writer. It tells nothing, and counts a fault at each `Err` of the writer. A write
/// of no byte is a fault.
#[derive(Drop)]
pub struct StdSink<W> {
    writer: W,
    faults: u64,
}

impl<W: Write> StdSink<W> {
    /// A sink that was given no byte.
    pub fn new(writer: W) -> StdSink<W>
        ensures writer { writer_of result ≡ writer }
        ensures faults { writer_faults result ≡ 0 }
    {
        StdSink { writer, faults: 0 }
    }
}

impl<W: Write> Sink for StdSink<W> {
    ghost written = { sink_tells };

    ghost faults = { writer_faults };

    fn write(&mut self, piece: &[u8]) -> Result<usize, SinkError>
        ensures some { IfOk result (λ n. 0 < n) }
        ensures bound { IfOk result (λ n. n ≤ length piece.now) }
        ensures bytes { WriteAppends (sink_tells self.old) (sink_tells self.new) result piece.now }
        ensures tells { is_some (sink_tells self.new) ≡ is_some (sink_tells self.old) }
        ensures cause { HasCauseAt SinkError.Failed (writer_faults self.old) (writer_faults self.new) result }

        // Its writer takes the bytes that it takes, where these are known.
        ensures through { WriteAppends (W.contents (writer_of self.old))
            (W.contents (writer_of self.new)) result piece.now }

        // It fails in no other way, and each time is counted.
        ensures only { OnErr result (result ≡ Err SinkError.Failed) }
        ensures counted { Counts (writer_faults self.old) (writer_faults self.new) result }
    {
        let written = write_some(&mut self.writer, piece);
        counted(&mut self.faults, written)
    }
}

/// Writes a front of the piece. One of no byte has failed.
pub fn write_some<W: Write>(writer: &mut W, piece: &[u8]) -> Result<usize, SinkError>
    ensures some { IfOk result (λ n. 0 < n) }
    ensures bound { IfOk result (λ n. n ≤ length piece.now) }
    ensures only { OnErr result (result ≡ Err SinkError.Failed) }
    ensures through { WriteAppends (W.contents writer.old) (W.contents writer.new) result piece.now }
{
    match writer.write(piece) {
        Ok(0) => Err(SinkError::Failed),
        Ok(taken) => Ok(taken),
        Err(_) => Err(SinkError::Failed),
    }
}

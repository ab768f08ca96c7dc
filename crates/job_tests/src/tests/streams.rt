// Sources over std's readers, and sinks over its writers.
ghost use Rattle.std.specs.Prelude.{◌<◌, length};

use crate::tests::records::reading_of;
use byte_io::{Failed, Sink, SinkError, Source, StdSink, StdSource, write_all_counted};
use std::alloc::{AllocError, Global};
use std::io;
use std::io::{Cursor, ErrorKind, Read, Write};
use std::process::Abort;
use std::test::Fail;

// A std reader and writer that fails at each call.
#[derive(Drop)]
struct Broken;

impl Read for Broken {
    fn read(&mut self, _buf: &mut [u8]) -> io::Result<usize> {
        Err(io::Error::from(ErrorKind::Other))
    }
}

impl Write for Broken {
    fn write(&mut self, _buf: &[u8]) -> io::Result<usize> {
        Err(io::Error::from(ErrorKind::Other))
    }

    fn flush(&mut self) -> io::Result<()> {
        Ok(())
    }
}

// Reads into three bytes.
fn read_three<S: Source>(source: &mut S, buf: &mut [u8; 3]) -> Result<usize, Failed> {
    source.read(buf)
}

/// Reads three times into three bytes, which are zeros at first. Each read is shown as its answer and the
/// three bytes, or as `-` where it failed.
pub fn three_reads<S: Source>(alloc: Global, source: &mut S) -> Result<Vec<u8>, AllocError> {
    let mut buf = [0u8; 3];
    let mut shown = Vec::new(alloc);
    for _ in 0..3u8 {
        match read_three(source, &mut buf) {
            Ok(count) => {
                shown.push(count.min(255) as u8)?;
                shown.extend_from_slice(&buf)?;
            }
            Err(Failed) => shown.push(b'-')?,
        }
    }
    Ok(shown)
}

// What reading records over this reader shows.
fn rows_of<R: Read + Drop>(
    alloc: Global,
    reader: R,
    by_value: bool,
) -> Result<Vec<u8>, AllocError> {
    let mut source = StdSource::new(reader);
    reading_of(alloc, &mut source, by_value)
}

/// This is what was to be shown.
pub fn shows(
    rt: &impl Abort,
    shown: Result<Vec<u8>, AllocError>,
    wanted: &[u8],
) -> Result<(), AllocError> {
    let shown = shown?;
    assert_eq!(rt; shown.as_slice(), wanted);
    Ok(())
}

#[test]
fn a_std_reader_is_a_source(rt: HostRuntime) -> Result<(), Fail> {
    let alloc = rt.alloc();
    let reads = three_reads(alloc, &mut StdSource::new(b"abcde".as_slice()));
    shows(&rt, reads, b"\x03abc\x02dec\0dec")?;
    let reads = three_reads(alloc, &mut StdSource::new(Broken));
    shows(&rt, reads, b"---")?;

    let rows = rows_of(alloc, b"a,\"b\nc\"\nd".as_slice(), true);
    shows(&rt, rows, b"<a><b\nc>;<d>;")?;
    // The text, and then an `Err` where its end would be.
    let rows = rows_of(alloc, b"a\nb".as_slice().chain(Broken), false);
    shows(&rt, rows, b"<a>;read fault, over")?;
    Ok(())
}

/// Writes one piece.
pub fn write_one<S: Sink>(sink: &mut S, piece: &[u8]) -> Result<usize, SinkError>
    requires { 0 < length piece.now }
{
    sink.write(piece)
}

// Writes all of these bytes.
fn write_all<W: Write>(sink: &mut StdSink<W>, bytes: &[u8]) -> Result<(), SinkError> {
    write_all_counted(sink, bytes)
}

// A vector takes all.
fn a_vector_takes_all(rt: &impl Abort, bytes: &mut Vec<u8>) {
    let mut sink = StdSink::new(bytes);
    assert_eq!(rt; write_one(&mut sink, b"abc"), Ok(3));
    assert_eq!(rt; write_all(&mut sink, b"de"), Ok(()));
}

// A writer that is full answers 0 bytes, for ever.
fn a_full_writer_fails(rt: &impl Abort, room: &mut [u8]) {
    let mut sink = StdSink::new(Cursor::new(room));
    assert_eq!(rt; write_all(&mut sink, b"abcdef"), Err(SinkError::Failed));
    assert_eq!(rt; write_one(&mut sink, b"g"), Err(SinkError::Failed));
}

#[test]
fn a_std_writer_is_a_sink(rt: HostRuntime) -> Result<(), Fail> {
    let mut bytes = Vec::new(rt.alloc());
    a_vector_takes_all(&rt, &mut bytes);
    assert_eq!(rt; bytes.as_slice(), b"abcde".as_slice());
    let mut room = [0u8; 4];
    a_full_writer_fails(&rt, &mut room);
    assert_eq!(rt; &room, b"abcd");
    let mut broken = StdSink::new(Broken);
    assert_eq!(rt; write_one(&mut broken, b"a"), Err(SinkError::Failed));
    Ok(())
}

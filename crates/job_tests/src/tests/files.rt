// Sources and sinks over files.
use crate::tests::streams::{shows, three_reads, write_one};
use byte_io::{FileSink, FileSource, SinkError};
use std::fs;
use std::process::Abort;
use std::rt::Files;
use std::test::Fail;

fn source_of(rt: &HostRuntime, path: &str) -> Result<FileSource<HostRuntime>, Fail> {
    let path = String::from_str(rt.alloc(), path)?;
    Ok(FileSource::new(rt.clone()?, path))
}

fn sink_of(rt: &HostRuntime, path: &str) -> Result<FileSink<HostRuntime>, Fail> {
    let path = String::from_str(rt.alloc(), path)?;
    Ok(FileSink::new(rt.clone()?, path))
}

#[test]
fn a_file_is_a_source(rt: HostRuntime) -> Result<(), Fail> {
    fs::write(&rt, "five", b"abcde".as_slice())?;
    let mut source = source_of(&rt, "five")?;
    let reads = three_reads(rt.alloc(), &mut source);
    shows(&rt, reads, b"\x03abc\x02dec\0dec")?;
    assert!(rt; source.is_open());
    fs::remove_file(&rt, "five")?;
    Ok(())
}

// Its folder is made, and then the file.
#[test]
fn a_source_tries_again_where_its_file_is_not_there(rt: HostRuntime) -> Result<(), Fail> {
    let mut source = source_of(&rt, "later/two")?;
    shows(&rt, three_reads(rt.alloc(), &mut source), b"---")?;
    assert!(rt; !source.is_open(), "nothing is there");
    fs::create_dir(&rt, "later")?;
    shows(&rt, three_reads(rt.alloc(), &mut source), b"---")?;
    fs::write(&rt, "later/two", b"ab".as_slice())?;
    shows(
        &rt,
        three_reads(rt.alloc(), &mut source),
        b"\x02ab\0\0ab\0\0ab\0",
    )?;
    fs::remove_file(&rt, "later/two")?;
    fs::remove_dir(&rt, "later")?;
    Ok(())
}

#[test]
fn a_folder_is_no_source(rt: HostRuntime) -> Result<(), Fail> {
    fs::create_dir(&rt, "shelf")?;
    let mut source = source_of(&rt, "shelf")?;
    let reads = three_reads(rt.alloc(), &mut source);
    fs::remove_dir(&rt, "shelf")?;
    shows(&rt, reads, b"---")?;
    Ok(())
}

// Five bytes in two writes.
fn takes_all<R: Files + Drop>(rt: &impl Abort, sink: &mut FileSink<R>) {
    assert_eq!(rt; write_one(sink, b"abc"), Ok(3));
    assert_eq!(rt; write_one(sink, b"de"), Ok(2));
    assert!(rt; sink.is_open());
}

// What the file of this path has once a sink took five bytes for it.
fn written_to(rt: &HostRuntime, abort: &impl Abort, path: &str) -> Result<Vec<u8>, Fail> {
    let mut sink = sink_of(rt, path)?;
    takes_all(abort, &mut sink);
    drop(sink);
    let bytes = fs::read(rt, path)?;
    fs::remove_file(rt, path)?;
    Ok(bytes)
}

// The file is made where it isn't there, and is emptied where it is.
#[test]
fn a_file_is_a_sink(rt: HostRuntime) -> Result<(), Fail> {
    fs::write(&rt, "old", b"old and long".as_slice())?;
    let old = written_to(&rt, &rt, "old")?;
    assert_eq!(rt; old.as_slice(), b"abcde".as_slice());
    let new = written_to(&rt, &rt, "new")?;
    assert_eq!(rt; new.as_slice(), b"abcde".as_slice());
    Ok(())
}

// Nothing is made before the first write.
#[test]
fn a_sink_tries_again_where_its_folder_is_not_there(rt: HostRuntime) -> Result<(), Fail> {
    let mut sink = sink_of(&rt, "soon/file")?;
    assert_eq!(rt; write_one(&mut sink, b"a"), Err(SinkError::Failed));
    fs::create_dir(&rt, "soon")?;
    assert!(rt; !sink.is_open() && !fs::exists(&rt, "soon/file")?);
    assert_eq!(rt; write_one(&mut sink, b"a"), Ok(1));
    fs::remove_file(&rt, "soon/file")?;
    fs::remove_dir(&rt, "soon")?;
    Ok(())
}

#[test]
fn a_folder_is_no_sink(rt: HostRuntime) -> Result<(), Fail> {
    fs::create_dir(&rt, "kept")?;
    let mut sink = sink_of(&rt, "kept")?;
    let written = write_one(&mut sink, b"a");
    fs::remove_dir(&rt, "kept")?;
    assert_eq!(rt; written, Err(SinkError::Failed));
    assert!(rt; !sink.is_open());
    Ok(())
}

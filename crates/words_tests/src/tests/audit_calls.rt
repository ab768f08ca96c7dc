// Calls: their words, their faults, and their numbers.
use crate::tests::told_journals::text_of;
use audit_program::audit_call;
use byte_io::{MemorySink, MemorySource};
use std::alloc::{AllocError, Global};
use std::test::Fail;

// Words with bars between them, the number of the read and of the write that fails (or none), the number that the
// call ends with, and what is printed.
const CALLS: &str = "\
audit - - 20 no 4 task;
audit|-- - - 20 no 4 task;
audit|x - - 2 
Audit - - 2 
plan - - 2 
audit 0 - 13 
audit 1 - 13 
audit - 0 14 ";

const ROW: &str =
    "600,300,2/admit,0,1,0,150,disk,0,0/admit,0,2,0,150,memory,0,0/begin,0,7/begin,0,8/";

// The number that fails, if one does.
fn failing(alloc: Global, word: &str) -> Result<Vec<u64>, AllocError> {
    let mut fails = Vec::new(alloc);
    if let Ok(number) = word.parse::<u64>() {
        fails.push(number)?;
    }
    Ok(fails)
}

// How a call ends, and what it printed, with `;` for a line feed.
fn call(alloc: Global, words: &str, read: &str, write: &str) -> Result<(u8, Vec<u8>), AllocError> {
    let mut list = Vec::new(alloc);
    for word in words.split('|') {
        list.push(word)?;
    }
    let mut input = MemorySource::new(text_of(alloc, ROW)?, failing(alloc, read)?);
    let mut output = MemorySink::new(alloc, failing(alloc, write)?);
    let status = audit_call(alloc, list.as_slice(), &mut input, &mut output);
    let mut printed = Vec::new(alloc);
    for byte in output.bytes() {
        printed.push(if *byte == b'\n' { b';' } else { *byte })?;
    }
    Ok((status.number(), printed))
}

#[test]
fn a_call_tells_its_words_and_its_faults(rt: HostRuntime) -> Result<(), Fail> {
    for case in CALLS.lines() {
        let mut parts = case.splitn(5, ' ');
        let words = parts.next().ok_or("no words")?;
        let read = parts.next().ok_or("no read")?;
        let write = parts.next().ok_or("no write")?;
        let number = parts.next().ok_or("no number")?;
        let line = parts.next().ok_or("no line")?;
        let (ended, printed) = call(rt.alloc(), words, read, write)?;
        assert_eq!(rt; number.parse::<u8>().ok(), Some(ended), "{case}");
        assert_eq!(rt; printed.as_slice(), line.as_bytes(), "{case}");
    }
    Ok(())
}

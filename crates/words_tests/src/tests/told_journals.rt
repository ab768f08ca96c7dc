// A row's text, and the line that an audit of it prints.
use audit_program::audit_call;
use byte_io::{MemorySink, MemorySource};
use std::alloc::{AllocError, Global};

// The text of a row: its first words, and a line feed for each slash.
pub fn text_of(alloc: Global, row: &str) -> Result<Vec<u8>, AllocError> {
    text_behind(alloc, b"memory journal 1,", row)
}

// The same of a row behind other words.
pub fn text_behind(alloc: Global, words: &[u8], row: &str) -> Result<Vec<u8>, AllocError> {
    let mut text = Vec::new(alloc);
    text.extend_from_slice(words)?;
    for byte in row.as_bytes() {
        if *byte == b'/' {
            text.push(b'\n')?;
        } else {
            text.push(*byte)?;
        }
    }
    Ok(text)
}

// What a call of `audit` prints of a text, without its line feed.
pub fn told_of(alloc: Global, text: Vec<u8>) -> Result<Vec<u8>, AllocError> {
    let mut input = MemorySource::new(text, Vec::new(alloc));
    let mut output = MemorySink::new(alloc, Vec::new(alloc));
    let _ = audit_call(alloc, ["audit"].as_slice(), &mut input, &mut output);
    let mut told = Vec::new(alloc);
    for byte in output.bytes() {
        if *byte != b'\n' {
            told.push(*byte)?;
        }
    }
    Ok(told)
}

// The same of a row.
pub fn tell(alloc: Global, row: &str) -> Result<Vec<u8>, AllocError> {
    told_of(alloc, text_of(alloc, row)?)
}

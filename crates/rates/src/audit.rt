//! An audit of standard input and nothing else.

use audit_program::audit_call;
use byte_io::{StdSink, StdSource};
use std::io;

/// Prints the verdict on the journal of standard input, and answers the audit's number.
pub fn run(rt: &(impl Input + Print + AllocGlobal)) -> u8 {
    let mut input = StdSource::new(rt.reader());
    let mut output = StdSink::new(io::writer(rt));
    audit_call(rt.alloc(), ["audit"].as_slice(), &mut input, &mut output).number()
}

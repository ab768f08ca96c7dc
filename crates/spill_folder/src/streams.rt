//! The numbers of the standard streams, kept from files.

use std::alloc::Global;
use std::fs::File;
use std::io;
use std::os::fd::AsRawFd;
use std::rt::Files;

// The greatest number of a standard stream.
const LAST_STREAM: i32 = 2;

/// Takes the numbers of the standard streams that are closed, until the answer is dropped. Else the next file that is opened
/// would get one, and be read or written as that stream. What takes them is a folder: a read of it fails, and so does a write.
pub fn hold_closed_streams<R: Files<File = File>>(rt: &R, alloc: Global) -> io::Result<Vec<File>> {
    let mut held = Vec::new(alloc);
    for _ in 0..=LAST_STREAM {
        let file = File::open(rt, "/")?;
        if file.as_raw_fd() > LAST_STREAM {
            break;
        }
        held.push(file)?;
    }
    Ok(held)
}

//! Looks at what is in the folder, which change nothing.

use crate::fault::{SpillFault, Strange};
use std::alloc::Global;
use std::rt::Files;
use std::{fs, io};

// The longest decimal of a `u64`.
const DIGITS: usize = 20;

/// The answer of a call on this path, as a fault that names the path where the call failed.
pub fn named<T>(alloc: Global, path: &str, answer: io::Result<T>) -> Result<T, SpillFault> {
    let reason = match answer {
        Ok(value) => return Ok(value),
        Err(failed) => failed.kind(),
    };
    if reason == io::ErrorKind::OutOfMemory {
        return Err(SpillFault::NoMemory);
    }
    let path = String::from_str(alloc, path)?;
    Err(SpillFault::Failed { path, reason })
}

/// A fault that names what is strange at this path.
pub fn strange(alloc: Global, path: &str, what: Strange) -> SpillFault {
    match String::from_str(alloc, path) {
        Ok(path) => SpillFault::Strange { path, what },
        Err(_) => SpillFault::NoMemory,
    }
}

/// Whether something is there. A link is refused, and so is what is no folder, or no plain file, as is wanted.
pub fn is_there<R: Files + AllocGlobal>(
    rt: &R,
    path: &str,
    is_folder: bool,
) -> Result<bool, SpillFault> {
    let alloc = rt.alloc();
    let kind = match fs::symlink_metadata(rt, path) {
        Ok(found) => found.file_type(),
        Err(failed) if failed.kind() == io::ErrorKind::NotFound => return Ok(false),
        Err(failed) => return named(alloc, path, Err(failed)),
    };
    if kind.is_symlink() {
        return Err(strange(alloc, path, Strange::Link));
    }
    if is_folder && !kind.is_dir() {
        return Err(strange(alloc, path, Strange::NotFolder));
    }
    if !is_folder && !kind.is_file() {
        return Err(strange(alloc, path, Strange::NotFile));
    }
    Ok(true)
}

/// Whether a name is one that a disk gives: a decimal below 2^64 without leading zeros.
pub fn is_numbered(name: &str) -> bool {
    let is_short = !name.is_empty() && name.len() <= DIGITS;
    let is_plain = name == "0" || !name.starts_with('0');
    is_short && is_plain && name.bytes().all(|byte| byte.is_ascii_digit())
}

/// Whether the folder has something other than a file with this name.
pub fn has_others<R: Files + AllocGlobal + Clone + Drop>(
    rt: &R,
    folder: &str,
    name: &str,
) -> io::Result<bool> {
    for entry in fs::read_dir(rt, folder)? {
        if entry?.file_name() != name {
            return Ok(true);
        }
    }
    Ok(false)
}

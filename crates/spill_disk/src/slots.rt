//! The slots of a disk in memory, one for each file number that was given out.

ghost use Rattle.std.specs.Prelude.{◌≡◌, ◌↔◌, ◌++◌, ◌<◌, ◌≤◌, ◌+◌, ◌∷◌, [], Some, length, drop, true, IfOk, IsTrue, OnOk, OnErr, vec_len};
ghost use Rattle.spill_disk.specs.Files.{IsThere, Appends, Removes, Creates, bytes_of, read_of};
ghost use Rattle.spill_disk.specs.Kept.{files_from};

use crate::memory_disk::Stored;
use std::alloc::{AllocError, Global};

/// Adds an empty file in the next slot. After an `Err` nothing changed.
pub fn add_slot(alloc: Global, slots: &mut Vec<Stored>) -> Result<(), AllocError>
    ensures ok { OnOk result (Creates (Some (files_from 0 slots.old.items))
        (Some (files_from 0 slots.new.items)) (vec_len slots.old)) }
    ensures err { OnErr result (files_from 0 slots.new.items ≡ files_from 0 slots.old.items) }
    ensures there { OnOk result (IsThere (Some (files_from 0 slots.new.items)) (vec_len slots.old)) }
    ensures more { OnOk result (vec_len slots.new ≡ vec_len slots.old + 1) }
    ensures same { OnErr result (vec_len slots.new ≡ vec_len slots.old) }
{
    let stored = Stored {
        is_there: true,
        bytes: Vec::new(alloc),
    };
    if slots.push(stored).is_err() {
        return Err(AllocError);
    }
    Ok(())
}

/// Adds bytes to a file that is there. After an `Err` nothing changed.
pub fn add_bytes(slots: &mut Vec<Stored>, file: u64, bytes: &[u8]) -> Result<(), AllocError>
    requires { IsThere (Some (files_from 0 slots.old.items)) file }
    ensures ok { OnOk result (Appends (Some (files_from 0 slots.old.items))
        (Some (files_from 0 slots.new.items)) file bytes.now) }
    ensures err { OnErr result (files_from 0 slots.new.items ≡ files_from 0 slots.old.items) }
    ensures there { IsThere (Some (files_from 0 slots.new.items)) file }
    ensures same { vec_len slots.new ≡ vec_len slots.old }
{
    let stored = &mut slots[file as usize];
    stored.bytes.extend_from_slice(bytes)
}

/// Whether a file is there.
pub fn has_file(slots: &[Stored], file: u64) -> bool
    ensures { IsTrue result ↔ IsThere (Some (files_from 0 slots.now)) file }
{
    if file >= slots.len() as u64 {
        return false;
    }
    slots[file as usize].is_there
}

/// The bytes of a file; none where it isn't there.
pub fn bytes_at(slots: &[Stored], file: u64) -> &[u8]
    ensures { result.now ≡ bytes_of (files_from 0 slots.now) file }
{
    if file >= slots.len() as u64 {
        return &[];
    }
    let stored = &slots[file as usize];
    if stored.is_there { &stored.bytes } else { &[] }
}

/// Fills the front of `buf` with what stands at a place, and answers how many bytes that is.
#[inline(always)]
pub fn fill(bytes: &[u8], place: u64, buf: &mut [u8]) -> usize
    ensures count { result ≡ length (read_of bytes.now place (length buf.old)) }
    ensures filled { buf.new ≡ read_of bytes.now place (length buf.old) ++ drop result buf.old }
{
    let rest = &bytes[bytes.len().min(place as usize)..];
    let count = rest.len().min(buf.len());
    buf[..count].copy_from_slice(&rest[..count]);
    count
}

/// Takes a file away, if it is there.
pub fn clear_slot(alloc: Global, slots: &mut Vec<Stored>, file: u64)
    ensures files { Removes (Some (files_from 0 slots.old.items))
        (Some (files_from 0 slots.new.items)) file }
    ensures same { vec_len slots.new ≡ vec_len slots.old }
{
    if file < slots.len() as u64 {
        let stored = &mut slots[file as usize];
        stored.is_there = false;
        stored.bytes = Vec::new(alloc);
    }
}

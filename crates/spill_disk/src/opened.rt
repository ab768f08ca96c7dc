//! An open file of a folder disk, with what is collected for its end and what was read ahead.

ghost use Rattle.std.specs.Prelude.{◌≡◌, ◌≢◌, ◌≤◌, ◌<◌, ◌+◌, ◌↔◌, [], length, Err, IsOk, IsTrue, IfOk, OnOk};
ghost use Rattle.spill_disk.specs.Ahead.{Covers, GivesAhead};
ghost use Rattle.spill_disk.specs.Folder.{collected_with};

use crate::DiskError;
use crate::slots::fill;
use std::alloc::Global;
use std::io::{Read, Seek, SeekFrom, Write};

/// How many bytes are collected before they are written, and how many are read ahead.
pub const BUFFER_BYTES: usize = 65_536;

/// An open file: what is collected stands behind what it has, and what was read ahead began at
/// `ahead_at`. What is collected is written when the file is closed.
pub struct Opened<F: Read + Write + Seek + Drop> {
    file: F,
    collected: Vec<u8>,
    ahead: Vec<u8>,
    ahead_at: u64,
}

impl<F: Read + Write + Seek + Drop> Opened<F> {
    /// A file that was opened now: nothing is collected, and nothing was read ahead.
    pub fn new(alloc: Global, file: F) -> Opened<F>
        ensures collected { result.collected.items ≡ [] }
        ensures ahead { result.ahead.items ≡ [] }
    {
        Opened {
            file,
            collected: Vec::new(alloc),
            ahead: Vec::new(alloc),
            ahead_at: 0,
        }
    }

    /// Writes what is collected. After an `Err` what wasn't written is lost.
    #[inline(always)]
    pub fn flush(&mut self) -> Result<(), DiskError>
        ensures collected { self.new.collected.items ≡ [] }
        ensures ahead { self.new.ahead.items ≡ self.old.ahead.items }
        ensures ahead_at { self.new.ahead_at ≡ self.old.ahead_at }
        ensures still { self.old.collected.items ≡ [] → IsOk result }
    {
        if self.collected.is_empty() {
            return Ok(());
        }
        let written = write_at_end(&mut self.file, &self.collected);
        self.collected.clear();
        written
    }

    /// Adds bytes at the end: small ones are collected.
    pub fn append(&mut self, bytes: &[u8]) -> Result<(), DiskError>
        ensures collected { OnOk result
            (self.new.collected.items ≡ collected_with self.old.collected.items bytes.now) }
        ensures ahead { self.new.ahead.items ≡ self.old.ahead.items }
        ensures ahead_at { self.new.ahead_at ≡ self.old.ahead_at }
        ensures still { length self.old.collected.items + length bytes.now < 65536
            → result ≢ Err DiskError.Failed }
    {
        if bytes.len() >= BUFFER_BYTES || self.collected.len() >= BUFFER_BYTES - bytes.len() {
            self.flush()?;
        }
        if bytes.len() >= BUFFER_BYTES {
            return write_at_end(&mut self.file, bytes);
        }
        self.collected.extend_from_slice(bytes)?;
        Ok(())
    }

    /// Fills the front of `buf` from a place on, through what was read ahead where that has it all.
    #[inline(always)]
    pub fn read_at(&mut self, place: u64, buf: &mut [u8]) -> Result<usize, DiskError>
        ensures bound { IfOk result (λ count. count ≤ length buf.old) }
        ensures collected { self.new.collected.items ≡ [] }

        // A short read is given from what is ahead, which stays where it has all that is wanted.
        ensures given { length buf.old < 65536 → IfOk result (λ count.
            GivesAhead self.new.ahead_at self.new.ahead.items place buf.old buf.new count) }
        ensures again { Covers self.old.ahead_at self.old.ahead.items place (length buf.old)
            → self.new.ahead.items ≡ self.old.ahead.items }
        ensures again_at { Covers self.old.ahead_at self.old.ahead.items place (length buf.old)
            → self.new.ahead_at ≡ self.old.ahead_at }
        ensures still { self.old.collected.items ≡ []
            → Covers self.old.ahead_at self.old.ahead.items place (length buf.old)
            → length buf.old < 65536 → IsOk result }
    {
        self.flush()?;
        if buf.len() >= BUFFER_BYTES {
            return read_from(&mut self.file, place, buf);
        }
        if !covers(&self.ahead, self.ahead_at, place, buf.len()) {
            self.read_ahead(place)?;
        }
        Ok(fill(&self.ahead, place - self.ahead_at, buf))
    }

    /// Reads a buffer ahead, from a place on.
    #[cold]
    #[inline(never)]
    fn read_ahead(&mut self, place: u64) -> Result<(), DiskError>
        ensures place { OnOk result (self.new.ahead_at ≡ place) }
        ensures collected { self.new.collected.items ≡ self.old.collected.items }
    {
        self.ahead.resize(BUFFER_BYTES, 0)?;
        self.ahead_at = place;
        match read_from(&mut self.file, place, &mut self.ahead) {
            Ok(count) => {
                self.ahead.truncate(count);
                Ok(())
            }
            Err(failed) => {
                self.ahead.clear();
                Err(failed)
            }
        }
    }

    /// Forgets what is collected, of a file that is taken away.
    pub fn forget(&mut self)
        ensures collected { self.new.collected.items ≡ [] }
    {
        self.collected.clear();
    }
}

impl<F: Read + Write + Seek + Drop> Drop for Opened<F> {
    fn drop(self) {
        let Opened {
            mut file,
            collected,
            ahead: _,
            ahead_at: _,
        } = self;
        if !collected.is_empty() {
            let _ = write_at_end(&mut file, &collected);
        }
    }
}

#[inline(never)]
fn write_at_end<F: Write + Seek>(file: &mut F, bytes: &[u8]) -> Result<(), DiskError> {
    file.seek(SeekFrom::End(0))?;
    file.write_all(bytes)?;
    Ok(())
}

/// Fills the front of `buf` from a place of the file on, as far as there is something.
#[inline(never)]
fn read_from<F: Read + Seek>(file: &mut F, place: u64, buf: &mut [u8]) -> Result<usize, DiskError>
    ensures { IfOk result (λ count. count ≤ length buf.old) }
{
    file.seek(SeekFrom::Start(place))?;
    let mut filled = 0;
    while filled < buf.len() {
        let count = file.read(&mut buf[filled..])?;
        if count == 0 {
            break;
        }
        filled += count;
    }
    Ok(filled)
}

/// Whether the bytes ahead, which begin at `from`, have so many bytes at a place.
#[inline(always)]
fn covers(ahead: &[u8], from: u64, place: u64, count: usize) -> bool
    ensures { IsTrue result ↔ Covers from ahead.now place count }
{
    place >= from
        && place - from <= ahead.len() as u64
        && count <= ahead.len() - (place - from) as usize
}

//! What a reader keeps of its run's file.

ghost use Rattle.std.specs.Prelude.{◌≡◌, ◌+◌, ◌-◌, ◌<◌, ◌≤◌, ◌^◌, ◌++◌, [], ℕ, min, IfOk, IfSome, OnErr, OnOk, length, take, drop};
ghost use Rattle.fault_count.specs.Faults.{HasCauseAt};
ghost use Rattle.run_file.specs.Filling.{ReadsMore, ShowsFront};
ghost use Rattle.run_file.specs.Readers.{IsBounded, ahead_of, most_kept};

use crate::Run;
use row_page::split_piece;
use spill_disk::{Disk, DiskError};
use std::alloc::{AllocError, Global};
use std::marker::Model;

/// What is kept of a file: the bytes up to `end`, the row at hand from `from` to `next`. What stands from
/// `next` on wasn't passed, and goes on in the file at `at`.
#[derive(Debug, Drop)]
pub(crate) struct KeptBytes {
    bytes: Vec<u8>,
    from: usize,
    next: usize,
    end: usize,
    at: u64,
}

impl Model for KeptBytes {
    ghost use Rattle.std.specs.Prelude.{◌-◌, ◌≤◌, length, take, drop};
    ghost use Rattle.run_file.specs.Readers.{Kept};

    ghost Value = { Kept };

    ghost view = { λ k. record {
      row = take (k.next - k.from) (drop k.from k.bytes.items);
      rest = take (k.end - k.next) (drop k.next k.bytes.items);
      count = k.end;
      at = k.at;
    } };

    ghost invariant = { λ k. (k.from ≤ k.next) × (k.next ≤ k.end) × (k.end ≤ length k.bytes.items) };
}

impl KeptBytes {
    /// Nothing, at the beginning of the file.
    pub(crate) fn new(alloc: Global) -> KeptBytes
        ensures row { result.row ≡ [] }
        ensures rest { result.rest ≡ [] }
        ensures count { result.count ≡ 0 }
        ensures at { result.at ≡ 0 }
    {
        KeptBytes {
            bytes: Vec::new(alloc),
            from: 0,
            next: 0,
            end: 0,
            at: 0,
        }
    }

    /// How many bytes are kept.
    pub(crate) fn count(&self) -> usize
        ensures { result ≡ self.now.count }
    {
        self.end
    }

    /// The bytes of the row at hand.
    #[inline(always)]
    pub(crate) fn row(&self) -> &[u8]
        ensures { result.now ≡ self.now.row }
    {
        &self.bytes[self.from..self.next]
    }

    /// The bytes that weren't passed.
    #[inline(always)]
    pub(crate) fn rest(&self) -> &[u8]
        ensures { result.now ≡ self.now.rest }
    {
        &self.bytes[self.next..self.end]
    }

    /// Goes on to the row whose bytes stand behind their length.
    #[inline(always)]
    pub(crate) fn take(&mut self, size: usize)
        requires { 4 + size ≤ length self.old.rest }
        ensures row { self.new.row ≡ take size (drop 4 self.old.rest) }
        ensures rest { self.new.rest ≡ drop (4 + size) self.old.rest }
        ensures count { self.new.count ≡ self.old.count }
        ensures at { self.new.at ≡ self.old.at }
    {
        self.from = self.next + 4;
        self.next = self.from + size;
    }

    /// Reads on, unless a whole piece stands in front.
    #[inline(always)]
    pub(crate) fn reach<D: Disk>(&mut self, disk: &mut D, run: &Run) -> Result<(), DiskError>
        requires bounded { IsBounded run.now self.old }
        ensures bounded { IsBounded run.now self.new }
        ensures ahead { ahead_of (D.files disk.old) run.now self.new ≡ ahead_of (D.files disk.old) run.now self.old }
        ensures shows { OnOk result (IfSome (ahead_of (D.files disk.old) run.now self.new)
            (ShowsFront run.now self.new.rest)) }
        ensures same { D.files disk.new ≡ D.files disk.old }
        ensures cause { HasCauseAt DiskError.Failed (D.faults disk.old) (D.faults disk.new) result }
    {
        match split_piece(self.rest()) {
            Some(_) => Ok(()),
            None => self.fill(disk, run),
        }
    }

    /// Forgets the row at hand, and reads as many bytes behind the rest as may be kept.
    #[inline(always)]
    fn fill<D: Disk>(&mut self, disk: &mut D, run: &Run) -> Result<(), DiskError>
        requires bounded { IsBounded run.now self.old }
        ensures bounded { IsBounded run.now self.new }
        ensures ahead { ahead_of (D.files disk.old) run.now self.new ≡ ahead_of (D.files disk.old) run.now self.old }
        ensures shows { OnOk result (IfSome (ahead_of (D.files disk.old) run.now self.new)
            (ShowsFront run.now self.new.rest)) }
        ensures same { D.files disk.new ≡ D.files disk.old }
        ensures cause { HasCauseAt DiskError.Failed (D.faults disk.old) (D.faults disk.new) result }
    {
        self.keep_rest();
        let wanted = wanted_of(run, self.at, self.end);
        match self.read_more(disk, run.file, wanted) {
            Ok(()) => Ok(()),
            Err(error) => Err(error),
        }
    }

    /// Moves the rest to the front, where there is one and it doesn't stand there.
    #[inline(always)]
    fn keep_rest(&mut self)
        ensures rest { self.new.rest ≡ self.old.rest }
        ensures count { self.new.count ≡ length self.old.rest }
        ensures at { self.new.at ≡ self.old.at }
        ensures less { self.new.count ≤ self.old.count }
    {
        let next = self.next;
        let end = self.end;
        if 0 < next && next < end {
            self.bytes.copy_within(next..end, 0);
        }
        self.from = 0;
        self.next = 0;
        self.end = end - next;
    }

    /// Reads so many bytes behind those that are kept, or as many as the file has.
    #[inline(always)]
    fn read_more<D: Disk>(
        &mut self,
        disk: &mut D,
        file: u64,
        wanted: usize,
    ) -> Result<(), DiskError>
        requires whole { self.old.count ≡ length self.old.rest }
        requires small { self.old.count + wanted ≤ 2 ^ 33 }
        requires place { self.old.at + wanted < 2 ^ 64 }
        ensures read { OnOk result (ReadsMore (D.files disk.old) file self.old.at wanted self.old.rest self.new.rest) }
        ensures count { self.new.count ≡ length self.new.rest }
        ensures place { self.new.at + self.old.count ≡ self.old.at + self.new.count }
        ensures bound { self.new.count ≤ self.old.count + wanted }
        ensures err { OnErr result (self.new.rest ≡ self.old.rest) }
        ensures same { D.files disk.new ≡ D.files disk.old }
        ensures cause { HasCauseAt DiskError.Failed (D.faults disk.old) (D.faults disk.new) result }
    {
        widen(&mut self.bytes, self.end, wanted)?;
        let count = read_behind(disk, file, self.at, &mut self.bytes, self.end, wanted)?;
        self.end += count;
        self.at += count as u64;
        Ok(())
    }
}

/// Makes room for so many bytes behind the first `end`, which stay.
#[inline(always)]
fn widen(bytes: &mut Vec<u8>, end: usize, wanted: usize) -> Result<(), AllocError>
    requires there { end ≤ length bytes.old.items }
    requires small { end + wanted ≤ 2 ^ 33 }
    ensures room { OnOk result (end + wanted ≤ length bytes.new.items) }
    ensures there { end ≤ length bytes.new.items }
    ensures kept { take end bytes.new.items ≡ take end bytes.old.items }
{
    if bytes.len() < end + wanted {
        bytes.resize(end + wanted, 0)?;
    }
    Ok(())
}

/// Reads so many bytes behind the first `end`, which stay, or as many as the file has.
#[inline(always)]
fn read_behind<D: Disk>(
    disk: &mut D,
    file: u64,
    place: u64,
    bytes: &mut [u8],
    end: usize,
    wanted: usize,
) -> Result<usize, DiskError>
    requires room { end + wanted ≤ length bytes.old }
    requires small { end + wanted ≤ 2 ^ 33 }
    ensures read { IfOk result (λ count. ReadsMore (D.files disk.old) file place wanted
        (take end bytes.old) (take (end + count) bytes.new)) }
    ensures bound { IfOk result (λ count. count ≤ wanted) }
    ensures kept { take end bytes.new ≡ take end bytes.old }
    ensures length { length bytes.new ≡ length bytes.old }
    ensures same { D.files disk.new ≡ D.files disk.old }
    ensures cause { HasCauseAt DiskError.Failed (D.faults disk.old) (D.faults disk.new) result }
{
    disk.read_at(file, place, &mut bytes[end..end + wanted])
}

/// How many bytes are wanted from a place on, behind so many that are kept.
#[inline(always)]
fn wanted_of(run: &Run, at: u64, kept: usize) -> usize
    requires inside { at ≤ run.now.bytes }
    requires bound { kept ≤ most_kept run.now }
    ensures least { result ≡ min (run.now.bytes - at) (most_kept run.now - kept) }
    ensures fits { at + result < 2 ^ 64 }
{
    let most = run.greatest.saturating_sub(20).min(1 << 33);
    (run.bytes - at).min(most - kept as u64) as usize
}

//! A disk in memory, which tells.

ghost use Rattle.std.specs.Prelude.{◌≡◌, ◌<◌, ◌≤◌, ◌↔◌, ◌-◌, ◌+◌, ◌^◌, if◌then◌else◌, min, Some, is_err, length, is_some, vec_len, Err, IfOk, OnOk, OnErr, IsErrOf, IsTrue};
ghost use Rattle.std.specs.FinMap as map;
ghost use Rattle.fault_count.specs.Faults.{HasCauseAt};
ghost use Rattle.spill_disk.specs.Files.{IsThere, Creates, Appends, AppendsPart, Reads, Removes, bytes_of};
ghost use Rattle.spill_disk.specs.Memory.{memory_files, created_of, fails_of, calls_of, faults_of, next_fails, CountsCall};

use crate::slots::{add_bytes, add_slot, bytes_at, clear_slot, fill, has_file};
use crate::{Disk, DiskError};
use std::alloc::Global;

/// A file number's slot: whether the file is there, and its bytes.
#[derive(Drop)]
pub struct Stored {
    pub(crate) is_there: bool,
    pub(crate) bytes: Vec<u8>,
}

/// A disk in memory. It tells its files, and fails at the calls that it was told to fail at and at no
/// other; an `append` that fails so has added the first half of its bytes. A removed file leaves a small
/// slot, since its number isn't given out again.
#[derive(Drop)]
pub struct MemoryDisk {
    alloc: Global,
    slots: Vec<Stored>,
    fails: Vec<u64>,
    calls: u64,
    faults: u64,
}

impl MemoryDisk {
    /// A disk without files, on which the calls with these numbers fail. The calls of all four methods
    /// are numbered together, from 0.
    pub fn new(alloc: Global, fails: Vec<u64>) -> MemoryDisk
        ensures files { memory_files result ≡ map.empty }
        ensures fails { fails_of result ≡ fails.items }
        ensures calls { calls_of result ≡ 0 }
        ensures created { created_of result ≡ 0 }
        ensures faults { faults_of result ≡ 0 }
    {
        MemoryDisk {
            alloc,
            slots: Vec::new(alloc),
            fails,
            calls: 0,
            faults: 0,
        }
    }

    /// How many files were made so far: the number of the next one.
    pub fn created(&self) -> u64
        ensures { result ≡ created_of self.now }
    {
        self.slots.len() as u64
    }

    /// How many calls failed so far, as far as a `u64` counts.
    pub fn faults(&self) -> u64
        ensures { result ≡ faults_of self.now }
    {
        self.faults
    }

    /// Whether a file is there.
    pub(crate) fn has(&self, file: u64) -> bool
        ensures { IsTrue result ↔ IsThere (Some (memory_files self.now)) file }
    {
        has_file(&self.slots, file)
    }

    /// The bytes of a file; none where it isn't there.
    pub(crate) fn bytes(&self, file: u64) -> &[u8]
        ensures { result.now ≡ bytes_of (memory_files self.now) file }
    {
        bytes_at(&self.slots, file)
    }

    /// Counts a call. `Failed` comes exactly where its number is one of those that fail.
    pub(crate) fn begin_call(&mut self) -> Result<(), DiskError>
        ensures failed { is_err result ≡ next_fails self.old }
        ensures only { OnErr result (result ≡ Err DiskError.Failed) }
        ensures counts { CountsCall self.old self.new }
        ensures same { self.new.slots ≡ self.old.slots }
        ensures cause { HasCauseAt DiskError.Failed self.old.faults self.new.faults result }
    {
        let is_listed = self.fails.contains(&self.calls);
        self.count_call(is_listed)
    }

    /// Counts a call, which fails where it is told to.
    pub(crate) fn count_call(&mut self, fails: bool) -> Result<(), DiskError>
        ensures failed { is_err result ≡ fails }
        ensures only { OnErr result (result ≡ Err DiskError.Failed) }
        ensures calls { self.new.calls ≡ min (self.old.calls + 1) (2 ^ 64 - 1) }
        ensures faults { self.new.faults ≡ min (self.old.faults + (if fails then 1 else 0)) (2 ^ 64 - 1) }
        ensures same { self.new.slots ≡ self.old.slots }
        ensures kept { self.new.fails ≡ self.old.fails }
        ensures cause { HasCauseAt DiskError.Failed self.old.faults self.new.faults result }
    {
        let faults = self.faults;
        self.calls = self.calls.saturating_add(1);
        if fails {
            self.faults = faults.saturating_add(1);
            return Err(DiskError::Failed);
        }
        Ok(())
    }
}

impl Disk for MemoryDisk {
    ghost files = { λ disk. Some (memory_files disk) };

    ghost faults = { faults_of };

    ghost next_number = { created_of };

    fn create(&mut self) -> Result<u64, DiskError>
        ensures ok { IfOk result
            (Creates (Some (memory_files self.old)) (Some (memory_files self.new))) }
        ensures there { IfOk result (IsThere (Some (memory_files self.new))) }
        ensures fresh { IfOk result (λ file. created_of self.old ≤ file) }
        ensures given { IfOk result (λ file. file < created_of self.new) }
        ensures err { OnErr result (Some (memory_files self.new) ≡ Some (memory_files self.old)) }
        ensures later { created_of self.old ≤ created_of self.new }
        ensures tells { is_some (Some (memory_files self.new)) ≡ is_some (Some (memory_files self.old)) }
        ensures cause { HasCauseAt DiskError.Failed (faults_of self.old) (faults_of self.new) result }

        // It fails exactly at the calls that are listed.
        ensures listed { IsErrOf result DiskError.Failed ↔ IsTrue (next_fails self.old) }
        ensures counts { CountsCall self.old self.new }
    {
        self.begin_call()?;
        let number = self.slots.len() as u64;
        add_slot(self.alloc, &mut self.slots)?;
        Ok(number)
    }

    fn append(&mut self, file: u64, bytes: &[u8]) -> Result<(), DiskError>
        requires there { IsThere (Some (memory_files self.old)) file }
        ensures ok { OnOk result
            (Appends (Some (memory_files self.old)) (Some (memory_files self.new)) file bytes.now) }
        ensures err { OnErr result
            (AppendsPart (Some (memory_files self.old)) (Some (memory_files self.new)) file bytes.now) }
        ensures there { IsThere (Some (memory_files self.new)) file }
        ensures same { created_of self.new ≡ created_of self.old }
        ensures tells { is_some (Some (memory_files self.new)) ≡ is_some (Some (memory_files self.old)) }
        ensures cause { HasCauseAt DiskError.Failed (faults_of self.old) (faults_of self.new) result }

        // It fails exactly at the calls that are listed.
        ensures listed { IsErrOf result DiskError.Failed ↔ IsTrue (next_fails self.old) }
        ensures counts { CountsCall self.old self.new }
    {
        if let Err(failed) = self.begin_call() {
            let _ = add_bytes(&mut self.slots, file, &bytes[..bytes.len() / 2]);
            return Err(failed);
        }
        add_bytes(&mut self.slots, file, bytes)?;
        Ok(())
    }

    fn read_at(&mut self, file: u64, place: u64, buf: &mut [u8]) -> Result<usize, DiskError>
        ensures ok { IfOk result (Reads (Some (memory_files self.old)) file place buf.old buf.new) }
        ensures bound { IfOk result (λ count. count ≤ length buf.old) }
        ensures same { Some (memory_files self.new) ≡ Some (memory_files self.old) }
        ensures numbers { created_of self.new ≡ created_of self.old }
        ensures cause { HasCauseAt DiskError.Failed (faults_of self.old) (faults_of self.new) result }

        // It fails exactly at the calls that are listed.
        ensures listed { IsErrOf result DiskError.Failed ↔ IsTrue (next_fails self.old) }
        ensures counts { CountsCall self.old self.new }
    {
        self.begin_call()?;
        Ok(fill(bytes_at(&self.slots, file), place, buf))
    }

    fn remove(&mut self, file: u64) -> Result<(), DiskError>
        ensures ok { OnOk result
            (Removes (Some (memory_files self.old)) (Some (memory_files self.new)) file) }
        ensures err { OnErr result (Some (memory_files self.new) ≡ Some (memory_files self.old)) }
        ensures same { created_of self.new ≡ created_of self.old }
        ensures tells { is_some (Some (memory_files self.new)) ≡ is_some (Some (memory_files self.old)) }
        ensures cause { HasCauseAt DiskError.Failed (faults_of self.old) (faults_of self.new) result }

        // It fails exactly at the calls that are listed.
        ensures listed { IsErrOf result DiskError.Failed ↔ IsTrue (next_fails self.old) }
        ensures counts { CountsCall self.old self.new }
    {
        self.begin_call()?;
        clear_slot(self.alloc, &mut self.slots, file);
        Ok(())
    }
}

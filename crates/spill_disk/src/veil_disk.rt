//! A disk in memory that tells nothing, and hides the ends of files.

ghost use Rattle.std.specs.Prelude.{◌≡◌, ◌<◌, ◌≤◌, ◌↔◌, ◌⊎◌, ◌-◌, ℕ, None, Some, length, Err, IfOk, OnOk, OnErr, IsErrOf, IsTrue, take};
ghost use Rattle.std.specs.FinMap as map;
ghost use Rattle.fault_count.specs.Faults.{CountsAt, HasCauseAt};
ghost use Rattle.spill_disk.specs.Files.{IsThere, Creates, Appends, AppendsPart, Removes};
ghost use Rattle.spill_disk.specs.Veil.{veil_files, veil_created, veil_fails, veil_calls, veil_faults, veil_next_fails, hidden, hidden_in, pair_of, without_last, GivesSeen, CountsVeiled};

use crate::slots::fill;
use crate::{Disk, DiskError, MemoryDisk};
use std::alloc::Global;

/// A disk in memory that tells nothing, as a disk whose files were cut behind its back: of some files
/// `read_at` hides the last bytes. Else it answers as a `MemoryDisk` does, and an `append` to a file that
/// isn't there fails.
#[derive(Drop)]
pub struct VeilDisk {
    disk: MemoryDisk,
    short: Vec<(u64, u64)>,
}

impl VeilDisk {
    /// A disk without files, on which the calls with these numbers fail; they are numbered as those of a
    /// `MemoryDisk`. Each pair of `short` names a file, and how many of its last bytes are hidden. Where
    /// several name one, the first counts.
    pub fn new(alloc: Global, fails: Vec<u64>, short: Vec<(u64, u64)>) -> VeilDisk
        ensures files { veil_files result ≡ map.empty }
        ensures fails { veil_fails result ≡ fails.items }
        ensures hidden { (file : ℕ) → hidden result file ≡ hidden_in short.items file }
        ensures calls { veil_calls result ≡ 0 }
        ensures created { veil_created result ≡ 0 }
        ensures faults { veil_faults result ≡ 0 }
    {
        VeilDisk {
            disk: MemoryDisk::new(alloc, fails),
            short,
        }
    }

    /// How many files were made so far: the number of the next one.
    pub fn created(&self) -> u64
        ensures { result ≡ veil_created self.now }
    {
        self.disk.created()
    }

    /// How many calls failed so far, as far as a `u64` counts.
    pub fn faults(&self) -> u64
        ensures { result ≡ veil_faults self.now }
    {
        self.disk.faults()
    }

    /// How many of a file's last bytes are hidden.
    fn hidden_of(&self, file: u64) -> u64
        ensures { result ≡ hidden self.now file }
    {
        match pair_of(&self.short, file) {
            Some((_, count)) => count,
            None => 0,
        }
    }
}

/// The first of these pairs that names the file.
fn pair_of(short: &[(u64, u64)], file: u64) -> Option<(u64, u64)>
    ensures { result ≡ pair_of short.now file }
{
    short.iter().copied().find(|pair| pair.0 == file)
}

/// The bytes but so many of the last.
fn without_last(bytes: &[u8], count: u64) -> &[u8]
    ensures { result.now ≡ without_last bytes.now count }
{
    &bytes[..bytes.len().saturating_sub(count as usize)]
}

impl Disk for VeilDisk {
    ghost files = { λ _. None };

    ghost faults = { veil_faults };

    ghost next_number = { veil_created };

    fn create(&mut self) -> Result<u64, DiskError>
        ensures fresh { IfOk result (λ file. veil_created self.old ≤ file) }
        ensures given { IfOk result (λ file. file < veil_created self.new) }
        ensures later { veil_created self.old ≤ veil_created self.new }
        ensures cause { HasCauseAt DiskError.Failed (veil_faults self.old) (veil_faults self.new) result }

        // As a `MemoryDisk` does.
        ensures made { IfOk result
            (Creates (Some (veil_files self.old)) (Some (veil_files self.new))) }
        ensures kept { OnErr result (veil_files self.new ≡ veil_files self.old) }
        ensures listed { IsErrOf result DiskError.Failed ↔ IsTrue (veil_next_fails self.old) }
        ensures counts { CountsVeiled self.old self.new }
        ensures counted { CountsAt DiskError.Failed (veil_faults self.old) (veil_faults self.new) result }
    {
        self.disk.create()
    }

    fn append(&mut self, file: u64, bytes: &[u8]) -> Result<(), DiskError>
        ensures same { veil_created self.new ≡ veil_created self.old }
        ensures cause { HasCauseAt DiskError.Failed (veil_faults self.old) (veil_faults self.new) result }

        // As a `MemoryDisk` does, where the file is there. Else it fails and nothing changes.
        ensures added { OnOk result
            (Appends (Some (veil_files self.old)) (Some (veil_files self.new)) file bytes.now) }
        ensures partly { IsThere (Some (veil_files self.old)) file → OnErr result
            (AppendsPart (Some (veil_files self.old)) (Some (veil_files self.new)) file bytes.now) }
        ensures gone { (IsThere (Some (veil_files self.old)) file → ⊥) →
            veil_files self.new ≡ veil_files self.old }
        ensures listed { IsErrOf result DiskError.Failed ↔ (IsTrue (veil_next_fails self.old)
            ⊎ (IsThere (Some (veil_files self.old)) file → ⊥)) }
        ensures counts { CountsVeiled self.old self.new }
        ensures counted { CountsAt DiskError.Failed (veil_faults self.old) (veil_faults self.new) result }
    {
        if !self.disk.has(file) {
            return self.disk.count_call(true);
        }
        self.disk.append(file, bytes)
    }

    fn read_at(&mut self, file: u64, place: u64, buf: &mut [u8]) -> Result<usize, DiskError>
        ensures bound { IfOk result (λ count. count ≤ length buf.old) }
        ensures numbers { veil_created self.new ≡ veil_created self.old }
        ensures cause { HasCauseAt DiskError.Failed (veil_faults self.old) (veil_faults self.new) result }

        // It gives what stands at the place of the file's bytes without the hidden ones.
        ensures given { IfOk result (GivesSeen self.old file place buf.old buf.new) }
        ensures kept { veil_files self.new ≡ veil_files self.old }
        ensures listed { IsErrOf result DiskError.Failed ↔ IsTrue (veil_next_fails self.old) }
        ensures counts { CountsVeiled self.old self.new }
        ensures counted { CountsAt DiskError.Failed (veil_faults self.old) (veil_faults self.new) result }
    {
        self.disk.begin_call()?;
        let seen = without_last(self.disk.bytes(file), self.hidden_of(file));
        Ok(fill(seen, place, buf))
    }

    fn remove(&mut self, file: u64) -> Result<(), DiskError>
        ensures same { veil_created self.new ≡ veil_created self.old }
        ensures cause { HasCauseAt DiskError.Failed (veil_faults self.old) (veil_faults self.new) result }

        // As a `MemoryDisk` does.
        ensures removed { OnOk result
            (Removes (Some (veil_files self.old)) (Some (veil_files self.new)) file) }
        ensures kept { OnErr result (veil_files self.new ≡ veil_files self.old) }
        ensures listed { IsErrOf result DiskError.Failed ↔ IsTrue (veil_next_fails self.old) }
        ensures counts { CountsVeiled self.old self.new }
        ensures counted { CountsAt DiskError.Failed (veil_faults self.old) (veil_faults self.new) result }
    {
        self.disk.remove(file)
    }
}

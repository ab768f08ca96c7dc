//! What a disk of files by number is.

ghost use Rattle.std.specs.Prelude.{◌≡◌, ◌<◌, ◌≤◌, Option, ℕ, length, is_some, IfOk, OnOk, OnErr};
ghost use Rattle.fault_count.specs.Faults.{HasCauseAt};
ghost use Rattle.spill_disk.specs.declared.disk.DiskError.TheVariants.{Failed, NoMemory};
ghost use Rattle.spill_disk.specs.Files.{Files, IsThere, Creates, Appends, AppendsPart, Reads, Removes};

use std::alloc::AllocError;
use std::io;
use thiserror::Error;

/// Why a call of a disk gave up.
#[derive(Clone, Copy, Debug, PartialEq, Eq, Error)]
pub enum DiskError {
    #[error("a call of a disk failed")]
    Failed,
    #[error("out of memory")]
    NoMemory,
}

impl From<AllocError> for DiskError {
    ghost from_gives = { λ _ error. error ≡ NoMemory };

    fn from(_refused: AllocError) -> DiskError {
        DiskError::NoMemory
    }
}

impl From<io::Error> for DiskError {
    ghost from_gives = { λ _ error. error ≡ Failed };

    fn from(_failed: io::Error) -> DiskError {
        DiskError::Failed
    }
}

/// Files by number, which grow at their ends. A disk that *tells* shows contracts its files; no call
/// changes whether it does.
pub trait Disk: Drop {
    /// The files that are there, of a disk that tells.
    ghost files: { Self → Option Files };

    /// How often the disk has failed.
    ghost faults: { Self → ℕ };

    /// All file numbers that were given out are below this one.
    ghost next_number: { Self → ℕ };

    /// Makes an empty file, and answers its number, which was never given out before. At the last `u64`
    /// it fails. After an `Err` no file is made.
    fn create(&mut self) -> Result<u64, DiskError>
        ensures ok { IfOk result (Creates (files self.old) (files self.new)) }
        ensures there { IfOk result (IsThere (files self.new)) }
        ensures fresh { IfOk result (λ file. next_number self.old ≤ file) }
        ensures given { IfOk result (λ file. file < next_number self.new) }
        ensures err { OnErr result (files self.new ≡ files self.old) }
        ensures later { next_number self.old ≤ next_number self.new }
        ensures tells { is_some (files self.new) ≡ is_some (files self.old) }
        ensures cause { HasCauseAt DiskError.Failed (faults self.old) (faults self.new) result };

    /// Adds bytes at a file's end. After an `Err` a part of them, from the front, was added. A disk that
    /// tells nothing may fail on a file that isn't there.
    fn append(&mut self, file: u64, bytes: &[u8]) -> Result<(), DiskError>
        requires there { IsThere (files self.old) file }
        ensures ok { OnOk result (Appends (files self.old) (files self.new) file bytes.now) }
        ensures err { OnErr result (AppendsPart (files self.old) (files self.new) file bytes.now) }
        ensures there { IsThere (files self.new) file }
        ensures same { next_number self.new ≡ next_number self.old }
        ensures tells { is_some (files self.new) ≡ is_some (files self.old) }
        ensures cause { HasCauseAt DiskError.Failed (faults self.old) (faults self.new) result };

    /// Fills the front of `buf` with the file's bytes from `place` on, as many as there are and fit, and
    /// answers how many. A disk that tells takes a file that isn't there as empty; another may fail.
    fn read_at(&mut self, file: u64, place: u64, buf: &mut [u8]) -> Result<usize, DiskError>
        ensures ok { IfOk result (Reads (files self.old) file place buf.old buf.new) }
        ensures bound { IfOk result (λ count. count ≤ length buf.old) }
        ensures same { files self.new ≡ files self.old }
        ensures numbers { next_number self.new ≡ next_number self.old }
        ensures cause { HasCauseAt DiskError.Failed (faults self.old) (faults self.new) result };

    /// Takes a file away. One that isn't there is `Ok` and changes nothing. After an `Err` nothing changed.
    fn remove(&mut self, file: u64) -> Result<(), DiskError>
        ensures ok { OnOk result (Removes (files self.old) (files self.new) file) }
        ensures err { OnErr result (files self.new ≡ files self.old) }
        ensures same { next_number self.new ≡ next_number self.old }
        ensures tells { is_some (files self.new) ≡ is_some (files self.old) }
        ensures cause { HasCauseAt DiskError.Failed (faults self.old) (faults self.new) result };
}

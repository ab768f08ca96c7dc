//! What is kept in memory of a run, and why a call on one gave up.

ghost use Rattle.std.specs.Prelude.{◌≡◌};
ghost use Rattle.run_file.specs.Causes.{fault_by};

use spill_disk::DiskError;
use thiserror::Error;

/// A file of rows that was written once.
#[derive(Clone, Copy, Debug, PartialEq, Eq)]
pub struct Run {
    /// Its disk, as a place of a shelf.
    pub disk: u32,
    /// The file's number on its disk.
    pub file: u64,
    /// How many bytes it has.
    pub bytes: u64,
    /// How many rows it has.
    pub count: u64,
    /// The greatest cost of a row in bytes, 24 and its encoding, or 0 without rows.
    pub greatest: u64,
}

/// A file that isn't what was written: the row after the first `found` isn't well formed.
#[derive(Clone, Copy, Debug, PartialEq, Eq, Error)]
#[error("file {file} of disk {disk} is damaged: {found} of {kept} rows were found")]
pub struct Damage {
    /// Its disk, as a place of a shelf.
    pub disk: u32,
    /// The file's number on its disk.
    pub file: u64,
    /// How many rows were written.
    pub kept: u64,
    /// How many were found before the one that isn't well formed.
    pub found: u64,
}

/// Why a call on a run gave up.
#[derive(Clone, Copy, Debug, PartialEq, Eq, Error)]
pub enum RunFault {
    #[error("a call of disk {disk} failed")]
    DiskFault { disk: u32 },
    #[error(transparent)]
    Damaged(Damage),
    #[error("out of memory")]
    NoMemory,
}

/// A disk's error as the fault of this disk.
pub(crate) fn fault_of(disk: u32, error: DiskError) -> RunFault
    ensures { result ≡ fault_by disk error }
{
    match error {
        DiskError::Failed => RunFault::DiskFault { disk },
        DiskError::NoMemory => RunFault::NoMemory,
    }
}

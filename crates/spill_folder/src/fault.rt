//! Why a process can't use the folder.

ghost use Rattle.std.specs.Prelude.{◌≡◌};
ghost use Rattle.spill_folder.specs.Faults.{number_of_spill};

use std::alloc::AllocError;
use std::io;
use thiserror::Error;

/// What stands in the way, and no run put there.
#[derive(Clone, Copy, Debug, PartialEq, Eq, Error)]
pub enum Strange {
    /// The folder has files, and no lock of a run.
    #[error("it has files and no lock, so no run made it")]
    NotOurs,
    /// A symbolic link: what it leads to is somebody else's.
    #[error("is a link")]
    Link,
    /// No folder, where one has to be.
    #[error("not a directory")]
    NotFolder,
    /// No plain file, where one has to be.
    #[error("not a plain file")]
    NotFile,
}

/// Why a process can't use the folder. Nothing was removed then, but after `Failed` at a file of an earlier run.
#[derive(Debug, Drop, Error)]
pub enum SpillFault {
    /// Another process holds the lock.
    #[error("spill: another run is using it")]
    InUse,
    /// A call failed.
    #[error("{path}: {reason}")]
    Failed {
        /// On what, as a path from the working folder.
        path: String,
        /// What std says of the call.
        reason: io::ErrorKind,
    },
    /// Something is there that no run made.
    #[error("{path}: {what}")]
    Strange {
        /// Where, as a path from the working folder.
        path: String,
        /// What it is.
        what: Strange,
    },
    /// There is too little memory.
    #[error("out of memory")]
    NoMemory,
}

impl SpillFault {
    /// The number that the process ends with.
    pub fn number(&self) -> u8
        ensures { result ≡ number_of_spill self.now }
    {
        match self {
            SpillFault::InUse | SpillFault::Failed { .. } | SpillFault::Strange { .. } => 16,
            SpillFault::NoMemory => 18,
        }
    }
}

impl From<AllocError> for SpillFault {
    fn from(_failed: AllocError) -> SpillFault {
        SpillFault::NoMemory
    }
}

//! Why no rows were handed out.

use run_file::Damage;
use thiserror::Error;

/// Why no rows were handed out. The worker then has no block pinned.
#[derive(Clone, Copy, Debug, PartialEq, Eq, Error)]
pub enum RowsFault {
    #[error("a call of the disk failed")]
    DiskFault,
    /// The partition's file isn't what was landed. The damage's disk is 0, the one that was handed in.
    #[error(transparent)]
    Damaged(Damage),
    #[error("out of memory")]
    NoMemory,
}

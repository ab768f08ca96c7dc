//! Why a text is no job.

ghost use Rattle.std.specs.Prelude.{◌≡◌};
ghost use Rattle.job_text.specs.declared.fault.JobFault.TheVariants.{NoMemory};

use std::alloc::AllocError;
use thiserror::Error;

/// Why no job was read.
#[derive(Clone, Copy, Debug, PartialEq, Eq, Error)]
pub enum JobFault {
    /// The text is no job: the place is the first byte of the first token that no job goes on with, or the
    /// text's length.
    #[error("job: error at byte {place}")]
    BadJob { place: u32 },
    #[error("out of memory")]
    NoMemory,
}

impl From<AllocError> for JobFault {
    ghost from_gives = { λ _ fault. fault ≡ NoMemory };

    fn from(_refused: AllocError) -> JobFault {
        JobFault::NoMemory
    }
}

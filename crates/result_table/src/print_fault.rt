// Why a table wasn't printed.
ghost use Rattle.std.specs.Prelude.{◌≡◌};
ghost use Rattle.result_table.specs.Faults.{fault_of};
ghost use Rattle.result_table.specs.declared.print_fault.PrintFault.TheVariants.{NoMemory};

use run_file::{Damage, RunFault};
use std::alloc::AllocError;
use thiserror::Error;

/// Why a table wasn't printed to its end. A part of it, from the front, was written.
#[derive(Clone, Copy, Debug, PartialEq, Eq, Error)]
pub enum PrintFault {
    #[error("a write of the output failed")]
    WriteFault,
    #[error("a call of disk {disk} failed")]
    DiskFault { disk: u32 },
    /// The entry after the first `found` isn't well formed, or can't be told as a row of the table.
    #[error(transparent)]
    Damaged(Damage),
    #[error("out of memory")]
    NoMemory,
}

impl From<AllocError> for PrintFault {
    ghost from_gives = { λ _ fault. fault ≡ NoMemory };

    fn from(_refused: AllocError) -> PrintFault {
        PrintFault::NoMemory
    }
}

impl From<RunFault> for PrintFault {
    ghost from_gives = { λ of_run fault. fault ≡ fault_of of_run };

    fn from(of_run: RunFault) -> PrintFault {
        match of_run {
            RunFault::DiskFault { disk } => PrintFault::DiskFault { disk },
            RunFault::Damaged(damage) => PrintFault::Damaged(damage),
            RunFault::NoMemory => PrintFault::NoMemory,
        }
    }
}

//! Why an input wasn't landed.

ghost use Rattle.std.specs.Prelude.{◌≡◌};
ghost use Rattle.landing.specs.Explaining.{IsOfWriter, fault_by};
ghost use Rattle.landing.specs.declared.fault.LandFault.TheVariants.{NoMemory};

use item_lists::Name;
use run_file::RunFault;
use std::alloc::AllocError;
use thiserror::Error;

/// Why an input wasn't landed. Rows are numbered from 1, and the header is row 0; columns stand in the header
/// from 0. Files that were being written stay.
#[derive(Debug, Drop, Error)]
pub enum LandFault {
    /// The input has no record.
    #[error("input has no header")]
    NoHeader,
    /// The header lacks this column, the first that it lacks in the order of the job's text.
    #[error("no column {}", column.text())]
    NoColumn { column: Name },
    /// The row hasn't as many fields as the header.
    #[error("row {row}: wrong number of fields")]
    Ragged { row: u64 },
    /// The row has over 1,024 fields, or over 65,536 bytes in its fields.
    #[error("row {row}: too long")]
    RowTooLong { row: u64 },
    /// The field of a number column isn't a number.
    #[error("row {row} column {column}: not a number")]
    BadNumber { row: u64, column: u32 },
    /// There are more rows than may be.
    #[error("too many rows")]
    TooManyRows,
    #[error("input failed")]
    ReadFault,
    #[error("a call of disk {disk} failed")]
    DiskFault { disk: u32 },
    #[error("out of memory")]
    NoMemory,
}

impl From<AllocError> for LandFault {
    ghost from_gives = { λ _ fault. fault ≡ NoMemory };

    fn from(_refused: AllocError) -> LandFault {
        LandFault::NoMemory
    }
}

/// A fault of a writer of rows, which finds no damage, as one of a landing.
pub(crate) fn fault_of(fault: RunFault) -> LandFault
    requires { IsOfWriter fault }
    ensures { result ≡ fault_by fault }
{
    match fault {
        RunFault::DiskFault { disk } => LandFault::DiskFault { disk },
        RunFault::Damaged(_) => unreachable!(),
        RunFault::NoMemory => LandFault::NoMemory,
    }
}

//! How a call on a job ended.

ghost use Rattle.std.specs.Prelude.{◌≡◌};
ghost use Rattle.job_ending.specs.Statuses.{number_of};
ghost use Rattle.job_ending.specs.Telling.{status_of_damage, status_of_print, status_of_run};

use aggregate::Key;
use item_lists::Name;
use result_table::PrintFault;
use run_file::{Damage, RunFault};
use thiserror::Error;

/// How a run ended. The texts are those on standard error; after `Done` there is none. Rows are numbered from 1, and the header
/// is row 0; columns and queries are numbered from 0.
#[derive(Debug, Drop, Error)]
pub enum Status {
    /// The source was read to its end, and the output is whole.
    #[error("")]
    Done,
    /// The words are none that `run` takes, or there are fewer posts than workers.
    #[error("usage: run [options] JOB, plan JOB, audit, trial [options] N")]
    BadWords,
    /// The job isn't in the job language, from this byte on.
    #[error("job: error at byte {place}")]
    BadJob {
        place: u32,
    },
    /// The heap has less than one and a half times what is reserved.
    #[error("heap too small for the reserve")]
    HeapTooSmall,
    /// The input has no record.
    #[error("input has no header")]
    NoHeader,
    /// The header lacks this column, the first that it lacks in the order of the job's text.
    #[error("no column {}", column.text())]
    NoColumn {
        column: Name,
    },
    /// The row hasn't as many fields as the header.
    #[error("row {row}: wrong number of fields")]
    Ragged {
        row: u64,
    },
    /// The row has over 1,024 fields, or over 65,536 bytes in its fields.
    #[error("row {row}: too long")]
    RowTooLong {
        row: u64,
    },
    /// The field of a number column is no number.
    #[error("row {row} column {column}: not a number")]
    BadNumber {
        row: u64,
        column: u32,
    },
    /// There are more rows than may be.
    #[error("too many rows")]
    TooManyRows,
    /// A number of this query's table leaves 64 bits, first for this key.
    #[error("query {query}: a sum is too wide")]
    SumTooWide {
        query: u32,
        key: Key,
    },
    /// The pool has too little, and nothing is left to spill: what had to be got, what the task held, and what it could count on,
    /// in bytes.
    #[error("no room: asked {asked}, held {held}, floor {floor}")]
    NoRoom {
        asked: u64,
        held: u64,
        floor: u64,
    },
    /// A read of the input failed.
    #[error("input failed")]
    ReadFault,
    /// A write of the output failed.
    #[error("output failed")]
    WriteFault,
    /// A write of the journal failed.
    #[error("journal failed")]
    JournalFault,
    /// A call of the disk of this post failed.
    #[error("disk of post {post} failed")]
    DiskFault {
        post: u32,
    },
    /// Of `kept` entries in a file of this post's disk, the one behind the first `found` isn't what was written.
    #[error("disk of post {post} file {file}: {kept} entries kept, {found} found")]
    Damaged {
        post: u32,
        file: u64,
        kept: u64,
        found: u64,
    },
    /// There is too little memory.
    #[error("out of memory")]
    NoMemory,
}

impl Status {
    /// The number that the process ends with.
    pub fn number(&self) -> u8
        ensures { result ≡ number_of self.now }
    {
        match self {
            Status::Done => 0,
            Status::BadWords => 2,
            Status::BadJob { .. } => 3,
            Status::HeapTooSmall => 4,
            Status::NoHeader => 5,
            Status::NoColumn { .. } => 6,
            Status::Ragged { .. } => 7,
            Status::RowTooLong { .. } => 8,
            Status::BadNumber { .. } => 9,
            Status::TooManyRows => 10,
            Status::SumTooWide { .. } => 11,
            Status::NoRoom { .. } => 12,
            Status::ReadFault => 13,
            Status::WriteFault => 14,
            Status::JournalFault => 15,
            Status::DiskFault { .. } => 16,
            Status::Damaged { .. } => 17,
            Status::NoMemory => 18,
        }
    }
}

impl From<Damage> for Status {
    ghost from_gives = { λ damage status. status ≡ status_of_damage damage };

    fn from(damage: Damage) -> Status {
        Status::Damaged {
            post: damage.disk,
            file: damage.file,
            kept: damage.kept,
            found: damage.found,
        }
    }
}

impl From<RunFault> for Status {
    ghost from_gives = { λ fault status. status ≡ status_of_run fault };

    fn from(fault: RunFault) -> Status {
        match fault {
            RunFault::DiskFault { disk } => Status::DiskFault { post: disk },
            RunFault::Damaged(damage) => Status::from(damage),
            RunFault::NoMemory => Status::NoMemory,
        }
    }
}

impl From<PrintFault> for Status {
    ghost from_gives = { λ fault status. status ≡ status_of_print fault };

    fn from(fault: PrintFault) -> Status {
        match fault {
            PrintFault::WriteFault => Status::WriteFault,
            PrintFault::DiskFault { disk } => Status::DiskFault { post: disk },
            PrintFault::Damaged(damage) => Status::from(damage),
            PrintFault::NoMemory => Status::NoMemory,
        }
    }
}

//! How an audit ends.

ghost use Rattle.std.specs.Prelude.{◌≡◌};
ghost use Rattle.audit_program.specs.Calls.{number_of, status_of};

use journal_audit::Rule;
use journal_replay::Verdict;

/// How a call of `audit` ended.
#[derive(Clone, Copy, Debug, PartialEq, Eq)]
pub enum AuditStatus {
    /// The input is the text of a legal journal of so many entries.
    Yes { events: u64 },
    /// The words are none that `audit` takes.
    BadWords,
    /// A read of the input failed.
    ReadFault,
    /// A write of the output failed.
    WriteFault,
    /// There is too little memory.
    NoMemory,
    /// Each line is of the form, and the entry of this number is the first that breaks a rule: this one.
    No { event: u64, rule: Rule },
    /// This line is the first one that isn't of the form.
    BadLine { line: u64 },
}

impl AuditStatus {
    /// The number that the process ends with.
    pub fn number(&self) -> u8
        ensures { result ≡ number_of self.now }
    {
        match self {
            AuditStatus::Yes { .. } => 0,
            AuditStatus::BadWords => 2,
            AuditStatus::ReadFault => 13,
            AuditStatus::WriteFault => 14,
            AuditStatus::NoMemory => 18,
            AuditStatus::No { .. } => 20,
            AuditStatus::BadLine { .. } => 21,
        }
    }
}

/// The status of a verdict.
pub(crate) fn status_of(verdict: Verdict) -> AuditStatus
    ensures { result ≡ status_of verdict }
{
    match verdict {
        Verdict::Yes { events } => AuditStatus::Yes { events },
        Verdict::No { event, rule } => AuditStatus::No { event, rule },
        Verdict::BadLine { line } => AuditStatus::BadLine { line },
    }
}

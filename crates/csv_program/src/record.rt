//! The journal of a run as it is written.

ghost use Rattle.std.specs.Prelude.{◌≡◌, ◌≤◌, IfErr, OnErr, OnOk};
ghost use Rattle.fault_count.specs.Faults.{Rose};
ghost use Rattle.journal_audit.specs.Text.{text_of};
ghost use Rattle.job_ending.specs.Statuses.{IsJournalFault};
ghost use Rattle.job_ending.specs.Written.{WritesFront, WritesText};

use byte_io::{Sink, SinkError, write_all_counted};
use job_ending::Status;
use journal_audit::journal_text;
use pool_ledger::{Journal, Setup};
use std::alloc::Global;

/// A pool's journal, and whether it is to be written.
#[derive(Drop)]
pub struct Record<'a> {
    /// Whether it is.
    pub asked: bool,
    /// The pool's sizes.
    pub setup: Setup,
    /// Its events, in order.
    pub journal: &'a Journal,
}

/// Writes the text of a pool's journal to its sink, where that is asked for; else nothing. After an `Err` a part of the text, from
/// the front, was written.
pub fn write_journal<J: Sink>(alloc: Global, kept: &Record<'_>, sink: &mut J) -> Result<(), Status>
    ensures ok { OnOk result (WritesText kept.now.asked (text_of kept.now.setup kept.now.journal.now)
        (J.written sink.old) (J.written sink.new)) }
    ensures err { OnErr result (WritesFront kept.now.asked (text_of kept.now.setup kept.now.journal.now)
        (J.written sink.old) (J.written sink.new)) }
    ensures of_journal { IfErr result IsJournalFault }
    ensures fault { IfErr result (λ ended. ended ≡ Status.JournalFault → Rose (J.faults sink.old) (J.faults sink.new)) }
    ensures later { J.faults sink.old ≤ J.faults sink.new }
{
    if !kept.asked {
        return Ok(());
    }
    let Ok(text) = journal_text(alloc, &kept.setup, kept.journal) else {
        return Err(Status::NoMemory);
    };
    match write_all_counted(sink, &text) {
        Ok(()) => Ok(()),
        Err(SinkError::Failed) => Err(Status::JournalFault),
        Err(SinkError::NoMemory) => Err(Status::NoMemory),
    }
}

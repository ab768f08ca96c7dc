//! A call of `audit`.

ghost use Rattle.std.specs.Prelude.{◌≡◌, ◌⊎◌, true, false, IfErr, IfOk, IsErrOf, OnOk};
ghost use Rattle.std.specs.Io.KnownBytes.{Appends, IsAtEnd, Keeps};
ghost use Rattle.byte_io.specs.Sinks.{AppendsPrefix};
ghost use Rattle.fault_count.specs.Faults.{Rose};
ghost use Rattle.words.specs.Texts.{texts};
ghost use Rattle.audit_program.specs.Calls.{is_audit, line_of, status_of, IfVerdict, IsCut, IsVerdictOf, EndsPrint, MayPrint, PrintsNothing, RefusesWords};

use crate::answer_line::line_of;
use crate::input::{ReadError, read_all};
use crate::status::{AuditStatus, status_of};
use byte_io::{Sink, SinkError, Source, write_all_counted};
use journal_replay::{Verdict, audit};
use std::alloc::Global;
use words::{WordsFault, begins_with, read_audit_words};

/// Reads a journal's text from the input, to its end, and prints its verdict as one line: `yes E` of a legal
/// journal of so many entries, `no E RULE` where the entry of this number is the first that breaks a rule, or
/// `bad line N`. Words are `audit` alone.
///
/// Want of memory has no clause; a test shows that a call with ample memory answers.
pub fn audit_call<S: Source, W: Sink>(
    alloc: Global,
    words: &[&str],
    input: &mut S,
    output: &mut W,
) -> AuditStatus
    ensures words { result ≡ AuditStatus.BadWords → is_audit (texts words.now) ≡ false }
    ensures refused { is_audit (texts words.now) ≡ false
        → (result ≡ AuditStatus.BadWords) ⊎ (result ≡ AuditStatus.NoMemory) }

    // Words that are no call of `audit` touch nothing.
    ensures unread { is_audit (texts words.now) ≡ false → (input.new ≡ input.old) × (output.new ≡ output.old) }

    // The verdict is that of all that the input had left, and its line is written whole.
    ensures verdict { IfVerdict result (IsVerdictOf (S.left input.old)) }
    ensures end { IfVerdict result (λ _. IsAtEnd (S.left input.new)) }
    ensures printed { IfVerdict result (λ verdict.
        Appends (W.written output.old) (W.written output.new) (line_of verdict)) }

    // What is written else.
    ensures part { IsCut result → MayPrint (S.left input.old) (W.written output.old) (W.written output.new) }
    ensures nothing { PrintsNothing result → Keeps (W.written output.old) (W.written output.new) }

    // The causes of faults.
    ensures read { result ≡ AuditStatus.ReadFault → Rose (S.faults input.old) (S.faults input.new) }
    ensures write { result ≡ AuditStatus.WriteFault → Rose (W.faults output.old) (W.faults output.new) }
{
    if let Err(status) = check_words(alloc, words) {
        return status;
    }
    let verdict = match read_verdict(alloc, input) {
        Ok(verdict) => verdict,
        Err(ReadError::Failed) => return AuditStatus::ReadFault,
        Err(ReadError::NoMemory) => return AuditStatus::NoMemory,
    };
    print_verdict(alloc, verdict, output)
}

// Refuses words that are no call of `audit`.
fn check_words(alloc: Global, words: &[&str]) -> Result<(), AuditStatus>
    ensures ok { OnOk result (is_audit (texts words.now) ≡ true) }
    ensures bad { IfErr result (RefusesWords (is_audit (texts words.now))) }
{
    if !begins_with(words, "audit") {
        return Err(AuditStatus::BadWords);
    }
    match read_audit_words(alloc, words) {
        Ok(()) => Ok(()),
        Err(WordsFault::BadWords) => Err(AuditStatus::BadWords),
        Err(WordsFault::NoMemory) => Err(AuditStatus::NoMemory),
    }
}

// The verdict of all that the input has left.
fn read_verdict<S: Source>(alloc: Global, input: &mut S) -> Result<Verdict, ReadError>
    ensures ok { IfOk result (IsVerdictOf (S.left input.old)) }
    ensures end { OnOk result (IsAtEnd (S.left input.new)) }
    ensures cause { IsErrOf result ReadError.Failed → Rose (S.faults input.old) (S.faults input.new) }
{
    let bytes = read_all(alloc, input)?;
    match audit(alloc, &bytes) {
        Ok(verdict) => Ok(verdict),
        Err(_) => Err(ReadError::NoMemory),
    }
}

// Writes the line of a verdict.
fn print_verdict<W: Sink>(alloc: Global, verdict: Verdict, output: &mut W) -> AuditStatus
    ensures ends { EndsPrint verdict result }
    ensures done { result ≡ status_of verdict → Appends (W.written output.old) (W.written output.new) (line_of verdict) }
    ensures part { IsCut result → Keeps (W.written output.old) (W.written output.new)
        ⊎ AppendsPrefix (W.written output.old) (W.written output.new) (line_of verdict) }
    ensures write { result ≡ AuditStatus.WriteFault → Rose (W.faults output.old) (W.faults output.new) }
{
    let Ok(line) = line_of(alloc, verdict) else {
        return AuditStatus::NoMemory;
    };
    match write_all_counted(output, &line) {
        Ok(()) => status_of(verdict),
        Err(SinkError::Failed) => AuditStatus::WriteFault,
        Err(SinkError::NoMemory) => AuditStatus::NoMemory,
    }
}

//! The plan of a job over an input's header, printed.

ghost use Rattle.std.specs.Prelude.{◌≡◌, ◌≢◌, ◌⊎◌, IfErr, IfOk, IfSome, option_map};
ghost use Rattle.std.specs.Io.KnownBytes.{Appends, Keeps};
ghost use Rattle.byte_io.specs.Rows.{rows_of};
ghost use Rattle.byte_io.specs.Sinks.{AppendsPrefix};
ghost use Rattle.fault_count.specs.Faults.{Rose};
ghost use Rattle.job_plan.specs.PlanText.{plan_text};
ghost use Rattle.job_text.specs.Jobs.{IsJob};
ghost use Rattle.landing.specs.Checks.{Refused};
ghost use Rattle.landing.specs.Headers.{checked_header};
ghost use Rattle.landing.specs.Landed.{IsOfInput};
ghost use Rattle.landing.specs.declared.fault.LandFault.{LandFault};
ghost use Rattle.words.specs.Texts.{texts};
ghost use Rattle.job_ending.specs.Endings.{status_of};
ghost use Rattle.csv_program.specs.PlanCalls.{ForNoPlan, ForPlan, IsOfPrint, IsWhyNoPlan, MayPrint, Plans, PrintsNothing, PrintsPlan, TellsPlan, TellsRefusal, plan_asked};

use crate::top::land_status;
use byte_io::{Sink, SinkError, Source, write_all_counted};
use job_ending::Status;
use job_plan::Plan;
use job_text::{Job, JobFault, read};
use landing::{LandFault, plan_input};
use std::alloc::Global;
use words::{WordsFault, begins_with, read_plan_words};

/// Prints the plan of a job over the header of an input: a line of the columns that are kept, and for each pass over a dataset a
/// line with its queries, and one for each dataset whose blocks are removed after it. Words are `plan JOB`, with any job of the
/// language. No row is looked at, and nothing is written before the whole plan is known.
///
/// Want of memory has no clause; a test shows that a call with ample memory answers.
pub fn plan_call<S: Source, W: Sink>(
    alloc: Global,
    words: &[&str],
    input: &mut S,
    output: &mut W,
) -> Status
    ensures call { TellsPlan (plan_asked (texts words.now)) result }
    ensures refused { ForPlan (plan_asked (texts words.now)) (λ job. IfSome (S.left input.old) (λ bytes.
        (why : LandFault) → checked_header job (rows_of bytes) ≡ Refused why →
        TellsRefusal why result)) }
    ensures called { ForPlan (plan_asked (texts words.now)) (λ job. IfSome (S.left input.old) (λ bytes.
        (why : LandFault) → IsOfInput why → result ≡ status_of why → checked_header job (rows_of bytes) ≡ Refused why)) }

    // A call that is of no job touches nothing.
    ensures unread { ForNoPlan (plan_asked (texts words.now)) ((input.new ≡ input.old) × (output.new ≡ output.old)) }

    // What is written.
    ensures done { result ≡ Status.Done → ForPlan (plan_asked (texts words.now)) (λ job.
        PrintsPlan job (option_map rows_of (S.left input.old)) (W.written output.old) (W.written output.new)) }
    ensures part { result ≢ Status.Done → ForPlan (plan_asked (texts words.now)) (λ job.
        MayPrint job (option_map rows_of (S.left input.old)) (W.written output.old) (W.written output.new)) }
    ensures nothing { PrintsNothing result → Keeps (W.written output.old) (W.written output.new) }

    // The causes of faults.
    ensures read { result ≡ Status.ReadFault → Rose (S.faults input.old) (S.faults input.new) }
    ensures write { result ≡ Status.WriteFault → Rose (W.faults output.old) (W.faults output.new) }
{
    let job = match read_job(alloc, words) {
        Ok(job) => job,
        Err(status) => return status,
    };
    match plan_input(alloc, input, &job) {
        Ok(plan) => print_plan(alloc, &plan, output),
        Err(fault) => land_status(fault),
    }
}

// The job of a call's text.
fn read_job(alloc: Global, words: &[&str]) -> Result<Job, Status>
    ensures ok { IfOk result (λ job. plan_asked (texts words.now) ≡ Plans job) }
    ensures job { IfOk result IsJob }
    ensures why { IfErr result (IsWhyNoPlan (plan_asked (texts words.now))) }
{
    if !begins_with(words, "plan") {
        return Err(Status::BadWords);
    }
    let text = match read_plan_words(alloc, words) {
        Ok(text) => text,
        Err(WordsFault::BadWords) => return Err(Status::BadWords),
        Err(WordsFault::NoMemory) => return Err(Status::NoMemory),
    };
    match read(alloc, text) {
        Ok(job) => Ok(job),
        Err(JobFault::BadJob { place }) => Err(Status::BadJob { place }),
        Err(JobFault::NoMemory) => Err(Status::NoMemory),
    }
}

// Writes a plan's text.
fn print_plan<W: Sink>(alloc: Global, plan: &Plan, output: &mut W) -> Status
    ensures ends { IsOfPrint result }
    ensures done { result ≡ Status.Done → Appends (W.written output.old) (W.written output.new) (plan_text plan.now) }
    ensures part { result ≢ Status.Done → Keeps (W.written output.old) (W.written output.new) ⊎
        AppendsPrefix (W.written output.old) (W.written output.new) (plan_text plan.now) }
    ensures write { result ≡ Status.WriteFault → Rose (W.faults output.old) (W.faults output.new) }
{
    let Ok(text) = plan.print(alloc) else {
        return Status::NoMemory;
    };
    match write_all_counted(output, text.as_bytes()) {
        Ok(()) => Status::Done,
        Err(SinkError::Failed) => Status::WriteFault,
        Err(SinkError::NoMemory) => Status::NoMemory,
    }
}

//! The plan of a job over an input's header.

ghost use Rattle.std.specs.Prelude.{◌≡◌, ◌≤◌, ℕ, IfErr, IfOk, IfSome, IsErrOf, option_map};
ghost use Rattle.fault_count.specs.Faults.{Rose};
ghost use Rattle.byte_io.specs.Records.{IsReading, rows_left, source_under};
ghost use Rattle.byte_io.specs.Rows.{rows_of};
ghost use Rattle.job_text.specs.Jobs.{IsJob};
ghost use Rattle.job_plan.specs.Columns.{Fields};
ghost use Rattle.job_plan.specs.Plans.{IsPlanOf};
ghost use Rattle.landing.specs.Checks.{Refused};
ghost use Rattle.landing.specs.Explaining.{Explains, Never};
ghost use Rattle.landing.specs.Headers.{IsOfHeader, IsPlanOver, checked_header};
ghost use Rattle.landing.specs.Landed.{IsOfInput};
ghost use Rattle.landing.specs.declared.fault.LandFault.{LandFault};

use crate::fault::LandFault;
use crate::rules::{Rules, rules_of};
use byte_io::{Origin, RecordFault, Records, Source, Tap};
use job_plan::Plan;
use job_text::Job;
use std::alloc::Global;
use std::marker::Brand;

/// Reads the header of a reading, and makes the job's plan over it.
fn plan_over<T: Tap, O: Origin>(
    alloc: Global,
    records: &mut Records<T, O>,
    job: &Job,
) -> Result<Plan, LandFault>
    requires reading { IsReading records.old }
    requires job { IsJob job.now }
    ensures plan { IfOk result (λ plan. (header : Fields) × IsPlanOf job.now header plan) }
    ensures over { IfOk result (λ plan. IfSome (rows_left records.old) (IsPlanOver job.now plan)) }
    ensures err { IfErr result (Explains
        (λ why. IfSome (rows_left records.old) (λ rows. checked_header job.now rows ≡ Refused why))
        (Rose O.faults (T.faults (source_under records.new))) Never) }
    ensures of_header { IfErr result IsOfHeader }
{
    let header = match records.next() {
        Ok(Some(header)) => header,
        Ok(None) => return Err(LandFault::NoHeader),
        Err(RecordFault::ReadFault) => return Err(LandFault::ReadFault),
        Err(RecordFault::NoMemory) => return Err(LandFault::NoMemory),
    };
    // No row is looked at, so none may be there.
    let rules = rules_of(alloc, job, &header, 0)?;
    let Rules {
        plan,
        heads: _,
        count: _,
        max_rows: _,
    } = rules;
    Ok(plan)
}

/// Makes the plan over a lent source's header, and hands the source back.
fn plan_from<T: Tap, O: Origin>(alloc: Global, source: T, job: &Job) -> (Result<Plan, LandFault>, T)
    requires name { T.name source ≡ O.name }
    requires faults { T.faults source ≡ O.faults }
    requires job { IsJob job.now }
    ensures plan { IfOk result.0 (λ plan. (header : Fields) × IsPlanOf job.now header plan) }
    ensures over { IfOk result.0 (λ plan. IfSome (option_map rows_of (T.left source)) (IsPlanOver job.now plan)) }
    ensures same { T.name result.1 ≡ O.name }
    ensures later { O.faults ≤ T.faults result.1 }
    ensures err { IfErr result.0 (Explains
        (λ why. IfSome (option_map rows_of (T.left source)) (λ rows. checked_header job.now rows ≡ Refused why))
        (Rose O.faults (T.faults result.1)) Never) }
    ensures of_header { IfErr result.0 IsOfHeader }
{
    let mut records = Records::<T, O>::new(alloc, source);
    let answer = plan_over(alloc, &mut records, job);
    (answer, records.finish())
}

/// Reads a source's header, checks it, and makes the job's plan over it. No row below it is looked at, though bytes of rows may
/// have been read.
pub fn plan_input<S: Source>(alloc: Global, source: &mut S, job: &Job) -> Result<Plan, LandFault>
    requires job { IsJob job.now }
    ensures plan { IfOk result (λ plan. (header : Fields) × IsPlanOf job.now header plan) }
    ensures over { IfOk result (λ plan. IfSome (option_map rows_of (S.left source.old)) (IsPlanOver job.now plan)) }
    ensures refused { (why : LandFault) → IsOfInput why → IsErrOf result why →
        IfSome (S.left source.old) (λ bytes. checked_header job.now (rows_of bytes) ≡ Refused why) }
    ensures read { IsErrOf result LandFault.ReadFault → Rose (S.faults source.old) (S.faults source.new) }
    ensures of_header { IfErr result IsOfHeader }
    ensures later { S.faults source.old ≤ S.faults source.new }
{
    let (plan, _last) = plan_from::<&mut S, Brand>(alloc, source, job);
    plan
}

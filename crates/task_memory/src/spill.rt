//! One spill, from where it stands until it asks for bytes or ends.

ghost use Rattle.std.specs.Prelude.{◌≡◌, ◌≢◌, ◌+◌, ◌≤◌, ◌<◌, ◌^◌, ◌++◌, ◌∷◌, [], IsSome, IfOk, OnOk, OnErr, length, map, slice_set};
ghost use Rattle.row_page.specs.Pages.{empty_page};
ghost use Rattle.fault_count.specs.Faults.{HasCauseAt};
ghost use Rattle.task_memory.specs.Disks.{LeavesDisk};
ghost use Rattle.task_memory.specs.Ending.{runs_after};
ghost use Rattle.task_memory.specs.Pauses.{AllSame, IsUnwritten, Pauses};
ghost use Rattle.consumer_trait.specs.Calls.{SameConsumer};
ghost use Rattle.consumer_trait.specs.Members.{state_at};
ghost use Rattle.task_memory.specs.RunLists.{lists_of, runs_at};
ghost use Rattle.task_memory.specs.Serving.{SpillsAt};

use crate::fault::Fault;
use crate::writing::write_page;
use consumer_trait::{Consumer, Turn};
use row_page::Page;
use run_file::{Run, RunWriter, written_runs_stand};
use spill_disk::Disk;
use std::alloc::AllocError;

/// Where a spill stands: it asks for bytes, or it ended, with its run if it wrote one. `freed` is what it gave
/// back so far, in bytes.
#[derive(Clone, Copy, Drop)]
pub(crate) enum Pause {
    Asks { bytes: u64, freed: u64 },
    Ended { freed: u64, run: Option<Run> },
}

// Goes on with a spill that has written nothing and gave back `before`, until it asks for bytes or ends.
pub(crate) fn run_spill<C: Consumer, D: Disk>(
    member: &mut C,
    disk: &mut D,
    page: &mut Page,
    before: u64,
) -> Result<Pause, Fault>
    requires kind { IsSome (C.state member.old).kind }
    requires page { page.old ≡ empty_page }
    requires start { IsUnwritten (C.state member.old) before }
    requires small { before + (C.state member.old).used ≤ 2 ^ 50 }
    ensures spill { IfOk result
        (Pauses (C.state member.old) (C.state member.new) (D.files disk.old) (D.files disk.new) before) }
    ensures page { IfOk result (λ _. page.new ≡ empty_page) }
    ensures same { SameConsumer (C.state member.old) (C.state member.new) }
    ensures disk { LeavesDisk (D.files disk.old) (D.files disk.new) (D.faults disk.old) (D.faults disk.new) }
    ensures cause { HasCauseAt Fault.DiskFault (D.faults disk.old) (D.faults disk.new) result }
{
    // For the proof: a run that was written stands.
    written_runs_stand();
    let mut freed = before;
    let mut writer: Option<RunWriter> = None;
    'turns: loop {
        match member.spill_turn(page) {
            Ok(Turn::Ask(bytes)) => return Ok(Pause::Asks { bytes, freed }),
            Ok(Turn::Write) => {
                write_page(disk, &mut writer, page)?;
                page.clear();
            }
            Ok(Turn::Freed(bytes)) => freed += bytes,
            Ok(Turn::Done) => {
                return Ok(Pause::Ended {
                    freed,
                    run: finished(writer),
                });
            }
            Err(_) => return Err(Fault::NoMemory),
        }
    }
}

// The run that was written, if there is one.
fn finished(writer: Option<RunWriter>) -> Option<Run>
    ensures { result ≡ writer }
{
    match writer {
        Some(writer) => Some(writer.finish()),
        None => None,
    }
}

// Puts a run behind those of the consumer at a place.
fn add_run(runs: &mut Vec<Vec<Run>>, place: usize, run: Run) -> Result<(), AllocError>
    requires within { place < length runs.old.items }
    ensures ok { OnOk result (lists_of runs.new.items
        ≡ slice_set (lists_of runs.old.items) place (runs_at (lists_of runs.old.items) place ++ run ∷ [])) }
    ensures err { OnErr result (lists_of runs.new.items ≡ lists_of runs.old.items) }
{
    runs[place].push(run)?;
    Ok(())
}

// The same for the run of a spill that ended, if it has one.
fn keep_run(runs: &mut Vec<Vec<Run>>, place: usize, pause: Pause) -> Result<(), AllocError>
    requires within { place < length runs.old.items }
    ensures { OnOk result (lists_of runs.new.items ≡ runs_after (lists_of runs.old.items) place pause) }
{
    match pause {
        Pause::Ended {
            freed: _,
            run: Some(run),
        } => add_run(runs, place, run),
        _ => Ok(()),
    }
}

// Goes on with the spill of the consumer at a place, whose run is put behind those that it has.
pub(crate) fn spill_at<C: Consumer, D: Disk>(
    consumers: &mut [C],
    disk: &mut D,
    runs: &mut Vec<Vec<Run>>,
    page: &mut Page,
    place: usize,
    before: u64,
) -> Result<Pause, Fault>
    requires within { place < length consumers.old }
    requires lengths { length runs.old.items ≡ length consumers.old }
    requires kind { IsSome (state_at (map C.state consumers.old) place).kind }
    requires some { (state_at (map C.state consumers.old) place).entries ≢ [] }
    requires page { page.old ≡ empty_page }
    requires start { IsUnwritten (state_at (map C.state consumers.old) place) before }
    requires small { before + (state_at (map C.state consumers.old) place).used ≤ 2 ^ 50 }
    ensures spill { IfOk result
        (SpillsAt (D.files disk.old) (D.files disk.new) (map C.state consumers.old) (map C.state consumers.new)
        (lists_of runs.old.items) (lists_of runs.new.items) place before) }
    ensures page { IfOk result (λ _. page.new ≡ empty_page) }
    ensures same { AllSame (map C.state consumers.old) (map C.state consumers.new) }
    ensures disk { LeavesDisk (D.files disk.old) (D.files disk.new) (D.faults disk.old) (D.faults disk.new) }
    ensures cause { HasCauseAt Fault.DiskFault (D.faults disk.old) (D.faults disk.new) result }
{
    let pause = run_spill(&mut consumers[place], disk, page, before)?;
    match keep_run(runs, place, pause) {
        Ok(()) => Ok(pause),
        Err(_) => Err(Fault::NoMemory),
    }
}

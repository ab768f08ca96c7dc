//! The steps of serving a stack of asks.

ghost use Rattle.std.specs.Prelude.{◌≡◌, ◌≤◌, ◌<◌, [], length, map, IfOk, OnOk};
ghost use Rattle.fault_count.specs.Faults.{HasCauseAt};
ghost use Rattle.task_memory.specs.Chosen.{IsChoiceForTop};
ghost use Rattle.task_memory.specs.Stacks.{ArePicks, IsNextForTop, IsTried};
ghost use Rattle.task_memory.specs.Inner.{CanSpill, IsStanding, ServesOn, StepsIf, StepsOn};
ghost use Rattle.task_memory.specs.Scenes.{GoesOn};
ghost use Rattle.task_memory.specs.Words.{scene_of};

use crate::ask::Ask;
use crate::fault::Fault;
use crate::memory::{Memory, TaskMemory};
use crate::next::{choose_next, settle, try_pool};
use crate::scenes::scenes_go_on;
use crate::spill::{Pause, spill_at};
use crate::spills::Spills;
use consumer_trait::{Consumer, grant_at};
use spill_disk::Disk;
use task_pool::Pool;

// The steps of serving a stack of asks.
pub(crate) trait Serving: Memory {
    ghost use Rattle.std.specs.Prelude.{◌≤◌, length, IfOk, OnOk};
    ghost use Rattle.fault_count.specs.Faults.{HasCauseAt};
    ghost use Rattle.task_memory.specs.Asks.{lacking, top_of};
    ghost use Rattle.task_memory.specs.Serving.{AddsRunsWithin};
    ghost use Rattle.task_memory.specs.Stacks.{IsTried};
    ghost use Rattle.task_memory.specs.Inner.{CanSpill, IsStanding, ServesOn, StepsIf, StepsOn};
    ghost use Rattle.task_memory.specs.Scenes.{GoesOn};

    // Begins a spill of the consumer at a place for the innermost ask. It ends, or asks for bytes itself.
    fn spill_next(&mut self, place: usize) -> Result<(), Fault>
        requires stands { IsStanding (Self.scene self.old) }
        requires candidate { CanSpill (Self.scene self.old) place }
        ensures steps { OnOk result (StepsOn (Self.scene self.old) (Self.scene self.new)) }
        ensures few_runs { OnOk result (AddsRunsWithin 1 (Self.scene self.old).stack (Self.scene self.new).stack) }
        ensures goes { GoesOn (Self.scene self.old) (Self.scene self.new) }
        ensures cause { HasCauseAt Fault.DiskFault (Self.scene self.old).faults (Self.scene self.new).faults result };

    // Tells the consumer of the innermost ask what it got, ends its spill, and tries again for the ask below.
    fn resume(&mut self) -> Result<(), Fault>
        requires stands { IsStanding (Self.scene self.old) }
        requires nested { 2 ≤ length (Self.scene self.old).stack.asks }
        ensures steps { OnOk result (StepsOn (Self.scene self.old) (Self.scene self.new)) }
        ensures few_runs { OnOk result (AddsRunsWithin 0 (Self.scene self.old).stack (Self.scene self.new).stack) }
        ensures goes { GoesOn (Self.scene self.old) (Self.scene self.new) }
        ensures cause { HasCauseAt Fault.DiskFault (Self.scene self.old).faults (Self.scene self.new).faults result };

    // One step for the innermost ask: a spill begins or goes on. False where nothing is left to do.
    fn step(&mut self) -> Result<bool, Fault>
        requires stands { IsStanding (Self.scene self.old) }
        ensures steps { IfOk result (StepsIf (Self.scene self.old) (Self.scene self.new)) }
        ensures few_runs { OnOk result (AddsRunsWithin (lacking (top_of (Self.scene self.old).stack.asks))
            (Self.scene self.old).stack (Self.scene self.new).stack) }
        ensures goes { GoesOn (Self.scene self.old) (Self.scene self.new) }
        ensures cause { HasCauseAt Fault.DiskFault (Self.scene self.old).faults (Self.scene self.new).faults result };

    // Serves the asks until one is left, which is met or can't be.
    fn serve(&mut self) -> Result<(), Fault>
        requires stands { IsStanding (Self.scene self.old) }
        requires tried { IsTried (Self.scene self.old).stack }
        ensures serves { OnOk result (ServesOn (Self.scene self.old) (Self.scene self.new)) }
        ensures few_runs { OnOk result (AddsRunsWithin (lacking (top_of (Self.scene self.old).stack.asks))
            (Self.scene self.old).stack (Self.scene self.new).stack) }
        ensures goes { GoesOn (Self.scene self.old) (Self.scene self.new) }
        ensures cause { HasCauseAt Fault.DiskFault (Self.scene self.old).faults (Self.scene self.new).faults result };
}

impl<'a, C: Consumer, P: Pool, D: Disk> Serving for TaskMemory<'a, C, P, D, Spills> {
    fn spill_next(&mut self, place: usize) -> Result<(), Fault> {
        // For the proof: no call is a way to go on, and so are two calls.
        task_pool::pools_go_on();
        match spill_at(
            self.consumers,
            self.disk,
            &mut self.spills.runs,
            &mut self.spills.page,
            place,
            0,
        )? {
            Pause::Asks { bytes, freed } => {
                self.spills.resting[place] = false;
                self.spills.deepest = self.spills.deepest.max(self.spills.asks.len());
                let ask = Ask {
                    place,
                    need: bytes,
                    got: 0,
                    freed,
                };
                if self.spills.asks.push(ask).is_err() {
                    return Err(Fault::NoMemory);
                }
                match try_pool(self.pool, &mut self.spills.asks, bytes) {
                    Ok(()) => Ok(()),
                    Err(_) => Err(Fault::NoMemory),
                }
            }
            Pause::Ended { freed, run: _ } => {
                match settle(self.pool, &mut self.spills.asks, freed) {
                    Ok(()) => Ok(()),
                    Err(_) => Err(Fault::NoMemory),
                }
            }
        }
    }

    fn resume(&mut self) -> Result<(), Fault> {
        // For the proof: no call is a way to go on, and so are two calls.
        task_pool::pools_go_on();
        let top = self.spills.asks[self.spills.asks.len() - 1];
        grant_at(self.consumers, top.place, top.got);
        match spill_at(
            self.consumers,
            self.disk,
            &mut self.spills.runs,
            &mut self.spills.page,
            top.place,
            top.freed,
        )? {
            Pause::Asks { bytes: _, freed: _ } => unreachable!(),
            Pause::Ended { freed, run: _ } => {
                self.spills.resting[top.place] = true;
                self.spills.asks.truncate(self.spills.asks.len() - 1);
                match settle(self.pool, &mut self.spills.asks, freed) {
                    Ok(()) => Ok(()),
                    Err(_) => Err(Fault::NoMemory),
                }
            }
        }
    }

    fn step(&mut self) -> Result<bool, Fault> {
        // For the proof: scenes that go on one behind the other go on.
        scenes_go_on();
        let consumers = &mut *self.consumers;
        match next_for_top(consumers, &self.spills) {
            Ok(Some(place)) => {
                self.spill_next(place)?;
                Ok(true)
            }
            Ok(None) => {
                if self.spills.asks.len() == 1 {
                    return Ok(false);
                }
                self.resume()?;
                Ok(true)
            }
            Err(_) => Err(Fault::NoMemory),
        }
    }

    fn serve(&mut self) -> Result<(), Fault> {
        // For the proof: scenes that go on one behind the other go on.
        scenes_go_on();
        'spills: loop {
            if !self.step()? {
                return Ok(());
            }
        }
    }
}

// The consumer to spill for the innermost ask, if it lacks bytes.
fn next_for_top<C: Consumer>(consumers: &[C], spills: &Spills) -> Result<Option<usize>, Fault>
    requires some { 1 ≤ length spills.now.asks.items }
    requires flags { length spills.now.resting.items ≡ length consumers.now }
    requires picked { ArePicks spills.now.picks.items (map C.state consumers.now) }
    ensures next { IfOk result
        (IsNextForTop (map C.state consumers.now) spills.now.resting.items spills.now.asks.items) }
    ensures chosen { IfOk result
        (IsChoiceForTop (map C.state consumers.now) spills.now.resting.items
        spills.now.picks.items spills.now.asks.items) }
{
    let top = spills.asks[spills.asks.len() - 1];
    if top.got >= top.need {
        return Ok(None);
    }
    choose_next(
        spills.alloc,
        consumers,
        &spills.picks,
        &spills.resting,
        top.place,
        top.need - top.got,
    )
}

//! A consumer that is spilled until it is empty.

use crate::ask::Ask;
use crate::fault::{Fault, TaskFault, refused_by};
use crate::memory::{Memory, TaskMemory};
use crate::scenes::scenes_go_on;
use crate::spills::Spills;
use crate::steps::Serving;
use consumer_trait::{Consumer, is_empty_at};
use run_file::Run;
use spill_disk::Disk;
use task_pool::Pool;

// A consumer that is spilled until it is empty.
pub(crate) trait Draining: Memory {
    ghost use Rattle.std.specs.Prelude.{◌≡◌, ◌≢◌, ◌≤◌, ◌<◌, [], length, map, IfOk, OnOk};
    ghost use Rattle.consumer_trait.specs.Members.{state_at};
    ghost use Rattle.fault_count.specs.Faults.{HasCauseAt};
    ghost use Rattle.task_memory.specs.declared.fault.TaskFault.TheVariants.{DiskFault};
    ghost use Rattle.task_memory.specs.Feeding.{NeverNoRoom};
    ghost use Rattle.task_memory.specs.Inner.{Empties, SpillsOne};
    ghost use Rattle.task_memory.specs.Scenes.{Drains, GoesOn, IsBetween, IsResting};

    // Spills the consumer at a place until it has no entry in memory, and takes its runs.
    fn drain_at(&mut self, place: usize) -> Result<Vec<Run>, TaskFault>
        requires between { IsBetween (Self.scene self.old) }
        requires within { place < length (Self.scene self.old).stack.states }
        ensures drains { IfOk result (λ runs. Drains (Self.scene self.old) (Self.scene self.new) place runs.items) }
        ensures never { NeverNoRoom result }
        ensures goes { GoesOn (Self.scene self.old) (Self.scene self.new) }
        ensures cause { HasCauseAt DiskFault (Self.scene self.old).faults (Self.scene self.new).faults result };

    // Spills the consumer at a place until it has no entry in memory. What its spills ask for comes from the pool and
    // from spills of the others.
    fn empty(&mut self, place: usize) -> Result<(), Fault>
        requires rests { IsResting (Self.scene self.old) }
        requires within { place < length (Self.scene self.old).stack.states }
        ensures empties { OnOk result (Empties (Self.scene self.old) (Self.scene self.new) place) }
        ensures goes { GoesOn (Self.scene self.old) (Self.scene self.new) }
        ensures cause { HasCauseAt Fault.DiskFault (Self.scene self.old).faults (Self.scene self.new).faults result };

    // Spills a consumer that has an entry once.
    fn spill_once(&mut self, place: usize) -> Result<(), Fault>
        requires rests { IsResting (Self.scene self.old) }
        requires within { place < length (Self.scene self.old).stack.states }
        requires some { (state_at (Self.scene self.old).stack.states place).entries ≢ [] }
        ensures spills { OnOk result (SpillsOne (Self.scene self.old) (Self.scene self.new)) }
        ensures goes { GoesOn (Self.scene self.old) (Self.scene self.new) }
        ensures cause { HasCauseAt Fault.DiskFault (Self.scene self.old).faults (Self.scene self.new).faults result };
}

impl<'a, C: Consumer, P: Pool, D: Disk> Draining for TaskMemory<'a, C, P, D, Spills> {
    fn drain_at(&mut self, place: usize) -> Result<Vec<Run>, TaskFault> {
        match self.empty(place) {
            Ok(()) => Ok(self.spills.take_runs(place)),
            Err(fault) => Err(refused_by(fault)),
        }
    }

    fn empty(&mut self, place: usize) -> Result<(), Fault> {
        // For the proof: scenes that go on one behind the other go on.
        scenes_go_on();
        'drains: loop {
            let consumers = &mut *self.consumers;
            if is_empty_at(consumers, place) {
                return Ok(());
            }
            self.spill_once(place)?;
        }
    }

    fn spill_once(&mut self, place: usize) -> Result<(), Fault> {
        // For the proof: scenes that go on one behind the other go on.
        scenes_go_on();
        let ask = Ask {
            place,
            need: 0,
            got: 0,
            freed: 0,
        };
        let Ok(()) = self.spills.open(self.consumers.len(), ask) else {
            return Err(Fault::NoMemory);
        };
        self.spill_next(place)?;
        self.serve()
    }
}

//! Entries fed to a task's consumers, with the bytes that they need.

use crate::fault::TaskFault;
use crate::memory::{Memory, TaskMemory};
use crate::obtaining::Obtaining;
use crate::scenes::scenes_go_on;
use crate::spills::Spills;
use aggregate::totals_stay_equal;
use consumer_trait::{Consumer, Fed, feed_at};
use spill_disk::Disk;
use task_pool::Pool;

// Entries fed to a consumer, with the bytes that they need.
pub(crate) trait Feeding: Memory {
    ghost use Rattle.std.specs.Prelude.{OnErr, OnOk};
    ghost use Rattle.fault_count.specs.Faults.{HasCauseAt};
    ghost use Rattle.task_memory.specs.declared.fault.TaskFault.TheVariants.{DiskFault};
    ghost use Rattle.task_memory.specs.Feeding.{as_entry};
    ghost use Rattle.task_memory.specs.Pauses.{AllSame};
    ghost use Rattle.task_memory.specs.Scenes.{AsksNothing, CanFeed, Feeds, GoesOnBut, RefusesEntry};

    // Feeds the consumer at a place, and gets the bytes that it needs for the entry: it acquires at most twice, and
    // not at all where the consumer has room for the entry.
    fn feed_at(&mut self, place: usize, key: &[u8], value: &[u8]) -> Result<(), TaskFault>
        requires ready { CanFeed (Self.scene self.old) place (as_entry key.now value.now) }
        ensures feeds { OnOk result
            (Feeds (Self.scene self.old) (Self.scene self.new) place (as_entry key.now value.now)) }
        ensures no_room { RefusesEntry (Self.scene self.old) (Self.scene self.new) (as_entry key.now value.now) result }
        ensures goes { GoesOnBut (Self.scene self.old) (Self.scene self.new) place }
        ensures still { AsksNothing (Self.scene self.old) (Self.scene self.new) place (as_entry key.now value.now) }
        ensures unfed { OnErr result (AllSame (Self.scene self.old).stack.states (Self.scene self.new).stack.states) }
        ensures cause { HasCauseAt DiskFault (Self.scene self.old).faults (Self.scene self.new).faults result };
}

impl<'a, C: Consumer, P: Pool, D: Disk> Feeding for TaskMemory<'a, C, P, D, Spills> {
    fn feed_at(&mut self, place: usize, key: &[u8], value: &[u8]) -> Result<(), TaskFault> {
        // For the proof: equal totals stay equal with an entry more.
        totals_stay_equal();
        // For the proof: scenes that go on one behind the other go on.
        scenes_go_on();
        // What it needs first, it may need again: its own entries can be spilled for that, and their room with them. Then
        // it has none, and what is got is enough.
        for _got in 0..2u8 {
            match feed_at(self.consumers, place, key, value) {
                Ok(Fed::Taken) => return Ok(()),
                Ok(Fed::Need { must, wish }) => {
                    self.acquire_at(place, must, wish)?;
                }
                Err(_) => return Err(TaskFault::NoMemory),
            }
        }
        match feed_at(self.consumers, place, key, value) {
            Ok(Fed::Taken) => Ok(()),
            Ok(Fed::Need { must: _, wish: _ }) => unreachable!(),
            Err(_) => Err(TaskFault::NoMemory),
        }
    }
}

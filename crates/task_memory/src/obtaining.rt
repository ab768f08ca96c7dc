//! Bytes for one consumer, by spills where the pool has too little.

use crate::ask::Ask;
use crate::fault::{Fault, TaskFault, refused_by};
use crate::memory::{Memory, TaskMemory};
use crate::next::try_pool;
use crate::obtained::Obtained;
use crate::scenes::scenes_go_on;
use crate::spills::Spills;
use crate::steps::Serving;
use crate::uses::used_in;
use consumer_trait::{Consumer, grant_at};
use spill_disk::Disk;
use task_pool::Pool;

// Bytes for one consumer, by spills where the pool has too little.
pub(crate) trait Obtaining: Memory {
    ghost use Rattle.std.specs.Prelude.{◌≡◌, ◌+◌, ◌≤◌, ◌<◌, ◌^◌, [], length, IfOk, OnErr};
    ghost use Rattle.fault_count.specs.Faults.{HasCauseAt};
    ghost use Rattle.task_memory.specs.declared.fault.TaskFault.TheVariants.{DiskFault};
    ghost use Rattle.task_memory.specs.Inner.{ObtainsFor};
    ghost use Rattle.task_memory.specs.Scenes.{Acquires, CanBeAsked, GoesOn, IsBetween, IsResting, RefusesAsk};

    // Gets at least `must` bytes for the consumer at a place, with a first attempt for `wish`. While the grants fall
    // short, consumers are spilled one by one, each chosen by what they use then; a spill may ask for bytes itself,
    // which are got in the same way. `NoRoom` where no consumer is left to spill; what was got is then given back.
    fn obtain(&mut self, place: usize, must: u64, wish: u64) -> Result<Obtained, Fault>
        requires rests { IsResting (Self.scene self.old) }
        requires within { place < length (Self.scene self.old).stack.states }
        requires bytes { CanBeAsked must wish }
        ensures obtains { IfOk result (ObtainsFor (Self.scene self.old) (Self.scene self.new) must wish) }
        ensures goes { GoesOn (Self.scene self.old) (Self.scene self.new) }
        ensures cause { HasCauseAt Fault.DiskFault (Self.scene self.old).faults (Self.scene self.new).faults result };

    // The same, and tells the consumer of what was got.
    fn acquire_at(&mut self, place: usize, must: u64, wish: u64) -> Result<u64, TaskFault>
        requires between { IsBetween (Self.scene self.old) }
        requires within { place < length (Self.scene self.old).stack.states }
        requires bytes { CanBeAsked must wish }
        ensures acquires { IfOk result (Acquires (Self.scene self.old) (Self.scene self.new) place must wish) }
        ensures no_room { RefusesAsk (Self.scene self.old) (Self.scene self.new) must wish result }
        ensures goes { GoesOn (Self.scene self.old) (Self.scene self.new) }
        ensures cause { HasCauseAt DiskFault (Self.scene self.old).faults (Self.scene self.new).faults result };
}

impl<'a, C: Consumer, P: Pool, D: Disk> Obtaining for TaskMemory<'a, C, P, D, Spills> {
    fn obtain(&mut self, place: usize, must: u64, wish: u64) -> Result<Obtained, Fault> {
        // For the proof: scenes that go on one behind the other go on.
        scenes_go_on();
        // For the proof: no call is a way to go on, and so are two calls.
        task_pool::pools_go_on();
        let ask = Ask {
            place,
            need: must,
            got: 0,
            freed: 0,
        };
        let Ok(()) = self.spills.open(self.consumers.len(), ask) else {
            return Err(Fault::NoMemory);
        };
        let Ok(()) = try_pool(self.pool, &mut self.spills.asks, wish) else {
            return Err(Fault::NoMemory);
        };
        // What the pool gives at once needs no spill.
        if self.spills.asks[0].got < must {
            self.serve()?;
        }
        let got = self.spills.asks[0].got;
        if got >= must {
            return Ok(Obtained::Got(got));
        }
        match self.pool.release(got) {
            Ok(()) => Ok(Obtained::NoRoom),
            Err(_) => Err(Fault::NoMemory),
        }
    }

    fn acquire_at(&mut self, place: usize, must: u64, wish: u64) -> Result<u64, TaskFault> {
        match self.obtain(place, must, wish) {
            Ok(Obtained::Got(got)) => {
                grant_at(self.consumers, place, got);
                Ok(got)
            }
            Ok(Obtained::NoRoom) => Err(TaskFault::NoRoom {
                asked: must,
                held: self.leasts + used_in(self.consumers) + self.roomed,
                floor: self.pool.floor(),
            }),
            Err(fault) => Err(refused_by(fault)),
        }
    }
}

//! A task's memory as one value, and its calls.

use crate::alone::acquire_alone;
use crate::draining::Draining;
use crate::fault::TaskFault;
use crate::feeding::Feeding;
use crate::obtaining::Obtaining;
use crate::spills::Spills;
use crate::uses::used_in;
use consumer_trait::{Consumer, used_at};
use run_file::Run;
use spill_disk::Disk;
use task_pool::Pool;

/// The memory of a task that has begun and not ended: what it draws bytes from, its consumers and the disk that they
/// spill to, all lent to it, their runs, and what the task holds. It has to be ended: it can't be dropped.
///
/// `S` is always `Spills`: beside a field that declares a vector, callers would not learn what is left in the
/// consumers.
pub struct TaskMemory<'a, C: Consumer, P: Pool, D: Disk, S = Spills> {
    pub(crate) pool: &'a mut P,
    pub(crate) consumers: &'a mut [C],
    pub(crate) disk: &'a mut D,
    pub(crate) spills: S,
    pub(crate) leasts: u64,
    pub(crate) roomed: u64,
    pub(crate) live: bool,
}

/// What a task's consumers are fed, ask for and spill. A contract sees the memory as its `Scene`. Bytes of an ask are 1
/// to 2^50. After an `Err` of any call the memory is no longer live, and may only be ended.
pub trait Memory {
    ghost use Rattle.std.specs.Prelude.{◌≡◌, ◌≤◌, ◌<◌, length, IfErr, IfOk, OnOk};
    ghost use Rattle.consumer_trait.specs.Members.{state_at};
    ghost use Rattle.consumer_trait.specs.States.{IsEntryBy};
    ghost use Rattle.task_memory.specs.Feeding.{NeverNoRoom, as_entry};
    ghost use Rattle.task_memory.specs.Scenes.{Acquires, CanBeAsked, Drains, DrawsAlone, Fails, FeedsCharged, FeedsOn, FreesLeasts, GivesBack, GoesOn, IsEmptied, IsLive, RefusesAsk, RefusesEntry, RefusesRoom, Rooms, Scene, place_in};
    ghost use Rattle.task_memory.specs.Stacks.{IsDry};

    /// What callers know of it.
    ghost scene: { Self → Scene };

    /// Gets at least `must` bytes for a consumer, with a first attempt for `wish`, and tells it of them; answers how
    /// many. While the grants fall short, consumers are spilled one by one; a spill may ask for bytes itself. `NoRoom`
    /// where no consumer is left to spill: what was got is then given back.
    /// Source: Spark, `TaskMemoryManager.acquireExecutionMemory`; nested asks are this project's own.
    fn acquire(&mut self, consumer: usize, must: u64, wish: u64) -> Result<u64, TaskFault>
        requires live { IsLive (scene self.old) }
        requires within { consumer < length (scene self.old).stack.picks }
        requires bytes { CanBeAsked must wish }
        ensures acquires { IfOk result
            (Acquires (scene self.old) (scene self.new) (place_in (scene self.old) consumer) must wish) }
        ensures no_room { RefusesAsk (scene self.old) (scene self.new) must wish result }
        ensures goes { GoesOn (scene self.old) (scene self.new) }
        ensures fails { Fails (scene self.old) (scene self.new) result };

    /// Feeds a consumer an entry, and gets the bytes that it needs for it: it acquires at most twice, and not at all
    /// where the consumer has room. With an `Err` no consumer was fed.
    /// Source: Spark, `MemoryConsumer.acquireMemory`, which a consumer calls before it takes a record.
    fn feed(&mut self, consumer: usize, key: &[u8], value: &[u8]) -> Result<(), TaskFault>
        requires live { IsLive (scene self.old) }
        requires within { consumer < length (scene self.old).stack.picks }
        requires entry { IsEntryBy (state_at (scene self.old).stack.states (place_in (scene self.old) consumer)).kind
            (as_entry key.now value.now) }
        ensures feeds { OnOk result
            (FeedsCharged (scene self.old) (scene self.new) (place_in (scene self.old) consumer)
            (as_entry key.now value.now)) }
        ensures no_room { RefusesEntry (scene self.old) (scene self.new) (as_entry key.now value.now) result }
        ensures goes { FeedsOn (scene self.old) (scene self.new) (place_in (scene self.old) consumer)
            (as_entry key.now value.now) }
        ensures fails { Fails (scene self.old) (scene self.new) result };

    /// Spills a consumer until it has no entry in memory, and hands out all its runs, in the order in which they were
    /// written. The disk of each is 0, and the greatest cost of a row is at most 196,752 bytes. Other consumers may be
    /// spilled for what its spills ask.
    /// Source: Spark, `MemoryConsumer.spill`.
    fn drain(&mut self, consumer: usize) -> Result<Vec<Run>, TaskFault>
        requires live { IsLive (scene self.old) }
        requires within { consumer < length (scene self.old).stack.picks }
        ensures drains { IfOk result (λ runs.
            Drains (scene self.old) (scene self.new) (place_in (scene self.old) consumer) runs.items) }
        ensures never { NeverNoRoom result }
        ensures goes { GoesOn (scene self.old) (scene self.new) }
        ensures fails { Fails (scene self.old) (scene self.new) result };

    /// What a consumer uses: the bytes that it was granted and has not given back.
    /// Source: Spark, `MemoryConsumer.getUsed`.
    fn used(&mut self, consumer: usize) -> u64
        requires live { IsLive (scene self.old) }
        requires within { consumer < length (scene self.old).stack.picks }
        ensures value { result ≡ (state_at (scene self.old).stack.states (place_in (scene self.old) consumer)).used }
        ensures same { scene self.new ≡ scene self.old };

    /// Gives the leasts back, once all consumers are drained. Its one refusal is want of memory.
    fn free_leasts(&mut self) -> Result<(), TaskFault>
        requires live { IsLive (scene self.old) }
        requires drained { IsDry (scene self.old).stack.states }
        ensures frees { OnOk result (FreesLeasts (scene self.old) (scene self.new)) }
        ensures wants { IfErr result (λ fault. fault ≡ TaskFault.NoMemory) }
        ensures draws { DrawsAlone (scene self.old) (scene self.new) }
        ensures fails { Fails (scene self.old) (scene self.new) result };

    /// Gets at least `must` bytes for a merge, by one attempt for `wish`, once all consumers are drained and the leasts
    /// are freed; answers how many. `NoRoom` where less is granted, which is then given back.
    fn room(&mut self, must: u64, wish: u64) -> Result<u64, TaskFault>
        requires live { IsLive (scene self.old) }
        requires emptied { IsEmptied (scene self.old) }
        requires bytes { CanBeAsked must wish }
        ensures rooms { IfOk result (Rooms (scene self.old) (scene self.new) must wish) }
        ensures no_room { RefusesRoom (scene self.old) (scene self.new) must wish result }
        ensures draws { DrawsAlone (scene self.old) (scene self.new) }
        ensures fails { Fails (scene self.old) (scene self.new) result };

    /// Gives back bytes that `room` got. Its one refusal is want of memory.
    /// Source: Spark, `TaskMemoryManager.releaseExecutionMemory`.
    fn give_back(&mut self, bytes: u64) -> Result<(), TaskFault>
        requires live { IsLive (scene self.old) }
        requires freed { (scene self.old).leasts ≡ 0 }
        requires got { bytes ≤ (scene self.old).roomed }
        ensures gives { OnOk result (GivesBack (scene self.old) (scene self.new) bytes) }
        ensures wants { IfErr result (λ fault. fault ≡ TaskFault.NoMemory) }
        ensures draws { DrawsAlone (scene self.old) (scene self.new) }
        ensures fails { Fails (scene self.old) (scene self.new) result };
}

impl<'a, C: Consumer, P: Pool, D: Disk> Memory for TaskMemory<'a, C, P, D, Spills> {
    ghost use Rattle.task_memory.specs.Words.{scene_of};

    ghost scene = { λ memory. scene_of C.state P.state D.files D.faults memory };

    fn acquire(&mut self, consumer: usize, must: u64, wish: u64) -> Result<u64, TaskFault> {
        let place = self.spills.picks()[consumer];
        let result = self.acquire_at(place, must, wish);
        self.live = result.is_ok();
        result
    }

    fn feed(&mut self, consumer: usize, key: &[u8], value: &[u8]) -> Result<(), TaskFault> {
        let place = self.spills.picks()[consumer];
        let result = self.feed_at(place, key, value);
        self.live = result.is_ok();
        result
    }

    fn drain(&mut self, consumer: usize) -> Result<Vec<Run>, TaskFault> {
        let place = self.spills.picks()[consumer];
        let result = self.drain_at(place);
        self.live = result.is_ok();
        result
    }

    fn used(&mut self, consumer: usize) -> u64 {
        let place = self.spills.picks()[consumer];
        let consumers = &mut *self.consumers;
        used_at(consumers, place)
    }

    fn free_leasts(&mut self) -> Result<(), TaskFault> {
        match self.pool.release(self.leasts) {
            Ok(()) => {
                self.leasts = 0;
                Ok(())
            }
            Err(_) => {
                self.live = false;
                Err(TaskFault::NoMemory)
            }
        }
    }

    fn room(&mut self, must: u64, wish: u64) -> Result<u64, TaskFault> {
        let held = self.leasts + used_in(self.consumers) + self.roomed;
        match acquire_alone(self.pool, must, wish, held) {
            Ok(got) => {
                self.roomed += got;
                Ok(got)
            }
            Err(fault) => {
                self.live = false;
                Err(fault)
            }
        }
    }

    fn give_back(&mut self, bytes: u64) -> Result<(), TaskFault> {
        match self.pool.release(bytes) {
            Ok(()) => {
                self.roomed -= bytes;
                Ok(())
            }
            Err(_) => {
                self.live = false;
                Err(TaskFault::NoMemory)
            }
        }
    }
}

impl<'a, C: Consumer, P: Pool, D: Disk> TaskMemory<'a, C, P, D, Spills> {
    ghost use Rattle.std.specs.Prelude.{◌≡◌, [], ℕ, None, Some, map, slice_get, true};
    ghost use Rattle.task_memory.specs.RunLists.{lists_of, runs_at};
    ghost use Rattle.task_memory.specs.Stacks.{stack_of};
    ghost use Rattle.std.specs.Borrow.{Lends, sem};
    ghost use mir.Syntax.{named};
    ghost use Rattle.task_memory.specs.contracts.memory.TaskMemory.{the_row};
    ghost use Rattle.task_memory.specs.contracts.spills.Spills.{the_row as spills_row};
    ghost use Rattle.task_memory.specs.Words.{scene_of};

    /// Whether no call has given up.
    pub fn live(&self) -> bool
        ensures { result ≡ self.now.live }
    {
        self.live
    }

    /// The memory of a task that was started, with what is lent to it until its end.
    pub fn of(
        pool: &'a mut P,
        consumers: &'a mut [C],
        disk: &'a mut D,
        spills: Spills,
        leasts: u64,
    ) -> TaskMemory<'a, C, P, D, Spills>
        ensures { scene_of C.state P.state D.files D.faults result ≡ record {
          stack = stack_of (map C.state consumers.old) (D.files disk.old) (P.state pool.old).account spills;
          page = spills.page;
          faults = D.faults disk.old;
          pool = P.state pool.old;
          leasts = leasts;
          roomed = 0;
          live = true;
          lent = record {
            pool = pool.entry.ghost_name;
            consumers = consumers.entry.ghost_name;
            disk = disk.entry.ghost_name;
          };
        } }
    {
        TaskMemory {
            pool,
            consumers,
            disk,
            spills,
            leasts,
            roomed: 0,
            live: true,
        }
    }

    /// The disk that the consumers spill to. Their runs stand as long as their files are left as they are.
    pub fn disk(&mut self) -> &mut D
        ensures* lent { sem 𝓛 (Lends
            (the_row (record { mir = named 1; lft = [] }) C.row P.row D.row spills_row) D.row self.entry result
            (λ d. record self.old { disk = record self.old.disk { now = d } })) }
        ensures value { result.now ≡ self.old.disk.now }
    {
        self.disk
    }

    /// Takes the runs that a consumer has; none where there is no such consumer.
    pub fn take_left(&mut self, consumer: usize) -> Vec<Run>
        ensures taken { (place : ℕ) → slice_get self.old.spills.picks.items consumer ≡ Some place
            → result.items ≡ runs_at (lists_of self.old.spills.runs.items) place }
        ensures none { slice_get self.old.spills.picks.items consumer ≡ None → result.items ≡ [] }
        ensures pool { self.new.pool ≡ self.old.pool }
        ensures consumers { self.new.consumers ≡ self.old.consumers }
        ensures disk { self.new.disk ≡ self.old.disk }
        ensures live { self.new.live ≡ self.old.live }
        ensures leasts { self.new.leasts ≡ self.old.leasts }
        ensures roomed { self.new.roomed ≡ self.old.roomed }
    {
        let place = match self.spills.picks().get(consumer) {
            Some(place) => *place,
            None => return Vec::new(self.spills.alloc),
        };
        self.spills.take_runs(place)
    }

    /// Gives back what was lent. The task goes on until it is ended.
    pub fn end(self)
        ensures pool { self.exit.0.now ≡ self.entry.pool.now }
        ensures consumers { self.exit.1.0.now ≡ self.entry.consumers.now }
        ensures disk { self.exit.1.1.0.now ≡ self.entry.disk.now }
    {
        let TaskMemory {
            pool: _,
            consumers: _,
            disk: _,
            spills: _,
            leasts: _,
            roomed: _,
            live: _,
        } = self;
    }
}

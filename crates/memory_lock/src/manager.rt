//! One memory state for several threads.

use crate::basis::Basis;
use crate::locked::Locked;
use crate::task::Task;
use crate::wake_up_count::WakeUpCount;
use crate::worker::Worker;
use block_store::Block;
use memory_core::{Admission, Attempted, Pinned};
use pool_ledger::Setup;
use spill_disk::Disk;
use std::alloc::{AllocError, Global};
use std::marker::Model;
use std::sync::{Arc, Wait};
use turn_lock::TurnLock;

/// The memory pool of several threads, each of which calls it with a worker of its own. A contract sees
/// which lock it is.
pub struct Manager<K: Disk, B: Basis> {
    pub(crate) lock: TurnLock<Locked<K>, B>,
    setup: Setup,
    count: WakeUpCount,
}

impl<K: Disk, B: Basis> Model for Manager<K, B> {
    ghost use Rattle.std.specs.Prelude.{◌≡◌};
    ghost use Rattle.turn_lock.specs.Passes.{LockId, lock_id_coded};

    ghost Value = { LockId };

    ghost coded = { lock_id_coded };

    ghost view = { λ manager. manager.lock };

    ghost invariant = { λ manager. manager.setup ≡ B.sizes };
}

impl<K: Disk, B: Basis> Manager<K, B> {
    ghost use Rattle.std.specs.Prelude.{◌≡◌, ◌<◌, ◌≤◌, ◌+◌, ◌^◌, ◌∷◌, [], Some, unwrap_or, false, min, IfOk, IfErr, OnOk, OnErr};
    ghost use Rattle.std.specs.Arc.{arc_value};
    ghost use Rattle.row_page.specs.Spelling.{page_cost};
    ghost use Rattle.pool_ledger.specs.Sizes.{floor_of};
    ghost use Rattle.pool_ledger.specs.History.{grown_by, held, total, was_begun};
    ghost use Rattle.pool_ledger.specs.Journal.{history_of};
    ghost use Rattle.pool_ledger.specs.Legal.{IsLegal};
    ghost use Rattle.pool_ledger.specs.declared.entry.Event.TheVariants.{Begin, Release, End, Unpin, Grow};
    ghost use Rattle.pool_laws.specs.Growing.{entry_by};
    ghost use Rattle.memory_core.specs.Attempts.{granted_in, KeepsFloor};
    ghost use Rattle.memory_core.specs.Caches.{AreGiven};
    ghost use Rattle.memory_core.specs.Changes.{IsNamed};
    ghost use Rattle.memory_lock.specs.Endings.{EndsWith, EndsWithAdded, EndsWithAdmission, EndsWithAttempt, EndsWithPin};
    ghost use Rattle.memory_lock.specs.Workers.{Adds, AddsAdmission, AddsAttempt, AddsGrant, AddsPin, AddsRemovals, AddsWaits, HandsRows, HasNoPin, HasPin, IsAtMost, IsFree, IsOpen, KeepsPin, KeepsTask, SeesMore, own_entries, own_of};

    /// The sizes that the pool started with. It takes no turn.
    pub fn setup(&self) -> &Setup
        ensures { result.now ≡ B.sizes }
    {
        &self.setup
    }

    // A manager round this lock.
    pub(crate) fn around(lock: TurnLock<Locked<K>, B>, setup: Setup) -> Manager<K, B>
        requires basis { setup ≡ B.sizes }
        ensures { result ≡ lock }
    {
        Manager {
            lock,
            setup,
            count: WakeUpCount::new(),
        }
    }

    pub(crate) fn into_lock(self) -> TurnLock<Locked<K>, B>
        ensures { result ≡ self }
    {
        let Manager {
            lock,
            setup: _,
            count: _,
        } = self;
        lock
    }

    /// Begins a task of a worker that has none. The worker is the task's owner and has never begun it, so
    /// nobody has. After an `Err` none of the worker's entries was added.
    pub fn begin<R: Wait>(
        &self,
        rt: &R,
        worker: &mut Worker<B>,
        task: u32,
    ) -> Result<Task, AllocError>
        requires manager { worker.old.lock ≡ self.now }
        requires owner { B.owner task ≡ Some worker.old.number }
        requires free { IsFree worker.old }
        requires fresh { was_begun (own_of worker.old) task ≡ false }
        ensures begun { IfOk result (λ begun. begun ≡ task) }
        ensures ok { IfOk result (λ _. Adds worker.old worker.new (entry_by worker.old.number (Begin task) ∷ [])) }
        ensures its_task { IfOk result (λ _. IsOpen worker.new task) }
        ensures nothing { IfOk result (λ _. held (own_of worker.new) task ≡ 0) }
        ensures err { OnErr result (own_entries worker.new ≡ own_entries worker.old) }
        ensures pin { KeepsPin worker.old worker.new }
        ensures sees { SeesMore worker.old worker.new }
        ensures legal { IsLegal B.sizes (history_of worker.new.seen) }
        ensures last { IfOk result (λ _. EndsWith worker.new.seen (entry_by worker.old.number (Begin task) ∷ [])) }
    {
        let number = worker.pass.number();
        let mut locked = self.lock.take(rt, &mut worker.pass);
        let begun = locked.begin::<B>(number, task);
        self.lock.give(&mut worker.pass, locked);
        begun?;
        Ok(Task::new(task))
    }

    /// Asks for bytes, 1 to 2^50, until the answer isn't to wait, and sleeps between two attempts. Each
    /// attempt has its entry, behind its evictions. After an `Err` the entries that it added are attempts that were
    /// told to wait, and evictions. A grant may be short, and then leaves the task at least the floor.
    pub fn acquire<R: Wait>(
        &self,
        rt: &R,
        worker: &mut Worker<B>,
        task: &Task,
        asked: u64,
    ) -> Result<u64, AllocError>
        requires manager { worker.old.lock ≡ self.now }
        requires its_task { IsOpen worker.old task.now }
        requires some_asked { 1 ≤ asked }
        requires few_asked { asked ≤ 2 ^ 50 }
        ensures ok { IfOk result (λ got. AddsGrant worker.old.number task.now asked got (own_entries worker.old) (own_entries worker.new)) }
        ensures few { IfOk result (λ got. got ≤ asked) }
        ensures grows { IfOk result (λ got. held (own_of worker.new) task.now ≡ held (own_of worker.old) task.now + got) }
        ensures holds { IfOk result (λ _. held (own_of worker.new) task.now ≤ 2 ^ 41) }
        ensures floor { IfOk result (λ got. got < asked → floor_of B.sizes ≤ held (own_of worker.new) task.now) }
        ensures err { OnErr result (AddsWaits worker.old.number task.now asked (own_entries worker.old) (own_entries worker.new)) }
        ensures its_task { IsOpen worker.new task.now }
        ensures pin { KeepsPin worker.old worker.new }
        ensures sees { SeesMore worker.old worker.new }
        ensures legal { IsLegal B.sizes (history_of worker.new.seen) }
        ensures last { IfOk result (λ got. EndsWithAttempt worker.old.number task.now asked (Some got) worker.new.seen) }
    {
        for _ in rt.forever() {
            let mut seen = self.count.now();
            match self.attempt(rt, worker, task, asked, &mut seen)? {
                Attempted::Granted(bytes) => return Ok(bytes),
                Attempted::Wait => self.count.wait_past(rt, seen),
            }
        }
        unreachable!()
    }

    /// Gives back bytes of the worker's task, at most what it holds, and answers how many. After an `Err`
    /// none of the worker's entries was added.
    pub fn release<R: Wait>(
        &self,
        rt: &R,
        worker: &mut Worker<B>,
        task: &Task,
        bytes: u64,
    ) -> Result<u64, AllocError>
        requires manager { worker.old.lock ≡ self.now }
        requires its_task { IsOpen worker.old task.now }
        ensures freed { IfOk result (λ freed. freed ≡ min bytes (held (own_of worker.old) task.now)) }
        ensures ok { IfOk result (λ freed. Adds worker.old worker.new (entry_by worker.old.number (Release task.now freed) ∷ [])) }
        ensures err { OnErr result (own_entries worker.new ≡ own_entries worker.old) }
        ensures its_task { IsOpen worker.new task.now }
        ensures pin { KeepsPin worker.old worker.new }
        ensures sees { SeesMore worker.old worker.new }
        ensures legal { IsLegal B.sizes (history_of worker.new.seen) }
        ensures last { IfOk result (λ freed. EndsWith worker.new.seen (entry_by worker.old.number (Release task.now freed) ∷ [])) }
    {
        let number = worker.pass.number();
        let mut locked = self.lock.take(rt, &mut worker.pass);
        let freed = locked.release::<B>(number, task.number(), bytes);
        self.lock.give(&mut worker.pass, locked);
        self.count.raise(rt);
        freed
    }

    /// Makes both pools together larger, by 1 to 2^36 bytes, which execution gets, up to 2^41 in all, and raises
    /// the count that waiting tasks watch. The worker is number 0: no other makes the pools larger, so its own
    /// entries tell how large they are. After an `Err` nothing was added. It may wait for its turn.
    pub fn grow<R: Wait>(
        &self,
        rt: &R,
        worker: &mut Worker<B>,
        bytes: u64,
    ) -> Result<(), AllocError>
        requires manager { worker.old.lock ≡ self.now }
        requires first { worker.old.number ≡ 0 }
        requires some { 1 ≤ bytes }
        requires few { bytes ≤ 2 ^ 36 }
        requires fits { B.sizes.maximum + total grown_by (own_of worker.old) + bytes ≤ 2 ^ 41 }
        ensures ok { OnOk result (Adds worker.old worker.new (entry_by worker.old.number (Grow bytes) ∷ [])) }
        ensures grows { OnOk result (total grown_by (own_of worker.new) ≡ total grown_by (own_of worker.old) + bytes) }
        ensures err { OnErr result (own_entries worker.new ≡ own_entries worker.old) }
        ensures task { KeepsTask worker.old worker.new }
        ensures pin { KeepsPin worker.old worker.new }
        ensures sees { SeesMore worker.old worker.new }
        ensures legal { IsLegal B.sizes (history_of worker.new.seen) }
        ensures last { OnOk result (EndsWith worker.new.seen (entry_by worker.old.number (Grow bytes) ∷ [])) }
    {
        let number = worker.pass.number();
        let mut locked = self.lock.take(rt, &mut worker.pass);
        let grown = locked.grow::<B>(number, bytes);
        self.lock.give(&mut worker.pass, locked);
        self.count.raise(rt);
        grown
    }

    /// Ends the worker's task, which frees all that it holds, and answers how much that was. It takes no
    /// memory and has no refusal.
    pub fn end<R: Wait>(&self, rt: &R, worker: &mut Worker<B>, task: Task) -> u64
        requires manager { worker.old.lock ≡ self.now }
        requires its_task { IsOpen worker.old task }
        ensures freed { result ≡ held (own_of worker.old) task }
        ensures adds { Adds worker.old worker.new (entry_by worker.old.number (End task result) ∷ []) }
        ensures free { IsFree worker.new }
        ensures pin { KeepsPin worker.old worker.new }
        ensures sees { SeesMore worker.old worker.new }
        ensures legal { IsLegal B.sizes (history_of worker.new.seen) }
        ensures last { EndsWith worker.new.seen (entry_by worker.old.number (End task result) ∷ []) }
    {
        let number = worker.pass.number();
        let mut locked = self.lock.take(rt, &mut worker.pass);
        let freed = locked.end::<B>(number, task.into_number());
        self.lock.give(&mut worker.pass, locked);
        self.count.raise(rt);
        freed
    }

    /// Pins a block for a worker that has no pin, if it is in memory: no call evicts or removes it until the
    /// worker's unpin. Else reads its copy, which is then no pin, if it has one. After an `Err` none of the
    /// worker's entries was added.
    pub fn pin<R: Wait>(
        &self,
        rt: &R,
        worker: &mut Worker<B>,
        dataset: u32,
        part: u32,
    ) -> Result<Pinned, AllocError>
        requires manager { worker.old.lock ≡ self.now }
        requires free { HasNoPin worker.old }
        ensures ok { IfOk result (λ pinned. AddsPin pinned dataset part worker.old worker.new) }
        ensures rows { IfOk result (λ pinned. HandsRows B.rows pinned dataset part) }
        ensures named { IfOk result (λ pinned. IsNamed pinned dataset part) }
        ensures err { OnErr result (own_entries worker.new ≡ own_entries worker.old) }
        ensures task { KeepsTask worker.old worker.new }
        ensures sees { SeesMore worker.old worker.new }
        ensures legal { IsLegal B.sizes (history_of worker.new.seen) }
        ensures last { IfOk result (λ pinned. EndsWithPin pinned worker.old.number dataset part worker.new.seen) }
    {
        let number = worker.pass.number();
        let mut locked = self.lock.take(rt, &mut worker.pass);
        let pinned = locked.pin::<B>(number, dataset, part);
        self.lock.give(&mut worker.pass, locked);
        pinned
    }

    /// Gives the worker's pin back. It takes no memory and has no refusal.
    pub fn unpin<R: Wait>(&self, rt: &R, worker: &mut Worker<B>, dataset: u32, part: u32)
        requires manager { worker.old.lock ≡ self.now }
        requires its_pin { HasPin worker.old dataset part }
        ensures adds { Adds worker.old worker.new (entry_by worker.old.number (Unpin dataset part) ∷ []) }
        ensures free { HasNoPin worker.new }
        ensures task { KeepsTask worker.old worker.new }
        ensures sees { SeesMore worker.old worker.new }
        ensures legal { IsLegal B.sizes (history_of worker.new.seen) }
        ensures last { EndsWith worker.new.seen (entry_by worker.old.number (Unpin dataset part) ∷ []) }
    {
        let number = worker.pass.number();
        let mut locked = self.lock.take(rt, &mut worker.pass);
        locked.unpin::<B>(number, dataset, part);
        self.lock.give(&mut worker.pass, locked);
    }

    /// Keeps a block in memory that isn't there, if there is room: what storage has free, what it can borrow,
    /// and what blocks of other datasets give that no pin keeps. After an `Err` none of the worker's entries was
    /// added.
    pub fn admit<R: Wait>(
        &self,
        rt: &R,
        worker: &mut Worker<B>,
        block: Arc<Block, Global>,
    ) -> Result<Admission, AllocError>
        requires manager { worker.old.lock ≡ self.now }
        requires rows { AreGiven B.rows (arc_value block).dataset (arc_value block).part (arc_value block).page.rows }
        ensures ok { IfOk result (λ answer. AddsAdmission answer (arc_value block) (page_cost (arc_value block).page.rows) worker.old worker.new) }
        ensures err { OnErr result (own_entries worker.new ≡ own_entries worker.old) }
        ensures task { KeepsTask worker.old worker.new }
        ensures pin { KeepsPin worker.old worker.new }
        ensures sees { SeesMore worker.old worker.new }
        ensures legal { IsLegal B.sizes (history_of worker.new.seen) }
        ensures last { IfOk result (λ answer. EndsWithAdmission answer (arc_value block) (page_cost (arc_value block).page.rows) worker.old.number worker.new.seen) }
    {
        let number = worker.pass.number();
        let mut locked = self.lock.take(rt, &mut worker.pass);
        let answer = locked.admit::<B>(number, block);
        self.lock.give(&mut worker.pass, locked);
        answer
    }

    /// Removes the blocks of a dataset that no pin keeps, ascending by part, and forgets all its copies. After
    /// an `Err` none of the worker's entries was added.
    pub fn remove<R: Wait>(
        &self,
        rt: &R,
        worker: &mut Worker<B>,
        dataset: u32,
    ) -> Result<(), AllocError>
        requires manager { worker.old.lock ≡ self.now }
        ensures ok { OnOk result (AddsRemovals dataset worker.old worker.new) }
        ensures err { OnErr result (own_entries worker.new ≡ own_entries worker.old) }
        ensures task { KeepsTask worker.old worker.new }
        ensures pin { KeepsPin worker.old worker.new }
        ensures sees { SeesMore worker.old worker.new }
        ensures legal { IsLegal B.sizes (history_of worker.new.seen) }
        ensures last { EndsWithAdded worker.old worker.new }
    {
        let number = worker.pass.number();
        let mut locked = self.lock.take(rt, &mut worker.pass);
        let removed = locked.remove::<B>(number, dataset);
        self.lock.give(&mut worker.pass, locked);
        removed
    }

    // One attempt. Where it raises the wake-up count, what was seen of it rises with it: a task doesn't wake for
    // its own first attempt.
    fn attempt<R: Wait>(
        &self,
        rt: &R,
        worker: &mut Worker<B>,
        task: &Task,
        asked: u64,
        seen: &mut u64,
    ) -> Result<Attempted, AllocError>
        requires manager { worker.old.lock ≡ self.now }
        requires its_task { IsOpen worker.old task.now }
        requires some_asked { 1 ≤ asked }
        requires few_asked { asked ≤ 2 ^ 50 }
        ensures ok { IfOk result (λ got. AddsAttempt worker.old.number task.now asked (granted_in got) (own_entries worker.old) (own_entries worker.new)) }
        ensures few { IfOk result (λ got. IsAtMost asked (granted_in got)) }
        ensures grows { IfOk result (λ got. held (own_of worker.new) task.now
            ≡ held (own_of worker.old) task.now + unwrap_or (granted_in got) 0) }
        ensures holds { held (own_of worker.new) task.now ≤ 2 ^ 41 }
        ensures floor { IfOk result (KeepsFloor B.sizes (held (own_of worker.old) task.now) asked) }
        ensures err { OnErr result (own_entries worker.new ≡ own_entries worker.old) }
        ensures its_task { IsOpen worker.new task.now }
        ensures pin { KeepsPin worker.old worker.new }
        ensures sees { SeesMore worker.old worker.new }
        ensures legal { IsLegal B.sizes (history_of worker.new.seen) }
        ensures last { IfOk result (λ got. EndsWithAttempt worker.old.number task.now asked (granted_in got) worker.new.seen) }
    {
        // Its range is known with it.
        let _max = self.setup.max();
        let number = worker.pass.number();
        let mut locked = self.lock.take(rt, &mut worker.pass);
        let first = locked.asks_first(number);
        let answer = locked.attempt::<B>(number, task.number(), asked);
        self.lock.give(&mut worker.pass, locked);
        if first {
            self.count.raise(rt);
            *seen = seen.wrapping_add(1);
        }
        answer
    }
}

impl<K: Disk, B: Basis> Drop for Manager<K, B> {
    fn drop(self) {
        let Self {
            lock: _,
            setup: _,
            count: _,
        } = self;
    }
}

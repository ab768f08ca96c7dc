//! A task that its worker has begun with a manager.

use memory_lock::{Basis, Manager, Task, Worker};
use spill_disk::Disk;
use std::alloc::AllocError;
use std::sync::Wait;
use task_pool::Pool;

/// A manager with a task that a worker of it has begun: what the task's memory draws from. It holds the handle by
/// which it waits, and the worker is lent to it. It has to be ended, and the task ends with it.
pub struct Account<'a, R: Wait, K: Disk, B: Basis> {
    pub(crate) rt: &'a R,
    pub(crate) manager: &'a Manager<K, B>,
    pub(crate) worker: &'a mut Worker<B>,
    pub(crate) task: Task,
}

impl<'a, R: Wait, K: Disk, B: Basis> Pool for Account<'a, R, K, B> {
    ghost use Rattle.std.specs.Prelude.{◌≡◌, ◌≤◌, ◌^◌, ◌∷◌, [], min, IfOk, OnOk, OnErr};
    ghost use Rattle.pool_ledger.specs.History.{held};
    ghost use Rattle.pool_ledger.specs.declared.entry.Event.TheVariants.{Release};
    ghost use Rattle.pool_laws.specs.Growing.{entry_by};
    ghost use Rattle.memory_lock.specs.Workers.{Adds, AddsGrant, AddsWaits};
    ghost use Rattle.task_pool.specs.Accounts.{Grants, less_by};
    ghost use Rattle.task_pool.specs.Asks.{FirstAsks};
    ghost use Rattle.task_pool.specs.Pools.{Goes, IsAtWork};
    ghost use Rattle.task_pool.specs.Workers.{own_entries, own_of};
    ghost use Rattle.task_account.specs.Words.{state_of};

    ghost state = { λ account. state_of B.sizes account };

    fn floor(&self) -> u64 {
        self.manager.setup().floor()
    }

    /// Asks the manager once, which adds attempts that were told to wait and then the one that was granted.
    fn acquire(&mut self, asked: u64) -> Result<u64, AllocError>
        requires at_work { IsAtWork (state_of B.sizes self.old) }
        requires some { 1 ≤ asked }
        requires most { asked ≤ 2 ^ 50 }
        ensures grants { IfOk result
            (Grants (state_of B.sizes self.old).account (state_of B.sizes self.new).account asked) }
        ensures first { OnOk result
            (FirstAsks asked (state_of B.sizes self.old).worker (state_of B.sizes self.new).worker) }
        ensures goes { Goes (state_of B.sizes self.old) (state_of B.sizes self.new) }
        ensures adds { IfOk result (λ got. AddsGrant self.old.worker.now.number self.old.task asked got
            (own_entries self.old.worker.now) (own_entries self.new.worker.now)) }
        ensures err { OnErr result (AddsWaits self.old.worker.now.number self.old.task asked
            (own_entries self.old.worker.now) (own_entries self.new.worker.now)) }
    {
        self.manager
            .acquire(self.rt, self.worker, &self.task, asked)
    }

    /// Gives bytes back in one release.
    fn release(&mut self, bytes: u64) -> Result<(), AllocError>
        requires at_work { IsAtWork (state_of B.sizes self.old) }
        ensures freed { OnOk result
            ((state_of B.sizes self.new).account ≡ less_by (state_of B.sizes self.old).account bytes) }
        ensures goes { Goes (state_of B.sizes self.old) (state_of B.sizes self.new) }
        ensures adds { OnOk result (Adds self.old.worker.now self.new.worker.now
            (entry_by self.old.worker.now.number (Release self.old.task
            (min bytes (held (own_of self.old.worker.now) self.old.task))) ∷ [])) }
        ensures err { OnErr result (own_entries self.new.worker.now ≡ own_entries self.old.worker.now) }
    {
        self.manager
            .release(self.rt, self.worker, &self.task, bytes)?;
        Ok(())
    }
}

impl<'a, R: Wait, K: Disk, B: Basis> Account<'a, R, K, B> {
    ghost use Rattle.std.specs.Prelude.{◌≡◌, ◌∷◌, []};
    ghost use Rattle.pool_ledger.specs.declared.entry.Event.TheVariants.{End};
    ghost use Rattle.pool_ledger.specs.History.{held};
    ghost use Rattle.pool_laws.specs.Growing.{entry_by};
    ghost use Rattle.memory_lock.specs.Workers.{Adds};
    ghost use Rattle.task_pool.specs.Pools.{IsAtWork};
    ghost use Rattle.task_pool.specs.Workers.{IsFree, IsOpen, KeepsPin, SeesMore, own_of};
    ghost use Rattle.task_account.specs.Words.{pool_at};

    /// The account of a task that this worker has begun.
    pub fn of(
        rt: &'a R,
        manager: &'a Manager<K, B>,
        worker: &'a mut Worker<B>,
        task: Task,
    ) -> Account<'a, R, K, B>
        requires manager { worker.old.lock ≡ manager.now }
        requires its_task { IsOpen worker.old task }
        ensures manager { result.manager.now ≡ manager.now }
        ensures worker { result.worker.now ≡ worker.old }
        ensures lent { result.worker.ghost_name ≡ worker.entry.ghost_name }
        ensures task { result.task ≡ task }
        ensures at_work { IsAtWork (pool_at B.sizes manager.now task worker.old worker.entry.ghost_name) }
    {
        Account {
            rt,
            manager,
            worker,
            task,
        }
    }

    /// Hands the task out again, which goes on. The worker is given back.
    pub fn into_task(self) -> Task
        ensures task { result ≡ self.entry.task }
        ensures worker { self.exit.1.1.0.now ≡ self.entry.worker.now }
    {
        let Account {
            rt: _,
            manager: _,
            worker: _,
            task,
        } = self;
        task
    }

    /// Ends the task, which frees all that it holds, and answers how much that was. It has no refusal. The worker is
    /// given back.
    pub fn end(self) -> u64
        requires manager { self.worker.now.lock ≡ self.manager.now }
        requires its_task { IsOpen self.worker.now self.task }
        ensures freed { result ≡ held (own_of self.entry.worker.now) self.entry.task }
        ensures adds { Adds self.entry.worker.now self.exit.1.1.0.now
            (entry_by self.entry.worker.now.number (End self.entry.task result) ∷ []) }
        ensures free { IsFree self.exit.1.1.0.now }
        ensures pin { KeepsPin self.entry.worker.now self.exit.1.1.0.now }
        ensures sees { SeesMore self.entry.worker.now self.exit.1.1.0.now }
    {
        let Account {
            rt,
            manager,
            worker,
            task,
        } = self;
        manager.end(rt, worker, task)
    }
}

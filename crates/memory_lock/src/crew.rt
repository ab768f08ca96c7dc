//! A manager with its workers, from its start to its close.

use crate::basis::Basis;
use crate::locked::Locked;
use crate::manager::Manager;
use crate::worker::Worker;
use pool_ledger::{Journal, Setup};
use spill_disk::Disk;
use std::alloc::{AllocError, Global};
use turn_lock::TurnLock;

impl<K: Disk, B: Basis> Manager<K, B> {
    ghost use Rattle.std.specs.Prelude.{◌≡◌, ◌<◌, ℕ, None, false, is_some, IfOk, OnErr};
    ghost use Rattle.pool_ledger.specs.Journal.{history_of};
    ghost use Rattle.pool_ledger.specs.Legal.{IsLegal};
    ghost use Rattle.pool_laws.specs.Owners.{AreOwned};
    ghost use Rattle.turn_lock.specs.Passes.{joined_with, split_from, without_spare};
    ghost use Rattle.turn_lock.specs.Parts.{IsPart};
    ghost use Rattle.memory_lock.specs.Crew.{AreNew, AreWorkers, HasAll};

    /// A manager of a pool with these sizes, over this store disk, and its workers, as many as the setup has,
    /// numbered from 0. Each goes to a thread of its own. An `Err` is want of memory.
    pub fn start(
        alloc: Global,
        setup: Setup,
        store: K,
    ) -> Result<(Manager<K, B>, Vec<Worker<B>>), AllocError>
        requires basis { setup ≡ B.sizes }
        requires rows { is_some (K.files store) ≡ false → (dataset part : ℕ) → B.rows dataset part ≡ None }
        ensures workers { IfOk result (λ made. AreWorkers made.0 B.sizes.workers made.1.items) }
        ensures fresh { IfOk result (λ made. AreNew made.1.items) }
    {
        let count = setup.workers();
        let locked = Locked::new(alloc, setup, store)?;
        let (lock, pass) = TurnLock::<Locked<K>, B>::new(alloc, locked)?;
        let manager = Manager::around(lock, setup);
        let mut newest = Worker { pass };
        let mut workers = Vec::with_capacity(alloc, count as usize)?;
        for _number in 1..count {
            let next = manager.split(&mut newest)?;
            workers.push(newest)?;
            newest = next;
        }
        workers.push(newest)?;
        Ok((manager, workers))
    }

    /// The whole journal, once all workers of the start are back, and the store disk. The journal is legal,
    /// begins with all that each worker has seen, and has of each worker's entries exactly those that it made.
    pub fn close(self, mut workers: Vec<Worker<B>>) -> (Journal, K)
        requires all { AreWorkers self B.sizes.workers workers.items }
        ensures legal { IsLegal B.sizes (history_of result.0) }
        ensures owned { AreOwned B.owner (history_of result.0) }
        ensures whole { HasAll workers.items result.0 }
    {
        let _range = self.setup().max();
        let Some(mut all) = workers.pop() else {
            unreachable!()
        };
        while let Some(worker) = workers.pop() {
            self.join(&mut all, worker);
        }
        let lock = self.into_lock();
        let locked = lock.close(all.into_pass());
        locked.close()
    }

    // Makes one worker of two.
    fn join(&self, worker: &mut Worker<B>, other: Worker<B>)
        requires manager { (worker.old.lock ≡ self.now) × (other.lock ≡ self.now) }
        ensures worker { worker.new ≡ joined_with worker.old other }
        ensures this { IsPart worker.old.speaks worker.old.seen worker.new.seen }
        ensures that { IsPart other.speaks other.seen worker.new.seen }
    {
        self.lock.join(&mut worker.pass, other.into_pass());
    }

    // One more worker, with the next number.
    fn split(&self, worker: &mut Worker<B>) -> Result<Worker<B>, AllocError>
        requires manager { worker.old.lock ≡ self.now }
        requires left { worker.old.spare < B.sizes.workers }
        ensures ok { IfOk result (λ made. (made ≡ split_from worker.old) × (worker.new ≡ without_spare worker.old)) }
        ensures err { OnErr result (worker.new ≡ worker.old) }
    {
        let _range = self.setup().max();
        Ok(Worker {
            pass: self.lock.split(&mut worker.pass)?,
        })
    }
}

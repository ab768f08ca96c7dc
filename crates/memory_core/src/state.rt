//! The state: a legal journal and the blocks, with room kept for the end of each open task and for each unpin.

ghost use Rattle.std.specs.Prelude.{◌≡◌, ◌≢◌, ◌+◌, ◌≤◌, ◌<◌, ◌^◌, Some, None, Ok, [], ◌∷◌, ℕ, map, false, length, min, nat_lt, IsOk, IfOk, OnOk, OnErr};
ghost use Rattle.pool_ledger.specs.History.{CanGrow, held, maximum, open_task, was_begun};
ghost use Rattle.pool_ledger.specs.Blocks.{is_pinned, residents};
ghost use Rattle.pool_ledger.specs.Journal.{history_of, journal_of};
ghost use Rattle.pool_ledger.specs.Answers.{answer, growth};
ghost use Rattle.pool_ledger.specs.Legal.{IsLegal};
ghost use Rattle.pool_ledger.specs.Workers.{Continues};
ghost use Rattle.pool_ledger.specs.declared.entry.Event.TheVariants.{Begin, Release, End, Grow};
ghost use Rattle.pool_laws.specs.Growing.{entry_by};
ghost use Rattle.pool_laws.specs.Laws.{HoldsMost};
ghost use Rattle.block_store.specs.Stores.{pins_at};
ghost use Rattle.memory_core.specs.Attempts.{granted_in, KeepsFloor, WaitsBehind};
ghost use Rattle.memory_core.specs.Caches.{resident_of};
ghost use Rattle.memory_core.specs.Changes.{StillFits};
ghost use Rattle.memory_core.specs.Evictions.{Attempts};
ghost use Rattle.memory_core.specs.Steady.{IsSteady, StatesGoOn};
ghost use Rattle.memory_core.specs.declared.attempted.Attempted.TheVariants.{Wait};

use crate::attempted::{Attempted, answered};
use crate::pool::Pool;
use pool_laws::{legal_histories_grow, permitted_histories_keep_laws, victims_go_one_by_one};
use pool_ledger::{Entry, Event, Journal, Setup};
use spill_disk::Disk;
use std::alloc::{AllocError, Global};
use std::marker::Model;

/// The pool's journal with its running sums, the blocks in memory, and the store disk with the copies of evicted
/// ones. A contract sees the setup, the entries as a history, the newest first, `spare`, the number of entries for
/// which there is room beyond those for the ends of open tasks and for unpins, and `cache`: the blocks, the
/// copies, and the disk's files and count of faults.
#[derive(Drop)]
pub struct MemoryState<K: Disk> {
    pub(crate) pool: Pool<K>,
    pub(crate) kept: u64,
}

impl<K: Disk> Model for MemoryState<K> {
    ghost use Rattle.std.specs.Prelude.{◌≡◌, ◌≤◌, ◌-◌};
    ghost use Rattle.std.specs.Coded.{codes};
    ghost use Rattle.memory_core.specs.Caches.{Memory, files_coded};
    ghost use Rattle.memory_core.specs.Steady.{IsSteady, owed};

    ghost Value = { Memory };

    ghost coded = { Prim.hlevel (codes, files_coded) };

    ghost view = { λ s. record { setup = s.pool.setup; history = s.pool.history; spare = s.pool.spare - s.kept; cache = s.pool.cache } };

    ghost invariant = { λ s. IsSteady s.pool.setup s.pool.history s.pool.cache
        × (s.kept ≡ owed s.pool.setup.workers s.pool.history)
        × (s.kept ≤ s.pool.spare) };
}

// What the state does next is legal, and what it owes.
pub(crate) fn states_go_on()
    ensures { StatesGoOn }
{
    legal_histories_grow();
    permitted_histories_keep_laws();
    victims_go_one_by_one();
}

impl<K: Disk> MemoryState<K> {
    /// A state without entries and without blocks, whose storage pool has the region's bytes, over this store
    /// disk. It takes no memory.
    pub fn new(alloc: Global, setup: Setup, store: K) -> MemoryState<K>
        ensures setup { result.setup ≡ setup }
        ensures empty { result.history ≡ [] }
        ensures blocks { result.cache.blocks ≡ [] }
        ensures copies { result.cache.copies ≡ [] }
        ensures files { result.cache.files ≡ K.files store }
        ensures faults { result.cache.faults ≡ K.faults store }
    {
        states_go_on();
        MemoryState {
            pool: Pool::new(alloc, setup, store),
            kept: 0,
        }
    }

    /// The bytes of both pools together.
    pub fn max(&self) -> u64
        ensures { result ≡ maximum self.now.setup self.now.history }
    {
        self.pool.ledger().max()
    }

    /// The journal so far, the oldest entry first. It is legal whatever was called, and tells which blocks are in
    /// memory, in which order they were used, and which are pinned.
    pub fn entries(&self) -> &[Entry]
        ensures journal { result.now ≡ journal_of self.now.history }
        ensures history { history_of result.now ≡ self.now.history }
        ensures legal { IsLegal self.now.setup self.now.history }

        // The blocks are the journal's residents in use order, each with the journal's pins.
        ensures use_order { map resident_of self.now.cache.blocks ≡ residents self.now.history }
        ensures pins { (dataset part : ℕ) → nat_lt 0 (pins_at self.now.cache.blocks dataset part) ≡ is_pinned self.now.history dataset part }
    {
        self.pool.ledger().entries()
    }

    /// Makes room for `n` entries beside the ends of open tasks and the unpins. After an `Err` all is as before;
    /// it doesn't come where there is room for them.
    pub fn reserve(&mut self, n: u64) -> Result<(), AllocError>
        ensures ok { OnOk result (n ≤ self.new.spare) }
        ensures enough { n ≤ self.old.spare → IsOk result }
        ensures err { OnErr result (self.new ≡ self.old) }
        ensures setup { self.new.setup ≡ self.old.setup }
        ensures history { self.new.history ≡ self.old.history }
        ensures cache { self.new.cache ≡ self.old.cache }
        ensures keeps { self.old.spare ≤ self.new.spare }
    {
        if n <= self.pool.ledger().spare() - self.kept {
            return Ok(());
        }
        let Some(total) = n.checked_add(self.kept) else {
            return Err(AllocError);
        };
        self.pool.reserve(total)
    }

    /// Begins a task of a worker that has none, and keeps room for its end. The task was never begun. After
    /// an `Err` all is as before.
    pub fn begin(&mut self, worker: u32, task: u32) -> Result<(), AllocError>
        requires known { worker < self.old.setup.workers }
        requires free { open_task self.old.history worker ≡ None }
        requires fresh { was_begun self.old.history task ≡ false }
        ensures ok { OnOk result (self.new.history ≡ entry_by worker (Begin task) ∷ self.old.history) }
        ensures enough { 2 ≤ self.old.spare → IsOk result }
        ensures err { OnErr result (self.new ≡ self.old) }
        ensures setup { self.new.setup ≡ self.old.setup }
        ensures cache { self.new.cache ≡ self.old.cache }
        ensures own { Continues worker (journal_of self.old.history) (journal_of self.new.history) }
        ensures room { self.old.spare ≤ self.new.spare + 2 }
    {
        // One entry for this begin, and one for the end.
        self.reserve(2)?;
        states_go_on();
        self.pool.add(Entry {
            worker,
            event: Event::Begin { task },
        });
        self.kept += 1;
        Ok(())
    }

    /// An ask of a worker's open task for bytes, 1 to 2^50: what moves from storage, and which blocks are evicted,
    /// stays so, also where the answer is `Wait`. After an `Err` all is as before; it doesn't come where there is
    /// room for an entry and one for each block in memory.
    ///
    /// After Spark's `UnifiedMemoryManager.acquireExecutionMemory` and `ExecutionMemoryPool.acquireMemory`.
    pub fn attempt(&mut self, worker: u32, task: u32, asked: u64) -> Result<Attempted, AllocError>
        requires known { worker < self.old.setup.workers }
        requires its_task { open_task self.old.history worker ≡ Some task }
        requires some_asked { 1 ≤ asked }
        requires few_asked { asked ≤ 2 ^ 50 }
        ensures answer { IfOk result (λ got. granted_in got ≡ answer self.old.setup self.old.history task asked) }
        ensures ok { OnOk result (Attempts worker task asked self.old self.new) }
        ensures enough { length self.old.cache.blocks + 1 ≤ self.old.spare → IsOk result }
        ensures err { OnErr result (self.new ≡ self.old) }
        ensures setup { self.new.setup ≡ self.old.setup }
        ensures own { Continues worker (journal_of self.old.history) (journal_of self.new.history) }
        ensures rows { StillFits self.old.cache self.new.cache }
        ensures room { self.old.spare ≤ self.new.spare + length (growth self.old.setup self.old.history asked).evicted + 1 }

        // The greatest holder never waits, and a short grant leaves the floor.
        ensures greatest { HoldsMost self.old.history task → IfOk result (λ got. got ≢ Wait) }
        ensures waits { IfOk result (WaitsBehind self.old.history task) }
        ensures floor { IfOk result (KeepsFloor self.old.setup (held self.old.history task) asked) }
    {
        permitted_histories_keep_laws();
        let plan = self.pool.plan_attempt(worker, task, asked);
        self.reserve_behind(plan.evictions)?;
        states_go_on();
        self.pool.evict(worker, None, plan.evictions);
        self.pool.add(Entry {
            worker,
            event: Event::Attempt {
                task,
                asked,
                moved: plan.moved,
                evictions: plan.evictions,
                got: plan.got,
            },
        });
        Ok(answered(plan.got))
    }

    /// Gives back bytes of a worker's open task, at most what it holds, and answers how many. After an `Err`
    /// all is as before; it doesn't come where there is room for an entry.
    pub fn release(&mut self, worker: u32, task: u32, bytes: u64) -> Result<u64, AllocError>
        requires known { worker < self.old.setup.workers }
        requires its_task { open_task self.old.history worker ≡ Some task }
        ensures freed { IfOk result (λ freed. freed ≡ min bytes (held self.old.history task)) }
        ensures ok { OnOk result (self.new.history ≡ entry_by worker (Release task (min bytes (held self.old.history task))) ∷ self.old.history) }
        ensures enough { 1 ≤ self.old.spare → IsOk result }
        ensures err { OnErr result (self.new ≡ self.old) }
        ensures setup { self.new.setup ≡ self.old.setup }
        ensures cache { self.new.cache ≡ self.old.cache }
        ensures own { Continues worker (journal_of self.old.history) (journal_of self.new.history) }
        ensures room { self.old.spare ≤ self.new.spare + 1 }
    {
        let freed = bytes.min(self.pool.ledger().held(task));
        self.reserve(1)?;
        states_go_on();
        self.pool.add(Entry {
            worker,
            event: Event::Release { task, freed },
        });
        Ok(freed)
    }

    /// Ends a worker's open task, which frees all that it holds, and answers how much that was. It takes no
    /// memory and can't be refused: its entry has its room since the begin.
    pub fn end(&mut self, worker: u32, task: u32) -> u64
        requires known { worker < self.old.setup.workers }
        requires its_task { open_task self.old.history worker ≡ Some task }
        ensures freed { result ≡ held self.old.history task }
        ensures history { self.new.history ≡ entry_by worker (End task (held self.old.history task)) ∷ self.old.history }
        ensures setup { self.new.setup ≡ self.old.setup }
        ensures cache { self.new.cache ≡ self.old.cache }
        ensures own { Continues worker (journal_of self.old.history) (journal_of self.new.history) }
        ensures room { self.old.spare ≤ self.new.spare }
    {
        states_go_on();
        let freed = self.pool.ledger().held(task);
        self.pool.add(Entry {
            worker,
            event: Event::End { task, freed },
        });
        self.kept -= 1;
        freed
    }

    /// Makes both pools together larger, by 1 to 2^36 bytes that execution gets, to 2^41 at most. The first worker alone
    /// does it. After an `Err` all is as before; it doesn't come where there is room for an entry.
    pub fn grow(&mut self, worker: u32, bytes: u64) -> Result<(), AllocError>
        requires known { worker < self.old.setup.workers }
        requires can { CanGrow self.old.setup self.old.history worker bytes }
        ensures ok { OnOk result (self.new.history ≡ entry_by worker (Grow bytes) ∷ self.old.history) }
        ensures enough { 1 ≤ self.old.spare → IsOk result }
        ensures err { OnErr result (self.new ≡ self.old) }
        ensures setup { self.new.setup ≡ self.old.setup }
        ensures cache { self.new.cache ≡ self.old.cache }
        ensures own { Continues worker (journal_of self.old.history) (journal_of self.new.history) }
        ensures room { self.old.spare ≤ self.new.spare + 1 }
    {
        self.reserve(1)?;
        states_go_on();
        self.pool.add(Entry {
            worker,
            event: Event::Grow { bytes },
        });
        Ok(())
    }

    /// The whole journal, which is legal, and the store disk. It takes no memory.
    pub fn close(self) -> (Journal, K)
        ensures journal { result.0 ≡ journal_of self.history }
        ensures history { history_of result.0 ≡ self.history }
        ensures legal { IsLegal self.setup self.history }
        ensures files { K.files result.1 ≡ self.cache.files }
        ensures faults { K.faults result.1 ≡ self.cache.faults }
    {
        let MemoryState { pool, kept: _ } = self;
        pool.close()
    }

    // Makes room for so many evictions and the entry that they are for.
    fn reserve_behind(&mut self, evictions: u64) -> Result<(), AllocError>
        ensures ok { OnOk result (evictions + 1 ≤ self.new.spare) }
        ensures enough { evictions + 1 ≤ self.old.spare → IsOk result }
        ensures err { OnErr result (self.new ≡ self.old) }
        ensures setup { self.new.setup ≡ self.old.setup }
        ensures history { self.new.history ≡ self.old.history }
        ensures cache { self.new.cache ≡ self.old.cache }
        ensures keeps { self.old.spare ≤ self.new.spare }
    {
        if evictions < self.pool.ledger().spare() - self.kept {
            return Ok(());
        }
        states_go_on();
        let Some(total) = evictions.checked_add(self.kept + 1) else {
            return Err(AllocError);
        };
        self.pool.reserve(total)
    }
}

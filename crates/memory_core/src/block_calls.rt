//! What a state does with blocks: they are admitted, pinned and given back, and removed.

ghost use Rattle.std.specs.Prelude.{◌≡◌, ◌+◌, ◌≤◌, ◌<◌, Some, None, Ok, ◌∷◌, map, true, length, count_by, IsOk, IfOk, OnOk, OnErr};
ghost use Rattle.std.specs.Arc.{arc_value};
ghost use Rattle.row_page.specs.Spelling.{page_cost};
ghost use Rattle.pool_ledger.specs.Blocks.{is_resident, worker_pin};
ghost use Rattle.pool_ledger.specs.Journal.{journal_of};
ghost use Rattle.pool_ledger.specs.Answers.{admission};
ghost use Rattle.pool_ledger.specs.Workers.{Continues};
ghost use Rattle.pool_ledger.specs.declared.entry.Event.TheVariants.{Unpin};
ghost use Rattle.pool_laws.specs.Growing.{entry_by};
ghost use Rattle.block_store.specs.Stores.{unpinned};
ghost use Rattle.memory_core.specs.Changes.{Clears, HandsGiven, HasPinnedAlone, IsNamed, IsPinned, ReadsAlone, StillFits, StillFitsWith, may_be_removed};
ghost use Rattle.memory_core.specs.Evictions.{IsAnswered};

use crate::admission::Admission;
use crate::pinned::Pinned;
use crate::state::{MemoryState, states_go_on};
use block_store::Block;
use pool_ledger::{Entry, Event};
use spill_disk::Disk;
use std::alloc::{AllocError, Global};
use std::sync::Arc;

impl<K: Disk> MemoryState<K> {
    /// Keeps a block in memory that isn't there, if there is room: what storage has free, then what it can borrow
    /// from what execution has free, then what blocks of other datasets give that no pin keeps. What was borrowed
    /// stays storage's, also where the block is refused. After an `Err` all is as before.
    ///
    /// After Spark's `UnifiedMemoryManager.acquireStorageMemory` and `MemoryStore.evictBlocksToFreeSpace`.
    pub fn admit(&mut self, worker: u32, block: Arc<Block, Global>) -> Result<Admission, AllocError>
        requires known { worker < self.old.setup.workers }
        ensures ok { IfOk result (λ answer. IsAnswered answer worker (arc_value block) (page_cost (arc_value block).page.rows) self.old self.new) }
        ensures err { OnErr result (self.new ≡ self.old) }
        ensures setup { self.new.setup ≡ self.old.setup }
        ensures own { Continues worker (journal_of self.old.history) (journal_of self.new.history) }
        ensures rows { StillFitsWith (arc_value block) self.old.cache self.new.cache }
        ensures room { self.old.spare ≤ self.new.spare
            + length (admission self.old.setup self.old.history (arc_value block).dataset (page_cost (arc_value block).page.rows)).evicted + 1 }
    {
        let (dataset, part, size) = (block.dataset, block.part, block.size());
        if self.pool.is_resident(dataset, part) {
            return Ok(Admission::Resident);
        }
        states_go_on();
        let plan = self.pool.plan_admission(dataset, size);
        let Some(entries) = plan.evictions.checked_add(self.kept + 1) else {
            return Err(AllocError);
        };
        self.pool.reserve_block()?;
        self.pool.reserve(entries)?;
        self.pool.evict(worker, Some(dataset), plan.evictions);
        if plan.admitted {
            self.pool
                .admit(worker, plan.borrowed, plan.evictions, block);
            return Ok(Admission::Admitted);
        }
        self.pool.add(Entry {
            worker,
            event: Event::Refused {
                dataset,
                part,
                size,
                borrowed: plan.borrowed,
                evictions: plan.evictions,
            },
        });
        Ok(Admission::Refused)
    }

    /// Pins a block for a worker that has no pin, if it is in memory; it then was used last, and no call evicts
    /// or removes it until the unpin, whose room is kept. Else reads its copy, if it has one. After an `Err` no
    /// room is kept, and history, blocks, copies and files are as before; for a block in memory all is.
    pub fn pin(&mut self, worker: u32, dataset: u32, part: u32) -> Result<Pinned, AllocError>
        requires known { worker < self.old.setup.workers }
        requires free { worker_pin self.old.history worker ≡ None }
        ensures ok { IfOk result (λ pinned. IsPinned pinned worker dataset part self.old self.new) }
        ensures handed { IfOk result (λ pinned. HandsGiven pinned dataset part self.old.cache) }
        ensures named { IfOk result (λ pinned. IsNamed pinned dataset part) }
        ensures err { OnErr result (self.new.history ≡ self.old.history) }
        ensures err_cache { OnErr result (ReadsAlone self.old.cache self.new.cache) }
        ensures err_spare { OnErr result (self.new.spare ≡ self.old.spare) }
        ensures err_resident { is_resident self.old.history dataset part ≡ true → OnErr result (self.new ≡ self.old) }
        ensures setup { self.new.setup ≡ self.old.setup }
        ensures own { Continues worker (journal_of self.old.history) (journal_of self.new.history) }
        ensures rows { StillFits self.old.cache self.new.cache }
        ensures room { self.old.spare ≤ self.new.spare + 2 }
    {
        states_go_on();
        if let Some(block) = self.pool.lend(dataset, part)? {
            // One entry for this pin, and one for the unpin.
            self.reserve(2)?;
            self.pool.pin(worker, dataset, part);
            self.kept += 1;
            return Ok(Pinned::Hit(block));
        }
        let Some(block) = self.pool.read_copy(dataset, part)? else {
            return Ok(Pinned::Miss);
        };
        // Nothing after this can be refused, so that a refusal keeps no room.
        self.reserve(1)?;
        self.pool.add(Entry {
            worker,
            event: Event::Pin {
                dataset,
                part,
                copy: true,
            },
        });
        Ok(Pinned::OnDisk(block))
    }

    /// Gives the worker's pin back. It takes no memory and can't be refused: its entry has its room since the
    /// pin.
    pub fn unpin(&mut self, worker: u32, dataset: u32, part: u32)
        requires known { worker < self.old.setup.workers }
        requires its_pin { worker_pin self.old.history worker ≡ Some (record { dataset = dataset; part = part }) }
        ensures history { self.new.history ≡ entry_by worker (Unpin dataset part) ∷ self.old.history }
        ensures cache { self.new.cache ≡ record self.old.cache { blocks = map (unpinned dataset part) self.old.cache.blocks } }
        ensures setup { self.new.setup ≡ self.old.setup }
        ensures own { Continues worker (journal_of self.old.history) (journal_of self.new.history) }
        ensures rows { StillFits self.old.cache self.new.cache }
        ensures room { self.old.spare ≤ self.new.spare }
    {
        states_go_on();
        self.pool.unpin(worker, dataset, part);
        self.kept -= 1;
    }

    /// Removes the blocks of a dataset that no pin keeps, ascending by part, and forgets all its copies. What the
    /// store disk answers to the removal of their files changes nothing. After an `Err` all is as before; it doesn't
    /// come where there is room for an entry for each of these blocks.
    pub fn remove(&mut self, worker: u32, dataset: u32) -> Result<(), AllocError>
        requires known { worker < self.old.setup.workers }
        ensures ok { OnOk result (Clears worker dataset self.old self.new) }
        ensures left { OnOk result (HasPinnedAlone dataset self.new.history) }
        ensures err { OnErr result (self.new ≡ self.old) }
        ensures setup { self.new.setup ≡ self.old.setup }
        ensures own { Continues worker (journal_of self.old.history) (journal_of self.new.history) }
        ensures rows { StillFits self.old.cache self.new.cache }
        ensures enough { count_by (may_be_removed dataset) self.old.cache.blocks ≤ self.old.spare → IsOk result }
        ensures room { self.old.spare ≤ self.new.spare + count_by (may_be_removed dataset) self.old.cache.blocks }
    {
        let count = self.pool.removable(dataset);
        self.reserve(count)?;
        states_go_on();
        self.pool.remove(worker, dataset, count);
        self.pool.forget(dataset);
        Ok(())
    }
}

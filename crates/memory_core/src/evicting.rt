//! Blocks that go for an ask or for another block, and the block that then comes.

ghost use Rattle.std.specs.Prelude.{◌≡◌, ◌≤◌, ◌<◌, ◌+◌, ◌++◌, [], ◌∷◌, List, take, length};
ghost use Rattle.std.specs.Arc.{arc_value};
ghost use Rattle.row_page.specs.Spelling.{page_cost};
ghost use Rattle.pool_ledger.specs.History.{History};
ghost use Rattle.pool_ledger.specs.Blocks.{Resident, evictable};
ghost use Rattle.pool_ledger.specs.Legal.{MayFollow, pending};
ghost use Rattle.pool_ledger.specs.declared.entry.Event.TheVariants.{Admit};
ghost use Rattle.pool_laws.specs.Growing.{entry_by};
ghost use Rattle.pool_laws.specs.Evicting.{IsEvicting};
ghost use Rattle.block_store.specs.Stores.{held_of};
ghost use Rattle.memory_core.specs.Evictions.{EvictsInTurn};
ghost use Rattle.memory_core.specs.Steady.{IsAmid};

use crate::pool::Pool;
use block_store::Block;
use pool_laws::{permitted_histories_keep_laws, victims_go_one_by_one};
use pool_ledger::{Entry, Event};
use spill_disk::Disk;
use std::alloc::Global;
use std::sync::Arc;

impl<K: Disk> Pool<K> {
    // Evicts the first blocks that may go, so many.
    pub(crate) fn evict(&mut self, worker: u32, except: Option<u32>, count: u64)
        requires amid { IsAmid self.old.setup self.old.history self.old.cache }
        requires whole { pending self.old.history ≡ [] }
        requires known { worker < self.old.setup.workers }
        requires spare { count ≤ self.old.spare }
        requires few { count ≤ length (evictable self.old.history except) }
        ensures amid { IsAmid self.new.setup self.new.history self.new.cache }
        ensures evicts { EvictsInTurn worker (take count (evictable self.old.history except)) self.old.history self.old.cache self.new.history self.new.cache }
        ensures evicting { IsEvicting self.new.history self.old.history worker except (take count (evictable self.old.history except)) [] }
        ensures spare { self.new.spare + count ≡ self.old.spare }
        ensures room { self.new.room ≡ self.old.room }
        ensures setup { self.new.setup ≡ self.old.setup }
    {
        for _step in 0..count {
            self.evict_first(worker, except);
        }
    }

    // Evicts the first block that may go, which is the next of the victims.
    fn evict_first(&mut self, worker: u32, except: Option<u32>)
        requires amid { IsAmid self.old.setup self.old.history self.old.cache }
        requires known { worker < self.old.setup.workers }
        requires spare { 1 ≤ self.old.spare }
        requires next { (base : History) × (gone left : List Resident) × (block : Resident) × IsEvicting self.old.history base worker except gone (block ∷ left) }
        ensures amid { IsAmid self.new.setup self.new.history self.new.cache }
        ensures evicts { (base : History) (gone left : List Resident) (block : Resident) → IsEvicting self.old.history base worker except gone (block ∷ left)
            → EvictsInTurn worker (block ∷ []) self.old.history self.old.cache self.new.history self.new.cache
            × IsEvicting self.new.history base worker except (gone ++ block ∷ []) left }
        ensures spare { self.new.spare + 1 ≡ self.old.spare }
        ensures room { self.new.room ≡ self.old.room }
        ensures setup { self.new.setup ≡ self.old.setup }
    {
        permitted_histories_keep_laws();
        victims_go_one_by_one();
        let Some(next) = self.store.first_that_may_go(except) else {
            unreachable!()
        };
        let fate = self.store.evict_one(next.dataset, next.part);
        self.ledger.push(Entry {
            worker,
            event: Event::Evict {
                dataset: next.dataset,
                part: next.part,
                size: next.size,
                fate,
            },
        });
    }

    // Puts a block in memory that isn't there, with the entry of its admission.
    pub(crate) fn admit(
        &mut self,
        worker: u32,
        borrowed: u64,
        evictions: u64,
        block: Arc<Block, Global>,
    )
        requires amid { IsAmid self.old.setup self.old.history self.old.cache }
        requires spare { 1 ≤ self.old.spare }
        requires room { 1 ≤ self.old.room }
        requires next { MayFollow self.old.setup self.old.history (entry_by worker (Admit (arc_value block).dataset (arc_value block).part
            (page_cost (arc_value block).page.rows) (arc_value block).level borrowed evictions)) }
        ensures amid { IsAmid self.new.setup self.new.history self.new.cache }
        ensures history { self.new.history ≡ entry_by worker (Admit (arc_value block).dataset (arc_value block).part
            (page_cost (arc_value block).page.rows) (arc_value block).level borrowed evictions) ∷ self.old.history }
        ensures cache { self.new.cache ≡ record self.old.cache { blocks = self.old.cache.blocks ++ held_of 0 (arc_value block) ∷ [] } }
        ensures spare { self.new.spare + 1 ≡ self.old.spare }
        ensures setup { self.new.setup ≡ self.old.setup }
    {
        permitted_histories_keep_laws();
        let entry = Entry {
            worker,
            event: Event::Admit {
                dataset: block.dataset,
                part: block.part,
                size: block.size(),
                level: block.level,
                borrowed,
                evictions,
            },
        };
        self.store.admit(block);
        self.ledger.push(entry);
    }
}

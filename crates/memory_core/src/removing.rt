//! The blocks and the copies of a dataset that are given up.

ghost use Rattle.std.specs.Prelude.{◌≡◌, ◌≤◌, ◌<◌, ◌+◌, [], ◌∷◌, ℕ, List, false, count_by, is_some};
ghost use Rattle.std.specs.List.{list_any};
ghost use Rattle.std.specs.List.Sorted.{IsPermutation};
ghost use Rattle.pool_ledger.specs.Blocks.{Resident};
ghost use Rattle.pool_ledger.specs.Legal.{pending};
ghost use Rattle.block_store.specs.Copies.{has_copy, has_file, only_of};
ghost use Rattle.block_store.specs.Evictions.{KeepsDatasets, file_at};
ghost use Rattle.memory_core.specs.Changes.{RemovesInTurn, may_be_removed, may_be_removed_below, removable_of};
ghost use Rattle.memory_core.specs.Evictions.{KeepsStore};
ghost use Rattle.memory_core.specs.Steady.{IsAmid};

use crate::pool::Pool;
use pool_laws::permitted_histories_keep_laws;
use pool_ledger::{Entry, Event};
use spill_disk::Disk;

impl<K: Disk> Pool<K> {
    // Removes the blocks of a dataset that may be removed, ascending by part.
    pub(crate) fn remove(&mut self, worker: u32, dataset: u32, count: u64)
        requires amid { IsAmid self.old.setup self.old.history self.old.cache }
        requires whole { pending self.old.history ≡ [] }
        requires known { worker < self.old.setup.workers }
        requires count { count ≡ count_by (may_be_removed dataset) self.old.cache.blocks }
        requires spare { count ≤ self.old.spare }
        ensures amid { IsAmid self.new.setup self.new.history self.new.cache }
        ensures whole { pending self.new.history ≡ [] }
        ensures removes { (gone : List Resident) × (end : ℕ)
            × RemovesInTurn worker dataset 0 end gone self.old.history self.old.cache.blocks self.new.history self.new.cache.blocks
            × IsPermutation gone (removable_of dataset self.old.cache.blocks) }
        ensures none_left { list_any (may_be_removed dataset) self.new.cache.blocks ≡ false }
        ensures disk { KeepsStore self.old.cache self.new.cache }
        ensures spare { self.new.spare + count ≡ self.old.spare }
        ensures setup { self.new.setup ≡ self.old.setup }
    {
        let mut from: u64 = 0;
        for _step in 0..count {
            let part = self.remove_next(worker, dataset, from);
            from = u64::from(part) + 1;
        }
    }

    // Removes the one with the least part of the blocks of a dataset that may be removed, and answers its part.
    fn remove_next(&mut self, worker: u32, dataset: u32, from: u64) -> u32
        requires amid { IsAmid self.old.setup self.old.history self.old.cache }
        requires whole { pending self.old.history ≡ [] }
        requires known { worker < self.old.setup.workers }
        requires some { 0 < count_by (may_be_removed dataset) self.old.cache.blocks }
        requires spare { 1 ≤ self.old.spare }
        requires from { list_any (may_be_removed_below dataset from) self.old.cache.blocks ≡ false }
        ensures amid { IsAmid self.new.setup self.new.history self.new.cache }
        ensures whole { pending self.new.history ≡ [] }
        ensures removes { (block : Resident) × (block.part ≡ result)
            × RemovesInTurn worker dataset from (result + 1) (block ∷ []) self.old.history self.old.cache.blocks self.new.history self.new.cache.blocks
            × IsPermutation (block ∷ removable_of dataset self.new.cache.blocks) (removable_of dataset self.old.cache.blocks) }
        ensures count { count_by (may_be_removed dataset) self.new.cache.blocks + 1 ≡ count_by (may_be_removed dataset) self.old.cache.blocks }
        ensures from { list_any (may_be_removed_below dataset (result + 1)) self.new.cache.blocks ≡ false }
        ensures disk { KeepsStore self.old.cache self.new.cache }
        ensures spare { self.new.spare + 1 ≡ self.old.spare }
        ensures setup { self.new.setup ≡ self.old.setup }
    {
        permitted_histories_keep_laws();
        let Some(next) = self.next_to_remove(dataset) else {
            unreachable!()
        };
        self.store.remove(next.dataset, next.part);
        self.ledger.push(Entry {
            worker,
            event: Event::Remove {
                dataset: next.dataset,
                part: next.part,
                size: next.size,
            },
        });
        next.part
    }

    // Forgets all copies of a dataset.
    pub(crate) fn forget(&mut self, dataset: u32)
        requires amid { IsAmid self.old.setup self.old.history self.old.cache }
        ensures amid { IsAmid self.new.setup self.new.history self.new.cache }
        ensures gone { (part : ℕ) → has_copy self.new.cache.copies dataset part ≡ false }
        ensures others { KeepsDatasets dataset self.old.cache.files self.old.cache.copies self.new.cache.files self.new.cache.copies }
        ensures files { (file : ℕ) → has_file (only_of dataset self.old.cache.copies) file ≡ false
            → file_at self.new.cache.files file ≡ file_at self.old.cache.files file }
        ensures blocks { self.new.cache.blocks ≡ self.old.cache.blocks }
        ensures history { self.new.history ≡ self.old.history }
        ensures setup { self.new.setup ≡ self.old.setup }
        ensures spare { self.new.spare ≡ self.old.spare }
        ensures tells { is_some self.new.cache.files ≡ is_some self.old.cache.files }
        ensures later { self.old.cache.faults ≤ self.new.cache.faults }
    {
        self.store.forget(dataset);
    }
}

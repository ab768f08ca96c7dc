//! Pins, and copies that are read back.

ghost use Rattle.std.specs.Prelude.{◌≡◌, ◌≤◌, ◌<◌, ◌+◌, ◌++◌, [], ◌∷◌, map, is_some, true, false, Some, None, IfOk, IfSome, IfNone};
ghost use Rattle.std.specs.Arc.{arc_value};
ghost use Rattle.fault_count.specs.Faults.{Rose};
ghost use Rattle.pool_ledger.specs.Blocks.{is_resident, worker_pin};
ghost use Rattle.pool_ledger.specs.Legal.{pending};
ghost use Rattle.pool_ledger.specs.declared.entry.Event.TheVariants.{Pin, Unpin};
ghost use Rattle.pool_laws.specs.Growing.{entry_by};
ghost use Rattle.block_store.specs.Stores.{held_at, held_of, pins_at, unpinned, without};
ghost use Rattle.block_store.specs.Copies.{has_copy, copy_rows};
ghost use Rattle.memory_core.specs.Changes.{ReadsAlone};
ghost use Rattle.memory_core.specs.Steady.{IsAmid};

use crate::pool::Pool;
use block_store::Block;
use pool_laws::permitted_histories_keep_laws;
use pool_ledger::{Entry, Event, Level};
use spill_disk::Disk;
use std::alloc::{AllocError, Global};
use std::sync::Arc;

impl<K: Disk> Pool<K> {
    // The block, if it is in memory, for one more owner.
    pub(crate) fn lend(
        &self,
        dataset: u32,
        part: u32,
    ) -> Result<Option<Arc<Block, Global>>, AllocError>
        requires amid { IsAmid self.now.setup self.now.history self.now.cache }
        ensures found { IfOk result (λ got. is_some got ≡ is_resident self.now.history dataset part) }
        ensures value { IfOk result (λ got. IfSome got (λ block. held_at self.now.cache.blocks dataset part
            ≡ Some (held_of (pins_at self.now.cache.blocks dataset part) (arc_value block)))) }
    {
        self.store.lend(dataset, part)
    }

    // Pins a block that is in memory, for a worker without a pin.
    pub(crate) fn pin(&mut self, worker: u32, dataset: u32, part: u32)
        requires amid { IsAmid self.old.setup self.old.history self.old.cache }
        requires whole { pending self.old.history ≡ [] }
        requires known { worker < self.old.setup.workers }
        requires free { worker_pin self.old.history worker ≡ None }
        requires resident { is_resident self.old.history dataset part ≡ true }
        requires spare { 1 ≤ self.old.spare }
        ensures amid { IsAmid self.new.setup self.new.history self.new.cache }
        ensures history { self.new.history ≡ entry_by worker (Pin dataset part false) ∷ self.old.history }
        ensures cache { IfSome (held_at self.old.cache.blocks dataset part) (λ held. self.new.cache ≡ record self.old.cache {
          blocks = without dataset part self.old.cache.blocks ++ record held { pins = held.pins + 1 } ∷ [];
        }) }
        ensures spare { self.new.spare + 1 ≡ self.old.spare }
        ensures setup { self.new.setup ≡ self.old.setup }
    {
        permitted_histories_keep_laws();
        self.store.pin(dataset, part);
        self.ledger.push(Entry {
            worker,
            event: Event::Pin {
                dataset,
                part,
                copy: false,
            },
        });
    }

    // Gives a worker's pin back.
    pub(crate) fn unpin(&mut self, worker: u32, dataset: u32, part: u32)
        requires amid { IsAmid self.old.setup self.old.history self.old.cache }
        requires whole { pending self.old.history ≡ [] }
        requires known { worker < self.old.setup.workers }
        requires its_pin { worker_pin self.old.history worker ≡ Some (record { dataset = dataset; part = part }) }
        requires spare { 1 ≤ self.old.spare }
        ensures amid { IsAmid self.new.setup self.new.history self.new.cache }
        ensures history { self.new.history ≡ entry_by worker (Unpin dataset part) ∷ self.old.history }
        ensures cache { self.new.cache ≡ record self.old.cache { blocks = map (unpinned dataset part) self.old.cache.blocks } }
        ensures spare { self.new.spare + 1 ≡ self.old.spare }
        ensures setup { self.new.setup ≡ self.old.setup }
    {
        permitted_histories_keep_laws();
        self.store.unpin(dataset, part);
        self.ledger.push(Entry {
            worker,
            event: Event::Unpin { dataset, part },
        });
    }

    // Reads the copy of a block, if it has one.
    pub(crate) fn read_copy(
        &mut self,
        dataset: u32,
        part: u32,
    ) -> Result<Option<Arc<Block, Global>>, AllocError>
        requires amid { IsAmid self.old.setup self.old.history self.old.cache }
        ensures copied { IfOk result (λ read. IfSome read (λ _. has_copy self.old.cache.copies dataset part ≡ true)) }
        ensures rows { is_some self.old.cache.files ≡ true → IfOk result (λ read. IfSome read (λ block.
            copy_rows self.old.cache.files self.old.cache.copies dataset part ≡ Some (arc_value block).page.rows)) }
        ensures dataset { IfOk result (λ read. IfSome read (λ block. (arc_value block).dataset ≡ dataset)) }
        ensures part { IfOk result (λ read. IfSome read (λ block. (arc_value block).part ≡ part)) }
        ensures level { IfOk result (λ read. IfSome read (λ block. (arc_value block).level ≡ Level.Disk)) }
        ensures lost { has_copy self.old.cache.copies dataset part ≡ true → is_some self.old.cache.files ≡ true
            → IfOk result (λ read. IfNone read (Rose self.old.cache.faults self.new.cache.faults)) }
        ensures amid { IsAmid self.new.setup self.new.history self.new.cache }
        ensures cache { ReadsAlone self.old.cache self.new.cache }
        ensures history { self.new.history ≡ self.old.history }
        ensures setup { self.new.setup ≡ self.old.setup }
        ensures spare { self.new.spare ≡ self.old.spare }
    {
        self.store.copy_of(dataset, part)
    }
}

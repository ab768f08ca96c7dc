//! The journal with its sums, in step with the blocks.

ghost use Rattle.std.specs.Prelude.{◌≡◌, ◌≤◌, ◌+◌, [], ◌∷◌, true, IsOk, OnOk, OnErr};
ghost use Rattle.pool_ledger.specs.Blocks.{is_resident};
ghost use Rattle.pool_ledger.specs.Legal.{MayFollow};
ghost use Rattle.pool_ledger.specs.Journal.{history_of, journal_of};
ghost use Rattle.memory_core.specs.Steady.{IsAmid, is_quiet};

use block_store::Store;
use pool_laws::permitted_histories_keep_laws;
use pool_ledger::{Entry, Journal, Ledger, Setup};
use spill_disk::Disk;
use std::alloc::{AllocError, Global};
use std::marker::Model;

// The journal with its sums, and the blocks in memory and on the store disk. A contract sees them as
// `PoolView`.
#[derive(Drop)]
pub(crate) struct Pool<K: Disk> {
    pub(crate) ledger: Ledger,
    pub(crate) store: Store<K>,
}

impl<K: Disk> Model for Pool<K> {
    ghost use Rattle.block_store.specs.Seen.{blocks_of, room_of, copies_of, disk_of};
    ghost use Rattle.std.specs.Coded.{codes};
    ghost use Rattle.memory_core.specs.Caches.{PoolView, files_coded};

    ghost Value = { PoolView };

    ghost coded = { Prim.hlevel (codes, files_coded) };

    ghost view = { λ pool. record {
      setup = pool.ledger.setup;
      history = pool.ledger.history;
      spare = pool.ledger.spare;
      room = room_of pool.store;
      cache = record {
        blocks = blocks_of pool.store;
        copies = copies_of pool.store;
        files = K.files (disk_of pool.store);
        faults = K.faults (disk_of pool.store);
      };
    } };
}

impl<K: Disk> Pool<K> {
    // No entries and no blocks.
    pub(crate) fn new(alloc: Global, setup: Setup, disk: K) -> Pool<K>
        ensures setup { result.setup ≡ setup }
        ensures empty { result.history ≡ [] }
        ensures spare { result.spare ≡ 0 }
        ensures blocks { result.cache.blocks ≡ [] }
        ensures copies { result.cache.copies ≡ [] }
        ensures files { result.cache.files ≡ K.files disk }
        ensures faults { result.cache.faults ≡ K.faults disk }
        ensures amid { IsAmid result.setup result.history result.cache }
    {
        let _range = setup.max();
        Pool {
            ledger: Ledger::new(alloc, setup),
            store: Store::new(alloc, disk),
        }
    }

    // The journal with its sums.
    pub(crate) fn ledger(&self) -> &Ledger
        ensures setup { result.now.setup ≡ self.now.setup }
        ensures history { result.now.history ≡ self.now.history }
        ensures spare { result.now.spare ≡ self.now.spare }
    {
        &self.ledger
    }

    // Whether the block is in memory.
    pub(crate) fn is_resident(&self, dataset: u32, part: u32) -> bool
        requires amid { IsAmid self.now.setup self.now.history self.now.cache }
        ensures { result ≡ is_resident self.now.history dataset part }
    {
        self.store.pins(dataset, part).is_some()
    }

    // Makes room for entries.
    pub(crate) fn reserve(&mut self, n: u64) -> Result<(), AllocError>
        ensures ok { OnOk result (n ≤ self.new.spare) }
        ensures enough { n ≤ self.old.spare → IsOk result }
        ensures keeps { self.old.spare ≤ self.new.spare }
        ensures err { OnErr result (self.new ≡ self.old) }
        ensures setup { self.new.setup ≡ self.old.setup }
        ensures history { self.new.history ≡ self.old.history }
        ensures room { self.new.room ≡ self.old.room }
        ensures cache { self.new.cache ≡ self.old.cache }
    {
        self.ledger.reserve(n)
    }

    // Makes room for a block.
    pub(crate) fn reserve_block(&mut self) -> Result<(), AllocError>
        ensures ok { OnOk result (1 ≤ self.new.room) }
        ensures spare { self.new.spare ≡ self.old.spare }
        ensures setup { self.new.setup ≡ self.old.setup }
        ensures history { self.new.history ≡ self.old.history }
        ensures cache { self.new.cache ≡ self.old.cache }
    {
        self.store.reserve(1)
    }

    // Adds an entry that may follow and changes no block.
    pub(crate) fn add(&mut self, entry: Entry)
        requires amid { IsAmid self.old.setup self.old.history self.old.cache }
        requires spare { 1 ≤ self.old.spare }
        requires next { MayFollow self.old.setup self.old.history entry }
        requires quiet { is_quiet entry.event ≡ true }
        ensures amid { IsAmid self.new.setup self.new.history self.new.cache }
        ensures history { self.new.history ≡ entry ∷ self.old.history }
        ensures spare { self.new.spare + 1 ≡ self.old.spare }
        ensures setup { self.new.setup ≡ self.old.setup }
        ensures cache { self.new.cache ≡ self.old.cache }
    {
        permitted_histories_keep_laws();
        self.ledger.push(entry);
    }

    // The whole journal, and the store disk.
    pub(crate) fn close(self) -> (Journal, K)
        ensures journal { result.0 ≡ journal_of self.history }
        ensures history { history_of result.0 ≡ self.history }
        ensures files { K.files result.1 ≡ self.cache.files }
        ensures faults { K.faults result.1 ≡ self.cache.faults }
    {
        let Pool { ledger, store } = self;
        (ledger.close(), store.close())
    }
}

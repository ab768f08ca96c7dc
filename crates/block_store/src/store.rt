//! Blocks in memory and their copies on one disk.

ghost use Rattle.std.specs.Prelude.{◌≡◌, ◌≤◌, ◌<◌, ◌+◌, ◌-◌, ◌^◌, ◌++◌, ◌∷◌, [], ℕ, map, length, true, false, Option, Some, None, Ok, IsSome, is_some, IfOk, IfSome, IfNone, OnOk, vec_capacity};
ghost use Rattle.std.specs.Arc.{arc_value};
ghost use Rattle.std.specs.List.{find};
ghost use Rattle.eviction.specs.Victims.{is_evictable};
ghost use Rattle.fault_count.specs.Faults.{Rose};
ghost use Rattle.block_store.specs.Stores.{candidate_of, held_of, held_at, pins_at, level_at, rows_at, without, unpinned, AreApart};
ghost use Rattle.block_store.specs.Copies.{AreStored, has_copy, has_file, copy_rows, only_of};
ghost use Rattle.block_store.specs.StoredProp.{AreStored-prop};
ghost use Rattle.block_store.specs.Evictions.{WritesRows, BeginsAtMost, KeepsOthers, KeepsDatasets, file_at};

use crate::Block;
use crate::copy_list::CopyList;
use crate::copying::{forget_copies, read_copy, write_copy};
use crate::residents::Residents;
use eviction::Candidate;
use pool_ledger::{Fate, Level};
use spill_disk::Disk;
use std::alloc::{AllocError, Global};
use std::sync::Arc;

/// The blocks in memory, the least recently used first, with their pins, and the copies of evicted
/// ones, each in a file of its own on one disk. Contracts see the blocks, for how many more there
/// is room, the copies, and the disk.
#[derive(Drop)]
pub struct Store<K: Disk> {
    alloc: Global,
    memory: Residents,
    candidates: Vec<Candidate>,
    copies: CopyList,
    disk: K,
    ghost room: { length memory.blocks + memory.room ≤ copies.room },
    ghost listed: { length memory.blocks + memory.room ≤ vec_capacity candidates },
    ghost stored: { AreStored (K.files disk) (K.next_number disk) copies.list } by { AreStored-prop (K.files disk) (K.next_number disk) copies.list },
}

impl<K: Disk> Store<K> {
    ghost use Rattle.std.specs.Borrow.{sem};
    ghost use Rattle.block_store.specs.Seen.{blocks_of, room_of, copies_of, disk_of};
    ghost use Rattle.block_store.specs.Listing.{StaysAsItIs};

    /// No blocks and no copies, over this disk. It takes no memory.
    pub fn new(alloc: Global, disk: K) -> Store<K>
        ensures blocks { blocks_of result ≡ [] }
        ensures room { room_of result ≡ 0 }
        ensures copies { copies_of result ≡ [] }
        ensures disk { disk_of result ≡ disk }
    {
        Store {
            alloc,
            memory: Residents::new(alloc),
            candidates: Vec::new(alloc),
            copies: CopyList::new(alloc),
            disk,
        }
    }

    /// What a choice of victims sees of the blocks in memory, the least recently used first.
    /// It takes no memory: `reserve` has made room for them.
    pub fn list(&mut self) -> &[Candidate]
        ensures list { result.now ≡ map candidate_of (blocks_of self.old) }
        ensures apart { AreApart (blocks_of self.old) }
        ensures* same { sem 𝓛 (StaysAsItIs K.row K.Disk self.entry) }
    {
        self.memory.list_to(&mut self.candidates);
        &self.candidates
    }

    /// The first block that may go, the least recently used first: none that a pin keeps, and none of
    /// the excepted dataset. The walk ends there, and nothing is written down.
    pub fn first_that_may_go(&self, except: Option<u32>) -> Option<Candidate>
        ensures found { result
            ≡ find (is_evictable except) (map candidate_of (blocks_of self.now)) }
        ensures apart { AreApart (blocks_of self.now) }
    {
        self.memory.first_to_go(except)
    }

    /// Whether the block has a copy. On a disk that tells a copy has rows.
    pub fn has_copy(&self, dataset: u32, part: u32) -> bool
        ensures exact { result ≡ has_copy (copies_of self.now) dataset part }
        ensures rows { is_some (K.files (disk_of self.now)) ≡ true →
            is_some (copy_rows (K.files (disk_of self.now)) (copies_of self.now) dataset part)
            ≡ result }
    {
        self.copies.has(dataset, part)
    }

    /// For how many more blocks there is room.
    pub fn room(&self) -> u64
        ensures { result ≡ room_of self.now }
    {
        self.memory.room()
    }

    /// How many pins the block has, if it is in memory.
    pub fn pins(&self, dataset: u32, part: u32) -> Option<u64>
        ensures found { IfSome result (λ _. IsSome (held_at (blocks_of self.now) dataset part)) }
        ensures value { IfSome result (λ pins. pins ≡ pins_at (blocks_of self.now) dataset part) }
        ensures none { IfNone result (held_at (blocks_of self.now) dataset part ≡ None) }
    {
        self.memory.pins(dataset, part)
    }

    /// The block, if it is in memory, for one more owner. It isn't pinned by that. An `Err` is want
    /// of memory.
    pub fn lend(&self, dataset: u32, part: u32) -> Result<Option<Arc<Block, Global>>, AllocError>
        ensures found { IfOk result (λ got.
            is_some got ≡ is_some (held_at (blocks_of self.now) dataset part)) }
        ensures value { IfOk result (λ got. IfSome got (λ block.
            held_at (blocks_of self.now) dataset part
            ≡ Some (held_of (pins_at (blocks_of self.now) dataset part) (arc_value block)))) }
    {
        self.memory.lend(dataset, part)
    }

    /// Makes room for `n` more blocks, and for their copies. An `Err` is want of memory; some room
    /// may have been made then.
    pub fn reserve(&mut self, n: u64) -> Result<(), AllocError>
        ensures ok { OnOk result (n ≤ room_of self.new) }
        ensures keeps { room_of self.old ≤ room_of self.new }
        ensures blocks { blocks_of self.new ≡ blocks_of self.old }
        ensures copies { copies_of self.new ≡ copies_of self.old }
        ensures disk { disk_of self.new ≡ disk_of self.old }
    {
        let Some(needed) = self.memory.count().checked_add(n) else {
            return Err(AllocError);
        };
        self.copies.reserve(needed)?;
        self.candidates.clear();
        self.candidates.reserve(needed as usize)?;
        self.memory.reserve(n)
    }

    /// Puts a block in memory, without pins, behind the others. Its copy stays, if it has one.
    pub fn admit(&mut self, block: Arc<Block, Global>)
        requires room { 0 < room_of self.old }
        requires absent { held_at (blocks_of self.old)
            (arc_value block).dataset (arc_value block).part ≡ None }
        ensures blocks { blocks_of self.new
            ≡ blocks_of self.old ++ held_of 0 (arc_value block) ∷ [] }
        ensures room { room_of self.new + 1 ≡ room_of self.old }
        ensures copies { copies_of self.new ≡ copies_of self.old }
        ensures disk { disk_of self.new ≡ disk_of self.old }
    {
        self.memory.admit(block);
    }

    /// Pins a block in memory: it then is the last of the list. Several workers may pin one block.
    /// It takes no memory: whoever reads the block has it by `lend`.
    pub fn pin(&mut self, dataset: u32, part: u32)
        requires resident { IsSome (held_at (blocks_of self.old) dataset part) }
        requires few { pins_at (blocks_of self.old) dataset part < 2 ^ 64 - 1 }
        ensures last { IfSome (held_at (blocks_of self.old) dataset part) (λ held.
            blocks_of self.new ≡ without dataset part (blocks_of self.old)
            ++ record held { pins = held.pins + 1 } ∷ []) }
        ensures room { room_of self.new ≡ room_of self.old }
        ensures copies { copies_of self.new ≡ copies_of self.old }
        ensures disk { disk_of self.new ≡ disk_of self.old }
    {
        self.memory.pin(dataset, part);
    }

    /// Gives one pin of the block back.
    pub fn unpin(&mut self, dataset: u32, part: u32)
        requires { 0 < pins_at (blocks_of self.old) dataset part }
        ensures blocks { blocks_of self.new ≡ map (unpinned dataset part) (blocks_of self.old) }
        ensures room { room_of self.new ≡ room_of self.old }
        ensures copies { copies_of self.new ≡ copies_of self.old }
        ensures disk { disk_of self.new ≡ disk_of self.old }
    {
        self.memory.unpin(dataset, part);
    }

    /// Puts a block out of memory that no pin keeps, and says what became of it.
    ///
    /// One of level `Disk` without a copy is written, once. `NoMemory` is want of memory while it
    /// was written. Where it isn't written, a file that was begun is removed, if the disk does so.
    /// After Spark: `BlockManager.dropFromMemory`.
    pub fn evict_one(&mut self, dataset: u32, part: u32) -> Fate
        requires resident { IsSome (held_at (blocks_of self.old) dataset part) }
        requires unpinned { pins_at (blocks_of self.old) dataset part ≡ 0 }
        ensures blocks { blocks_of self.new ≡ without dataset part (blocks_of self.old) }
        ensures room { room_of self.new ≡ room_of self.old }

        // A block of level `Memory` is dropped.
        ensures memory { level_at (blocks_of self.old) dataset part ≡ Some Level.Memory →
            result ≡ Fate.Gone }
        ensures memory_copies { level_at (blocks_of self.old) dataset part ≡ Some Level.Memory →
            copies_of self.new ≡ copies_of self.old }
        ensures memory_disk { level_at (blocks_of self.old) dataset part ≡ Some Level.Memory →
            disk_of self.new ≡ disk_of self.old }

        // For a block that has a copy nothing is written.
        ensures copied { level_at (blocks_of self.old) dataset part ≡ Some Level.Disk →
            has_copy (copies_of self.old) dataset part ≡ true → result ≡ Fate.Disk }
        ensures copied_copies { has_copy (copies_of self.old) dataset part ≡ true →
            copies_of self.new ≡ copies_of self.old }
        ensures copied_disk { has_copy (copies_of self.old) dataset part ≡ true →
            disk_of self.new ≡ disk_of self.old }

        // One that has none is written, and then has the block's rows, or the disk failed.
        ensures written { result ≡ Fate.Disk → has_copy (copies_of self.old) dataset part ≡ false →
            WritesRows (K.files (disk_of self.old)) (K.files (disk_of self.new))
            (rows_at (blocks_of self.old) dataset part) }
        ensures rows { result ≡ Fate.Disk → has_copy (copies_of self.old) dataset part ≡ false →
            is_some (K.files (disk_of self.old)) ≡ true →
            copy_rows (K.files (disk_of self.new)) (copies_of self.new) dataset part
            ≡ rows_at (blocks_of self.old) dataset part }
        ensures copy { result ≡ Fate.Disk → has_copy (copies_of self.new) dataset part ≡ true }
        ensures gone { level_at (blocks_of self.old) dataset part ≡ Some Level.Disk →
            result ≡ Fate.Gone → Rose (K.faults (disk_of self.old)) (K.faults (disk_of self.new)) }
        ensures none { level_at (blocks_of self.old) dataset part ≡ Some Level.Disk →
            (result ≡ Fate.Disk → ⊥) → has_copy (copies_of self.new) dataset part ≡ false }
        ensures lost { (result ≡ Fate.Disk → ⊥) → copies_of self.new ≡ copies_of self.old }
        ensures begun { (result ≡ Fate.Disk → ⊥) →
            BeginsAtMost (K.files (disk_of self.old)) (K.files (disk_of self.new)) }

        // The copies of the others stay.
        ensures others { KeepsOthers dataset part
            (K.files (disk_of self.old)) (copies_of self.old)
            (K.files (disk_of self.new)) (copies_of self.new) }
        ensures tells { is_some (K.files (disk_of self.new))
            ≡ is_some (K.files (disk_of self.old)) }
        ensures later { K.faults (disk_of self.old) ≤ K.faults (disk_of self.new) }
    {
        let block = self.memory.take(dataset, part);
        if let Level::Memory = block.level {
            return Fate::Gone;
        }
        if self.copies.has(dataset, part) {
            return Fate::Disk;
        }
        write_copy(&mut self.disk, &mut self.copies, dataset, part, &block.page)
    }

    /// The block's copy, read back as a block of level `Disk`. `None` where there is none, where
    /// the disk failed, or where what a disk that tells nothing gave is no page. An `Err` is want
    /// of memory.
    pub fn copy_of(
        &mut self,
        dataset: u32,
        part: u32,
    ) -> Result<Option<Arc<Block, Global>>, AllocError>
        ensures none { has_copy (copies_of self.old) dataset part ≡ false → result ≡ Ok None }
        ensures rows { is_some (K.files (disk_of self.old)) ≡ true →
            IfOk result (λ read. IfSome read (λ block.
            copy_rows (K.files (disk_of self.old)) (copies_of self.old) dataset part
            ≡ Some (arc_value block).page.rows)) }
        ensures dataset { IfOk result (λ read. IfSome read (λ block.
            (arc_value block).dataset ≡ dataset)) }
        ensures part { IfOk result (λ read. IfSome read (λ block. (arc_value block).part ≡ part)) }
        ensures level { IfOk result (λ read. IfSome read (λ block.
            (arc_value block).level ≡ Level.Disk)) }
        ensures lost { has_copy (copies_of self.old) dataset part ≡ true →
            is_some (K.files (disk_of self.old)) ≡ true → IfOk result (λ read. IfNone read
            (Rose (K.faults (disk_of self.old)) (K.faults (disk_of self.new)))) }
        ensures blocks { blocks_of self.new ≡ blocks_of self.old }
        ensures room { room_of self.new ≡ room_of self.old }
        ensures copies { copies_of self.new ≡ copies_of self.old }
        ensures files { K.files (disk_of self.new) ≡ K.files (disk_of self.old) }
        ensures later { K.faults (disk_of self.old) ≤ K.faults (disk_of self.new) }
    {
        let Some(copy) = self.copies.find(dataset, part) else {
            return Ok(None);
        };
        read_copy(self.alloc, &mut self.disk, copy)
    }

    /// Takes a block out of memory that no pin keeps. Its copy stays, if it has one.
    pub fn remove(&mut self, dataset: u32, part: u32)
        requires resident { IsSome (held_at (blocks_of self.old) dataset part) }
        requires unpinned { pins_at (blocks_of self.old) dataset part ≡ 0 }
        ensures blocks { blocks_of self.new ≡ without dataset part (blocks_of self.old) }
        ensures room { room_of self.new ≡ room_of self.old }
        ensures copies { copies_of self.new ≡ copies_of self.old }
        ensures disk { disk_of self.new ≡ disk_of self.old }
    {
        let _removed = self.memory.take(dataset, part);
    }

    /// Forgets all copies of a dataset, and removes their files, if the disk does so: what it
    /// answers changes nothing.
    pub fn forget(&mut self, dataset: u32)
        ensures gone { (part : ℕ) → has_copy (copies_of self.new) dataset part ≡ false }
        ensures others { KeepsDatasets dataset
            (K.files (disk_of self.old)) (copies_of self.old)
            (K.files (disk_of self.new)) (copies_of self.new) }
        ensures files { (file : ℕ) → has_file (only_of dataset (copies_of self.old)) file ≡ false →
            file_at (K.files (disk_of self.new)) file ≡ file_at (K.files (disk_of self.old)) file }
        ensures blocks { blocks_of self.new ≡ blocks_of self.old }
        ensures room { room_of self.new ≡ room_of self.old }
        ensures tells { is_some (K.files (disk_of self.new))
            ≡ is_some (K.files (disk_of self.old)) }
        ensures later { K.faults (disk_of self.old) ≤ K.faults (disk_of self.new) }
    {
        forget_copies(&mut self.disk, &mut self.copies, dataset);
    }

    /// The disk.
    pub fn close(self) -> K
        ensures { result ≡ disk_of self }
    {
        self.disk
    }
}

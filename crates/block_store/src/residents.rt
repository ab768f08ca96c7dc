//! The blocks in memory.

ghost use Rattle.std.specs.Prelude.{◌≡◌, ◌≤◌, ◌<◌, ◌+◌, ◌-◌, ◌^◌, ◌++◌, ◌∷◌, [], map, max, Some, None, IsSome, IfOk, OnOk, IfSome, IfNone, is_some, length, vec_capacity};
ghost use Rattle.std.specs.Arc.{arc_value};
ghost use Rattle.std.specs.List.{find};
ghost use Rattle.eviction.specs.Victims.{is_evictable};
ghost use Rattle.block_store.specs.Stores.{candidate_of, held_of, held_at, pins_at, without, unpinned, AreApart};

use crate::Block;
use crate::resident::Resident;
use crate::slots::{
    Slots, add_slots, find, find_empty, first_to_go, list_blocks, set_pins, use_slot,
};
use eviction::Candidate;
use lru::LruCache;
use std::alloc::{AllocError, Global};
use std::marker::Model;
use std::sync::Arc;

/// The blocks in memory, the least recently used first. Contracts see them as a list, each with its
/// pins, and for how many more there is room.
#[derive(Drop)]
pub(crate) struct Residents {
    alloc: Global,
    slots: Option<Slots>,
    count: u64,
    room: u64,
}

impl Model for Residents {
    ghost use Rattle.block_store.specs.Slots.{MemoryView, AreSlots, slots_of, blocks_in};

    ghost Value = { MemoryView };

    ghost view = { λ it. record { blocks = blocks_in (slots_of it.slots); room = it.room } };

    ghost invariant = { λ it. AreSlots it.slots it.count it.room };
}

impl Residents {
    /// No blocks, and room for none. It takes no memory.
    pub(crate) fn new(alloc: Global) -> Residents
        ensures { result ≡ record { blocks = []; room = 0 } }
    {
        Residents {
            alloc,
            slots: None,
            count: 0,
            room: 0,
        }
    }

    /// Writes down what a choice of victims sees of the blocks, the least recently used first.
    pub(crate) fn list_to(&self, list: &mut Vec<Candidate>)
        requires { length self.now.blocks ≤ vec_capacity list.old }
        ensures list { list.new.items ≡ map candidate_of self.now.blocks }
        ensures apart { AreApart self.now.blocks }
        ensures capacity { vec_capacity list.old ≤ vec_capacity list.new }
    {
        match &self.slots {
            Some(slots) => list_blocks(list, slots),
            None => list.clear(),
        }
    }

    /// The first block that may go, as a choice of victims sees it.
    pub(crate) fn first_to_go(&self, except: Option<u32>) -> Option<Candidate>
        ensures found { result ≡ find (is_evictable except) (map candidate_of self.now.blocks) }
        ensures apart { AreApart self.now.blocks }
    {
        let slots = self.slots.as_ref()?;
        first_to_go(slots, except)
    }

    /// For how many more blocks there is room.
    pub(crate) fn room(&self) -> u64
        ensures { result ≡ self.now.room }
    {
        self.room
    }

    /// How many blocks are in memory.
    pub(crate) fn count(&self) -> u64
        ensures { result ≡ length self.now.blocks }
    {
        self.count
    }

    /// How many pins the block has, if it is in memory.
    pub(crate) fn pins(&self, dataset: u32, part: u32) -> Option<u64>
        ensures found { IfSome result (λ _. IsSome (held_at self.now.blocks dataset part)) }
        ensures value { IfSome result (λ pins. pins ≡ pins_at self.now.blocks dataset part) }
        ensures none { IfNone result (held_at self.now.blocks dataset part ≡ None) }
    {
        let Some(slots) = &self.slots else {
            return None;
        };
        let (_, resident) = find(slots, dataset, part)?;
        Some(resident.pins)
    }

    /// Makes room for `n` more blocks. After an `Err`, which is want of memory, all is as before.
    pub(crate) fn reserve(&mut self, n: u64) -> Result<(), AllocError>
        ensures ok { OnOk result (n ≤ self.new.room) }
        ensures keeps { self.old.room ≤ self.new.room }
        ensures least { self.new.room ≤ max self.old.room n }
        ensures same { self.new.blocks ≡ self.old.blocks }
    {
        if n <= self.room {
            return Ok(());
        }
        let Some(wanted) = self.count.checked_add(n) else {
            return Err(AllocError);
        };
        if self.slots.is_none() {
            self.slots = Some(LruCache::unbounded(self.alloc)?);
        }
        let Some(slots) = &mut self.slots else {
            unreachable!()
        };
        add_slots(slots, wanted)?;
        self.room = n;
        Ok(())
    }

    /// Puts a block in memory, without pins, behind the others.
    pub(crate) fn admit(&mut self, block: Arc<Block, Global>)
        requires room { 0 < self.old.room }
        requires absent { held_at self.old.blocks (arc_value block).dataset (arc_value block).part
            ≡ None }
        ensures blocks { self.new.blocks ≡ self.old.blocks ++ held_of 0 (arc_value block) ∷ [] }
        ensures room { self.new.room + 1 ≡ self.old.room }
    {
        let Some(slots) = &mut self.slots else {
            unreachable!()
        };
        let Some(number) = find_empty(slots) else {
            unreachable!()
        };
        let Some(empty) = slots.get_mut(&number) else {
            unreachable!()
        };
        *empty = Some(Resident { block, pins: 0 });
        self.count += 1;
        self.room -= 1;
    }

    /// The block, if it is in memory, for one more owner. An `Err` is want of memory.
    pub(crate) fn lend(
        &self,
        dataset: u32,
        part: u32,
    ) -> Result<Option<Arc<Block, Global>>, AllocError>
        ensures found { IfOk result (λ got.
            is_some got ≡ is_some (held_at self.now.blocks dataset part)) }
        ensures value { IfOk result (λ got. IfSome got (λ block.
            held_at self.now.blocks dataset part
            ≡ Some (held_of (pins_at self.now.blocks dataset part) (arc_value block)))) }
    {
        let Some(slots) = &self.slots else {
            return Ok(None);
        };
        let Some((_, resident)) = find(slots, dataset, part) else {
            return Ok(None);
        };
        let block = Arc::try_clone(&resident.block)?;
        Ok(Some(block))
    }

    /// Pins a block in memory, and makes it the last one.
    pub(crate) fn pin(&mut self, dataset: u32, part: u32)
        requires resident { IsSome (held_at self.old.blocks dataset part) }
        requires few { pins_at self.old.blocks dataset part < 2 ^ 64 - 1 }
        ensures last { IfSome (held_at self.old.blocks dataset part) (λ held.
            self.new.blocks ≡ without dataset part self.old.blocks
            ++ record held { pins = held.pins + 1 } ∷ []) }
        ensures room { self.new.room ≡ self.old.room }
        ensures count { length self.new.blocks ≡ length self.old.blocks }
    {
        let Some(slots) = &mut self.slots else {
            unreachable!()
        };
        let Some((number, resident)) = find(slots, dataset, part) else {
            unreachable!()
        };
        let pins = resident.pins + 1;
        use_slot(slots, number, pins);
    }

    /// Gives a pin of the block back. The block keeps its place.
    pub(crate) fn unpin(&mut self, dataset: u32, part: u32)
        requires { 0 < pins_at self.old.blocks dataset part }
        ensures blocks { self.new.blocks ≡ map (unpinned dataset part) self.old.blocks }
        ensures room { self.new.room ≡ self.old.room }
        ensures count { length self.new.blocks ≡ length self.old.blocks }
    {
        let Some(slots) = &mut self.slots else {
            unreachable!()
        };
        let Some((number, resident)) = find(slots, dataset, part) else {
            unreachable!()
        };
        let pins = resident.pins - 1;
        let Some(slot) = slots.peek_mut(&number) else {
            unreachable!()
        };
        set_pins(slot, pins);
    }

    /// Takes a block out of memory. Its slot is empty then, and keeps its place.
    pub(crate) fn take(&mut self, dataset: u32, part: u32) -> Arc<Block, Global>
        requires { IsSome (held_at self.old.blocks dataset part) }
        ensures value { held_at self.old.blocks dataset part
            ≡ Some (held_of (pins_at self.old.blocks dataset part) (arc_value result)) }
        ensures blocks { self.new.blocks ≡ without dataset part self.old.blocks }
        ensures room { self.new.room ≡ self.old.room }
        ensures count { length self.new.blocks + 1 ≡ length self.old.blocks }
    {
        let Some(slots) = &mut self.slots else {
            unreachable!()
        };
        let Some((number, _)) = find(slots, dataset, part) else {
            unreachable!()
        };
        let Some(emptied) = slots.peek_mut(&number) else {
            unreachable!()
        };
        let Some(Resident { block, .. }) = emptied.take() else {
            unreachable!()
        };
        self.count -= 1;
        block
    }
}

//! Numbered slots in use order, and walks over them.

ghost use Rattle.std.specs.Prelude.{◌≡◌, ◌≤◌, ◌<◌, ◌+◌, ◌-◌, ◌^◌, ◌++◌, ◌∷◌, [], map, Some, None, IfSome, IfNone, OnOk, OnErr, length, nat_eq, vec_len, vec_capacity};
ghost use Rattle.std.specs.List.{find};
ghost use Rattle.std.specs.Option.{option_map};
ghost use Rattle.std.specs.Map.{lookup, set_value};
ghost use Rattle.lru.specs.LruCache.{lru_cache, promoted};
ghost use Rattle.eviction.specs.Victims.{is_evictable};
ghost use Rattle.block_store.specs.Stores.{candidate_of, is_held, held_at};
ghost use Rattle.block_store.specs.Slots.{held_in, with_pins, blocks_in, AreBelow, HasBlock};

use crate::resident::Resident;
use eviction::Candidate;
use lru::LruCache;
use std::alloc::AllocError;

/// Numbered slots, the last used first. A slot has a block in memory, or is empty.
pub(crate) type Slots = LruCache<u64, Option<Resident>>;

/// The slot of a block, if it is in memory: its number, and what it has.
pub(crate) fn find(slots: &Slots, dataset: u32, part: u32) -> Option<(u64, &Resident)>
    ensures found { IfSome result (λ at. HasBlock dataset part at.0 at.1.now slots.now.entries) }
    ensures none { IfNone result (held_at (blocks_in slots.now.entries) dataset part ≡ None) }
{
    // No two slots have one number.
    let _count = slots.len();
    for (number, slot) in slots.iter() {
        match slot {
            Some(resident) if is_of(resident, dataset, part) => {
                return Some((*number, resident));
            }
            _ => {}
        }
    }
    None
}

/// Whether it is the block of this dataset and part.
fn is_of(resident: &Resident, dataset: u32, part: u32) -> bool
    ensures { result ≡ is_held dataset part (held_in resident.now) }
{
    let block = &*resident.block;
    block.dataset == dataset && block.part == part
}

/// The number of an empty slot, if there is one.
pub(crate) fn find_empty(slots: &Slots) -> Option<u64>
    ensures found { IfSome result (λ number. lookup (nat_eq number) slots.now.entries ≡ Some None) }
    ensures none { IfNone result
        (length slots.now.entries ≤ length (blocks_in slots.now.entries)) }
    ensures few { length slots.now.entries < 2 ^ 63 }
{
    // No two slots have one number.
    let _count = slots.len();
    for (number, slot) in slots.iter() {
        match slot {
            None => return Some(*number),
            Some(_) => {}
        }
    }
    None
}

/// Sets the pins of the block that a slot has, and makes the slot the last used.
pub(crate) fn use_slot(slots: &mut Slots, number: u64, pins: u64)
    ensures { IfSome (lookup (nat_eq number) slots.old.entries) (λ slot.
        slots.new ≡ lru_cache (set_value (nat_eq number)
        (promoted (nat_eq number) slots.old.entries)
        (option_map (with_pins pins) slot)) slots.old.cap) }
{
    if let Some(slot) = slots.get_mut(&number) {
        set_pins(slot, pins);
    }
}

/// Sets the pins of the block that a slot has.
pub(crate) fn set_pins(slot: &mut Option<Resident>, pins: u64)
    ensures { slot.new ≡ option_map (with_pins pins) slot.old }
{
    if let Some(resident) = slot {
        resident.pins = pins;
    }
}

/// Adds empty slots until there are so many. After an `Err`, which is want of memory, some were
/// added.
pub(crate) fn add_slots(slots: &mut Slots, wanted: u64) -> Result<(), AllocError>
    requires numbers { AreBelow (length slots.old.entries) slots.old.entries }
    requires unbounded { slots.old.cap ≡ 2 ^ 64 - 1 }
    ensures ok { OnOk result (wanted ≤ length slots.new.entries) }
    ensures longer { length slots.old.entries ≤ length slots.new.entries }
    ensures blocks { blocks_in slots.new.entries ≡ blocks_in slots.old.entries }
    ensures numbers { AreBelow (length slots.new.entries) slots.new.entries }
    ensures unbounded { slots.new.cap ≡ 2 ^ 64 - 1 }
{
    while (slots.len() as u64) < wanted {
        add_slot(slots)?;
    }
    Ok(())
}

/// Adds an empty slot. After an `Err`, which is want of memory, all is as before.
fn add_slot(slots: &mut Slots) -> Result<(), AllocError>
    requires numbers { AreBelow (length slots.old.entries) slots.old.entries }
    requires unbounded { slots.old.cap ≡ 2 ^ 64 - 1 }
    ensures ok { OnOk result
        (slots.new.entries ≡ (length slots.old.entries, None) ∷ slots.old.entries) }
    ensures err { OnErr result (slots.new.entries ≡ slots.old.entries) }
    ensures unbounded { slots.new.cap ≡ 2 ^ 64 - 1 }
{
    slots.put(slots.len() as u64, None)?;
    Ok(())
}

/// Writes down what a choice of victims sees of the blocks, the least recently used first.
pub(crate) fn list_blocks(list: &mut Vec<Candidate>, slots: &Slots)
    requires { length (blocks_in slots.now.entries) ≤ vec_capacity list.old }
    ensures list { list.new.items ≡ map candidate_of (blocks_in slots.now.entries) }
    ensures capacity { vec_capacity list.old ≤ vec_capacity list.new }
{
    list.clear();
    for (_, slot) in slots.iter().rev() {
        if let Some(resident) = slot {
            push(list, candidate_in(resident));
        }
    }
}

/// The first block that may go, in use order, as a choice of victims sees it.
pub(crate) fn first_to_go(slots: &Slots, except: Option<u32>) -> Option<Candidate>
    ensures { result ≡ find (is_evictable except) (map candidate_of (blocks_in slots.now.entries)) }
{
    let oldest_first = slots.iter().rev();
    for (_, slot) in oldest_first {
        if let Some(resident) = slot {
            let candidate = candidate_in(resident);
            if candidate.may_go(except) {
                return Some(candidate);
            }
        }
    }
    None
}

/// What a choice of victims sees of a block.
fn candidate_in(resident: &Resident) -> Candidate
    ensures { result ≡ candidate_of (held_in resident.now) }
{
    let block = &*resident.block;
    Candidate {
        dataset: block.dataset,
        part: block.part,
        size: block.size(),
        pinned: resident.pins > 0,
    }
}

/// Adds an item for which there is room.
fn push<T: Drop>(items: &mut Vec<T>, item: T)
    requires { vec_len items.old < vec_capacity items.old }
    ensures items { items.new.items ≡ items.old.items ++ item ∷ [] }
    ensures len { vec_len items.new ≡ vec_len items.old + 1 }
    ensures capacity { vec_capacity items.old ≤ vec_capacity items.new }
{
    let _ = items.push(item);
}

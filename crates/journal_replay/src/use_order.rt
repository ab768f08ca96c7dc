//! The blocks before the evictions that wait, in use order. Blocks of one dataset that stand next to each other
//! are a stretch, and a walk passes over a stretch in one step.

ghost use Rattle.std.specs.Prelude.{◌≡◌, ◌≤◌, ◌+◌, ◌<◌, ◌++◌, ◌∷◌, ℕ, [], false, None, IfOk, OnOk};
ghost use Rattle.std.specs.List.{list_any};
ghost use Rattle.std.specs.Option.{option_map_or};
ghost use Rattle.pool_ledger.specs.Blocks.{is_block, only, residents_after, sizes, without};
ghost use Rattle.journal_replay.specs.Tables.{IsNewBlock};
ghost use Rattle.journal_replay.specs.UseOrder.{block_by, is_start, resident_in, residents_in, AreKnown, AreStretches, IsInOrder};

use crate::block_name::BlockName;
use crate::blocks::Kept;
use crate::placed::{Placed, PlacedBlocks, first_from, last_before};
use pool_ledger::Event;
use std::alloc::{AllocError, Global};
use std::collections::{BTreeMap, BTreeSet, HashMap};

/// The blocks by the places of their last uses, the place of each block, and the places at which a stretch
/// begins.
#[derive(Drop)]
pub(crate) struct UseOrder {
    pub(crate) placed: PlacedBlocks,
    pub(crate) places: HashMap<BlockName, u64>,
    pub(crate) starts: BTreeSet<u64>,
}

/// No blocks.
pub(crate) fn no_order(alloc: Global) -> UseOrder
    ensures blocks { residents_in result.placed.entries ≡ [] }
    ensures in_order { IsInOrder result 0 }
{
    UseOrder {
        placed: BTreeMap::new(alloc),
        places: HashMap::new(alloc),
        starts: BTreeSet::new(alloc),
    }
}

/// Notes what the event at this place of the journal does to the blocks. An `Err` is want of memory.
pub(crate) fn note_order(order: &mut UseOrder, place: u64, event: Event) -> Result<(), AllocError>
    requires in_order { IsInOrder order.old place }
    requires free { IsNewBlock event (residents_in order.old.placed.entries) }
    ensures blocks { OnOk result
        (residents_in order.new.placed.entries ≡ residents_after event (residents_in order.old.placed.entries)) }
    ensures in_order { OnOk result (IsInOrder order.new (place + 1)) }
{
    match event {
        Event::Admit {
            dataset,
            part,
            size,
            level,
            ..
        } => put_last(
            order,
            place,
            Placed {
                name: BlockName { dataset, part },
                kept: Kept { size, level },
            },
        ),
        Event::Evict { dataset, part, .. } => drop_block(order, dataset, part),
        Event::Remove { dataset, part, .. } => drop_block(order, dataset, part),
        Event::Pin {
            dataset,
            part,
            copy: false,
        } => move_last(order, place, dataset, part),
        _ => Ok(()),
    }
}

/// The bytes of the block; 0 where it isn't there.
pub(crate) fn bytes_of_block(order: &UseOrder, dataset: u32, part: u32) -> u64
    requires known { AreKnown order.now.placed order.now.places }
    ensures { result ≡ sizes (only dataset part (residents_in order.now.placed.entries)) }
{
    // For the proof: no place stands twice.
    let _count = order.placed.len();
    let Some(place) = order.places.get(&BlockName { dataset, part }) else {
        return 0;
    };
    match order.placed.get(place) {
        Some(placed) => placed.kept.size,
        None => 0,
    }
}

// Puts a block at this place, behind the others.
fn put_last(order: &mut UseOrder, place: u64, placed: Placed) -> Result<(), AllocError>
    requires in_order { IsInOrder order.old place }
    requires absent { list_any (is_block placed.name.dataset placed.name.part)
        (residents_in order.old.placed.entries) ≡ false }
    ensures blocks { OnOk result
        (residents_in order.new.placed.entries ≡ residents_in order.old.placed.entries ++ resident_in placed ∷ []) }
    ensures in_order { OnOk result (IsInOrder order.new (place + 1)) }
{
    // For the proof: no place stands twice.
    let _count = order.placed.len();
    begin_stretch(&order.placed, &mut order.starts, place, placed.name.dataset)?;
    order.placed.insert(place, placed)?;
    order.places.insert(placed.name, place)?;
    Ok(())
}

// Begins a stretch at this place, unless the last block is of this dataset.
fn begin_stretch(
    blocks: &PlacedBlocks,
    starts: &mut BTreeSet<u64>,
    place: u64,
    dataset: u32,
) -> Result<(), AllocError>
    requires stretches { AreStretches blocks.now starts.old }
    requires behind { (p : ℕ) (a : Placed) → block_by blocks.now p ≡ Some a → p < place }
    ensures kept { OnOk result ((start : ℕ) → is_start starts.new start ≡ false → is_start starts.old start ≡ false) }
    ensures last { OnOk result (is_start starts.new place ≡ false
        → (p : ℕ) (a : Placed) → block_by blocks.now p ≡ Some a
        → ((start : ℕ) → p < start → start ≤ place → is_start starts.old start ≡ false) → a.name.dataset ≡ dataset) }
{
    if let Some((_low, last)) = last_before(blocks, place) {
        if last.name.dataset != dataset {
            starts.insert(place)?;
        }
    }
    Ok(())
}

// Takes a block out, and the place that is kept of it.
fn take_out(order: &mut UseOrder, dataset: u32, part: u32) -> Result<Option<Placed>, AllocError>
    requires known { AreKnown order.old.placed order.old.places }
    requires stretches { AreStretches order.old.placed order.old.starts }
    ensures blocks { OnOk result
        (residents_in order.new.placed.entries ≡ without dataset part (residents_in order.old.placed.entries)) }
    ensures taken { IfOk result (λ taken. only dataset part (residents_in order.old.placed.entries)
        ≡ option_map_or (λ placed. resident_in placed ∷ []) taken []) }
    ensures in_order { OnOk result ((place : ℕ) → IsInOrder order.old place → IsInOrder order.new place) }
{
    // For the proof: no place stands twice.
    let _count = order.placed.len();
    let Some(place) = order.places.remove(&BlockName { dataset, part }) else {
        return Ok(None);
    };
    let taken = order.placed.remove(&place);
    mend(&order.placed, &mut order.starts, place)?;
    Ok(taken)
}

// Takes away the start at a place at which no block stands any more, and has one behind it where the blocks on
// its two sides are of two datasets.
fn mend(blocks: &PlacedBlocks, starts: &mut BTreeSet<u64>, place: u64) -> Result<(), AllocError>
    requires gone { block_by blocks.now place ≡ None }
    requires stretches { AreStretches blocks.now starts.old }
    ensures stretches { OnOk result (AreStretches blocks.now starts.new) }
{
    if let Some((_low, before)) = last_before(blocks, place) {
        if let Some((next, behind)) = first_from(blocks, place) {
            if before.name.dataset == behind.name.dataset {
                starts.remove(&next);
            } else {
                starts.insert(next)?;
            }
        }
    }
    starts.remove(&place);
    Ok(())
}

// Takes a block out for good.
fn drop_block(order: &mut UseOrder, dataset: u32, part: u32) -> Result<(), AllocError>
    requires known { AreKnown order.old.placed order.old.places }
    requires stretches { AreStretches order.old.placed order.old.starts }
    ensures blocks { OnOk result
        (residents_in order.new.placed.entries ≡ without dataset part (residents_in order.old.placed.entries)) }
    ensures in_order { OnOk result ((place : ℕ) → IsInOrder order.old place → IsInOrder order.new (place + 1)) }
{
    take_out(order, dataset, part)?;
    Ok(())
}

// Makes a block the last one, at this place.
fn move_last(order: &mut UseOrder, place: u64, dataset: u32, part: u32) -> Result<(), AllocError>
    requires in_order { IsInOrder order.old place }
    ensures blocks { OnOk result
        (residents_in order.new.placed.entries ≡ without dataset part (residents_in order.old.placed.entries)
        ++ only dataset part (residents_in order.old.placed.entries)) }
    ensures in_order { OnOk result (IsInOrder order.new (place + 1)) }
{
    match take_out(order, dataset, part)? {
        Some(placed) => put_last(order, place, placed),
        None => Ok(()),
    }
}

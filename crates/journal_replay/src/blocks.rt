//! The blocks in memory, in use order.

ghost use Rattle.std.specs.Prelude.{◌≡◌, ◌++◌, ◌∷◌, [], ◌^◌, ◌-◌, false, OnOk};
ghost use Rattle.std.specs.List.{find, list_any};
ghost use Rattle.std.specs.Option.{option_map};
ghost use Rattle.pool_ledger.specs.Blocks.{is_block, only, residents_after, without};
ghost use Rattle.journal_replay.specs.Tables.{block_of, blocks_in, candidate_in, resident_of, IsNewBlock};

use crate::block_name::BlockName;
use crate::pins::{Pins, is_pinned};
use eviction::Candidate;
use lru::LruCache;
use pool_ledger::{Event, Level};
use std::alloc::AllocError;

/// The blocks by their names, the last used first.
pub(crate) type Blocks = LruCache<BlockName, Kept>;

/// What is kept of a block: its bytes, and where it goes when it is evicted.
#[derive(Clone, Copy, Debug, PartialEq, Eq)]
pub(crate) struct Kept {
    pub(crate) size: u64,
    pub(crate) level: Level,
}

/// The block, if it is in memory.
pub(crate) fn block_at(blocks: &Blocks, dataset: u32, part: u32) -> Option<Kept>
    ensures { option_map (resident_of dataset part) result
        ≡ find (is_block dataset part) (blocks_in blocks.now.entries) }
{
    // For the proof: no two blocks have one name.
    let _count = blocks.len();
    blocks.peek(&BlockName { dataset, part }).copied()
}

/// Whether the block is in memory.
pub(crate) fn has_block(blocks: &Blocks, dataset: u32, part: u32) -> bool
    ensures { result ≡ list_any (is_block dataset part) (blocks_in blocks.now.entries) }
{
    blocks.contains(&BlockName { dataset, part })
}

/// Notes what an event does to the blocks in memory. An `Err` is want of memory.
pub(crate) fn note_use(blocks: &mut Blocks, event: Event) -> Result<(), AllocError>
    requires free { IsNewBlock event (blocks_in blocks.old.entries) }
    requires unbounded { blocks.old.cap ≡ 2 ^ 64 - 1 }
    ensures ok { OnOk result
        (blocks_in blocks.new.entries ≡ residents_after event (blocks_in blocks.old.entries)) }
    ensures unbounded { blocks.new.cap ≡ 2 ^ 64 - 1 }
{
    match event {
        Event::Admit {
            dataset,
            part,
            size,
            level,
            ..
        } => add_block(blocks, BlockName { dataset, part }, Kept { size, level })?,
        Event::Evict { dataset, part, .. } => take_block(blocks, dataset, part),
        Event::Remove { dataset, part, .. } => take_block(blocks, dataset, part),
        Event::Pin {
            dataset,
            part,
            copy: false,
        } => use_block(blocks, dataset, part),
        _ => {}
    }
    Ok(())
}

// Puts a block behind the others.
fn add_block(blocks: &mut Blocks, name: BlockName, kept: Kept) -> Result<(), AllocError>
    requires absent { list_any (is_block name.dataset name.part) (blocks_in blocks.old.entries) ≡ false }
    requires unbounded { blocks.old.cap ≡ 2 ^ 64 - 1 }
    ensures ok { OnOk result
        (blocks_in blocks.new.entries ≡ blocks_in blocks.old.entries ++ block_of (name, kept) ∷ []) }
    ensures unbounded { blocks.new.cap ≡ 2 ^ 64 - 1 }
{
    // For the proof: there is always room.
    let _count = blocks.len();
    blocks.put(name, kept)?;
    Ok(())
}

// Takes a block out.
fn take_block(blocks: &mut Blocks, dataset: u32, part: u32)
    ensures blocks { blocks_in blocks.new.entries ≡ without dataset part (blocks_in blocks.old.entries) }
    ensures unbounded { blocks.new.cap ≡ blocks.old.cap }
{
    let _count = blocks.len();
    let _ = blocks.pop(&BlockName { dataset, part });
}

// Makes a block the last one.
fn use_block(blocks: &mut Blocks, dataset: u32, part: u32)
    ensures blocks { blocks_in blocks.new.entries
        ≡ without dataset part (blocks_in blocks.old.entries) ++ only dataset part (blocks_in blocks.old.entries) }
    ensures unbounded { blocks.new.cap ≡ blocks.old.cap }
{
    let _count = blocks.len();
    let _ = blocks.promote(&BlockName { dataset, part });
}

/// A block as a choice of victims sees it.
pub(crate) fn candidate_of(name: BlockName, kept: Kept, pins: &Pins) -> Candidate
    ensures { result ≡ candidate_in pins.now (block_of (name, kept)) }
{
    Candidate {
        dataset: name.dataset,
        part: name.part,
        size: kept.size,
        pinned: is_pinned(pins, name.dataset, name.part),
    }
}

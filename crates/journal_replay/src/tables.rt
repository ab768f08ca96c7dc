//! What is kept of blocks and tasks.

ghost use Rattle.std.specs.Prelude.{◌≡◌, ◌≤◌, ◌<◌, ◌^◌, ◌-◌, ◌∷◌, IfOk, OnOk, []};
ghost use Rattle.pool_ledger.specs.Sizes.{Sizes};
ghost use Rattle.pool_ledger.specs.History.{History};
ghost use Rattle.pool_ledger.specs.Legal.{MayFollow};
ghost use Rattle.journal_replay.specs.Tables.{blocks_in, IsNewBlock};
ghost use Rattle.journal_replay.specs.Replays.{TellsTables};

use crate::block_name::BlockName;
use crate::blocks::{Blocks, note_use};
use crate::copies::note_copy;
use crate::pins::{Pins, note_pin};
use crate::tasks::note_begin;
use lru::LruCache;
use pool_ledger::Entry;
use std::alloc::{AllocError, Global};
use std::collections::HashSet;

/// The blocks in memory, the pins by worker, the tasks that were begun, and the copies that evictions left.
#[derive(Drop)]
pub(crate) struct Tables {
    pub(crate) blocks: Blocks,
    pub(crate) pins: Pins,
    pub(crate) begun: HashSet<u32>,
    pub(crate) copies: HashSet<BlockName>,
}

/// Tables of no history. An `Err` is want of memory.
pub(crate) fn empty_tables(alloc: Global) -> Result<Tables, AllocError>
    ensures { IfOk result (λ tables. TellsTables tables []) }
{
    Ok(Tables {
        blocks: LruCache::unbounded(alloc)?,
        pins: [None; 16],
        begun: HashSet::new(alloc),
        copies: HashSet::new(alloc),
    })
}

/// Notes an entry that may follow. After an `Err`, which is want of memory, the tables are only dropped.
pub(crate) fn note(tables: &mut Tables, entry: Entry) -> Result<(), AllocError>
    requires worker { entry.worker < 16 }
    requires free { IsNewBlock entry.event (blocks_in tables.old.blocks.entries) }
    requires unbounded { tables.old.blocks.cap ≡ 2 ^ 64 - 1 }
    ensures ok { OnOk result ((setup : Sizes) (history : History)
        → MayFollow setup history entry → TellsTables tables.old history → TellsTables tables.new (entry ∷ history)) }
{
    note_begin(&mut tables.begun, entry.event)?;
    note_copy(&mut tables.copies, entry.event)?;
    note_use(&mut tables.blocks, entry.event)?;
    note_pin(&mut tables.pins, entry.worker, entry.event);
    Ok(())
}

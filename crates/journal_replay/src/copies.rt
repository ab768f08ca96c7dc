//! The copies that evictions left.

ghost use Rattle.std.specs.Prelude.{◌≡◌, ℕ, ◌∷◌, OnOk};
ghost use Rattle.pool_ledger.specs.History.{History};
ghost use Rattle.pool_laws.specs.Growing.{entry_by};
ghost use Rattle.journal_replay.specs.Tables.{TellsCopies, has_copy};

use crate::block_name::BlockName;
use pool_ledger::{Event, Fate};
use std::alloc::AllocError;
use std::collections::HashSet;

/// Whether an earlier eviction of the block left a copy.
pub(crate) fn has_copy(copies: &HashSet<BlockName>, dataset: u32, part: u32) -> bool
    ensures { result ≡ has_copy copies.now dataset part }
{
    copies.contains(&BlockName { dataset, part })
}

/// Notes the copy that an event leaves. An `Err` is want of memory.
pub(crate) fn note_copy(copies: &mut HashSet<BlockName>, event: Event) -> Result<(), AllocError>
    ensures ok { OnOk result ((history : History) (worker : ℕ)
        → TellsCopies copies.old history → TellsCopies copies.new (entry_by worker event ∷ history)) }
{
    if let Event::Evict {
        dataset,
        part,
        fate: Fate::Disk,
        ..
    } = event
    {
        copies.insert(BlockName { dataset, part })?;
    }
    Ok(())
}

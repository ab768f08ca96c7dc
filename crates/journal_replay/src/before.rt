//! The blocks before the evictions that wait, in use order, and the bytes of each dataset's.

ghost use Rattle.std.specs.Prelude.{◌≡◌, ◌==◌, ℕ, [], if◌then◌else◌, OnOk};
ghost use Rattle.journal_replay.specs.Replays.{TellsBefore};
ghost use Rattle.journal_replay.specs.Tables.{bytes_after, bytes_at, IsSmall};

use crate::use_order::{UseOrder, no_order};
use pool_ledger::Event;
use std::alloc::{AllocError, Global};
use std::collections::HashMap;

/// The bytes of each dataset's blocks. A dataset that isn't there has none.
pub(crate) type Bytes = HashMap<u32, u64>;

/// The blocks, and their bytes by dataset.
#[derive(Drop)]
pub(crate) struct Before {
    pub(crate) order: UseOrder,
    pub(crate) bytes: Bytes,
}

/// No blocks.
pub(crate) fn none_before(alloc: Global) -> Before
    ensures { TellsBefore result [] }
{
    Before {
        order: no_order(alloc),
        bytes: HashMap::new(alloc),
    }
}

/// The bytes of the dataset's blocks.
pub(crate) fn bytes_at(bytes: &Bytes, dataset: u32) -> u64
    ensures { result ≡ bytes_at bytes.now dataset }
{
    match bytes.get(&dataset) {
        Some(sum) => *sum,
        None => 0,
    }
}

/// Notes what an event does to the bytes. An `Err` is want of memory.
pub(crate) fn note_bytes(bytes: &mut Bytes, event: Event) -> Result<(), AllocError>
    requires small { IsSmall event bytes.old }
    ensures ok { OnOk result ((dataset : ℕ)
        → bytes_at bytes.new dataset ≡ bytes_after event dataset (bytes_at bytes.old dataset)) }
{
    match event {
        Event::Admit { dataset, size, .. } => {
            let sum = bytes_at(bytes, dataset) + size;
            set_bytes(bytes, dataset, sum)
        }
        Event::Evict { dataset, size, .. } => {
            let sum = bytes_at(bytes, dataset).saturating_sub(size);
            set_bytes(bytes, dataset, sum)
        }
        Event::Remove { dataset, size, .. } => {
            let sum = bytes_at(bytes, dataset).saturating_sub(size);
            set_bytes(bytes, dataset, sum)
        }
        _ => Ok(()),
    }
}

// Sets the bytes of one dataset.
fn set_bytes(bytes: &mut Bytes, dataset: u32, sum: u64) -> Result<(), AllocError>
    ensures ok { OnOk result ((other : ℕ)
        → bytes_at bytes.new other ≡ (if dataset == other then sum else bytes_at bytes.old other)) }
{
    bytes.insert(dataset, sum)?;
    Ok(())
}

//! The bytes of the blocks that may go, of those before the evictions that wait.

ghost use Rattle.std.specs.Prelude.{◌≡◌, ◌+◌, ◌<◌, [], take};
ghost use Rattle.journal_replay.specs.Replays.{seen, TellsTurns};
ghost use Rattle.journal_replay.specs.UseOrder.{evictable_bytes, AreKnown};

use crate::before::bytes_at;
use crate::fronts::is_excepted;
use crate::pins::{Pins, is_pinned_by_first};
use crate::turns::Turns;
use crate::use_order::{UseOrder, bytes_of_block};

/// The bytes of the blocks that may go: those of other datasets than the excepted one, but for what pins keep.
/// It looks at the pins, and at no other block.
pub(crate) fn evictable_bytes(turns: &Turns, pins: &Pins, except: Option<u32>) -> u64
    requires { TellsTurns turns.now (seen turns.now) }
    ensures { result ≡ evictable_bytes except pins.now turns.now.before.order.placed.entries }
{
    let mut bytes = bytes_beside(turns, except);
    for worker in 0..16 {
        bytes -= bytes_kept(&turns.before.order, pins, worker, except);
    }
    bytes
}

// The bytes of all blocks but those of the excepted dataset.
fn bytes_beside(turns: &Turns, except: Option<u32>) -> u64
    requires { TellsTurns turns.now (seen turns.now) }
    ensures { result ≡ evictable_bytes except [] turns.now.before.order.placed.entries }
{
    match except {
        Some(dataset) => turns
            .ledger
            .stored()
            .saturating_sub(bytes_at(&turns.before.bytes, dataset)),
        None => turns.ledger.stored(),
    }
}

// The bytes that a worker's pin keeps beyond what the pins of the workers before it keep.
fn bytes_kept(order: &UseOrder, pins: &Pins, worker: usize, except: Option<u32>) -> u64
    requires known { AreKnown order.now.placed order.now.places }
    requires one { worker < 16 }
    ensures { evictable_bytes except (take worker pins.now) order.now.placed.entries
        ≡ evictable_bytes except (take (worker + 1) pins.now) order.now.placed.entries + result }
{
    let Some(name) = pins[worker] else {
        return 0;
    };
    if is_excepted(name.dataset, except) {
        return 0;
    }
    if is_pinned_by_first(pins, worker, name.dataset, name.part) {
        return 0;
    }
    bytes_of_block(order, name.dataset, name.part)
}

//! The blocks that the rules choose, and the evictions that wait beside them.

ghost use Rattle.std.specs.Prelude.{◌≡◌, ◌≤◌, List, [], length, take, unwrap_or};
ghost use Rattle.pool_ledger.specs.Blocks.{Resident, evictable, sizes, stored, victims};
ghost use Rattle.journal_audit.specs.Rules.{goes};
ghost use Rattle.journal_replay.specs.Replays.{history_of, seen, IsReplay, TellsTurns};
ghost use Rattle.journal_replay.specs.UseOrder.{HasRoom};

use crate::evictable::evictable_bytes;
use crate::fronts::{Freed, front_of, go_first};
use crate::replay::Replay;
use crate::turns::{Turns, ledger_keeps_laws, next_place};

/// The blocks that go so that this need is met, of those before the evictions that wait; none where all that
/// may go don't reach it.
pub(crate) fn freed_by(replay: &Replay, need: u64, except: Option<u32>) -> Freed
    requires tells { IsReplay replay.now }
    requires some_need { 1 ≤ need }
    ensures count { result.count ≡ length (unwrap_or (victims replay.now.turns.ledger.history need except) []) }
    ensures bytes { result.bytes ≡ sizes (unwrap_or (victims replay.now.turns.ledger.history need except) []) }
    ensures first { take result.count (evictable replay.now.turns.ledger.history except)
        ≡ unwrap_or (victims replay.now.turns.ledger.history need except) [] }
    ensures few { result.count ≤ length (evictable replay.now.turns.ledger.history except) }
    ensures stored { result.bytes ≤ stored replay.now.turns.ledger.history }
{
    ledger_keeps_laws(&replay.turns.ledger);
    order_has_room(&replay.turns);
    // Where all that may go don't reach the need, none of them is looked at.
    if evictable_bytes(&replay.turns, &replay.tables.pins, except) < need {
        return Freed { count: 0, bytes: 0 };
    }
    match front_of(
        &replay.turns.before.order,
        &replay.tables.pins,
        need,
        except,
    ) {
        Some(freed) => freed,
        None => Freed { count: 0, bytes: 0 },
    }
}

// Behind the place of each block there is another number. It does nothing when run.
fn order_has_room(turns: &Turns)
    requires { TellsTurns turns.now (seen turns.now) }
    ensures { HasRoom turns.now.before.order.placed }
{
    let _place = next_place(&turns.ledger);
}

/// Whether the evictions that wait are of so many blocks, the first of those before them that may go, in
/// order, and this number is told.
pub(crate) fn have_gone(replay: &Replay, except: Option<u32>, count: u64, told: u64) -> bool
    requires tells { IsReplay replay.now }
    requires few { count ≤ length (evictable replay.now.turns.ledger.history except) }
    ensures { (blocks : List Resident) → take count (evictable replay.now.turns.ledger.history except) ≡ blocks
        → result ≡ goes (history_of replay.now) blocks told }
{
    order_has_room(&replay.turns);
    let waiting = &replay.turns.waiting;
    if waiting.len() as u64 != count {
        return false;
    }
    if told != count {
        return false;
    }
    go_first(
        waiting,
        &replay.turns.before.order,
        &replay.tables.pins,
        except,
    )
}

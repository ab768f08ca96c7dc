//! A journal replayed: its entries so far, and what the rules ask of them.

ghost use Rattle.std.specs.Prelude.{◌≡◌, ◌∷◌, [], IfOk, OnOk};
ghost use Rattle.pool_ledger.specs.Legal.{MayFollow};
ghost use Rattle.journal_replay.specs.Replays.{history_of, setup_of, IsReplay, TellsHistory};

use crate::tables::{Tables, empty_tables, note};
use crate::turns::{Turns, add_turn, no_turns};
use pool_ledger::{Entry, Setup};
use std::alloc::{AllocError, Global};

/// The entries so far with the tables over them.
#[derive(Drop)]
pub(crate) struct Replay {
    pub(crate) turns: Turns,
    pub(crate) tables: Tables,
}

/// A replay of no entries. An `Err` is want of memory.
pub(crate) fn start(alloc: Global, setup: Setup) -> Result<Replay, AllocError>
    ensures setup { IfOk result (λ replay. setup_of replay ≡ setup) }
    ensures tells { IfOk result (λ replay. TellsHistory replay []) }
{
    Ok(Replay {
        turns: no_turns(alloc, setup)?,
        tables: empty_tables(alloc)?,
    })
}

/// Adds an entry that may follow. After an `Err`, which is want of memory, the replay is only dropped.
pub(crate) fn add(replay: &mut Replay, entry: Entry) -> Result<(), AllocError>
    requires tells { IsReplay replay.old }
    requires next { MayFollow (setup_of replay.old) (history_of replay.old) entry }
    ensures ok { OnOk result (TellsHistory replay.new (entry ∷ history_of replay.old)) }
    ensures setup { OnOk result (setup_of replay.new ≡ setup_of replay.old) }
{
    // For the proof: no more than 16 workers.
    let _workers = replay.turns.ledger.setup().workers();
    note(&mut replay.tables, entry)?;
    add_turn(&mut replay.turns, entry)?;
    Ok(())
}

//! The entries so far: those that are settled, and the evictions that wait for what they are for.

ghost use Rattle.std.specs.Prelude.{◌≡◌, ◌≤◌, ◌^◌, ◌∷◌, ◌++◌, [], true, false, IfOk, OnOk, length, reverse};
ghost use Rattle.pool_ledger.specs.History.{held, maximum, open_task};
ghost use Rattle.pool_ledger.specs.Legal.{is_eviction, IsPermitted, MayFollow};
ghost use Rattle.pool_ledger.specs.Sizes.{IsInRange};
ghost use Rattle.pool_laws.specs.Laws.{KeepsLaws};
ghost use Rattle.journal_replay.specs.Replays.{seen, TellsBefore, TellsTurns};

use crate::before::{Before, none_before, note_bytes};
use crate::use_order::note_order;
use pool_laws::{permitted_histories_keep_laws, sums_stay_small};
use pool_ledger::{Entry, Event, Ledger, Setup};
use std::alloc::{AllocError, Global};

/// The ledger of the settled entries, the blocks in memory after them, the evictions that wait, the oldest
/// first, and whose they are.
#[derive(Drop)]
pub(crate) struct Turns {
    pub(crate) ledger: Ledger,
    pub(crate) before: Before,
    pub(crate) waiting: Vec<Entry>,
    pub(crate) waits: Option<u32>,
}

/// No entries yet. An `Err` is want of memory.
pub(crate) fn no_turns(alloc: Global, setup: Setup) -> Result<Turns, AllocError>
    ensures setup { IfOk result (λ turns. turns.ledger.setup ≡ setup) }
    ensures none { IfOk result (λ turns. seen turns ≡ []) }
    ensures tells { IfOk result (λ turns. TellsTurns turns []) }
{
    Ok(Turns {
        ledger: Ledger::new(alloc, setup),
        before: none_before(alloc),
        waiting: Vec::new(alloc),
        waits: None,
    })
}

/// The worker's open task.
pub(crate) fn open_task(turns: &Turns, worker: u32) -> Option<u32>
    requires { TellsTurns turns.now (seen turns.now) }
    ensures { result ≡ open_task (seen turns.now) worker }
{
    turns.ledger.open_task(worker)
}

/// The bytes that the task holds.
pub(crate) fn held(turns: &Turns, task: u32) -> u64
    requires { TellsTurns turns.now (seen turns.now) }
    ensures { result ≡ held (seen turns.now) task }
{
    turns.ledger.held(task)
}

/// The bytes of both pools together.
pub(crate) fn max(turns: &Turns) -> u64
    requires { TellsTurns turns.now (seen turns.now) }
    ensures max { result ≡ maximum turns.now.ledger.setup (seen turns.now) }
    ensures small { result ≤ 2 ^ 41 }
{
    ledger_keeps_laws(&turns.ledger);
    turns.ledger.max()
}

/// The laws of a ledger's history, the range of its sizes, and the most that both pools together ever have. It does
/// nothing when run.
pub(crate) fn ledger_keeps_laws(ledger: &Ledger)
    requires { IsPermitted ledger.now.setup ledger.now.history }
    ensures laws { KeepsLaws ledger.now.setup ledger.now.history }
    ensures range { IsInRange ledger.now.setup.maximum ledger.now.setup.region ledger.now.setup.workers }
    ensures small { maximum ledger.now.setup ledger.now.history ≤ 2 ^ 41 }
{
    permitted_histories_keep_laws();
    sums_stay_small();
    let _range = ledger.setup().max();
}

/// The place of the next entry in the journal, from 0.
pub(crate) fn next_place(ledger: &Ledger) -> u64
    ensures { result ≡ length ledger.now.history }
{
    ledger.entries().len() as u64
}

/// Adds an entry that may follow. After an `Err`, which is want of memory, the turns are only dropped.
pub(crate) fn add_turn(turns: &mut Turns, entry: Entry) -> Result<(), AllocError>
    requires tells { TellsTurns turns.old (seen turns.old) }
    requires next { MayFollow turns.old.ledger.setup (seen turns.old) entry }
    ensures ok { OnOk result (TellsTurns turns.new (entry ∷ seen turns.old)) }
    ensures setup { OnOk result (turns.new.ledger.setup ≡ turns.old.ledger.setup) }
{
    if is_eviction(entry.event) {
        turns.waiting.push(entry)?;
        turns.waits = Some(entry.worker);
        return Ok(());
    }
    settle(&mut turns.ledger, &mut turns.before, &turns.waiting, entry)?;
    turns.waiting.clear();
    turns.waits = None;
    Ok(())
}

// Whether an event is an eviction.
fn is_eviction(event: Event) -> bool
    ensures { result ≡ is_eviction event }
{
    match event {
        Event::Evict { .. } => true,
        _ => false,
    }
}

// Adds the evictions and what they are for to the ledger, and notes what they do to the blocks.
fn settle(
    ledger: &mut Ledger,
    before: &mut Before,
    waiting: &[Entry],
    entry: Entry,
) -> Result<(), AllocError>
    requires permitted { IsPermitted ledger.old.setup (entry ∷ (reverse waiting.now ++ ledger.old.history)) }
    requires blocks { TellsBefore before.old ledger.old.history }
    ensures ok { OnOk result (ledger.new.history ≡ entry ∷ (reverse waiting.now ++ ledger.old.history)) }
    ensures blocks { OnOk result (TellsBefore before.new ledger.new.history) }
    ensures setup { ledger.new.setup ≡ ledger.old.setup }
{
    for eviction in waiting {
        settle_one(ledger, before, *eviction)?;
    }
    settle_one(ledger, before, entry)
}

// Adds one entry that may follow to the ledger, and notes what it does to the blocks.
fn settle_one(ledger: &mut Ledger, before: &mut Before, entry: Entry) -> Result<(), AllocError>
    requires permitted { IsPermitted ledger.old.setup (entry ∷ ledger.old.history) }
    requires blocks { TellsBefore before.old ledger.old.history }
    ensures ok { OnOk result (ledger.new.history ≡ entry ∷ ledger.old.history) }
    ensures blocks { OnOk result (TellsBefore before.new ledger.new.history) }
    ensures setup { ledger.new.setup ≡ ledger.old.setup }
{
    // For the proof: what may follow can be recorded, where the region is at most the whole.
    permitted_histories_keep_laws();
    let _range = ledger.setup().max();
    let place = next_place(ledger);
    ledger.reserve(1)?;
    ledger.push(entry);
    note_order(&mut before.order, place, entry.event)?;
    note_bytes(&mut before.bytes, entry.event)?;
    Ok(())
}

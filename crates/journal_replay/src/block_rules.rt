//! The rules of blocks in memory: evictions, removals and pins.

ghost use Rattle.std.specs.Prelude.{◌≡◌, ◌<◌, true, false, is_some};
ghost use Rattle.std.specs.Option.{option_map};
ghost use Rattle.pool_ledger.specs.declared.entry.Event.TheVariants.{Evict, Pin, Unpin, Remove};
ghost use Rattle.pool_ledger.specs.Blocks.{is_pinned, is_resident, resident_at, worker_pin};
ghost use Rattle.journal_audit.specs.Rules.{event_checks, first_in, has_size, is_name, may_leave, suits, suits_block};
ghost use Rattle.journal_replay.specs.Replays.{history_of, setup_of, IsReplay};
ghost use Rattle.journal_replay.specs.Tables.{as_pin};

use crate::block_name::BlockName;
use crate::blocks::{block_at, has_block};
use crate::copies::has_copy;
use crate::pins::{is_pin, is_pinned};
use crate::replay::Replay;
use journal_audit::Rule;
use pool_ledger::{Fate, Level};

/// Whether the block is in memory.
pub(crate) fn is_resident(replay: &Replay, dataset: u32, part: u32) -> bool
    requires { IsReplay replay.now }
    ensures { result ≡ is_resident (history_of replay.now) dataset part }
{
    has_block(&replay.tables.blocks, dataset, part)
}

// Whether the block is in memory with this size and isn't pinned.
fn may_leave(replay: &Replay, dataset: u32, part: u32, size: u64) -> bool
    requires { IsReplay replay.now }
    ensures { result ≡ may_leave (history_of replay.now) dataset part size }
{
    has_size(replay, dataset, part, size) && !is_kept(replay, dataset, part)
}

// Whether the block is in memory with this size.
fn has_size(replay: &Replay, dataset: u32, part: u32, size: u64) -> bool
    requires { IsReplay replay.now }
    ensures { result ≡ has_size (resident_at (history_of replay.now) dataset part) size }
{
    match block_at(&replay.tables.blocks, dataset, part) {
        Some(kept) => kept.size == size,
        None => false,
    }
}

// Whether the block is pinned.
fn is_kept(replay: &Replay, dataset: u32, part: u32) -> bool
    requires { IsReplay replay.now }
    ensures { result ≡ is_pinned (history_of replay.now) dataset part }
{
    is_pinned(&replay.tables.pins, dataset, part)
}

// Whether the block, if it is in memory, can be evicted with this fate.
fn suits_block(replay: &Replay, dataset: u32, part: u32, fate: Fate) -> bool
    requires { IsReplay replay.now }
    ensures { result ≡ suits_block fate (resident_at (history_of replay.now) dataset part) }
{
    match block_at(&replay.tables.blocks, dataset, part) {
        Some(kept) => suits(fate, kept.level),
        None => true,
    }
}

// Whether a block of this level can be evicted with this fate.
fn suits(fate: Fate, level: Level) -> bool
    ensures { result ≡ suits fate level }
{
    match (fate, level) {
        (Fate::Gone, _) => true,
        (Fate::Disk, Level::Memory) => false,
        (Fate::Disk, Level::Disk) => true,
        (Fate::NoMemory, Level::Memory) => false,
        (Fate::NoMemory, Level::Disk) => true,
    }
}

// The block that the worker has pinned.
fn worker_pin(replay: &Replay, worker: u32) -> Option<BlockName>
    requires tells { IsReplay replay.now }
    requires known { worker < 16 }
    ensures { result ≡ option_map as_pin (worker_pin (history_of replay.now) worker) }
{
    let pins = &replay.tables.pins;
    pins[worker as usize]
}

// Whether the worker has a pin.
fn has_pin(replay: &Replay, worker: u32) -> bool
    requires tells { IsReplay replay.now }
    requires known { worker < 16 }
    ensures { result ≡ is_some (worker_pin (history_of replay.now) worker) }
{
    worker_pin(replay, worker).is_some()
}

// Whether the worker's pin is this block.
fn is_own_pin(replay: &Replay, worker: u32, dataset: u32, part: u32) -> bool
    requires tells { IsReplay replay.now }
    requires known { worker < 16 }
    ensures { result ≡ is_name (worker_pin (history_of replay.now) worker) dataset part }
{
    is_pin(worker_pin(replay, worker), dataset, part)
}

/// The rule that an eviction breaks.
pub(crate) fn check_evict(
    replay: &Replay,
    worker: u32,
    dataset: u32,
    part: u32,
    size: u64,
    fate: Fate,
) -> Option<Rule>
    requires { IsReplay replay.now }
    ensures { result ≡ first_in (event_checks (setup_of replay.now) (history_of replay.now) worker
        (Evict dataset part size fate)) }
{
    if !may_leave(replay, dataset, part, size) {
        return Some(Rule::Block);
    }
    if !suits_block(replay, dataset, part, fate) {
        return Some(Rule::Block);
    }
    None
}

/// The rule that a removal breaks.
pub(crate) fn check_remove(
    replay: &Replay,
    worker: u32,
    dataset: u32,
    part: u32,
    size: u64,
) -> Option<Rule>
    requires { IsReplay replay.now }
    ensures { result ≡ first_in (event_checks (setup_of replay.now) (history_of replay.now) worker
        (Remove dataset part size)) }
{
    if !may_leave(replay, dataset, part, size) {
        return Some(Rule::Block);
    }
    None
}

/// The rule that a pin breaks, of a block in memory or of a copy.
pub(crate) fn check_pin(
    replay: &Replay,
    worker: u32,
    dataset: u32,
    part: u32,
    copy: bool,
) -> Option<Rule>
    requires tells { IsReplay replay.now }
    requires known { worker < 16 }
    ensures { result ≡ first_in (event_checks (setup_of replay.now) (history_of replay.now) worker
        (Pin dataset part copy)) }
{
    if copy {
        return check_copy(replay, worker, dataset, part);
    }
    check_hit(replay, worker, dataset, part)
}

// The rule that a pin of a block in memory breaks.
fn check_hit(replay: &Replay, worker: u32, dataset: u32, part: u32) -> Option<Rule>
    requires tells { IsReplay replay.now }
    requires known { worker < 16 }
    ensures { result ≡ first_in (event_checks (setup_of replay.now) (history_of replay.now) worker
        (Pin dataset part false)) }
{
    if !is_resident(replay, dataset, part) {
        return Some(Rule::Block);
    }
    if has_pin(replay, worker) {
        return Some(Rule::Pin);
    }
    None
}

// The rule that a pin of a copy breaks.
fn check_copy(replay: &Replay, worker: u32, dataset: u32, part: u32) -> Option<Rule>
    requires tells { IsReplay replay.now }
    requires known { worker < 16 }
    ensures { result ≡ first_in (event_checks (setup_of replay.now) (history_of replay.now) worker
        (Pin dataset part true)) }
{
    if is_resident(replay, dataset, part) {
        return Some(Rule::Block);
    }
    if !has_copy(&replay.tables.copies, dataset, part) {
        return Some(Rule::Block);
    }
    if has_pin(replay, worker) {
        return Some(Rule::Pin);
    }
    None
}

/// The rule that an unpin breaks.
pub(crate) fn check_unpin(replay: &Replay, worker: u32, dataset: u32, part: u32) -> Option<Rule>
    requires tells { IsReplay replay.now }
    requires known { worker < 16 }
    ensures { result ≡ first_in (event_checks (setup_of replay.now) (history_of replay.now) worker
        (Unpin dataset part)) }
{
    if !is_own_pin(replay, worker, dataset, part) {
        return Some(Rule::Pin);
    }
    None
}

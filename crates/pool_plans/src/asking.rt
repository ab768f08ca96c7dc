//! Asks for execution memory.

ghost use Rattle.std.specs.Prelude.{◌≡◌, ◌≤◌, ◌<◌, ◌^◌, ℕ, length, take, Some, None};
ghost use Rattle.pool_ledger.specs.History.{open_task};
ghost use Rattle.pool_ledger.specs.Blocks.{evictable};
ghost use Rattle.pool_ledger.specs.Answers.{answer, growth};
ghost use Rattle.pool_ledger.specs.Legal.{IsPermitted};
ghost use Rattle.execution_pool.specs.Shares.{granted_in};
ghost use Rattle.pool_plans.specs.Listed.{listed};

use crate::choice::{freed_by, ledger_keeps_laws};
use eviction::Candidate;
use execution_pool::{Share, ShareAt, growth, share};
use pool_ledger::Ledger;
use storage_pool::shrink_plan;

/// What an ask moves from storage, in bytes, for how many evictions, and the bytes that it is granted;
/// none is a wait.
#[derive(Clone, Copy, Debug, PartialEq, Eq)]
pub struct AttemptPlan {
    /// The bytes that move from the storage pool to the execution pool.
    pub moved: u64,
    /// How many blocks go: so many of the first that may.
    pub evictions: u64,
    /// The bytes that are granted, which may be fewer than were asked. `None` is a wait.
    pub got: Option<u64>,
}

/// What storage gives for an ask, in bytes.
#[derive(Clone, Copy, Debug, PartialEq, Eq)]
pub struct Room {
    /// The bytes that are free, and so move at once.
    pub unused: u64,
    /// The bytes that blocks have to give; 0 where none has to go, and then `plan_attempt` looks at no list.
    pub need: u64,
}

/// What storage gives for an ask: free bytes first, and only the rest from blocks.
pub fn room_for_attempt(ledger: &Ledger, asked: u64) -> Room
    requires permitted { IsPermitted ledger.now.setup ledger.now.history }
    ensures unused { result.unused ≡ (growth ledger.now.setup ledger.now.history asked).unused }
    ensures need { result.need ≡ (growth ledger.now.setup ledger.now.history asked).need }
{
    ledger_keeps_laws(ledger);
    let storage = ledger.storage_pool();
    let storage_free = storage - ledger.stored();
    let execution_free = ledger.execution_pool() - ledger.exec();
    let target = growth(
        asked,
        execution_free,
        storage,
        storage_free,
        ledger.setup().region(),
    );
    let shrink = shrink_plan(target, storage_free);
    Room {
        unused: shrink.unused,
        need: shrink.need,
    }
}

/// The plan for an ask of a worker's open task, from what storage gives for it and from the blocks in memory
/// in use order. The list is looked at only where blocks have to go.
///
/// After Spark's `UnifiedMemoryManager.acquireExecutionMemory` and `ExecutionMemoryPool.acquireMemory`.
pub fn plan_attempt(
    ledger: &Ledger,
    room: Room,
    list: &[Candidate],
    task: u32,
    asked: u64,
) -> AttemptPlan
    requires permitted { IsPermitted ledger.now.setup ledger.now.history }
    requires unused { room.unused ≡ (growth ledger.now.setup ledger.now.history asked).unused }
    requires need { room.need ≡ (growth ledger.now.setup ledger.now.history asked).need }
    requires listed { 0 < (growth ledger.now.setup ledger.now.history asked).need → list.now ≡ listed ledger.now.history }
    requires its_task { (worker : ℕ) × (open_task ledger.now.history worker ≡ Some task) }
    requires few_asked { asked ≤ 2 ^ 50 }
    ensures moved { result.moved ≡ (growth ledger.now.setup ledger.now.history asked).moved }
    ensures evictions { result.evictions ≡ length (growth ledger.now.setup ledger.now.history asked).evicted }
    ensures got { result.got ≡ answer ledger.now.setup ledger.now.history task asked }

    // The blocks that go are the first of those that may.
    ensures first { take result.evictions (evictable ledger.now.history None)
        ≡ (growth ledger.now.setup ledger.now.history asked).evicted }
    ensures few { result.evictions ≤ length (evictable ledger.now.history None) }
{
    ledger_keeps_laws(ledger);
    let freed = freed_by(ledger, list, room.need, None);
    let moved = room.unused + freed.bytes;
    // The task counts as active from its first ask on, whatever the answer is.
    let newcomers = if ledger.is_active(task) { 0 } else { 1 };
    let got = bytes_of(share(ShareAt {
        max: ledger.max(),
        region: ledger.setup().region(),
        stored: ledger.stored() - freed.bytes,
        pool: ledger.execution_pool() + moved,
        exec: ledger.exec(),
        held: ledger.held(task),
        active: ledger.active() + newcomers,
        asked,
    }));
    AttemptPlan {
        moved,
        evictions: freed.count,
        got,
    }
}

// What is granted, if it is no wait.
fn bytes_of(share: Share) -> Option<u64>
    ensures { result ≡ granted_in share }
{
    match share {
        Share::Grant(bytes) => Some(bytes),
        Share::Wait => None,
    }
}

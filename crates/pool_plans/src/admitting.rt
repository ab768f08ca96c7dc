//! Blocks that are to be kept in memory.

ghost use Rattle.std.specs.Prelude.{◌≡◌, ◌≤◌, ◌<◌, ◌^◌, length, take, true, Some};
ghost use Rattle.pool_ledger.specs.History.{execution_free};
ghost use Rattle.pool_ledger.specs.Blocks.{evictable, storage_free};
ghost use Rattle.pool_ledger.specs.Answers.{admission, borrowed_for};
ghost use Rattle.pool_ledger.specs.Legal.{IsPermitted};
ghost use Rattle.pool_plans.specs.Listed.{listed};
ghost use Rattle.pool_plans.specs.Needs.{lacking_for, may_fit, need_for};

use crate::choice::{freed_by, ledger_keeps_laws};
use eviction::Candidate;
use pool_ledger::Ledger;
use storage_pool::{Borrow, borrow_plan, fits};

/// Whether a block is admitted, what is borrowed from execution for it, in bytes, and for how many
/// evictions.
#[derive(Clone, Copy, Debug, PartialEq, Eq)]
pub struct AdmissionPlan {
    /// Whether there is room for the block, once what is borrowed has moved and what goes is gone.
    pub admitted: bool,
    /// The bytes that move from the execution pool to the storage pool, also where the block is refused.
    pub borrowed: u64,
    /// How many blocks go: so many of the first that may.
    pub evictions: u64,
}

/// The bytes that blocks have to give for a block of this size that isn't in memory; 0 where none has to
/// go, as where it is refused at once, and then `plan_admission` looks at no list.
pub fn need_of_admission(ledger: &Ledger, size: u64) -> u64
    requires permitted { IsPermitted ledger.now.setup ledger.now.history }
    ensures { result ≡ need_for ledger.now.setup ledger.now.history size }
{
    if !may_fit(ledger, size) {
        return 0;
    }
    borrow_for(ledger, size).need
}

/// The plan for a block of this dataset and size that isn't in memory, with the blocks in memory in use
/// order. The list is looked at only where blocks have to go.
///
/// After Spark's `UnifiedMemoryManager.acquireStorageMemory` and `MemoryStore.evictBlocksToFreeSpace`.
pub fn plan_admission(ledger: &Ledger, list: &[Candidate], dataset: u32, size: u64) -> AdmissionPlan
    requires permitted { IsPermitted ledger.now.setup ledger.now.history }
    requires listed { 0 < need_for ledger.now.setup ledger.now.history size → list.now ≡ listed ledger.now.history }
    ensures admitted { result.admitted ≡ (admission ledger.now.setup ledger.now.history dataset size).admitted }
    ensures borrowed { result.borrowed ≡ (admission ledger.now.setup ledger.now.history dataset size).borrowed }
    ensures evictions { result.evictions ≡ length (admission ledger.now.setup ledger.now.history dataset size).evicted }

    // The blocks that go are the first of those that may, none of them of the dataset.
    ensures first { take result.evictions (evictable ledger.now.history (Some dataset))
        ≡ (admission ledger.now.setup ledger.now.history dataset size).evicted }
    ensures few { result.evictions ≤ length (evictable ledger.now.history (Some dataset)) }
{
    if !may_fit(ledger, size) {
        return AdmissionPlan {
            admitted: false,
            borrowed: 0,
            evictions: 0,
        };
    }
    ledger_keeps_laws(ledger);
    let borrow = borrow_for(ledger, size);
    let freed = freed_by(ledger, list, borrow.need, Some(dataset));
    let storage_free = ledger.storage_pool() - ledger.stored();
    AdmissionPlan {
        admitted: fits(size, storage_free + borrow.moved + freed.bytes),
        borrowed: borrow.moved,
        evictions: freed.count,
    }
}

// Whether a block of this size isn't refused at once.
fn may_fit(ledger: &Ledger, size: u64) -> bool
    requires permitted { IsPermitted ledger.now.setup ledger.now.history }
    ensures exact { result ≡ may_fit ledger.now.setup ledger.now.history size }
    ensures small { result ≡ true → size ≤ 2 ^ 50 }
{
    ledger_keeps_laws(ledger);
    size <= ledger.setup().block_limit() && size <= ledger.max() - ledger.exec()
}

// What storage borrows from execution for a block of this size, and what blocks have to give.
fn borrow_for(ledger: &Ledger, size: u64) -> Borrow
    requires permitted { IsPermitted ledger.now.setup ledger.now.history }
    requires small { size ≤ 2 ^ 50 }
    ensures moved { result.moved ≡ borrowed_for size
        (storage_free ledger.now.setup ledger.now.history) (execution_free ledger.now.setup ledger.now.history) }
    ensures need { result.need ≡ lacking_for ledger.now.setup ledger.now.history size }
{
    ledger_keeps_laws(ledger);
    let storage_free = ledger.storage_pool() - ledger.stored();
    let execution_free = ledger.execution_pool() - ledger.exec();
    borrow_plan(size, storage_free, execution_free)
}

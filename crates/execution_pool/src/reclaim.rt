ghost use Rattle.std.specs.Prelude.{◌≡◌, ◌-◌, ◌≤◌, max};
ghost use Rattle.pool_ledger.specs.Answers.{target_of};

/// What an ask takes from the storage pool, in bytes; 0 where execution has enough free.
///
/// All five arguments are bytes, taken before the growth. What the answer has beyond `storage_free` has
/// to come from blocks that are evicted.
/// Source: Spark, `UnifiedMemoryManager.acquireExecutionMemory`, `maybeGrowExecutionPool`.
pub fn growth(
    asked: u64,
    execution_free: u64,
    storage_pool: u64,
    storage_free: u64,
    region: u64,
) -> u64
    ensures exact { result ≡ target_of asked execution_free storage_pool storage_free region }

    // What execution has free is taken first, and storage gives no more than it may lose.
    ensures enough { asked ≤ execution_free → result ≡ 0 }
    ensures lacking { result ≤ asked - execution_free }
    ensures reclaimable { result ≤ max storage_free (storage_pool - region) }
    ensures covered { asked - execution_free ≤ max storage_free (storage_pool - region)
        → result ≡ asked - execution_free }
{
    let lacking = asked.saturating_sub(execution_free);
    let reclaimable = storage_free.max(storage_pool.saturating_sub(region));
    lacking.min(reclaimable)
}

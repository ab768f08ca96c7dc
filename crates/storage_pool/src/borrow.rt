ghost use Rattle.std.specs.Prelude.{◌≡◌, ◌+◌, ◌-◌, ◌^◌, ◌≤◌};
ghost use Rattle.pool_ledger.specs.Answers.{borrowed_for};

/// How storage makes room for a block.
#[derive(Clone, Copy, Debug, PartialEq, Eq)]
pub struct Borrow {
    /// The bytes that move from the execution pool to the storage pool.
    pub moved: u64,
    /// The bytes that blocks still have to give, by evictions.
    pub need: u64,
}

/// How room is made for a block of `size` bytes: what storage has free first, then what execution has
/// free, and only the rest from blocks.
///
/// All three arguments are bytes. What is borrowed stays storage's, also where the block is then refused.
/// Source: Spark, `UnifiedMemoryManager.acquireStorageMemory`.
pub fn borrow_plan(size: u64, storage_free: u64, execution_free: u64) -> Borrow
    requires size { size ≤ 2 ^ 50 }
    requires storage { storage_free ≤ 2 ^ 50 }
    requires execution { execution_free ≤ 2 ^ 50 }
    ensures moved { result.moved ≡ borrowed_for size storage_free execution_free }
    ensures need { result.need ≡ size - (storage_free + result.moved) }

    // A block that fits borrows nothing, and no block goes while execution has enough free.
    ensures fits { size ≤ storage_free → result.moved ≡ 0 }
    ensures free { result.moved ≤ execution_free }
    ensures enough { size ≤ storage_free + execution_free → result.need ≡ 0 }
{
    let moved = execution_free.min(size.saturating_sub(storage_free));
    Borrow {
        moved,
        need: size.saturating_sub(storage_free + moved),
    }
}

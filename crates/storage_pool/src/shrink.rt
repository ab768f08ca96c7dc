ghost use Rattle.std.specs.Prelude.{◌≡◌, ◌+◌, ◌-◌, ◌≤◌, min};

/// How storage gives up bytes for execution.
#[derive(Clone, Copy, Debug, PartialEq, Eq)]
pub struct Shrink {
    /// The bytes that are free, and so move at once.
    pub unused: u64,
    /// The bytes that blocks have to give, by evictions.
    pub need: u64,
}

/// How storage gives up `target` bytes: what it has free first, and only the rest from blocks.
///
/// Both arguments are bytes. What blocks give may be more than `need`, since a block goes whole.
/// Source: Spark, `StorageMemoryPool.freeSpaceToShrinkPool`.
pub fn shrink_plan(target: u64, storage_free: u64) -> Shrink
    ensures unused { result.unused ≡ min target storage_free }
    ensures need { result.need ≡ target - result.unused }

    // Both parts make up the target, and no block goes while free bytes are enough.
    ensures all { result.unused + result.need ≡ target }
    ensures enough { target ≤ storage_free → result.need ≡ 0 }
{
    let unused = target.min(storage_free);
    Shrink {
        unused,
        need: target - unused,
    }
}

ghost use Rattle.std.specs.Prelude.{◌≤◌, ◌↔◌, IsTrue};

/// Whether storage has room for a block of `size` bytes, once what it borrows has moved and what it
/// evicts is gone.
///
/// Source: Spark, `StorageMemoryPool.acquireMemory`.
pub fn fits(size: u64, storage_free: u64) -> bool
    ensures { IsTrue result ↔ (size ≤ storage_free) }
{
    size <= storage_free
}

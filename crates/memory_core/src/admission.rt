//! The answer to a block that is to be kept in memory.

/// What a block is answered that is to be kept in memory. After Spark's `MemoryStore.putIteratorAsValues`.
#[derive(Clone, Copy, Debug, PartialEq, Eq)]
pub enum Admission {
    /// It is in memory now.
    Admitted,
    /// There is no room for it, whatever may be evicted for it.
    Refused,
    /// It is in memory already.
    Resident,
}

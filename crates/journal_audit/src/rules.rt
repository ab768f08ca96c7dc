//! The rules that an entry of a journal can break.

/// A rule of a legal journal, named for what an entry that breaks it has wrong. Where an entry breaks
/// several, the first of them in this order is told.
#[derive(Clone, Copy, Debug, PartialEq, Eq)]
pub enum Rule {
    /// Its worker isn't one of the setup's.
    Worker,
    /// Evictions wait for the event that they are for, and this is another one, or another worker's. At
    /// the end of a journal: the event that they are for never came.
    Pending,
    /// The task was begun before, or the worker has one; or the task isn't the worker's.
    Task,
    /// An ask is for 1 to 2^50 bytes.
    Asked,
    /// The block isn't in memory with this size, or is pinned, or leaves a copy that its level doesn't
    /// have; or it is in memory already; or it has no copy.
    Block,
    /// The worker has a pin, or this isn't it.
    Pin,
    /// Other blocks were evicted than the rules of the pool choose, or another number of them.
    Victims,
    /// Other bytes moved from storage to execution than the rules of the pool move.
    Growth,
    /// The answer isn't the fair share.
    Share,
    /// Other bytes were borrowed from execution, or the block was admitted where it had to be refused, or
    /// the other way round.
    Store,
    /// A task freed more than it held, or not all at its end.
    Freed,
    /// The worker isn't the first one, or a growth isn't of 1 to 2^36 bytes, or the pool would pass 2^41
    /// bytes.
    Grow,
}

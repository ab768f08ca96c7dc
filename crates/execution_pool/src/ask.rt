/// What a task is answered that asks for execution memory.
#[derive(Clone, Copy, Debug, PartialEq, Eq)]
pub enum Share {
    /// The bytes that are granted: as many as were asked, or fewer, or none.
    Grant(u64),
    /// Nothing is granted yet. The task asks again once others have given back.
    Wait,
}

/// The numbers that the answer to an ask depends on: those after its growth, with the task counted as
/// active.
#[derive(Clone, Copy, Debug, PartialEq, Eq)]
pub struct ShareAt {
    /// The bytes of both pools together.
    pub max: u64,
    /// The bytes of storage that execution can't evict.
    pub region: u64,
    /// The bytes of the blocks in memory.
    pub stored: u64,
    /// The bytes of the execution pool.
    pub pool: u64,
    /// The bytes that all tasks hold.
    pub exec: u64,
    /// The bytes that this task holds.
    pub held: u64,
    /// The number of active tasks, this one among them.
    pub active: u64,
    /// The bytes that this task asks.
    pub asked: u64,
}

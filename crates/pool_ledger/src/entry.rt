/// What becomes of a block that is evicted.
#[derive(Clone, Copy, Debug, PartialEq, Eq)]
pub enum Fate {
    /// It has a copy on the store disk.
    Disk,
    /// It was dropped without a copy.
    Gone,
    /// It was dropped for want of memory while its copy was written.
    NoMemory,
}

/// Where the blocks of a kept dataset go when they are evicted.
#[derive(Clone, Copy, Debug, PartialEq, Eq)]
pub enum Level {
    /// Dropped. After Spark's `StorageLevel.MEMORY_ONLY`.
    Memory,
    /// Written to the store disk. After Spark's `StorageLevel.MEMORY_AND_DISK`.
    Disk,
}

/// One event of the pool. Sizes and amounts are bytes; a block is named by its dataset and its part.
#[derive(Clone, Copy, Debug, PartialEq, Eq)]
pub enum Event {
    /// A worker began a task. An event of its own is this project's rule.
    Begin {
        task: u32,
    },
    /// A task asked for memory: what moved from storage to execution, how many blocks were evicted
    /// just before, and what was granted, or `None` where the task has to wait.
    Attempt {
        task: u32,
        asked: u64,
        moved: u64,
        evictions: u64,
        got: Option<u64>,
    },
    /// A task gave memory back.
    Release {
        task: u32,
        freed: u64,
    },
    /// A task ended, and what it gave back then.
    End {
        task: u32,
        freed: u64,
    },
    /// A block was put out of memory.
    Evict {
        dataset: u32,
        part: u32,
        size: u64,
        fate: Fate,
    },
    /// A block was stored: what execution lent for it, and how many blocks were evicted just before.
    Admit {
        dataset: u32,
        part: u32,
        size: u64,
        level: Level,
        borrowed: u64,
        evictions: u64,
    },
    /// A block found no room: what execution lent for it, and how many blocks were evicted just before.
    Refused {
        dataset: u32,
        part: u32,
        size: u64,
        borrowed: u64,
        evictions: u64,
    },
    /// A worker pinned a block in memory, or read the copy of one that isn't there.
    Pin {
        dataset: u32,
        part: u32,
        copy: bool,
    },
    /// A worker gave its pin back.
    Unpin {
        dataset: u32,
        part: u32,
    },
    /// A block that no later pass reads was taken out of memory.
    Remove {
        dataset: u32,
        part: u32,
        size: u64,
    },
    /// Both pools together got so many bytes more, 1 to 2^36, all of them execution's; they have 2^41 at most. The worker
    /// is number 0, whose own entries so tell the bytes of both pools. The region, the floor and the block limit stay those
    /// of the setup. This project's own.
    Grow {
        bytes: u64,
    },
}

/// One entry of the journal: an event, and the number of the worker that caused it.
#[derive(Clone, Copy, Debug, PartialEq, Eq)]
pub struct Entry {
    /// From 0, below the setup's workers.
    pub worker: u32,
    /// What happened.
    pub event: Event,
}

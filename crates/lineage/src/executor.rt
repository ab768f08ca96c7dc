//! What the workers of a pass share.

use memory_lock::{Basis, Manager};
use spill_disk::Disk;
use std::alloc::Global;
use std::sync::Wait;

/// What the workers of a pass share: the handle by which they wait, the allocator, and the manager.
#[derive(Drop)]
pub struct Executor<'a, R: Wait, K: Disk, B: Basis> {
    /// By which its workers wait.
    pub rt: &'a R,
    /// For what its workers keep in memory.
    pub alloc: Global,
    /// Of the pool that has the blocks.
    pub manager: &'a Manager<K, B>,
}

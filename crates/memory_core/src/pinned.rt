//! The answer to a pin.

use block_store::Block;
use std::alloc::Global;
use std::sync::Arc;

/// What a worker is answered that wants to read a block. After Spark's `BlockManager.getLocalValues`; the pin,
/// which keeps a block from eviction, is this project's own.
#[derive(Drop)]
pub enum Pinned {
    /// The block is in memory, and pinned until the worker's unpin.
    Hit(Arc<Block, Global>),
    /// The block isn't in memory: this is its copy, read back from the store disk. It isn't pinned.
    OnDisk(Arc<Block, Global>),
    /// The block isn't in memory, and no copy of it could be read.
    Miss,
}

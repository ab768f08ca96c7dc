//! A block in memory with its pins.

use crate::Block;
use std::alloc::Global;
use std::sync::Arc;

/// A block in memory, and how many pins keep it there.
#[derive(Drop)]
pub(crate) struct Resident {
    pub(crate) block: Arc<Block, Global>,
    pub(crate) pins: u64,
}

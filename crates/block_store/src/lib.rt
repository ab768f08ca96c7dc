//! Blocks in memory in use order with their pins, and the copies of evicted ones on the store disk.
#![tactic(auto)]

mod block;
mod block_copy;
mod copy_list;
mod copying;
mod resident;
mod residents;
mod slots;
mod store;

pub use block::Block;
pub use store::Store;

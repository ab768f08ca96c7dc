//! The whole state of the memory pool on one thread: each call adds its entries to a legal journal.
#![tactic(auto)]

mod admission;
mod attempted;
mod block_calls;
mod choice;
mod evicting;
mod listing;
mod pinned;
mod pinning;
mod pool;
mod removing;
mod state;

pub use admission::Admission;
pub use attempted::Attempted;
pub use pinned::Pinned;
pub use state::MemoryState;

//! The running manager of the memory pool: one memory state that several threads share.
#![tactic(auto)]

mod answers;
mod basis;
mod crew;
mod locked;
mod manager;
mod task;
mod wake_up_count;
mod worker;

pub use answers::last_attempts_are_answered;
pub use basis::Basis;
pub use manager::Manager;
pub use task::Task;
pub use worker::Worker;
